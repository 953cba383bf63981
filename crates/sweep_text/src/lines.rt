//! The lines of a made text.
ghost use Rattle.std.specs.Prelude.{◌≡◌, ◌++◌, string_bytes, OnOk};
ghost use Rattle.sweep_text.specs.Made.{assertion_lines, call_line, drawn_lines, end_lines, kept_lines, numbered_line};

use gil_values::push_number;
use std::alloc::AllocError;

/// Adds a line with a number between two texts.
pub fn push_numbered(
    out: &mut String,
    before: &str,
    number: u32,
    behind: &str,
) -> Result<(), AllocError>
    ensures { OnOk result (string_bytes out.new ≡ string_bytes out.old ++ numbered_line before.now number behind.now) }
{
    out.push_str(before)?;
    push_number(out, u64::from(number))?;
    out.push_str(behind)?;
    out.push_str("\n")
}

/// Adds the statements that draw a number.
fn push_drawn(out: &mut String, number: u32) -> Result<(), AllocError>
    ensures { OnOk result (string_bytes out.new ≡ string_bytes out.old ++ drawn_lines number) }
{
    out.push_str("x = input int;\n")?;
    push_numbered(out, "assume((", number, " <= x));")?;
    push_numbered(out, "assume((x <= ", number, "));")
}

/// Adds the statements that assert a number of what was drawn.
fn push_kept(out: &mut String, number: u32) -> Result<(), AllocError>
    ensures { OnOk result (string_bytes out.new ≡ string_bytes out.old ++ kept_lines number) }
{
    out.push_str("a.v = x;\ny = a.v;\n")?;
    push_numbered(out, "assert((y = ", number, "));")
}

/// Adds the statements that draw and assert a number.
pub fn push_assertion(out: &mut String, number: u32) -> Result<(), AllocError>
    ensures { OnOk result (string_bytes out.new ≡ string_bytes out.old ++ assertion_lines number) }
{
    push_drawn(out, number)?;
    push_kept(out, number)?;
    Ok(())
}

/// Adds the call of a function.
pub fn push_call(out: &mut String, function: u32) -> Result<(), AllocError>
    ensures { OnOk result (string_bytes out.new ≡ string_bytes out.old ++ call_line function) }
{
    push_numbered(out, "r = w", function, "(a);")
}

/// Adds what ends a function.
pub fn push_end(out: &mut String) -> Result<(), AllocError>
    ensures { OnOk result (string_bytes out.new ≡ string_bytes out.old ++ end_lines) }
{
    out.push_str("return 0;\n}\n")
}
