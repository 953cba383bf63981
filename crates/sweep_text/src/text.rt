//! The made text of a size.
ghost use Rattle.std.specs.Prelude.{◌≡◌, ◌≤◌, ◌<◌, ◌+◌, ◌-◌, ◌*◌, ◌/◌, ◌++◌, string_bytes, OnOk, IfOk};
ghost use Rattle.std.specs.List.{flat_map, range_with_len};
ghost use Rattle.sweep_text.specs.Made.{assertion_lines, call_line, function_lines, functions, main_lines, made_text};

use crate::lines::{push_assertion, push_call, push_end, push_numbered};
use std::alloc::{AllocError, Global};

/// The most numbers that a function asserts.
const MOST: u32 = 50;

/// The text of the program with so many assertions.
pub fn sweep_text(alloc: Global, size: u32) -> Result<Vec<u8>, AllocError>
    requires { size ≤ 1000 }
    ensures { IfOk result (λ text. text.items ≡ made_text size) }
{
    let mut out = String::new(alloc);
    push_main(&mut out, size)?;
    push_functions(&mut out, size)?;
    Ok(out.into_bytes())
}

/// How many functions the program has beside the first.
fn function_count(size: u32) -> u32
    requires { size ≤ 1000 }
    ensures { result ≡ (size + 49) / 50 }
{
    (size + (MOST - 1)) / MOST
}

/// Adds the function that calls the others.
fn push_main(out: &mut String, size: u32) -> Result<(), AllocError>
    requires { size ≤ 1000 }
    ensures { OnOk result (string_bytes out.new ≡ string_bytes out.old ++ main_lines size) }
{
    out.push_str("func main() {\na = new {v: 0};\n")?;
    push_calls(out, function_count(size))?;
    push_end(out)?;
    Ok(())
}

/// Adds the calls of so many functions.
fn push_calls(out: &mut String, count: u32) -> Result<(), AllocError>
    ensures { OnOk result (string_bytes out.new ≡ string_bytes out.old ++ flat_map call_line (range_with_len 0 count)) }
{
    for function in 0..count {
        push_call(out, function)?;
    }
    Ok(())
}

/// Adds the functions that are called.
fn push_functions(out: &mut String, size: u32) -> Result<(), AllocError>
    requires { size ≤ 1000 }
    ensures { OnOk result (string_bytes out.new ≡ string_bytes out.old ++ flat_map (function_lines size) (functions size)) }
{
    let count = function_count(size);
    for function in 0..count {
        push_function(out, size, function)?;
    }
    Ok(())
}

/// Adds a function that is called.
fn push_function(out: &mut String, size: u32, function: u32) -> Result<(), AllocError>
    requires size { size ≤ 1000 }
    requires function { 50 * function < size }
    ensures { OnOk result (string_bytes out.new ≡ string_bytes out.old ++ function_lines size function) }
{
    let before = MOST * function;
    let last = size.min(before + MOST);
    push_numbered(out, "func w", function, "(a) {")?;
    push_assertions(out, before + 1, last + 1)?;
    push_end(out)
}

/// Adds the assertions of the numbers from one on that are less than another.
fn push_assertions(out: &mut String, first: u32, end: u32) -> Result<(), AllocError>
    requires { first ≤ end }
    ensures { OnOk result (string_bytes out.new
        ≡ string_bytes out.old ++ flat_map assertion_lines (range_with_len first (end - first))) }
{
    for number in first..end {
        push_assertion(out, number)?;
    }
    Ok(())
}
