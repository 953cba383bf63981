//! Head lines.
ghost use Rattle.std.specs.Prelude.{◌≡◌, ◌++◌, string_bytes, OnOk};
ghost use Rattle.gil_report.specs.declared.heads.Head.{Head};
ghost use Rattle.gil_report.specs.Lines.{head_line, mode_word};

use crate::heads::{EntryMode, Head};
use crate::pieces::push_counted;
use gil_values::{Text, push_number};
use gillian_words::Language;
use std::alloc::AllocError;

/// The word of a mode.
pub fn word_of_mode(mode: EntryMode) -> &'static str
    ensures { result.now ≡ mode_word mode }
{
    match mode {
        EntryMode::Run => "run",
        EntryMode::Test => "test",
        EntryMode::Infer => "infer",
    }
}

/// Adds the head line.
pub fn push_head(out: &mut String, head: &Head) -> Result<(), AllocError>
    ensures { OnOk result (string_bytes out.new ≡ string_bytes out.old ++ head_line head.now) }
{
    match head {
        Head::Entry {
            mode,
            language,
            entry,
            bound,
        } => push_entry(out, *mode, *language, entry, *bound),
        Head::Check { language, bound } => push_check(out, *language, *bound),
        Head::Solve => out.push_str("gillian solve atoms\n"),
        Head::Sweep { size } => push_counted(out, "gillian sweep ", u64::from(*size)),
    }
}

/// Adds the head line of what is asked of an entry.
fn push_entry(
    out: &mut String,
    mode: EntryMode,
    language: Language,
    entry: &Text,
    bound: u32,
) -> Result<(), AllocError>
    ensures { OnOk result (string_bytes out.new ≡ string_bytes out.old ++ head_line (Head.Entry mode language entry.now bound)) }
{
    out.push_str("gillian ")?;
    out.push_str(word_of_mode(mode))?;
    out.push_str(" ")?;
    out.push_str(language.word())?;
    out.push_str(" entry ")?;
    out.push_str(entry.as_str())?;
    out.push_str(" bound ")?;
    push_number(out, u64::from(bound))?;
    out.push_str("\n")?;
    Ok(())
}

/// Adds the head line of checked specifications.
fn push_check(out: &mut String, language: Language, bound: u32) -> Result<(), AllocError>
    ensures { OnOk result (string_bytes out.new ≡ string_bytes out.old ++ head_line (Head.Check language bound)) }
{
    out.push_str("gillian check ")?;
    out.push_str(language.word())?;
    out.push_str(" bound ")?;
    push_number(out, u64::from(bound))?;
    out.push_str("\n")?;
    Ok(())
}
