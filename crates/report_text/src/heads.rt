//! Head lines.
ghost use Rattle.std.specs.Prelude.{◌≡◌};
ghost use Rattle.value_text.specs.Reading.{Gives};
ghost use Rattle.report_text.specs.Reading as spec;

use gil_report::{EntryMode, Head};
use gillian_words::Language;
use std::alloc::Global;
use value_text::{ReadFault, behind, expect, name_at, small_at};

/// The language at the front.
fn language_at(bytes: &[u8]) -> Result<(Language, &[u8]), ReadFault>
    ensures { Gives (λ x. (x.0, x.1.now)) result (spec.language_at bytes.now) }
{
    if let Some(rest) = behind("gil-record", bytes) {
        return Ok((Language::GilRecord, rest));
    }
    if let Some(rest) = behind("gil-block", bytes) {
        return Ok((Language::GilBlock, rest));
    }
    if let Some(rest) = behind("gil-object", bytes) {
        return Ok((Language::GilObject, rest));
    }
    if let Some(rest) = behind("while", bytes) {
        return Ok((Language::While, rest));
    }
    if let Some(rest) = behind("clike", bytes) {
        return Ok((Language::Clike, rest));
    }
    let rest = expect("object", bytes)?;
    Ok((Language::Object, rest))
}

/// The mode at the front, of those that ask about an entry.
fn mode_at(bytes: &[u8]) -> Result<(EntryMode, &[u8]), ReadFault>
    ensures { Gives (λ x. (x.0, x.1.now)) result (spec.mode_at bytes.now) }
{
    if let Some(rest) = behind("run", bytes) {
        return Ok((EntryMode::Run, rest));
    }
    if let Some(rest) = behind("test", bytes) {
        return Ok((EntryMode::Test, rest));
    }
    let rest = expect("infer", bytes)?;
    Ok((EntryMode::Infer, rest))
}

/// The head line at the front.
#[tactic(auto, unfolding(crate::specs::Reading::head_at))]
pub(crate) fn head_at(alloc: Global, bytes: &[u8]) -> Result<(Head, &[u8]), ReadFault>
    ensures { Gives (λ x. (x.0, x.1.now)) result (spec.head_at bytes.now) }
{
    let rest = expect("gillian ", bytes)?;
    asked_at(alloc, rest)
}

/// The rest of a head line, behind its first word.
fn asked_at(alloc: Global, bytes: &[u8]) -> Result<(Head, &[u8]), ReadFault>
    ensures { Gives (λ x. (x.0, x.1.now)) result (spec.asked_at bytes.now) }
{
    if let Some(rest) = behind("check ", bytes) {
        return check_at(rest);
    }
    if let Some(rest) = behind("solve atoms\n", bytes) {
        return Ok((Head::Solve, rest));
    }
    if let Some(rest) = behind("sweep ", bytes) {
        return sweep_at(rest);
    }
    entry_at(alloc, bytes)
}

/// What is asked of specifications, behind the mode.
#[tactic(auto, unfolding(crate::specs::Reading::check_at))]
fn check_at(bytes: &[u8]) -> Result<(Head, &[u8]), ReadFault>
    ensures { Gives (λ x. (x.0, x.1.now)) result (spec.check_at bytes.now) }
{
    let (language, rest) = language_at(bytes)?;
    let rest = expect(" bound ", rest)?;
    let (bound, rest) = small_at(rest)?;
    let rest = expect("\n", rest)?;
    Ok((Head::Check { language, bound }, rest))
}

/// How large a made text is, behind the mode.
#[tactic(auto, unfolding(crate::specs::Reading::sweep_at))]
fn sweep_at(bytes: &[u8]) -> Result<(Head, &[u8]), ReadFault>
    ensures { Gives (λ x. (x.0, x.1.now)) result (spec.sweep_at bytes.now) }
{
    let (size, rest) = small_at(bytes)?;
    let rest = expect("\n", rest)?;
    Ok((Head::Sweep { size }, rest))
}

/// What is asked of an entry, with the mode.
#[tactic(auto, unfolding(crate::specs::Reading::entry_at))]
fn entry_at(alloc: Global, bytes: &[u8]) -> Result<(Head, &[u8]), ReadFault>
    ensures { Gives (λ x. (x.0, x.1.now)) result (spec.entry_at bytes.now) }
{
    let (mode, rest) = mode_at(bytes)?;
    let rest = expect(" ", rest)?;
    let (language, rest) = language_at(rest)?;
    let rest = expect(" entry ", rest)?;
    let (entry, rest) = name_at(alloc, rest)?;
    let rest = expect(" bound ", rest)?;
    let (bound, rest) = small_at(rest)?;
    let rest = expect("\n", rest)?;
    let head = Head::Entry {
        mode,
        language,
        entry,
        bound,
    };
    Ok((head, rest))
}
