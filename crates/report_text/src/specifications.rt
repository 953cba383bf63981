//! Answers about specifications.
ghost use Rattle.std.specs.Prelude.{◌≡◌, is_some};
ghost use Rattle.value_text.specs.Reading as bytes_spec;
ghost use Rattle.value_text.specs.Reading.{Gives};
ghost use Rattle.gil_report.specs.View.{answer_view};
ghost use Rattle.report_text.specs.Reading as spec;

use gil_report::Answer;
use gil_values::Text;
use proof_text::proof_at;
use report_parts::cause_at;
use std::alloc::Global;
use value_text::{ReadFault, behind, expect, name_at, past_name};

/// Whether a word stands at the front.
fn has_word(word: &str, bytes: &[u8]) -> bool
    ensures { result ≡ is_some (bytes_spec.behind word.now bytes.now) }
{
    match behind(word, bytes) {
        Some(_) => true,
        None => false,
    }
}

/// Whether the status of a specification stands at the front.
fn tells(bytes: &[u8]) -> bool
    ensures { result ≡ spec.tells bytes.now }
{
    has_word(" verified\n", bytes) || has_word(" vacuous ", bytes) || has_word(" unproved ", bytes)
}

/// Whether the status of a specification stands behind the name at the front.
pub(crate) fn is_of_specification(bytes: &[u8]) -> bool
    ensures { result ≡ spec.is_of_specification bytes.now }
{
    tells(past_name(bytes))
}

/// The answer at the front, which is of a specification.
#[tactic(auto, unfolding(crate::specs::Reading::specification_at))]
pub(crate) fn specification_at(alloc: Global, bytes: &[u8]) -> Result<(Answer, &[u8]), ReadFault>
    ensures { Gives (λ x. (answer_view x.0, x.1.now)) result (spec.specification_at bytes.now) }
{
    let (name, rest) = name_at(alloc, bytes)?;
    status_at(alloc, name, rest)
}

/// The answer about the specification with this name, whose status is at the front.
fn status_at(alloc: Global, name: Text, bytes: &[u8]) -> Result<(Answer, &[u8]), ReadFault>
    ensures { Gives (λ x. (answer_view x.0, x.1.now)) result (spec.status_at name bytes.now) }
{
    if let Some(rest) = behind(" verified", bytes) {
        return Ok((Answer::Verified(name), rest));
    }
    if let Some(rest) = behind(" vacuous ", bytes) {
        return vacuous_at(alloc, name, rest);
    }
    let rest = expect(" unproved ", bytes)?;
    unproved_at(alloc, name, rest)
}

/// The proof that nothing meets the precondition of the specification with this name.
#[tactic(auto, unfolding(crate::specs::Reading::vacuous_at))]
fn vacuous_at(alloc: Global, name: Text, bytes: &[u8]) -> Result<(Answer, &[u8]), ReadFault>
    ensures { Gives (λ x. (answer_view x.0, x.1.now)) result (spec.vacuous_at name bytes.now) }
{
    let (proof, rest) = proof_at(alloc, bytes)?;
    Ok((Answer::Vacuous(name, proof), rest))
}

/// Why the specification with this name isn't verified.
#[tactic(auto, unfolding(crate::specs::Reading::unproved_at))]
fn unproved_at(alloc: Global, name: Text, bytes: &[u8]) -> Result<(Answer, &[u8]), ReadFault>
    ensures { Gives (λ x. (answer_view x.0, x.1.now)) result (spec.unproved_at name bytes.now) }
{
    let (cause, rest) = cause_at(alloc, bytes)?;
    Ok((Answer::Unproved(name, cause), rest))
}
