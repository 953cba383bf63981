//! The lines of answers.
ghost use Rattle.std.specs.Prelude.{◌≡◌, map};
ghost use Rattle.gil_syntax.specs.View.{assertion_view, spec_view};
ghost use Rattle.value_text.specs.Reading.{Gives};
ghost use Rattle.gil_report.specs.View.{answer_view};
ghost use Rattle.report_text.specs.Reading as spec;

use gil_report::Answer;
use gil_syntax::{Assertions, Spec};
use proof_text::proof_at;
use report_parts::{bindings_at, place_at, question_at};
use specification_text::specification_at;
use std::alloc::Global;
use value_text::{ReadFault, begins_name, behind, expect, long_at, small_at, value_at, values_at};

/// The answer at the front, without the end of its line.
pub(crate) fn body_at(alloc: Global, bytes: &[u8]) -> Result<(Answer, &[u8]), ReadFault>
    ensures { Gives (λ x. (answer_view x.0, x.1.now)) result (spec.body_at bytes.now) }
{
    if let Some(rest) = behind("returned ", bytes) {
        return returned_at(alloc, rest);
    }
    if let Some(rest) = behind("failed ", bytes) {
        return failed_at(alloc, rest);
    }
    if let Some(rest) = behind("vanished", bytes) {
        return Ok((Answer::Vanished, rest));
    }
    if let Some(rest) = behind("cut", bytes) {
        return Ok((Answer::Cut, rest));
    }
    if let Some(rest) = behind("no input ", bytes) {
        return no_input_at(rest);
    }
    rarer_at(alloc, bytes)
}

/// The answer at the front, if it is one of the others.
fn rarer_at(alloc: Global, bytes: &[u8]) -> Result<(Answer, &[u8]), ReadFault>
    ensures { Gives (λ x. (answer_view x.0, x.1.now)) result (spec.rarer_at bytes.now) }
{
    if let Some(rest) = behind("bad input ", bytes) {
        return bad_input_at(rest);
    }
    if let Some(rest) = behind("number ", bytes) {
        return number_at(alloc, rest);
    }
    if let Some(rest) = behind("clean", bytes) {
        return Ok((Answer::Clean, rest));
    }
    if let Some(rest) = behind("bug ", bytes) {
        return bug_at(alloc, rest);
    }
    solved_at(alloc, bytes)
}

/// The answer at the front, if it is about a list of atoms, a verdict that isn't decided, a specification that was found or a length.
fn solved_at(alloc: Global, bytes: &[u8]) -> Result<(Answer, &[u8]), ReadFault>
    ensures { Gives (λ x. (answer_view x.0, x.1.now)) result (spec.solved_at bytes.now) }
{
    if let Some(rest) = behind("sat ", bytes) {
        return sat_at(alloc, rest);
    }
    if let Some(rest) = behind("unsat ", bytes) {
        return unsat_at(alloc, rest);
    }
    if let Some(rest) = behind("unknown ", bytes) {
        return unknown_at(alloc, rest);
    }
    if let Some(rest) = behind("spec ", bytes) {
        return found_at(alloc, rest);
    }
    let rest = expect("bytes ", bytes)?;
    length_at(rest)
}

/// A run that returned.
#[tactic(auto, unfolding(crate::specs::Reading::returned_at))]
fn returned_at(alloc: Global, bytes: &[u8]) -> Result<(Answer, &[u8]), ReadFault>
    ensures { Gives (λ x. (answer_view x.0, x.1.now)) result (spec.returned_at bytes.now) }
{
    let (value, rest) = value_at(alloc, bytes)?;
    Ok((Answer::Returned(value), rest))
}

/// A run that failed.
#[tactic(auto, unfolding(crate::specs::Reading::failed_at))]
fn failed_at(alloc: Global, bytes: &[u8]) -> Result<(Answer, &[u8]), ReadFault>
    ensures { Gives (λ x. (answer_view x.0, x.1.now)) result (spec.failed_at bytes.now) }
{
    let (value, rest) = value_at(alloc, bytes)?;
    let rest = expect(" ", rest)?;
    let (place, rest) = place_at(alloc, rest)?;
    Ok((Answer::Failed(value, place), rest))
}

/// A draw without input.
#[tactic(auto, unfolding(crate::specs::Reading::no_input_at))]
fn no_input_at(bytes: &[u8]) -> Result<(Answer, &[u8]), ReadFault>
    ensures { Gives (λ x. (answer_view x.0, x.1.now)) result (spec.no_input_at bytes.now) }
{
    let (draw, rest) = small_at(bytes)?;
    Ok((Answer::NoInput(draw), rest))
}

/// A draw whose input has another kind.
#[tactic(auto, unfolding(crate::specs::Reading::bad_input_at))]
fn bad_input_at(bytes: &[u8]) -> Result<(Answer, &[u8]), ReadFault>
    ensures { Gives (λ x. (answer_view x.0, x.1.now)) result (spec.bad_input_at bytes.now) }
{
    let (draw, rest) = small_at(bytes)?;
    Ok((Answer::BadInput(draw), rest))
}

/// A result that leaves 128 bits.
#[tactic(auto, unfolding(crate::specs::Reading::number_at))]
fn number_at(alloc: Global, bytes: &[u8]) -> Result<(Answer, &[u8]), ReadFault>
    ensures { Gives (λ x. (answer_view x.0, x.1.now)) result (spec.number_at bytes.now) }
{
    let (place, rest) = place_at(alloc, bytes)?;
    Ok((Answer::Number(place), rest))
}

/// A bug.
#[tactic(auto, unfolding(crate::specs::Reading::bug_at))]
fn bug_at(alloc: Global, bytes: &[u8]) -> Result<(Answer, &[u8]), ReadFault>
    ensures { Gives (λ x. (answer_view x.0, x.1.now)) result (spec.bug_at bytes.now) }
{
    let (place, rest) = place_at(alloc, bytes)?;
    let rest = expect(" ", rest)?;
    let (value, rest) = value_at(alloc, rest)?;
    let rest = expect(" inputs ", rest)?;
    let (inputs, rest) = values_at(alloc, rest)?;
    let bug = Answer::Bug {
        place,
        value,
        inputs,
    };
    Ok((bug, rest))
}

/// The length of a made text.
#[tactic(auto, unfolding(crate::specs::Reading::length_at))]
fn length_at(bytes: &[u8]) -> Result<(Answer, &[u8]), ReadFault>
    ensures { Gives (λ x. (answer_view x.0, x.1.now)) result (spec.length_at bytes.now) }
{
    let (length, rest) = long_at(bytes)?;
    Ok((Answer::Bytes(length), rest))
}

/// Values that make every atom true.
#[tactic(auto, unfolding(crate::specs::Reading::sat_at))]
fn sat_at(alloc: Global, bytes: &[u8]) -> Result<(Answer, &[u8]), ReadFault>
    ensures { Gives (λ x. (answer_view x.0, x.1.now)) result (spec.sat_at bytes.now) }
{
    let (bindings, rest) = bindings_at(alloc, bytes)?;
    Ok((Answer::Sat(bindings), rest))
}

/// A proof that no values make every atom true.
#[tactic(auto, unfolding(crate::specs::Reading::unsat_at))]
fn unsat_at(alloc: Global, bytes: &[u8]) -> Result<(Answer, &[u8]), ReadFault>
    ensures { Gives (λ x. (answer_view x.0, x.1.now)) result (spec.unsat_at bytes.now) }
{
    let (proof, rest) = proof_at(alloc, bytes)?;
    Ok((Answer::Unsat(proof), rest))
}

/// A specification that was found.
#[tactic(auto, unfolding(crate::specs::Reading::found_at))]
fn found_at(alloc: Global, bytes: &[u8]) -> Result<(Answer, &[u8]), ReadFault>
    ensures { Gives (λ x. (answer_view x.0, x.1.now)) result (spec.found_at bytes.now) }
{
    let (found, rest) = specification_at(alloc, bytes)?;
    marked_at(found, rest)
}

/// A specification that was found, whose mark is at the front, and what follows.
fn marked_at(found: Spec, bytes: &[u8]) -> Result<(Answer, &[u8]), ReadFault>
    ensures { Gives (λ x. (answer_view x.0, x.1.now)) result (spec.marked_at (spec_view found) bytes.now) }
{
    if is_open(&found) {
        let rest = expect(" cut", bytes)?;
        let cut = Answer::Found {
            spec: found,
            cut: true,
        };
        return Ok((cut, rest));
    }
    let whole = Answer::Found {
        spec: found,
        cut: false,
    };
    Ok((whole, bytes))
}

/// Whether a specification doesn't say how its runs end. Such ones are cut, and no others.
fn is_open(found: &Spec) -> bool
    ensures { result ≡ spec.is_open (spec_view found.now) }
{
    has_none(&found.posts) && has_none(&found.errors)
}

/// Whether there are no postconditions.
fn has_none(posts: &Assertions) -> bool
    ensures { result ≡ spec.has_none (map assertion_view posts.now) }
{
    match posts.as_slice() {
        [_, ..] => false,
        [] => true,
    }
}

/// What isn't decided.
fn unknown_at(alloc: Global, bytes: &[u8]) -> Result<(Answer, &[u8]), ReadFault>
    ensures { Gives (λ x. (answer_view x.0, x.1.now)) result (spec.unknown_at bytes.now) }
{
    if begins_name(bytes) {
        return undecided_at(alloc, bytes);
    }
    outside_at(bytes)
}

/// Conditions that aren't decided.
#[tactic(auto, unfolding(crate::specs::Reading::undecided_at))]
fn undecided_at(alloc: Global, bytes: &[u8]) -> Result<(Answer, &[u8]), ReadFault>
    ensures { Gives (λ x. (answer_view x.0, x.1.now)) result (spec.undecided_at bytes.now) }
{
    let (question, rest) = question_at(alloc, bytes)?;
    Ok((Answer::Undecided(question), rest))
}

/// The place of an atom that keeps a list out of the fragment.
#[tactic(auto, unfolding(crate::specs::Reading::outside_at))]
fn outside_at(bytes: &[u8]) -> Result<(Answer, &[u8]), ReadFault>
    ensures { Gives (λ x. (answer_view x.0, x.1.now)) result (spec.outside_at bytes.now) }
{
    let (place, rest) = long_at(bytes)?;
    Ok((Answer::Unknown(place), rest))
}
