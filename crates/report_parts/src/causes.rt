//! Why specifications aren't verified.
ghost use Rattle.value_text.specs.Reading.{Gives};
ghost use Rattle.gil_report.specs.View.{cause_view};
ghost use Rattle.report_parts.specs.Reading as spec;

use crate::questions::{question_at, witness_at};
use gil_report::{Cause, Lack};
use std::alloc::Global;
use value_text::{ReadFault, behind, expect, name_at, value_at};

/// The cause at the front.
pub fn cause_at(alloc: Global, bytes: &[u8]) -> Result<(Cause, &[u8]), ReadFault>
    ensures { Gives (λ x. (cause_view x.0, x.1.now)) result (spec.cause_at bytes.now) }
{
    if let Some(rest) = behind("fails ", bytes) {
        return fails_at(alloc, rest);
    }
    if let Some(rest) = behind("unknown ", bytes) {
        return undecided_at(alloc, rest);
    }
    if let Some(rest) = behind("depends ", bytes) {
        return depends_at(alloc, rest);
    }
    lacks_at(alloc, bytes)
}

/// A path that fails with a value.
#[tactic(auto, unfolding(crate::specs::Reading::fails_at))]
fn fails_at(alloc: Global, bytes: &[u8]) -> Result<(Cause, &[u8]), ReadFault>
    ensures { Gives (λ x. (cause_view x.0, x.1.now)) result (spec.fails_at bytes.now) }
{
    let (value, rest) = value_at(alloc, bytes)?;
    let rest = expect(" ", rest)?;
    let (witness, rest) = witness_at(alloc, rest)?;
    Ok((Cause::Fails(value, witness), rest))
}

/// Conditions that aren't decided.
#[tactic(auto, unfolding(crate::specs::Reading::undecided_at))]
fn undecided_at(alloc: Global, bytes: &[u8]) -> Result<(Cause, &[u8]), ReadFault>
    ensures { Gives (λ x. (cause_view x.0, x.1.now)) result (spec.undecided_at bytes.now) }
{
    let (question, rest) = question_at(alloc, bytes)?;
    Ok((Cause::Undecided(question), rest))
}

/// A procedure whose specification isn't verified.
#[tactic(auto, unfolding(crate::specs::Reading::depends_at))]
fn depends_at(alloc: Global, bytes: &[u8]) -> Result<(Cause, &[u8]), ReadFault>
    ensures { Gives (λ x. (cause_view x.0, x.1.now)) result (spec.depends_at bytes.now) }
{
    let (name, rest) = name_at(alloc, bytes)?;
    Ok((Cause::Depends(name), rest))
}

/// A path that lacks something.
#[tactic(auto, unfolding(crate::specs::Reading::lacks_at))]
fn lacks_at(alloc: Global, bytes: &[u8]) -> Result<(Cause, &[u8]), ReadFault>
    ensures { Gives (λ x. (cause_view x.0, x.1.now)) result (spec.lacks_at bytes.now) }
{
    let (lack, rest) = lack_at(bytes)?;
    let (witness, rest) = witness_at(alloc, rest)?;
    Ok((Cause::Lacks(lack, witness), rest))
}

/// What a path lacks, with the blank behind it.
fn lack_at(bytes: &[u8]) -> Result<(Lack, &[u8]), ReadFault>
    ensures { Gives (λ x. (x.0, x.1.now)) result (spec.lack_at bytes.now) }
{
    if let Some(rest) = behind("missing ", bytes) {
        return Ok((Lack::Missing, rest));
    }
    if let Some(rest) = behind("post ", bytes) {
        return Ok((Lack::Post, rest));
    }
    if let Some(rest) = behind("invariant ", bytes) {
        return Ok((Lack::Invariant, rest));
    }
    if let Some(rest) = behind("callpre ", bytes) {
        return Ok((Lack::CallPre, rest));
    }
    if let Some(rest) = behind("foldbody ", bytes) {
        return Ok((Lack::FoldBody, rest));
    }
    let rest = expect("cut ", bytes)?;
    Ok((Lack::Cut, rest))
}
