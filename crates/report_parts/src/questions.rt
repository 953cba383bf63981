//! Conditions that aren't decided, and paths with values under which they are taken.
ghost use Rattle.value_text.specs.Reading.{Gives};
ghost use Rattle.gil_report.specs.View.{question_view, witness_view};
ghost use Rattle.report_parts.specs.Reading as spec;

use crate::bindings::bindings_at;
use crate::conditions::conditions_at;
use crate::numbers::choices_at;
use crate::places::place_at;
use crate::sorts::sorts_at;
use gil_report::{Question, Witness};
use std::alloc::Global;
use value_text::{ReadFault, expect, long_at};

/// The conditions at the front that aren't decided.
#[tactic(auto, unfolding(crate::specs::Reading::question_at))]
pub fn question_at(alloc: Global, bytes: &[u8]) -> Result<(Question, &[u8]), ReadFault>
    ensures { Gives (λ x. (question_view x.0, x.1.now)) result (spec.question_at bytes.now) }
{
    let (place, rest) = place_at(alloc, bytes)?;
    let rest = expect(" path ", rest)?;
    let (path, rest) = choices_at(alloc, rest)?;
    let rest = expect(" vars ", rest)?;
    let (vars, rest) = sorts_at(alloc, rest)?;
    let rest = expect(" given ", rest)?;
    let (given, rest) = conditions_at(alloc, rest)?;
    let rest = expect(" query ", rest)?;
    let (query, rest) = conditions_at(alloc, rest)?;
    let rest = expect(" outside ", rest)?;
    let (outside, rest) = long_at(rest)?;
    let question = Question {
        place,
        path,
        vars,
        given,
        query,
        outside,
    };
    Ok((question, rest))
}

/// The path at the front, with its values.
#[tactic(auto, unfolding(crate::specs::Reading::witness_at))]
pub(crate) fn witness_at(alloc: Global, bytes: &[u8]) -> Result<(Witness, &[u8]), ReadFault>
    ensures { Gives (λ x. (witness_view x.0, x.1.now)) result (spec.witness_at bytes.now) }
{
    let (place, rest) = place_at(alloc, bytes)?;
    let rest = expect(" path ", rest)?;
    let (path, rest) = choices_at(alloc, rest)?;
    let rest = expect(" with ", rest)?;
    let (with, rest) = bindings_at(alloc, rest)?;
    Ok((Witness { place, path, with }, rest))
}
