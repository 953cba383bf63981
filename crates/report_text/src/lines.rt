//! Lines of answers.
ghost use Rattle.value_text.specs.Reading.{Gives};
ghost use Rattle.gil_report.specs.View.{answer_view};
ghost use Rattle.report_text.specs.Reading as spec;

use crate::answers::body_at;
use crate::specifications::{is_of_specification, specification_at};
use gil_report::Answer;
use std::alloc::Global;
use value_text::{ReadFault, expect};

/// The line of an answer at the front.
#[tactic(auto, unfolding(crate::specs::Reading::answer_at))]
pub(crate) fn answer_at(alloc: Global, bytes: &[u8]) -> Result<(Answer, &[u8]), ReadFault>
    ensures { Gives (λ x. (answer_view x.0, x.1.now)) result (spec.answer_at bytes.now) }
{
    let (answer, rest) = any_at(alloc, bytes)?;
    let rest = expect("\n", rest)?;
    Ok((answer, rest))
}

/// The answer at the front, without the end of its line.
fn any_at(alloc: Global, bytes: &[u8]) -> Result<(Answer, &[u8]), ReadFault>
    ensures { Gives (λ x. (answer_view x.0, x.1.now)) result (spec.any_at bytes.now) }
{
    if is_of_specification(bytes) {
        return specification_at(alloc, bytes);
    }
    body_at(alloc, bytes)
}
