//! Conditions.
ghost use Rattle.std.specs.Prelude.{map};
ghost use Rattle.value_text.specs.Reading.{Gives};
ghost use Rattle.gil_report.specs.Pure as pure;
ghost use Rattle.gil_report.specs.View.{condition_view};
ghost use Rattle.report_parts.specs.Reading as spec;

use expression_text::expression_at;
use gil_report::{Condition, Conditions};
use list_text::{Reader, list_at};
use std::alloc::Global;
use value_text::{ReadFault, behind, expect};

struct ConditionReader;

impl Reader for ConditionReader {
    type Item = Condition;

    ghost Pure = { pure.PureCondition };

    ghost view = { condition_view };

    ghost reading = { spec.condition_at };

    fn item_at(alloc: Global, bytes: &[u8]) -> Result<(Condition, &[u8]), ReadFault> {
        condition_at(alloc, bytes)
    }
}

/// The conditions at the front, in brackets.
pub(crate) fn conditions_at(alloc: Global, bytes: &[u8]) -> Result<(Conditions, &[u8]), ReadFault>
    ensures { Gives (λ x. (map condition_view x.0, x.1.now)) result (spec.conditions_at bytes.now) }
{
    list_at::<ConditionReader>(alloc, bytes)
}

/// The condition at the front.
fn condition_at(alloc: Global, bytes: &[u8]) -> Result<(Condition, &[u8]), ReadFault>
    ensures { Gives (λ x. (condition_view x.0, x.1.now)) result (spec.condition_at bytes.now) }
{
    if let Some(rest) = behind("open(", bytes) {
        return open_at(alloc, rest);
    }
    let (expression, rest) = expression_at(alloc, bytes)?;
    Ok((Condition::Holds(expression), rest))
}

/// That an expression has a value, behind the opening parenthesis.
#[tactic(auto, unfolding(crate::specs::Reading::open_at))]
fn open_at(alloc: Global, bytes: &[u8]) -> Result<(Condition, &[u8]), ReadFault>
    ensures { Gives (λ x. (condition_view x.0, x.1.now)) result (spec.open_at bytes.now) }
{
    let (expression, rest) = expression_at(alloc, bytes)?;
    let rest = expect(")", rest)?;
    Ok((Condition::Open(expression), rest))
}
