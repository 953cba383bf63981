//! How a run ends, without its memory.
ghost use Rattle.std.specs.Prelude.{IfOk};
ghost use Rattle.gil_values.specs.Characters.{IsText};
ghost use Rattle.gil_values.specs.Pure.{text as pure_text};
ghost use Rattle.gil_machine.specs.Standing.{EndsAs, FaultEnds};
ghost use Rattle.gil_machine.specs.State.{failed};

use crate::faults::EvaluationFault;
use gil_values::{Place, Text, Value};
use std::alloc::{AllocError, Global};

/// How a run ends, where it does.
#[derive(Debug, Drop)]
pub(crate) enum Ending {
    Returned(Value),
    Threw(Value, Place),
    Failed(Value, Place),
    Vanished,
    NoInput(u32),
    BadInput(u32),
    Number(Place),
}

/// The failure with a text at a place.
pub(crate) fn failure(alloc: Global, text: &str, place: Place) -> Result<Ending, AllocError>
    requires { IsText text.now }
    ensures { IfOk result (λ ending. EndsAs ending (failed (pure_text text.now) place)) }
{
    match Text::from_str(alloc, text)? {
        Some(text) => Ok(Ending::Failed(Value::Str(text), place)),
        None => unreachable!(),
    }
}

/// How a run ends at a fault of evaluation.
pub(crate) fn fault_ending(
    alloc: Global,
    fault: EvaluationFault,
    place: Place,
) -> Result<Ending, AllocError>
    ensures { IfOk result (λ ending. FaultEnds fault place ending) }
{
    match fault {
        EvaluationFault::WrongKind => failure(alloc, "type", place),
        EvaluationFault::Zero => failure(alloc, "zero", place),
        EvaluationFault::Range => failure(alloc, "range", place),
        EvaluationFault::Unset => failure(alloc, "unset", place),
        EvaluationFault::Number => Ok(Ending::Number(place)),
        EvaluationFault::Memory => Err(AllocError),
    }
}
