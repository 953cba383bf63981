//! Why an action fails.
ghost use Rattle.std.specs.Prelude.{◌≡◌, IfOk};
ghost use Rattle.mem_model.specs.View.{outcome_view};
ghost use Rattle.mem_model.specs.Pure.{failed};
ghost use Rattle.mem_model.specs.Tables.{failure_text};
ghost use Rattle.gil_values.specs.Pure.{text};
ghost use Rattle.gil_values.specs.Characters.{IsText};

use crate::memory::Outcome;
use gil_values::{Text, Value};
use std::alloc::{AllocError, Global};

/// Why an action fails. It fails with a text, which is the same in all memories.
#[derive(Clone, Copy, Debug, PartialEq, Eq)]
pub enum Failure {
    /// The memory has no such action.
    Action,
    /// The number of arguments is wrong.
    Arity,
    /// An argument is of a wrong kind.
    Kind,
    /// The location was disposed of or freed.
    Gone,
    /// The record has no such name.
    Absent,
    /// The size is no size of a block.
    Size,
    /// The offset is outside the block.
    Bound,
    /// The address isn't the first of its block.
    Free,
}

impl Failure {
    /// The text with which the action fails.
    pub fn as_str(self) -> &'static str
        ensures text { result.now ≡ failure_text self }
        ensures characters { IsText result.now }
    {
        match self {
            Failure::Action => "action",
            Failure::Arity => "arity",
            Failure::Kind => "type",
            Failure::Gone => "gone",
            Failure::Absent => "absent",
            Failure::Size => "size",
            Failure::Bound => "bound",
            Failure::Free => "free",
        }
    }

    /// The outcome of an action that fails so.
    pub fn outcome(self, alloc: Global) -> Result<Outcome, AllocError>
        ensures { IfOk result (λ o. outcome_view o ≡ failed (text (failure_text self))) }
    {
        match Text::from_str(alloc, self.as_str())? {
            Some(text) => Ok(Outcome::Failed(Value::Str(text))),
            None => unreachable!(),
        }
    }
}
