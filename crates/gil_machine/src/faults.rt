//! Why an expression has no value.
use gil_values::OpFault;
use std::alloc::AllocError;
use thiserror::Error;

/// Why an expression has no value that can be held.
#[derive(Clone, Copy, Debug, PartialEq, Eq, Error)]
pub(crate) enum EvaluationFault {
    /// An operand has a kind that the operator doesn't take.
    #[error("an operand has a wrong kind")]
    WrongKind,
    /// The right operand of `/` or `%` is 0.
    #[error("division by zero")]
    Zero,
    /// `nth` at a number that is no place of the list.
    #[error("no element at that place")]
    Range,
    /// A variable has no value.
    #[error("a variable has no value")]
    Unset,
    /// A result leaves 128 bits.
    #[error("the number is too wide")]
    Number,
    /// Want of memory.
    #[error("out of memory")]
    Memory,
}

impl From<AllocError> for EvaluationFault {
    ghost use Rattle.std.specs.Prelude.{◌≡◌};
    ghost use Rattle.gil_machine.specs.declared.faults.EvaluationFault.TheVariants.{Memory};

    ghost from_gives = { λ _ fault. fault ≡ Memory };

    fn from(_fault: AllocError) -> EvaluationFault {
        EvaluationFault::Memory
    }
}

impl From<OpFault> for EvaluationFault {
    ghost use Rattle.std.specs.Prelude.{◌≡◌};
    ghost use Rattle.gil_machine.specs.Gives.{of_operator};

    ghost from_gives = { λ fault given. given ≡ of_operator fault };

    fn from(fault: OpFault) -> EvaluationFault {
        match fault {
            OpFault::WrongKind => EvaluationFault::WrongKind,
            OpFault::Zero => EvaluationFault::Zero,
            OpFault::Range => EvaluationFault::Range,
            OpFault::Number => EvaluationFault::Number,
            OpFault::Memory => EvaluationFault::Memory,
        }
    }
}
