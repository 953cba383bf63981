//! The operators on values, by the operator table.
ghost use Rattle.std.specs.Prelude.{◌≡◌};
ghost use Rattle.gil_values.specs.Answers.{Answers};
ghost use Rattle.gil_values.specs.Operators.{unary, binary};
ghost use Rattle.gil_values.specs.declared.apply.OpFault.TheVariants.{Memory};
ghost use Rattle.gil_values.specs.View.{value_view};

mod booleans;
mod integers;
mod sequences;

use crate::operators::{BinOp, UnOp};
use crate::tree::Value;
use std::alloc::{AllocError, Global};
use thiserror::Error;

/// Why an operator has no value. Kinds are tested before zero and range, and these before the number's width.
#[derive(Clone, Copy, Debug, PartialEq, Eq, Error)]
pub enum OpFault {
    /// An operand has a kind that the operator doesn't take.
    #[error("an operand has a wrong kind")]
    WrongKind,
    /// The right operand of `/` or `%` is 0.
    #[error("division by zero")]
    Zero,
    /// `nth` at a number that is no place of the list.
    #[error("no element at that place")]
    Range,
    /// The result is a whole number below -2^127 or above 2^127 - 1.
    #[error("the number is too wide")]
    Number,
    /// Want of memory.
    #[error("out of memory")]
    Memory,
}

impl From<AllocError> for OpFault {
    ghost from_gives = { λ _ fault. fault ≡ Memory };

    fn from(_: AllocError) -> OpFault {
        OpFault::Memory
    }
}

/// Applies an operator of one operand.
pub fn apply1(_alloc: Global, op: UnOp, a: &Value) -> Result<Value, OpFault>
    ensures { Answers result (unary op (value_view a.now)) }
{
    match op {
        UnOp::Not => booleans::not(a),
        UnOp::Neg => integers::neg(a),
        UnOp::Len => sequences::len(a),
        UnOp::Kind => Ok(Value::Kind(a.kind())),
    }
}

/// Applies an operator of two operands.
pub fn apply2(alloc: Global, op: BinOp, a: &Value, b: &Value) -> Result<Value, OpFault>
    ensures { Answers result (binary op (value_view a.now) (value_view b.now)) }
{
    match op {
        BinOp::Add => integers::add(a, b),
        BinOp::Subtract => integers::subtract(a, b),
        BinOp::Multiply => integers::multiply(a, b),
        BinOp::Divide => integers::divide(a, b),
        BinOp::Remainder => integers::remainder(a, b),
        BinOp::Equal => Ok(Value::Bool(*a == *b)),
        BinOp::Less => integers::less(a, b),
        BinOp::LessOrEqual => integers::less_or_equal(a, b),
        BinOp::And => booleans::and(a, b),
        BinOp::Or => booleans::or(a, b),
        BinOp::Append => sequences::append(alloc, a, b),
        BinOp::Nth => sequences::nth(alloc, a, b),
    }
}
