//! The operators on whole numbers.
ghost use Rattle.std.specs.Prelude.{◌≡◌, MatchOption, Ok, Err};
ghost use Rattle.gil_values.specs.Answers.{Answers};
ghost use Rattle.gil_values.specs.Operators.{unary, binary};
ghost use Rattle.gil_values.specs.declared.operators.BinOp.{BinOp};
ghost use Rattle.gil_values.specs.declared.operators.UnOp.{UnOp};
ghost use Rattle.gil_values.specs.View.{value_view};

use crate::apply::OpFault;
use crate::tree::Value;

/// What a checked operation gives, as an answer.
fn in_range(number: Option<i128>) -> Result<Value, OpFault>
    ensures { MatchOption number (result ≡ Err OpFault.Number) (λ n. result ≡ Ok (Value.Int n)) }
{
    match number {
        Some(n) => Ok(Value::Int(n)),
        None => Err(OpFault::Number),
    }
}

pub(crate) fn neg(a: &Value) -> Result<Value, OpFault>
    ensures { Answers result (unary UnOp.Neg (value_view a.now)) }
{
    match a {
        Value::Int(n) => in_range(n.checked_neg()),
        _ => Err(OpFault::WrongKind),
    }
}

pub(crate) fn add(a: &Value, b: &Value) -> Result<Value, OpFault>
    ensures { Answers result (binary BinOp.Add (value_view a.now) (value_view b.now)) }
{
    match (a, b) {
        (Value::Int(m), Value::Int(n)) => in_range(m.checked_add(*n)),
        _ => Err(OpFault::WrongKind),
    }
}

pub(crate) fn subtract(a: &Value, b: &Value) -> Result<Value, OpFault>
    ensures { Answers result (binary BinOp.Subtract (value_view a.now) (value_view b.now)) }
{
    match (a, b) {
        (Value::Int(m), Value::Int(n)) => in_range(m.checked_sub(*n)),
        _ => Err(OpFault::WrongKind),
    }
}

pub(crate) fn multiply(a: &Value, b: &Value) -> Result<Value, OpFault>
    ensures { Answers result (binary BinOp.Multiply (value_view a.now) (value_view b.now)) }
{
    match (a, b) {
        (Value::Int(m), Value::Int(n)) => in_range(m.checked_mul(*n)),
        _ => Err(OpFault::WrongKind),
    }
}

/// Truncated towards zero (ISO/IEC 9899:2011, 6.5.5).
pub(crate) fn divide(a: &Value, b: &Value) -> Result<Value, OpFault>
    ensures { Answers result (binary BinOp.Divide (value_view a.now) (value_view b.now)) }
{
    match (a, b) {
        (Value::Int(_), Value::Int(0)) => Err(OpFault::Zero),
        (Value::Int(m), Value::Int(n)) => in_range(m.checked_div(*n)),
        _ => Err(OpFault::WrongKind),
    }
}

/// The remainder has the dividend's sign (ISO/IEC 9899:2011, 6.5.5). That of -1 is 0, also where the quotient is too wide.
pub(crate) fn remainder(a: &Value, b: &Value) -> Result<Value, OpFault>
    ensures { Answers result (binary BinOp.Remainder (value_view a.now) (value_view b.now)) }
{
    match (a, b) {
        (Value::Int(_), Value::Int(0)) => Err(OpFault::Zero),
        (Value::Int(_), Value::Int(-1)) => Ok(Value::Int(0)),
        (Value::Int(m), Value::Int(n)) => Ok(Value::Int(*m % *n)),
        _ => Err(OpFault::WrongKind),
    }
}

pub(crate) fn less(a: &Value, b: &Value) -> Result<Value, OpFault>
    ensures { Answers result (binary BinOp.Less (value_view a.now) (value_view b.now)) }
{
    match (a, b) {
        (Value::Int(m), Value::Int(n)) => Ok(Value::Bool(*m < *n)),
        _ => Err(OpFault::WrongKind),
    }
}

pub(crate) fn less_or_equal(a: &Value, b: &Value) -> Result<Value, OpFault>
    ensures { Answers result (binary BinOp.LessOrEqual (value_view a.now) (value_view b.now)) }
{
    match (a, b) {
        (Value::Int(m), Value::Int(n)) => Ok(Value::Bool(*m <= *n)),
        _ => Err(OpFault::WrongKind),
    }
}
