//! The operators on booleans.
ghost use Rattle.gil_values.specs.Answers.{Answers};
ghost use Rattle.gil_values.specs.Operators.{unary, binary};
ghost use Rattle.gil_values.specs.declared.operators.BinOp.{BinOp};
ghost use Rattle.gil_values.specs.declared.operators.UnOp.{UnOp};
ghost use Rattle.gil_values.specs.View.{value_view};

use crate::apply::OpFault;
use crate::tree::Value;

pub(crate) fn not(a: &Value) -> Result<Value, OpFault>
    ensures { Answers result (unary UnOp.Not (value_view a.now)) }
{
    match a {
        Value::Bool(p) => Ok(Value::Bool(!*p)),
        _ => Err(OpFault::WrongKind),
    }
}

pub(crate) fn and(a: &Value, b: &Value) -> Result<Value, OpFault>
    ensures { Answers result (binary BinOp.And (value_view a.now) (value_view b.now)) }
{
    match (a, b) {
        (Value::Bool(p), Value::Bool(q)) => Ok(Value::Bool(*p && *q)),
        _ => Err(OpFault::WrongKind),
    }
}

pub(crate) fn or(a: &Value, b: &Value) -> Result<Value, OpFault>
    ensures { Answers result (binary BinOp.Or (value_view a.now) (value_view b.now)) }
{
    match (a, b) {
        (Value::Bool(p), Value::Bool(q)) => Ok(Value::Bool(*p || *q)),
        _ => Err(OpFault::WrongKind),
    }
}
