//! The operators on texts and lists.
ghost use Rattle.std.specs.Prelude.{◌≡◌, ◌++◌, IfOk};
ghost use Rattle.gil_values.specs.Answers.{Answers, IsHeld};
ghost use Rattle.gil_values.specs.Operators.{unary, binary, element_at, element_or_fault};
ghost use Rattle.gil_values.specs.declared.operators.BinOp.{BinOp};
ghost use Rattle.gil_values.specs.declared.operators.UnOp.{UnOp};
ghost use Rattle.gil_values.specs.View.{value_view, values_view};
ghost use Rattle.std.specs.Option.{option_map};

use crate::apply::OpFault;
use crate::texts::Text;
use crate::tree::{Value, Values};
use std::alloc::{AllocError, Global};

/// How many characters or elements there are.
pub(crate) fn len(a: &Value) -> Result<Value, OpFault>
    ensures { Answers result (unary UnOp.Len (value_view a.now)) }
{
    match a {
        Value::Str(text) => Ok(Value::Int(text.as_str().len() as i128)),
        Value::List(values) => Ok(Value::Int(values.len() as i128)),
        _ => Err(OpFault::WrongKind),
    }
}

/// The texts or the lists, one after the other.
pub(crate) fn append(alloc: Global, a: &Value, b: &Value) -> Result<Value, OpFault>
    ensures { Answers result (binary BinOp.Append (value_view a.now) (value_view b.now)) }
{
    match (a, b) {
        (Value::Str(s), Value::Str(t)) => Ok(Value::Str(append_texts(alloc, s, t)?)),
        (Value::List(vs), Value::List(ws)) => Ok(Value::List(append_lists(alloc, vs, ws)?)),
        _ => Err(OpFault::WrongKind),
    }
}

/// The element of a list at a number, counted from 0.
pub(crate) fn nth(alloc: Global, a: &Value, b: &Value) -> Result<Value, OpFault>
    ensures { Answers result (binary BinOp.Nth (value_view a.now) (value_view b.now)) }
{
    match (a, b) {
        (Value::List(values), Value::Int(place)) => match element(values, *place) {
            Some(v) => Ok(copied(alloc, v)?),
            None => Err(OpFault::Range),
        },
        _ => Err(OpFault::WrongKind),
    }
}

fn append_texts(alloc: Global, s: &Text, t: &Text) -> Result<Text, AllocError>
    ensures { IfOk result (λ joined. joined ≡ s.now ++ t.now) }
{
    let mut joined = s.copy(alloc)?;
    joined.push_text(t)?;
    Ok(joined)
}

fn append_lists(alloc: Global, vs: &Values, ws: &Values) -> Result<Values, AllocError>
    ensures { IfOk result (λ joined. values_view joined ≡ values_view vs.now ++ values_view ws.now) }
{
    let mut joined = vs.copy(alloc)?;
    for w in &ws.items {
        joined.push(w.copy(alloc)?)?;
    }
    Ok(joined)
}

/// The element at a number, and None where that is no place of the list.
fn element(values: &Values, place: i128) -> Option<&Value>
    ensures { element_or_fault (option_map (λ v. value_view v.now) result) ≡ element_at (values_view values.now) place }
{
    if place < 0 || place >= values.len() as i128 {
        return None;
    }
    values.get(place as usize)
}

/// An equal value. A whole number needs no copy of the value that holds it.
fn copied(alloc: Global, v: &Value) -> Result<Value, AllocError>
    ensures same { IfOk result (λ w. value_view w ≡ value_view v.now) }
    ensures held { IfOk result (λ w. IsHeld (value_view w)) }
{
    match v {
        Value::Int(n) => Ok(Value::Int(*n)),
        _ => v.copy(alloc),
    }
}
