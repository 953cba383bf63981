//! Values.
ghost use Rattle.std.specs.Prelude.{◌≡◌, length};
ghost use Rattle.gil_values.specs.View.{value_view, values_view};
ghost use Rattle.value_text.specs.Reading as spec;
ghost use Rattle.value_text.specs.Reading.{Gives, many_at, with_front, before_no_comma, behind_comma};

use crate::faults::ReadFault;
use crate::names::{begins_name, name_at};
use crate::numbers::{begins_number, integer_at, natural_at};
use crate::texts::text_at;
use crate::words::{begins_with, behind, expect};
use gil_values::{Kind, Value, Values};
use std::alloc::Global;

/// The value at the front.
pub fn value_at(alloc: Global, bytes: &[u8]) -> Result<(Value, &[u8]), ReadFault>
    ensures { Gives (λ x. (value_view x.0, x.1.now)) result (spec.any_value_at bytes.now) }
{
    nested_at(alloc, bytes.len(), bytes)
}

/// The values at the front, in brackets.
#[tactic(auto, unfolding(crate::specs::Reading::bracketed_at))]
pub fn values_at(alloc: Global, bytes: &[u8]) -> Result<(Values, &[u8]), ReadFault>
    ensures { Gives (λ x. (values_view x.0, x.1.now)) result (spec.bracketed_values_at bytes.now) }
{
    let rest = expect("[", bytes)?;
    let (values, rest) = elements_at(alloc, bytes.len(), rest)?;
    let rest = expect("]", rest)?;
    Ok((values, rest))
}

/// The value at the front, in which lists are nested at most so deep.
#[cycle(value)]
#[tactic(auto, unfolding(crate::specs::Reading::value_at))]
fn nested_at(alloc: Global, most: usize, bytes: &[u8]) -> Result<(Value, &[u8]), ReadFault>
    ensures { Gives (λ x. (value_view x.0, x.1.now)) result (spec.value_at most bytes.now) }
{
    if !begins_with(b'[', bytes) {
        return leaf_at(alloc, bytes);
    }
    if most == 0 {
        return Err(ReadFault::Form);
    }
    list_at(alloc, most - 1, bytes)
}

/// The list at the front, in which lists are nested at most so deep.
#[cycle(value)]
#[tactic(auto, unfolding(crate::specs::Reading::list_at))]
fn list_at(alloc: Global, inner: usize, bytes: &[u8]) -> Result<(Value, &[u8]), ReadFault>
    ensures { Gives (λ x. (value_view x.0, x.1.now)) result (spec.list_at (spec.value_at inner) bytes.now) }
{
    let rest = expect("[", bytes)?;
    let (values, rest) = elements_at(alloc, inner, rest)?;
    let rest = expect("]", rest)?;
    Ok((Value::List(values), rest))
}

/// The values up to the closing bracket, with commas between them.
#[cycle(value)]
fn elements_at(alloc: Global, inner: usize, bytes: &[u8]) -> Result<(Values, &[u8]), ReadFault>
    ensures { Gives (λ x. (values_view x.0, x.1.now)) result (spec.elements_at (spec.value_at inner) bytes.now) }
{
    let mut list = Values::new(alloc);
    if begins_with(b']', bytes) {
        return Ok((list, bytes));
    }
    let (first, rest) = nested_at(alloc, inner, bytes)?;
    list.push(first)?;
    more_values(alloc, inner, list, rest)
}

/// The values of the list, and those at the front that stand behind a comma each.
#[cycle(value)]
fn more_values(
    alloc: Global,
    inner: usize,
    list: Values,
    bytes: &[u8],
) -> Result<(Values, &[u8]), ReadFault>
    ensures { Gives (λ x. (values_view x.0, x.1.now)) result
        (with_front (values_view list) (many_at before_no_comma (behind_comma (spec.value_at inner)) (length bytes.now) bytes.now)) }
{
    let mut list = list;
    let mut rest = bytes;
    // Each turn takes a comma at least.
    let most = bytes.len();
    for _ in 0..most {
        if ends_elements(rest) {
            return Ok((list, rest));
        }
        let (value, behind) = next_at(alloc, inner, rest)?;
        list.push(value)?;
        rest = behind;
    }
    Ok((list, rest))
}

/// The value behind the comma at the front.
#[cycle(value)]
fn next_at(alloc: Global, inner: usize, bytes: &[u8]) -> Result<(Value, &[u8]), ReadFault>
    ensures { Gives (λ x. (value_view x.0, x.1.now)) result (behind_comma (spec.value_at inner) bytes.now) }
{
    let rest = expect(", ", bytes)?;
    nested_at(alloc, inner, rest)
}

/// Whether no element of a list follows.
pub fn ends_elements(bytes: &[u8]) -> bool
    ensures { result ≡ before_no_comma bytes.now }
{
    !begins_with(b',', bytes)
}

/// The value at the front that is no list.
fn leaf_at(alloc: Global, bytes: &[u8]) -> Result<(Value, &[u8]), ReadFault>
    ensures { Gives (λ x. (value_view x.0, x.1.now)) result (spec.leaf_at bytes.now) }
{
    if begins_number(bytes) {
        let (number, rest) = integer_at(bytes)?;
        return Ok((Value::Int(number), rest));
    }
    if begins_with(b'"', bytes) {
        let (text, rest) = text_at(alloc, bytes)?;
        return Ok((Value::Str(text), rest));
    }
    marked_at(alloc, bytes)
}

/// The symbol, the procedure or the word at the front.
fn marked_at(alloc: Global, bytes: &[u8]) -> Result<(Value, &[u8]), ReadFault>
    ensures { Gives (λ x. (value_view x.0, x.1.now)) result (spec.marked_at bytes.now) }
{
    if let Some(rest) = behind("$", bytes) {
        let (number, rest) = natural_at(rest)?;
        return Ok((Value::Sym(number), rest));
    }
    if let Some(rest) = behind("@", bytes) {
        let (name, rest) = name_at(alloc, rest)?;
        return Ok((Value::Proc(name), rest));
    }
    word_at(bytes)
}

/// The truth or the kind at the front.
fn word_at(bytes: &[u8]) -> Result<(Value, &[u8]), ReadFault>
    ensures { Gives (λ x. (value_view x.0, x.1.now)) result (spec.word_at bytes.now) }
{
    if let Some(rest) = behind("true", bytes) {
        return Ok((Value::Bool(true), rest));
    }
    if let Some(rest) = behind("false", bytes) {
        return Ok((Value::Bool(false), rest));
    }
    let (kind, rest) = kind_at(bytes)?;
    Ok((Value::Kind(kind), rest))
}

/// The kind at the front.
fn kind_at(bytes: &[u8]) -> Result<(Kind, &[u8]), ReadFault>
    ensures { Gives (λ x. (x.0, x.1.now)) result (spec.kind_at bytes.now) }
{
    if let Some(rest) = behind("Int", bytes) {
        return Ok((Kind::Int, rest));
    }
    if let Some(rest) = behind("Bool", bytes) {
        return Ok((Kind::Bool, rest));
    }
    if let Some(rest) = behind("Str", bytes) {
        return Ok((Kind::Str, rest));
    }
    if let Some(rest) = behind("Sym", bytes) {
        return Ok((Kind::Sym, rest));
    }
    rarer_kind_at(bytes)
}

/// The kind at the front, if it is one of the others.
fn rarer_kind_at(bytes: &[u8]) -> Result<(Kind, &[u8]), ReadFault>
    ensures { Gives (λ x. (x.0, x.1.now)) result (spec.rarer_kind_at bytes.now) }
{
    if let Some(rest) = behind("Kind", bytes) {
        return Ok((Kind::Kind, rest));
    }
    if let Some(rest) = behind("Proc", bytes) {
        return Ok((Kind::Proc, rest));
    }
    if let Some(rest) = behind("List", bytes) {
        return Ok((Kind::List, rest));
    }
    if let Some(rest) = behind("Undef", bytes) {
        return Ok((Kind::Undef, rest));
    }
    let rest = expect("Null", bytes)?;
    Ok((Kind::Null, rest))
}
