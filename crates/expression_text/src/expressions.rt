//! Expressions.
ghost use Rattle.std.specs.Prelude.{◌≡◌, length};
ghost use Rattle.gil_syntax.specs.View.{expr_view, exprs_view};
ghost use Rattle.value_text.specs.Reading.{Gives, many_at, with_front, before_no_comma, behind_comma, elements_at as expressions_at};
ghost use Rattle.expression_text.specs.Reading as spec;

use crate::leads::{Lead, lead_of};
use crate::leaves::leaf_at;
use crate::operators::operator_at;
use gil_syntax::{Expr, Exprs};
use gil_values::{BinOp, Text, UnOp, Value};
use std::alloc::Global;
use value_text::{ReadFault, begins_name, begins_with, ends_elements, expect, name_at};

/// The expression at the front.
pub fn expression_at(alloc: Global, bytes: &[u8]) -> Result<(Expr, &[u8]), ReadFault>
    ensures { Gives (λ x. (expr_view x.0, x.1.now)) result (spec.any_expression_at bytes.now) }
{
    nested_at(alloc, bytes.len() + 1, bytes)
}

/// The expression at the front, in which fewer than so many are nested.
#[cycle(expression)]
#[tactic(auto, unfolding(crate::specs::Reading::expression_at))]
fn nested_at(alloc: Global, most: usize, bytes: &[u8]) -> Result<(Expr, &[u8]), ReadFault>
    ensures { Gives (λ x. (expr_view x.0, x.1.now)) result (spec.expression_at most bytes.now) }
{
    if most == 0 {
        return Err(ReadFault::Form);
    }
    opened_at(alloc, most - 1, bytes)
}

/// The expression at the front, with operands that are read so deep.
#[cycle(expression)]
fn opened_at(alloc: Global, inner: usize, bytes: &[u8]) -> Result<(Expr, &[u8]), ReadFault>
    ensures { Gives (λ x. (expr_view x.0, x.1.now)) result (spec.opened_at (spec.expression_at inner) bytes.now) }
{
    if begins_with(b'[', bytes) {
        return list_at(alloc, inner, bytes);
    }
    if begins_with(b'(', bytes) {
        return between_at(alloc, inner, bytes);
    }
    if begins_name(bytes) {
        return named_at(alloc, inner, bytes);
    }
    leaf_at(alloc, bytes)
}

/// The expression at the front that begins with a name.
#[cycle(expression)]
#[tactic(auto, unfolding(crate::specs::Reading::named_at))]
fn named_at(alloc: Global, inner: usize, bytes: &[u8]) -> Result<(Expr, &[u8]), ReadFault>
    ensures { Gives (λ x. (expr_view x.0, x.1.now)) result (spec.named_at (spec.expression_at inner) bytes.now) }
{
    let (name, rest) = name_at(alloc, bytes)?;
    let lead = lead_of(&name);
    led_at(alloc, inner, lead, name, rest)
}

/// The expression that begins with this name.
#[cycle(expression)]
fn led_at(
    alloc: Global,
    inner: usize,
    lead: Lead,
    name: Text,
    bytes: &[u8],
) -> Result<(Expr, &[u8]), ReadFault>
    ensures { Gives (λ x. (expr_view x.0, x.1.now)) result (spec.led_at (spec.expression_at inner) lead name bytes.now) }
{
    match lead {
        Lead::Variable => Ok((Expr::Name(name), bytes)),
        Lead::Unary(op) => unary_at(alloc, inner, op, bytes),
        Lead::Nth => nth_at(alloc, inner, bytes),
        Lead::Truth(truth) => Ok((Expr::Lit(Value::Bool(truth)), bytes)),
        Lead::Kind(kind) => Ok((Expr::Lit(Value::Kind(kind)), bytes)),
        Lead::Other => Err(ReadFault::Form),
    }
}

/// The operand of an operator, in parentheses.
#[cycle(expression)]
#[tactic(auto, unfolding(crate::specs::Reading::unary_at))]
fn unary_at(alloc: Global, inner: usize, op: UnOp, bytes: &[u8]) -> Result<(Expr, &[u8]), ReadFault>
    ensures { Gives (λ x. (expr_view x.0, x.1.now)) result (spec.unary_at (spec.expression_at inner) op bytes.now) }
{
    let rest = expect("(", bytes)?;
    let (operand, rest) = nested_at(alloc, inner, rest)?;
    let rest = expect(")", rest)?;
    Ok((Expr::Op1(op, Box::new(alloc, operand)?), rest))
}

/// The operands of `nth`, in parentheses.
#[cycle(expression)]
#[tactic(auto, unfolding(crate::specs::Reading::nth_at))]
fn nth_at(alloc: Global, inner: usize, bytes: &[u8]) -> Result<(Expr, &[u8]), ReadFault>
    ensures { Gives (λ x. (expr_view x.0, x.1.now)) result (spec.nth_at (spec.expression_at inner) bytes.now) }
{
    let rest = expect("(", bytes)?;
    let (left, rest) = nested_at(alloc, inner, rest)?;
    let rest = expect(", ", rest)?;
    let (right, rest) = nested_at(alloc, inner, rest)?;
    let rest = expect(")", rest)?;
    let left = Box::new(alloc, left)?;
    let right = Box::new(alloc, right)?;
    Ok((Expr::Op2(BinOp::Nth, left, right), rest))
}

/// The operands with the operator between them, in parentheses.
#[cycle(expression)]
#[tactic(auto, unfolding(crate::specs::Reading::between_at))]
fn between_at(alloc: Global, inner: usize, bytes: &[u8]) -> Result<(Expr, &[u8]), ReadFault>
    ensures { Gives (λ x. (expr_view x.0, x.1.now)) result (spec.between_at (spec.expression_at inner) bytes.now) }
{
    let rest = expect("(", bytes)?;
    let (left, rest) = nested_at(alloc, inner, rest)?;
    let (op, rest) = operator_at(rest)?;
    let (right, rest) = nested_at(alloc, inner, rest)?;
    let rest = expect(")", rest)?;
    let left = Box::new(alloc, left)?;
    let right = Box::new(alloc, right)?;
    Ok((Expr::Op2(op, left, right), rest))
}

/// The list at the front.
#[cycle(expression)]
#[tactic(auto, unfolding(crate::specs::Reading::list_at, value_text::specs::Reading::bracketed_at))]
fn list_at(alloc: Global, inner: usize, bytes: &[u8]) -> Result<(Expr, &[u8]), ReadFault>
    ensures { Gives (λ x. (expr_view x.0, x.1.now)) result (spec.list_at (spec.expression_at inner) bytes.now) }
{
    let rest = expect("[", bytes)?;
    let (items, rest) = elements_at(alloc, inner, rest)?;
    let rest = expect("]", rest)?;
    Ok((Expr::List(items), rest))
}

/// The expressions up to the closing bracket, with commas between them.
#[cycle(expression)]
fn elements_at(alloc: Global, inner: usize, bytes: &[u8]) -> Result<(Exprs, &[u8]), ReadFault>
    ensures { Gives (λ x. (exprs_view x.0, x.1.now)) result (expressions_at (spec.expression_at inner) bytes.now) }
{
    let mut items = Exprs::new(alloc);
    if begins_with(b']', bytes) {
        return Ok((items, bytes));
    }
    let (first, rest) = nested_at(alloc, inner, bytes)?;
    items.push(first)?;
    more_at(alloc, inner, items, rest)
}

/// The expressions of the list, and those at the front that stand behind a comma each.
#[cycle(expression)]
fn more_at(
    alloc: Global,
    inner: usize,
    items: Exprs,
    bytes: &[u8],
) -> Result<(Exprs, &[u8]), ReadFault>
    ensures { Gives (λ x. (exprs_view x.0, x.1.now)) result
        (with_front (exprs_view items) (many_at before_no_comma (behind_comma (spec.expression_at inner)) (length bytes.now) bytes.now)) }
{
    let mut items = items;
    let mut rest = bytes;
    // Each turn takes a comma at least.
    let most = bytes.len();
    for _ in 0..most {
        if ends_elements(rest) {
            return Ok((items, rest));
        }
        let (item, behind) = next_at(alloc, inner, rest)?;
        items.push(item)?;
        rest = behind;
    }
    Ok((items, rest))
}

/// The expression behind the comma at the front.
#[cycle(expression)]
fn next_at(alloc: Global, inner: usize, bytes: &[u8]) -> Result<(Expr, &[u8]), ReadFault>
    ensures { Gives (λ x. (expr_view x.0, x.1.now)) result (behind_comma (spec.expression_at inner) bytes.now) }
{
    let rest = expect(", ", bytes)?;
    nested_at(alloc, inner, rest)
}
