//! Items of assertions.
ghost use Rattle.std.specs.Prelude.{◌≡◌, is_some, codes};
ghost use Rattle.std.specs.Str.{bytes_eq};
ghost use Rattle.gil_syntax.specs.View.{expr_view, exprs_view, item_view};
ghost use Rattle.value_text.specs.Reading as front;
ghost use Rattle.value_text.specs.Reading.{Gives};
ghost use Rattle.specification_text.specs.Reading as spec;

use crate::expressions::expressions_until;
use expression_text::expression_at;
use gil_syntax::{Expr, Exprs, Item, PredUse};
use gil_values::{BinOp, Text, UnOp};
use std::alloc::Global;
use value_text::{ReadFault, begins_with, behind, expect, name_at};

/// Whether a word stands at the front.
pub(crate) fn has_word(word: &str, bytes: &[u8]) -> bool
    ensures { result ≡ is_some (front.behind word.now bytes.now) }
{
    match behind(word, bytes) {
        Some(_) => true,
        None => false,
    }
}

/// The item at the front.
pub(crate) fn item_at(alloc: Global, bytes: &[u8]) -> Result<(Item, &[u8]), ReadFault>
    ensures { Gives (λ x. (item_view x.0, x.1.now)) result (spec.item_at bytes.now) }
{
    if begins_with(b'(', bytes) {
        return pure_at(alloc, bytes);
    }
    if has_word("not(", bytes) {
        return pure_at(alloc, bytes);
    }
    use_at(alloc, bytes)
}

/// The expression at the front, as an item.
#[tactic(auto, unfolding(crate::specs::Reading::pure_at))]
fn pure_at(alloc: Global, bytes: &[u8]) -> Result<(Item, &[u8]), ReadFault>
    ensures { Gives (λ x. (item_view x.0, x.1.now)) result (spec.pure_at bytes.now) }
{
    let (expression, rest) = expression_at(alloc, bytes)?;
    if may_be_item(&expression) {
        Ok((Item::Pure(expression), rest))
    } else {
        Err(ReadFault::Form)
    }
}

/// Whether an expression is written as an item is.
fn may_be_item(expression: &Expr) -> bool
    ensures { result ≡ spec.may_be_item (expr_view expression.now) }
{
    match expression {
        Expr::Op1(op, _) => is_negation(*op),
        Expr::Op2(op, _, _) => is_written_between(*op),
        Expr::Lit(_) | Expr::Name(_) | Expr::Logical(_) | Expr::List(_) => false,
    }
}

fn is_negation(op: UnOp) -> bool
    ensures { result ≡ spec.is_negation op }
{
    match op {
        UnOp::Not => true,
        UnOp::Neg | UnOp::Len | UnOp::Kind => false,
    }
}

/// Whether an operator is written between its operands.
fn is_written_between(op: BinOp) -> bool
    ensures { result ≡ spec.is_written_between op }
{
    match op {
        BinOp::Nth => false,
        _ => true,
    }
}

/// The use of a predicate at the front.
#[tactic(auto, unfolding(crate::specs::Reading::use_at))]
fn use_at(alloc: Global, bytes: &[u8]) -> Result<(Item, &[u8]), ReadFault>
    ensures { Gives (λ x. (item_view x.0, x.1.now)) result (spec.use_at bytes.now) }
{
    let (name, rest) = name_at(alloc, bytes)?;
    if is_word_not(&name) {
        return Err(ReadFault::Form);
    }
    handed_at(alloc, name, rest)
}

fn is_word_not(name: &Text) -> bool
    ensures { result ≡ bytes_eq name.now (codes "not") }
{
    name.as_str() == "not"
}

/// What is handed to the predicate with this name, and what it determines.
#[tactic(auto, unfolding(crate::specs::Reading::handed_at))]
fn handed_at(alloc: Global, pred: Text, bytes: &[u8]) -> Result<(Item, &[u8]), ReadFault>
    ensures { Gives (λ x. (item_view x.0, x.1.now)) result (spec.handed_at pred bytes.now) }
{
    let rest = expect("(", bytes)?;
    let (ins, rest) = expressions_until(alloc, b';', rest)?;
    let rest = expect(";", rest)?;
    let (outs, rest) = outs_at(alloc, rest)?;
    let rest = expect(")", rest)?;
    Ok((Item::Uses(PredUse { pred, ins, outs }), rest))
}

/// What the predicate determines, behind the semicolon.
fn outs_at(alloc: Global, bytes: &[u8]) -> Result<(Exprs, &[u8]), ReadFault>
    ensures { Gives (λ x. (exprs_view x.0, x.1.now)) result (spec.outs_at bytes.now) }
{
    if let Some(rest) = behind(" ", bytes) {
        return expressions_until(alloc, b')', rest);
    }
    Ok((Exprs::new(alloc), bytes))
}
