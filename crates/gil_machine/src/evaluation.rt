//! The values of expressions.
ghost use Rattle.std.specs.Prelude.{◌≡◌, Ok, IfSome};
ghost use Rattle.std.specs.Option.{option_map};
ghost use Rattle.gil_values.specs.Answers.{Answers};
ghost use Rattle.gil_values.specs.Operators.{Outcome, binary, unary};
ghost use Rattle.gil_values.specs.Pure.{boolean, integer};
ghost use Rattle.gil_values.specs.View.{value_view};
ghost use Rattle.gil_syntax.specs.Evaluation.{Store as PureStore};
ghost use Rattle.gil_machine.specs.Gives.{Gives, GivesAll};
ghost use Rattle.gil_machine.specs.Held.{HeldOutcome, HeldOutcomes, after_held, as_held_list, evaluate_all_held, evaluate_held, held, held_or_unset};
ghost use Rattle.gil_machine.specs.Kept.{Keeps, kept_value};
ghost use Rattle.gil_machine.specs.ResolvedView.{resolved_list_view, resolved_view};
ghost use Rattle.gil_machine.specs.SlotNames.{Names};
ghost use Rattle.gil_machine.specs.StoreView.{store_view};

use crate::faults::EvaluationFault;
use crate::resolved::{Resolved, ResolvedList};
use crate::store::Store;
use gil_values::{BinOp, OpFault, UnOp, Value, Values, apply1, apply2};
use std::alloc::Global;

/// The sum or the difference of two numbers that stand already, where it stays in 128 bits.
#[inline(always)]
pub(crate) fn sum_of(expression: &Resolved, store: &Store) -> Option<Value>
    ensures { IfSome result (λ v. (names : Names) (s : PureStore) → Keeps names (store_view store.now) s
        → evaluate_held (resolved_view names expression.now) s ≡ Ok (value_view v)) }
{
    match expression {
        Resolved::Op2(op, left, right) => {
            let m = number(left, store)?;
            let n = number(right, store)?;
            add_or_subtract(*op, m, n)
        }
        _ => None,
    }
}

/// Whether two numbers that stand already compare so.
#[inline(always)]
pub(crate) fn truth_of(expression: &Resolved, store: &Store) -> Option<bool>
    ensures { IfSome result (λ b. (names : Names) (s : PureStore) → Keeps names (store_view store.now) s
        → evaluate_held (resolved_view names expression.now) s ≡ Ok (boolean b)) }
{
    match expression {
        Resolved::Op2(op, left, right) => {
            let m = number(left, store)?;
            let n = number(right, store)?;
            compare(*op, m, n)
        }
        _ => None,
    }
}

/// The number of an operand where it stands.
#[inline(always)]
fn number<'a>(operand: &'a Resolved, store: &'a Store) -> Option<&'a i128>
    ensures { IfSome result (λ n. (names : Names) (s : PureStore) → Keeps names (store_view store.now) s
        → evaluate_held (resolved_view names operand.now) s ≡ Ok (integer n.now)) }
{
    match kept(&*operand, &*store) {
        Some(Value::Int(n)) => Some(n),
        _ => None,
    }
}

#[inline(always)]
fn add_or_subtract(op: BinOp, m: &i128, n: &i128) -> Option<Value>
    ensures { IfSome result (λ v. held (binary op (integer m.now) (integer n.now)) ≡ Ok (value_view v)) }
{
    match op {
        BinOp::Add => as_value(m.checked_add(*n)),
        BinOp::Subtract => as_value(m.checked_sub(*n)),
        _ => None,
    }
}

#[inline(always)]
fn as_value(number: Option<i128>) -> Option<Value>
    ensures { result ≡ option_map (λ n. Value.Int n) number }
{
    match number {
        Some(n) => Some(Value::Int(n)),
        None => None,
    }
}

#[inline(always)]
fn compare(op: BinOp, m: &i128, n: &i128) -> Option<bool>
    ensures { IfSome result (λ b. held (binary op (integer m.now) (integer n.now)) ≡ Ok (boolean b)) }
{
    match op {
        BinOp::Equal => Some(*m == *n),
        BinOp::Less => Some(*m < *n),
        BinOp::LessOrEqual => Some(*m <= *n),
        _ => None,
    }
}

/// The value of an expression: left to right, the value or the first fault, a result that leaves 128 bits among them.
#[cycle(evaluation)]
pub(crate) fn evaluate(
    alloc: Global,
    expression: &Resolved,
    store: &Store,
) -> Result<Value, EvaluationFault>
    ensures { (names : Names) (s : PureStore) → Keeps names (store_view store.now) s → Gives result (evaluate_held
        (resolved_view names expression.now) s) }
{
    match expression {
        Resolved::Lit(value) => Ok(value.copy(alloc)?),
        Resolved::Name(slot) => value_of(alloc, store, *slot),
        Resolved::Logical(slot) => value_of(alloc, store, *slot),
        Resolved::List(elements) => as_list(evaluate_all(alloc, elements, store)),
        Resolved::Op1(op, operand) => match kept(operand, store) {
            Some(operand) => of_table(apply1(alloc, *op, operand)),
            None => one_operand(alloc, *op, evaluate(alloc, operand, store)),
        },
        Resolved::Op2(op, left, right) => match kept(left, store) {
            Some(left) => with_left(alloc, *op, left, right, store),
            None => match evaluate(alloc, left, store) {
                Ok(left) => with_left(alloc, *op, &left, right, store),
                Err(fault) => Err(fault),
            },
        },
    }
}

/// What an operator of two operands gives, where the left one has its value.
#[cycle(evaluation)]
fn with_left(
    alloc: Global,
    op: BinOp,
    left: &Value,
    right: &Resolved,
    store: &Store,
) -> Result<Value, EvaluationFault>
    ensures { (names : Names) (s : PureStore) → Keeps names (store_view store.now) s
        → Gives result (after_held (evaluate_held (resolved_view names right.now) s) (λ v. held (binary op (value_view left.now) v))) }
{
    match kept(&*right, &*store) {
        Some(right) => of_table(apply2(alloc, op, left, right)),
        None => two_operands(alloc, op, left, evaluate(alloc, right, store)),
    }
}

/// The values of expressions in order, or the first fault.
#[cycle(evaluation)]
pub(crate) fn evaluate_all(
    alloc: Global,
    expressions: &ResolvedList,
    store: &Store,
) -> Result<Values, EvaluationFault>
    ensures { (names : Names) (s : PureStore) → Keeps names (store_view store.now) s → GivesAll result (evaluate_all_held
        (resolved_list_view names expressions.now) s) }
{
    let mut values = Values::new(alloc);
    for expression in expressions.as_slice() {
        match evaluate(alloc, expression, store) {
            Ok(value) => values.push(value)?,
            Err(fault) => return Err(fault),
        }
    }
    Ok(values)
}

/// The value of an operand where it stands: a literal, or that of a slot.
#[inline(always)]
fn kept<'a>(operand: &'a Resolved, store: &'a Store) -> Option<&'a Value>
    ensures { IfSome result
        (λ v. (names : Names) (s : PureStore) → Keeps names (store_view store.now) s → evaluate_held
        (resolved_view names operand.now) s ≡ Ok (value_view v.now)) }
{
    match operand {
        Resolved::Lit(value) => Some(value),
        Resolved::Name(slot) => store.get(*slot),
        Resolved::Logical(slot) => store.get(*slot),
        _ => None,
    }
}

/// The value of a slot.
fn value_of(alloc: Global, store: &Store, slot: usize) -> Result<Value, EvaluationFault>
    ensures { Gives result (held_or_unset (kept_value (store_view store.now) slot)) }
{
    match store.get(slot) {
        Some(value) => Ok(value.copy(alloc)?),
        None => Err(EvaluationFault::Unset),
    }
}

/// The list of values, where each element has one.
fn as_list(values: Result<Values, EvaluationFault>) -> Result<Value, EvaluationFault>
    ensures { (o : HeldOutcomes) → GivesAll values o → Gives result (as_held_list o) }
{
    match values {
        Ok(values) => Ok(Value::List(values)),
        Err(fault) => Err(fault),
    }
}

/// What an operator of one operand gives, where that has a value.
fn one_operand(
    alloc: Global,
    op: UnOp,
    operand: Result<Value, EvaluationFault>,
) -> Result<Value, EvaluationFault>
    ensures { (o : HeldOutcome) → Gives operand o → Gives result (after_held o (λ v. held (unary op v))) }
{
    match operand {
        Ok(operand) => of_table(apply1(alloc, op, &operand)),
        Err(fault) => Err(fault),
    }
}

/// What an operator of two operands gives, where the right one has a value too.
fn two_operands(
    alloc: Global,
    op: BinOp,
    left: &Value,
    right: Result<Value, EvaluationFault>,
) -> Result<Value, EvaluationFault>
    ensures { (o : HeldOutcome) → Gives right o → Gives result (after_held o (λ v. held (binary op (value_view left.now) v))) }
{
    match right {
        Ok(right) => of_table(apply2(alloc, op, left, &right)),
        Err(fault) => Err(fault),
    }
}

/// What an operator answers, as evaluation gives it.
fn of_table(answer: Result<Value, OpFault>) -> Result<Value, EvaluationFault>
    ensures { (o : Outcome) → Answers answer o → Gives result (held o) }
{
    match answer {
        Ok(value) => Ok(value),
        Err(fault) => Err(EvaluationFault::from(fault)),
    }
}
