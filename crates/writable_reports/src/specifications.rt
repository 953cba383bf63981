//! Specifications.
ghost use Rattle.std.specs.Prelude.{◌≡◌, map};
ghost use Rattle.std.specs.List.{list_all};
ghost use Rattle.gil_syntax.specs.View.{assertion_view, expr_view, item_view, pred_use_view, spec_view};
ghost use Rattle.specification_text.specs.Reading as form;
ghost use Rattle.writable_reports.specs.Tests as test;

use crate::expressions::{are_writable_exprs, is_writable_expr};
use crate::names::{is_logical_name, is_name, is_predicate_name};
use gil_syntax::{Assertion, Expr, Item, Param, PredUse, Spec};
use gil_values::{BinOp, UnOp};

/// Whether each parameter is called by a name.
fn are_writable_params(params: &[Param]) -> bool
    ensures { result ≡ list_all test.is_writable_param params.now }
{
    params.iter().all(|param| is_name(&param.name))
}

/// Whether each logical variable is called by `#` and a name.
fn are_writable_logicals(logicals: &[Param]) -> bool
    ensures { result ≡ list_all test.is_writable_logical logicals.now }
{
    logicals.iter().all(|param| is_logical_name(&param.name))
}

/// Whether some text has the use of a predicate.
fn is_writable_use(used: &PredUse) -> bool
    ensures { result ≡ test.is_writable_use (pred_use_view used.now) }
{
    is_predicate_name(&used.pred) && are_writable_exprs(&used.ins) && are_writable_exprs(&used.outs)
}

fn is_negation(op: UnOp) -> bool
    ensures { result ≡ form.is_negation op }
{
    match op {
        UnOp::Not => true,
        UnOp::Neg | UnOp::Len | UnOp::Kind => false,
    }
}

/// Whether an operator is written between its operands.
fn is_written_between(op: BinOp) -> bool
    ensures { result ≡ form.is_written_between op }
{
    match op {
        BinOp::Nth => false,
        _ => true,
    }
}

/// Whether an expression is written as an item is.
fn may_be_item(expression: &Expr) -> bool
    ensures { result ≡ form.may_be_item (expr_view expression.now) }
{
    match expression {
        Expr::Op1(op, _) => is_negation(*op),
        Expr::Op2(op, _, _) => is_written_between(*op),
        Expr::Lit(_) | Expr::Name(_) | Expr::Logical(_) | Expr::List(_) => false,
    }
}

/// Whether some text has the item.
fn is_writable_item(item: &Item) -> bool
    ensures { result ≡ test.is_writable_item (item_view item.now) }
{
    match item {
        Item::Pure(expression) => is_writable_expr(expression) && may_be_item(expression),
        Item::Uses(used) => is_writable_use(used),
    }
}

/// Whether some text has each of the items.
fn are_writable_items(items: &[Item]) -> bool
    ensures { result ≡ test.is_writable_assertion (map item_view items.now) }
{
    for item in items {
        if !is_writable_item(item) {
            return false;
        }
    }
    true
}

/// Whether some text has the assertion.
fn is_writable_assertion(assertion: &Assertion) -> bool
    ensures { result ≡ test.is_writable_assertion (assertion_view assertion.now) }
{
    are_writable_items(assertion.as_slice())
}

/// Whether some text has each of the assertions.
fn are_writable_assertions(assertions: &[Assertion]) -> bool
    ensures { result ≡ list_all test.is_writable_assertion (map assertion_view assertions.now) }
{
    for assertion in assertions {
        if !is_writable_assertion(assertion) {
            return false;
        }
    }
    true
}

/// Whether the names of a specification are such as texts have.
fn has_writable_names(spec: &Spec) -> bool
    ensures { result ≡ test.has_writable_names (spec_view spec.now) }
{
    is_name(&spec.name)
        && are_writable_params(spec.params.as_slice())
        && are_writable_logicals(spec.logicals.as_slice())
}

/// Whether the assertions of a specification are such as texts have.
fn has_writable_assertions(spec: &Spec) -> bool
    ensures { result ≡ test.has_writable_assertions (spec_view spec.now) }
{
    is_writable_assertion(&spec.pre)
        && are_writable_assertions(spec.posts.as_slice())
        && are_writable_assertions(spec.errors.as_slice())
}

/// Whether some text has the specification.
pub(crate) fn is_writable_spec(spec: &Spec) -> bool
    ensures { result ≡ test.is_writable_spec (spec_view spec.now) }
{
    has_writable_names(spec) && has_writable_assertions(spec)
}
