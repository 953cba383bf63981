//! Expressions.
ghost use Rattle.std.specs.Prelude.{◌≡◌};
ghost use Rattle.gil_values.specs.View.{value_view};
ghost use Rattle.gil_syntax.specs.Pure.{from_list};
ghost use Rattle.gil_syntax.specs.View.{expr_view, exprs_view};
ghost use Rattle.gil_syntax.specs.WellMade as made;
ghost use Rattle.writable_reports.specs.Tests as test;

use crate::names::{is_logical_name, is_variable};
use crate::values::is_writable_value;
use gil_syntax::{Expr, Exprs};
use gil_values::Value;

/// Whether a literal may be the value: no symbol and no list.
fn is_spellable(value: &Value) -> bool
    ensures { result ≡ made.is_spellable (value_view value.now) }
{
    !matches!(value, Value::Sym(_) | Value::List(_))
}

/// Whether some text has the expression.
#[cycle(expression)]
pub(crate) fn is_writable_expr(expression: &Expr) -> bool
    ensures { result ≡ test.is_writable_expr (expr_view expression.now) }
{
    match expression {
        Expr::Lit(value) => is_writable_value(value) && is_spellable(value),
        Expr::Name(name) => is_variable(name),
        Expr::Logical(name) => is_logical_name(name),
        Expr::List(elements) => are_writable_exprs(elements),
        Expr::Op1(_, operand) => is_writable_expr(operand),
        Expr::Op2(_, left, right) => is_writable_expr(left) && is_writable_expr(right),
    }
}

/// Whether some text has each of the expressions.
#[cycle(expression)]
pub(crate) fn are_writable_exprs(expressions: &Exprs) -> bool
    ensures { result ≡ test.are_writable_exprs (from_list (exprs_view expressions.now)) }
{
    for expression in expressions.as_slice() {
        if !is_writable_expr(expression) {
            return false;
        }
    }
    true
}
