//! Whether a name stands in an assertion.
ghost use Rattle.std.specs.Prelude.{◌≡◌, map};
ghost use Rattle.std.specs.List.{list_all};
ghost use Rattle.gil_syntax.specs.Subexpressions.{names_of};
ghost use Rattle.gil_syntax.specs.Valid.{is_among};
ghost use Rattle.gil_syntax.specs.View.{expr_view, exprs_view, item_view};
ghost use Rattle.assert_logic.specs.Names.{knows_all, is_other, named_among, named_by_item, named_by_items};

use gil_syntax::{Expr, Exprs, Item};
use gil_values::Text;

/// Whether all names of an expression are others than this one.
#[cycle(naming)]
fn all_others(name: &Text, expression: &Expr) -> bool
    ensures { result ≡ knows_all (is_other name.now) (expr_view expression.now) }
{
    match expression {
        Expr::Lit(_) => true,
        Expr::Name(other) | Expr::Logical(other) => name != other,
        Expr::List(elements) => all_others_among(name, elements),
        Expr::Op1(_, operand) => all_others(name, operand),
        Expr::Op2(_, left, right) => all_others(name, left) && all_others(name, right),
    }
}

/// Whether all names of all expressions of a list are others than this one.
#[cycle(naming)]
fn all_others_among(name: &Text, expressions: &Exprs) -> bool
    ensures { result ≡ list_all (knows_all (is_other name.now)) (exprs_view expressions.now) }
{
    for expression in expressions.as_slice() {
        if !all_others(name, expression) {
            return false;
        }
    }
    true
}

/// Whether a name stands in an expression.
fn stands_in(name: &Text, expression: &Expr) -> bool
    ensures { result ≡ is_among (names_of (expr_view expression.now)) name.now }
{
    !all_others(name, expression)
}

/// Whether a name stands in one of the expressions.
fn stands_in_expressions(name: &Text, expressions: &[Expr]) -> bool
    ensures { result ≡ named_among (map expr_view expressions.now) name.now }
{
    for expression in expressions {
        if stands_in(name, expression) {
            return true;
        }
    }
    false
}

/// Whether a name stands in an item.
fn stands_in_item(name: &Text, item: &Item) -> bool
    ensures { result ≡ named_by_item (item_view item.now) name.now }
{
    match item {
        Item::Pure(expression) => stands_in(name, expression),
        Item::Uses(used) => {
            stands_in_expressions(name, used.ins.as_slice())
                || stands_in_expressions(name, used.outs.as_slice())
        }
    }
}

/// Whether a name stands in one of the items.
pub(crate) fn stands_in_items(name: &Text, items: &[Item]) -> bool
    ensures { result ≡ named_by_items (map item_view items.now) name.now }
{
    for item in items {
        if stands_in_item(name, item) {
            return true;
        }
    }
    false
}
