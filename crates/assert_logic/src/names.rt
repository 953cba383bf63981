//! The names that stand in expressions.
ghost use Rattle.std.specs.Prelude.{◌≡◌, map};
ghost use Rattle.std.specs.List.{list_all};
ghost use Rattle.gil_syntax.specs.Subexpressions.{names_of};
ghost use Rattle.gil_syntax.specs.Valid.{is_among};
ghost use Rattle.gil_syntax.specs.View.{expr_view, exprs_view, item_view};
ghost use Rattle.assert_logic.specs.Names.{knows_all, is_other, named_among, named_by_item, named_by_items};

use gil_syntax::{Expr, Exprs, Item};

/// What is asked of a name.
pub(crate) trait NameTest {
    ghost use Rattle.std.specs.Prelude.{List, ℕ, Bool};

    ghost accepts: { Self → List ℕ → Bool };

    fn accepts_name(&self, name: &str) -> bool
        ensures { result ≡ accepts self.now name.now };
}

/// Whether all names of an expression are accepted.
#[cycle(naming)]
pub(crate) fn all_names<T: NameTest>(test: &T, expression: &Expr) -> bool
    ensures { result ≡ knows_all (T.accepts test.now) (expr_view expression.now) }
{
    match expression {
        Expr::Lit(_) => true,
        Expr::Name(name) | Expr::Logical(name) => test.accepts_name(name.as_str()),
        Expr::List(elements) => all_names_among(test, elements),
        Expr::Op1(_, operand) => all_names(test, operand),
        Expr::Op2(_, left, right) => all_names(test, left) && all_names(test, right),
    }
}

/// Whether all names of all expressions of a list are accepted.
#[cycle(naming)]
pub(crate) fn all_names_among<T: NameTest>(test: &T, expressions: &Exprs) -> bool
    ensures { result ≡ list_all (knows_all (T.accepts test.now)) (exprs_view expressions.now) }
{
    for expression in expressions.as_slice() {
        if !all_names(test, expression) {
            return false;
        }
    }
    true
}

/// Accepts every name but one.
#[derive(Clone, Copy)]
struct OtherThan<'a> {
    name: &'a str,
}

impl<'a> NameTest for OtherThan<'a> {
    ghost accepts = { λ t. is_other t.name.now };

    fn accepts_name(&self, name: &str) -> bool {
        self.name != name
    }
}

/// Whether a name stands in an expression.
pub(crate) fn stands_in(name: &str, expression: &Expr) -> bool
    ensures { result ≡ is_among (names_of (expr_view expression.now)) name.now }
{
    let others = OtherThan { name };
    !all_names(&others, expression)
}

/// Whether a name stands in one of the expressions.
pub(crate) fn stands_in_expressions(name: &str, expressions: &[Expr]) -> bool
    ensures { result ≡ named_among (map expr_view expressions.now) name.now }
{
    for expression in expressions {
        if stands_in(name, expression) {
            return true;
        }
    }
    false
}

/// Whether a name stands in an item.
pub(crate) fn stands_in_item(name: &str, item: &Item) -> bool
    ensures { result ≡ named_by_item (item_view item.now) name.now }
{
    match item {
        Item::Pure(expression) => stands_in(name, expression),
        Item::Uses(used) => {
            stands_in_expressions(name, used.ins.as_slice())
                || stands_in_expressions(name, used.outs.as_slice())
        }
    }
}

/// Whether a name stands in one of the items.
pub(crate) fn stands_in_items(name: &str, items: &[Item]) -> bool
    ensures { result ≡ named_by_items (map item_view items.now) name.now }
{
    for item in items {
        if stands_in_item(name, item) {
            return true;
        }
    }
    false
}
