//! Whether all names of an expression are known.
ghost use Rattle.std.specs.Prelude.{◌≡◌, map};
ghost use Rattle.std.specs.List.{list_all};
ghost use Rattle.assert_logic.specs.Names.{knows_all};
ghost use Rattle.gil_syntax.specs.View.{expr_view, exprs_view};
ghost use Rattle.sym_evaluation.specs.View.{store_view};
ghost use Rattle.sym_matching.specs.Splitting.{has_term};

use gil_syntax::{Expr, Exprs};
use gil_values::Text;
use sym_evaluation::SymStore;

/// Whether the name has a term.
fn is_known(store: &SymStore, name: &Text) -> bool
    ensures { result ≡ has_term (store_view store.now) name.now }
{
    match store.get(name) {
        Some(_) => true,
        None => false,
    }
}

/// Whether all names of an expression have terms.
#[cycle(naming)]
pub(crate) fn knows_all(store: &SymStore, expression: &Expr) -> bool
    ensures { result ≡ knows_all (has_term (store_view store.now)) (expr_view expression.now) }
{
    match expression {
        Expr::Lit(_) => true,
        Expr::Name(name) | Expr::Logical(name) => is_known(store, name),
        Expr::List(elements) => knows_each(store, elements),
        Expr::Op1(_, operand) => knows_all(store, operand),
        Expr::Op2(_, left, right) => knows_all(store, left) && knows_all(store, right),
    }
}

/// Whether all names of all expressions of a list have terms.
#[cycle(naming)]
fn knows_each(store: &SymStore, expressions: &Exprs) -> bool
    ensures { result ≡ list_all (knows_all (has_term (store_view store.now))) (exprs_view expressions.now) }
{
    for expression in expressions.as_slice() {
        if !knows_all(store, expression) {
            return false;
        }
    }
    true
}
