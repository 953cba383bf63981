//! Matching pure items.
ghost use Rattle.std.specs.Prelude.{◌≡◌, [], true, IfOk, IsTrue};
ghost use Rattle.std.specs.List.{list_all};
ghost use Rattle.assert_logic.specs.Matching.{where_same, given_outcome, match_pure as match_item};
ghost use Rattle.gil_syntax.specs.Evaluation.{evaluate};
ghost use Rattle.gil_syntax.specs.Pure.{binary_of};
ghost use Rattle.gil_syntax.specs.Subexpressions.{literals_of};
ghost use Rattle.gil_syntax.specs.View.{expr_view};
ghost use Rattle.gil_syntax.specs.WellMade.{is_spellable};
ghost use Rattle.gil_values.specs.Pure.{boolean};
ghost use Rattle.sym_evaluation.specs.Plainly.{is_equal};
ghost use Rattle.sym_evaluation.specs.View.{store_view};
ghost use Rattle.sym_matching.specs.Matching.{SplitsPure, StoresStayOver};
ghost use Rattle.sym_matching.specs.Origins.{PureComesFrom};
ghost use Rattle.sym_matching.specs.Parts.{Alone, DefinesPlainly, DefinitionComesFrom, TruthComesFrom};
ghost use Rattle.sym_matching.specs.Plainly.{PureStaysPlain};
ghost use Rattle.sym_matching.specs.View.{stores_view};

use crate::splits::{Split, StoreSplit, behind, where_met};
use crate::tests::ask_true;
use crate::values::{give, unknown_name, value_of};
use gil_syntax::{Expr, Params};
use gil_values::{BinOp, Text};
use std::alloc::{AllocError, Global};
use sym_evaluation::{GoodCase, SymStore};

/// Gives a name the term of the expression, where it has a value.
fn define(
    alloc: Global,
    scope: &Params,
    name: &Text,
    expression: &Expr,
    store: &SymStore,
) -> Result<StoreSplit, AllocError>
    requires { IsTrue (list_all is_spellable (literals_of (expr_view expression.now))) }
    ensures { IfOk result
        (λ x. Alone (λ s. given_outcome scope.now name.now (evaluate (expr_view expression.now) s) s) (store_view store.now) (stores_view x)
        × DefinesPlainly (expr_view expression.now) (store_view store.now) (stores_view x)
        × DefinitionComesFrom scope.now name.now (expr_view expression.now) (store_view store.now) (stores_view x)) }
{
    let Split { found, none } = value_of(alloc, store, expression)?;
    match found {
        Some(GoodCase { conds, result }) => {
            let next = give(alloc, scope, name, &result, store)?;
            behind(alloc, conds, none, next)
        }
        None => Ok(Split { found: None, none }),
    }
}

/// The same store, where the expression is true.
fn assume(alloc: Global, expression: &Expr, store: &SymStore) -> Result<StoreSplit, AllocError>
    requires { IsTrue (list_all is_spellable (literals_of (expr_view expression.now))) }
    ensures { IfOk result
        (λ x. Alone (λ s. where_same (evaluate (expr_view expression.now) s) (boolean true) s) (store_view store.now) (stores_view x)
        × PureStaysPlain (expr_view expression.now) (store_view store.now) (stores_view x)
        × TruthComesFrom (expr_view expression.now) (store_view store.now) (stores_view x)) }
{
    let Split { found, none } = value_of(alloc, store, expression)?;
    match found {
        Some(GoodCase { conds, result }) => {
            let test = ask_true(alloc, &result)?;
            let next = where_met(test, store.copy(alloc)?);
            behind(alloc, conds, none, next)
        }
        None => Ok(Split { found: None, none }),
    }
}

/// Matches an equality of these sides.
fn match_equation(
    alloc: Global,
    scope: &Params,
    expression: &Expr,
    left: &Expr,
    right: &Expr,
    store: &SymStore,
) -> Result<StoreSplit, AllocError>
    requires spelled { IsTrue (list_all is_spellable (literals_of (expr_view expression.now))) }
    requires equation { expr_view expression.now ≡ binary_of BinOp.Equal (expr_view left.now) (expr_view right.now) }
    ensures { IfOk result (λ x. Alone (match_item scope.now (expr_view expression.now)) (store_view store.now) (stores_view x)
        × PureStaysPlain (expr_view expression.now) (store_view store.now) (stores_view x)
        × PureComesFrom scope.now (expr_view expression.now) (store_view store.now) (stores_view x)) }
{
    match unknown_name(store, left) {
        Some(name) => define(alloc, scope, name, right, store),
        None => assume(alloc, expression, store),
    }
}

/// Whether the operator is the equality.
fn is_equality(op: BinOp) -> bool
    ensures { result ≡ is_equal op }
{
    match op {
        BinOp::Equal => true,
        _ => false,
    }
}

/// Matches an expression of two operands.
fn match_operands(
    alloc: Global,
    scope: &Params,
    expression: &Expr,
    op: BinOp,
    left: &Expr,
    right: &Expr,
    store: &SymStore,
) -> Result<StoreSplit, AllocError>
    requires spelled { IsTrue (list_all is_spellable (literals_of (expr_view expression.now))) }
    requires operands { expr_view expression.now ≡ binary_of op (expr_view left.now) (expr_view right.now) }
    ensures { IfOk result (λ x. Alone (match_item scope.now (expr_view expression.now)) (store_view store.now) (stores_view x)
        × PureStaysPlain (expr_view expression.now) (store_view store.now) (stores_view x)
        × PureComesFrom scope.now (expr_view expression.now) (store_view store.now) (stores_view x)) }
{
    if is_equality(op) {
        return match_equation(alloc, scope, expression, left, right, store);
    }
    assume(alloc, expression, store)
}

/// Matches an expression by its form.
fn match_by_form(
    alloc: Global,
    scope: &Params,
    expression: &Expr,
    store: &SymStore,
) -> Result<StoreSplit, AllocError>
    requires { IsTrue (list_all is_spellable (literals_of (expr_view expression.now))) }
    ensures { IfOk result (λ x. Alone (match_item scope.now (expr_view expression.now)) (store_view store.now) (stores_view x)
        × PureStaysPlain (expr_view expression.now) (store_view store.now) (stores_view x)
        × PureComesFrom scope.now (expr_view expression.now) (store_view store.now) (stores_view x)) }
{
    match expression {
        Expr::Op2(op, left, right) => {
            match_operands(alloc, scope, expression, *op, left, right, store)
        }
        Expr::Lit(_) | Expr::Name(_) | Expr::Logical(_) => assume(alloc, expression, store),
        Expr::List(_) => assume(alloc, expression, store),
        Expr::Op1(_, _) => assume(alloc, expression, store),
    }
}

/// Matches a pure item: an equality whose left side is a name that isn't known yet gives it the term of the right side, and
/// anything else must be true.
pub fn match_pure(
    alloc: Global,
    scope: &Params,
    expression: &Expr,
    store: &SymStore,
) -> Result<StoreSplit, AllocError>
    requires { IsTrue (list_all is_spellable (literals_of (expr_view expression.now))) }
    ensures says { IfOk result (λ x. SplitsPure scope.now (expr_view expression.now) (store_view store.now) (stores_view x)) }
    ensures names { IfOk result (λ x. StoresStayOver (store_view store.now) [] (stores_view x)) }
    ensures plain { IfOk result (λ x. PureStaysPlain (expr_view expression.now) (store_view store.now) (stores_view x)) }
    ensures origin { IfOk result (λ x. PureComesFrom scope.now (expr_view expression.now) (store_view store.now) (stores_view x)) }
{
    match_by_form(alloc, scope, expression, store)
}
