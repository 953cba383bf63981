//! Matching expressions with terms.
ghost use Rattle.std.specs.Prelude.{◌≡◌, map, IfOk, IsTrue};
ghost use Rattle.std.specs.List.{list_all};
ghost use Rattle.std.specs.Option.{option_map};
ghost use Rattle.assert_logic.specs.Matching.{where_same};
ghost use Rattle.gil_syntax.specs.Evaluation.{evaluate};
ghost use Rattle.gil_syntax.specs.Subexpressions.{literals_of};
ghost use Rattle.gil_syntax.specs.Valid.{is_among, param_names};
ghost use Rattle.gil_syntax.specs.View.{expr_view, exprs_view};
ghost use Rattle.gil_syntax.specs.WellMade.{is_spellable};
ghost use Rattle.pure_terms.specs.View.{term_view, terms_view, atoms_view};
ghost use Rattle.sym_model.specs.Alternatives.{alternatives_view};
ghost use Rattle.sym_evaluation.specs.View.{store_view, faults_view};
ghost use Rattle.sym_matching.specs.Matching.{SplitsValues, StoresStayOver};
ghost use Rattle.sym_matching.specs.Origins.{ValuesComeFrom};
ghost use Rattle.sym_matching.specs.Parts.{AreValues, ByTerm, GivesTerm, KnownComesFrom, MatchesTerm, Continues};
ghost use Rattle.sym_matching.specs.Plainly.{TermStaysPlain, TermsStayPlain};
ghost use Rattle.sym_matching.specs.Splitting.{unless_term, name_without};
ghost use Rattle.sym_matching.specs.View.{stores_view, split_by};

use crate::splits::{Split, StoreSplit, behind, no_store, sure_store, where_met};
use crate::tests::{ask_equal, fits_sorts};
use gil_syntax::{Expr, Exprs, Params};
use gil_values::Text;
use pure_terms::{Term, Terms};
use std::alloc::{AllocError, Global};
use sym_evaluation::{Cases, FaultCases, GoodCase, SymStore, evaluate};
use sym_model::{Alternatives, never};
use sym_paths::plain_expressions_ask_nothing;

/// The conditions of the faults.
fn conditions_of(alloc: Global, faults: FaultCases) -> Result<Alternatives, AllocError>
    ensures { IfOk result (λ x. alternatives_view x ≡ map (λ c. c.conds) (faults_view faults)) }
{
    let mut alternatives = never(alloc);
    for fault in faults.into_vec() {
        alternatives.push(fault.conds)?;
    }
    Ok(alternatives)
}

/// The term of an expression, where it has a value.
pub(crate) fn value_of(
    alloc: Global,
    store: &SymStore,
    expression: &Expr,
) -> Result<Split<Term>, AllocError>
    requires { IsTrue (list_all is_spellable (literals_of (expr_view expression.now))) }
    ensures { IfOk result (λ x. AreValues (store_view store.now) (expr_view expression.now) (split_by term_view x)) }
{
    plain_expressions_ask_nothing();
    let Cases { faults, good } = evaluate(alloc, store, expression)?;
    Ok(Split {
        found: good,
        none: conditions_of(alloc, faults)?,
    })
}

/// The name, unless it has a term.
fn unless_known<'a>(store: &SymStore, name: &'a Text) -> Option<&'a Text>
    ensures { option_map (λ x. x.now) result ≡ unless_term (store_view store.now) name.now }
{
    match store.get(name) {
        Some(_) => None,
        None => Some(name),
    }
}

/// The name that the expression is, where it has no term.
pub(crate) fn unknown_name<'a>(store: &SymStore, expression: &'a Expr) -> Option<&'a Text>
    ensures { option_map (λ x. x.now) result ≡ name_without (store_view store.now) (expr_view expression.now) }
{
    match expression {
        Expr::Name(name) | Expr::Logical(name) => unless_known(store, name),
        _ => None,
    }
}

/// Whether the name is declared.
fn is_declared(scope: &Params, name: &Text) -> bool
    ensures { result ≡ is_among (param_names scope.now) name.now }
{
    for param in scope.as_slice() {
        if *name == param.name {
            return true;
        }
    }
    false
}

/// Gives a name the term, where it may become known and the term's value has its sort.
pub(crate) fn give(
    alloc: Global,
    scope: &Params,
    name: &Text,
    term: &Term,
    store: &SymStore,
) -> Result<StoreSplit, AllocError>
    ensures { IfOk result
        (λ x. GivesTerm scope.now name.now (term_view term.now) (store_view store.now) (stores_view x)) }
{
    if !is_declared(scope, name) {
        return no_store(alloc);
    }
    let test = fits_sorts(alloc, scope, name, term)?;
    let mut given = store.copy(alloc)?;
    given.set(name.copy(alloc)?, term.copy(alloc)?)?;
    Ok(where_met(test, given))
}

/// The same store, where the expression has the term's value.
fn match_known(
    alloc: Global,
    expression: &Expr,
    term: &Term,
    store: &SymStore,
) -> Result<StoreSplit, AllocError>
    requires { IsTrue (list_all is_spellable (literals_of (expr_view expression.now))) }
    ensures { IfOk result
        (λ x. ByTerm (term_view term.now) (λ w s. where_same (evaluate (expr_view expression.now) s) w s) (store_view store.now) (stores_view x)
        × TermStaysPlain (expr_view expression.now) (term_view term.now) (store_view store.now) (stores_view x)
        × KnownComesFrom (expr_view expression.now) (term_view term.now) (store_view store.now) (stores_view x)) }
{
    let Split { found, none } = value_of(alloc, store, expression)?;
    match found {
        Some(GoodCase { conds, result }) => {
            let test = ask_equal(alloc, &result, term)?;
            let next = where_met(test, store.copy(alloc)?);
            behind(alloc, conds, none, next)
        }
        None => Ok(Split { found: None, none }),
    }
}

/// Matches an expression with a term.
fn match_term(
    alloc: Global,
    scope: &Params,
    expression: &Expr,
    term: &Term,
    store: &SymStore,
) -> Result<StoreSplit, AllocError>
    requires { IsTrue (list_all is_spellable (literals_of (expr_view expression.now))) }
    ensures { IfOk result
        (λ x. MatchesTerm scope.now (expr_view expression.now) (term_view term.now) (store_view store.now) (stores_view x)) }
{
    match unknown_name(store, expression) {
        Some(name) => give(alloc, scope, name, term, store),
        None => match_known(alloc, expression, term, store),
    }
}

/// Matches an expression with a term, where there is a store.
fn match_next(
    alloc: Global,
    scope: &Params,
    expression: &Expr,
    term: &Term,
    split: StoreSplit,
) -> Result<StoreSplit, AllocError>
    requires { IsTrue (list_all is_spellable (literals_of (expr_view expression.now))) }
    ensures { IfOk result
        (λ x. Continues (MatchesTerm scope.now (expr_view expression.now) (term_view term.now)) (stores_view split).found
        (stores_view split).none (stores_view x)) }
{
    let Split { found, none } = split;
    match found {
        Some(GoodCase { conds, result }) => {
            let next = match_term(alloc, scope, expression, term, &result)?;
            behind(alloc, conds, none, next)
        }
        None => Ok(Split { found: None, none }),
    }
}

/// Matches expressions with terms: a name that isn't known yet gets the term, and anything else must have its value. They are
/// matched in order, so a name that is given a term is known to the expressions after it.
pub fn match_terms(
    alloc: Global,
    scope: &Params,
    expressions: &Exprs,
    terms: &Terms,
    store: &SymStore,
) -> Result<StoreSplit, AllocError>
    requires { IsTrue (list_all (λ e. list_all is_spellable (literals_of e)) (exprs_view expressions.now)) }
    ensures says { IfOk result
        (λ x. SplitsValues scope.now (exprs_view expressions.now) (terms_view terms.now) (store_view store.now) (stores_view x)) }
    ensures names { IfOk result (λ x. StoresStayOver (store_view store.now) (terms_view terms.now) (stores_view x)) }
    ensures plain { IfOk result
        (λ x. TermsStayPlain (exprs_view expressions.now) (terms_view terms.now) (store_view store.now) (stores_view x)) }
    ensures origin { IfOk result
        (λ x. ValuesComeFrom scope.now (exprs_view expressions.now) (terms_view terms.now) (store_view store.now) (stores_view x)) }
{
    if expressions.len() != terms.len() {
        return no_store(alloc);
    }
    let terms = terms.as_slice();
    let mut split = sure_store(alloc, store.copy(alloc)?);
    for (index, expression) in expressions.as_slice().iter().enumerate() {
        split = match_next(alloc, scope, expression, &terms[index], split)?;
    }
    Ok(split)
}
