//! Where a predicate's case begins and ends.
ghost use Rattle.std.specs.Prelude.{◌≡◌, ◌++◌, IfOk, Some, map};
ghost use Rattle.std.specs.Option.{option_map};
ghost use Rattle.assert_logic.specs.Matching.{scope_of as scope_names};
ghost use Rattle.gil_syntax.specs.Valid.{param_names};
ghost use Rattle.gil_syntax.specs.View.{pred_def_view};
ghost use Rattle.pure_terms.specs.View.{terms_view, term_view};
ghost use Rattle.sym_evaluation.specs.Pure.{term_at};
ghost use Rattle.sym_evaluation.specs.View.{store_view};
ghost use Rattle.sym_matching.specs.Matching.{SplitsCase, AreTermsAt, CaseStaysOver, TermsStayOver};
ghost use Rattle.sym_matching.specs.Origins.{CaseComesFrom, terms_at};
ghost use Rattle.sym_matching.specs.Parts.{BindsTerm, BindsParam, BindsParams, Continues};
ghost use Rattle.sym_matching.specs.Splitting.{out_test, terms_with};
ghost use Rattle.sym_matching.specs.View.{stores_view, outs_view, test_view};

use crate::splits::{
    KnownOuts, Split, StoreSplit, Test, also, behind, no_store, passed, sure_store, where_met,
};
use crate::tests::{ask_equal, fits_sorts};
use gil_syntax::{Param, Params, PredDef};
use gil_values::Text;
use pure_terms::{Term, Terms};
use sequence::Sequence;
use std::alloc::{AllocError, Global};
use sym_evaluation::{GoodCase, SymStore};

/// Adds equal parameters at the end.
fn extend_scope(alloc: Global, scope: Params, params: &Params) -> Result<Params, AllocError>
    ensures { IfOk result (λ x. x ≡ scope ++ params.now) }
{
    let mut scope = scope;
    for param in params.as_slice() {
        let name = param.name.copy(alloc)?;
        scope.push(Param {
            name,
            sort: param.sort,
        })?;
    }
    Ok(scope)
}

/// All names that a predicate declares, with their sorts.
pub fn scope_of(alloc: Global, pred: &PredDef) -> Result<Params, AllocError>
    ensures { IfOk result (λ x. x ≡ scope_names (pred_def_view pred.now)) }
{
    let scope = extend_scope(alloc, Sequence::new(alloc), &pred.ins)?;
    let scope = extend_scope(alloc, scope, &pred.outs)?;
    extend_scope(alloc, scope, &pred.logicals)
}

/// Whether a name that has a term already has this one's value.
fn agrees(alloc: Global, store: &SymStore, name: &Text, term: &Term) -> Result<Test, AllocError>
    ensures { IfOk result (λ x. test_view x ≡ out_test (term_at (store_view store.now) name.now) (term_view term.now)) }
{
    match store.get(name) {
        Some(known) => ask_equal(alloc, known, term),
        None => Ok(passed(alloc)),
    }
}

/// Gives a parameter a term, which has all its sorts and agrees with one that it has.
fn bind_term(
    alloc: Global,
    sorts: &Params,
    name: &Text,
    term: &Term,
    store: SymStore,
) -> Result<StoreSplit, AllocError>
    ensures { IfOk result (λ x. BindsTerm sorts.now name.now (term_view term.now) (store_view store) (stores_view x)) }
{
    let fits = fits_sorts(alloc, sorts, name, term)?;
    let same = agrees(alloc, &store, name, term)?;
    let test = also(alloc, fits, same)?;
    let mut store = store;
    store.set(name.copy(alloc)?, term.copy(alloc)?)?;
    Ok(where_met(test, store))
}

/// Gives a parameter a term, if there is one.
fn bind_param(
    alloc: Global,
    sorts: &Params,
    param: &Param,
    term: &Option<Term>,
    store: SymStore,
) -> Result<StoreSplit, AllocError>
    ensures { IfOk result
        (λ x. BindsParam sorts.now param.now (option_map term_view term.now) (store_view store) (stores_view x)) }
{
    match term {
        Some(term) => bind_term(alloc, sorts, &param.name, term, store),
        None => Ok(sure_store(alloc, store)),
    }
}

/// Gives a parameter a term, if there is one, where there is a store.
fn bind_next(
    alloc: Global,
    sorts: &Params,
    param: &Param,
    term: &Option<Term>,
    split: StoreSplit,
) -> Result<StoreSplit, AllocError>
    ensures { IfOk result
        (λ x. Continues (BindsParam sorts.now param.now (option_map term_view term.now)) (stores_view split).found
        (stores_view split).none (stores_view x)) }
{
    let Split { found, none } = split;
    match found {
        Some(GoodCase { conds, result }) => {
            let next = bind_param(alloc, sorts, param, term, result)?;
            behind(alloc, conds, none, next)
        }
        None => Ok(Split { found: None, none }),
    }
}

/// Gives parameters terms, where there are any.
fn bind_params(
    alloc: Global,
    sorts: &Params,
    params: &Params,
    terms: &KnownOuts,
    store: SymStore,
) -> Result<StoreSplit, AllocError>
    ensures { IfOk result
        (λ x. BindsParams sorts.now params.now (outs_view terms.now) (store_view store) (stores_view x)) }
{
    if params.len() != terms.len() {
        return no_store(alloc);
    }
    let terms = terms.as_slice();
    let mut split = sure_store(alloc, store);
    for (index, param) in params.as_slice().iter().enumerate() {
        split = bind_next(alloc, sorts, param, &terms[index], split)?;
    }
    Ok(split)
}

/// All of the terms.
fn all_known(alloc: Global, terms: &Terms) -> Result<KnownOuts, AllocError>
    ensures { IfOk result (λ x. outs_view x ≡ map Some (terms_view terms.now)) }
{
    let mut known = Sequence::new(alloc);
    for term in terms.as_slice() {
        known.push(Some(term.copy(alloc)?))?;
    }
    Ok(known)
}

/// The store at the beginning of a case: the ins, and the outs that are known, have terms. A parameter that is listed twice has
/// one value, of all its sorts.
pub fn case_store(
    alloc: Global,
    pred: &PredDef,
    ins: &Terms,
    outs: &KnownOuts,
) -> Result<StoreSplit, AllocError>
    ensures says { IfOk result
        (λ x. SplitsCase (pred_def_view pred.now) (terms_view ins.now) (outs_view outs.now) (stores_view x)) }
    ensures names { IfOk result (λ x. CaseStaysOver (terms_view ins.now) (outs_view outs.now) (stores_view x)) }
    ensures origin { IfOk result
        (λ x. CaseComesFrom (pred_def_view pred.now) (terms_view ins.now) (outs_view outs.now) (stores_view x)) }
{
    let scope = scope_of(alloc, pred)?;
    let known = all_known(alloc, ins)?;
    let first = bind_params(alloc, &scope, &pred.ins, &known, SymStore::new(alloc))?;
    bind_behind(alloc, &scope, &pred.outs, outs, first)
}

/// Gives parameters terms, where there is a store.
fn bind_behind(
    alloc: Global,
    sorts: &Params,
    params: &Params,
    terms: &KnownOuts,
    split: StoreSplit,
) -> Result<StoreSplit, AllocError>
    ensures { IfOk result
        (λ x. Continues (BindsParams sorts.now params.now (outs_view terms.now)) (stores_view split).found
        (stores_view split).none (stores_view x)) }
{
    let Split { found, none } = split;
    match found {
        Some(GoodCase { conds, result }) => {
            let next = bind_params(alloc, sorts, params, terms, result)?;
            behind(alloc, conds, none, next)
        }
        None => Ok(Split { found: None, none }),
    }
}

/// The terms and then that of the name, where all have one.
fn add_term(
    alloc: Global,
    terms: Option<Terms>,
    store: &SymStore,
    name: &Text,
) -> Result<Option<Terms>, AllocError>
    ensures { IfOk result
        (λ o. option_map terms_view o ≡ terms_with (option_map terms_view terms) (term_at (store_view store.now) name.now)) }
{
    match (terms, store.get(name)) {
        (Some(terms), Some(term)) => {
            let mut terms = terms;
            terms.push(term.copy(alloc)?)?;
            Ok(Some(terms))
        }
        _ => Ok(None),
    }
}

/// The terms of the parameters, where all have one.
pub fn terms_of(
    alloc: Global,
    store: &SymStore,
    params: &Params,
) -> Result<Option<Terms>, AllocError>
    ensures says { IfOk result
        (λ o. AreTermsAt (store_view store.now) (param_names params.now) (option_map terms_view o)) }
    ensures names { IfOk result (λ o. TermsStayOver (store_view store.now) (option_map terms_view o)) }
    ensures origin { IfOk result (λ o. option_map terms_view o ≡ terms_at (store_view store.now) (param_names params.now)) }
{
    let mut terms = Some(Terms::new(alloc));
    for param in params.as_slice() {
        terms = add_term(alloc, terms, store, &param.name)?;
    }
    Ok(terms)
}
