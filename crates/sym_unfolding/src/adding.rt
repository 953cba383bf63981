//! Adding the cases of a predicate.
ghost use Rattle.std.specs.Prelude.{◌≡◌, ◌++◌, map, IfOk, Some};
ghost use Rattle.gil_syntax.specs.View.{assertion_view, pred_def_view};
ghost use Rattle.pure_terms.specs.View.{atoms_view};
ghost use Rattle.sym_evaluation.specs.View.{store_view};
ghost use Rattle.sym_model.specs.Lists.{Each};
ghost use Rattle.sym_states.specs.NamingView.{named_view};
ghost use Rattle.sym_states.specs.Producing.{MayAdd};
ghost use Rattle.sym_states.specs.View.{state_view, states_view};
ghost use Rattle.sym_unfolding.specs.Adding.{AddsItems, AddsOver, AddsCases, numbered};
ghost use Rattle.sym_unfolding.specs.Origins.{IsAddedFrom};
ghost use Rattle.sym_unfolding.specs.View.{case_view, cases_view};

use crate::taking::{copy_state, require};
use gil_syntax::{Assertion, Params, PredDef};
use pure_terms::{Atoms, VarTable};
use sequence::Sequence;
use std::alloc::{AllocError, Global};
use sym_evaluation::SymStore;
use sym_model::ListedMemory;
use sym_states::{Named, SymState, SymStates, names_in, produce_items, with_variables};

/// A state with a case of a predicate in place of a fact, and the number of the case.
#[derive(Debug, Drop)]
pub struct UnfoldedCase<M> {
    pub number: usize,
    pub state: SymState<M>,
}

pub type UnfoldedCases<M> = Sequence<UnfoldedCase<M>>;

/// The cases of a list, and then those of another one.
pub(crate) fn push_all<M: Drop>(
    cases: UnfoldedCases<M>,
    more: UnfoldedCases<M>,
) -> Result<UnfoldedCases<M>, AllocError>
    ensures { IfOk result (λ r. cases_view r ≡ cases_view cases ++ cases_view more) }
{
    let mut cases = cases;
    for case in more.into_vec() {
        cases.push(case)?;
    }
    Ok(cases)
}

/// States that have the case of this number.
fn number_each<M: Drop>(
    alloc: Global,
    number: usize,
    states: SymStates<M>,
) -> Result<UnfoldedCases<M>, AllocError>
    ensures { IfOk result (λ r. cases_view r ≡ numbered number (states_view states)) }
{
    let mut cases = Sequence::new(alloc);
    for state in states.into_vec() {
        cases.push(UnfoldedCase { number, state })?;
    }
    Ok(cases)
}

fn copy_table(alloc: Global, vars: &VarTable) -> Result<VarTable, AllocError>
    ensures { IfOk result (λ copied. copied ≡ vars.now) }
{
    let mut copied = Sequence::new(alloc);
    for sort in vars.as_slice() {
        copied.push(*sort)?;
    }
    Ok(copied)
}

/// Adds items to a state over a larger table, under further conditions.
fn add_over<M: ListedMemory>(
    alloc: Global,
    state: &SymState<M>,
    named: Named,
    conds: &Atoms,
    items: &Assertion,
) -> Result<SymStates<M>, AllocError>
    requires { Each (MayAdd M.Local.memory) (assertion_view items.now) }
    ensures { IfOk result (λ rs. AddsOver M.Local.memory M.stands M.terms M.kept (named_view named) (atoms_view conds.now)
        (assertion_view items.now) (state_view state.now) (states_view rs)) }
{
    let Named { vars, store } = named;
    let mut next = copy_state(alloc, state)?;
    next.vars = vars;
    require(alloc, &mut next.conds, conds)?;
    let states = produce_items(alloc, next, items, &store)?;
    Ok(states)
}

/// Adds items to a state under a store, where the names of the items that have no term are new variables.
pub fn add_items<M: ListedMemory>(
    alloc: Global,
    state: &SymState<M>,
    store: &SymStore,
    conds: &Atoms,
    scope: &Params,
    items: &Assertion,
) -> Result<SymStates<M>, AllocError>
    requires { Each (MayAdd M.Local.memory) (assertion_view items.now) }
    ensures says { IfOk result (λ rs. AddsItems M.Local.memory M.stands M.terms M.kept scope.now (store_view store.now) (atoms_view conds.now)
        (assertion_view items.now) (state_view state.now) (states_view rs)) }
    ensures origin { IfOk result (λ rs. Each (IsAddedFrom M.terms (store_view store.now) (atoms_view conds.now) (assertion_view items.now)
        (state_view state.now)) (states_view rs)) }
{
    let names = names_in(alloc, items)?;
    let vars = copy_table(alloc, &state.vars)?;
    let named = with_variables(alloc, vars, store.copy(alloc)?, scope, &names)?;
    match named {
        Some(named) => add_over(alloc, state, named, conds, items),
        None => Ok(Sequence::new(alloc)),
    }
}

/// Adds each case of a predicate to a state under a store.
pub(crate) fn add_cases<M: ListedMemory>(
    alloc: Global,
    state: &SymState<M>,
    store: &SymStore,
    conds: &Atoms,
    scope: &Params,
    pred: &PredDef,
) -> Result<UnfoldedCases<M>, AllocError>
    requires { Each (Each (MayAdd M.Local.memory)) (pred_def_view pred.now).cases }
    ensures { IfOk result (λ rs. AddsCases M.Local.memory M.stands M.terms M.kept scope.now (store_view store.now) (atoms_view conds.now)
        (pred_def_view pred.now).cases (state_view state.now) (cases_view rs)) }
{
    let mut cases = Sequence::new(alloc);
    let bodies = pred.cases.as_slice();
    for number in 0..bodies.len() {
        let states = add_items(alloc, state, store, conds, scope, &bodies[number])?;
        let more = number_each(alloc, number, states)?;
        cases = push_all(cases, more)?;
    }
    Ok(cases)
}
