//! Matching items that ask neither facts nor cases.
ghost use Rattle.std.specs.Prelude.{◌≡◌, [], IfOk, IsTrue};
ghost use Rattle.std.specs.List.{list_all};
ghost use Rattle.gil_syntax.specs.Pure.{pure};
ghost use Rattle.gil_syntax.specs.Subexpressions.{literals_of};
ghost use Rattle.gil_syntax.specs.View.{expr_view, exprs_view, pred_use_view};
ghost use Rattle.gil_syntax.specs.WellMade.{is_spellable};
ghost use Rattle.pure_terms.specs.View.{term_view, terms_view};
ghost use Rattle.sym_evaluation.specs.Meaning.{IsStoreOver};
ghost use Rattle.sym_evaluation.specs.View.{store_view};
ghost use Rattle.sym_matching.specs.View.{stores_view};
ghost use Rattle.sym_model.specs.Cores.{TakesIns};
ghost use Rattle.sym_model.specs.Terms.{AreEachOver};
ghost use Rattle.sym_model.specs.View.{branches_view, result_view};
ghost use Rattle.sym_states.specs.Meaning.{Serves, IsOverTable};
ghost use Rattle.sym_states.specs.Producing.{are_spelled};
ghost use Rattle.sym_states.specs.View.{state_view};
ghost use Rattle.footprint.specs.Coming.{GuardComesFrom, CoreComesFrom};
ghost use Rattle.footprint.specs.Items.{PureGives, PureStops, SpreadsValues, MatchesDone, MatchesResult, MatchesBranch, AsksIns, CoreGives, CoreStops};
ghost use Rattle.footprint.specs.Leaves.{AreLeaves};
ghost use Rattle.footprint.specs.Plainly.{IsPlainMemory, CoreStaysPlain, ItemStaysPlain};
ghost use Rattle.footprint.specs.Spreading.{spread, all_stop, Gathers};
ghost use Rattle.footprint.specs.View.{leaves_view};

use crate::leaves::{Leaves, Match, Stop, stops};
use crate::states::{under, with_memory};
use gil_syntax::{Expr, Exprs, Params, PredUse};
use pure_terms::{Term, Terms};
use sequence::Sequence;
use std::alloc::{AllocError, Global};
use sym_evaluation::SymStore;
use sym_matching::{Split, StoreSplit, match_pure, match_terms};
use sym_model::{Branch, Branches, ListedMemory, SymResult, copy_conditions};
use sym_states::SymState;

/// The leaves of a split of stores.
pub(crate) fn spread_split<M: Drop>(
    alloc: Global,
    number: usize,
    state: SymState<M>,
    split: StoreSplit,
) -> Result<Leaves<M>, AllocError>
    ensures { IfOk result (λ r. leaves_view r ≡ spread number (state_view state) (stores_view split)) }
{
    let Split { found, none } = split;
    let stopped = stops(alloc, number, state.conds.atoms(), &none)?;
    let mut leaves = Leaves::of_stops(alloc, stopped);
    match found {
        Some(found) => {
            let state = under(alloc, state, &found.conds)?;
            leaves.matched.push(Match {
                state,
                store: found.result,
            })?;
            Ok(leaves)
        }
        None => Ok(leaves),
    }
}

/// That the item isn't matched in the state.
pub(crate) fn stop_in<M: Drop>(
    alloc: Global,
    number: usize,
    state: SymState<M>,
) -> Result<Leaves<M>, AllocError>
    ensures { IfOk result (λ r. leaves_view r ≡ all_stop number (state_view state)) }
{
    let conds = copy_conditions(alloc, state.conds.atoms())?;
    let mut stopped = Sequence::new(alloc);
    stopped.push(Stop {
        item: number,
        conds,
    })?;
    Ok(Leaves::of_stops(alloc, stopped))
}

/// Matches a pure item.
pub(crate) fn match_guard<M: ListedMemory>(
    alloc: Global,
    number: usize,
    state: SymState<M>,
    scope: &Params,
    expression: &Expr,
    store: &SymStore,
) -> Result<Leaves<M>, AllocError>
    requires spelled { IsTrue (list_all is_spellable (literals_of (expr_view expression.now))) }
    requires over { IsOverTable M.terms (state_view state) }
    requires store_over { IsStoreOver (state_view state).vars (store_view store.now) }
    ensures says { IfOk result (λ r. AreLeaves M.stands M.terms M.kept (state_view state)
        (Serves M.stands M.terms (state_view state) (store_view store.now)) (PureGives scope.now (expr_view expression.now))
        (PureStops number scope.now (expr_view expression.now)) (leaves_view r)
        × ItemStaysPlain (IsPlainMemory M.Local.memory M.keeps_plain M.terms) (pure (expr_view expression.now))
        (record { state = state_view state; store = store_view store.now }) (leaves_view r)) }
    ensures origin { IfOk result (λ r. GuardComesFrom M.terms scope.now (expr_view expression.now) (store_view store.now) (state_view state) (leaves_view r)) }
{
    let split = match_pure(alloc, scope, expression, store)?;
    spread_split(alloc, number, state, split)
}

/// Matches outs with their terms.
pub(crate) fn match_outs<M: Drop>(
    alloc: Global,
    number: usize,
    state: SymState<M>,
    scope: &Params,
    outs: &Exprs,
    terms: &Terms,
    store: &SymStore,
) -> Result<Leaves<M>, AllocError>
    requires { IsTrue (are_spelled (exprs_view outs.now)) }
    ensures { IfOk result (λ r. SpreadsValues number scope.now (exprs_view outs.now) (store_view store.now) (state_view state)
        (terms_view terms.now) (leaves_view r)) }
{
    let split = match_terms(alloc, scope, outs, terms, store)?;
    spread_split(alloc, number, state, split)
}

/// Matches outs with what consuming is done with.
fn match_done<M: Drop>(
    alloc: Global,
    number: usize,
    state: SymState<M>,
    scope: &Params,
    outs: &Exprs,
    done: &Term,
    store: &SymStore,
) -> Result<Leaves<M>, AllocError>
    requires { IsTrue (are_spelled (exprs_view outs.now)) }
    ensures { IfOk result (λ r. MatchesDone number scope.now (exprs_view outs.now) (store_view store.now) (state_view state)
        (term_view done.now) (leaves_view r)) }
{
    match done {
        Term::List(terms) => match_outs(alloc, number, state, scope, outs, terms, store),
        _ => stop_in(alloc, number, state),
    }
}

/// Matches outs with what consuming comes to.
fn match_result<M: Drop>(
    alloc: Global,
    number: usize,
    state: SymState<M>,
    scope: &Params,
    outs: &Exprs,
    came: SymResult,
    store: &SymStore,
) -> Result<Leaves<M>, AllocError>
    requires { IsTrue (are_spelled (exprs_view outs.now)) }
    ensures { IfOk result (λ r. MatchesResult number scope.now (exprs_view outs.now) (store_view store.now) (state_view state)
        (result_view came) (leaves_view r)) }
{
    match came {
        SymResult::Done(done) => match_done(alloc, number, state, scope, outs, &done, store),
        _ => stop_in(alloc, number, state),
    }
}

/// The leaves of the branches of consumption.
fn match_branches<M: ListedMemory>(
    alloc: Global,
    number: usize,
    state: &SymState<M>,
    scope: &Params,
    outs: &Exprs,
    branches: Branches<M>,
    store: &SymStore,
) -> Result<Leaves<M>, AllocError>
    requires { IsTrue (are_spelled (exprs_view outs.now)) }
    ensures { IfOk result (λ r. Gathers (MatchesBranch number scope.now (exprs_view outs.now) (store_view store.now) (state_view state.now))
        (branches_view branches) (leaves_view r)) }
{
    let mut leaves = Leaves::new(alloc);
    for branch in branches.into_vec() {
        let Branch {
            conds,
            state: memory,
            result: came,
        } = branch;
        let next = with_memory(alloc, state, memory, &conds)?;
        let more = match_result(alloc, number, next, scope, outs, came, store)?;
        leaves = leaves.joined_with(more)?;
    }
    Ok(leaves)
}

/// Matches a use of a core predicate: its key is taken out of the memory, and its outs are matched with what the key held.
pub(crate) fn match_core<M: ListedMemory>(
    alloc: Global,
    number: usize,
    state: &SymState<M>,
    scope: &Params,
    used: &PredUse,
    ins: &Terms,
    store: &SymStore,
) -> Result<Leaves<M>, AllocError>
    requires spelled { IsTrue (are_spelled (pred_use_view used.now).outs) }
    requires takes { TakesIns M.Local.memory used.now.pred (terms_view ins.now) }
    requires over { IsOverTable M.terms (state_view state.now) }
    requires store_over { IsStoreOver (state_view state.now).vars (store_view store.now) }
    requires ins_over { AreEachOver (state_view state.now).vars (terms_view ins.now) }
    ensures says { IfOk result (λ r. AreLeaves M.stands M.terms M.kept (state_view state.now)
        (AsksIns M.stands M.terms (state_view state.now) (store_view store.now) (terms_view ins.now))
        (CoreGives scope.now (pred_use_view used.now) (terms_view ins.now))
        (CoreStops number scope.now (pred_use_view used.now) (terms_view ins.now)) (leaves_view r)
        × CoreStaysPlain (IsPlainMemory M.Local.memory M.keeps_plain M.terms) (pred_use_view used.now) (terms_view ins.now) (store_view store.now)
        (state_view state.now) (leaves_view r)) }
    ensures origin { IfOk result (λ r. CoreComesFrom M.terms scope.now (pred_use_view used.now) (terms_view ins.now) (store_view store.now)
        (state_view state.now) (leaves_view r)) }
{
    let branches = state.memory.consume(alloc, &used.pred, ins)?;
    match_branches(alloc, number, state, scope, &used.outs, branches, store)
}
