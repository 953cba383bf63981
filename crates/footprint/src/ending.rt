//! Where cases end.
ghost use Rattle.std.specs.Prelude.{◌≡◌, ◌∷◌, [], ◌++◌, IfOk, IsTrue};
ghost use Rattle.gil_syntax.specs.View.{exprs_view, pred_def_view};
ghost use Rattle.assert_logic.specs.Matching.{scope_of};
ghost use Rattle.sym_evaluation.specs.View.{store_view};
ghost use Rattle.sym_states.specs.Producing.{are_spelled};
ghost use Rattle.sym_states.specs.View.{state_view};
ghost use Rattle.footprint.specs.Cases.{EndsMatch, EndsCase, FinishesMatch, Finishes, renumbered};
ghost use Rattle.footprint.specs.Spreading.{Gathers};
ghost use Rattle.footprint.specs.View.{match_view, matches_view, stops_view, leaves_view};

use crate::items::{match_outs, stop_in};
use crate::leaves::{Leaves, Match, Matches, Stop, Stops};
use gil_syntax::{Exprs, Param, Params, PredDef};
use sequence::Sequence;
use std::alloc::{AllocError, Global};
use sym_evaluation::SymStore;
use sym_matching::terms_of;
use sym_model::copy_conditions;
use sym_states::SymState;

fn push_params(alloc: Global, params: Params, more: &Params) -> Result<Params, AllocError>
    ensures { IfOk result (λ r. r ≡ params ++ more.now) }
{
    let mut params = params;
    for param in more.as_slice() {
        let name = param.name.copy(alloc)?;
        params.push(Param {
            name,
            sort: param.sort,
        })?;
    }
    Ok(params)
}

/// All names that a predicate declares.
pub(crate) fn scope_of(alloc: Global, pred: &PredDef) -> Result<Params, AllocError>
    ensures { IfOk result (λ r. r ≡ scope_of (pred_def_view pred.now)) }
{
    let scope = push_params(alloc, Sequence::new(alloc), &pred.ins)?;
    let scope = push_params(alloc, scope, &pred.outs)?;
    push_params(alloc, scope, &pred.logicals)
}

/// That nothing is matched in the state.
pub(crate) fn one_stop<M: Drop>(
    alloc: Global,
    number: usize,
    state: &SymState<M>,
) -> Result<Stops, AllocError>
    ensures { IfOk result (λ r. stops_view r ≡ record { item = number; conds = (state_view state.now).conds } ∷ []) }
{
    let conds = copy_conditions(alloc, state.conds.atoms())?;
    let mut stopped = Sequence::new(alloc);
    stopped.push(Stop {
        item: number,
        conds,
    })?;
    Ok(stopped)
}

/// The stops, at the item with this number.
fn renumber(alloc: Global, stops: Stops, number: usize) -> Result<Stops, AllocError>
    ensures { IfOk result (λ r. stops_view r ≡ renumbered number (stops_view stops)) }
{
    let mut all = Sequence::new(alloc);
    for stop in stops.into_vec() {
        all.push(Stop {
            item: number,
            conds: stop.conds,
        })?;
    }
    Ok(all)
}

/// A match of a case counts where each of these parameters has a term.
fn end_match<M: Drop>(
    alloc: Global,
    found: Match<M>,
    number: usize,
    outs: &Params,
) -> Result<Leaves<M>, AllocError>
    ensures { IfOk result (λ r. EndsMatch number outs.now (match_view found) (leaves_view r)) }
{
    match terms_of(alloc, &found.store, outs)? {
        Some(_) => Leaves::of_match(alloc, found),
        None => stop_in(alloc, number, found.state),
    }
}

fn end_matches<M: Drop>(
    alloc: Global,
    matches: Matches<M>,
    number: usize,
    outs: &Params,
) -> Result<Leaves<M>, AllocError>
    ensures { IfOk result (λ r. Gathers (EndsMatch number outs.now) (matches_view matches) (leaves_view r)) }
{
    let mut leaves = Leaves::new(alloc);
    for found in matches.into_vec() {
        let more = end_match(alloc, found, number, outs)?;
        leaves = leaves.joined_with(more)?;
    }
    Ok(leaves)
}

/// What of these leaves counts for a case with these outs.
pub(crate) fn end_case<M: Drop>(
    alloc: Global,
    leaves: Leaves<M>,
    number: usize,
    outs: &Params,
) -> Result<Leaves<M>, AllocError>
    ensures { IfOk result (λ r. EndsCase number outs.now (leaves_view leaves) (leaves_view r)) }
{
    let Leaves {
        matched,
        stopped,
        undecided,
    } = leaves;
    let ended = end_matches(alloc, matched, number, outs)?;
    let rest = Leaves {
        matched: Sequence::new(alloc),
        stopped: renumber(alloc, stopped, number)?,
        undecided,
    };
    rest.joined_with(ended)
}

/// Matches the outs of a use with those of a case.
fn finish_match<M: Drop>(
    alloc: Global,
    found: Match<M>,
    store: &SymStore,
    number: usize,
    pred: &PredDef,
    scope: &Params,
    outs: &Exprs,
) -> Result<Leaves<M>, AllocError>
    requires { IsTrue (are_spelled (exprs_view outs.now)) }
    ensures { IfOk result (λ r. FinishesMatch number scope.now (exprs_view outs.now) (store_view store.now) pred.now.outs (match_view found)
        (leaves_view r)) }
{
    match terms_of(alloc, &found.store, &pred.outs)? {
        Some(terms) => match_outs(alloc, number, found.state, scope, outs, &terms, store),
        None => stop_in(alloc, number, found.state),
    }
}

/// Matches the outs of a use with those of each match.
fn finish_matches<M: Drop>(
    alloc: Global,
    matches: Matches<M>,
    store: &SymStore,
    number: usize,
    pred: &PredDef,
    scope: &Params,
    outs: &Exprs,
) -> Result<Leaves<M>, AllocError>
    requires { IsTrue (are_spelled (exprs_view outs.now)) }
    ensures { IfOk result
        (λ r. Gathers (FinishesMatch number scope.now (exprs_view outs.now) (store_view store.now) pred.now.outs) (matches_view matches)
        (leaves_view r)) }
{
    let mut leaves = Leaves::new(alloc);
    for found in matches.into_vec() {
        let more = finish_match(alloc, found, store, number, pred, scope, outs)?;
        leaves = leaves.joined_with(more)?;
    }
    Ok(leaves)
}

/// Matches the outs of a use with those of each case.
pub(crate) fn finish<M: Drop>(
    alloc: Global,
    tried: Leaves<M>,
    store: &SymStore,
    number: usize,
    pred: &PredDef,
    scope: &Params,
    outs: &Exprs,
) -> Result<Leaves<M>, AllocError>
    requires { IsTrue (are_spelled (exprs_view outs.now)) }
    ensures { IfOk result (λ r. Finishes number scope.now (exprs_view outs.now) (store_view store.now) pred.now.outs (leaves_view tried)
        (leaves_view r)) }
{
    let Leaves {
        matched,
        stopped,
        undecided,
    } = tried;
    let next = finish_matches(alloc, matched, store, number, pred, scope, outs)?;
    let rest = Leaves {
        matched: Sequence::new(alloc),
        stopped,
        undecided,
    };
    rest.joined_with(next)
}
