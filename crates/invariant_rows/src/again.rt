//! An invariant that is reached again: nothing is left to be looked at, where all is as it was before.
ghost use Rattle.std.specs.Prelude.{◌++◌, ◌∷◌, [], IfNone, IfOk, IfSome, List};
ghost use Rattle.checked_paths.specs.Meaning.{IsPassedOver};
ghost use Rattle.checked_paths.specs.View.{checking_view, next_view, passed_view};
ghost use Rattle.checked_rows.specs.Asked.{DoubtAdds};
ghost use Rattle.checked_rows.specs.Asking.{AddsTo, AsksAsBefore};
ghost use Rattle.checked_rows.specs.View.{doubt_view};
ghost use Rattle.gil_values.specs.Pure.{PureValue};
ghost use Rattle.invariant_rows.specs.Visiting.{DoubtsBefore, IsUndecidedThere, IsVisitedAgain, OfBefore};
ghost use Rattle.pure_terms.specs.Meaning.{IsOver, IsUnsatisfiable};
ghost use Rattle.pure_terms.specs.Pure.{opening};
ghost use Rattle.pure_terms.specs.View.{term_view};
ghost use Rattle.sym_evaluation.specs.Meaning.{IsStoreOver};
ghost use Rattle.sym_evaluation.specs.View.{store_view};
ghost use Rattle.sym_states.specs.Meaning.{IsOverTable};
ghost use Rattle.sym_states.specs.View.{state_view};

use crate::fitting::doubt_of_any;
use crate::{Difference, compare, is_as_before};
use checked_paths::{Checking, FaultKind, Next, Passed};
use checked_rows::{Doubt, doubted_next};
use gil_values::Place;
use pure_terms::{Atom, Decider, Term};
use std::alloc::{AllocError, Global};
use sym_evaluation::SymStore;
use sym_model::{ListedMemory, copy_conditions};
use sym_paths::{Satisfiability, ask};
use sym_states::SymState;

/// Why it isn't decided whether all is as it was before, where that depends on the literal form of a term; none where no state is left.
fn doubt_of_form<M: ListedMemory, D: Decider>(
    alloc: Global,
    state: &SymState<M>,
    term: Term,
    decider: &mut D,
) -> Result<Option<Doubt>, AllocError>
    requires over { IsOverTable M.terms (state_view state.now) }
    requires term { IsOver (state_view state.now).vars (term_view term) }
    ensures none { IfOk result
        (λ o. IfNone o (IsUnsatisfiable (state_view state.now).vars ((state_view state.now).conds ++ opening (term_view term) ∷ []))) }
    ensures doubt { IfOk result (λ o. IfSome o (λ d. IsUndecidedThere (state_view state.now).conds (doubt_view d))) }
    ensures asked { IfOk result (λ o. IfSome o (λ d. DoubtAdds AsksAsBefore (state_view state.now).conds (doubt_view d))) }
{
    let mut conds = copy_conditions(alloc, state.conds.atoms())?;
    conds.push(Atom::Open(term))?;
    match ask(alloc, decider, &state.vars, &conds)? {
        Satisfiability::Satisfiable(_) => unreachable!(),
        Satisfiability::Unsatisfiable => Ok(None),
        Satisfiability::Undecided(reason) => Ok(Some(Doubt::Undecided(conds, reason))),
    }
}

/// Why all isn't surely as it was before, if it isn't.
fn doubt_of_before<M: ListedMemory, D: Decider>(
    alloc: Global,
    unlisted: &SymStore,
    former: &Passed<M>,
    state: &SymState<M>,
    decider: &mut D,
) -> Result<Option<Doubt>, AllocError>
    requires over { IsOverTable M.terms (state_view state.now) }
    requires unlisted { IsStoreOver (state_view state.now).vars (store_view unlisted.now) }
    requires former { IsPassedOver M.terms (state_view state.now).vars (passed_view former.now) }
    ensures none { IfOk result
        (λ o. IfNone o ((v : List PureValue) → OfBefore M.stands (store_view unlisted.now) (passed_view former.now) (state_view state.now) (λ P. P) v)) }
    ensures doubt { IfOk result
        (λ o. IfSome o (λ d. DoubtsBefore M.stands (store_view unlisted.now) (passed_view former.now) (state_view state.now) (doubt_view d))) }
    ensures asked { IfOk result (λ o. IfSome o (λ d. DoubtAdds AsksAsBefore (state_view state.now).conds (doubt_view d))) }
{
    if is_as_before(alloc, &state.memory, &state.preds, unlisted, former)? {
        return Ok(None);
    }
    let found = compare(alloc, &state.memory, &state.preds, unlisted, former)?;
    let Difference {
        alternatives,
        unclear,
    } = found;
    let doubt = doubt_of_any(
        alloc,
        &state.vars,
        state.conds.atoms(),
        &alternatives,
        decider,
    )?;
    if doubt.is_some() {
        return Ok(doubt);
    }
    match unclear {
        Some(term) => doubt_of_form(alloc, state, term, decider),
        None => Ok(None),
    }
}

/// What is answered where the invariant is reached again, and leaves this state: nothing is left to be looked at, where that surely is as
/// it was before.
pub(crate) fn again<M: ListedMemory, D: Decider>(
    alloc: Global,
    checking: &Checking<M>,
    here: &Place,
    unlisted: &SymStore,
    former: &Passed<M>,
    state: &SymState<M>,
    decider: &mut D,
) -> Result<Next<M>, AllocError>
    requires over { IsOverTable M.terms (state_view state.now) }
    requires unlisted { IsStoreOver (state_view state.now).vars (store_view unlisted.now) }
    requires former { IsPassedOver M.terms (state_view state.now).vars (passed_view former.now) }
    ensures answer { IfOk result (λ n. IsVisitedAgain M.stands (store_view unlisted.now) (passed_view former.now) (state_view state.now) here.now
        (checking_view checking.now) (next_view n)) }
    ensures asked { IfOk result (λ n. AddsTo AsksAsBefore (state_view state.now).conds (next_view n)) }
{
    match doubt_of_before(alloc, unlisted, former, state, decider)? {
        Some(doubt) => doubted_next(alloc, FaultKind::Invariant, here, &checking.path, doubt),
        None => Ok(Next::Over),
    }
}
