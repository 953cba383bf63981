//! What a checked path in a loop comes to where the invariant is added.
ghost use Rattle.std.specs.Prelude.{◌≡◌, ◌+◌, ◌<◌, ◌^◌, IfOk};
ghost use Rattle.checked_paths.specs.Meaning.{EachWith, IsCheckedOver};
ghost use Rattle.checked_paths.specs.View.{checking_view, entry_view, next_view, nexts_view};
ghost use Rattle.checked_rows.specs.Asked.{HasConds};
ghost use Rattle.checked_rows.specs.Asking.{AddsTo};
ghost use Rattle.checked_rows.specs.Doubts.{IsDoubtNext, beyond};
ghost use Rattle.checked_rows.specs.States.{with_state};
ghost use Rattle.footprint.specs.Consuming.{MayMatch};
ghost use Rattle.gil_syntax.specs.View.{assertion_view};
ghost use Rattle.invariant_rows.specs.Asked.{AsksAddingThere};
ghost use Rattle.invariant_rows.specs.Entering.{AreAdded, IsAdditionAnswered};
ghost use Rattle.sym_engine.specs.Lawful.{MayAdvance};
ghost use Rattle.sym_model.specs.Lists.{Each};
ghost use Rattle.sym_paths.specs.View.{frames_view};
ghost use Rattle.sym_states.specs.Meaning.{IsOverTable};
ghost use Rattle.sym_states.specs.View.{state_view, states_view};

use checked_paths::{Checking, Entered, FaultKind, Next, Nexts};
use checked_rows::{Doubt, doubted_next, go_on_in, names_in, path_with, state_of};
use gil_syntax::{Assertion, Params, Spec};
use gil_values::Place;
use pure_terms::{Decider, Reason};
use sequence::Sequence;
use std::alloc::{AllocError, Global};
use sym_model::{ListedMemory, copy_conditions};
use sym_paths::{Satisfiability, ask};
use sym_states::{SymState, SymStates};
use sym_unfolding::add_items;

/// What is answered of a state whose conditions aren't decided: a cause that shows the path as it would go on in the state.
fn undecided_in<M: ListedMemory>(
    alloc: Global,
    here: &Place,
    checking: &Checking<M>,
    state: SymState<M>,
    reason: Reason,
) -> Result<Next<M>, AllocError>
    ensures { IfOk result (λ n. IsDoubtNext FaultKind.Invariant here.now (with_state (checking_view checking.now).path (state_view state))
        (beyond (state_view state).conds reason) (next_view n)) }
{
    let conds = copy_conditions(alloc, state.conds.atoms())?;
    let (path, _facts) = path_with(alloc, &checking.path, state)?;
    let doubt = Doubt::Undecided(conds, reason);
    doubted_next(alloc, FaultKind::Invariant, here, &path, doubt)
}

/// What is answered of a state to which the invariant was added.
fn state_next<M: ListedMemory, D: Decider>(
    alloc: Global,
    here: &Place,
    checking: &Checking<M>,
    state: SymState<M>,
    decider: &mut D,
) -> Result<Next<M>, AllocError>
    requires steps { checking.now.path.steps + 1 < 2 ^ 32 }
    requires next { MayAdvance (frames_view checking.now.path.stack) }
    requires over { IsOverTable M.terms (state_view state) }
    ensures answered { IfOk result (λ n. IsAdditionAnswered M.stands M.terms here.now (checking_view checking.now) (state_view state) (next_view n)) }
    ensures same { IfOk result (λ n. HasConds (state_view state).conds (next_view n)) }
{
    match ask(alloc, decider, &state.vars, state.conds.atoms())? {
        Satisfiability::Satisfiable(_) => go_on_in(alloc, here, checking, state),
        Satisfiability::Unsatisfiable => Ok(Next::Over),
        Satisfiability::Undecided(reason) => undecided_in(alloc, here, checking, state, reason),
    }
}

/// What is answered of each of them, in order.
fn each_state<M: ListedMemory, D: Decider>(
    alloc: Global,
    here: &Place,
    checking: &Checking<M>,
    states: SymStates<M>,
    decider: &mut D,
) -> Result<Nexts<M>, AllocError>
    requires steps { checking.now.path.steps + 1 < 2 ^ 32 }
    requires next { MayAdvance (frames_view checking.now.path.stack) }
    requires over { Each (IsOverTable M.terms) (states_view states) }
    ensures answered { IfOk result (λ ns. EachWith (IsAdditionAnswered M.stands M.terms here.now (checking_view checking.now)) (states_view states) (nexts_view ns)) }
    ensures same { IfOk result (λ ns. EachWith (λ r. HasConds r.conds) (states_view states) (nexts_view ns)) }
{
    let mut nexts = Sequence::new(alloc);
    for state in states.into_vec() {
        nexts.push(state_next(alloc, here, checking, state, decider)?)?;
    }
    Ok(nexts)
}

/// Adds the invariant where the checked path stands in its loop.
pub(crate) fn add_there<M: ListedMemory, D: Decider>(
    alloc: Global,
    spec: &Spec,
    entered: &Entered,
    checking: &Checking<M>,
    here: &Place,
    scope: &Params,
    items: &Assertion,
    decider: &mut D,
) -> Result<Nexts<M>, AllocError>
    requires over { IsCheckedOver M.terms (entry_view spec.now entered.now) (checking_view checking.now) }
    requires steps { checking.now.path.steps + 1 < 2 ^ 32 }
    requires next { MayAdvance (frames_view checking.now.path.stack) }
    requires may { MayMatch M.Local.memory (assertion_view items.now) }
    ensures adds { IfOk result (λ ns. AreAdded M.Local.memory M.stands M.terms M.kept (entry_view spec.now entered.now) scope.now
        (assertion_view items.now) here.now (checking_view checking.now) (nexts_view ns)) }
    ensures asked { IfOk result (λ ns. Each (AddsTo (AsksAddingThere (entry_view spec.now entered.now) (checking_view checking.now)
        (assertion_view items.now)) (checking_view checking.now).path.conds) (nexts_view ns)) }
{
    let _spec = spec;
    let names = names_in(alloc, &checking.path.stack, &entered.variables)?;
    let state = state_of(alloc, &checking.path, &checking.preds, here)?;
    let none = Sequence::new(alloc);
    let states = add_items(alloc, &state, &names, &none, scope, items)?;
    each_state(alloc, here, checking, states, decider)
}
