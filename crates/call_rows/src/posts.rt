//! Postconditions, added to what matching a precondition left.
ghost use Rattle.std.specs.Prelude.{◌≡◌, ◌+◌, ◌++◌, map, Some, IfOk};
ghost use Rattle.std.specs.Option.{option_map};
ghost use Rattle.assert_logic.specs.Modes.{HasModes};
ghost use Rattle.call_rows.specs.Asked.{AddsToState, AsksCompleting, AsksPost, AsksPosts};
ghost use Rattle.call_rows.specs.Posts.{AnswersPost, AnswersPosts, IsReadyIfAny, ReadyOver, only_result};
ghost use Rattle.call_rows.specs.Leaving.{IsCompleted, MayComplete};
ghost use Rattle.call_rows.specs.View.{ready_view};
ghost use Rattle.checked_paths.specs.Meaning.{EachWith};
ghost use Rattle.checked_paths.specs.View.{checking_view, entry_view, nexts_view};
ghost use Rattle.checked_rows.specs.Asking.{AddsTo};
ghost use Rattle.footprint.specs.View.{match_view};
ghost use Rattle.gil_syntax.specs.Program.{prog_view};
ghost use Rattle.gil_syntax.specs.Programs.{find_spec};
ghost use Rattle.gil_syntax.specs.View.{assertion_view, spec_view};
ghost use Rattle.pure_terms.specs.View.{term_view};
ghost use Rattle.sym_leaving.specs.Leaving.{HasCaller};
ghost use Rattle.sym_model.specs.Lists.{Each};
ghost use Rattle.sym_paths.specs.View.{frames_view};
ghost use Rattle.sym_states.specs.Producing.{MayAdd};
ghost use Rattle.sym_states.specs.View.{states_view};

use crate::leaving::{Completion, completed_next};
use checked_paths::{Checking, Entered, Nexts};
use checked_rows::result_name;
use footprint::Match;
use gil_syntax::{Assertion, Assertions, Params, Prog, Spec, Texts};
use gil_values::Place;
use pure_terms::{Decider, Term};
use sequence::Sequence;
use std::alloc::{AllocError, Global};
use std::mem;
use sym_evaluation::SymStore;
use sym_model::ListedMemory;
use sym_states::{Named, SymState, SymStates, with_variables};
use sym_unfolding::add_items;

/// A state to which a postcondition may be added, the terms of names, and that of the result. Contracts see it as its pure data, by
/// `ready_view`.
#[derive(Debug, Drop)]
pub(crate) struct Ready<M> {
    pub(crate) state: SymState<M>,
    pub(crate) store: SymStore,
    pub(crate) result: Term,
}

/// The result's name alone.
fn result_names(alloc: Global) -> Result<Texts, AllocError>
    ensures { IfOk result (λ names. names ≡ only_result) }
{
    let mut names = Sequence::new(alloc);
    names.push(result_name(alloc)?)?;
    Ok(names)
}

/// Gives the result its name in what a match left: it is a new variable, unless a parameter has this name.
pub(crate) fn with_result<M: ListedMemory>(
    alloc: Global,
    found: Match<M>,
    scope: &Params,
) -> Result<Option<Ready<M>>, AllocError>
    ensures { IfOk result (λ o. IsReadyIfAny scope.now (match_view found) (option_map ready_view o)) }
{
    let Match { mut state, store } = found;
    let name = result_name(alloc)?;
    let names = result_names(alloc)?;
    let vars = mem::replace(&mut state.vars, Sequence::new(alloc));
    let Some(named) = with_variables(alloc, vars, store, scope, &names)? else {
        return Ok(None);
    };
    let Named { vars, store } = named;
    state.vars = vars;
    let Some(term) = store.get(&name) else {
        unreachable!();
    };
    let result = term.copy(alloc)?;
    Ok(Some(Ready {
        state,
        store,
        result,
    }))
}

/// The answers of the first list, and then those of the second one.
pub(crate) fn push_nexts<M: Drop>(first: Nexts<M>, second: Nexts<M>) -> Result<Nexts<M>, AllocError>
    ensures { IfOk result (λ all. nexts_view all ≡ nexts_view first ++ nexts_view second) }
{
    let mut all = first;
    for next in second.into_vec() {
        all.push(next)?;
    }
    Ok(all)
}

/// What is answered of each state to which a postcondition was added, in order.
fn each_completed<M: ListedMemory, D: Decider>(
    alloc: Global,
    prog: &Prog,
    spec: &Spec,
    entered: &Entered,
    checking: &Checking<M>,
    here: &Place,
    how: Completion,
    choice: u64,
    states: SymStates<M>,
    term: &Term,
    decider: &mut D,
) -> Result<Nexts<M>, AllocError>
    requires found { find_spec (prog_view prog.now).specs (spec_view spec.now).name ≡ Some (spec_view spec.now) }
    requires modes { HasModes (prog_view prog.now) M.Local.memory }
    requires caller { HasCaller (frames_view checking.now.path.stack) }
    requires may { Each (MayComplete M.terms (entry_view spec.now entered.now) (checking_view checking.now).path.given (term_view term.now)) (states_view states) }
    ensures answers { IfOk result (λ ns. EachWith (IsCompleted (prog_view prog.now) M.stands M.terms (entry_view spec.now entered.now)
        (checking_view checking.now) here.now how choice (term_view term.now)) (states_view states) (nexts_view ns)) }
    ensures asked { IfOk result (λ ns. EachWith (AddsToState (AsksCompleting (prog_view prog.now) (entry_view spec.now entered.now) how))
        (states_view states) (nexts_view ns)) }
{
    let mut nexts = Sequence::new(alloc);
    for state in states.into_vec() {
        nexts.push(completed_next(
            alloc, prog, spec, entered, checking, here, how, choice, state, term, decider,
        )?)?;
    }
    Ok(nexts)
}

/// The answers where one postcondition is added.
fn post_nexts<M: ListedMemory, D: Decider>(
    alloc: Global,
    prog: &Prog,
    spec: &Spec,
    entered: &Entered,
    checking: &Checking<M>,
    here: &Place,
    scope: &Params,
    ready: &Ready<M>,
    how: Completion,
    choice: u64,
    items: &Assertion,
    decider: &mut D,
) -> Result<Nexts<M>, AllocError>
    requires found { find_spec (prog_view prog.now).specs (spec_view spec.now).name ≡ Some (spec_view spec.now) }
    requires modes { HasModes (prog_view prog.now) M.Local.memory }
    requires caller { HasCaller (frames_view checking.now.path.stack) }
    requires over { ReadyOver M.terms (entry_view spec.now entered.now) (checking_view checking.now).path.given (ready_view ready.now) }
    requires addable { Each (MayAdd M.Local.memory) (assertion_view items.now) }
    ensures answers { IfOk result (λ ns. AnswersPost (prog_view prog.now) M.Local.memory M.stands M.terms M.kept (entry_view spec.now entered.now)
        (checking_view checking.now) here.now scope.now (ready_view ready.now) how choice (assertion_view items.now) (nexts_view ns)) }
    ensures asked { IfOk result (λ ns. Each (AddsTo (AsksPost (prog_view prog.now) (entry_view spec.now entered.now) how
        (ready_view ready.now).store (assertion_view items.now)) (ready_view ready.now).state.conds) (nexts_view ns)) }
{
    let none = Sequence::new(alloc);
    let states = add_items(alloc, &ready.state, &ready.store, &none, scope, items)?;
    let term = &ready.result;
    each_completed(
        alloc, prog, spec, entered, checking, here, how, choice, states, term, decider,
    )
}

/// The number of a postcondition among all of them, where so many come before its list. More than 64 bits count are more than memory holds.
fn choice_of(first: u64, number: usize) -> Result<u64, AllocError>
    ensures { IfOk result (λ choice. choice ≡ first + number) }
{
    match first.checked_add(number as u64) {
        Some(choice) => Ok(choice),
        None => Err(AllocError),
    }
}

/// The answers where each postcondition is added, of which the first one is the choice of this number.
pub(crate) fn posts_nexts<M: ListedMemory, D: Decider>(
    alloc: Global,
    prog: &Prog,
    spec: &Spec,
    entered: &Entered,
    checking: &Checking<M>,
    here: &Place,
    scope: &Params,
    ready: &Ready<M>,
    how: Completion,
    first: u64,
    posts: &Assertions,
    decider: &mut D,
) -> Result<Nexts<M>, AllocError>
    requires found { find_spec (prog_view prog.now).specs (spec_view spec.now).name ≡ Some (spec_view spec.now) }
    requires modes { HasModes (prog_view prog.now) M.Local.memory }
    requires caller { HasCaller (frames_view checking.now.path.stack) }
    requires over { ReadyOver M.terms (entry_view spec.now entered.now) (checking_view checking.now).path.given (ready_view ready.now) }
    requires addable { Each (Each (MayAdd M.Local.memory)) (map assertion_view posts.now) }
    ensures answers { IfOk result (λ ns. AnswersPosts (prog_view prog.now) M.Local.memory M.stands M.terms M.kept (entry_view spec.now entered.now)
        (checking_view checking.now) here.now scope.now (ready_view ready.now) how first (map assertion_view posts.now) (nexts_view ns)) }
    ensures asked { IfOk result (λ ns. Each (AddsTo (AsksPosts (prog_view prog.now) (entry_view spec.now entered.now) how
        (ready_view ready.now).store (map assertion_view posts.now)) (ready_view ready.now).state.conds) (nexts_view ns)) }
{
    let mut nexts = Sequence::new(alloc);
    let bodies = posts.as_slice();
    for number in 0..bodies.len() {
        let choice = choice_of(first, number)?;
        let more = post_nexts(
            alloc,
            prog,
            spec,
            entered,
            checking,
            here,
            scope,
            ready,
            how,
            choice,
            &bodies[number],
            decider,
        )?;
        nexts = push_nexts(nexts, more)?;
    }
    Ok(nexts)
}
