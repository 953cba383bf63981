//! Calls by specification, from where the called procedure begins.
ghost use Rattle.std.specs.Prelude.{◌≡◌, length, map, Some, IfOk};
ghost use Rattle.addable_programs.specs.Addable.{IsAddableSpec};
ghost use Rattle.assert_logic.specs.Modes.{HasModes};
ghost use Rattle.call_rows.specs.Asked.{AddsToMatch, AsksFitting, AsksSpecified};
ghost use Rattle.call_rows.specs.Gathering.{GathersNexts};
ghost use Rattle.call_rows.specs.Matches.{AnswersCall, AnswersFitting, AnswersMatch, MatchOver, scope_of as names_of};
ghost use Rattle.checked_paths.specs.Meaning.{IsCheckedOver};
ghost use Rattle.checked_paths.specs.View.{checking_view, entry_view, nexts_view};
ghost use Rattle.checked_rows.specs.Asking.{AddsTo};
ghost use Rattle.footprint.specs.Consuming.{CasesMayMatch};
ghost use Rattle.footprint.specs.View.{match_view, matches_view};
ghost use Rattle.gil_syntax.specs.Program.{prog_view};
ghost use Rattle.gil_syntax.specs.Programs.{find_spec};
ghost use Rattle.gil_syntax.specs.View.{assertion_view, spec_view};
ghost use Rattle.sym_evaluation.specs.View.{store_view};
ghost use Rattle.sym_leaving.specs.Leaving.{HasCaller};
ghost use Rattle.sym_model.specs.Lists.{Each};
ghost use Rattle.sym_paths.specs.Frames.{running_store};
ghost use Rattle.sym_paths.specs.View.{frames_view};

use crate::arguments::arguments_doubt;
use crate::leaving::Completion;
use crate::posts::{posts_nexts, push_nexts, with_result};
use checked_paths::{Checking, Entered, FaultKind, Nexts};
use checked_rows::{Doubt, doubted, nothing, scope_of, state_of};
use footprint::{Match, Matches, Matching, consume_all};
use gil_syntax::{Assertions, Params, Prog, Spec};
use gil_values::Place;
use pure_terms::Decider;
use sequence::Sequence;
use std::alloc::{AllocError, Global};
use sym_evaluation::SymStore;
use sym_model::ListedMemory;
use sym_paths::{Frames, running};

/// The terms of the variables of the procedure that runs.
fn store_there(alloc: Global, frames: &Frames) -> Result<SymStore, AllocError>
    ensures { IfOk result (λ s. store_view s ≡ running_store (frames_view frames.now)) }
{
    match running(frames) {
        Some(frame) => frame.store.copy(alloc),
        None => Ok(SymStore::new(alloc)),
    }
}

/// How many assertions there are.
fn count_of(posts: &Assertions) -> u64
    ensures { result ≡ length (map assertion_view posts.now) }
{
    posts.len() as u64
}

/// The answers where the precondition is matched so: each postcondition is added, and then each error postcondition.
fn match_nexts<M: ListedMemory, D: Decider>(
    alloc: Global,
    prog: &Prog,
    spec: &Spec,
    entered: &Entered,
    used: &Spec,
    checking: &Checking<M>,
    here: &Place,
    scope: &Params,
    found: Match<M>,
    decider: &mut D,
) -> Result<Nexts<M>, AllocError>
    requires found { find_spec (prog_view prog.now).specs (spec_view spec.now).name ≡ Some (spec_view spec.now) }
    requires modes { HasModes (prog_view prog.now) M.Local.memory }
    requires scope { scope.now ≡ names_of (spec_view used.now) }
    requires addable { IsAddableSpec M.Local.memory (spec_view used.now) }
    requires caller { HasCaller (frames_view checking.now.path.stack) }
    requires over { MatchOver M.terms (entry_view spec.now entered.now) (checking_view checking.now).path.given (match_view found) }
    ensures answers { IfOk result (λ ns. AnswersMatch (prog_view prog.now) M.Local.memory M.stands M.terms M.kept (entry_view spec.now entered.now)
        (spec_view used.now) (checking_view checking.now) here.now (match_view found) (nexts_view ns)) }
    ensures asked { IfOk result (λ ns. AddsToMatch (prog_view prog.now) (entry_view spec.now entered.now) (spec_view used.now)
        (match_view found) (nexts_view ns)) }
{
    let Some(ready) = with_result(alloc, found, scope)? else {
        return nothing(alloc);
    };
    let returns = Completion::Returns;
    let returned = posts_nexts(
        alloc,
        prog,
        spec,
        entered,
        checking,
        here,
        scope,
        &ready,
        returns,
        0,
        &used.posts,
        decider,
    )?;
    let throws = Completion::Throws;
    let first = count_of(&used.posts);
    let thrown = posts_nexts(
        alloc,
        prog,
        spec,
        entered,
        checking,
        here,
        scope,
        &ready,
        throws,
        first,
        &used.errors,
        decider,
    )?;
    push_nexts(returned, thrown)
}

/// The answers of all matches, in order.
fn matches_nexts<M: ListedMemory, D: Decider>(
    alloc: Global,
    prog: &Prog,
    spec: &Spec,
    entered: &Entered,
    used: &Spec,
    checking: &Checking<M>,
    here: &Place,
    scope: &Params,
    matches: Matches<M>,
    decider: &mut D,
) -> Result<Nexts<M>, AllocError>
    requires found { find_spec (prog_view prog.now).specs (spec_view spec.now).name ≡ Some (spec_view spec.now) }
    requires modes { HasModes (prog_view prog.now) M.Local.memory }
    requires scope { scope.now ≡ names_of (spec_view used.now) }
    requires addable { IsAddableSpec M.Local.memory (spec_view used.now) }
    requires caller { HasCaller (frames_view checking.now.path.stack) }
    requires over { Each (MatchOver M.terms (entry_view spec.now entered.now) (checking_view checking.now).path.given) (matches_view matches) }
    ensures answers { IfOk result (λ ns. GathersNexts (AnswersMatch (prog_view prog.now) M.Local.memory M.stands M.terms M.kept
        (entry_view spec.now entered.now) (spec_view used.now) (checking_view checking.now) here.now) (matches_view matches) (nexts_view ns)) }
    ensures asked { IfOk result (λ ns. GathersNexts (AddsToMatch (prog_view prog.now) (entry_view spec.now entered.now) (spec_view used.now))
        (matches_view matches) (nexts_view ns)) }
{
    let mut nexts = Sequence::new(alloc);
    for found in matches.into_vec() {
        let more = match_nexts(
            alloc, prog, spec, entered, used, checking, here, scope, found, decider,
        )?;
        nexts = push_nexts(nexts, more)?;
    }
    Ok(nexts)
}

/// The answers where the arguments have the sorts of the parameters: the precondition is matched and taken.
fn fitting_nexts<M: ListedMemory, D: Decider>(
    alloc: Global,
    prog: &Prog,
    spec: &Spec,
    entered: &Entered,
    used: &Spec,
    checking: &Checking<M>,
    here: &Place,
    decider: &mut D,
) -> Result<Nexts<M>, AllocError>
    requires found { find_spec (prog_view prog.now).specs (spec_view spec.now).name ≡ Some (spec_view spec.now) }
    requires modes { HasModes (prog_view prog.now) M.Local.memory }
    requires addable { IsAddableSpec M.Local.memory (spec_view used.now) }
    requires cases { CasesMayMatch M.Local.memory (prog_view prog.now).preds }
    requires caller { HasCaller (frames_view checking.now.path.stack) }
    requires over { IsCheckedOver M.terms (entry_view spec.now entered.now) (checking_view checking.now) }
    ensures answers { IfOk result (λ ns. AnswersFitting (prog_view prog.now) M.Local.memory M.stands M.terms M.kept (entry_view spec.now entered.now)
        (spec_view used.now) (checking_view checking.now) here.now (nexts_view ns)) }
    ensures asked { IfOk result (λ ns. Each (AddsTo (AsksFitting (prog_view prog.now) (entry_view spec.now entered.now) (spec_view used.now)
        (running_store (frames_view checking.now.path.stack))) (checking_view checking.now).path.conds) (nexts_view ns)) }
{
    let scope = scope_of(alloc, used)?;
    let store = store_there(alloc, &checking.path.stack)?;
    let state = state_of(alloc, &checking.path, &checking.preds, here)?;
    match consume_all(alloc, state, prog, &scope, &used.pre, store, decider)? {
        Matching::All(matches) => matches_nexts(
            alloc, prog, spec, entered, used, checking, here, &scope, matches, decider,
        ),
        Matching::Unmatched {
            item: _,
            conds,
            valuation,
        } => {
            let doubt = Doubt::Under(conds, valuation);
            doubted(
                alloc,
                FaultKind::CallPrecondition,
                here,
                &checking.path,
                doubt,
            )
        }
        Matching::Unknown { conds, reason } => {
            let doubt = Doubt::Undecided(conds, reason);
            doubted(
                alloc,
                FaultKind::CallPrecondition,
                here,
                &checking.path,
                doubt,
            )
        }
    }
}

/// The answers of a call by specification, of a path that stands where the called procedure begins.
pub(crate) fn specified_nexts<M: ListedMemory, D: Decider>(
    alloc: Global,
    prog: &Prog,
    spec: &Spec,
    entered: &Entered,
    used: &Spec,
    checking: &Checking<M>,
    here: &Place,
    decider: &mut D,
) -> Result<Nexts<M>, AllocError>
    requires found { find_spec (prog_view prog.now).specs (spec_view spec.now).name ≡ Some (spec_view spec.now) }
    requires modes { HasModes (prog_view prog.now) M.Local.memory }
    requires addable { IsAddableSpec M.Local.memory (spec_view used.now) }
    requires cases { CasesMayMatch M.Local.memory (prog_view prog.now).preds }
    requires caller { HasCaller (frames_view checking.now.path.stack) }
    requires over { IsCheckedOver M.terms (entry_view spec.now entered.now) (checking_view checking.now) }
    ensures answers { IfOk result (λ ns. AnswersCall (prog_view prog.now) M.Local.memory M.stands M.terms M.kept (entry_view spec.now entered.now)
        (spec_view used.now) (checking_view checking.now) here.now (nexts_view ns)) }
    ensures asked { IfOk result (λ ns. Each (AddsTo (AsksSpecified (prog_view prog.now) (entry_view spec.now entered.now) (spec_view used.now)
        (running_store (frames_view checking.now.path.stack))) (checking_view checking.now).path.conds) (nexts_view ns)) }
{
    let path = &checking.path;
    let store = store_there(alloc, &path.stack)?;
    let conds = path.conds.atoms();
    match arguments_doubt(alloc, &path.vars, conds, &store, &used.params, decider)? {
        Some(doubt) => doubted(alloc, FaultKind::CallPrecondition, here, path, doubt),
        None => fitting_nexts(alloc, prog, spec, entered, used, checking, here, decider),
    }
}
