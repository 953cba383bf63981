//! Matching assertions.
ghost use Rattle.std.specs.Prelude.{◌≡◌, length, map, None, IfOk, IsTrue};
ghost use Rattle.std.specs.Option.{option_map};
ghost use Rattle.gil_syntax.specs.Programs.{find_pred};
ghost use Rattle.gil_syntax.specs.Pure.{uses};
ghost use Rattle.assert_logic.specs.Matching.{scope_of as scope_names};
ghost use Rattle.pure_terms.specs.View.{atoms_view};
ghost use Rattle.gil_syntax.specs.View.{assertion_view, item_view, pred_use_view, pred_def_view};
ghost use Rattle.sym_evaluation.specs.Meaning.{IsStoreOver};
ghost use Rattle.sym_evaluation.specs.View.{store_view};
ghost use Rattle.sym_model.specs.Lists.{Each};
ghost use Rattle.sym_states.specs.Meaning.{Serves, IsOverTable};
ghost use Rattle.sym_states.specs.Producing.{are_spelled, MayAdd};
ghost use Rattle.sym_states.specs.View.{state_view, states_view};
ghost use Rattle.mem_model.specs.CoreNames.{core_of};
ghost use Rattle.footprint.specs.Assertions.{cases_at, ItemsGive, ItemsStop, IsMatchable, NextMatched, AreAskedOver, UseGives, UseStops, IsOpen, CasesMatched};
ghost use Rattle.footprint.specs.Cases.{PredMatched, PredTried, CasesGive, CasesStop, StopsIn, NextCase, CaseTried, AreOverTable};
ghost use Rattle.footprint.specs.Coming.{ItemComesFrom, ItemsComeFrom, NextComesFrom, UseComesFrom, PredComesFrom, TryComesFrom, NextTryComesFrom, TriesComeFrom, CasesComeFrom};
ghost use Rattle.footprint.specs.Consuming.{MayMatch, CasesMayMatch};
ghost use Rattle.footprint.specs.Items.{ItemGives, ItemStops};
ghost use Rattle.footprint.specs.Leaves.{AreLeaves};
ghost use Rattle.footprint.specs.Plainly.{IsPlainMemory, CoreStaysPlain, ItemStaysPlain, ItemsStayPlain};
ghost use Rattle.footprint.specs.Spreading.{Gathers};
ghost use Rattle.footprint.specs.Uses.{AsksUse};
ghost use Rattle.footprint.specs.View.{match_view, asked_view, leaves_view};

use crate::choosing::choose_fact;
use crate::ending::{end_case, finish, one_stop, scope_of};
use crate::items::{match_core, match_guard, stop_in};
use crate::leaves::{Leaves, Match, stops};
use crate::pruning::prune;
use crate::states::{renewed, under};
use crate::uses::{Asked, ask_use, copies_under, take_facts};
use gil_syntax::{Assertion, Item, Params, PredDef, PredDefs, PredUse};
use gil_values::Text;
use mem_model::Core;
use pure_terms::{Atoms, Decider};
use sequence::Sequence;
use std::alloc::{AllocError, Global};
use sym_evaluation::SymStore;
use sym_matching::{Split, case_store};
use sym_model::ListedMemory;
use sym_states::{SymState, SymStates};

/// Matches the items of an assertion from left to right. Where a use has no fact that fits, cases of its predicate are tried to this
/// depth.
#[cycle(matching)]
pub(crate) fn match_items<M: ListedMemory, D: Decider>(
    alloc: Global,
    start: Match<M>,
    preds: &PredDefs,
    scope: &Params,
    items: &Assertion,
    depth: usize,
    decider: &mut D,
) -> Result<Leaves<M>, AllocError>
    requires start { IsMatchable M.terms (match_view start) }
    requires may { MayMatch M.Local.memory (assertion_view items.now) }
    requires cases { CasesMayMatch M.Local.memory (map pred_def_view preds.now) }
    ensures says { IfOk result (λ r. AreLeaves M.stands M.terms M.kept (state_view start.state)
        (Serves M.stands M.terms (state_view start.state) (store_view start.store))
        (ItemsGive (cases_at (map pred_def_view preds.now) depth) scope.now (assertion_view items.now))
        (ItemsStop (cases_at (map pred_def_view preds.now) depth) scope.now (assertion_view items.now)) (leaves_view r)
        × ItemsStayPlain (IsPlainMemory M.Local.memory M.keeps_plain M.terms) (assertion_view items.now) (match_view start) (leaves_view r)) }
    ensures origin { IfOk result (λ r. ItemsComeFrom M.terms (map pred_def_view preds.now) scope.now (assertion_view items.now) (match_view start) (leaves_view r)) }
{
    let mut leaves = Leaves::of_match(alloc, start)?;
    let items = items.as_slice();
    for number in 0..items.len() {
        leaves = match_next(
            alloc,
            leaves,
            number,
            preds,
            scope,
            &items[number],
            depth,
            decider,
        )?;
    }
    Ok(leaves)
}

/// Goes on from each match with the next item.
#[cycle(matching)]
fn match_next<M: ListedMemory, D: Decider>(
    alloc: Global,
    leaves: Leaves<M>,
    number: usize,
    preds: &PredDefs,
    scope: &Params,
    item: &Item,
    depth: usize,
    decider: &mut D,
) -> Result<Leaves<M>, AllocError>
    requires each { Each (IsMatchable M.terms) (leaves_view leaves).matched }
    requires may { MayAdd M.Local.memory (item_view item.now) }
    requires cases { CasesMayMatch M.Local.memory (map pred_def_view preds.now) }
    ensures says { IfOk result (λ r. NextMatched M.stands M.terms M.kept (IsPlainMemory M.Local.memory M.keeps_plain M.terms) number
        (cases_at (map pred_def_view preds.now) depth) scope.now (item_view item.now) (leaves_view leaves) (leaves_view r)) }
    ensures origin { IfOk result (λ r. NextComesFrom M.terms (map pred_def_view preds.now) scope.now (item_view item.now) (leaves_view leaves) (leaves_view r)) }
{
    let Leaves {
        matched,
        stopped,
        undecided,
    } = leaves;
    let mut next = Leaves::new(alloc);
    for found in matched.into_vec() {
        let more = match_item(alloc, found, number, preds, scope, item, depth, decider)?;
        next = next.joined_with(more)?;
    }
    let next = prune(alloc, next, decider)?;
    let rest = Leaves {
        matched: Sequence::new(alloc),
        stopped,
        undecided,
    };
    rest.joined_with(next)
}

/// Matches one item.
#[cycle(matching)]
fn match_item<M: ListedMemory, D: Decider>(
    alloc: Global,
    found: Match<M>,
    number: usize,
    preds: &PredDefs,
    scope: &Params,
    item: &Item,
    depth: usize,
    decider: &mut D,
) -> Result<Leaves<M>, AllocError>
    requires found { IsMatchable M.terms (match_view found) }
    requires may { MayAdd M.Local.memory (item_view item.now) }
    requires cases { CasesMayMatch M.Local.memory (map pred_def_view preds.now) }
    ensures says { IfOk result (λ r. AreLeaves M.stands M.terms M.kept (state_view found.state)
        (Serves M.stands M.terms (state_view found.state) (store_view found.store))
        (ItemGives (cases_at (map pred_def_view preds.now) depth) scope.now (item_view item.now))
        (ItemStops number (cases_at (map pred_def_view preds.now) depth) scope.now (item_view item.now)) (leaves_view r)
        × ItemStaysPlain (IsPlainMemory M.Local.memory M.keeps_plain M.terms) (item_view item.now) (match_view found) (leaves_view r)) }
    ensures origin { IfOk result (λ r. ItemComesFrom M.terms (map pred_def_view preds.now) scope.now (item_view item.now) (match_view found) (leaves_view r)) }
{
    let Match { state, store } = found;
    match item {
        Item::Pure(expression) => match_guard(alloc, number, state, scope, expression, &store),
        Item::Uses(used) => match_use(
            alloc, state, &store, number, preds, scope, used, depth, decider,
        ),
    }
}

/// Matches a use.
#[cycle(matching)]
fn match_use<M: ListedMemory, D: Decider>(
    alloc: Global,
    state: SymState<M>,
    store: &SymStore,
    number: usize,
    preds: &PredDefs,
    scope: &Params,
    used: &PredUse,
    depth: usize,
    decider: &mut D,
) -> Result<Leaves<M>, AllocError>
    requires over { IsOverTable M.terms (state_view state) }
    requires store_over { IsStoreOver (state_view state).vars (store_view store.now) }
    requires may { MayAdd M.Local.memory (uses (pred_use_view used.now)) }
    requires cases { CasesMayMatch M.Local.memory (map pred_def_view preds.now) }
    ensures says { IfOk result (λ r. AreLeaves M.stands M.terms M.kept (state_view state)
        (Serves M.stands M.terms (state_view state) (store_view store.now))
        (ItemGives (cases_at (map pred_def_view preds.now) depth) scope.now (uses (pred_use_view used.now)))
        (ItemStops number (cases_at (map pred_def_view preds.now) depth) scope.now (uses (pred_use_view used.now))) (leaves_view r)
        × ItemStaysPlain (IsPlainMemory M.Local.memory M.keeps_plain M.terms) (uses (pred_use_view used.now))
        (record { state = state_view state; store = store_view store.now }) (leaves_view r)) }
    ensures origin { IfOk result (λ r. ItemComesFrom M.terms (map pred_def_view preds.now) scope.now (uses (pred_use_view used.now))
        (record { state = state_view state; store = store_view store.now }) (leaves_view r)) }
{
    let Split { found, none } = ask_use(alloc, store, used)?;
    let stopped = stops(alloc, number, state.conds.atoms(), &none)?;
    let leaves = Leaves::of_stops(alloc, stopped);
    match found {
        Some(found) => {
            let state = under(alloc, state, &found.conds)?;
            let more = match_asked(
                alloc,
                &state,
                store,
                &found.result,
                number,
                preds,
                scope,
                used,
                depth,
                decider,
            )?;
            leaves.joined_with(more)
        }
        None => Ok(leaves),
    }
}

/// Matches a use whose ins and known outs have these terms.
#[cycle(matching)]
fn match_asked<M: ListedMemory, D: Decider>(
    alloc: Global,
    state: &SymState<M>,
    store: &SymStore,
    asked: &Asked,
    number: usize,
    preds: &PredDefs,
    scope: &Params,
    used: &PredUse,
    depth: usize,
    decider: &mut D,
) -> Result<Leaves<M>, AllocError>
    requires over { IsOverTable M.terms (state_view state.now) }
    requires store_over { IsStoreOver (state_view state.now).vars (store_view store.now) }
    requires asked { AreAskedOver (state_view state.now).vars (asked_view asked.now) }
    requires ins_number { length (asked_view asked.now).ins ≡ length (pred_use_view used.now).ins }
    requires may { MayAdd M.Local.memory (uses (pred_use_view used.now)) }
    requires cases { CasesMayMatch M.Local.memory (map pred_def_view preds.now) }
    ensures says { IfOk result (λ r. AreLeaves M.stands M.terms M.kept (state_view state.now)
        (AsksUse M.stands M.terms (state_view state.now) (store_view store.now) (asked_view asked.now))
        (UseGives (cases_at (map pred_def_view preds.now) depth) scope.now (core_of used.now.pred) (pred_use_view used.now)
        (asked_view asked.now))
        (UseStops number (cases_at (map pred_def_view preds.now) depth) scope.now (core_of used.now.pred) (pred_use_view used.now)
        (asked_view asked.now))
        (leaves_view r)
        × CoreStaysPlain (IsPlainMemory M.Local.memory M.keeps_plain M.terms) (pred_use_view used.now) (asked_view asked.now).ins
        (store_view store.now) (state_view state.now) (leaves_view r)) }
    ensures origin { IfOk result (λ r. UseComesFrom M.terms (map pred_def_view preds.now) scope.now (pred_use_view used.now) (store_view store.now)
        (asked_view asked.now) (state_view state.now) (leaves_view r)) }
{
    match Core::from_name(&used.pred) {
        Some(_) => match_core(alloc, number, state, scope, used, &asked.ins, store),
        None => match_user(
            alloc, state, store, asked, number, preds, scope, used, depth, decider,
        ),
    }
}

/// Matches a use of a user predicate: the first fact that fits is taken, and where none does, cases are tried.
#[cycle(matching)]
fn match_user<M: ListedMemory, D: Decider>(
    alloc: Global,
    state: &SymState<M>,
    store: &SymStore,
    asked: &Asked,
    number: usize,
    preds: &PredDefs,
    scope: &Params,
    used: &PredUse,
    depth: usize,
    decider: &mut D,
) -> Result<Leaves<M>, AllocError>
    requires over { IsOverTable M.terms (state_view state.now) }
    requires store_over { IsStoreOver (state_view state.now).vars (store_view store.now) }
    requires asked { AreAskedOver (state_view state.now).vars (asked_view asked.now) }
    requires may { IsTrue (are_spelled (pred_use_view used.now).outs) }
    requires cases { CasesMayMatch M.Local.memory (map pred_def_view preds.now) }
    ensures says { IfOk result (λ r. AreLeaves M.stands M.terms M.kept (state_view state.now)
        (AsksUse M.stands M.terms (state_view state.now) (store_view store.now) (asked_view asked.now))
        (UseGives (cases_at (map pred_def_view preds.now) depth) scope.now None (pred_use_view used.now) (asked_view asked.now))
        (UseStops number (cases_at (map pred_def_view preds.now) depth) scope.now None (pred_use_view used.now) (asked_view asked.now))
        (leaves_view r)) }
    ensures origin { IfOk result (λ r. UseComesFrom M.terms (map pred_def_view preds.now) scope.now (pred_use_view used.now) (store_view store.now)
        (asked_view asked.now) (state_view state.now) (leaves_view r)) }
{
    let choice = choose_fact(alloc, &state.preds, &used.pred, &asked.ins, &asked.known)?;
    let leaves = take_facts(
        alloc,
        number,
        state,
        &choice.found,
        scope,
        &used.outs,
        store,
    )?;
    let open = copies_under(alloc, state, &choice.none)?;
    let more = match_open(
        alloc, open, store, asked, number, preds, scope, used, depth, decider,
    )?;
    leaves.joined_with(more)
}

/// Tries cases in each of these states.
#[cycle(matching)]
fn match_open<M: ListedMemory, D: Decider>(
    alloc: Global,
    states: SymStates<M>,
    store: &SymStore,
    asked: &Asked,
    number: usize,
    preds: &PredDefs,
    scope: &Params,
    used: &PredUse,
    depth: usize,
    decider: &mut D,
) -> Result<Leaves<M>, AllocError>
    requires each { Each (IsOpen M.terms (store_view store.now) (asked_view asked.now)) (states_view states) }
    requires may { IsTrue (are_spelled (pred_use_view used.now).outs) }
    requires cases { CasesMayMatch M.Local.memory (map pred_def_view preds.now) }
    ensures says { IfOk result (λ r. Gathers (CasesMatched M.stands M.terms M.kept number (cases_at (map pred_def_view preds.now) depth) scope.now
        (pred_use_view used.now) (store_view store.now) (asked_view asked.now)) (states_view states) (leaves_view r)) }
    ensures origin { IfOk result (λ r. Gathers (UseComesFrom M.terms (map pred_def_view preds.now) scope.now (pred_use_view used.now) (store_view store.now)
        (asked_view asked.now)) (states_view states) (leaves_view r)) }
{
    let mut leaves = Leaves::new(alloc);
    for state in states.into_vec() {
        let more = match_cases(
            alloc, state, store, asked, number, preds, scope, used, depth, decider,
        )?;
        leaves = leaves.joined_with(more)?;
    }
    Ok(leaves)
}

/// Tries the cases of a predicate in order.
#[cycle(matching)]
fn match_cases<M: ListedMemory, D: Decider>(
    alloc: Global,
    state: SymState<M>,
    store: &SymStore,
    asked: &Asked,
    number: usize,
    preds: &PredDefs,
    scope: &Params,
    used: &PredUse,
    depth: usize,
    decider: &mut D,
) -> Result<Leaves<M>, AllocError>
    requires open { IsOpen M.terms (store_view store.now) (asked_view asked.now) (state_view state) }
    requires may { IsTrue (are_spelled (pred_use_view used.now).outs) }
    requires cases { CasesMayMatch M.Local.memory (map pred_def_view preds.now) }
    ensures says { IfOk result (λ r. CasesMatched M.stands M.terms M.kept number (cases_at (map pred_def_view preds.now) depth) scope.now
        (pred_use_view used.now) (store_view store.now) (asked_view asked.now) (state_view state) (leaves_view r)) }
    ensures origin { IfOk result (λ r. UseComesFrom M.terms (map pred_def_view preds.now) scope.now (pred_use_view used.now) (store_view store.now)
        (asked_view asked.now) (state_view state) (leaves_view r)) }
{
    if depth == 0 {
        return stop_in(alloc, number, state);
    }
    match pred_of(preds, &used.pred) {
        Some(pred) => match_found(
            alloc,
            state,
            store,
            asked,
            number,
            preds,
            pred,
            scope,
            used,
            depth - 1,
            decider,
        ),
        None => stop_in(alloc, number, state),
    }
}

/// The predicate of a name.
pub(crate) fn pred_of<'a>(preds: &'a PredDefs, name: &Text) -> Option<&'a PredDef>
    ensures { option_map (λ d. pred_def_view d.now) result ≡ find_pred (map pred_def_view preds.now) name.now }
{
    for pred in preds.as_slice() {
        if pred.name == *name {
            return Some(pred);
        }
    }
    None
}

/// Tries the cases of this predicate, and matches outs with those of the case.
#[cycle(matching)]
fn match_found<M: ListedMemory, D: Decider>(
    alloc: Global,
    state: SymState<M>,
    store: &SymStore,
    asked: &Asked,
    number: usize,
    preds: &PredDefs,
    pred: &PredDef,
    scope: &Params,
    used: &PredUse,
    depth: usize,
    decider: &mut D,
) -> Result<Leaves<M>, AllocError>
    requires over { IsOpen M.terms (store_view store.now) (asked_view asked.now) (state_view state) }
    requires may { IsTrue (are_spelled (pred_use_view used.now).outs) }
    requires pred { Each (MayMatch M.Local.memory) (pred_def_view pred.now).cases }
    requires cases { CasesMayMatch M.Local.memory (map pred_def_view preds.now) }
    ensures says { IfOk result (λ r. PredMatched M.stands M.terms M.kept number (cases_at (map pred_def_view preds.now) depth) scope.now
        (pred_def_view pred.now) (pred_use_view used.now) (store_view store.now) (asked_view asked.now) (state_view state) (leaves_view r)) }
    ensures origin { IfOk result (λ r. PredComesFrom M.terms (map pred_def_view preds.now) scope.now (pred_def_view pred.now) (pred_use_view used.now)
        (store_view store.now) (asked_view asked.now) (state_view state) (leaves_view r)) }
{
    let tried = try_pred(alloc, state, asked, number, preds, pred, depth, decider)?;
    finish(alloc, tried, store, number, pred, scope, &used.outs)
}

/// Tries the cases of a predicate in order, with these ins and known outs. The store of a match is that of the case.
#[cycle(matching)]
pub(crate) fn try_pred<M: ListedMemory, D: Decider>(
    alloc: Global,
    state: SymState<M>,
    asked: &Asked,
    number: usize,
    preds: &PredDefs,
    pred: &PredDef,
    depth: usize,
    decider: &mut D,
) -> Result<Leaves<M>, AllocError>
    requires over { IsOverTable M.terms (state_view state) }
    requires asked { AreAskedOver (state_view state).vars (asked_view asked.now) }
    requires pred { Each (MayMatch M.Local.memory) (pred_def_view pred.now).cases }
    requires cases { CasesMayMatch M.Local.memory (map pred_def_view preds.now) }
    ensures says { IfOk result (λ r. PredTried M.stands M.terms M.kept number (cases_at (map pred_def_view preds.now) depth) (pred_def_view pred.now)
        (asked_view asked.now) (state_view state) (leaves_view r)) }
    ensures origin { IfOk result (λ r. CasesComeFrom M.terms (map pred_def_view preds.now) (pred_def_view pred.now) (asked_view asked.now) (state_view state)
        (leaves_view r)) }
{
    let Split { found, none } = case_store(alloc, pred, &asked.ins, &asked.known)?;
    let stopped = stops(alloc, number, state.conds.atoms(), &none)?;
    let leaves = Leaves::of_stops(alloc, stopped);
    match found {
        Some(found) => {
            let state = under(alloc, state, &found.conds)?;
            let more = try_cases(
                alloc,
                &state,
                &found.result,
                number,
                preds,
                pred,
                depth,
                decider,
            )?;
            leaves.joined_with(more)
        }
        None => Ok(leaves),
    }
}

/// Tries the cases of a predicate in order, from the store at their beginning.
#[cycle(matching)]
fn try_cases<M: ListedMemory, D: Decider>(
    alloc: Global,
    state: &SymState<M>,
    start: &SymStore,
    number: usize,
    preds: &PredDefs,
    pred: &PredDef,
    depth: usize,
    decider: &mut D,
) -> Result<Leaves<M>, AllocError>
    requires over { IsMatchable M.terms (record { state = state_view state.now; store = store_view start.now }) }
    requires pred { Each (MayMatch M.Local.memory) (pred_def_view pred.now).cases }
    requires cases { CasesMayMatch M.Local.memory (map pred_def_view preds.now) }
    ensures says { IfOk result (λ r. AreLeaves M.stands M.terms M.kept (state_view state.now)
        (Serves M.stands M.terms (state_view state.now) (store_view start.now))
        (CasesGive (cases_at (map pred_def_view preds.now) depth) (pred_def_view pred.now) (pred_def_view pred.now).cases)
        (CasesStop number (cases_at (map pred_def_view preds.now) depth) (pred_def_view pred.now) (pred_def_view pred.now).cases)
        (leaves_view r)) }
    ensures origin { IfOk result (λ r. TriesComeFrom M.terms (map pred_def_view preds.now) (scope_names (pred_def_view pred.now)) (pred_def_view pred.now).cases
        (state_view state.now) (store_view start.now) (leaves_view r)) }
{
    let scope = scope_of(alloc, pred)?;
    let mut leaves = Leaves::of_stops(alloc, one_stop(alloc, number, state)?);
    let cases = pred.cases.as_slice();
    for at in 0..cases.len() {
        leaves = next_case(
            alloc, leaves, state, start, number, preds, pred, &scope, &cases[at], depth, decider,
        )?;
    }
    Ok(leaves)
}

/// Goes on with the next case, where none before it is matched.
#[cycle(matching)]
fn next_case<M: ListedMemory, D: Decider>(
    alloc: Global,
    leaves: Leaves<M>,
    state: &SymState<M>,
    start: &SymStore,
    number: usize,
    preds: &PredDefs,
    pred: &PredDef,
    scope: &Params,
    case: &Assertion,
    depth: usize,
    decider: &mut D,
) -> Result<Leaves<M>, AllocError>
    requires over { IsMatchable M.terms (record { state = state_view state.now; store = store_view start.now }) }
    requires each { Each (StopsIn (state_view state.now).vars) (leaves_view leaves).stopped }
    requires may { MayMatch M.Local.memory (assertion_view case.now) }
    requires cases { CasesMayMatch M.Local.memory (map pred_def_view preds.now) }
    ensures says { IfOk result (λ r. NextCase M.stands M.terms M.kept number (cases_at (map pred_def_view preds.now) depth) (pred_def_view pred.now) scope.now
        (assertion_view case.now) (state_view state.now) (store_view start.now) (leaves_view leaves) (leaves_view r)) }
    ensures origin { IfOk result (λ r. NextTryComesFrom M.terms (map pred_def_view preds.now) scope.now (assertion_view case.now) (state_view state.now)
        (store_view start.now) (leaves_view leaves) (leaves_view r)) }
{
    let Leaves {
        matched,
        stopped,
        undecided,
    } = leaves;
    let mut next = Leaves::new(alloc);
    for stop in stopped.into_vec() {
        let more = try_case(
            alloc,
            &stop.conds,
            state,
            start,
            number,
            preds,
            pred,
            scope,
            case,
            depth,
            decider,
        )?;
        next = next.joined_with(more)?;
    }
    let rest = Leaves {
        matched,
        stopped: Sequence::new(alloc),
        undecided,
    };
    rest.joined_with(next)
}

/// Tries a case under these conditions.
#[cycle(matching)]
fn try_case<M: ListedMemory, D: Decider>(
    alloc: Global,
    conds: &Atoms,
    state: &SymState<M>,
    start: &SymStore,
    number: usize,
    preds: &PredDefs,
    pred: &PredDef,
    scope: &Params,
    case: &Assertion,
    depth: usize,
    decider: &mut D,
) -> Result<Leaves<M>, AllocError>
    requires over { IsMatchable M.terms (record { state = state_view state.now; store = store_view start.now }) }
    requires conds { AreOverTable (state_view state.now).vars (atoms_view conds.now) }
    requires may { MayMatch M.Local.memory (assertion_view case.now) }
    requires cases { CasesMayMatch M.Local.memory (map pred_def_view preds.now) }
    ensures says { IfOk result (λ r. CaseTried M.stands M.terms M.kept number (cases_at (map pred_def_view preds.now) depth) (pred_def_view pred.now) scope.now
        (assertion_view case.now) (state_view state.now) (store_view start.now) (atoms_view conds.now) (leaves_view r)) }
    ensures origin { IfOk result (λ r. TryComesFrom M.terms (map pred_def_view preds.now) scope.now (assertion_view case.now) (state_view state.now)
        (store_view start.now) (atoms_view conds.now) (leaves_view r)) }
{
    let state = renewed(alloc, state, conds)?;
    let store = start.copy(alloc)?;
    let leaves = match_items(
        alloc,
        Match { state, store },
        preds,
        scope,
        case,
        depth,
        decider,
    )?;
    end_case(alloc, leaves, number, &pred.outs)
}
