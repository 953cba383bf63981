//! Consuming the first of several assertions that leaves nothing.
ghost use Rattle.std.specs.Prelude.{◌≡◌, map, nat_eq, ◌&&◌, IfOk};
ghost use Rattle.gil_syntax.specs.Program.{prog_view};
ghost use Rattle.gil_syntax.specs.View.{assertion_view, pred_def_view};
ghost use Rattle.pure_terms.specs.View.{atoms_view};
ghost use Rattle.sym_evaluation.specs.Meaning.{IsStoreOver};
ghost use Rattle.sym_evaluation.specs.View.{store_view};
ghost use Rattle.sym_model.specs.Lists.{Each};
ghost use Rattle.sym_states.specs.Meaning.{Serves, IsOverTable};
ghost use Rattle.sym_states.specs.View.{state_view};
ghost use Rattle.footprint.specs.Assertions.{cases_at, IsMatchable};
ghost use Rattle.footprint.specs.Cases.{AreOverTable, StopsIn};
ghost use Rattle.footprint.specs.Coming.{TryComesFrom, RetryComesFrom, NextTryComesFrom, TriesComeFrom};
ghost use Rattle.footprint.specs.Consuming.{MayMatch, CasesMayMatch, MatchesWhole, MatchesNone};
ghost use Rattle.footprint.specs.Leaves.{AreLeaves, IsAnswer};
ghost use Rattle.footprint.specs.Origins.{AnswerComesFrom, IsOneOf, origin_of};
ghost use Rattle.footprint.specs.Plainly.{IsPlainMemory, PostsStayPlain, ConsumesPlainly};
ghost use Rattle.footprint.specs.Spreading.{Gathers};
ghost use Rattle.footprint.specs.View.{match_view, matches_view, stops_view, leaves_view, matching_view};
ghost use Rattle.footprint.specs.Whole.{SaysNothing, EndsWhole, EndWhole, WholeTried, TriedAt, NextWhole, SomeGives, SomeStops};

use crate::answering::answer;
use crate::consuming::copy_table;
use crate::ending::one_stop;
use crate::items::stop_in;
use crate::leaves::{Leaves, Match, Matches, Matching, Stops};
use crate::matching::match_items;
use crate::states::renewed;
use gil_syntax::{Assertion, Assertions, Params, PredDefs, Prog};
use pure_terms::{Atoms, Decider};
use sequence::Sequence;
use std::alloc::{AllocError, Global};
use sym_evaluation::SymStore;
use sym_model::ListedMemory;
use sym_states::SymState;

/// Whether both numbers are 0.
fn are_none(keys: usize, facts: usize) -> bool
    ensures { result ≡ (nat_eq keys 0 && nat_eq facts 0) }
{
    keys == 0 && facts == 0
}

/// Whether nothing is left in the state: no key and no fact.
fn is_nothing<M: ListedMemory>(alloc: Global, state: &SymState<M>) -> Result<bool, AllocError>
    ensures { IfOk result (λ b. SaysNothing M.stands (state_view state.now) b) }
{
    let listed = state.memory.listing(alloc)?;
    Ok(are_none(listed.len(), state.preds.len()))
}

/// The match, where nothing is left in its state.
fn end_whole<M: ListedMemory>(alloc: Global, found: Match<M>) -> Result<Leaves<M>, AllocError>
    ensures { IfOk result (λ r. EndsWhole M.stands (match_view found) (leaves_view r)) }
{
    if is_nothing(alloc, &found.state)? {
        return Leaves::of_match(alloc, found);
    }
    stop_in(alloc, 0, found.state)
}

/// The matches that leave nothing.
fn end_wholes<M: ListedMemory>(alloc: Global, matched: Matches<M>) -> Result<Leaves<M>, AllocError>
    ensures { IfOk result (λ r. Gathers (EndsWhole M.stands) (matches_view matched) (leaves_view r)) }
{
    let mut leaves = Leaves::new(alloc);
    for found in matched.into_vec() {
        let more = end_whole(alloc, found)?;
        leaves = leaves.joined_with(more)?;
    }
    Ok(leaves)
}

/// The leaves, of which those are matched that leave nothing.
fn keep_whole<M: ListedMemory>(alloc: Global, leaves: Leaves<M>) -> Result<Leaves<M>, AllocError>
    ensures { IfOk result (λ r. EndWhole M.stands (leaves_view leaves) (leaves_view r)) }
{
    let Leaves {
        matched,
        stopped,
        undecided,
    } = leaves;
    let next = end_wholes(alloc, matched)?;
    let rest = Leaves {
        matched: Sequence::new(alloc),
        stopped,
        undecided,
    };
    rest.joined_with(next)
}

/// Tries an assertion under these conditions.
fn try_post<M: ListedMemory, D: Decider>(
    alloc: Global,
    conds: &Atoms,
    state: &SymState<M>,
    start: &SymStore,
    preds: &PredDefs,
    scope: &Params,
    post: &Assertion,
    decider: &mut D,
) -> Result<Leaves<M>, AllocError>
    requires over { IsMatchable M.terms (record { state = state_view state.now; store = store_view start.now }) }
    requires conds { AreOverTable (state_view state.now).vars (atoms_view conds.now) }
    requires may { MayMatch M.Local.memory (assertion_view post.now) }
    requires cases { CasesMayMatch M.Local.memory (map pred_def_view preds.now) }
    ensures says { IfOk result (λ r. WholeTried M.stands M.terms M.kept (IsPlainMemory M.Local.memory M.keeps_plain M.terms)
        (cases_at (map pred_def_view preds.now) 1) scope.now (assertion_view post.now)
        (state_view state.now) (store_view start.now) (atoms_view conds.now) (leaves_view r)) }
    ensures origin { IfOk result (λ r. TryComesFrom M.terms (map pred_def_view preds.now) scope.now (assertion_view post.now) (state_view state.now)
        (store_view start.now) (atoms_view conds.now) (leaves_view r)) }
{
    let state = renewed(alloc, state, conds)?;
    let store = start.copy(alloc)?;
    let leaves = match_items(
        alloc,
        Match { state, store },
        preds,
        scope,
        post,
        1,
        decider,
    )?;
    keep_whole(alloc, leaves)
}

/// Tries an assertion under the conditions of each of these stops.
fn try_stops<M: ListedMemory, D: Decider>(
    alloc: Global,
    stopped: &Stops,
    state: &SymState<M>,
    start: &SymStore,
    preds: &PredDefs,
    scope: &Params,
    post: &Assertion,
    decider: &mut D,
) -> Result<Leaves<M>, AllocError>
    requires over { IsMatchable M.terms (record { state = state_view state.now; store = store_view start.now }) }
    requires each { Each (StopsIn (state_view state.now).vars) (stops_view stopped.now) }
    requires may { MayMatch M.Local.memory (assertion_view post.now) }
    requires cases { CasesMayMatch M.Local.memory (map pred_def_view preds.now) }
    ensures says { IfOk result (λ r. Gathers (TriedAt M.stands M.terms M.kept (IsPlainMemory M.Local.memory M.keeps_plain M.terms)
        (cases_at (map pred_def_view preds.now) 1) scope.now (assertion_view post.now)
        (state_view state.now) (store_view start.now)) (stops_view stopped.now) (leaves_view r)) }
    ensures origin { IfOk result (λ r. Gathers (RetryComesFrom M.terms (map pred_def_view preds.now) scope.now (assertion_view post.now) (state_view state.now)
        (store_view start.now)) (stops_view stopped.now)
        (leaves_view r)) }
{
    let mut leaves = Leaves::new(alloc);
    for stop in stopped.as_slice() {
        let more = try_post(
            alloc,
            &stop.conds,
            state,
            start,
            preds,
            scope,
            post,
            decider,
        )?;
        leaves = leaves.joined_with(more)?;
    }
    Ok(leaves)
}

/// Goes on with the next assertion, where none before it is matched.
fn next_post<M: ListedMemory, D: Decider>(
    alloc: Global,
    leaves: Leaves<M>,
    state: &SymState<M>,
    start: &SymStore,
    preds: &PredDefs,
    scope: &Params,
    post: &Assertion,
    decider: &mut D,
) -> Result<Leaves<M>, AllocError>
    requires over { IsMatchable M.terms (record { state = state_view state.now; store = store_view start.now }) }
    requires each { Each (StopsIn (state_view state.now).vars) (leaves_view leaves).stopped }
    requires may { MayMatch M.Local.memory (assertion_view post.now) }
    requires cases { CasesMayMatch M.Local.memory (map pred_def_view preds.now) }
    ensures says { IfOk result (λ r. NextWhole M.stands M.terms M.kept (IsPlainMemory M.Local.memory M.keeps_plain M.terms)
        (cases_at (map pred_def_view preds.now) 1) scope.now (assertion_view post.now)
        (state_view state.now) (store_view start.now) (leaves_view leaves) (leaves_view r)) }
    ensures origin { IfOk result (λ r. NextTryComesFrom M.terms (map pred_def_view preds.now) scope.now (assertion_view post.now) (state_view state.now)
        (store_view start.now) (leaves_view leaves) (leaves_view r)) }
{
    let Leaves {
        matched,
        stopped,
        undecided,
    } = leaves;
    let next = try_stops(alloc, &stopped, state, start, preds, scope, post, decider)?;
    let rest = Leaves {
        matched,
        stopped: Sequence::new(alloc),
        undecided,
    };
    rest.joined_with(next)
}

/// Tries assertions in order.
fn try_posts<M: ListedMemory, D: Decider>(
    alloc: Global,
    state: &SymState<M>,
    start: &SymStore,
    preds: &PredDefs,
    scope: &Params,
    posts: &Assertions,
    decider: &mut D,
) -> Result<Leaves<M>, AllocError>
    requires over { IsMatchable M.terms (record { state = state_view state.now; store = store_view start.now }) }
    requires may { Each (MayMatch M.Local.memory) (map assertion_view posts.now) }
    requires cases { CasesMayMatch M.Local.memory (map pred_def_view preds.now) }
    ensures says { IfOk result (λ r. AreLeaves M.stands M.terms M.kept (state_view state.now)
        (Serves M.stands M.terms (state_view state.now) (store_view start.now))
        (SomeGives (cases_at (map pred_def_view preds.now) 1) scope.now (map assertion_view posts.now))
        (SomeStops (cases_at (map pred_def_view preds.now) 1) scope.now (map assertion_view posts.now)) (leaves_view r)
        × PostsStayPlain (IsPlainMemory M.Local.memory M.keeps_plain M.terms) (map assertion_view posts.now) (state_view state.now) (store_view start.now) (leaves_view r)) }
    ensures origin { IfOk result (λ r. TriesComeFrom M.terms (map pred_def_view preds.now) scope.now (map assertion_view posts.now) (state_view state.now)
        (store_view start.now) (leaves_view r)) }
{
    let mut leaves = Leaves::of_stops(alloc, one_stop(alloc, 0, state)?);
    for post in posts.as_slice() {
        leaves = next_post(alloc, leaves, state, start, preds, scope, post, decider)?;
    }
    Ok(leaves)
}

/// Takes the first of several assertions out of a state that leaves no key and no fact.
pub fn consume_whole<M: ListedMemory, D: Decider>(
    alloc: Global,
    state: SymState<M>,
    prog: &Prog,
    scope: &Params,
    posts: &Assertions,
    store: SymStore,
    decider: &mut D,
) -> Result<Matching<M>, AllocError>
    requires over { IsOverTable M.terms (state_view state) }
    requires store_over { IsStoreOver (state_view state).vars (store_view store) }
    requires may { Each (MayMatch M.Local.memory) (map assertion_view posts.now) }
    requires cases { CasesMayMatch M.Local.memory (prog_view prog.now).preds }
    ensures says { IfOk result (λ r. IsAnswer M.stands M.terms M.kept (state_view state) (Serves M.stands M.terms (state_view state) (store_view store))
        (MatchesWhole (prog_view prog.now).preds scope.now (map assertion_view posts.now))
        (MatchesNone (prog_view prog.now).preds scope.now (map assertion_view posts.now)) (matching_view r)) }
    ensures plain { IfOk result (λ r. ConsumesPlainly (IsPlainMemory M.Local.memory M.keeps_plain M.terms) (map assertion_view posts.now) (state_view state) (store_view store) (matching_view r)) }
    ensures origin { IfOk result (λ r. AnswerComesFrom M.terms
        (origin_of M.terms (prog_view prog.now).preds scope.now (map assertion_view posts.now) (store_view store) (state_view state))
        (IsOneOf scope.now (map assertion_view posts.now)) (state_view state).conds (matching_view r)) }
{
    let vars = copy_table(alloc, &state.vars)?;
    let leaves = try_posts(alloc, &state, &store, prog.preds(), scope, posts, decider)?;
    answer(alloc, &vars, leaves, decider)
}
