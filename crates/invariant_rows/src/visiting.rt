//! `invariant`: the assertion is matched, and the loop is gone through once from any values of the listed variables.
ghost use Rattle.std.specs.Prelude.{◌≡◌, ◌+◌, ◌++◌, ◌<◌, ◌^◌, ◌∷◌, [], map, true, IfOk};
ghost use Rattle.std.specs.Option.{option_map};
ghost use Rattle.checked_paths.specs.Exactness.{AddsOnly, HaveMoreOf};
ghost use Rattle.checked_paths.specs.Meaning.{IsCheckedOver};
ghost use Rattle.checked_paths.specs.View.{checking_view, entry_view, nexts_view, passed_view};
ghost use Rattle.checked_rows.specs.Asking.{AddsTo, AsksOnlyOwn};
ghost use Rattle.checked_rows.specs.Matching.{IsOfPath};
ghost use Rattle.checked_rows.specs.Names.{logicals_there};
ghost use Rattle.checked_rows.specs.Rows.{AreRowOf, IsExactRowOf};
ghost use Rattle.footprint.specs.Consuming.{CasesMayMatch, MayMatch};
ghost use Rattle.footprint.specs.View.{match_view, matches_view};
ghost use Rattle.gil_syntax.specs.Program.{prog_view};
ghost use Rattle.gil_syntax.specs.Pure.{loop_invariant};
ghost use Rattle.gil_syntax.specs.View.{assertion_view, spec_view};
ghost use Rattle.invariant_rows.specs.Asked.{AsksAddingAnew, AsksVisitThere};
ghost use Rattle.invariant_rows.specs.Entering.{AreEntered, running_next};
ghost use Rattle.invariant_rows.specs.Fitting.{SortsFit};
ghost use Rattle.invariant_rows.specs.Listed.{AreUnlisted, have_terms as all_have_terms};
ghost use Rattle.invariant_rows.specs.Passing.{former_at, of_running};
ghost use Rattle.invariant_rows.specs.Visiting.{AreExactVisits, AreVisits, IsKnown, IsLeft};
ghost use Rattle.sym_engine.specs.Lawful.{MayAdvance};
ghost use Rattle.sym_evaluation.specs.View.{store_view};
ghost use Rattle.sym_model.specs.Lists.{Each};
ghost use Rattle.sym_paths.specs.Frames.{running_store};
ghost use Rattle.sym_paths.specs.View.{frames_view};
ghost use Rattle.sym_states.specs.View.{state_view};

use crate::adding::add_there;
use crate::again::again;
use crate::entering::{in_loop, index_of};
use crate::fitting::doubt_of_sorts;
use crate::listed::{have_terms, unlisted_of};
use crate::passing::former_of;
use checked_paths::{Checking, Entered, FaultKind, Nexts, Passed};
use checked_rows::{Doubt, copy_params, doubted, logicals_in, match_there, names_in, nothing};
use footprint::{Match, Matches, Matching};
use gil_syntax::{Assertion, Params, Prog, Spec, Texts};
use gil_values::Place;
use pure_terms::Decider;
use sequence::Sequence;
use std::alloc::{AllocError, Global};
use sym_evaluation::SymStore;
use sym_model::ListedMemory;
use sym_paths::{Frames, running};
use sym_states::SymState;

/// The logical variables that may be named there, and then those that are declared.
fn scope_there(
    alloc: Global,
    frames: &Frames,
    logicals: &Params,
    declared: &Params,
) -> Result<Params, AllocError>
    ensures { IfOk result (λ ps. ps ≡ logicals_there (frames_view frames.now) logicals.now ++ declared.now) }
{
    let none = Sequence::new(alloc);
    let known = logicals_in(frames, logicals, &none);
    let scope = copy_params(alloc, Sequence::new(alloc), known)?;
    copy_params(alloc, scope, declared)
}

/// What is answered where the invariant is reached for the first time, and leaves this state.
fn first<M: ListedMemory, D: Decider>(
    alloc: Global,
    spec: &Spec,
    entered: &Entered,
    checking: &Checking<M>,
    here: &Place,
    unlisted: &SymStore,
    listed: &Texts,
    scope: &Params,
    items: &Assertion,
    state: SymState<M>,
    decider: &mut D,
) -> Result<Nexts<M>, AllocError>
    requires over { IsCheckedOver M.terms (entry_view spec.now entered.now) (checking_view checking.now) }
    requires steps { checking.now.path.steps + 1 < 2 ^ 32 }
    requires next { MayAdvance (frames_view checking.now.path.stack) }
    requires of_path { IsOfPath M.terms (checking_view checking.now) (state_view state) }
    requires unlisted { AreUnlisted listed.now (running_store (frames_view checking.now.path.stack)) (store_view unlisted.now) }
    requires may { MayMatch M.Local.memory (assertion_view items.now) }
    ensures enters { IfOk result (λ ns. AreEntered M.Local.memory M.stands M.terms M.kept (entry_view spec.now entered.now) listed.now scope.now
        (assertion_view items.now) (store_view unlisted.now) here.now (checking_view checking.now) (state_view state) (nexts_view ns)) }
    ensures asked { IfOk result (λ ns. Each (AddsTo (AsksAddingAnew (entry_view spec.now entered.now) (checking_view checking.now)
        (assertion_view items.now)) (state_view state).conds) (nexts_view ns)) }
{
    match in_loop(alloc, checking, unlisted, listed, scope, state)? {
        Some(inside) => add_there(alloc, spec, entered, &inside, here, scope, items, decider),
        None => Ok(Sequence::new(alloc)),
    }
}

/// What is answered of a visit that leaves this state, after a former one if there was one.
fn visit<M: ListedMemory, D: Decider>(
    alloc: Global,
    prog: &Prog,
    spec: &Spec,
    entered: &Entered,
    checking: &Checking<M>,
    here: &Place,
    former: Option<&Passed<M>>,
    unlisted: &SymStore,
    listed: &Texts,
    declared: &Params,
    scope: &Params,
    items: &Assertion,
    state: SymState<M>,
    decider: &mut D,
) -> Result<Nexts<M>, AllocError>
    requires over { IsCheckedOver M.terms (entry_view spec.now entered.now) (checking_view checking.now) }
    requires steps { checking.now.path.steps + 1 < 2 ^ 32 }
    requires next { MayAdvance (frames_view checking.now.path.stack) }
    requires left { IsLeft (prog_view prog.now) M.Local.memory M.Local.actions M.stands M.terms (entry_view spec.now entered.now)
        (checking_view checking.now) listed.now declared.now (assertion_view items.now) (option_map (λ q. passed_view q.now) former) (state_view state) }
    requires own { HaveMoreOf (AsksVisitThere (entry_view spec.now entered.now) (checking_view checking.now) (prog_view prog.now) scope.now
        (assertion_view items.now)) (checking_view checking.now).path.conds (state_view state).conds }
    requires known { IsKnown (prog_view prog.now) M.Local.memory M.Local.actions M.stands M.terms (entry_view spec.now entered.now)
        (checking_view checking.now) listed.now declared.now (assertion_view items.now) (option_map (λ q. passed_view q.now) former) }
    requires unlisted { AreUnlisted listed.now (running_store (frames_view checking.now.path.stack)) (store_view unlisted.now) }
    requires scope { scope.now ≡ logicals_there (frames_view checking.now.path.stack) (spec_view spec.now).logicals ++ declared.now }
    requires fits { SortsFit scope.now (entry_view spec.now entered.now) (checking_view checking.now) }
    requires terms { all_have_terms listed.now (running_store (frames_view checking.now.path.stack)) ≡ true }
    requires may { MayMatch M.Local.memory (assertion_view items.now) }
    ensures cover { IfOk result (λ ns. AreVisits (prog_view prog.now) M.Local.memory M.Local.actions M.stands M.terms (entry_view spec.now entered.now)
        (checking_view checking.now) listed.now declared.now (assertion_view items.now) (option_map (λ q. passed_view q.now) former.entry)
        (state_view state ∷ []) (nexts_view ns)) }
    ensures exact { IfOk result (λ ns. AreExactVisits (prog_view prog.now) M.Local.memory M.Local.actions M.stands M.terms (entry_view spec.now entered.now)
        (checking_view checking.now) listed.now declared.now (assertion_view items.now) (option_map (λ q. passed_view q.now) former.entry) here.now
        (nexts_view ns)) }
    ensures asked { IfOk result (λ ns. Each (AddsOnly (AsksVisitThere (entry_view spec.now entered.now) (checking_view checking.now)
        (prog_view prog.now) scope.now (assertion_view items.now)) (checking_view checking.now)) (nexts_view ns)) }
{
    let _prog = prog;
    match former {
        Some(former) => {
            let mut nexts = Sequence::new(alloc);
            nexts.push(again(alloc, checking, here, unlisted, former, &state, decider)?)?;
            Ok(nexts)
        }
        None => first(
            alloc, spec, entered, checking, here, unlisted, listed, scope, items, state, decider,
        ),
    }
}

/// The first answers, and then the others.
fn joined<M: Drop>(first: Nexts<M>, others: Nexts<M>) -> Result<Nexts<M>, AllocError>
    ensures { IfOk result (λ r. nexts_view r ≡ nexts_view first ++ nexts_view others) }
{
    let mut joined = first;
    for next in others.into_vec() {
        joined.push(next)?;
    }
    Ok(joined)
}

/// The state that a match leaves.
fn state_in<M: ListedMemory>(found: Match<M>) -> SymState<M>
    ensures { state_view result ≡ (match_view found).state }
{
    let Match { state, store: _ } = found;
    state
}

/// What is answered of all visits, one for each match.
fn visit_each<M: ListedMemory, D: Decider>(
    alloc: Global,
    prog: &Prog,
    spec: &Spec,
    entered: &Entered,
    checking: &Checking<M>,
    here: &Place,
    former: Option<&Passed<M>>,
    unlisted: &SymStore,
    listed: &Texts,
    declared: &Params,
    scope: &Params,
    items: &Assertion,
    matches: Matches<M>,
    decider: &mut D,
) -> Result<Nexts<M>, AllocError>
    requires over { IsCheckedOver M.terms (entry_view spec.now entered.now) (checking_view checking.now) }
    requires steps { checking.now.path.steps + 1 < 2 ^ 32 }
    requires next { MayAdvance (frames_view checking.now.path.stack) }
    requires left { Each (λ k. IsLeft (prog_view prog.now) M.Local.memory M.Local.actions M.stands M.terms (entry_view spec.now entered.now)
        (checking_view checking.now) listed.now declared.now (assertion_view items.now) (option_map (λ q. passed_view q.now) former) k.state) (matches_view matches) }
    requires own { Each (λ k. HaveMoreOf (AsksVisitThere (entry_view spec.now entered.now) (checking_view checking.now) (prog_view prog.now)
        scope.now (assertion_view items.now)) (checking_view checking.now).path.conds k.state.conds) (matches_view matches) }
    requires known { IsKnown (prog_view prog.now) M.Local.memory M.Local.actions M.stands M.terms (entry_view spec.now entered.now)
        (checking_view checking.now) listed.now declared.now (assertion_view items.now) (option_map (λ q. passed_view q.now) former) }
    requires unlisted { AreUnlisted listed.now (running_store (frames_view checking.now.path.stack)) (store_view unlisted.now) }
    requires scope { scope.now ≡ logicals_there (frames_view checking.now.path.stack) (spec_view spec.now).logicals ++ declared.now }
    requires fits { SortsFit scope.now (entry_view spec.now entered.now) (checking_view checking.now) }
    requires terms { all_have_terms listed.now (running_store (frames_view checking.now.path.stack)) ≡ true }
    requires may { MayMatch M.Local.memory (assertion_view items.now) }
    ensures cover { IfOk result (λ ns. AreVisits (prog_view prog.now) M.Local.memory M.Local.actions M.stands M.terms (entry_view spec.now entered.now)
        (checking_view checking.now) listed.now declared.now (assertion_view items.now) (option_map (λ q. passed_view q.now) former.entry)
        (map (λ k. k.state) (matches_view matches)) (nexts_view ns)) }
    ensures exact { IfOk result (λ ns. AreExactVisits (prog_view prog.now) M.Local.memory M.Local.actions M.stands M.terms (entry_view spec.now entered.now)
        (checking_view checking.now) listed.now declared.now (assertion_view items.now) (option_map (λ q. passed_view q.now) former.entry) here.now
        (nexts_view ns)) }
    ensures asked { IfOk result (λ ns. Each (AddsOnly (AsksVisitThere (entry_view spec.now entered.now) (checking_view checking.now)
        (prog_view prog.now) scope.now (assertion_view items.now)) (checking_view checking.now)) (nexts_view ns)) }
{
    let mut nexts = Sequence::new(alloc);
    for found in matches.into_vec() {
        let state = state_in(found);
        let more = visit(
            alloc, prog, spec, entered, checking, here, former, unlisted, listed, declared, scope,
            items, state, decider,
        )?;
        nexts = joined(nexts, more)?;
    }
    Ok(nexts)
}

/// The answers at `invariant`, where each listed variable has a term, and each declared name that has one a value of its sorts.
fn matched_row<M: ListedMemory, D: Decider>(
    alloc: Global,
    prog: &Prog,
    spec: &Spec,
    entered: &Entered,
    checking: &Checking<M>,
    here: &Place,
    unlisted: &SymStore,
    listed: &Texts,
    declared: &Params,
    scope: &Params,
    items: &Assertion,
    decider: &mut D,
) -> Result<Nexts<M>, AllocError>
    requires over { IsCheckedOver M.terms (entry_view spec.now entered.now) (checking_view checking.now) }
    requires steps { checking.now.path.steps + 1 < 2 ^ 32 }
    requires next { MayAdvance (frames_view checking.now.path.stack) }
    requires terms { all_have_terms listed.now (running_store (frames_view checking.now.path.stack)) ≡ true }
    requires unlisted { AreUnlisted listed.now (running_store (frames_view checking.now.path.stack)) (store_view unlisted.now) }
    requires scope { scope.now ≡ logicals_there (frames_view checking.now.path.stack) (spec_view spec.now).logicals ++ declared.now }
    requires fits { SortsFit scope.now (entry_view spec.now entered.now) (checking_view checking.now) }
    requires may { MayMatch M.Local.memory (assertion_view items.now) }
    requires cases { CasesMayMatch M.Local.memory (prog_view prog.now).preds }
    ensures next { IfOk result (λ ns. AreRowOf (prog_view prog.now) M.Local.memory M.Local.actions M.stands M.terms
        (entry_view spec.now entered.now) (checking_view checking.now) (loop_invariant listed.now declared.now (assertion_view items.now)) []
        (nexts_view ns)) }
    ensures exact { IfOk result (λ ns. IsExactRowOf (prog_view prog.now) M.Local.memory M.Local.actions M.stands M.terms
        (entry_view spec.now entered.now) (checking_view checking.now) (loop_invariant listed.now declared.now (assertion_view items.now)) here.now
        (nexts_view ns)) }
    ensures asked { IfOk result (λ ns. Each (AddsOnly (AsksVisitThere (entry_view spec.now entered.now) (checking_view checking.now)
        (prog_view prog.now) scope.now (assertion_view items.now)) (checking_view checking.now)) (nexts_view ns)) }
{
    match match_there(
        alloc, prog, spec, entered, checking, here, scope, items, decider,
    )? {
        Matching::All(matches) => {
            let former = former_of(&checking.passed, index_of(&checking.path.stack));
            visit_each(
                alloc, prog, spec, entered, checking, here, former, unlisted, listed, declared,
                scope, items, matches, decider,
            )
        }
        Matching::Unmatched {
            item: _,
            conds,
            valuation,
        } => {
            let doubt = Doubt::Under(conds, valuation);
            doubted(alloc, FaultKind::Invariant, here, &checking.path, doubt)
        }
        Matching::Unknown { conds, reason } => {
            let doubt = Doubt::Undecided(conds, reason);
            doubted(alloc, FaultKind::Invariant, here, &checking.path, doubt)
        }
    }
}

/// The answers at `invariant`, where each listed variable has a term.
fn listed_row<M: ListedMemory, D: Decider>(
    alloc: Global,
    prog: &Prog,
    spec: &Spec,
    entered: &Entered,
    checking: &Checking<M>,
    here: &Place,
    unlisted: &SymStore,
    listed: &Texts,
    declared: &Params,
    items: &Assertion,
    decider: &mut D,
) -> Result<Nexts<M>, AllocError>
    requires over { IsCheckedOver M.terms (entry_view spec.now entered.now) (checking_view checking.now) }
    requires steps { checking.now.path.steps + 1 < 2 ^ 32 }
    requires next { MayAdvance (frames_view checking.now.path.stack) }
    requires terms { all_have_terms listed.now (running_store (frames_view checking.now.path.stack)) ≡ true }
    requires unlisted { AreUnlisted listed.now (running_store (frames_view checking.now.path.stack)) (store_view unlisted.now) }
    requires may { MayMatch M.Local.memory (assertion_view items.now) }
    requires cases { CasesMayMatch M.Local.memory (prog_view prog.now).preds }
    ensures next { IfOk result (λ ns. AreRowOf (prog_view prog.now) M.Local.memory M.Local.actions M.stands M.terms
        (entry_view spec.now entered.now) (checking_view checking.now) (loop_invariant listed.now declared.now (assertion_view items.now)) []
        (nexts_view ns)) }
    ensures exact { IfOk result (λ ns. IsExactRowOf (prog_view prog.now) M.Local.memory M.Local.actions M.stands M.terms
        (entry_view spec.now entered.now) (checking_view checking.now) (loop_invariant listed.now declared.now (assertion_view items.now)) here.now
        (nexts_view ns)) }
    ensures asked { IfOk result (λ ns. Each (AddsOnly (AsksVisitThere (entry_view spec.now entered.now) (checking_view checking.now)
        (prog_view prog.now) (logicals_there (frames_view checking.now.path.stack) (spec_view spec.now).logicals ++ declared.now)
        (assertion_view items.now)) (checking_view checking.now)) (nexts_view ns)) }
{
    let scope = scope_there(alloc, &checking.path.stack, &spec.logicals, declared)?;
    let names = names_in(alloc, &checking.path.stack, &entered.variables)?;
    let vars = &checking.path.vars;
    let conds = checking.path.conds.atoms();
    match doubt_of_sorts(alloc, vars, conds, &names, &scope, decider)? {
        Some(doubt) => doubted(alloc, FaultKind::Invariant, here, &checking.path, doubt),
        None => matched_row(
            alloc, prog, spec, entered, checking, here, unlisted, listed, declared, &scope, items,
            decider,
        ),
    }
}

/// The answers at `invariant`. It lists the variables that its loop changes, and declares logical ones of its assertion.
pub fn invariant_row<M: ListedMemory, D: Decider>(
    alloc: Global,
    prog: &Prog,
    spec: &Spec,
    entered: &Entered,
    checking: Checking<M>,
    here: &Place,
    listed: &Texts,
    declared: &Params,
    items: &Assertion,
    decider: &mut D,
) -> Result<Nexts<M>, AllocError>
    requires over { IsCheckedOver M.terms (entry_view spec.now entered.now) (checking_view checking) }
    requires steps { checking.path.steps + 1 < 2 ^ 32 }
    requires next { MayAdvance (frames_view checking.path.stack) }
    requires may { MayMatch M.Local.memory (assertion_view items.now) }
    requires cases { CasesMayMatch M.Local.memory (prog_view prog.now).preds }
    ensures next { IfOk result (λ ns. AreRowOf (prog_view prog.now) M.Local.memory M.Local.actions M.stands M.terms
        (entry_view spec.now entered.now) (checking_view checking) (loop_invariant listed.now declared.now (assertion_view items.now)) []
        (nexts_view ns)) }
    ensures exact { IfOk result (λ ns. IsExactRowOf (prog_view prog.now) M.Local.memory M.Local.actions M.stands M.terms
        (entry_view spec.now entered.now) (checking_view checking) (loop_invariant listed.now declared.now (assertion_view items.now)) here.now
        (nexts_view ns)) }
    ensures asked { IfOk result (λ ns. AsksOnlyOwn (prog_view prog.now) (entry_view spec.now entered.now) (checking_view checking)
        (loop_invariant listed.now declared.now (assertion_view items.now)) (nexts_view ns)) }
{
    match running(&checking.path.stack) {
        Some(frame) => {
            if have_terms(&frame.store, listed) {
                let unlisted = unlisted_of(alloc, &frame.store, listed)?;
                return listed_row(
                    alloc, prog, spec, entered, &checking, here, &unlisted, listed, declared,
                    items, decider,
                );
            }
            let doubt = Doubt::Always;
            doubted(alloc, FaultKind::Invariant, here, &checking.path, doubt)
        }
        None => nothing(alloc),
    }
}
