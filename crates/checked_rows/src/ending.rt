//! Returns and throws that end the entry: a postcondition is matched, and nothing is left.
ghost use Rattle.std.specs.Prelude.{◌≡◌, [], ◌++◌, length, map, IfNone, IfOk, IfSome};
ghost use Rattle.std.specs.Option.{option_map};
ghost use Rattle.checked_paths.specs.Following.{OfGoing};
ghost use Rattle.checked_paths.specs.Meaning.{IsCheckedOver, IsEntryOver};
ghost use Rattle.checked_paths.specs.View.{checking_view, entry_view, next_view, nexts_view, passed_by_view};
ghost use Rattle.checked_rows.specs.Asked.{EachEndAsks, EndAsks};
ghost use Rattle.checked_rows.specs.Asking.{AddsTo, AsksEntryEnd, AsksOnlyOwn};
ghost use Rattle.checked_rows.specs.Doubts.{IsToldThere};
ghost use Rattle.checked_rows.specs.Ending.{AreEntryNames, DoubtsAResult, EachIsEnded, Finishes, HasNoOther, IsEnded};
ghost use Rattle.checked_rows.specs.Ending.{EachIsExactlyEnded, FinishesExactly, IsExactlyEnded, IsLeaving, IsThere, MayEnd, at_end, finish_at};
ghost use Rattle.checked_rows.specs.Plainly.{EachEndsSurely, EndsPlainly, EndsSurely, FinishesPlainly};
ghost use Rattle.checked_rows.specs.Rows.{AreRowOf, IsExactRowOf};
ghost use Rattle.checked_rows.specs.View.{doubt_view, finish_view};
ghost use Rattle.gil_syntax.specs.Pure.{PureCommand};
ghost use Rattle.sym_paths.specs.View.{end_view, path_view, paths_view};
ghost use Rattle.sym_step.specs.Stepping.{MayStep};
ghost use Rattle.checked_runs.specs.Specifications.{result_name as pure_result_name};
ghost use Rattle.footprint.specs.Plainly.{IsPlainMemory};
ghost use Rattle.footprint.specs.Consuming.{MayMatch, CasesMayMatch};
ghost use Rattle.gil_syntax.specs.Program.{prog_view};
ghost use Rattle.gil_syntax.specs.Valid.{param_names};
ghost use Rattle.gil_syntax.specs.View.{assertion_view, proc_view};
ghost use Rattle.pure_terms.specs.Meaning.{IsOver, IsUnsatisfiable};
ghost use Rattle.pure_terms.specs.Pure.{term_of};
ghost use Rattle.pure_terms.specs.View.{atoms_view, term_view, terms_view};
ghost use Rattle.sym_model.specs.Alternatives.{alternatives_view};
ghost use Rattle.sym_evaluation.specs.Meaning.{IsStoreOver};
ghost use Rattle.sym_evaluation.specs.Pure.{term_at};
ghost use Rattle.sym_evaluation.specs.View.{store_view};
ghost use Rattle.sym_model.specs.Lists.{Each, OneOf};
ghost use Rattle.sym_paths.specs.Frames.{IsBound};
ghost use Rattle.sym_paths.specs.Origins.{Follows};
ghost use Rattle.sym_states.specs.Meaning.{IsOverTable};
ghost use Rattle.sym_states.specs.View.{facts_view, state_view};

use crate::names::set_all;
use crate::nexts::{Doubt, doubted_next};
use crate::reading::doubt_there;
use crate::states::state_of;
use checked_paths::{Checking, Entered, FaultKind, Next, Nexts, PassedByFrames, follow};
use footprint::{Matching, consume_whole};
use gil_syntax::{Assertions, Param, Params, Proc, Prog, Spec};
use gil_values::{Place, Text};
use pure_terms::{Atoms, Decider, Term, VarTable};
use rewrite_book::RuleBook;
use sequence::Sequence;
use std::alloc::{AllocError, Global};
use std::mem;
use sym_evaluation::SymStore;
use sym_model::{Alternatives, ListedMemory, terms_differ};
use sym_paths::{Frame, Path, PathEnd, Paths};
use sym_states::{PredChunks, SymState};
use sym_step::step;

/// The names of the entry: its parameters, and the variables of its precondition.
fn entry_names(alloc: Global, proc: &Proc, entered: &Entered) -> Result<SymStore, AllocError>
    requires { length (terms_view entered.now.args) ≡ length (proc_view proc.now).params }
    ensures { IfOk result (λ s. AreEntryNames (proc_view proc.now).params (terms_view entered.now.args) (store_view entered.now.variables)
        (store_view s)) }
{
    let frame = Frame::begin(alloc, proc, entered.args.as_slice())?;
    let mut names = entered.variables.copy(alloc)?;
    set_all(alloc, &mut names, &frame.store)?;
    Ok(names)
}

/// The parameters, and then the logical variables.
pub fn scope_of(alloc: Global, spec: &Spec) -> Result<Params, AllocError>
    ensures { IfOk result (λ ps. ps ≡ spec.now.params ++ spec.now.logicals) }
{
    let mut scope = copy_params(alloc, Sequence::new(alloc), &spec.params)?;
    scope = copy_params(alloc, scope, &spec.logicals)?;
    Ok(scope)
}

/// The parameters with copies of others behind them.
pub fn copy_params(alloc: Global, first: Params, second: &Params) -> Result<Params, AllocError>
    ensures { IfOk result (λ ps. ps ≡ first ++ second.now) }
{
    let mut joined = first;
    for param in second.as_slice() {
        let name = param.name.copy(alloc)?;
        joined.push(Param {
            name,
            sort: param.sort,
        })?;
    }
    Ok(joined)
}

/// The name of the result in postconditions.
pub fn result_name(alloc: Global) -> Result<Text, AllocError>
    ensures { IfOk result (λ t. t ≡ pure_result_name) }
{
    match Text::from_str(alloc, "ret")? {
        Some(name) => Ok(name),
        None => unreachable!(),
    }
}

/// The first of the alternatives that may come under the conditions.
fn alternative_there<D: Decider>(
    alloc: Global,
    vars: &VarTable,
    conds: &Atoms,
    alternatives: &Alternatives,
    decider: &mut D,
) -> Result<Option<Doubt>, AllocError>
    requires conds { Each (λ a. IsOver vars.now (term_of a)) (atoms_view conds.now) }
    requires alternatives { Each (Each (λ a. IsOver vars.now (term_of a))) (alternatives_view alternatives.now) }
    ensures none { IfOk result (λ o. IfNone o (Each (λ more. IsUnsatisfiable vars.now (atoms_view conds.now ++ more))
        (alternatives_view alternatives.now))) }
    ensures doubt { IfOk result (λ o. IfSome o (λ d. OneOf (λ more. IsToldThere vars.now (atoms_view conds.now) more (doubt_view d))
        (alternatives_view alternatives.now))) }
{
    for more in alternatives.as_slice() {
        if let Some(doubt) = doubt_there(alloc, vars, conds, more, decider)? {
            return Ok(Some(doubt));
        }
    }
    Ok(None)
}

/// Why the result may be another value than one that has its name at the entry: such a parameter is the result.
fn other_result<D: Decider>(
    alloc: Global,
    vars: &VarTable,
    conds: &Atoms,
    names: &SymStore,
    term: &Term,
    decider: &mut D,
) -> Result<Option<Doubt>, AllocError>
    requires conds { Each (λ a. IsOver vars.now (term_of a)) (atoms_view conds.now) }
    requires names { IsStoreOver vars.now (store_view names.now) }
    requires term { IsOver vars.now (term_view term.now) }
    ensures none { IfOk result (λ o. IfNone o (HasNoOther vars.now (atoms_view conds.now) (term_view term.now)
        (term_at (store_view names.now) pure_result_name))) }
    ensures doubt { IfOk result (λ o. IfSome o (λ d. DoubtsAResult vars.now (atoms_view conds.now) (term_view term.now)
        (term_at (store_view names.now) pure_result_name) (doubt_view d))) }
{
    let name = result_name(alloc)?;
    match names.get(&name) {
        Some(known) => {
            let others = terms_differ(alloc, known, term)?;
            alternative_there(alloc, vars, conds, &others, decider)
        }
        None => Ok(None),
    }
}

/// The names, and the result's.
fn with_result(alloc: Global, names: SymStore, term: &Term) -> Result<SymStore, AllocError>
    ensures { IfOk result (λ s. IsBound (store_view names) pure_result_name (term_view term.now) (store_view s)) }
{
    let mut names = names;
    names.set(result_name(alloc)?, term.copy(alloc)?)?;
    Ok(names)
}

/// The entry ends with a result: one of the postconditions is matched, and nothing is left.
pub fn finish<M: ListedMemory, D: Decider>(
    alloc: Global,
    prog: &Prog,
    spec: &Spec,
    entered: &Entered,
    proc: &Proc,
    state: SymState<M>,
    term: &Term,
    posts: &Assertions,
    here: &Place,
    path: &Path<M>,
    decider: &mut D,
) -> Result<Next<M>, AllocError>
    requires params { (proc_view proc.now).params ≡ param_names spec.now.params }
    requires count { length (terms_view entered.now.args) ≡ length (proc_view proc.now).params }
    requires over { IsOverTable M.terms (state_view state) }
    requires entry { IsEntryOver (state_view state).vars (entry_view spec.now entered.now) }
    requires term { IsOver (state_view state).vars (term_view term.now) }
    requires may { Each (MayMatch M.Local.memory) (map assertion_view posts.now) }
    requires cases { CasesMayMatch M.Local.memory (prog_view prog.now).preds }
    ensures next { IfOk result (λ n. Finishes (prog_view prog.now) M.stands (entry_view spec.now entered.now) (map assertion_view posts.now)
        (term_view term.now) (state_view state) (next_view n)) }
    ensures exact { IfOk result (λ n. FinishesExactly (prog_view prog.now) M.stands (entry_view spec.now entered.now)
        (map assertion_view posts.now) (term_view term.now) here.now (path_view path.now) (state_view state) (next_view n)) }
    ensures plain { IfOk result (λ n. FinishesPlainly (IsPlainMemory M.Local.memory M.keeps_plain M.terms) (entry_view spec.now entered.now)
        (map assertion_view posts.now) (term_view term.now) (state_view state) (next_view n)) }
    ensures asked { IfOk result (λ n. AddsTo (AsksEntryEnd (prog_view prog.now) (entry_view spec.now entered.now)
        (map assertion_view posts.now)) (state_view state).conds (next_view n)) }
{
    let names = entry_names(alloc, proc, entered)?;
    let conds = state.conds.atoms();
    if let Some(doubt) = other_result(alloc, &state.vars, conds, &names, term, decider)? {
        return doubted_next(alloc, FaultKind::Post, here, path, doubt);
    }
    let names = with_result(alloc, names, term)?;
    let scope = scope_of(alloc, spec)?;
    match consume_whole(alloc, state, prog, &scope, posts, names, decider)? {
        Matching::All(_) => Ok(Next::Over),
        Matching::Unmatched {
            item: _,
            conds,
            valuation,
        } => {
            let doubt = Doubt::Under(conds, valuation);
            doubted_next(alloc, FaultKind::Post, here, path, doubt)
        }
        Matching::Unknown { conds, reason } => {
            let doubt = Doubt::Undecided(conds, reason);
            doubted_next(alloc, FaultKind::Post, here, path, doubt)
        }
    }
}

/// How a path ends the entry. Contracts see it as its pure data, by `finish_view`.
#[derive(Debug, Drop)]
pub(crate) enum EntryEnd {
    Return(Term),
    Throw(Term),
}

fn finish_of(alloc: Global, end: &Option<PathEnd>) -> Result<Option<EntryEnd>, AllocError>
    ensures { IfOk result (λ o. option_map finish_view o ≡ finish_at (option_map end_view end.now)) }
{
    match end {
        Some(PathEnd::Returned(term)) => Ok(Some(EntryEnd::Return(term.copy(alloc)?))),
        Some(PathEnd::Threw(term, _)) => Ok(Some(EntryEnd::Throw(term.copy(alloc)?))),
        _ => Ok(None),
    }
}

/// The state where a path ends, from that before its step.
fn state_there<M: ListedMemory>(
    alloc: Global,
    state: &SymState<M>,
    path: &Path<M>,
) -> Result<SymState<M>, AllocError>
    ensures { IfOk result (λ s. IsThere M.stands M.terms (at_end (state_view state.now) (path_view path.now)) (state_view s)) }
{
    let memory = state.memory.copy(alloc)?;
    let mut there = state.over_memory(alloc, memory)?;
    let mut copy = path.copy(alloc)?;
    mem::swap(&mut there.vars, &mut copy.vars);
    mem::swap(&mut there.conds, &mut copy.conds);
    Ok(there)
}

/// A path ends the entry with a result, from the state before its step.
fn finish_there<M: ListedMemory, D: Decider>(
    alloc: Global,
    prog: &Prog,
    spec: &Spec,
    entered: &Entered,
    proc: &Proc,
    state: &SymState<M>,
    term: &Term,
    posts: &Assertions,
    here: &Place,
    path: &Path<M>,
    decider: &mut D,
) -> Result<Next<M>, AllocError>
    requires params { (proc_view proc.now).params ≡ param_names spec.now.params }
    requires count { length (terms_view entered.now.args) ≡ length (proc_view proc.now).params }
    requires end { MayEnd M.terms (entry_view spec.now entered.now) (state_view state.now) (path_view path.now) }
    requires term { IsOver (path_view path.now).vars (term_view term.now) }
    requires may { Each (MayMatch M.Local.memory) (map assertion_view posts.now) }
    requires cases { CasesMayMatch M.Local.memory (prog_view prog.now).preds }
    ensures next { IfOk result (λ n. Finishes (prog_view prog.now) M.stands (entry_view spec.now entered.now) (map assertion_view posts.now)
        (term_view term.now) (at_end (state_view state.now) (path_view path.now)) (next_view n)) }
    ensures exact { IfOk result (λ n. FinishesExactly (prog_view prog.now) M.stands (entry_view spec.now entered.now)
        (map assertion_view posts.now) (term_view term.now) here.now (path_view path.now) (at_end (state_view state.now) (path_view path.now))
        (next_view n)) }
    ensures plain { IfOk result (λ n. FinishesPlainly (IsPlainMemory M.Local.memory M.keeps_plain M.terms) (entry_view spec.now entered.now)
        (map assertion_view posts.now) (term_view term.now) (at_end (state_view state.now) (path_view path.now)) (next_view n)) }
    ensures asked { IfOk result (λ n. AddsTo (AsksEntryEnd (prog_view prog.now) (entry_view spec.now entered.now)
        (map assertion_view posts.now)) (path_view path.now).conds (next_view n)) }
{
    let there = state_there(alloc, state, path)?;
    finish(
        alloc, prog, spec, entered, proc, there, term, posts, here, path, decider,
    )
}

/// What is answered of one next path.
fn end_one<M: ListedMemory, D: Decider>(
    alloc: Global,
    prog: &Prog,
    spec: &Spec,
    entered: &Entered,
    proc: &Proc,
    state: &SymState<M>,
    preds: &PredChunks,
    passed: &PassedByFrames<M>,
    here: &Place,
    path: Path<M>,
    decider: &mut D,
) -> Result<Next<M>, AllocError>
    requires params { (proc_view proc.now).params ≡ param_names spec.now.params }
    requires count { length (terms_view entered.now.args) ≡ length (proc_view proc.now).params }
    requires end { MayEnd M.terms (entry_view spec.now entered.now) (state_view state.now) (path_view path) }
    requires posts { Each (MayMatch M.Local.memory) (map assertion_view spec.now.posts) }
    requires errors { Each (MayMatch M.Local.memory) (map assertion_view spec.now.errors) }
    requires cases { CasesMayMatch M.Local.memory (prog_view prog.now).preds }
    ensures next { IfOk result (λ n. IsEnded (prog_view prog.now) M.stands M.terms (entry_view spec.now entered.now) (state_view state.now)
        (facts_view preds.now) (passed_by_view passed.now) (path_view path) (next_view n)) }
    ensures exact { IfOk result (λ n. IsExactlyEnded (prog_view prog.now) M.stands M.terms (entry_view spec.now entered.now)
        (state_view state.now) (facts_view preds.now) (passed_by_view passed.now) here.now (path_view path) (next_view n)) }
    ensures plain { IfOk result (λ n. EndsSurely M.plain (IsPlainMemory M.Local.memory M.keeps_plain M.terms) (state_view state.now)
        (entry_view spec.now entered.now) (path_view path) (next_view n)) }
    ensures asked { IfOk result (λ n. EndAsks (prog_view prog.now) (entry_view spec.now entered.now) (path_view path) (next_view n)) }
{
    match finish_of(alloc, &path.end)? {
        Some(EntryEnd::Return(term)) => {
            let posts = &spec.posts;
            finish_there(
                alloc, prog, spec, entered, proc, state, &term, posts, here, &path, decider,
            )
        }
        Some(EntryEnd::Throw(term)) => {
            let errors = &spec.errors;
            finish_there(
                alloc, prog, spec, entered, proc, state, &term, errors, here, &path, decider,
            )
        }
        None => follow(alloc, preds, passed, here, path),
    }
}

/// What is answered of all of them, in order.
fn end_all<M: ListedMemory, D: Decider>(
    alloc: Global,
    prog: &Prog,
    spec: &Spec,
    entered: &Entered,
    proc: &Proc,
    state: &SymState<M>,
    preds: &PredChunks,
    passed: &PassedByFrames<M>,
    here: &Place,
    paths: Paths<M>,
    decider: &mut D,
) -> Result<Nexts<M>, AllocError>
    requires params { (proc_view proc.now).params ≡ param_names spec.now.params }
    requires count { length (terms_view entered.now.args) ≡ length (proc_view proc.now).params }
    requires end { Each (MayEnd M.terms (entry_view spec.now entered.now) (state_view state.now)) (paths_view paths) }
    requires posts { Each (MayMatch M.Local.memory) (map assertion_view spec.now.posts) }
    requires errors { Each (MayMatch M.Local.memory) (map assertion_view spec.now.errors) }
    requires cases { CasesMayMatch M.Local.memory (prog_view prog.now).preds }
    ensures next { IfOk result (λ ns. EachIsEnded (prog_view prog.now) M.stands M.terms (entry_view spec.now entered.now) (state_view state.now)
        (facts_view preds.now) (passed_by_view passed.now) (paths_view paths) (nexts_view ns)) }
    ensures exact { IfOk result (λ ns. EachIsExactlyEnded (prog_view prog.now) M.stands M.terms (entry_view spec.now entered.now)
        (state_view state.now) (facts_view preds.now) (passed_by_view passed.now) here.now (paths_view paths) (nexts_view ns)) }
    ensures plain { IfOk result (λ ns. EachEndsSurely M.plain (IsPlainMemory M.Local.memory M.keeps_plain M.terms) (state_view state.now)
        (entry_view spec.now entered.now) (paths_view paths) (nexts_view ns)) }
    ensures asked { IfOk result (λ ns. EachEndAsks (prog_view prog.now) (entry_view spec.now entered.now) (paths_view paths)
        (nexts_view ns)) }
{
    let mut nexts = Sequence::new(alloc);
    for path in paths.into_vec() {
        nexts.push(end_one(
            alloc, prog, spec, entered, proc, state, preds, passed, here, path, decider,
        )?)?;
    }
    Ok(nexts)
}

/// The answers at `return` and at `throw`. Where the entry ends so, one of its postconditions is to be matched, with nothing left.
pub fn end_row<M: ListedMemory, D: Decider>(
    alloc: Global,
    prog: &Prog,
    rules: &RuleBook,
    spec: &Spec,
    entered: &Entered,
    proc: &Proc,
    checking: Checking<M>,
    here: &Place,
    decider: &mut D,
) -> Result<Nexts<M>, AllocError>
    requires params { (proc_view proc.now).params ≡ param_names spec.now.params }
    requires count { length (terms_view entered.now.args) ≡ length (proc_view proc.now).params }
    requires over { IsCheckedOver M.terms (entry_view spec.now entered.now) (checking_view checking) }
    requires may { MayStep (prog_view prog.now) M.terms (path_view checking.path) }
    requires posts { Each (MayMatch M.Local.memory) (map assertion_view spec.now.posts) }
    requires errors { Each (MayMatch M.Local.memory) (map assertion_view spec.now.errors) }
    requires cases { CasesMayMatch M.Local.memory (prog_view prog.now).preds }
    ensures origin { IfOk result (λ ns. Each (OfGoing (Follows (prog_view prog.now) M.Local.actions M.terms (path_view checking.path)))
        (nexts_view ns)) }
    ensures next { IfOk result (λ ns. (command : PureCommand) → IsLeaving command → AreRowOf (prog_view prog.now) M.Local.memory M.Local.actions
        M.stands M.terms (entry_view spec.now entered.now) (checking_view checking) command [] (nexts_view ns)) }
    ensures exact { IfOk result (λ ns. (command : PureCommand) → IsLeaving command → IsExactRowOf (prog_view prog.now) M.Local.memory
        M.Local.actions M.stands M.terms (entry_view spec.now entered.now) (checking_view checking) command here.now (nexts_view ns)) }
    ensures plain { M.keeps_plain → IfOk result (λ ns. EndsPlainly (prog_view prog.now) M.plain (entry_view spec.now entered.now)
        (path_view checking.path) (nexts_view ns)) }
    ensures asked { IfOk result (λ ns. (command : PureCommand) → IsLeaving command → AsksOnlyOwn (prog_view prog.now)
        (entry_view spec.now entered.now) (checking_view checking) command (nexts_view ns)) }
{
    let state = state_of(alloc, &checking.path, &checking.preds, here)?;
    let (path, preds, passed) = checking.into_parts();
    let paths = step(alloc, prog, path, rules, decider)?;
    end_all(
        alloc, prog, spec, entered, proc, &state, &preds, &passed, here, paths, decider,
    )
}
