//! Calls: one of a procedure without a specification runs its body, and any other one is by specification.
ghost use Rattle.std.specs.Prelude.{◌≡◌, ◌∷◌, ◌++◌, [], map, IfOk, IfSome, Some};
ghost use Rattle.std.specs.Option.{option_map};
ghost use Rattle.assert_logic.specs.Modes.{HasModes};
ghost use Rattle.call_rows.specs.Asked.{AddsToNext, AsksFurther};
ghost use Rattle.call_rows.specs.Calling.{AnswersFurther, AreNamed, CallsUnspecified, EachIsCalled, IsSpecOf, IsUnspecified, IsAtCall, IsCall, IsCalled, IsNextOver, called_by, name_of, spec_there};
ghost use Rattle.call_rows.specs.Gathering.{GathersNexts};
ghost use Rattle.call_rows.specs.Uses.{AreUsedThere, NamesCalled};
ghost use Rattle.checked_paths.specs.Following.{OfGoing};
ghost use Rattle.checked_paths.specs.Meaning.{IsCheckedOver};
ghost use Rattle.checked_paths.specs.Plainly.{LeadsPlainly};
ghost use Rattle.checked_paths.specs.View.{checking_view, entry_view, next_view, nexts_view, passed_by_view};
ghost use Rattle.checked_rows.specs.Asking.{AddsTo, AsksOnlyOwn};
ghost use Rattle.checked_rows.specs.Rows.{AreRowOf, IsExactRowOf};
ghost use Rattle.gil_syntax.specs.Program.{prog_view};
ghost use Rattle.gil_syntax.specs.Programs.{find_spec};
ghost use Rattle.gil_syntax.specs.Pure.{PureCommand};
ghost use Rattle.gil_syntax.specs.View.{spec_view};
ghost use Rattle.sym_leaving.specs.Leaving.{HasCaller};
ghost use Rattle.sym_model.specs.Lists.{Each};
ghost use Rattle.sym_paths.specs.Frames.{running_store};
ghost use Rattle.sym_paths.specs.Origins.{Follows};
ghost use Rattle.sym_paths.specs.View.{frames_view, path_view, paths_view};
ghost use Rattle.sym_states.specs.View.{facts_view};
ghost use Rattle.sym_step.specs.Stepping.{MayStep};

use crate::matches::specified_nexts;
use crate::posts::push_nexts;
use checked_paths::{Checking, Entered, Next, Nexts, PassedByFrames, Stepped, follow};
use gil_syntax::{Prog, Spec, Specs, Texts};
use gil_values::{Place, Text};
use pure_terms::Decider;
use rewrite_book::RuleBook;
use sequence::Sequence;
use std::alloc::{AllocError, Global};
use sym_model::ListedMemory;
use sym_paths::{Frames, Path, Paths, running};
use sym_states::PredChunks;
use sym_step::step;

/// The specification of a procedure, if it has one.
fn spec_of<'p>(specs: &'p Specs, name: &Text) -> Option<&'p Spec>
    ensures { option_map (λ s. spec_view s.now) result ≡ find_spec (map spec_view specs.now) name.now }
{
    for spec in specs.as_slice() {
        if spec.name == *name {
            return Some(spec);
        }
    }
    None
}

/// The specification of the procedure that runs, if it has one.
fn spec_running<'p>(prog: &'p Prog, frames: &Frames) -> Option<&'p Spec>
    ensures { option_map (λ s. spec_view s.now) result ≡ spec_there (prog_view prog.now) (frames_view frames.now) }
{
    match running(frames) {
        Some(frame) => spec_of(prog.specs(), &frame.proc),
        None => None,
    }
}

/// The specification by which a next path is called, if there is one.
fn used_by<'p, M: ListedMemory>(prog: &'p Prog, path: &Path<M>) -> Option<&'p Spec>
    ensures { option_map (λ s. spec_view s.now) result ≡ called_by (prog_view prog.now) (path_view path.now).ending
        (path_view path.now).stack }
{
    match &path.end {
        Some(_) => None,
        None => spec_running(prog, &path.stack),
    }
}

/// The names, and then that of the specification, if there is one.
fn with_name(alloc: Global, names: Texts, used: Option<&Spec>) -> Result<Texts, AllocError>
    ensures { IfOk result (λ r. r ≡ names ++ name_of (option_map (λ s. spec_view s.now) used.entry)) }
{
    let mut names = names;
    if let Some(used) = used {
        names.push(used.name.copy(alloc)?)?;
    }
    Ok(names)
}

/// The names of the specifications by which next paths are called.
fn names_used<M: ListedMemory>(
    alloc: Global,
    prog: &Prog,
    paths: &Paths<M>,
) -> Result<Texts, AllocError>
    ensures named { IfOk result (λ names. AreNamed (prog_view prog.now) names (paths_view paths.now)) }
    ensures called { IfOk result (λ names. NamesCalled (prog_view prog.now) names (paths_view paths.now)) }
    ensures only { Each (IsUnspecified (prog_view prog.now)) (paths_view paths.now) → IfOk result (λ names. names ≡ []) }
{
    let mut names = Sequence::new(alloc);
    for path in paths.as_slice() {
        names = with_name(alloc, names, used_by(prog, path))?;
    }
    Ok(names)
}

/// One answer.
fn alone<M: Drop>(alloc: Global, next: Next<M>) -> Result<Nexts<M>, AllocError>
    ensures { IfOk result (λ ns. nexts_view ns ≡ next_view next ∷ []) }
{
    let mut nexts = Sequence::new(alloc);
    nexts.push(next)?;
    Ok(nexts)
}

/// The answers of a path that goes on: where a specification calls it, those of the call.
fn further_nexts<M: ListedMemory, D: Decider>(
    alloc: Global,
    prog: &Prog,
    spec: &Spec,
    entered: &Entered,
    used: Option<&Spec>,
    checking: Checking<M>,
    here: &Place,
    decider: &mut D,
) -> Result<Nexts<M>, AllocError>
    requires found { find_spec (prog_view prog.now).specs (spec_view spec.now).name ≡ Some (spec_view spec.now) }
    requires modes { HasModes (prog_view prog.now) M.Local.memory }
    requires used { IfSome used (λ s. IsSpecOf (prog_view prog.now) (spec_view s.now)) }
    requires caller { HasCaller (frames_view checking.path.stack) }
    requires over { IsCheckedOver M.terms (entry_view spec.now entered.now) (checking_view checking) }
    ensures answers { IfOk result (λ ns. AnswersFurther (prog_view prog.now) M.Local.memory M.stands M.terms M.kept
        (entry_view spec.now entered.now) here.now (option_map (λ s. spec_view s.now) used.entry) (checking_view checking) (nexts_view ns)) }
    ensures asked { IfOk result (λ ns. Each (AddsTo (AsksFurther (prog_view prog.now) (entry_view spec.now entered.now)
        (option_map (λ s. spec_view s.now) used.entry) (running_store (frames_view checking.path.stack))) (checking_view checking).path.conds)
        (nexts_view ns)) }
{
    match used {
        Some(used) => specified_nexts(alloc, prog, spec, entered, used, &checking, here, decider),
        None => alone(alloc, Next::Further(checking)),
    }
}

/// The answers of one next path. A procedure with a specification isn't gone into.
fn call_one<M: ListedMemory, D: Decider>(
    alloc: Global,
    prog: &Prog,
    spec: &Spec,
    entered: &Entered,
    preds: &PredChunks,
    passed: &PassedByFrames<M>,
    here: &Place,
    path: Path<M>,
    decider: &mut D,
) -> Result<Nexts<M>, AllocError>
    requires found { find_spec (prog_view prog.now).specs (spec_view spec.now).name ≡ Some (spec_view spec.now) }
    requires modes { HasModes (prog_view prog.now) M.Local.memory }
    requires over { IsNextOver M.terms (entry_view spec.now entered.now) (facts_view preds.now) (passed_by_view passed.now) (path_view path) }
    ensures answers { IfOk result (λ ns. IsCalled (prog_view prog.now) M.Local.memory M.stands M.terms M.kept (entry_view spec.now entered.now)
        here.now (facts_view preds.now) (passed_by_view passed.now) (path_view path) (nexts_view ns)) }
    ensures asked { IfOk result (λ ns. AddsToNext (prog_view prog.now) (entry_view spec.now entered.now) (path_view path) (nexts_view ns)) }
{
    let used = used_by(prog, &path);
    match follow(alloc, preds, passed, here, path)? {
        Next::Further(checking) => further_nexts(
            alloc, prog, spec, entered, used, checking, here, decider,
        ),
        Next::Over => alone(alloc, Next::Over),
        Next::Caused(cause) => alone(alloc, Next::Caused(cause)),
    }
}

/// The answers of all of them, in order.
fn call_all<M: ListedMemory, D: Decider>(
    alloc: Global,
    prog: &Prog,
    spec: &Spec,
    entered: &Entered,
    preds: &PredChunks,
    passed: &PassedByFrames<M>,
    here: &Place,
    paths: Paths<M>,
    decider: &mut D,
) -> Result<Nexts<M>, AllocError>
    requires found { find_spec (prog_view prog.now).specs (spec_view spec.now).name ≡ Some (spec_view spec.now) }
    requires modes { HasModes (prog_view prog.now) M.Local.memory }
    requires over { Each (IsNextOver M.terms (entry_view spec.now entered.now) (facts_view preds.now) (passed_by_view passed.now))
        (paths_view paths) }
    ensures answers { IfOk result (λ ns. EachIsCalled (prog_view prog.now) M.Local.memory M.stands M.terms M.kept (entry_view spec.now entered.now)
        here.now (facts_view preds.now) (passed_by_view passed.now) (paths_view paths) (nexts_view ns)) }
    ensures asked { IfOk result (λ ns. GathersNexts (AddsToNext (prog_view prog.now) (entry_view spec.now entered.now)) (paths_view paths)
        (nexts_view ns)) }
{
    let mut nexts = Sequence::new(alloc);
    for path in paths.into_vec() {
        let more = call_one(
            alloc, prog, spec, entered, preds, passed, here, path, decider,
        )?;
        nexts = push_nexts(nexts, more)?;
    }
    Ok(nexts)
}

/// The answers at a call, and the names of the specifications that it uses. Where the procedure has one, its body isn't gone into: the
/// precondition is matched and taken with the arguments for the parameters, and each postcondition comes back in its place, with any
/// result; each error postcondition is thrown. Conditions that are added are the call's own: what its expressions ask, and what the
/// specification asks of the arguments' terms.
pub fn call_row<M: ListedMemory, D: Decider>(
    alloc: Global,
    prog: &Prog,
    rules: &RuleBook,
    spec: &Spec,
    entered: &Entered,
    checking: Checking<M>,
    here: &Place,
    decider: &mut D,
) -> Result<Stepped<M>, AllocError>
    requires found { find_spec (prog_view prog.now).specs (spec_view spec.now).name ≡ Some (spec_view spec.now) }
    requires modes { HasModes (prog_view prog.now) M.Local.memory }
    requires may { MayStep (prog_view prog.now) M.terms (path_view checking.path) }
    requires over { IsCheckedOver M.terms (entry_view spec.now entered.now) (checking_view checking) }
    requires at { IsAtCall (prog_view prog.now) (path_view checking.path) }
    ensures unspecified { CallsUnspecified (prog_view prog.now) (path_view checking.path) → IfOk result (λ s. (s.uses ≡ [])
        × Each (OfGoing (Follows (prog_view prog.now) M.Local.actions M.terms (path_view checking.path))) (nexts_view s.nexts)) }
    ensures plain { M.keeps_plain → CallsUnspecified (prog_view prog.now) (path_view checking.path)
        → IfOk result (λ s. LeadsPlainly (prog_view prog.now) M.plain (path_view checking.path) (nexts_view s.nexts)) }
    ensures next { IfOk result (λ s. (command : PureCommand) → IsCall command → AreRowOf (prog_view prog.now) M.Local.memory M.Local.actions
        M.stands M.terms (entry_view spec.now entered.now) (checking_view checking) command s.uses (nexts_view s.nexts)) }
    ensures exact { IfOk result (λ s. (command : PureCommand) → IsCall command → IsExactRowOf (prog_view prog.now) M.Local.memory
        M.Local.actions M.stands M.terms (entry_view spec.now entered.now) (checking_view checking) command here.now (nexts_view s.nexts)) }
    ensures asked { IfOk result (λ s. (command : PureCommand) → IsCall command → AsksOnlyOwn (prog_view prog.now)
        (entry_view spec.now entered.now) (checking_view checking) command (nexts_view s.nexts)) }
    ensures used { IfOk result (λ s. AreUsedThere (prog_view prog.now) M.Local.actions M.stands (entry_view spec.now entered.now)
        (checking_view checking) s.uses) }
{
    let (path, preds, passed) = checking.into_parts();
    let paths = step(alloc, prog, path, rules, decider)?;
    let uses = names_used(alloc, prog, &paths)?;
    let nexts = call_all(
        alloc, prog, spec, entered, &preds, &passed, here, paths, decider,
    )?;
    Ok(Stepped { nexts, uses })
}
