//! Checked paths of the next paths of a step of the machine.
ghost use Rattle.std.specs.Prelude.{◌≡◌, [], IfOk};
ghost use Rattle.std.specs.Option.{option_map};
ghost use Rattle.checked_paths.specs.Causes.{shown_of, shown_view, EachShowsEnd, ShowsEnd, ShowsStop};
ghost use Rattle.checked_paths.specs.Covering.{AreNexts};
ghost use Rattle.checked_paths.specs.Exactness.{AddsOnly, AreExact};
ghost use Rattle.checked_paths.specs.Following.{EachIsAnswered, IsAnswered, IsStop, IsAtMachineCommand, OfGoing, StaysInFrame};
ghost use Rattle.checked_paths.specs.Meaning.{MayGoOn};
ghost use Rattle.checked_paths.specs.Plainly.{LeadsPlainly};
ghost use Rattle.checked_paths.specs.Pure.{PureEntry};
ghost use Rattle.checked_paths.specs.View.{checking_view, next_view, nexts_view, passed_by_view};
ghost use Rattle.gil_syntax.specs.Program.{prog_view};
ghost use Rattle.sym_engine.specs.Lawful.{IsOwnAt};
ghost use Rattle.sym_model.specs.Lists.{Each};
ghost use Rattle.sym_paths.specs.Origins.{Follows};
ghost use Rattle.sym_paths.specs.Steps.{IsPlaceOf};
ghost use Rattle.sym_paths.specs.View.{end_view, path_view, paths_view};
ghost use Rattle.sym_states.specs.View.{facts_view};
ghost use Rattle.sym_step.specs.Stepping.{MayStep};

use crate::checking::{Checking, PassedByFrames, copy_facts, passed_for};
use crate::nexts::{Cause, FaultKind, Next, Nexts, Shown};
use gil_syntax::Prog;
use gil_values::Place;
use pure_terms::Decider;
use rewrite_book::RuleBook;
use sequence::Sequence;
use std::alloc::{AllocError, Global};
use sym_model::SymMemory;
use sym_paths::{Ended, Path, PathEnd, Paths, copy_place};
use sym_states::PredChunks;
use sym_step::step;

/// What is answered of a path that ends so, if it has an end.
fn stop_of<M: SymMemory>(end: Option<PathEnd>, shown: Shown) -> Option<Next<M>>
    ensures answer { IsStop (option_map end_view end) (option_map next_view result) }
    ensures shows { ShowsStop (option_map end_view end) (shown_view shown) (option_map next_view result) }
{
    match end {
        None => None,
        Some(PathEnd::Vanished) => Some(Next::Over),
        Some(PathEnd::Failed(term, _)) => Some(Next::Caused(Cause::Fails(term, shown))),
        Some(PathEnd::Missed(_, _)) => {
            Some(Next::Caused(Cause::Fault(FaultKind::Missing, shown)))
        }
        Some(PathEnd::Returned(_) | PathEnd::Threw(_, _)) => {
            Some(Next::Caused(Cause::Fault(FaultKind::Post, shown)))
        }
        Some(PathEnd::Cut) => Some(Next::Caused(Cause::Cut(shown))),
        Some(PathEnd::Unknown(_, reason)) => Some(Next::Caused(Cause::Unknown(reason, shown))),
    }
}

/// What is answered of a path that has ended.
fn stop<M: SymMemory>(
    alloc: Global,
    here: &Place,
    path: Path<M>,
) -> Result<Option<Next<M>>, AllocError>
    ensures answer { IfOk result (λ o. IsStop (path_view path).ending (option_map next_view o)) }
    ensures shows { IfOk result (λ o. ShowsStop (path_view path).ending (shown_of here.now (path_view path)) (option_map next_view o)) }
{
    let place = copy_place(alloc, here)?;
    let Ended {
        vars,
        conds,
        given,
        choices,
        end,
    } = path.into_ended();
    let shown = Shown {
        place,
        path: choices,
        vars,
        given,
        conds,
        valuation: None,
    };
    Ok(stop_of(end, shown))
}

/// What is answered of a next path, from facts and passed invariants as they were before its step: without an end it goes on with them,
/// and the frames that began have passed no invariant. An end of the entry is answered as one that no postcondition tells.
pub fn follow<M: SymMemory>(
    alloc: Global,
    preds: &PredChunks,
    passed: &PassedByFrames<M>,
    here: &Place,
    path: Path<M>,
) -> Result<Next<M>, AllocError>
    ensures answer { IfOk result (λ n. IsAnswered M.stands M.terms (facts_view preds.now) (passed_by_view passed.now) (path_view path)
        (next_view n)) }
    ensures shows { IfOk result (λ n. ShowsEnd here.now (path_view path) (next_view n)) }
{
    if path.end.is_some() {
        return match stop(alloc, here, path)? {
            Some(next) => Ok(next),
            None => unreachable!(),
        };
    }
    let preds = copy_facts(alloc, preds)?;
    let passed = passed_for(alloc, passed, path.stack.len())?;
    Ok(Next::Further(Checking {
        path,
        preds,
        passed,
    }))
}

/// What is answered of all next paths, in order.
pub fn follow_all<M: SymMemory>(
    alloc: Global,
    preds: &PredChunks,
    passed: &PassedByFrames<M>,
    here: &Place,
    paths: Paths<M>,
) -> Result<Nexts<M>, AllocError>
    ensures answer { IfOk result (λ ns. EachIsAnswered M.stands M.terms (facts_view preds.now) (passed_by_view passed.now) (paths_view paths)
        (nexts_view ns)) }
    ensures shows { IfOk result (λ ns. EachShowsEnd here.now (paths_view paths) (nexts_view ns)) }
{
    let mut nexts = Sequence::new(alloc);
    for path in paths.into_vec() {
        nexts.push(follow(alloc, preds, passed, here, path)?)?;
    }
    Ok(nexts)
}

/// The step of a checked path at a command of the machine that is no call: the paths of the step with facts and passed invariants. Where
/// the command doesn't leave its frame, checked runs follow each path that goes on, and come to each cause. Conditions that are added are the
/// command's own.
pub fn step_machine<M: SymMemory, D: Decider>(
    alloc: Global,
    prog: &Prog,
    rules: &RuleBook,
    checking: Checking<M>,
    here: &Place,
    decider: &mut D,
) -> Result<Nexts<M>, AllocError>
    requires may { MayStep (prog_view prog.now) M.terms (path_view checking.path) }
    requires machine { IsAtMachineCommand (prog_view prog.now) (path_view checking.path) }
    ensures next { IfOk result (λ ns. (e : PureEntry) → MayGoOn (prog_view prog.now) M.terms e (checking_view checking)
        → AreNexts (prog_view prog.now) M.Local.memory M.Local.actions M.stands M.terms e (checking_view checking) [] (nexts_view ns)) }
    ensures exact { IfOk result (λ ns. (e : PureEntry) → MayGoOn (prog_view prog.now) M.terms e (checking_view checking)
        → StaysInFrame (prog_view prog.now) (path_view checking.path) → IsPlaceOf (prog_view prog.now) (path_view checking.path).stack here.now
        → AreExact (prog_view prog.now) M.Local.memory M.Local.actions M.stands e (checking_view checking) (nexts_view ns)) }
    ensures origin { IfOk result (λ ns. Each (OfGoing (Follows (prog_view prog.now) M.Local.actions M.terms (path_view checking.path)))
        (nexts_view ns)) }
    ensures own { IfOk result (λ ns. Each (AddsOnly (IsOwnAt M.stands M.terms M.asked M.Local.actions (prog_view prog.now)
        (path_view checking.path)) (checking_view checking)) (nexts_view ns)) }
    ensures plain { M.keeps_plain → IfOk result (λ ns. LeadsPlainly (prog_view prog.now) M.plain (path_view checking.path) (nexts_view ns)) }
{
    let (path, preds, passed) = checking.into_parts();
    let paths = step(alloc, prog, path, rules, decider)?;
    follow_all(alloc, &preds, &passed, here, paths)
}
