//! The candidates of commands that take the value of one expression: assignment, `fail` and `return`.
ghost use Rattle.std.specs.Prelude.{◌≡◌, ◌+◌, ◌<◌, ◌^◌, [], ◌∷◌, map, IfOk, IsTrue};
ghost use Rattle.std.specs.List.{list_all};
ghost use Rattle.gil_syntax.specs.Pure.{assign as pure_assign, fail as pure_fail, return as pure_return};
ghost use Rattle.gil_syntax.specs.Subexpressions.{literals_of};
ghost use Rattle.gil_syntax.specs.View.{expr_view};
ghost use Rattle.gil_syntax.specs.WellMade.{is_spellable};
ghost use Rattle.pure_terms.specs.View.{term_view};
ghost use Rattle.sym_engine.specs.Lawful.{AreLawful, MayAdvance};
ghost use Rattle.sym_engine.specs.Narrow.{StayNarrow};
ghost use Rattle.sym_engine.specs.Plain.{StayPlain};
ghost use Rattle.sym_engine.specs.View.{candidate_view, candidates_view};
ghost use Rattle.sym_evaluation.specs.Plainly.{AnswersPlainly, GuardsPlainly};
ghost use Rattle.sym_evaluation.specs.View.{cases_view, faults_view, good_view};
ghost use Rattle.sym_paths.specs.Moves.{running_store};
ghost use Rattle.sym_paths.specs.Valued.{Assigns, Fails, IsEvaluated, faulted};
ghost use Rattle.sym_paths.specs.Pure.{PureFrame};
ghost use Rattle.sym_paths.specs.View.{frame_view, frames_view, path_view};
ghost use Rattle.sym_paths.specs.Copies.{AreCopied};
ghost use Rattle.sym_paths.specs.Returns.{Resumes, Returns, resuming, returning};

use crate::candidates::{Candidate, Candidates, assume, fail_with, proceed, require};
use crate::frames::{assign, resume, run_in, store_in, take};
use gil_syntax::Expr;
use gil_values::{Place, Text};
use pure_terms::Term;
use sequence::Sequence;
use std::alloc::{AllocError, Global};
use sym_evaluation::{Cases, FaultCases, GoodCase, SymStore, evaluate};
use sym_model::SymMemory;
use sym_paths::{Frame, Frames, Path, PathEnd};

/// The cases of an expression in the frame that runs.
pub(crate) fn evaluate_in(
    alloc: Global,
    frames: &Frames,
    expression: &Expr,
) -> Result<Cases<Term>, AllocError>
    requires { IsTrue (list_all is_spellable (literals_of (expr_view expression.now))) }
    ensures evaluated { IfOk result (λ c. IsEvaluated (running_store (frames_view frames.now)) (expr_view expression.now) (cases_view c)) }
    ensures plain { IfOk result (λ c. AnswersPlainly (running_store (frames_view frames.now)) (expr_view expression.now) (cases_view c)) }
    ensures guard { IfOk result (λ c. GuardsPlainly (running_store (frames_view frames.now)) (expr_view expression.now) (cases_view c)) }
{
    let empty = SymStore::new(alloc);
    evaluate(alloc, store_in(frames, &empty), expression)
}

/// A failing candidate for each fault, on copies of the path.
pub(crate) fn fail_each<M: SymMemory>(
    alloc: Global,
    path: &Path<M>,
    here: &Place,
    faults: &FaultCases,
) -> Result<Candidates<M>, AllocError>
    requires { path.now.steps + 1 < 2 ^ 32 }
    ensures { IfOk result (λ cs. AreCopied M.stands M.terms M.depends M.plain
        (map (faulted (path_view path.now) here.now) (faults_view faults.now)) (candidates_view cs)) }
{
    let mut candidates = Sequence::new(alloc);
    for fault in faults.as_slice() {
        let term = fault.fault.term(alloc)?;
        let copy = path.copy(alloc)?;
        candidates.push(fail_with(alloc, copy, here, &fault.conds, term)?)?;
    }
    Ok(candidates)
}

/// The path goes on, and the variable has the result.
fn assign_result<M: Drop>(
    alloc: Global,
    path: Path<M>,
    name: &Text,
    good: GoodCase<Term>,
) -> Result<Candidate<M>, AllocError>
    requires steps { path.steps + 1 < 2 ^ 32 }
    requires next { MayAdvance (frames_view path.stack) }
    ensures { IfOk result (λ c. Assigns (path_view path) name.now (good_view term_view good) (candidate_view c)) }
{
    let GoodCase { conds, result } = good;
    let mut path = path;
    assign(alloc, &mut path.stack, name, result)?;
    proceed(alloc, path, conds)
}

/// The candidates of `x := e`.
pub fn assign_candidates<M: SymMemory>(
    alloc: Global,
    path: Path<M>,
    here: &Place,
    name: &Text,
    expression: &Expr,
) -> Result<Candidates<M>, AllocError>
    requires spellable { IsTrue (list_all is_spellable (literals_of (expr_view expression.now))) }
    requires steps { path.steps + 1 < 2 ^ 32 }
    requires next { MayAdvance (frames_view path.stack) }
    ensures lawful { IfOk result (λ cs. AreLawful M.stands M.terms M.asked M.Local.actions (path_view path) here.now
        (pure_assign name.now (expr_view expression.now)) (candidates_view cs)) }
    ensures plain { M.keeps_plain → IfOk result (λ cs. StayPlain M.plain (path_view path) (pure_assign name.now (expr_view expression.now))
        (candidates_view cs)) }
    ensures narrow { IfOk result (λ cs. StayNarrow M.terms (path_view path) (pure_assign name.now (expr_view expression.now)) (candidates_view cs)) }
{
    let Cases { faults, good } = evaluate_in(alloc, &path.stack, expression)?;
    let mut candidates = fail_each(alloc, &path, here, &faults)?;
    match good {
        Some(good) => {
            candidates.push(assign_result(alloc, path, name, good)?)?;
            Ok(candidates)
        }
        None => Ok(candidates),
    }
}

/// The path fails with the result.
fn fail_result<M: Drop>(
    alloc: Global,
    path: Path<M>,
    here: &Place,
    good: GoodCase<Term>,
) -> Result<Candidate<M>, AllocError>
    requires { path.steps + 1 < 2 ^ 32 }
    ensures { IfOk result (λ c. Fails (path_view path) here.now (good_view term_view good) (candidate_view c)) }
{
    let GoodCase { conds, result } = good;
    fail_with(alloc, path, here, &conds, result)
}

/// The candidates of `fail e`.
pub fn fail_candidates<M: SymMemory>(
    alloc: Global,
    path: Path<M>,
    here: &Place,
    expression: &Expr,
) -> Result<Candidates<M>, AllocError>
    requires spellable { IsTrue (list_all is_spellable (literals_of (expr_view expression.now))) }
    requires steps { path.steps + 1 < 2 ^ 32 }
    ensures lawful { IfOk result (λ cs. AreLawful M.stands M.terms M.asked M.Local.actions (path_view path) here.now
        (pure_fail (expr_view expression.now)) (candidates_view cs)) }
    ensures plain { M.keeps_plain → IfOk result (λ cs. StayPlain M.plain (path_view path) (pure_fail (expr_view expression.now))
        (candidates_view cs)) }
    ensures narrow { IfOk result (λ cs. StayNarrow M.terms (path_view path) (pure_fail (expr_view expression.now)) (candidates_view cs)) }
{
    let Cases { faults, good } = evaluate_in(alloc, &path.stack, expression)?;
    let mut candidates = fail_each(alloc, &path, here, &faults)?;
    match good {
        Some(good) => {
            candidates.push(fail_result(alloc, path, here, good)?)?;
            Ok(candidates)
        }
        None => Ok(candidates),
    }
}

/// The entry returns the result.
fn return_result<M: Drop>(
    alloc: Global,
    path: Path<M>,
    good: GoodCase<Term>,
) -> Result<Candidate<M>, AllocError>
    requires { path.steps + 1 < 2 ^ 32 }
    ensures { IfOk result (λ c. candidate_view c ≡ returning (path_view path) (good_view term_view good)) }
{
    let GoodCase { conds, result } = good;
    let mut path = path;
    require(alloc, &mut path.conds, &conds)?;
    assume(alloc, &mut path.given, &conds)?;
    path.steps += 1;
    path.end_as(PathEnd::Returned(result));
    Ok(Candidate {
        path,
        no_fault: Sequence::new(alloc),
    })
}

/// The frame that waits goes on with the result.
fn resume_caller<M: Drop>(
    alloc: Global,
    path: Path<M>,
    caller: Frame,
    good: GoodCase<Term>,
) -> Result<Candidate<M>, AllocError>
    requires { path.steps + 1 < 2 ^ 32 }
    ensures { IfOk result (λ c. (next : PureFrame) × (Resumes (term_view good.result) (frame_view caller) next
        × (candidate_view c ≡ resuming (path_view path) (next ∷ frames_view path.stack) (good_view term_view good)))) }
{
    let GoodCase { conds, result } = good;
    let mut path = path;
    run_in(&mut path.stack, resume(caller, result)?)?;
    proceed(alloc, path, conds)
}

/// The entry returns the result, or the frame that waits goes on with it.
fn leave<M: Drop>(
    alloc: Global,
    path: Path<M>,
    good: GoodCase<Term>,
) -> Result<Candidate<M>, AllocError>
    requires steps { path.steps + 1 < 2 ^ 32 }
    requires next { MayAdvance (frames_view path.stack) }
    ensures { IfOk result (λ c. Returns (path_view path) (frames_view path.stack) (good_view term_view good) (candidate_view c ∷ [])) }
{
    let mut path = path;
    if path.stack.len() <= 1 {
        return return_result(alloc, path, good);
    }
    let Some(_) = take(&mut path.stack) else {
        unreachable!();
    };
    let Some(caller) = take(&mut path.stack) else {
        unreachable!();
    };
    resume_caller(alloc, path, caller, good)
}

/// The candidates of `return e`.
pub fn return_candidates<M: SymMemory>(
    alloc: Global,
    path: Path<M>,
    here: &Place,
    expression: &Expr,
) -> Result<Candidates<M>, AllocError>
    requires spellable { IsTrue (list_all is_spellable (literals_of (expr_view expression.now))) }
    requires steps { path.steps + 1 < 2 ^ 32 }
    requires next { MayAdvance (frames_view path.stack) }
    ensures lawful { IfOk result (λ cs. AreLawful M.stands M.terms M.asked M.Local.actions (path_view path) here.now
        (pure_return (expr_view expression.now)) (candidates_view cs)) }
    ensures plain { M.keeps_plain → IfOk result (λ cs. StayPlain M.plain (path_view path) (pure_return (expr_view expression.now))
        (candidates_view cs)) }
    ensures narrow { IfOk result (λ cs. StayNarrow M.terms (path_view path) (pure_return (expr_view expression.now)) (candidates_view cs)) }
{
    let Cases { faults, good } = evaluate_in(alloc, &path.stack, expression)?;
    let mut candidates = fail_each(alloc, &path, here, &faults)?;
    match good {
        Some(good) => {
            candidates.push(leave(alloc, path, good)?)?;
            Ok(candidates)
        }
        None => Ok(candidates),
    }
}
