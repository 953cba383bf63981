//! The candidates of `throw`.
ghost use Rattle.std.specs.Prelude.{◌≡◌, ◌+◌, ◌<◌, ◌^◌, [], ◌∷◌, Some, IfOk, IsTrue, MatchOption};
ghost use Rattle.std.specs.List.{list_all};
ghost use Rattle.gil_syntax.specs.Pure.{throw as pure_throw};
ghost use Rattle.gil_syntax.specs.Subexpressions.{literals_of};
ghost use Rattle.gil_syntax.specs.View.{expr_view};
ghost use Rattle.gil_syntax.specs.WellMade.{is_spellable};
ghost use Rattle.pure_terms.specs.View.{term_view};
ghost use Rattle.sym_paths.specs.Returns.{Resumes, resuming};
ghost use Rattle.sym_paths.specs.Throws.{Throws, handling, throwing};
ghost use Rattle.sym_engine.specs.Lawful.{AreLawful, MayAdvance};
ghost use Rattle.sym_engine.specs.Narrow.{StayNarrow};
ghost use Rattle.sym_engine.specs.Plain.{StayPlain};
ghost use Rattle.sym_engine.specs.View.{candidate_view, candidates_view};
ghost use Rattle.sym_evaluation.specs.View.{good_view};
ghost use Rattle.sym_paths.specs.Pure.{PureFrame};
ghost use Rattle.sym_paths.specs.View.{frame_view, frames_view, path_view};

use crate::candidates::{Candidate, Candidates, assume, copy_place, proceed, require};
use crate::frames::{resume, run_in, take};
use crate::valued::{evaluate_in, fail_each};
use gil_syntax::Expr;
use gil_values::Place;
use pure_terms::Term;
use sequence::Sequence;
use std::alloc::{AllocError, Global};
use sym_evaluation::{Cases, GoodCase};
use sym_model::SymMemory;
use sym_paths::{Frame, Frames, Path, PathEnd};

/// A frame whose call has a handler, and the handler's label.
#[derive(Drop)]
struct Catcher {
    frame: Frame,
    label: usize,
}

/// Takes the first of the frames whose call has a handler; those before it end.
fn take_catcher(frames: &mut Frames) -> Option<Catcher>
    ensures { MatchOption result ((handling (frames_view frames.old) ≡ []) × (frames_view frames.new ≡ []))
        (λ k. (handling (frames_view frames.old) ≡ frame_view k.frame ∷ frames_view frames.new)
        × ((frame_view k.frame).handler ≡ Some k.label)) }
{
    while let Some(frame) = take(frames) {
        if let Some(label) = frame.handler {
            return Some(Catcher { frame, label });
        }
    }
    None
}

/// The frame goes on with the result at the label.
fn catch_result<M: Drop>(
    alloc: Global,
    path: Path<M>,
    catcher: Catcher,
    good: GoodCase<Term>,
) -> Result<Candidate<M>, AllocError>
    requires { path.steps + 1 < 2 ^ 32 }
    ensures { IfOk result (λ c. (r : PureFrame) × (Resumes (term_view good.result) (frame_view catcher.frame) r
        × (candidate_view c ≡ resuming (path_view path) (record r { next = catcher.label } ∷ frames_view path.stack)
        (good_view term_view good)))) }
{
    let GoodCase { conds, result } = good;
    let Catcher { frame, label } = catcher;
    let mut frame = resume(frame, result)?;
    frame.next = label;
    let mut path = path;
    run_in(&mut path.stack, frame)?;
    proceed(alloc, path, conds)
}

/// Nothing catches the result, and no frame is left.
fn end_thrown<M: Drop>(
    alloc: Global,
    path: Path<M>,
    here: &Place,
    good: GoodCase<Term>,
) -> Result<Candidate<M>, AllocError>
    requires steps { path.steps + 1 < 2 ^ 32 }
    requires none { frames_view path.stack ≡ [] }
    ensures { IfOk result (λ c. candidate_view c ≡ throwing (path_view path) here.now (good_view term_view good)) }
{
    let GoodCase { conds, result } = good;
    let here = copy_place(alloc, here)?;
    let mut path = path;
    require(alloc, &mut path.conds, &conds)?;
    assume(alloc, &mut path.given, &conds)?;
    path.steps += 1;
    path.end_as(PathEnd::Threw(result, here));
    Ok(Candidate {
        path,
        no_fault: Sequence::new(alloc),
    })
}

/// The first of the callers whose call has a handler goes on with the result, or the path ends.
fn throw_result<M: Drop>(
    alloc: Global,
    path: Path<M>,
    here: &Place,
    good: GoodCase<Term>,
) -> Result<Candidate<M>, AllocError>
    requires steps { path.steps + 1 < 2 ^ 32 }
    requires next { MayAdvance (frames_view path.stack) }
    ensures { IfOk result (λ c. Throws (path_view path) here.now (frames_view path.stack) (good_view term_view good)
        (candidate_view c ∷ [])) }
{
    let mut path = path;
    let Some(_) = take(&mut path.stack) else {
        unreachable!();
    };
    match take_catcher(&mut path.stack) {
        Some(catcher) => catch_result(alloc, path, catcher, good),
        None => end_thrown(alloc, path, here, good),
    }
}

/// The candidates of `throw e`.
pub fn throw_candidates<M: SymMemory>(
    alloc: Global,
    path: Path<M>,
    here: &Place,
    expression: &Expr,
) -> Result<Candidates<M>, AllocError>
    requires spellable { IsTrue (list_all is_spellable (literals_of (expr_view expression.now))) }
    requires steps { path.steps + 1 < 2 ^ 32 }
    requires next { MayAdvance (frames_view path.stack) }
    ensures lawful { IfOk result (λ cs. AreLawful M.stands M.terms M.asked M.Local.actions (path_view path) here.now
        (pure_throw (expr_view expression.now)) (candidates_view cs)) }
    ensures plain { M.keeps_plain → IfOk result (λ cs. StayPlain M.plain (path_view path) (pure_throw (expr_view expression.now))
        (candidates_view cs)) }
    ensures narrow { IfOk result (λ cs. StayNarrow M.terms (path_view path) (pure_throw (expr_view expression.now)) (candidates_view cs)) }
{
    let Cases { faults, good } = evaluate_in(alloc, &path.stack, expression)?;
    let mut candidates = fail_each(alloc, &path, here, &faults)?;
    match good {
        Some(good) => {
            candidates.push(throw_result(alloc, path, here, good)?)?;
            Ok(candidates)
        }
        None => Ok(candidates),
    }
}
