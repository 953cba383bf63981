//! Calls that throw.
ghost use Rattle.std.specs.Prelude.{◌≡◌, ◌∷◌, [], Some, IfOk, MatchOption, OnOk};
ghost use Rattle.pure_terms.specs.View.{term_view};
ghost use Rattle.sym_leaving.specs.Leaving.{HasFrame, IsThrown};
ghost use Rattle.sym_leaving.specs.View.{thrown_view};
ghost use Rattle.sym_paths.specs.Frames.{Catches, handling};
ghost use Rattle.sym_paths.specs.View.{frame_view, frames_view, path_view};

use crate::leaving::{resume, run_in, take};
use pure_terms::Term;
use std::alloc::{AllocError, Global};
use sym_model::SymMemory;
use sym_paths::{Frame, Frames, Path};

/// Where a throw leads. Contracts see it as its pure data, by `thrown_view`.
#[derive(Debug, Drop)]
pub enum Thrown<M> {
    /// A handler of a call took it, and the path goes on there.
    Caught(Path<M>),
    /// No call has a handler. The path has no frame.
    Uncaught(Path<M>),
}

/// A frame whose call has a handler, and the handler's label.
#[derive(Drop)]
struct Catcher {
    frame: Frame,
    label: usize,
}

/// Takes the first of the frames whose call has a handler; those before it end.
fn take_catcher(frames: &mut Frames) -> Option<Catcher>
    ensures { MatchOption result ((handling (frames_view frames.old) ≡ []) × (frames_view frames.new ≡ []))
        (λ k. (handling (frames_view frames.old) ≡ frame_view k.frame ∷ frames_view frames.new)
        × ((frame_view k.frame).handler ≡ Some k.label)) }
{
    while let Some(frame) = take(frames) {
        if let Some(label) = frame.handler {
            return Some(Catcher { frame, label });
        }
    }
    None
}

/// The frame goes on at the label of its handler, and its variable that waits gets the term.
fn catch(frames: &mut Frames, catcher: Catcher, thrown: Term) -> Result<(), AllocError>
    requires { (frame_view catcher.frame).handler ≡ Some catcher.label }
    ensures { OnOk result (Catches (term_view thrown) (frame_view catcher.frame ∷ frames_view frames.old) (frames_view frames.new)) }
{
    let Catcher { frame, label } = catcher;
    let mut frame = resume(frame, thrown)?;
    frame.next = label;
    run_in(frames, frame)
}

/// The path on which the call that runs throws the term: the first of those that wait whose call has a handler catches it. No step is
/// counted.
pub fn throw_with<M: SymMemory>(
    alloc: Global,
    path: Path<M>,
    thrown: &Term,
) -> Result<Thrown<M>, AllocError>
    requires { HasFrame (frames_view path.stack) }
    ensures { IfOk result (λ k. IsThrown M.stands M.terms (path_view path) (term_view thrown.now) (thrown_view k)) }
{
    let mut path = path;
    let Some(_) = take(&mut path.stack) else {
        unreachable!();
    };
    match take_catcher(&mut path.stack) {
        Some(catcher) => {
            catch(&mut path.stack, catcher, thrown.copy(alloc)?)?;
            Ok(Thrown::Caught(path))
        }
        None => Ok(Thrown::Uncaught(path)),
    }
}
