//! Calls that return.
ghost use Rattle.std.specs.Prelude.{◌≡◌, ◌∷◌, [], IfOk, MatchOption, OnOk};
ghost use Rattle.pure_terms.specs.View.{term_view};
ghost use Rattle.sym_leaving.specs.Leaving.{HasCaller, HandsDown, IsLeft};
ghost use Rattle.sym_paths.specs.Frames.{Resumes};
ghost use Rattle.sym_paths.specs.View.{frame_view, frames_view, path_view};

use pure_terms::Term;
use std::alloc::AllocError;
use sym_model::SymMemory;
use sym_paths::{Frame, Frames, Path};

/// Takes the frame that runs from the others.
pub fn take(frames: &mut Frames) -> Option<Frame>
    ensures { MatchOption result ((frames_view frames.old ≡ []) × (frames_view frames.new ≡ []))
        (λ f. frames_view frames.old ≡ frame_view f ∷ frames_view frames.new) }
{
    frames.pop()
}

/// Puts a frame before the others, as the one that runs.
pub fn run_in(frames: &mut Frames, frame: Frame) -> Result<(), AllocError>
    ensures { OnOk result (frames_view frames.new ≡ frame_view frame ∷ frames_view frames.old) }
{
    frames.push(frame)?;
    Ok(())
}

/// The frame goes on, and the variable that waits, if any, gets the term.
pub(crate) fn resume(frame: Frame, term: Term) -> Result<Frame, AllocError>
    ensures { IfOk result (λ f. Resumes (term_view term) (frame_view frame) (frame_view f)) }
{
    let Frame {
        proc,
        next,
        store,
        waits,
        handler,
    } = frame;
    let mut store = store;
    match waits {
        Some(name) => {
            store.set(name, term)?;
            Ok(Frame {
                proc,
                next,
                store,
                waits: None,
                handler: None,
            })
        }
        None => Ok(Frame {
            proc,
            next,
            store,
            waits: None,
            handler,
        }),
    }
}

/// The call that runs ends, and the one that waits for it goes on with the term.
fn hand_down(frames: &mut Frames, returned: Term) -> Result<(), AllocError>
    requires { HasCaller (frames_view frames.old) }
    ensures { OnOk result (HandsDown (term_view returned) (frames_view frames.old) (frames_view frames.new)) }
{
    let Some(_) = take(frames) else {
        unreachable!();
    };
    let Some(caller) = take(frames) else {
        unreachable!();
    };
    let caller = resume(caller, returned)?;
    run_in(frames, caller)
}

/// The path on which the call that runs returns the term to the one that waits for it. No step is counted.
pub fn leave_with<M: SymMemory>(path: Path<M>, returned: Term) -> Result<Path<M>, AllocError>
    requires { HasCaller (frames_view path.stack) }
    ensures { IfOk result (λ next. IsLeft M.stands M.terms (path_view path) (term_view returned) (path_view next)) }
{
    let mut path = path;
    hand_down(&mut path.stack, returned)?;
    Ok(path)
}
