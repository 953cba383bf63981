//! The frames of a path as a step changes them.
ghost use Rattle.std.specs.Prelude.{◌≡◌, ◌+◌, ◌<◌, ◌^◌, [], ◌∷◌, None, Some, IfOk, MatchOption, OnOk};
ghost use Rattle.pure_terms.specs.View.{term_view};
ghost use Rattle.sym_engine.specs.Lawful.{MayAdvance};
ghost use Rattle.sym_evaluation.specs.Pure.{PureStore};
ghost use Rattle.sym_evaluation.specs.View.{store_view};
ghost use Rattle.sym_paths.specs.Laws.{IsBound};
ghost use Rattle.sym_paths.specs.Moves.{running_store, advanced};
ghost use Rattle.sym_paths.specs.View.{frame_view, frames_view};
ghost use Rattle.sym_paths.specs.Calls.{waiting};
ghost use Rattle.sym_paths.specs.Guards.{at_label};
ghost use Rattle.sym_paths.specs.Returns.{Resumes};

use gil_values::Text;
use pure_terms::Term;
use std::alloc::{AllocError, Global};
use sym_evaluation::SymStore;
use sym_paths::{Frame, Frames, running};

/// Takes the frame that runs from the others.
pub(crate) fn take(frames: &mut Frames) -> Option<Frame>
    ensures { MatchOption result ((frames_view frames.old ≡ []) × (frames_view frames.new ≡ []))
        (λ f. frames_view frames.old ≡ frame_view f ∷ frames_view frames.new) }
{
    frames.pop()
}

/// Puts a frame before the others, as the one that runs.
pub(crate) fn run_in(frames: &mut Frames, frame: Frame) -> Result<(), AllocError>
    ensures { OnOk result (frames_view frames.new ≡ frame_view frame ∷ frames_view frames.old) }
{
    frames.push(frame)?;
    Ok(())
}

/// The store of the frame that runs, or this one, which is empty, where there is no frame.
pub(crate) fn store_in<'f>(frames: &'f Frames, empty: &'f SymStore) -> &'f SymStore
    requires { store_view empty.now ≡ [] }
    ensures { store_view result.now ≡ running_store (frames_view frames.now) }
{
    match running(frames) {
        Some(frame) => &frame.store,
        None => empty,
    }
}

/// The frame that runs goes to the next command.
pub(crate) fn advance(frames: &mut Frames) -> Result<(), AllocError>
    requires { MayAdvance (frames_view frames.old) }
    ensures { OnOk result (frames_view frames.new ≡ advanced (running_store (frames_view frames.old)) (frames_view frames.old)) }
{
    match take(frames) {
        Some(running) => {
            let mut running = running;
            running.next += 1;
            run_in(frames, running)
        }
        None => unreachable!(),
    }
}

/// The same, where a variable gets a term.
pub(crate) fn assign(
    alloc: Global,
    frames: &mut Frames,
    name: &Text,
    term: Term,
) -> Result<(), AllocError>
    requires { MayAdvance (frames_view frames.old) }
    ensures { OnOk result ((bs : PureStore) × (IsBound (running_store (frames_view frames.old)) name.now (term_view term) bs
        × (frames_view frames.new ≡ advanced bs (frames_view frames.old)))) }
{
    match take(frames) {
        Some(running) => {
            let mut running = running;
            running.store.set(name.copy(alloc)?, term)?;
            running.next += 1;
            run_in(frames, running)
        }
        None => unreachable!(),
    }
}

/// The frame that runs goes to the command with an index, and stays where the label is below 0.
pub(crate) fn go_to(frames: &mut Frames, label: &i64) -> Result<(), AllocError>
    ensures { OnOk result (frames_view frames.new ≡ at_label label.now (frames_view frames.old)) }
{
    match take(frames) {
        Some(running) => {
            let mut running = running;
            if let Ok(next) = usize::try_from(*label) {
                running.next = next;
            }
            run_in(frames, running)
        }
        None => Ok(()),
    }
}

/// The frame that runs goes to the next command, and a variable of it waits for a call, which may have a handler.
pub(crate) fn wait(
    alloc: Global,
    frames: &mut Frames,
    name: &Text,
    handler: Option<usize>,
) -> Result<(), AllocError>
    requires { MayAdvance (frames_view frames.old) }
    ensures { OnOk result (frames_view frames.new ≡ waiting name.now handler (frames_view frames.old)) }
{
    match take(frames) {
        Some(running) => {
            let mut running = running;
            running.waits = Some(name.copy(alloc)?);
            running.handler = handler;
            running.next += 1;
            run_in(frames, running)
        }
        None => unreachable!(),
    }
}

/// The frame goes on, and the variable that waits, if any, gets the term.
pub(crate) fn resume(frame: Frame, term: Term) -> Result<Frame, AllocError>
    ensures { IfOk result (λ f. Resumes (term_view term) (frame_view frame) (frame_view f)) }
{
    let Frame {
        proc,
        next,
        store,
        waits,
        handler,
    } = frame;
    let mut store = store;
    match waits {
        Some(name) => {
            store.set(name, term)?;
            Ok(Frame {
                proc,
                next,
                store,
                waits: None,
                handler: None,
            })
        }
        None => Ok(Frame {
            proc,
            next,
            store,
            waits: None,
            handler,
        }),
    }
}
