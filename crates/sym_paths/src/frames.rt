//! Calls in progress.
ghost use Rattle.std.specs.Prelude.{◌≡◌, List, [], ◌∷◌, length, map, IfOk, MatchOption};
ghost use Rattle.gil_syntax.specs.View.{proc_view};
ghost use Rattle.pure_terms.specs.View.{term_view};
ghost use Rattle.sym_evaluation.specs.Pure.{PureStore};
ghost use Rattle.sym_evaluation.specs.View.{store_view};
ghost use Rattle.sym_paths.specs.Frames.{IsFirstStore, called_frame};
ghost use Rattle.sym_paths.specs.Pure.{entry_frame, PureFrame};
ghost use Rattle.sym_paths.specs.View.{frame_view, frames_view};

use gil_syntax::Proc;
use gil_values::Text;
use pure_terms::Term;
use sequence::Sequence;
use std::alloc::{AllocError, Global};
use sym_evaluation::SymStore;

/// A call in progress. Contracts see it as its pure data, by `frame_view`.
#[derive(Debug, Drop)]
pub struct Frame {
    pub proc: Text,
    /// The index of the command at which the call stands.
    pub next: usize,
    pub store: SymStore,
    /// The variable that waits for the result of the call that this one made.
    pub waits: Option<Text>,
    /// The label at which this one goes on where that call throws.
    pub handler: Option<usize>,
}

/// The call that runs, which is the last one, and those that wait for it. Contracts see them by `frames_view`, which begins with
/// the call that runs.
pub type Frames = Sequence<Frame>;

impl Frame {
    /// The frame of a procedure that begins with arguments for its parameters.
    pub fn begin(alloc: Global, proc: &Proc, args: &[Term]) -> Result<Frame, AllocError>
        requires { length args.now ≡ length (proc_view proc.now).params }
        ensures { IfOk result (λ f. (bs : PureStore) × (IsFirstStore (proc_view proc.now).params (map term_view args.now) bs
            × (frame_view f ≡ called_frame (proc_view proc.now) bs))) }
    {
        let next = 0;
        Ok(Frame {
            proc: proc.name.copy(alloc)?,
            next,
            store: first_store(alloc, proc.params.as_slice(), args)?,
            waits: None,
            handler: None,
        })
    }

    /// An equal frame.
    pub fn copy(&self, alloc: Global) -> Result<Frame, AllocError>
        ensures { IfOk result (λ f. frame_view f ≡ frame_view self.now) }
    {
        let proc = self.proc.copy(alloc)?;
        let store = self.store.copy(alloc)?;
        let waits = copy_name(alloc, &self.waits)?;
        Ok(Frame {
            proc,
            next: self.next,
            store,
            waits,
            handler: self.handler,
        })
    }
}

/// The store of a call that begins.
fn first_store(alloc: Global, params: &[Text], args: &[Term]) -> Result<SymStore, AllocError>
    requires { length args.now ≡ length params.now }
    ensures { IfOk result (λ s. IsFirstStore params.now (map term_view args.now) (store_view s)) }
{
    let mut store = SymStore::new(alloc);
    for place in (0..args.len()).rev() {
        let term = args[place].copy(alloc)?;
        store.set(params[place].copy(alloc)?, term)?;
    }
    Ok(store)
}

fn copy_name(alloc: Global, name: &Option<Text>) -> Result<Option<Text>, AllocError>
    ensures { IfOk result (λ n. n ≡ name.now) }
{
    match name {
        Some(name) => Ok(Some(name.copy(alloc)?)),
        None => Ok(None),
    }
}

/// The call that runs.
pub fn running(frames: &Frames) -> Option<&Frame>
    ensures { MatchOption result (frames_view frames.now ≡ [])
        (λ f. (waiting : List PureFrame) × (frames_view frames.now ≡ frame_view f.now ∷ waiting)) }
{
    match frames.as_slice() {
        [.., running] => Some(running),
        [] => None,
    }
}

/// The frame of a procedure without parameters that begins.
pub(crate) fn first_frames(alloc: Global, proc: &Text) -> Result<Frames, AllocError>
    ensures { IfOk result (λ fs. frames_view fs ≡ entry_frame proc.now ∷ []) }
{
    let mut frames = Sequence::new(alloc);
    frames.push(Frame {
        proc: proc.copy(alloc)?,
        next: 0,
        store: SymStore::new(alloc),
        waits: None,
        handler: None,
    })?;
    Ok(frames)
}

/// The frame of a procedure that begins with arguments.
pub(crate) fn beginning_frames(
    alloc: Global,
    proc: &Proc,
    args: &[Term],
) -> Result<Frames, AllocError>
    requires { length args.now ≡ length (proc_view proc.now).params }
    ensures { IfOk result (λ fs. (bs : PureStore) × (IsFirstStore (proc_view proc.now).params (map term_view args.now) bs
        × (frames_view fs ≡ called_frame (proc_view proc.now) bs ∷ []))) }
{
    let mut frames = Sequence::new(alloc);
    frames.push(Frame::begin(alloc, proc, args)?)?;
    Ok(frames)
}

/// Equal frames.
pub(crate) fn copy_frames(alloc: Global, frames: &Frames) -> Result<Frames, AllocError>
    ensures { IfOk result (λ fs. frames_view fs ≡ frames_view frames.now) }
{
    let mut copied = Sequence::new(alloc);
    for frame in frames.as_slice() {
        copied.push(frame.copy(alloc)?)?;
    }
    Ok(copied)
}
