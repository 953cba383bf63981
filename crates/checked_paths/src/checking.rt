//! Checked paths.
ghost use Rattle.std.specs.Prelude.{◌≡◌, ◌++◌, IfOk};
ghost use Rattle.checked_paths.specs.Meaning.{kept_by, SaySame, SayTheSame};
ghost use Rattle.checked_paths.specs.View.{all_passed_view, passed_by_view, passed_view};
ghost use Rattle.sym_model.specs.Laws.{IsCopy};
ghost use Rattle.sym_states.specs.View.{facts_view};

use pure_terms::Terms;
use sequence::Sequence;
use std::alloc::{AllocError, Global};
use sym_evaluation::SymStore;
use sym_model::SymMemory;
use sym_paths::Path;
use sym_states::PredChunks;

/// The terms with which a specification is entered: of its parameters, and of the variables that its precondition names. Contracts see
/// it as its pure data, by `entry_view`.
#[derive(Debug, Drop)]
pub struct Entered {
    pub args: Terms,
    pub variables: SymStore,
}

/// An invariant that a frame passed. Contracts see it as its pure data, by `passed_view`.
#[derive(Debug)]
pub struct Passed<M> {
    /// The index of the invariant in its procedure.
    pub at: usize,
    /// What it left of the memory.
    pub memory: M,
    /// What it left of the facts.
    pub preds: PredChunks,
    /// The terms of the variables that it doesn't list.
    pub unlisted: SymStore,
}

// Written out, so that code which may drop one calls this, and isn't made longer by it.
impl<M: Drop> Drop for Passed<M> {
    fn drop(self) {
        let Passed {
            at: _,
            memory: _,
            preds: _,
            unlisted: _,
        } = self;
    }
}

/// The invariants that a frame passed, the latest first. Contracts see them by `all_passed_view`.
pub type AllPassed<M> = Sequence<Passed<M>>;

/// Those of each frame, the latest frame first. Contracts see them by `passed_by_view`.
pub type PassedByFrames<M> = Sequence<AllPassed<M>>;

/// A checked path: a path beside facts, and for each frame the invariants that it passed. Contracts see it as its pure data over the
/// memory's states, by `checking_view`.
#[derive(Debug)]
pub struct Checking<M> {
    pub path: Path<M>,
    pub preds: PredChunks,
    pub passed: PassedByFrames<M>,
}

// Written out, so that code which may drop a checked path calls this, and isn't made longer by it.
impl<M: Drop> Drop for Checking<M> {
    fn drop(self) {
        let Checking {
            path: _,
            preds: _,
            passed: _,
        } = self;
    }
}

impl<M: Drop> Checking<M> {
    /// The path, the facts and the passed invariants.
    pub fn into_parts(self) -> (Path<M>, PredChunks, PassedByFrames<M>)
        ensures path { result.0 ≡ self.path }
        ensures preds { result.1 ≡ self.preds }
        ensures passed { result.2 ≡ self.passed }
    {
        let Checking {
            path,
            preds,
            passed,
        } = self;
        (path, preds, passed)
    }
}

/// Equal facts.
pub fn copy_facts(alloc: Global, facts: &PredChunks) -> Result<PredChunks, AllocError>
    ensures { IfOk result (λ cs. facts_view cs ≡ facts_view facts.now) }
{
    let mut copied = Sequence::new(alloc);
    for fact in facts.as_slice() {
        copied.push(fact.copy(alloc)?)?;
    }
    Ok(copied)
}

impl<M: SymMemory> Passed<M> {
    /// An invariant that is equal but for its memory, which stands for the same heaps.
    pub fn copy(&self, alloc: Global) -> Result<Passed<M>, AllocError>
        ensures passed { IfOk result (λ q. passed_view q ≡ record (passed_view self.now) { memory = q.memory }) }
        ensures memory { IfOk result (λ q. IsCopy M.stands M.terms M.depends M.plain self.now.memory q.memory) }
    {
        let memory = self.memory.copy(alloc)?;
        let preds = copy_facts(alloc, &self.preds)?;
        let unlisted = self.unlisted.copy(alloc)?;
        Ok(Passed {
            at: self.at,
            memory,
            preds,
            unlisted,
        })
    }
}

/// Copies of the invariants that a frame passed.
pub fn copy_all<M: SymMemory>(alloc: Global, all: &AllPassed<M>) -> Result<AllPassed<M>, AllocError>
    ensures { IfOk result (λ qs. SaySame M.stands M.terms (all_passed_view all.now) (all_passed_view qs)) }
{
    let mut copied = Sequence::new(alloc);
    for passed in all.as_slice() {
        copied.push(passed.copy(alloc)?)?;
    }
    Ok(copied)
}

/// The frames with copies of others behind them.
pub fn push_copies<M: SymMemory>(
    alloc: Global,
    frames: PassedByFrames<M>,
    others: &[AllPassed<M>],
) -> Result<PassedByFrames<M>, AllocError>
    ensures { IfOk result (λ qs. SayTheSame M.stands M.terms (passed_by_view frames ++ passed_by_view others.now) (passed_by_view qs)) }
{
    let mut copied = frames;
    for all in others {
        copied.push(copy_all(alloc, all)?)?;
    }
    Ok(copied)
}

/// Copies of what is kept of passed invariants where there are so many frames.
pub fn passed_for<M: SymMemory>(
    alloc: Global,
    passed: &PassedByFrames<M>,
    frames: usize,
) -> Result<PassedByFrames<M>, AllocError>
    ensures { IfOk result (λ qs. SayTheSame M.stands M.terms (kept_by frames (passed_by_view passed.now)) (passed_by_view qs)) }
{
    let mut kept = Sequence::new(alloc);
    let all = passed.as_slice();
    if all.len() < frames {
        kept.push(Sequence::new(alloc))?;
        push_copies(alloc, kept, all)
    } else {
        let (_ended, kept_frames) = all.split_at(all.len() - frames);
        push_copies(alloc, kept, kept_frames)
    }
}
