//! The invariants that frames passed.
ghost use Rattle.std.specs.Prelude.{◌≡◌, ◌++◌, ◌∷◌, IfOk};
ghost use Rattle.std.specs.Option.{option_map};
ghost use Rattle.checked_paths.specs.Meaning.{SaySame, SayTheSame};
ghost use Rattle.checked_paths.specs.View.{all_passed_view, passed_by_view, passed_view};
ghost use Rattle.invariant_rows.specs.Passing.{former_at as pure_former_at, of_running, with_one};

use checked_paths::{AllPassed, Passed, PassedByFrames, copy_all, push_copies};
use sequence::Sequence;
use std::alloc::{AllocError, Global};
use sym_model::SymMemory;

/// The latest one with an index.
fn former_at<M>(all: &AllPassed<M>, at: usize) -> Option<&Passed<M>>
    ensures { option_map (λ q. passed_view q.now) result ≡ pure_former_at at (all_passed_view all.now) }
{
    for passed in all.as_slice() {
        if passed.at == at {
            return Some(passed);
        }
    }
    None
}

/// The latest one with an index that the frame that runs passed.
pub(crate) fn former_of<M>(frames: &PassedByFrames<M>, at: usize) -> Option<&Passed<M>>
    ensures { option_map (λ q. passed_view q.now) result ≡ pure_former_at at (of_running (passed_by_view frames.now)) }
{
    match frames.get(0) {
        Some(all) => former_at(all, at),
        None => None,
    }
}

/// The first ones, and then the others.
fn joined<M: Drop>(first: AllPassed<M>, others: AllPassed<M>) -> Result<AllPassed<M>, AllocError>
    ensures { IfOk result (λ r. all_passed_view r ≡ all_passed_view first ++ all_passed_view others) }
{
    let mut joined = first;
    for passed in others.into_vec() {
        joined.push(passed)?;
    }
    Ok(joined)
}

/// One, and then copies of the others.
fn before<M: SymMemory>(
    alloc: Global,
    one: Passed<M>,
    others: &AllPassed<M>,
) -> Result<AllPassed<M>, AllocError>
    ensures { IfOk result (λ qs. SaySame M.stands M.terms (passed_view one ∷ all_passed_view others.now) (all_passed_view qs)) }
{
    let mut first = Sequence::new(alloc);
    first.push(one)?;
    joined(first, copy_all(alloc, others)?)
}

/// Copies of what frames passed, where the one that runs passed one more.
pub(crate) fn with_passed<M: SymMemory>(
    alloc: Global,
    frames: &PassedByFrames<M>,
    one: Passed<M>,
) -> Result<PassedByFrames<M>, AllocError>
    ensures { IfOk result (λ qs. SayTheSame M.stands M.terms (with_one (passed_view one) (passed_by_view frames.now)) (passed_by_view qs)) }
{
    let mut copied = Sequence::new(alloc);
    match frames.get(0) {
        Some(running) => {
            let all = frames.as_slice();
            let (_running, later) = all.split_at(1);
            copied.push(before(alloc, one, running)?)?;
            push_copies(alloc, copied, later)
        }
        None => {
            let mut first = Sequence::new(alloc);
            first.push(one)?;
            copied.push(first)?;
            Ok(copied)
        }
    }
}
