//! A checked path in a loop: each listed name has a new variable, and what the invariant leaves is kept.
ghost use Rattle.std.specs.Prelude.{◌≡◌, IfOk, OnOk};
ghost use Rattle.std.specs.Option.{option_map};
ghost use Rattle.checked_paths.specs.View.{checking_view, passed_view};
ghost use Rattle.invariant_rows.specs.Entering.{IsInLoopIfAny, OpensPath, running_next, running_with};
ghost use Rattle.sym_evaluation.specs.View.{store_view};
ghost use Rattle.sym_model.specs.Laws.{IsCopy};
ghost use Rattle.sym_paths.specs.View.{frames_view, path_view};
ghost use Rattle.sym_states.specs.View.{state_view};

use crate::passing::with_passed;
use checked_paths::{Checking, Passed, copy_facts};
use checked_rows::path_with;
use gil_syntax::{Params, Texts};
use sequence::Sequence;
use std::alloc::{AllocError, Global};
use std::mem;
use sym_evaluation::SymStore;
use sym_leaving::{run_in, take};
use sym_model::SymMemory;
use sym_paths::{Frames, Path, running};
use sym_states::{Named, SymState, with_variables};

/// Gives the frame that runs this store.
fn run_with(frames: &mut Frames, store: SymStore) -> Result<(), AllocError>
    ensures { OnOk result (frames_view frames.new ≡ running_with (store_view store) (frames_view frames.old)) }
{
    match take(frames) {
        Some(frame) => {
            let mut frame = frame;
            frame.store = store;
            run_in(frames, frame)
        }
        None => Ok(()),
    }
}

/// The index of the command at which the frame that runs stands.
pub(crate) fn index_of(frames: &Frames) -> usize
    ensures { result ≡ running_next (frames_view frames.now) }
{
    match running(frames) {
        Some(frame) => frame.next,
        None => 0,
    }
}

/// The path with a new variable for each listed name, of the sorts that are declared for it, where other names have these terms.
fn open_path<M: SymMemory>(
    alloc: Global,
    path: Path<M>,
    unlisted: SymStore,
    scope: &Params,
    listed: &Texts,
) -> Result<Option<Path<M>>, AllocError>
    ensures { IfOk result (λ o. OpensPath scope.now listed.now (store_view unlisted) (path_view path) (option_map path_view o)) }
{
    let mut path = path;
    let vars = mem::replace(&mut path.vars, Sequence::new(alloc));
    match with_variables(alloc, vars, unlisted, scope, listed)? {
        Some(named) => {
            let Named { vars, store } = named;
            path.vars = vars;
            run_with(&mut path.stack, store)?;
            Ok(Some(path))
        }
        None => Ok(None),
    }
}

/// What a state is kept as where the invariant left it.
fn passed_now<M: SymMemory>(
    alloc: Global,
    checking: &Checking<M>,
    unlisted: &SymStore,
    state: &SymState<M>,
) -> Result<Passed<M>, AllocError>
    ensures passed { IfOk result (λ q. passed_view q ≡ record {
      at = running_next (frames_view checking.now.path.stack);
      memory = q.memory;
      facts = (state_view state.now).facts;
      unlisted = store_view unlisted.now;
    }) }
    ensures memory { IfOk result (λ q. IsCopy M.stands M.terms M.depends M.plain state.now.memory q.memory) }
{
    let memory = state.memory.copy(alloc)?;
    let preds = copy_facts(alloc, &state.preds)?;
    let unlisted = unlisted.copy(alloc)?;
    Ok(Passed {
        at: index_of(&checking.path.stack),
        memory,
        preds,
        unlisted,
    })
}

/// The checked path in the loop, from what the invariant left.
pub(crate) fn in_loop<M: SymMemory>(
    alloc: Global,
    checking: &Checking<M>,
    unlisted: &SymStore,
    listed: &Texts,
    scope: &Params,
    state: SymState<M>,
) -> Result<Option<Checking<M>>, AllocError>
    ensures { IfOk result (λ o. IsInLoopIfAny M.stands M.terms scope.now listed.now (store_view unlisted.now) (checking_view checking.now)
        (state_view state) (option_map checking_view o)) }
{
    let one = passed_now(alloc, checking, unlisted, &state)?;
    let passed = with_passed(alloc, &checking.passed, one)?;
    let (path, preds) = path_with(alloc, &checking.path, state)?;
    match open_path(alloc, path, unlisted.copy(alloc)?, scope, listed)? {
        Some(path) => Ok(Some(Checking {
            path,
            preds,
            passed,
        })),
        None => Ok(None),
    }
}
