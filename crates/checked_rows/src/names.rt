//! The names in logic commands and their terms.
ghost use Rattle.std.specs.Prelude.{◌≡◌, ℕ, [], ◌++◌, List, IfOk, OnOk};
ghost use Rattle.checked_rows.specs.Names.{variables_there, logicals_there, AreNames};
ghost use Rattle.sym_evaluation.specs.Pure.{term_at};
ghost use Rattle.sym_evaluation.specs.View.{store_view};
ghost use Rattle.sym_paths.specs.View.{frames_view};

use gil_syntax::Params;
use std::alloc::{AllocError, Global};
use sym_evaluation::SymStore;
use sym_paths::{Frames, running};

/// Gives each name of a store its term there.
pub(crate) fn set_all(
    alloc: Global,
    names: &mut SymStore,
    store: &SymStore,
) -> Result<(), AllocError>
    ensures { OnOk result ((x : List ℕ)
        → term_at (store_view names.new) x ≡ term_at (store_view store.now ++ store_view names.old) x) }
{
    let bindings = store.bindings();
    for place in (0..bindings.len()).rev() {
        let binding = &bindings[place];
        let name = binding.name.copy(alloc)?;
        let term = binding.term.copy(alloc)?;
        names.set(name, term)?;
    }
    Ok(())
}

/// The variables of the precondition, in the frame of the entry.
fn variables_in(
    alloc: Global,
    frames: &Frames,
    variables: &SymStore,
) -> Result<SymStore, AllocError>
    ensures { IfOk result (λ s. store_view s ≡ variables_there (frames_view frames.now) (store_view variables.now)) }
{
    if frames.len() == 1 {
        variables.copy(alloc)
    } else {
        Ok(SymStore::new(alloc))
    }
}

/// The names of logic commands in the frame that runs: of its variables, and in the frame of the entry of the precondition's.
pub fn names_in(
    alloc: Global,
    frames: &Frames,
    variables: &SymStore,
) -> Result<SymStore, AllocError>
    ensures { IfOk result (λ s. AreNames (frames_view frames.now) (store_view variables.now) (store_view s)) }
{
    let mut names = variables_in(alloc, frames, variables)?;
    if let Some(frame) = running(frames) {
        set_all(alloc, &mut names, &frame.store)?;
    }
    Ok(names)
}

/// The logical variables that may be named there; `none` is an empty list.
pub fn logicals_in<'l>(frames: &Frames, logicals: &'l Params, none: &'l Params) -> &'l Params
    requires { none.now ≡ [] }
    ensures { result.now ≡ logicals_there (frames_view frames.now) logicals.now }
{
    if frames.len() == 1 { logicals } else { none }
}
