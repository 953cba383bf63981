//! States under further conditions.
ghost use Rattle.std.specs.Prelude.{◌≡◌, ◌++◌, IfOk, OnOk};
ghost use Rattle.pure_terms.specs.View.{atoms_view};
ghost use Rattle.sym_model.specs.View.{path_view};
ghost use Rattle.sym_states.specs.View.{state_view};
ghost use Rattle.footprint.specs.Spreading.{with_conds, IsCopyUnder, IsRenewed};

use pure_terms::Atoms;
use std::alloc::{AllocError, Global};
use sym_model::{ListedMemory, PathCond};
use sym_states::SymState;

/// Adds conditions at the end.
fn require(alloc: Global, conds: &mut PathCond, more: &Atoms) -> Result<(), AllocError>
    ensures { OnOk result (path_view conds.new ≡ path_view conds.old ++ atoms_view more.now) }
{
    for atom in more.as_slice() {
        conds.add(atom.copy(alloc)?)?;
    }
    Ok(())
}

/// The state under further conditions.
pub(crate) fn under<M: Drop>(
    alloc: Global,
    state: SymState<M>,
    more: &Atoms,
) -> Result<SymState<M>, AllocError>
    ensures { IfOk result (λ r. state_view r ≡ with_conds (state_view state) (atoms_view more.now)) }
{
    let mut state = state;
    require(alloc, &mut state.conds, more)?;
    Ok(state)
}

/// The state with another memory, under further conditions.
pub(crate) fn with_memory<M: Drop>(
    alloc: Global,
    state: &SymState<M>,
    memory: M,
    more: &Atoms,
) -> Result<SymState<M>, AllocError>
    ensures { IfOk result (λ r. state_view r ≡ record (with_conds (state_view state.now) (atoms_view more.now)) { memory = memory }) }
{
    let next = state.over_memory(alloc, memory)?;
    under(alloc, next, more)
}

/// A copy of the state, under further conditions.
pub(crate) fn copy_under<M: ListedMemory>(
    alloc: Global,
    state: &SymState<M>,
    more: &Atoms,
) -> Result<SymState<M>, AllocError>
    ensures { IfOk result (λ r. IsCopyUnder M.stands M.terms M.kept (state_view state.now) (atoms_view more.now) (state_view r)) }
{
    let memory = state.memory.copy(alloc)?;
    with_memory(alloc, state, memory, more)
}

/// A copy of the state under other conditions.
pub(crate) fn renewed<M: ListedMemory>(
    alloc: Global,
    state: &SymState<M>,
    conds: &Atoms,
) -> Result<SymState<M>, AllocError>
    ensures { IfOk result (λ r. IsRenewed M.stands M.terms M.kept (state_view state.now) (atoms_view conds.now) (state_view r)) }
{
    let memory = state.memory.copy(alloc)?;
    let mut fresh = PathCond::new(alloc);
    require(alloc, &mut fresh, conds)?;
    let mut next = state.over_memory(alloc, memory)?;
    next.conds = fresh;
    Ok(next)
}
