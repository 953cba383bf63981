//! Taking a fact out of a state.
ghost use Rattle.std.specs.Prelude.{◌≡◌, ◌++◌, ◌+◌, ◌<◌, length, map, take, drop, IfOk, OnOk};
ghost use Rattle.pure_terms.specs.View.{atoms_view};
ghost use Rattle.sym_model.specs.View.{path_view};
ghost use Rattle.sym_states.specs.View.{fact_view, facts_view, state_view};
ghost use Rattle.sym_unfolding.specs.Taking.{TakesOut, IsOverAgain};
ghost use Rattle.sym_unfolding.specs.View.{found_view};

use crate::searching::FoundAt;
use pure_terms::Atoms;
use sequence::Sequence;
use std::alloc::{AllocError, Global};
use sym_model::{ListedMemory, PathCond};
use sym_states::{PredChunk, PredChunks, SymState};

/// Adds equal facts at the end.
fn copy_facts(
    alloc: Global,
    before: PredChunks,
    facts: &[PredChunk],
) -> Result<PredChunks, AllocError>
    ensures { IfOk result (λ r. facts_view r ≡ facts_view before ++ map fact_view facts.now) }
{
    let mut copied = before;
    for fact in facts {
        copied.push(fact.copy(alloc)?)?;
    }
    Ok(copied)
}

/// The facts beside the one at a place.
fn others(alloc: Global, facts: &PredChunks, place: usize) -> Result<PredChunks, AllocError>
    requires { place < length facts.now }
    ensures { IfOk result (λ r. facts_view r ≡ take place (facts_view facts.now) ++ drop (place + 1) (facts_view facts.now)) }
{
    let items = facts.as_slice();
    let before = copy_facts(alloc, Sequence::new(alloc), &items[..place])?;
    copy_facts(alloc, before, &items[place + 1..])
}

/// Adds conditions at the end.
pub(crate) fn require(alloc: Global, conds: &mut PathCond, more: &Atoms) -> Result<(), AllocError>
    ensures { OnOk result (path_view conds.new ≡ path_view conds.old ++ atoms_view more.now) }
{
    for atom in more.as_slice() {
        conds.add(atom.copy(alloc)?)?;
    }
    Ok(())
}

/// An equal state, but for its memory, which stands for the same heaps.
pub(crate) fn copy_state<M: ListedMemory>(
    alloc: Global,
    state: &SymState<M>,
) -> Result<SymState<M>, AllocError>
    ensures { IfOk result (λ r. IsOverAgain M.stands M.terms M.kept (state_view state.now) (state_view r)) }
{
    let memory = state.memory.copy(alloc)?;
    state.over_memory(alloc, memory)
}

/// The state without the fact at a place, under the conditions with which it was found.
pub(crate) fn take_out<M: ListedMemory>(
    alloc: Global,
    state: &SymState<M>,
    found: &FoundAt,
) -> Result<SymState<M>, AllocError>
    requires { (found_view found.now).place < length state.now.preds }
    ensures { IfOk result (λ r. TakesOut M.stands M.terms M.kept (found_view found.now) (state_view state.now) (state_view r)) }
{
    let mut left = copy_state(alloc, state)?;
    left.preds = others(alloc, &state.preds, found.place)?;
    require(alloc, &mut left.conds, &found.conds)?;
    Ok(left)
}
