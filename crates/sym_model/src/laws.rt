//! What holds of lists of chunks and of asking: laws of the definitions, which no code is needed for.
ghost use Rattle.sym_model.specs.ChunkLaws.{ChunksAreMeaning, UnionsChange, NothingAskedGivesNoCondition, ServingMayAct};

use crate::memory::SymMemory;

/// Lists of chunks have a meaning, whatever the memory.
pub fn chunks_have_a_meaning()
    ensures { ChunksAreMeaning }
{}

/// What a union of chunks holds, and how it changes where a chunk is changed, taken out or added.
pub fn unions_change()
    ensures { UnionsChange }
{}

/// Where nothing is asked about, a memory may give no condition.
pub fn nothing_asked_gives_no_condition()
    ensures { NothingAskedGivesNoCondition }
{}

/// Where a valuation serves, the concrete action may be asked of the heap and the values that it gives.
pub fn serving_valuations_may_act<M: SymMemory>()
    ensures { ServingMayAct M.stands M.terms M.Local.actions }
{}
