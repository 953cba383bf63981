//! What holds of the actions of blocks beside the laws that every memory keeps.
ghost use Rattle.mem_model.specs.declared.keys.MemoryName.TheVariants.{Block};
ghost use Rattle.mem_model.specs.Actions.{MissesWhatLacks};
ghost use Rattle.block_heap.specs.Table.{block_actions};

/// An action on blocks misses only a key that the heap lacks, and one that blocks have.
pub fn blocks_miss_what_they_lack()
    ensures { MissesWhatLacks Block block_actions }
{}
