//! What holds of the actions of records beside the laws that every memory keeps.
ghost use Rattle.mem_model.specs.declared.keys.MemoryName.TheVariants.{Record};
ghost use Rattle.mem_model.specs.Actions.{MissesWhatLacks};
ghost use Rattle.record_heap.specs.Table.{record_actions};

/// An action on records misses only a key that the heap lacks, and one that records have.
pub fn records_miss_what_they_lack()
    ensures { MissesWhatLacks Record record_actions }
{}
