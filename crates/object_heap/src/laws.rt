//! What holds of the actions of objects beside the laws that every memory keeps.
ghost use Rattle.mem_model.specs.declared.keys.MemoryName.TheVariants.{Object};
ghost use Rattle.mem_model.specs.Actions.{MissesWhatLacks};
ghost use Rattle.object_heap.specs.Table.{object_actions};

/// An action on objects misses only a key that the heap lacks, and one that objects have.
pub fn objects_miss_what_they_lack()
    ensures { MissesWhatLacks Object object_actions }
{}
