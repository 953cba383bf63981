//! Rows that show which heaps are well formed: for each rule a heap that keeps it, and one that breaks it alone.
ghost use Rattle.std.specs.FinMap.{from_entries};
ghost use Rattle.mem_model.specs.declared.keys.MemoryName.TheVariants.{Record, Block, Object};
ghost use Rattle.mem_model.specs.Heaps.{IsWellFormed, IsHeapOf};
ghost use Rattle.mem_model.specs.Rows.{
  a_record,
  a_block,
  an_object,
  cells_alone,
  gone_beside_a_record,
  gone_and_a_name,
  gone_is_false,
  shape_is_a_number,
  shape_of_numbers,
  names_twice,
  name_outside_shape,
  name_outside_dom,
  bound_is_true,
  cell_at_the_bound,
  cell_below_zero,
  record_and_block,
};

/// Of each memory there are heaps with keys.
pub fn some_heaps_are_well_formed()
    ensures of_records { IsHeapOf Record (from_entries a_record) }
    ensures of_blocks { IsHeapOf Block (from_entries a_block) }
    ensures of_objects { IsHeapOf Object (from_entries an_object) }
    ensures unbounded { IsHeapOf Block (from_entries cells_alone) }
    ensures gone { IsHeapOf Record (from_entries gone_beside_a_record) }
{}

/// What a location's keys say must fit together.
pub fn some_heaps_are_not()
    ensures gone_alone { ¬ IsWellFormed (from_entries gone_and_a_name) }
    ensures gone_is_true { ¬ IsWellFormed (from_entries gone_is_false) }
    ensures shape_is_a_list { ¬ IsWellFormed (from_entries shape_is_a_number) }
    ensures shape_has_texts { ¬ IsWellFormed (from_entries shape_of_numbers) }
    ensures names_are_distinct { ¬ IsWellFormed (from_entries names_twice) }
    ensures names_of_records { ¬ IsWellFormed (from_entries name_outside_shape) }
    ensures names_of_objects { ¬ IsWellFormed (from_entries name_outside_dom) }
    ensures bound_is_a_number { ¬ IsWellFormed (from_entries bound_is_true) }
    ensures cells_below_the_bound { ¬ IsWellFormed (from_entries cell_at_the_bound) }
    ensures cells_from_zero { ¬ IsWellFormed (from_entries cell_below_zero) }
    ensures one_descriptor { ¬ IsWellFormed (from_entries record_and_block) }
{}

/// The subkeys of other memories are in no heap of a memory.
pub fn memories_have_their_own_subkeys()
    ensures blocks { ¬ IsHeapOf Record (from_entries a_block) }
    ensures objects { ¬ IsHeapOf Record (from_entries an_object) }
    ensures records { ¬ IsHeapOf Block (from_entries a_record) }
    ensures gone { ¬ IsHeapOf Object (from_entries gone_beside_a_record) }
{}
