//! What holds of all heaps: laws of the definitions, which no code is needed for.
ghost use Rattle.mem_model.specs.Actions.{PartsAreHeaps};
ghost use Rattle.mem_model.specs.Laws.{
  KeysAreOrdered,
  JoinCommutes,
  JoinAssociates,
  JoinHasUnit,
  JoinHoldsBoth,
  CompatibleCommutes,
  JoinIsHeap,
  CompatibleAssociates,
  HeapsSplit,
  EmptyIsHeap,
  NoMemoryIsOne,
};

/// Keys are totally ordered, and only equal keys tie.
pub fn keys_are_ordered()
    ensures { KeysAreOrdered }
{}

/// The union of disjoint heaps is the same either way round.
pub fn join_is_commutative()
    ensures { JoinCommutes }
{}

/// The union of three heaps is the same however they are grouped.
pub fn join_is_associative()
    ensures { JoinAssociates }
{}

/// A heap joined with the empty heap is itself.
pub fn join_has_a_unit()
    ensures { JoinHasUnit }
{}

/// The union of disjoint heaps holds what each of them holds, and nothing else.
pub fn join_keeps_both()
    ensures { JoinHoldsBoth }
{}

/// A heap is the union of any part of it and of what is left.
pub fn heaps_split_at_parts()
    ensures { HeapsSplit }
{}

/// A part of a heap of a memory is a heap of that memory.
pub fn parts_of_heaps()
    ensures { PartsAreHeaps }
{}

/// The memory without actions keeps the laws of every memory.
pub fn no_memory_keeps_the_laws()
    ensures { NoMemoryIsOne }
{}

/// The empty heap is a heap of every memory.
pub fn empty_is_a_heap()
    ensures { EmptyIsHeap }
{}

/// Compatible heaps are so either way round.
pub fn compatible_is_symmetric()
    ensures { CompatibleCommutes }
{}

/// The union of compatible heaps of a memory is a heap of that memory.
pub fn union_is_a_heap()
    ensures { JoinIsHeap }
{}

/// What is compatible with a union is compatible with its parts.
pub fn compatible_in_any_grouping()
    ensures { CompatibleAssociates }
{}
