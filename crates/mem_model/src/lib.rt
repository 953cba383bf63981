//! What a memory is: heaps over keys, what actions do to them, and the laws that every memory keeps. The definitions
//! stand in `specs/`; the functions of `laws` have no code, and their contracts are what is proved of the definitions.
#![tactic(auto)]

pub mod arguments;
mod cores;
mod failures;
mod keys;
mod laws;
mod locations;
mod memory;
pub mod names;
mod order;
mod rows;
mod stored;

pub use cores::{Core, cores_stand_for_keys, one_key_more_is_a_heap, one_key_more_is_a_union};
pub use failures::Failure;
pub use keys::{Key, MemoryName, Sub};
pub use laws::{
    compatible_in_any_grouping, compatible_is_symmetric, empty_is_a_heap, heaps_split_at_parts,
    join_has_a_unit, join_is_associative, join_is_commutative, join_keeps_both, keys_are_ordered,
    no_memory_keeps_the_laws, parts_of_heaps, union_is_a_heap,
};
pub use memory::{LocalMemory, Outcome};
pub use rows::{memories_have_their_own_subkeys, some_heaps_are_not, some_heaps_are_well_formed};
pub use stored::StoredHeap;
