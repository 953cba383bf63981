//! The memory of records.
use crate::actions::RecordAction;
use crate::table::{act_dispose, act_lookup, act_mutate, act_new};
use gil_values::{Text, Values};
use mem_model::{Failure, LocalMemory, Outcome, StoredHeap};
use std::alloc::{AllocError, Global};

/// The heap of records, whose actions are `new`, `lookup`, `mutate` and `dispose`. A lookup costs the logarithm of the
/// heap's size, and to make or dispose of a record costs no more than that for each of its names.
#[derive(Debug, Drop)]
pub struct RecordHeap {
    heap: StoredHeap,
}

impl LocalMemory for RecordHeap {
    ghost use Rattle.mem_model.specs.declared.keys.MemoryName.TheVariants.{Record};
    ghost use Rattle.mem_model.specs.Stored.{stored_heap_view};
    ghost use Rattle.record_heap.specs.Table.{record_actions};
    ghost use Rattle.record_heap.specs.RecordLaws.{record_is_memory};

    ghost heap = { λ m. stored_heap_view m.heap };

    ghost memory = { Record };

    ghost actions = { record_actions };

    ghost laws = { record_is_memory };

    fn empty(alloc: Global) -> Result<RecordHeap, AllocError> {
        Ok(RecordHeap {
            heap: StoredHeap::new(alloc),
        })
    }

    fn fresh_for(action: &Text) -> bool {
        match RecordAction::from_name(action) {
            Some(action) => action.takes_symbol(),
            None => false,
        }
    }

    fn act(
        &mut self,
        alloc: Global,
        action: &Text,
        fresh: Option<u64>,
        args: &Values,
    ) -> Result<Outcome, AllocError> {
        match RecordAction::from_name(action) {
            Some(RecordAction::New) => act_new(&mut self.heap, alloc, fresh, args),
            Some(RecordAction::Lookup) => act_lookup(&self.heap, alloc, args),
            Some(RecordAction::Mutate) => act_mutate(&mut self.heap, alloc, args),
            Some(RecordAction::Dispose) => act_dispose(&mut self.heap, alloc, args),
            None => Failure::Action.outcome(alloc),
        }
    }
}
