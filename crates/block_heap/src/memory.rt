//! The memory of blocks.
use crate::actions::BlockAction;
use crate::table::{act_alloc, act_free, act_load, act_store};
use gil_values::{Text, Values};
use mem_model::{Failure, LocalMemory, Outcome, StoredHeap};
use std::alloc::{AllocError, Global};

/// The heap of blocks, whose actions are `alloc`, `load`, `store` and `free`. A load or a store costs the logarithm of the
/// heap's size, and to make or free a block costs no more than that for each of its cells.
#[derive(Debug, Drop)]
pub struct BlockHeap {
    heap: StoredHeap,
}

impl LocalMemory for BlockHeap {
    ghost use Rattle.mem_model.specs.declared.keys.MemoryName.TheVariants.{Block};
    ghost use Rattle.mem_model.specs.Stored.{stored_heap_view};
    ghost use Rattle.block_heap.specs.Table.{block_actions};
    ghost use Rattle.block_heap.specs.BlockLaws.{block_is_memory};

    ghost heap = { λ m. stored_heap_view m.heap };

    ghost memory = { Block };

    ghost actions = { block_actions };

    ghost laws = { block_is_memory };

    fn empty(alloc: Global) -> Result<BlockHeap, AllocError> {
        Ok(BlockHeap {
            heap: StoredHeap::new(alloc),
        })
    }

    fn fresh_for(action: &Text) -> bool {
        match BlockAction::from_name(action) {
            Some(action) => action.takes_symbol(),
            None => false,
        }
    }

    fn act(
        &mut self,
        alloc: Global,
        action: &Text,
        fresh: Option<u64>,
        args: &Values,
    ) -> Result<Outcome, AllocError> {
        match BlockAction::from_name(action) {
            Some(BlockAction::Alloc) => act_alloc(&mut self.heap, alloc, fresh, args),
            Some(BlockAction::Load) => act_load(&self.heap, alloc, args),
            Some(BlockAction::Store) => act_store(&mut self.heap, alloc, args),
            Some(BlockAction::Free) => act_free(&mut self.heap, alloc, args),
            None => Failure::Action.outcome(alloc),
        }
    }
}
