//! Blocks as a memory on which core predicates are produced and consumed.
use crate::memory::with_states;
use crate::states::BlockSym;
use core_changes::consume_chunks;
use core_production::{fixes_of_key, produce_chunks};
use core_uses::list_chunks;
use gil_values::Text;
use pure_terms::Terms;
use std::alloc::{AllocError, Global};
use sym_model::{Branches, CoreUses, Fixes, ListedMemory, SymKey};

impl ListedMemory for BlockSym {
    fn produce(
        &self,
        alloc: Global,
        core: &Text,
        ins: &Terms,
        outs: &Terms,
    ) -> Result<Branches<BlockSym>, AllocError> {
        let branches = produce_chunks(alloc, core, ins, outs, &self.chunks)?;
        with_states(alloc, branches)
    }

    fn consume(
        &self,
        alloc: Global,
        core: &Text,
        ins: &Terms,
    ) -> Result<Branches<BlockSym>, AllocError> {
        let branches = consume_chunks(alloc, core, ins, &self.chunks)?;
        with_states(alloc, branches)
    }

    fn fixes(&self, alloc: Global, key: &SymKey) -> Result<Fixes, AllocError> {
        fixes_of_key(alloc, key)
    }

    fn listing(&self, alloc: Global) -> Result<CoreUses, AllocError> {
        list_chunks(alloc, &self.chunks)
    }
}
