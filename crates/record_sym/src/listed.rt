//! Records as a memory on which core predicates are produced and consumed.
ghost use Rattle.std.specs.Prelude.{◌≡◌, map, IfOk};
ghost use Rattle.record_sym.specs.View.{state_view};
ghost use Rattle.sym_chunks.specs.View.{chunk_branches_view};
ghost use Rattle.sym_chunks.specs.Wrapped.{seen};
ghost use Rattle.sym_model.specs.View.{branches_view};

use crate::states::RecordSym;
use core_changes::consume_chunks;
use core_production::{fixes_of_key, produce_chunks};
use core_uses::list_chunks;
use gil_values::Text;
use pure_terms::Terms;
use sequence::Sequence;
use std::alloc::{AllocError, Global};
use sym_model::{Branch, Branches, CoreUses, Fixes, ListedMemory, SymFrag, SymKey};

/// The branches over states of records.
fn with_states(
    alloc: Global,
    branches: Branches<SymFrag>,
) -> Result<Branches<RecordSym>, AllocError>
    ensures { IfOk result (λ bs. map (seen state_view) (branches_view bs) ≡ chunk_branches_view branches) }
{
    let mut wrapped = Sequence::new(alloc);
    for branch in branches.into_vec() {
        let Branch {
            conds,
            state,
            result,
        } = branch;
        wrapped.push(Branch {
            conds,
            state: RecordSym { chunks: state },
            result,
        })?;
    }
    Ok(wrapped)
}

impl ListedMemory for RecordSym {
    fn produce(
        &self,
        alloc: Global,
        core: &Text,
        ins: &Terms,
        outs: &Terms,
    ) -> Result<Branches<RecordSym>, AllocError> {
        let branches = produce_chunks(alloc, core, ins, outs, &self.chunks)?;
        with_states(alloc, branches)
    }

    fn consume(
        &self,
        alloc: Global,
        core: &Text,
        ins: &Terms,
    ) -> Result<Branches<RecordSym>, AllocError> {
        let branches = consume_chunks(alloc, core, ins, &self.chunks)?;
        with_states(alloc, branches)
    }

    fn fixes(&self, alloc: Global, key: &SymKey) -> Result<Fixes, AllocError> {
        fixes_of_key(alloc, key)
    }

    fn listing(&self, alloc: Global) -> Result<CoreUses, AllocError> {
        list_chunks(alloc, &self.chunks)
    }
}
