//! The symbolic memory of blocks.
ghost use Rattle.std.specs.Prelude.{◌≡◌, IfOk};
ghost use Rattle.block_sym.specs.View.{block_branches_view};
ghost use Rattle.sym_chunks.specs.View.{chunk_branches_view};

use crate::states::BlockSym;
use crate::table::branches;
use block_heap::BlockHeap;
use gil_values::Text;
use mem_model::MemoryName;
use pure_terms::{Terms, Var};
use sequence::Sequence;
use std::alloc::{AllocError, Global};
use sym_model::{Branch, Branches, SymFrag, SymMemory};

/// The branches over states of blocks.
pub(crate) fn with_states(
    alloc: Global,
    branches: Branches<SymFrag>,
) -> Result<Branches<BlockSym>, AllocError>
    ensures { IfOk result (λ bs. block_branches_view bs ≡ chunk_branches_view branches) }
{
    let mut wrapped = Sequence::new(alloc);
    for branch in branches.into_vec() {
        let Branch {
            conds,
            state,
            result,
        } = branch;
        wrapped.push(Branch {
            conds,
            state: BlockSym { chunks: state },
            result,
        })?;
    }
    Ok(wrapped)
}

impl SymMemory for BlockSym {
    ghost use Rattle.std.specs.Prelude.{⊤};
    ghost use Rattle.block_sym.specs.Plain.{block_stands, block_terms, block_plain, block_kept, block_asked, block_depends};
    ghost use Rattle.block_sym.specs.BlockMeaning.{block_meaning, block_asks_its_arguments, block_plain_is_said};

    type Local = BlockHeap;

    ghost stands = { block_stands };

    ghost terms = { block_terms };

    ghost asked = { block_asked };

    ghost depends = { block_depends };

    ghost plain = { block_plain };

    ghost keeps_plain = { ⊤ };

    ghost keeps_narrow = { ⊥ };

    ghost kept = { block_kept };

    ghost meaning = { block_meaning };

    ghost asked_are_given = { block_asks_its_arguments };

    ghost plain_is_said = { block_plain_is_said };

    fn name() -> MemoryName {
        MemoryName::Block
    }

    fn empty(alloc: Global) -> Result<BlockSym, AllocError> {
        Ok(BlockSym {
            chunks: SymFrag::new(alloc),
        })
    }

    fn copy(&self, alloc: Global) -> Result<BlockSym, AllocError> {
        Ok(BlockSym {
            chunks: self.chunks.copy(alloc)?,
        })
    }

    fn act(
        &self,
        alloc: Global,
        action: &Text,
        fresh: Option<Var>,
        args: &Terms,
    ) -> Result<Branches<BlockSym>, AllocError> {
        let branches = branches(alloc, action, fresh, args, &self.chunks)?;
        with_states(alloc, branches)
    }
}
