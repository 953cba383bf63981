//! The symbolic memory of records.
ghost use Rattle.std.specs.Prelude.{◌≡◌, ◌++◌, IfOk};
ghost use Rattle.record_sym.specs.View.{record_branch_view, record_branches_view};
ghost use Rattle.sym_chunks.specs.View.{chunk_branch_view, chunk_branches_view};

use crate::states::RecordSym;
use crate::table::branches;
use gil_values::Text;
use mem_model::MemoryName;
use pure_terms::{Terms, Var};
use record_heap::RecordHeap;
use sequence::Sequence;
use std::alloc::{AllocError, Global};
use sym_model::{Branch, Branches, SymFrag, SymMemory};

/// A branch whose state is one of records.
fn with_state(branch: Branch<SymFrag>) -> Branch<RecordSym>
    ensures { record_branch_view result ≡ chunk_branch_view branch }
{
    let Branch {
        conds,
        state,
        result,
    } = branch;
    Branch {
        conds,
        state: RecordSym { chunks: state },
        result,
    }
}

/// The branches, whose states are those of records.
fn with_states(
    alloc: Global,
    branches: Branches<SymFrag>,
) -> Result<Branches<RecordSym>, AllocError>
    ensures { IfOk result (λ bs. record_branches_view bs ≡ chunk_branches_view branches) }
{
    let mut states = Sequence::new(alloc);
    for branch in branches.into_vec() {
        states.push(with_state(branch))?;
    }
    Ok(states)
}

impl SymMemory for RecordSym {
    ghost use Rattle.std.specs.Prelude.{⊤};
    ghost use Rattle.record_sym.specs.Plain.{record_stands, record_terms, record_plain, record_kept, record_asked, record_depends};
    ghost use Rattle.record_sym.specs.RecordMeaning.{record_meaning, record_asks_its_arguments, record_plain_is_said};

    type Local = RecordHeap;

    ghost stands = { record_stands };

    ghost terms = { record_terms };

    ghost asked = { record_asked };

    ghost depends = { record_depends };

    ghost plain = { record_plain };

    ghost keeps_plain = { ⊤ };

    ghost keeps_narrow = { ⊤ };

    ghost kept = { record_kept };

    ghost meaning = { record_meaning };

    ghost asked_are_given = { record_asks_its_arguments };

    ghost plain_is_said = { record_plain_is_said };

    fn name() -> MemoryName {
        MemoryName::Record
    }

    fn empty(alloc: Global) -> Result<RecordSym, AllocError> {
        Ok(RecordSym {
            chunks: SymFrag::new(alloc),
        })
    }

    fn copy(&self, alloc: Global) -> Result<RecordSym, AllocError> {
        Ok(RecordSym {
            chunks: self.chunks.copy(alloc)?,
        })
    }

    fn act(
        &self,
        alloc: Global,
        action: &Text,
        fresh: Option<Var>,
        args: &Terms,
    ) -> Result<Branches<RecordSym>, AllocError> {
        let branches = branches(alloc, action, fresh, args, &self.chunks)?;
        with_states(alloc, branches)
    }
}
