//! The symbolic memory of objects.
ghost use Rattle.std.specs.Prelude.{◌≡◌, ◌++◌, IfOk};
ghost use Rattle.object_sym.specs.View.{object_branch_view, object_branches_view};
ghost use Rattle.sym_chunks.specs.View.{chunk_branch_view, chunk_branches_view};

use crate::states::ObjectSym;
use crate::table::branches;
use gil_values::Text;
use mem_model::MemoryName;
use object_heap::ObjectHeap;
use pure_terms::{Terms, Var};
use sequence::Sequence;
use std::alloc::{AllocError, Global};
use sym_model::{Branch, Branches, SymFrag, SymMemory};

/// A branch whose state is one of objects.
fn with_state(branch: Branch<SymFrag>) -> Branch<ObjectSym>
    ensures { object_branch_view result ≡ chunk_branch_view branch }
{
    let Branch {
        conds,
        state,
        result,
    } = branch;
    Branch {
        conds,
        state: ObjectSym { chunks: state },
        result,
    }
}

/// The branches, whose states are those of objects.
pub(crate) fn with_states(
    alloc: Global,
    branches: Branches<SymFrag>,
) -> Result<Branches<ObjectSym>, AllocError>
    ensures { IfOk result (λ bs. object_branches_view bs ≡ chunk_branches_view branches) }
{
    let mut states = Sequence::new(alloc);
    for branch in branches.into_vec() {
        states.push(with_state(branch))?;
    }
    Ok(states)
}

impl SymMemory for ObjectSym {
    ghost use Rattle.std.specs.Prelude.{⊤};
    ghost use Rattle.object_sym.specs.Plain.{object_stands, object_terms, object_plain, object_kept, object_asked, object_depends};
    ghost use Rattle.object_sym.specs.ObjectMeaning.{object_meaning, object_asks_its_arguments, object_plain_is_said};

    type Local = ObjectHeap;

    ghost stands = { object_stands };

    ghost terms = { object_terms };

    ghost asked = { object_asked };

    ghost depends = { object_depends };

    ghost plain = { object_plain };

    ghost keeps_plain = { ⊤ };

    ghost keeps_narrow = { ⊥ };

    ghost kept = { object_kept };

    ghost meaning = { object_meaning };

    ghost asked_are_given = { object_asks_its_arguments };

    ghost plain_is_said = { object_plain_is_said };

    fn name() -> MemoryName {
        MemoryName::Object
    }

    fn empty(alloc: Global) -> Result<ObjectSym, AllocError> {
        Ok(ObjectSym {
            chunks: SymFrag::new(alloc),
        })
    }

    fn copy(&self, alloc: Global) -> Result<ObjectSym, AllocError> {
        Ok(ObjectSym {
            chunks: self.chunks.copy(alloc)?,
        })
    }

    fn act(
        &self,
        alloc: Global,
        action: &Text,
        fresh: Option<Var>,
        args: &Terms,
    ) -> Result<Branches<ObjectSym>, AllocError> {
        let branches = branches(alloc, action, fresh, args, &self.chunks)?;
        with_states(alloc, branches)
    }
}
