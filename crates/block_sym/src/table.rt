//! The branches of the actions by their names.
ghost use Rattle.std.specs.Prelude.{◌≡◌, IfOk};
ghost use Rattle.pure_terms.specs.View.{terms_view};
ghost use Rattle.block_heap.specs.Names.{action_of};
ghost use Rattle.block_sym.specs.Table.{
  table,
  unknown_action,
  wrong_number as wrong_number_of,
  act_alloc as alloc_of,
  act_load as load_of,
  act_store as store_of,
  act_free as free_of,
};
ghost use Rattle.sym_chunks.specs.View.{chunk_branches_view};
ghost use Rattle.sym_model.specs.View.{frag_view};

use crate::addresses::{AddressAction, act_at_address};
use crate::making::make;
use block_heap::BlockAction;
use gil_values::Text;
use mem_model::Failure;
use pure_terms::{Terms, Var};
use sequence::Sequence;
use std::alloc::{AllocError, Global};
use sym_chunks::{Access, with_failure};
use sym_model::{Branches, SymFrag, always};

/// The branch in which the number of arguments is wrong.
fn wrong_number(alloc: Global, chunks: &SymFrag) -> Result<Branches<SymFrag>, AllocError>
    ensures { IfOk result (λ bs. chunk_branches_view bs ≡ wrong_number_of (frag_view chunks.now)) }
{
    let when = always(alloc)?;
    with_failure(alloc, Sequence::new(alloc), when, chunks, Failure::Arity)
}

/// The branches of `alloc`, with the variable of the new block's location.
fn act_alloc(
    alloc: Global,
    fresh: Option<Var>,
    args: &Terms,
    chunks: &SymFrag,
) -> Result<Branches<SymFrag>, AllocError>
    ensures { IfOk result (λ bs. chunk_branches_view bs ≡ alloc_of fresh (terms_view args.now) (frag_view chunks.now)) }
{
    match args.as_slice() {
        [size] => match fresh {
            Some(location) => make(alloc, location, size, chunks),
            None => Ok(Sequence::new(alloc)),
        },
        _ => wrong_number(alloc, chunks),
    }
}

/// The branches of `load`.
fn act_load(alloc: Global, args: &Terms, chunks: &SymFrag) -> Result<Branches<SymFrag>, AllocError>
    ensures { IfOk result (λ bs. chunk_branches_view bs ≡ load_of (terms_view args.now) (frag_view chunks.now)) }
{
    match args.as_slice() {
        [address] => { act_at_address(alloc, &AddressAction::Cell(Access::Read), address, chunks) }
        _ => wrong_number(alloc, chunks),
    }
}

/// The branches of `store`.
fn act_store(alloc: Global, args: &Terms, chunks: &SymFrag) -> Result<Branches<SymFrag>, AllocError>
    ensures { IfOk result (λ bs. chunk_branches_view bs ≡ store_of (terms_view args.now) (frag_view chunks.now)) }
{
    match args.as_slice() {
        [address, val] => {
            let action = AddressAction::Cell(Access::Write(val.copy(alloc)?));
            act_at_address(alloc, &action, address, chunks)
        }
        _ => wrong_number(alloc, chunks),
    }
}

/// The branches of `free`.
fn act_free(alloc: Global, args: &Terms, chunks: &SymFrag) -> Result<Branches<SymFrag>, AllocError>
    ensures { IfOk result (λ bs. chunk_branches_view bs ≡ free_of (terms_view args.now) (frag_view chunks.now)) }
{
    match args.as_slice() {
        [address] => act_at_address(alloc, &AddressAction::Free, address, chunks),
        _ => wrong_number(alloc, chunks),
    }
}

/// The branch of an action that blocks don't have.
fn unknown(alloc: Global, chunks: &SymFrag) -> Result<Branches<SymFrag>, AllocError>
    ensures { IfOk result (λ bs. chunk_branches_view bs ≡ unknown_action (frag_view chunks.now)) }
{
    let when = always(alloc)?;
    with_failure(alloc, Sequence::new(alloc), when, chunks, Failure::Action)
}

/// The branches of an action.
pub fn branches(
    alloc: Global,
    action: &Text,
    fresh: Option<Var>,
    args: &Terms,
    chunks: &SymFrag,
) -> Result<Branches<SymFrag>, AllocError>
    ensures { IfOk result (λ bs. chunk_branches_view bs ≡ table (action_of action.now) fresh (terms_view args.now)
        (frag_view chunks.now)) }
{
    match BlockAction::from_name(action) {
        Some(BlockAction::Alloc) => act_alloc(alloc, fresh, args, chunks),
        Some(BlockAction::Load) => act_load(alloc, args, chunks),
        Some(BlockAction::Store) => act_store(alloc, args, chunks),
        Some(BlockAction::Free) => act_free(alloc, args, chunks),
        None => unknown(alloc, chunks),
    }
}
