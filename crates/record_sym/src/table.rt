//! The branches of the actions by their names.
ghost use Rattle.std.specs.Prelude.{◌≡◌, IfOk};
ghost use Rattle.gil_values.specs.declared.kinds.Kind.{Kind};
ghost use Rattle.pure_terms.specs.View.{term_view, terms_view};
ghost use Rattle.record_heap.specs.Names.{action_of};
ghost use Rattle.record_sym.specs.Table.{
  name_cases as name_cases_of,
  dispose_cases as dispose_cases_of,
  act_new as new_of,
  act_lookup as lookup_of,
  act_mutate as mutate_of,
  act_dispose as dispose_of_args,
  table,
};
ghost use Rattle.sym_chunks.specs.Arguments.{
  checked as checked_of,
  no_property,
  is_property,
};
ghost use Rattle.sym_chunks.specs.Cases.{writes};
ghost use Rattle.sym_chunks.specs.View.{access_view, chunk_branches_view};
ghost use Rattle.sym_model.specs.Alternatives.{of_kind, not_of_kind};
ghost use Rattle.sym_model.specs.View.{frag_view};

use crate::disposing::dispose_cases;
use crate::making::make;
use crate::properties::name_cases;
use gil_values::{Kind, Text};
use pure_terms::{Term, Terms, Var};
use record_heap::RecordAction;
use sequence::Sequence;
use std::alloc::{AllocError, Global};
use sym_chunks::{Access, checked, of_property, unknown_action, wrong_number};
use sym_model::{Branches, SymFrag, kind_is, kind_is_not};

/// `new`, with the variable of the new record's location.
fn act_new(
    alloc: Global,
    fresh: Option<Var>,
    args: &Terms,
    chunks: &SymFrag,
) -> Result<Branches<SymFrag>, AllocError>
    ensures { IfOk result (λ bs. chunk_branches_view bs ≡ new_of fresh (terms_view args.now) (frag_view chunks.now)) }
{
    match args.as_slice() {
        [names] => match fresh {
            Some(location) => make(alloc, location, names, chunks),
            None => Ok(Sequence::new(alloc)),
        },
        _ => wrong_number(alloc, chunks),
    }
}

/// Reading or giving the value of a name.
fn access_name(
    alloc: Global,
    access: &Access,
    l: &Term,
    p: &Term,
    chunks: &SymFrag,
) -> Result<Branches<SymFrag>, AllocError>
    ensures { IfOk result (λ bs. chunk_branches_view bs ≡ checked_of (no_property (term_view l.now) (term_view p.now)) (is_property
        (term_view l.now) (term_view p.now)) (frag_view chunks.now) (name_cases_of (access_view access.now) (term_view l.now)
        (term_view p.now) (frag_view chunks.now))) }
{
    let cases = name_cases(alloc, access, l, p, chunks)?;
    of_property(alloc, l, p, chunks, cases)
}

/// `lookup`.
fn act_lookup(
    alloc: Global,
    args: &Terms,
    chunks: &SymFrag,
) -> Result<Branches<SymFrag>, AllocError>
    ensures { IfOk result (λ bs. chunk_branches_view bs ≡ lookup_of (terms_view args.now) (frag_view chunks.now)) }
{
    match args.as_slice() {
        [l, p] => access_name(alloc, &Access::Read, l, p, chunks),
        _ => wrong_number(alloc, chunks),
    }
}

/// Giving a name a value.
fn give_name(
    alloc: Global,
    l: &Term,
    p: &Term,
    val: &Term,
    chunks: &SymFrag,
) -> Result<Branches<SymFrag>, AllocError>
    ensures { IfOk result (λ bs. chunk_branches_view bs ≡ checked_of (no_property (term_view l.now) (term_view p.now)) (is_property
        (term_view l.now) (term_view p.now)) (frag_view chunks.now) (name_cases_of (writes (term_view val.now)) (term_view l.now)
        (term_view p.now) (frag_view chunks.now))) }
{
    let access = Access::Write(val.copy(alloc)?);
    access_name(alloc, &access, l, p, chunks)
}

/// `mutate`.
fn act_mutate(
    alloc: Global,
    args: &Terms,
    chunks: &SymFrag,
) -> Result<Branches<SymFrag>, AllocError>
    ensures { IfOk result (λ bs. chunk_branches_view bs ≡ mutate_of (terms_view args.now) (frag_view chunks.now)) }
{
    match args.as_slice() {
        [l, p, val] => give_name(alloc, l, p, val, chunks),
        _ => wrong_number(alloc, chunks),
    }
}

/// Disposing of a location.
fn dispose(alloc: Global, l: &Term, chunks: &SymFrag) -> Result<Branches<SymFrag>, AllocError>
    ensures { IfOk result (λ bs. chunk_branches_view bs ≡ checked_of (not_of_kind (term_view l.now) Kind.Sym) (of_kind (term_view l.now)
        Kind.Sym) (frag_view chunks.now) (dispose_cases_of (term_view l.now) (frag_view chunks.now))) }
{
    let cases = dispose_cases(alloc, l, chunks)?;
    let wrong = kind_is_not(alloc, l, Kind::Sym)?;
    let right = kind_is(alloc, l, Kind::Sym)?;
    checked(alloc, wrong, right, chunks, cases)
}

/// `dispose`.
fn act_dispose(
    alloc: Global,
    args: &Terms,
    chunks: &SymFrag,
) -> Result<Branches<SymFrag>, AllocError>
    ensures { IfOk result (λ bs. chunk_branches_view bs ≡ dispose_of_args (terms_view args.now) (frag_view chunks.now)) }
{
    match args.as_slice() {
        [l] => dispose(alloc, l, chunks),
        _ => wrong_number(alloc, chunks),
    }
}

/// The branches of an action.
pub fn branches(
    alloc: Global,
    action: &Text,
    fresh: Option<Var>,
    args: &Terms,
    chunks: &SymFrag,
) -> Result<Branches<SymFrag>, AllocError>
    ensures { IfOk result (λ bs. chunk_branches_view bs ≡ table (action_of action.now) fresh (terms_view args.now)
        (frag_view chunks.now)) }
{
    match RecordAction::from_name(action) {
        Some(RecordAction::New) => act_new(alloc, fresh, args, chunks),
        Some(RecordAction::Lookup) => act_lookup(alloc, args, chunks),
        Some(RecordAction::Mutate) => act_mutate(alloc, args, chunks),
        Some(RecordAction::Dispose) => act_dispose(alloc, args, chunks),
        None => unknown_action(alloc, chunks),
    }
}
