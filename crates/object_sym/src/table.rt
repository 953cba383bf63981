//! The branches of the actions by their names.
ghost use Rattle.std.specs.Prelude.{◌≡◌, ◌++◌, IfOk};
ghost use Rattle.gil_values.specs.declared.kinds.Kind.{Kind};
ghost use Rattle.object_heap.specs.Names.{action_of};
ghost use Rattle.object_sym.specs.Table.{
  is_prototype as is_prototype_of,
  is_no_prototype as is_no_prototype_of,
  new_cases as new_cases_of,
  get_cases as get_cases_of,
  set_cases as set_cases_of,
  delete_cases as delete_cases_of,
  has_cases as has_cases_of,
  prototype_cases as prototype_cases_of,
  of_property as of_property_of,
  new_branches,
  set_branches,
  getproto_branches,
  setproto_branches,
  table,
};
ghost use Rattle.pure_terms.specs.View.{term_view, terms_view};
ghost use Rattle.sym_chunks.specs.Cases.{reads, writes};
ghost use Rattle.sym_chunks.specs.View.{cases_view, chunk_branches_view};
ghost use Rattle.sym_chunks.specs.Arguments.{checked as checked_of, no_property as no_property_of, is_property as is_property_of, wrong_number as wrong_number_of, unknown_action};
ghost use Rattle.sym_model.specs.Alternatives.{alternatives_view, both as combined, of_kind, not_of_kind};
ghost use Rattle.sym_model.specs.View.{frag_view};

use crate::deleting::delete_cases;
use crate::properties::{get_cases, has_cases};
use crate::prototypes::{is_no_prototype, is_prototype, new_cases, prototype_cases};
use crate::setting::{set_cases, write_of};
use gil_values::{Kind, Text};
use object_heap::ObjectAction;
use pure_terms::{Term, Terms, Var};
use sequence::Sequence;
use std::alloc::{AllocError, Global};
use sym_chunks::{Access, checked, of_property, unknown_action, wrong_number};
use sym_model::{Branches, SymFrag, both, extend, kind_is, kind_is_not};

/// A new object with this prototype.
fn make(
    alloc: Global,
    location: Var,
    val: &Term,
    chunks: &SymFrag,
) -> Result<Branches<SymFrag>, AllocError>
    ensures { IfOk result (λ bs. chunk_branches_view bs ≡ checked_of (is_no_prototype_of (term_view val.now)) (is_prototype_of
        (term_view val.now)) (frag_view chunks.now) (new_cases_of location (term_view val.now) (frag_view chunks.now))) }
{
    let cases = new_cases(alloc, location, val, chunks)?;
    let wrong = is_no_prototype(alloc, val)?;
    let right = is_prototype(alloc, val)?;
    checked(alloc, wrong, right, chunks, cases)
}

/// `new`, with the variable of the new object's location.
fn act_new(
    alloc: Global,
    fresh: Option<Var>,
    args: &Terms,
    chunks: &SymFrag,
) -> Result<Branches<SymFrag>, AllocError>
    ensures { IfOk result (λ bs. chunk_branches_view bs ≡ new_branches fresh (terms_view args.now) (frag_view chunks.now)) }
{
    match args.as_slice() {
        [val] => match fresh {
            Some(location) => make(alloc, location, val, chunks),
            None => Ok(Sequence::new(alloc)),
        },
        _ => wrong_number(alloc, chunks),
    }
}

fn get_of(
    alloc: Global,
    l: &Term,
    p: &Term,
    chunks: &SymFrag,
) -> Result<Branches<SymFrag>, AllocError>
    ensures { IfOk result (λ bs. chunk_branches_view bs ≡ checked_of (no_property_of (term_view l.now) (term_view p.now)) (is_property_of
        (term_view l.now) (term_view p.now)) (frag_view chunks.now) (get_cases_of (term_view l.now) (term_view p.now)
        (frag_view chunks.now))) }
{
    let cases = get_cases(alloc, l, p, chunks)?;
    of_property(alloc, l, p, chunks, cases)
}

/// `get`.
fn act_get(alloc: Global, args: &Terms, chunks: &SymFrag) -> Result<Branches<SymFrag>, AllocError>
    ensures { IfOk result (λ bs. chunk_branches_view bs ≡ of_property_of (terms_view args.now) (frag_view chunks.now) (λ l p. get_cases_of l p
        (frag_view chunks.now))) }
{
    match args.as_slice() {
        [l, p] => get_of(alloc, l, p, chunks),
        _ => wrong_number(alloc, chunks),
    }
}

fn set_of(
    alloc: Global,
    l: &Term,
    p: &Term,
    val: &Term,
    chunks: &SymFrag,
) -> Result<Branches<SymFrag>, AllocError>
    ensures { IfOk result (λ bs. chunk_branches_view bs ≡ checked_of (no_property_of (term_view l.now) (term_view p.now)) (is_property_of
        (term_view l.now) (term_view p.now)) (frag_view chunks.now) (set_cases_of (term_view l.now) (term_view p.now)
        (term_view val.now) (frag_view chunks.now))) }
{
    let cases = set_cases(alloc, l, p, val, chunks)?;
    of_property(alloc, l, p, chunks, cases)
}

/// `set`.
fn act_set(alloc: Global, args: &Terms, chunks: &SymFrag) -> Result<Branches<SymFrag>, AllocError>
    ensures { IfOk result (λ bs. chunk_branches_view bs ≡ set_branches (terms_view args.now) (frag_view chunks.now)) }
{
    match args.as_slice() {
        [l, p, val] => set_of(alloc, l, p, val, chunks),
        _ => wrong_number(alloc, chunks),
    }
}

fn delete_of(
    alloc: Global,
    l: &Term,
    p: &Term,
    chunks: &SymFrag,
) -> Result<Branches<SymFrag>, AllocError>
    ensures { IfOk result (λ bs. chunk_branches_view bs ≡ checked_of (no_property_of (term_view l.now) (term_view p.now)) (is_property_of
        (term_view l.now) (term_view p.now)) (frag_view chunks.now) (delete_cases_of (term_view l.now) (term_view p.now)
        (frag_view chunks.now))) }
{
    let cases = delete_cases(alloc, l, p, chunks)?;
    of_property(alloc, l, p, chunks, cases)
}

/// `delete`.
fn act_delete(
    alloc: Global,
    args: &Terms,
    chunks: &SymFrag,
) -> Result<Branches<SymFrag>, AllocError>
    ensures { IfOk result (λ bs. chunk_branches_view bs ≡ of_property_of (terms_view args.now) (frag_view chunks.now) (λ l p. delete_cases_of l p
        (frag_view chunks.now))) }
{
    match args.as_slice() {
        [l, p] => delete_of(alloc, l, p, chunks),
        _ => wrong_number(alloc, chunks),
    }
}

fn has_of(
    alloc: Global,
    l: &Term,
    p: &Term,
    chunks: &SymFrag,
) -> Result<Branches<SymFrag>, AllocError>
    ensures { IfOk result (λ bs. chunk_branches_view bs ≡ checked_of (no_property_of (term_view l.now) (term_view p.now)) (is_property_of
        (term_view l.now) (term_view p.now)) (frag_view chunks.now) (has_cases_of (term_view l.now) (term_view p.now)
        (frag_view chunks.now))) }
{
    let cases = has_cases(alloc, l, p, chunks)?;
    of_property(alloc, l, p, chunks, cases)
}

/// `has`.
fn act_has(alloc: Global, args: &Terms, chunks: &SymFrag) -> Result<Branches<SymFrag>, AllocError>
    ensures { IfOk result (λ bs. chunk_branches_view bs ≡ of_property_of (terms_view args.now) (frag_view chunks.now) (λ l p. has_cases_of l p
        (frag_view chunks.now))) }
{
    match args.as_slice() {
        [l, p] => has_of(alloc, l, p, chunks),
        _ => wrong_number(alloc, chunks),
    }
}

fn getproto_of(alloc: Global, l: &Term, chunks: &SymFrag) -> Result<Branches<SymFrag>, AllocError>
    ensures { IfOk result (λ bs. chunk_branches_view bs ≡ checked_of (not_of_kind (term_view l.now) Kind.Sym) (of_kind (term_view l.now)
        Kind.Sym) (frag_view chunks.now) (prototype_cases_of reads (term_view l.now) (frag_view chunks.now))) }
{
    let cases = prototype_cases(alloc, &Access::Read, l, chunks)?;
    let wrong = kind_is_not(alloc, l, Kind::Sym)?;
    let right = kind_is(alloc, l, Kind::Sym)?;
    checked(alloc, wrong, right, chunks, cases)
}

/// `getproto`.
fn act_getproto(
    alloc: Global,
    args: &Terms,
    chunks: &SymFrag,
) -> Result<Branches<SymFrag>, AllocError>
    ensures { IfOk result (λ bs. chunk_branches_view bs ≡ getproto_branches (terms_view args.now)
        (frag_view chunks.now)) }
{
    match args.as_slice() {
        [l] => getproto_of(alloc, l, chunks),
        _ => wrong_number(alloc, chunks),
    }
}

fn setproto_of(
    alloc: Global,
    l: &Term,
    val: &Term,
    chunks: &SymFrag,
) -> Result<Branches<SymFrag>, AllocError>
    ensures { IfOk result (λ bs. chunk_branches_view bs ≡ checked_of (not_of_kind (term_view l.now) Kind.Sym ++ is_no_prototype_of
        (term_view val.now)) (combined (of_kind (term_view l.now) Kind.Sym) (is_prototype_of (term_view val.now))) (frag_view chunks.now)
        (prototype_cases_of (writes (term_view val.now)) (term_view l.now) (frag_view chunks.now))) }
{
    let access = write_of(alloc, val)?;
    let cases = prototype_cases(alloc, &access, l, chunks)?;
    let no_symbol = kind_is_not(alloc, l, Kind::Sym)?;
    let no_prototype = is_no_prototype(alloc, val)?;
    let wrong = extend(alloc, no_symbol, &no_prototype)?;
    let symbol = kind_is(alloc, l, Kind::Sym)?;
    let prototype = is_prototype(alloc, val)?;
    let right = both(alloc, &symbol, &prototype)?;
    checked(alloc, wrong, right, chunks, cases)
}

/// `setproto`.
fn act_setproto(
    alloc: Global,
    args: &Terms,
    chunks: &SymFrag,
) -> Result<Branches<SymFrag>, AllocError>
    ensures { IfOk result (λ bs. chunk_branches_view bs ≡ setproto_branches (terms_view args.now)
        (frag_view chunks.now)) }
{
    match args.as_slice() {
        [l, val] => setproto_of(alloc, l, val, chunks),
        _ => wrong_number(alloc, chunks),
    }
}

/// The branches of an action.
pub fn branches(
    alloc: Global,
    action: &Text,
    fresh: Option<Var>,
    args: &Terms,
    chunks: &SymFrag,
) -> Result<Branches<SymFrag>, AllocError>
    ensures { IfOk result (λ bs. chunk_branches_view bs ≡ table (action_of action.now) fresh (terms_view args.now) (frag_view chunks.now)) }
{
    match ObjectAction::from_name(action) {
        Some(ObjectAction::New) => act_new(alloc, fresh, args, chunks),
        Some(ObjectAction::Get) => act_get(alloc, args, chunks),
        Some(ObjectAction::Set) => act_set(alloc, args, chunks),
        Some(ObjectAction::Delete) => act_delete(alloc, args, chunks),
        Some(ObjectAction::Has) => act_has(alloc, args, chunks),
        Some(ObjectAction::GetProto) => act_getproto(alloc, args, chunks),
        Some(ObjectAction::SetProto) => act_setproto(alloc, args, chunks),
        None => unknown_action(alloc, chunks),
    }
}
