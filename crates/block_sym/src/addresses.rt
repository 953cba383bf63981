//! What is done at an address.
ghost use Rattle.std.specs.Prelude.{◌≡◌, ◌++◌, map, IfOk};
ghost use Rattle.gil_values.specs.declared.kinds.Kind.{Kind};
ghost use Rattle.mem_model.specs.declared.failures.Failure.{Failure};
ghost use Rattle.pure_terms.specs.View.{term_view};
ghost use Rattle.block_sym.specs.Table.{act_there as act_there_of, by_parts as by_parts_of, by_address as by_address_of};
ghost use Rattle.block_sym.specs.View.{address_action_view};
ghost use Rattle.sym_chunks.specs.Cases.{branches_of, failure, true_term};
ghost use Rattle.sym_chunks.specs.Forms.{form_of};
ghost use Rattle.sym_chunks.specs.View.{chunk_branches_view};
ghost use Rattle.sym_model.specs.Alternatives.{alternatives_view, always as no_condition, both as combined, of_kind, not_of_kind};
ghost use Rattle.sym_model.specs.Pure.{done};
ghost use Rattle.sym_model.specs.View.{frag_view};

use crate::cells::act_on_cell;
use crate::freeing::free;
use gil_values::Kind;
use mem_model::Failure;
use pure_terms::{Literal, Term};
use sequence::Sequence;
use std::alloc::{AllocError, Global};
use sym_chunks::{Access, form_needed, with_branches, with_failure};
use sym_model::{
    Alternatives, Branches, SymFrag, SymResult, always, both, extend, kind_is, kind_is_not,
};

/// What is done at an address. Contracts see it as its pure data, by `address_action_view`.
#[derive(Debug, Drop)]
pub enum AddressAction {
    Cell(Access),
    Free,
}

/// The branches, and those of an action at an offset of a location, where the alternatives hold.
fn act_there(
    alloc: Global,
    branches: Branches<SymFrag>,
    when: Alternatives,
    action: &AddressAction,
    l: &Term,
    offset: &Term,
    chunks: &SymFrag,
) -> Result<Branches<SymFrag>, AllocError>
    ensures { IfOk result (λ bs. chunk_branches_view bs ≡ chunk_branches_view branches ++ act_there_of (address_action_view action.now)
        (alternatives_view when) (term_view l.now) (term_view offset.now) (frag_view chunks.now)) }
{
    match action {
        AddressAction::Cell(access) => {
            act_on_cell(alloc, branches, when, access, l, offset, chunks)
        }
        AddressAction::Free => free(alloc, branches, &when, l, offset, chunks),
    }
}

/// The conditions under which the location is a symbol and the offset a number.
fn right_kinds(alloc: Global, l: &Term, offset: &Term) -> Result<Alternatives, AllocError>
    ensures { IfOk result (λ x. alternatives_view x ≡ combined (of_kind (term_view l.now) Kind.Sym) (of_kind (term_view offset.now)
        Kind.Int)) }
{
    let symbol = kind_is(alloc, l, Kind::Sym)?;
    both(alloc, &symbol, &kind_is(alloc, offset, Kind::Int)?)
}

/// The branches in which the location is no symbol or the offset no number.
fn wrong_kinds(
    alloc: Global,
    l: &Term,
    offset: &Term,
    chunks: &SymFrag,
) -> Result<Branches<SymFrag>, AllocError>
    ensures { IfOk result (λ bs. chunk_branches_view bs ≡ branches_of (not_of_kind (term_view l.now) Kind.Sym ++ not_of_kind
        (term_view offset.now) Kind.Int) (frag_view chunks.now) (failure Failure.Kind)) }
{
    let no_symbol = kind_is_not(alloc, l, Kind::Sym)?;
    let wrong = extend(alloc, no_symbol, &kind_is_not(alloc, offset, Kind::Int)?)?;
    with_failure(alloc, Sequence::new(alloc), wrong, chunks, Failure::Kind)
}

/// The branches of an action at a location and an offset, whatever their kinds.
fn act_at(
    alloc: Global,
    action: &AddressAction,
    l: &Term,
    offset: &Term,
    chunks: &SymFrag,
) -> Result<Branches<SymFrag>, AllocError>
    ensures { IfOk result (λ bs. chunk_branches_view bs ≡ branches_of (not_of_kind (term_view l.now) Kind.Sym ++ not_of_kind
        (term_view offset.now) Kind.Int) (frag_view chunks.now) (failure Failure.Kind) ++ act_there_of
        (address_action_view action.now) (combined (of_kind (term_view l.now) Kind.Sym) (of_kind (term_view offset.now) Kind.Int))
        (term_view l.now) (term_view offset.now) (frag_view chunks.now)) }
{
    let branches = wrong_kinds(alloc, l, offset, chunks)?;
    let when = right_kinds(alloc, l, offset)?;
    act_there(alloc, branches, when, action, l, offset, chunks)
}

/// The branch in which an argument is of a wrong kind.
fn wrong_kind(alloc: Global, chunks: &SymFrag) -> Result<Branches<SymFrag>, AllocError>
    ensures { IfOk result (λ bs. chunk_branches_view bs ≡ branches_of no_condition
        (frag_view chunks.now) (failure Failure.Kind)) }
{
    let when = always(alloc)?;
    with_failure(alloc, Sequence::new(alloc), when, chunks, Failure::Kind)
}

/// The branches of an action at an address that is a list term.
fn act_at_parts(
    alloc: Global,
    action: &AddressAction,
    parts: &[Term],
    chunks: &SymFrag,
) -> Result<Branches<SymFrag>, AllocError>
    ensures { IfOk result (λ bs. chunk_branches_view bs ≡ by_parts_of (address_action_view action.now) (map term_view parts.now)
        (frag_view chunks.now)) }
{
    match parts {
        [l, offset] => act_at(alloc, action, l, offset, chunks),
        _ => wrong_kind(alloc, chunks),
    }
}

/// The branches of an action at an address that is no list term.
fn act_at_unknown(
    alloc: Global,
    address: &Term,
    chunks: &SymFrag,
) -> Result<Branches<SymFrag>, AllocError>
    ensures { IfOk result (λ bs. chunk_branches_view bs ≡ branches_of (not_of_kind (term_view address.now) Kind.List)
        (frag_view chunks.now) (failure Failure.Kind) ++ branches_of (form_of (term_view address.now) (of_kind
        (term_view address.now) Kind.List)) (frag_view chunks.now) (done true_term)) }
{
    let no_list = kind_is_not(alloc, address, Kind::List)?;
    let branches = with_failure(alloc, Sequence::new(alloc), no_list, chunks, Failure::Kind)?;
    let list = kind_is(alloc, address, Kind::List)?;
    let opened = form_needed(alloc, address, &list)?;
    let outcome = SymResult::Done(Term::Lit(Literal::Bool(true)));
    with_branches(alloc, branches, opened, chunks, &outcome)
}

/// The branches of an action at an address.
pub fn act_at_address(
    alloc: Global,
    action: &AddressAction,
    address: &Term,
    chunks: &SymFrag,
) -> Result<Branches<SymFrag>, AllocError>
    ensures { IfOk result (λ bs. chunk_branches_view bs ≡ by_address_of (address_action_view action.now) (term_view address.now)
        (frag_view chunks.now)) }
{
    match address {
        Term::List(parts) => act_at_parts(alloc, action, parts.as_slice(), chunks),
        _ => act_at_unknown(alloc, address, chunks),
    }
}
