//! The arguments of actions, whose number and kinds are asked before the chunks are looked at.
ghost use Rattle.std.specs.Prelude.{◌≡◌, IfOk};
ghost use Rattle.gil_values.specs.declared.kinds.Kind.{Kind};
ghost use Rattle.pure_terms.specs.View.{term_view};
ghost use Rattle.sym_chunks.specs.Arguments.{
  checked as checked_of,
  no_property as no_property_of,
  is_property as is_property_of,
  wrong_number as wrong_number_of,
  unknown_action as unknown_action_of,
};
ghost use Rattle.sym_chunks.specs.View.{cases_view, chunk_branches_view};
ghost use Rattle.sym_model.specs.Alternatives.{alternatives_view};
ghost use Rattle.sym_model.specs.View.{frag_view};

use crate::cases::{Cases, choose, with_failure};
use gil_values::Kind;
use mem_model::Failure;
use pure_terms::Term;
use sequence::Sequence;
use std::alloc::{AllocError, Global};
use sym_model::{Alternatives, Branches, SymFrag, always, both, extend, kind_is, kind_is_not};

/// The branches in which the arguments are of wrong kinds, and those of the cases where they are of the right ones.
pub fn checked(
    alloc: Global,
    wrong: Alternatives,
    right: Alternatives,
    chunks: &SymFrag,
    cases: Cases,
) -> Result<Branches<SymFrag>, AllocError>
    ensures { IfOk result (λ bs. chunk_branches_view bs ≡ checked_of (alternatives_view wrong) (alternatives_view right)
        (frag_view chunks.now) (cases_view cases)) }
{
    let refused = with_failure(alloc, Sequence::new(alloc), wrong, chunks, Failure::Kind)?;
    choose(alloc, refused, right, cases)
}

/// The location is no symbol or the name no text.
pub fn no_property(alloc: Global, l: &Term, p: &Term) -> Result<Alternatives, AllocError>
    ensures { IfOk result (λ x. alternatives_view x ≡ no_property_of (term_view l.now) (term_view p.now)) }
{
    let no_symbol = kind_is_not(alloc, l, Kind::Sym)?;
    extend(alloc, no_symbol, &kind_is_not(alloc, p, Kind::Str)?)
}

/// The location is a symbol and the name a text.
pub fn is_property(alloc: Global, l: &Term, p: &Term) -> Result<Alternatives, AllocError>
    ensures { IfOk result (λ x. alternatives_view x ≡ is_property_of (term_view l.now) (term_view p.now)) }
{
    let symbol = kind_is(alloc, l, Kind::Sym)?;
    both(alloc, &symbol, &kind_is(alloc, p, Kind::Str)?)
}

/// The branches of cases that take a location and a name.
pub fn of_property(
    alloc: Global,
    l: &Term,
    p: &Term,
    chunks: &SymFrag,
    cases: Cases,
) -> Result<Branches<SymFrag>, AllocError>
    ensures { IfOk result (λ bs. chunk_branches_view bs ≡ checked_of (no_property_of (term_view l.now) (term_view p.now)) (is_property_of
        (term_view l.now) (term_view p.now)) (frag_view chunks.now) (cases_view cases)) }
{
    let wrong = no_property(alloc, l, p)?;
    let right = is_property(alloc, l, p)?;
    checked(alloc, wrong, right, chunks, cases)
}

/// The branch in which the number of arguments is wrong.
pub fn wrong_number(alloc: Global, chunks: &SymFrag) -> Result<Branches<SymFrag>, AllocError>
    ensures { IfOk result (λ bs. chunk_branches_view bs ≡ wrong_number_of (frag_view chunks.now)) }
{
    let when = always(alloc)?;
    with_failure(alloc, Sequence::new(alloc), when, chunks, Failure::Arity)
}

/// The branch of an action that the memory doesn't have.
pub fn unknown_action(alloc: Global, chunks: &SymFrag) -> Result<Branches<SymFrag>, AllocError>
    ensures { IfOk result (λ bs. chunk_branches_view bs ≡ unknown_action_of (frag_view chunks.now)) }
{
    let when = always(alloc)?;
    with_failure(alloc, Sequence::new(alloc), when, chunks, Failure::Action)
}
