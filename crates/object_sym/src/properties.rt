//! `get` and `has`.
ghost use Rattle.std.specs.Prelude.{◌≡◌, ◌++◌, IfOk};
ghost use Rattle.object_sym.specs.Places.{lists_not};
ghost use Rattle.object_sym.specs.Table.{
  undef_term,
  without_name as without_name_of,
  told_cases,
  held_case,
  unknown_cases,
  get_cases as get_cases_of,
  has_cases as has_cases_of,
};
ghost use Rattle.pure_terms.specs.View.{term_view};
ghost use Rattle.sym_chunks.specs.ByPlace.{any_at as any_at_of};
ghost use Rattle.sym_chunks.specs.Cases.{case_of, AreChosenAs, missed_name as missed_name_of};
ghost use Rattle.sym_chunks.specs.View.{cases_view};
ghost use Rattle.sym_model.specs.Pure.{done};
ghost use Rattle.sym_model.specs.View.{frag_view, result_view};

use crate::places::{KnowsNot, Lacks, Lists, ListsNot, Untold, opened};
use gil_values::Kind;
use pure_terms::{Literal, Term};
use sequence::Sequence;
use std::alloc::{AllocError, Global};
use sym_chunks::{
    Access, Cases, SameSub, all_by_place, any_at, has_sure_case, missed_key, name_sub, with_case,
    with_found,
};
use sym_model::{SymFrag, SymResult, SymSub, both};

/// The result that misses the location's name.
pub fn missed_name(alloc: Global, l: &Term, p: &Term) -> Result<SymResult, AllocError>
    ensures { IfOk result (λ r. result_view r ≡ missed_name_of (term_view l.now) (term_view p.now)) }
{
    let sub = SymSub::Name(p.copy(alloc)?);
    missed_key(alloc, l, &sub)
}

/// The cases, and those in which nothing tells of the name.
pub fn without_name(
    alloc: Global,
    cases: Cases,
    l: &Term,
    p: &Term,
    chunks: &SymFrag,
) -> Result<Cases, AllocError>
    ensures { IfOk result (λ cs. cases_view cs ≡ cases_view cases ++ without_name_of (term_view l.now) (term_view p.now)
        (frag_view chunks.now)) }
{
    let outcome = missed_name(alloc, l, p)?;
    let forms = opened(alloc, l, p, chunks.as_slice())?;
    let cases = with_case(alloc, cases, forms, chunks, &outcome)?;
    let test = Lacks {
        name: p,
        chunks: chunks.as_slice(),
    };
    let lacking = all_by_place(alloc, l, &test, chunks.as_slice())?;
    with_case(alloc, cases, lacking, chunks, &outcome)
}

/// The cases, and those in which the location has no such name, so that its value is undefined, or nothing tells of it.
fn without_value(
    alloc: Global,
    cases: Cases,
    l: &Term,
    p: &Term,
    chunks: &SymFrag,
) -> Result<Cases, AllocError>
    ensures { IfOk result (λ cs. cases_view cs ≡ cases_view cases ++ (case_of (any_at_of (term_view l.now) (lists_not (term_view p.now))
        (frag_view chunks.now)) (frag_view chunks.now) (done undef_term) ++ without_name_of (term_view l.now) (term_view p.now)
        (frag_view chunks.now))) }
{
    let absent = any_at(alloc, l, &ListsNot { name: p }, chunks.as_slice())?;
    let outcome = SymResult::Done(Term::Lit(Literal::Kind(Kind::Undef)));
    let cases = with_case(alloc, cases, absent, chunks, &outcome)?;
    without_name(alloc, cases, l, p, chunks)
}

/// The cases of `get`, without those after one that surely comes.
pub fn get_cases(alloc: Global, l: &Term, p: &Term, chunks: &SymFrag) -> Result<Cases, AllocError>
    ensures { IfOk result (λ cs. AreChosenAs (cases_view cs) (get_cases_of (term_view l.now) (term_view p.now) (frag_view chunks.now))) }
{
    let name = name_sub(alloc, p)?;
    let found = with_found(alloc, Sequence::new(alloc), &Access::Read, l, &name, chunks)?;
    if has_sure_case(&found) {
        return Ok(found);
    }
    without_value(alloc, found, l, p, chunks)
}

/// The cases, and those in which the location's names are listed.
fn with_told(
    alloc: Global,
    cases: Cases,
    l: &Term,
    p: &Term,
    chunks: &SymFrag,
) -> Result<Cases, AllocError>
    ensures { IfOk result (λ cs. cases_view cs ≡ cases_view cases ++ told_cases (term_view l.now) (term_view p.now)
        (frag_view chunks.now)) }
{
    let named = any_at(alloc, l, &Lists { name: p }, chunks.as_slice())?;
    let present = SymResult::Done(Term::Lit(Literal::Bool(true)));
    let cases = with_case(alloc, cases, named, chunks, &present)?;
    let unnamed = any_at(alloc, l, &ListsNot { name: p }, chunks.as_slice())?;
    let absent = SymResult::Done(Term::Lit(Literal::Bool(false)));
    with_case(alloc, cases, unnamed, chunks, &absent)
}

/// The cases, and the one in which a chunk holds the location's name, and none lists its names.
fn with_held_name(
    alloc: Global,
    cases: Cases,
    l: &Term,
    p: &Term,
    chunks: &SymFrag,
) -> Result<Cases, AllocError>
    ensures { IfOk result (λ cs. cases_view cs ≡ cases_view cases ++ held_case (term_view l.now) (term_view p.now)
        (frag_view chunks.now)) }
{
    let untold = all_by_place(alloc, l, &Untold, chunks.as_slice())?;
    let name = name_sub(alloc, p)?;
    let held = any_at(alloc, l, &SameSub { sub: &name }, chunks.as_slice())?;
    let when = both(alloc, &untold, &held)?;
    let present = SymResult::Done(Term::Lit(Literal::Bool(true)));
    with_case(alloc, cases, when, chunks, &present)
}

/// The cases, and those in which neither a list nor a chunk tells of the name.
fn with_unknown(
    alloc: Global,
    cases: Cases,
    l: &Term,
    p: &Term,
    chunks: &SymFrag,
) -> Result<Cases, AllocError>
    ensures { IfOk result (λ cs. cases_view cs ≡ cases_view cases ++ unknown_cases (term_view l.now) (term_view p.now)
        (frag_view chunks.now)) }
{
    let forms = opened(alloc, l, p, chunks.as_slice())?;
    let present = SymResult::Done(Term::Lit(Literal::Bool(true)));
    let cases = with_case(alloc, cases, forms, chunks, &present)?;
    let unknown = all_by_place(alloc, l, &KnowsNot { name: p }, chunks.as_slice())?;
    let outcome = missed_name(alloc, l, p)?;
    with_case(alloc, cases, unknown, chunks, &outcome)
}

/// The cases of `has`, without those after one that surely comes.
pub fn has_cases(alloc: Global, l: &Term, p: &Term, chunks: &SymFrag) -> Result<Cases, AllocError>
    ensures { IfOk result (λ cs. AreChosenAs (cases_view cs) (has_cases_of (term_view l.now) (term_view p.now) (frag_view chunks.now))) }
{
    let told = with_told(alloc, Sequence::new(alloc), l, p, chunks)?;
    if has_sure_case(&told) {
        return Ok(told);
    }
    let held = with_held_name(alloc, told, l, p, chunks)?;
    with_unknown(alloc, held, l, p, chunks)
}
