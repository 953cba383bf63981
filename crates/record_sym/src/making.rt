//! `new`.
ghost use Rattle.std.specs.Prelude.{◌≡◌, ◌++◌, map, IfOk};
ghost use Rattle.gil_values.specs.declared.kinds.Kind.{Kind};
ghost use Rattle.mem_model.specs.declared.failures.Failure.{Failure};
ghost use Rattle.pure_terms.specs.Pure.{list_of, from_list, variable};
ghost use Rattle.pure_terms.specs.View.{term_view, terms_view};
ghost use Rattle.record_sym.specs.Table.{faulty as faulty_of, name_chunk as name_chunk_of, created as created_of, make as make_of};
ghost use Rattle.sym_chunks.specs.Cases.{branches_of, failure};
ghost use Rattle.sym_chunks.specs.Forms.{form_of};
ghost use Rattle.sym_chunks.specs.NameTerms.{distinct_from};
ghost use Rattle.sym_chunks.specs.View.{chunk_branches_view};
ghost use Rattle.sym_model.specs.Alternatives.{alternatives_view, any, always as no_condition, same, of_kind, not_of_kind};
ghost use Rattle.sym_model.specs.Pure.{done};
ghost use Rattle.sym_model.specs.View.{chunk_view, frag_view};

use crate::distinct::are_distinct_literals;
use gil_values::Kind;
use mem_model::Failure;
use pure_terms::{Literal, Term, Terms, Var};
use sequence::Sequence;
use std::alloc::{AllocError, Global};
use sym_chunks::{
    distinct_names, equal_to_one, form_needed, with_branches, with_failure, with_last_branches,
};
use sym_model::{
    Alternatives, Branches, Chunk, SymFrag, SymResult, SymSub, always, extend, kind_is,
    kind_is_not, never,
};

/// The term is no text, or equal to one of these.
fn faulty_before(alloc: Global, term: &Term, later: &[Term]) -> Result<Alternatives, AllocError>
    ensures { IfOk result (λ x. alternatives_view x ≡ not_of_kind (term_view term.now) Kind.Str ++ any (same (term_view term.now))
        (map term_view later.now)) }
{
    let no_text = kind_is_not(alloc, term, Kind::Str)?;
    extend(alloc, no_text, &equal_to_one(alloc, term, later)?)
}

/// Some name is no text, or two are equal.
fn faulty(alloc: Global, names: &[Term]) -> Result<Alternatives, AllocError>
    ensures { IfOk result (λ x. alternatives_view x ≡ faulty_of (map term_view names.now)) }
{
    if are_distinct_literals(alloc, names)? {
        return Ok(never(alloc));
    }
    let mut alternatives = never(alloc);
    for (index, name) in names.iter().enumerate() {
        let faults = faulty_before(alloc, name, &names[index + 1..])?;
        alternatives = extend(alloc, alternatives, &faults)?;
    }
    Ok(alternatives)
}

/// Each name is a text, and no two are equal.
fn distinct(alloc: Global, names: &[Term]) -> Result<Alternatives, AllocError>
    ensures { IfOk result (λ x. alternatives_view x ≡ distinct_from no_condition (map term_view names.now)) }
{
    let first = always(alloc)?;
    if are_distinct_literals(alloc, names)? {
        return Ok(first);
    }
    distinct_names(alloc, first, names)
}

/// The chunk of a new record's name, which holds Null.
fn name_chunk(alloc: Global, location: Var, name: &Term) -> Result<Chunk, AllocError>
    ensures { IfOk result (λ c. chunk_view c ≡ name_chunk_of location (term_view name.now)) }
{
    Ok(Chunk {
        loc: Term::Var(location),
        sub: SymSub::Name(name.copy(alloc)?),
        val: Term::Lit(Literal::Kind(Kind::Null)),
    })
}

/// The chunks with those of a new record.
fn with_record(
    alloc: Global,
    location: Var,
    names: &Terms,
    chunks: &SymFrag,
) -> Result<SymFrag, AllocError>
    ensures { IfOk result (λ cs. frag_view cs ≡ created_of location (list_of (from_list (terms_view names.now)))
        (terms_view names.now) (frag_view chunks.now)) }
{
    let mut made = chunks.copy(alloc)?;
    for name in names.as_slice() {
        made.push(name_chunk(alloc, location, name)?)?;
    }
    let val = Term::List(names.copy(alloc)?);
    made.push(Chunk {
        loc: Term::Var(location),
        sub: SymSub::Shape,
        val,
    })?;
    Ok(made)
}

/// The branches in which the terms are no distinct texts.
fn refused(alloc: Global, names: &Terms, chunks: &SymFrag) -> Result<Branches<SymFrag>, AllocError>
    ensures { IfOk result (λ bs. chunk_branches_view bs ≡ branches_of (faulty_of (terms_view names.now)) (frag_view chunks.now)
        (failure Failure.Kind)) }
{
    let faults = faulty(alloc, names.as_slice())?;
    with_failure(alloc, Sequence::new(alloc), faults, chunks, Failure::Kind)
}

/// The branches in which the terms are distinct texts, and the record is made.
fn with_made(
    alloc: Global,
    branches: Branches<SymFrag>,
    location: Var,
    names: &Terms,
    chunks: &SymFrag,
) -> Result<Branches<SymFrag>, AllocError>
    ensures { IfOk result (λ bs. chunk_branches_view bs ≡ chunk_branches_view branches ++ branches_of (distinct_from no_condition
        (terms_view names.now)) (created_of location (list_of (from_list (terms_view names.now))) (terms_view names.now)
        (frag_view chunks.now)) (done (variable location))) }
{
    let when = distinct(alloc, names.as_slice())?;
    let made = with_record(alloc, location, names, chunks)?;
    let outcome = SymResult::Done(Term::Var(location));
    with_last_branches(alloc, branches, when, made, outcome)
}

/// The branches of a new record with the names of a list term.
fn make_listed(
    alloc: Global,
    location: Var,
    names: &Terms,
    chunks: &SymFrag,
) -> Result<Branches<SymFrag>, AllocError>
    ensures { IfOk result (λ bs. chunk_branches_view bs ≡ make_of location (list_of (from_list (terms_view names.now)))
        (frag_view chunks.now)) }
{
    let branches = refused(alloc, names, chunks)?;
    with_made(alloc, branches, location, names, chunks)
}

/// The branches of a new record with the names that are the value of a term, which is no list term.
fn make_unlisted(
    alloc: Global,
    location: Var,
    names: &Term,
    chunks: &SymFrag,
) -> Result<Branches<SymFrag>, AllocError>
    ensures { IfOk result (λ bs. chunk_branches_view bs ≡ branches_of (not_of_kind (term_view names.now) Kind.List) (frag_view chunks.now)
        (failure Failure.Kind) ++ branches_of (form_of (term_view names.now) (of_kind (term_view names.now) Kind.List))
        (frag_view chunks.now) (done (variable location))) }
{
    let no_list = kind_is_not(alloc, names, Kind::List)?;
    let branches = with_failure(alloc, Sequence::new(alloc), no_list, chunks, Failure::Kind)?;
    let list = kind_is(alloc, names, Kind::List)?;
    let opened = form_needed(alloc, names, &list)?;
    let outcome = SymResult::Done(Term::Var(location));
    with_branches(alloc, branches, opened, chunks, &outcome)
}

/// The branches of a new record.
pub fn make(
    alloc: Global,
    location: Var,
    names: &Term,
    chunks: &SymFrag,
) -> Result<Branches<SymFrag>, AllocError>
    ensures { IfOk result (λ bs. chunk_branches_view bs ≡ make_of location (term_view names.now) (frag_view chunks.now)) }
{
    match names {
        Term::List(names) => make_listed(alloc, location, names, chunks),
        _ => make_unlisted(alloc, location, names, chunks),
    }
}
