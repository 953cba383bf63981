//! `delete`.
ghost use Rattle.std.specs.Prelude.{◌≡◌, [], ◌∷◌, ◌++◌, ◌<◌, length, map, remove, IfOk};
ghost use Rattle.object_sym.specs.Table.{
  taken_from,
  taken as taken_of,
  relisted as relisted_of,
  taken_each,
  deleted_there,
  deleted_from,
  delete_cases as delete_cases_of,
};
ghost use Rattle.pure_terms.specs.View.{term_view, terms_view};
ghost use Rattle.sym_chunks.specs.ByPlace.{all_by_place as all_by_place_of};
ghost use Rattle.sym_chunks.specs.Cases.{case_of, true_term, AreChosenAs, missed_name as missed_name_of};
ghost use Rattle.sym_chunks.specs.Forms.{form_of};
ghost use Rattle.sym_chunks.specs.Keys.{other_sub, at_key};
ghost use Rattle.sym_chunks.specs.NameTerms.{unlisted as unlisted_in};
ghost use Rattle.sym_chunks.specs.View.{cases_view};
ghost use Rattle.sym_model.specs.Alternatives.{alternatives_view, both as combined, same};
ghost use Rattle.sym_model.specs.Pure.{done};
ghost use Rattle.sym_model.specs.View.{chunk_view, frag_view, sub_view};

use crate::properties::missed_name;
use pure_terms::{Literal, Term, Terms};
use sequence::Sequence;
use std::alloc::{AllocError, Global};
use sym_chunks::{
    Cases, all_other_subs, form_needed, has_sure_case, key_here, missed_key, name_sub, unlisted,
    with_case, with_made_case, without_chunk,
};
use sym_model::{Alternatives, Chunk, SymFrag, SymResult, SymSub, both, terms_equal};

/// The terms, and more of them.
fn with_terms(alloc: Global, terms: Terms, more: &[Term]) -> Result<Terms, AllocError>
    ensures { IfOk result (λ ts. terms_view ts ≡ terms_view terms ++ map term_view more.now) }
{
    let mut terms = terms;
    for term in more {
        terms.push(term.copy(alloc)?)?;
    }
    Ok(terms)
}

/// The chunks, whose list of names at a place has these names.
fn relisted(
    alloc: Global,
    chunks: &SymFrag,
    index: usize,
    before: &[Term],
    after: &[Term],
) -> Result<SymFrag, AllocError>
    requires { index < length (frag_view chunks.now) }
    ensures { IfOk result (λ cs. frag_view cs ≡ relisted_of (frag_view chunks.now) index (map term_view before.now
        ++ map term_view after.now)) }
{
    let first = with_terms(alloc, Terms::new(alloc), before)?;
    let names = with_terms(alloc, first, after)?;
    let mut less = chunks.copy(alloc)?;
    less.set_held(index, Term::List(names));
    Ok(less)
}

/// The cases, and that in which the chunk at a place is that of the name, and is taken out.
fn with_taken_here(
    alloc: Global,
    cases: Cases,
    when: &Alternatives,
    loc: &Term,
    name: &SymSub,
    less: &SymFrag,
    index: usize,
    chunk: &Chunk,
) -> Result<Cases, AllocError>
    requires { index < length (frag_view less.now) }
    ensures { IfOk result (λ cs. cases_view cs ≡ cases_view cases ++ case_of (combined (alternatives_view when.now) (at_key
        (term_view loc.now) (sub_view name.now) (chunk_view chunk.now))) (remove (frag_view less.now) index) (done true_term)) }
{
    let here = both(alloc, when, &key_here(alloc, loc, name, chunk)?)?;
    if here.len() == 0 {
        return Ok(cases);
    }
    let after = without_chunk(alloc, less, index)?;
    let outcome = SymResult::Done(Term::Lit(Literal::Bool(true)));
    with_made_case(cases, here, after, outcome)
}

/// The cases, and those in which some chunk is that of the name, and is taken out.
fn with_taken_somewhere(
    alloc: Global,
    cases: Cases,
    when: &Alternatives,
    loc: &Term,
    name: &SymSub,
    chunks: &SymFrag,
    less: &SymFrag,
) -> Result<Cases, AllocError>
    requires { length (frag_view less.now) ≡ length (frag_view chunks.now) }
    ensures { IfOk result (λ cs. cases_view cs ≡ cases_view cases ++ taken_from (alternatives_view when.now) (term_view loc.now)
        (sub_view name.now) (frag_view less.now) 0 (frag_view chunks.now)) }
{
    let mut cases = cases;
    for (index, chunk) in chunks.as_slice().iter().enumerate() {
        cases = with_taken_here(alloc, cases, when, loc, name, less, index, chunk)?;
    }
    Ok(cases)
}

/// The cases, and that in which the name is missing from the chunks.
fn with_missing(
    alloc: Global,
    cases: Cases,
    when: &Alternatives,
    l: &Term,
    p: &Term,
    chunks: &SymFrag,
    loc: &Term,
    name: &SymSub,
) -> Result<Cases, AllocError>
    ensures { IfOk result (λ cs. cases_view cs ≡ cases_view cases ++ case_of (combined (alternatives_view when.now) (all_by_place_of
        (term_view loc.now) (λ c. other_sub (sub_view name.now) c.sub) (frag_view chunks.now))) (frag_view chunks.now) (missed_name_of
        (term_view l.now) (term_view p.now))) }
{
    let others = all_other_subs(alloc, loc, name, chunks.as_slice())?;
    let missing = both(alloc, when, &others)?;
    let outcome = missed_name(alloc, l, p)?;
    with_case(alloc, cases, missing, chunks, &outcome)
}

/// The cases, and those in which the name is an element of the list at a place, between those before and after it.
fn with_taken(
    alloc: Global,
    cases: Cases,
    l: &Term,
    p: &Term,
    chunks: &SymFrag,
    index: usize,
    loc: &Term,
    before: &[Term],
    e: &Term,
    after: &[Term],
) -> Result<Cases, AllocError>
    requires { index < length (frag_view chunks.now) }
    ensures { IfOk result (λ cs. cases_view cs ≡ cases_view cases ++ taken_of (combined (same (term_view l.now) (term_view loc.now)) (same
        (term_view p.now) (term_view e.now))) (term_view l.now) (term_view p.now) (frag_view chunks.now) (relisted_of
        (frag_view chunks.now) index (map term_view before.now ++ map term_view after.now)) (term_view loc.now) (term_view e.now)) }
{
    let here = terms_equal(alloc, l, loc)?;
    let equal = terms_equal(alloc, p, e)?;
    let when = both(alloc, &here, &equal)?;
    if when.len() == 0 {
        return Ok(cases);
    }
    let less = relisted(alloc, chunks, index, before, after)?;
    let name = name_sub(alloc, e)?;
    let found = with_taken_somewhere(alloc, cases, &when, loc, &name, chunks, &less)?;
    with_missing(alloc, found, &when, l, p, chunks, loc, &name)
}

/// The cases, and those in which the name is one of the elements of the list at a place.
fn with_taken_each(
    alloc: Global,
    cases: Cases,
    l: &Term,
    p: &Term,
    chunks: &SymFrag,
    index: usize,
    loc: &Term,
    names: &[Term],
) -> Result<Cases, AllocError>
    requires { index < length (frag_view chunks.now) }
    ensures { IfOk result (λ cs. cases_view cs ≡ cases_view cases ++ taken_each (term_view l.now) (term_view p.now) (frag_view chunks.now)
        index (term_view loc.now) [] (map term_view names.now)) }
{
    let mut cases = cases;
    for (place, e) in names.iter().enumerate() {
        let before = &names[..place];
        let after = &names[place + 1..];
        cases = with_taken(alloc, cases, l, p, chunks, index, loc, before, e, after)?;
    }
    Ok(cases)
}

/// The cases, and those in which the chunk at a place lists the location's names.
fn with_deleted_listed(
    alloc: Global,
    cases: Cases,
    l: &Term,
    p: &Term,
    chunks: &SymFrag,
    index: usize,
    chunk: &Chunk,
    names: &Terms,
) -> Result<Cases, AllocError>
    requires { index < length (frag_view chunks.now) }
    ensures { IfOk result (λ cs. cases_view cs ≡ cases_view cases ++ (case_of (combined (same (term_view l.now) (term_view chunk.now.loc))
        (unlisted_in (term_view p.now) (term_view chunk.now.val))) (frag_view chunks.now) (done true_term) ++ taken_each (term_view l.now)
        (term_view p.now) (frag_view chunks.now) index (term_view chunk.now.loc) [] (terms_view names.now))) }
{
    let here = terms_equal(alloc, l, &chunk.loc)?;
    let absent = both(alloc, &here, &unlisted(alloc, p, &chunk.val)?)?;
    let outcome = SymResult::Done(Term::Lit(Literal::Bool(true)));
    let cases = with_case(alloc, cases, absent, chunks, &outcome)?;
    with_taken_each(
        alloc,
        cases,
        l,
        p,
        chunks,
        index,
        &chunk.loc,
        names.as_slice(),
    )
}

/// The cases, and that in which the chunk has the location's names, whose list isn't known.
fn with_deleted_unlisted(
    alloc: Global,
    cases: Cases,
    l: &Term,
    chunks: &SymFrag,
    chunk: &Chunk,
) -> Result<Cases, AllocError>
    ensures { IfOk result (λ cs. cases_view cs ≡ cases_view cases ++ case_of (form_of (term_view chunk.now.val) (same (term_view l.now)
        (term_view chunk.now.loc))) (frag_view chunks.now) (done true_term)) }
{
    let here = terms_equal(alloc, l, &chunk.loc)?;
    let forms = form_needed(alloc, &chunk.val, &here)?;
    let outcome = SymResult::Done(Term::Lit(Literal::Bool(true)));
    with_case(alloc, cases, forms, chunks, &outcome)
}

/// The cases, and those in which the chunk at a place has the location's names.
fn with_deleted_here(
    alloc: Global,
    cases: Cases,
    l: &Term,
    p: &Term,
    chunks: &SymFrag,
    index: usize,
    chunk: &Chunk,
) -> Result<Cases, AllocError>
    requires { index < length (frag_view chunks.now) }
    ensures { IfOk result (λ cs. cases_view cs ≡ cases_view cases ++ deleted_there (term_view l.now) (term_view p.now)
        (frag_view chunks.now) index (term_view chunk.now.loc) (sub_view chunk.now.sub) (term_view chunk.now.val)) }
{
    match (&chunk.sub, &chunk.val) {
        (SymSub::Dom, Term::List(names)) => {
            with_deleted_listed(alloc, cases, l, p, chunks, index, chunk, names)
        }
        (SymSub::Dom, _) => with_deleted_unlisted(alloc, cases, l, chunks, chunk),
        _ => Ok(cases),
    }
}

/// The cases, and those in which some chunk has the location's names.
fn with_deleted(
    alloc: Global,
    cases: Cases,
    l: &Term,
    p: &Term,
    chunks: &SymFrag,
) -> Result<Cases, AllocError>
    ensures { IfOk result (λ cs. cases_view cs ≡ cases_view cases ++ deleted_from (term_view l.now) (term_view p.now)
        (frag_view chunks.now) 0 (frag_view chunks.now)) }
{
    let mut cases = cases;
    for (index, chunk) in chunks.as_slice().iter().enumerate() {
        cases = with_deleted_here(alloc, cases, l, p, chunks, index, chunk)?;
    }
    Ok(cases)
}

/// The cases of `delete`, without those after one that surely comes.
pub fn delete_cases(
    alloc: Global,
    l: &Term,
    p: &Term,
    chunks: &SymFrag,
) -> Result<Cases, AllocError>
    ensures { IfOk result (λ cs. AreChosenAs (cases_view cs) (delete_cases_of (term_view l.now) (term_view p.now) (frag_view chunks.now))) }
{
    let deleted = with_deleted(alloc, Sequence::new(alloc), l, p, chunks)?;
    if has_sure_case(&deleted) {
        return Ok(deleted);
    }
    let sub = SymSub::Dom;
    let undescribed = all_other_subs(alloc, l, &sub, chunks.as_slice())?;
    let outcome = missed_key(alloc, l, &sub)?;
    with_case(alloc, deleted, undescribed, chunks, &outcome)
}
