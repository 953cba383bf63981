//! `dispose`.
ghost use Rattle.std.specs.Prelude.{◌≡◌, ◌++◌, ◌<◌, length, map, remove, IfOk};
ghost use Rattle.pure_terms.specs.View.{term_view};
ghost use Rattle.record_sym.specs.Places.{undescribed};
ghost use Rattle.record_sym.specs.Table.{disposed_there, disposed_from, dispose_cases as dispose_cases_of};
ghost use Rattle.sym_chunks.specs.ByPlace.{all_by_place as all_by_place_of};
ghost use Rattle.sym_chunks.specs.Cases.{case_of, missed_key as missed_key_of, true_term};
ghost use Rattle.sym_chunks.specs.Forms.{form_of};
ghost use Rattle.sym_chunks.specs.View.{cases_view, ways_view};
ghost use Rattle.sym_chunks.specs.Walking.{walk, way_of};
ghost use Rattle.sym_model.specs.Alternatives.{same};
ghost use Rattle.sym_model.specs.Pure.{named, shape, done};
ghost use Rattle.sym_model.specs.View.{frag_view, sub_view};

use crate::places::Undescribed;
use pure_terms::{Literal, Term};
use sequence::Sequence;
use std::alloc::{AllocError, Global};
use sym_chunks::{
    Cases, Walk, Ways, all_by_place, form_needed, missed_key, name_sub, walk_on, with_all_taken,
    with_case, with_gone, with_way, without_chunk,
};
use sym_model::{Chunk, SymFrag, SymResult, SymSub, terms_equal};

/// The cases, and those of taking the names one after another, which end with the ways to take them.
fn take_names(
    alloc: Global,
    cases: Cases,
    chunks: &SymFrag,
    l: &Term,
    names: &[Term],
    first: Ways,
) -> Result<Cases, AllocError>
    ensures { IfOk result (λ cs. cases_view cs ≡ cases_view cases ++ walk (frag_view chunks.now) (term_view l.now) (map named (map
        term_view names.now)) (ways_view first)) }
{
    let mut walk = Walk { cases, ways: first };
    for name in names {
        let sub = name_sub(alloc, name)?;
        walk = walk_on(alloc, walk, chunks, l, &sub)?;
    }
    let Walk { cases, ways } = walk;
    with_all_taken(alloc, cases, l, &ways)
}

/// The cases in which the chunk at a place, which lists the names, is that of the location.
fn with_listed_names(
    alloc: Global,
    cases: Cases,
    l: &Term,
    chunks: &SymFrag,
    index: usize,
    place: &Term,
    names: &[Term],
) -> Result<Cases, AllocError>
    requires { index < length (frag_view chunks.now) }
    ensures { IfOk result (λ cs. cases_view cs ≡ cases_view cases ++ walk (frag_view chunks.now) (term_view place.now) (map named (map
        term_view names.now)) (way_of (same (term_view l.now) (term_view place.now)) (remove (frag_view chunks.now) index))) }
{
    let here = terms_equal(alloc, l, place)?;
    if here.len() == 0 {
        return Ok(cases);
    }
    let left = without_chunk(alloc, chunks, index)?;
    let first = with_way(Sequence::new(alloc), here, left)?;
    take_names(alloc, cases, chunks, place, names, first)
}

/// The case in which the chunk, which has the names in a form that is needed, is that of the location.
fn with_opened_names(
    alloc: Global,
    cases: Cases,
    l: &Term,
    chunks: &SymFrag,
    chunk: &Chunk,
) -> Result<Cases, AllocError>
    ensures { IfOk result (λ cs. cases_view cs ≡ cases_view cases ++ case_of (form_of (term_view chunk.now.val) (same (term_view l.now)
        (term_view chunk.now.loc))) (frag_view chunks.now) (done true_term)) }
{
    let here = terms_equal(alloc, l, &chunk.loc)?;
    let opened = form_needed(alloc, &chunk.val, &here)?;
    let outcome = SymResult::Done(Term::Lit(Literal::Bool(true)));
    with_case(alloc, cases, opened, chunks, &outcome)
}

/// The cases in which the chunk at a place has the names of the location.
fn with_names_here(
    alloc: Global,
    cases: Cases,
    l: &Term,
    chunks: &SymFrag,
    index: usize,
    chunk: &Chunk,
) -> Result<Cases, AllocError>
    requires { index < length (frag_view chunks.now) }
    ensures { IfOk result (λ cs. cases_view cs ≡ cases_view cases ++ disposed_there (term_view l.now) (frag_view chunks.now) index
        (term_view chunk.now.loc) (sub_view chunk.now.sub) (term_view chunk.now.val)) }
{
    match chunk.sub {
        SymSub::Shape => match &chunk.val {
            Term::List(names) => {
                with_listed_names(alloc, cases, l, chunks, index, &chunk.loc, names.as_slice())
            }
            _ => with_opened_names(alloc, cases, l, chunks, chunk),
        },
        _ => Ok(cases),
    }
}

/// The cases in which some chunk has the names of the location.
fn with_names(alloc: Global, cases: Cases, l: &Term, chunks: &SymFrag) -> Result<Cases, AllocError>
    ensures { IfOk result (λ cs. cases_view cs ≡ cases_view cases ++ disposed_from (term_view l.now) (frag_view chunks.now) 0
        (frag_view chunks.now)) }
{
    let mut cases = cases;
    for (index, chunk) in chunks.as_slice().iter().enumerate() {
        cases = with_names_here(alloc, cases, l, chunks, index, chunk)?;
    }
    Ok(cases)
}

/// The cases, and that in which no chunk has the names of the location.
fn with_missed_names(
    alloc: Global,
    cases: Cases,
    l: &Term,
    chunks: &SymFrag,
) -> Result<Cases, AllocError>
    ensures { IfOk result (λ cs. cases_view cs ≡ cases_view cases ++ case_of (all_by_place_of (term_view l.now) undescribed
        (frag_view chunks.now)) (frag_view chunks.now) (missed_key_of (term_view l.now) shape)) }
{
    let outcome = missed_key(alloc, l, &SymSub::Shape)?;
    let missing = all_by_place(alloc, l, &Undescribed, chunks.as_slice())?;
    with_case(alloc, cases, missing, chunks, &outcome)
}

/// The cases of disposing of a location.
pub fn dispose_cases(alloc: Global, l: &Term, chunks: &SymFrag) -> Result<Cases, AllocError>
    ensures { IfOk result (λ cs. cases_view cs ≡ dispose_cases_of (term_view l.now) (frag_view chunks.now)) }
{
    let gone = with_gone(alloc, Sequence::new(alloc), l, chunks)?;
    let taken = with_names(alloc, gone, l, chunks)?;
    with_missed_names(alloc, taken, l, chunks)
}
