//! `free`.
ghost use Rattle.std.specs.Prelude.{◌≡◌, [], ◌∷◌, ◌++◌, ◌<◌, ◌^◌, length, remove, pos, IfOk};
ghost use Rattle.std.specs.List.{flat_map};
ghost use Rattle.gil_values.specs.Pure.{integer};
ghost use Rattle.mem_model.specs.declared.failures.Failure.{Failure};
ghost use Rattle.pure_terms.specs.View.{term_view};
ghost use Rattle.block_heap.specs.Table.{count_of};
ghost use Rattle.block_sym.specs.Table.{
  unbounded,
  cell_subs,
  bounded_there as bounded_there_of,
  bounded_from,
  elsewhere as elsewhere_of,
  is_whole,
  taken_whole,
  taken_by_bound,
  free_cases as free_cases_of,
  act_there,
  frees,
  number,
};
ghost use Rattle.sym_chunks.specs.ByPlace.{all_by_place as all_by_place_of};
ghost use Rattle.sym_chunks.specs.Cases.{branches_of, case_of, failure, true_term};
ghost use Rattle.sym_chunks.specs.Forms.{form_of};
ghost use Rattle.sym_chunks.specs.View.{cases_view, chunk_branches_view, ways_view};
ghost use Rattle.sym_chunks.specs.Walking.{missing_key, next_ways, walk, way_of};
ghost use Rattle.sym_model.specs.Alternatives.{alternatives_view, both as combined, same, other};
ghost use Rattle.sym_model.specs.Cores.{zero_term};
ghost use Rattle.sym_model.specs.Pure.{bound, cell, gone, done, missed};
ghost use Rattle.sym_model.specs.View.{chunk_view, chunks_view, frag_view, sub_view};

use crate::cells::with_gone;
use crate::whole::{elsewhere, has_all_cells};
use mem_model::Failure;
use pure_terms::{Literal, Term};
use sequence::Sequence;
use std::alloc::{AllocError, Global};
use sym_chunks::{
    Cases, ChunkTest, Walk, Ways, all_by_place, choose, form_needed, missed_key, walk_on,
    with_all_taken, with_case, with_failure, with_made_case, with_way, without_chunk,
};
use sym_model::{
    Alternatives, Branches, Chunk, SymFrag, SymResult, SymSub, always, both, never, terms_differ,
    terms_equal,
};

/// A chunk is neither a bound nor says that its location is gone.
#[derive(Debug, Drop)]
struct IsUnbounded {}

impl ChunkTest for IsUnbounded {
    ghost says = { λ test c. unbounded c };

    fn ask(&self, alloc: Global, chunk: &Chunk) -> Result<Alternatives, AllocError> {
        match chunk.sub {
            SymSub::Bound | SymSub::Gone => Ok(never(alloc)),
            _ => always(alloc),
        }
    }
}

/// How many cells a bound tells of.
pub fn number_of_cells(bound: i128) -> u128
    ensures number { result ≡ count_of (integer bound) }
    ensures small { result < 2 ^ 127 }
{
    if bound > 0 { bound as u128 } else { 0 }
}

/// The subkey of a cell.
pub fn sub_of_cell(offset: u128) -> SymSub
    requires { offset < 2 ^ 127 }
    ensures { sub_view result ≡ cell (number (pos offset)) }
{
    SymSub::At(Term::Lit(Literal::Int(offset as i128)))
}

/// A cell is taken besides.
fn take_cell(
    alloc: Global,
    walk: Walk,
    chunks: &SymFrag,
    l: &Term,
    offset: u128,
) -> Result<Walk, AllocError>
    requires { offset < 2 ^ 127 }
    ensures cases { IfOk result (λ w. cases_view w.cases ≡ cases_view walk.cases ++ flat_map (missing_key (frag_view chunks.now)
        (term_view l.now) (cell (number (pos offset)))) (ways_view walk.ways)) }
    ensures ways { IfOk result (λ w. ways_view w.ways ≡ flat_map (next_ways (term_view l.now) (cell (number (pos offset))))
        (ways_view walk.ways)) }
{
    walk_on(alloc, walk, chunks, l, &sub_of_cell(offset))
}

/// The cases, and those of taking so many cells one after another, which end with the ways to take them.
fn take_cells(
    alloc: Global,
    cases: Cases,
    chunks: &SymFrag,
    l: &Term,
    count: u128,
    first: Ways,
) -> Result<Cases, AllocError>
    requires { count < 2 ^ 127 }
    ensures { IfOk result (λ cs. cases_view cs ≡ cases_view cases ++ walk (frag_view chunks.now) (term_view l.now) (cell_subs 0 count)
        (ways_view first)) }
{
    let mut walk = Walk { cases, ways: first };
    for offset in 0..count {
        if walk.ways.len() == 0 {
            return Ok(walk.cases);
        }
        walk = take_cell(alloc, walk, chunks, l, offset)?;
    }
    let Walk { cases, ways } = walk;
    with_all_taken(alloc, cases, l, &ways)
}

/// The chunks without those of a location term, which is gone then.
fn without_block(alloc: Global, place: &Term, chunks: &SymFrag) -> Result<SymFrag, AllocError>
    ensures { IfOk result (λ cs. frag_view cs ≡ elsewhere_of (term_view place.now) (frag_view chunks.now)
        ++ record { loc = term_view place.now; sub = gone; val = true_term } ∷ []) }
{
    let mut left = elsewhere(alloc, place, chunks)?;
    left.push(Chunk {
        loc: place.copy(alloc)?,
        sub: SymSub::Gone,
        val: Term::Lit(Literal::Bool(true)),
    })?;
    Ok(left)
}

/// The cases, and that in which the location is this one, all of whose cells are there.
fn with_taken_whole(
    alloc: Global,
    cases: Cases,
    here: Alternatives,
    place: &Term,
    chunks: &SymFrag,
) -> Result<Cases, AllocError>
    ensures { IfOk result (λ cs. cases_view cs ≡ cases_view cases ++ case_of (alternatives_view here) (elsewhere_of
        (term_view place.now) (frag_view chunks.now) ++ record { loc = term_view place.now; sub = gone; val = true_term } ∷ [])
        (done true_term)) }
{
    let left = without_block(alloc, place, chunks)?;
    let outcome = SymResult::Done(Term::Lit(Literal::Bool(true)));
    with_made_case(cases, here, left, outcome)
}

/// The cases in which the chunk at a place, a literal bound, is that of the location, and its cells are taken one after another.
fn with_taken_cells(
    alloc: Global,
    cases: Cases,
    here: Alternatives,
    chunks: &SymFrag,
    index: usize,
    place: &Term,
    cells: i128,
) -> Result<Cases, AllocError>
    requires { index < length (frag_view chunks.now) }
    ensures { IfOk result (λ cs. cases_view cs ≡ cases_view cases ++ walk (frag_view chunks.now) (term_view place.now) (cell_subs 0
        (count_of (integer cells))) (way_of (alternatives_view here) (remove (frag_view chunks.now) index))) }
{
    let left = without_chunk(alloc, chunks, index)?;
    let first = with_way(Sequence::new(alloc), here, left)?;
    take_cells(alloc, cases, chunks, place, number_of_cells(cells), first)
}

/// The cases in which the chunk at a place, a literal bound, is that of the location.
fn with_literal_bound(
    alloc: Global,
    cases: Cases,
    l: &Term,
    chunks: &SymFrag,
    index: usize,
    place: &Term,
    cells: i128,
) -> Result<Cases, AllocError>
    requires { index < length (frag_view chunks.now) }
    ensures { IfOk result (λ cs. cases_view cs ≡ cases_view cases ++ taken_by_bound (is_whole (term_view place.now) (number cells)
        (frag_view chunks.now)) (term_view l.now) (frag_view chunks.now) index (term_view place.now) cells) }
{
    let here = terms_equal(alloc, l, place)?;
    if here.len() == 0 {
        return Ok(cases);
    }
    if has_all_cells(place, cells, chunks.as_slice()) {
        return with_taken_whole(alloc, cases, here, place, chunks);
    }
    with_taken_cells(alloc, cases, here, chunks, index, place, cells)
}

/// The case in which the chunk, a bound whose literal form is needed, is that of the location.
fn with_opened_bound(
    alloc: Global,
    cases: Cases,
    l: &Term,
    chunks: &SymFrag,
    chunk: &Chunk,
) -> Result<Cases, AllocError>
    ensures { IfOk result (λ cs. cases_view cs ≡ cases_view cases ++ case_of (form_of (term_view chunk.now.val) (same (term_view l.now)
        (term_view chunk.now.loc))) (frag_view chunks.now) (done true_term)) }
{
    let here = terms_equal(alloc, l, &chunk.loc)?;
    let opened = form_needed(alloc, &chunk.val, &here)?;
    let outcome = SymResult::Done(Term::Lit(Literal::Bool(true)));
    with_case(alloc, cases, opened, chunks, &outcome)
}

/// The cases in which the chunk at a place is the bound of the location.
fn with_bound_here(
    alloc: Global,
    cases: Cases,
    l: &Term,
    chunks: &SymFrag,
    index: usize,
    chunk: &Chunk,
) -> Result<Cases, AllocError>
    requires { index < length (frag_view chunks.now) }
    ensures { IfOk result (λ cs. cases_view cs ≡ cases_view cases ++ bounded_there_of (term_view l.now) (frag_view chunks.now) index
        (term_view chunk.now.loc) (sub_view chunk.now.sub) (term_view chunk.now.val)) }
{
    match chunk.sub {
        SymSub::Bound => match &chunk.val {
            Term::Lit(Literal::Int(cells)) => {
                with_literal_bound(alloc, cases, l, chunks, index, &chunk.loc, *cells)
            }
            _ => with_opened_bound(alloc, cases, l, chunks, chunk),
        },
        _ => Ok(cases),
    }
}

/// The cases in which some chunk is the bound of the location.
fn with_bound(alloc: Global, cases: Cases, l: &Term, chunks: &SymFrag) -> Result<Cases, AllocError>
    ensures { IfOk result (λ cs. cases_view cs ≡ cases_view cases ++ bounded_from (term_view l.now) (frag_view chunks.now) 0
        (frag_view chunks.now)) }
{
    let mut cases = cases;
    for (index, chunk) in chunks.as_slice().iter().enumerate() {
        cases = with_bound_here(alloc, cases, l, chunks, index, chunk)?;
    }
    Ok(cases)
}

/// No chunk is the location's bound or says that it is gone.
fn lacks_bound(alloc: Global, l: &Term, chunks: &[Chunk]) -> Result<Alternatives, AllocError>
    ensures { IfOk result (λ x. alternatives_view x ≡ all_by_place_of (term_view l.now) unbounded (chunks_view chunks.now)) }
{
    all_by_place(alloc, l, &IsUnbounded {}, chunks)
}

/// The cases, and that in which the location has no bound.
fn with_missed_bound(
    alloc: Global,
    cases: Cases,
    l: &Term,
    chunks: &SymFrag,
) -> Result<Cases, AllocError>
    ensures { IfOk result (λ cs. cases_view cs ≡ cases_view cases ++ case_of (all_by_place_of (term_view l.now) unbounded
        (frag_view chunks.now)) (frag_view chunks.now) (missed (record { loc = term_view l.now; sub = bound }))) }
{
    let outcome = missed_key(alloc, l, &SymSub::Bound)?;
    let lacking = lacks_bound(alloc, l, chunks.as_slice())?;
    with_case(alloc, cases, lacking, chunks, &outcome)
}

/// The cases of freeing a location.
fn free_cases(alloc: Global, l: &Term, chunks: &SymFrag) -> Result<Cases, AllocError>
    ensures { IfOk result (λ cs. cases_view cs ≡ free_cases_of (term_view l.now) (frag_view chunks.now)) }
{
    let gone = with_gone(alloc, Sequence::new(alloc), l, chunks)?;
    let bounded = with_bound(alloc, gone, l, chunks)?;
    with_missed_bound(alloc, bounded, l, chunks)
}

/// The branches, and those in which the offset isn't that of the first cell.
fn with_other_offset(
    alloc: Global,
    branches: Branches<SymFrag>,
    when: &Alternatives,
    offset: &Term,
    chunks: &SymFrag,
) -> Result<Branches<SymFrag>, AllocError>
    ensures { IfOk result (λ bs. chunk_branches_view bs ≡ chunk_branches_view branches ++ branches_of (combined
        (alternatives_view when.now) (other (term_view offset.now) zero_term)) (frag_view chunks.now) (failure Failure.Free)) }
{
    let zero = Term::Lit(Literal::Int(0));
    let elsewhere = both(alloc, when, &terms_differ(alloc, offset, &zero)?)?;
    with_failure(alloc, branches, elsewhere, chunks, Failure::Free)
}

/// Besides, the offset is that of the first cell.
fn at_first_cell(
    alloc: Global,
    when: &Alternatives,
    offset: &Term,
) -> Result<Alternatives, AllocError>
    ensures { IfOk result (λ x. alternatives_view x ≡ combined (alternatives_view when.now) (same (term_view offset.now) zero_term)) }
{
    let zero = Term::Lit(Literal::Int(0));
    both(alloc, when, &terms_equal(alloc, offset, &zero)?)
}

/// The branches, and those of freeing at an offset of a location, where the alternatives hold.
pub fn free(
    alloc: Global,
    branches: Branches<SymFrag>,
    when: &Alternatives,
    l: &Term,
    offset: &Term,
    chunks: &SymFrag,
) -> Result<Branches<SymFrag>, AllocError>
    ensures { IfOk result (λ bs. chunk_branches_view bs ≡ chunk_branches_view branches ++ act_there frees (alternatives_view when.now)
        (term_view l.now) (term_view offset.now) (frag_view chunks.now)) }
{
    let refused = with_other_offset(alloc, branches, when, offset, chunks)?;
    let first = at_first_cell(alloc, when, offset)?;
    let cases = free_cases(alloc, l, chunks)?;
    choose(alloc, refused, first, cases)
}
