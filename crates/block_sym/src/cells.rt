//! `load` and `store`: the cell at an offset.
ghost use Rattle.std.specs.Prelude.{◌≡◌, ◌++◌, IfOk};
ghost use Rattle.pure_terms.specs.View.{term_view};
ghost use Rattle.block_sym.specs.Table.{lacks, lacks_there, past, gone_case, unfound_cases, cell_cases};
ghost use Rattle.mem_model.specs.declared.failures.Failure.{Failure};
ghost use Rattle.sym_chunks.specs.ByPlace.{all_by_place as all_by_place_of, any_at as any_at_of};
ghost use Rattle.sym_chunks.specs.Cases.{case_of, choose as choose_of, failure, found as found_of};
ghost use Rattle.sym_chunks.specs.View.{access_view, cases_view, chunk_branches_view};
ghost use Rattle.sym_model.specs.Alternatives.{alternatives_view};
ghost use Rattle.sym_model.specs.Pure.{bound, cell, missed};
ghost use Rattle.sym_model.specs.View.{chunk_view, chunks_view, frag_view, result_view};

use crate::whole::is_whole;
use mem_model::Failure;
use pure_terms::Term;
use sequence::Sequence;
use std::alloc::{AllocError, Global};
use sym_chunks::{
    Access, Cases, ChunkTest, all_by_place, any_at, any_key, choose, has_sure_case, inside,
    outside, with_case, with_failure_case, with_found,
};
use sym_model::{
    Alternatives, Branches, Chunk, SymFrag, SymKey, SymResult, SymSub, always, never, terms_differ,
};

/// An offset is inside the bound that the chunk holds, one of these, unless all cells of its location are there.
fn inside_unless_whole(
    alloc: Global,
    offset: &Term,
    chunks: &[Chunk],
    chunk: &Chunk,
) -> Result<Alternatives, AllocError>
    ensures { IfOk result (λ x. alternatives_view x ≡ lacks_there (chunks_view chunks.now) (term_view chunk.now.loc)
        (term_view offset.now) bound (term_view chunk.now.val)) }
{
    if is_whole(&chunk.loc, &chunk.val, chunks) {
        return Ok(never(alloc));
    }
    inside(alloc, offset, &chunk.val)
}

/// The chunk, which is one of these, doesn't tell of the cell at an offset.
#[derive(Debug, Drop)]
struct LacksCell<'a> {
    offset: &'a Term,
    chunks: &'a [Chunk],
}

impl ChunkTest for LacksCell<'_> {
    ghost says = { λ test c. lacks (chunks_view test.chunks.now) (term_view test.offset.now) c };

    fn ask(&self, alloc: Global, chunk: &Chunk) -> Result<Alternatives, AllocError> {
        match &chunk.sub {
            SymSub::At(other) => terms_differ(alloc, self.offset, other),
            SymSub::Gone => Ok(never(alloc)),
            SymSub::Bound => inside_unless_whole(alloc, self.offset, self.chunks, chunk),
            _ => always(alloc),
        }
    }
}

/// A chunk is a bound, and the offset is outside it.
#[derive(Debug, Drop)]
struct PastBound<'a> {
    offset: &'a Term,
}

impl ChunkTest for PastBound<'_> {
    ghost says = { λ test c. past (term_view test.offset.now) c };

    fn ask(&self, alloc: Global, chunk: &Chunk) -> Result<Alternatives, AllocError> {
        match chunk.sub {
            SymSub::Bound => outside(alloc, self.offset, &chunk.val),
            _ => Ok(never(alloc)),
        }
    }
}

/// The cases, and that in which the location is gone.
pub fn with_gone(
    alloc: Global,
    cases: Cases,
    l: &Term,
    chunks: &SymFrag,
) -> Result<Cases, AllocError>
    ensures { IfOk result (λ cs. cases_view cs ≡ cases_view cases ++ gone_case (term_view l.now) (frag_view chunks.now)) }
{
    let gone = any_key(alloc, l, &SymSub::Gone, chunks.as_slice())?;
    with_failure_case(alloc, cases, gone, chunks, Failure::Gone)
}

/// The cases, and that in which the offset is outside the location's bound.
fn with_past(
    alloc: Global,
    cases: Cases,
    l: &Term,
    offset: &Term,
    chunks: &SymFrag,
) -> Result<Cases, AllocError>
    ensures { IfOk result (λ cs. cases_view cs ≡ cases_view cases ++ case_of (any_at_of (term_view l.now) (past (term_view offset.now))
        (frag_view chunks.now)) (frag_view chunks.now) (failure Failure.Bound)) }
{
    let past = any_at(alloc, l, &PastBound { offset }, chunks.as_slice())?;
    with_failure_case(alloc, cases, past, chunks, Failure::Bound)
}

/// No chunk of the location tells of the cell.
fn lacks_cell(
    alloc: Global,
    l: &Term,
    offset: &Term,
    chunks: &[Chunk],
) -> Result<Alternatives, AllocError>
    ensures { IfOk result (λ x. alternatives_view x ≡ all_by_place_of (term_view l.now) (lacks (chunks_view chunks.now)
        (term_view offset.now)) (chunks_view chunks.now)) }
{
    all_by_place(alloc, l, &LacksCell { offset, chunks }, chunks)
}

/// The result that misses the cell.
fn missed_cell(alloc: Global, l: &Term, offset: &Term) -> Result<SymResult, AllocError>
    ensures { IfOk result (λ r. result_view r ≡ missed (record { loc = term_view l.now; sub = cell (term_view offset.now) })) }
{
    let loc = l.copy(alloc)?;
    let sub = SymSub::At(offset.copy(alloc)?);
    Ok(SymResult::Miss(SymKey { loc, sub }))
}

/// The cases, and that in which no chunk tells of the cell.
fn with_missed(
    alloc: Global,
    cases: Cases,
    l: &Term,
    offset: &Term,
    chunks: &SymFrag,
) -> Result<Cases, AllocError>
    ensures { IfOk result (λ cs. cases_view cs ≡ cases_view cases ++ case_of (all_by_place_of (term_view l.now) (lacks
        (frag_view chunks.now) (term_view offset.now)) (frag_view chunks.now)) (frag_view chunks.now) (missed
        (record { loc = term_view l.now; sub = cell (term_view offset.now) }))) }
{
    let outcome = missed_cell(alloc, l, offset)?;
    let lacking = lacks_cell(alloc, l, offset, chunks.as_slice())?;
    with_case(alloc, cases, lacking, chunks, &outcome)
}

/// The cases in which the cell is found.
fn found_cell(
    alloc: Global,
    access: &Access,
    l: &Term,
    offset: &Term,
    chunks: &SymFrag,
) -> Result<Cases, AllocError>
    ensures { IfOk result (λ cs. cases_view cs ≡ found_of (access_view access.now) (term_view l.now) (cell (term_view offset.now))
        (frag_view chunks.now)) }
{
    let sub = SymSub::At(offset.copy(alloc)?);
    with_found(alloc, Sequence::new(alloc), access, l, &sub, chunks)
}

/// The cases, and those in which the cell isn't found.
fn with_unfound(
    alloc: Global,
    found: Cases,
    l: &Term,
    offset: &Term,
    chunks: &SymFrag,
) -> Result<Cases, AllocError>
    ensures { IfOk result (λ cs. cases_view cs ≡ cases_view found ++ unfound_cases (term_view l.now) (term_view offset.now)
        (frag_view chunks.now)) }
{
    let gone = with_gone(alloc, found, l, chunks)?;
    let past = with_past(alloc, gone, l, offset, chunks)?;
    with_missed(alloc, past, l, offset, chunks)
}

/// The branches, and those of the cell at an offset of a location, where the alternatives hold.
pub fn act_on_cell(
    alloc: Global,
    branches: Branches<SymFrag>,
    when: Alternatives,
    access: &Access,
    l: &Term,
    offset: &Term,
    chunks: &SymFrag,
) -> Result<Branches<SymFrag>, AllocError>
    ensures { IfOk result (λ bs. chunk_branches_view bs ≡ chunk_branches_view branches ++ choose_of (alternatives_view when) (cell_cases
        (access_view access.now) (term_view l.now) (term_view offset.now) (frag_view chunks.now))) }
{
    let found = found_cell(alloc, access, l, offset, chunks)?;
    if has_sure_case(&found) {
        return choose(alloc, branches, when, found);
    }
    let cases = with_unfound(alloc, found, l, offset, chunks)?;
    choose(alloc, branches, when, cases)
}
