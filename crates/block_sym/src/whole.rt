//! Blocks all of whose cells are there.
ghost use Rattle.std.specs.Prelude.{◌≡◌, ◌-◌, ◌∷◌, [], ◌++◌, if◌then◌else◌, IfOk};
ghost use Rattle.block_sym.specs.Table.{
  is_cell as is_cell_of,
  is_cell_at as is_cell_at_of,
  cells_at,
  is_whole as is_whole_of,
  elsewhere as elsewhere_of,
  number,
};
ghost use Rattle.pure_terms.specs.View.{term_view};
ghost use Rattle.sym_model.specs.View.{chunk_view, chunks_view, frag_view, sub_view};

use crate::freeing::number_of_cells;
use pure_terms::{Literal, Term};
use std::alloc::{AllocError, Global};
use sym_model::{Chunk, SymFrag, SymSub};

fn is_cell(sub: &SymSub) -> bool
    ensures { result ≡ is_cell_of (sub_view sub.now) }
{
    match sub {
        SymSub::At(_) => true,
        _ => false,
    }
}

/// The chunk is a cell, and its location this very term.
fn is_cell_at(place: &Term, chunk: &Chunk) -> bool
    ensures { result ≡ is_cell_at_of (term_view place.now) (chunk_view chunk.now) }
{
    chunk.loc == *place && is_cell(&chunk.sub)
}

fn one_fewer(count: u128, is_fewer: bool) -> u128
    ensures { result ≡ if is_fewer then count - 1 else count }
{
    if is_fewer && count > 0 {
        return count - 1;
    }
    count
}

/// How many of so many cells aren't among the chunks.
fn lacking(place: &Term, count: u128, chunks: &[Chunk]) -> u128
    ensures { result ≡ count - cells_at (term_view place.now) (chunks_view chunks.now) }
{
    let mut lacking = count;
    for chunk in chunks {
        lacking = one_fewer(lacking, is_cell_at(place, chunk));
    }
    lacking
}

/// Whether the chunks are at least so many cells of the location term.
pub fn has_all_cells(place: &Term, cells: i128, chunks: &[Chunk]) -> bool
    ensures { result ≡ is_whole_of (term_view place.now) (number cells) (chunks_view chunks.now) }
{
    lacking(place, number_of_cells(cells), chunks) == 0
}

/// Whether the chunks are all cells that the location term has where this is its bound.
pub fn is_whole(place: &Term, bound: &Term, chunks: &[Chunk]) -> bool
    ensures { result ≡ is_whole_of (term_view place.now) (term_view bound.now) (chunks_view chunks.now) }
{
    match bound {
        Term::Lit(Literal::Int(cells)) => has_all_cells(place, *cells, chunks),
        _ => false,
    }
}

/// The chunks, and one more, unless its location is this very term.
fn with_elsewhere(
    alloc: Global,
    left: SymFrag,
    place: &Term,
    chunk: &Chunk,
) -> Result<SymFrag, AllocError>
    ensures { IfOk result (λ cs. frag_view cs ≡ frag_view left ++ elsewhere_of (term_view place.now) (chunk_view chunk.now ∷ [])) }
{
    let mut left = left;
    if chunk.loc == *place {
        return Ok(left);
    }
    left.push(chunk.copy(alloc)?)?;
    Ok(left)
}

/// The chunks whose location isn't this very term.
pub fn elsewhere(alloc: Global, place: &Term, chunks: &SymFrag) -> Result<SymFrag, AllocError>
    ensures { IfOk result (λ cs. frag_view cs ≡ elsewhere_of (term_view place.now) (frag_view chunks.now)) }
{
    let mut left = SymFrag::new(alloc);
    for chunk in chunks.as_slice() {
        left = with_elsewhere(alloc, left, place, chunk)?;
    }
    Ok(left)
}
