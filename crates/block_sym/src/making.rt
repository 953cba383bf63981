//! `alloc`.
ghost use Rattle.std.specs.Prelude.{◌≡◌, ◌∷◌, ◌++◌, ◌<◌, ◌^◌, pos, IfOk, IsTrue};
ghost use Rattle.gil_values.specs.declared.kinds.Kind.{Kind};
ghost use Rattle.gil_values.specs.Pure.{integer};
ghost use Rattle.mem_model.specs.declared.failures.Failure.{Failure};
ghost use Rattle.pure_terms.specs.Pure.{variable};
ghost use Rattle.pure_terms.specs.View.{term_view};
ghost use Rattle.block_heap.specs.Table.{is_size};
ghost use Rattle.block_sym.specs.Table.{address_term as address_term_of, new_cells, created as created_of, make as make_of, number};
ghost use Rattle.sym_chunks.specs.Cases.{branches_of, failure};
ghost use Rattle.sym_chunks.specs.Forms.{form_of};
ghost use Rattle.sym_chunks.specs.View.{chunk_branches_view};
ghost use Rattle.sym_model.specs.Alternatives.{always as no_condition, of_kind, not_of_kind};
ghost use Rattle.sym_model.specs.Cores.{zero_term};
ghost use Rattle.sym_model.specs.Pure.{cell, done};
ghost use Rattle.sym_model.specs.View.{chunk_view, frag_view};

use crate::freeing::{number_of_cells, sub_of_cell};
use gil_values::Kind;
use mem_model::Failure;
use pure_terms::{Literal, Term, Terms, Var};
use sequence::Sequence;
use std::alloc::{AllocError, Global};
use sym_chunks::{form_needed, with_branches, with_failure, with_last_branches};
use sym_model::{Branches, Chunk, SymFrag, SymResult, SymSub, always, kind_is, kind_is_not};

/// The greatest number of cells that a block may have.
const GREATEST_SIZE: i128 = 10_000;

fn fits_size(cells: i128) -> bool
    ensures { result ≡ is_size cells }
{
    0 <= cells && cells <= GREATEST_SIZE
}

/// The address of a new block's first cell.
fn address_of(alloc: Global, location: Var) -> Result<Term, AllocError>
    ensures { IfOk result (λ t. term_view t ≡ address_term_of location) }
{
    let mut parts = Terms::new(alloc);
    parts.push(Term::Var(location))?;
    parts.push(Term::Lit(Literal::Int(0)))?;
    Ok(Term::List(parts))
}

/// A cell of a new block, which holds 0.
fn new_cell(location: Var, offset: u128) -> Chunk
    requires { offset < 2 ^ 127 }
    ensures { chunk_view result ≡ record { loc = variable location; sub = cell (number (pos offset)); val = zero_term } }
{
    Chunk {
        loc: Term::Var(location),
        sub: sub_of_cell(offset),
        val: Term::Lit(Literal::Int(0)),
    }
}

/// The chunks with so many cells of a new block.
fn with_cells(
    alloc: Global,
    location: Var,
    count: u128,
    chunks: &SymFrag,
) -> Result<SymFrag, AllocError>
    requires { count < 2 ^ 127 }
    ensures { IfOk result (λ cs. frag_view cs ≡ frag_view chunks.now ++ new_cells location 0 count) }
{
    let mut made = chunks.copy(alloc)?;
    for offset in 0..count {
        made.push(new_cell(location, offset))?;
    }
    Ok(made)
}

/// The chunks with those of a new block.
fn with_block(
    alloc: Global,
    location: Var,
    cells: i128,
    chunks: &SymFrag,
) -> Result<SymFrag, AllocError>
    ensures { IfOk result (λ cs. frag_view cs ≡ created_of location cells (frag_view chunks.now)) }
{
    let mut made = with_cells(alloc, location, number_of_cells(cells), chunks)?;
    made.push(Chunk {
        loc: Term::Var(location),
        sub: SymSub::Bound,
        val: Term::Lit(Literal::Int(cells)),
    })?;
    Ok(made)
}

/// The branch of a new block of so many cells.
fn make_sized(
    alloc: Global,
    location: Var,
    cells: i128,
    chunks: &SymFrag,
) -> Result<Branches<SymFrag>, AllocError>
    ensures { IfOk result (λ bs. chunk_branches_view bs ≡ make_of location (number cells) (frag_view chunks.now)) }
{
    let when = always(alloc)?;
    if !fits_size(cells) {
        return with_failure(alloc, Sequence::new(alloc), when, chunks, Failure::Size);
    }
    let made = with_block(alloc, location, cells, chunks)?;
    let outcome = SymResult::Done(address_of(alloc, location)?);
    with_last_branches(alloc, Sequence::new(alloc), when, made, outcome)
}

/// The branches of a new block whose size is the value of a term that is no number.
fn make_unsized(
    alloc: Global,
    location: Var,
    size: &Term,
    chunks: &SymFrag,
) -> Result<Branches<SymFrag>, AllocError>
    ensures { IfOk result (λ bs. chunk_branches_view bs ≡ branches_of (not_of_kind (term_view size.now) Kind.Int) (frag_view chunks.now)
        (failure Failure.Kind) ++ branches_of (form_of (term_view size.now) (of_kind (term_view size.now) Kind.Int))
        (frag_view chunks.now) (done (address_term_of location))) }
{
    let no_number = kind_is_not(alloc, size, Kind::Int)?;
    let branches = with_failure(
        alloc,
        Sequence::new(alloc),
        no_number,
        chunks,
        Failure::Kind,
    )?;
    let some_number = kind_is(alloc, size, Kind::Int)?;
    let opened = form_needed(alloc, size, &some_number)?;
    let outcome = SymResult::Done(address_of(alloc, location)?);
    with_branches(alloc, branches, opened, chunks, &outcome)
}

/// The branches of a new block.
pub fn make(
    alloc: Global,
    location: Var,
    size: &Term,
    chunks: &SymFrag,
) -> Result<Branches<SymFrag>, AllocError>
    ensures { IfOk result (λ bs. chunk_branches_view bs ≡ make_of location (term_view size.now) (frag_view chunks.now)) }
{
    match size {
        Term::Lit(Literal::Int(cells)) => make_sized(alloc, location, *cells, chunks),
        _ => make_unsized(alloc, location, size, chunks),
    }
}
