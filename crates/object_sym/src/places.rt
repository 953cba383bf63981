//! What a chunk is asked about the name of its location.
ghost use Rattle.std.specs.Prelude.{◌≡◌, IfOk};
ghost use Rattle.object_sym.specs.Places.{lists, lists_not, untold, knows_not, lacks, opened_at, opened as opened_of};
ghost use Rattle.pure_terms.specs.View.{term_view};
ghost use Rattle.sym_model.specs.Alternatives.{alternatives_view, any};
ghost use Rattle.sym_model.specs.View.{chunk_view, chunks_view};

use pure_terms::Term;
use std::alloc::{AllocError, Global};
use sym_chunks::{ChunkTest, all_other_subs, form_needed, listed, name_sub, unheld, unlisted};
use sym_model::{
    Alternatives, Chunk, SymSub, always, both, extend, never, terms_differ, terms_equal,
};

/// The chunk lists the names of its location, and the name is one of them.
#[derive(Debug, Drop)]
pub struct Lists<'a> {
    pub name: &'a Term,
}

impl ChunkTest for Lists<'_> {
    ghost says = { λ test c. lists (term_view test.name.now) c };

    fn ask(&self, alloc: Global, chunk: &Chunk) -> Result<Alternatives, AllocError> {
        match chunk.sub {
            SymSub::Dom => listed(alloc, self.name, &chunk.val),
            _ => Ok(never(alloc)),
        }
    }
}

/// The chunk lists the names of its location, and the name is none of them.
#[derive(Debug, Drop)]
pub struct ListsNot<'a> {
    pub name: &'a Term,
}

impl ChunkTest for ListsNot<'_> {
    ghost says = { λ test c. lists_not (term_view test.name.now) c };

    fn ask(&self, alloc: Global, chunk: &Chunk) -> Result<Alternatives, AllocError> {
        match chunk.sub {
            SymSub::Dom => unlisted(alloc, self.name, &chunk.val),
            _ => Ok(never(alloc)),
        }
    }
}

/// The chunk doesn't list the names of its location.
#[derive(Debug, Drop)]
pub struct Untold;

impl ChunkTest for Untold {
    ghost says = { λ test c. untold c };

    fn ask(&self, alloc: Global, chunk: &Chunk) -> Result<Alternatives, AllocError> {
        match (&chunk.sub, &chunk.val) {
            (SymSub::Dom, Term::List(_)) => Ok(never(alloc)),
            _ => always(alloc),
        }
    }
}

/// The chunk neither has the names of its location nor is that of the name.
#[derive(Debug, Drop)]
pub struct KnowsNot<'a> {
    pub name: &'a Term,
}

impl ChunkTest for KnowsNot<'_> {
    ghost says = { λ test c. knows_not (term_view test.name.now) c };

    fn ask(&self, alloc: Global, chunk: &Chunk) -> Result<Alternatives, AllocError> {
        match &chunk.sub {
            SymSub::Dom => Ok(never(alloc)),
            SymSub::Name(name) => terms_differ(alloc, self.name, name),
            _ => always(alloc),
        }
    }
}

/// The chunk, which is one of these, doesn't tell of the name.
#[derive(Debug, Drop)]
pub struct Lacks<'a> {
    pub name: &'a Term,
    pub chunks: &'a [Chunk],
}

impl ChunkTest for Lacks<'_> {
    ghost says = { λ test c. lacks (term_view test.name.now) (chunks_view test.chunks.now) c };

    fn ask(&self, alloc: Global, chunk: &Chunk) -> Result<Alternatives, AllocError> {
        match &chunk.sub {
            SymSub::Name(name) => terms_differ(alloc, self.name, name),
            SymSub::Dom => unheld(alloc, self.name, &chunk.loc, self.chunks, &chunk.val),
            _ => always(alloc),
        }
    }
}

/// The chunk has the location's names, whose list isn't known.
fn opened_here(alloc: Global, l: &Term, chunk: &Chunk) -> Result<Alternatives, AllocError>
    ensures { IfOk result (λ x. alternatives_view x ≡ opened_at (term_view l.now) (chunk_view chunk.now)) }
{
    match chunk.sub {
        SymSub::Dom => form_needed(alloc, &chunk.val, &terms_equal(alloc, l, &chunk.loc)?),
        _ => Ok(never(alloc)),
    }
}

/// Some chunk has the location's names, whose list isn't known.
fn any_opened(alloc: Global, l: &Term, chunks: &[Chunk]) -> Result<Alternatives, AllocError>
    ensures { IfOk result (λ x. alternatives_view x ≡ any (opened_at (term_view l.now)) (chunks_view chunks.now)) }
{
    let mut alternatives = never(alloc);
    for chunk in chunks {
        alternatives = extend(alloc, alternatives, &opened_here(alloc, l, chunk)?)?;
    }
    Ok(alternatives)
}

/// Some chunk has the location's names, whose list isn't known, and none is that of the name.
pub fn opened(
    alloc: Global,
    l: &Term,
    p: &Term,
    chunks: &[Chunk],
) -> Result<Alternatives, AllocError>
    ensures { IfOk result (λ x. alternatives_view x ≡ opened_of (term_view l.now) (term_view p.now) (chunks_view chunks.now)) }
{
    let forms = any_opened(alloc, l, chunks)?;
    let name = name_sub(alloc, p)?;
    let others = all_other_subs(alloc, l, &name, chunks)?;
    both(alloc, &forms, &others)
}
