//! The chunks that may be those of a key.
ghost use Rattle.std.specs.Prelude.{◌≡◌, ◌++◌, ◌<◌, ◌∷◌, length, IfOk};
ghost use Rattle.pure_terms.specs.View.{term_view};
ghost use Rattle.sym_chunks.specs.Cases.{accessed, case_of, found as found_of, found_from, given_back, outs_listed};
ghost use Rattle.sym_chunks.specs.Keys.{at_key};
ghost use Rattle.sym_chunks.specs.View.{access_view, cases_view};
ghost use Rattle.sym_model.specs.Alternatives.{alternatives_view};
ghost use Rattle.sym_model.specs.View.{chunk_view, frag_view, result_view, sub_view};

use crate::cases::{Cases, with_made_case};
use crate::keys::key_here;
use pure_terms::{Term, Terms};
use std::alloc::{AllocError, Global};
use sym_model::{Chunk, SymFrag, SymResult, SymSub};

/// What is done with a chunk that is found. Contracts see it as its pure data, by `access_view`.
#[derive(Debug, Drop)]
pub enum Access {
    /// Its value is the result.
    Read,
    /// It holds the term then, which is the result.
    Write(Term),
    /// It is taken out, and the result lists its value.
    Take,
}

/// The outs of the chunk's core predicate, as a list term.
fn outs_of(alloc: Global, chunk: &Chunk) -> Result<Term, AllocError>
    ensures { IfOk result (λ t. term_view t ≡ outs_listed (chunk_view chunk.now)) }
{
    let mut outs = Terms::new(alloc);
    match chunk.sub {
        SymSub::Gone => {}
        _ => outs.push(chunk.val.copy(alloc)?)?,
    }
    Ok(Term::List(outs))
}

/// The result of an access.
fn result_of(alloc: Global, access: &Access, chunk: &Chunk) -> Result<SymResult, AllocError>
    ensures { IfOk result (λ r. result_view r ≡ given_back (access_view access.now) (chunk_view chunk.now)) }
{
    match access {
        Access::Read => Ok(SymResult::Done(chunk.val.copy(alloc)?)),
        Access::Write(val) => Ok(SymResult::Done(val.copy(alloc)?)),
        Access::Take => Ok(SymResult::Done(outs_of(alloc, chunk)?)),
    }
}

/// The chunks after an access to the one at a place.
fn chunks_after(
    alloc: Global,
    access: &Access,
    chunks: &SymFrag,
    index: usize,
) -> Result<SymFrag, AllocError>
    requires { index < length (frag_view chunks.now) }
    ensures { IfOk result (λ cs. frag_view cs ≡ accessed (access_view access.now) (frag_view chunks.now) index) }
{
    let mut after = chunks.copy(alloc)?;
    match access {
        Access::Read => {}
        Access::Write(val) => after.set_held(index, val.copy(alloc)?),
        Access::Take => after.remove(index),
    }
    Ok(after)
}

/// The cases, and that in which the chunk at a place is that of the key, unless it never is.
fn with_found_here(
    alloc: Global,
    cases: Cases,
    access: &Access,
    l: &Term,
    s: &SymSub,
    chunks: &SymFrag,
    index: usize,
    chunk: &Chunk,
) -> Result<Cases, AllocError>
    requires { index < length (frag_view chunks.now) }
    ensures { IfOk result (λ cs. cases_view cs ≡ cases_view cases ++ case_of (at_key (term_view l.now) (sub_view s.now)
        (chunk_view chunk.now)) (accessed (access_view access.now) (frag_view chunks.now) index) (given_back
        (access_view access.now) (chunk_view chunk.now))) }
{
    let when = key_here(alloc, l, s, chunk)?;
    if when.len() == 0 {
        return Ok(cases);
    }
    let after = chunks_after(alloc, access, chunks, index)?;
    let outcome = result_of(alloc, access, chunk)?;
    with_made_case(cases, when, after, outcome)
}

/// The cases, and one for each chunk that may be that of the key.
pub fn with_found(
    alloc: Global,
    cases: Cases,
    access: &Access,
    l: &Term,
    s: &SymSub,
    chunks: &SymFrag,
) -> Result<Cases, AllocError>
    ensures { IfOk result (λ cs. cases_view cs ≡ cases_view cases ++ found_of (access_view access.now) (term_view l.now)
        (sub_view s.now) (frag_view chunks.now)) }
{
    let mut cases = cases;
    for (index, chunk) in chunks.as_slice().iter().enumerate() {
        cases = with_found_here(alloc, cases, access, l, s, chunks, index, chunk)?;
    }
    Ok(cases)
}
