//! A condition on each chunk of a location.
ghost use Rattle.std.specs.Prelude.{◌≡◌, List, map, IfOk};
ghost use Rattle.std.specs.List.{list_any};
ghost use Rattle.pure_terms.specs.Equality.{same_term};
ghost use Rattle.pure_terms.specs.Pure.{PureAtom};
ghost use Rattle.pure_terms.specs.View.{term_view, terms_view};
ghost use Rattle.sym_chunks.specs.ByPlace.{
  elsewhere_or as elsewhere_or_of,
  places_of as places_in,
  all_at as all_at_of,
  all_there as all_there_of,
  all_by_place as all_by_place_of,
  any_at as any_at_of,
};
ghost use Rattle.sym_model.specs.Alternatives.{alternatives_view, always as no_condition, both as combined, same};
ghost use Rattle.sym_model.specs.Pure.{PureChunk};
ghost use Rattle.sym_model.specs.View.{chunk_view, chunks_view};

use crate::cases::is_sure;
use pure_terms::{Term, Terms};
use std::alloc::{AllocError, Global};
use sym_model::{
    Alternatives, Chunk, Comparison, always, both, compare, extend, never, terms_differ,
    terms_equal,
};

/// A condition on chunks of the location that is asked for.
pub trait ChunkTest {
    /// The condition.
    ghost says: { Self → PureChunk → List (List PureAtom) };

    fn ask(&self, alloc: Global, chunk: &Chunk) -> Result<Alternatives, AllocError>
        ensures { IfOk result (λ x. alternatives_view x ≡ says self.now (chunk_view chunk.now)) };
}

/// Another location, or this one and the alternatives.
pub fn elsewhere_or(
    alloc: Global,
    l: &Term,
    place: &Term,
    there: Alternatives,
) -> Result<Alternatives, AllocError>
    ensures { IfOk result (λ x. alternatives_view x ≡ elsewhere_or_of (term_view l.now) (term_view place.now) (alternatives_view there)) }
{
    if is_sure(&there) {
        return always(alloc);
    }
    let elsewhere = terms_differ(alloc, l, place)?;
    let here = both(alloc, &terms_equal(alloc, l, place)?, &there)?;
    extend(alloc, elsewhere, &here)
}

fn stands_in(term: &Term, terms: &[Term]) -> bool
    ensures { result ≡ list_any (same_term (term_view term.now)) (map term_view terms.now) }
{
    for other in terms {
        if *term == *other {
            return true;
        }
    }
    false
}

/// The terms that are locations of chunks, each once.
pub fn places_of(alloc: Global, chunks: &[Chunk]) -> Result<Terms, AllocError>
    ensures { IfOk result (λ ts. terms_view ts ≡ places_in (chunks_view chunks.now)) }
{
    let mut places = Terms::new(alloc);
    for chunk in chunks {
        if !stands_in(&chunk.loc, places.as_slice()) {
            places.push(chunk.loc.copy(alloc)?)?;
        }
    }
    Ok(places)
}

/// The condition of each chunk whose location is this very term.
fn all_at<T: ChunkTest>(
    alloc: Global,
    test: &T,
    place: &Term,
    chunks: &[Chunk],
) -> Result<Alternatives, AllocError>
    ensures { IfOk result (λ x. alternatives_view x ≡ all_at_of no_condition (T.says test.now) (term_view place.now)
        (chunks_view chunks.now)) }
{
    let mut alternatives = always(alloc)?;
    for chunk in chunks {
        if chunk.loc == *place {
            alternatives = both(alloc, &alternatives, &test.ask(alloc, chunk)?)?;
        }
    }
    Ok(alternatives)
}

/// The chunks at a place are of another location, or the condition of each holds.
fn all_there<T: ChunkTest>(
    alloc: Global,
    l: &Term,
    test: &T,
    place: &Term,
    chunks: &[Chunk],
) -> Result<Alternatives, AllocError>
    ensures { IfOk result (λ x. alternatives_view x ≡ all_there_of (term_view l.now) (T.says test.now) (chunks_view chunks.now)
        (term_view place.now)) }
{
    if compare(l, place) == Comparison::Different {
        return always(alloc);
    }
    let there = all_at(alloc, test, place, chunks)?;
    elsewhere_or(alloc, l, place, there)
}

/// Each chunk is at another location, or its condition holds.
pub fn all_by_place<T: ChunkTest>(
    alloc: Global,
    l: &Term,
    test: &T,
    chunks: &[Chunk],
) -> Result<Alternatives, AllocError>
    ensures { IfOk result (λ x. alternatives_view x ≡ all_by_place_of (term_view l.now) (T.says test.now) (chunks_view chunks.now)) }
{
    let mut alternatives = always(alloc)?;
    let places = places_of(alloc, chunks)?;
    for place in places.as_slice() {
        alternatives = both(
            alloc,
            &alternatives,
            &all_there(alloc, l, test, place, chunks)?,
        )?;
    }
    Ok(alternatives)
}

/// The chunk is at the location, and its condition holds.
fn here_and<T: ChunkTest>(
    alloc: Global,
    l: &Term,
    test: &T,
    chunk: &Chunk,
) -> Result<Alternatives, AllocError>
    ensures { IfOk result (λ x. alternatives_view x ≡ combined (same (term_view l.now) (term_view chunk.now.loc))
        (T.says test.now (chunk_view chunk.now))) }
{
    let condition = test.ask(alloc, chunk)?;
    if condition.len() == 0 {
        return Ok(never(alloc));
    }
    both(alloc, &terms_equal(alloc, l, &chunk.loc)?, &condition)
}

/// Some chunk is at the location, and its condition holds.
pub fn any_at<T: ChunkTest>(
    alloc: Global,
    l: &Term,
    test: &T,
    chunks: &[Chunk],
) -> Result<Alternatives, AllocError>
    ensures { IfOk result (λ x. alternatives_view x ≡ any_at_of (term_view l.now) (T.says test.now) (chunks_view chunks.now)) }
{
    let mut alternatives = never(alloc);
    for chunk in chunks {
        alternatives = extend(alloc, alternatives, &here_and(alloc, l, test, chunk)?)?;
    }
    Ok(alternatives)
}
