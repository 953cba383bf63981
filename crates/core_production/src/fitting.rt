//! What a new chunk needs by itself, and beside each chunk of its location.
ghost use Rattle.std.specs.Prelude.{◌≡◌, IfOk};
ghost use Rattle.core_production.specs.Producing.{
  are_names,
  is_right as is_right_of,
  needs_form as needs_form_of,
  listed_unless_open as listed_unless_open_of,
  name_fits as name_fits_of,
  cell_fits as cell_fits_of,
  names_fit as names_fit_of,
  bound_fits as bound_fits_of,
  prototype_fits as prototype_fits_of,
  fits_beside,
  has_open_names as has_open_names_of,
  fits_closed,
  opened_at,
};
ghost use Rattle.pure_terms.specs.View.{term_view};
ghost use Rattle.sym_model.specs.Alternatives.{alternatives_view, any, both as combined, of_kind};
ghost use Rattle.sym_model.specs.View.{chunk_view, chunks_view, sub_view};

use gil_values::Kind;
use pure_terms::Term;
use std::alloc::{AllocError, Global};
use sym_chunks::{ChunkTest, distinct_names, form_needed, inside, listed};
use sym_model::{
    Alternatives, Chunk, SymSub, always, both, extend, kind_is, never, terms_differ, terms_equal,
};

/// Besides, the term is of a kind.
fn with_kind(
    alloc: Global,
    first: &Alternatives,
    term: &Term,
    kind: Kind,
) -> Result<Alternatives, AllocError>
    ensures { IfOk result (λ x. alternatives_view x ≡ combined (alternatives_view first.now) (of_kind (term_view term.now) kind)) }
{
    both(alloc, first, &kind_is(alloc, term, kind)?)
}

/// Besides, the names are a list term of distinct texts, or another term that is a list.
fn with_names(alloc: Global, first: Alternatives, names: &Term) -> Result<Alternatives, AllocError>
    ensures { IfOk result (λ x. alternatives_view x ≡ are_names (alternatives_view first) (term_view names.now)) }
{
    match names {
        Term::List(names) => distinct_names(alloc, first, names.as_slice()),
        _ => with_kind(alloc, &first, names, Kind::List),
    }
}

/// The kinds of the chunk's key and of what it holds are right.
pub fn is_right(alloc: Global, given: &Chunk) -> Result<Alternatives, AllocError>
    ensures { IfOk result (λ x. alternatives_view x ≡ is_right_of (term_view given.now.loc) (sub_view given.now.sub) (term_view given.now.val)) }
{
    let place = kind_is(alloc, &given.loc, Kind::Sym)?;
    match &given.sub {
        SymSub::Name(name) => with_kind(alloc, &place, name, Kind::Str),
        SymSub::At(offset) => with_kind(alloc, &place, offset, Kind::Int),
        SymSub::Bound => with_kind(alloc, &place, &given.val, Kind::Int),
        SymSub::Shape | SymSub::Dom => with_names(alloc, place, &given.val),
        SymSub::Proto | SymSub::Gone => Ok(place),
    }
}

/// Whether the literal form of a list of names is needed.
fn needs_form(names: &Term) -> bool
    ensures { result ≡ needs_form_of (term_view names.now) }
{
    match names {
        Term::List(_) | Term::Lit(_) => false,
        _ => true,
    }
}

/// The name is one of the list, where its literal form isn't needed.
fn listed_unless_open(alloc: Global, name: &Term, names: &Term) -> Result<Alternatives, AllocError>
    ensures { IfOk result (λ x. alternatives_view x ≡ listed_unless_open_of (term_view name.now) (term_view names.now)) }
{
    if needs_form(names) {
        return always(alloc);
    }
    listed(alloc, name, names)
}

/// A name stands together with the chunk of its location, which has another key.
fn name_fits(alloc: Global, name: &Term, chunk: &Chunk) -> Result<Alternatives, AllocError>
    ensures { IfOk result (λ x. alternatives_view x ≡ name_fits_of (term_view name.now) (sub_view chunk.now.sub) (term_view chunk.now.val)) }
{
    match &chunk.sub {
        SymSub::Name(other) => terms_differ(alloc, name, other),
        SymSub::Shape | SymSub::Dom => listed_unless_open(alloc, name, &chunk.val),
        SymSub::Gone => Ok(never(alloc)),
        _ => always(alloc),
    }
}

/// A cell stands together with the chunk of its location, which has another key.
fn cell_fits(alloc: Global, offset: &Term, chunk: &Chunk) -> Result<Alternatives, AllocError>
    ensures { IfOk result (λ x. alternatives_view x ≡ cell_fits_of (term_view offset.now) (sub_view chunk.now.sub) (term_view chunk.now.val)) }
{
    match &chunk.sub {
        SymSub::At(other) => terms_differ(alloc, offset, other),
        SymSub::Bound => inside(alloc, offset, &chunk.val),
        SymSub::Gone => Ok(never(alloc)),
        _ => always(alloc),
    }
}

/// A list of names stands together with a subkey of its location.
fn names_fit(alloc: Global, names: &Term, sub: &SymSub) -> Result<Alternatives, AllocError>
    ensures { IfOk result (λ x. alternatives_view x ≡ names_fit_of (term_view names.now) (sub_view sub.now)) }
{
    match sub {
        SymSub::Name(name) => listed_unless_open(alloc, name, names),
        SymSub::At(_) | SymSub::Proto => always(alloc),
        _ => Ok(never(alloc)),
    }
}

/// A bound stands together with a subkey of its location.
fn bound_fits(alloc: Global, bound: &Term, sub: &SymSub) -> Result<Alternatives, AllocError>
    ensures { IfOk result (λ x. alternatives_view x ≡ bound_fits_of (term_view bound.now) (sub_view sub.now)) }
{
    match sub {
        SymSub::At(offset) => inside(alloc, offset, bound),
        SymSub::Name(_) | SymSub::Proto => always(alloc),
        _ => Ok(never(alloc)),
    }
}

/// A prototype stands together with a subkey of its location.
fn prototype_fits(alloc: Global, sub: &SymSub) -> Result<Alternatives, AllocError>
    ensures { IfOk result (λ x. alternatives_view x ≡ prototype_fits_of (sub_view sub.now)) }
{
    match sub {
        SymSub::Proto | SymSub::Gone => Ok(never(alloc)),
        _ => always(alloc),
    }
}

/// The chunk of a location has another key than the one that is given, and stands together with it.
fn fits_chunk(alloc: Global, given: &Chunk, chunk: &Chunk) -> Result<Alternatives, AllocError>
    ensures { IfOk result (λ x. alternatives_view x ≡ fits_beside (chunk_view given.now) (chunk_view chunk.now)) }
{
    match &given.sub {
        SymSub::Name(name) => name_fits(alloc, name, chunk),
        SymSub::At(offset) => cell_fits(alloc, offset, chunk),
        SymSub::Shape | SymSub::Dom => names_fit(alloc, &given.val, &chunk.sub),
        SymSub::Bound => bound_fits(alloc, &given.val, &chunk.sub),
        SymSub::Proto => prototype_fits(alloc, &chunk.sub),
        SymSub::Gone => Ok(never(alloc)),
    }
}

/// Whether the chunk has the names of its location by a term whose literal form is needed.
fn has_open_names(chunk: &Chunk) -> bool
    ensures { result ≡ has_open_names_of (sub_view chunk.now.sub) (term_view chunk.now.val) }
{
    match chunk.sub {
        SymSub::Shape | SymSub::Dom => needs_form(&chunk.val),
        _ => false,
    }
}

/// A chunk stands together with a new one, where names whose literal form is needed are left open.
#[derive(Debug, Drop)]
pub struct FitsBeside<'a> {
    pub given: &'a Chunk,
}

impl ChunkTest for FitsBeside<'_> {
    ghost says = { λ test c. fits_beside (chunk_view test.given.now) c };

    fn ask(&self, alloc: Global, chunk: &Chunk) -> Result<Alternatives, AllocError> {
        fits_chunk(alloc, self.given, chunk)
    }
}

/// A chunk stands together with a new one, and has no names whose literal form is needed.
#[derive(Debug, Drop)]
pub struct FitsClosed<'a> {
    pub given: &'a Chunk,
}

impl ChunkTest for FitsClosed<'_> {
    ghost says = { λ test c. fits_closed (chunk_view test.given.now) c };

    fn ask(&self, alloc: Global, chunk: &Chunk) -> Result<Alternatives, AllocError> {
        if has_open_names(chunk) {
            return Ok(never(alloc));
        }
        fits_chunk(alloc, self.given, chunk)
    }
}

/// The chunk has the names of the location by a term whose literal form is needed.
fn opened_here(alloc: Global, l: &Term, chunk: &Chunk) -> Result<Alternatives, AllocError>
    ensures { IfOk result (λ x. alternatives_view x ≡ opened_at (term_view l.now) (chunk_view chunk.now)) }
{
    match chunk.sub {
        SymSub::Shape | SymSub::Dom => {
            form_needed(alloc, &chunk.val, &terms_equal(alloc, l, &chunk.loc)?)
        }
        _ => Ok(never(alloc)),
    }
}

/// Some chunk has the names of the location by a term whose literal form is needed.
pub fn any_opened(alloc: Global, l: &Term, chunks: &[Chunk]) -> Result<Alternatives, AllocError>
    ensures { IfOk result (λ x. alternatives_view x ≡ any (opened_at (term_view l.now)) (chunks_view chunks.now)) }
{
    let mut alternatives = never(alloc);
    for chunk in chunks {
        alternatives = extend(alloc, alternatives, &opened_here(alloc, l, chunk)?)?;
    }
    Ok(alternatives)
}
