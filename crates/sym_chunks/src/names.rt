//! Lists of names that terms give.
ghost use Rattle.std.specs.Prelude.{◌≡◌, ◌&&◌, map, IfOk};
ghost use Rattle.gil_values.specs.declared.kinds.Kind.{Kind};
ghost use Rattle.pure_terms.specs.Equality.{same_term};
ghost use Rattle.pure_terms.specs.View.{term_view};
ghost use Rattle.sym_chunks.specs.NameTerms.{
  listed as listed_in,
  unlisted as unlisted_in,
  distinct_from,
  is_name as is_name_of,
  holds_name as holds_name_of,
  unheld_name as unheld_name_of,
  unheld as unheld_of,
};
ghost use Rattle.sym_model.specs.Alternatives.{alternatives_view, any, all_from, same, other, of_kind, both as combined};
ghost use Rattle.sym_model.specs.Pure.{named};
ghost use Rattle.sym_model.specs.View.{chunk_view, chunks_view, sub_view};

use gil_values::Kind;
use pure_terms::Term;
use std::alloc::{AllocError, Global};
use sym_model::{
    Alternatives, Chunk, SymSub, always, both, extend, kind_is, never, terms_differ, terms_equal,
};

/// The term is equal to one of these.
pub fn equal_to_one(alloc: Global, p: &Term, terms: &[Term]) -> Result<Alternatives, AllocError>
    ensures { IfOk result (λ x. alternatives_view x ≡ any (same (term_view p.now)) (map term_view terms.now)) }
{
    let mut alternatives = never(alloc);
    for term in terms {
        alternatives = extend(alloc, alternatives, &terms_equal(alloc, p, term)?)?;
    }
    Ok(alternatives)
}

/// Besides, the term is equal to none of these.
pub fn equal_to_none(
    alloc: Global,
    first: Alternatives,
    p: &Term,
    terms: &[Term],
) -> Result<Alternatives, AllocError>
    ensures { IfOk result (λ x. alternatives_view x ≡ all_from (alternatives_view first) (other (term_view p.now))
        (map term_view terms.now)) }
{
    let mut alternatives = first;
    for term in terms {
        alternatives = both(alloc, &alternatives, &terms_differ(alloc, p, term)?)?;
    }
    Ok(alternatives)
}

/// The name is one of a list term.
pub fn listed(alloc: Global, p: &Term, names: &Term) -> Result<Alternatives, AllocError>
    ensures { IfOk result (λ x. alternatives_view x ≡ listed_in (term_view p.now) (term_view names.now)) }
{
    match names {
        Term::List(names) => equal_to_one(alloc, p, names.as_slice()),
        _ => Ok(never(alloc)),
    }
}

/// The name is none of a list term.
pub fn unlisted(alloc: Global, p: &Term, names: &Term) -> Result<Alternatives, AllocError>
    ensures { IfOk result (λ x. alternatives_view x ≡ unlisted_in (term_view p.now) (term_view names.now)) }
{
    match names {
        Term::List(names) => {
            let first = always(alloc)?;
            equal_to_none(alloc, first, p, names.as_slice())
        }
        _ => Ok(never(alloc)),
    }
}

/// Besides, the term is a text, and equal to none of these.
fn distinct_before(
    alloc: Global,
    first: &Alternatives,
    term: &Term,
    later: &[Term],
) -> Result<Alternatives, AllocError>
    ensures { IfOk result (λ x. alternatives_view x ≡ all_from (combined (alternatives_view first.now) (of_kind
        (term_view term.now) Kind.Str)) (other (term_view term.now)) (map term_view later.now)) }
{
    let text = both(alloc, first, &kind_is(alloc, term, Kind::Str)?)?;
    equal_to_none(alloc, text, term, later)
}

/// Besides, each name is a text, and no two are equal.
pub fn distinct_names(
    alloc: Global,
    first: Alternatives,
    names: &[Term],
) -> Result<Alternatives, AllocError>
    ensures { IfOk result (λ x. alternatives_view x ≡ distinct_from (alternatives_view first) (map term_view names.now)) }
{
    let mut alternatives = first;
    for (index, name) in names.iter().enumerate() {
        alternatives = distinct_before(alloc, &alternatives, name, &names[index + 1..])?;
    }
    Ok(alternatives)
}

/// The subkey of a name.
pub fn name_sub(alloc: Global, name: &Term) -> Result<SymSub, AllocError>
    ensures { IfOk result (λ s. sub_view s ≡ named (term_view name.now)) }
{
    Ok(SymSub::Name(name.copy(alloc)?))
}

/// Whether the subkey is that of this very name.
fn is_name(sub: &SymSub, name: &Term) -> bool
    ensures { result ≡ is_name_of (term_view name.now) (sub_view sub.now) }
{
    match sub {
        SymSub::Name(other) => *other == *name,
        _ => false,
    }
}

/// Whether the chunk has these very terms as its location and its name.
fn is_property(chunk: &Chunk, place: &Term, name: &Term) -> bool
    ensures { result ≡ (same_term (term_view chunk.now.loc) (term_view place.now) && is_name_of (term_view name.now) (sub_view chunk.now.sub)) }
{
    chunk.loc == *place && is_name(&chunk.sub, name)
}

/// Whether some chunk has these very terms as its location and its name.
fn holds_name(place: &Term, chunks: &[Chunk], name: &Term) -> bool
    ensures { result ≡ holds_name_of (term_view place.now) (chunks_view chunks.now) (term_view name.now) }
{
    for chunk in chunks {
        if is_property(chunk, place, name) {
            return true;
        }
    }
    false
}

/// The name is this one, for which no chunk has these very terms.
fn unheld_name(
    alloc: Global,
    p: &Term,
    place: &Term,
    chunks: &[Chunk],
    name: &Term,
) -> Result<Alternatives, AllocError>
    ensures { IfOk result (λ x. alternatives_view x ≡ unheld_name_of (term_view p.now) (term_view place.now) (chunks_view chunks.now)
        (term_view name.now)) }
{
    if holds_name(place, chunks, name) {
        Ok(never(alloc))
    } else {
        terms_equal(alloc, p, name)
    }
}

/// The name is one of these for which no chunk has these very terms.
fn unheld_in(
    alloc: Global,
    p: &Term,
    place: &Term,
    chunks: &[Chunk],
    names: &[Term],
) -> Result<Alternatives, AllocError>
    ensures { IfOk result (λ x. alternatives_view x ≡ any (unheld_name_of (term_view p.now) (term_view place.now) (chunks_view chunks.now))
        (map term_view names.now)) }
{
    let mut alternatives = never(alloc);
    for name in names {
        let here = unheld_name(alloc, p, place, chunks, name)?;
        alternatives = extend(alloc, alternatives, &here)?;
    }
    Ok(alternatives)
}

/// The name is one of a list term for which no chunk has these very terms.
pub fn unheld(
    alloc: Global,
    p: &Term,
    place: &Term,
    chunks: &[Chunk],
    names: &Term,
) -> Result<Alternatives, AllocError>
    ensures { IfOk result (λ x. alternatives_view x ≡ unheld_of (term_view p.now) (term_view place.now) (chunks_view chunks.now)
        (term_view names.now)) }
{
    match names {
        Term::List(names) => unheld_in(alloc, p, place, chunks, names.as_slice()),
        _ => Ok(never(alloc)),
    }
}
