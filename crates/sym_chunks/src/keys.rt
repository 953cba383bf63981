//! The conditions under which a chunk's key is one that is asked for.
ghost use Rattle.std.specs.Prelude.{◌≡◌, IfOk};
ghost use Rattle.pure_terms.specs.View.{term_view};
ghost use Rattle.sym_chunks.specs.Keys.{same_sub, other_sub, at_key};
ghost use Rattle.sym_model.specs.Alternatives.{alternatives_view};
ghost use Rattle.sym_model.specs.View.{sub_view, chunk_view};

use pure_terms::Term;
use std::alloc::{AllocError, Global};
use sym_model::{Alternatives, Chunk, SymSub, always, both, never, terms_differ, terms_equal};

/// Two subkeys of one location are the same.
pub fn subkeys_equal(alloc: Global, s: &SymSub, t: &SymSub) -> Result<Alternatives, AllocError>
    ensures { IfOk result (λ x. alternatives_view x ≡ same_sub (sub_view s.now) (sub_view t.now)) }
{
    match (s, t) {
        (SymSub::Name(p), SymSub::Name(q)) => terms_equal(alloc, p, q),
        (SymSub::At(i), SymSub::At(j)) => terms_equal(alloc, i, j),
        (SymSub::Shape, SymSub::Shape)
        | (SymSub::Bound, SymSub::Bound)
        | (SymSub::Dom, SymSub::Dom)
        | (SymSub::Proto, SymSub::Proto)
        | (SymSub::Gone, SymSub::Gone) => always(alloc),
        _ => Ok(never(alloc)),
    }
}

/// Two subkeys of one location are different.
pub fn subkeys_differ(alloc: Global, s: &SymSub, t: &SymSub) -> Result<Alternatives, AllocError>
    ensures { IfOk result (λ x. alternatives_view x ≡ other_sub (sub_view s.now) (sub_view t.now)) }
{
    match (s, t) {
        (SymSub::Name(p), SymSub::Name(q)) => terms_differ(alloc, p, q),
        (SymSub::At(i), SymSub::At(j)) => terms_differ(alloc, i, j),
        (SymSub::Shape, SymSub::Shape)
        | (SymSub::Bound, SymSub::Bound)
        | (SymSub::Dom, SymSub::Dom)
        | (SymSub::Proto, SymSub::Proto)
        | (SymSub::Gone, SymSub::Gone) => Ok(never(alloc)),
        _ => always(alloc),
    }
}

/// The chunk is that of the location's subkey.
pub fn key_here(
    alloc: Global,
    l: &Term,
    s: &SymSub,
    chunk: &Chunk,
) -> Result<Alternatives, AllocError>
    ensures { IfOk result (λ x. alternatives_view x ≡ at_key (term_view l.now) (sub_view s.now) (chunk_view chunk.now)) }
{
    let subkey = subkeys_equal(alloc, s, &chunk.sub)?;
    if subkey.len() == 0 {
        return Ok(never(alloc));
    }
    let location = terms_equal(alloc, l, &chunk.loc)?;
    both(alloc, &location, &subkey)
}
