//! Chunks as uses of core predicates, and the fixes of a key.
ghost use Rattle.std.specs.Prelude.{◌≡◌, ◌∷◌, map, IfOk};
ghost use Rattle.mem_model.specs.CoreNames.{core_name};
ghost use Rattle.pure_terms.specs.declared.variables.Sort.{Sort};
ghost use Rattle.pure_terms.specs.View.{term_view, terms_view};
ghost use Rattle.sym_model.specs.Cores.{core_of_sub};
ghost use Rattle.sym_model.specs.Pure.{sub_terms};
ghost use Rattle.sym_model.specs.View.{sub_view, key_view, chunk_view, chunks_view, frag_view, use_view, uses_view, fix_view};
ghost use Rattle.core_uses.specs.Kept.{ListChunks};
ghost use Rattle.core_uses.specs.Uses.{outs_at, use_of, listed_uses, fix_of};

use gil_values::Text;
use mem_model::Core;
use pure_terms::{Sort, Term, Terms};
use sequence::Sequence;
use std::alloc::{AllocError, Global};
use sym_model::{Chunk, CoreUse, CoreUses, Fix, Sorts, SymFrag, SymKey, SymSub};

/// The core predicate whose key has such a subkey.
pub fn core_of(sub: &SymSub) -> Core
    ensures { result ≡ core_of_sub (sub_view sub.now) }
{
    match sub {
        SymSub::Name(_) => Core::Prop,
        SymSub::At(_) => Core::Cell,
        SymSub::Shape => Core::Shape,
        SymSub::Bound => Core::Bound,
        SymSub::Dom => Core::Dom,
        SymSub::Proto => Core::Proto,
        SymSub::Gone => Core::Gone,
    }
}

/// Its name.
fn name_of(alloc: Global, sub: &SymSub) -> Result<Text, AllocError>
    ensures { IfOk result (λ name. name ≡ core_name (core_of_sub (sub_view sub.now))) }
{
    match Text::from_str(alloc, core_of(sub).as_str())? {
        Some(name) => Ok(name),
        None => unreachable!(),
    }
}

/// The terms that say which key it is: those of its ins.
fn ins_of(alloc: Global, loc: &Term, sub: &SymSub) -> Result<Terms, AllocError>
    ensures { IfOk result (λ ts. terms_view ts ≡ term_view loc.now ∷ sub_terms (sub_view sub.now)) }
{
    let mut ins = Terms::new(alloc);
    ins.push(loc.copy(alloc)?)?;
    match sub {
        SymSub::Name(term) | SymSub::At(term) => ins.push(term.copy(alloc)?)?,
        _ => {}
    }
    Ok(ins)
}

/// What the key holds, where it is an out.
fn outs_of(alloc: Global, sub: &SymSub, val: &Term) -> Result<Terms, AllocError>
    ensures { IfOk result (λ ts. terms_view ts ≡ outs_at (sub_view sub.now) (term_view val.now)) }
{
    let mut outs = Terms::new(alloc);
    match sub {
        SymSub::Gone => {}
        _ => outs.push(val.copy(alloc)?)?,
    }
    Ok(outs)
}

/// The chunk as a use.
fn list_chunk(alloc: Global, chunk: &Chunk) -> Result<CoreUse, AllocError>
    ensures { IfOk result (λ u. use_view u ≡ use_of (chunk_view chunk.now)) }
{
    let core = name_of(alloc, &chunk.sub)?;
    let ins = ins_of(alloc, &chunk.loc, &chunk.sub)?;
    let outs = outs_of(alloc, &chunk.sub, &chunk.val)?;
    Ok(CoreUse { core, ins, outs })
}

/// Each chunk as a use.
fn list_each(alloc: Global, chunks: &[Chunk]) -> Result<CoreUses, AllocError>
    ensures { IfOk result (λ us. uses_view us ≡ listed_uses (chunks_view chunks.now)) }
{
    let mut uses = Sequence::new(alloc);
    for chunk in chunks {
        uses.push(list_chunk(alloc, chunk)?)?;
    }
    Ok(uses)
}

/// The chunks as uses of core predicates, one key each, in their order.
pub fn list_chunks(alloc: Global, chunks: &SymFrag) -> Result<CoreUses, AllocError>
    ensures { IfOk result (λ us. ListChunks (frag_view chunks.now) (uses_view us)) }
{
    list_each(alloc, chunks.as_slice())
}

fn any_outs(alloc: Global, sub: &SymSub) -> Result<Sorts, AllocError>
    ensures { IfOk result (λ ss. ss ≡ outs_at (sub_view sub.now) Sort.Any) }
{
    let mut outs = Sequence::new(alloc);
    match sub {
        SymSub::Gone => {}
        _ => outs.push(Sort::Any)?,
    }
    Ok(outs)
}

/// The core predicate of the key, with an out of any sort.
pub fn fix_of_key(alloc: Global, key: &SymKey) -> Result<Fix, AllocError>
    ensures { IfOk result (λ f. fix_view f ≡ fix_of (key_view key.now)) }
{
    let core = name_of(alloc, &key.sub)?;
    let ins = ins_of(alloc, &key.loc, &key.sub)?;
    let outs = any_outs(alloc, &key.sub)?;
    Ok(Fix { core, ins, outs })
}
