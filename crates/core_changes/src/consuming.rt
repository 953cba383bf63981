//! Consumption of core predicates.
ghost use Rattle.std.specs.Prelude.{◌≡◌, ◌++◌, map, Some, IfOk};
ghost use Rattle.std.specs.Option.{option_map};
ghost use Rattle.pure_terms.specs.View.{term_view, terms_view};
ghost use Rattle.core_changes.specs.Consuming.{key_given, consumed as consumed_of, consumed_by, Consume};
ghost use Rattle.mem_model.specs.CoreNames.{core_of};
ghost use Rattle.sym_chunks.specs.ByPlace.{all_by_place};
ghost use Rattle.sym_chunks.specs.Cases.{case_of};
ghost use Rattle.sym_chunks.specs.Keys.{other_sub};
ghost use Rattle.sym_chunks.specs.View.{cases_view, chunk_branches_view};
ghost use Rattle.sym_model.specs.Pure.{missed};
ghost use Rattle.sym_model.specs.View.{frag_view, key_view, sub_view};

use gil_values::Text;
use mem_model::Core;
use pure_terms::{Term, Terms};
use sequence::Sequence;
use std::alloc::{AllocError, Global};
use sym_chunks::{Access, Cases, all_other_subs, choose, missed_key, with_case, with_found};
use sym_model::{Branches, SymFrag, SymKey, SymSub, always};

fn key_at(alloc: Global, l: &Term, sub: SymSub) -> Result<Option<SymKey>, AllocError>
    ensures { IfOk result (λ k. option_map key_view k ≡ Some (record { loc = term_view l.now; sub = sub_view sub })) }
{
    let loc = l.copy(alloc)?;
    Ok(Some(SymKey { loc, sub }))
}

/// The key that a core predicate is of, by its ins.
pub fn key_of_ins(alloc: Global, core: Core, ins: &[Term]) -> Result<Option<SymKey>, AllocError>
    ensures { IfOk result (λ k. option_map key_view k ≡ key_given core (map term_view ins.now)) }
{
    match (core, ins) {
        (Core::Prop, [l, name]) => key_at(alloc, l, SymSub::Name(name.copy(alloc)?)),
        (Core::Cell, [l, offset]) => key_at(alloc, l, SymSub::At(offset.copy(alloc)?)),
        (Core::Shape, [l]) => key_at(alloc, l, SymSub::Shape),
        (Core::Bound, [l]) => key_at(alloc, l, SymSub::Bound),
        (Core::Dom, [l]) => key_at(alloc, l, SymSub::Dom),
        (Core::Proto, [l]) => key_at(alloc, l, SymSub::Proto),
        (Core::Gone, [l]) => key_at(alloc, l, SymSub::Gone),
        _ => Ok(None),
    }
}

/// The cases, and that in which no chunk is that of the key.
fn with_missed(
    alloc: Global,
    cases: Cases,
    key: &SymKey,
    chunks: &SymFrag,
) -> Result<Cases, AllocError>
    ensures { IfOk result (λ cs. cases_view cs ≡ cases_view cases ++ case_of (all_by_place (term_view key.now.loc) (λ c. other_sub
        (sub_view key.now.sub) c.sub) (frag_view chunks.now)) (frag_view chunks.now) (missed (key_view key.now))) }
{
    let lacking = all_other_subs(alloc, &key.loc, &key.sub, chunks.as_slice())?;
    let outcome = missed_key(alloc, &key.loc, &key.sub)?;
    with_case(alloc, cases, lacking, chunks, &outcome)
}

/// The branches of consuming a key.
fn consume_key(
    alloc: Global,
    key: &SymKey,
    chunks: &SymFrag,
) -> Result<Branches<SymFrag>, AllocError>
    ensures { IfOk result (λ bs. chunk_branches_view bs ≡ consumed_of (Some (key_view key.now)) (frag_view chunks.now)) }
{
    let found = with_found(
        alloc,
        Sequence::new(alloc),
        &Access::Take,
        &key.loc,
        &key.sub,
        chunks,
    )?;
    let cases = with_missed(alloc, found, key, chunks)?;
    choose(alloc, Sequence::new(alloc), always(alloc)?, cases)
}

/// The branches of consuming a core predicate with these ins.
fn consume_by(
    alloc: Global,
    core: &Text,
    ins: &Terms,
    chunks: &SymFrag,
) -> Result<Branches<SymFrag>, AllocError>
    ensures { IfOk result (λ bs. chunk_branches_view bs ≡ consumed_by (core_of core.now) (terms_view ins.now) (frag_view chunks.now)) }
{
    match Core::from_name(core) {
        Some(core) => match key_of_ins(alloc, core, ins.as_slice())? {
            Some(key) => consume_key(alloc, &key, chunks),
            None => Ok(Sequence::new(alloc)),
        },
        None => Ok(Sequence::new(alloc)),
    }
}

/// The branches of consuming a core predicate from chunks, whatever the memory: done with the list of its outs, and the chunks
/// without its key; or a miss of the key.
pub fn consume_chunks(
    alloc: Global,
    core: &Text,
    ins: &Terms,
    chunks: &SymFrag,
) -> Result<Branches<SymFrag>, AllocError>
    ensures { IfOk result (λ bs. Consume core.now (terms_view ins.now) (frag_view chunks.now) (chunk_branches_view bs)) }
{
    consume_by(alloc, core, ins, chunks)
}
