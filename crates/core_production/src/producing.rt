//! Production of core predicates.
ghost use Rattle.std.specs.Prelude.{◌≡◌, ◌∷◌, ◌++◌, [], map, IfOk};
ghost use Rattle.std.specs.Option.{option_map};
ghost use Rattle.core_production.specs.Producing.{
  held_by as held_by_of,
  may_stand as may_stand_of,
  added,
  opened_unless_list as opened_unless_list_of,
  fits_beside,
  opened_at,
  produced,
  chunk_held,
  produced_by,
  Produce,
};
ghost use Rattle.mem_model.specs.CoreNames.{core_of};
ghost use Rattle.pure_terms.specs.View.{term_view, terms_view};
ghost use Rattle.sym_chunks.specs.View.{chunk_branches_view};
ghost use Rattle.sym_model.specs.Alternatives.{alternatives_view, any, both as combined};
ghost use Rattle.sym_model.specs.View.{chunk_view, frag_view, key_view, sub_view};

use crate::fitting::{FitsBeside, FitsClosed, any_opened, is_right};
use core_changes::key_of_ins;
use gil_values::Text;
use mem_model::Core;
use pure_terms::{Literal, Term, Terms};
use sequence::Sequence;
use std::alloc::{AllocError, Global};
use sym_chunks::{ChunkTest, all_by_place, form_needed, with_last_branches};
use sym_model::{Alternatives, Branches, Chunk, SymFrag, SymKey, SymResult, SymSub, both};

/// What the key holds, by the outs of its core predicate.
fn held_by(alloc: Global, sub: &SymSub, outs: &[Term]) -> Result<Option<Term>, AllocError>
    ensures { IfOk result (λ t. option_map term_view t ≡ held_by_of (sub_view sub.now) (map term_view outs.now)) }
{
    match sub {
        SymSub::Gone => match outs {
            [] => Ok(Some(Term::Lit(Literal::Bool(true)))),
            _ => Ok(None),
        },
        _ => match outs {
            [out] => Ok(Some(out.copy(alloc)?)),
            _ => Ok(None),
        },
    }
}

/// The chunk is right by itself, and each chunk of its location passes the test.
fn may_stand<T: ChunkTest>(
    alloc: Global,
    given: &Chunk,
    test: &T,
    chunks: &SymFrag,
) -> Result<Alternatives, AllocError>
    ensures { IfOk result (λ x. alternatives_view x ≡ may_stand_of (chunk_view given.now) (T.says test.now) (frag_view chunks.now)) }
{
    let right = is_right(alloc, given)?;
    both(
        alloc,
        &right,
        &all_by_place(alloc, &given.loc, test, chunks.as_slice())?,
    )
}

/// The branches, and those in which the chunk is added.
fn with_added(
    alloc: Global,
    branches: Branches<SymFrag>,
    when: Alternatives,
    given: &Chunk,
    chunks: &SymFrag,
) -> Result<Branches<SymFrag>, AllocError>
    ensures { IfOk result (λ bs. chunk_branches_view bs ≡ chunk_branches_view branches ++ added (chunk_view given.now) (frag_view chunks.now)
        (alternatives_view when)) }
{
    if when.len() == 0 {
        return Ok(branches);
    }
    let mut after = chunks.copy(alloc)?;
    after.push(given.copy(alloc)?)?;
    let outcome = SymResult::Done(Term::Lit(Literal::Bool(true)));
    with_last_branches(alloc, branches, when, after, outcome)
}

/// Besides, the literal form of the list of names is needed, where it is no list term.
fn opened_unless_list(
    alloc: Global,
    names: &Term,
    when: Alternatives,
) -> Result<Alternatives, AllocError>
    ensures { IfOk result (λ x. alternatives_view x ≡ opened_unless_list_of (term_view names.now) (alternatives_view when)) }
{
    match names {
        Term::List(_) => Ok(when),
        _ => form_needed(alloc, names, &when),
    }
}

/// Some list of names beside the name isn't known.
fn opened(alloc: Global, given: &Chunk, chunks: &SymFrag) -> Result<Alternatives, AllocError>
    ensures { IfOk result (λ x. alternatives_view x ≡ combined (any (opened_at (term_view given.now.loc)) (frag_view chunks.now)) (may_stand_of
        (chunk_view given.now) (fits_beside (chunk_view given.now)) (frag_view chunks.now))) }
{
    let names = any_opened(alloc, &given.loc, chunks.as_slice())?;
    both(
        alloc,
        &names,
        &may_stand(alloc, given, &FitsBeside { given }, chunks)?,
    )
}

/// The branches of producing a chunk.
fn produce_chunk(
    alloc: Global,
    given: &Chunk,
    chunks: &SymFrag,
) -> Result<Branches<SymFrag>, AllocError>
    ensures { IfOk result (λ bs. chunk_branches_view bs ≡ produced (chunk_view given.now) (frag_view chunks.now)) }
{
    let none = Sequence::new(alloc);
    match given.sub {
        SymSub::Name(_) => {
            let closed = may_stand(alloc, given, &FitsClosed { given }, chunks)?;
            let known = with_added(alloc, none, closed, given, chunks)?;
            let opened = opened(alloc, given, chunks)?;
            with_added(alloc, known, opened, given, chunks)
        }
        SymSub::Shape | SymSub::Dom => {
            let when = may_stand(alloc, given, &FitsBeside { given }, chunks)?;
            let when = opened_unless_list(alloc, &given.val, when)?;
            with_added(alloc, none, when, given, chunks)
        }
        _ => {
            let when = may_stand(alloc, given, &FitsBeside { given }, chunks)?;
            with_added(alloc, none, when, given, chunks)
        }
    }
}

/// The chunk of a key with the outs of its core predicate.
fn chunk_of(alloc: Global, key: &SymKey, outs: &[Term]) -> Result<Option<Chunk>, AllocError>
    ensures { IfOk result (λ c. option_map chunk_view c ≡ chunk_held (key_view key.now) (map term_view outs.now)) }
{
    match held_by(alloc, &key.sub, outs)? {
        Some(val) => {
            let loc = key.loc.copy(alloc)?;
            let sub = key.sub.copy(alloc)?;
            Ok(Some(Chunk { loc, sub, val }))
        }
        None => Ok(None),
    }
}

/// The branches of producing a core predicate with these ins and outs.
fn produce_by(
    alloc: Global,
    core: &Text,
    ins: &Terms,
    outs: &Terms,
    chunks: &SymFrag,
) -> Result<Branches<SymFrag>, AllocError>
    ensures { IfOk result (λ bs. chunk_branches_view bs ≡ produced_by (core_of core.now) (terms_view ins.now) (terms_view outs.now)
        (frag_view chunks.now)) }
{
    match Core::from_name(core) {
        Some(core) => match key_of_ins(alloc, core, ins.as_slice())? {
            Some(key) => match chunk_of(alloc, &key, outs.as_slice())? {
                Some(new) => produce_chunk(alloc, &new, chunks),
                None => Ok(Sequence::new(alloc)),
            },
            None => Ok(Sequence::new(alloc)),
        },
        None => Ok(Sequence::new(alloc)),
    }
}

/// The branches of producing a core predicate on chunks, whatever the memory: the chunks with its key, each done with true. There
/// is none where the key surely can't be added.
pub fn produce_chunks(
    alloc: Global,
    core: &Text,
    ins: &Terms,
    outs: &Terms,
    chunks: &SymFrag,
) -> Result<Branches<SymFrag>, AllocError>
    ensures { IfOk result (λ bs. Produce core.now (terms_view ins.now) (terms_view outs.now) (frag_view chunks.now)
        (chunk_branches_view bs)) }
{
    produce_by(alloc, core, ins, outs, chunks)
}
