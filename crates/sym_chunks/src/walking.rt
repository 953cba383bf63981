//! Taking the keys of a location one after another, until it is gone.
ghost use Rattle.std.specs.Prelude.{◌≡◌, [], ◌∷◌, ◌++◌, ◌<◌, length, map, remove, IfOk, Some, None};
ghost use Rattle.std.specs.List.{flat_map};
ghost use Rattle.pure_terms.specs.View.{term_view};
ghost use Rattle.sym_chunks.specs.ByPlace.{all_by_place as all_by_place_of};
ghost use Rattle.mem_model.specs.declared.failures.Failure.{Failure};
ghost use Rattle.sym_chunks.specs.Cases.{true_term, gone_case};
ghost use Rattle.sym_chunks.specs.Keys.{same_sub, other_sub, at_key};
ghost use Rattle.sym_chunks.specs.View.{cases_view, way_view, ways_view};
ghost use Rattle.sym_chunks.specs.Walking.{
  way_of,
  sure_place as sure_place_of,
  next_ways as next_ways_of,
  ways_from,
  missing_key,
  all_taken,
};
ghost use Rattle.sym_model.specs.Alternatives.{alternatives_view, any, both};
ghost use Rattle.sym_model.specs.Pure.{gone, missed};
ghost use Rattle.sym_model.specs.View.{frag_view, chunk_view, chunks_view, result_view, sub_view};

use crate::cases::{Cases, is_sure, with_case, with_failure_case};
use crate::keys::{key_here, subkeys_differ, subkeys_equal};
use crate::places::{ChunkTest, all_by_place, any_at};
use mem_model::Failure;
use pure_terms::{Literal, Term};
use sequence::Sequence;
use std::alloc::{AllocError, Global};
use sym_model::{Alternatives, Chunk, SymFrag, SymKey, SymResult, SymSub, both as combine, extend};

/// A way in which keys were taken out of chunks: when it is so, and the chunks that are left. Contracts see it as its pure
/// data, by `way_view`.
#[derive(Debug, Drop)]
pub struct Way {
    pub when: Alternatives,
    pub left: SymFrag,
}

/// A list of ways, which contracts see as a list of pure data by `ways_view`.
pub type Ways = Sequence<Way>;

/// A chunk has another subkey than this one.
#[derive(Debug, Drop)]
pub struct OtherSub<'a> {
    pub sub: &'a SymSub,
}

impl ChunkTest for OtherSub<'_> {
    ghost says = { λ test c. other_sub (sub_view test.sub.now) c.sub };

    fn ask(&self, alloc: Global, chunk: &Chunk) -> Result<Alternatives, AllocError> {
        subkeys_differ(alloc, self.sub, &chunk.sub)
    }
}

/// A chunk has this subkey.
#[derive(Debug, Drop)]
pub struct SameSub<'a> {
    pub sub: &'a SymSub,
}

impl ChunkTest for SameSub<'_> {
    ghost says = { λ test c. same_sub (sub_view test.sub.now) c.sub };

    fn ask(&self, alloc: Global, chunk: &Chunk) -> Result<Alternatives, AllocError> {
        subkeys_equal(alloc, self.sub, &chunk.sub)
    }
}

/// Some chunk is that of the key.
pub fn any_key(
    alloc: Global,
    l: &Term,
    s: &SymSub,
    chunks: &[Chunk],
) -> Result<Alternatives, AllocError>
    ensures { IfOk result (λ x. alternatives_view x ≡ any (at_key (term_view l.now) (sub_view s.now)) (chunks_view chunks.now)) }
{
    any_at(alloc, l, &SameSub { sub: s }, chunks)
}

/// The cases, and that in which the location is gone.
pub fn with_gone(
    alloc: Global,
    cases: Cases,
    l: &Term,
    chunks: &SymFrag,
) -> Result<Cases, AllocError>
    ensures { IfOk result (λ cs. cases_view cs ≡ cases_view cases ++ gone_case (term_view l.now) (frag_view chunks.now)) }
{
    let gone = any_key(alloc, l, &SymSub::Gone, chunks.as_slice())?;
    with_failure_case(alloc, cases, gone, chunks, Failure::Gone)
}

/// No chunk of the location has this subkey.
pub fn all_other_subs(
    alloc: Global,
    l: &Term,
    s: &SymSub,
    chunks: &[Chunk],
) -> Result<Alternatives, AllocError>
    ensures { IfOk result (λ x. alternatives_view x ≡ all_by_place_of (term_view l.now) (λ c. other_sub (sub_view s.now) c.sub)
        (chunks_view chunks.now)) }
{
    all_by_place(alloc, l, &OtherSub { sub: s }, chunks)
}

/// The result that misses the key.
pub fn missed_key(alloc: Global, l: &Term, s: &SymSub) -> Result<SymResult, AllocError>
    ensures { IfOk result (λ r. result_view r ≡ missed (record { loc = term_view l.now; sub = sub_view s.now })) }
{
    let loc = l.copy(alloc)?;
    let sub = s.copy(alloc)?;
    Ok(SymResult::Miss(SymKey { loc, sub }))
}

/// The ways and one more, unless it never is so.
pub fn with_way(ways: Ways, when: Alternatives, left: SymFrag) -> Result<Ways, AllocError>
    ensures { IfOk result (λ ws. ways_view ws ≡ ways_view ways ++ way_of (alternatives_view when) (frag_view left)) }
{
    let mut ways = ways;
    if when.len() > 0 {
        ways.push(Way { when, left })?;
    }
    Ok(ways)
}

/// The chunks without the one at a place.
pub fn without_chunk(alloc: Global, chunks: &SymFrag, index: usize) -> Result<SymFrag, AllocError>
    requires { index < length (frag_view chunks.now) }
    ensures { IfOk result (λ cs. frag_view cs ≡ remove (frag_view chunks.now) index) }
{
    let mut left = chunks.copy(alloc)?;
    left.remove(index);
    Ok(left)
}

/// Equal alternatives.
pub fn copy_alternatives(alloc: Global, when: &Alternatives) -> Result<Alternatives, AllocError>
    ensures { IfOk result (λ x. alternatives_view x ≡ alternatives_view when.now) }
{
    extend(alloc, Sequence::new(alloc), when)
}

/// The ways, and that of the chunk at a place, if it is that of the key.
fn take_here(
    alloc: Global,
    ways: Ways,
    way: &Way,
    l: &Term,
    s: &SymSub,
    index: usize,
    chunk: &Chunk,
) -> Result<Ways, AllocError>
    requires { index < length (frag_view way.now.left) }
    ensures { IfOk result (λ ws. ways_view ws ≡ ways_view ways ++ way_of (both (alternatives_view way.now.when) (at_key
        (term_view l.now) (sub_view s.now) (chunk_view chunk.now))) (remove (frag_view way.now.left) index)) }
{
    let here = combine(alloc, &way.when, &key_here(alloc, l, s, chunk)?)?;
    if here.len() == 0 {
        return Ok(ways);
    }
    let left = without_chunk(alloc, &way.left, index)?;
    with_way(ways, here, left)
}

/// The ways, and those of each chunk that may be that of the key.
fn take_somewhere(
    alloc: Global,
    ways: Ways,
    way: &Way,
    l: &Term,
    s: &SymSub,
) -> Result<Ways, AllocError>
    ensures { IfOk result (λ ws. ways_view ws ≡ ways_view ways ++ ways_from (term_view l.now) (sub_view s.now) (way_view way.now) 0
        (frag_view way.now.left)) }
{
    let mut ways = ways;
    for (index, chunk) in way.left.as_slice().iter().enumerate() {
        ways = take_here(alloc, ways, way, l, s, index, chunk)?;
    }
    Ok(ways)
}

/// The place of the first chunk that surely is that of the key.
fn sure_place(
    alloc: Global,
    l: &Term,
    s: &SymSub,
    chunks: &[Chunk],
) -> Result<Option<usize>, AllocError>
    ensures { IfOk result (λ place. place ≡ sure_place_of (term_view l.now) (sub_view s.now) 0 (chunks_view chunks.now)) }
{
    for (index, chunk) in chunks.iter().enumerate() {
        if is_sure(&key_here(alloc, l, s, chunk)?) {
            return Ok(Some(index));
        }
    }
    Ok(None)
}

/// The ways, and those of one more key after another way.
fn take_key(alloc: Global, ways: Ways, way: Way, l: &Term, s: &SymSub) -> Result<Ways, AllocError>
    ensures { IfOk result (λ ws. ways_view ws ≡ ways_view ways ++ next_ways_of (term_view l.now) (sub_view s.now) (way_view way)) }
{
    let place = sure_place(alloc, l, s, way.left.as_slice())?;
    match place {
        Some(index) => {
            let Way { when, mut left } = way;
            left.remove(index);
            with_way(ways, when, left)
        }
        None => take_somewhere(alloc, ways, &way, l, s),
    }
}

/// The ways of one more key after each of these.
fn next_ways(alloc: Global, before: Ways, l: &Term, s: &SymSub) -> Result<Ways, AllocError>
    ensures { IfOk result (λ ws. ways_view ws ≡ flat_map (next_ways_of (term_view l.now) (sub_view s.now)) (ways_view before)) }
{
    let mut ways = Sequence::new(alloc);
    for way in before.into_vec() {
        ways = take_key(alloc, ways, way, l, s)?;
    }
    Ok(ways)
}

/// The cases, and that in which the key is missing from what a way leaves, where no chunk surely is its own.
fn with_maybe_missing(
    alloc: Global,
    cases: Cases,
    chunks: &SymFrag,
    l: &Term,
    s: &SymSub,
    way: &Way,
) -> Result<Cases, AllocError>
    ensures { IfOk result (λ cs. cases_view cs ≡ cases_view cases ++ missing_key (frag_view chunks.now) (term_view l.now)
        (sub_view s.now) (way_view way.now)) }
{
    let others = all_other_subs(alloc, l, s, way.left.as_slice())?;
    let missing = combine(alloc, &way.when, &others)?;
    let outcome = missed_key(alloc, l, s)?;
    with_case(alloc, cases, missing, chunks, &outcome)
}

/// The cases, and that in which the key is missing from what a way leaves.
fn with_missing_after(
    alloc: Global,
    cases: Cases,
    chunks: &SymFrag,
    l: &Term,
    s: &SymSub,
    way: &Way,
) -> Result<Cases, AllocError>
    ensures { IfOk result (λ cs. cases_view cs ≡ cases_view cases ++ missing_key (frag_view chunks.now) (term_view l.now)
        (sub_view s.now) (way_view way.now)) }
{
    let place = sure_place(alloc, l, s, way.left.as_slice())?;
    match place {
        Some(_) => Ok(cases),
        None => with_maybe_missing(alloc, cases, chunks, l, s, way),
    }
}

/// The cases, and those in which the key is missing.
fn with_missing(
    alloc: Global,
    cases: Cases,
    chunks: &SymFrag,
    l: &Term,
    s: &SymSub,
    ways: &Ways,
) -> Result<Cases, AllocError>
    ensures { IfOk result (λ cs. cases_view cs ≡ cases_view cases ++ flat_map (missing_key (frag_view chunks.now) (term_view l.now)
        (sub_view s.now)) (ways_view ways.now)) }
{
    let mut cases = cases;
    for way in ways.as_slice() {
        cases = with_missing_after(alloc, cases, chunks, l, s, way)?;
    }
    Ok(cases)
}

/// The cases, and that in which all keys were taken in this way.
fn with_all_taken_after(
    alloc: Global,
    cases: Cases,
    l: &Term,
    way: &Way,
) -> Result<Cases, AllocError>
    ensures { IfOk result (λ cs. cases_view cs ≡ cases_view cases ++ all_taken (term_view l.now) (way_view way.now)) }
{
    let mut left = way.left.copy(alloc)?;
    left.push(Chunk {
        loc: l.copy(alloc)?,
        sub: SymSub::Gone,
        val: Term::Lit(Literal::Bool(true)),
    })?;
    let when = copy_alternatives(alloc, &way.when)?;
    let outcome = SymResult::Done(Term::Lit(Literal::Bool(true)));
    with_case(alloc, cases, when, &left, &outcome)
}

/// The cases, and those in which all keys were taken.
pub fn with_all_taken(
    alloc: Global,
    cases: Cases,
    l: &Term,
    ways: &Ways,
) -> Result<Cases, AllocError>
    ensures { IfOk result (λ cs. cases_view cs ≡ cases_view cases ++ flat_map (all_taken (term_view l.now)) (ways_view ways.now)) }
{
    let mut cases = cases;
    for way in ways.as_slice() {
        cases = with_all_taken_after(alloc, cases, l, way)?;
    }
    Ok(cases)
}

/// What a walk comes to so far: its cases, and the ways that go on.
#[derive(Debug, Drop)]
pub struct Walk {
    pub cases: Cases,
    pub ways: Ways,
}

/// One more key: the cases in which it is missing, and the ways after it.
pub fn walk_on(
    alloc: Global,
    walk: Walk,
    chunks: &SymFrag,
    l: &Term,
    s: &SymSub,
) -> Result<Walk, AllocError>
    ensures cases { IfOk result (λ w. cases_view w.cases ≡ cases_view walk.cases ++ flat_map (missing_key (frag_view chunks.now)
        (term_view l.now) (sub_view s.now)) (ways_view walk.ways)) }
    ensures ways { IfOk result (λ w. ways_view w.ways ≡ flat_map (next_ways_of (term_view l.now) (sub_view s.now)) (ways_view walk.ways)) }
{
    let Walk { cases, ways } = walk;
    let cases = with_missing(alloc, cases, chunks, l, s, &ways)?;
    let ways = next_ways(alloc, ways, l, s)?;
    Ok(Walk { cases, ways })
}
