//! `set`.
ghost use Rattle.std.specs.Prelude.{◌≡◌, [], ◌∷◌, ◌++◌, ◌<◌, length, IfOk};
ghost use Rattle.object_sym.specs.Table.{
  with_name as with_name_of,
  added_there,
  added_from,
  set_cases as set_cases_of,
};
ghost use Rattle.pure_terms.specs.Pure.{list_of, from_list};
ghost use Rattle.pure_terms.specs.View.{term_view, terms_view};
ghost use Rattle.sym_chunks.specs.Cases.{case_of, writes, AreChosenAs};
ghost use Rattle.sym_chunks.specs.NameTerms.{unlisted as unlisted_in};
ghost use Rattle.sym_chunks.specs.View.{access_view, cases_view};
ghost use Rattle.sym_model.specs.Alternatives.{both as combined, same};
ghost use Rattle.sym_model.specs.Pure.{done};
ghost use Rattle.sym_model.specs.View.{frag_view, sub_view};

use crate::properties::without_name;
use pure_terms::{Term, Terms};
use sequence::Sequence;
use std::alloc::{AllocError, Global};
use sym_chunks::{Access, Cases, has_sure_case, name_sub, unlisted, with_found, with_made_case};
use sym_model::{Chunk, SymFrag, SymResult, SymSub, both, terms_equal};

/// The names with one at their end.
fn longer(alloc: Global, names: &Terms, p: &Term) -> Result<Term, AllocError>
    ensures { IfOk result (λ t. term_view t ≡ list_of (from_list (terms_view names.now ++ term_view p.now ∷ []))) }
{
    let mut longer = names.copy(alloc)?;
    longer.push(p.copy(alloc)?)?;
    Ok(Term::List(longer))
}

/// The chunks, where the list of names at a place has the name at its end, and the name has its value.
fn with_name(
    alloc: Global,
    chunks: &SymFrag,
    index: usize,
    loc: &Term,
    names: &Terms,
    p: &Term,
    val: &Term,
) -> Result<SymFrag, AllocError>
    requires { index < length (frag_view chunks.now) }
    ensures { IfOk result (λ cs. frag_view cs ≡ with_name_of (frag_view chunks.now) index (term_view loc.now) (terms_view names.now)
        (term_view p.now) (term_view val.now)) }
{
    let mut after = chunks.copy(alloc)?;
    after.set_held(index, longer(alloc, names, p)?);
    after.push(Chunk {
        loc: loc.copy(alloc)?,
        sub: SymSub::Name(p.copy(alloc)?),
        val: val.copy(alloc)?,
    })?;
    Ok(after)
}

/// The cases, and that in which the chunk at a place lists the location's names, and the name is none of them.
fn with_added_listed(
    alloc: Global,
    cases: Cases,
    l: &Term,
    p: &Term,
    val: &Term,
    chunks: &SymFrag,
    index: usize,
    chunk: &Chunk,
    names: &Terms,
) -> Result<Cases, AllocError>
    requires { index < length (frag_view chunks.now) }
    ensures { IfOk result (λ cs. cases_view cs ≡ cases_view cases ++ case_of (combined (same (term_view l.now) (term_view chunk.now.loc))
        (unlisted_in (term_view p.now) (term_view chunk.now.val))) (with_name_of (frag_view chunks.now) index (term_view chunk.now.loc)
        (terms_view names.now) (term_view p.now) (term_view val.now)) (done (term_view val.now))) }
{
    let here = terms_equal(alloc, l, &chunk.loc)?;
    let when = both(alloc, &here, &unlisted(alloc, p, &chunk.val)?)?;
    if when.len() == 0 {
        return Ok(cases);
    }
    let after = with_name(alloc, chunks, index, &chunk.loc, names, p, val)?;
    let outcome = SymResult::Done(val.copy(alloc)?);
    with_made_case(cases, when, after, outcome)
}

/// The cases, and that in which the chunk at a place lists the location's names without the name.
fn with_added_here(
    alloc: Global,
    cases: Cases,
    l: &Term,
    p: &Term,
    val: &Term,
    chunks: &SymFrag,
    index: usize,
    chunk: &Chunk,
) -> Result<Cases, AllocError>
    requires { index < length (frag_view chunks.now) }
    ensures { IfOk result (λ cs. cases_view cs ≡ cases_view cases ++ added_there (term_view l.now) (term_view p.now) (term_view val.now)
        (frag_view chunks.now) index (term_view chunk.now.loc) (sub_view chunk.now.sub) (term_view chunk.now.val)) }
{
    match (&chunk.sub, &chunk.val) {
        (SymSub::Dom, Term::List(names)) => {
            with_added_listed(alloc, cases, l, p, val, chunks, index, chunk, names)
        }
        _ => Ok(cases),
    }
}

/// The cases, and those in which some chunk lists the location's names without the name.
fn with_added(
    alloc: Global,
    cases: Cases,
    l: &Term,
    p: &Term,
    val: &Term,
    chunks: &SymFrag,
) -> Result<Cases, AllocError>
    ensures { IfOk result (λ cs. cases_view cs ≡ cases_view cases ++ added_from (term_view l.now) (term_view p.now) (term_view val.now)
        (frag_view chunks.now) 0 (frag_view chunks.now)) }
{
    let mut cases = cases;
    for (index, chunk) in chunks.as_slice().iter().enumerate() {
        cases = with_added_here(alloc, cases, l, p, val, chunks, index, chunk)?;
    }
    Ok(cases)
}

/// Writing a value.
pub fn write_of(alloc: Global, val: &Term) -> Result<Access, AllocError>
    ensures { IfOk result (λ a. access_view a ≡ writes (term_view val.now)) }
{
    Ok(Access::Write(val.copy(alloc)?))
}

/// The cases of `set`, without those after one that surely comes.
pub fn set_cases(
    alloc: Global,
    l: &Term,
    p: &Term,
    val: &Term,
    chunks: &SymFrag,
) -> Result<Cases, AllocError>
    ensures { IfOk result (λ cs. AreChosenAs (cases_view cs) (set_cases_of (term_view l.now) (term_view p.now) (term_view val.now)
        (frag_view chunks.now))) }
{
    let name = name_sub(alloc, p)?;
    let access = write_of(alloc, val)?;
    let found = with_found(alloc, Sequence::new(alloc), &access, l, &name, chunks)?;
    if has_sure_case(&found) {
        return Ok(found);
    }
    let added = with_added(alloc, found, l, p, val, chunks)?;
    if has_sure_case(&added) {
        return Ok(added);
    }
    without_name(alloc, added, l, p, chunks)
}
