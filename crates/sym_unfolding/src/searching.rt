//! Searching the first fact with given ins and outs.
ghost use Rattle.std.specs.Prelude.{◌≡◌, ◌++◌, ◌∷◌, [], map, length, IfOk, Some};
ghost use Rattle.pure_terms.specs.View.{atoms_view, term_view, terms_view};
ghost use Rattle.sym_model.specs.Alternatives.{alternatives_view};
ghost use Rattle.sym_matching.specs.View.{test_view, outs_view};
ghost use Rattle.sym_states.specs.View.{fact_view, facts_view};
ghost use Rattle.sym_unfolding.specs.Searching.{both_tests, found_behind, looked_at, TestsFact, LooksAt, Searches};
ghost use Rattle.sym_unfolding.specs.View.{found_view, search_view};

use gil_values::Text;
use pure_terms::{Atoms, Terms};
use sequence::Sequence;
use std::alloc::{AllocError, Global};
use sym_matching::{KnownOuts, Test, elements_equal, outs_agree};
use sym_model::{Alternatives, always, both, copy_conditions, extend};
use sym_states::{PredChunk, PredChunks};

/// A place in a list of facts, and conditions under which the first fact that is sought stands there.
#[derive(Debug, Drop)]
pub(crate) struct FoundAt {
    pub(crate) conds: Atoms,
    pub(crate) place: usize,
}

/// Where the first fact that is sought may stand, and the conditions under which there is none. Contracts see it by `search_view`.
#[derive(Debug, Drop)]
pub(crate) struct Search {
    pub(crate) found: Sequence<FoundAt>,
    pub(crate) none: Alternatives,
}

/// The terms, all of which are known.
pub(crate) fn all_known(alloc: Global, terms: &Terms) -> Result<KnownOuts, AllocError>
    ensures { IfOk result (λ outs. outs_view outs ≡ map Some (terms_view terms.now)) }
{
    let mut known = Sequence::new(alloc);
    for term in terms.as_slice() {
        known.push(Some(term.copy(alloc)?))?;
    }
    Ok(known)
}

fn join(alloc: Global, first: &Atoms, second: &Atoms) -> Result<Atoms, AllocError>
    ensures { IfOk result (λ a. atoms_view a ≡ atoms_view first.now ++ atoms_view second.now) }
{
    let mut joined = copy_conditions(alloc, first)?;
    for atom in second.as_slice() {
        joined.push(atom.copy(alloc)?)?;
    }
    Ok(joined)
}

/// Both tests.
fn both_met(alloc: Global, first: Test, second: Test) -> Result<Test, AllocError>
    ensures { IfOk result (λ t. test_view t ≡ both_tests (test_view first) (test_view second)) }
{
    let otherwise = extend(alloc, first.otherwise, &second.otherwise)?;
    let when = match (first.when, second.when) {
        (Some(one), Some(other)) => Some(join(alloc, &one, &other)?),
        _ => None,
    };
    Ok(Test { when, otherwise })
}

/// Whether a fact has these ins and outs.
fn has_arguments(
    alloc: Global,
    fact: &PredChunk,
    ins: &Terms,
    outs: &KnownOuts,
) -> Result<Test, AllocError>
    ensures { IfOk result (λ t. TestsFact (terms_view ins.now) (outs_view outs.now) (fact_view fact.now) (test_view t)) }
{
    let same_ins = elements_equal(alloc, &fact.ins, ins)?;
    let same_outs = outs_agree(alloc, outs, &fact.outs)?;
    both_met(alloc, same_ins, same_outs)
}

/// The fact at a place is found behind each of these conditions.
fn add_found(
    alloc: Global,
    found: Sequence<FoundAt>,
    before: &Alternatives,
    conds: &Atoms,
    place: usize,
) -> Result<Sequence<FoundAt>, AllocError>
    ensures { IfOk result (λ r. map found_view r ≡ map found_view found ++ found_behind (alternatives_view before.now) (atoms_view conds.now) place) }
{
    let mut found = found;
    for first in before.as_slice() {
        found.push(FoundAt {
            conds: join(alloc, first, conds)?,
            place,
        })?;
    }
    Ok(found)
}

/// Looks at a fact that has the name that is sought.
fn look_closer(
    alloc: Global,
    search: Search,
    place: usize,
    test: &Test,
) -> Result<Search, AllocError>
    ensures { IfOk result (λ s. search_view s ≡ looked_at (test_view test.now) place (search_view search)) }
{
    let Search { found, none } = search;
    let found = match &test.when {
        Some(conds) => add_found(alloc, found, &none, conds, place)?,
        None => found,
    };
    let none = both(alloc, &none, &test.otherwise)?;
    Ok(Search { found, none })
}

/// Looks at a fact.
fn look_at(
    alloc: Global,
    search: Search,
    place: usize,
    fact: &PredChunk,
    pred: &Text,
    ins: &Terms,
    outs: &KnownOuts,
) -> Result<Search, AllocError>
    ensures { IfOk result (λ s. LooksAt pred.now (terms_view ins.now) (outs_view outs.now) place (fact_view fact.now) (search_view search) (search_view s)) }
{
    if fact.pred != *pred {
        return Ok(search);
    }
    let test = has_arguments(alloc, fact, ins, outs)?;
    look_closer(alloc, search, place, &test)
}

/// Where the first fact of a predicate with these ins and outs may stand.
pub(crate) fn search_first(
    alloc: Global,
    facts: &PredChunks,
    pred: &Text,
    ins: &Terms,
    outs: &Terms,
) -> Result<Search, AllocError>
    ensures { IfOk result (λ s. Searches pred.now (terms_view ins.now) (map Some (terms_view outs.now)) (facts_view facts.now) (search_view s)) }
{
    let known = all_known(alloc, outs)?;
    let mut search = Search {
        found: Sequence::new(alloc),
        none: always(alloc)?,
    };
    let items = facts.as_slice();
    for place in 0..items.len() {
        search = look_at(alloc, search, place, &items[place], pred, ins, &known)?;
    }
    Ok(search)
}
