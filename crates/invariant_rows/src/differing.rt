//! Where what an invariant leaves isn't what it left before.
ghost use Rattle.std.specs.Prelude.{◌≡◌, ◌∷◌, [], IfOk, IsTrue};
ghost use Rattle.checked_paths.specs.View.{passed_view};
ghost use Rattle.pure_terms.specs.View.{term_view, terms_view};
ghost use Rattle.invariant_rows.specs.Asked.{AreComparisons};
ghost use Rattle.invariant_rows.specs.Differing.{HaveSameKey, HoldsOne, IsTermOfKey, TellsDifference, TellsFact, TellsFacts, TellsHeaps, TellsName, TellsNames, TellsNext, TellsStores, TellsTerms};
ghost use Rattle.invariant_rows.specs.View.{difference_view};
ghost use Rattle.sym_model.specs.Alternatives.{alternatives_view};
ghost use Rattle.sym_evaluation.specs.View.{bindings_view, store_view};
ghost use Rattle.sym_model.specs.View.{use_view, uses_view};
ghost use Rattle.sym_states.specs.View.{fact_view, facts_view};

use crate::comparing::{are_same_terms, is_same_use};
use checked_paths::Passed;
use gil_values::Text;
use pure_terms::{Literal, Term, Terms};
use std::alloc::{AllocError, Global};
use sym_evaluation::{Binding, SymStore};
use sym_matching::{Test, elements_equal};
use sym_model::{Alternatives, CoreUse, ListedMemory, always, extend, never};
use sym_states::{PredChunk, PredChunks};

/// Where what is left isn't as it was before. Contracts see it as its pure data, by `difference_view`.
#[derive(Debug, Drop)]
pub struct Difference {
    /// It isn't, where one of these holds.
    pub alternatives: Alternatives,
    /// Elsewhere it is, unless the two memories don't list the same keys in the same order, which isn't looked into: this is the term of one.
    pub unclear: Option<Term>,
}

/// Where the terms have other values.
fn values_differ(alloc: Global, left: &Terms, right: &Terms) -> Result<Alternatives, AllocError>
    ensures tells { IfOk result (λ x. TellsTerms (terms_view left.now) (terms_view right.now) (alternatives_view x)) }
    ensures asked { IfOk result (λ x. AreComparisons (alternatives_view x)) }
{
    let test = elements_equal(alloc, left, right)?;
    let Test { when: _, otherwise } = test;
    Ok(otherwise)
}

fn fact_differs(
    alloc: Global,
    left: &PredChunk,
    right: &PredChunk,
) -> Result<Alternatives, AllocError>
    ensures tells { IfOk result (λ x. TellsFact (fact_view left.now) (fact_view right.now) (alternatives_view x)) }
    ensures asked { IfOk result (λ x. AreComparisons (alternatives_view x)) }
{
    if left.pred == right.pred {
        let ins = values_differ(alloc, &left.ins, &right.ins)?;
        let outs = values_differ(alloc, &left.outs, &right.outs)?;
        return extend(alloc, ins, &outs);
    }
    always(alloc)
}

/// Where the facts are others, or stand in another order.
fn facts_differ(
    alloc: Global,
    left: &[PredChunk],
    right: &[PredChunk],
) -> Result<Alternatives, AllocError>
    ensures tells { IfOk result (λ x. TellsFacts (facts_view left.now) (facts_view right.now) (alternatives_view x)) }
    ensures asked { IfOk result (λ x. AreComparisons (alternatives_view x)) }
{
    if left.len() != right.len() {
        return always(alloc);
    }
    let mut found = never(alloc);
    for place in (0..left.len()).rev() {
        let here = fact_differs(alloc, &left[place], &right[place])?;
        found = extend(alloc, found, &here)?;
    }
    Ok(found)
}

/// Where two terms have other values.
fn value_differs(alloc: Global, left: &Term, right: &Term) -> Result<Alternatives, AllocError>
    ensures tells { IfOk result (λ x. TellsTerms (term_view left.now ∷ []) (term_view right.now ∷ []) (alternatives_view x)) }
    ensures asked { IfOk result (λ x. AreComparisons (alternatives_view x)) }
{
    let mut first = Terms::new(alloc);
    first.push(left.copy(alloc)?)?;
    let mut second = Terms::new(alloc);
    second.push(right.copy(alloc)?)?;
    values_differ(alloc, &first, &second)
}

/// Where a name has another value.
fn name_differs(
    alloc: Global,
    left: &SymStore,
    right: &SymStore,
    name: &Text,
) -> Result<Alternatives, AllocError>
    ensures tells { IfOk result (λ x. TellsName (store_view left.now) (store_view right.now) name.now (alternatives_view x)) }
    ensures asked { IfOk result (λ x. AreComparisons (alternatives_view x)) }
{
    match left.get(name) {
        Some(first) => match right.get(name) {
            Some(second) => value_differs(alloc, first, second),
            None => always(alloc),
        },
        None => match right.get(name) {
            Some(_) => always(alloc),
            None => Ok(never(alloc)),
        },
    }
}

/// Where one of the names has another value.
fn names_differ(
    alloc: Global,
    names: &[Binding],
    left: &SymStore,
    right: &SymStore,
) -> Result<Alternatives, AllocError>
    ensures tells { IfOk result
        (λ x. TellsNames (store_view left.now) (store_view right.now) (bindings_view names.now) (alternatives_view x)) }
    ensures asked { IfOk result (λ x. AreComparisons (alternatives_view x)) }
{
    let mut found = never(alloc);
    for binding in names {
        let here = name_differs(alloc, left, right, &binding.name)?;
        found = extend(alloc, found, &here)?;
    }
    Ok(found)
}

/// Where some name has another value.
fn stores_differ(
    alloc: Global,
    left: &SymStore,
    right: &SymStore,
) -> Result<Alternatives, AllocError>
    ensures tells { IfOk result (λ x. TellsStores (store_view left.now) (store_view right.now) (alternatives_view x)) }
    ensures asked { IfOk result (λ x. AreComparisons (alternatives_view x)) }
{
    let now = names_differ(alloc, left.bindings(), left, right)?;
    let before = names_differ(alloc, right.bindings(), left, right)?;
    extend(alloc, now, &before)
}

/// Whether a use has ins, and one out.
fn holds_one(used: &CoreUse) -> bool
    ensures { IsTrue result → HoldsOne (use_view used.now) }
{
    0 < used.ins.len() && used.outs.len() == 1
}

/// Whether two uses surely say the value of one key.
fn have_same_key(left: &CoreUse, right: &CoreUse) -> bool
    ensures { IsTrue result → HaveSameKey (use_view left.now) (use_view right.now) }
{
    left.core == right.core
        && are_same_terms(&left.ins, &right.ins)
        && holds_one(left)
        && holds_one(right)
}

/// A term of the key of a use.
fn term_of_key(alloc: Global, used: &CoreUse) -> Result<Term, AllocError>
    ensures { IfOk result (λ t. IsTermOfKey (use_view used.now) (term_view t)) }
{
    match used.ins.get(0) {
        Some(term) => term.copy(alloc),
        None => Ok(Term::Lit(Literal::Int(0))),
    }
}

/// Where the heaps of two lists of uses differ, before which these stand, from where those of the lists do.
fn with_use(
    alloc: Global,
    later: Difference,
    left: &CoreUse,
    right: &CoreUse,
) -> Result<Difference, AllocError>
    ensures tells { IfOk result (λ d. TellsNext (use_view left.now) (use_view right.now) (difference_view later) (difference_view d)) }
    ensures asked { IfOk result
        (λ d. AreComparisons (difference_view later).alternatives → AreComparisons (difference_view d).alternatives) }
{
    if is_same_use(left, right) {
        return Ok(later);
    }
    if have_same_key(left, right) {
        let Difference {
            alternatives,
            unclear,
        } = later;
        let here = values_differ(alloc, &left.outs, &right.outs)?;
        let alternatives = extend(alloc, alternatives, &here)?;
        return Ok(Difference {
            alternatives,
            unclear,
        });
    }
    let term = term_of_key(alloc, left)?;
    Ok(Difference {
        alternatives: never(alloc),
        unclear: Some(term),
    })
}

/// Where the heaps of two lists of uses differ.
fn heaps_differ(
    alloc: Global,
    left: &[CoreUse],
    right: &[CoreUse],
) -> Result<Difference, AllocError>
    ensures tells { IfOk result (λ d. TellsHeaps (uses_view left.now) (uses_view right.now) (difference_view d)) }
    ensures asked { IfOk result (λ d. AreComparisons (difference_view d).alternatives) }
{
    if left.len() != right.len() {
        return Ok(Difference {
            alternatives: always(alloc)?,
            unclear: None,
        });
    }
    let mut found = Difference {
        alternatives: never(alloc),
        unclear: None,
    };
    for place in (0..left.len()).rev() {
        found = with_use(alloc, found, &left[place], &right[place])?;
    }
    Ok(found)
}

/// Where memory, facts and the variables that aren't listed aren't as the invariant left them before.
pub fn compare<M: ListedMemory>(
    alloc: Global,
    memory: &M,
    facts: &PredChunks,
    unlisted: &SymStore,
    former: &Passed<M>,
) -> Result<Difference, AllocError>
    ensures tells { IfOk result (λ d. TellsDifference M.stands M.terms memory.now (facts_view facts.now) (store_view unlisted.now)
        (passed_view former.now) (difference_view d)) }
    ensures asked { IfOk result (λ d. AreComparisons (difference_view d).alternatives) }
{
    let listed = memory.listing(alloc)?;
    let before = former.memory.listing(alloc)?;
    let heaps = heaps_differ(alloc, listed.as_slice(), before.as_slice())?;
    let of_facts = facts_differ(alloc, facts.as_slice(), former.preds.as_slice())?;
    let of_values = stores_differ(alloc, unlisted, &former.unlisted)?;
    let alternatives = extend(alloc, of_values, &of_facts)?;
    let Difference {
        alternatives: of_heaps,
        unclear,
    } = heaps;
    let alternatives = extend(alloc, alternatives, &of_heaps)?;
    Ok(Difference {
        alternatives,
        unclear,
    })
}
