//! Choosing the fact that a use takes.
ghost use Rattle.std.specs.Prelude.{◌≡◌, ◌++◌, IfOk, Some};
ghost use Rattle.std.specs.Option.{option_map};
ghost use Rattle.pure_terms.specs.View.{atoms_view, terms_view};
ghost use Rattle.sym_model.specs.Alternatives.{alternatives_view};
ghost use Rattle.sym_matching.specs.View.{test_view, outs_view};
ghost use Rattle.sym_states.specs.View.{fact_view, facts_view};
ghost use Rattle.footprint.specs.Choosing.{TestsFact, FactStaysOver, ChoosesFact, ChoiceStaysOver, both_met, both_tests, placed_cases};
ghost use Rattle.footprint.specs.Coming.{FactComesFrom, ChoiceComesFrom};
ghost use Rattle.footprint.specs.View.{fact_cases_view, choice_view};

use crate::leaves::join;
use gil_values::Text;
use pure_terms::{Atoms, Terms};
use sequence::Sequence;
use std::alloc::{AllocError, Global};
use sym_matching::{KnownOuts, Test, elements_equal, outs_agree};
use sym_model::{Alternatives, always, both, extend};
use sym_states::{PredChunk, PredChunks};

/// The place of the fact that is taken where these conditions are true.
#[derive(Debug, Drop)]
pub(crate) struct FactCase {
    pub(crate) conds: Atoms,
    pub(crate) place: usize,
}

pub(crate) type FactCases = Sequence<FactCase>;

/// Which fact is taken, if one is, in all cases. Contracts see it as its pure data, by `choice_view`.
#[derive(Debug, Drop)]
pub(crate) struct FactChoice {
    pub(crate) found: FactCases,
    pub(crate) none: Alternatives,
}

/// The conditions of both, where both can be met.
fn join_met(
    alloc: Global,
    first: Option<Atoms>,
    second: Option<Atoms>,
) -> Result<Option<Atoms>, AllocError>
    ensures { IfOk result (λ o. option_map atoms_view o ≡ both_met (option_map atoms_view first) (option_map atoms_view second)) }
{
    match (first, second) {
        (Some(first), Some(second)) => Ok(Some(join(alloc, &first, &second)?)),
        _ => Ok(None),
    }
}

/// Whether both are so.
fn test_both(alloc: Global, first: Test, second: Test) -> Result<Test, AllocError>
    ensures { IfOk result (λ x. test_view x ≡ both_tests (test_view first) (test_view second)) }
{
    let when = join_met(alloc, first.when, second.when)?;
    let otherwise = extend(alloc, first.otherwise, &second.otherwise)?;
    Ok(Test { when, otherwise })
}

/// Whether the fact is of this predicate, with these ins, and agrees with the outs that are known.
fn test_fact(
    alloc: Global,
    fact: &PredChunk,
    pred: &Text,
    ins: &Terms,
    known: &KnownOuts,
) -> Result<Test, AllocError>
    ensures says { IfOk result (λ x. TestsFact (fact_view fact.now) pred.now (terms_view ins.now) (outs_view known.now) (test_view x)) }
    ensures names { IfOk result (λ x. FactStaysOver (fact_view fact.now) (terms_view ins.now) (outs_view known.now) (test_view x)) }
    ensures origin { IfOk result (λ x. FactComesFrom (fact_view fact.now) pred.now (terms_view ins.now) (outs_view known.now) (test_view x)) }
{
    if fact.pred != *pred {
        return Ok(Test {
            when: None,
            otherwise: always(alloc)?,
        });
    }
    let same = elements_equal(alloc, &fact.ins, ins)?;
    let agree = outs_agree(alloc, known, &fact.outs)?;
    test_both(alloc, same, agree)
}

/// The cases, and then one of this place for each of the alternatives.
fn add_placed(
    alloc: Global,
    cases: FactCases,
    alternatives: &Alternatives,
    fits: &Atoms,
    place: usize,
) -> Result<FactCases, AllocError>
    ensures { IfOk result (λ r. fact_cases_view r ≡ fact_cases_view cases
        ++ placed_cases (alternatives_view alternatives.now) (Some (atoms_view fits.now)) place) }
{
    let mut cases = cases;
    for more in alternatives.as_slice() {
        let conds = join(alloc, more, fits)?;
        cases.push(FactCase { conds, place })?;
    }
    Ok(cases)
}

/// The cases, and then one of this place for each of the alternatives, where its fact fits.
fn add_cases(
    alloc: Global,
    cases: FactCases,
    alternatives: &Alternatives,
    when: Option<Atoms>,
    place: usize,
) -> Result<FactCases, AllocError>
    ensures { IfOk result (λ r. fact_cases_view r ≡ fact_cases_view cases
        ++ placed_cases (alternatives_view alternatives.now) (option_map atoms_view when) place) }
{
    match when {
        Some(fits) => add_placed(alloc, cases, alternatives, &fits, place),
        None => Ok(cases),
    }
}

/// The first fact that fits, in all cases.
pub(crate) fn choose_fact(
    alloc: Global,
    facts: &PredChunks,
    pred: &Text,
    ins: &Terms,
    known: &KnownOuts,
) -> Result<FactChoice, AllocError>
    ensures says { IfOk result (λ c. ChoosesFact (facts_view facts.now) pred.now (terms_view ins.now) (outs_view known.now) (choice_view c)) }
    ensures names { IfOk result (λ c. ChoiceStaysOver (facts_view facts.now) (terms_view ins.now) (outs_view known.now) (choice_view c)) }
    ensures origin { IfOk result (λ c. ChoiceComesFrom (facts_view facts.now) pred.now (terms_view ins.now) (outs_view known.now) (choice_view c)) }
{
    let mut found = Sequence::new(alloc);
    let mut none = always(alloc)?;
    let items = facts.as_slice();
    for place in 0..items.len() {
        let test = test_fact(alloc, &items[place], pred, ins, known)?;
        found = add_cases(alloc, found, &none, test.when, place)?;
        none = both(alloc, &none, &test.otherwise)?;
    }
    Ok(FactChoice { found, none })
}
