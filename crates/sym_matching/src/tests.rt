//! Tests of terms.
ghost use Rattle.std.specs.Prelude.{◌≡◌, ◌++◌, true, IfOk};
ghost use Rattle.std.specs.Option.{option_map};
ghost use Rattle.gil_values.specs.Equality.{same_value};
ghost use Rattle.gil_values.specs.Pure.{boolean};
ghost use Rattle.pure_terms.specs.View.{term_view, terms_view, atoms_view};
ghost use Rattle.sym_model.specs.Alternatives.{alternatives_view};
ghost use Rattle.sym_evaluation.specs.Questions.{IsGuardCondition};
ghost use Rattle.sym_matching.specs.Matching.{TestsSorts, TestsElements, TestsOuts, TermStaysOver, ElementsStayOver, AgreementStaysOver};
ghost use Rattle.sym_matching.specs.Origins.{TestComesFrom, AsksSorts, AsksElements, AsksOuts};
ghost use Rattle.sym_matching.specs.Parts.{IsTestOf};
ghost use Rattle.sym_matching.specs.Plainly.{TermStaysDecided};
ghost use Rattle.sym_matching.specs.Splitting.{equal_test, kind_test, sort_test, with_sort, out_test, side_alternatives};
ghost use Rattle.sym_matching.specs.View.{test_view, outs_view};

use crate::splits::{KnownOuts, Test, also, failed, last_of, passed};
use gil_syntax::{Param, Params, SpecSort};
use gil_values::{Kind, Text};
use pure_terms::{Atoms, Term, Terms};
use std::alloc::{AllocError, Global};
use sym_evaluation::{Sides, guard_sides};
use sym_model::{Alternatives, kind_is, kind_is_not, never, terms_differ, terms_equal};

/// Whether two terms have equal values.
pub(crate) fn ask_equal(alloc: Global, s: &Term, t: &Term) -> Result<Test, AllocError>
    ensures { IfOk result (λ x. test_view x ≡ equal_test (term_view s.now) (term_view t.now)) }
{
    Ok(Test {
        when: last_of(terms_equal(alloc, s, t)?),
        otherwise: terms_differ(alloc, s, t)?,
    })
}

/// Whether a term's value is of a kind.
fn ask_kind(alloc: Global, term: &Term, kind: Kind) -> Result<Test, AllocError>
    ensures { IfOk result (λ x. test_view x ≡ kind_test (term_view term.now) kind) }
{
    Ok(Test {
        when: last_of(kind_is(alloc, term, kind)?),
        otherwise: kind_is_not(alloc, term, kind)?,
    })
}

/// Whether a term's value has a sort.
fn ask_sort(alloc: Global, term: &Term, sort: SpecSort) -> Result<Test, AllocError>
    ensures { IfOk result (λ x. test_view x ≡ sort_test sort (term_view term.now)) }
{
    match sort {
        SpecSort::Int => ask_kind(alloc, term, Kind::Int),
        SpecSort::Bool => ask_kind(alloc, term, Kind::Bool),
        SpecSort::Str => ask_kind(alloc, term, Kind::Str),
        SpecSort::Sym => ask_kind(alloc, term, Kind::Sym),
        SpecSort::List => ask_kind(alloc, term, Kind::List),
        SpecSort::Any => Ok(passed(alloc)),
    }
}

fn push_side(alternatives: Alternatives, side: Option<Atoms>) -> Result<Alternatives, AllocError>
    ensures { IfOk result (λ x. alternatives_view x ≡ alternatives_view alternatives ++ side_alternatives (option_map atoms_view side)) }
{
    let mut alternatives = alternatives;
    if let Some(conds) = side {
        alternatives.push(conds)?;
    }
    Ok(alternatives)
}

/// Whether a term's value is the boolean true.
pub(crate) fn ask_true(alloc: Global, term: &Term) -> Result<Test, AllocError>
    ensures { IfOk result (λ x. IsTestOf (λ w. same_value w (boolean true)) (term_view term.now) (test_view x)
        × TestComesFrom (IsGuardCondition (term_view term.now)) (test_view x)) }
{
    let Sides {
        when_true,
        when_false,
        when_no_boolean,
    } = guard_sides(alloc, term)?;
    let otherwise = push_side(never(alloc), when_false)?;
    let otherwise = push_side(otherwise, when_no_boolean)?;
    Ok(Test {
        when: when_true,
        otherwise,
    })
}

/// The test, and where the parameter has the name also whether the term's value has its sort.
fn with_sort(
    alloc: Global,
    test: Test,
    param: &Param,
    name: &Text,
    term: &Term,
) -> Result<Test, AllocError>
    ensures { IfOk result
        (λ x. test_view x ≡ with_sort (test_view test) param.now name.now (term_view term.now)) }
{
    if param.name == *name {
        let sort = ask_sort(alloc, term, param.sort)?;
        return also(alloc, test, sort);
    }
    Ok(test)
}

/// Whether a term's value has each sort that is declared for the name.
pub fn fits_sorts(
    alloc: Global,
    scope: &Params,
    name: &Text,
    term: &Term,
) -> Result<Test, AllocError>
    ensures says { IfOk result (λ x. TestsSorts scope.now name.now (term_view term.now) (test_view x)) }
    ensures names { IfOk result (λ x. TermStaysOver (term_view term.now) (test_view x)) }
    ensures plain { IfOk result (λ x. TermStaysDecided (term_view term.now) (test_view x)) }
    ensures origin { IfOk result (λ x. TestComesFrom (AsksSorts scope.now name.now (term_view term.now)) (test_view x)) }
{
    let mut test = passed(alloc);
    for param in scope.as_slice() {
        test = with_sort(alloc, test, param, name, term)?;
    }
    Ok(test)
}

/// Whether the values of the terms are equal, one after another. Lists of different lengths are not.
pub fn elements_equal(alloc: Global, left: &Terms, right: &Terms) -> Result<Test, AllocError>
    ensures says { IfOk result (λ x. TestsElements (terms_view left.now) (terms_view right.now) (test_view x)) }
    ensures names { IfOk result (λ x. ElementsStayOver (terms_view left.now) (terms_view right.now) (test_view x)) }
    ensures origin { IfOk result (λ x. TestComesFrom (AsksElements (terms_view left.now) (terms_view right.now)) (test_view x)) }
{
    if left.len() != right.len() {
        return failed(alloc);
    }
    let others = right.as_slice();
    let mut test = passed(alloc);
    for (index, term) in left.as_slice().iter().enumerate() {
        let equal = ask_equal(alloc, term, &others[index])?;
        test = also(alloc, test, equal)?;
    }
    Ok(test)
}

/// Whether an out that is known has the value of the term.
fn ask_out(alloc: Global, known: &Option<Term>, term: &Term) -> Result<Test, AllocError>
    ensures { IfOk result (λ x. test_view x ≡ out_test (option_map term_view known.now) (term_view term.now)) }
{
    match known {
        Some(known) => ask_equal(alloc, known, term),
        None => Ok(passed(alloc)),
    }
}

/// Whether the outs that are known have the values of the terms.
pub fn outs_agree(alloc: Global, known: &KnownOuts, outs: &Terms) -> Result<Test, AllocError>
    ensures says { IfOk result (λ x. TestsOuts (outs_view known.now) (terms_view outs.now) (test_view x)) }
    ensures names { IfOk result (λ x. AgreementStaysOver (outs_view known.now) (terms_view outs.now) (test_view x)) }
    ensures origin { IfOk result (λ x. TestComesFrom (AsksOuts (outs_view known.now) (terms_view outs.now)) (test_view x)) }
{
    if known.len() != outs.len() {
        return failed(alloc);
    }
    let terms = outs.as_slice();
    let mut test = passed(alloc);
    for (index, known) in known.as_slice().iter().enumerate() {
        let agrees = ask_out(alloc, known, &terms[index])?;
        test = also(alloc, test, agrees)?;
    }
    Ok(test)
}
