//! What is said of one path that has ended.
ghost use Rattle.std.specs.Prelude.{◌≡◌, ◌⊎◌, List, slice_get, Some, IfOk, IfSome, MatchOption, IsTrue};
ghost use Rattle.std.specs.List.{list_all};
ghost use Rattle.std.specs.Option.{option_map};
ghost use Rattle.gil_values.specs.Pure.{PureValue};
ghost use Rattle.gil_values.specs.View.{values_view};
ghost use Rattle.pure_terms.specs.Deciding.{has_moderate_numbers};
ghost use Rattle.pure_terms.specs.Fragment.{InFragment};
ghost use Rattle.pure_terms.specs.Meaning.{value, AreOver, Satisfies};
ghost use Rattle.pure_terms.specs.Pure.{PureAtom};
ghost use Rattle.pure_terms.specs.View.{term_view, atom_view, atoms_view};
ghost use Rattle.sym_model.specs.Lists.{Each};
ghost use Rattle.sym_model.specs.Pure.{PureKey};
ghost use Rattle.sym_paths.specs.Pure.{failed, threw, missed};
ghost use Rattle.sym_paths.specs.Steps.{IsNewSort, place_of};
ghost use Rattle.sym_paths.specs.View.{end_view, path_view};
ghost use Rattle.sym_test.specs.Canonical.{IsCanonical};
ghost use Rattle.sym_test.specs.Judged.{MayBeJudged, AreMet, LeavesHeld, IsListOutside, IsWide, IsQuestion, IsFailureJudged, IsJudgedEnd, undecided, lists_view, judgement_view};
ghost use Rattle.sym_test.specs.Undecided.{keeps_out, IsOutsideAt};

use crate::canonical::{canonical_valuation, draws_among};
use gil_values::{Place, Text, Value, Values};
use pure_terms::{
    Atom, Atoms, Choices, Decider, Decision, HoldsFault, Query, Reason, Term, Valuation, VarTable,
    in_fragment, value_of,
};
use std::alloc::{AllocError, Global};
use sym_model::SymMemory;
use sym_paths::{Ended, Path, PathEnd};

/// What is said of a path that has ended.
#[derive(Debug, Drop)]
pub(crate) enum Judgement {
    /// No run that fails goes along it.
    Harmless,
    Bug {
        place: Place,
        value: Value,
        inputs: Values,
    },
    Undecided(Query),
}

/// The canonical valuation that meets the atoms, if the decider finds one.
fn find_valuation<D: Decider>(
    alloc: Global,
    decider: &mut D,
    vars: &VarTable,
    atoms: &Atoms,
) -> Result<Option<Valuation>, AllocError>
    requires sorts { Each IsNewSort vars.now }
    requires over { AreOver vars.now (atoms_view atoms.now) }
    requires met { (v : List PureValue) × Satisfies vars.now v (atoms_view atoms.now) }
    ensures found { IfOk result (λ o. MatchOption o (¬ InFragment (atoms_view atoms.now))
        (λ v. IsCanonical vars.now (atoms_view atoms.now) (values_view v))) }
    ensures moderate { IfOk result (λ o. IfSome o (λ v. InFragment (atoms_view atoms.now)
        → IsTrue (list_all has_moderate_numbers (values_view v)))) }
{
    match decider.decide(alloc, vars, atoms)? {
        Decision::Sat(found) => Ok(Some(canonical_valuation(alloc, vars, atoms, &found)?)),
        Decision::Unsat => unreachable!(),
        Decision::Unknown(_) => Ok(None),
    }
}

/// Whether the atom keeps a list out of the fragment.
fn keeps_out(atom: &Atom) -> bool
    ensures { result ≡ keeps_out (atom_view atom.now) }
{
    !atom.has_fragment_form() || !atom.has_narrow_literals()
}

/// The place of the first atom that keeps the list out of the fragment. 2^40 variables are more than memory holds.
fn outside_at(vars: &VarTable, atoms: &Atoms) -> Result<usize, AllocError>
    requires over { AreOver vars.now (atoms_view atoms.now) }
    requires outside { ¬ InFragment (atoms_view atoms.now) }
    ensures outside { IfOk result (λ place. IsOutsideAt (atoms_view atoms.now) place) }
    ensures keeps { IfOk result (λ place. (a : PureAtom) × ((slice_get (atoms_view atoms.now) place ≡ Some a) × IsTrue (keeps_out a))) }
{
    if vars.len() >= 1 << 40 {
        return Err(AllocError);
    }
    let items = atoms.as_slice();
    for place in 0..items.len() {
        if keeps_out(&items[place]) {
            return Ok(place);
        }
    }
    unreachable!()
}

/// The lists of a path that a query is made of.
#[derive(Debug, Drop)]
struct Lists {
    vars: VarTable,
    choices: Choices,
    given: Atoms,
    conds: Atoms,
}

/// The question whether a path goes on, with the place of an atom that keeps it out of the fragment.
fn ask(lists: Lists, place: Place, outside: usize) -> Judgement
    ensures { judgement_view result ≡ undecided (record {
      place = place;
      path = lists.choices;
      vars = lists.vars;
      given = atoms_view lists.given;
      query = atoms_view lists.conds;
      outside = outside;
    }) }
{
    Judgement::Undecided(Query {
        place,
        path: lists.choices,
        vars: lists.vars,
        given: lists.given,
        query: lists.conds,
        outside,
    })
}

/// The question of a list that isn't in the fragment.
fn ask_list(lists: Lists, place: Place) -> Result<Judgement, AllocError>
    requires over { AreOver lists.vars (atoms_view lists.conds) }
    requires outside { ¬ InFragment (atoms_view lists.conds) }
    ensures { IfOk result (λ j. IsQuestion (lists_view lists) place (IsListOutside (lists_view lists)) (judgement_view j)) }
{
    let outside = outside_at(&lists.vars, &lists.conds)?;
    Ok(ask(lists, place, outside))
}

/// The question whether a failing value has a form, where the list is in the fragment, and else that of the list.
fn ask_form(lists: Lists, term: Term, place: Place) -> Result<Judgement, AllocError>
    requires over { AreOver lists.vars (atoms_view lists.conds) }
    requires leaves { LeavesHeld (lists_view lists) (term_view term) }
    ensures { IfOk result (λ j. IsQuestion (lists_view lists) place (λ q. IsListOutside (lists_view lists) q
        ⊎ IsWide (lists_view lists) (term_view term) q) (judgement_view j)) }
{
    if !in_fragment(&lists.vars, &lists.conds) {
        return ask_list(lists, place);
    }
    let mut lists = lists;
    let outside = lists.conds.len();
    lists.conds.push(Atom::Open(term))?;
    Ok(ask(lists, place, outside))
}

/// What is said of a path that fails with a term, or throws it and nothing catches it.
fn judge_failure<D: Decider>(
    alloc: Global,
    decider: &mut D,
    lists: Lists,
    term: Term,
    place: Place,
) -> Result<Judgement, AllocError>
    requires met { AreMet (lists_view lists) }
    requires defined { (v : List PureValue) → IsCanonical lists.vars (atoms_view lists.conds) v → (w : PureValue) × (value v (term_view term) ≡ Some w) }
    ensures failed { IfOk result (λ j. IsFailureJudged (lists_view lists) (failed (term_view term) place) place
        (IsWide (lists_view lists) (term_view term)) (judgement_view j)) }
    ensures threw { IfOk result (λ j. IsFailureJudged (lists_view lists) (threw (term_view term) place) place
        (IsWide (lists_view lists) (term_view term)) (judgement_view j)) }
{
    let Some(valuation) = find_valuation(alloc, decider, &lists.vars, &lists.conds)? else {
        return ask_list(lists, place);
    };
    match value_of(alloc, &term, &valuation) {
        Ok(Some(value)) => {
            let inputs = draws_among(alloc, &lists.vars, &valuation)?;
            Ok(Judgement::Bug {
                place,
                value,
                inputs,
            })
        }
        Ok(None) => unreachable!(),
        Err(HoldsFault::Number) => ask_form(lists, term, place),
        Err(HoldsFault::Memory) => Err(AllocError),
    }
}

/// What is said of a path that misses a key.
fn judge_miss<D: Decider>(
    alloc: Global,
    decider: &mut D,
    lists: Lists,
    place: Place,
) -> Result<Judgement, AllocError>
    requires met { AreMet (lists_view lists) }
    ensures { IfOk result (λ j. (key : PureKey) → IsFailureJudged (lists_view lists) (missed key place) place (λ q. ⊥) (judgement_view j)) }
{
    let Some(valuation) = find_valuation(alloc, decider, &lists.vars, &lists.conds)? else {
        return ask_list(lists, place);
    };
    let inputs = draws_among(alloc, &lists.vars, &valuation)?;
    match Text::from_str(alloc, "missing")? {
        Some(text) => Ok(Judgement::Bug {
            place,
            value: Value::Str(text),
            inputs,
        }),
        None => unreachable!(),
    }
}

/// The number of the atom that a reason names.
fn number_of(reason: Reason) -> usize
    ensures { result ≡ place_of reason }
{
    match reason {
        Reason::Atom(number) | Reason::Number(number) => number,
    }
}

/// What is said of a path that has ended.
pub(crate) fn judge<M: SymMemory, D: Decider>(
    alloc: Global,
    decider: &mut D,
    path: Path<M>,
) -> Result<Judgement, AllocError>
    requires { MayBeJudged M.terms (path_view path) }
    ensures { IfOk result (λ j. IsJudgedEnd (path_view path) (option_map end_view path.end) (judgement_view j)) }
{
    let Ended {
        vars,
        conds,
        given,
        choices,
        end,
    } = path.into_ended();
    let lists = Lists {
        vars,
        choices,
        given,
        conds,
    };
    match end {
        None | Some(PathEnd::Returned(_) | PathEnd::Vanished | PathEnd::Cut) => Ok(
            Judgement::Harmless,
        ),
        Some(PathEnd::Failed(term, place)) => judge_failure(alloc, decider, lists, term, place),
        Some(PathEnd::Threw(term, place)) => judge_failure(alloc, decider, lists, term, place),
        Some(PathEnd::Missed(_, place)) => judge_miss(alloc, decider, lists, place),
        Some(PathEnd::Unknown(place, reason)) => Ok(ask(lists, place, number_of(reason))),
    }
}
