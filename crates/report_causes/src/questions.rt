//! Conditions that aren't decided, as reports have them.
ghost use Rattle.std.specs.Prelude.{◌≡◌, [], ◌++◌, map, IfOk};
ghost use Rattle.checked_paths.specs.Causes.{shown_view};
ghost use Rattle.gil_report.specs.View.{question_view};
ghost use Rattle.pure_terms.specs.Pure.{opening};
ghost use Rattle.pure_terms.specs.View.{atoms_view, terms_view};
ghost use Rattle.report_causes.specs.Causes.{question_shown, wide_question};
ghost use Rattle.report_causes.specs.Names.{place_of};
ghost use Rattle.report_names.specs.Named.{condition_of};

use checked_paths::Shown;
use gil_report::Question;
use pure_terms::{Atom, Atoms, Choices, Reason, Sort, Terms, VarTable};
use report_names::named_atoms;
use sequence::Sequence;
use solver_print::Names;
use std::alloc::{AllocError, Global};
use sym_model::copy_conditions;
use sym_paths::copy_place;

/// The place of the atom that a reason names.
pub fn place_of(reason: Reason) -> usize
    ensures { result ≡ place_of reason }
{
    match reason {
        Reason::Atom(place) => place,
        Reason::Number(place) => place,
    }
}

/// Equal choices.
pub(crate) fn copy_choices(alloc: Global, choices: &Choices) -> Result<Choices, AllocError>
    ensures { IfOk result (λ copied. copied ≡ choices.now) }
{
    let mut copied = Choices::new(alloc);
    for choice in choices.as_slice() {
        copied.push(*choice)?;
    }
    Ok(copied)
}

/// The sorts of a table.
fn copy_sorts(alloc: Global, vars: &VarTable) -> Result<Sequence<Sort>, AllocError>
    ensures { IfOk result (λ copied. copied ≡ vars.now) }
{
    let mut copied = Sequence::new(alloc);
    for sort in vars.as_slice() {
        copied.push(*sort)?;
    }
    Ok(copied)
}

/// The question of a path with these conditions, and the place of one that keeps them out of the fragment. Their variables have no names but `v`
/// and their numbers.
fn asked(
    alloc: Global,
    shown: &Shown,
    conds: &Atoms,
    outside: usize,
) -> Result<Question, AllocError>
    ensures { IfOk result (λ q. question_view q
        ≡ record (question_shown (shown_view shown.now) outside) { query = map (condition_of []) (atoms_view conds.now) }) }
{
    let names = Names::new(alloc);
    let place = copy_place(alloc, &shown.place)?;
    let path = copy_choices(alloc, &shown.path)?;
    let vars = copy_sorts(alloc, &shown.vars)?;
    let given = named_atoms(alloc, &names, &shown.given)?;
    let query = named_atoms(alloc, &names, conds)?;
    Ok(Question {
        place,
        path,
        vars,
        given,
        query,
        outside,
    })
}

/// The conditions of a path, which aren't decided, and the place of one that keeps them out of the fragment.
pub(crate) fn question(alloc: Global, shown: &Shown, outside: usize) -> Result<Question, AllocError>
    ensures { IfOk result (λ q. question_view q ≡ question_shown (shown_view shown.now) outside) }
{
    asked(alloc, shown, &shown.conds, outside)
}

/// The conditions, and behind them that the literal forms of these terms are needed.
fn with_forms(alloc: Global, conds: &Atoms, terms: &Terms) -> Result<Atoms, AllocError>
    ensures { IfOk result (λ atoms. atoms_view atoms ≡ atoms_view conds.now ++ map opening (terms_view terms.now)) }
{
    let mut atoms = copy_conditions(alloc, conds)?;
    for term in terms.as_slice() {
        atoms.push(Atom::Open(term.copy(alloc)?))?;
    }
    Ok(atoms)
}

/// The conditions of a path, and behind them whether these terms have a form.
pub(crate) fn wide_question(
    alloc: Global,
    shown: &Shown,
    terms: &Terms,
) -> Result<Question, AllocError>
    ensures { IfOk result (λ q. question_view q ≡ wide_question (shown_view shown.now) (terms_view terms.now)) }
{
    let conds = with_forms(alloc, &shown.conds, terms)?;
    asked(alloc, shown, &conds, shown.conds.as_slice().len())
}
