//! The search over splits of a list of atoms of the fragment.
ghost use Rattle.std.specs.Prelude.{◌≡◌, [], ◌∷◌, ◌++◌, IfOk, OnOk};
ghost use Rattle.pure_terms.specs.Pure.{PureAtom, positive, negative};
ghost use Rattle.pure_terms.specs.View.{term_view, atom_view, atoms_view};
ghost use Rattle.solver_guess.specs.Guesses.{IsGuess};
ghost use Rattle.solver_proof.specs.Closing.{Closes};
ghost use Rattle.solver_proof.specs.View.{proof_view};
ghost use Rattle.solver_rules.specs.Rules.{IsUndecided};
ghost use Rattle.solver_rules.specs.Steps.{IsPlainAtom, ArePlain, IsSplit, IsStep};
ghost use Rattle.path_solver.specs.Falling.{Falls};
ghost use Rattle.path_solver.specs.Searching.{IsFound, IsBranch, EachFalls, AreEach, AreBranches};

use crate::branches::{Branches, differences_at, joined, kinds_of, values_at};
use crate::lists::cut_last;
use crate::taking::{Kept, moved_proof};
use pure_terms::{Atom, Atoms, Term, Valuation, VarTable};
use solver_finite::search_values;
use solver_guess::{Guess, guess_at};
use solver_next::next_step;
use solver_proof::{Proof, Proofs, accepts};
use solver_rules::Step;
use std::alloc::{AllocError, Global};

/// How many splits a search may make under one another. Each takes about 8 KB of the machine's stack, of which 8 MB are usual; what is
/// deeper is answered as want of memory.
pub const DEEPEST_SEARCH: usize = 600;

/// What is found of a list.
#[derive(Drop)]
pub(crate) enum Found {
    /// This valuation satisfies it.
    Model(Valuation),
    /// This proof closes it.
    Closed(Proof),
}

/// What is found where an atom is appended.
#[derive(Drop)]
pub(crate) enum Branch {
    /// What is found of the list without it too.
    Whole(Found),
    /// A proof that closes the list with it.
    Under(Proof),
}

/// What is found where one of several atoms is appended.
#[derive(Drop)]
pub(crate) enum Each {
    /// What is found of the list without them too.
    Whole(Found),
    /// A proof for each of them.
    Under(Proofs),
}

/// So many steps a search over the variables with few values makes before the first step on a list, and before each later one.
const FIRST_STEPS: usize = 20_000;

const LATER_STEPS: usize = 500;

/// A list with more atoms is searched so before the next step is asked for, which takes long there. The proofs of shorter ones are
/// shorter where a step closes them.
const LONG_LIST: usize = 64;

/// A list that began with so many atoms is split by steps alone, which are few there.
const SHORT_LIST: usize = 24;

/// Whether a list is short but for the atoms of the splits so far.
fn began_short(list: &Atoms, levels: usize) -> bool {
    let splits = DEEPEST_SEARCH.saturating_sub(levels);
    list.len() <= SHORT_LIST.saturating_add(splits)
}

/// How many steps a short search makes.
fn first_steps(levels: usize) -> usize {
    if levels == DEEPEST_SEARCH {
        FIRST_STEPS
    } else {
        LATER_STEPS
    }
}

/// What is guessed of a list, or else found of a long one by a short search over the variables with few values.
#[inline(never)]
fn known_at_once(
    alloc: Global,
    vars: &VarTable,
    list: &Atoms,
    levels: usize,
) -> Result<Guess, AllocError>
    ensures { IfOk result (IsGuess vars.now (atoms_view list.now)) }
{
    match guess_at(alloc, vars, list)? {
        Guess::Nothing if LONG_LIST < list.len() => {
            search_values(alloc, vars, list, first_steps(levels))
        }
        guess => Ok(guess),
    }
}

/// What a search over the variables with few values finds of a list that isn't decided without splits: before the first split it goes
/// on as long as it takes.
#[inline(never)]
fn known_before_splits(
    alloc: Global,
    vars: &VarTable,
    list: &Atoms,
    levels: usize,
    step: &Step,
) -> Result<Guess, AllocError>
    ensures { IfOk result (IsGuess vars.now (atoms_view list.now)) }
{
    if began_short(list, levels) || matches!(step, Step::Model(_) | Step::Closed(_)) {
        return Ok(Guess::Nothing);
    }
    if levels == DEEPEST_SEARCH {
        return search_values(alloc, vars, list, usize::MAX);
    }
    if LONG_LIST < list.len() {
        return Ok(Guess::Nothing);
    }
    search_values(alloc, vars, list, LATER_STEPS)
}

/// Searches a list, by at most so many splits under one another. It is made longer and cut back; where memory wants it may stay longer.
/// The search ends, since each atom that is added leaves less to say.
#[cycle(search)]
pub(crate) fn search(
    alloc: Global,
    vars: &VarTable,
    list: &mut Atoms,
    levels: usize,
) -> Result<Found, AllocError>
    requires plain { ArePlain vars.now (atoms_view list.old) }
    ensures same { OnOk result (list.new ≡ list.old) }
    ensures found { IfOk result (IsFound vars.now (atoms_view list.old)) }
{
    match known_at_once(alloc, vars, list, levels)? {
        Guess::Model(valuation) => Ok(Found::Model(valuation)),
        Guess::Closed(proof) => Ok(Found::Closed(proof)),
        Guess::Nothing => search_by_steps(alloc, vars, list, levels),
    }
}

/// Searches a list of which no guess is right.
#[cycle(search)]
fn search_by_steps(
    alloc: Global,
    vars: &VarTable,
    list: &mut Atoms,
    levels: usize,
) -> Result<Found, AllocError>
    requires plain { ArePlain vars.now (atoms_view list.old) }
    ensures same { OnOk result (list.new ≡ list.old) }
    ensures found { IfOk result (IsFound vars.now (atoms_view list.old)) }
{
    let step = next_step(alloc, vars, list)?;
    match known_before_splits(alloc, vars, list, levels, &step)? {
        Guess::Model(valuation) => Ok(Found::Model(valuation)),
        Guess::Closed(proof) => Ok(Found::Closed(proof)),
        Guess::Nothing => search_step(alloc, vars, list, levels, step),
    }
}

/// Goes on with a list by the next step.
#[cycle(search)]
fn search_step(
    alloc: Global,
    vars: &VarTable,
    list: &mut Atoms,
    levels: usize,
    step: Step,
) -> Result<Found, AllocError>
    requires plain { ArePlain vars.now (atoms_view list.old) }
    requires step { IsStep vars.now (atoms_view list.old) step }
    ensures same { OnOk result (list.new ≡ list.old) }
    ensures found { IfOk result (IsFound vars.now (atoms_view list.old)) }
{
    match step {
        Step::Model(valuation) => Ok(Found::Model(valuation)),
        Step::Closed(proof) => Ok(Found::Closed(proof)),
        Step::Split(term) => search_split(alloc, vars, list, levels, term),
        Step::Cases(subject) => {
            let branches = kinds_of(alloc, vars, list, subject)?;
            search_branches(alloc, vars, list, levels, branches)
        }
        Step::Values(place) => {
            let branches = values_at(alloc, vars, list, place)?;
            search_branches(alloc, vars, list, levels, branches)
        }
        Step::Differ(place) => {
            let branches = differences_at(alloc, vars, list, place)?;
            search_branches(alloc, vars, list, levels, branches)
        }
    }
}

/// Searches a list where a term is true, and where it is false.
#[cycle(search)]
fn search_split(
    alloc: Global,
    vars: &VarTable,
    list: &mut Atoms,
    levels: usize,
    term: Term,
) -> Result<Found, AllocError>
    requires plain { ArePlain vars.now (atoms_view list.old) }
    requires split { IsSplit vars.now (term_view term) }
    requires undecided { IsUndecided (atoms_view list.old) (term_view term) }
    ensures same { OnOk result (list.new ≡ list.old) }
    ensures found { IfOk result (IsFound vars.now (atoms_view list.old)) }
{
    let holds = Atom::Holds(term.copy(alloc)?);
    match search_with(alloc, vars, list, levels, holds)? {
        Branch::Whole(found) => Ok(found),
        Branch::Under(first) => search_second(alloc, vars, list, levels, term, first),
    }
}

/// Searches a list where a term is false, after a proof where it is true.
#[cycle(search)]
fn search_second(
    alloc: Global,
    vars: &VarTable,
    list: &mut Atoms,
    levels: usize,
    term: Term,
    first: Proof,
) -> Result<Found, AllocError>
    requires plain { ArePlain vars.now (atoms_view list.old) }
    requires split { IsSplit vars.now (term_view term) }
    requires undecided { IsUndecided (atoms_view list.old) (term_view term) }
    requires first { Closes vars.now (atoms_view list.old ++ positive (term_view term) ∷ []) (proof_view first) }
    ensures same { OnOk result (list.new ≡ list.old) }
    ensures found { IfOk result (IsFound vars.now (atoms_view list.old)) }
{
    let fails = Atom::Not(term.copy(alloc)?);
    match search_with(alloc, vars, list, levels, fails)? {
        Branch::Whole(found) => Ok(found),
        Branch::Under(second) => {
            let first = Box::new(alloc, first)?;
            let second = Box::new(alloc, second)?;
            Ok(Found::Closed(Proof::Split(term, first, second)))
        }
    }
}

/// Searches a list with each of some atoms, of which one holds.
#[cycle(search)]
#[inline(never)]
fn search_branches(
    alloc: Global,
    vars: &VarTable,
    list: &mut Atoms,
    levels: usize,
    branches: Branches,
) -> Result<Found, AllocError>
    requires plain { ArePlain vars.now (atoms_view list.old) }
    requires branches { AreBranches vars.now (atoms_view list.old) branches }
    ensures same { OnOk result (list.new ≡ list.old) }
    ensures found { IfOk result (IsFound vars.now (atoms_view list.old)) }
{
    match search_each(alloc, vars, list, levels, &branches.atoms)? {
        Each::Whole(found) => Ok(found),
        Each::Under(proofs) => Ok(Found::Closed(joined(branches.form, proofs))),
    }
}

/// Searches a list with each of some atoms in turn.
#[cycle(search)]
fn search_each(
    alloc: Global,
    vars: &VarTable,
    list: &mut Atoms,
    levels: usize,
    more: &Atoms,
) -> Result<Each, AllocError>
    requires plain { ArePlain vars.now (atoms_view list.old) }
    requires more { ArePlain vars.now (atoms_view more.now) }
    requires falls { EachFalls vars.now (atoms_view list.old) (atoms_view more.now) }
    ensures same { OnOk result (list.new ≡ list.old) }
    ensures each { IfOk result (AreEach vars.now (atoms_view list.old) (atoms_view more.now)) }
{
    let mut proofs = Proofs::new(alloc);
    for atom in more.as_slice() {
        let appended = atom.copy(alloc)?;
        match search_with(alloc, vars, list, levels, appended)? {
            Branch::Whole(found) => return Ok(Each::Whole(found)),
            Branch::Under(proof) => proofs.push(proof)?,
        }
    }
    Ok(Each::Under(proofs))
}

/// Searches a list with an atom appended, where there may be another split.
#[cycle(search)]
fn search_with(
    alloc: Global,
    vars: &VarTable,
    list: &mut Atoms,
    levels: usize,
    atom: Atom,
) -> Result<Branch, AllocError>
    requires plain { ArePlain vars.now (atoms_view list.old) }
    requires atom { IsPlainAtom vars.now (atom_view atom) }
    requires falls { Falls vars.now (atoms_view list.old) (atom_view atom) }
    ensures same { OnOk result (list.new ≡ list.old) }
    ensures branch { IfOk result (IsBranch vars.now (atoms_view list.old) (atom_view atom)) }
{
    if levels == 0 {
        return Err(AllocError);
    }
    list.push(atom)?;
    let found = search(alloc, vars, list, levels - 1)?;
    cut_last(list);
    without_last(alloc, vars, list, found)
}

/// What is found of a list with one atom more, where it is taken away again. A proof that doesn't need the atom stands for
/// the list itself, so that no other branch is searched.
#[inline(never)]
fn without_last(
    alloc: Global,
    vars: &VarTable,
    list: &Atoms,
    found: Found,
) -> Result<Branch, AllocError>
    ensures { IfOk result (λ b. (a : PureAtom) → IsFound vars.now (atoms_view list.now ++ a ∷ []) found → IsBranch vars.now (atoms_view list.now) a b) }
{
    match found {
        Found::Model(valuation) => Ok(Branch::Whole(Found::Model(valuation))),
        Found::Closed(proof) => match moved_proof(alloc, &proof, list.len()) {
            Ok(shorter) => {
                if accepts(vars, list, &shorter) {
                    return Ok(Branch::Whole(Found::Closed(shorter)));
                }
                Ok(Branch::Under(proof))
            }
            Err(Kept::Named) => Ok(Branch::Under(proof)),
            Err(Kept::Memory) => Err(AllocError),
        },
    }
}
