//! The part of a list that hangs together with the atoms that values break, as a list of its own over fewer variables.
ghost use Rattle.std.specs.Prelude.{IsTrue, IfOk, IfSome};
ghost use Rattle.gil_values.specs.View.{values_view};
ghost use Rattle.pure_terms.specs.Meaning.{AreOver};
ghost use Rattle.pure_terms.specs.View.{atoms_view};
ghost use Rattle.solver_guess.specs.Guesses.{IsModel};
ghost use Rattle.solver_proof.specs.Closing.{Closes};
ghost use Rattle.solver_proof.specs.View.{proof_view};

use crate::classes::{Classes, join_atoms};
use crate::fitting::{broken_since, tested};
use crate::patching::patched;
use crate::proofs::whole_proof;
use crate::renaming::renamed_atom;
use pure_terms::{Atoms, Valuation, VarTable};
use solver_proof::{Proof, accepts};
use std::alloc::{AllocError, Global};

/// A part of a list: atoms over variables that are numbered anew.
#[derive(Drop)]
pub struct Part {
    pub vars: VarTable,
    pub atoms: Atoms,
    /// Where the atoms stand in the list.
    pub(crate) places: Vec<usize>,
    /// The numbers that the variables have in the list.
    pub(crate) numbers: Vec<usize>,
    /// How many atoms the list has.
    pub(crate) whole: usize,
}

/// The variables of a list, in classes of those that hang together, and the atoms that are wanted.
#[derive(Drop)]
struct Hanging {
    classes: Classes,
    /// A variable of each atom that names one.
    firsts: Vec<Option<usize>>,
    /// Which atoms values break.
    broken: Vec<bool>,
    /// For each variable that stands for a class whether the class is wanted.
    wanted: Vec<bool>,
}

/// The part of a list that hangs together with the atoms that values break, where it is at most half of the variables. The values are
/// taken to satisfy so many first atoms.
pub fn broken_part(
    alloc: Global,
    vars: &VarTable,
    atoms: &Atoms,
    values: &Valuation,
    held: usize,
) -> Result<Option<Part>, AllocError>
    ensures { IfOk result (λ found. IfSome found (λ part. AreOver part.vars (atoms_view part.atoms))) }
{
    let broken = broken_since(alloc, atoms, values, held)?;
    let mut hanging = hanging_of(alloc, vars, atoms, broken.as_slice())?;
    let numbers = wanted_numbers(alloc, vars, &mut hanging)?;
    if numbers.len() > vars.len() / 2 {
        return Ok(None);
    }
    let part = part_of(alloc, vars, atoms, &mut hanging, numbers)?;
    if are_over(&part.vars, &part.atoms) {
        Ok(Some(part))
    } else {
        Ok(None)
    }
}

impl Part {
    /// Values for the whole list, where these are found for the part.
    pub fn values(
        &self,
        alloc: Global,
        vars: &VarTable,
        atoms: &Atoms,
        values: &Valuation,
        found: &Valuation,
    ) -> Result<Option<Valuation>, AllocError>
        ensures { IfOk result (λ all. IfSome all (λ v. IsModel vars.now (atoms_view atoms.now) (values_view v))) }
    {
        let all = patched(alloc, values, self.numbers.as_slice(), found)?;
        tested(alloc, vars, atoms, all)
    }

    /// A proof that closes the whole list, where this one closes the part.
    pub fn proof(
        &self,
        alloc: Global,
        vars: &VarTable,
        atoms: &Atoms,
        proof: &Proof,
    ) -> Result<Option<Proof>, AllocError>
        ensures { IfOk result (λ all. IfSome all (λ p. Closes vars.now (atoms_view atoms.now) (proof_view p))) }
    {
        let all = whole_proof(alloc, self, proof)?;
        if accepts(vars, atoms, &all) {
            Ok(Some(all))
        } else {
            Ok(None)
        }
    }
}

/// Whether the atoms name only variables of the table, with their sorts there.
fn are_over(vars: &VarTable, atoms: &Atoms) -> bool
    ensures { IsTrue result → AreOver vars.now (atoms_view atoms.now) }
{
    for atom in atoms.as_slice() {
        if !atom.term().is_over(vars) {
            return false;
        }
    }
    true
}

fn hanging_of(
    alloc: Global,
    vars: &VarTable,
    atoms: &Atoms,
    broken: &[usize],
) -> Result<Hanging, AllocError> {
    let mut classes = Classes::new(alloc, vars.len())?;
    let firsts = join_atoms(alloc, &mut classes, atoms)?;
    let broken = broken_atoms(alloc, atoms.len(), broken)?;
    let wanted = wanted_classes(
        alloc,
        vars.len(),
        &mut classes,
        firsts.as_slice(),
        broken.as_slice(),
    )?;
    Ok(Hanging {
        classes,
        firsts,
        broken,
        wanted,
    })
}

/// Marks for so many atoms at these places.
fn broken_atoms(alloc: Global, count: usize, places: &[usize]) -> Result<Vec<bool>, AllocError> {
    let mut broken = none_of(alloc, count)?;
    for place in places {
        mark(broken.as_mut_slice(), *place);
    }
    Ok(broken)
}

/// The classes of which a variable stands in a broken atom.
fn wanted_classes(
    alloc: Global,
    count: usize,
    classes: &mut Classes,
    firsts: &[Option<usize>],
    broken: &[bool],
) -> Result<Vec<bool>, AllocError> {
    let mut wanted = none_of(alloc, count)?;
    for (place, first) in firsts.iter().enumerate() {
        if let Some(first) = *first {
            if is_marked(broken, place) {
                mark(wanted.as_mut_slice(), classes.root(first));
            }
        }
    }
    Ok(wanted)
}

fn none_of(alloc: Global, count: usize) -> Result<Vec<bool>, AllocError> {
    let mut marks: Vec<bool> = Vec::with_capacity(alloc, count)?;
    for _number in 0..count {
        marks.push(false)?;
    }
    Ok(marks)
}

fn is_marked(marks: &[bool], number: usize) -> bool {
    match marks.get(number) {
        Some(mark) => *mark,
        None => false,
    }
}

fn mark(marks: &mut [bool], number: usize) {
    if number < marks.len() {
        marks[number] = true;
    }
}

impl Hanging {
    /// Whether the class of a variable is wanted.
    fn wants(&mut self, number: usize) -> bool {
        let root = self.classes.root(number);
        is_marked(self.wanted.as_slice(), root)
    }

    /// Whether the atom at a place is of the part.
    fn takes(&mut self, place: usize) -> bool {
        let first = match self.firsts.get(place) {
            Some(first) => *first,
            None => None,
        };
        match first {
            Some(first) => self.wants(first),
            None => is_marked(self.broken.as_slice(), place),
        }
    }
}

/// The numbers of the variables of the part.
fn wanted_numbers(
    alloc: Global,
    vars: &VarTable,
    hanging: &mut Hanging,
) -> Result<Vec<usize>, AllocError> {
    let mut numbers: Vec<usize> = Vec::new(alloc);
    for number in 0..vars.len() {
        if hanging.wants(number) {
            numbers.push(number)?;
        }
    }
    Ok(numbers)
}

fn part_of(
    alloc: Global,
    vars: &VarTable,
    atoms: &Atoms,
    hanging: &mut Hanging,
    numbers: Vec<usize>,
) -> Result<Part, AllocError> {
    let own = own_numbers(alloc, vars.len(), numbers.as_slice())?;
    let part_vars = part_table(alloc, vars, numbers.as_slice())?;
    let mut part_atoms = Atoms::new(alloc);
    let mut places: Vec<usize> = Vec::new(alloc);
    for (place, atom) in atoms.as_slice().iter().enumerate() {
        if hanging.takes(place) {
            part_atoms.push(renamed_atom(alloc, atom, own.as_slice())?)?;
            places.push(place)?;
        }
    }
    Ok(Part {
        vars: part_vars,
        atoms: part_atoms,
        places,
        numbers,
        whole: atoms.len(),
    })
}

/// The numbers that variables have in the part, where they are of it.
fn own_numbers(alloc: Global, count: usize, numbers: &[usize]) -> Result<Vec<usize>, AllocError> {
    let mut own: Vec<usize> = Vec::with_capacity(alloc, count)?;
    for number in 0..count {
        own.push(number)?;
    }
    for (new, number) in numbers.iter().enumerate() {
        if *number < own.len() {
            own[*number] = new;
        }
    }
    Ok(own)
}

/// The sorts of these variables.
fn part_table(alloc: Global, vars: &VarTable, numbers: &[usize]) -> Result<VarTable, AllocError> {
    let mut sorts = VarTable::new(alloc);
    for number in numbers {
        if let Some(sort) = vars.get(*number) {
            sorts.push(*sort)?;
        }
    }
    Ok(sorts)
}
