//! Lists of atoms that the search makes longer and cuts back.
ghost use Rattle.std.specs.Prelude.{◌≡◌, ◌≤◌, List, [], ◌∷◌, ◌++◌, length, take, IsTrue, IfOk, OnOk};
ghost use Rattle.pure_terms.specs.declared.atoms.Atom.{Atom};
ghost use Rattle.pure_terms.specs.View.{atom_view, atoms_view};
ghost use Rattle.path_solver.specs.Standing.{AreSameAt};

use pure_terms::{Atom, Atoms, VarTable};
use std::alloc::{AllocError, Global};

/// Takes the last atom away.
#[inline(never)]
pub(crate) fn cut_last(list: &mut Atoms)
    ensures { (kept : List Atom) (last : Atom) → list.old ≡ kept ++ last ∷ [] → list.new ≡ kept }
{
    list.pop();
}

/// An equal table.
pub(crate) fn copy_of_table(alloc: Global, vars: &VarTable) -> Result<VarTable, AllocError>
    ensures { IfOk result (λ table. table ≡ vars.now) }
{
    let mut table = VarTable::new(alloc);
    for sort in vars.as_slice() {
        table.push(*sort)?;
    }
    Ok(table)
}

/// Whether two tables have the same sorts.
pub(crate) fn are_same_tables(left: &VarTable, right: &VarTable) -> bool {
    if left.len() != right.len() {
        return false;
    }
    for (number, sort) in left.as_slice().iter().enumerate() {
        match right.get(number) {
            Some(other) if *other == *sort => {}
            _ => return false,
        }
    }
    true
}

/// Cuts a list back to its first atoms.
pub(crate) fn cut_to(list: &mut Atoms, len: usize)
    requires { len ≤ length list.old }
    ensures { list.new ≡ take len list.old }
{
    while len < list.len() {
        cut_last(list);
    }
}

/// Whether two atoms surely are the same.
fn are_same(left: &Atom, right: &Atom) -> bool
    ensures { IsTrue result → atom_view left.now ≡ atom_view right.now }
{
    match left {
        Atom::Holds(s) => match right {
            Atom::Holds(t) => *s == *t,
            _ => false,
        },
        Atom::Not(s) => match right {
            Atom::Not(t) => *s == *t,
            _ => false,
        },
        Atom::Open(s) => match right {
            Atom::Open(t) => *s == *t,
            _ => false,
        },
    }
}

/// How many first atoms two lists have in common.
pub(crate) fn common(left: &Atoms, right: &Atoms) -> usize
    ensures left { result ≤ length left.now }
    ensures right { result ≤ length right.now }
    ensures same { take result (atoms_view left.now) ≡ take result (atoms_view right.now) }
{
    let limit = left.len().min(right.len());
    for place in 0..limit {
        if !are_same_at(left, right, place) {
            return place;
        }
    }
    limit
}

/// Whether two lists surely have the same atom at a place.
fn are_same_at(left: &Atoms, right: &Atoms, place: usize) -> bool
    ensures { IsTrue result → AreSameAt (atoms_view left.now) (atoms_view right.now) place }
{
    match left.get(place) {
        Some(first) => match right.get(place) {
            Some(second) => are_same(first, second),
            None => false,
        },
        None => false,
    }
}

/// Makes a list equal to another one, by cutting it back to what the two have in common and adding the rest.
pub(crate) fn turn_to(alloc: Global, list: &mut Atoms, atoms: &Atoms) -> Result<(), AllocError>
    ensures { OnOk result (atoms_view list.new ≡ atoms_view atoms.now) }
{
    let kept = common(list, atoms);
    cut_to(list, kept);
    for index in kept..atoms.len() {
        let Some(atom) = atoms.get(index) else {
            unreachable!()
        };
        let atom = atom.copy(alloc)?;
        list.push(atom)?;
    }
    Ok(())
}
