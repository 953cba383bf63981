//! Atoms that aren't of the fragment by themselves: which is the first, and what stands for them in a search.
ghost use Rattle.std.specs.Prelude.{◌≡◌, List, IfOk, IfSome, IfNone, MatchOption};
ghost use Rattle.pure_terms.specs.declared.variables.Sort.{Sort};
ghost use Rattle.pure_terms.specs.Meaning.{AreOver, IsOver};
ghost use Rattle.pure_terms.specs.Pure.{term_of};
ghost use Rattle.pure_terms.specs.Rewriting.{NamesNoMore};
ghost use Rattle.pure_terms.specs.View.{atom_view, atoms_view};
ghost use Rattle.solver_rules.specs.Steps.{IsPlainAtom, ArePlain};
ghost use Rattle.path_solver.specs.Outside.{is_plain_atom, AreAllPlain, IsKeptOut};

use crate::branches::equality;
use pure_terms::{Atom, Atoms, Literal, Reason, Term, VarTable};
use rewrite_book::{RuleBook, simplify};
use std::alloc::{AllocError, Global};

/// Whether an atom is of the fragment by itself.
fn is_plain(atom: &Atom) -> bool
    ensures { result ≡ is_plain_atom (atom_view atom.now) }
{
    atom.has_fragment_form() && atom.has_narrow_literals()
}

/// Why the first atom that isn't of the fragment by itself isn't.
pub(crate) fn first_outside(atoms: &Atoms) -> Option<Reason>
    ensures none { IfNone result (AreAllPlain (atoms_view atoms.now)) }
    ensures some { IfSome result (IsKeptOut (atoms_view atoms.now)) }
{
    for (place, atom) in atoms.as_slice().iter().enumerate() {
        if !atom.has_fragment_form() {
            return Some(Reason::Atom(place));
        }
        if !atom.has_narrow_literals() {
            return Some(Reason::Number(place));
        }
    }
    None
}

/// Whether the atoms from a place on are of the fragment by themselves.
pub(crate) fn are_plain_since(atoms: &Atoms, first: usize) -> bool {
    for place in first..atoms.len() {
        match atoms.get(place) {
            Some(atom) => {
                if !is_plain(atom) {
                    return false;
                }
            }
            None => return false,
        }
    }
    true
}

/// Atoms of the fragment that stand for those of a list, place by place: each that isn't of the fragment by itself is
/// simplified, and where that doesn't help nothing is asked there.
pub(crate) fn plain_list(
    alloc: Global,
    vars: &VarTable,
    rules: &RuleBook,
    atoms: &Atoms,
) -> Result<Atoms, AllocError>
    requires { AreOver vars.now (atoms_view atoms.now) }
    ensures { IfOk result (λ list. ArePlain vars.now (atoms_view list)) }
{
    let mut list = Atoms::new(alloc);
    for atom in atoms.as_slice() {
        list.push(plain_atom(alloc, rules, atom)?)?;
    }
    Ok(list)
}

/// The atom of the fragment that stands for an atom.
fn plain_atom(alloc: Global, rules: &RuleBook, atom: &Atom) -> Result<Atom, AllocError>
    ensures { IfOk result (λ a. (vars : List Sort) → IsOver vars (term_of (atom_view atom.now)) → IsPlainAtom vars (atom_view a)) }
{
    if is_plain(atom) {
        return atom.copy(alloc);
    }
    let simpler = simplified(alloc, rules, atom)?;
    if is_plain(&simpler) {
        return Ok(simpler);
    }
    true_atom(alloc)
}

/// The atom with its term simplified.
fn simplified(alloc: Global, rules: &RuleBook, atom: &Atom) -> Result<Atom, AllocError>
    ensures { IfOk result (λ a. NamesNoMore (term_of (atom_view atom.now)) (term_of (atom_view a))) }
{
    let term = simplify(alloc, rules, atom.term().copy(alloc)?)?;
    match atom {
        Atom::Holds(_) => Ok(Atom::Holds(term)),
        Atom::Not(_) => Ok(Atom::Not(term)),
        Atom::Open(_) => Ok(Atom::Open(term)),
    }
}

/// An atom that is always true.
fn true_atom(alloc: Global) -> Result<Atom, AllocError>
    ensures { IfOk result (λ a. (vars : List Sort) → IsPlainAtom vars (atom_view a)) }
{
    let left = Term::Lit(Literal::Bool(true));
    let right = Term::Lit(Literal::Bool(true));
    Ok(Atom::Holds(equality(alloc, left, right)?))
}
