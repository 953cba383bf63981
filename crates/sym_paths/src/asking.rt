//! Asking a decider of conditions.
ghost use Rattle.std.specs.Prelude.{◌≡◌, ◌↔◌, List, ◌∷◌, [], true, IfOk, IfSome, IfNone, IsTrue, Some, slice_get};
ghost use Rattle.std.specs.List.{list_any};
ghost use Rattle.pure_terms.specs.Deciding.{IsReason};
ghost use Rattle.pure_terms.specs.Fragment.{InFragment};
ghost use Rattle.pure_terms.specs.Laws.{AreEachInFragment};
ghost use Rattle.pure_terms.specs.Meaning.{AreOver};
ghost use Rattle.pure_terms.specs.Pure.{PureAtom};
ghost use Rattle.pure_terms.specs.View.{atom_view, atoms_view};
ghost use Rattle.sym_model.specs.Meaning.{has_open, is_open};
ghost use Rattle.sym_paths.specs.Steps.{IsFirstOutside, place_of};
ghost use Rattle.sym_paths.specs.Asking.{IsRightly};
ghost use Rattle.sym_paths.specs.AskingView.{satisfiability_view};

use pure_terms::{Atom, Atoms, Decider, Decision, Reason, Valuation, VarTable, in_fragment};
use sequence::Sequence;
use std::alloc::{AllocError, Global};

/// What is known of conditions. Contracts see it as its pure data, by `satisfiability_view`.
#[derive(Debug, Drop)]
pub enum Satisfiability {
    /// This valuation meets them, and none of them needs a literal form.
    Satisfiable(Valuation),
    /// No valuation meets them.
    Unsatisfiable,
    /// They aren't in the fragment, and this is why the first of them isn't that by itself isn't.
    Undecided(Reason),
}

/// Whether the atom by itself is in the fragment.
pub fn is_inside(alloc: Global, vars: &VarTable, atom: &Atom) -> Result<bool, AllocError>
    requires { AreOver vars.now (atom_view atom.now ∷ []) }
    ensures { IfOk result (λ b. IsTrue b ↔ InFragment (atom_view atom.now ∷ [])) }
{
    let mut alone = Sequence::new(alloc);
    alone.push(atom.copy(alloc)?)?;
    Ok(in_fragment(vars, &alone))
}

/// Why the atom at a place isn't in the fragment. One that only names too many variables is more than memory holds.
fn reason_at(atom: &Atom, place: usize) -> Result<Reason, AllocError>
    ensures place { IfOk result (λ r. place_of r ≡ place) }
    ensures reason { IfOk result (λ r. (atoms : List PureAtom) → slice_get atoms place ≡ Some (atom_view atom.now) → IsReason atoms r) }
{
    if !atom.has_fragment_form() {
        return Ok(Reason::Atom(place));
    }
    if !atom.has_narrow_literals() {
        return Ok(Reason::Number(place));
    }
    Err(AllocError)
}

/// The first atom that isn't in the fragment by itself, if there is one.
pub fn first_outside(
    alloc: Global,
    vars: &VarTable,
    atoms: &Atoms,
) -> Result<Option<Reason>, AllocError>
    requires { AreOver vars.now (atoms_view atoms.now) }
    ensures first { IfOk result (λ o. IfSome o (IsFirstOutside (atoms_view atoms.now))) }
    ensures none { IfOk result (λ o. IfNone o (AreEachInFragment (atoms_view atoms.now))) }
{
    let items = atoms.as_slice();
    for place in 0..items.len() {
        if !is_inside(alloc, vars, &items[place])? {
            return Ok(Some(reason_at(&items[place], place)?));
        }
    }
    Ok(None)
}

fn is_form_needed(atom: &Atom) -> bool
    ensures { result ≡ is_open (atom_view atom.now) }
{
    match atom {
        Atom::Open(_) => true,
        Atom::Holds(_) | Atom::Not(_) => false,
    }
}

/// Whether one of the conditions is that a literal form is needed.
pub fn needs_form(atoms: &Atoms) -> bool
    ensures { result ≡ list_any (λ a. is_open (atom_view a)) atoms.now }
{
    atoms.iter().any(|atom| is_form_needed(atom))
}

/// The first atom that isn't in the fragment by itself, or the one that a decider named.
fn first_or(
    alloc: Global,
    vars: &VarTable,
    atoms: &Atoms,
    named: Reason,
) -> Result<Reason, AllocError>
    requires over { AreOver vars.now (atoms_view atoms.now) }
    requires named { IsReason (atoms_view atoms.now) named }
    ensures { IfOk result (IsFirstOutside (atoms_view atoms.now)) }
{
    match first_outside(alloc, vars, atoms)? {
        Some(first) => Ok(first),
        None => Ok(named),
    }
}

/// The first atom that isn't in the fragment by itself, where one needs a literal form.
fn first_needing(alloc: Global, vars: &VarTable, atoms: &Atoms) -> Result<Reason, AllocError>
    requires over { AreOver vars.now (atoms_view atoms.now) }
    requires needs { has_open (atoms_view atoms.now) ≡ true }
    ensures { IfOk result (IsFirstOutside (atoms_view atoms.now)) }
{
    match first_outside(alloc, vars, atoms)? {
        Some(reason) => Ok(reason),
        None => unreachable!(),
    }
}

/// Whether some valuation meets the conditions, as a decider says; or why that isn't decided. Where a literal form is needed it isn't,
/// though some valuation may meet them.
pub fn ask<D: Decider>(
    alloc: Global,
    decider: &mut D,
    vars: &VarTable,
    atoms: &Atoms,
) -> Result<Satisfiability, AllocError>
    requires { AreOver vars.now (atoms_view atoms.now) }
    ensures { IfOk result (λ s. IsRightly vars.now (atoms_view atoms.now) (satisfiability_view s)) }
{
    match decider.decide(alloc, vars, atoms)? {
        Decision::Unsat => Ok(Satisfiability::Unsatisfiable),
        Decision::Sat(found) => {
            let open = needs_form(atoms);
            if open {
                return Ok(Satisfiability::Undecided(first_needing(alloc, vars, atoms)?));
            }
            Ok(Satisfiability::Satisfiable(found))
        }
        Decision::Unknown(named) => {
            Ok(Satisfiability::Undecided(first_or(alloc, vars, atoms, named)?))
        }
    }
}
