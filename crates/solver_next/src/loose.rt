//! The disequalities of a list of which a side is equated with no number.
ghost use Rattle.std.specs.Prelude.{◌≡◌, ◌↔◌, None, IsTrue, IfOk, OnOk};
ghost use Rattle.pure_terms.specs.View.{term_view, atom_view, atoms_view};
ghost use Rattle.equality_core.specs.declared.classes.Wanted.{Wanted};
ghost use Rattle.equality_core.specs.Classes.{classes_view};
ghost use Rattle.equality_core.specs.Classified.{first_in_class};
ghost use Rattle.solver_rules.specs.Nodes.{classes_of, IsNodeOf};
ghost use Rattle.solver_next.specs.Loose.{IsLooseAtom, IsPushed, AreLoose};

use equality_core::{Classes, Wanted};
use pure_terms::{Atom, Atoms, Term};
use solver_rules::{Node, flat_disequality};
use std::alloc::{AllocError, Global};

/// Whether a term is equated with no Int variable and no number.
fn has_no_number(classes: &Classes, term: &Term) -> bool
    ensures { IsTrue result ↔ (first_in_class (classes_view classes.now).nodes Wanted.Number (term_view term.now) ≡ None) }
{
    classes.first_in_class(term, Wanted::Number).is_none()
}

fn is_loose(classes: &Classes, atom: &Atom) -> bool
    ensures { IsTrue result ↔ IsLooseAtom (classes_view classes.now) (atom_view atom.now) }
{
    match flat_disequality(atom) {
        Some(pair) => {
            if has_no_number(classes, pair.left) {
                return true;
            }
            has_no_number(classes, pair.right)
        }
        None => false,
    }
}

/// Adds an atom, where it is loose.
fn push_loose(
    alloc: Global,
    classes: &Classes,
    apart: &mut Atoms,
    atom: &Atom,
) -> Result<(), AllocError>
    ensures { OnOk result (IsPushed (classes_view classes.now) (atom_view atom.now) (atoms_view apart.old) (atoms_view apart.new)) }
{
    if !is_loose(classes, atom) {
        return Ok(());
    }
    apart.push(atom.copy(alloc)?)?;
    Ok(())
}

/// The disequalities of variables and literals of which a side is equated with no number.
pub(crate) fn loose_of(alloc: Global, node: &Node<'_>) -> Result<Atoms, AllocError>
    requires { IsNodeOf node.now }
    ensures { IfOk result (λ apart. AreLoose (classes_of node.now) (atoms_view apart)) }
{
    let atoms = node.list.as_slice();
    let mut apart = Atoms::new(alloc);
    for atom in atoms {
        push_loose(alloc, node.classes, &mut apart, atom)?;
    }
    Ok(apart)
}
