//! Lists of atoms of which each by itself is of the fragment.
ghost use Rattle.std.specs.Prelude.{◌↔◌, All, IsTrue};
ghost use Rattle.pure_terms.specs.View.{atom_view, atoms_view};
ghost use Rattle.solver_rules.specs.Steps.{IsPlainAtom, ArePlain};

use pure_terms::{Atom, Atoms, VarTable};

pub(crate) fn is_plain(vars: &VarTable, atom: &Atom) -> bool
    ensures { IsTrue result ↔ IsPlainAtom vars.now (atom_view atom.now) }
{
    if !atom.term().is_over(vars) {
        return false;
    }
    atom.has_fragment_form() && atom.has_narrow_literals()
}

fn are_each_plain(vars: &VarTable, list: &Atoms) -> bool
    ensures { IsTrue result ↔ All (λ a. IsPlainAtom vars.now (atom_view a)) list.now }
{
    list.as_slice().iter().all(|atom| is_plain(vars, atom))
}

/// Whether each atom by itself is of the fragment, and names only variables of the table.
pub fn are_plain(vars: &VarTable, list: &Atoms) -> bool
    ensures { IsTrue result ↔ ArePlain vars.now (atoms_view list.now) }
{
    are_each_plain(vars, list)
}
