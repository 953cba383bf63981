//! A list over the table of the sorts that it says.
ghost use Rattle.std.specs.Prelude.{◌≡◌, IfOk};
ghost use Rattle.pure_terms.specs.Meaning.{AreOver};
ghost use Rattle.pure_terms.specs.View.{atoms_view};
ghost use Rattle.solver_sorts.specs.Sorting.{IsSortedTable, sorted_atoms};

use crate::tables::sorted_table;
use crate::terms::sorted_atoms;
use pure_terms::{Atoms, VarTable};
use std::alloc::{AllocError, Global};

/// A list of atoms, and the table of its variables.
#[derive(Drop)]
pub struct SortedList {
    pub vars: VarTable,
    pub atoms: Atoms,
}

/// The list where each variable of sort any of which it says a kind is one of the sort with this kind.
pub fn sorted_list(alloc: Global, vars: &VarTable, atoms: &Atoms) -> Result<SortedList, AllocError>
    requires { AreOver vars.now (atoms_view atoms.now) }
    ensures table { IfOk result (λ list. IsSortedTable vars.now (atoms_view atoms.now) list.vars) }
    ensures atoms { IfOk result (λ list. atoms_view list.atoms ≡ sorted_atoms list.vars (atoms_view atoms.now)) }
{
    let sorted = sorted_table(alloc, vars, atoms)?;
    let list = sorted_atoms(alloc, &sorted, atoms)?;
    Ok(SortedList {
        vars: sorted,
        atoms: list,
    })
}
