//! The sorts that a list says of the variables of a table.
ghost use Rattle.std.specs.Prelude.{◌≡◌, ℕ, ◌<◌, length, IfOk};
ghost use Rattle.pure_terms.specs.declared.variables.Sort.{Sort};
ghost use Rattle.pure_terms.specs.Meaning.{AreOver};
ghost use Rattle.pure_terms.specs.View.{atom_view, atoms_view};
ghost use Rattle.solver_sorts.specs.Sorting.{IsSortedTable};
ghost use Rattle.solver_sorts.specs.Tables.{IsNoted, IsWithin};

use crate::saying::{SortSaid, sort_said};
use pure_terms::{Atom, Atoms, Sort, VarTable};
use std::alloc::{AllocError, Global};

/// The sorts of a table.
fn sorts_of(alloc: Global, vars: &VarTable) -> Result<Vec<Sort>, AllocError>
    ensures { IfOk result (λ sorts. sorts.items ≡ vars.now) }
{
    let mut sorts = Vec::new(alloc);
    for sort in vars.as_slice() {
        sorts.push(*sort)?;
    }
    Ok(sorts)
}

/// The table of these sorts.
fn table_of(alloc: Global, sorts: &[Sort]) -> Result<VarTable, AllocError>
    ensures { IfOk result (λ table. table ≡ sorts.now) }
{
    let mut table = VarTable::new(alloc);
    for sort in sorts {
        table.push(*sort)?;
    }
    Ok(table)
}

/// Gives a variable the sort that an atom says of it.
fn note(sorts: &mut Vec<Sort>, atom: &Atom)
    requires within { IsWithin (atom_view atom.now) (length sorts.old.items) }
    ensures { IsNoted (atom_view atom.now) sorts.old.items sorts.new.items }
{
    if let Some(SortSaid { number, sort }) = sort_said(atom) {
        sorts[number as usize] = sort;
    }
}

/// The table with the sorts that the list says in place of sort any.
pub(crate) fn sorted_table(
    alloc: Global,
    vars: &VarTable,
    atoms: &Atoms,
) -> Result<VarTable, AllocError>
    requires { AreOver vars.now (atoms_view atoms.now) }
    ensures { IfOk result (IsSortedTable vars.now (atoms_view atoms.now)) }
{
    let mut sorts = sorts_of(alloc, vars)?;
    for atom in atoms.as_slice() {
        note(&mut sorts, atom);
    }
    table_of(alloc, sorts.as_slice())
}
