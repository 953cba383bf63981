//! Tables and lists of atoms that are copied.
ghost use Rattle.std.specs.Prelude.{◌≡◌, [], ◌∷◌, ◌++◌, IfOk, OnOk};
ghost use Rattle.pure_terms.specs.Pure.{negative};
ghost use Rattle.pure_terms.specs.View.{atoms_view, term_view};
ghost use Rattle.solver_proof.specs.Chains.{equals};

use gil_values::BinOp;
use pure_terms::{Atom, Atoms, Term, VarTable};
use std::alloc::{AllocError, Global};
use std::rc::Rc;

/// An equal table.
pub(crate) fn copy_of_table(alloc: Global, vars: &VarTable) -> Result<VarTable, AllocError>
    ensures { IfOk result (λ table. table ≡ vars.now) }
{
    let sorts = vars.as_slice();
    let mut table = VarTable::new(alloc);
    for sort in sorts {
        table.push(*sort)?;
    }
    Ok(table)
}

/// An equal list.
pub(crate) fn copy_of(alloc: Global, atoms: &Atoms) -> Result<Atoms, AllocError>
    ensures { IfOk result (λ list. atoms_view list ≡ atoms_view atoms.now) }
{
    let atoms = atoms.as_slice();
    let mut list = Atoms::new(alloc);
    for atom in atoms {
        list.push(atom.copy(alloc)?)?;
    }
    Ok(list)
}

/// Adds the disequality of two terms to a list.
pub(crate) fn push_disequality(
    alloc: Global,
    list: &mut Atoms,
    s: &Term,
    t: &Term,
) -> Result<(), AllocError>
    ensures { OnOk result (atoms_view list.new ≡ atoms_view list.old ++ negative (equals (term_view s.now) (term_view t.now)) ∷ []) }
{
    let s = s.copy(alloc)?;
    let t = t.copy(alloc)?;
    let term = Term::Op2(BinOp::Equal, Rc::new(alloc, s)?, Rc::new(alloc, t)?);
    list.push(Atom::Not(term))?;
    Ok(())
}
