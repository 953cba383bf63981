//! Atoms as conditions.
ghost use Rattle.std.specs.Prelude.{◌≡◌, map, IfOk};
ghost use Rattle.pure_terms.specs.View.{atom_view, atoms_view};
ghost use Rattle.gil_report.specs.View.{condition_view};
ghost use Rattle.report_names.specs.Named.{condition_of};

use crate::terms::named_term;
use gil_report::{Condition, Conditions};
use gil_syntax::Expr;
use gil_values::UnOp;
use pure_terms::{Atom, Atoms};
use solver_print::Names;
use std::alloc::{AllocError, Global};

/// The condition that an atom is, with these names for its variables.
pub fn named_atom(alloc: Global, names: &Names, atom: &Atom) -> Result<Condition, AllocError>
    ensures { IfOk result (λ condition. condition_view condition ≡ condition_of names.now (atom_view atom.now)) }
{
    match atom {
        Atom::Holds(term) => Ok(Condition::Holds(named_term(alloc, names, term)?)),
        Atom::Not(term) => {
            let operand = named_term(alloc, names, term)?;
            Ok(Condition::Holds(Expr::Op1(UnOp::Not, Box::new(alloc, operand)?)))
        }
        Atom::Open(term) => Ok(Condition::Open(named_term(alloc, names, term)?)),
    }
}

/// The conditions that atoms are.
pub fn named_atoms(alloc: Global, names: &Names, atoms: &Atoms) -> Result<Conditions, AllocError>
    ensures { IfOk result (λ conditions. map condition_view conditions ≡ map (condition_of names.now) (atoms_view atoms.now)) }
{
    let mut list = Conditions::new(alloc);
    for atom in atoms.as_slice() {
        list.push(named_atom(alloc, names, atom)?)?;
    }
    Ok(list)
}
