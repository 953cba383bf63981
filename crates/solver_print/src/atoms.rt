//! Printed atoms.
ghost use Rattle.std.specs.Prelude.{◌≡◌, ◌++◌, string_bytes, OnOk};
ghost use Rattle.pure_terms.specs.View.{atom_view};
ghost use Rattle.solver_print.specs.Atoms.{printed_atom};

use crate::terms::{Names, push_term};
use pure_terms::{Atom, Term};
use std::alloc::AllocError;

/// Adds an atom, with these names for the variables 0, 1, 2 and so on.
pub fn push_atom(out: &mut String, names: &Names, atom: &Atom) -> Result<(), AllocError>
    ensures { OnOk result (string_bytes out.new ≡ string_bytes out.old ++ printed_atom names.now (atom_view atom.now)) }
{
    match atom {
        Atom::Holds(term) => push_term(out, names, term),
        Atom::Not(term) => {
            out.push_str("not(")?;
            push_term(out, names, term)?;
            out.push_str(")")?;
            Ok(())
        }
        Atom::Open(term) => {
            out.push_str("open(")?;
            push_term(out, names, term)?;
            out.push_str(")")?;
            Ok(())
        }
    }
}
