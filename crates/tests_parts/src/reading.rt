//! Lists of atoms, read from texts.
ghost use Rattle.std.specs.Prelude.{IfOk};
ghost use Rattle.pure_terms.specs.Meaning.{AreOver};
ghost use Rattle.pure_terms.specs.View.{atoms_view};

use atom_text::{AtomText, read_atoms};
use std::alloc::Global;
use std::test::Fail;

/// What texts of tests declare: w, x, y and z are the variables 0 to 3.
const DECLARED: &str = "vars w: int, x: int, y: int, z: int, a: any, c: any; ";

/// The atoms that a text states, over the variables that are declared for it.
pub(crate) fn list(alloc: Global, stated: &str) -> Result<AtomText, Fail>
    ensures { IfOk result (λ text. AreOver text.vars (atoms_view text.atoms)) }
{
    let text = format!(in alloc; "{DECLARED}{stated}")?;
    Ok(read_atoms(alloc, text.as_bytes())?)
}
