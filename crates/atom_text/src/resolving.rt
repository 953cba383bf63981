//! The variables and atoms of what a text holds.
ghost use Rattle.std.specs.Prelude.{◌≡◌, ℕ, List, IfOk, IfErr};
ghost use Rattle.atom_text.specs.Accepted.{Says, text_view};
ghost use Rattle.atom_text.specs.Grammar.{Spell};
ghost use Rattle.atom_text.specs.Refusals.{IsUnfit};
ghost use Rattle.atom_text.specs.Sources.{names_of, sorts_of, source_view};

use crate::atoms::atoms_of;
use crate::naming::{Unfit, variables_of};
use crate::sources::{AtomSource, Declaration};
use gil_values::Text;
use pure_terms::{Atoms, VarTable};
use sequence::Sequence;
use std::alloc::{AllocError, Global};

/// The names of the variables 0, 1, 2 and so on.
pub type Names = Sequence<Text>;

/// The variables that a text declares, and its atoms over them.
#[derive(Debug, Drop)]
pub struct AtomText {
    pub names: Names,
    pub vars: VarTable,
    pub atoms: Atoms,
}

/// The most variables of a text.
const MOST_VARIABLES: usize = 1000;

/// The names of declarations.
fn names_of(alloc: Global, declarations: &[Declaration]) -> Result<Names, AllocError>
    ensures { IfOk result (λ names. names ≡ names_of declarations.now) }
{
    let mut names = Sequence::new(alloc);
    for declaration in declarations {
        names.push(declaration.name.copy(alloc)?)?;
    }
    Ok(names)
}

/// The sorts of declarations.
fn sorts_of(alloc: Global, declarations: &[Declaration]) -> Result<VarTable, AllocError>
    ensures { IfOk result (λ vars. vars ≡ sorts_of declarations.now) }
{
    let mut vars = Sequence::new(alloc);
    for declaration in declarations {
        vars.push(declaration.sort)?;
    }
    Ok(vars)
}

/// The variables and atoms of what a text holds, where each name is declared once, each that is named is declared, and
/// there are not too many.
pub(crate) fn resolve(alloc: Global, source: &AtomSource) -> Result<AtomText, Unfit>
    ensures ok { IfOk result (λ text. Says (source_view source.now) (text_view text)) }
    ensures unfit { IfErr result (λ unfit. (bytes : List ℕ) → Spell bytes (source_view source.now) → IsUnfit (source_view source.now) unfit) }
{
    let declarations = source.declarations.as_slice();
    let variables = variables_of(alloc, declarations)?;
    let atoms = atoms_of(alloc, &variables, source.stated.as_slice())?;
    if let Some(declaration) = declarations.get(MOST_VARIABLES) {
        return Err(Unfit::TooMany(declaration.at));
    }
    let names = names_of(alloc, declarations)?;
    let vars = sorts_of(alloc, declarations)?;
    Ok(AtomText { names, vars, atoms })
}
