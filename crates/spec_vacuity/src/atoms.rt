//! The atoms of a precondition's pure items.
ghost use Rattle.std.specs.Prelude.{◌≡◌, ◌++◌, IfOk, OnOk};
ghost use Rattle.std.specs.Option.{option_map};
ghost use Rattle.gil_syntax.specs.View.{assertion_view, expr_view, item_view};
ghost use Rattle.pure_terms.specs.View.{atom_view, atoms_view};
ghost use Rattle.spec_vacuity.specs.Translation as made;
ghost use Rattle.spec_vacuity.specs.Translation.{Makes, variable_from};

use crate::terms::{NoTerm, term_of};
use gil_syntax::{Assertion, Expr, Item, Params};
use gil_values::UnOp;
use pure_terms::{Atom, Atoms};
use sequence::Sequence;
use std::alloc::{AllocError, Global};

/// The expression of which `not(..)` says that it is false.
fn denied(expression: &Expr) -> Option<&Expr>
    ensures { option_map (λ e. expr_view e.now) result ≡ made.denied (expr_view expression.now) }
{
    match expression {
        Expr::Op1(UnOp::Not, operand) => Some(operand),
        _ => None,
    }
}

/// What an expression says.
fn atom_of(alloc: Global, variables: &Params, expression: &Expr) -> Result<Atom, NoTerm>
    ensures { Makes atom_view result (made.atom_of (variable_from 0 variables.now) (expr_view expression.now)) }
{
    match denied(expression) {
        Some(operand) => {
            let term = term_of(alloc, variables, operand)?;
            Ok(Atom::Not(term))
        }
        None => {
            let term = term_of(alloc, variables, expression)?;
            Ok(Atom::Holds(term))
        }
    }
}

/// Adds what an item says, where it is pure and has a term.
fn push_item(
    alloc: Global,
    atoms: &mut Atoms,
    variables: &Params,
    item: &Item,
) -> Result<(), AllocError>
    ensures { OnOk result (atoms_view atoms.new ≡ atoms_view atoms.old ++ made.atoms_of_item (variable_from 0 variables.now) (item_view item.now)) }
{
    let Item::Pure(expression) = item else {
        return Ok(());
    };
    match atom_of(alloc, variables, expression) {
        Ok(atom) => {
            atoms.push(atom)?;
            Ok(())
        }
        Err(NoTerm::Unknown) => Ok(()),
        Err(NoTerm::Memory) => Err(AllocError),
    }
}

/// What pure items say, in their order.
pub(crate) fn atoms_of(
    alloc: Global,
    variables: &Params,
    items: &Assertion,
) -> Result<Atoms, AllocError>
    ensures { IfOk result (λ atoms. atoms_view atoms ≡ made.atoms_of (variable_from 0 variables.now) (assertion_view items.now)) }
{
    let mut atoms = Sequence::new(alloc);
    for item in items.as_slice() {
        push_item(alloc, &mut atoms, variables, item)?;
    }
    Ok(atoms)
}
