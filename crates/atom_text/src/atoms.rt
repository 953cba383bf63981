//! The atoms of expressions.
ghost use Rattle.std.specs.Prelude.{◌≡◌, map, Some, IfOk, IfErr};
ghost use Rattle.gil_syntax.specs.View.{expr_view};
ghost use Rattle.pure_terms.specs.View.{atom_view, atoms_view};
ghost use Rattle.atom_text.specs.Resolving as made;
ghost use Rattle.atom_text.specs.Resolving.{IsUnmadeUnless, Makes, variable_in};
ghost use Rattle.atom_text.specs.Sources.{stated_view};

use crate::naming::{Unfit, Variables};
use crate::sources::Stated;
use crate::terms::{NoTerm, term_of};
use gil_syntax::Expr;
use gil_values::UnOp;
use pure_terms::{Atom, Atoms};
use sequence::Sequence;
use std::alloc::Global;

/// What an expression says.
fn atom_of(alloc: Global, variables: &Variables<'_>, expression: &Expr) -> Result<Atom, NoTerm>
    ensures { Makes atom_view result (made.atom_of (variable_in variables.now) (expr_view expression.now)) }
{
    match expression {
        Expr::Op1(UnOp::Not, operand) => {
            let term = term_of(alloc, variables, operand)?;
            Ok(Atom::Not(term))
        }
        _ => {
            let term = term_of(alloc, variables, expression)?;
            Ok(Atom::Holds(term))
        }
    }
}

/// What expressions say, in their order.
pub(crate) fn atoms_of(
    alloc: Global,
    variables: &Variables<'_>,
    stated: &[Stated],
) -> Result<Atoms, Unfit>
    ensures ok { IfOk result (λ atoms. made.atoms_of (variable_in variables.now) (map stated_view stated.now) ≡ Some (atoms_view atoms)) }
    ensures unmade { IfErr result (IsUnmadeUnless (variable_in variables.now) (map stated_view stated.now)) }
{
    let mut atoms = Sequence::new(alloc);
    for one in stated {
        match atom_of(alloc, variables, &one.expression) {
            Ok(atom) => atoms.push(atom)?,
            Err(NoTerm::Unknown) => return Err(Unfit::UnknownName(one.at)),
            Err(NoTerm::Memory) => return Err(Unfit::Memory),
        }
    }
    Ok(atoms)
}
