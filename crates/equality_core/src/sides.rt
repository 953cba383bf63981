//! The two terms that an atom says to be equal.
ghost use Rattle.std.specs.Prelude.{◌≡◌, true, IfOk};
ghost use Rattle.std.specs.Option.{option_map, is_some};
ghost use Rattle.pure_terms.specs.View.{term_view, atom_view};
ghost use Rattle.solver_proof.specs.Chains.{kind_fact, unless_kind_fact, kind_fact_of_term, sides_of_equality, sides_of_variable, equality_of};
ghost use Rattle.equality_core.specs.Classes.{sides_view};

use gil_values::{BinOp, UnOp};
use pure_terms::{Atom, Literal, Sort, Term};
use std::alloc::{AllocError, Global};

/// Two terms.
#[derive(Drop)]
pub(crate) struct BothSides {
    pub(crate) left: Term,
    pub(crate) right: Term,
}

/// Whether `left = right` says of a term's kind that it is a literal one.
fn is_kind_fact(left: &Term, right: &Term) -> bool
    ensures { result ≡ is_some (kind_fact true (term_view left.now) (term_view right.now)) }
{
    match left {
        Term::Op1(UnOp::Kind, _) => matches!(right, Term::Lit(Literal::Kind(_))),
        _ => false,
    }
}

/// The sides of an equality of terms.
fn sides_of_equality(alloc: Global, term: &Term) -> Result<Option<BothSides>, AllocError>
    ensures { IfOk result (λ o. option_map sides_view o
        ≡ unless_kind_fact (kind_fact_of_term true (term_view term.now)) (sides_of_equality (term_view term.now))) }
{
    match term {
        Term::Op2(BinOp::Equal, left, right) => {
            if is_kind_fact(left, right) {
                return Ok(None);
            }
            let left = left.copy(alloc)?;
            let right = right.copy(alloc)?;
            Ok(Some(BothSides { left, right }))
        }
        _ => Ok(None),
    }
}

/// A Bool variable, and the literal that it is equal to.
fn sides_of_variable(term: &Term, truth: bool) -> Option<BothSides>
    ensures { option_map sides_view result ≡ sides_of_variable truth (term_view term.now) }
{
    match term {
        Term::Var(variable) => {
            if variable.sort == Sort::Bool {
                return Some(BothSides {
                    left: Term::Var(*variable),
                    right: Term::Lit(Literal::Bool(truth)),
                });
            }
            None
        }
        _ => None,
    }
}

/// The two terms that an atom says to be equal. An atom of a Bool variable is an equality with true or false.
pub(crate) fn sides_of(alloc: Global, atom: &Atom) -> Result<Option<BothSides>, AllocError>
    ensures { IfOk result (λ o. option_map sides_view o ≡ equality_of (atom_view atom.now)) }
{
    match atom {
        Atom::Holds(term) => match sides_of_equality(alloc, term)? {
            Some(sides) => Ok(Some(sides)),
            None => Ok(sides_of_variable(term, true)),
        },
        Atom::Not(term) => Ok(sides_of_variable(term, false)),
        Atom::Open(_) => Ok(None),
    }
}
