//! Tests and parts of terms, for the rules.
ghost use Rattle.std.specs.Prelude.{◌≡◌, IfOk};
ghost use Rattle.std.specs.Option.{option_map};
ghost use Rattle.pure_terms.specs.Equality.{same_binary, same_term, same_unary};
ghost use Rattle.pure_terms.specs.View.{term_view};
ghost use Rattle.rewrite_book.specs.Forms.{number, of_twice};

use gil_values::{BinOp, UnOp};
use pure_terms::{Literal, Term};
use std::alloc::{AllocError, Global};

pub(crate) fn are_same_unary(op: UnOp, other: UnOp) -> bool
    ensures { result ≡ same_unary op other }
{
    op == other
}

pub(crate) fn are_same_binary(op: BinOp, other: BinOp) -> bool
    ensures { result ≡ same_binary op other }
{
    op == other
}

/// Whether a term is this number's literal.
pub(crate) fn is_number(term: &Term, n: i128) -> bool
    ensures { result ≡ same_term (term_view term.now) (number n) }
{
    match term {
        Term::Lit(Literal::Int(m)) => *m == n,
        _ => false,
    }
}

/// The operand of an operator that stands twice, one within the other.
pub(crate) fn operand_of_two(alloc: Global, op: UnOp, t: &Term) -> Result<Option<Term>, AllocError>
    ensures { IfOk result (λ o. option_map term_view o ≡ of_twice op (term_view t.now)) }
{
    match t {
        Term::Op1(outer, within) => match &**within {
            Term::Op1(inner, operand) => {
                if are_same_unary(op, *outer) && are_same_unary(op, *inner) {
                    Ok(Some(operand.copy(alloc)?))
                } else {
                    Ok(None)
                }
            }
            Term::Lit(_) | Term::Var(_) | Term::List(_) | Term::Op2(_, _, _) => Ok(None),
        },
        Term::Lit(_) | Term::Var(_) | Term::List(_) | Term::Op2(_, _, _) => Ok(None),
    }
}
