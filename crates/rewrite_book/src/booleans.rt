//! Rules of booleans.
ghost use Rattle.std.specs.Prelude.{◌≡◌, IfOk};
ghost use Rattle.std.specs.Option.{option_map};
ghost use Rattle.pure_terms.specs.View.{term_view};
ghost use Rattle.rewrite_book.specs.Answers.{AnswersWell};
ghost use Rattle.rewrite_book.specs.Forms as forms;

use crate::operands::{are_same_binary, operand_of_two};
use gil_values::{BinOp, UnOp};
use pure_terms::{Literal, Term};
use std::alloc::{AllocError, Global};

/// `not(not(t))` is t.
pub fn not_not(alloc: Global, t: &Term) -> Result<Option<Term>, AllocError>
    ensures form { IfOk result (λ o. option_map term_view o ≡ forms.not_not (term_view t.now)) }
    ensures well { AnswersWell t.now result }
{
    operand_of_two(alloc, UnOp::Not, t)
}

/// `(t = t)` is true.
pub fn same_equal(t: &Term) -> Result<Option<Term>, AllocError>
    ensures form { IfOk result (λ o. option_map term_view o ≡ forms.same_equal (term_view t.now)) }
    ensures well { AnswersWell t.now result }
{
    truth_of_equals(t)
}

/// The truth, where the term is an equality of one term with itself.
fn truth_of_equals(t: &Term) -> Result<Option<Term>, AllocError>
    ensures { IfOk result (λ o. option_map term_view o ≡ forms.same_equal (term_view t.now)) }
{
    match t {
        Term::Op2(op, left, right) => {
            if are_same_binary(BinOp::Equal, *op) && **left == **right {
                Ok(Some(Term::Lit(Literal::Bool(true))))
            } else {
                Ok(None)
            }
        }
        Term::Lit(_) | Term::Var(_) | Term::List(_) | Term::Op1(_, _) => Ok(None),
    }
}
