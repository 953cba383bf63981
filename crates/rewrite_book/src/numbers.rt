//! Rules of whole numbers.
ghost use Rattle.std.specs.Prelude.{◌≡◌, IfOk, pos};
ghost use Rattle.std.specs.Option.{option_map};
ghost use Rattle.pure_terms.specs.View.{term_view};
ghost use Rattle.rewrite_book.specs.Answers.{AnswersWell};
ghost use Rattle.rewrite_book.specs.Forms as forms;

use crate::operands::{are_same_binary, is_number, operand_of_two};
use gil_values::{BinOp, UnOp};
use pure_terms::{Literal, Term};
use std::alloc::{AllocError, Global};

/// `(t + 0)` and `(0 + t)` are t.
pub fn plus_zero(alloc: Global, t: &Term) -> Result<Option<Term>, AllocError>
    ensures form { IfOk result (λ o. option_map term_view o ≡ forms.plus_zero (term_view t.now)) }
    ensures well { AnswersWell t.now result }
{
    without_number(alloc, BinOp::Add, 0, t)
}

/// `(t - 0)` is t.
pub fn minus_zero(alloc: Global, t: &Term) -> Result<Option<Term>, AllocError>
    ensures form { IfOk result (λ o. option_map term_view o ≡ forms.minus_zero (term_view t.now)) }
    ensures well { AnswersWell t.now result }
{
    without_right_number(alloc, BinOp::Subtract, 0, t)
}

/// `(t * 0)` and `(0 * t)` are 0.
pub fn times_zero(t: &Term) -> Result<Option<Term>, AllocError>
    ensures form { IfOk result (λ o. option_map term_view o ≡ forms.times_zero (term_view t.now)) }
    ensures well { AnswersWell t.now result }
{
    zero_of_product(t)
}

/// `(t * 1)` and `(1 * t)` are t.
pub fn times_one(alloc: Global, t: &Term) -> Result<Option<Term>, AllocError>
    ensures form { IfOk result (λ o. option_map term_view o ≡ forms.times_one (term_view t.now)) }
    ensures well { AnswersWell t.now result }
{
    without_number(alloc, BinOp::Multiply, 1, t)
}

/// `neg(neg(t))` is t.
pub fn neg_neg(alloc: Global, t: &Term) -> Result<Option<Term>, AllocError>
    ensures form { IfOk result (λ o. option_map term_view o ≡ forms.neg_neg (term_view t.now)) }
    ensures well { AnswersWell t.now result }
{
    operand_of_two(alloc, UnOp::Neg, t)
}

/// The other operand of an operator, where one is the number.
fn without_number(alloc: Global, op: BinOp, n: i128, t: &Term) -> Result<Option<Term>, AllocError>
    ensures { IfOk result (λ o. option_map term_view o ≡ forms.of_operands op (forms.other_of n) (term_view t.now)) }
{
    match t {
        Term::Op2(other, left, right) => {
            if are_same_binary(op, *other) {
                other_of(alloc, n, left, right)
            } else {
                Ok(None)
            }
        }
        Term::Lit(_) | Term::Var(_) | Term::List(_) | Term::Op1(_, _) => Ok(None),
    }
}

/// The left operand of an operator, where the right one is the number.
fn without_right_number(
    alloc: Global,
    op: BinOp,
    n: i128,
    t: &Term,
) -> Result<Option<Term>, AllocError>
    ensures { IfOk result (λ o. option_map term_view o ≡ forms.of_operands op (forms.left_of n) (term_view t.now)) }
{
    match t {
        Term::Op2(other, left, right) => {
            if are_same_binary(op, *other) {
                left_of(alloc, n, left, right)
            } else {
                Ok(None)
            }
        }
        Term::Lit(_) | Term::Var(_) | Term::List(_) | Term::Op1(_, _) => Ok(None),
    }
}

/// The number 0, where the term is a product with it.
fn zero_of_product(t: &Term) -> Result<Option<Term>, AllocError>
    ensures { IfOk result (λ o. option_map term_view o ≡ forms.times_zero (term_view t.now)) }
{
    match t {
        Term::Op2(op, left, right) => {
            if are_same_binary(BinOp::Multiply, *op)
                && (is_number(right, 0) || is_number(left, 0))
            {
                Ok(Some(Term::Lit(Literal::Int(0))))
            } else {
                Ok(None)
            }
        }
        Term::Lit(_) | Term::Var(_) | Term::List(_) | Term::Op1(_, _) => Ok(None),
    }
}

fn other_of(alloc: Global, n: i128, left: &Term, right: &Term) -> Result<Option<Term>, AllocError>
    ensures { IfOk result (λ o. option_map term_view o ≡ forms.other_of n (term_view left.now) (term_view right.now)) }
{
    if is_number(right, n) {
        Ok(Some(left.copy(alloc)?))
    } else {
        left_of(alloc, n, right, left)
    }
}

fn left_of(alloc: Global, n: i128, left: &Term, right: &Term) -> Result<Option<Term>, AllocError>
    ensures { IfOk result (λ o. option_map term_view o ≡ forms.left_of n (term_view left.now) (term_view right.now)) }
{
    if is_number(right, n) {
        Ok(Some(left.copy(alloc)?))
    } else {
        Ok(None)
    }
}
