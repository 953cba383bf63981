//! Terms of operators, folded where the operands tell more of the value.
ghost use Rattle.std.specs.Prelude.{◌≡◌, ◌<◌, length, slice_get, IfOk, IfSome, Some};
ghost use Rattle.std.specs.Option.{option_map, option_and_then};
ghost use Rattle.std.specs.Result.{result_ok};
ghost use Rattle.gil_values.specs.Answers.{Answers};
ghost use Rattle.gil_values.specs.Operators.{Outcome};
ghost use Rattle.pure_terms.specs.declared.literals.Literal.{Literal};
ghost use Rattle.pure_terms.specs.Folding.{literal_of, term_or, computed_unary, computed_binary, are_both_not, folded_unary, joined_shift, element_term, folded_with_literal, folded_binary};
ghost use Rattle.pure_terms.specs.Pure.{PureTerm, literal, list_of, unary_of, binary_of, from_list};
ghost use Rattle.pure_terms.specs.View.{term_view, terms_view};

use crate::literals::Literal;
use crate::terms::{Term, Terms};
use gil_values::{BinOp, OpFault, UnOp, Value, apply1, apply2};
use std::alloc::{AllocError, Global};
use std::rc::Rc;

/// The term of an operator of one operand. A literal is computed, and `not(not(t))` is t.
pub fn fold_unary(alloc: Global, op: UnOp, operand: Term) -> Result<Term, AllocError>
    ensures { IfOk result (λ t. term_view t ≡ folded_unary op (term_view operand)) }
{
    match operand {
        Term::Lit(literal) => match compute_unary(alloc, op, &literal)? {
            Some(computed) => Ok(Term::Lit(computed)),
            None => unary_term(alloc, op, Term::Lit(literal)),
        },
        Term::Op1(inner, within) => {
            if are_both_not(op, inner) {
                return within.as_ref().copy(alloc);
            }
            unary_term(alloc, op, Term::Op1(inner, within))
        }
        operand => unary_term(alloc, op, operand),
    }
}

/// The term of an operator of two operands. Literals are computed where the code can hold the result, two shifts by
/// literals are one, and `nth` of a list term at a literal is its element.
pub fn fold_binary(alloc: Global, op: BinOp, left: Term, right: Term) -> Result<Term, AllocError>
    ensures { IfOk result (λ t. term_view t ≡ folded_binary op (term_view left) (term_view right)) }
{
    match right {
        Term::Lit(literal) => fold_with_literal(alloc, op, left, literal),
        right => binary_term(alloc, op, left, right),
    }
}

fn unary_term(alloc: Global, op: UnOp, operand: Term) -> Result<Term, AllocError>
    ensures { IfOk result (λ t. term_view t ≡ unary_of op (term_view operand)) }
{
    Ok(Term::Op1(op, Rc::new(alloc, operand)?))
}

fn binary_term(alloc: Global, op: BinOp, left: Term, right: Term) -> Result<Term, AllocError>
    ensures { IfOk result (λ t. term_view t ≡ binary_of op (term_view left) (term_view right)) }
{
    let left = Rc::new(alloc, left)?;
    let right = Rc::new(alloc, right)?;
    Ok(Term::Op2(op, left, right))
}

fn are_both_not(op: UnOp, other: UnOp) -> bool
    ensures { result ≡ are_both_not op other }
{
    matches!((op, other), (UnOp::Not, UnOp::Not))
}

/// The literal that an operator makes of a literal, where there is one that the code can hold.
fn compute_unary(alloc: Global, op: UnOp, operand: &Literal) -> Result<Option<Literal>, AllocError>
    ensures { IfOk result (λ o. o ≡ computed_unary op operand.now) }
{
    let value = operand.value(alloc)?;
    literal_answer(apply1(alloc, op, &value))
}

/// The literal that an operator makes of two, where there is one that the code can hold.
fn compute_binary(
    alloc: Global,
    op: BinOp,
    left: &Literal,
    right: &Literal,
) -> Result<Option<Literal>, AllocError>
    ensures { IfOk result (λ o. o ≡ computed_binary op left.now right.now) }
{
    let left = left.value(alloc)?;
    let right = right.value(alloc)?;
    literal_answer(apply2(alloc, op, &left, &right))
}

/// The literal that an operator answered.
fn literal_answer(answer: Result<Value, OpFault>) -> Result<Option<Literal>, AllocError>
    ensures { IfOk result (λ o. (outcome : Outcome) → Answers answer outcome → o ≡ option_and_then literal_of (result_ok outcome)) }
{
    match answer {
        Ok(value) => Ok(Literal::from_value(value)),
        Err(OpFault::Memory) => Err(AllocError),
        Err(_) => Ok(None),
    }
}

fn fold_with_literal(
    alloc: Global,
    op: BinOp,
    left: Term,
    right: Literal,
) -> Result<Term, AllocError>
    ensures { IfOk result (λ t. term_view t ≡ folded_with_literal op (term_view left) right) }
{
    match left {
        Term::Lit(left) => match compute_binary(alloc, op, &left, &right)? {
            Some(computed) => Ok(Term::Lit(computed)),
            None => binary_term(alloc, op, Term::Lit(left), Term::Lit(right)),
        },
        Term::Op2(inner, operand, by) => fold_shifts(alloc, op, inner, operand, by, right),
        Term::List(terms) => fold_element(alloc, op, terms, right),
        Term::Var(variable) => binary_term(alloc, op, Term::Var(variable), Term::Lit(right)),
        Term::Op1(inner, operand) => {
            binary_term(alloc, op, Term::Op1(inner, operand), Term::Lit(right))
        }
    }
}

/// Plus or minus a literal.
#[derive(Clone, Copy)]
struct Shift {
    op: BinOp,
    by: i128,
}

/// One shift for two, where the code can hold its literal.
fn join_shifts(inner: BinOp, m: i128, op: BinOp, n: i128) -> Option<Shift>
    ensures { (t : PureTerm)
        → option_map (λ shift. binary_of shift.op t (literal (Literal.Int shift.by))) result ≡ joined_shift t inner m op n }
{
    match (inner, op) {
        (BinOp::Add, BinOp::Add) => shift_by(BinOp::Add, m.checked_add(n)),
        (BinOp::Add, BinOp::Subtract) => shift_by(BinOp::Add, m.checked_sub(n)),
        (BinOp::Subtract, BinOp::Add) => shift_by(BinOp::Add, n.checked_sub(m)),
        (BinOp::Subtract, BinOp::Subtract) => shift_by(BinOp::Subtract, m.checked_add(n)),
        _ => None,
    }
}

fn shift_by(op: BinOp, by: Option<i128>) -> Option<Shift>
    ensures { result ≡ option_map (λ n. record { op = op; by = n }) by }
{
    match by {
        Some(by) => Some(Shift { op, by }),
        None => None,
    }
}

/// The shift that `(t INNER BY) OP RIGHT` is, where both are by literals.
fn find_shift(op: BinOp, inner: BinOp, by: &Term, right: &Literal) -> Option<Shift>
    ensures { (t : PureTerm)
        → term_or (binary_of op (binary_of inner t (term_view by.now)) (literal right.now))
        (option_map (λ shift. binary_of shift.op t (literal (Literal.Int shift.by))) result) ≡ folded_with_literal op
        (binary_of inner t (term_view by.now)) right.now }
{
    match (by, right) {
        (Term::Lit(Literal::Int(m)), Literal::Int(n)) => join_shifts(inner, *m, op, *n),
        _ => None,
    }
}

fn fold_shifts(
    alloc: Global,
    op: BinOp,
    inner: BinOp,
    operand: Rc<Term>,
    by: Rc<Term>,
    right: Literal,
) -> Result<Term, AllocError>
    ensures { IfOk result
        (λ t. term_view t ≡ folded_with_literal op (binary_of inner (term_view operand.value) (term_view by.value)) right) }
{
    match find_shift(op, inner, &by, &right) {
        Some(shift) => {
            let by = Rc::new(alloc, Term::Lit(Literal::Int(shift.by)))?;
            Ok(Term::Op2(shift.op, operand, by))
        }
        None => binary_term(alloc, op, Term::Op2(inner, operand, by), Term::Lit(right)),
    }
}

/// The place in a list of terms at which an operator with a literal finds an element.
fn find_element(op: BinOp, terms: &Terms, right: &Literal) -> Option<usize>
    ensures found { IfSome result (λ i. i < length (terms_view terms.now)) }
    ensures folded { term_or (binary_of op (list_of (from_list (terms_view terms.now))) (literal right.now))
        (option_and_then (slice_get (terms_view terms.now)) result) ≡ folded_with_literal op
        (list_of (from_list (terms_view terms.now))) right.now }
{
    match (op, right) {
        (BinOp::Nth, Literal::Int(place)) => place_in(terms, *place),
        _ => None,
    }
}

/// The number as a place of the list, where it is one.
fn place_in(terms: &Terms, place: i128) -> Option<usize>
    ensures found { IfSome result (λ i. i < length (terms_view terms.now)) }
    ensures element { option_and_then (slice_get (terms_view terms.now)) result ≡ element_term (from_list (terms_view terms.now)) place }
{
    if place < 0 {
        return None;
    }
    if place >= terms.len() as i128 {
        return None;
    }
    Some(place as usize)
}

fn fold_element(alloc: Global, op: BinOp, terms: Terms, right: Literal) -> Result<Term, AllocError>
    ensures { IfOk result (λ t. term_view t ≡ folded_with_literal op (list_of (from_list (terms_view terms))) right) }
{
    match find_element(op, &terms, &right) {
        Some(place) => Ok(terms.into_element(place)),
        None => binary_term(alloc, op, Term::List(terms), Term::Lit(right)),
    }
}
