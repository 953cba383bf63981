//! The rows of atoms that compare whole numbers.
ghost use Rattle.std.specs.Prelude.{◌≡◌, ◌<◌, ◌+ℤ◌, ◌-ℤ◌, pos};
ghost use Rattle.std.specs.Option.{option_map};
ghost use Rattle.pure_terms.specs.View.{term_view};
ghost use Rattle.solver_proof.specs.Lists.{fact_view, list_view};
ghost use Rattle.solver_proof.specs.Rows.{offset_view, row_view, held_row, held_constant};
ghost use Rattle.solver_proof.specs.Sums.{integer_variable, side_of, difference, row_where_true, row_where_false, row_of, row_at};

use crate::comparing::integer;
use crate::lists::{AtomList, Fact, fact_at};
use gil_values::BinOp;
use pure_terms::{Literal, Sort, Term};

/// A variable, or none, plus a number.
#[derive(Clone, Copy)]
pub(crate) struct Offset {
    pub(crate) of: Option<u64>,
    pub(crate) plus: i128,
}

/// The number of an Int variable.
fn integer_variable(term: &Term) -> Option<u64>
    ensures { result ≡ integer_variable (term_view term.now) }
{
    match term {
        Term::Var(variable) => {
            if variable.sort == Sort::Int {
                return Some(variable.number);
            }
            None
        }
        _ => None,
    }
}

/// A simple term that is a whole number, as a variable plus a number.
fn offset_of(term: &Term) -> Option<Offset>
    ensures { option_map offset_view result ≡ side_of (term_view term.now) }
{
    match term {
        Term::Lit(Literal::Int(n)) => Some(Offset { of: None, plus: *n }),
        Term::Var(_) => match integer_variable(term) {
            Some(number) => Some(Offset {
                of: Some(number),
                plus: 0,
            }),
            None => None,
        },
        Term::Op2(BinOp::Add, left, right) => match integer_variable(left) {
            Some(number) => match integer(right) {
                Some(n) => Some(Offset {
                    of: Some(number),
                    plus: n,
                }),
                None => None,
            },
            None => None,
        },
        Term::Op2(BinOp::Subtract, left, right) => match integer_variable(left) {
            Some(number) => match integer(right) {
                Some(n) => match 0i128.checked_sub(n) {
                    Some(plus) => Some(Offset {
                        of: Some(number),
                        plus,
                    }),
                    None => None,
                },
                None => None,
            },
            None => None,
        },
        _ => None,
    }
}

/// `plus - minus + constant <= 0`, or `= 0` where it is equal.
#[derive(Clone, Copy)]
pub(crate) struct Row {
    pub(crate) plus: Option<u64>,
    pub(crate) minus: Option<u64>,
    pub(crate) constant: i128,
    pub(crate) is_equal: bool,
}

/// The row of the atom at a place, where there is one whose constant and its opposite can be held.
pub(crate) fn find_row(list: &AtomList<'_>, place: usize) -> Option<Row>
    ensures { option_map row_view result ≡ held_row (row_at (list_view list.now) place) }
{
    match fact_at(list, place) {
        Some(fact) => row_of(fact),
        None => None,
    }
}

fn row_of(fact: Fact<'_>) -> Option<Row>
    ensures { option_map row_view result ≡ held_row (row_of (fact_view fact.entry)) }
{
    match fact {
        Fact::Holds(term) => row_where_true(term),
        Fact::Not(term) => row_where_false(term),
        Fact::Equal(left, right) => difference(left, right, 0, true),
        Fact::Differ(_, _) => None,
        Fact::Open(_) => None,
        Fact::KindIs(_, _) => None,
        Fact::IsTruth(_, _) => None,
        Fact::IsKind(_, _) => None,
    }
}

fn row_where_true(term: &Term) -> Option<Row>
    ensures { option_map row_view result ≡ held_row (row_where_true (term_view term.now)) }
{
    match term {
        Term::Op2(BinOp::LessOrEqual, left, right) => difference(left, right, 0, false),
        Term::Op2(BinOp::Less, left, right) => difference(left, right, 1, false),
        Term::Op2(BinOp::Equal, left, right) => difference(left, right, 0, true),
        _ => None,
    }
}

fn row_where_false(term: &Term) -> Option<Row>
    ensures { option_map row_view result ≡ held_row (row_where_false (term_view term.now)) }
{
    match term {
        Term::Op2(BinOp::LessOrEqual, left, right) => difference(right, left, 1, false),
        Term::Op2(BinOp::Less, left, right) => difference(right, left, 0, false),
        _ => None,
    }
}

/// `s - t + more <= 0`, or `= 0`.
fn difference(s: &Term, t: &Term, more: u8, is_equal: bool) -> Option<Row>
    requires { more < 2 }
    ensures { option_map row_view result ≡ held_row
        (difference (side_of (term_view s.now)) (side_of (term_view t.now)) (pos more) is_equal) }
{
    match offset_of(s) {
        Some(first) => match offset_of(t) {
            Some(second) => match constant(first.plus, second.plus, more) {
                Some(constant) => Some(Row {
                    plus: first.of,
                    minus: second.of,
                    constant,
                    is_equal,
                }),
                None => None,
            },
            None => None,
        },
        None => None,
    }
}

/// The constant of a row, where it and its opposite can be held.
fn constant(first: i128, second: i128, more: u8) -> Option<i128>
    requires { more < 2 }
    ensures { result ≡ held_constant ((first -ℤ second) +ℤ pos more) }
{
    let difference = first.checked_sub(second)?;
    let constant = difference.checked_add(i128::from(more))?;
    if constant == i128::MIN {
        return None;
    }
    Some(constant)
}
