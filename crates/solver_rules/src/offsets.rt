//! Whole numbers as a variable plus a number.
ghost use Rattle.std.specs.Prelude.{◌≡◌, ◌^◌, ◌≤ℤ◌, pos, neg_ℤ, true, IfSome};
ghost use Rattle.std.specs.Option.{option_map};
ghost use Rattle.pure_terms.specs.Fragment.{has_literals_between};
ghost use Rattle.pure_terms.specs.View.{term_view};
ghost use Rattle.solver_proof.specs.Sums.{integer_variable, integer_of, opposite_of, shifted_side, side_of};
ghost use Rattle.solver_rules.specs.Rows.{offset_view};

use gil_values::BinOp;
use pure_terms::{Literal, Sort, Term};

/// A variable, or none, plus a number.
#[derive(Clone, Copy)]
pub(crate) struct Offset {
    pub(crate) of: Option<u64>,
    pub(crate) plus: i128,
}

fn integer_variable(term: &Term) -> Option<u64>
    ensures { result ≡ integer_variable (term_view term.now) }
{
    match term {
        Term::Var(variable) => {
            if variable.sort == Sort::Int {
                return Some(variable.number);
            }
            None
        }
        _ => None,
    }
}

fn integer(term: &Term) -> Option<i128>
    ensures { result ≡ integer_of (term_view term.now) }
{
    match term {
        Term::Lit(Literal::Int(n)) => Some(*n),
        _ => None,
    }
}

/// The number that a literal takes away.
fn opposite(term: &Term) -> Option<i128>
    requires { has_literals_between (neg_ℤ (pos (2 ^ 80))) (pos (2 ^ 80)) (term_view term.now) ≡ true }
    ensures { result ≡ opposite_of (integer_of (term_view term.now)) }
{
    match term {
        Term::Lit(Literal::Int(n)) => Some(0 - *n),
        _ => None,
    }
}

/// A variable plus a number.
fn shifted(of: Option<u64>, plus: Option<i128>) -> Option<Offset>
    ensures { option_map offset_view result ≡ shifted_side of plus }
{
    match of {
        Some(number) => match plus {
            Some(n) => Some(Offset {
                of: Some(number),
                plus: n,
            }),
            None => None,
        },
        None => None,
    }
}

/// A whole number by form and sort as a variable plus a number.
pub(crate) fn offset_of(term: &Term) -> Option<Offset>
    requires { has_literals_between (neg_ℤ (pos (2 ^ 80))) (pos (2 ^ 80)) (term_view term.now) ≡ true }
    ensures side { option_map offset_view result ≡ side_of (term_view term.now) }
    ensures low { IfSome result (λ o. neg_ℤ (pos (2 ^ 80)) ≤ℤ o.plus) }
    ensures high { IfSome result (λ o. o.plus ≤ℤ pos (2 ^ 80)) }
{
    match term {
        Term::Lit(Literal::Int(n)) => Some(Offset { of: None, plus: *n }),
        Term::Var(_) => match integer_variable(term) {
            Some(number) => Some(Offset {
                of: Some(number),
                plus: 0,
            }),
            None => None,
        },
        Term::Op2(BinOp::Add, left, right) => shifted(integer_variable(left), integer(right)),
        Term::Op2(BinOp::Subtract, left, right) => shifted(integer_variable(left), opposite(right)),
        _ => None,
    }
}
