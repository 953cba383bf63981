//! Comparisons of variables and whole numbers, of which the truth is read off a valuation.
ghost use Rattle.std.specs.Prelude.{◌≡◌, true, Some, IfSome, IsTrue};
ghost use Rattle.std.specs.Result.{result_ok};
ghost use Rattle.gil_values.specs.Operators.{binary};
ghost use Rattle.gil_values.specs.Pure.{boolean, integer};
ghost use Rattle.gil_values.specs.View.{values_view};
ghost use Rattle.pure_terms.specs.Meaning.{truth, value as pure_value};
ghost use Rattle.pure_terms.specs.View.{atom_view, term_view};

use gil_values::{BinOp, Value};
use pure_terms::{Atom, Literal, Term, Valuation};

/// Whether an atom compares variables and whole numbers, and is true. No memory is taken.
pub(crate) fn is_true_comparison(atom: &Atom, valuation: &Valuation) -> bool
    ensures { IsTrue result → truth (values_view valuation.now) (atom_view atom.now) ≡ true }
{
    match atom {
        Atom::Holds(term) => match compare(term, valuation) {
            Some(truth) => truth,
            None => false,
        },
        Atom::Not(term) => match compare(term, valuation) {
            Some(truth) => !truth,
            None => false,
        },
        Atom::Open(_) => false,
    }
}

/// The truth of a comparison of variables and whole numbers.
fn compare(term: &Term, valuation: &Valuation) -> Option<bool>
    ensures { IfSome result (λ b. pure_value (values_view valuation.now) (term_view term.now) ≡ Some (boolean b)) }
{
    match term {
        Term::Op2(op, left, right) => match number_of(left, valuation) {
            Some(first) => match number_of(right, valuation) {
                Some(second) => compare_numbers(*op, first, second),
                None => None,
            },
            None => None,
        },
        _ => None,
    }
}

fn compare_numbers(op: BinOp, first: i128, second: i128) -> Option<bool>
    ensures { IfSome result (λ b. result_ok (binary op (integer first) (integer second)) ≡ Some (boolean b)) }
{
    match op {
        BinOp::Equal => Some(first == second),
        BinOp::Less => Some(first < second),
        BinOp::LessOrEqual => Some(first <= second),
        _ => None,
    }
}

/// The whole number that a literal or a variable is.
fn number_of(term: &Term, valuation: &Valuation) -> Option<i128>
    ensures { IfSome result (λ n. pure_value (values_view valuation.now) (term_view term.now) ≡ Some (integer n)) }
{
    match term {
        Term::Lit(Literal::Int(number)) => Some(*number),
        Term::Var(variable) => match valuation.get(variable.number as usize) {
            Some(Value::Int(number)) => Some(*number),
            _ => None,
        },
        _ => None,
    }
}
