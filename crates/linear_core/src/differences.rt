//! Rows as differences of the numbers of two nodes.
ghost use Rattle.std.specs.Prelude.{◌≡◌, ◌+◌, ◌<◌, ◌^◌, map, slice_get, All, IfOk, IfSome, IfNone, IsSomeAnd, IsTrue, not};
ghost use Rattle.linear_core.specs.Combining.{is_equality};
ghost use Rattle.linear_core.specs.Differences.{is_unit, are_opposite_units, are_of_difference, is_narrow_difference};
ghost use Rattle.linear_core.specs.Nodes.{node_with, difference_of};

use crate::rows::{Coefficient, Relation, Row, Rows};
use std::alloc::{AllocError, Global};

/// The least and the greatest constant of a narrow difference.
const LEAST: i128 = -4_835_703_278_458_516_698_824_704;

const GREATEST: i128 = 4_835_703_278_458_516_698_824_704;

/// `plus - minus + constant <= 0`, or `= 0` where it is equal, of the numbers of two nodes.
#[derive(Clone, Copy)]
pub(crate) struct Difference {
    pub(crate) plus: usize,
    pub(crate) minus: usize,
    pub(crate) constant: i128,
    pub(crate) is_equal: bool,
}

fn is_unit(factor: i128) -> bool
    ensures { result ≡ is_unit factor }
{
    factor == 1 || factor == -1
}

fn are_opposite_units(first: i128, second: i128) -> bool
    ensures { result ≡ are_opposite_units first second }
{
    (first == 1 && second == -1) || (first == -1 && second == 1)
}

fn are_of_difference(coefficients: &[Coefficient]) -> bool
    ensures { result ≡ are_of_difference coefficients.now }
{
    match coefficients {
        [] => true,
        [only] => is_unit(only.factor),
        [first, second] => are_opposite_units(first.factor, second.factor),
        _ => false,
    }
}

fn is_narrow_difference(row: &Row) -> bool
    ensures { result ≡ is_narrow_difference row.now }
{
    are_of_difference(row.coefficients.as_slice())
        && LEAST <= row.constant
        && row.constant <= GREATEST
}

/// The place of the first row that isn't a narrow difference.
pub(crate) fn first_beyond(rows: &Rows) -> Option<usize>
    ensures found { IfSome result (λ i. IsSomeAnd (slice_get rows.now i) (λ row. IsTrue (not (is_narrow_difference row)))) }
    ensures none { IfNone result (All (λ row. IsTrue (is_narrow_difference row)) rows.now) }
{
    let rows = rows.as_slice();
    for (index, row) in rows.iter().enumerate() {
        if !is_narrow_difference(row) {
            return Some(index);
        }
    }
    None
}

/// The node of the first variable with this factor, and the node 0 where there is none.
fn node_with(factor: i128, coefficients: &[Coefficient]) -> usize
    requires { All (λ c. c.variable + 1 < 2 ^ 64) coefficients.now }
    ensures { result ≡ node_with factor coefficients.now }
{
    match coefficients {
        [] => 0,
        [first, rest @ ..] => {
            if first.factor == factor {
                return first.variable as usize + 1;
            }
            node_with(factor, rest)
        }
    }
}

fn is_equality(relation: Relation) -> bool
    ensures { result ≡ is_equality relation }
{
    match relation {
        Relation::AtMostZero => false,
        Relation::Zero => true,
    }
}

fn difference_of(row: &Row) -> Difference
    requires { All (λ c. c.variable + 1 < 2 ^ 64) row.now.coefficients }
    ensures { result ≡ difference_of row.now }
{
    let coefficients = row.coefficients.as_slice();
    Difference {
        plus: node_with(1, coefficients),
        minus: node_with(-1, coefficients),
        constant: row.constant,
        is_equal: is_equality(row.relation),
    }
}

/// Each row as a difference.
pub(crate) fn differences_of(alloc: Global, rows: &Rows) -> Result<Vec<Difference>, AllocError>
    requires { All (λ row. All (λ c. c.variable + 1 < 2 ^ 64) row.coefficients) rows.now }
    ensures { IfOk result (λ differences. differences.items ≡ map difference_of rows.now) }
{
    let rows = rows.as_slice();
    let mut differences = Vec::with_capacity(alloc, rows.len())?;
    for row in rows {
        differences.push(difference_of(row))?;
    }
    Ok(differences)
}
