//! Whether rows times their factors add to a positive constant without variables.
ghost use Rattle.std.specs.Prelude.{◌≡◌, ◌↔◌, ◌*ℤ◌, ◌≤ℤ◌, pos, map, nat_eq, unsigned_abs, IsTrue};
ghost use Rattle.std.specs.Int.{IsGcd};
ghost use Rattle.std.specs.List.{list_any};
ghost use Rattle.solver_proof.specs.Lists.{list_view};
ghost use Rattle.solver_proof.specs.Rows.{row_view, part_of, held_row, held_number, held_sum, row_product, sum_of_rows, is_zero, is_positive, variable_cancels, row_cancels, cancel_rows, IsCommonDivisor};
ghost use Rattle.solver_proof.specs.Sums.{row_at, one_if_variable, is_factor_of, are_factors, are_apart, SumCloses};

use crate::lists::AtomList;
use crate::proofs::{Factor, Factors};
use crate::rows::{Row, find_row};

/// What of a row is added up.
#[derive(Clone, Copy)]
pub(crate) enum Part {
    Constant,
    /// The coefficient of the variable with this number.
    Coefficient(u64),
}

/// Whether no atom is listed twice.
fn are_apart(factors: &[Factor]) -> bool
    ensures { result ≡ are_apart (map (λ f. f.atom) factors.now) }
{
    match factors {
        [] => true,
        [first, rest @ ..] => !is_listed(first.atom, rest) && are_apart(rest),
    }
}

fn is_listed(atom: usize, factors: &[Factor]) -> bool
    ensures { result ≡ list_any (nat_eq atom) (map (λ f. f.atom) factors.now) }
{
    match factors {
        [] => false,
        [first, rest @ ..] => atom == first.atom || is_listed(atom, rest),
    }
}

/// Whether each factor may be that of its atom's row.
fn are_factors(list: &AtomList<'_>, factors: &[Factor]) -> bool
    ensures { result ≡ are_factors (list_view list.now) factors.now }
{
    match factors {
        [] => true,
        [first, rest @ ..] => is_factor(list, first) && are_factors(list, rest),
    }
}

fn is_factor(list: &AtomList<'_>, factor: &Factor) -> bool
    ensures { result ≡ is_factor_of factor.now.factor (row_at (list_view list.now) factor.now.atom) }
{
    match find_row(list, factor.atom) {
        Some(row) => row.is_equal || 0 < factor.factor,
        None => false,
    }
}

/// What a row has for a part.
fn part_of_row(part: Part, row: &Row) -> i128
    ensures { result ≡ part_of part (row_view row.now) }
{
    match part {
        Part::Constant => row.constant,
        Part::Coefficient(number) => {
            one_if_variable(number, row.plus) - one_if_variable(number, row.minus)
        }
    }
}

fn one_if_variable(number: u64, variable: Option<u64>) -> i128
    ensures value { result ≡ one_if_variable number variable }
    ensures low { pos 0 ≤ℤ result }
    ensures high { result ≤ℤ pos 1 }
{
    match variable {
        Some(other) => {
            if number == other {
                return 1;
            }
            0
        }
        None => 0,
    }
}

/// The sum of a part of the rows times their factors, where the numbers on the way can be held.
fn total(list: &AtomList<'_>, factors: &[Factor], part: Part) -> Option<i128>
    ensures { result ≡ sum_of_rows (list_view list.now) (part_of part) factors.now }
{
    match factors {
        [] => Some(0),
        [first, rest @ ..] => sum_of(product(list, first, part), total(list, rest, part)),
    }
}

fn product(list: &AtomList<'_>, factor: &Factor, part: Part) -> Option<i128>
    ensures { result ≡ row_product (part_of part) factor.now.factor (held_row (row_at (list_view list.now) factor.now.atom)) }
{
    match find_row(list, factor.atom) {
        Some(row) => times(factor.factor, part_of_row(part, &row)),
        None => None,
    }
}

fn times(first: i128, second: i128) -> Option<i128>
    ensures { result ≡ held_number (first *ℤ second) }
{
    first.checked_mul(second)
}

fn sum_of(first: Option<i128>, rest: Option<i128>) -> Option<i128>
    ensures { result ≡ held_sum first rest }
{
    match first {
        Some(first) => match rest {
            Some(rest) => first.checked_add(rest),
            None => None,
        },
        None => None,
    }
}

/// Whether the coefficient of each variable of these rows vanishes in the sum.
fn cancel(list: &AtomList<'_>, factors: &[Factor], some: &[Factor]) -> bool
    ensures { result ≡ cancel_rows (list_view list.now) factors.now some.now }
{
    match some {
        [] => true,
        [first, rest @ ..] => row_cancels(list, factors, first) && cancel(list, factors, rest),
    }
}

fn row_cancels(list: &AtomList<'_>, factors: &[Factor], factor: &Factor) -> bool
    ensures { result ≡ row_cancels (list_view list.now) factors.now (held_row (row_at (list_view list.now) factor.now.atom)) }
{
    match find_row(list, factor.atom) {
        Some(row) => {
            variable_cancels(list, factors, row.plus) && variable_cancels(list, factors, row.minus)
        }
        None => true,
    }
}

fn variable_cancels(list: &AtomList<'_>, factors: &[Factor], variable: Option<u64>) -> bool
    ensures { result ≡ variable_cancels (list_view list.now) factors.now variable }
{
    match variable {
        Some(number) => is_zero(total(list, factors, Part::Coefficient(number))),
        None => true,
    }
}

fn is_zero(number: Option<i128>) -> bool
    ensures { result ≡ is_zero number }
{
    match number {
        Some(n) => n == 0,
        None => false,
    }
}

fn is_positive(number: Option<i128>) -> bool
    ensures { result ≡ is_positive number }
{
    match number {
        Some(n) => 0 < n,
        None => false,
    }
}

/// The factor without its sign.
fn size(factor: &Factor) -> u128
    ensures { result ≡ unsigned_abs factor.now.factor }
{
    factor.factor.unsigned_abs()
}

/// The greatest number that divides each factor.
fn common_divisor(factors: &[Factor]) -> u128
    ensures { IsCommonDivisor factors.now result }
{
    match factors {
        [] => 0,
        [first, rest @ ..] => { greatest_common_divisor(size(first), common_divisor(rest)) }
    }
}

/// Euclid's algorithm.
fn greatest_common_divisor(m: u128, n: u128) -> u128
    ensures { IsGcd m n result }
{
    if n == 0 {
        return m;
    }
    greatest_common_divisor(n, m % n)
}

/// Whether the rows of different atoms times their factors add to a positive constant without variables.
pub(crate) fn sum_closes(list: &AtomList<'_>, factors: &Factors) -> bool
    ensures { IsTrue result ↔ SumCloses (list_view list.now) factors.now }
{
    let factors = factors.as_slice();
    if !are_apart(factors) {
        return false;
    }
    if !are_factors(list, factors) {
        return false;
    }
    if !is_positive(total(list, factors, Part::Constant)) {
        return false;
    }
    if !cancel(list, factors, factors) {
        return false;
    }
    common_divisor(factors) == 1
}
