//! Tests of numbers and cycles that were found in any way.
ghost use Rattle.std.specs.Prelude.{◌≡◌, ◌^◌, ◌<◌, pos, neg_ℤ, length, map, nat_eq, true, IfOk, IsTrue};
ghost use Rattle.std.specs.List.{list_any};
ghost use Rattle.pure_terms.specs.Numbers.{is_between};
ghost use Rattle.solver_proof.specs.Sums.{are_apart};
ghost use Rattle.linear_core.specs.Confirmed.{IsConfirmed};
ghost use Rattle.linear_core.specs.Nodes.{AreNarrow, may_go};
ghost use Rattle.linear_core.specs.Walks.{number_at, GoesTo, IsWalk, AreAbove, AreModerate, IsStill, IsMet, AreMet, IsGrown};

use crate::cycles::{factors_up_to, leaves};
use crate::differences::Difference;
use crate::proposing::Proposal;
use crate::relaxing::{LONGEST, head_of, tail_of, weight_of};
use crate::walks::{Reach, Reaches, Step};
use solver_proof::Factors;
use std::alloc::{AllocError, Global};

/// What stood its test.
#[derive(Drop)]
pub(crate) enum Confirmed {
    /// These numbers meet the differences.
    Numbers(Reaches),
    /// These differences can't be met together.
    Cycle(Factors),
    Nothing,
}

/// The least and the greatest number of a node.
const LEAST: i128 = -5_316_911_983_139_663_491_615_228_241_121_378_304;

const GREATEST: i128 = 5_316_911_983_139_663_491_615_228_241_121_378_304;

/// The number of a node.
fn number_at(reaches: &Reaches, node: usize) -> i128
    ensures { result ≡ number_at reaches.now node }
{
    if node < reaches.len() {
        return reaches.at(node).number;
    }
    0
}

/// Whether a difference can't be followed to a lesser number.
fn is_still(reaches: &Reaches, difference: &Difference, backwards: bool) -> bool
    requires { IsTrue (is_between (neg_ℤ (pos (2 ^ 82))) (pos (2 ^ 82)) difference.now.constant) }
    ensures { IsTrue result → IsStill reaches.now difference.now backwards }
{
    let tail = number_at(reaches, tail_of(difference, backwards));
    let head = number_at(reaches, head_of(difference, backwards));
    match tail.checked_add(weight_of(difference, backwards)) {
        Some(number) => head <= number,
        None => false,
    }
}

fn is_met(reaches: &Reaches, difference: &Difference) -> bool
    requires { IsTrue (is_between (neg_ℤ (pos (2 ^ 82))) (pos (2 ^ 82)) difference.now.constant) }
    ensures { IsTrue result → IsMet reaches.now difference.now }
{
    if !is_still(reaches, difference, false) {
        return false;
    }
    if difference.is_equal {
        return is_still(reaches, difference, true);
    }
    true
}

/// Whether numbers meet all differences.
fn are_met(reaches: &Reaches, differences: &[Difference]) -> bool
    requires { AreNarrow (length reaches.now) differences.now }
    ensures { IsTrue result → AreMet differences.now reaches.now (length differences.now) }
{
    for row in 0..differences.len() {
        if !is_met(reaches, &differences[row]) {
            return false;
        }
    }
    true
}

/// Whether the numbers of all nodes are moderate.
fn are_moderate(reaches: &Reaches) -> bool
    ensures { IsTrue result → AreModerate reaches.now }
{
    for node in 0..reaches.len() {
        let number = number_at(reaches, node);
        if number < LEAST || GREATEST < number {
            return false;
        }
    }
    true
}

/// Whether a step goes to a node, and gives it this number.
fn goes_to(
    reaches: &Reaches,
    differences: &[Difference],
    step: &Step,
    to: usize,
    number: i128,
) -> bool
    requires { AreNarrow (length reaches.now) differences.now }
    ensures { IsTrue result → GoesTo differences.now step.now to number }
{
    if differences.len() <= step.row {
        return false;
    }
    let difference = differences[step.row];
    if !may_go(&difference, step.backwards) {
        return false;
    }
    if step.from != tail_of(&difference, step.backwards) {
        return false;
    }
    if to != head_of(&difference, step.backwards) {
        return false;
    }
    match step
        .before
        .checked_add(weight_of(&difference, step.backwards))
    {
        Some(sum) => number == sum,
        None => false,
    }
}

fn may_go(difference: &Difference, backwards: bool) -> bool
    ensures { result ≡ may_go difference.now backwards }
{
    !backwards || difference.is_equal
}

/// Whether steps lead to a node, and give it this number.
fn is_walk(
    reaches: &Reaches,
    differences: &[Difference],
    to: usize,
    steps: &[Step],
    number: i128,
) -> bool
    requires { AreNarrow (length reaches.now) differences.now }
    ensures { IsTrue result → IsWalk differences.now to steps.now number }
{
    match steps {
        [] => number == 0,
        [first, rest @ ..] => {
            if !goes_to(reaches, differences, first, to, number) {
                return false;
            }
            is_walk(reaches, differences, first.from, rest, first.before)
        }
    }
}

/// Whether the numbers of the nodes that are left are no greater.
fn are_above(reaches: &Reaches, steps: &[Step]) -> bool
    ensures { IsTrue result → AreAbove reaches.now steps.now }
{
    match steps {
        [] => true,
        [first, rest @ ..] => {
            if first.before < number_at(reaches, first.from) {
                return false;
            }
            are_above(reaches, rest)
        }
    }
}

fn is_among(row: usize, steps: &[Step]) -> bool
    ensures { result ≡ list_any (nat_eq row) (map (λ step. step.row) steps.now) }
{
    match steps {
        [] => false,
        [first, rest @ ..] => row == first.row || is_among(row, rest),
    }
}

/// Whether no step goes along the difference of another one.
fn are_apart(steps: &[Step]) -> bool
    ensures { result ≡ are_apart (map (λ step. step.row) steps.now) }
{
    match steps {
        [] => true,
        [first, rest @ ..] => !is_among(first.row, rest) && are_apart(rest),
    }
}

/// Whether a walk gives a node a lesser number.
fn is_grown(reaches: &Reaches, differences: &[Difference], to: usize, reach: &Reach) -> bool
    requires { AreNarrow (length reaches.now) differences.now }
    ensures { IsTrue result → IsGrown differences.now reaches.now to reach.now }
{
    let number = reach.number;
    let steps = reach.walk.as_slice();
    if LONGEST < steps.len() {
        return false;
    }
    if number_at(reaches, to) <= number {
        return false;
    }
    if !is_walk(reaches, differences, to, steps, number) {
        return false;
    }
    if !are_above(reaches, steps) {
        return false;
    }
    are_apart(steps)
}

/// The factors of a cycle, where a walk is one.
fn cycle_by(
    alloc: Global,
    reaches: &Reaches,
    differences: &[Difference],
    to: usize,
    reach: &Reach,
) -> Result<Confirmed, AllocError>
    requires { AreNarrow (length reaches.now) differences.now }
    ensures { IfOk result (IsConfirmed differences.now (length reaches.now)) }
{
    let steps = reach.walk.as_slice();
    if !is_grown(reaches, differences, to, reach) {
        return Ok(Confirmed::Nothing);
    }
    if !leaves(to, steps) {
        return Ok(Confirmed::Nothing);
    }
    Ok(Confirmed::Cycle(factors_up_to(alloc, to, steps)?))
}

/// The numbers, where they meet the differences.
fn numbers_by(reaches: Reaches, differences: &[Difference]) -> Confirmed
    requires { AreNarrow (length reaches) differences.now }
    ensures { IsConfirmed differences.now (length reaches) result }
{
    if !are_moderate(&reaches) {
        return Confirmed::Nothing;
    }
    if !are_met(&reaches, differences) {
        return Confirmed::Nothing;
    }
    Confirmed::Numbers(reaches)
}

/// What of a proposal stands its test.
pub(crate) fn confirm(
    alloc: Global,
    differences: &[Difference],
    count: usize,
    proposal: Proposal,
) -> Result<Confirmed, AllocError>
    requires { AreNarrow count differences.now }
    ensures { IfOk result (IsConfirmed differences.now count) }
{
    match proposal {
        Proposal::Numbers(reaches) => {
            if reaches.len() != count {
                return Ok(Confirmed::Nothing);
            }
            Ok(numbers_by(reaches, differences))
        }
        Proposal::Cycle(reaches, to, reach) => {
            if reaches.len() != count {
                return Ok(Confirmed::Nothing);
            }
            cycle_by(alloc, &reaches, differences, to, &reach)
        }
        Proposal::Nothing => Ok(Confirmed::Nothing),
    }
}
