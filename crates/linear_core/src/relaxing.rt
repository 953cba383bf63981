//! Following a difference from a node to another.
ghost use Rattle.std.specs.Prelude.{◌≡◌, ◌+ℤ◌, ◌<ℤ◌, ◌^◌, ◌<◌, ◌≤◌, pos, neg_ℤ, length, slice_get, slice_set, false, true, IfOk, IsSomeAnd, IsTrue, Some};
ghost use Rattle.pure_terms.specs.Numbers.{is_between};
ghost use Rattle.linear_core.specs.Nodes.{AreNarrow, may_go, tail_of, head_of, weight_of};
ghost use Rattle.linear_core.specs.Walks.{AreReached, IsCycle, IsGrown, IsRelaxed, IsFollowed, IsFollowedBothWays, factors_up_to, leaves, number_at};

use crate::cycles::{factors_up_to, leaves};
use crate::differences::Difference;
use crate::walks::{Reach, Reaches, Step, Walk};
use solver_proof::Factors;
use std::alloc::{AllocError, Global};

/// What following a difference gave.
#[derive(Drop)]
pub(crate) enum Relaxed {
    /// The node that it leads to has no greater number.
    Stays,
    /// That node has a lesser number now.
    Moves,
    /// The walk comes back to that node with a lesser number: these differences can't be met together.
    Returns(Factors),
}

/// A walk of more steps is want of memory.
pub(crate) const LONGEST: usize = 1_099_511_627_776;

pub(crate) fn tail_of(difference: &Difference, backwards: bool) -> usize
    ensures { result ≡ tail_of difference.now backwards }
{
    if backwards {
        difference.plus
    } else {
        difference.minus
    }
}

pub(crate) fn head_of(difference: &Difference, backwards: bool) -> usize
    ensures { result ≡ head_of difference.now backwards }
{
    if backwards {
        difference.minus
    } else {
        difference.plus
    }
}

pub(crate) fn weight_of(difference: &Difference, backwards: bool) -> i128
    requires { IsTrue (is_between (neg_ℤ (pos (2 ^ 82))) (pos (2 ^ 82)) difference.now.constant) }
    ensures { result ≡ weight_of difference.now backwards }
{
    if backwards {
        difference.constant
    } else {
        -difference.constant
    }
}

/// Gives a node a lesser number by a walk, unless the walk comes back to the node.
fn move_to(
    alloc: Global,
    differences: &[Difference],
    reaches: &mut Reaches,
    to: usize,
    reach: Reach,
) -> Result<Relaxed, AllocError>
    requires placed { to < length reaches.old }
    requires narrow { AreNarrow (length reaches.old) differences.now }
    requires reached { AreReached differences.now reaches.old }
    requires grown { IsGrown differences.now reaches.old to reach }
    ensures { IfOk result (λ relaxed. IsFollowed differences.now reaches.old reaches.new relaxed) }
{
    let steps = reach.walk.as_slice();
    if leaves(to, steps) {
        return Ok(Relaxed::Returns(factors_up_to(alloc, to, steps)?));
    }
    if LONGEST < steps.len() {
        return Err(AllocError);
    }
    reaches.put(to, reach);
    Ok(Relaxed::Moves)
}

/// Follows a difference one way.
pub(crate) fn relax(
    alloc: Global,
    differences: &[Difference],
    reaches: &mut Reaches,
    row: usize,
    backwards: bool,
) -> Result<Relaxed, AllocError>
    requires allowed { IsSomeAnd (slice_get differences.now row) (λ d. IsTrue (may_go d backwards)) }
    requires narrow { AreNarrow (length reaches.old) differences.now }
    requires reached { AreReached differences.now reaches.old }
    ensures { IfOk result (λ relaxed. IsRelaxed differences.now reaches.old reaches.new row backwards relaxed) }
{
    let difference = differences[row];
    let from = tail_of(&difference, backwards);
    let to = head_of(&difference, backwards);
    let start = reaches.at(from);
    let number = start.number + weight_of(&difference, backwards);
    if reaches.at(to).number <= number {
        return Ok(Relaxed::Stays);
    }
    let step = Step {
        row,
        backwards,
        from,
        before: start.number,
    };
    let walk = start.walk.and_then(alloc, step)?;
    move_to(alloc, differences, reaches, to, Reach { number, walk })
}

/// Follows a difference in each way that it allows.
pub(crate) fn follow(
    alloc: Global,
    differences: &[Difference],
    reaches: &mut Reaches,
    row: usize,
) -> Result<Relaxed, AllocError>
    requires placed { row < length differences.now }
    requires narrow { AreNarrow (length reaches.old) differences.now }
    requires reached { AreReached differences.now reaches.old }
    ensures { IfOk result (λ relaxed. IsFollowedBothWays differences.now reaches.old reaches.new row relaxed) }
{
    match relax(alloc, differences, reaches, row, false)? {
        Relaxed::Stays => {}
        moved => return Ok(moved),
    }
    if differences[row].is_equal {
        return relax(alloc, differences, reaches, row, true);
    }
    Ok(Relaxed::Stays)
}
