//! Following all differences until none leads to a lesser number.
ghost use Rattle.std.specs.Prelude.{◌≡◌, ◌<◌, length, IfOk};
ghost use Rattle.linear_core.specs.Nodes.{AreNarrow};
ghost use Rattle.linear_core.specs.Walks.{AreReached, HasPassed, HasSettled, row_at_turn};

use crate::differences::Difference;
use crate::relaxing::{Relaxed, follow};
use crate::walks::Reaches;
use solver_proof::Factors;
use std::alloc::{AllocError, Global};

/// What following each difference once gave.
#[derive(Drop)]
pub(crate) enum Passed {
    /// All differences are met.
    Settles,
    /// Some node has a lesser number now.
    Moves,
    /// These differences can't be met together.
    Returns(Factors),
}

/// The row that is followed at a turn, counted from the first row or from the last.
fn row_at_turn(count: usize, from_last: bool, turn: usize) -> usize
    requires { turn < count }
    ensures { result ≡ row_at_turn count from_last turn }
{
    if from_last { count - (turn + 1) } else { turn }
}

/// Follows each difference once.
fn pass(
    alloc: Global,
    differences: &[Difference],
    reaches: &mut Reaches,
    from_last: bool,
) -> Result<Passed, AllocError>
    requires narrow { AreNarrow (length reaches.old) differences.now }
    requires reached { AreReached differences.now reaches.old }
    ensures { IfOk result (λ passed. HasPassed differences.now reaches.old reaches.new passed) }
{
    let mut moved = false;
    for turn in 0..differences.len() {
        let row = row_at_turn(differences.len(), from_last, turn);
        match follow(alloc, differences, reaches, row)? {
            Relaxed::Stays => {}
            Relaxed::Moves => moved = true,
            Relaxed::Returns(factors) => return Ok(Passed::Returns(factors)),
        }
    }
    if moved {
        return Ok(Passed::Moves);
    }
    Ok(Passed::Settles)
}

/// Follows the differences until all are met, or gives the factors of some that can't be met together. It goes over them
/// forwards and backwards in turn, since numbers that follow from each other often stand in one of these orders.
pub(crate) fn settle(
    alloc: Global,
    differences: &[Difference],
    reaches: &mut Reaches,
) -> Result<Option<Factors>, AllocError>
    requires narrow { AreNarrow (length reaches.old) differences.now }
    requires reached { AreReached differences.now reaches.old }
    ensures { IfOk result (λ found. HasSettled differences.now reaches.old reaches.new found) }
{
    let mut from_last = false;
    'turns: loop {
        match pass(alloc, differences, reaches, from_last)? {
            Passed::Settles => return Ok(None),
            Passed::Moves => {}
            Passed::Returns(factors) => return Ok(Some(factors)),
        }
        from_last = !from_last;
    }
}
