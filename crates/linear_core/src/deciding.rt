//! Deciding rows.
ghost use Rattle.std.specs.Prelude.{◌≡◌, ◌+◌, length, All, IfOk, IsTrue};
ghost use Rattle.linear_core.specs.Differences.{is_narrow_difference};
ghost use Rattle.linear_core.specs.Answers.{linear_view, IsRight};
ghost use Rattle.linear_core.specs.Rows.{AreOver};

use crate::answers::Linear;
use crate::confirming::{Confirmed, confirm};
use crate::differences::{differences_of, first_beyond};
use crate::proposing::propose;
use crate::rows::Rows;
use crate::settling::settle;
use crate::valuations::valuation_of;
use crate::walks::Reaches;
use pure_terms::VarTable;
use std::alloc::{AllocError, Global};

/// The nodes of a table: one for each variable, and the node 0.
fn node_count(vars: &VarTable) -> Result<usize, AllocError>
    ensures { IfOk result (λ count. count ≡ length vars.now + 1) }
{
    let count = vars.len();
    if count == usize::MAX {
        return Err(AllocError);
    }
    Ok(count + 1)
}

/// Decides narrow differences by walks, which always ends.
fn decide_by_walks(alloc: Global, vars: &VarTable, rows: &Rows) -> Result<Linear, AllocError>
    requires over { AreOver vars.now rows.now }
    requires narrow { All (λ row. IsTrue (is_narrow_difference row)) rows.now }
    ensures { IfOk result (λ answer. IsRight vars.now rows.now (linear_view answer)) }
{
    let count = node_count(vars)?;
    let differences = differences_of(alloc, rows)?;
    let mut reaches = Reaches::new(alloc, count)?;
    let found = settle(alloc, differences.as_slice(), &mut reaches)?;
    match found {
        Some(factors) => Ok(Linear::Combination(factors)),
        None => Ok(Linear::Integer(valuation_of(alloc, vars, &reaches)?)),
    }
}

/// Decides narrow differences by what is found fast, where that stands its test, and by walks where it doesn't.
fn decide(alloc: Global, vars: &VarTable, rows: &Rows) -> Result<Linear, AllocError>
    requires over { AreOver vars.now rows.now }
    requires narrow { All (λ row. IsTrue (is_narrow_difference row)) rows.now }
    ensures { IfOk result (λ answer. IsRight vars.now rows.now (linear_view answer)) }
{
    let count = node_count(vars)?;
    let differences = differences_of(alloc, rows)?;
    let proposal = propose(alloc, differences.as_slice(), count)?;
    match confirm(alloc, differences.as_slice(), count, proposal)? {
        Confirmed::Numbers(reaches) => Ok(Linear::Integer(valuation_of(alloc, vars, &reaches)?)),
        Confirmed::Cycle(factors) => Ok(Linear::Combination(factors)),
        Confirmed::Nothing => decide_by_walks(alloc, vars, rows),
    }
}

/// Decides rows over the whole-number variables of a table: a valuation that meets them, or a combination of rows that add to a
/// positive constant without variables. It gives up only on a row that isn't a difference of at most two variables with a
/// constant from -2^82 to 2^82.
pub fn linear(alloc: Global, vars: &VarTable, rows: &Rows) -> Result<Linear, AllocError>
    requires { AreOver vars.now rows.now }
    ensures { IfOk result (λ answer. IsRight vars.now rows.now (linear_view answer)) }
{
    match first_beyond(rows) {
        Some(place) => Ok(Linear::Beyond(place)),
        None => decide(alloc, vars, rows),
    }
}
