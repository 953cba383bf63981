//! Rows over the variables of a table.
ghost use Rattle.std.specs.Prelude.{◌≡◌, ◌↔◌, slice_get, All, IsTrue, Some};
ghost use Rattle.pure_terms.specs.declared.variables.Sort.{Sort};
ghost use Rattle.linear_core.specs.Rows.{AreOver};

use crate::rows::{Coefficient, Rows};
use pure_terms::{Sort, VarTable};

fn is_integer(vars: &VarTable, variable: u64) -> bool
    ensures { IsTrue result ↔ (slice_get vars.now variable ≡ Some Sort.Int) }
{
    match vars.get(variable as usize) {
        Some(Sort::Int) => true,
        _ => false,
    }
}

fn is_over(vars: &VarTable, coefficients: &[Coefficient]) -> bool
    ensures { IsTrue result ↔ All (λ c. slice_get vars.now c.variable ≡ Some Sort.Int) coefficients.now }
{
    coefficients.iter().all(|c| is_integer(vars, c.variable))
}

/// Whether rows name only whole-number variables of a table.
pub fn are_over(vars: &VarTable, rows: &Rows) -> bool
    ensures { IsTrue result ↔ AreOver vars.now rows.now }
{
    rows.as_slice()
        .iter()
        .all(|row| is_over(vars, row.coefficients.as_slice()))
}
