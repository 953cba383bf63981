//! Numbers that solve the rows of a list, or a sum of rows that closes it.
ghost use Rattle.std.specs.Prelude.{◌≡◌, map, get_or, IfOk};
ghost use Rattle.solver_rules.specs.Laws.{at_atom};
ghost use Rattle.solver_rules.specs.Steps.{IsNode};
ghost use Rattle.solver_proof.specs.Closing.{Closes};
ghost use Rattle.solver_proof.specs.View.{proof_view};
ghost use Rattle.solver_proof.specs.Sums.{SumCloses};
ghost use Rattle.pure_terms.specs.View.{atoms_view};
ghost use Rattle.equality_core.specs.Classes.{classes_view, given_list};
ghost use Rattle.solver_next.specs.Steps.{AreNumbersFound};

use equality_core::Classes;
use linear_core::{Linear, linear};
use pure_terms::{Valuation, VarTable};
use solver_proof::{Factor, Factors, Proof};
use solver_rules::{RowList, rows_of};
use std::alloc::{AllocError, Global};

/// What is found for the whole numbers of a list.
#[derive(Drop)]
pub(crate) enum NumbersFound {
    Numbers(Valuation),
    /// No numbers solve the rows, and this proof closes the list.
    Closed(Proof),
}

/// The factor of a row as one of the atom that has the row.
fn at_atom(places: &[usize], factor: Factor) -> Factor
    ensures { result ≡ at_atom places.now factor }
{
    let atom = match places.get(factor.atom) {
        Some(place) => *place,
        // a combination names rows that there are
        None => 0,
    };
    Factor {
        atom,
        factor: factor.factor,
    }
}

/// The factors of rows as those of the atoms that have them.
fn at_atoms(alloc: Global, places: &[usize], factors: &Factors) -> Result<Factors, AllocError>
    ensures { IfOk result (λ fs. fs ≡ map (at_atom places.now) factors.now) }
{
    let rows = factors.as_slice();
    let mut atoms = Factors::new(alloc);
    for factor in rows {
        atoms.push(at_atom(places, *factor))?;
    }
    Ok(atoms)
}

/// Numbers that solve the rows of the atoms, and of the equalities of elements that are behind them.
pub(crate) fn numbers_of(
    alloc: Global,
    vars: &VarTable,
    classes: &Classes,
) -> Result<NumbersFound, AllocError>
    requires node { IsNode vars.now (given_list (classes_view classes.now)) (classes_view classes.now) }
    ensures { IfOk result (AreNumbersFound vars.now (classes_view classes.now)) }
{
    let RowList { rows, places } = rows_of(alloc, classes.list())?;
    match linear(alloc, vars, &rows)? {
        Linear::Integer(numbers) => Ok(NumbersFound::Numbers(numbers)),
        Linear::Combination(factors) => {
            let sum = Proof::Sum(at_atoms(alloc, places.as_slice(), &factors)?);
            Ok(NumbersFound::Closed(classes.proof_of_given(alloc, sum)?))
        }
        // the rows of such atoms are narrow
        Linear::Beyond(_) => unreachable!(),
    }
}
