//! Guesses that stand their test.
ghost use Rattle.std.specs.Prelude.{IfOk};
ghost use Rattle.pure_terms.specs.View.{atoms_view};
ghost use Rattle.solver_guess.specs.Guesses.{IsGuess};

use crate::proposing::{Proposal, propose};
use crate::testing::is_model;
use pure_terms::{Atoms, Valuation, VarTable};
use solver_proof::{Proof, accepts};
use std::alloc::{AllocError, Global};

/// What is known of a list by a guess.
#[derive(Drop)]
pub enum Guess {
    /// This valuation satisfies it.
    Model(Valuation),
    /// This proof closes it.
    Closed(Proof),
    Nothing,
}

/// Guesses at a list over the variables of a table: values for classes of variables by what atoms say of them, or a chain of
/// equalities that can't be. What is answered has been tested on the whole list. It takes about as long as the list is, and finds
/// what needs no split.
pub fn guess_at(alloc: Global, vars: &VarTable, list: &Atoms) -> Result<Guess, AllocError>
    ensures { IfOk result (IsGuess vars.now (atoms_view list.now)) }
{
    match propose(alloc, vars, list)? {
        Proposal::Values(values) => {
            if is_model(alloc, vars, list, &values)? {
                return Ok(Guess::Model(values));
            }
            Ok(Guess::Nothing)
        }
        Proposal::Proof(proof) => {
            if accepts(vars, list, &proof) {
                return Ok(Guess::Closed(proof));
            }
            Ok(Guess::Nothing)
        }
        Proposal::Nothing => Ok(Guess::Nothing),
    }
}
