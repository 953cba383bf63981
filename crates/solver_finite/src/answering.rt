//! What a search over variables with few values shows of a list.
ghost use Rattle.std.specs.Prelude.{IfOk};
ghost use Rattle.pure_terms.specs.View.{atoms_view};
ghost use Rattle.solver_guess.specs.Guesses.{IsGuess};

use crate::assembling::proof_of_tree;
use crate::filling::filled_list;
use crate::problems::Problem;
use crate::searching::{Outcome, searched};
use crate::trees::Tree;
use pure_terms::{Atoms, VarTable};
use solver_guess::{Guess, guess_at, is_model};
use solver_proof::accepts;
use std::alloc::{AllocError, Global};

/// A valuation of the variables, some of whose values are chosen, where it satisfies the list.
fn filled(
    alloc: Global,
    vars: &VarTable,
    list: &Atoms,
    problem: &Problem,
    chosen: &[usize],
) -> Result<Guess, AllocError>
    ensures { IfOk result (IsGuess vars.now (atoms_view list.now)) }
{
    let longer = filled_list(alloc, vars, problem, chosen, list)?;
    match guess_at(alloc, vars, &longer)? {
        Guess::Model(values) => {
            if is_model(alloc, vars, list, &values)? {
                return Ok(Guess::Model(values));
            }
            Ok(Guess::Nothing)
        }
        _ => Ok(Guess::Nothing),
    }
}

/// The proof that a tree stands for, where it closes the list.
fn refuted(
    alloc: Global,
    vars: &VarTable,
    list: &Atoms,
    problem: &Problem,
    tree: &Tree,
    root: usize,
) -> Result<Guess, AllocError>
    ensures { IfOk result (IsGuess vars.now (atoms_view list.now)) }
{
    match proof_of_tree(alloc, problem, list, tree, root)? {
        Some(proof) => {
            if accepts(vars, list, &proof) {
                return Ok(Guess::Closed(proof));
            }
            Ok(Guess::Nothing)
        }
        None => Ok(Guess::Nothing),
    }
}

/// Searches the values of the variables that have few, by the rules over them alone. Where they leave none that is a proof for the
/// whole list; else values for the other variables are guessed. What is answered has been tested on the whole list. The search goes back
/// at once to the last variable that has to do with what fails, and begins with those that failed most. It makes about so many steps at most.
pub fn search_values(
    alloc: Global,
    vars: &VarTable,
    list: &Atoms,
    steps: usize,
) -> Result<Guess, AllocError>
    ensures { IfOk result (IsGuess vars.now (atoms_view list.now)) }
{
    let problem = Problem::new(alloc, vars, list)?;
    match searched(alloc, &problem, steps)? {
        Outcome::Chosen(chosen) => filled(alloc, vars, list, &problem, chosen.as_slice()),
        Outcome::Nothing(tree, root) => refuted(alloc, vars, list, &problem, &tree, root),
        Outcome::Late => Ok(Guess::Nothing),
    }
}
