//! Solving a list of atoms.
ghost use Rattle.std.specs.Prelude.{◌≡◌, IfOk};
ghost use Rattle.pure_terms.specs.Meaning.{AreOver};
ghost use Rattle.pure_terms.specs.View.{atoms_view};
ghost use Rattle.solver_sorts.specs.Sorting.{IsSortedTable, sorted_atoms};
ghost use Rattle.path_solver.specs.declared.solutions.Solution.{Solution as SolutionItself};
ghost use Rattle.path_solver.specs.Outside.{AreAllPlain, IsKeptOut};
ghost use Rattle.path_solver.specs.Searching.{IsFound, IsProperlyFound};
ghost use Rattle.path_solver.specs.Solving.{IsSolved, solution_view};

use crate::lists::turn_to;
use crate::outside::{first_outside, plain_list};
use crate::searching::{DEEPEST_SEARCH, Found, search};
use crate::solutions::Solution;
use crate::testing::are_true;
use pure_terms::{Atoms, Reason, VarTable};
use rewrite_book::RuleBook;
use solver_proof::accepts;
use solver_sorts::{SortedList, sorted_list, sorted_lists_have_the_same_solutions};
use std::alloc::{AllocError, Global};

/// Solves a list of atoms over the variables of a table. Atoms that aren't of the fragment by themselves are simplified by the rules,
/// and what is found then is tested on the atoms as they were given. Where that doesn't serve, values are looked for with the sorts
/// that the list says.
pub fn solve(
    alloc: Global,
    vars: &VarTable,
    atoms: &Atoms,
    rules: &RuleBook,
) -> Result<Solution, AllocError>
    requires { AreOver vars.now (atoms_view atoms.now) }
    ensures { IfOk result (λ s. IsSolved vars.now (atoms_view atoms.now) (solution_view s)) }
{
    let mut list = Atoms::new(alloc);
    match solve_on(alloc, vars, atoms, rules, &mut list)? {
        Solution::Sat(valuation) => Ok(Solution::Sat(valuation)),
        Solution::Unsat(proof) => Ok(Solution::Unsat(proof)),
        Solution::Unknown(reason) => {
            let sorted = sorted_list(alloc, vars, atoms)?;
            let solution = solve_on(alloc, &sorted.vars, &sorted.atoms, rules, &mut list)?;
            Ok(solution_before(vars, atoms, &sorted, solution, reason))
        }
    }
}

/// What is known of a list that the search doesn't solve, where it solves the list with the sorts that this one says.
fn solution_before(
    vars: &VarTable,
    atoms: &Atoms,
    sorted: &SortedList,
    solution: Solution,
    reason: Reason,
) -> Solution
    requires over { AreOver vars.now (atoms_view atoms.now) }
    requires unknown { IsSolved vars.now (atoms_view atoms.now) (solution_view (SolutionItself.Unknown reason)) }
    requires table { IsSortedTable vars.now (atoms_view atoms.now) sorted.now.vars }
    requires list { atoms_view sorted.now.atoms ≡ sorted_atoms sorted.now.vars (atoms_view atoms.now) }
    requires solved { IsSolved sorted.now.vars (atoms_view sorted.now.atoms) (solution_view solution) }
    ensures { IsSolved vars.now (atoms_view atoms.now) (solution_view result) }
{
    sorted_lists_have_the_same_solutions();
    match solution {
        Solution::Sat(valuation) => Solution::Sat(valuation),
        Solution::Unsat(_) => Solution::Unknown(reason),
        Solution::Unknown(_) => Solution::Unknown(reason),
    }
}

/// Solves a list of atoms. The search goes over another list, which is made anew.
pub(crate) fn solve_on(
    alloc: Global,
    vars: &VarTable,
    atoms: &Atoms,
    rules: &RuleBook,
    list: &mut Atoms,
) -> Result<Solution, AllocError>
    requires { AreOver vars.now (atoms_view atoms.now) }
    ensures { IfOk result (λ s. IsSolved vars.now (atoms_view atoms.now) (solution_view s)) }
{
    match first_outside(atoms) {
        None => match found_of(alloc, vars, atoms, list)? {
            Found::Model(valuation) => Ok(Solution::Sat(valuation)),
            Found::Closed(proof) => Ok(Solution::Unsat(proof)),
        },
        Some(reason) => solve_outside(alloc, vars, atoms, rules, list, reason),
    }
}

/// What is found of a list of atoms of the fragment.
pub(crate) fn found_of(
    alloc: Global,
    vars: &VarTable,
    atoms: &Atoms,
    list: &mut Atoms,
) -> Result<Found, AllocError>
    requires over { AreOver vars.now (atoms_view atoms.now) }
    requires plain { AreAllPlain (atoms_view atoms.now) }
    ensures { IfOk result (IsFound vars.now (atoms_view atoms.now)) }
{
    turn_to(alloc, list, atoms)?;
    search(alloc, vars, list, DEEPEST_SEARCH)
}

/// Solves a list with an atom that isn't of the fragment.
fn solve_outside(
    alloc: Global,
    vars: &VarTable,
    atoms: &Atoms,
    rules: &RuleBook,
    list: &mut Atoms,
    reason: Reason,
) -> Result<Solution, AllocError>
    requires over { AreOver vars.now (atoms_view atoms.now) }
    requires kept_out { IsKeptOut (atoms_view atoms.now) reason }
    ensures { IfOk result (λ s. IsSolved vars.now (atoms_view atoms.now) (solution_view s)) }
{
    *list = plain_list(alloc, vars, rules, atoms)?;
    let found = search(alloc, vars, list, DEEPEST_SEARCH)?;
    tested(alloc, vars, atoms, found, reason)
}

/// What was found of other atoms, where it serves for these too.
fn tested(
    alloc: Global,
    vars: &VarTable,
    atoms: &Atoms,
    found: Found,
    reason: Reason,
) -> Result<Solution, AllocError>
    requires kept_out { IsKeptOut (atoms_view atoms.now) reason }
    requires proper { IsProperlyFound vars.now found }
    ensures { IfOk result (λ s. IsSolved vars.now (atoms_view atoms.now) (solution_view s)) }
{
    match found {
        Found::Model(valuation) => {
            if are_true(alloc, atoms, &valuation)? {
                return Ok(Solution::Sat(valuation));
            }
            Ok(Solution::Unknown(reason))
        }
        Found::Closed(proof) => {
            if accepts(vars, atoms, &proof) {
                return Ok(Solution::Unsat(proof));
            }
            Ok(Solution::Unknown(reason))
        }
    }
}
