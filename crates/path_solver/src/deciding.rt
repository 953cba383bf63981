//! Deciding a list of atoms.
ghost use Rattle.std.specs.Prelude.{◌≡◌, IfOk};
ghost use Rattle.pure_terms.specs.Deciding.{IsRight};
ghost use Rattle.pure_terms.specs.Meaning.{AreOver};
ghost use Rattle.pure_terms.specs.View.{atoms_view, decision_view};
ghost use Rattle.solver_sorts.specs.Sorting.{IsSortedTable, sorted_atoms};
ghost use Rattle.path_solver.specs.Outside.{IsKeptOut};
ghost use Rattle.path_solver.specs.Searching.{IsFound};
ghost use Rattle.path_solver.specs.Solving.{IsDecidedWhenSorted, IsSolved, solution_view};

use crate::outside::first_outside;
use crate::searching::Found;
use crate::solutions::Solution;
use crate::solving::{found_of, solve_on};
use pure_terms::{Atoms, Decision, Reason, VarTable};
use rewrite_book::RuleBook;
use solver_proof::closed_lists_have_no_solution;
use solver_sorts::{SortedList, sorted_list, sorted_lists_have_the_same_solutions};
use std::alloc::{AllocError, Global};

/// Decides a list of atoms without rules. The search goes over another list, which is made anew.
pub(crate) fn decide_on(
    alloc: Global,
    vars: &VarTable,
    atoms: &Atoms,
    list: &mut Atoms,
) -> Result<Decision, AllocError>
    requires { AreOver vars.now (atoms_view atoms.now) }
    ensures right { IfOk result (λ d. IsRight vars.now (atoms_view atoms.now) (decision_view d)) }
    ensures decided { IfOk result (λ d. IsDecidedWhenSorted vars.now (atoms_view atoms.now) (decision_view d)) }
{
    match first_outside(atoms) {
        None => {
            let found = found_of(alloc, vars, atoms, list)?;
            Ok(decision_of(vars, atoms, found))
        }
        Some(reason) => decide_sorted(alloc, vars, atoms, list, reason),
    }
}

/// Decides a list of atoms that isn't of the fragment, as the list with the sorts that it says.
fn decide_sorted(
    alloc: Global,
    vars: &VarTable,
    atoms: &Atoms,
    list: &mut Atoms,
    reason: Reason,
) -> Result<Decision, AllocError>
    requires over { AreOver vars.now (atoms_view atoms.now) }
    requires kept_out { IsKeptOut (atoms_view atoms.now) reason }
    ensures right { IfOk result (λ d. IsRight vars.now (atoms_view atoms.now) (decision_view d)) }
    ensures decided { IfOk result (λ d. IsDecidedWhenSorted vars.now (atoms_view atoms.now) (decision_view d)) }
{
    let none = RuleBook::new(alloc);
    let sorted = sorted_list(alloc, vars, atoms)?;
    let solution = solve_on(alloc, &sorted.vars, &sorted.atoms, &none, list)?;
    Ok(decision_before(vars, atoms, &sorted, solution, reason))
}

/// What a decider says of a list of the fragment, of which this is found.
pub(crate) fn decision_of(vars: &VarTable, atoms: &Atoms, found: Found) -> Decision
    requires over { AreOver vars.now (atoms_view atoms.now) }
    requires found { IsFound vars.now (atoms_view atoms.now) found }
    ensures right { IsRight vars.now (atoms_view atoms.now) (decision_view result) }
    ensures decided { IsDecidedWhenSorted vars.now (atoms_view atoms.now) (decision_view result) }
{
    closed_lists_have_no_solution();
    match found {
        Found::Model(valuation) => Decision::Sat(valuation),
        Found::Closed(_) => Decision::Unsat,
    }
}

/// What a decider says of a list that isn't of the fragment, where the list with the sorts that it says is solved so.
fn decision_before(
    vars: &VarTable,
    atoms: &Atoms,
    sorted: &SortedList,
    solution: Solution,
    reason: Reason,
) -> Decision
    requires over { AreOver vars.now (atoms_view atoms.now) }
    requires kept_out { IsKeptOut (atoms_view atoms.now) reason }
    requires table { IsSortedTable vars.now (atoms_view atoms.now) sorted.now.vars }
    requires list { atoms_view sorted.now.atoms ≡ sorted_atoms sorted.now.vars (atoms_view atoms.now) }
    requires solved { IsSolved sorted.now.vars (atoms_view sorted.now.atoms) (solution_view solution) }
    ensures right { IsRight vars.now (atoms_view atoms.now) (decision_view result) }
    ensures decided { IsDecidedWhenSorted vars.now (atoms_view atoms.now) (decision_view result) }
{
    closed_lists_have_no_solution();
    sorted_lists_have_the_same_solutions();
    match solution {
        Solution::Sat(valuation) => Decision::Sat(valuation),
        Solution::Unsat(_) => Decision::Unsat,
        Solution::Unknown(_) => Decision::Unknown(reason),
    }
}
