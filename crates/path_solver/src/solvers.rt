//! The decider and refuter that solves, and keeps what it was asked last.
ghost use Rattle.std.specs.Prelude.{◌≡◌, ◌≤◌, ◌∷◌, ◌++◌, [], length, take, IfOk, IfSome, OnOk, OnErr};
ghost use Rattle.std.specs.Option.{option_map};
ghost use Rattle.pure_terms.specs.Deciding.{IsRight};
ghost use Rattle.pure_terms.specs.Meaning.{AreOver};
ghost use Rattle.pure_terms.specs.View.{atom_view, atoms_view, decision_view};
ghost use Rattle.solver_proof.specs.Refuting.{RefutesRightly};
ghost use Rattle.solver_proof.specs.View.{proof_view};
ghost use Rattle.path_solver.specs.Searching.{IsFound};
ghost use Rattle.path_solver.specs.Solving.{IsSolved, IsDecidedWhenSorted, solution_view};
ghost use Rattle.path_solver.specs.Standing.{table_of, list_of};

use crate::deciding::{decide_on, decision_of};
use crate::lists::{are_same_tables, common, copy_of_table, cut_to};
use crate::outside::are_plain_since;
use crate::searching::Found;
use crate::solutions::Solution;
use crate::solving::solve_on;
use pure_terms::{Atom, Atoms, Decider, Decision, Valuation, VarTable};
use rewrite_book::RuleBook;
use solver_parts::{Part, broken_part, fitted, near_values};
use solver_proof::{Proof, Refuter};
use std::alloc::{AllocError, Global};

/// A decider that proves what it refutes. It asks no rules. A list that isn't of the fragment is decided with the sorts that it says
/// of its variables. A table and a list stand in it from one question to the next, to which atoms are added and from which they are
/// cut. Values that satisfied a list are kept: where they still do, or when they are moved, they are the answer, and else the part of the
/// list that they break is solved by itself. Only where that doesn't serve the whole list is searched.
#[derive(Drop)]
pub struct PathSolver {
    vars: VarTable,
    list: Atoms,
    /// The list that is searched.
    searched: Atoms,
    /// What satisfied the last list that was satisfied, with a value for each variable of the table.
    values: Valuation,
    /// How many first atoms these values satisfied. No answer rests on it.
    held: usize,
    /// How many first atoms were seen to be of the fragment. No answer rests on it.
    seen: usize,
}

impl PathSolver {
    /// A solver in which the empty list stands, over the empty table. It takes no memory yet.
    pub fn new(alloc: Global) -> PathSolver
        ensures table { table_of result ≡ [] }
        ensures list { list_of result ≡ [] }
    {
        PathSolver {
            vars: VarTable::new(alloc),
            list: Atoms::new(alloc),
            searched: Atoms::new(alloc),
            values: Valuation::new(alloc),
            held: 0,
            seen: 0,
        }
    }

    /// Puts another table in the place of the one that stands: a longer one, or one over which the list is.
    pub fn grow(&mut self, alloc: Global, vars: &VarTable) -> Result<(), AllocError>
        ensures table { OnOk result (table_of self.new ≡ vars.now) }
        ensures err { OnErr result (table_of self.new ≡ table_of self.old) }
        ensures list { list_of self.new ≡ list_of self.old }
    {
        let table = copy_of_table(alloc, vars)?;
        if !are_same_tables(&self.vars, vars) {
            self.values = fitted(alloc, vars, &self.values)?;
        }
        self.vars = table;
        Ok(())
    }

    /// Adds an atom to the end of the list.
    pub fn add(&mut self, alloc: Global, atom: &Atom) -> Result<(), AllocError>
        ensures list { OnOk result (list_of self.new ≡ list_of self.old ++ atom_view atom.now ∷ []) }
        ensures err { OnErr result (list_of self.new ≡ list_of self.old) }
        ensures table { table_of self.new ≡ table_of self.old }
    {
        let atom = atom.copy(alloc)?;
        self.list.push(atom)?;
        Ok(())
    }

    /// Cuts the list back to its first atoms, which takes no memory.
    pub fn cut(&mut self, len: usize)
        requires { len ≤ length (list_of self.old) }
        ensures list { list_of self.new ≡ take len (list_of self.old) }
        ensures table { table_of self.new ≡ table_of self.old }
    {
        cut_to(&mut self.list, len);
        self.held = self.held.min(len);
        self.seen = self.seen.min(len);
    }

    /// Decides the list that stands.
    pub fn answer(&mut self, alloc: Global) -> Result<Decision, AllocError>
        requires { AreOver (table_of self.old) (list_of self.old) }
        ensures table { table_of self.new ≡ table_of self.old }
        ensures list { list_of self.new ≡ list_of self.old }
        ensures right { IfOk result (λ decision. IsRight (table_of self.old) (list_of self.old) (decision_view decision)) }
        ensures decided { IfOk result (λ decision. IsDecidedWhenSorted (table_of self.old) (list_of self.old) (decision_view decision)) }
    {
        if are_plain_since(&self.list, self.seen) {
            self.seen = self.list.len();
            if let Some(found) = self.known(alloc)? {
                self.keep(alloc, &found)?;
                return Ok(decision_of(&self.vars, &self.list, found));
            }
        }
        let decision = decide_on(alloc, &self.vars, &self.list, &mut self.searched)?;
        if let Decision::Sat(values) = &decision {
            self.values = values.copy(alloc)?;
            self.held = self.list.len();
        }
        Ok(decision)
    }

    /// What the values that are kept show of the list that stands, if they do.
    fn known(&mut self, alloc: Global) -> Result<Option<Found>, AllocError>
        ensures table { table_of self.new ≡ table_of self.old }
        ensures list { list_of self.new ≡ list_of self.old }
        ensures found { IfOk result (λ found. IfSome found (IsFound (table_of self.old) (list_of self.old))) }
    {
        if let Some(near) = near_values(alloc, &self.vars, &self.list, &self.values, self.held)? {
            return Ok(Some(Found::Model(near)));
        }
        match broken_part(alloc, &self.vars, &self.list, &self.values, self.held)? {
            Some(part) => self.known_by_part(alloc, &part),
            None => Ok(None),
        }
    }

    /// What solving a part by itself shows of the list that stands.
    fn known_by_part(&mut self, alloc: Global, part: &Part) -> Result<Option<Found>, AllocError>
        requires { AreOver part.now.vars (atoms_view part.now.atoms) }
        ensures table { table_of self.new ≡ table_of self.old }
        ensures list { list_of self.new ≡ list_of self.old }
        ensures found { IfOk result (λ found. IfSome found (IsFound (table_of self.old) (list_of self.old))) }
    {
        let none = RuleBook::new(alloc);
        match solve_on(alloc, &part.vars, &part.atoms, &none, &mut self.searched)? {
            Solution::Sat(found) => {
                match part.values(alloc, &self.vars, &self.list, &self.values, &found)? {
                    Some(all) => Ok(Some(Found::Model(all))),
                    None => Ok(None),
                }
            }
            Solution::Unsat(proof) => {
                match part.proof(alloc, &self.vars, &self.list, &proof)? {
                    Some(whole) => Ok(Some(Found::Closed(whole))),
                    None => Ok(None),
                }
            }
            Solution::Unknown(_) => Ok(None),
        }
    }

    /// Keeps the values that were found.
    fn keep(&mut self, alloc: Global, found: &Found) -> Result<(), AllocError>
        ensures table { table_of self.new ≡ table_of self.old }
        ensures list { list_of self.new ≡ list_of self.old }
    {
        if let Found::Model(values) = found {
            self.values = values.copy(alloc)?;
            self.held = self.list.len();
        }
        Ok(())
    }

    /// A proof that closes the list that stands, and None only where it isn't in the fragment or some proper valuation makes every
    /// atom true.
    pub fn proof(&mut self, alloc: Global) -> Result<Option<Proof>, AllocError>
        requires { AreOver (table_of self.old) (list_of self.old) }
        ensures table { table_of self.new ≡ table_of self.old }
        ensures list { list_of self.new ≡ list_of self.old }
        ensures right { IfOk result (λ found. RefutesRightly (table_of self.old) (list_of self.old) (option_map proof_view found)) }
    {
        let none = RuleBook::new(alloc);
        let solution = solve_on(alloc, &self.vars, &self.list, &none, &mut self.searched)?;
        Ok(proof_of(&self.vars, &self.list, solution))
    }

    /// Turns to another list, by cutting back to what the two have in common and adding the rest.
    fn turn_to(&mut self, alloc: Global, vars: &VarTable, atoms: &Atoms) -> Result<(), AllocError>
        ensures table { OnOk result (table_of self.new ≡ vars.now) }
        ensures list { OnOk result (list_of self.new ≡ atoms_view atoms.now) }
    {
        let kept = common(&self.list, atoms);
        self.cut(kept);
        self.grow(alloc, vars)?;
        for index in kept..atoms.len() {
            let Some(atom) = atoms.get(index) else {
                unreachable!()
            };
            self.add(alloc, atom)?;
        }
        Ok(())
    }
}

impl Decider for PathSolver {
    fn decide(
        &mut self,
        alloc: Global,
        vars: &VarTable,
        atoms: &Atoms,
    ) -> Result<Decision, AllocError>
        requires { AreOver vars.now (atoms_view atoms.now) }
        ensures right { IfOk result (λ decision. IsRight vars.now (atoms_view atoms.now) (decision_view decision)) }
        ensures decided { IfOk result (λ decision. IsDecidedWhenSorted vars.now (atoms_view atoms.now) (decision_view decision)) }
    {
        self.turn_to(alloc, vars, atoms)?;
        self.answer(alloc)
    }
}

impl Refuter for PathSolver {
    fn refute(
        &mut self,
        alloc: Global,
        vars: &VarTable,
        atoms: &Atoms,
    ) -> Result<Option<Proof>, AllocError> {
        self.turn_to(alloc, vars, atoms)?;
        self.proof(alloc)
    }
}

/// What a refuter says where the solver says this.
fn proof_of(vars: &VarTable, atoms: &Atoms, solution: Solution) -> Option<Proof>
    requires { IsSolved vars.now (atoms_view atoms.now) (solution_view solution) }
    ensures { RefutesRightly vars.now (atoms_view atoms.now) (option_map proof_view result) }
{
    match solution {
        Solution::Sat(_) => None,
        Solution::Unsat(proof) => Some(proof),
        Solution::Unknown(_) => None,
    }
}
