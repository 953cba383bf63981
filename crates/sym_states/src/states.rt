//! Symbolic states: a memory beside facts, with the conditions under which they are there.
ghost use Rattle.std.specs.Prelude.{◌≡◌, ◌++◌, IfOk, OnOk};
ghost use Rattle.pure_terms.specs.View.{atoms_view};
ghost use Rattle.sym_model.specs.View.{path_view};
ghost use Rattle.sym_states.specs.Pure.{with_conditions};
ghost use Rattle.sym_states.specs.View.{fact_view, facts_view, state_view};

use gil_values::{Place, Text};
use pure_terms::{Atoms, Choices, Terms, VarTable};
use sequence::Sequence;
use std::alloc::{AllocError, Global};
use sym_model::{PathCond, copy_conditions};

/// A user predicate that isn't unfolded, in terms. Contracts see it as its pure data, by `fact_view`.
#[derive(Debug, Drop)]
pub struct PredChunk {
    /// The name of the predicate.
    pub pred: Text,
    pub ins: Terms,
    pub outs: Terms,
}

/// The facts of a state, in order.
pub type PredChunks = Sequence<PredChunk>;

/// A symbolic state with facts. Contracts see it as its pure data over the memory's states, by `state_view`.
#[derive(Debug)]
pub struct SymState<M> {
    pub vars: VarTable,
    /// What was assumed, for queries.
    pub given: Atoms,
    pub conds: PathCond,
    pub memory: M,
    pub preds: PredChunks,
    /// The command at which the state is, for queries.
    pub place: Place,
    /// The choices that led there, for queries.
    pub path: Choices,
}

// Written out, so that code which may drop a state calls this, and isn't made longer by it.
impl<M: Drop> Drop for SymState<M> {
    fn drop(self) {
        let SymState {
            vars: _,
            given: _,
            conds: _,
            memory: _,
            preds: _,
            place: _,
            path: _,
        } = self;
    }
}

/// A list of states, which contracts see as a list of pure data by `states_view`.
pub type SymStates<M> = Sequence<SymState<M>>;

impl PredChunk {
    /// An equal fact.
    pub fn copy(&self, alloc: Global) -> Result<PredChunk, AllocError>
        ensures { IfOk result (λ c. fact_view c ≡ fact_view self.now) }
    {
        let pred = self.pred.copy(alloc)?;
        let ins = self.ins.copy(alloc)?;
        let outs = self.outs.copy(alloc)?;
        Ok(PredChunk { pred, ins, outs })
    }
}

fn copy_facts(alloc: Global, facts: &PredChunks) -> Result<PredChunks, AllocError>
    ensures { IfOk result (λ cs. facts_view cs ≡ facts_view facts.now) }
{
    let mut copied = Sequence::new(alloc);
    for fact in facts.as_slice() {
        copied.push(fact.copy(alloc)?)?;
    }
    Ok(copied)
}

fn copy_table(alloc: Global, vars: &VarTable) -> Result<VarTable, AllocError>
    ensures { IfOk result (λ copied. copied ≡ vars.now) }
{
    let mut copied = Sequence::new(alloc);
    for sort in vars.as_slice() {
        copied.push(*sort)?;
    }
    Ok(copied)
}

fn copy_choices(alloc: Global, choices: &Choices) -> Result<Choices, AllocError>
    ensures { IfOk result (λ copied. copied ≡ choices.now) }
{
    let mut copied = Sequence::new(alloc);
    for choice in choices.as_slice() {
        copied.push(*choice)?;
    }
    Ok(copied)
}

fn copy_path_condition(alloc: Global, conds: &PathCond) -> Result<PathCond, AllocError>
    ensures { IfOk result (λ copied. path_view copied ≡ path_view conds.now) }
{
    let mut copied = PathCond::new(alloc);
    for atom in conds.atoms().as_slice() {
        copied.add(atom.copy(alloc)?)?;
    }
    Ok(copied)
}

/// Adds conditions at the end.
pub(crate) fn require(alloc: Global, conds: &mut PathCond, more: &Atoms) -> Result<(), AllocError>
    ensures { OnOk result (path_view conds.new ≡ path_view conds.old ++ atoms_view more.now) }
{
    for atom in more.as_slice() {
        conds.add(atom.copy(alloc)?)?;
    }
    Ok(())
}

impl<M: Drop> SymState<M> {
    /// The state with these conditions behind its own.
    pub fn under(self, alloc: Global, more: &Atoms) -> Result<SymState<M>, AllocError>
        ensures { IfOk result (λ s. state_view s ≡ with_conditions (atoms_view more.now) (state_view self)) }
    {
        let mut state = self;
        require(alloc, &mut state.conds, more)?;
        Ok(state)
    }

    /// A state that is equal but for its memory, which is this one.
    pub fn over_memory(&self, alloc: Global, memory: M) -> Result<SymState<M>, AllocError>
        ensures { IfOk result (λ s. state_view s ≡ record (state_view self.now) { memory = memory }) }
    {
        let vars = copy_table(alloc, &self.vars)?;
        let given = copy_conditions(alloc, &self.given)?;
        let conds = copy_path_condition(alloc, &self.conds)?;
        let preds = copy_facts(alloc, &self.preds)?;
        let proc = self.place.proc.copy(alloc)?;
        let path = copy_choices(alloc, &self.path)?;
        Ok(SymState {
            vars,
            given,
            conds,
            memory,
            preds,
            place: Place {
                proc,
                at: self.place.at,
            },
            path,
        })
    }
}
