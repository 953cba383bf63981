//! The terms of expressions in a state, under conditions under which they have values.
ghost use Rattle.std.specs.Prelude.{◌≡◌, ◌++◌, IfNone, IfOk, IfSome, IsTrue, OnOk};
ghost use Rattle.std.specs.Option.{option_map};
ghost use Rattle.checked_rows.specs.Asked.{ReadingAsks};
ghost use Rattle.checked_rows.specs.Doubts.{IsToldThere};
ghost use Rattle.checked_rows.specs.Reading.{DoubtsFault, NeverTaken, Reads, taken};
ghost use Rattle.checked_rows.specs.View.{doubt_view, reading_view};
ghost use Rattle.gil_syntax.specs.View.{exprs_view};
ghost use Rattle.pure_terms.specs.Meaning.{IsOver, IsUnsatisfiable};
ghost use Rattle.pure_terms.specs.Pure.{term_of};
ghost use Rattle.pure_terms.specs.View.{atoms_view, terms_view};
ghost use Rattle.sym_evaluation.specs.Meaning.{IsStoreOver};
ghost use Rattle.sym_evaluation.specs.View.{faults_view, good_view, store_view};
ghost use Rattle.sym_model.specs.Lists.{Each};
ghost use Rattle.sym_model.specs.View.{path_view as conditions_view};
ghost use Rattle.sym_states.specs.Meaning.{IsOverTable};
ghost use Rattle.sym_states.specs.Producing.{are_spelled};
ghost use Rattle.sym_states.specs.View.{state_view};

use crate::nexts::Doubt;
use gil_syntax::Exprs;
use pure_terms::{Atoms, Decider, Terms, VarTable};
use std::alloc::{AllocError, Global};
use sym_evaluation::{Cases, FaultCases, GoodCase, SymStore, evaluate_all};
use sym_model::{ListedMemory, PathCond, copy_conditions};
use sym_paths::{Satisfiability, ask};
use sym_states::SymState;

/// What reading expressions comes to. Contracts see it as its pure data, by `reading_view`.
#[derive(Debug, Drop)]
pub(crate) enum Reading<M> {
    /// The expressions have the values of these terms.
    Values(SymState<M>, Terms),
    /// The state stands for nothing in which they could be read.
    Never,
    /// Some expression has no value, or it isn't decided whether one has.
    Doubted(Doubt),
}

/// Adds conditions at the end.
pub(crate) fn require(alloc: Global, conds: &mut PathCond, more: &Atoms) -> Result<(), AllocError>
    ensures { OnOk result (conditions_view conds.new ≡ conditions_view conds.old ++ atoms_view more.now) }
{
    for atom in more.as_slice() {
        conds.add(atom.copy(alloc)?)?;
    }
    Ok(())
}

/// The conditions, and then others.
fn joined(alloc: Global, conds: &Atoms, more: &Atoms) -> Result<Atoms, AllocError>
    ensures { IfOk result (λ a. atoms_view a ≡ atoms_view conds.now ++ atoms_view more.now) }
{
    let mut joined = copy_conditions(alloc, conds)?;
    for atom in more.as_slice() {
        joined.push(atom.copy(alloc)?)?;
    }
    Ok(joined)
}

/// Why these conditions and the others behind them aren't surely never met together: a fault, or that it isn't decided.
pub fn doubt_there<D: Decider>(
    alloc: Global,
    vars: &VarTable,
    conds: &Atoms,
    more: &Atoms,
    decider: &mut D,
) -> Result<Option<Doubt>, AllocError>
    requires conds { Each (λ a. IsOver vars.now (term_of a)) (atoms_view conds.now) }
    requires more { Each (λ a. IsOver vars.now (term_of a)) (atoms_view more.now) }
    ensures none { IfOk result (λ o. IfNone o (IsUnsatisfiable vars.now (atoms_view conds.now ++ atoms_view more.now))) }
    ensures doubt { IfOk result (λ o. IfSome o (λ d. IsToldThere vars.now (atoms_view conds.now) (atoms_view more.now) (doubt_view d))) }
{
    let atoms = joined(alloc, conds, more)?;
    match ask(alloc, decider, vars, &atoms)? {
        Satisfiability::Unsatisfiable => Ok(None),
        Satisfiability::Satisfiable(valuation) => Ok(Some(Doubt::Under(atoms, valuation))),
        Satisfiability::Undecided(reason) => Ok(Some(Doubt::Undecided(atoms, reason))),
    }
}

/// The first of the faults that may come under the conditions.
fn fault_there<D: Decider>(
    alloc: Global,
    vars: &VarTable,
    conds: &Atoms,
    faults: &FaultCases,
    decider: &mut D,
) -> Result<Option<Doubt>, AllocError>
    requires conds { Each (λ a. IsOver vars.now (term_of a)) (atoms_view conds.now) }
    requires faults { Each (λ f. Each (λ a. IsOver vars.now (term_of a)) f.conds) (faults_view faults.now) }
    ensures none { IfOk result (λ o. IfNone o (NeverTaken vars.now (atoms_view conds.now) (faults_view faults.now))) }
    ensures doubt { IfOk result (λ o. IfSome o (λ d. DoubtsFault vars.now (atoms_view conds.now) (faults_view faults.now) (doubt_view d))) }
{
    for fault in faults.as_slice() {
        if let Some(doubt) = doubt_there(alloc, vars, conds, &fault.conds, decider)? {
            return Ok(Some(doubt));
        }
    }
    Ok(None)
}

/// The state under the conditions of the result, if there is one.
fn take_good<M: ListedMemory>(
    alloc: Global,
    state: SymState<M>,
    good: Option<GoodCase<Terms>>,
) -> Result<Reading<M>, AllocError>
    ensures { IfOk result (λ r. reading_view r ≡ taken (state_view state) (option_map (good_view terms_view) good)) }
{
    match good {
        Some(good) => {
            let mut state = state;
            require(alloc, &mut state.conds, &good.conds)?;
            Ok(Reading::Values(state, good.result))
        }
        None => Ok(Reading::Never),
    }
}

/// Reads expressions in a state, under a store.
pub(crate) fn read_all<M: ListedMemory, D: Decider>(
    alloc: Global,
    state: SymState<M>,
    store: &SymStore,
    expressions: &Exprs,
    decider: &mut D,
) -> Result<Reading<M>, AllocError>
    requires spelled { IsTrue (are_spelled (exprs_view expressions.now)) }
    requires over { IsOverTable M.terms (state_view state) }
    requires store_over { IsStoreOver (state_view state).vars (store_view store.now) }
    ensures reads { IfOk result (λ r. Reads M.stands M.terms (state_view state) (store_view store.now) (exprs_view expressions.now) (reading_view r)) }
    ensures asked { IfOk result (λ r. ReadingAsks (state_view state).conds (store_view store.now) (exprs_view expressions.now) (reading_view r)) }
{
    let Cases { faults, good } = evaluate_all(alloc, store, expressions)?;
    let conds = state.conds.atoms();
    match fault_there(alloc, &state.vars, conds, &faults, decider)? {
        Some(doubt) => Ok(Reading::Doubted(doubt)),
        None => take_good(alloc, state, good),
    }
}
