//! Unfolding a predicate.
ghost use Rattle.std.specs.Prelude.{◌≡◌, ◌++◌, IfOk, IsSome, IsTrue, List, length, map};
ghost use Rattle.std.specs.Option.{option_map, option_or};
ghost use Rattle.gil_syntax.specs.View.{pred_def_view};
ghost use Rattle.pure_terms.specs.Meaning.{IsOver};
ghost use Rattle.pure_terms.specs.Pure.{PureTerm, term_of};
ghost use Rattle.pure_terms.specs.View.{terms_view, atoms_view};
ghost use Rattle.sym_model.specs.Alternatives.{alternatives_view};
ghost use Rattle.sym_model.specs.Lists.{Each};
ghost use Rattle.sym_model.specs.Terms.{AreEachOver};
ghost use Rattle.sym_model.specs.View.{path_view};
ghost use Rattle.sym_states.specs.Meaning.{IsOverTable};
ghost use Rattle.sym_states.specs.Producing.{MayAdd};
ghost use Rattle.sym_states.specs.View.{state_view};
ghost use Rattle.sym_unfolding.specs.Answering.{ToldOf, ToldOfAll, UnfoldsAt, UnfoldsEach, answer_told};
ghost use Rattle.sym_unfolding.specs.Origins.{UnfoldingComesFrom};
ghost use Rattle.sym_unfolding.specs.Unfolding.{IsUnfolded};
ghost use Rattle.sym_unfolding.specs.View.{cases_view, found_view, told_view, unfolding_view};

use crate::adding::{UnfoldedCases, add_cases, push_all};
use crate::searching::{FoundAt, all_known, search_first};
use crate::taking::take_out;
use gil_syntax::PredDef;
use pure_terms::{Atoms, Decider, Reason, Terms, Valuation, VarTable};
use sequence::Sequence;
use std::alloc::{AllocError, Global};
use sym_matching::{case_store, scope_of};
use sym_model::{Alternatives, ListedMemory, PathCond, copy_conditions};
use sym_paths::{Satisfiability, ask};
use sym_states::SymState;

/// What unfolding comes to. Contracts see it as its pure data, by `unfolding_view`.
#[derive(Debug, Drop)]
pub enum Unfolding<M> {
    /// There is such a fact, and these states are there in its place.
    Unfolded(UnfoldedCases<M>),
    /// Where these conditions are true, which this valuation meets, there is no such fact.
    Unmatched { conds: Atoms, valuation: Valuation },
    /// It isn't decided whether there is one: these are the conditions under which there is none.
    Unknown { conds: Atoms, reason: Reason },
}

/// What is told of conditions that may be met.
#[derive(Debug, Drop)]
pub(crate) enum Told {
    Met { conds: Atoms, valuation: Valuation },
    Unknown { conds: Atoms, reason: Reason },
}

/// The conditions, and then further ones.
fn with_more(alloc: Global, conds: &PathCond, more: &Atoms) -> Result<Atoms, AllocError>
    ensures { IfOk result (λ a. atoms_view a ≡ path_view conds.now ++ atoms_view more.now) }
{
    let mut joined = copy_conditions(alloc, conds.atoms())?;
    for atom in more.as_slice() {
        joined.push(atom.copy(alloc)?)?;
    }
    Ok(joined)
}

/// Whether further conditions may be met.
fn ask_of<D: Decider>(
    alloc: Global,
    vars: &VarTable,
    conds: &PathCond,
    more: &Atoms,
    decider: &mut D,
) -> Result<Option<Told>, AllocError>
    requires conds { Each (λ a. IsOver vars.now (term_of a)) (path_view conds.now) }
    requires more { Each (λ a. IsOver vars.now (term_of a)) (atoms_view more.now) }
    ensures { IfOk result (λ o. ToldOf vars.now (path_view conds.now) (atoms_view more.now) (option_map told_view o)) }
{
    let conds = with_more(alloc, conds, more)?;
    match ask(alloc, decider, vars, &conds)? {
        Satisfiability::Unsatisfiable => Ok(None),
        Satisfiability::Satisfiable(valuation) => Ok(Some(Told::Met { conds, valuation })),
        Satisfiability::Undecided(reason) => Ok(Some(Told::Unknown { conds, reason })),
    }
}

fn is_met(told: &Option<Told>) -> bool
    ensures { IsTrue result → IsSome told.now }
{
    match told {
        Some(Told::Met { .. }) => true,
        Some(Told::Unknown { .. }) | None => false,
    }
}

/// What was told before, or else what is told now.
fn first_told(before: Option<Told>, now: Option<Told>) -> Option<Told>
    ensures { option_map told_view result ≡ option_or (option_map told_view before) (option_map told_view now) }
{
    match before {
        Some(told) => Some(told),
        None => now,
    }
}

/// Whether further conditions of some alternative may be met; that they are comes before that it isn't decided.
fn ask_all<D: Decider>(
    alloc: Global,
    vars: &VarTable,
    conds: &PathCond,
    alternatives: &Alternatives,
    decider: &mut D,
) -> Result<Option<Told>, AllocError>
    requires conds { Each (λ a. IsOver vars.now (term_of a)) (path_view conds.now) }
    requires alternatives { Each (Each (λ a. IsOver vars.now (term_of a))) (alternatives_view alternatives.now) }
    ensures { IfOk result (λ o. ToldOfAll vars.now (path_view conds.now) (alternatives_view alternatives.now) (option_map told_view o)) }
{
    let mut undecided = None;
    for more in alternatives.as_slice() {
        let told = ask_of(alloc, vars, conds, more, decider)?;
        if is_met(&told) {
            return Ok(told);
        }
        undecided = first_told(undecided, told);
    }
    Ok(undecided)
}

/// The cases in place of the fact that was found at a place.
fn unfold_at<M: ListedMemory>(
    alloc: Global,
    state: &SymState<M>,
    pred: &PredDef,
    found: &FoundAt,
) -> Result<UnfoldedCases<M>, AllocError>
    requires { Each (Each (MayAdd M.Local.memory)) (pred_def_view pred.now).cases }
    ensures { IfOk result (λ rs. (ins outs : List PureTerm) → length ins ≡ length (pred_def_view pred.now).ins
        → length outs ≡ length (pred_def_view pred.now).outs
        → UnfoldsAt M.Local.memory M.stands M.terms M.kept (pred_def_view pred.now) ins outs (state_view state.now) (found_view found.now)
        (cases_view rs)) }
{
    let fact = match state.preds.get(found.place) {
        Some(fact) => fact,
        None => return Ok(Sequence::new(alloc)),
    };
    let left = take_out(alloc, state, found)?;
    let scope = scope_of(alloc, pred)?;
    let outs = all_known(alloc, &fact.outs)?;
    let split = case_store(alloc, pred, &fact.ins, &outs)?;
    match &split.found {
        Some(case) => add_cases(alloc, &left, &case.result, &case.conds, &scope, pred),
        None => Ok(Sequence::new(alloc)),
    }
}

/// The cases in place of the fact that was found, wherever it was.
fn unfold_each<M: ListedMemory>(
    alloc: Global,
    state: &SymState<M>,
    pred: &PredDef,
    found: &Sequence<FoundAt>,
) -> Result<UnfoldedCases<M>, AllocError>
    requires { Each (Each (MayAdd M.Local.memory)) (pred_def_view pred.now).cases }
    ensures { IfOk result (λ rs. (ins outs : List PureTerm) → length ins ≡ length (pred_def_view pred.now).ins
        → length outs ≡ length (pred_def_view pred.now).outs
        → UnfoldsEach M.Local.memory M.stands M.terms M.kept (pred_def_view pred.now) ins outs (state_view state.now)
        (map found_view found.now) (cases_view rs)) }
{
    let mut cases = Sequence::new(alloc);
    for one in found.as_slice() {
        let more = unfold_at(alloc, state, pred, one)?;
        cases = push_all(cases, more)?;
    }
    Ok(cases)
}

/// The answer, where there may be no such fact.
fn answer_of<M: Drop>(told: Told) -> Unfolding<M>
    ensures { unfolding_view result ≡ answer_told (told_view told) }
{
    match told {
        Told::Met { conds, valuation } => Unfolding::Unmatched { conds, valuation },
        Told::Unknown { conds, reason } => Unfolding::Unknown { conds, reason },
    }
}

/// Takes the first fact with these ins and outs out, and adds each case of the predicate in its place: its parameters have the terms
/// of the fact, and the other names that stand in the case are new variables. No decider is asked of what the cases add, so that
/// conditions of an answered state may contradict each other.
pub fn unfold<M: ListedMemory, D: Decider>(
    alloc: Global,
    state: SymState<M>,
    pred: &PredDef,
    ins: &Terms,
    outs: &Terms,
    decider: &mut D,
) -> Result<Unfolding<M>, AllocError>
    requires over { IsOverTable M.terms (state_view state) }
    requires ins { length (terms_view ins.now) ≡ length (pred_def_view pred.now).ins }
    requires outs { length (terms_view outs.now) ≡ length (pred_def_view pred.now).outs }
    requires terms_over { AreEachOver state.vars (terms_view ins.now ++ terms_view outs.now) }
    requires addable { Each (Each (MayAdd M.Local.memory)) (pred_def_view pred.now).cases }
    ensures says { IfOk result (λ u. IsUnfolded M.Local.memory M.stands M.terms M.kept (pred_def_view pred.now) (terms_view ins.now)
        (terms_view outs.now) (state_view state) (unfolding_view u)) }
    ensures origin { IfOk result (λ u. UnfoldingComesFrom M.terms (pred_def_view pred.now) (terms_view ins.now) (terms_view outs.now)
        (state_view state) (unfolding_view u)) }
{
    let search = search_first(alloc, &state.preds, &pred.name, ins, outs)?;
    let told = ask_all(alloc, &state.vars, &state.conds, &search.none, decider)?;
    match told {
        Some(told) => Ok(answer_of(told)),
        None => {
            let cases = unfold_each(alloc, &state, pred, &search.found)?;
            Ok(Unfolding::Unfolded(cases))
        }
    }
}
