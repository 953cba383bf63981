//! Matching uses with facts.
ghost use Rattle.std.specs.Prelude.{◌≡◌, ◌<◌, ◌++◌, length, map, remove, IfOk, IsTrue};
ghost use Rattle.std.specs.Option.{option_map};
ghost use Rattle.gil_syntax.specs.View.{exprs_view, pred_use_view};
ghost use Rattle.pure_terms.specs.View.{terms_view};
ghost use Rattle.sym_model.specs.Alternatives.{alternatives_view};
ghost use Rattle.sym_evaluation.specs.View.{good_view, faults_view, store_view};
ghost use Rattle.sym_matching.specs.View.{split_by, outs_view};
ghost use Rattle.sym_states.specs.Producing.{are_spelled};
ghost use Rattle.sym_states.specs.View.{facts_view, state_view, states_view};
ghost use Rattle.footprint.specs.Coming.{AskedComesFrom};
ghost use Rattle.footprint.specs.Spreading.{Gathers};
ghost use Rattle.footprint.specs.Uses.{both_asked, SplitsUse, UseStaysOver, UseStaysPlain, HasAllIns, IsWithoutFact, TakesFact, AreCopiesUnder};
ghost use Rattle.footprint.specs.View.{asked_view, fact_case_view, fact_cases_view, leaves_view};

use crate::choosing::{FactCase, FactCases};
use crate::items::match_outs;
use crate::leaves::{Leaves, join};
use crate::states::copy_under;
use gil_syntax::{Exprs, Params, PredUse};
use pure_terms::Terms;
use sequence::Sequence;
use std::alloc::{AllocError, Global};
use sym_evaluation::{FaultCases, GoodCase, SymStore, evaluate_all};
use sym_matching::{KnownOuts, Split, known_outs};
use sym_model::{Alternatives, ListedMemory, extend};
use sym_paths::plain_expressions_ask_nothing;
use sym_states::{PredChunk, PredChunks, SymState, SymStates};

/// The terms of the ins of a use, and of the outs that are known. Contracts see it as its pure data, by `asked_view`.
#[derive(Debug, Drop)]
pub(crate) struct Asked {
    pub(crate) ins: Terms,
    pub(crate) known: KnownOuts,
}

/// The conditions of each fault.
fn conditions_of(alloc: Global, faults: FaultCases) -> Result<Alternatives, AllocError>
    ensures { IfOk result (λ r. alternatives_view r ≡ map (λ c. c.conds) (faults_view faults)) }
{
    let mut alternatives = Sequence::new(alloc);
    for case in faults.into_vec() {
        alternatives.push(case.conds)?;
    }
    Ok(alternatives)
}

/// Ins and known outs, where both have terms.
fn join_asked(
    alloc: Global,
    ins: Option<GoodCase<Terms>>,
    known: Option<GoodCase<KnownOuts>>,
) -> Result<Option<GoodCase<Asked>>, AllocError>
    ensures { IfOk result (λ o. option_map (good_view asked_view) o
        ≡ both_asked (option_map (good_view terms_view) ins) (option_map (good_view outs_view) known)) }
{
    match (ins, known) {
        (Some(ins), Some(known)) => Ok(Some(GoodCase {
            conds: join(alloc, &ins.conds, &known.conds)?,
            result: Asked {
                ins: ins.result,
                known: known.result,
            },
        })),
        _ => Ok(None),
    }
}

/// The terms of the ins and of the known outs of a use.
pub(crate) fn ask_use(
    alloc: Global,
    store: &SymStore,
    used: &PredUse,
) -> Result<Split<Asked>, AllocError>
    requires ins { IsTrue (are_spelled (pred_use_view used.now).ins) }
    requires outs { IsTrue (are_spelled (pred_use_view used.now).outs) }
    ensures says { IfOk result (λ x. SplitsUse (store_view store.now) (pred_use_view used.now) (split_by asked_view x)) }
    ensures names { IfOk result (λ x. UseStaysOver (store_view store.now) (split_by asked_view x)) }
    ensures plain { IfOk result (λ x. UseStaysPlain (store_view store.now) (pred_use_view used.now) (split_by asked_view x)) }
    ensures ins_number { IfOk result (λ x. HasAllIns (pred_use_view used.now) (option_map (good_view asked_view) x.found)) }
    ensures origin { IfOk result (λ x. AskedComesFrom (store_view store.now) (pred_use_view used.now) (split_by asked_view x)) }
{
    plain_expressions_ask_nothing();
    let ins = evaluate_all(alloc, store, &used.ins)?;
    let known = known_outs(alloc, store, &used.outs)?;
    let faults = conditions_of(alloc, ins.faults)?;
    let found = join_asked(alloc, ins.good, known.found)?;
    let none = extend(alloc, faults, &known.none)?;
    Ok(Split { found, none })
}

/// The facts, and then those of a slice.
fn push_facts(
    alloc: Global,
    facts: PredChunks,
    more: &[PredChunk],
) -> Result<PredChunks, AllocError>
    ensures { IfOk result (λ r. facts_view r ≡ facts_view facts ++ facts_view more.now) }
{
    let mut facts = facts;
    for fact in more {
        facts.push(fact.copy(alloc)?)?;
    }
    Ok(facts)
}

/// The facts but for the one at a place.
fn without(alloc: Global, facts: &PredChunks, place: usize) -> Result<PredChunks, AllocError>
    requires { place < length facts.now }
    ensures { IfOk result (λ r. facts_view r ≡ remove (facts_view facts.now) place) }
{
    let items = facts.as_slice();
    let before = push_facts(alloc, Sequence::new(alloc), &items[..place])?;
    push_facts(alloc, before, &items[place + 1..])
}

/// The state without the fact of a case, under the conditions of the case.
fn without_fact<M: ListedMemory>(
    alloc: Global,
    state: &SymState<M>,
    case: &FactCase,
) -> Result<SymState<M>, AllocError>
    requires { case.now.place < length state.now.preds }
    ensures { IfOk result (λ r. IsWithoutFact M.stands M.terms M.kept (state_view state.now) (fact_case_view case.now) (state_view r)) }
{
    let preds = without(alloc, &state.preds, case.place)?;
    let mut next = copy_under(alloc, state, &case.conds)?;
    next.preds = preds;
    Ok(next)
}

/// Takes the fact of a case out of the state, and matches outs with those of the fact.
fn take_fact<M: ListedMemory>(
    alloc: Global,
    number: usize,
    state: &SymState<M>,
    case: &FactCase,
    scope: &Params,
    outs: &Exprs,
    store: &SymStore,
) -> Result<Leaves<M>, AllocError>
    requires { IsTrue (are_spelled (exprs_view outs.now)) }
    ensures { IfOk result (λ r. TakesFact M.stands M.terms M.kept number scope.now (exprs_view outs.now) (store_view store.now)
        (state_view state.now) (fact_case_view case.now) (leaves_view r)) }
{
    match state.preds.get(case.place) {
        Some(fact) => {
            let next = without_fact(alloc, state, case)?;
            match_outs(alloc, number, next, scope, outs, &fact.outs, store)
        }
        None => Ok(Leaves::new(alloc)),
    }
}

/// Takes the fact of each case out of the state.
pub(crate) fn take_facts<M: ListedMemory>(
    alloc: Global,
    number: usize,
    state: &SymState<M>,
    cases: &FactCases,
    scope: &Params,
    outs: &Exprs,
    store: &SymStore,
) -> Result<Leaves<M>, AllocError>
    requires { IsTrue (are_spelled (exprs_view outs.now)) }
    ensures { IfOk result (λ r. Gathers (TakesFact M.stands M.terms M.kept number scope.now (exprs_view outs.now) (store_view store.now)
        (state_view state.now)) (fact_cases_view cases.now) (leaves_view r)) }
{
    let mut leaves = Leaves::new(alloc);
    for case in cases.as_slice() {
        let more = take_fact(alloc, number, state, case, scope, outs, store)?;
        leaves = leaves.joined_with(more)?;
    }
    Ok(leaves)
}

/// A copy of the state under each of the alternatives.
pub(crate) fn copies_under<M: ListedMemory>(
    alloc: Global,
    state: &SymState<M>,
    alternatives: &Alternatives,
) -> Result<SymStates<M>, AllocError>
    ensures { IfOk result (λ r. AreCopiesUnder M.stands M.terms M.kept (state_view state.now) (alternatives_view alternatives.now)
        (states_view r)) }
{
    let mut copies = Sequence::new(alloc);
    for conds in alternatives.as_slice() {
        let copy = copy_under(alloc, state, conds)?;
        copies.push(copy)?;
    }
    Ok(copies)
}
