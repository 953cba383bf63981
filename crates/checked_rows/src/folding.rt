//! `fold`: a case of the predicate is matched, and a fact stands in its place.
ghost use Rattle.std.specs.Prelude.{◌≡◌, ◌+◌, ◌<◌, ◌^◌, ◌∷◌, ◌++◌, [], map, IfOk, IsTrue, None};
ghost use Rattle.checked_paths.specs.Meaning.{EachWith, IsCheckedOver};
ghost use Rattle.checked_paths.specs.View.{checking_view, entry_view, next_view, nexts_view};
ghost use Rattle.checked_rows.specs.Asked.{AddsIn, AsksAfterIns, HasConds};
ghost use Rattle.checked_rows.specs.Asking.{AsksFolding, AsksOnlyOwn};
ghost use Rattle.checked_rows.specs.Folding.{AreFoldings, EachFolded, FoldsOuts, GoesOnIn, IsFoldedNext, fact_of};
ghost use Rattle.sym_model.specs.Lists.{Each};
ghost use Rattle.sym_model.specs.Terms.{AreEachOver};
ghost use Rattle.sym_evaluation.specs.Meaning.{IsStoreOver};
ghost use Rattle.sym_evaluation.specs.View.{store_view};
ghost use Rattle.sym_states.specs.Meaning.{IsOverTable};
ghost use Rattle.checked_rows.specs.Rows.{AreRowOf, IsExactRowOf};
ghost use Rattle.footprint.specs.Consuming.{CasesMayMatch};
ghost use Rattle.footprint.specs.View.{match_view, matches_view};
ghost use Rattle.gil_syntax.specs.Program.{prog_view};
ghost use Rattle.gil_syntax.specs.Pure.{fold_use};
ghost use Rattle.gil_syntax.specs.View.{exprs_view, pred_use_view};
ghost use Rattle.mem_model.specs.CoreNames.{core_of};
ghost use Rattle.pure_terms.specs.View.{terms_view};
ghost use Rattle.sym_engine.specs.Lawful.{MayAdvance};
ghost use Rattle.sym_paths.specs.View.{frames_view};
ghost use Rattle.sym_states.specs.Producing.{are_spelled};
ghost use Rattle.sym_states.specs.View.{fact_view, state_view};

use crate::names::names_in;
use crate::nexts::{Doubt, doubted, doubted_next, nothing};
use crate::reading::{Reading, read_all};
use crate::states::{path_with, state_of};
use checked_paths::{Checking, Entered, FaultKind, Next, Nexts, follow};
use footprint::{Match, Matches, Matching, fold};
use gil_syntax::{PredUse, Prog, Spec};
use gil_values::{Place, Text};
use mem_model::Core;
use pure_terms::{Decider, Terms};
use sequence::Sequence;
use std::alloc::{AllocError, Global};
use sym_engine::pass;
use sym_evaluation::SymStore;
use sym_model::{ListedMemory, copy_conditions};
use sym_paths::{Satisfiability, ask};
use sym_states::{PredChunk, SymState};

/// The path of a state goes on at the next command, with a fact behind the state's.
fn go_on_with<M: ListedMemory>(
    alloc: Global,
    here: &Place,
    checking: &Checking<M>,
    state: SymState<M>,
    fact: PredChunk,
) -> Result<Next<M>, AllocError>
    requires steps { checking.now.path.steps + 1 < 2 ^ 32 }
    requires next { MayAdvance (frames_view checking.now.path.stack) }
    ensures goes { IfOk result (λ n. GoesOnIn M.stands M.terms (checking_view checking.now) (state_view state)
        ((state_view state).facts ++ fact_view fact ∷ []) (next_view n)) }
    ensures same { IfOk result (λ n. HasConds (state_view state).conds (next_view n)) }
{
    let (path, preds) = path_with(alloc, &checking.path, state)?;
    let mut preds = preds;
    preds.push(fact)?;
    follow(alloc, &preds, &checking.passed, here, pass(path)?)
}

/// What is answered of a state that a match left: its path goes on with the fact, if some valuation meets the conditions.
fn folded_next<M: ListedMemory, D: Decider>(
    alloc: Global,
    here: &Place,
    checking: &Checking<M>,
    state: SymState<M>,
    fact: PredChunk,
    decider: &mut D,
) -> Result<Next<M>, AllocError>
    requires steps { checking.now.path.steps + 1 < 2 ^ 32 }
    requires next { MayAdvance (frames_view checking.now.path.stack) }
    requires over { IsOverTable M.terms (state_view state) }
    ensures folded { IfOk result (λ n. IsFoldedNext M.stands M.terms here.now (checking_view checking.now) (fact_view fact) (state_view state) (next_view n)) }
    ensures same { IfOk result (λ n. HasConds (state_view state).conds (next_view n)) }
{
    match ask(alloc, decider, &state.vars, state.conds.atoms())? {
        Satisfiability::Satisfiable(_) => go_on_with(alloc, here, checking, state, fact),
        Satisfiability::Unsatisfiable => Ok(Next::Over),
        Satisfiability::Undecided(reason) => {
            let conds = copy_conditions(alloc, state.conds.atoms())?;
            let doubt = Doubt::Undecided(conds, reason);
            doubted_next(alloc, FaultKind::FoldBody, here, &checking.path, doubt)
        }
    }
}

/// A fact of these terms.
fn fact_with(alloc: Global, name: &Text, ins: &Terms, outs: &Terms) -> Result<PredChunk, AllocError>
    ensures { IfOk result (λ c. fact_view c ≡ fact_of name.now (terms_view ins.now) (terms_view outs.now)) }
{
    let pred = name.copy(alloc)?;
    let ins = ins.copy(alloc)?;
    let outs = outs.copy(alloc)?;
    Ok(PredChunk { pred, ins, outs })
}

/// The state that a match leaves.
fn state_in<M: ListedMemory>(found: Match<M>) -> SymState<M>
    ensures { state_view result ≡ (match_view found).state }
{
    let Match { state, store: _ } = found;
    state
}

/// Each match goes on with the fact.
fn go_on_folded<M: ListedMemory, D: Decider>(
    alloc: Global,
    here: &Place,
    checking: &Checking<M>,
    name: &Text,
    ins: &Terms,
    outs: &Terms,
    matches: Matches<M>,
    decider: &mut D,
) -> Result<Nexts<M>, AllocError>
    requires steps { checking.now.path.steps + 1 < 2 ^ 32 }
    requires next { MayAdvance (frames_view checking.now.path.stack) }
    requires over { Each (λ k. IsOverTable M.terms k.state) (matches_view matches) }
    ensures folded { IfOk result (λ ns. EachFolded M.stands M.terms here.now (checking_view checking.now)
        (fact_of name.now (terms_view ins.now) (terms_view outs.now)) (matches_view matches) (nexts_view ns)) }
    ensures same { IfOk result (λ ns. EachWith (λ k n. HasConds k.state.conds n) (matches_view matches) (nexts_view ns)) }
{
    let mut nexts = Sequence::new(alloc);
    for found in matches.into_vec() {
        let fact = fact_with(alloc, name, ins, outs)?;
        let state = state_in(found);
        nexts.push(folded_next(alloc, here, checking, state, fact, decider)?)?;
    }
    Ok(nexts)
}

/// Folds in a state in which the arguments have the values of these terms.
fn fold_read<M: ListedMemory, D: Decider>(
    alloc: Global,
    prog: &Prog,
    here: &Place,
    checking: &Checking<M>,
    state: SymState<M>,
    name: &Text,
    ins: &Terms,
    outs: &Terms,
    decider: &mut D,
) -> Result<Nexts<M>, AllocError>
    requires steps { checking.now.path.steps + 1 < 2 ^ 32 }
    requires next { MayAdvance (frames_view checking.now.path.stack) }
    requires over { IsOverTable M.terms (state_view state) }
    requires ins_over { AreEachOver (state_view state).vars (terms_view ins.now) }
    requires outs_over { AreEachOver (state_view state).vars (terms_view outs.now) }
    requires cases { CasesMayMatch M.Local.memory (prog_view prog.now).preds }
    ensures foldings { IfOk result (λ ns. AreFoldings M.stands M.terms M.kept here.now (prog_view prog.now).preds (checking_view checking.now) (state_view state)
        name.now (terms_view ins.now) (terms_view outs.now) (nexts_view ns)) }
    ensures asked { IfOk result (λ ns. Each (AddsIn (AsksFolding (prog_view prog.now).preds name.now (terms_view ins.now) (terms_view outs.now))
        (checking_view checking.now) (state_view state)) (nexts_view ns)) }
{
    match fold(alloc, state, prog, name, ins, outs, decider)? {
        Matching::All(matches) => {
            go_on_folded(alloc, here, checking, name, ins, outs, matches, decider)
        }
        Matching::Unmatched {
            item: _,
            conds,
            valuation,
        } => {
            let doubt = Doubt::Under(conds, valuation);
            doubted(alloc, FaultKind::FoldBody, here, &checking.path, doubt)
        }
        Matching::Unknown { conds, reason } => {
            let doubt = Doubt::Undecided(conds, reason);
            doubted(alloc, FaultKind::FoldBody, here, &checking.path, doubt)
        }
    }
}

/// Reads the outs and folds.
fn fold_outs<M: ListedMemory, D: Decider>(
    alloc: Global,
    prog: &Prog,
    here: &Place,
    checking: &Checking<M>,
    state: SymState<M>,
    names: &SymStore,
    used: &PredUse,
    ins: &Terms,
    decider: &mut D,
) -> Result<Nexts<M>, AllocError>
    requires steps { checking.now.path.steps + 1 < 2 ^ 32 }
    requires next { MayAdvance (frames_view checking.now.path.stack) }
    requires spelled { IsTrue (are_spelled (exprs_view used.now.outs)) }
    requires over { IsOverTable M.terms (state_view state) }
    requires store_over { IsStoreOver (state_view state).vars (store_view names.now) }
    requires ins_over { AreEachOver (state_view state).vars (terms_view ins.now) }
    requires cases { CasesMayMatch M.Local.memory (prog_view prog.now).preds }
    ensures folds { IfOk result (λ ns. FoldsOuts M.stands M.terms M.kept here.now (prog_view prog.now).preds (checking_view checking.now) (store_view names.now)
        (pred_use_view used.now) (state_view state) (terms_view ins.now) (nexts_view ns)) }
    ensures asked { IfOk result (λ ns. Each (AddsIn (AsksAfterIns (AsksFolding (prog_view prog.now).preds) (store_view names.now)
        (pred_use_view used.now) (terms_view ins.now)) (checking_view checking.now) (state_view state)) (nexts_view ns)) }
{
    match read_all(alloc, state, names, &used.outs, decider)? {
        Reading::Values(state, outs) => fold_read(
            alloc, prog, here, checking, state, &used.pred, ins, &outs, decider,
        ),
        Reading::Never => nothing(alloc),
        Reading::Doubted(doubt) => {
            doubted(alloc, FaultKind::FoldBody, here, &checking.path, doubt)
        }
    }
}

/// Folds a predicate that isn't a core one.
fn fold_user<M: ListedMemory, D: Decider>(
    alloc: Global,
    prog: &Prog,
    spec: &Spec,
    entered: &Entered,
    checking: Checking<M>,
    here: &Place,
    used: &PredUse,
    decider: &mut D,
) -> Result<Nexts<M>, AllocError>
    requires user { core_of used.now.pred ≡ None }
    requires over { IsCheckedOver M.terms (entry_view spec.now entered.now) (checking_view checking) }
    requires steps { checking.path.steps + 1 < 2 ^ 32 }
    requires next { MayAdvance (frames_view checking.path.stack) }
    requires ins { IsTrue (are_spelled (exprs_view used.now.ins)) }
    requires outs { IsTrue (are_spelled (exprs_view used.now.outs)) }
    requires cases { CasesMayMatch M.Local.memory (prog_view prog.now).preds }
    ensures next { IfOk result (λ ns. AreRowOf (prog_view prog.now) M.Local.memory M.Local.actions M.stands M.terms
        (entry_view spec.now entered.now) (checking_view checking) (fold_use (pred_use_view used.now)) [] (nexts_view ns)) }
    ensures exact { IfOk result (λ ns. IsExactRowOf (prog_view prog.now) M.Local.memory M.Local.actions M.stands M.terms
        (entry_view spec.now entered.now) (checking_view checking) (fold_use (pred_use_view used.now)) here.now (nexts_view ns)) }
    ensures asked { IfOk result (λ ns. AsksOnlyOwn (prog_view prog.now) (entry_view spec.now entered.now) (checking_view checking)
        (fold_use (pred_use_view used.now)) (nexts_view ns)) }
{
    let _spec = spec;
    let names = names_in(alloc, &checking.path.stack, &entered.variables)?;
    let state = state_of(alloc, &checking.path, &checking.preds, here)?;
    match read_all(alloc, state, &names, &used.ins, decider)? {
        Reading::Values(state, ins) => fold_outs(
            alloc, prog, here, &checking, state, &names, used, &ins, decider,
        ),
        Reading::Never => nothing(alloc),
        Reading::Doubted(doubt) => {
            doubted(alloc, FaultKind::FoldBody, here, &checking.path, doubt)
        }
    }
}

/// The answers at `fold`.
pub fn fold_row<M: ListedMemory, D: Decider>(
    alloc: Global,
    prog: &Prog,
    spec: &Spec,
    entered: &Entered,
    checking: Checking<M>,
    here: &Place,
    used: &PredUse,
    decider: &mut D,
) -> Result<Nexts<M>, AllocError>
    requires over { IsCheckedOver M.terms (entry_view spec.now entered.now) (checking_view checking) }
    requires steps { checking.path.steps + 1 < 2 ^ 32 }
    requires next { MayAdvance (frames_view checking.path.stack) }
    requires ins { IsTrue (are_spelled (exprs_view used.now.ins)) }
    requires outs { IsTrue (are_spelled (exprs_view used.now.outs)) }
    requires cases { CasesMayMatch M.Local.memory (prog_view prog.now).preds }
    ensures next { IfOk result (λ ns. AreRowOf (prog_view prog.now) M.Local.memory M.Local.actions M.stands M.terms
        (entry_view spec.now entered.now) (checking_view checking) (fold_use (pred_use_view used.now)) [] (nexts_view ns)) }
    ensures exact { IfOk result (λ ns. IsExactRowOf (prog_view prog.now) M.Local.memory M.Local.actions M.stands M.terms
        (entry_view spec.now entered.now) (checking_view checking) (fold_use (pred_use_view used.now)) here.now (nexts_view ns)) }
    ensures asked { IfOk result (λ ns. AsksOnlyOwn (prog_view prog.now) (entry_view spec.now entered.now) (checking_view checking)
        (fold_use (pred_use_view used.now)) (nexts_view ns)) }
{
    match Core::from_name(&used.pred) {
        Some(_) => doubted(
            alloc,
            FaultKind::FoldBody,
            here,
            &checking.path,
            Doubt::Always,
        ),
        None => fold_user(alloc, prog, spec, entered, checking, here, used, decider),
    }
}
