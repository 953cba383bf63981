//! `unfold`: a case of the predicate is added in place of a fact.
ghost use Rattle.std.specs.Prelude.{◌≡◌, ◌+◌, ◌<◌, ◌^◌, [], map, IfOk, IsTrue, None, Some};
ghost use Rattle.std.specs.Option.{option_map};
ghost use Rattle.assert_logic.specs.Modes.{HasModes};
ghost use Rattle.checked_paths.specs.Meaning.{EachWith, IsCheckedOver};
ghost use Rattle.checked_paths.specs.View.{checking_view, entry_view, next_view, nexts_view};
ghost use Rattle.checked_rows.specs.Asked.{AddsIn, AsksAfterIns, AsksUnfoldingAny, HasConds};
ghost use Rattle.checked_rows.specs.Asking.{AsksOnlyOwn};
ghost use Rattle.checked_rows.specs.Folding.{GoesOnIn};
ghost use Rattle.checked_rows.specs.Rows.{AreRowOf, IsExactRowOf};
ghost use Rattle.checked_rows.specs.Unfolding.{AreUnfoldings, EachUnfolded, IsUnfoldedNext, IsUndecidedIn, UnfoldsOuts, chosen_case};
ghost use Rattle.footprint.specs.Consuming.{CasesMayMatch};
ghost use Rattle.gil_syntax.specs.Program.{prog_view};
ghost use Rattle.gil_syntax.specs.Programs.{find_pred};
ghost use Rattle.gil_syntax.specs.Pure.{unfold_use};
ghost use Rattle.gil_syntax.specs.View.{exprs_view, pred_def_view, pred_use_view};
ghost use Rattle.mem_model.specs.CoreNames.{core_of};
ghost use Rattle.pure_terms.specs.View.{terms_view};
ghost use Rattle.sym_engine.specs.Lawful.{MayAdvance};
ghost use Rattle.sym_evaluation.specs.Meaning.{IsStoreOver};
ghost use Rattle.sym_evaluation.specs.View.{store_view};
ghost use Rattle.sym_model.specs.Lists.{Each};
ghost use Rattle.sym_model.specs.Terms.{AreEachOver};
ghost use Rattle.sym_paths.specs.View.{frames_view};
ghost use Rattle.sym_states.specs.Meaning.{IsOverTable};
ghost use Rattle.sym_states.specs.Producing.{MayAdd, are_spelled};
ghost use Rattle.sym_states.specs.View.{state_view};
ghost use Rattle.sym_unfolding.specs.Origins.{AsksUnfolding};
ghost use Rattle.sym_unfolding.specs.View.{cases_view};

use crate::names::names_in;
use crate::nexts::{Doubt, doubted, doubted_next, nothing};
use crate::reading::{Reading, read_all};
use crate::states::{path_with, state_of};
use checked_paths::{Checking, Entered, FaultKind, Next, Nexts, follow};
use gil_syntax::{PredDef, PredDefs, PredUse, Prog, Spec};
use gil_values::{Place, Text};
use mem_model::Core;
use pure_terms::{Decider, Reason, Terms};
use sequence::Sequence;
use std::alloc::{AllocError, Global};
use sym_engine::pass;
use sym_evaluation::SymStore;
use sym_model::{ListedMemory, copy_conditions};
use sym_paths::{Satisfiability, ask};
use sym_states::SymState;
use sym_unfolding::{UnfoldedCase, UnfoldedCases, Unfolding, unfold};

/// The program's own predicate of this name.
fn pred_of<'p>(preds: &'p PredDefs, name: &Text) -> Option<&'p PredDef>
    ensures { option_map (λ d. pred_def_view d.now) result ≡ find_pred (map pred_def_view preds.now) name.now }
{
    for pred in preds.as_slice() {
        if pred.name == *name {
            return Some(pred);
        }
    }
    None
}

/// The path of a state goes on at the next command, with the state's facts.
pub fn go_on_in<M: ListedMemory>(
    alloc: Global,
    here: &Place,
    checking: &Checking<M>,
    state: SymState<M>,
) -> Result<Next<M>, AllocError>
    requires steps { checking.now.path.steps + 1 < 2 ^ 32 }
    requires next { MayAdvance (frames_view checking.now.path.stack) }
    ensures goes { IfOk result (λ n. GoesOnIn M.stands M.terms (checking_view checking.now) (state_view state) (state_view state).facts
        (next_view n)) }
    ensures same { IfOk result (λ n. HasConds (state_view state).conds (next_view n)) }
{
    let (path, preds) = path_with(alloc, &checking.path, state)?;
    follow(alloc, &preds, &checking.passed, here, pass(path)?)
}

/// The state, where the number of its case is a choice.
fn with_number<M: ListedMemory>(
    number: usize,
    state: SymState<M>,
) -> Result<SymState<M>, AllocError>
    ensures { IfOk result (λ s. state_view s ≡ chosen_case number (state_view state)) }
{
    let mut state = state;
    state.path.push(number as u64)?;
    Ok(state)
}

/// The answer of a state whose conditions aren't decided, with what the path would be there.
fn undecided_in<M: ListedMemory>(
    alloc: Global,
    here: &Place,
    checking: &Checking<M>,
    state: SymState<M>,
    reason: Reason,
) -> Result<Next<M>, AllocError>
    ensures { IfOk result (λ n. IsUndecidedIn here.now (checking_view checking.now) (state_view state) reason (next_view n)) }
{
    let conds = copy_conditions(alloc, state.conds.atoms())?;
    let (path, _preds) = path_with(alloc, &checking.path, state)?;
    let doubt = Doubt::Undecided(conds, reason);
    doubted_next(alloc, FaultKind::FoldBody, here, &path, doubt)
}

/// What is answered of a state to which the case with this number was added, which is a choice.
fn case_next<M: ListedMemory, D: Decider>(
    alloc: Global,
    here: &Place,
    checking: &Checking<M>,
    number: usize,
    state: SymState<M>,
    decider: &mut D,
) -> Result<Next<M>, AllocError>
    requires steps { checking.now.path.steps + 1 < 2 ^ 32 }
    requires next { MayAdvance (frames_view checking.now.path.stack) }
    requires over { IsOverTable M.terms (state_view state) }
    ensures unfolded { IfOk result (λ n. IsUnfoldedNext M.stands M.terms here.now (checking_view checking.now) number (state_view state) (next_view n)) }
    ensures same { IfOk result (λ n. HasConds (state_view state).conds (next_view n)) }
{
    match ask(alloc, decider, &state.vars, state.conds.atoms())? {
        Satisfiability::Satisfiable(_) => {
            let next = with_number(number, state)?;
            go_on_in(alloc, here, checking, next)
        }
        Satisfiability::Unsatisfiable => Ok(Next::Over),
        Satisfiability::Undecided(reason) => {
            let next = with_number(number, state)?;
            undecided_in(alloc, here, checking, next, reason)
        }
    }
}

/// The state to which a case was added.
fn state_in<M: ListedMemory>(case: UnfoldedCase<M>) -> SymState<M>
    ensures { result ≡ case.state }
{
    let UnfoldedCase { number: _, state } = case;
    state
}

/// What is answered of each of them, in order.
fn each_case<M: ListedMemory, D: Decider>(
    alloc: Global,
    here: &Place,
    checking: &Checking<M>,
    cases: UnfoldedCases<M>,
    decider: &mut D,
) -> Result<Nexts<M>, AllocError>
    requires steps { checking.now.path.steps + 1 < 2 ^ 32 }
    requires next { MayAdvance (frames_view checking.now.path.stack) }
    requires over { Each (λ r. IsOverTable M.terms r.state) (cases_view cases) }
    ensures unfolded { IfOk result (λ ns. EachUnfolded M.stands M.terms here.now (checking_view checking.now) (cases_view cases)
        (nexts_view ns)) }
    ensures same { IfOk result (λ ns. EachWith (λ r n. HasConds r.state.conds n) (cases_view cases) (nexts_view ns)) }
{
    let mut nexts = Sequence::new(alloc);
    for case in cases.into_vec() {
        let number = case.number;
        let state = state_in(case);
        nexts.push(case_next(alloc, here, checking, number, state, decider)?)?;
    }
    Ok(nexts)
}

/// Unfolds in a state in which the arguments have the values of these terms.
fn unfold_read<M: ListedMemory, D: Decider>(
    alloc: Global,
    here: &Place,
    checking: &Checking<M>,
    state: SymState<M>,
    pred: &PredDef,
    ins: &Terms,
    outs: &Terms,
    decider: &mut D,
) -> Result<Nexts<M>, AllocError>
    requires steps { checking.now.path.steps + 1 < 2 ^ 32 }
    requires next { MayAdvance (frames_view checking.now.path.stack) }
    requires over { IsOverTable M.terms (state_view state) }
    requires ins_over { AreEachOver (state_view state).vars (terms_view ins.now) }
    requires outs_over { AreEachOver (state_view state).vars (terms_view outs.now) }
    requires addable { Each (Each (MayAdd M.Local.memory)) (pred_def_view pred.now).cases }
    ensures unfoldings { IfOk result (λ ns. AreUnfoldings M.Local.memory M.stands M.terms M.kept here.now (pred_def_view pred.now)
        (checking_view checking.now) (state_view state) (terms_view ins.now) (terms_view outs.now) (nexts_view ns)) }
    ensures asked { IfOk result (λ ns. Each (AddsIn (AsksUnfolding (pred_def_view pred.now) (terms_view ins.now) (terms_view outs.now)
        (state_view state).facts) (checking_view checking.now) (state_view state)) (nexts_view ns)) }
{
    let fits = ins.len() == pred.ins.len() && outs.len() == pred.outs.len();
    if !fits {
        let doubt = Doubt::Always;
        return doubted(alloc, FaultKind::FoldBody, here, &checking.path, doubt);
    }
    match unfold(alloc, state, pred, ins, outs, decider)? {
        Unfolding::Unfolded(cases) => each_case(alloc, here, checking, cases, decider),
        Unfolding::Unmatched { conds, valuation } => {
            let doubt = Doubt::Under(conds, valuation);
            doubted(alloc, FaultKind::FoldBody, here, &checking.path, doubt)
        }
        Unfolding::Unknown { conds, reason } => {
            let doubt = Doubt::Undecided(conds, reason);
            doubted(alloc, FaultKind::FoldBody, here, &checking.path, doubt)
        }
    }
}

/// Reads the outs and unfolds.
fn unfold_outs<M: ListedMemory, D: Decider>(
    alloc: Global,
    here: &Place,
    checking: &Checking<M>,
    state: SymState<M>,
    names: &SymStore,
    pred: &PredDef,
    used: &PredUse,
    ins: &Terms,
    decider: &mut D,
) -> Result<Nexts<M>, AllocError>
    requires steps { checking.now.path.steps + 1 < 2 ^ 32 }
    requires next { MayAdvance (frames_view checking.now.path.stack) }
    requires spelled { IsTrue (are_spelled (exprs_view used.now.outs)) }
    requires over { IsOverTable M.terms (state_view state) }
    requires store_over { IsStoreOver (state_view state).vars (store_view names.now) }
    requires ins_over { AreEachOver (state_view state).vars (terms_view ins.now) }
    requires addable { Each (Each (MayAdd M.Local.memory)) (pred_def_view pred.now).cases }
    ensures unfolds { IfOk result (λ ns. UnfoldsOuts M.Local.memory M.stands M.terms M.kept here.now (pred_def_view pred.now)
        (checking_view checking.now) (store_view names.now) (pred_use_view used.now) (state_view state) (terms_view ins.now) (nexts_view ns)) }
    ensures asked { IfOk result (λ ns. Each (AddsIn (AsksAfterIns (AsksUnfoldingAny (pred_def_view pred.now)) (store_view names.now)
        (pred_use_view used.now) (terms_view ins.now)) (checking_view checking.now) (state_view state)) (nexts_view ns)) }
{
    match read_all(alloc, state, names, &used.outs, decider)? {
        Reading::Values(state, outs) => {
            unfold_read(alloc, here, checking, state, pred, ins, &outs, decider)
        }
        Reading::Never => nothing(alloc),
        Reading::Doubted(doubt) => {
            doubted(alloc, FaultKind::FoldBody, here, &checking.path, doubt)
        }
    }
}

/// Unfolds a predicate of the program.
fn unfold_own<M: ListedMemory, D: Decider>(
    alloc: Global,
    prog: &Prog,
    spec: &Spec,
    entered: &Entered,
    checking: Checking<M>,
    here: &Place,
    pred: &PredDef,
    used: &PredUse,
    decider: &mut D,
) -> Result<Nexts<M>, AllocError>
    requires user { core_of used.now.pred ≡ None }
    requires found { find_pred (prog_view prog.now).preds used.now.pred ≡ Some (pred_def_view pred.now) }
    requires addable { Each (Each (MayAdd M.Local.memory)) (pred_def_view pred.now).cases }
    requires modes { HasModes (prog_view prog.now) M.Local.memory }
    requires over { IsCheckedOver M.terms (entry_view spec.now entered.now) (checking_view checking) }
    requires steps { checking.path.steps + 1 < 2 ^ 32 }
    requires next { MayAdvance (frames_view checking.path.stack) }
    requires ins { IsTrue (are_spelled (exprs_view used.now.ins)) }
    requires outs { IsTrue (are_spelled (exprs_view used.now.outs)) }
    ensures next { IfOk result (λ ns. AreRowOf (prog_view prog.now) M.Local.memory M.Local.actions M.stands M.terms
        (entry_view spec.now entered.now) (checking_view checking) (unfold_use (pred_use_view used.now)) [] (nexts_view ns)) }
    ensures exact { IfOk result (λ ns. IsExactRowOf (prog_view prog.now) M.Local.memory M.Local.actions M.stands M.terms
        (entry_view spec.now entered.now) (checking_view checking) (unfold_use (pred_use_view used.now)) here.now (nexts_view ns)) }
    ensures asked { IfOk result (λ ns. AsksOnlyOwn (prog_view prog.now) (entry_view spec.now entered.now) (checking_view checking)
        (unfold_use (pred_use_view used.now)) (nexts_view ns)) }
{
    let _prog = prog;
    let _spec = spec;
    let names = names_in(alloc, &checking.path.stack, &entered.variables)?;
    let state = state_of(alloc, &checking.path, &checking.preds, here)?;
    match read_all(alloc, state, &names, &used.ins, decider)? {
        Reading::Values(state, ins) => unfold_outs(
            alloc, here, &checking, state, &names, pred, used, &ins, decider,
        ),
        Reading::Never => nothing(alloc),
        Reading::Doubted(doubt) => {
            doubted(alloc, FaultKind::FoldBody, here, &checking.path, doubt)
        }
    }
}

/// Unfolds a predicate that isn't a core one.
fn unfold_user<M: ListedMemory, D: Decider>(
    alloc: Global,
    prog: &Prog,
    spec: &Spec,
    entered: &Entered,
    checking: Checking<M>,
    here: &Place,
    used: &PredUse,
    decider: &mut D,
) -> Result<Nexts<M>, AllocError>
    requires user { core_of used.now.pred ≡ None }
    requires modes { HasModes (prog_view prog.now) M.Local.memory }
    requires cases { CasesMayMatch M.Local.memory (prog_view prog.now).preds }
    requires over { IsCheckedOver M.terms (entry_view spec.now entered.now) (checking_view checking) }
    requires steps { checking.path.steps + 1 < 2 ^ 32 }
    requires next { MayAdvance (frames_view checking.path.stack) }
    requires ins { IsTrue (are_spelled (exprs_view used.now.ins)) }
    requires outs { IsTrue (are_spelled (exprs_view used.now.outs)) }
    ensures next { IfOk result (λ ns. AreRowOf (prog_view prog.now) M.Local.memory M.Local.actions M.stands M.terms
        (entry_view spec.now entered.now) (checking_view checking) (unfold_use (pred_use_view used.now)) [] (nexts_view ns)) }
    ensures exact { IfOk result (λ ns. IsExactRowOf (prog_view prog.now) M.Local.memory M.Local.actions M.stands M.terms
        (entry_view spec.now entered.now) (checking_view checking) (unfold_use (pred_use_view used.now)) here.now (nexts_view ns)) }
    ensures asked { IfOk result (λ ns. AsksOnlyOwn (prog_view prog.now) (entry_view spec.now entered.now) (checking_view checking)
        (unfold_use (pred_use_view used.now)) (nexts_view ns)) }
{
    match pred_of(prog.preds(), &used.pred) {
        Some(pred) => unfold_own(
            alloc, prog, spec, entered, checking, here, pred, used, decider,
        ),
        None => doubted(
            alloc,
            FaultKind::FoldBody,
            here,
            &checking.path,
            Doubt::Always,
        ),
    }
}

/// The answers at `unfold`.
pub fn unfold_row<M: ListedMemory, D: Decider>(
    alloc: Global,
    prog: &Prog,
    spec: &Spec,
    entered: &Entered,
    checking: Checking<M>,
    here: &Place,
    used: &PredUse,
    decider: &mut D,
) -> Result<Nexts<M>, AllocError>
    requires modes { HasModes (prog_view prog.now) M.Local.memory }
    requires cases { CasesMayMatch M.Local.memory (prog_view prog.now).preds }
    requires over { IsCheckedOver M.terms (entry_view spec.now entered.now) (checking_view checking) }
    requires steps { checking.path.steps + 1 < 2 ^ 32 }
    requires next { MayAdvance (frames_view checking.path.stack) }
    requires ins { IsTrue (are_spelled (exprs_view used.now.ins)) }
    requires outs { IsTrue (are_spelled (exprs_view used.now.outs)) }
    ensures next { IfOk result (λ ns. AreRowOf (prog_view prog.now) M.Local.memory M.Local.actions M.stands M.terms
        (entry_view spec.now entered.now) (checking_view checking) (unfold_use (pred_use_view used.now)) [] (nexts_view ns)) }
    ensures exact { IfOk result (λ ns. IsExactRowOf (prog_view prog.now) M.Local.memory M.Local.actions M.stands M.terms
        (entry_view spec.now entered.now) (checking_view checking) (unfold_use (pred_use_view used.now)) here.now (nexts_view ns)) }
    ensures asked { IfOk result (λ ns. AsksOnlyOwn (prog_view prog.now) (entry_view spec.now entered.now) (checking_view checking)
        (unfold_use (pred_use_view used.now)) (nexts_view ns)) }
{
    match Core::from_name(&used.pred) {
        Some(_) => doubted(
            alloc,
            FaultKind::FoldBody,
            here,
            &checking.path,
            Doubt::Always,
        ),
        None => unfold_user(alloc, prog, spec, entered, checking, here, used, decider),
    }
}
