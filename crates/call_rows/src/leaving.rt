//! Where a called procedure has ended by its specification.
ghost use Rattle.std.specs.Prelude.{◌≡◌, Some, IfOk};
ghost use Rattle.assert_logic.specs.Modes.{HasModes};
ghost use Rattle.call_rows.specs.Asked.{AsksCompleting};
ghost use Rattle.call_rows.specs.Leaving.{EndsEntry, EndsOver, GoesOnAfter, IsCompleted, MayComplete, with_number};
ghost use Rattle.call_rows.specs.declared.leaving.Completion.TheVariants.{Returns, Throws};
ghost use Rattle.checked_paths.specs.declared.nexts.FaultKind.TheVariants.{CallPrecondition};
ghost use Rattle.checked_paths.specs.View.{checking_view, entry_view, next_view};
ghost use Rattle.checked_rows.specs.Asking.{AddsTo, AsksEntryEnd};
ghost use Rattle.checked_rows.specs.Doubts.{beyond, IsDoubtNext};
ghost use Rattle.checked_rows.specs.States.{with_state};
ghost use Rattle.gil_syntax.specs.Program.{prog_view};
ghost use Rattle.gil_syntax.specs.Programs.{find_spec};
ghost use Rattle.gil_syntax.specs.View.{spec_view};
ghost use Rattle.pure_terms.specs.View.{term_view};
ghost use Rattle.sym_leaving.specs.Leaving.{HasCaller};
ghost use Rattle.sym_paths.specs.View.{frames_view, path_view};
ghost use Rattle.sym_states.specs.View.{facts_view, state_view};

use checked_paths::{Checking, Entered, FaultKind, Next, follow};
use checked_rows::{Doubt, doubted_next, finish, path_with, state_of};
use gil_syntax::{Prog, Spec};
use gil_values::Place;
use pure_terms::{Decider, Reason, Term};
use std::alloc::{AllocError, Global};
use sym_leaving::{Thrown, leave_with, throw_with};
use sym_model::{ListedMemory, copy_conditions};
use sym_paths::{Path, Satisfiability, ask};
use sym_states::{PredChunks, SymState};

/// How a called procedure ends.
#[derive(Clone, Copy, Debug)]
pub(crate) enum Completion {
    Returns,
    Throws,
}

/// The call that waits goes on with what is returned.
fn returned_next<M: ListedMemory>(
    alloc: Global,
    prog: &Prog,
    spec: &Spec,
    entered: &Entered,
    checking: &Checking<M>,
    here: &Place,
    state: SymState<M>,
    term: &Term,
) -> Result<Next<M>, AllocError>
    requires { HasCaller (frames_view checking.now.path.stack) }
    ensures answer { IfOk result (λ n. GoesOnAfter (prog_view prog.now) M.stands M.terms (entry_view spec.now entered.now)
        (checking_view checking.now) here.now Returns (term_view term.now) (state_view state) (next_view n)) }
    ensures asked { IfOk result (λ n. AddsTo (AsksCompleting (prog_view prog.now) (entry_view spec.now entered.now) Returns) (state_view state).conds
        (next_view n)) }
{
    let _prog = prog;
    let _spec = spec;
    let _entered = entered;
    let (path, preds) = path_with(alloc, &checking.path, state)?;
    let path = leave_with(path, term.copy(alloc)?)?;
    follow(alloc, &preds, &checking.passed, here, path)
}

/// What is thrown ends the entry.
fn uncaught_next<M: ListedMemory, D: Decider>(
    alloc: Global,
    prog: &Prog,
    spec: &Spec,
    entered: &Entered,
    here: &Place,
    path: &Path<M>,
    preds: &PredChunks,
    term: &Term,
    decider: &mut D,
) -> Result<Next<M>, AllocError>
    requires found { find_spec (prog_view prog.now).specs (spec_view spec.now).name ≡ Some (spec_view spec.now) }
    requires modes { HasModes (prog_view prog.now) M.Local.memory }
    requires over { EndsOver M.terms (entry_view spec.now entered.now) (term_view term.now) (facts_view preds.now) (path_view path.now) }
    ensures answer { IfOk result (λ n. EndsEntry (prog_view prog.now) M.stands M.terms (entry_view spec.now entered.now) here.now
        (facts_view preds.now) (term_view term.now) (path_view path.now) (next_view n)) }
    ensures asked { IfOk result (λ n. AddsTo (AsksEntryEnd (prog_view prog.now) (entry_view spec.now entered.now) (spec_view spec.now).errors)
        (path_view path.now).conds (next_view n)) }
{
    let Some(proc) = prog.proc(&spec.name) else {
        unreachable!();
    };
    let state = state_of(alloc, path, preds, here)?;
    let errors = &spec.errors;
    finish(
        alloc, prog, spec, entered, proc, state, term, errors, here, path, decider,
    )
}

/// A handler catches what is thrown, or it ends the entry.
fn thrown_next<M: ListedMemory, D: Decider>(
    alloc: Global,
    prog: &Prog,
    spec: &Spec,
    entered: &Entered,
    checking: &Checking<M>,
    here: &Place,
    state: SymState<M>,
    term: &Term,
    decider: &mut D,
) -> Result<Next<M>, AllocError>
    requires found { find_spec (prog_view prog.now).specs (spec_view spec.now).name ≡ Some (spec_view spec.now) }
    requires modes { HasModes (prog_view prog.now) M.Local.memory }
    requires caller { HasCaller (frames_view checking.now.path.stack) }
    requires may { MayComplete M.terms (entry_view spec.now entered.now) (checking_view checking.now).path.given (term_view term.now) (state_view state) }
    ensures answer { IfOk result (λ n. GoesOnAfter (prog_view prog.now) M.stands M.terms (entry_view spec.now entered.now)
        (checking_view checking.now) here.now Throws (term_view term.now) (state_view state) (next_view n)) }
    ensures asked { IfOk result (λ n. AddsTo (AsksCompleting (prog_view prog.now) (entry_view spec.now entered.now) Throws) (state_view state).conds
        (next_view n)) }
{
    let (path, preds) = path_with(alloc, &checking.path, state)?;
    match throw_with(alloc, path, term)? {
        Thrown::Caught(path) => follow(alloc, &preds, &checking.passed, here, path),
        Thrown::Uncaught(path) => uncaught_next(
            alloc, prog, spec, entered, here, &path, &preds, term, decider,
        ),
    }
}

/// The path of a state goes on where the procedure has ended so.
fn next_after<M: ListedMemory, D: Decider>(
    alloc: Global,
    prog: &Prog,
    spec: &Spec,
    entered: &Entered,
    checking: &Checking<M>,
    here: &Place,
    how: Completion,
    state: SymState<M>,
    term: &Term,
    decider: &mut D,
) -> Result<Next<M>, AllocError>
    requires found { find_spec (prog_view prog.now).specs (spec_view spec.now).name ≡ Some (spec_view spec.now) }
    requires modes { HasModes (prog_view prog.now) M.Local.memory }
    requires caller { HasCaller (frames_view checking.now.path.stack) }
    requires may { MayComplete M.terms (entry_view spec.now entered.now) (checking_view checking.now).path.given (term_view term.now) (state_view state) }
    ensures answer { IfOk result (λ n. GoesOnAfter (prog_view prog.now) M.stands M.terms (entry_view spec.now entered.now)
        (checking_view checking.now) here.now how (term_view term.now) (state_view state) (next_view n)) }
    ensures asked { IfOk result (λ n. AddsTo (AsksCompleting (prog_view prog.now) (entry_view spec.now entered.now) how) (state_view state).conds
        (next_view n)) }
{
    match how {
        Completion::Returns => {
            returned_next(alloc, prog, spec, entered, checking, here, state, term)
        }
        Completion::Throws => thrown_next(
            alloc, prog, spec, entered, checking, here, state, term, decider,
        ),
    }
}

/// Whether a state with a choice more is met isn't decided: its conditions are outside the fragment.
fn undecided_next<M: ListedMemory>(
    alloc: Global,
    checking: &Checking<M>,
    here: &Place,
    state: SymState<M>,
    reason: Reason,
) -> Result<Next<M>, AllocError>
    ensures { IfOk result (λ n. IsDoubtNext CallPrecondition here.now (with_state (checking_view checking.now).path (state_view state))
        (beyond (state_view state).conds reason) (next_view n)) }
{
    let conds = copy_conditions(alloc, state.conds.atoms())?;
    let (path, _) = path_with(alloc, &checking.path, state)?;
    let doubt = Doubt::Undecided(conds, reason);
    doubted_next(alloc, FaultKind::CallPrecondition, here, &path, doubt)
}

/// The state with a choice more.
fn choosing<M: Drop>(state: SymState<M>, choice: u64) -> Result<SymState<M>, AllocError>
    ensures { IfOk result (λ s. state_view s ≡ with_number (state_view state) choice) }
{
    let mut state = state;
    state.path.push(choice)?;
    Ok(state)
}

/// What is answered of a state to which a postcondition was added, whose number is a choice.
pub(crate) fn completed_next<M: ListedMemory, D: Decider>(
    alloc: Global,
    prog: &Prog,
    spec: &Spec,
    entered: &Entered,
    checking: &Checking<M>,
    here: &Place,
    how: Completion,
    choice: u64,
    state: SymState<M>,
    term: &Term,
    decider: &mut D,
) -> Result<Next<M>, AllocError>
    requires found { find_spec (prog_view prog.now).specs (spec_view spec.now).name ≡ Some (spec_view spec.now) }
    requires modes { HasModes (prog_view prog.now) M.Local.memory }
    requires caller { HasCaller (frames_view checking.now.path.stack) }
    requires may { MayComplete M.terms (entry_view spec.now entered.now) (checking_view checking.now).path.given (term_view term.now) (state_view state) }
    ensures answer { IfOk result (λ n. IsCompleted (prog_view prog.now) M.stands M.terms (entry_view spec.now entered.now)
        (checking_view checking.now) here.now how choice (term_view term.now) (state_view state) (next_view n)) }
    ensures asked { IfOk result (λ n. AddsTo (AsksCompleting (prog_view prog.now) (entry_view spec.now entered.now) how) (state_view state).conds
        (next_view n)) }
{
    match ask(alloc, decider, &state.vars, state.conds.atoms())? {
        Satisfiability::Satisfiable(_) => {
            let state = choosing(state, choice)?;
            next_after(
                alloc, prog, spec, entered, checking, here, how, state, term, decider,
            )
        }
        Satisfiability::Unsatisfiable => Ok(Next::Over),
        Satisfiability::Undecided(reason) => {
            let state = choosing(state, choice)?;
            undecided_next(alloc, checking, here, state, reason)
        }
    }
}
