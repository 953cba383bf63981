//! A step of a checked path.
ghost use Rattle.std.specs.Prelude.{◌≡◌, ◌<◌, [], Some, IfOk, IsTrue, false};
ghost use Rattle.assert_logic.specs.Modes.{HasModes};
ghost use Rattle.call_rows.specs.Calling.{IsCall};
ghost use Rattle.call_rows.specs.Uses.{AreUsedThere};
ghost use Rattle.checked_paths.specs.Covering.{AreNexts};
ghost use Rattle.checked_paths.specs.Exactness.{AreExact, AddsOnly};
ghost use Rattle.checked_paths.specs.Following.{OfGoing, is_of_machine as is_machine_command};
ghost use Rattle.checked_paths.specs.Meaning.{MayGoOn};
ghost use Rattle.checked_paths.specs.View.{checking_view, entry_view, nexts_view};
ghost use Rattle.checked_rows.specs.Asking.{AsksOnlyOwn, MayAskAt};
ghost use Rattle.checked_rows.specs.Ending.{IsLeaving};
ghost use Rattle.checked_rows.specs.Plainly.{EndsPlainly};
ghost use Rattle.checked_rows.specs.Rows.{AreRowOf, IsExactRowOf};
ghost use Rattle.gil_syntax.specs.Program.{prog_view};
ghost use Rattle.gil_syntax.specs.Programs.{find_spec};
ghost use Rattle.gil_syntax.specs.Pure.{PureCommand};
ghost use Rattle.gil_syntax.specs.View.{command_view, numbered_command_view, spec_view};
ghost use Rattle.plain_specs.specs.Contained.{IsContained};
ghost use Rattle.spec_exploration.specs.Inside.{IsInside, IsNextInside};
ghost use Rattle.spec_exploration.specs.Plain.{HasPlainTerms, IsPlainAt, IsPlainNext, IsPlainSpec, StepsPlainly};
ghost use Rattle.sym_engine.specs.Lawful.{MayAdvance};
ghost use Rattle.sym_model.specs.Lists.{Each};
ghost use Rattle.sym_paths.specs.Meaning.{command_of_path};
ghost use Rattle.sym_paths.specs.Origins.{Follows};
ghost use Rattle.sym_paths.specs.View.{frames_view, path_view};
ghost use Rattle.sym_step.specs.Stepping.{most_steps};

use crate::finding::{command_of, place_of};
use call_rows::call_row;
use checked_paths::{Checking, Entered, Nexts, Stepped, step_machine};
use checked_rows::{assert_row, end_row, fold_row, unfold_row};
use gil_syntax::{Command, NumberedCommand, Prog, Spec};
use gil_values::Place;
use invariant_rows::invariant_row;
use pure_terms::Decider;
use rewrite_book::RuleBook;
use sequence::Sequence;
use std::alloc::{AllocError, Global};
use sym_model::ListedMemory;

/// Whether a command is one of the machine and no call.
fn is_of_machine(command: &Command) -> bool
    ensures { result ≡ is_machine_command (command_view command.now) }
{
    match command {
        Command::Assign(_, _)
        | Command::Act(_, _, _)
        | Command::Usym(_)
        | Command::Isym(_, _)
        | Command::IfGoto(_, _)
        | Command::Return(_)
        | Command::Fail(_)
        | Command::Throw(_)
        | Command::Vanish => true,
        Command::Call(_, _, _, _)
        | Command::Fold(_)
        | Command::Unfold(_)
        | Command::AssertThat(_)
        | Command::LoopInvariant(_, _, _) => false,
    }
}

/// Whether a command is a return or a throw.
fn is_leaving(command: &Command) -> bool
    ensures is { IsTrue result → IsLeaving (command_view command.now) }
    ensures other { result ≡ false → ¬ IsLeaving (command_view command.now) }
{
    match command {
        Command::Return(_) | Command::Throw(_) => true,
        Command::Assign(_, _)
        | Command::Act(_, _, _)
        | Command::Usym(_)
        | Command::Isym(_, _)
        | Command::IfGoto(_, _)
        | Command::Fail(_)
        | Command::Vanish
        | Command::Call(_, _, _, _)
        | Command::Fold(_)
        | Command::Unfold(_)
        | Command::AssertThat(_)
        | Command::LoopInvariant(_, _, _) => false,
    }
}

/// The answers of a checked path at a return or a throw.
fn leave<M: ListedMemory, D: Decider>(
    alloc: Global,
    prog: &Prog,
    rules: &RuleBook,
    spec: &Spec,
    entered: &Entered,
    checking: Checking<M>,
    here: &Place,
    decider: &mut D,
) -> Result<Nexts<M>, AllocError>
    requires found { find_spec (prog_view prog.now).specs (spec_view spec.now).name ≡ Some (spec_view spec.now) }
    requires modes { HasModes (prog_view prog.now) M.Local.memory }
    requires may { MayGoOn (prog_view prog.now) M.terms (entry_view spec.now entered.now) (checking_view checking) }
    requires early { checking.path.steps < most_steps }
    ensures origin { IfOk result (λ ns. Each (OfGoing (Follows (prog_view prog.now) M.Local.actions M.terms (path_view checking.path)))
        (nexts_view ns)) }
    ensures next { IfOk result (λ ns. (command : PureCommand) → IsLeaving command → AreRowOf (prog_view prog.now) M.Local.memory M.Local.actions
        M.stands M.terms (entry_view spec.now entered.now) (checking_view checking) command [] (nexts_view ns)) }
    ensures exact { IfOk result (λ ns. (command : PureCommand) → IsLeaving command → IsExactRowOf (prog_view prog.now) M.Local.memory
        M.Local.actions M.stands M.terms (entry_view spec.now entered.now) (checking_view checking) command here.now (nexts_view ns)) }
    ensures asked { IfOk result (λ ns. (command : PureCommand) → IsLeaving command → AsksOnlyOwn (prog_view prog.now)
        (entry_view spec.now entered.now) (checking_view checking) command (nexts_view ns)) }
    ensures plain { M.keeps_plain → IfOk result (λ ns. EndsPlainly (prog_view prog.now) M.plain (entry_view spec.now entered.now)
        (path_view checking.path) (nexts_view ns)) }
{
    let Some(proc) = prog.proc(&spec.name) else {
        unreachable!();
    };
    end_row(
        alloc, prog, rules, spec, entered, proc, checking, here, decider,
    )
}

/// The answers of a checked path at a command that is no call.
fn step_at<M: ListedMemory, D: Decider>(
    alloc: Global,
    prog: &Prog,
    rules: &RuleBook,
    spec: &Spec,
    entered: &Entered,
    checking: Checking<M>,
    numbered: &NumberedCommand,
    decider: &mut D,
) -> Result<Nexts<M>, AllocError>
    requires found { find_spec (prog_view prog.now).specs (spec_view spec.now).name ≡ Some (spec_view spec.now) }
    requires modes { HasModes (prog_view prog.now) M.Local.memory }
    requires may { MayGoOn (prog_view prog.now) M.terms (entry_view spec.now entered.now) (checking_view checking) }
    requires early { checking.path.steps < most_steps }
    requires no_call { ¬ IsCall (numbered_command_view numbered.now).command }
    requires at { command_of_path (prog_view prog.now) (path_view checking.path) ≡ Some (numbered_command_view numbered.now) }
    requires next { MayAdvance (frames_view checking.path.stack) }
    ensures origin { IsContained (prog_view prog.now) (spec_view spec.now) → IsInside (prog_view prog.now) (spec_view spec.now) (path_view checking.path)
        → IfOk result (λ ns. Each (OfGoing (Follows (prog_view prog.now) M.Local.actions M.terms (path_view checking.path))) (nexts_view ns)) }
    ensures next { IfOk result (λ ns. AreNexts (prog_view prog.now) M.Local.memory M.Local.actions M.stands M.terms
        (entry_view spec.now entered.now) (checking_view checking) [] (nexts_view ns)) }
    ensures exact { IfOk result (λ ns. AreExact (prog_view prog.now) M.Local.memory M.Local.actions M.stands
        (entry_view spec.now entered.now) (checking_view checking) (nexts_view ns)) }
    ensures asked { IfOk result (λ ns. Each (AddsOnly (MayAskAt (prog_view prog.now) (entry_view spec.now entered.now) (checking_view checking))
        (checking_view checking)) (nexts_view ns)) }
    ensures plain { M.keeps_plain → IsPlainSpec (prog_view prog.now) (spec_view spec.now) → HasPlainTerms (entry_view spec.now entered.now)
        → IsInside (prog_view prog.now) (spec_view spec.now) (path_view checking.path)
        → IfOk result (λ ns. StepsPlainly M.plain (spec_view spec.now) (path_view checking.path) (nexts_view ns)) }
{
    let here = place_of(alloc, &checking.path.stack, numbered)?;
    if is_leaving(&numbered.command) {
        return leave(alloc, prog, rules, spec, entered, checking, &here, decider);
    }
    if is_of_machine(&numbered.command) {
        return step_machine(alloc, prog, rules, checking, &here, decider);
    }
    match &numbered.command {
        Command::AssertThat(items) => assert_row(
            alloc, prog, spec, entered, checking, &here, items, decider,
        ),
        Command::Fold(used) => fold_row(alloc, prog, spec, entered, checking, &here, used, decider),
        Command::Unfold(used) => unfold_row(
            alloc, prog, spec, entered, checking, &here, used, decider,
        ),
        Command::LoopInvariant(listed, declared, items) => invariant_row(
            alloc, prog, spec, entered, checking, &here, listed, declared, items, decider,
        ),
        _ => unreachable!(),
    }
}

/// Whether a command is a call.
fn is_call(command: &Command) -> bool
    ensures is { IsTrue result → IsCall (command_view command.now) }
    ensures other { result ≡ false → ¬ IsCall (command_view command.now) }
{
    match command {
        Command::Call(_, _, _, _) => true,
        _ => false,
    }
}

/// What is answered of a checked path at a call, and the specifications that are used.
fn step_call<M: ListedMemory, D: Decider>(
    alloc: Global,
    prog: &Prog,
    rules: &RuleBook,
    spec: &Spec,
    entered: &Entered,
    checking: Checking<M>,
    numbered: &NumberedCommand,
    decider: &mut D,
) -> Result<Stepped<M>, AllocError>
    requires found { find_spec (prog_view prog.now).specs (spec_view spec.now).name ≡ Some (spec_view spec.now) }
    requires modes { HasModes (prog_view prog.now) M.Local.memory }
    requires may { MayGoOn (prog_view prog.now) M.terms (entry_view spec.now entered.now) (checking_view checking) }
    requires early { checking.path.steps < most_steps }
    requires at { command_of_path (prog_view prog.now) (path_view checking.path) ≡ Some (numbered_command_view numbered.now) }
    requires call { IsCall (numbered_command_view numbered.now).command }
    ensures unspecified { IsContained (prog_view prog.now) (spec_view spec.now)
        → IsInside (prog_view prog.now) (spec_view spec.now) (path_view checking.path) → IfOk result (λ s. (s.uses ≡ [])
        × Each (OfGoing (Follows (prog_view prog.now) M.Local.actions M.terms (path_view checking.path))) (nexts_view s.nexts)) }
    ensures next { IfOk result (λ s. AreNexts (prog_view prog.now) M.Local.memory M.Local.actions M.stands M.terms
        (entry_view spec.now entered.now) (checking_view checking) s.uses (nexts_view s.nexts)) }
    ensures exact { IfOk result (λ s. AreExact (prog_view prog.now) M.Local.memory M.Local.actions M.stands
        (entry_view spec.now entered.now) (checking_view checking) (nexts_view s.nexts)) }
    ensures asked { IfOk result (λ s. Each (AddsOnly (MayAskAt (prog_view prog.now) (entry_view spec.now entered.now) (checking_view checking))
        (checking_view checking)) (nexts_view s.nexts)) }
    ensures used { IfOk result (λ s. AreUsedThere (prog_view prog.now) M.Local.actions M.stands (entry_view spec.now entered.now)
        (checking_view checking) s.uses) }
    ensures plain { M.keeps_plain → IsPlainSpec (prog_view prog.now) (spec_view spec.now)
        → IsInside (prog_view prog.now) (spec_view spec.now) (path_view checking.path)
        → IfOk result (λ s. StepsPlainly M.plain (spec_view spec.now) (path_view checking.path) (nexts_view s.nexts)) }
{
    let here = place_of(alloc, &checking.path.stack, numbered)?;
    call_row(alloc, prog, rules, spec, entered, checking, &here, decider)
}

/// What is answered of a step of a checked path of a specification.
pub(crate) fn check_step<M: ListedMemory, D: Decider>(
    alloc: Global,
    prog: &Prog,
    rules: &RuleBook,
    spec: &Spec,
    entered: &Entered,
    checking: Checking<M>,
    decider: &mut D,
) -> Result<Stepped<M>, AllocError>
    requires found { find_spec (prog_view prog.now).specs (spec_view spec.now).name ≡ Some (spec_view spec.now) }
    requires modes { HasModes (prog_view prog.now) M.Local.memory }
    requires may { MayGoOn (prog_view prog.now) M.terms (entry_view spec.now entered.now) (checking_view checking) }
    requires early { checking.path.steps < most_steps }
    ensures inside { IsContained (prog_view prog.now) (spec_view spec.now)
        → IsInside (prog_view prog.now) (spec_view spec.now) (path_view checking.path) → IfOk result (λ s. (s.uses ≡ [])
        × Each (IsNextInside (prog_view prog.now) (spec_view spec.now)) (nexts_view s.nexts)) }
    ensures next { IfOk result (λ s. AreNexts (prog_view prog.now) M.Local.memory M.Local.actions M.stands M.terms
        (entry_view spec.now entered.now) (checking_view checking) s.uses (nexts_view s.nexts)) }
    ensures exact { IfOk result (λ s. AreExact (prog_view prog.now) M.Local.memory M.Local.actions M.stands
        (entry_view spec.now entered.now) (checking_view checking) (nexts_view s.nexts)) }
    ensures asked { IfOk result (λ s. Each (AddsOnly (MayAskAt (prog_view prog.now) (entry_view spec.now entered.now) (checking_view checking))
        (checking_view checking)) (nexts_view s.nexts)) }
    ensures used { IfOk result (λ s. AreUsedThere (prog_view prog.now) M.Local.actions M.stands (entry_view spec.now entered.now)
        (checking_view checking) s.uses) }
    ensures plain { M.keeps_plain → IsPlainSpec (prog_view prog.now) (spec_view spec.now) → HasPlainTerms (entry_view spec.now entered.now)
        → IsInside (prog_view prog.now) (spec_view spec.now) (path_view checking.path)
        → IsPlainAt M.plain (spec_view spec.now) (path_view checking.path)
        → IfOk result (λ s. Each (IsPlainNext M.plain (spec_view spec.now)) (nexts_view s.nexts)) }
{
    let numbered = match command_of(prog, &checking.path.stack) {
        Some(numbered) => numbered,
        None => unreachable!(),
    };
    if is_call(&numbered.command) {
        return step_call(
            alloc, prog, rules, spec, entered, checking, numbered, decider,
        );
    }
    let nexts = step_at(
        alloc, prog, rules, spec, entered, checking, numbered, decider,
    )?;
    let uses = Sequence::new(alloc);
    Ok(Stepped { nexts, uses })
}
