//! Modes: whether each item of each assertion can be read from left to right.
ghost use Rattle.std.specs.Prelude.{◌≡◌, ◌<◌, ℕ, None, Some, MatchOption, IfErr, OnOk, map, slice_get};
ghost use Rattle.std.specs.Option.{option_and_then, option_map};
ghost use Rattle.gil_syntax.specs.Programs.{find_spec};
ghost use Rattle.gil_syntax.specs.View.{spec_view, pred_def_view, command_view, numbered_command_view, assertion_view};
ghost use Rattle.gil_syntax.specs.Program.{prog_view};
ghost use Rattle.assert_logic.specs.First.{IsFirst};
ghost use Rattle.assert_logic.specs.Modes as modes;
ghost use Rattle.assert_logic.specs.Modes.{HasModes, IsNamedModeFault};
ghost use Rattle.assert_logic.specs.ModesView.{scope_view};

use crate::reading::{assertion_fault, given_fault, knows_params};
use crate::scopes::Scope;
use gil_syntax::{Assertion, Assertions, Command, PredDef, Proc, Prog, Spec, Specs};
use mem_model::MemoryName;

/// What is wrong with an item. Of two faults of one item the lower kind is named.
#[derive(Clone, Copy, Debug, PartialEq, Eq)]
pub enum ModeKind {
    /// An in of a use, or a name of a pure item, isn't known when the item is reached.
    In,
    /// An out of a use is neither known throughout nor one unknown name, or an out parameter stays unknown at the end of
    /// a case.
    Out,
    /// A core predicate of another memory.
    Core,
}

/// A place in the program's lists. A procedure is named for one of its logic commands.
#[derive(Clone, Copy, Debug, PartialEq, Eq)]
pub enum ModeItem {
    Spec(usize),
    Pred(usize),
    Proc(usize),
}

/// A fault of modes, the first in the order of the text of the item that it names.
#[derive(Clone, Copy, Debug, PartialEq, Eq, thiserror::Error)]
#[error("an assertion can't be read from left to right")]
pub struct ModeFault {
    pub kind: ModeKind,
    pub item: ModeItem,
}

/// The first fault of the assertions of a list.
fn assertions_fault(
    memory: MemoryName,
    scope: Scope<'_>,
    assertions: &Assertions,
) -> Option<ModeKind>
    ensures { result ≡ modes.first_fault (modes.assertion_fault memory (scope_view scope.entry)) (map assertion_view assertions.now) }
{
    for items in assertions.as_slice() {
        let fault = assertion_fault(memory, scope, items);
        if fault.is_some() {
            return fault;
        }
    }
    None
}

/// The first fault of a specification.
fn spec_fault(memory: MemoryName, spec: &Spec) -> Option<ModeKind>
    ensures { result ≡ modes.spec_fault memory (spec_view spec.now) }
{
    let fault = assertion_fault(memory, Scope::Precondition(spec), &spec.pre);
    if fault.is_some() {
        return fault;
    }
    let fault = assertions_fault(memory, Scope::Postcondition(spec), &spec.posts);
    if fault.is_some() {
        return fault;
    }
    assertions_fault(memory, Scope::Postcondition(spec), &spec.errors)
}

/// The first fault of a case of a predicate.
fn case_fault(memory: MemoryName, pred: &PredDef, items: &Assertion) -> Option<ModeKind>
    ensures { result ≡ modes.case_fault memory (pred_def_view pred.now) (assertion_view items.now) }
{
    let fault = assertion_fault(memory, Scope::Case(pred), items);
    if fault.is_some() {
        return fault;
    }
    if knows_params(Scope::Case(pred), items.as_slice(), pred.outs.as_slice()) {
        None
    } else {
        Some(ModeKind::Out)
    }
}

/// The first fault of a predicate.
fn pred_fault(memory: MemoryName, pred: &PredDef) -> Option<ModeKind>
    ensures { result ≡ modes.pred_fault memory (pred_def_view pred.now) }
{
    for items in pred.cases.as_slice() {
        let fault = case_fault(memory, pred, items);
        if fault.is_some() {
            return fault;
        }
    }
    None
}

/// The first fault of a command, in a procedure that has this specification, or none.
fn command_fault(memory: MemoryName, spec: Option<&Spec>, command: &Command) -> Option<ModeKind>
    ensures { result ≡ modes.command_fault memory (option_map (λ s. spec_view s.now) spec.entry) (command_view command.now) }
{
    let scope = Scope::LogicCommand(spec);
    match command {
        Command::Fold(used) | Command::Unfold(used) => given_fault(memory, scope, used),
        Command::AssertThat(items) | Command::LoopInvariant(_, _, items) => {
            assertion_fault(memory, scope, items)
        }
        _ => None,
    }
}

/// The specification of a procedure, if it has one.
fn spec_of<'a>(specs: &'a Specs, proc: &Proc) -> Option<&'a Spec>
    ensures { option_map (λ s. spec_view s.now) result ≡ find_spec (map spec_view specs.now) proc.now.name }
{
    for spec in specs.as_slice() {
        if spec.name == proc.name {
            return Some(spec);
        }
    }
    None
}

/// The first fault of a procedure, where these are the specifications.
fn proc_fault(memory: MemoryName, specs: &Specs, proc: &Proc) -> Option<ModeKind>
    ensures { result ≡ modes.first_fault
        (λ c. modes.command_fault memory (find_spec (map spec_view specs.now) proc.now.name) c.command)
        (map numbered_command_view proc.now.body) }
{
    let spec = spec_of(specs, proc);
    for numbered in proc.body.as_slice() {
        let fault = command_fault(memory, spec, &numbered.command);
        if fault.is_some() {
            return fault;
        }
    }
    None
}

/// The first specification that has a fault, and the fault.
fn first_in_specs(memory: MemoryName, specs: &[Spec]) -> Option<(usize, ModeKind)>
    ensures { IsFirst (λ i. option_and_then (modes.spec_fault memory) (slice_get (map spec_view specs.now) i)) result }
{
    for (place, spec) in specs.iter().enumerate() {
        if let Some(kind) = spec_fault(memory, spec) {
            return Some((place, kind));
        }
    }
    None
}

/// The first predicate that has a fault, and the fault.
fn first_in_preds(memory: MemoryName, preds: &[PredDef]) -> Option<(usize, ModeKind)>
    ensures { IsFirst (λ i. option_and_then (modes.pred_fault memory) (slice_get (map pred_def_view preds.now) i)) result }
{
    for (place, pred) in preds.iter().enumerate() {
        if let Some(kind) = pred_fault(memory, pred) {
            return Some((place, kind));
        }
    }
    None
}

/// The first procedure that has a fault, and the fault.
fn first_in_procs(memory: MemoryName, prog: &Prog) -> Option<(usize, ModeKind)>
    ensures { IsFirst (λ i. modes.fault_of (prog_view prog.now) memory (ModeItem.Proc i)) result }
{
    for place in 0..prog.proc_count() {
        if let Some(proc) = prog.proc_at(place) {
            if let Some(kind) = proc_fault(memory, prog.specs(), proc) {
                return Some((place, kind));
            }
        }
    }
    None
}

/// Whether every assertion of the program can be read, for this memory, or the first fault: specifications are looked at
/// first, then predicates, then procedures.
pub fn modes(prog: &Prog, memory: MemoryName) -> Result<(), ModeFault>
    ensures ok { OnOk result (HasModes (prog_view prog.now) memory) }
    ensures err { IfErr result (λ e. IsNamedModeFault (prog_view prog.now) memory e.kind e.item) }
{
    if let Some((place, kind)) = first_in_specs(memory, prog.specs().as_slice()) {
        return Err(ModeFault {
            kind,
            item: ModeItem::Spec(place),
        });
    }
    if let Some((place, kind)) = first_in_preds(memory, prog.preds().as_slice()) {
        return Err(ModeFault {
            kind,
            item: ModeItem::Pred(place),
        });
    }
    if let Some((place, kind)) = first_in_procs(memory, prog) {
        return Err(ModeFault {
            kind,
            item: ModeItem::Proc(place),
        });
    }
    Ok(())
}
