//! Runs of programs.
ghost use Rattle.std.specs.Prelude.{◌≡◌, ◌+◌, ◌≤◌, ◌^◌, ◌<◌, length, [], Some, MatchOption, IfOk, OnOk, IsTrue};
ghost use Rattle.std.specs.FinMap.{empty};
ghost use Rattle.gil_values.specs.View.{values_view};
ghost use Rattle.gil_syntax.specs.Programs.{find_proc};
ghost use Rattle.gil_syntax.specs.Pure.{PureProc};
ghost use Rattle.gil_syntax.specs.WellMade.{is_well_made_command};
ghost use Rattle.gil_syntax.specs.Program.{prog_view};
ghost use Rattle.mem_model.specs.Heaps.{Heap};
ghost use Rattle.gil_machine.specs.Held.{held_run_of, number_at};
ghost use Rattle.gil_machine.specs.ResolvedView.{AssignsSlot, resolved_command_view};
ghost use Rattle.gil_machine.specs.ResolvedWhole.{IsResolvedProg};
ghost use Rattle.gil_machine.specs.Run.{IsEntry, IsProperStart, start};
ghost use Rattle.gil_machine.specs.Standing.{Comes, Does, GrowsByOne, HasMemory, IsAtNumber, IsEndOf, IsStanding, Stands, place_of, slots_of, unboxed};
ghost use Rattle.gil_machine.specs.State.{State};
ghost use Rattle.gil_machine.specs.Step.{step as pure_step};

use crate::control::{Control, Frame, store_of};
use crate::endings::Ending;
use crate::evaluation::{sum_of, truth_of};
use crate::resolved::{ResolvedCommand, ResolvedProg};
use crate::resolving::resolve_prog;
use gil_syntax::Prog;
use gil_values::{Place, Text, Value, Values};
use mem_model::LocalMemory;
use std::alloc::{AllocError, Global};

/// How a run ends, with the memory that stands then.
#[derive(Drop)]
pub enum End<M> {
    Returned(Value, M),
    /// The value thrown, where no call has a handler, and the place of the command that threw it.
    Threw(Value, Place, M),
    /// The value of the failure, and the place of the command that failed.
    Failed(Value, Place, M),
    Vanished(M),
    /// The bound of steps was reached.
    Cut(M),
    /// The draw with this number, from 1, has no input.
    NoInput(u32, M),
    /// The input of the draw with this number has another kind.
    BadInput(u32, M),
    /// A result at this place leaves 128 bits.
    Number(Place, M),
    /// Want of memory. Nothing is known of the run.
    Memory,
}

/// The end of the run of a procedure on arguments, from a memory and a counter of symbols, with inputs, within a bound
/// of steps.
pub fn run<M: LocalMemory>(
    alloc: Global,
    prog: &Prog,
    proc: &Text,
    args: Values,
    memory: M,
    counter: u64,
    inputs: &Values,
    bound: u32,
) -> End<M>
    requires starts { IsProperStart (prog_view prog.now) M.memory proc.now (values_view args) (M.heap memory) counter }
    requires counter { counter < 2 ^ 63 }
    requires bound { bound ≤ 10000 }
    ensures { IsEndOf M.heap result
        (held_run_of (prog_view prog.now) M.actions proc.now (values_view args) (M.heap memory) counter (values_view inputs.now) bound) }
{
    match resolve_prog(alloc, prog) {
        Ok(resolved) => run_resolved(alloc, &resolved, proc, args, memory, counter, inputs, bound),
        Err(_) => End::Memory,
    }
}

/// The same of a program over slots.
fn run_resolved<M: LocalMemory>(
    alloc: Global,
    prog: &ResolvedProg,
    proc: &Text,
    args: Values,
    memory: M,
    counter: u64,
    inputs: &Values,
    bound: u32,
) -> End<M>
    requires resolved { IsResolvedProg prog.now }
    requires starts { IsProperStart (prog_view prog.now.prog.now) M.memory proc.now (values_view args) (M.heap memory) counter }
    requires counter { counter < 2 ^ 63 }
    requires bound { bound ≤ 10000 }
    ensures { IsEndOf M.heap result
        (held_run_of (prog_view prog.now.prog.now) M.actions proc.now (values_view args) (M.heap memory) counter (values_view inputs.now)
        bound) }
{
    let mut memory = memory;
    let Ok(mut control) = begin(alloc, prog, proc, &args, counter) else {
        return End::Memory;
    };
    for _turn in 0..bound {
        match control.step(alloc, prog, &mut memory, inputs) {
            Ok(None) => {}
            Ok(Some(ending)) => return with_memory(ending, memory),
            Err(_) => return End::Memory,
        }
    }
    End::Cut(memory)
}

/// The end of the run of a procedure without parameters from the empty heap, where the procedure is one.
pub fn run_entry<M: LocalMemory>(
    alloc: Global,
    prog: &Prog,
    entry: &Text,
    inputs: &Values,
    bound: u32,
) -> Option<End<M>>
    requires { bound ≤ 10000 }
    ensures { MatchOption result (¬ IsEntry (prog_view prog.now) entry.now)
        (λ end. IsEntry (prog_view prog.now) entry.now
        × IsEndOf M.heap end (held_run_of (prog_view prog.now) M.actions entry.now [] empty 0 (values_view inputs.now) bound)) }
{
    let Some(0) = prog.arity(entry) else {
        return None;
    };
    let Ok(memory) = M::empty(alloc) else {
        return Some(End::Memory);
    };
    let args = Values::new(alloc);
    Some(run(alloc, prog, entry, args, memory, 0, inputs, bound))
}

/// The calls in progress where a run starts.
fn begin<'r, 'p>(
    alloc: Global,
    prog: &'r ResolvedProg<'p>,
    proc: &Text,
    args: &Values,
    counter: u64,
) -> Result<Control<'r, 'p>, AllocError>
    requires resolved { IsResolvedProg prog.now }
    requires arity { (q : PureProc)
        × ((find_proc (prog_view prog.now.prog.now).procs proc.now ≡ Some q) × (length q.params ≡ length (values_view args.now))) }
    ensures stands { IfOk result (λ control. (h : Heap)
        → Stands (prog_view prog.now.prog.now) control (start (prog_view prog.now.prog.now) proc.now (values_view args.now) h counter)) }
    ensures counter { IfOk result (λ control. control.counter ≡ counter) }
    ensures draws { IfOk result (λ control. control.draws ≡ 0) }
{
    match prog.proc(proc) {
        None => unreachable!(),
        Some(proc) => {
            let store = store_of(alloc, proc, args)?;
            let current = Frame {
                proc,
                next: 0,
                store,
                waits: None,
                handler: None,
            };
            Ok(Control {
                current,
                callers: Vec::new(alloc),
                counter,
                draws: 0,
            })
        }
    }
}

/// An ending behind a pointer, so that a step that goes on hands on little.
fn boxed(alloc: Global, ending: Option<Ending>) -> Result<Option<Box<Ending>>, AllocError>
    ensures { IfOk result (λ end. unboxed end ≡ ending) }
{
    match ending {
        Some(ending) => Ok(Some(Box::new(alloc, ending)?)),
        None => Ok(None),
    }
}

/// An ending with its memory.
fn with_memory<M: LocalMemory>(ending: Box<Ending>, memory: M) -> End<M>
    ensures { HasMemory M.heap ending.value memory result }
{
    match Box::into_inner(ending) {
        Ending::Returned(value) => End::Returned(value, memory),
        Ending::Threw(value, place) => End::Threw(value, place, memory),
        Ending::Failed(value, place) => End::Failed(value, place, memory),
        Ending::Vanished => End::Vanished(memory),
        Ending::NoInput(draw) => End::NoInput(draw, memory),
        Ending::BadInput(draw) => End::BadInput(draw, memory),
        Ending::Number(place) => End::Number(place, memory),
    }
}

impl<'r, 'p> Control<'r, 'p> {
    /// A step.
    fn step<M: LocalMemory>(
        &mut self,
        alloc: Global,
        prog: &'r ResolvedProg<'p>,
        memory: &mut M,
        inputs: &Values,
    ) -> Result<Option<Box<Ending>>, AllocError>
        requires resolved { IsResolvedProg prog.now }
        requires counter { self.old.counter + 1 < 2 ^ 64 }
        requires draws { self.old.draws + 1 < 2 ^ 32 }
        requires standing { IsStanding (prog_view prog.now.prog.now) M.memory self.old (M.heap memory.old) }
        ensures does { IfOk result (λ end. (s : State) → Stands (prog_view prog.now.prog.now) self.old s → s.heap ≡ M.heap memory.old
            → Comes (prog_view prog.now.prog.now) (number_at (prog_view prog.now.prog.now) s)
            (pure_step (prog_view prog.now.prog.now) M.actions (values_view inputs.now) s) (unboxed end) self.new (M.heap memory.new)) }
        ensures at_number { IfOk result (λ end. IsAtNumber (unboxed end) → M.heap memory.new ≡ M.heap memory.old) }
        ensures grows { OnOk result (GrowsByOne self.old self.new) }
    {
        match self.command() {
            None => Ok(None),
            Some(numbered) => {
                self.do_command(alloc, prog, memory, inputs, &numbered.command, numbered.at)
            }
        }
    }

    /// What a command does. Those that only compute with numbers that stand already are done at once.
    #[inline(always)]
    fn do_command<M: LocalMemory>(
        &mut self,
        alloc: Global,
        prog: &'r ResolvedProg<'p>,
        memory: &mut M,
        inputs: &Values,
        command: &'r ResolvedCommand<'p>,
        at: u32,
    ) -> Result<Option<Box<Ending>>, AllocError>
        requires resolved { IsResolvedProg prog.now }
        requires next { self.old.current.next + 1 < 2 ^ 64 }
        requires counter { self.old.counter + 1 < 2 ^ 64 }
        requires draws { self.old.draws + 1 < 2 ^ 32 }
        requires placed { AssignsSlot (slots_of self.old) command.now }
        requires made { IsTrue (is_well_made_command (resolved_command_view (slots_of self.old) command.now)) }
        requires standing { IsStanding (prog_view prog.now.prog.now) M.memory self.old (M.heap memory.old) }
        ensures does { IfOk result
            (λ end. Does (prog_view prog.now.prog.now) M.actions (values_view inputs.now) (resolved_command_view
            (slots_of self.old) command.now) (place_of self.old at) self.old
            (M.heap memory.old) (unboxed end) self.new (M.heap memory.new)) }
        ensures at_number { IfOk result (λ end. IsAtNumber (unboxed end) → M.heap memory.new ≡ M.heap memory.old) }
        ensures grows { OnOk result (GrowsByOne self.old self.new) }
    {
        match command {
            ResolvedCommand::Assign(slot, expression) => {
                match sum_of(expression, &self.current.store) {
                    Some(value) => {
                        self.assign(*slot, value)?;
                        Ok(None)
                    }
                    None => self.do_other_command(alloc, prog, memory, inputs, command, at),
                }
            }
            ResolvedCommand::IfGoto(guard, label) => match truth_of(guard, &self.current.store) {
                Some(holds) => {
                    self.take_side(holds, label);
                    Ok(None)
                }
                None => self.do_other_command(alloc, prog, memory, inputs, command, at),
            },
            _ => self.do_other_command(alloc, prog, memory, inputs, command, at),
        }
    }

    /// What a command does that doesn't only compute with such numbers.
    fn do_other_command<M: LocalMemory>(
        &mut self,
        alloc: Global,
        prog: &'r ResolvedProg<'p>,
        memory: &mut M,
        inputs: &Values,
        command: &'r ResolvedCommand<'p>,
        at: u32,
    ) -> Result<Option<Box<Ending>>, AllocError>
        requires resolved { IsResolvedProg prog.now }
        requires next { self.old.current.next + 1 < 2 ^ 64 }
        requires counter { self.old.counter + 1 < 2 ^ 64 }
        requires draws { self.old.draws + 1 < 2 ^ 32 }
        requires placed { AssignsSlot (slots_of self.old) command.now }
        requires made { IsTrue (is_well_made_command (resolved_command_view (slots_of self.old) command.now)) }
        requires standing { IsStanding (prog_view prog.now.prog.now) M.memory self.old (M.heap memory.old) }
        ensures does { IfOk result
            (λ end. Does (prog_view prog.now.prog.now) M.actions (values_view inputs.now) (resolved_command_view
            (slots_of self.old) command.now) (place_of self.old at) self.old
            (M.heap memory.old) (unboxed end) self.new (M.heap memory.new)) }
        ensures at_number { IfOk result (λ end. IsAtNumber (unboxed end) → M.heap memory.new ≡ M.heap memory.old) }
        ensures grows { OnOk result (GrowsByOne self.old self.new) }
    {
        let ending = self.do_any_command(alloc, prog, memory, inputs, command, at)?;
        boxed(alloc, ending)
    }

    /// What any command does.
    fn do_any_command<M: LocalMemory>(
        &mut self,
        alloc: Global,
        prog: &'r ResolvedProg<'p>,
        memory: &mut M,
        inputs: &Values,
        command: &'r ResolvedCommand<'p>,
        at: u32,
    ) -> Result<Option<Ending>, AllocError>
        requires resolved { IsResolvedProg prog.now }
        requires next { self.old.current.next + 1 < 2 ^ 64 }
        requires counter { self.old.counter + 1 < 2 ^ 64 }
        requires draws { self.old.draws + 1 < 2 ^ 32 }
        requires placed { AssignsSlot (slots_of self.old) command.now }
        requires made { IsTrue (is_well_made_command (resolved_command_view (slots_of self.old) command.now)) }
        requires standing { IsStanding (prog_view prog.now.prog.now) M.memory self.old (M.heap memory.old) }
        ensures does { IfOk result
            (λ end. Does (prog_view prog.now.prog.now) M.actions (values_view inputs.now) (resolved_command_view
            (slots_of self.old) command.now) (place_of self.old at) self.old
            (M.heap memory.old) end self.new (M.heap memory.new)) }
        ensures at_number { IfOk result (λ end. IsAtNumber end → M.heap memory.new ≡ M.heap memory.old) }
        ensures grows { OnOk result (GrowsByOne self.old self.new) }
    {
        match command {
            ResolvedCommand::Assign(slot, expression) => self.do_assign(
                alloc, *slot, expression, at,
            ),
            ResolvedCommand::Call(slot, callee, args, handler) => self.do_call(
                alloc, prog, *slot, callee, args, *handler, at,
            ),
            ResolvedCommand::Act(slot, action, args) => self.do_act(
                alloc, memory, *slot, action, args, at,
            ),
            ResolvedCommand::Usym(slot) => self.do_symbol(*slot),
            ResolvedCommand::Isym(slot, kind) => self.do_draw(alloc, *slot, *kind, inputs),
            ResolvedCommand::IfGoto(guard, label) => self.do_branch(alloc, guard, label, at),
            ResolvedCommand::Return(expression) => self.do_return(alloc, expression, at),
            ResolvedCommand::Fail(expression) => self.do_fail(alloc, expression, at),
            ResolvedCommand::Throw(expression) => self.do_throw(alloc, expression, at),
            ResolvedCommand::Vanish => Ok(Some(Ending::Vanished)),
            ResolvedCommand::Fold(_)
            | ResolvedCommand::Unfold(_)
            | ResolvedCommand::AssertThat(_)
            | ResolvedCommand::LoopInvariant(_, _, _) => {
                self.go_on();
                Ok(None)
            }
        }
    }
}
