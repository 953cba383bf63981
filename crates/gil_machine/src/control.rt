//! The calls in progress, the next symbol and the draws made: a state of the machine without its heap.
ghost use Rattle.std.specs.Prelude.{◌≡◌, ◌+◌, ◌^◌, ◌<◌, slice_get, length, reverse, List, pos, Some, None, IfOk, IfSome, OnOk};
ghost use Rattle.std.specs.Option.{option_map};
ghost use Rattle.gil_values.specs.Characters.{IsText};
ghost use Rattle.gil_values.specs.Pure.{text as pure_text};
ghost use Rattle.gil_values.specs.View.{value_view, values_view};
ghost use Rattle.gil_syntax.specs.Programs.{find_proc};
ghost use Rattle.gil_syntax.specs.Pure.{PureParts};
ghost use Rattle.gil_syntax.specs.View.{proc_view};
ghost use Rattle.gil_machine.specs.Kept.{Keeps};
ghost use Rattle.gil_machine.specs.ResolvedView.{IsOverSlots, resolved_numbered_view};
ghost use Rattle.gil_machine.specs.ResolvedWhole.{IsResolvedProc, proc_slots};
ghost use Rattle.gil_machine.specs.SlotNames.{name_at};
ghost use Rattle.gil_machine.specs.Standing.{Comes, EndsAs, FaultEnds, FrameStands, FramesStand, GrowsByOne, HandlingStands, LeadsAnywhere, Stands, place_of, slots_of};
ghost use Rattle.gil_machine.specs.State.{Frame as PureFrame, State, failed};
ghost use Rattle.gil_machine.specs.Step.{assigned, bind_all, enter, handling, leave, resumed, throw_to, to_label, to_next};
ghost use Rattle.gil_machine.specs.StoreView.{store_view};

use crate::endings::{Ending, failure, fault_ending};
use crate::faults::EvaluationFault;
use crate::resolved::{ResolvedNumbered, ResolvedProc};
use crate::store::Store;
use gil_values::{Place, Value, Values};
use std::alloc::{AllocError, Global};
use std::mem;

/// A call in progress.
#[derive(Drop)]
pub(crate) struct Frame<'r, 'p> {
    pub(crate) proc: &'r ResolvedProc<'p>,
    /// The index of the command at which the call stands.
    pub(crate) next: usize,
    pub(crate) store: Store,
    /// The variable that waits for the result of the call that this one made.
    pub(crate) waits: Option<usize>,
    /// The index of the command at which the handler of that call stands, where it has one.
    pub(crate) handler: Option<usize>,
}

/// The call that runs, those that wait for it, the latest last, the number of the next new symbol, and how many draws
/// were made.
#[derive(Drop)]
pub(crate) struct Control<'r, 'p> {
    pub(crate) current: Frame<'r, 'p>,
    pub(crate) callers: Vec<Frame<'r, 'p>>,
    pub(crate) counter: u64,
    pub(crate) draws: u32,
}

impl<'r, 'p> Control<'r, 'p> {
    /// The command at which the run stands.
    pub(crate) fn command(&self) -> Option<&'r ResolvedNumbered<'p>>
        requires { IsResolvedProc self.now.current.proc.now }
        ensures command { option_map (λ c. resolved_numbered_view (slots_of self.now) c.now) result ≡ slice_get
            (proc_view self.now.current.proc.now.proc.now).body self.now.current.next }
        ensures placed { IfSome result (λ c. IsOverSlots (slots_of self.now) c.now) }
        ensures below { IfSome result (λ _. self.now.current.next + 1 < 2 ^ 64) }
    {
        self.current.proc.command(self.current.next)
    }

    /// The place of a command of the current call.
    pub(crate) fn place(&self, alloc: Global, at: u32) -> Result<Place, AllocError>
        ensures { IfOk result (λ place. place ≡ place_of self.now at) }
    {
        let proc = self.current.proc.proc.name.copy(alloc)?;
        Ok(Place { proc, at })
    }

    /// The failure with a text at a command of the current call.
    pub(crate) fn failure(&self, alloc: Global, text: &str, at: u32) -> Result<Ending, AllocError>
        requires { IsText text.now }
        ensures { IfOk result (λ ending. EndsAs ending (failed (pure_text text.now) (place_of self.now at))) }
    {
        let place = self.place(alloc, at)?;
        failure(alloc, text, place)
    }

    /// How the run ends at a fault of evaluation at a command of the current call.
    pub(crate) fn fault_ending(
        &self,
        alloc: Global,
        fault: EvaluationFault,
        at: u32,
    ) -> Result<Ending, AllocError>
        ensures { IfOk result (λ ending. FaultEnds fault (place_of self.now at) ending) }
    {
        let place = self.place(alloc, at)?;
        fault_ending(alloc, fault, place)
    }

    /// Goes to the next command.
    pub(crate) fn go_on(&mut self)
        requires { self.old.current.next + 1 < 2 ^ 64 }
        ensures goes { LeadsAnywhere self.old to_next None self.new }
        ensures grows { GrowsByOne self.old self.new }
    {
        self.current.next += 1;
    }

    /// Gives a variable a value, and goes to the next command.
    pub(crate) fn assign(&mut self, slot: usize, value: Value) -> Result<(), AllocError>
        requires next { self.old.current.next + 1 < 2 ^ 64 }
        requires placed { slot < length (slots_of self.old) }
        ensures goes { OnOk result (LeadsAnywhere self.old (assigned (name_at (slots_of self.old) slot)
            (value_view value)) None self.new) }
        ensures counter { self.new.counter ≡ self.old.counter }
        ensures draws { self.new.draws ≡ self.old.draws }
    {
        self.current.store.set(slot, value)?;
        self.current.next += 1;
        Ok(())
    }

    /// Goes to the command with an index; to none where the label is below 0.
    pub(crate) fn jump(&mut self, label: &i64)
        ensures goes { LeadsAnywhere self.old (to_label label.now) None self.new }
        ensures grows { GrowsByOne self.old self.new }
    {
        if let Ok(next) = usize::try_from(*label) {
            self.current.next = next;
        }
    }

    /// Begins a call of a procedure, whose result a variable waits for. What it throws goes to the handler, if there is one.
    pub(crate) fn enter(
        &mut self,
        alloc: Global,
        slot: usize,
        handler: Option<usize>,
        proc: &'r ResolvedProc<'p>,
        args: &Values,
    ) -> Result<(), AllocError>
        requires next { self.old.current.next + 1 < 2 ^ 64 }
        requires placed { slot < length (slots_of self.old) }
        requires arity { length (values_view args.now) ≡ length proc.now.proc.now.params }
        requires resolved { IsResolvedProc proc.now }
        ensures goes { OnOk result ((p : PureParts) (s : State) → Stands p self.old s
            → find_proc p.procs proc.now.proc.now.name ≡ Some (proc_view proc.now.proc.now)
            → Comes p None (enter (proc_view proc.now.proc.now) (name_at (slots_of self.old) slot) handler (values_view args.now) s) None
            self.new s.heap) }
        ensures grows { OnOk result (GrowsByOne self.old self.new) }
    {
        let store = store_of(alloc, proc, args)?;
        let first = Frame {
            proc,
            next: 0,
            store,
            waits: None,
            handler: None,
        };
        let mut caller = mem::replace(&mut self.current, first);
        caller.next += 1;
        caller.waits = Some(slot);
        caller.handler = handler;
        self.callers.push(caller)?;
        Ok(())
    }

    /// Ends a call with its value: the variable that waits gets it, and the entry's return ends the run.
    pub(crate) fn leave(&mut self, value: Value) -> Result<Option<Ending>, AllocError>
        ensures goes { IfOk result (λ end. LeadsAnywhere self.old (λ s. leave s.callers (value_view value) s) end self.new) }
        ensures grows { OnOk result (GrowsByOne self.old self.new) }
    {
        match self.callers.pop() {
            None => Ok(Some(Ending::Returned(value))),
            Some(caller) => {
                self.current = resume(caller, value)?;
                Ok(None)
            }
        }
    }

    /// Throws a value: this call ends, and each caller's up to the first whose call has a handler. There the variable that
    /// waits gets the value, and the run goes on at the handler. Where there is none, the run ends.
    pub(crate) fn throw(&mut self, value: Value, place: Place) -> Result<Option<Ending>, AllocError>
        ensures goes { IfOk result (λ end. LeadsAnywhere self.old (λ s. throw_to (handling s.callers) (value_view value) place s) end self.new) }
        ensures grows { OnOk result (GrowsByOne self.old self.new) }
    {
        match take_handler(&mut self.callers) {
            None => Ok(Some(Ending::Threw(value, place))),
            Some((label, caller)) => {
                let mut caller = resume(caller, value)?;
                caller.next = label;
                self.current = caller;
                Ok(None)
            }
        }
    }
}

/// Takes away the callers, the latest first, up to the first whose call has a handler, and gives that one with its handler.
fn take_handler<'r, 'p>(callers: &mut Vec<Frame<'r, 'p>>) -> Option<(usize, Frame<'r, 'p>)>
    ensures { (p : PureParts) (frames : List PureFrame) → FramesStand p (reverse callers.old.items) frames
        → HandlingStands p result (reverse callers.new.items) (handling frames) }
{
    while let Some(caller) = callers.pop() {
        if let Some(label) = caller.handler {
            return Some((label, caller));
        }
    }
    None
}

/// The frame that waits gets the value.
fn resume<'r, 'p>(mut caller: Frame<'r, 'p>, value: Value) -> Result<Frame<'r, 'p>, AllocError>
    ensures { IfOk result (λ frame. (p : PureParts) (g : PureFrame) → FrameStands p caller.entry g
        → FrameStands p frame (resumed g.waits (value_view value) g)) }
{
    match caller.waits {
        Some(slot) => {
            caller.store.set(slot, value)?;
            caller.waits = None;
            caller.handler = None;
            Ok(caller)
        }
        None => Ok(caller),
    }
}

/// The store of a call that begins: the parameters with their arguments.
pub(crate) fn store_of(
    alloc: Global,
    proc: &ResolvedProc,
    args: &Values,
) -> Result<Store, AllocError>
    requires arity { length (values_view args.now) ≡ length proc.now.proc.now.params }
    requires resolved { IsResolvedProc proc.now }
    ensures { IfOk result
        (λ store. Keeps (proc_slots proc.now) (store_view store) (bind_all proc.now.proc.now.params (values_view args.now))) }
{
    let mut store = Store::new(alloc);
    let params = proc.params.as_slice();
    let values = args.as_slice();
    for i in (0..values.len()).rev() {
        let value = values[i].copy(alloc)?;
        store.set(params[i], value)?;
    }
    Ok(store)
}
