//! What each command does with the calls in progress.
ghost use Rattle.std.specs.Prelude.{◌≡◌, ℕ, length, ◌+◌, ◌^◌, ◌<◌, List, Some, None, IfOk, OnOk};
ghost use Rattle.gil_values.specs.declared.places.Place.{Place as PurePlace};
ghost use Rattle.gil_values.specs.Pure.{PureValue, boolean};
ghost use Rattle.gil_values.specs.View.{value_view, values_view};
ghost use Rattle.gil_syntax.specs.Pure.{
  PureParts,
  assign as pure_assign,
  ifgoto as pure_ifgoto,
  isym as pure_isym,
  return as pure_return,
  fail as pure_fail,
  throw as pure_throw,
  usym as pure_usym,
  call as pure_call,
};
ghost use Rattle.gil_syntax.specs.Program.{prog_view};
ghost use Rattle.mem_model.specs.Actions.{Actions};
ghost use Rattle.gil_machine.specs.ResolvedView.{resolved_list_view, resolved_view};
ghost use Rattle.gil_machine.specs.ResolvedWhole.{IsResolvedProg};
ghost use Rattle.gil_machine.specs.SlotNames.{name_at};
ghost use Rattle.gil_machine.specs.Standing.{DoesAnywhere, DoesBeside, GrowsByOne, LeadsAnywhere, LeadsTo, place_of, slots_of};
ghost use Rattle.gil_machine.specs.Step.{branch as pure_branch, draw as pure_draw, enter_value, handler_label as pure_handler_label};

use crate::control::Control;
use crate::endings::Ending;
use crate::evaluation::{evaluate, evaluate_all};
use crate::resolved::{Resolved, ResolvedList, ResolvedProg};
use gil_values::{Kind, Value, Values};
use std::alloc::{AllocError, Global};

impl<'r, 'p> Control<'r, 'p> {
    /// `x := e`.
    pub(crate) fn do_assign(
        &mut self,
        alloc: Global,
        slot: usize,
        expression: &Resolved,
        at: u32,
    ) -> Result<Option<Ending>, AllocError>
        requires next { self.old.current.next + 1 < 2 ^ 64 }
        requires placed { slot < length (slots_of self.old) }
        ensures does { IfOk result (λ end. DoesAnywhere (pure_assign (name_at (slots_of self.old) slot) (resolved_view
            (slots_of self.old) expression.now)) (place_of self.old at) self.old end self.new) }
        ensures grows { OnOk result (GrowsByOne self.old self.new) }
    {
        match evaluate(alloc, expression, &self.current.store) {
            Ok(value) => {
                self.assign(slot, value)?;
                Ok(None)
            }
            Err(fault) => Ok(Some(self.fault_ending(alloc, fault, at)?)),
        }
    }

    /// `ifgoto e i`.
    pub(crate) fn do_branch(
        &mut self,
        alloc: Global,
        guard: &Resolved,
        label: &i64,
        at: u32,
    ) -> Result<Option<Ending>, AllocError>
        requires { self.old.current.next + 1 < 2 ^ 64 }
        ensures does { IfOk result (λ end. DoesAnywhere (pure_ifgoto (resolved_view (slots_of self.old) guard.now) label.now)
            (place_of self.old at) self.old end self.new) }
        ensures grows { OnOk result (GrowsByOne self.old self.new) }
    {
        match evaluate(alloc, guard, &self.current.store) {
            Ok(guard) => self.branch(alloc, &guard, label, at),
            Err(fault) => Ok(Some(self.fault_ending(alloc, fault, at)?)),
        }
    }

    /// The side that a guard takes.
    fn branch(
        &mut self,
        alloc: Global,
        guard: &Value,
        label: &i64,
        at: u32,
    ) -> Result<Option<Ending>, AllocError>
        requires { self.old.current.next + 1 < 2 ^ 64 }
        ensures does { IfOk result (λ end. LeadsAnywhere self.old (pure_branch (value_view guard.now) label.now
            (place_of self.old at)) end self.new) }
        ensures grows { OnOk result (GrowsByOne self.old self.new) }
    {
        match guard {
            Value::Bool(holds) => {
                self.take_side(*holds, label);
                Ok(None)
            }
            _ => Ok(Some(self.failure(alloc, "type", at)?)),
        }
    }

    /// The side where the guard holds, or the other.
    pub(crate) fn take_side(&mut self, holds: bool, label: &i64)
        requires { self.old.current.next + 1 < 2 ^ 64 }
        ensures goes { (here : PurePlace) → LeadsAnywhere self.old (pure_branch (boolean holds) label.now here) None self.new }
        ensures grows { GrowsByOne self.old self.new }
    {
        if holds {
            self.jump(label);
        } else {
            self.go_on();
        }
    }

    /// `return e`.
    pub(crate) fn do_return(
        &mut self,
        alloc: Global,
        expression: &Resolved,
        at: u32,
    ) -> Result<Option<Ending>, AllocError>
        ensures does { IfOk result (λ end. DoesAnywhere (pure_return (resolved_view (slots_of self.old) expression.now))
            (place_of self.old at) self.old end self.new) }
        ensures grows { OnOk result (GrowsByOne self.old self.new) }
    {
        match evaluate(alloc, expression, &self.current.store) {
            Ok(value) => self.leave(value),
            Err(fault) => Ok(Some(self.fault_ending(alloc, fault, at)?)),
        }
    }

    /// `fail e`.
    pub(crate) fn do_fail(
        &mut self,
        alloc: Global,
        expression: &Resolved,
        at: u32,
    ) -> Result<Option<Ending>, AllocError>
        ensures does { IfOk result (λ end. DoesAnywhere (pure_fail (resolved_view (slots_of self.old) expression.now))
            (place_of self.old at) self.old end self.new) }
        ensures grows { OnOk result (GrowsByOne self.old self.new) }
    {
        match evaluate(alloc, expression, &self.current.store) {
            Ok(value) => {
                let place = self.place(alloc, at)?;
                Ok(Some(Ending::Failed(value, place)))
            }
            Err(fault) => Ok(Some(self.fault_ending(alloc, fault, at)?)),
        }
    }

    /// `throw e`.
    pub(crate) fn do_throw(
        &mut self,
        alloc: Global,
        expression: &Resolved,
        at: u32,
    ) -> Result<Option<Ending>, AllocError>
        ensures does { IfOk result (λ end. DoesAnywhere (pure_throw (resolved_view (slots_of self.old) expression.now))
            (place_of self.old at) self.old end self.new) }
        ensures grows { OnOk result (GrowsByOne self.old self.new) }
    {
        match evaluate(alloc, expression, &self.current.store) {
            Ok(value) => {
                let place = self.place(alloc, at)?;
                self.throw(value, place)
            }
            Err(fault) => Ok(Some(self.fault_ending(alloc, fault, at)?)),
        }
    }

    /// `x := usym`.
    pub(crate) fn do_symbol(&mut self, slot: usize) -> Result<Option<Ending>, AllocError>
        requires next { self.old.current.next + 1 < 2 ^ 64 }
        requires placed { slot < length (slots_of self.old) }
        requires counter { self.old.counter + 1 < 2 ^ 64 }
        ensures does { IfOk result (λ end. (here : PurePlace) → DoesAnywhere (pure_usym (name_at
            (slots_of self.old) slot)) here self.old end self.new) }
        ensures grows { OnOk result (GrowsByOne self.old self.new) }
    {
        let symbol = self.counter;
        self.counter += 1;
        self.assign(slot, Value::Sym(symbol))?;
        Ok(None)
    }

    /// `x := isym` with a kind: the next input.
    pub(crate) fn do_draw(
        &mut self,
        alloc: Global,
        slot: usize,
        kind: Kind,
        inputs: &Values,
    ) -> Result<Option<Ending>, AllocError>
        requires next { self.old.current.next + 1 < 2 ^ 64 }
        requires placed { slot < length (slots_of self.old) }
        requires draws { self.old.draws + 1 < 2 ^ 32 }
        ensures does { IfOk result (λ end. (p : PureParts) (m : Actions)
            (here : PurePlace) → DoesBeside p m (values_view inputs.now) (pure_isym (name_at
            (slots_of self.old) slot) kind) here self.old end self.new) }
        ensures grows { OnOk result (GrowsByOne self.old self.new) }
    {
        let input = inputs.as_slice().get(self.draws as usize);
        self.draws += 1;
        match input {
            None => Ok(Some(Ending::NoInput(self.draws))),
            Some(input) => self.draw(alloc, slot, kind, input),
        }
    }

    /// The draw of an input.
    fn draw(
        &mut self,
        alloc: Global,
        slot: usize,
        kind: Kind,
        input: &Value,
    ) -> Result<Option<Ending>, AllocError>
        requires next { self.old.current.next + 1 < 2 ^ 64 }
        requires placed { slot < length (slots_of self.old) }
        ensures does { IfOk result (λ end. LeadsAnywhere self.old (pure_draw (Some (value_view input.now)) (name_at
            (slots_of self.old) slot) kind) end self.new) }
        ensures counter { self.new.counter ≡ self.old.counter }
        ensures draws { self.new.draws ≡ self.old.draws }
    {
        if input.kind() == kind {
            let value = input.copy(alloc)?;
            self.assign(slot, value)?;
            Ok(None)
        } else {
            Ok(Some(Ending::BadInput(self.draws)))
        }
    }

    /// `x := e(es)`, where the call has a handler or has none.
    pub(crate) fn do_call(
        &mut self,
        alloc: Global,
        prog: &'r ResolvedProg<'p>,
        slot: usize,
        callee: &Resolved,
        expressions: &ResolvedList,
        handler: Option<i64>,
        at: u32,
    ) -> Result<Option<Ending>, AllocError>
        requires resolved { IsResolvedProg prog.now }
        requires next { self.old.current.next + 1 < 2 ^ 64 }
        requires placed { slot < length (slots_of self.old) }
        ensures does { IfOk result (λ end. (m : Actions) (inputs : List PureValue)
            → DoesBeside (prog_view prog.now.prog.now) m inputs (pure_call (name_at (slots_of self.old) slot) (resolved_view
            (slots_of self.old) callee.now) (resolved_list_view (slots_of self.old) expressions.now) handler)
            (place_of self.old at) self.old end self.new) }
        ensures grows { OnOk result (GrowsByOne self.old self.new) }
    {
        let called = match evaluate(alloc, callee, &self.current.store) {
            Ok(called) => called,
            Err(fault) => return Ok(Some(self.fault_ending(alloc, fault, at)?)),
        };
        let args = match evaluate_all(alloc, expressions, &self.current.store) {
            Ok(args) => args,
            Err(fault) => return Ok(Some(self.fault_ending(alloc, fault, at)?)),
        };
        self.begin(
            alloc,
            prog,
            slot,
            handler_label(handler),
            &called,
            &args,
            at,
        )
    }

    /// The call of a value with arguments.
    fn begin(
        &mut self,
        alloc: Global,
        prog: &'r ResolvedProg<'p>,
        slot: usize,
        handler: Option<usize>,
        called: &Value,
        args: &Values,
        at: u32,
    ) -> Result<Option<Ending>, AllocError>
        requires resolved { IsResolvedProg prog.now }
        requires next { self.old.current.next + 1 < 2 ^ 64 }
        requires placed { slot < length (slots_of self.old) }
        ensures does { IfOk result
            (λ end. LeadsTo (prog_view prog.now.prog.now) self.old
            (enter_value (prog_view prog.now.prog.now) (value_view called.now) (name_at (slots_of self.old) slot) handler
            (values_view args.now) (place_of self.old at)) end self.new) }
        ensures grows { OnOk result (GrowsByOne self.old self.new) }
    {
        let Value::Proc(proc) = called else {
            return Ok(Some(self.failure(alloc, "proc", at)?));
        };
        match prog.proc(proc) {
            None => Ok(Some(self.failure(alloc, "proc", at)?)),
            Some(proc) if proc.proc.params.len() == args.as_slice().len() => {
                self.enter(alloc, slot, handler, proc, args)?;
                Ok(None)
            }
            Some(_) => Ok(Some(self.failure(alloc, "arity", at)?)),
        }
    }
}

/// The index of the command at which a handler stands; one below 0 is none.
fn handler_label(handler: Option<i64>) -> Option<usize>
    ensures { result ≡ pure_handler_label handler }
{
    usize::try_from(handler?).ok()
}
