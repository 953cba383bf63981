//! What an action does with the calls in progress and the memory.
ghost use Rattle.std.specs.Prelude.{◌≡◌, ◌+◌, ◌≤◌, ◌^◌, ◌<◌, List, IfOk, OnOk, IsTrue, length};
ghost use Rattle.std.specs.List.{list_all};
ghost use Rattle.gil_values.specs.Pure.{PureValue};
ghost use Rattle.gil_syntax.specs.Pure.{PureParts, act as pure_act};
ghost use Rattle.gil_syntax.specs.WellMade.{is_well_made_expr};
ghost use Rattle.mem_model.specs.View.{outcome_view};
ghost use Rattle.gil_machine.specs.Laws.{handed};
ghost use Rattle.gil_machine.specs.ResolvedView.{resolved_list_view};
ghost use Rattle.gil_machine.specs.SlotNames.{name_at};
ghost use Rattle.gil_machine.specs.Standing.{Does, GrowsByOne, IsAtNumber, IsStanding, LeadsAnywhere, Stands, place_of, slots_of};
ghost use Rattle.gil_machine.specs.State.{State};
ghost use Rattle.gil_machine.specs.Step.{after_action, counted};

use crate::control::Control;
use crate::endings::Ending;
use crate::evaluation::evaluate_all;
use crate::resolved::ResolvedList;
use gil_values::Text;
use mem_model::{LocalMemory, Outcome};
use std::alloc::{AllocError, Global};

impl<'r, 'p> Control<'r, 'p> {
    /// `x := a(es)`: the action on the values of its arguments, with the counter's symbol where it takes one.
    pub(crate) fn do_act<M: LocalMemory>(
        &mut self,
        alloc: Global,
        memory: &mut M,
        slot: usize,
        action: &Text,
        expressions: &ResolvedList,
        at: u32,
    ) -> Result<Option<Ending>, AllocError>
        requires next { self.old.current.next + 1 < 2 ^ 64 }
        requires placed { slot < length (slots_of self.old) }
        requires counter { self.old.counter + 1 < 2 ^ 64 }
        requires made { IsTrue (list_all is_well_made_expr (resolved_list_view (slots_of self.old) expressions.now)) }
        requires standing { (p : PureParts) × IsStanding p M.memory self.old (M.heap memory.old) }
        ensures does { IfOk result (λ end. (p : PureParts) (inputs : List PureValue)
            → Does p M.actions inputs (pure_act (name_at (slots_of self.old) slot) action.now (resolved_list_view
            (slots_of self.old) expressions.now)) (place_of self.old at) self.old
            (M.heap memory.old) end self.new (M.heap memory.new)) }
        ensures at_number { IfOk result (λ end. IsAtNumber end → M.heap memory.new ≡ M.heap memory.old) }
        ensures grows { OnOk result (GrowsByOne self.old self.new) }
    {
        match evaluate_all(alloc, expressions, &self.current.store) {
            Ok(args) => {
                let fresh = self.symbol_for::<M>(action);
                let outcome = memory.act(alloc, action, fresh, &args)?;
                self.settle(alloc, slot, outcome, at)
            }
            Err(fault) => Ok(Some(self.fault_ending(alloc, fault, at)?)),
        }
    }

    /// The counter's symbol, which is counted, where the action takes one.
    fn symbol_for<M: LocalMemory>(&mut self, action: &Text) -> Option<u64>
        requires { self.old.counter + 1 < 2 ^ 64 }
        ensures handed { (p : PureParts) (s : State) → Stands p self.old s → result ≡ handed (M.actions.takes_symbol action.now) s }
        ensures counted { (p : PureParts) (s : State) → Stands p self.old s
            → Stands p self.new (counted (M.actions.takes_symbol action.now) s) }
        ensures grows { GrowsByOne self.old self.new }
        ensures current { self.new.current ≡ self.old.current }
    {
        if M::fresh_for(action) {
            let symbol = self.counter;
            self.counter += 1;
            Some(symbol)
        } else {
            None
        }
    }

    /// What the outcome of an action leads to.
    fn settle(
        &mut self,
        alloc: Global,
        slot: usize,
        outcome: Outcome,
        at: u32,
    ) -> Result<Option<Ending>, AllocError>
        requires next { self.old.current.next + 1 < 2 ^ 64 }
        requires placed { slot < length (slots_of self.old) }
        ensures does { IfOk result (λ end. LeadsAnywhere self.old (after_action (outcome_view outcome) (name_at
            (slots_of self.old) slot) (place_of self.old at)) end self.new) }
        ensures counter { self.new.counter ≡ self.old.counter }
        ensures draws { self.new.draws ≡ self.old.draws }
    {
        match outcome {
            Outcome::Done(value) => {
                self.assign(slot, value)?;
                Ok(None)
            }
            Outcome::Failed(value) => Ok(Some(Ending::Failed(value, self.place(alloc, at)?))),
            Outcome::Miss(_) => Ok(Some(self.failure(alloc, "missing", at)?)),
        }
    }
}
