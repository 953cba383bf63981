//! Adding the items of an assertion to a state.
ghost use Rattle.std.specs.Prelude.{◌≡◌, ◌∷◌, ◌++◌, [], IfOk};
ghost use Rattle.gil_syntax.specs.View.{item_view, assertion_view};
ghost use Rattle.sym_evaluation.specs.View.{store_view};
ghost use Rattle.sym_model.specs.Lists.{Each};
ghost use Rattle.sym_states.specs.Laws.{CoversAddings, AreAddings, ComeFromItems, StayOverTable, AreKept};
ghost use Rattle.sym_states.specs.Narrowly.{StayNarrow};
ghost use Rattle.sym_states.specs.Plainly.{StayPlain};
ghost use Rattle.sym_states.specs.Producing.{MayAdd, AddsToEach, AddsNext};
ghost use Rattle.sym_states.specs.View.{state_view, states_view, production_view};

use crate::adding::add_item;
use crate::production::{Production, push_all};
use crate::states::{SymState, SymStates};
use gil_syntax::{Assertion, Item};
use std::alloc::{AllocError, Global};
use sym_evaluation::SymStore;
use sym_model::ListedMemory;

/// Adds an item to each state.
fn add_to_each<M: ListedMemory>(
    alloc: Global,
    states: SymStates<M>,
    item: &Item,
    store: &SymStore,
) -> Result<Production<M>, AllocError>
    requires { MayAdd M.Local.memory (item_view item.now) }
    ensures { IfOk result (λ p. AddsToEach M.Local.memory M.stands M.terms M.kept M.keeps_plain M.keeps_narrow (store_view store.now) (item_view item.now)
        (states_view states) (production_view p)) }
{
    let mut production = Production::new(alloc);
    for state in states.into_vec() {
        let added = add_item(alloc, state, item, store)?;
        production = production.joined_with(added)?;
    }
    Ok(production)
}

/// Adds an item to each state to which those before it were added. The states at which a literal form is needed stay as they are.
fn add_next<M: ListedMemory>(
    alloc: Global,
    production: Production<M>,
    item: &Item,
    store: &SymStore,
) -> Result<Production<M>, AllocError>
    requires { MayAdd M.Local.memory (item_view item.now) }
    ensures { IfOk result (λ p. AddsNext M.Local.memory M.stands M.terms M.kept M.keeps_plain M.keeps_narrow (store_view store.now) (item_view item.now)
        (production_view production) (production_view p)) }
{
    let Production { whole, stopped } = production;
    let next = add_to_each(alloc, whole, item, store)?;
    let stopped = push_all(stopped, next.stopped)?;
    Ok(Production {
        whole: next.whole,
        stopped,
    })
}

/// Adds the items of an assertion to a state, under a store that has a term for each name: a pure item is assumed, a core predicate is
/// produced, and any other use is a fact behind the others. Where producing a core predicate needs a literal form, no further item is
/// added. No decider is asked, so that conditions of an answered state may contradict each other.
pub fn produce_items<M: ListedMemory>(
    alloc: Global,
    state: SymState<M>,
    items: &Assertion,
    store: &SymStore,
) -> Result<SymStates<M>, AllocError>
    requires { Each (MayAdd M.Local.memory) (assertion_view items.now) }
    ensures cover { IfOk result (λ rs. CoversAddings M.Local.memory M.stands M.terms (store_view store.now) (assertion_view items.now)
        (state_view state) (states_view rs)) }
    ensures exact { IfOk result (λ rs. AreAddings M.Local.memory M.stands M.terms (store_view store.now) (assertion_view items.now)
        (state_view state) (states_view rs)) }
    ensures origin { IfOk result (λ rs. ComeFromItems M.stands M.terms (store_view store.now) (assertion_view items.now) (state_view state)
        (states_view rs)) }
    ensures over { IfOk result (λ rs. StayOverTable M.terms (store_view store.now) (state_view state) (states_view rs)) }
    ensures kept { M.kept state.memory → IfOk result (λ rs. AreKept M.kept (states_view rs)) }
    ensures plain { M.keeps_plain → IfOk result (λ rs. StayPlain M.Local.memory M.terms (store_view store.now) (assertion_view items.now)
        (state_view state) (states_view rs)) }
    ensures narrow { M.keeps_narrow → IfOk result (λ rs. StayNarrow M.terms (store_view store.now) (assertion_view items.now) (state_view state)
        (states_view rs)) }
{
    let mut production = Production::of_whole(alloc, state)?;
    for item in items.as_slice() {
        let next = add_next(alloc, production, item, store)?;
        production = next;
    }
    let Production { whole, stopped } = production;
    push_all(whole, stopped)
}
