//! Stores of terms beside each other.
ghost use Rattle.std.specs.Prelude.{◌≡◌, ℕ, List, IfOk, OnOk};
ghost use Rattle.std.specs.Option.{option_or};
ghost use Rattle.sym_evaluation.specs.Pure.{term_at};
ghost use Rattle.sym_evaluation.specs.View.{binding_view, store_view};
ghost use Rattle.sym_states.specs.Stores.{AddsBinding};

use std::alloc::{AllocError, Global};
use sym_evaluation::{Binding, SymStore};

/// Gives a name the term of a binding, unless it has one.
fn add_binding(alloc: Global, store: SymStore, binding: &Binding) -> Result<SymStore, AllocError>
    ensures { IfOk result (λ s. AddsBinding (binding_view binding.now) (store_view store) (store_view s)) }
{
    if store.get(&binding.name).is_some() {
        return Ok(store);
    }
    let mut store = store;
    store.set(binding.name.copy(alloc)?, binding.term.copy(alloc)?)?;
    Ok(store)
}

/// The terms of the first store, and for names that have none there those of the second one.
pub fn beside(alloc: Global, first: SymStore, second: &SymStore) -> Result<SymStore, AllocError>
    ensures { IfOk result (λ both. (x : List ℕ)
        → term_at (store_view both) x ≡ option_or (term_at (store_view first) x) (term_at (store_view second.now) x)) }
{
    let mut both = first;
    for binding in second.bindings() {
        both = add_binding(alloc, both, binding)?;
    }
    Ok(both)
}
