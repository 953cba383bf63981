//! The names that an invariant lists.
ghost use Rattle.std.specs.Prelude.{◌≡◌, IfOk, OnOk};
ghost use Rattle.gil_syntax.specs.Valid.{is_among};
ghost use Rattle.invariant_rows.specs.Listed.{AreUnlisted, KeepsUnlisted, have_terms as all_have_terms};
ghost use Rattle.sym_evaluation.specs.View.{binding_view, store_view};

use gil_syntax::Texts;
use gil_values::Text;
use std::alloc::{AllocError, Global};
use sym_evaluation::{Binding, SymStore};

/// Whether a name is listed.
fn is_listed(listed: &Texts, name: &Text) -> bool
    ensures { result ≡ is_among listed.now name.now }
{
    for one in listed.as_slice() {
        if *name == *one {
            return true;
        }
    }
    false
}

/// Whether each listed name has a term.
pub(crate) fn have_terms(store: &SymStore, listed: &Texts) -> bool
    ensures { result ≡ all_have_terms listed.now (store_view store.now) }
{
    for name in listed.as_slice() {
        if store.get(name).is_none() {
            return false;
        }
    }
    true
}

/// Gives a name its term, unless it is listed.
fn keep_unlisted(
    alloc: Global,
    unlisted: &mut SymStore,
    listed: &Texts,
    binding: &Binding,
) -> Result<(), AllocError>
    ensures { OnOk result (KeepsUnlisted listed.now (binding_view binding.now) (store_view unlisted.old) (store_view unlisted.new)) }
{
    if is_listed(listed, &binding.name) {
        return Ok(());
    }
    let name = binding.name.copy(alloc)?;
    let term = binding.term.copy(alloc)?;
    unlisted.set(name, term)
}

/// The terms of the names that aren't listed, those that the store names last before the others.
fn last_first(alloc: Global, store: &SymStore, listed: &Texts) -> Result<SymStore, AllocError>
    ensures { IfOk result (λ s. AreUnlisted listed.now (store_view store.now) (store_view s)) }
{
    let mut unlisted = SymStore::new(alloc);
    let bindings = store.bindings();
    for place in (0..bindings.len()).rev() {
        keep_unlisted(alloc, &mut unlisted, listed, &bindings[place])?;
    }
    Ok(unlisted)
}

/// The terms of the names that aren't listed, in the order in which the store names them.
pub(crate) fn unlisted_of(
    alloc: Global,
    store: &SymStore,
    listed: &Texts,
) -> Result<SymStore, AllocError>
    ensures { IfOk result (λ s. AreUnlisted listed.now (store_view store.now) (store_view s)) }
{
    let turned = last_first(alloc, store, listed)?;
    let kept = last_first(alloc, &turned, listed)?;
    Ok(kept)
}
