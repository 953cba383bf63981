//! Stores: the terms of names.
ghost use Rattle.std.specs.Prelude.{◌≡◌, ◌⊎◌, [], ℕ, List, if◌then◌else◌, Some, None, IfOk, OnOk, OnErr};
ghost use Rattle.std.specs.Option.{option_map};
ghost use Rattle.std.specs.Str.{bytes_eq};
ghost use Rattle.pure_terms.specs.View.{term_view};
ghost use Rattle.sym_evaluation.specs.Extent.{IsWithin};
ghost use Rattle.sym_evaluation.specs.Pure.{term_at, place_at};
ghost use Rattle.sym_evaluation.specs.View.{bindings_view, store_view};

use crate::extent::{DEEPEST_TERM, MOST_TERM_NODES, is_within};
use gil_values::Text;
use pure_terms::Term;
use std::alloc::{AllocError, Global};

/// A name and its term. Contracts see it as its pure data, by `binding_view`.
#[derive(Debug, Drop)]
pub struct Binding {
    pub name: Text,
    pub term: Term,
}

/// The terms of names, each name once. Contracts see it as a list of names with their terms, by `store_view`.
#[derive(Debug, Drop)]
pub struct SymStore {
    bindings: Vec<Binding>,
}

impl SymStore {
    /// The store without terms, which takes no memory.
    pub fn new(alloc: Global) -> SymStore
        ensures { store_view result ≡ [] }
    {
        SymStore {
            bindings: Vec::new(alloc),
        }
    }

    /// The term of a name.
    pub fn get(&self, name: &Text) -> Option<&Term>
        ensures { option_map (λ t. term_view t.now) result ≡ term_at (store_view self.now) name.now }
    {
        for binding in &self.bindings {
            if binding.name == *name {
                return Some(&binding.term);
            }
        }
        None
    }

    /// The names with their terms, in the order in which they were first given.
    pub fn bindings(&self) -> &[Binding]
        ensures { bindings_view result.now ≡ store_view self.now }
    {
        self.bindings.as_slice()
    }

    /// Where the name stands in the list.
    fn place_of(&self, name: &Text) -> Option<usize>
        ensures { result ≡ place_at (store_view self.now) name.now }
    {
        for place in 0..self.bindings.len() {
            if self.bindings[place].name == *name {
                return Some(place);
            }
        }
        None
    }

    /// Gives a name a term that isn't too deep or too large.
    pub fn set(&mut self, name: Text, term: Term) -> Result<(), AllocError>
        ensures ok { OnOk result ((x : List ℕ)
            → term_at (store_view self.new) x ≡ (if bytes_eq name x then Some (term_view term) else term_at (store_view self.old) x)) }
        ensures err { OnErr result (store_view self.new ≡ store_view self.old) }
        ensures within { OnOk result (IsWithin DEEPEST_TERM MOST_TERM_NODES (term_view term)) }
        ensures beyond { OnErr result (¬ (IsWithin DEEPEST_TERM MOST_TERM_NODES (term_view term)) ⊎ (place_at (store_view self.old) name ≡ None)) }
    {
        if !is_within(&term, DEEPEST_TERM, MOST_TERM_NODES) {
            return Err(AllocError);
        }
        match self.place_of(&name) {
            Some(place) => self.bindings[place] = Binding { name, term },
            None => self.bindings.push(Binding { name, term })?,
        }
        Ok(())
    }

    /// An equal store.
    pub fn copy(&self, alloc: Global) -> Result<SymStore, AllocError>
        ensures { IfOk result (λ s. store_view s ≡ store_view self.now) }
    {
        let mut bindings = Vec::with_capacity(alloc, self.bindings.len())?;
        for binding in &self.bindings {
            let name = binding.name.copy(alloc)?;
            let term = binding.term.copy(alloc)?;
            bindings.push(Binding { name, term })?;
        }
        Ok(SymStore { bindings })
    }
}
