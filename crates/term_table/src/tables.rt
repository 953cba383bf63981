//! The table.
ghost use Rattle.std.specs.Prelude.{◌≡◌, ◌<◌, ◌==◌, [], length, map, IfOk};
ghost use Rattle.std.specs.List.{All, AllZip};
ghost use Rattle.pure_terms.specs.Pure.{to_list};
ghost use Rattle.pure_terms.specs.View.{term_view};
ghost use Rattle.term_table.specs.Tables.{HasNoRepeats, Keeps, Names, NamesBelow, parts_of, term_at, terms_of, with_parts};

use crate::putting::{Tables, put_term};
use crate::rebuilding::put_rebuilt;
use crate::term_ids::TermId;
use indexmap::IndexSet;
use pure_terms::Term;
use std::alloc::{AllocError, Global};
use std::marker::Model;

/// A table of terms, which contracts see as the list of them.
#[derive(Drop)]
pub struct TermTable {
    tables: Tables,
}

impl Model for TermTable {
    ghost use Rattle.std.specs.Prelude.{List, map};
    ghost use Rattle.std.specs.Coded.{codes};
    ghost use Rattle.pure_terms.specs.contracts.terms.Term as term_rows;
    ghost use Rattle.pure_terms.specs.declared.terms.Term.{Term};
    ghost use Rattle.pure_terms.specs.View.{term_view};
    ghost use Rattle.term_table.specs.Tables.{IsTable};

    ghost Value = { List Term };

    ghost coded = { Prim.hlevel (codes, term_rows.the_row.coded) };

    ghost view = { λ t. t.tables.terms.items };

    ghost invariant = { λ t. IsTable t.tables.nodes.keys (map term_view t.tables.terms.items) };
}

impl TermTable {
    /// The empty table, which takes no memory.
    pub fn new(alloc: Global) -> TermTable
        ensures { result ≡ [] }
    {
        TermTable {
            tables: Tables {
                nodes: IndexSet::new(alloc),
                terms: Vec::new(alloc),
            },
        }
    }

    /// How many terms there are.
    pub fn len(&self) -> usize
        ensures { result ≡ length self.now }
    {
        self.tables.terms.len()
    }

    /// Whether there are none.
    pub fn is_empty(&self) -> bool
        ensures { result ≡ (length self.now == 0) }
    {
        self.tables.terms.is_empty()
    }

    /// The number of a term, which is added with its parts where it isn't there. Each earlier number names what it named.
    pub fn put(&mut self, alloc: Global, term: &Term) -> Result<TermId, AllocError>
        ensures named { IfOk result (λ id. Names (terms_of self.new) id (term_view term.now)) }
        ensures kept { Keeps (terms_of self.old) (terms_of self.new) }
    {
        put_term(alloc, &mut self.tables, term)
    }

    /// The number of the term with the same root as that of `id`, and with these parts in place of its own.
    /// It is added where it isn't there. Each earlier number names what it named.
    pub fn rebuilt(
        &mut self,
        alloc: Global,
        id: TermId,
        parts: &[TermId],
    ) -> Result<TermId, AllocError>
        requires named { id < length self.old }
        requires parts_named { All (λ part. part < length self.old) parts.now }
        requires one_each { length parts.now ≡ length (to_list (parts_of (term_at (terms_of self.old) id))) }
        ensures named { IfOk result (λ new. Names (terms_of self.new) new
            (with_parts (term_at (terms_of self.old) id) (map (term_at (terms_of self.old)) parts.now))) }
        ensures kept { Keeps (terms_of self.old) (terms_of self.new) }
    {
        put_rebuilt(alloc, &mut self.tables, id, parts)
    }

    /// The term of a number.
    pub fn get(&self, id: TermId) -> &Term
        requires { id < length self.now }
        ensures { Names (terms_of self.now) id (term_view result.now) }
    {
        &self.tables.terms[id.place()]
    }

    /// An equal copy of the term of a number.
    pub fn term(&self, alloc: Global, id: TermId) -> Result<Term, AllocError>
        requires { id < length self.now }
        ensures { IfOk result (λ t. Names (terms_of self.now) id (term_view t)) }
    {
        self.tables.terms[id.place()].copy(alloc)
    }

    /// The numbers of the parts of a term, each lower than its own.
    pub fn parts(&self, id: TermId) -> &[TermId]
        requires { id < length self.now }
        ensures { AllZip (NamesBelow (terms_of self.now) id) result.now (to_list (parts_of (term_at (terms_of self.now) id))) }
    {
        match self.tables.nodes.get_index(id.place()) {
            Some(node) => node.parts.as_slice(),
            None => unreachable!(),
        }
    }

    /// The law of numbers: two are equal exactly where their terms are.
    #[tactic(auto, using(crate::proofs::TableLaws::no_repeats))]
    pub fn has_no_repeats(&self)
        ensures { HasNoRepeats (terms_of self.now) }
    {
        let _ = &self.tables;
    }
}
