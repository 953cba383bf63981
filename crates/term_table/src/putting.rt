//! Putting terms into a table, parts first.
ghost use Rattle.std.specs.Prelude.{◌≡◌, ◌<◌, [], ◌∷◌, ◌++◌, List, length, map, IfOk, OnOk, OnErr};
ghost use Rattle.std.specs.List.{AllZip, IsDistinct};
ghost use Rattle.pure_terms.specs.Pure.{PureTerm};
ghost use Rattle.pure_terms.specs.View.{term_view, terms_view};
ghost use Rattle.term_table.specs.declared.nodes.Node.{Node};
ghost use Rattle.term_table.specs.Nodes.{same_node};
ghost use Rattle.term_table.specs.Tables.{IsBuilt, IsTable, Keeps, Names, NamesBelow};

use crate::nodes::{Node, Root};
use crate::term_ids::TermId;
use indexmap::IndexSet;
use pure_terms::{Term, Terms};
use smallvec::SmallVec;
use std::alloc::{AllocError, Global};

/// Nodes in the order in which they were added, and the term of each.
#[derive(Drop)]
pub(crate) struct Tables {
    pub(crate) nodes: IndexSet<Node>,
    pub(crate) terms: Vec<Term>,
}

/// Adds the term of a node at the end.
fn push_copy(alloc: Global, terms: &mut Vec<Term>, term: &Term) -> Result<(), AllocError>
    ensures ok { OnOk result (map term_view terms.new.items ≡ map term_view terms.old.items ++ term_view term.now ∷ []) }
    ensures err { OnErr result (map term_view terms.new.items ≡ map term_view terms.old.items) }
{
    terms.push(term.copy(alloc)?)?;
    Ok(())
}

/// Takes the last node away.
fn take_back(nodes: &mut IndexSet<Node>)
    ensures last { (kept : List Node) (last : Node) → nodes.old.keys ≡ kept ++ last ∷ [] → nodes.new.keys ≡ kept }
    ensures apart { IsDistinct same_node nodes.new.keys }
{
    let _ = nodes.pop();
}

/// The number of a node, which is added where there is none such yet.
pub(crate) fn add_node(
    alloc: Global,
    tables: &mut Tables,
    node: Node,
    term: &Term,
) -> Result<TermId, AllocError>
    requires table { IsTable tables.old.nodes.keys (map term_view tables.old.terms.items) }
    requires built { (us : List PureTerm) × IsBuilt node.root us (term_view term.now)
        × AllZip (NamesBelow (map term_view tables.old.terms.items) (length (map term_view tables.old.terms.items))) node.parts.items us }
    ensures table { IsTable tables.new.nodes.keys (map term_view tables.new.terms.items) }
    ensures kept { Keeps (map term_view tables.old.terms.items) (map term_view tables.new.terms.items) }
    ensures named { IfOk result (λ id. Names (map term_view tables.new.terms.items) id (term_view term.now)) }
{
    let (index, is_new) = tables.nodes.insert_full(node)?;
    let id = TermId::at(index);
    if !is_new {
        return Ok(id);
    }
    match push_copy(alloc, &mut tables.terms, term) {
        Ok(()) => Ok(id),
        Err(_) => {
            take_back(&mut tables.nodes);
            Err(AllocError)
        }
    }
}

/// The number of a term, which is added with its parts where it isn't there.
#[cycle(put)]
pub(crate) fn put_term(
    alloc: Global,
    tables: &mut Tables,
    term: &Term,
) -> Result<TermId, AllocError>
    requires table { IsTable tables.old.nodes.keys (map term_view tables.old.terms.items) }
    ensures table { IsTable tables.new.nodes.keys (map term_view tables.new.terms.items) }
    ensures kept { Keeps (map term_view tables.old.terms.items) (map term_view tables.new.terms.items) }
    ensures named { IfOk result (λ id. Names (map term_view tables.new.terms.items) id (term_view term.now)) }
{
    let mut parts: SmallVec<TermId, 2> = SmallVec::new(alloc);
    match term {
        Term::Lit(literal) => {
            let root = Root::Lit(literal.copy(alloc)?);
            add_node(alloc, tables, Node { root, parts }, term)
        }
        Term::Var(variable) => {
            let root = Root::Var(*variable);
            add_node(alloc, tables, Node { root, parts }, term)
        }
        Term::List(terms) => {
            let parts = put_terms(alloc, tables, terms)?;
            let root = Root::List;
            add_node(alloc, tables, Node { root, parts }, term)
        }
        Term::Op1(op, operand) => {
            parts.push(put_term(alloc, tables, operand)?)?;
            let root = Root::Op1(*op);
            add_node(alloc, tables, Node { root, parts }, term)
        }
        Term::Op2(op, left, right) => {
            let left = put_term(alloc, tables, left)?;
            let right = put_term(alloc, tables, right)?;
            parts.push(left)?;
            parts.push(right)?;
            let root = Root::Op2(*op);
            add_node(alloc, tables, Node { root, parts }, term)
        }
    }
}

/// The numbers of terms.
#[cycle(put)]
fn put_terms(
    alloc: Global,
    tables: &mut Tables,
    terms: &Terms,
) -> Result<SmallVec<TermId, 2>, AllocError>
    requires table { IsTable tables.old.nodes.keys (map term_view tables.old.terms.items) }
    ensures table { IsTable tables.new.nodes.keys (map term_view tables.new.terms.items) }
    ensures kept { Keeps (map term_view tables.old.terms.items) (map term_view tables.new.terms.items) }
    ensures named { IfOk result (λ ids. AllZip (Names (map term_view tables.new.terms.items)) ids.items (terms_view terms.now)) }
{
    let mut ids: SmallVec<TermId, 2> = SmallVec::new(alloc);
    for term in terms.as_slice() {
        ids.push(put_term(alloc, tables, term)?)?;
    }
    Ok(ids)
}
