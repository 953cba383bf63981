//! Terms that get other parts.
ghost use Rattle.std.specs.Prelude.{◌≡◌, ◌<◌, length, map, IfOk};
ghost use Rattle.std.specs.List.{All};
ghost use Rattle.pure_terms.specs.Pure.{to_list};
ghost use Rattle.pure_terms.specs.View.{term_view, terms_view};
ghost use Rattle.term_table.specs.Tables.{IsTable, Keeps, Names, parts_of, term_at, with_parts};

use crate::nodes::{Node, root_of};
use crate::putting::{Tables, add_node};
use crate::term_ids::TermId;
use pure_terms::{Term, Terms};
use smallvec::SmallVec;
use std::alloc::{AllocError, Global};
use std::rc::Rc;

/// Copies of the named terms.
fn copied(alloc: Global, terms: &[Term], parts: &[TermId]) -> Result<Terms, AllocError>
    requires { All (λ part. part < length terms.now) parts.now }
    ensures { IfOk result (λ list. terms_view list ≡ map (term_at (map term_view terms.now)) parts.now) }
{
    let mut list = Terms::new(alloc);
    for part in parts {
        let term = terms[part.place()].copy(alloc)?;
        list.push(term)?;
    }
    Ok(list)
}

/// A copy of the named term, to be an operand.
#[tactic(auto, using(crate::proofs::RebuildingLaws::term_read))]
fn operand(alloc: Global, terms: &[Term], part: TermId) -> Result<Rc<Term>, AllocError>
    requires { part < length terms.now }
    ensures { IfOk result (λ term. term_view term.value ≡ term_at (map term_view terms.now) part) }
{
    let term = terms[part.place()].copy(alloc)?;
    Ok(Rc::new(alloc, term)?)
}

/// A term with the named terms as its parts.
fn with_named_parts(
    alloc: Global,
    terms: &[Term],
    term: &Term,
    parts: &[TermId],
) -> Result<Term, AllocError>
    requires named { All (λ part. part < length terms.now) parts.now }
    requires one_each { length parts.now ≡ length (to_list (parts_of (term_view term.now))) }
    ensures { IfOk result (λ t. term_view t ≡ with_parts (term_view term.now) (map (term_at (map term_view terms.now)) parts.now)) }
{
    match term {
        Term::Lit(literal) => Ok(Term::Lit(literal.copy(alloc)?)),
        Term::Var(variable) => Ok(Term::Var(*variable)),
        Term::List(_) => Ok(Term::List(copied(alloc, terms, parts)?)),
        Term::Op1(op, _) => {
            let part = parts[0];
            Ok(Term::Op1(*op, operand(alloc, terms, part)?))
        }
        Term::Op2(op, _, _) => {
            let first = parts[0];
            let second = parts[1];
            let left = operand(alloc, terms, first)?;
            let right = operand(alloc, terms, second)?;
            Ok(Term::Op2(*op, left, right))
        }
    }
}

/// The number of a named term with other parts.
pub(crate) fn put_rebuilt(
    alloc: Global,
    tables: &mut Tables,
    id: TermId,
    parts: &[TermId],
) -> Result<TermId, AllocError>
    requires table { IsTable tables.old.nodes.keys (map term_view tables.old.terms.items) }
    requires named { id < length tables.old.terms.items }
    requires parts_named { All (λ part. part < length tables.old.terms.items) parts.now }
    requires one_each { length parts.now ≡ length (to_list (parts_of (term_at (map term_view tables.old.terms.items) id))) }
    ensures table { IsTable tables.new.nodes.keys (map term_view tables.new.terms.items) }
    ensures kept { Keeps (map term_view tables.old.terms.items) (map term_view tables.new.terms.items) }
    ensures named { IfOk result (λ new. Names (map term_view tables.new.terms.items) new
        (with_parts (term_at (map term_view tables.old.terms.items) id) (map (term_at (map term_view tables.old.terms.items)) parts.now))) }
{
    let terms = tables.terms.as_slice();
    let term = with_named_parts(alloc, terms, &terms[id.place()], parts)?;
    let root = root_of(alloc, &term)?;
    let parts = SmallVec::from_slice(alloc, parts)?;
    add_node(alloc, tables, Node { root, parts }, &term)
}
