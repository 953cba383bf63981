//! The numbers of equal terms, and of terms that get other parts.
use crate::{TermId, TermTable};
use gil_values::BinOp;
use pure_terms::{Literal, Sort, Term, Var};
use std::alloc::{AllocError, Global};
use std::rc::Rc;

fn int_variable(number: u64) -> Term {
    Term::Var(Var {
        number,
        sort: Sort::Int,
    })
}

fn sum(alloc: Global, left: Term, right: Term) -> Result<Term, AllocError> {
    Ok(Term::Op2(BinOp::Add, Rc::new(alloc, left)?, Rc::new(alloc, right)?))
}

/// Whether a number names a term, however the term is asked for.
fn names(alloc: Global, table: &TermTable, id: TermId, term: &Term) -> Result<bool, AllocError> {
    Ok(id.place() < table.len() && *table.get(id) == *term && table.term(alloc, id)? == *term)
}

/// Whether a number names a term with two equal parts.
fn has_equal_parts(table: &TermTable, id: TermId) -> bool {
    if id.place() >= table.len() {
        return false;
    }
    let parts = table.parts(id);
    parts.len() == 2 && parts[0] == parts[1]
}

/// The number with two other parts, for a term that has two.
fn with_both(
    alloc: Global,
    table: &mut TermTable,
    id: TermId,
    left: TermId,
    right: TermId,
) -> Result<Option<TermId>, AllocError> {
    let len = table.len();
    if id.place() >= len || left.place() >= len || right.place() >= len {
        return Ok(None);
    }
    if table.parts(id).len() != 2 {
        return Ok(None);
    }
    let parts = [left, right];
    Ok(Some(table.rebuilt(alloc, id, &parts)?))
}

#[test]
fn equal_subterms_have_one_number(rt: HostRuntime) -> Result<(), AllocError> {
    let alloc = rt.alloc();
    let left = sum(alloc, int_variable(0), Term::Lit(Literal::Int(1)))?;
    let right = left.copy(alloc)?;
    let whole = Term::Op2(BinOp::Equal, Rc::new(alloc, left)?, Rc::new(alloc, right)?);
    let mut table = TermTable::new(alloc);
    let id = table.put(alloc, &whole)?;
    let is_named = names(alloc, &table, id, &whole)? && has_equal_parts(&table, id);
    assert!(rt; is_named && table.len() == 4);
    Ok(())
}

#[test]
fn parts_are_replaced(rt: HostRuntime) -> Result<(), AllocError> {
    let alloc = rt.alloc();
    let before = sum(alloc, int_variable(0), int_variable(1))?;
    let after = sum(alloc, int_variable(1), int_variable(0))?;
    let mut table = TermTable::new(alloc);
    let id = table.put(alloc, &before)?;
    let y = table.put(alloc, &int_variable(1))?;
    let x = table.put(alloc, &int_variable(0))?;
    let swapped = with_both(alloc, &mut table, id, y, x)?;
    assert!(rt; table.len() == 4);
    let expected = table.put(alloc, &after)?;
    assert!(rt; swapped == Some(expected) && table.len() == 4);
    Ok(())
}
