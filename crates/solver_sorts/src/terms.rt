//! Terms and atoms over a sorted table.
ghost use Rattle.std.specs.Prelude.{◌≡◌, IfOk};
ghost use Rattle.pure_terms.specs.Pure.{from_list};
ghost use Rattle.pure_terms.specs.View.{term_view, terms_view, atom_view, atoms_view};
ghost use Rattle.solver_sorts.specs.Sorting.{sorted_variable, sorted_unary, sorted_term, sorted_terms, sorted_atom, sorted_atoms};

use gil_values::UnOp;
use pure_terms::{Atom, Atoms, Literal, Term, Terms, Var, VarTable};
use std::alloc::{AllocError, Global};
use std::rc::Rc;

fn sorted_variable(sorted: &VarTable, variable: Var) -> Var
    ensures { result ≡ sorted_variable sorted.now variable }
{
    match sorted.get(variable.number as usize) {
        Some(sort) => Var {
            number: variable.number,
            sort: *sort,
        },
        None => variable,
    }
}

/// The term of an operator of one operand, where kinds of variables are literals as far as sorts tell.
fn sorted_unary(alloc: Global, op: UnOp, operand: Term) -> Result<Term, AllocError>
    ensures { IfOk result (λ t. term_view t ≡ sorted_unary op (term_view operand)) }
{
    if op == UnOp::Kind {
        if let Term::Var(variable) = &operand {
            if let Some(kind) = variable.sort.kind() {
                return Ok(Term::Lit(Literal::Kind(kind)));
            }
        }
    }
    Ok(Term::Op1(op, Rc::new(alloc, operand)?))
}

#[cycle(sorting)]
fn sorted_term(alloc: Global, sorted: &VarTable, term: &Term) -> Result<Term, AllocError>
    ensures { IfOk result (λ t. term_view t ≡ sorted_term sorted.now (term_view term.now)) }
{
    match term {
        Term::Lit(literal) => Ok(Term::Lit(literal.copy(alloc)?)),
        Term::Var(variable) => Ok(Term::Var(sorted_variable(sorted, *variable))),
        Term::List(terms) => Ok(Term::List(sorted_terms(alloc, sorted, terms)?)),
        Term::Op1(op, operand) => {
            let operand = sorted_term(alloc, sorted, operand)?;
            sorted_unary(alloc, *op, operand)
        }
        Term::Op2(op, left, right) => {
            let left = sorted_term(alloc, sorted, left)?;
            let right = sorted_term(alloc, sorted, right)?;
            Ok(Term::Op2(*op, Rc::new(alloc, left)?, Rc::new(alloc, right)?))
        }
    }
}

#[cycle(sorting)]
fn sorted_terms(alloc: Global, sorted: &VarTable, terms: &Terms) -> Result<Terms, AllocError>
    ensures { IfOk result (λ ts. from_list (terms_view ts) ≡ sorted_terms sorted.now (from_list (terms_view terms.now))) }
{
    let mut items = Terms::new(alloc);
    for term in terms.as_slice() {
        items.push(sorted_term(alloc, sorted, term)?)?;
    }
    Ok(items)
}

fn sorted_atom(alloc: Global, sorted: &VarTable, atom: &Atom) -> Result<Atom, AllocError>
    ensures { IfOk result (λ a. atom_view a ≡ sorted_atom sorted.now (atom_view atom.now)) }
{
    let term = sorted_term(alloc, sorted, atom.term())?;
    match atom {
        Atom::Holds(_) => Ok(Atom::Holds(term)),
        Atom::Not(_) => Ok(Atom::Not(term)),
        Atom::Open(_) => Ok(Atom::Open(term)),
    }
}

pub(crate) fn sorted_atoms(
    alloc: Global,
    sorted: &VarTable,
    atoms: &Atoms,
) -> Result<Atoms, AllocError>
    ensures { IfOk result (λ list. atoms_view list ≡ sorted_atoms sorted.now (atoms_view atoms.now)) }
{
    let mut list = Atoms::new(alloc);
    for atom in atoms.as_slice() {
        list.push(sorted_atom(alloc, sorted, atom)?)?;
    }
    Ok(list)
}
