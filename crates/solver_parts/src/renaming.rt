//! Terms with other numbers for their variables. What is made here is only proposed.
use pure_terms::{Atom, Term, Terms, Var};
use std::alloc::{AllocError, Global};
use std::rc::Rc;

/// The same atom, where each variable has the number that stands at its own.
pub(crate) fn renamed_atom(
    alloc: Global,
    atom: &Atom,
    numbers: &[usize],
) -> Result<Atom, AllocError> {
    let term = renamed(alloc, atom.term(), numbers)?;
    match atom {
        Atom::Holds(_) => Ok(Atom::Holds(term)),
        Atom::Not(_) => Ok(Atom::Not(term)),
        Atom::Open(_) => Ok(Atom::Open(term)),
    }
}

/// The same term, where each variable has the number that stands at its own.
#[cycle(renamed)]
pub(crate) fn renamed(alloc: Global, term: &Term, numbers: &[usize]) -> Result<Term, AllocError> {
    match term {
        Term::Lit(_) => term.copy(alloc),
        Term::Var(variable) => Ok(Term::Var(renamed_variable(*variable, numbers))),
        Term::List(terms) => Ok(Term::List(renamed_terms(alloc, terms, numbers)?)),
        Term::Op1(op, operand) => {
            let operand = renamed(alloc, operand, numbers)?;
            Ok(Term::Op1(*op, Rc::new(alloc, operand)?))
        }
        Term::Op2(op, left, right) => {
            let left = renamed(alloc, left, numbers)?;
            let right = renamed(alloc, right, numbers)?;
            Ok(Term::Op2(*op, Rc::new(alloc, left)?, Rc::new(alloc, right)?))
        }
    }
}

#[cycle(renamed)]
fn renamed_terms(alloc: Global, terms: &Terms, numbers: &[usize]) -> Result<Terms, AllocError> {
    let mut all = Terms::new(alloc);
    for term in terms.as_slice() {
        all.push(renamed(alloc, term, numbers)?)?;
    }
    Ok(all)
}

fn renamed_variable(variable: Var, numbers: &[usize]) -> Var {
    match numbers.get(variable.number as usize) {
        Some(number) => Var {
            number: *number as u64,
            sort: variable.sort,
        },
        None => variable,
    }
}
