//! Variables in classes. What is made here guides an answer, and none rests on it.
use pure_terms::{Atoms, Term, Terms};
use std::alloc::{AllocError, Global};

/// The numbers below a count, in classes.
#[derive(Drop)]
pub(crate) struct Classes {
    /// The number above each; the highest of a class is above itself.
    ups: Vec<usize>,
}

impl Classes {
    /// Each number alone.
    pub(crate) fn new(alloc: Global, count: usize) -> Result<Classes, AllocError> {
        let mut ups: Vec<usize> = Vec::with_capacity(alloc, count)?;
        for number in 0..count {
            ups.push(number)?;
        }
        Ok(Classes { ups })
    }

    /// The number that stands for a number's class. The way there is halved for those who come next.
    pub(crate) fn root(&mut self, number: usize) -> usize {
        let mut at = number;
        for _step in 0..self.ups.len() {
            let up = self.above(at);
            if up == at {
                return at;
            }
            let higher = self.above(up);
            self.put(at, higher);
            at = higher;
        }
        at
    }

    /// Makes two classes one.
    fn join(&mut self, first: usize, second: usize) {
        let lower = self.root(first);
        let higher = self.root(second);
        self.put(lower, higher);
    }

    fn above(&self, number: usize) -> usize {
        match self.ups.get(number) {
            Some(up) => *up,
            None => number,
        }
    }

    fn put(&mut self, number: usize, up: usize) {
        if number < self.ups.len() {
            self.ups[number] = up;
        }
    }
}

/// Makes the variables that an atom names one class, for each of the atoms, and answers a variable of each atom that names one.
pub(crate) fn join_atoms(
    alloc: Global,
    classes: &mut Classes,
    atoms: &Atoms,
) -> Result<Vec<Option<usize>>, AllocError> {
    let mut firsts: Vec<Option<usize>> = Vec::with_capacity(alloc, atoms.len())?;
    for atom in atoms.as_slice() {
        firsts.push(join_term(classes, atom.term(), None))?;
    }
    Ok(firsts)
}

/// Joins the variables of a term to a variable, if there is one, and else to one another; answers one of them.
#[cycle(join)]
fn join_term(classes: &mut Classes, term: &Term, first: Option<usize>) -> Option<usize> {
    match term {
        Term::Lit(_) => first,
        Term::Var(variable) => join_variable(classes, variable.number as usize, first),
        Term::List(terms) => join_terms(classes, terms, first),
        Term::Op1(_, operand) => join_term(classes, operand, first),
        Term::Op2(_, left, right) => {
            let found = join_term(classes, left, first);
            join_term(classes, right, found)
        }
    }
}

#[cycle(join)]
fn join_terms(classes: &mut Classes, terms: &Terms, first: Option<usize>) -> Option<usize> {
    let mut found = first;
    for term in terms.as_slice() {
        found = join_term(classes, term, found);
    }
    found
}

fn join_variable(classes: &mut Classes, number: usize, first: Option<usize>) -> Option<usize> {
    match first {
        Some(other) => {
            classes.join(other, number);
            first
        }
        None => Some(number),
    }
}
