//! Proofs that are made of data.
use crate::reading::list;
use pure_terms::Term;
use sequence::Sequence;
use solver_proof::{ChainEnd, Factor, Factors, Places, Proof, Proofs};
use std::alloc::{AllocError, Global};
use std::test::Fail;

/// A proof that takes no others. Of a sum the places of atoms with their factors, and of a chain the places of equalities.
#[derive(Clone, Copy)]
pub(crate) enum Simple {
    Sum(&'static [(usize, i128)]),
    Chain(&'static [usize], ChainEnd),
    False(usize),
    Apart(usize),
    Meet(usize, usize, usize),
}

/// A proof that takes others. The term of `Cases` and of `Split` is that of the first atom of a text.
#[derive(Clone, Copy)]
pub(crate) enum Compound {
    Parts(usize, Simple),
    Values(usize, &'static [Simple]),
    Differ(usize, &'static [Simple]),
    Cases(&'static str, &'static [Simple]),
    Split(&'static str, Simple, Simple),
}

fn sum(alloc: Global, rows: &[(usize, i128)]) -> Result<Proof, AllocError> {
    let mut factors: Factors = Sequence::new(alloc);
    for (atom, factor) in rows {
        factors.push(Factor {
            atom: *atom,
            factor: *factor,
        })?;
    }
    Ok(Proof::Sum(factors))
}

fn chain(alloc: Global, equalities: &[usize], end: ChainEnd) -> Result<Proof, AllocError> {
    let mut places: Places = Sequence::new(alloc);
    for place in equalities {
        places.push(*place)?;
    }
    Ok(Proof::Chain(places, end))
}

pub(crate) fn make_simple(alloc: Global, form: Simple) -> Result<Proof, AllocError> {
    match form {
        Simple::Sum(rows) => sum(alloc, rows),
        Simple::Chain(equalities, end) => chain(alloc, equalities, end),
        Simple::False(place) => Ok(Proof::False(place)),
        Simple::Apart(place) => Ok(Proof::Parts(place, None)),
        Simple::Meet(first, second, third) => Ok(Proof::Meet(first, second, third)),
    }
}

fn boxed(alloc: Global, form: Simple) -> Result<Box<Proof>, AllocError> {
    Ok(Box::new(alloc, make_simple(alloc, form)?)?)
}

fn all(alloc: Global, forms: &[Simple]) -> Result<Proofs, AllocError> {
    let mut proofs = Proofs::new(alloc);
    for form in forms {
        proofs.push(make_simple(alloc, *form)?)?;
    }
    Ok(proofs)
}

fn term(alloc: Global, stated: &str) -> Result<Term, Fail> {
    let text = list(alloc, stated)?;
    let first = text.atoms.get(0).ok_or("no atom")?;
    Ok(first.term().copy(alloc)?)
}

pub(crate) fn make_compound(alloc: Global, form: Compound) -> Result<Proof, Fail> {
    match form {
        Compound::Parts(place, rest) => Ok(Proof::Parts(place, Some(boxed(alloc, rest)?))),
        Compound::Values(place, forms) => Ok(Proof::Values(place, all(alloc, forms)?)),
        Compound::Differ(place, forms) => Ok(Proof::Differ(place, all(alloc, forms)?)),
        Compound::Cases(stated, forms) => {
            Ok(Proof::Cases(term(alloc, stated)?, all(alloc, forms)?))
        }
        Compound::Split(stated, first, second) => {
            let (first, second) = (boxed(alloc, first)?, boxed(alloc, second)?);
            Ok(Proof::Split(term(alloc, stated)?, first, second))
        }
    }
}
