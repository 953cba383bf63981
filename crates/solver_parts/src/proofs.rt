//! Proofs that close a part, as proofs for the whole list. What is made here is only proposed.
use crate::parts::Part;
use crate::renaming::renamed;
use solver_proof::{ChainEnd, Factor, Factors, Places, Proof, Proofs};
use std::alloc::{AllocError, Global};

/// The proof with the places and the variables of the list.
#[cycle(whole)]
pub(crate) fn whole_proof(alloc: Global, part: &Part, proof: &Proof) -> Result<Proof, AllocError> {
    match proof {
        Proof::Sum(factors) => Ok(Proof::Sum(whole_factors(alloc, part, factors)?)),
        Proof::False(place) => Ok(Proof::False(whole_place(part, *place))),
        Proof::Chain(places, end) => Ok(Proof::Chain(
            whole_places(alloc, part, places)?,
            whole_end(part, *end),
        )),
        Proof::Cases(term, proofs) => {
            let term = renamed(alloc, term, part.numbers.as_slice())?;
            Ok(Proof::Cases(term, whole_proofs(alloc, part, proofs)?))
        }
        Proof::Values(place, proofs) => Ok(Proof::Values(
            whole_place(part, *place),
            whole_proofs(alloc, part, proofs)?,
        )),
        Proof::Parts(place, None) => Ok(Proof::Parts(whole_place(part, *place), None)),
        Proof::Parts(place, Some(rest)) => {
            let rest = whole_proof(alloc, part, rest)?;
            Ok(Proof::Parts(whole_place(part, *place), Some(Box::new(alloc, rest)?)))
        }
        Proof::Differ(place, proofs) => Ok(Proof::Differ(
            whole_place(part, *place),
            whole_proofs(alloc, part, proofs)?,
        )),
        Proof::Split(term, first, second) => {
            let term = renamed(alloc, term, part.numbers.as_slice())?;
            let first = whole_proof(alloc, part, first)?;
            let second = whole_proof(alloc, part, second)?;
            Ok(Proof::Split(term, Box::new(alloc, first)?, Box::new(alloc, second)?))
        }
        Proof::Meet(first, second, third) => Ok(Proof::Meet(
            whole_place(part, *first),
            whole_place(part, *second),
            whole_place(part, *third),
        )),
    }
}

#[cycle(whole)]
fn whole_proofs(alloc: Global, part: &Part, proofs: &Proofs) -> Result<Proofs, AllocError> {
    let mut all = Proofs::new(alloc);
    for index in 0..proofs.len() {
        let Some(proof) = proofs.get(index) else {
            unreachable!()
        };
        all.push(whole_proof(alloc, part, proof)?)?;
    }
    Ok(all)
}

fn whole_end(part: &Part, end: ChainEnd) -> ChainEnd {
    match end {
        ChainEnd::Literals => ChainEnd::Literals,
        ChainEnd::Kinds => ChainEnd::Kinds,
        ChainEnd::Fresh => ChainEnd::Fresh,
        ChainEnd::Not(place) => ChainEnd::Not(whole_place(part, place)),
        ChainEnd::Kind(place) => ChainEnd::Kind(whole_place(part, place)),
        ChainEnd::BothKinds(first, second) => {
            ChainEnd::BothKinds(whole_place(part, first), whole_place(part, second))
        }
    }
}

fn whole_factors(alloc: Global, part: &Part, factors: &Factors) -> Result<Factors, AllocError> {
    let mut all = Factors::new(alloc);
    for item in factors.as_slice() {
        all.push(Factor {
            atom: whole_place(part, item.atom),
            factor: item.factor,
        })?;
    }
    Ok(all)
}

fn whole_places(alloc: Global, part: &Part, places: &Places) -> Result<Places, AllocError> {
    let mut all = Places::new(alloc);
    for place in places.as_slice() {
        all.push(whole_place(part, *place))?;
    }
    Ok(all)
}

/// The place in the list of an atom of the part, or of one that the proof appends.
fn whole_place(part: &Part, place: usize) -> usize {
    match part.places.get(place) {
        Some(whole) => *whole,
        None => part
            .whole
            .saturating_add(place.saturating_sub(part.places.len())),
    }
}
