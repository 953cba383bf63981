//! Proofs where an atom is taken out of the list, and those behind it move up by one place. What is made here is only proposed: `accepts`
//! says whether it closes the shorter list.
ghost use Rattle.std.specs.Prelude.{◌≡◌};
ghost use Rattle.path_solver.specs.declared.taking.Kept.TheVariants.{Memory};

use solver_proof::{ChainEnd, Factor, Factors, Places, Proof, Proofs};
use std::alloc::{AllocError, Global};

/// Why the atom can't be taken out.
#[derive(Clone, Copy, Debug, PartialEq, Eq)]
pub(crate) enum Kept {
    /// The proof names it.
    Named,
    /// Want of memory.
    Memory,
}

impl From<AllocError> for Kept {
    ghost from_gives = { λ _ kept. kept ≡ Memory };

    fn from(_: AllocError) -> Kept {
        Kept::Memory
    }
}

/// Where an atom stands when the one at another place is taken out.
fn moved(place: usize, taken: usize) -> Result<usize, Kept> {
    if place == taken {
        return Err(Kept::Named);
    }
    if place < taken {
        return Ok(place);
    }
    Ok(place - 1)
}

/// The same proof where the atom at a place is taken out.
#[cycle(taking)]
pub(crate) fn moved_proof(alloc: Global, proof: &Proof, taken: usize) -> Result<Proof, Kept> {
    match proof {
        Proof::Sum(factors) => Ok(Proof::Sum(moved_factors(alloc, factors, taken)?)),
        Proof::False(place) => Ok(Proof::False(moved(*place, taken)?)),
        Proof::Chain(places, end) => {
            let places = moved_places(alloc, places, taken)?;
            Ok(Proof::Chain(places, moved_end(*end, taken)?))
        }
        Proof::Cases(term, proofs) => {
            let proofs = moved_proofs(alloc, proofs, taken)?;
            Ok(Proof::Cases(term.copy(alloc)?, proofs))
        }
        Proof::Values(place, proofs) => {
            let proofs = moved_proofs(alloc, proofs, taken)?;
            Ok(Proof::Values(moved(*place, taken)?, proofs))
        }
        Proof::Parts(place, None) => Ok(Proof::Parts(moved(*place, taken)?, None)),
        Proof::Parts(place, Some(rest)) => {
            let rest = boxed(alloc, moved_proof(alloc, rest, taken)?)?;
            Ok(Proof::Parts(moved(*place, taken)?, Some(rest)))
        }
        Proof::Differ(place, proofs) => {
            let proofs = moved_proofs(alloc, proofs, taken)?;
            Ok(Proof::Differ(moved(*place, taken)?, proofs))
        }
        Proof::Split(term, first, second) => {
            let first = boxed(alloc, moved_proof(alloc, first, taken)?)?;
            let second = boxed(alloc, moved_proof(alloc, second, taken)?)?;
            Ok(Proof::Split(term.copy(alloc)?, first, second))
        }
        Proof::Meet(first, second, third) => Ok(Proof::Meet(
            moved(*first, taken)?,
            moved(*second, taken)?,
            moved(*third, taken)?,
        )),
    }
}

fn boxed(alloc: Global, proof: Proof) -> Result<Box<Proof>, AllocError> {
    Ok(Box::new(alloc, proof)?)
}

#[cycle(taking)]
fn moved_proofs(alloc: Global, proofs: &Proofs, taken: usize) -> Result<Proofs, Kept> {
    let mut all = Proofs::new(alloc);
    for index in 0..proofs.len() {
        let Some(proof) = proofs.get(index) else {
            unreachable!()
        };
        all.push(moved_proof(alloc, proof, taken)?)?;
    }
    Ok(all)
}

fn moved_factors(alloc: Global, factors: &Factors, taken: usize) -> Result<Factors, Kept> {
    let mut all = Factors::new(alloc);
    for item in factors.as_slice() {
        all.push(Factor {
            atom: moved(item.atom, taken)?,
            factor: item.factor,
        })?;
    }
    Ok(all)
}

fn moved_places(alloc: Global, places: &Places, taken: usize) -> Result<Places, Kept> {
    let mut all = Places::new(alloc);
    for place in places.as_slice() {
        all.push(moved(*place, taken)?)?;
    }
    Ok(all)
}

fn moved_end(end: ChainEnd, taken: usize) -> Result<ChainEnd, Kept> {
    match end {
        ChainEnd::Literals => Ok(ChainEnd::Literals),
        ChainEnd::Kinds => Ok(ChainEnd::Kinds),
        ChainEnd::Fresh => Ok(ChainEnd::Fresh),
        ChainEnd::Not(place) => Ok(ChainEnd::Not(moved(place, taken)?)),
        ChainEnd::Kind(place) => Ok(ChainEnd::Kind(moved(place, taken)?)),
        ChainEnd::BothKinds(first, second) => {
            let first = moved(first, taken)?;
            Ok(ChainEnd::BothKinds(first, moved(second, taken)?))
        }
    }
}
