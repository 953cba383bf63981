//! Proofs with names for their variables.
ghost use Rattle.std.specs.Prelude.{◌≡◌, map, IfOk};
ghost use Rattle.solver_proof.specs.View.{proof_view, proofs_view};
ghost use Rattle.gil_report.specs.View.{named_proof_view, named_proofs_view};
ghost use Rattle.report_names.specs.Named.{proof_of};

use crate::terms::named_term;
use gil_report::{NamedProof, NamedProofs};
use sequence::Sequence;
use solver_print::Names;
use solver_proof::{Factor, Factors, Places, Proof, Proofs};
use std::alloc::{AllocError, Global};

/// A proof with these names for its variables.
#[cycle(name)]
pub fn named_proof(alloc: Global, names: &Names, proof: &Proof) -> Result<NamedProof, AllocError>
    ensures { IfOk result (λ p. named_proof_view p ≡ proof_of names.now (proof_view proof.now)) }
{
    match proof {
        Proof::Sum(factors) => Ok(NamedProof::Sum(copy_factors(alloc, factors)?)),
        Proof::False(atom) => Ok(NamedProof::False(*atom)),
        Proof::Chain(places, end) => Ok(NamedProof::Chain(copy_places(alloc, places)?, *end)),
        Proof::Cases(term, proofs) => {
            let expression = named_term(alloc, names, term)?;
            let proofs = named_proofs(alloc, names, proofs)?;
            Ok(NamedProof::Cases(expression, proofs))
        }
        Proof::Values(atom, proofs) => {
            let proofs = named_proofs(alloc, names, proofs)?;
            Ok(NamedProof::Values(*atom, proofs))
        }
        Proof::Parts(atom, None) => Ok(NamedProof::Parts(*atom, None)),
        Proof::Parts(atom, Some(rest)) => {
            let rest = named_proof(alloc, names, rest)?;
            Ok(NamedProof::Parts(*atom, Some(Box::new(alloc, rest)?)))
        }
        Proof::Differ(atom, proofs) => {
            let proofs = named_proofs(alloc, names, proofs)?;
            Ok(NamedProof::Differ(*atom, proofs))
        }
        Proof::Split(term, first, second) => {
            let expression = named_term(alloc, names, term)?;
            let first = named_proof(alloc, names, first)?;
            let second = named_proof(alloc, names, second)?;
            Ok(NamedProof::Split(
                expression,
                Box::new(alloc, first)?,
                Box::new(alloc, second)?,
            ))
        }
        Proof::Meet(first, second, third) => Ok(NamedProof::Meet(*first, *second, *third)),
    }
}

/// Proofs with these names for their variables.
#[cycle(name)]
fn named_proofs(alloc: Global, names: &Names, proofs: &Proofs) -> Result<NamedProofs, AllocError>
    ensures { IfOk result (λ ps. named_proofs_view ps ≡ map (proof_of names.now) (proofs_view proofs.now)) }
{
    let mut list = NamedProofs::new(alloc);
    for index in 0..proofs.len() {
        let Some(proof) = proofs.get(index) else {
            unreachable!()
        };
        list.push(named_proof(alloc, names, proof)?)?;
    }
    Ok(list)
}

/// An equal list of factors.
fn copy_factors(alloc: Global, factors: &Factors) -> Result<Factors, AllocError>
    ensures { IfOk result (λ list. list ≡ factors.now) }
{
    let factors: &[Factor] = factors.as_slice();
    let mut list = Sequence::new(alloc);
    for factor in factors {
        list.push(*factor)?;
    }
    Ok(list)
}

/// An equal list of places.
fn copy_places(alloc: Global, places: &Places) -> Result<Places, AllocError>
    ensures { IfOk result (λ list. list ≡ places.now) }
{
    let places: &[usize] = places.as_slice();
    let mut list = Sequence::new(alloc);
    for place in places {
        list.push(*place)?;
    }
    Ok(list)
}
