//! Proofs of unsatisfiability.
ghost use Rattle.std.specs.Prelude.{◌≡◌};
ghost use Rattle.std.specs.List.{list_all};
ghost use Rattle.gil_report.specs.Pure.{from_list};
ghost use Rattle.gil_report.specs.View.{named_proof_view, named_proofs_view};
ghost use Rattle.writable_reports.specs.Tests as test;

use crate::expressions::is_writable_expr;
use crate::numbers::{are_places, has_64_bits, has_128_bits};
use gil_report::{NamedProof, NamedProofs};
use solver_proof::{ChainEnd, Factor};

/// Whether some text has the factor.
fn is_writable_factor(factor: Factor) -> bool
    ensures { result ≡ test.is_writable_factor factor }
{
    has_64_bits(factor.atom as u64) && has_128_bits(factor.factor)
}

/// Whether some text has each of the factors.
fn are_writable_factors(factors: &[Factor]) -> bool
    ensures { result ≡ list_all test.is_writable_factor factors.now }
{
    factors.iter().all(|factor| is_writable_factor(*factor))
}

/// Whether some text has the end of a chain.
fn is_writable_end(end: ChainEnd) -> bool
    ensures { result ≡ test.is_writable_end end }
{
    match end {
        ChainEnd::Literals | ChainEnd::Kinds | ChainEnd::Fresh => true,
        ChainEnd::Not(atom) => has_64_bits(atom as u64),
        ChainEnd::Kind(atom) => has_64_bits(atom as u64),
        ChainEnd::BothKinds(first, second) => {
            has_64_bits(first as u64) && has_64_bits(second as u64)
        }
    }
}

/// Whether some text has the chain.
fn is_writable_chain(places: &[usize], end: ChainEnd) -> bool
    ensures { result ≡ test.is_writable_chain places.now end }
{
    are_places(places) && is_writable_end(end)
}

/// Whether some text has the three places of atoms.
fn is_writable_meeting(first: usize, second: usize, third: usize) -> bool
    ensures { result ≡ test.is_writable_meeting first second third }
{
    has_64_bits(first as u64) && has_64_bits(second as u64) && has_64_bits(third as u64)
}

/// Whether some text has the proof.
#[cycle(proof)]
pub(crate) fn is_writable_proof(proof: &NamedProof) -> bool
    ensures { result ≡ test.is_writable_proof (named_proof_view proof.now) }
{
    match proof {
        NamedProof::Sum(factors) => are_writable_factors(factors.as_slice()),
        NamedProof::False(atom) => has_64_bits(*atom as u64),
        NamedProof::Chain(places, end) => is_writable_chain(places.as_slice(), *end),
        NamedProof::Cases(expression, proofs) => {
            is_writable_expr(expression) && are_writable_proofs(proofs)
        }
        NamedProof::Values(atom, proofs) => {
            has_64_bits(*atom as u64) && are_writable_proofs(proofs)
        }
        NamedProof::Parts(atom, None) => has_64_bits(*atom as u64),
        NamedProof::Parts(atom, Some(rest)) => {
            has_64_bits(*atom as u64) && is_writable_proof(rest)
        }
        NamedProof::Differ(atom, proofs) => {
            has_64_bits(*atom as u64) && are_writable_proofs(proofs)
        }
        NamedProof::Split(expression, first, second) => {
            is_writable_expr(expression) && is_writable_proof(first) && is_writable_proof(second)
        }
        NamedProof::Meet(first, second, third) => is_writable_meeting(*first, *second, *third),
    }
}

/// Whether some text has each of the proofs.
#[cycle(proof)]
fn are_writable_proofs(proofs: &NamedProofs) -> bool
    ensures { result ≡ test.are_writable_proofs (from_list (named_proofs_view proofs.now)) }
{
    for index in 0..proofs.len() {
        let Some(proof) = proofs.get(index) else {
            unreachable!()
        };
        if !is_writable_proof(proof) {
            return false;
        }
    }
    true
}
