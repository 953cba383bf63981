//! Proofs that have no proofs as parts, behind their first words.
ghost use Rattle.std.specs.Prelude.{ℕ};
ghost use Rattle.value_text.specs.Reading.{Gives, natural_at as number};
ghost use Rattle.solver_proof.specs.declared.proofs.Factor as factors;
ghost use Rattle.gil_report.specs.View.{named_proof_view};
ghost use Rattle.proof_text.specs.Reading as spec;

use gil_report::NamedProof;
use list_text::{Reader, list_at};
use solver_proof::{ChainEnd, Factor, Factors, Places};
use std::alloc::Global;
use value_text::{ReadFault, behind, expect, integer_at, long_at};

struct FactorReader;

impl Reader for FactorReader {
    type Item = Factor;

    ghost Pure = { factors.Factor };

    ghost view = { λ f. f };

    ghost reading = { spec.factor_at };

    fn item_at(_alloc: Global, bytes: &[u8]) -> Result<(Factor, &[u8]), ReadFault> {
        factor_at(bytes)
    }
}

struct PlaceReader;

impl Reader for PlaceReader {
    type Item = usize;

    ghost Pure = { ℕ };

    ghost view = { λ n. n };

    ghost reading = { number 64 };

    fn item_at(_alloc: Global, bytes: &[u8]) -> Result<(usize, &[u8]), ReadFault> {
        long_at(bytes)
    }
}

/// The place of an atom and its factor at the front.
#[tactic(auto, unfolding(crate::specs::Reading::factor_at))]
fn factor_at(bytes: &[u8]) -> Result<(Factor, &[u8]), ReadFault>
    ensures { Gives (λ x. (x.0, x.1.now)) result (spec.factor_at bytes.now) }
{
    let (atom, rest) = long_at(bytes)?;
    let rest = expect(":", rest)?;
    let (factor, rest) = integer_at(rest)?;
    Ok((Factor { atom, factor }, rest))
}

/// The factors at the front, in brackets.
fn factors_at(alloc: Global, bytes: &[u8]) -> Result<(Factors, &[u8]), ReadFault>
    ensures { Gives (λ x. (x.0, x.1.now)) result (spec.factors_at bytes.now) }
{
    list_at::<FactorReader>(alloc, bytes)
}

/// The places at the front, in brackets.
fn places_at(alloc: Global, bytes: &[u8]) -> Result<(Places, &[u8]), ReadFault>
    ensures { Gives (λ x. (x.0, x.1.now)) result (spec.places_at bytes.now) }
{
    list_at::<PlaceReader>(alloc, bytes)
}

/// A sum of rows.
#[tactic(auto, unfolding(crate::specs::Reading::sum_at))]
pub(crate) fn sum_at(alloc: Global, bytes: &[u8]) -> Result<(NamedProof, &[u8]), ReadFault>
    ensures { Gives (λ x. (named_proof_view x.0, x.1.now)) result (spec.sum_at bytes.now) }
{
    let (factors, rest) = factors_at(alloc, bytes)?;
    Ok((NamedProof::Sum(factors), rest))
}

/// An atom that isn't true.
#[tactic(auto, unfolding(crate::specs::Reading::false_at))]
pub(crate) fn false_at(bytes: &[u8]) -> Result<(NamedProof, &[u8]), ReadFault>
    ensures { Gives (λ x. (named_proof_view x.0, x.1.now)) result (spec.false_at bytes.now) }
{
    let (atom, rest) = long_at(bytes)?;
    Ok((NamedProof::False(atom), rest))
}

/// A chain of equalities.
#[tactic(auto, unfolding(crate::specs::Reading::chain_at))]
pub(crate) fn chain_at(alloc: Global, bytes: &[u8]) -> Result<(NamedProof, &[u8]), ReadFault>
    ensures { Gives (λ x. (named_proof_view x.0, x.1.now)) result (spec.chain_at bytes.now) }
{
    let (places, rest) = places_at(alloc, bytes)?;
    let rest = expect(" ", rest)?;
    let (end, rest) = end_at(rest)?;
    Ok((NamedProof::Chain(places, end), rest))
}

/// The end of a chain.
fn end_at(bytes: &[u8]) -> Result<(ChainEnd, &[u8]), ReadFault>
    ensures { Gives (λ x. (x.0, x.1.now)) result (spec.end_at bytes.now) }
{
    if let Some(rest) = behind("literals", bytes) {
        return Ok((ChainEnd::Literals, rest));
    }
    if let Some(rest) = behind("kinds", bytes) {
        return Ok((ChainEnd::Kinds, rest));
    }
    if let Some(rest) = behind("fresh", bytes) {
        return Ok((ChainEnd::Fresh, rest));
    }
    if let Some(rest) = behind("not ", bytes) {
        return not_at(rest);
    }
    let rest = expect("kind ", bytes)?;
    kind_at(rest)
}

/// The atom that is the disequality of a chain's terms.
#[tactic(auto, unfolding(crate::specs::Reading::not_at))]
fn not_at(bytes: &[u8]) -> Result<(ChainEnd, &[u8]), ReadFault>
    ensures { Gives (λ x. (x.0, x.1.now)) result (spec.not_at bytes.now) }
{
    let (atom, rest) = long_at(bytes)?;
    Ok((ChainEnd::Not(atom), rest))
}

/// One or two atoms that say the kinds of a chain's terms.
#[tactic(auto, unfolding(crate::specs::Reading::kind_at))]
fn kind_at(bytes: &[u8]) -> Result<(ChainEnd, &[u8]), ReadFault>
    ensures { Gives (λ x. (x.0, x.1.now)) result (spec.kind_at bytes.now) }
{
    let (first, rest) = long_at(bytes)?;
    kinds_at(first, rest)
}

/// The second atom, if there is one.
fn kinds_at(first: usize, bytes: &[u8]) -> Result<(ChainEnd, &[u8]), ReadFault>
    ensures { Gives (λ x. (x.0, x.1.now)) result (spec.kinds_at first bytes.now) }
{
    if let Some(rest) = behind(" ", bytes) {
        return both_at(first, rest);
    }
    Ok((ChainEnd::Kind(first), bytes))
}

/// The second atom.
#[tactic(auto, unfolding(crate::specs::Reading::both_at))]
fn both_at(first: usize, bytes: &[u8]) -> Result<(ChainEnd, &[u8]), ReadFault>
    ensures { Gives (λ x. (x.0, x.1.now)) result (spec.both_at first bytes.now) }
{
    let (second, rest) = long_at(bytes)?;
    Ok((ChainEnd::BothKinds(first, second), rest))
}

/// Three atoms that can't all be true.
#[tactic(auto, unfolding(crate::specs::Reading::meet_at))]
pub(crate) fn meet_at(bytes: &[u8]) -> Result<(NamedProof, &[u8]), ReadFault>
    ensures { Gives (λ x. (named_proof_view x.0, x.1.now)) result (spec.meet_at bytes.now) }
{
    let (first, rest) = long_at(bytes)?;
    let rest = expect(" ", rest)?;
    let (second, rest) = long_at(rest)?;
    let rest = expect(" ", rest)?;
    let (third, rest) = long_at(rest)?;
    Ok((NamedProof::Meet(first, second, third), rest))
}
