//! Proofs.
ghost use Rattle.std.specs.Prelude.{◌≡◌, length};
ghost use Rattle.gil_report.specs.View.{named_proof_view, named_proofs_view};
ghost use Rattle.value_text.specs.Reading.{Gives, many_at, with_front, before_no_comma, behind_comma, elements_at as proofs_at};
ghost use Rattle.proof_text.specs.Reading as spec;

use crate::leaves::{chain_at, false_at, meet_at, sum_at};
use expression_text::expression_at;
use gil_report::{NamedProof, NamedProofs};
use std::alloc::Global;
use value_text::{ReadFault, begins_with, behind, ends_elements, expect, long_at};

/// The proof at the front.
pub fn proof_at(alloc: Global, bytes: &[u8]) -> Result<(NamedProof, &[u8]), ReadFault>
    ensures { Gives (λ x. (named_proof_view x.0, x.1.now)) result (spec.any_proof_at bytes.now) }
{
    nested_at(alloc, bytes.len() + 1, bytes)
}

/// The proof at the front, in which fewer than so many are nested.
#[cycle(proof)]
#[tactic(auto, unfolding(crate::specs::Reading::proof_at))]
fn nested_at(alloc: Global, most: usize, bytes: &[u8]) -> Result<(NamedProof, &[u8]), ReadFault>
    ensures { Gives (λ x. (named_proof_view x.0, x.1.now)) result (spec.proof_at most bytes.now) }
{
    if most == 0 {
        return Err(ReadFault::Form);
    }
    worded_at(alloc, most - 1, bytes)
}

/// The proof at the front, with parts that are read so deep.
#[cycle(proof)]
fn worded_at(alloc: Global, inner: usize, bytes: &[u8]) -> Result<(NamedProof, &[u8]), ReadFault>
    ensures { Gives (λ x. (named_proof_view x.0, x.1.now)) result (spec.worded_at (spec.proof_at inner) bytes.now) }
{
    if let Some(rest) = behind("sum ", bytes) {
        return sum_at(alloc, rest);
    }
    if let Some(rest) = behind("false ", bytes) {
        return false_at(rest);
    }
    if let Some(rest) = behind("chain ", bytes) {
        return chain_at(alloc, rest);
    }
    if let Some(rest) = behind("meet ", bytes) {
        return meet_at(rest);
    }
    parted_at(alloc, inner, bytes)
}

/// The proof at the front, if it has parts.
#[cycle(proof)]
fn parted_at(alloc: Global, inner: usize, bytes: &[u8]) -> Result<(NamedProof, &[u8]), ReadFault>
    ensures { Gives (λ x. (named_proof_view x.0, x.1.now)) result (spec.parted_at (spec.proof_at inner) bytes.now) }
{
    if let Some(rest) = behind("cases ", bytes) {
        return cases_at(alloc, inner, rest);
    }
    if let Some(rest) = behind("values ", bytes) {
        return values_at(alloc, inner, rest);
    }
    if let Some(rest) = behind("parts ", bytes) {
        return parts_at(alloc, inner, rest);
    }
    if let Some(rest) = behind("differ ", bytes) {
        return differ_at(alloc, inner, rest);
    }
    let rest = expect("split ", bytes)?;
    split_at(alloc, inner, rest)
}

/// A proof for each kind of a variable.
#[cycle(proof)]
#[tactic(auto, unfolding(crate::specs::Reading::cases_at))]
fn cases_at(alloc: Global, inner: usize, bytes: &[u8]) -> Result<(NamedProof, &[u8]), ReadFault>
    ensures { Gives (λ x. (named_proof_view x.0, x.1.now)) result (spec.cases_at (spec.proof_at inner) bytes.now) }
{
    let (expression, rest) = expression_at(alloc, bytes)?;
    let (proofs, rest) = branches_at(alloc, inner, rest)?;
    Ok((NamedProof::Cases(expression, proofs), rest))
}

/// A proof for each value of a kind.
#[cycle(proof)]
#[tactic(auto, unfolding(crate::specs::Reading::values_at))]
fn values_at(alloc: Global, inner: usize, bytes: &[u8]) -> Result<(NamedProof, &[u8]), ReadFault>
    ensures { Gives (λ x. (named_proof_view x.0, x.1.now)) result (spec.values_at (spec.proof_at inner) bytes.now) }
{
    let (atom, rest) = long_at(bytes)?;
    let (proofs, rest) = branches_at(alloc, inner, rest)?;
    Ok((NamedProof::Values(atom, proofs), rest))
}

/// A proof for each pair of elements.
#[cycle(proof)]
#[tactic(auto, unfolding(crate::specs::Reading::differ_at))]
fn differ_at(alloc: Global, inner: usize, bytes: &[u8]) -> Result<(NamedProof, &[u8]), ReadFault>
    ensures { Gives (λ x. (named_proof_view x.0, x.1.now)) result (spec.differ_at (spec.proof_at inner) bytes.now) }
{
    let (atom, rest) = long_at(bytes)?;
    let (proofs, rest) = branches_at(alloc, inner, rest)?;
    Ok((NamedProof::Differ(atom, proofs), rest))
}

/// An equality of lists.
#[cycle(proof)]
#[tactic(auto, unfolding(crate::specs::Reading::parts_at))]
fn parts_at(alloc: Global, inner: usize, bytes: &[u8]) -> Result<(NamedProof, &[u8]), ReadFault>
    ensures { Gives (λ x. (named_proof_view x.0, x.1.now)) result (spec.parts_at (spec.proof_at inner) bytes.now) }
{
    let (atom, rest) = long_at(bytes)?;
    elements_of(alloc, inner, atom, rest)
}

/// The proof from the equalities of the elements, if there is one.
#[cycle(proof)]
fn elements_of(
    alloc: Global,
    inner: usize,
    atom: usize,
    bytes: &[u8],
) -> Result<(NamedProof, &[u8]), ReadFault>
    ensures { Gives (λ x. (named_proof_view x.0, x.1.now)) result (spec.elements_of (spec.proof_at inner) atom bytes.now) }
{
    if let Some(rest) = behind(" ", bytes) {
        return from_elements_at(alloc, inner, atom, rest);
    }
    Ok((NamedProof::Parts(atom, None), bytes))
}

/// The proof from the equalities of the elements.
#[cycle(proof)]
#[tactic(auto, unfolding(crate::specs::Reading::from_elements_at))]
fn from_elements_at(
    alloc: Global,
    inner: usize,
    atom: usize,
    bytes: &[u8],
) -> Result<(NamedProof, &[u8]), ReadFault>
    ensures { Gives (λ x. (named_proof_view x.0, x.1.now)) result (spec.from_elements_at (spec.proof_at inner) atom bytes.now) }
{
    let (proof, rest) = nested_at(alloc, inner, bytes)?;
    Ok((NamedProof::Parts(atom, Some(Box::new(alloc, proof)?)), rest))
}

/// A proof where an expression is true, and one where it is false.
#[cycle(proof)]
#[tactic(auto, unfolding(crate::specs::Reading::split_at))]
fn split_at(alloc: Global, inner: usize, bytes: &[u8]) -> Result<(NamedProof, &[u8]), ReadFault>
    ensures { Gives (λ x. (named_proof_view x.0, x.1.now)) result (spec.split_at (spec.proof_at inner) bytes.now) }
{
    let (expression, rest) = expression_at(alloc, bytes)?;
    let rest = expect(" (", rest)?;
    let (first, rest) = nested_at(alloc, inner, rest)?;
    let rest = expect(") (", rest)?;
    let (second, rest) = nested_at(alloc, inner, rest)?;
    let rest = expect(")", rest)?;
    let first = Box::new(alloc, first)?;
    let second = Box::new(alloc, second)?;
    Ok((NamedProof::Split(expression, first, second), rest))
}

/// The proofs at the front, in brackets behind a blank.
#[cycle(proof)]
#[tactic(auto, unfolding(crate::specs::Reading::branches_at, value_text::specs::Reading::bracketed_at))]
fn branches_at(alloc: Global, inner: usize, bytes: &[u8]) -> Result<(NamedProofs, &[u8]), ReadFault>
    ensures { Gives (λ x. (named_proofs_view x.0, x.1.now)) result (spec.branches_at (spec.proof_at inner) bytes.now) }
{
    let rest = expect(" ", bytes)?;
    let rest = expect("[", rest)?;
    let (proofs, rest) = elements_at(alloc, inner, rest)?;
    let rest = expect("]", rest)?;
    Ok((proofs, rest))
}

/// The proofs up to the closing bracket, with commas between them.
#[cycle(proof)]
fn elements_at(alloc: Global, inner: usize, bytes: &[u8]) -> Result<(NamedProofs, &[u8]), ReadFault>
    ensures { Gives (λ x. (named_proofs_view x.0, x.1.now)) result (proofs_at (spec.proof_at inner) bytes.now) }
{
    let mut items = NamedProofs::new(alloc);
    if begins_with(b']', bytes) {
        return Ok((items, bytes));
    }
    let (first, rest) = nested_at(alloc, inner, bytes)?;
    items.push(first)?;
    more_at(alloc, inner, items, rest)
}

/// The proofs of the list, and those at the front that stand behind a comma each.
#[cycle(proof)]
fn more_at(
    alloc: Global,
    inner: usize,
    items: NamedProofs,
    bytes: &[u8],
) -> Result<(NamedProofs, &[u8]), ReadFault>
    ensures { Gives (λ x. (named_proofs_view x.0, x.1.now)) result
        (with_front (named_proofs_view items) (many_at before_no_comma (behind_comma (spec.proof_at inner)) (length bytes.now) bytes.now)) }
{
    let mut items = items;
    let mut rest = bytes;
    // Each turn takes a comma at least.
    let most = bytes.len();
    for _ in 0..most {
        if ends_elements(rest) {
            return Ok((items, rest));
        }
        let (item, behind) = next_at(alloc, inner, rest)?;
        items.push(item)?;
        rest = behind;
    }
    Ok((items, rest))
}

/// The proof behind the comma at the front.
#[cycle(proof)]
fn next_at(alloc: Global, inner: usize, bytes: &[u8]) -> Result<(NamedProof, &[u8]), ReadFault>
    ensures { Gives (λ x. (named_proof_view x.0, x.1.now)) result (behind_comma (spec.proof_at inner) bytes.now) }
{
    let rest = expect(", ", bytes)?;
    nested_at(alloc, inner, rest)
}
