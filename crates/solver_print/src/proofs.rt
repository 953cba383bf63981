//! Printed proofs.
ghost use Rattle.std.specs.Prelude.{◌≡◌, ◌++◌, codes, string_bytes, OnOk};
ghost use Rattle.std.specs.List.{join_by};
ghost use Rattle.gil_values.specs.Printed.{numeral};
ghost use Rattle.solver_proof.specs.Pure.{from_list};
ghost use Rattle.solver_proof.specs.View.{proof_view, proofs_view};
ghost use Rattle.solver_print.specs.Proofs.{
  printed_factor,
  printed_sum,
  printed_end,
  printed_chain,
  printed_meet,
  in_brackets,
  printed_proof,
  printed_proofs,
};

use crate::terms::{Names, push_term};
use gil_values::{push_integer, push_number, push_separator};
use solver_proof::{ChainEnd, Factor, Factors, Places, Proof, Proofs};
use std::alloc::AllocError;

/// Adds a proof, with these names for the variables 0, 1, 2 and so on.
#[cycle(print)]
pub fn push_proof(out: &mut String, names: &Names, proof: &Proof) -> Result<(), AllocError>
    ensures { OnOk result (string_bytes out.new ≡ string_bytes out.old ++ printed_proof names.now (proof_view proof.now)) }
{
    match proof {
        Proof::Sum(factors) => push_sum(out, factors),
        Proof::False(atom) => push_numbered(out, "false ", *atom),
        Proof::Chain(places, end) => push_chain(out, places, *end),
        Proof::Cases(term, proofs) => {
            out.push_str("cases ")?;
            push_term(out, names, term)?;
            push_branches(out, names, proofs)
        }
        Proof::Values(atom, proofs) => {
            push_numbered(out, "values ", *atom)?;
            push_branches(out, names, proofs)
        }
        Proof::Parts(atom, None) => push_numbered(out, "parts ", *atom),
        Proof::Parts(atom, Some(rest)) => {
            push_numbered(out, "parts ", *atom)?;
            out.push_str(" ")?;
            push_proof(out, names, rest)
        }
        Proof::Differ(atom, proofs) => {
            push_numbered(out, "differ ", *atom)?;
            push_branches(out, names, proofs)
        }
        Proof::Split(term, first, second) => {
            out.push_str("split ")?;
            push_term(out, names, term)?;
            out.push_str(" (")?;
            push_proof(out, names, first)?;
            out.push_str(") (")?;
            push_proof(out, names, second)?;
            out.push_str(")")?;
            Ok(())
        }
        Proof::Meet(first, second, third) => push_meet(out, *first, *second, *third),
    }
}

/// Adds proofs in brackets, with commas between them, behind a blank.
#[cycle(print)]
fn push_branches(out: &mut String, names: &Names, proofs: &Proofs) -> Result<(), AllocError>
    ensures { OnOk result (string_bytes out.new ≡ string_bytes out.old ++ in_brackets (printed_proofs names.now (from_list (proofs_view proofs.now)))) }
{
    out.push_str(" [")?;
    push_each(out, names, proofs)?;
    out.push_str("]")?;
    Ok(())
}

#[cycle(print)]
fn push_each(out: &mut String, names: &Names, proofs: &Proofs) -> Result<(), AllocError>
    ensures { OnOk result (string_bytes out.new ≡ string_bytes out.old ++ join_by (printed_proof names.now) (codes ", ") (proofs_view proofs.now)) }
{
    for index in 0..proofs.len() {
        let Some(proof) = proofs.get(index) else {
            unreachable!()
        };
        push_separator(out, ", ", index)?;
        push_proof(out, names, proof)?;
    }
    Ok(())
}

/// Adds the factors of a sum.
fn push_sum(out: &mut String, factors: &Factors) -> Result<(), AllocError>
    ensures { OnOk result (string_bytes out.new ≡ string_bytes out.old ++ printed_sum factors.now) }
{
    out.push_str("sum [")?;
    push_factors(out, factors.as_slice())?;
    out.push_str("]")?;
    Ok(())
}

fn push_factors(out: &mut String, factors: &[Factor]) -> Result<(), AllocError>
    ensures { OnOk result (string_bytes out.new ≡ string_bytes out.old ++ join_by printed_factor (codes ", ") factors.now) }
{
    for (index, factor) in factors.iter().enumerate() {
        push_separator(out, ", ", index)?;
        push_factor(out, *factor)?;
    }
    Ok(())
}

fn push_factor(out: &mut String, factor: Factor) -> Result<(), AllocError>
    ensures { OnOk result (string_bytes out.new ≡ string_bytes out.old ++ printed_factor factor) }
{
    push_number(out, factor.atom as u64)?;
    out.push_str(":")?;
    push_integer(out, factor.factor)
}

/// Adds a chain of equalities and its end.
fn push_chain(out: &mut String, places: &Places, end: ChainEnd) -> Result<(), AllocError>
    ensures { OnOk result (string_bytes out.new ≡ string_bytes out.old ++ printed_chain places.now end) }
{
    out.push_str("chain [")?;
    push_places(out, places.as_slice())?;
    out.push_str("] ")?;
    push_end(out, end)
}

fn push_places(out: &mut String, places: &[usize]) -> Result<(), AllocError>
    ensures { OnOk result (string_bytes out.new ≡ string_bytes out.old ++ join_by numeral (codes ", ") places.now) }
{
    for (index, place) in places.iter().enumerate() {
        push_separator(out, ", ", index)?;
        push_number(out, *place as u64)?;
    }
    Ok(())
}

fn push_end(out: &mut String, end: ChainEnd) -> Result<(), AllocError>
    ensures { OnOk result (string_bytes out.new ≡ string_bytes out.old ++ printed_end end) }
{
    match end {
        ChainEnd::Literals => out.push_str("literals"),
        ChainEnd::Kinds => out.push_str("kinds"),
        ChainEnd::Fresh => out.push_str("fresh"),
        ChainEnd::Not(atom) => push_numbered(out, "not ", atom),
        ChainEnd::Kind(atom) => push_numbered(out, "kind ", atom),
        ChainEnd::BothKinds(first, second) => {
            push_numbered(out, "kind ", first)?;
            push_numbered(out, " ", second)
        }
    }
}

fn push_meet(out: &mut String, first: usize, second: usize, third: usize) -> Result<(), AllocError>
    ensures { OnOk result (string_bytes out.new ≡ string_bytes out.old ++ printed_meet first second third) }
{
    push_numbered(out, "meet ", first)?;
    push_numbered(out, " ", second)?;
    push_numbered(out, " ", third)
}

/// Adds a word and a number behind it.
fn push_numbered(out: &mut String, word: &str, number: usize) -> Result<(), AllocError>
    ensures { OnOk result (string_bytes out.new ≡ string_bytes out.old ++ (word.now ++ numeral number)) }
{
    out.push_str(word)?;
    push_number(out, number as u64)
}
