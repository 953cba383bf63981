//! Printed proofs.
ghost use Rattle.std.specs.Prelude.{◌≡◌, ◌++◌, codes, string_bytes, OnOk};
ghost use Rattle.std.specs.List.{join_by};
ghost use Rattle.gil_values.specs.Printed.{numeral};
ghost use Rattle.solver_print.specs.Proofs.{in_brackets, printed_chain, printed_end, printed_factor, printed_meet, printed_sum};
ghost use Rattle.gil_report.specs.Proofs.{printed_proof, printed_proofs};
ghost use Rattle.gil_report.specs.Pure.{from_list};
ghost use Rattle.gil_report.specs.View.{named_proof_view, named_proofs_view};

use crate::lists::push_list;
use crate::print::Print;
use crate::proofs::{NamedProof, NamedProofs};
use gil_values::{push_integer, push_number, push_separator};
use solver_proof::{ChainEnd, Factor, Factors, Places};
use std::alloc::AllocError;
use syntax_print::push_expr;

impl Print for NamedProof {
    ghost printed = { λ p. printed_proof (named_proof_view p) };

    fn print(&self, out: &mut String) -> Result<(), AllocError> {
        push_proof(out, self)
    }
}

/// Adds a proof.
#[cycle(print)]
fn push_proof(out: &mut String, proof: &NamedProof) -> Result<(), AllocError>
    ensures { OnOk result (string_bytes out.new ≡ string_bytes out.old ++ printed_proof (named_proof_view proof.now)) }
{
    match proof {
        NamedProof::Sum(factors) => push_sum(out, factors),
        NamedProof::False(atom) => push_numbered(out, "false ", *atom),
        NamedProof::Chain(places, end) => push_chain(out, places, *end),
        NamedProof::Cases(expression, proofs) => {
            out.push_str("cases ")?;
            push_expr(out, expression)?;
            push_branches(out, proofs)
        }
        NamedProof::Values(atom, proofs) => {
            push_numbered(out, "values ", *atom)?;
            push_branches(out, proofs)
        }
        NamedProof::Parts(atom, None) => push_numbered(out, "parts ", *atom),
        NamedProof::Parts(atom, Some(rest)) => {
            push_numbered(out, "parts ", *atom)?;
            out.push_str(" ")?;
            push_proof(out, rest)
        }
        NamedProof::Differ(atom, proofs) => {
            push_numbered(out, "differ ", *atom)?;
            push_branches(out, proofs)
        }
        NamedProof::Split(expression, first, second) => {
            out.push_str("split ")?;
            push_expr(out, expression)?;
            out.push_str(" (")?;
            push_proof(out, first)?;
            out.push_str(") (")?;
            push_proof(out, second)?;
            out.push_str(")")?;
            Ok(())
        }
        NamedProof::Meet(first, second, third) => push_meet(out, *first, *second, *third),
    }
}

/// Adds proofs in brackets, with commas between them, behind a blank.
#[cycle(print)]
fn push_branches(out: &mut String, proofs: &NamedProofs) -> Result<(), AllocError>
    ensures { OnOk result (string_bytes out.new ≡ string_bytes out.old ++ in_brackets (printed_proofs (from_list (named_proofs_view proofs.now)))) }
{
    out.push_str(" [")?;
    push_each(out, proofs)?;
    out.push_str("]")?;
    Ok(())
}

#[cycle(print)]
fn push_each(out: &mut String, proofs: &NamedProofs) -> Result<(), AllocError>
    ensures { OnOk result (string_bytes out.new ≡ string_bytes out.old ++ join_by printed_proof (codes ", ") (named_proofs_view proofs.now)) }
{
    for index in 0..proofs.len() {
        let Some(proof) = proofs.get(index) else {
            unreachable!()
        };
        push_separator(out, ", ", index)?;
        push_proof(out, proof)?;
    }
    Ok(())
}

impl Print for Factor {
    ghost printed = { printed_factor };

    fn print(&self, out: &mut String) -> Result<(), AllocError> {
        push_number(out, self.atom as u64)?;
        out.push_str(":")?;
        push_integer(out, self.factor)
    }
}

/// Adds the factors of a sum.
fn push_sum(out: &mut String, factors: &Factors) -> Result<(), AllocError>
    ensures { OnOk result (string_bytes out.new ≡ string_bytes out.old ++ printed_sum factors.now) }
{
    out.push_str("sum ")?;
    push_list(out, factors.as_slice())
}

/// Adds a chain of equalities and its end.
fn push_chain(out: &mut String, places: &Places, end: ChainEnd) -> Result<(), AllocError>
    ensures { OnOk result (string_bytes out.new ≡ string_bytes out.old ++ printed_chain places.now end) }
{
    out.push_str("chain ")?;
    push_list(out, places.as_slice())?;
    out.push_str(" ")?;
    push_end(out, end)
}

fn push_end(out: &mut String, end: ChainEnd) -> Result<(), AllocError>
    ensures { OnOk result (string_bytes out.new ≡ string_bytes out.old ++ printed_end end) }
{
    match end {
        ChainEnd::Literals => out.push_str("literals"),
        ChainEnd::Kinds => out.push_str("kinds"),
        ChainEnd::Fresh => out.push_str("fresh"),
        ChainEnd::Not(atom) => push_numbered(out, "not ", atom),
        ChainEnd::Kind(atom) => push_numbered(out, "kind ", atom),
        ChainEnd::BothKinds(first, second) => {
            push_numbered(out, "kind ", first)?;
            push_numbered(out, " ", second)
        }
    }
}

fn push_meet(out: &mut String, first: usize, second: usize, third: usize) -> Result<(), AllocError>
    ensures { OnOk result (string_bytes out.new ≡ string_bytes out.old ++ printed_meet first second third) }
{
    push_numbered(out, "meet ", first)?;
    push_numbered(out, " ", second)?;
    push_numbered(out, " ", third)
}

/// Adds a word and a number behind it.
fn push_numbered(out: &mut String, word: &str, number: usize) -> Result<(), AllocError>
    ensures { OnOk result (string_bytes out.new ≡ string_bytes out.old ++ (word.now ++ numeral number)) }
{
    out.push_str(word)?;
    push_number(out, number as u64)
}
