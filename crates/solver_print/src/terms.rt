//! Printed terms.
ghost use Rattle.std.specs.Prelude.{◌≡◌, ◌++◌, map, string_bytes, OnOk};
ghost use Rattle.gil_values.specs.Printed.{printed_value};
ghost use Rattle.pure_terms.specs.Meaning.{literal_value};
ghost use Rattle.pure_terms.specs.View.{term_view, terms_view};
ghost use Rattle.syntax_print.specs.Expressions.{printed_exprs};
ghost use Rattle.solver_print.specs.Terms.{name_of, expr_of, printed_term};

use gil_values::{Text, kind_name, push_integer, push_literal, push_number, push_separator};
use pure_terms::{Literal, Term, Terms};
use sequence::Sequence;
use std::alloc::AllocError;
use syntax_print::{before_operands, between_operands, unary_name};

/// The names of the variables 0, 1, 2 and so on; a variable without one is printed as `v` and its number.
pub type Names = Sequence<Text>;

/// Adds a term, with these names for its variables.
#[cycle(print)]
pub fn push_term(out: &mut String, names: &Names, term: &Term) -> Result<(), AllocError>
    ensures { OnOk result (string_bytes out.new ≡ string_bytes out.old ++ printed_term names.now (term_view term.now)) }
{
    match term {
        Term::Lit(literal) => push_value_of(out, literal),
        Term::Var(variable) => push_name(out, names, variable.number),
        Term::List(terms) => {
            out.push_str("[")?;
            push_terms(out, names, terms)?;
            out.push_str("]")?;
            Ok(())
        }
        Term::Op1(op, operand) => {
            out.push_str(unary_name(*op))?;
            out.push_str("(")?;
            push_term(out, names, operand)?;
            out.push_str(")")?;
            Ok(())
        }
        Term::Op2(op, left, right) => {
            out.push_str(before_operands(*op))?;
            push_term(out, names, left)?;
            out.push_str(between_operands(*op))?;
            push_term(out, names, right)?;
            out.push_str(")")?;
            Ok(())
        }
    }
}

/// Adds terms, with commas between them.
#[cycle(print)]
fn push_terms(out: &mut String, names: &Names, terms: &Terms) -> Result<(), AllocError>
    ensures { OnOk result (string_bytes out.new ≡ string_bytes out.old ++ printed_exprs (map (expr_of names.now) (terms_view terms.now))) }
{
    for (index, term) in terms.as_slice().iter().enumerate() {
        push_separator(out, ", ", index)?;
        push_term(out, names, term)?;
    }
    Ok(())
}

/// Adds the value of a literal.
fn push_value_of(out: &mut String, literal: &Literal) -> Result<(), AllocError>
    ensures { OnOk result (string_bytes out.new ≡ string_bytes out.old ++ printed_value (literal_value literal.now)) }
{
    match literal {
        Literal::Int(n) => push_integer(out, *n),
        Literal::Bool(true) => out.push_str("true"),
        Literal::Bool(false) => out.push_str("false"),
        Literal::Str(text) => push_literal(out, text),
        Literal::Kind(kind) => out.push_str(kind_name(*kind)),
        Literal::Proc(name) => {
            out.push_str("@")?;
            out.push_str(name.as_str())
        }
    }
}

/// Adds the name of a variable.
fn push_name(out: &mut String, names: &Names, number: u64) -> Result<(), AllocError>
    ensures { OnOk result (string_bytes out.new ≡ string_bytes out.old ++ name_of names.now number) }
{
    match names.get(number as usize) {
        Some(name) => out.push_str(name.as_str()),
        None => {
            out.push_str("v")?;
            push_number(out, number)
        }
    }
}
