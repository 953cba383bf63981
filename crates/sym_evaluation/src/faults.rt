//! Why an expression has no value.
ghost use Rattle.std.specs.Prelude.{◌≡◌, IfOk};
ghost use Rattle.gil_values.specs.Operators.{fault_text};
ghost use Rattle.pure_terms.specs.declared.literals.Literal.{Literal};
ghost use Rattle.pure_terms.specs.Pure.{literal};
ghost use Rattle.pure_terms.specs.View.{term_view};
ghost use Rattle.sym_evaluation.specs.View.{fault_view};

use gil_values::Text;
use pure_terms::{Literal, Term};
use std::alloc::{AllocError, Global};

/// Why an expression has no value. Contracts see it as a fault of the operator table, by `fault_view`.
#[derive(Clone, Copy, Debug, PartialEq, Eq)]
pub enum Fault {
    /// An operand has a kind that the operator doesn't take.
    WrongKind,
    /// The right operand of `/` or `%` is 0.
    Zero,
    /// `nth` at a number that is no place of the list.
    Range,
    /// A variable has no value.
    Unset,
}

impl Fault {
    /// The text that a run fails with, as a term.
    pub fn term(self, alloc: Global) -> Result<Term, AllocError>
        ensures { IfOk result (λ t. term_view t ≡ literal (Literal.Str (fault_text (fault_view self)))) }
    {
        let text = match self {
            Fault::WrongKind => "type",
            Fault::Zero => "zero",
            Fault::Range => "range",
            Fault::Unset => "unset",
        };
        match Text::from_str(alloc, text)? {
            Some(text) => Ok(Term::Lit(Literal::Str(text))),
            None => unreachable!(),
        }
    }
}
