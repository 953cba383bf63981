//! The terms of expressions.
ghost use Rattle.std.specs.Prelude.{◌≡◌};
ghost use Rattle.gil_syntax.specs.Pure.{from_list};
ghost use Rattle.gil_syntax.specs.View.{expr_view, exprs_view};
ghost use Rattle.gil_values.specs.View.{value_view};
ghost use Rattle.pure_terms.specs.Pure as pure;
ghost use Rattle.pure_terms.specs.View.{term_view, terms_view};
ghost use Rattle.spec_vacuity.specs.Translation as made;
ghost use Rattle.spec_vacuity.specs.Translation.{Makes, variable_from};

use crate::variables::variable_of;
use gil_syntax::{Expr, Exprs, Params};
use gil_values::{Text, Value};
use pure_terms::{Literal, Term, Terms};
use std::alloc::{AllocError, AllocFailed, Global};
use std::rc::Rc;

/// Why there is no term of an expression.
#[derive(Clone, Copy, Debug, PartialEq, Eq)]
pub(crate) enum NoTerm {
    /// It names what isn't declared.
    Unknown,
    /// Memory ran out.
    Memory,
}

impl From<AllocError> for NoTerm {
    ghost use Rattle.std.specs.Prelude.{◌≡◌};
    ghost use Rattle.spec_vacuity.specs.declared.terms.NoTerm.TheVariants.{Memory};

    ghost from_gives = { λ _ e. e ≡ Memory };

    fn from(_error: AllocError) -> NoTerm {
        NoTerm::Memory
    }
}

impl<T: Drop> From<AllocFailed<T>> for NoTerm {
    ghost use Rattle.std.specs.Prelude.{◌≡◌};
    ghost use Rattle.spec_vacuity.specs.declared.terms.NoTerm.TheVariants.{Memory};

    ghost from_gives = { λ _ e. e ≡ Memory };

    fn from(_error: AllocFailed<T>) -> NoTerm {
        NoTerm::Memory
    }
}

/// The term of a literal.
fn literal_of(alloc: Global, value: &Value) -> Result<Term, NoTerm>
    ensures { Makes term_view result (made.literal_term (value_view value.now)) }
{
    match value {
        Value::Int(n) => Ok(Term::Lit(Literal::Int(*n))),
        Value::Bool(b) => Ok(Term::Lit(Literal::Bool(*b))),
        Value::Str(text) => Ok(Term::Lit(Literal::Str(text.copy(alloc)?))),
        Value::Kind(kind) => Ok(Term::Lit(Literal::Kind(*kind))),
        Value::Proc(name) => Ok(Term::Lit(Literal::Proc(name.copy(alloc)?))),
        Value::Sym(_) => Err(NoTerm::Unknown),
        Value::List(_) => Err(NoTerm::Unknown),
    }
}

/// The variable of a name, as a term.
fn named_term(variables: &Params, name: &Text) -> Result<Term, NoTerm>
    ensures { Makes term_view result (made.named_term (variable_from 0 variables.now) name.now) }
{
    match variable_of(variables, name) {
        Some(variable) => Ok(Term::Var(variable)),
        None => Err(NoTerm::Unknown),
    }
}

/// The term of an expression, with the variables of its names.
#[cycle(terms)]
pub(crate) fn term_of(alloc: Global, variables: &Params, expression: &Expr) -> Result<Term, NoTerm>
    ensures { Makes term_view result (made.term_of (variable_from 0 variables.now) (expr_view expression.now)) }
{
    match expression {
        Expr::Lit(value) => literal_of(alloc, value),
        Expr::Name(name) | Expr::Logical(name) => named_term(variables, name),
        Expr::List(elements) => {
            let terms = terms_of(alloc, variables, elements)?;
            Ok(Term::List(terms))
        }
        Expr::Op1(op, operand) => {
            let operand = term_of(alloc, variables, operand)?;
            Ok(Term::Op1(*op, Rc::new(alloc, operand)?))
        }
        Expr::Op2(op, left, right) => {
            let left = term_of(alloc, variables, left)?;
            let right = term_of(alloc, variables, right)?;
            Ok(Term::Op2(*op, Rc::new(alloc, left)?, Rc::new(alloc, right)?))
        }
    }
}

/// The terms of expressions, in their order.
#[cycle(terms)]
fn terms_of(alloc: Global, variables: &Params, expressions: &Exprs) -> Result<Terms, NoTerm>
    ensures { Makes (λ ts. pure.from_list (terms_view ts)) result
        (made.terms_of (variable_from 0 variables.now) (from_list (exprs_view expressions.now))) }
{
    let mut terms = Terms::new(alloc);
    for expression in expressions.as_slice() {
        terms.push(term_of(alloc, variables, expression)?)?;
    }
    Ok(terms)
}
