//! Comparing numbers.
ghost use Rattle.std.specs.Prelude.{◌≡◌, IfOk};
ghost use Rattle.gil_values.specs.declared.kinds.Kind.{Kind};
ghost use Rattle.pure_terms.specs.Kinds.{allows, known_kind};
ghost use Rattle.pure_terms.specs.Pure.{binary_of};
ghost use Rattle.pure_terms.specs.View.{term_view};
ghost use Rattle.sym_chunks.specs.Ordering.{
  less_than,
  not_above,
  literals_less as literals_less_of,
  literals_at_most as literals_at_most_of,
  less as less_of,
  at_most as at_most_of,
  outside as outside_of,
  inside as inside_of,
};
ghost use Rattle.sym_model.specs.Alternatives.{alternatives_view};
ghost use Rattle.sym_model.specs.Cores.{zero_term};
ghost use Rattle.sym_model.specs.Terms.{may_be_ordered};

use gil_values::{BinOp, Kind};
use pure_terms::{Atom, Literal, Term};
use std::alloc::{AllocError, Global};
use std::rc::Rc;
use sym_model::{Alternatives, Comparison, always, asked, both, compare, extend, never};

fn may_be_number(t: &Term) -> bool
    ensures { result ≡ allows (known_kind (term_view t.now)) Kind.Int }
{
    match t.known_kind() {
        Some(kind) => kind == Kind::Int,
        None => true,
    }
}

/// Whether the kinds of the terms, where they are known, are those of numbers.
fn may_be_ordered(s: &Term, t: &Term) -> bool
    ensures { result ≡ may_be_ordered (term_view s.now) (term_view t.now) }
{
    may_be_number(s) && may_be_number(t)
}

/// `(s op t)`.
fn comparison(alloc: Global, op: BinOp, s: &Term, t: &Term) -> Result<Term, AllocError>
    ensures { IfOk result (λ u. term_view u ≡ binary_of op (term_view s.now) (term_view t.now)) }
{
    let left = Rc::new(alloc, s.copy(alloc)?)?;
    let right = Rc::new(alloc, t.copy(alloc)?)?;
    Ok(Term::Op2(op, left, right))
}

fn literals_less(alloc: Global, s: &Term, t: &Term) -> Result<Alternatives, AllocError>
    ensures { IfOk result (λ x. alternatives_view x ≡ literals_less_of (term_view s.now) (term_view t.now)) }
{
    match (s, t) {
        (Term::Lit(Literal::Int(m)), Term::Lit(Literal::Int(n))) => {
            if *m < *n {
                always(alloc)
            } else {
                Ok(never(alloc))
            }
        }
        _ => Ok(never(alloc)),
    }
}

fn literals_at_most(alloc: Global, s: &Term, t: &Term) -> Result<Alternatives, AllocError>
    ensures { IfOk result (λ x. alternatives_view x ≡ literals_at_most_of (term_view s.now) (term_view t.now)) }
{
    match (s, t) {
        (Term::Lit(Literal::Int(m)), Term::Lit(Literal::Int(n))) => {
            if *m <= *n {
                always(alloc)
            } else {
                Ok(never(alloc))
            }
        }
        _ => Ok(never(alloc)),
    }
}

/// The conditions under which the value of a term is less than that of another one.
pub fn less(alloc: Global, s: &Term, t: &Term) -> Result<Alternatives, AllocError>
    ensures { IfOk result (λ x. alternatives_view x ≡ less_of (term_view s.now) (term_view t.now)) }
{
    if !may_be_ordered(s, t) {
        return Ok(never(alloc));
    }
    match compare(s, t) {
        Comparison::Same => Ok(never(alloc)),
        Comparison::Different => literals_less(alloc, s, t),
        Comparison::Unsure => asked(alloc, Atom::Holds(comparison(alloc, BinOp::Less, s, t)?)),
    }
}

/// The conditions under which the value of a term is at most that of another one.
pub fn at_most(alloc: Global, s: &Term, t: &Term) -> Result<Alternatives, AllocError>
    ensures { IfOk result (λ x. alternatives_view x ≡ at_most_of (term_view s.now) (term_view t.now)) }
{
    if !may_be_ordered(s, t) {
        return Ok(never(alloc));
    }
    match compare(s, t) {
        Comparison::Same => always(alloc),
        Comparison::Different => literals_at_most(alloc, s, t),
        Comparison::Unsure => {
            asked(
                alloc,
                Atom::Holds(comparison(alloc, BinOp::LessOrEqual, s, t)?),
            )
        }
    }
}

fn zero() -> Term
    ensures { term_view result ≡ zero_term }
{
    Term::Lit(Literal::Int(0))
}

/// The conditions under which an offset is below 0, or at a bound or above it.
pub fn outside(alloc: Global, offset: &Term, bound: &Term) -> Result<Alternatives, AllocError>
    ensures { IfOk result (λ x. alternatives_view x ≡ outside_of (term_view offset.now) (term_view bound.now)) }
{
    let below = less(alloc, offset, &zero())?;
    extend(alloc, below, &at_most(alloc, bound, offset)?)
}

/// The conditions under which an offset is from 0 up to a bound.
pub fn inside(alloc: Global, offset: &Term, bound: &Term) -> Result<Alternatives, AllocError>
    ensures { IfOk result (λ x. alternatives_view x ≡ inside_of (term_view offset.now) (term_view bound.now)) }
{
    let above = at_most(alloc, &zero(), offset)?;
    both(alloc, &above, &less(alloc, offset, bound)?)
}
