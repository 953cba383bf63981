//! Comparing terms, and asking their kinds.
ghost use Rattle.std.specs.Prelude.{◌≡◌, IfOk};
ghost use Rattle.pure_terms.specs.View.{term_view, atom_view};
ghost use Rattle.pure_terms.specs.Kinds.{known_kind};
ghost use Rattle.sym_model.specs.Alternatives.{alternatives_view, equal, kind_is as kind_term, same, other, of_kind, not_of_kind};
ghost use Rattle.sym_model.specs.Comparing.{are_other_kinds, is_fresh_above, are_apart, compared};
ghost use Rattle.sym_model.specs.Terms.{is_literal};

use crate::combining::{Alternatives, always, asked, never};
use gil_values::{BinOp, Kind, UnOp};
use pure_terms::{Atom, Literal, Sort, Term};
use std::alloc::{AllocError, Global};
use std::rc::Rc;

/// What is known of whether two terms have equal values.
#[derive(Clone, Copy, Debug, PartialEq, Eq)]
pub enum Comparison {
    /// They are the same term.
    Same,
    /// Their values differ under every proper valuation.
    Different,
    /// It has to be asked.
    Unsure,
}

/// Compares two terms by their forms and their variables' sorts.
pub fn compare(s: &Term, t: &Term) -> Comparison
    ensures { result ≡ compared (term_view s.now) (term_view t.now) }
{
    if *s == *t {
        return Comparison::Same;
    }
    if surely_differ(s, t) {
        return Comparison::Different;
    }
    Comparison::Unsure
}

fn surely_differ(s: &Term, t: &Term) -> bool
    ensures { result ≡ are_apart (term_view s.now) (term_view t.now) }
{
    (is_literal(s) && is_literal(t))
        || have_other_kinds(s, t)
        || is_fresh_above(s, t)
        || is_fresh_above(t, s)
}

fn is_literal(t: &Term) -> bool
    ensures { result ≡ is_literal (term_view t.now) }
{
    match t {
        Term::Lit(_) => true,
        _ => false,
    }
}

fn have_other_kinds(s: &Term, t: &Term) -> bool
    ensures { result ≡ are_other_kinds (known_kind (term_view s.now)) (known_kind (term_view t.now)) }
{
    match (s.known_kind(), t.known_kind()) {
        (Some(k), Some(l)) => k != l,
        _ => false,
    }
}

fn is_fresh_above(s: &Term, t: &Term) -> bool
    ensures { result ≡ is_fresh_above (term_view s.now) (term_view t.now) }
{
    match s {
        Term::Var(x) => x.sort == Sort::Fresh && t.names_only_below(x.number),
        _ => false,
    }
}

/// `(s = t)`.
fn equality(alloc: Global, s: &Term, t: &Term) -> Result<Term, AllocError>
    ensures { IfOk result (λ u. term_view u ≡ equal (term_view s.now) (term_view t.now)) }
{
    let left = Rc::new(alloc, s.copy(alloc)?)?;
    let right = Rc::new(alloc, t.copy(alloc)?)?;
    Ok(Term::Op2(BinOp::Equal, left, right))
}

/// `(kind(t) = K)`.
fn kind_question(alloc: Global, t: &Term, kind: Kind) -> Result<Term, AllocError>
    ensures { IfOk result (λ u. term_view u ≡ kind_term (term_view t.now) kind) }
{
    let operand = Rc::new(alloc, t.copy(alloc)?)?;
    let left = Rc::new(alloc, Term::Op1(UnOp::Kind, operand))?;
    let right = Rc::new(alloc, Term::Lit(Literal::Kind(kind)))?;
    Ok(Term::Op2(BinOp::Equal, left, right))
}

/// The conditions under which two terms have equal values.
pub fn terms_equal(alloc: Global, s: &Term, t: &Term) -> Result<Alternatives, AllocError>
    ensures { IfOk result (λ x. alternatives_view x ≡ same (term_view s.now) (term_view t.now)) }
{
    match compare(s, t) {
        Comparison::Same => always(alloc),
        Comparison::Different => Ok(never(alloc)),
        Comparison::Unsure => asked(alloc, Atom::Holds(equality(alloc, s, t)?)),
    }
}

/// The conditions under which two terms have different values.
pub fn terms_differ(alloc: Global, s: &Term, t: &Term) -> Result<Alternatives, AllocError>
    ensures { IfOk result (λ x. alternatives_view x ≡ other (term_view s.now) (term_view t.now)) }
{
    match compare(s, t) {
        Comparison::Same => Ok(never(alloc)),
        Comparison::Different => always(alloc),
        Comparison::Unsure => asked(alloc, Atom::Not(equality(alloc, s, t)?)),
    }
}

/// The conditions under which a term's value is of a kind.
pub fn kind_is(alloc: Global, t: &Term, kind: Kind) -> Result<Alternatives, AllocError>
    ensures { IfOk result (λ x. alternatives_view x ≡ of_kind (term_view t.now) kind) }
{
    match t.known_kind() {
        Some(known) => {
            if known == kind {
                always(alloc)
            } else {
                Ok(never(alloc))
            }
        }
        None => asked(alloc, Atom::Holds(kind_question(alloc, t, kind)?)),
    }
}

/// The conditions under which a term's value is of another kind.
pub fn kind_is_not(alloc: Global, t: &Term, kind: Kind) -> Result<Alternatives, AllocError>
    ensures { IfOk result (λ x. alternatives_view x ≡ not_of_kind (term_view t.now) kind) }
{
    match t.known_kind() {
        Some(known) => {
            if known == kind {
                Ok(never(alloc))
            } else {
                always(alloc)
            }
        }
        None => asked(alloc, Atom::Not(kind_question(alloc, t, kind)?)),
    }
}
