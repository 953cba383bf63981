//! What the atoms of a list say: equalities, disequalities and kinds.
ghost use Rattle.std.specs.Prelude.{◌≡◌, true, Some};
ghost use Rattle.std.specs.Option.{option_map};
ghost use Rattle.pure_terms.specs.declared.literals.Literal.{Literal};
ghost use Rattle.pure_terms.specs.Equality.{same_term};
ghost use Rattle.pure_terms.specs.Pure.{literal};
ghost use Rattle.pure_terms.specs.View.{term_view};
ghost use Rattle.solver_proof.specs.Chains.{sides_of_equality, sides_of_variable, unless_kind_fact, equality_of, disequality_of, kind_fact, kind_fact_of_term, kind_fact_of, equality_at, disequality_at, kind_fact_at};
ghost use Rattle.solver_proof.specs.Lists.{fact_view, list_view, pair_view, link_view, said_view, side_view};

use crate::lists::{AtomList, Fact, fact_at};
use gil_values::{BinOp, Kind, UnOp};
use pure_terms::{Literal, Sort, Term};

/// Two terms.
#[derive(Clone, Copy)]
pub(crate) struct Pair<'a> {
    pub(crate) left: &'a Term,
    pub(crate) right: &'a Term,
}

/// A side of an equality: a term, or a literal.
#[derive(Clone, Copy)]
pub(crate) enum Side<'a> {
    Of(&'a Term),
    Truth(bool),
    Kind(Kind),
}

/// Two sides that an atom says to be equal.
#[derive(Clone, Copy)]
pub(crate) struct Link<'a> {
    pub(crate) left: Side<'a>,
    pub(crate) right: Side<'a>,
}

/// What is said of a term's kind.
#[derive(Clone, Copy)]
pub(crate) struct Said<'a> {
    pub(crate) subject: &'a Term,
    pub(crate) kind: Kind,
    pub(crate) is_so: bool,
}

/// The two terms that the atom at a place says to be equal.
pub(crate) fn find_equality<'a>(list: &AtomList<'a>, place: usize) -> Option<Link<'a>>
    ensures { option_map link_view result ≡ equality_at (list_view list.now) place }
{
    match fact_at(list, place) {
        Some(fact) => equality_of(fact),
        None => None,
    }
}

/// The two terms that the atom at a place says to be different.
pub(crate) fn find_disequality<'a>(list: &AtomList<'a>, place: usize) -> Option<Pair<'a>>
    ensures { option_map pair_view result ≡ disequality_at (list_view list.now) place }
{
    match fact_at(list, place) {
        Some(fact) => disequality_of(fact),
        None => None,
    }
}

/// Whether two sides are the same term.
pub(crate) fn are_same(first: Side<'_>, second: Side<'_>) -> bool
    ensures { result ≡ same_term (side_view first.entry) (side_view second.entry) }
{
    match first {
        Side::Of(term) => is_side(term, second),
        Side::Truth(truth) => {
            let literal = Term::Lit(Literal::Bool(truth));
            is_side(&literal, second)
        }
        Side::Kind(kind) => {
            let literal = Term::Lit(Literal::Kind(kind));
            is_side(&literal, second)
        }
    }
}

fn is_side(term: &Term, side: Side<'_>) -> bool
    ensures { result ≡ same_term (term_view term.now) (side_view side.entry) }
{
    match side {
        Side::Of(other) => *term == *other,
        Side::Truth(truth) => *term == Term::Lit(Literal::Bool(truth)),
        Side::Kind(kind) => *term == Term::Lit(Literal::Kind(kind)),
    }
}

/// What the atom at a place says of a term's kind.
pub(crate) fn find_kind<'a>(list: &AtomList<'a>, place: usize) -> Option<Said<'a>>
    ensures { option_map said_view result ≡ kind_fact_at (list_view list.now) place }
{
    match fact_at(list, place) {
        Some(fact) => kind_of_fact(fact),
        None => None,
    }
}

fn equality_of<'a>(fact: Fact<'a>) -> Option<Link<'a>>
    ensures { option_map link_view result ≡ equality_of (fact_view fact.entry) }
{
    match fact {
        Fact::Holds(term) => match link_of(term) {
            Some(pair) => Some(pair),
            None => truth_of(term, true),
        },
        Fact::Not(term) => truth_of(term, false),
        Fact::Equal(left, right) => link_between(left, right),
        Fact::Differ(_, _) => None,
        Fact::Open(_) => None,
        Fact::KindIs(_, _) => None,
        Fact::IsTruth(term, truth) => Some(Link {
            left: Side::Of(term),
            right: Side::Truth(truth),
        }),
        Fact::IsKind(term, kind) => kind_link(term, kind),
    }
}

/// A term, and a kind that it is said to be, where this is no test of a kind.
fn kind_link<'a>(term: &'a Term, kind: Kind) -> Option<Link<'a>>
    ensures { option_map link_view result ≡ unless_kind_fact (kind_fact true (term_view term.now) (literal (Literal.Kind kind)))
        (Some (record { left = term_view term.now; right = literal (Literal.Kind kind) })) }
{
    match term {
        Term::Op1(UnOp::Kind, _) => None,
        _ => Some(Link {
            left: Side::Of(term),
            right: Side::Kind(kind),
        }),
    }
}

/// The two sides of an equality that is no test of a kind.
fn link_of<'a>(term: &'a Term) -> Option<Link<'a>>
    ensures { option_map link_view result ≡ unless_kind_fact (kind_fact_of_term true (term_view term.now))
        (sides_of_equality (term_view term.now)) }
{
    match term {
        Term::Op2(BinOp::Equal, left, right) => link_between(left, right),
        _ => None,
    }
}

/// Two sides, where they are no test of a kind.
fn link_between<'a>(left: &'a Term, right: &'a Term) -> Option<Link<'a>>
    ensures { option_map link_view result ≡ unless_kind_fact (kind_fact true (term_view left.now) (term_view right.now))
        (Some (record { left = term_view left.now; right = term_view right.now })) }
{
    match kind_said(left, right, true) {
        Some(_) => None,
        None => Some(Link {
            left: Side::Of(left),
            right: Side::Of(right),
        }),
    }
}

/// A Bool variable, and whether it is said to be true.
fn truth_of<'a>(term: &'a Term, truth: bool) -> Option<Link<'a>>
    ensures { option_map link_view result ≡ sides_of_variable truth (term_view term.now) }
{
    match term {
        Term::Var(variable) => {
            if variable.sort == Sort::Bool {
                return Some(Link {
                    left: Side::Of(term),
                    right: Side::Truth(truth),
                });
            }
            None
        }
        _ => None,
    }
}

fn disequality_of<'a>(fact: Fact<'a>) -> Option<Pair<'a>>
    ensures { option_map pair_view result ≡ disequality_of (fact_view fact.entry) }
{
    match fact {
        Fact::Not(term) => sides_of(term),
        Fact::Differ(left, right) => Some(Pair { left, right }),
        Fact::Holds(_) => None,
        Fact::Open(_) => None,
        Fact::Equal(_, _) => None,
        Fact::KindIs(_, _) => None,
        Fact::IsTruth(_, _) => None,
        Fact::IsKind(_, _) => None,
    }
}

/// The two sides of an equality.
pub(crate) fn sides_of<'a>(term: &'a Term) -> Option<Pair<'a>>
    ensures { option_map pair_view result ≡ sides_of_equality (term_view term.now) }
{
    match term {
        Term::Op2(BinOp::Equal, left, right) => Some(Pair { left, right }),
        _ => None,
    }
}

fn kind_of_fact<'a>(fact: Fact<'a>) -> Option<Said<'a>>
    ensures { option_map said_view result ≡ kind_fact_of (fact_view fact.entry) }
{
    match fact {
        Fact::Holds(term) => kind_of_term(term, true),
        Fact::Not(term) => kind_of_term(term, false),
        Fact::Equal(left, right) => kind_said(left, right, true),
        Fact::Differ(left, right) => kind_said(left, right, false),
        Fact::KindIs(subject, kind) => Some(Said {
            subject,
            kind,
            is_so: true,
        }),
        Fact::IsKind(term, kind) => kind_of_kind(term, kind),
        Fact::IsTruth(_, _) => None,
        Fact::Open(_) => None,
    }
}

/// What is said where a term is a kind: of another term's kind, where it is `kind` of that.
fn kind_of_kind<'a>(term: &'a Term, kind: Kind) -> Option<Said<'a>>
    ensures { option_map said_view result ≡ kind_fact true (term_view term.now) (literal (Literal.Kind kind)) }
{
    match term {
        Term::Op1(UnOp::Kind, subject) => Some(Said {
            subject,
            kind,
            is_so: true,
        }),
        _ => None,
    }
}

fn kind_of_term<'a>(term: &'a Term, is_so: bool) -> Option<Said<'a>>
    ensures { option_map said_view result ≡ kind_fact_of_term is_so (term_view term.now) }
{
    match term {
        Term::Op2(BinOp::Equal, left, right) => kind_said(left, right, is_so),
        _ => None,
    }
}

/// What `=` of two terms says of a kind.
fn kind_said<'a>(left: &'a Term, right: &'a Term, is_so: bool) -> Option<Said<'a>>
    ensures { option_map said_view result ≡ kind_fact is_so (term_view left.now) (term_view right.now) }
{
    match left {
        Term::Op1(UnOp::Kind, subject) => match right {
            Term::Lit(Literal::Kind(kind)) => Some(Said {
                subject,
                kind: *kind,
                is_so,
            }),
            _ => None,
        },
        _ => None,
    }
}
