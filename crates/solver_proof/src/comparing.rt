//! What single atoms of a list tell: comparisons of literals, orders, and equalities of list terms.
ghost use Rattle.std.specs.Prelude.{◌≡◌, [], true, slice_get, Some};
ghost use Rattle.std.specs.Option.{option_map};
ghost use Rattle.pure_terms.specs.View.{term_view};
ghost use Rattle.pure_terms.specs.Meaning.{truth};
ghost use Rattle.pure_terms.specs.Pure.{positive, negative, opening};
ghost use Rattle.solver_proof.specs.Chains.{equals, disequality_at};
ghost use Rattle.solver_proof.specs.Closing.{compares, compares_literals, is_false_comparison, is_variable, lists_of_terms, equal_lists_at, different_lists_at, sides_of_at_most, at_most_of, at_most_at, meet};
ghost use Rattle.solver_proof.specs.Sums.{integer_of};
ghost use Rattle.solver_proof.specs.Lists.{fact_view, list_view, pair_view, lists_view};

use crate::chains::are_sides;
use crate::facts::{Pair, find_disequality, sides_of};
use crate::lists::{AtomList, Fact, fact_at};
use gil_values::BinOp;
use pure_terms::{Literal, Term, Terms};

/// The elements of two list terms.
#[derive(Clone, Copy)]
pub(crate) struct ListPair<'a> {
    pub(crate) left: &'a Terms,
    pub(crate) right: &'a Terms,
}

/// The list terms that the atom at a place says to be equal.
pub(crate) fn find_equal_lists<'a>(list: &AtomList<'a>, place: usize) -> Option<ListPair<'a>>
    ensures { option_map lists_view result ≡ equal_lists_at (list_view list.now) place }
{
    match fact_at(list, place) {
        Some(Fact::Holds(term)) => match sides_of(term) {
            Some(sides) => lists_of(sides.left, sides.right),
            None => None,
        },
        Some(Fact::Equal(left, right)) => lists_of(left, right),
        _ => None,
    }
}

/// The list terms that the atom at a place says to be different.
pub(crate) fn find_different_lists<'a>(list: &AtomList<'a>, place: usize) -> Option<ListPair<'a>>
    ensures { option_map lists_view result ≡ different_lists_at (list_view list.now) place }
{
    match find_disequality(list, place) {
        Some(sides) => lists_of(sides.left, sides.right),
        None => None,
    }
}

fn lists_of<'a>(left: &'a Term, right: &'a Term) -> Option<ListPair<'a>>
    ensures { option_map lists_view result ≡ lists_of_terms (term_view left.now) (term_view right.now) }
{
    match left {
        Term::List(left) => match right {
            Term::List(right) => Some(ListPair { left, right }),
            _ => None,
        },
        _ => None,
    }
}

/// Whether the atoms at these places say `s <= t`, `t <= s`, and that s and t differ.
pub(crate) fn meet_closes(list: &AtomList<'_>, first: usize, second: usize, third: usize) -> bool
    ensures { result ≡ meet (at_most_at (list_view list.now) first) (at_most_at (list_view list.now) second)
        (disequality_at (list_view list.now) third) }
{
    match find_at_most(list, first) {
        Some(up) => match find_at_most(list, second) {
            Some(down) => {
                *up.left == *down.right
                    && *up.right == *down.left
                    && are_sides(find_disequality(list, third), up.left, up.right)
            }
            None => false,
        },
        None => false,
    }
}

/// The two terms of which the atom at a place says `s <= t`.
fn find_at_most<'a>(list: &AtomList<'a>, place: usize) -> Option<Pair<'a>>
    ensures { option_map pair_view result ≡ at_most_at (list_view list.now) place }
{
    match fact_at(list, place) {
        Some(Fact::Holds(term)) => sides_of_at_most(term),
        _ => None,
    }
}

fn sides_of_at_most<'a>(term: &'a Term) -> Option<Pair<'a>>
    ensures { option_map pair_view result ≡ sides_of_at_most (term_view term.now) }
{
    match term {
        Term::Op2(BinOp::LessOrEqual, left, right) => Some(Pair { left, right }),
        _ => None,
    }
}

/// Whether a term is a variable.
pub(crate) fn is_variable(term: &Term) -> bool
    ensures { result ≡ is_variable (term_view term.now) }
{
    matches!(term, Term::Var(_))
}

/// Whether the atom at a place compares two literals and isn't true.
pub(crate) fn false_closes(list: &AtomList<'_>, place: usize) -> bool
    ensures { result ≡ is_false_comparison (slice_get (list_view list.now) place) }
{
    match fact_at(list, place) {
        Some(fact) => is_false_comparison(fact),
        None => false,
    }
}

fn is_false_comparison(fact: Fact<'_>) -> bool
    ensures { result ≡ is_false_comparison (Some (fact_view fact.entry)) }
{
    match fact {
        Fact::Holds(term) => compares_literals(term) && !is_true(term),
        Fact::Not(term) => compares_literals(term) && !is_false(term),
        Fact::Open(term) => compares_literals(term) && !is_told(term),
        Fact::Equal(left, right) => is_other_literal(left, right),
        Fact::Differ(left, right) => are_literals(left, right) && *left == *right,
        Fact::KindIs(_, _) => false,
        Fact::IsTruth(term, truth) => is_other_literal(term, &Term::Lit(Literal::Bool(truth))),
        Fact::IsKind(term, kind) => is_other_literal(term, &Term::Lit(Literal::Kind(kind))),
    }
}

/// Whether two terms are different literals.
fn is_other_literal(left: &Term, right: &Term) -> bool
    ensures { result ≡ is_false_comparison (Some (positive (equals (term_view left.now) (term_view right.now)))) }
{
    are_literals(left, right) && *left != *right
}

fn compares(op: BinOp) -> bool
    ensures { result ≡ compares op }
{
    matches!(op, BinOp::Equal | BinOp::Less | BinOp::LessOrEqual)
}

/// Whether a term compares two literals by `=`, `<` or `<=`.
fn compares_literals(term: &Term) -> bool
    ensures { result ≡ compares_literals (term_view term.now) }
{
    match term {
        Term::Op2(op, left, right) => match &**left {
            Term::Lit(_) => match &**right {
                Term::Lit(_) => compares(*op),
                _ => false,
            },
            _ => false,
        },
        _ => false,
    }
}

fn are_literals(left: &Term, right: &Term) -> bool
    ensures { result ≡ compares_literals (equals (term_view left.now) (term_view right.now)) }
{
    match left {
        Term::Lit(_) => match right {
            Term::Lit(_) => true,
            _ => false,
        },
        _ => false,
    }
}

/// Whether a comparison of literals is true.
fn is_true(term: &Term) -> bool
    ensures { compares_literals (term_view term.now) ≡ true → result ≡ truth [] (positive (term_view term.now)) }
{
    match term {
        Term::Op2(BinOp::Equal, left, right) => **left == **right,
        Term::Op2(BinOp::Less, left, right) => match integer(left) {
            Some(m) => match integer(right) {
                Some(n) => m < n,
                None => false,
            },
            None => false,
        },
        Term::Op2(BinOp::LessOrEqual, left, right) => match integer(left) {
            Some(m) => match integer(right) {
                Some(n) => m <= n,
                None => false,
            },
            None => false,
        },
        _ => false,
    }
}

/// Whether a comparison of literals is false.
fn is_false(term: &Term) -> bool
    ensures { compares_literals (term_view term.now) ≡ true → result ≡ truth [] (negative (term_view term.now)) }
{
    is_told(term) && !is_true(term)
}

/// Whether a comparison of literals says something: orders do so of whole numbers alone.
fn is_told(term: &Term) -> bool
    ensures { compares_literals (term_view term.now) ≡ true → result ≡ truth [] (opening (term_view term.now)) }
{
    match term {
        Term::Op2(BinOp::Equal, _, _) => true,
        Term::Op2(_, left, right) => left.is_integer_literal() && right.is_integer_literal(),
        _ => false,
    }
}

/// The number that an Int literal is.
pub(crate) fn integer(term: &Term) -> Option<i128>
    ensures { result ≡ integer_of (term_view term.now) }
{
    match term {
        Term::Lit(Literal::Int(n)) => Some(*n),
        _ => None,
    }
}
