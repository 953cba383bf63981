//! Whether a chain of equalities closes a list.
ghost use Rattle.std.specs.Prelude.{◌≡◌, ◌↔◌, IsTrue, Some, if◌then◌else◌, ◌||◌};
ghost use Rattle.std.specs.Option.{option_map};
ghost use Rattle.gil_values.specs.Equality.{same_kind};
ghost use Rattle.pure_terms.specs.Kinds.{is_of_kind, known_kind};
ghost use Rattle.pure_terms.specs.View.{term_view};
ghost use Rattle.solver_proof.specs.Chains.{kind_fact_at, are_different_literals, are_other_kinds, is_fresh_over, are_sides, is_empty_kind, is_against, are_facts_apart, are_against, end_closes};
ghost use Rattle.solver_proof.specs.Closing.{ChainCloses};
ghost use Rattle.solver_proof.specs.Lists.{list_view, pair_view, said_view, side_view};
ghost use Rattle.solver_proof.specs.Walks.{step_from, walk_from, closes_from, start_of_end, closes_chain};

use crate::facts::{Pair, Said, Side, are_same, find_disequality, find_equality, find_kind};
use crate::lists::AtomList;
use crate::proofs::{ChainEnd, Places};
use gil_values::Kind;
use pure_terms::{Literal, Sort, Term};

/// Whether the equalities at these places lead from a term to another that can't be equal.
pub(crate) fn chain_closes(list: &AtomList<'_>, places: &Places, end: ChainEnd) -> bool
    ensures { IsTrue result ↔ ChainCloses (list_view list.now) places.now end }
{
    closes_chain(list, places, end)
}

fn closes_chain(list: &AtomList<'_>, places: &Places, end: ChainEnd) -> bool
    ensures { result ≡ closes_chain (list_view list.now) places.now end }
{
    match places.get(0) {
        Some(first) => match find_equality(list, *first) {
            Some(sides) => {
                closes_from(list, places, end, sides.left)
                    || closes_from(list, places, end, sides.right)
            }
            None => false,
        },
        None => match start_of_end(list, end) {
            Some(start) => end_closes(list, end, start, start),
            None => false,
        },
    }
}

/// The one term from which a chain without equalities may lead to itself.
fn start_of_end<'a>(list: &AtomList<'a>, end: ChainEnd) -> Option<&'a Term>
    ensures { option_map (λ t. term_view t.now) result ≡ start_of_end (list_view list.now) end }
{
    match end {
        ChainEnd::Not(place) => match find_disequality(list, place) {
            Some(sides) => Some(sides.left),
            None => None,
        },
        ChainEnd::Kind(place) => subject_at(list, place),
        ChainEnd::BothKinds(place, _) => subject_at(list, place),
        ChainEnd::Literals => None,
        ChainEnd::Kinds => None,
        ChainEnd::Fresh => None,
    }
}

fn subject_at<'a>(list: &AtomList<'a>, place: usize) -> Option<&'a Term>
    ensures { option_map (λ t. term_view t.now) result ≡ option_map (λ fact. fact.subject) (kind_fact_at (list_view list.now) place) }
{
    match find_kind(list, place) {
        Some(said) => Some(said.subject),
        None => None,
    }
}

/// Whether the equalities lead from a term to one that can't be equal.
fn closes_from<'a>(list: &AtomList<'a>, places: &Places, end: ChainEnd, from: Side<'a>) -> bool
    ensures { result ≡ closes_from (list_view list.now) places.now end (side_view from.entry) }
{
    match walk(list, places, from) {
        Some(to) => sides_close(list, end, from, to),
        None => false,
    }
}

/// Where the equalities at these places lead from a term.
fn walk<'a>(list: &AtomList<'a>, places: &Places, from: Side<'a>) -> Option<Side<'a>>
    ensures { option_map side_view result ≡ walk_from (list_view list.now) places.now (side_view from.entry) }
{
    let mut at = from;
    for index in 0..places.len() {
        match places.get(index) {
            Some(place) => match step(list, *place, at) {
                Some(next) => at = next,
                None => return None,
            },
            None => {}
        }
    }
    Some(at)
}

/// The other side of the equality at a place.
fn step<'a>(list: &AtomList<'a>, place: usize, from: Side<'_>) -> Option<Side<'a>>
    ensures { option_map side_view result ≡ step_from (list_view list.now) (side_view from.entry) place }
{
    match find_equality(list, place) {
        Some(sides) => {
            if are_same(sides.left, from) {
                return Some(sides.right);
            }
            if are_same(sides.right, from) {
                return Some(sides.left);
            }
            None
        }
        None => None,
    }
}

/// Whether two sides that a chain links can't be equal.
fn sides_close(list: &AtomList<'_>, end: ChainEnd, s: Side<'_>, t: Side<'_>) -> bool
    ensures { result ≡ end_closes (list_view list.now) end (side_view s.entry) (side_view t.entry) }
{
    match s {
        Side::Of(term) => closes_with(list, end, term, t),
        Side::Truth(truth) => {
            let literal = Term::Lit(Literal::Bool(truth));
            closes_with(list, end, &literal, t)
        }
        Side::Kind(kind) => {
            let literal = Term::Lit(Literal::Kind(kind));
            closes_with(list, end, &literal, t)
        }
    }
}

fn closes_with(list: &AtomList<'_>, end: ChainEnd, s: &Term, t: Side<'_>) -> bool
    ensures { result ≡ end_closes (list_view list.now) end (term_view s.now) (side_view t.entry) }
{
    match t {
        Side::Of(term) => end_closes(list, end, s, term),
        Side::Truth(truth) => {
            let literal = Term::Lit(Literal::Bool(truth));
            end_closes(list, end, s, &literal)
        }
        Side::Kind(kind) => {
            let literal = Term::Lit(Literal::Kind(kind));
            end_closes(list, end, s, &literal)
        }
    }
}

/// Whether two terms that a chain links can't be equal.
fn end_closes(list: &AtomList<'_>, end: ChainEnd, s: &Term, t: &Term) -> bool
    ensures { result ≡ end_closes (list_view list.now) end (term_view s.now) (term_view t.now) }
{
    match end {
        ChainEnd::Literals => are_different_literals(s, t),
        ChainEnd::Kinds => are_other_kinds(s.known_kind(), t.known_kind()),
        ChainEnd::Fresh => is_fresh_over(s, t) || is_fresh_over(t, s),
        ChainEnd::Not(place) => are_sides(find_disequality(list, place), s, t),
        ChainEnd::Kind(place) => is_against(find_kind(list, place), s, t),
        ChainEnd::BothKinds(first, second) => {
            are_against(find_kind(list, first), find_kind(list, second), s, t)
        }
    }
}

/// Whether two terms are different literals.
pub fn are_different_literals(s: &Term, t: &Term) -> bool
    ensures { result ≡ are_different_literals (term_view s.now) (term_view t.now) }
{
    match s {
        Term::Lit(first) => match t {
            Term::Lit(second) => *first != *second,
            _ => false,
        },
        _ => false,
    }
}

/// Whether two kinds are told, and are different.
pub fn are_other_kinds(first: Option<Kind>, second: Option<Kind>) -> bool
    ensures { result ≡ are_other_kinds first second }
{
    match (first, second) {
        (Some(first), Some(second)) => !are_same_kind(first, second),
        _ => false,
    }
}

fn are_same_kind(first: Kind, second: Kind) -> bool
    ensures { result ≡ same_kind first second }
{
    first == second
}

fn is_known_kind(known: Option<Kind>, kind: Kind) -> bool
    ensures { result ≡ is_of_kind known kind }
{
    match known {
        Some(known) => are_same_kind(known, kind),
        None => false,
    }
}

/// Whether these are a Fresh variable and a term over variables with lower numbers.
pub fn is_fresh_over(s: &Term, t: &Term) -> bool
    ensures { result ≡ is_fresh_over (term_view s.now) (term_view t.now) }
{
    match s {
        Term::Var(variable) => {
            variable.sort == Sort::Fresh && t.names_only_below(variable.number)
        }
        _ => false,
    }
}

/// Whether two terms are these sides, either way round.
pub(crate) fn are_sides(sides: Option<Pair<'_>>, s: &Term, t: &Term) -> bool
    ensures { result ≡ are_sides (option_map pair_view sides.entry) (term_view s.now) (term_view t.now) }
{
    match sides {
        Some(sides) => {
            (*sides.left == *s && *sides.right == *t) || (*sides.left == *t && *sides.right == *s)
        }
        None => false,
    }
}

/// Undef and Null, which no value has as its kind.
fn is_empty_kind(kind: Kind) -> bool
    ensures { result ≡ is_empty_kind kind }
{
    matches!(kind, Kind::Undef | Kind::Null)
}

fn is_against(said: Option<Said<'_>>, s: &Term, t: &Term) -> bool
    ensures { result ≡ is_against (option_map said_view said.entry) (term_view s.now) (term_view t.now) }
{
    match said {
        Some(said) => *said.subject == *s && is_kind_against(said.kind, said.is_so, t),
        None => false,
    }
}

/// Whether a kind that is said or denied can't be that of a term.
fn is_kind_against(kind: Kind, is_so: bool, t: &Term) -> bool
    ensures { result ≡
        (if is_so then is_empty_kind kind || are_other_kinds (known_kind (term_view t.now)) (Some kind) else is_of_kind
        (known_kind (term_view t.now)) kind) }
{
    if is_so {
        is_empty_kind(kind) || are_other_kinds(t.known_kind(), Some(kind))
    } else {
        is_known_kind(t.known_kind(), kind)
    }
}

fn are_against(first: Option<Said<'_>>, second: Option<Said<'_>>, s: &Term, t: &Term) -> bool
    ensures { result ≡ are_against (option_map said_view first.entry) (option_map said_view second.entry) (term_view s.now)
        (term_view t.now) }
{
    match first {
        Some(first) => match second {
            Some(second) => {
                *first.subject == *s && *second.subject == *t && are_apart(&first, &second)
            }
            None => false,
        },
        None => false,
    }
}

/// Whether two things that are said of kinds can't both be true of one value.
fn are_apart(first: &Said<'_>, second: &Said<'_>) -> bool
    ensures { result ≡ are_facts_apart (said_view first.now) (said_view second.now) }
{
    if are_same_kind(first.kind, second.kind) {
        (first.is_so && !second.is_so) || (!first.is_so && second.is_so)
    } else {
        first.is_so && second.is_so
    }
}
