//! A list of atoms that grows while a proof is checked. What is appended is borrowed, so that checking takes no memory.
ghost use Rattle.std.specs.Prelude.{◌≡◌, ℕ, List, [], ◌∷◌, ◌++◌, slice_get};
ghost use Rattle.std.specs.Option.{option_map};
ghost use Rattle.pure_terms.specs.Pure.{PureAtom, from_list};
ghost use Rattle.pure_terms.specs.View.{atom_view, atoms_view, terms_view};
ghost use Rattle.solver_proof.specs.Closing.{element_equalities};
ghost use Rattle.solver_proof.specs.Lists.{fact_view, list_view, FindsAt};

use gil_values::Kind;
use pure_terms::{Atom, Atoms, Term, Terms};

/// What an atom says, with its parts borrowed.
#[derive(Clone, Copy)]
pub(crate) enum Fact<'a> {
    Holds(&'a Term),
    Not(&'a Term),
    Open(&'a Term),
    /// The two terms are equal.
    Equal(&'a Term, &'a Term),
    /// The two terms differ.
    Differ(&'a Term, &'a Term),
    /// The term has this kind.
    KindIs(&'a Term, Kind),
    /// The term is true, or false.
    IsTruth(&'a Term, bool),
    /// The term is this kind.
    IsKind(&'a Term, Kind),
}

/// Atoms that were given, and those that were appended.
#[derive(Clone, Copy)]
pub(crate) enum AtomList<'a> {
    Given(&'a Atoms),
    /// One atom more.
    More(&'a AtomList<'a>, Fact<'a>),
    /// The equalities of the elements of two list terms more.
    Parts(&'a AtomList<'a>, &'a Terms, &'a Terms),
}

/// What stands at a place of a list.
#[derive(Clone, Copy)]
pub(crate) enum Found<'a> {
    Here(Fact<'a>),
    /// The place lies so far past the end.
    Past(usize),
}

/// What stands at a place of a list, counted from 0.
pub(crate) fn fact_at<'a>(list: &AtomList<'a>, place: usize) -> Option<Fact<'a>>
    ensures { option_map fact_view result ≡ slice_get (list_view list.now) place }
{
    match find(list, place) {
        Found::Here(fact) => Some(fact),
        Found::Past(_) => None,
    }
}

/// The fact of an atom.
fn fact_of<'a>(atom: &'a Atom) -> Fact<'a>
    ensures { fact_view result ≡ atom_view atom.now }
{
    match atom {
        Atom::Holds(term) => Fact::Holds(term),
        Atom::Not(term) => Fact::Not(term),
        Atom::Open(term) => Fact::Open(term),
    }
}

fn find<'a>(list: &AtomList<'a>, place: usize) -> Found<'a>
    ensures { FindsAt (list_view list.now) place result }
{
    match list {
        AtomList::Given(atoms) => find_given(atoms, place),
        AtomList::More(rest, fact) => or_one(find(rest, place), *fact),
        AtomList::Parts(rest, left, right) => or_part(find(rest, place), left, right),
    }
}

fn find_given<'a>(atoms: &'a Atoms, place: usize) -> Found<'a>
    ensures { FindsAt (atoms_view atoms.now) place result }
{
    match atoms.get(place) {
        Some(atom) => Found::Here(fact_of(atom)),
        None => Found::Past(place - atoms.len()),
    }
}

/// What stands at a place where one fact more is in the list.
fn or_one<'a>(found: Found<'a>, fact: Fact<'a>) -> Found<'a>
    ensures { (atoms : List PureAtom) (i : ℕ) → FindsAt atoms i found.entry → FindsAt (atoms ++ fact_view fact.entry ∷ []) i result }
{
    match found {
        Found::Here(before) => Found::Here(before),
        Found::Past(past) => {
            if past == 0 {
                return Found::Here(fact);
            }
            Found::Past(past - 1)
        }
    }
}

/// What stands at a place where the equalities of the elements of two list terms are more in the list.
fn or_part<'a>(found: Found<'a>, left: &'a Terms, right: &'a Terms) -> Found<'a>
    ensures { (atoms : List PureAtom) (i : ℕ) → FindsAt atoms i found.entry
        → FindsAt (atoms ++ element_equalities (from_list (terms_view left.now)) (from_list (terms_view right.now))) i result }
{
    match found {
        Found::Here(before) => Found::Here(before),
        Found::Past(past) => find_part(left, right, past),
    }
}

/// The equality of the elements of two list terms at a place.
fn find_part<'a>(left: &'a Terms, right: &'a Terms, place: usize) -> Found<'a>
    ensures { FindsAt (element_equalities (from_list (terms_view left.now)) (from_list (terms_view right.now))) place result }
{
    match left.get(place) {
        Some(s) => match right.get(place) {
            Some(t) => Found::Here(Fact::Equal(s, t)),
            None => Found::Past(place - left.len().min(right.len())),
        },
        None => Found::Past(place - left.len().min(right.len())),
    }
}
