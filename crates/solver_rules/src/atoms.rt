//! Atoms that a list is searched for, and terms that are made.
ghost use Rattle.std.specs.Prelude.{◌≡◌, ◌↔◌, map, slice_get, IsTrue, IfOk, IfSome, IfNone, Some};
ghost use Rattle.pure_terms.specs.Pure.{binary_of, from_list};
ghost use Rattle.pure_terms.specs.View.{term_view, atom_view, atoms_view};
ghost use Rattle.solver_rules.specs.Rules.{said, IsUnsaid, IsUndecided, SaysDifferent, SaysPositive, ElementsDiffer};

use gil_values::BinOp;
use pure_terms::{Atom, Atoms, Term};
use std::alloc::{AllocError, Global};
use std::rc::Rc;

pub(crate) fn are_same(s: &Term, t: &Term) -> bool
    ensures { IsTrue result ↔ (term_view s.now ≡ term_view t.now) }
{
    *s == *t
}

/// Whether a term is that of two others under an operator.
fn is_joined(term: &Term, op: BinOp, s: &Term, t: &Term) -> bool
    ensures { IsTrue result ↔ (term_view term.now ≡ binary_of op (term_view s.now) (term_view t.now)) }
{
    match term {
        Term::Op2(found, left, right) => { *found == op && are_same(left, s) && are_same(right, t) }
        _ => false,
    }
}

/// Whether an atom says that the term of two others under an operator is true, or that it is false.
fn says(atom: &Atom, is_true: bool, op: BinOp, s: &Term, t: &Term) -> bool
    ensures { IsTrue result ↔ (atom_view atom.now ≡ said is_true (binary_of op (term_view s.now) (term_view t.now))) }
{
    match atom {
        Atom::Holds(term) => is_true && is_joined(term, op, s, t),
        Atom::Not(term) => !is_true && is_joined(term, op, s, t),
        Atom::Open(_) => false,
    }
}

/// The place where a list says that the term of two others under an operator is true, or that it is false.
pub(crate) fn find_said(list: &Atoms, is_true: bool, op: BinOp, s: &Term, t: &Term) -> Option<usize>
    ensures found { IfSome result (λ i. slice_get (atoms_view list.now) i ≡ Some (said is_true (binary_of op (term_view s.now) (term_view t.now)))) }
    ensures none { IfNone result (IsUnsaid (atoms_view list.now) (said is_true (binary_of op (term_view s.now) (term_view t.now)))) }
{
    let atoms = list.as_slice();
    for (place, atom) in atoms.iter().enumerate() {
        if says(atom, is_true, op, s, t) {
            return Some(place);
        }
    }
    None
}

/// Whether a list says of the term of two others under an operator neither that it is true nor that it is false.
pub fn is_undecided(list: &Atoms, op: BinOp, s: &Term, t: &Term) -> bool
    ensures { IsTrue result ↔ IsUndecided (atoms_view list.now) (binary_of op (term_view s.now) (term_view t.now)) }
{
    find_said(list, true, op, s, t).is_none() && find_said(list, false, op, s, t).is_none()
}

/// Whether a list says that two terms differ.
pub(crate) fn says_different(list: &Atoms, s: &Term, t: &Term) -> bool
    ensures { IsTrue result ↔ SaysDifferent (atoms_view list.now) (term_view s.now) (term_view t.now) }
{
    if find_said(list, false, BinOp::Equal, s, t).is_some() {
        return true;
    }
    find_said(list, false, BinOp::Equal, t, s).is_some()
}

/// Whether a list says that two terms are equal.
pub(crate) fn says_equal(list: &Atoms, s: &Term, t: &Term) -> bool
    ensures { IsTrue result ↔ SaysPositive (atoms_view list.now) (term_view s.now) (term_view t.now) }
{
    if find_said(list, true, BinOp::Equal, s, t).is_some() {
        return true;
    }
    find_said(list, true, BinOp::Equal, t, s).is_some()
}

/// Whether a list says that some elements of two lists of terms differ.
pub(crate) fn elements_differ(list: &Atoms, left: &[Term], right: &[Term]) -> bool
    ensures { IsTrue result ↔ ElementsDiffer (atoms_view list.now) (from_list (map term_view left.now)) (from_list (map term_view right.now)) }
{
    match left {
        [] => false,
        [first, left_rest @ ..] => match right {
            [] => false,
            [second, right_rest @ ..] => {
                if says_different(list, first, second) {
                    return true;
                }
                elements_differ(list, left_rest, right_rest)
            }
        },
    }
}

/// The term of two others under an operator.
pub(crate) fn joined(alloc: Global, op: BinOp, s: &Term, t: &Term) -> Result<Term, AllocError>
    ensures { IfOk result (λ u. term_view u ≡ binary_of op (term_view s.now) (term_view t.now)) }
{
    let s = s.copy(alloc)?;
    let t = t.copy(alloc)?;
    Ok(Term::Op2(op, Rc::new(alloc, s)?, Rc::new(alloc, t)?))
}
