//! The checker of proofs, which takes no memory.
ghost use Rattle.std.specs.Prelude.{◌≡◌, ◌↔◌, List, [], ◌∷◌, true, false, slice_get, length, IsTrue};
ghost use Rattle.std.specs.Option.{option_map};
ghost use Rattle.pure_terms.specs.Meaning.{AreOver, IsUnsatisfiable};
ghost use Rattle.pure_terms.specs.View.{term_view, atoms_view};
ghost use Rattle.solver_proof.specs.Chains.{kind_fact_at};
ghost use Rattle.pure_terms.specs.declared.variables.Sort.{Sort};
ghost use Rattle.pure_terms.specs.Fragment.{is_integer_side, is_simple_equality, is_comparison};
ghost use Rattle.solver_proof.specs.Closing.{value_atoms, atoms_of_subject, kinds_of_values, all_kinds, may_split, Closes, CloseEach};
ghost use Rattle.solver_proof.specs.Lists.{fact_view, list_view, appended_view};
ghost use Rattle.solver_proof.specs.Pure.{cases_of, values_at, parts_apart, parts_at, differ_at, split_on, from_list};
ghost use Rattle.solver_proof.specs.View.{proof_view, proofs_view};

use crate::chains::chain_closes;
use crate::comparing::{
    false_closes, find_different_lists, find_equal_lists, is_variable, meet_closes,
};
use crate::facts::find_kind;
use crate::lists::{AtomList, Fact};
use crate::proofs::{Proof, Proofs};
use crate::sums::sum_closes;
use gil_values::{BinOp, Kind};
use pure_terms::{Atoms, Sort, Term, Terms, VarTable};

/// Whether a proof closes a list of atoms over the variables of a table. A proof that names other variables doesn't.
pub fn accepts(vars: &VarTable, atoms: &Atoms, proof: &Proof) -> bool
    ensures exact { IsTrue result ↔ Closes vars.now (atoms_view atoms.now) (proof_view proof.now) }
    ensures sound { AreOver vars.now (atoms_view atoms.now) → IsTrue result → IsUnsatisfiable vars.now (atoms_view atoms.now) }
{
    let list = AtomList::Given(atoms);
    closes(vars, &list, proof)
}

/// Atoms of which one after the other is appended.
#[derive(Clone, Copy)]
pub(crate) enum Appended<'a> {
    /// The term has this kind, for each kind that values have.
    Kinds(&'a Term),
    /// The term is true; it is false.
    Booleans(&'a Term),
    /// The term is this kind, for each kind.
    KindValues(&'a Term),
    /// The elements of two list terms differ, pair by pair.
    Differences(&'a Terms, &'a Terms),
}

/// Whether a proof closes a list.
#[cycle(closes)]
fn closes<'a>(vars: &VarTable, list: &'a AtomList<'a>, proof: &'a Proof) -> bool
    ensures { IsTrue result ↔ Closes vars.now (list_view list.now) (proof_view proof.now) }
{
    match proof {
        Proof::Sum(factors) => sum_closes(list, factors),
        Proof::False(place) => false_closes(list, *place),
        Proof::Chain(places, end) => chain_closes(list, places, *end),
        Proof::Cases(term, proofs) => cases_close(vars, list, term, proofs),
        Proof::Values(place, proofs) => values_close(vars, list, *place, proofs),
        Proof::Parts(place, rest) => match rest {
            Some(proof) => parts_close(vars, list, *place, proof),
            None => parts_apart(list, *place),
        },
        Proof::Differ(place, proofs) => differ_closes(vars, list, *place, proofs),
        Proof::Split(term, first, second) => split_closes(vars, list, term, first, second),
        Proof::Meet(first, second, third) => meet_closes(list, *first, *second, *third),
    }
}

#[cycle(closes)]
fn cases_close<'a>(
    vars: &VarTable,
    list: &'a AtomList<'a>,
    term: &'a Term,
    proofs: &'a Proofs,
) -> bool
    ensures { IsTrue result ↔ Closes vars.now (list_view list.now) (cases_of (term_view term.now) (from_list (proofs_view proofs.now))) }
{
    if !term.is_over(vars) {
        return false;
    }
    if !is_variable(term) {
        return false;
    }
    close_each(vars, list, Appended::Kinds(term), proofs)
}

#[cycle(closes)]
fn values_close<'a>(
    vars: &VarTable,
    list: &'a AtomList<'a>,
    place: usize,
    proofs: &'a Proofs,
) -> bool
    ensures { IsTrue result ↔ Closes vars.now (list_view list.now) (values_at place (from_list (proofs_view proofs.now))) }
{
    match find_values(list, place) {
        Some(more) => close_each(vars, list, more, proofs),
        None => false,
    }
}

#[cycle(closes)]
fn parts_close<'a>(vars: &VarTable, list: &'a AtomList<'a>, place: usize, proof: &'a Proof) -> bool
    ensures { IsTrue result ↔ Closes vars.now (list_view list.now) (parts_at place (proof_view proof.now)) }
{
    match find_equal_lists(list, place) {
        Some(lists) => {
            if lists.left.len() != lists.right.len() {
                return false;
            }
            let longer = AtomList::Parts(list, lists.left, lists.right);
            closes(vars, &longer, proof)
        }
        None => false,
    }
}

#[cycle(closes)]
fn differ_closes<'a>(
    vars: &VarTable,
    list: &'a AtomList<'a>,
    place: usize,
    proofs: &'a Proofs,
) -> bool
    ensures { IsTrue result ↔ Closes vars.now (list_view list.now) (differ_at place (from_list (proofs_view proofs.now))) }
{
    match find_different_lists(list, place) {
        Some(lists) => {
            if lists.left.len() != lists.right.len() {
                return false;
            }
            close_each(
                vars,
                list,
                Appended::Differences(lists.left, lists.right),
                proofs,
            )
        }
        None => false,
    }
}

#[cycle(closes)]
fn split_closes<'a>(
    vars: &VarTable,
    list: &'a AtomList<'a>,
    term: &'a Term,
    first: &'a Proof,
    second: &'a Proof,
) -> bool
    ensures { IsTrue result ↔ Closes vars.now (list_view list.now)
        (split_on (term_view term.now) (proof_view first.now) (proof_view second.now)) }
{
    if !term.is_over(vars) {
        return false;
    }
    if !may_split(term) {
        return false;
    }
    let holds = AtomList::More(list, Fact::Holds(term));
    if !closes(vars, &holds, first) {
        return false;
    }
    let fails = AtomList::More(list, Fact::Not(term));
    closes(vars, &fails, second)
}

/// Whether there is one proof for each of the atoms, and closes the list with that atom appended.
#[cycle(closes)]
fn close_each<'a>(
    vars: &VarTable,
    list: &'a AtomList<'a>,
    more: Appended<'a>,
    proofs: &'a Proofs,
) -> bool
    ensures { IsTrue result ↔ CloseEach vars.now (list_view list.now) (appended_view more.entry) (from_list (proofs_view proofs.now)) }
{
    if proofs.items.len() != count(more) {
        return false;
    }
    for (index, proof) in proofs.items.iter().enumerate() {
        match fact_of(more, index) {
            Some(fact) => {
                let longer = AtomList::More(list, fact);
                if !closes(vars, &longer, proof) {
                    return false;
                }
            }
            None => return false,
        }
    }
    true
}

/// Whether the atom at a place is an equality of list terms of other lengths.
fn parts_apart(list: &AtomList<'_>, place: usize) -> bool
    ensures { (vars : List Sort) → IsTrue result ↔ Closes vars (list_view list.now) (parts_apart place) }
{
    match find_equal_lists(list, place) {
        Some(lists) => lists.left.len() != lists.right.len(),
        None => false,
    }
}

/// Whether a list may be split by a term.
fn may_split(term: &Term) -> bool
    ensures { result ≡ may_split (term_view term.now) }
{
    term.is_variable_of(Sort::Bool) || is_simple_equality(term) || is_comparison(term)
}

fn is_simple_equality(term: &Term) -> bool
    ensures { result ≡ is_simple_equality (term_view term.now) }
{
    match term {
        Term::Op2(BinOp::Equal, left, right) => left.is_simple() && right.is_simple(),
        _ => false,
    }
}

fn is_comparison(term: &Term) -> bool
    ensures { result ≡ is_comparison (term_view term.now) }
{
    match term {
        Term::Op2(BinOp::Less, left, right) => is_integer_side(left) && is_integer_side(right),
        Term::Op2(BinOp::LessOrEqual, left, right) => {
            is_integer_side(left) && is_integer_side(right)
        }
        _ => false,
    }
}

fn is_integer_side(term: &Term) -> bool
    ensures { result ≡ is_integer_side (term_view term.now) }
{
    term.is_simple() && matches!(term.known_kind(), Some(Kind::Int))
}

/// The atoms of a variable and each value of the kind that the atom at a place says of it.
fn find_values<'a>(list: &AtomList<'a>, place: usize) -> Option<Appended<'a>>
    ensures { option_map appended_view result ≡ value_atoms (kind_fact_at (list_view list.now) place) }
{
    match find_kind(list, place) {
        Some(said) => {
            if !said.is_so {
                return None;
            }
            values_of(said.subject, said.kind)
        }
        None => None,
    }
}

fn values_of<'a>(subject: &'a Term, kind: Kind) -> Option<Appended<'a>>
    ensures { option_map appended_view result ≡ atoms_of_subject (term_view subject.now) kind }
{
    match subject {
        Term::Var(_) => match kind {
            Kind::Bool => Some(Appended::Booleans(subject)),
            Kind::Kind => Some(Appended::KindValues(subject)),
            _ => None,
        },
        _ => None,
    }
}

/// How many atoms there are.
fn count(more: Appended<'_>) -> usize
    ensures { result ≡ length (appended_view more.entry) }
{
    match more {
        Appended::Kinds(_) => 7,
        Appended::Booleans(_) => 2,
        Appended::KindValues(_) => 9,
        Appended::Differences(left, right) => left.len().min(right.len()),
    }
}

/// The atom at a place.
fn fact_of<'a>(more: Appended<'a>, place: usize) -> Option<Fact<'a>>
    ensures { option_map fact_view result ≡ slice_get (appended_view more.entry) place }
{
    match more {
        Appended::Kinds(term) => match kind_of_values(place) {
            Some(kind) => Some(Fact::KindIs(term, kind)),
            None => None,
        },
        Appended::Booleans(term) => match truth_at(place) {
            Some(truth) => Some(Fact::IsTruth(term, truth)),
            None => None,
        },
        Appended::KindValues(term) => match kind_at(place) {
            Some(kind) => Some(Fact::IsKind(term, kind)),
            None => None,
        },
        Appended::Differences(left, right) => match left.get(place) {
            Some(s) => match right.get(place) {
                Some(t) => Some(Fact::Differ(s, t)),
                None => None,
            },
            None => None,
        },
    }
}

fn truth_at(place: usize) -> Option<bool>
    ensures { result ≡ slice_get (true ∷ false ∷ []) place }
{
    match place {
        0 => Some(true),
        1 => Some(false),
        _ => None,
    }
}

fn kind_of_values(place: usize) -> Option<Kind>
    ensures { result ≡ slice_get kinds_of_values place }
{
    match place {
        0 => Some(Kind::Int),
        1 => Some(Kind::Bool),
        2 => Some(Kind::Str),
        3 => Some(Kind::Sym),
        4 => Some(Kind::Kind),
        5 => Some(Kind::Proc),
        6 => Some(Kind::List),
        _ => None,
    }
}

fn kind_at(place: usize) -> Option<Kind>
    ensures { result ≡ slice_get all_kinds place }
{
    match place {
        0 => Some(Kind::Int),
        1 => Some(Kind::Bool),
        2 => Some(Kind::Str),
        3 => Some(Kind::Sym),
        4 => Some(Kind::Kind),
        5 => Some(Kind::Proc),
        6 => Some(Kind::List),
        7 => Some(Kind::Undef),
        8 => Some(Kind::Null),
        _ => None,
    }
}
