//! Pairs of terms, and what atoms say of kinds.
ghost use Rattle.std.specs.Prelude.{◌≡◌, true, IfSome, IfNone};
ghost use Rattle.std.specs.Option.{option_map};
ghost use Rattle.pure_terms.specs.Pure.{PureTerm, PureTerms, variable, list_of, from_list, negative, positive};
ghost use Rattle.pure_terms.specs.declared.variables.Var.{Var};
ghost use Rattle.gil_values.specs.declared.kinds.Kind.{Kind};
ghost use Rattle.pure_terms.specs.Fragment.{is_flat, is_simple};
ghost use Rattle.pure_terms.specs.View.{term_view, terms_view, atom_view};
ghost use Rattle.equality_core.specs.Valued.{is_small_kind};
ghost use Rattle.solver_proof.specs.Chains.{equals, kind_is, kind_fact, kind_fact_of, kind_fact_of_term, are_facts_apart};
ghost use Rattle.solver_rules.specs.Atoms.{fact_view, is_against_kind, IsVariableKind};

use gil_values::{BinOp, Kind, UnOp};
use pure_terms::{Atom, Literal, Term, Terms};
use solver_proof::are_other_kinds;

/// Two terms.
#[derive(Clone, Copy)]
pub struct Pair<'a> {
    pub left: &'a Term,
    pub right: &'a Term,
}

/// What is said of a term's kind.
#[derive(Clone, Copy)]
pub(crate) struct Fact<'a> {
    pub(crate) subject: &'a Term,
    pub(crate) kind: Kind,
    pub(crate) is_so: bool,
}

/// The sides of an equality.
fn sides_of(term: &Term) -> Option<Pair<'_>>
    ensures found { IfSome result (λ p. term_view term.now ≡ equals (term_view p.left.now) (term_view p.right.now)) }
    ensures none { IfNone result ((s t : PureTerm) → term_view term.now ≡ equals s t → ⊥) }
{
    match term {
        Term::Op2(BinOp::Equal, left, right) => Some(Pair { left, right }),
        _ => None,
    }
}

/// The two terms that an atom says to be different.
pub fn disequality_of(atom: &Atom) -> Option<Pair<'_>>
    ensures found { IfSome result (λ p. atom_view atom.now ≡ negative (equals (term_view p.left.now) (term_view p.right.now))) }
    ensures none { IfNone result ((s t : PureTerm) → atom_view atom.now ≡ negative (equals s t) → ⊥) }
{
    match atom {
        Atom::Not(term) => sides_of(term),
        Atom::Holds(_) => None,
        Atom::Open(_) => None,
    }
}

/// The two terms of an equality that an atom says to hold.
pub(crate) fn equality_of(atom: &Atom) -> Option<Pair<'_>>
    ensures found { IfSome result (λ p. atom_view atom.now ≡ positive (equals (term_view p.left.now) (term_view p.right.now))) }
    ensures none { IfNone result ((s t : PureTerm) → atom_view atom.now ≡ positive (equals s t) → ⊥) }
{
    match atom {
        Atom::Holds(term) => sides_of(term),
        Atom::Not(_) => None,
        Atom::Open(_) => None,
    }
}

/// The elements of two list terms.
#[derive(Clone, Copy)]
pub(crate) struct ListPair<'a> {
    pub(crate) left: &'a Terms,
    pub(crate) right: &'a Terms,
}

/// The elements of a list term.
fn as_list(term: &Term) -> Option<&Terms>
    ensures found { IfSome result (λ ts. term_view term.now ≡ list_of (from_list (terms_view ts.now))) }
    ensures none { IfNone result ((ts : PureTerms) → term_view term.now ≡ list_of ts → ⊥) }
{
    match term {
        Term::List(terms) => Some(terms),
        Term::Lit(_) => None,
        Term::Var(_) => None,
        Term::Op1(_, _) => None,
        Term::Op2(_, _, _) => None,
    }
}

/// The elements of the list terms that an atom says to be different.
pub(crate) fn list_pair(atom: &Atom) -> Option<ListPair<'_>>
    ensures found { IfSome result (λ p. atom_view atom.now
        ≡ negative (equals (list_of (from_list (terms_view p.left.now))) (list_of (from_list (terms_view p.right.now))))) }
    ensures none { IfNone result ((ts us : PureTerms) → atom_view atom.now ≡ negative (equals (list_of ts) (list_of us)) → ⊥) }
{
    match disequality_of(atom) {
        Some(pair) => match as_list(pair.left) {
            Some(left) => match as_list(pair.right) {
                Some(right) => Some(ListPair { left, right }),
                None => None,
            },
            None => None,
        },
        None => None,
    }
}

/// What an equality says of a kind.
fn fact_of_sides<'a>(is_so: bool, left: &'a Term, right: &Term) -> Option<Fact<'a>>
    ensures { option_map fact_view result ≡ kind_fact is_so (term_view left.now) (term_view right.now) }
{
    match left {
        Term::Op1(UnOp::Kind, subject) => match right {
            Term::Lit(Literal::Kind(kind)) => Some(Fact {
                subject,
                kind: *kind,
                is_so,
            }),
            _ => None,
        },
        _ => None,
    }
}

/// What a term says of a kind, where it is true or false.
fn fact_of_term(is_so: bool, term: &Term) -> Option<Fact<'_>>
    ensures { option_map fact_view result ≡ kind_fact_of_term is_so (term_view term.now) }
{
    match term {
        Term::Op2(BinOp::Equal, left, right) => fact_of_sides(is_so, left, right),
        _ => None,
    }
}

/// What an atom says of a kind.
pub(crate) fn fact_of(atom: &Atom) -> Option<Fact<'_>>
    ensures { option_map fact_view result ≡ kind_fact_of (atom_view atom.now) }
{
    match atom {
        Atom::Holds(term) => fact_of_term(true, term),
        Atom::Not(term) => fact_of_term(false, term),
        Atom::Open(_) => None,
    }
}

/// Whether a kind has few values.
pub(crate) fn is_small(kind: Kind) -> bool
    ensures { result ≡ is_small_kind kind }
{
    match kind {
        Kind::Bool => true,
        Kind::Kind => true,
        Kind::Int => false,
        Kind::Str => false,
        Kind::Sym => false,
        Kind::Proc => false,
        Kind::List => false,
        Kind::Undef => false,
        Kind::Null => false,
    }
}

/// Whether what is said of a kind can't be said of a term with a known kind.
pub(crate) fn is_against(fact: Fact<'_>, known: Option<Kind>) -> bool
    ensures { result ≡ is_against_kind fact.entry.is_so fact.entry.kind known }
{
    if fact.is_so {
        matches!(fact.kind, Kind::Undef | Kind::Null) || are_other_kinds(known, Some(fact.kind))
    } else {
        match known {
            Some(kind) => kind == fact.kind,
            None => false,
        }
    }
}

/// Whether two facts about terms that are equal can't both be so.
pub(crate) fn are_apart(first: Fact<'_>, second: Fact<'_>) -> bool
    ensures { result ≡ are_facts_apart (fact_view first.entry) (fact_view second.entry) }
{
    if first.kind == second.kind {
        first.is_so != second.is_so
    } else {
        first.is_so && second.is_so
    }
}

/// Whether a term is a literal or a variable.
pub(crate) fn is_flat(term: &Term) -> bool
    ensures { result ≡ is_flat (term_view term.now) }
{
    matches!(term, Term::Lit(_) | Term::Var(_))
}

/// The literals or variables that an atom says to be different.
pub fn flat_disequality(atom: &Atom) -> Option<Pair<'_>>
    ensures found { IfSome result (λ p. atom_view atom.now ≡ negative (equals (term_view p.left.now) (term_view p.right.now))) }
    ensures left { IfSome result (λ p. is_flat (term_view p.left.now) ≡ true) }
    ensures right { IfSome result (λ p. is_flat (term_view p.right.now) ≡ true) }
    ensures none { IfNone result ((s t : PureTerm) → atom_view atom.now ≡ negative (equals s t) → is_flat s ≡ true → is_flat t ≡ true → ⊥) }
{
    match disequality_of(atom) {
        Some(pair) => {
            if is_flat(pair.left) && is_flat(pair.right) {
                return Some(pair);
            }
            None
        }
        None => None,
    }
}

/// The kind that an atom says of a variable.
pub(crate) fn variable_kind(atom: &Atom) -> Option<Fact<'_>>
    ensures found { IfSome result (λ f. IsVariableKind (atom_view atom.now) (term_view f.subject.now) f.kind) }
    ensures none { IfNone result ((x : Var) (k : Kind) → atom_view atom.now ≡ positive (kind_is (variable x) k) → ⊥) }
{
    match atom {
        Atom::Holds(term) => match fact_of_term(true, term) {
            Some(fact) => match fact.subject {
                Term::Var(_) => Some(fact),
                _ => None,
            },
            None => None,
        },
        Atom::Not(_) => None,
        Atom::Open(_) => None,
    }
}

/// The terms that an atom says to be equal, of which the first one is simple.
pub(crate) fn simple_equality(atom: &Atom) -> Option<Pair<'_>>
    ensures found { IfSome result (λ p. atom_view atom.now ≡ positive (equals (term_view p.left.now) (term_view p.right.now))) }
    ensures simple { IfSome result (λ p. is_simple (term_view p.left.now) ≡ true) }
    ensures none { IfNone result ((s t : PureTerm) → atom_view atom.now ≡ positive (equals s t) → is_simple s ≡ true → ⊥) }
{
    match equality_of(atom) {
        Some(pair) => {
            if pair.left.is_simple() {
                return Some(pair);
            }
            None
        }
        None => None,
    }
}
