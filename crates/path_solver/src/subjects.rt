//! What the atoms say by which a list is split.
ghost use Rattle.std.specs.Prelude.{◌≡◌, IfSome, IfNone};
ghost use Rattle.gil_values.specs.declared.kinds.Kind.{Kind};
ghost use Rattle.pure_terms.specs.declared.literals.Literal.{Literal};
ghost use Rattle.pure_terms.specs.declared.variables.Var.{Var};
ghost use Rattle.gil_values.specs.declared.operators.UnOp.{UnOp};
ghost use Rattle.pure_terms.specs.Pure.{PureTerm, PureTerms, literal, variable, list_of, unary_of, from_list, positive, negative};
ghost use Rattle.pure_terms.specs.View.{term_view, terms_view, atom_view};
ghost use Rattle.solver_proof.specs.Chains.{equals, kind_is};

use gil_values::{BinOp, Kind, UnOp};
use pure_terms::{Atom, Literal, Term, Terms, Var};

/// Two terms.
#[derive(Clone, Copy)]
struct Sides<'a> {
    left: &'a Term,
    right: &'a Term,
}

/// The elements of two list terms.
#[derive(Clone, Copy)]
pub(crate) struct Elements<'a> {
    pub(crate) left: &'a Terms,
    pub(crate) right: &'a Terms,
}

/// A variable, and the kind that is said of it.
#[derive(Clone, Copy)]
pub(crate) struct Said {
    pub(crate) subject: Var,
    pub(crate) kind: Kind,
}

/// The sides of an equality.
fn sides_of(term: &Term) -> Option<Sides<'_>>
    ensures found { IfSome result (λ p. term_view term.now ≡ equals (term_view p.left.now) (term_view p.right.now)) }
    ensures none { IfNone result ((s t : PureTerm) → term_view term.now ≡ equals s t → ⊥) }
{
    match term {
        Term::Op2(BinOp::Equal, left, right) => Some(Sides { left, right }),
        _ => None,
    }
}

/// The elements of a list term.
fn elements_of(term: &Term) -> Option<&Terms>
    ensures found { IfSome result (λ ts. term_view term.now ≡ list_of (from_list (terms_view ts.now))) }
    ensures none { IfNone result ((ts : PureTerms) → term_view term.now ≡ list_of ts → ⊥) }
{
    match term {
        Term::List(terms) => Some(terms),
        Term::Lit(_) => None,
        Term::Var(_) => None,
        Term::Op1(_, _) => None,
        Term::Op2(_, _, _) => None,
    }
}

fn variable_of(term: &Term) -> Option<Var>
    ensures found { IfSome result (λ x. term_view term.now ≡ variable x) }
    ensures none { IfNone result ((x : Var) → term_view term.now ≡ variable x → ⊥) }
{
    match term {
        Term::Var(variable) => Some(*variable),
        Term::Lit(_) => None,
        Term::List(_) => None,
        Term::Op1(_, _) => None,
        Term::Op2(_, _, _) => None,
    }
}

fn kind_of(term: &Term) -> Option<Kind>
    ensures found { IfSome result (λ k. term_view term.now ≡ literal (Literal.Kind k)) }
    ensures none { IfNone result ((k : Kind) → term_view term.now ≡ literal (Literal.Kind k) → ⊥) }
{
    match term {
        Term::Lit(Literal::Kind(kind)) => Some(*kind),
        _ => None,
    }
}

/// The variable whose kind the term is.
fn variable_of_kind(term: &Term) -> Option<Var>
    ensures found { IfSome result (λ x. term_view term.now ≡ unary_of UnOp.Kind (variable x)) }
    ensures none { IfNone result ((x : Var) → term_view term.now ≡ unary_of UnOp.Kind (variable x) → ⊥) }
{
    match term {
        Term::Op1(UnOp::Kind, operand) => variable_of(operand),
        _ => None,
    }
}

/// The variable of which an atom says that it has a kind.
pub(crate) fn kind_said(atom: &Atom) -> Option<Said>
    ensures found { IfSome result (λ f. atom_view atom.now ≡ positive (kind_is (variable f.subject) f.kind)) }
    ensures none { IfNone result ((x : Var) (k : Kind) → atom_view atom.now ≡ positive (kind_is (variable x) k) → ⊥) }
{
    match atom {
        Atom::Holds(term) => kind_said_of(term),
        Atom::Not(_) => None,
        Atom::Open(_) => None,
    }
}

fn kind_said_of(term: &Term) -> Option<Said>
    ensures found { IfSome result (λ f. term_view term.now ≡ kind_is (variable f.subject) f.kind) }
    ensures none { IfNone result ((x : Var) (k : Kind) → term_view term.now ≡ kind_is (variable x) k → ⊥) }
{
    match sides_of(term) {
        Some(sides) => match variable_of_kind(sides.left) {
            Some(subject) => match kind_of(sides.right) {
                Some(kind) => Some(Said { subject, kind }),
                None => None,
            },
            None => None,
        },
        None => None,
    }
}

/// The elements of the list terms that an atom says to be different.
pub(crate) fn different_lists(atom: &Atom) -> Option<Elements<'_>>
    ensures found { IfSome result (λ p. atom_view atom.now ≡ negative (equals (list_of (from_list (terms_view p.left.now))) (list_of (from_list (terms_view p.right.now))))) }
    ensures none { IfNone result ((ts us : PureTerms) → atom_view atom.now ≡ negative (equals (list_of ts) (list_of us)) → ⊥) }
{
    match atom {
        Atom::Not(term) => lists_of(term),
        Atom::Holds(_) => None,
        Atom::Open(_) => None,
    }
}

fn lists_of(term: &Term) -> Option<Elements<'_>>
    ensures found { IfSome result (λ p. term_view term.now ≡ equals (list_of (from_list (terms_view p.left.now))) (list_of (from_list (terms_view p.right.now)))) }
    ensures none { IfNone result ((ts us : PureTerms) → term_view term.now ≡ equals (list_of ts) (list_of us) → ⊥) }
{
    match sides_of(term) {
        Some(sides) => match elements_of(sides.left) {
            Some(left) => match elements_of(sides.right) {
                Some(right) => Some(Elements { left, right }),
                None => None,
            },
            None => None,
        },
        None => None,
    }
}
