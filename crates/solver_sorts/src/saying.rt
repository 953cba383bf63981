//! What atoms say of the kinds and sorts of variables.
ghost use Rattle.std.specs.Prelude.{◌≡◌, ℕ, IfSome, IfNone};
ghost use Rattle.gil_values.specs.declared.kinds.Kind.{Kind};
ghost use Rattle.gil_values.specs.declared.operators.UnOp.{UnOp};
ghost use Rattle.pure_terms.specs.declared.literals.Literal.{Literal};
ghost use Rattle.pure_terms.specs.declared.variables.Sort.{Sort};
ghost use Rattle.pure_terms.specs.declared.variables.Var.{Var};
ghost use Rattle.pure_terms.specs.Pure.{literal, variable, unary_of, positive};
ghost use Rattle.pure_terms.specs.View.{term_view, atom_view};
ghost use Rattle.solver_proof.specs.Chains.{kind_is};
ghost use Rattle.solver_sorts.specs.Sorting.{sort_of_kind, SaysSort};

use gil_values::{BinOp, Kind, UnOp};
use pure_terms::{Atom, Literal, Sort, Term, Var};

/// A variable, and the kind that is said of it.
#[derive(Clone, Copy)]
pub struct KindSaid {
    pub subject: Var,
    pub kind: Kind,
}

/// The number of a variable of sort any, and the sort whose kind is said of it.
#[derive(Clone, Copy)]
pub(crate) struct SortSaid {
    pub(crate) number: u64,
    pub(crate) sort: Sort,
}

fn kind_of(term: &Term) -> Option<Kind>
    ensures found { IfSome result (λ k. term_view term.now ≡ literal (Literal.Kind k)) }
    ensures none { IfNone result ((k : Kind) → term_view term.now ≡ literal (Literal.Kind k) → ⊥) }
{
    match term {
        Term::Lit(Literal::Kind(kind)) => Some(*kind),
        _ => None,
    }
}

fn variable_of(term: &Term) -> Option<Var>
    ensures found { IfSome result (λ x. term_view term.now ≡ variable x) }
    ensures none { IfNone result ((x : Var) → term_view term.now ≡ variable x → ⊥) }
{
    match term {
        Term::Var(variable) => Some(*variable),
        Term::Lit(_) => None,
        Term::List(_) => None,
        Term::Op1(_, _) => None,
        Term::Op2(_, _, _) => None,
    }
}

/// The variable whose kind the term is.
fn variable_of_kind(term: &Term) -> Option<Var>
    ensures found { IfSome result (λ x. term_view term.now ≡ unary_of UnOp.Kind (variable x)) }
    ensures none { IfNone result ((x : Var) → term_view term.now ≡ unary_of UnOp.Kind (variable x) → ⊥) }
{
    match term {
        Term::Op1(UnOp::Kind, operand) => variable_of(operand),
        _ => None,
    }
}

fn kind_said_by(term: &Term) -> Option<KindSaid>
    ensures found { IfSome result (λ said. term_view term.now ≡ kind_is (variable said.subject) said.kind) }
    ensures none { IfNone result ((x : Var) (k : Kind) → term_view term.now ≡ kind_is (variable x) k → ⊥) }
{
    match term {
        Term::Op2(BinOp::Equal, left, right) => match variable_of_kind(left) {
            Some(subject) => match kind_of(right) {
                Some(kind) => Some(KindSaid { subject, kind }),
                None => None,
            },
            None => None,
        },
        _ => None,
    }
}

/// The variable of which an atom says that it has a kind.
pub fn kind_said(atom: &Atom) -> Option<KindSaid>
    ensures found { IfSome result (λ said. atom_view atom.now ≡ positive (kind_is (variable said.subject) said.kind)) }
    ensures none { IfNone result ((x : Var) (k : Kind) → atom_view atom.now ≡ positive (kind_is (variable x) k) → ⊥) }
{
    match atom {
        Atom::Holds(term) => kind_said_by(term),
        Atom::Not(_) => None,
        Atom::Open(_) => None,
    }
}

/// The sort of the fragment whose values are those of a kind.
fn sort_of(kind: Kind) -> Option<Sort>
    ensures { result ≡ sort_of_kind kind }
{
    match kind {
        Kind::Int => Some(Sort::Int),
        Kind::Bool => Some(Sort::Bool),
        Kind::Str => Some(Sort::Str),
        Kind::Sym => Some(Sort::Sym),
        _ => None,
    }
}

/// The sort of a variable of sort any, where an atom says the sort's kind of it.
pub(crate) fn sort_said(atom: &Atom) -> Option<SortSaid>
    ensures found { IfSome result (λ said. SaysSort (atom_view atom.now) said.number said.sort) }
    ensures none { IfNone result ((x : ℕ) (s : Sort) → SaysSort (atom_view atom.now) x s → ⊥) }
{
    match kind_said(atom) {
        Some(KindSaid { subject, kind }) => {
            if subject.sort != Sort::Any {
                return None;
            }
            match sort_of(kind) {
                Some(sort) => Some(SortSaid {
                    number: subject.number,
                    sort,
                }),
                None => None,
            }
        }
        None => None,
    }
}
