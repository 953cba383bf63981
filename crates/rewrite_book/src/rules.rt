//! Rules: closures beside what is known of their answers.
ghost use Rattle.std.specs.Prelude.{◌≡◌, IsFalse};
ghost use Rattle.std.specs.Coded.{Π_prop, →_prop};
ghost use Rattle.pure_terms.specs.View.{term_view};
ghost use Rattle.rewrite_book.specs.Answers.{AnswersNoTerm, AnswersNoTerm-prop, AnswersWell, AnswersWell-prop};
ghost use Rattle.rewrite_book.specs.Heads.{is_headed};

use crate::operands::{are_same_binary, are_same_unary};
use gil_values::{BinOp, Text, UnOp};
use pure_terms::Term;
use std::alloc::{AllocError, Global};

/// What is asked of a term: the term to put in its place, or None where the rule doesn't apply.
pub type Simplifier = Box<dyn Fn(Global, &Term) -> Result<Option<Term>, AllocError>>;

/// What stands at the root of the terms that a rule answers on: a list, or an operator of one or of two operands.
#[derive(Clone, Copy, Debug, PartialEq, Eq)]
pub enum Head {
    List,
    Op1(UnOp),
    Op2(BinOp),
}

impl Head {
    /// Whether a term has this head.
    pub fn is_of(self, term: &Term) -> bool
        ensures { result ≡ is_headed self (term_view term.now) }
    {
        match (self, term) {
            (Head::List, Term::List(_)) => true,
            (Head::Op1(op), Term::Op1(other, _)) => are_same_unary(op, *other),
            (Head::Op2(op), Term::Op2(other, _, _)) => are_same_binary(op, *other),
            _ => false,
        }
    }
}

/// A rule. Its closure may be called on every term, each term that it answers may stand in the place of the one that it was asked of,
/// and it answers none on a term with another head.
#[derive(Drop)]
pub struct Rule {
    pub name: Text,
    pub head: Head,
    pub simplifier: Simplifier,
    pub ghost callable: { Simplifier.IsAlwaysCallable simplifier },
    pub ghost answers: { (a : _) (t : _) (r : _) → Simplifier.post simplifier a t r → AnswersWell t.now r } by { Π_prop (λ a. Π_prop (λ t. Π_prop (λ r. →_prop (AnswersWell-prop t.now r)))) },
    pub ghost headed: { (a : _) (t : _) (r : _) → Simplifier.post simplifier a t r → IsFalse (is_headed head (term_view t.now)) → AnswersNoTerm r } by { Π_prop (λ a. Π_prop (λ t. Π_prop (λ r. →_prop (→_prop (AnswersNoTerm-prop r))))) },
}

impl Rule {
    /// The rule of a closure that the caller boxed.
    pub fn new(name: Text, head: Head, simplifier: Simplifier) -> Rule
        requires callable { Simplifier.IsAlwaysCallable simplifier }
        requires answers { (a : _) (t : _) (r : _) → Simplifier.post simplifier a t r → AnswersWell t.now r }
        requires headed { (a : _) (t : _) (r : _) → Simplifier.post simplifier a t r → IsFalse (is_headed head (term_view t.now)) → AnswersNoTerm r }
        ensures name { result.name ≡ name }
        ensures head { result.head ≡ head }
        ensures simplifier { result.simplifier ≡ simplifier }
    {
        Rule {
            name,
            head,
            simplifier,
        }
    }
}

/// What a rule answers on a term.
pub(crate) fn ask(alloc: Global, rule: &Rule, term: &Term) -> Result<Option<Term>, AllocError>
    ensures well { AnswersWell term.now result }
    ensures answer { Simplifier.post rule.now.simplifier alloc term.entry result }
{
    (rule.simplifier)(alloc, term)
}
