//! Equality of literals and of terms.
ghost use Rattle.std.specs.Prelude.{◌≡◌};
ghost use Rattle.std.specs.Cmp.{on_equiv, on_per, partial_equiv_from_equiv};
ghost use Rattle.pure_terms.specs.Equality.{same_literal, same_variable, same_term, same_terms, same_unary, same_binary, EqualityIsIdentity};
ghost use Rattle.pure_terms.specs.EqualityLaws.{same_literal-equivalence, same_term-equivalence};
ghost use Rattle.pure_terms.specs.Pure.{from_list};
ghost use Rattle.pure_terms.specs.View.{term_view, terms_view};

use crate::literals::Literal;
use crate::terms::{Term, Terms};
use crate::variables::Var;
use gil_values::{BinOp, UnOp};

/// Literals are equal where their values are.
impl PartialEq for Literal {
    ghost eq = { same_literal };

    ghost laws = { partial_equiv_from_equiv same_literal-equivalence };

    fn eq(&self, other: &Literal) -> bool {
        match (self, other) {
            (Literal::Int(m), Literal::Int(n)) => *m == *n,
            (Literal::Bool(p), Literal::Bool(q)) => *p == *q,
            (Literal::Str(s), Literal::Str(t)) => *s == *t,
            (Literal::Kind(k), Literal::Kind(l)) => *k == *l,
            (Literal::Proc(f), Literal::Proc(g)) => *f == *g,
            _ => false,
        }
    }
}

impl Eq for Literal {
    ghost laws = { same_literal-equivalence };
}

/// Terms are equal where they are so node by node.
impl PartialEq for Term {
    ghost eq = { λ s t. same_term (term_view s) (term_view t) };

    ghost laws = { on_per term_view (partial_equiv_from_equiv same_term-equivalence) };

    fn eq(&self, other: &Term) -> bool {
        are_equal(self, other)
    }
}

impl Eq for Term {
    ghost laws = { on_equiv term_view same_term-equivalence };
}

/// The law of equality: terms are equal exactly where they are the same pure data.
pub fn equality_is_identity()
    ensures { EqualityIsIdentity }
{}

fn are_same_variable(x: &Var, y: &Var) -> bool
    ensures { result ≡ same_variable x.now y.now }
{
    x.number == y.number && x.sort == y.sort
}

fn are_same_unary(op: UnOp, other: UnOp) -> bool
    ensures { result ≡ same_unary op other }
{
    op == other
}

fn are_same_binary(op: BinOp, other: BinOp) -> bool
    ensures { result ≡ same_binary op other }
{
    op == other
}

#[cycle(same)]
fn are_equal(s: &Term, t: &Term) -> bool
    ensures { result ≡ same_term (term_view s.now) (term_view t.now) }
{
    match (s, t) {
        (Term::Lit(k), Term::Lit(l)) => *k == *l,
        (Term::Var(x), Term::Var(y)) => are_same_variable(x, y),
        (Term::List(ts), Term::List(us)) => are_equal_lists(ts, us),
        (Term::Op1(op, operand), Term::Op1(other, operand_of_other)) => {
            are_same_unary(*op, *other) && are_equal(operand, operand_of_other)
        }
        (Term::Op2(op, left, right), Term::Op2(other, left_of_other, right_of_other)) => {
            are_same_binary(*op, *other)
                && are_equal(left, left_of_other)
                && are_equal(right, right_of_other)
        }
        _ => false,
    }
}

#[cycle(same)]
fn are_equal_lists(ts: &Terms, us: &Terms) -> bool
    ensures { result ≡ same_terms (from_list (terms_view ts.now)) (from_list (terms_view us.now)) }
{
    if ts.items.len() != us.items.len() {
        return false;
    }
    for (index, t) in ts.items.iter().enumerate() {
        if !are_equal(t, &us.items[index]) {
            return false;
        }
    }
    true
}
