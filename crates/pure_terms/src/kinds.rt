//! The kinds that sorts, operators and terms tell.
ghost use Rattle.std.specs.Prelude.{◌≡◌};
ghost use Rattle.pure_terms.specs.Kinds.{kind_of_sort, kind_of_unary, kind_of_binary, known_kind};
ghost use Rattle.pure_terms.specs.View.{term_view};

use crate::terms::Term;
use crate::variables::Sort;
use gil_values::{BinOp, Kind, UnOp};

impl Sort {
    /// The kind of the values of the sort, where they have one.
    pub fn kind(self) -> Option<Kind>
        ensures { result ≡ kind_of_sort self }
    {
        match self {
            Sort::Int => Some(Kind::Int),
            Sort::Bool => Some(Kind::Bool),
            Sort::Str => Some(Kind::Str),
            Sort::Sym => Some(Kind::Sym),
            Sort::Fresh => Some(Kind::Sym),
            Sort::List => Some(Kind::List),
            Sort::Any => None,
        }
    }
}

impl Term {
    /// The kind that the term's value has by its form and its variables' sorts, where these tell one.
    pub fn known_kind(&self) -> Option<Kind>
        ensures { result ≡ known_kind (term_view self.now) }
    {
        kind_of_term(self)
    }
}

fn kind_of_term(term: &Term) -> Option<Kind>
    ensures { result ≡ known_kind (term_view term.now) }
{
    match term {
        Term::Lit(literal) => Some(literal.kind()),
        Term::Var(variable) => variable.sort.kind(),
        Term::List(_) => Some(Kind::List),
        Term::Op1(op, _) => Some(kind_of_one(*op)),
        Term::Op2(op, left, right) => kind_of_two(*op, kind_of_term(left), kind_of_term(right)),
    }
}

/// The kind of the results of an operator of one operand.
fn kind_of_one(op: UnOp) -> Kind
    ensures { result ≡ kind_of_unary op }
{
    match op {
        UnOp::Not => Kind::Bool,
        UnOp::Neg | UnOp::Len => Kind::Int,
        UnOp::Kind => Kind::Kind,
    }
}

/// The kind of the results of an operator of two operands whose kinds are these, where it is known.
fn kind_of_two(op: BinOp, left: Option<Kind>, right: Option<Kind>) -> Option<Kind>
    ensures { result ≡ kind_of_binary op left right }
{
    match op {
        BinOp::Add | BinOp::Subtract | BinOp::Multiply | BinOp::Divide | BinOp::Remainder => {
            Some(Kind::Int)
        }
        BinOp::Equal | BinOp::Less | BinOp::LessOrEqual | BinOp::And | BinOp::Or => {
            Some(Kind::Bool)
        }
        BinOp::Append => left.or(right),
        BinOp::Nth => None,
    }
}
