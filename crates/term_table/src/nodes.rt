//! Nodes: what stands at the root of a term, and the numbers of its parts.
ghost use Rattle.std.specs.Prelude.{◌≡◌, ◌++◌, fold, IfOk};
ghost use Rattle.std.specs.Cmp.{on_equiv, on_per, partial_equiv_from_equiv};
ghost use Rattle.std.specs.Hash as fed;
ghost use Rattle.pure_terms.specs.Equality.{same_binary, same_term, same_unary, same_variable};
ghost use Rattle.pure_terms.specs.EqualityLaws.{same_term-equivalence};
ghost use Rattle.pure_terms.specs.View.{term_view};
ghost use Rattle.term_table.specs.Nodes.{literal_input, node_code, node_input, root_code, root_from, same_node, same_nodes-input};

use crate::term_ids::TermId;
use gil_values::{BinOp, UnOp};
use pure_terms::{Literal, Term, Var};
use smallvec::SmallVec;
use std::alloc::{AllocError, Global};
use std::hash::{Hash, Hasher};

/// What stands at the root of a term.
#[derive(Debug, Drop)]
pub(crate) enum Root {
    Lit(Literal),
    Var(Var),
    List,
    Op1(UnOp),
    Op2(BinOp),
}

/// A node, of which the parts are the numbers of other nodes.
#[derive(Debug, Drop)]
pub(crate) struct Node {
    pub(crate) root: Root,
    pub(crate) parts: SmallVec<TermId, 2>,
}

/// The root of a term.
pub(crate) fn root_of(alloc: Global, term: &Term) -> Result<Root, AllocError>
    ensures { IfOk result (λ root. root ≡ root_from (term_view term.now)) }
{
    match term {
        Term::Lit(literal) => Ok(Root::Lit(literal.copy(alloc)?)),
        Term::Var(variable) => Ok(Root::Var(*variable)),
        Term::List(_) => Ok(Root::List),
        Term::Op1(op, _) => Ok(Root::Op1(*op)),
        Term::Op2(op, _, _) => Ok(Root::Op2(*op)),
    }
}

fn are_same_unary(op: UnOp, other: UnOp) -> bool
    ensures { result ≡ same_unary op other }
{
    op == other
}

fn are_same_binary(op: BinOp, other: BinOp) -> bool
    ensures { result ≡ same_binary op other }
{
    op == other
}

fn are_same_variable(x: &Var, y: &Var) -> bool
    ensures { result ≡ same_variable x.now y.now }
{
    x.number == y.number && x.sort == y.sort
}

fn are_same_roots(r: &Root, s: &Root) -> bool
    ensures { result ≡ same_term (root_code r.now) (root_code s.now) }
{
    match (r, s) {
        (Root::Lit(k), Root::Lit(l)) => *k == *l,
        (Root::Var(x), Root::Var(y)) => are_same_variable(x, y),
        (Root::List, Root::List) => true,
        (Root::Op1(op), Root::Op1(other)) => are_same_unary(*op, *other),
        (Root::Op2(op), Root::Op2(other)) => are_same_binary(*op, *other),
        _ => false,
    }
}

fn hash_literal<H: Hasher>(literal: &Literal, state: &mut H)
    ensures { state.new ≡ fold H.write state.old (literal_input literal.now) }
{
    match literal {
        Literal::Int(n) => n.hash(state),
        Literal::Bool(b) => b.hash(state),
        Literal::Str(text) => text.hash(state),
        Literal::Kind(_) => state.write_u8(4),
        Literal::Proc(name) => name.hash(state),
    }
}

/// Nodes are equal where their roots and the numbers of their parts are.
impl PartialEq for Node {
    ghost eq = { same_node };

    ghost laws = { on_per node_code (partial_equiv_from_equiv same_term-equivalence) };

    fn eq(&self, other: &Node) -> bool {
        are_same_roots(&self.root, &other.root) && self.parts == other.parts
    }
}

impl Eq for Node {
    ghost laws = { on_equiv node_code same_term-equivalence };
}

impl Hash for Node {
    ghost hash_input = { node_input };

    ghost respects_eq = { same_nodes-input.fed };

    fn hash<H: Hasher>(&self, state: &mut H) {
        match &self.root {
            Root::Lit(literal) => hash_literal(literal, state),
            Root::Var(x) => state.write_u64(x.number),
            Root::List => state.write_u8(1),
            Root::Op1(_) => state.write_u8(2),
            Root::Op2(_) => state.write_u8(3),
        }
        self.parts.hash(state);
    }
}
