//! Expressions and lists of expressions.
ghost use Rattle.std.specs.Prelude.{◌≡◌, [], ◌∷◌, ◌++◌, length, map, slice_get, OnOk, OnErr};
ghost use Rattle.std.specs.Option.{option_map};
ghost use Rattle.std.specs.Slice.Iter.{iter_rest};
ghost use Rattle.gil_syntax.specs.View.{expr_view, exprs_view};

use gil_values::{BinOp, Text, UnOp, Value};
use std::alloc::{AllocError, Global};
use std::slice::Iter;

/// An expression. Contracts see it as its pure data, by `expr_view`.
#[cycle(expression)]
#[derive(Debug, Drop)]
pub enum Expr {
    /// A literal. In a well-made program it is no symbol and no list.
    Lit(Value),
    /// A program variable, or a parameter of a specification or predicate.
    Name(Text),
    /// A logical variable. In a well-made program its text begins with its `#`; in a valid one it stands in assertions
    /// and in uses of predicates alone.
    Logical(Text),
    List(Exprs),
    Op1(UnOp, Box<Expr>),
    Op2(BinOp, Box<Expr>, Box<Expr>),
}

/// A list of expressions. Contracts see it as a list of pure data, by `exprs_view`.
#[cycle(expression)]
#[derive(Debug, Drop)]
pub struct Exprs {
    items: Vec<Expr>,
}

impl Exprs {
    /// The empty list, which takes no memory.
    pub fn new(alloc: Global) -> Exprs
        ensures { exprs_view result ≡ [] }
    {
        Exprs {
            items: Vec::new(alloc),
        }
    }

    /// How many expressions there are.
    pub fn len(&self) -> usize
        ensures { result ≡ length (exprs_view self.now) }
    {
        self.items.len()
    }

    /// The expression at a place of the list, counted from 0.
    pub fn get(&self, index: usize) -> Option<&Expr>
        ensures { option_map (λ e. expr_view e.now) result ≡ slice_get (exprs_view self.now) index }
    {
        self.items.get(index)
    }

    /// Adds an expression at the end.
    pub fn push(&mut self, expression: Expr) -> Result<(), AllocError>
        ensures ok { OnOk result (exprs_view self.new ≡ exprs_view self.old ++ expr_view expression ∷ []) }
        ensures err { OnErr result (exprs_view self.new ≡ exprs_view self.old) }
    {
        self.items.push(expression)?;
        Ok(())
    }

    /// The expressions as a slice.
    pub fn as_slice(&self) -> &[Expr]
        ensures { map expr_view result.now ≡ exprs_view self.now }
    {
        self.items.as_slice()
    }

    /// Goes over the expressions in order.
    pub fn iter(&self) -> Iter<'_, Expr>
        ensures { map expr_view (iter_rest result) ≡ exprs_view self.now }
    {
        self.items.iter()
    }
}
