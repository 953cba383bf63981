//! The trees of While programs.
ghost use Rattle.std.specs.Prelude.{◌≡◌, [], ◌∷◌, ◌++◌, OnOk, OnErr, map};
ghost use Rattle.while_lang.specs.View.{placed_statements_view, placed_view};

use gil_syntax::{Expr, Exprs};
use gil_values::{Kind, Text};
use sequence::Sequence;
use source_language::{Invariant, Logic};
use std::alloc::{AllocError, Global};

/// A field of a new record, and its first value.
#[derive(Debug, Drop)]
pub struct Field {
    pub name: Text,
    pub value: Expr,
}

/// The fields of a new record, in the order in which they are written.
pub type Fields = Sequence<Field>;

/// A statement. Contracts see it as its pure data, by `statement_view`.
#[cycle(statement)]
#[derive(Debug, Drop)]
pub enum Statement {
    /// `x = e`
    Assign(Text, Expr),
    /// `x = input int`, with the kind of the input
    Input(Text, Kind),
    /// `x = symbol`
    Symbol(Text),
    /// `x = new {p: e, ..}`
    New(Text, Fields),
    /// `x = y.p`
    Lookup(Text, Text, Text),
    /// `x = f(e, ..)`
    Call(Text, Text, Exprs),
    /// `y.p = e`
    Mutate(Text, Text, Expr),
    Dispose(Expr),
    Assert(Expr),
    Assume(Expr),
    /// The first block where the condition is true, the second where it is false.
    If(Expr, Block, Block),
    While(Expr, Option<Invariant>, Block),
    Return(Expr),
    Fail(Expr),
    Logic(Logic),
}

/// A statement, and the byte at which it begins.
#[cycle(statement)]
#[derive(Debug, Drop)]
pub struct PlacedStatement {
    pub at: u32,
    pub statement: Statement,
}

/// Statements in order. Contracts see them as pure data, by `block_view`.
#[cycle(statement)]
#[derive(Debug, Drop)]
pub struct Block {
    items: Vec<PlacedStatement>,
}

impl Block {
    /// The block without statements, which takes no memory.
    pub fn new(alloc: Global) -> Block
        ensures { placed_statements_view result ≡ [] }
    {
        Block {
            items: Vec::new(alloc),
        }
    }

    /// Adds a statement at the end.
    pub fn push(&mut self, placed: PlacedStatement) -> Result<(), AllocError>
        ensures ok { OnOk result (placed_statements_view self.new ≡ placed_statements_view self.old ++ placed_view placed ∷ []) }
        ensures err { OnErr result (placed_statements_view self.new ≡ placed_statements_view self.old) }
    {
        self.items.push(placed)?;
        Ok(())
    }

    /// The statements as a slice.
    pub fn as_slice(&self) -> &[PlacedStatement]
        ensures { map placed_view result.now ≡ placed_statements_view self.now }
    {
        self.items.as_slice()
    }
}

/// A function, and the byte at which it begins.
pub type Function = source_language::Function<Block>;

/// The functions of a program, in the order of its text.
pub type Functions = Sequence<Function>;
