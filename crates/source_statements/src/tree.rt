//! Statements.
ghost use Rattle.std.specs.Prelude.{◌≡◌, [], ◌∷◌, ◌++◌, OnOk, OnErr};
ghost use Rattle.source_statements.specs.Items.{statements};

use gil_values::Text;
use source_language::{Invariant, Logic};
use std::alloc::{AllocError, Global};

/// A statement, where `E` are the expressions of the language and `S` its own simple statements. Contracts see it as its pure data, by
/// `statement_view`.
#[cycle(statement)]
#[derive(Debug, Drop)]
pub enum Statement<E: Drop, S: Drop> {
    Simple(S),
    Assert(E),
    Assume(E),
    /// The first block where the condition holds, the second where it doesn't.
    If(E, Block<E, S>, Block<E, S>),
    While(E, Option<Invariant>, Block<E, S>),
    Return(E),
    Logic(Logic),
    /// The first block, and where a value is thrown in it, the second with the value in the variable.
    Try(Block<E, S>, Text, Block<E, S>),
}

/// A statement, and the byte at which it begins.
#[cycle(statement)]
#[derive(Debug, Drop)]
pub struct PlacedStatement<E: Drop, S: Drop> {
    pub at: u32,
    pub statement: Statement<E, S>,
}

/// Statements in order. Contracts see them as pure data, by `block_view`.
#[cycle(statement)]
#[derive(Debug, Drop)]
pub struct Block<E: Drop, S: Drop> {
    items: Vec<PlacedStatement<E, S>>,
}

impl<E: Drop, S: Drop> Block<E, S> {
    /// The block without statements, which takes no memory.
    pub fn new(alloc: Global) -> Block<E, S>
        ensures { statements result ≡ [] }
    {
        Block {
            items: Vec::new(alloc),
        }
    }

    /// Adds a statement at the end.
    pub fn push(&mut self, placed: PlacedStatement<E, S>) -> Result<(), AllocError>
        ensures ok { OnOk result (statements self.new ≡ statements self.old ++ placed ∷ []) }
        ensures err { OnErr result (statements self.new ≡ statements self.old) }
    {
        self.items.push(placed)?;
        Ok(())
    }

    /// The statements as a slice.
    pub fn as_slice(&self) -> &[PlacedStatement<E, S>]
        ensures { result.now ≡ statements self.now }
    {
        self.items.as_slice()
    }
}
