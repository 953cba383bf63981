//! The texts of the statements that every source language has: which lexemes spell them, and the reading of them, over the expressions and
//! the simple statements of a language.
#![tactic(auto)]

mod blocks;
mod language;
mod pieces;

pub use blocks::block_at;
pub use language::StatementReader;
