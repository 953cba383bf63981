//! The states of symbolic blocks.
use sym_model::SymFrag;

/// A symbolic state of blocks: a list of chunks.
#[derive(Debug, Drop)]
pub struct BlockSym {
    pub(crate) chunks: SymFrag,
}
