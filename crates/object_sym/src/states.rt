//! The states of symbolic objects.
use sym_model::SymFrag;

/// A symbolic state of objects: a list of chunks.
#[derive(Debug, Drop)]
pub struct ObjectSym {
    pub(crate) chunks: SymFrag,
}
