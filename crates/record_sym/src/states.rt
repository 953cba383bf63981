//! The states of symbolic records.
use sym_model::SymFrag;

/// A symbolic state of records: a list of chunks.
#[derive(Debug, Drop)]
pub struct RecordSym {
    pub(crate) chunks: SymFrag,
}
