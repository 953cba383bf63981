//! The answer of a call of a source or of a sink that met a fault.
use thiserror::Error;

/// A read or a write met a fault. It comes only from a call in which the object's count of faults rose.
#[derive(Clone, Copy, Debug, PartialEq, Eq, Error)]
#[error("the source or the sink met a fault")]
pub struct Failed;
