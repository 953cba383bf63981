//! What an expression may come to.
use crate::faults::Fault;
use pure_terms::Atoms;
use sequence::Sequence;

/// A fault, and conditions under which it comes.
#[derive(Debug, Drop)]
pub struct FaultCase {
    pub conds: Atoms,
    pub fault: Fault,
}

pub type FaultCases = Sequence<FaultCase>;

/// A result, and the conditions under which there is one.
#[derive(Debug, Drop)]
pub struct GoodCase<T> {
    pub conds: Atoms,
    pub result: T,
}

/// The faults that there may be, and the result, unless some fault is sure. Contracts see them as their pure data, by
/// `cases_view` where the result is a term.
#[derive(Debug, Drop)]
pub struct Cases<T> {
    pub faults: FaultCases,
    pub good: Option<GoodCase<T>>,
}
