//! What an analysis asks where it can't decide.
use crate::atoms::Atoms;
use crate::variables::VarTable;
use gil_values::Place;
use sequence::Sequence;

/// The choices along a path. A choice is a number: 0 or 1 for a guard that was false or true; 0, 1 or 2 for an action
/// that was done, failed or missed; the case of an unfolded predicate; the postcondition that was taken at a call by
/// specification.
pub type Choices = Sequence<u64>;

/// A list of atoms that an analysis came upon and that isn't in the fragment.
#[derive(Debug, Drop)]
pub struct Query {
    /// The command at which it is asked.
    pub place: Place,
    /// The choices that lead there.
    pub path: Choices,
    pub vars: VarTable,
    /// What is assumed.
    pub given: Atoms,
    /// What is asked.
    pub query: Atoms,
    /// The place in `query` of an atom that keeps it out of the fragment.
    pub outside: usize,
}
