//! Uses of core predicates in terms, and what fixes a missed key.
use gil_values::Text;
use pure_terms::{Sort, Terms};
use sequence::Sequence;

/// A use of a core predicate. Contracts see it as its pure data, by `use_view`.
#[derive(Debug, Drop)]
pub struct CoreUse {
    /// The name of the core predicate.
    pub core: Text,
    pub ins: Terms,
    pub outs: Terms,
}

/// A list of uses, which contracts see as a list of pure data by `uses_view`.
pub type CoreUses = Sequence<CoreUse>;

/// A list of sorts.
pub type Sorts = Sequence<Sort>;

/// What fixes a missed key: a core predicate with outs of these sorts, which are to be chosen. Contracts see it as its pure
/// data, by `fix_view`.
#[derive(Debug, Drop)]
pub struct Fix {
    /// The name of the core predicate.
    pub core: Text,
    pub ins: Terms,
    pub outs: Sorts,
}

/// A list of fixes, which contracts see as a list of pure data by `fixes_view`.
pub type Fixes = Sequence<Fix>;
