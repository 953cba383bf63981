//! The kinds of values.

/// The kind of a value, and a value itself: `Kind(Undef)` and `Kind(Null)` serve as undefined and null,
/// so no value has the kind `Undef` or `Null`.
#[derive(Clone, Copy, Debug, PartialEq, Eq)]
pub enum Kind {
    Int,
    Bool,
    Str,
    Sym,
    Kind,
    Proc,
    List,
    Undef,
    Null,
}
