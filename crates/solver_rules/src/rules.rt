//! The rules by which atoms are added to a list, or the list is closed.

/// A rule, which looks at one atom of the list.
#[derive(Clone, Copy)]
pub enum Rule {
    /// A disequality of list terms of one length needs a pair of elements that differ.
    Lists,
    /// A disequality of terms that are equated closes the list.
    Linked,
    /// What is said of a kind can't be said of a term that is equated with the subject.
    OneKind,
    /// What two atoms say of kinds can't both be so.
    TwoKinds,
    /// A variable of a kind with few values needs a literal.
    SmallFact,
    /// So does a side of a disequality that is equated with a Bool variable.
    SmallSide,
    /// Int terms that meet at variables of sort any are equal.
    Meeting,
    /// Numbers of sides that differ are different.
    Numbers,
    /// Different numbers are ordered.
    Orders,
}
