//! Why lists of procedures, specifications and predicates make no program.

/// A kind of fault. Of several, the lowest in this order is named, at the first item that has it.
#[derive(Clone, Copy, Debug, PartialEq, Eq)]
pub enum InvalidKind {
    /// Two items of one list have one name, a predicate has a core predicate's, or a name stands twice in one list of
    /// parameters or variables.
    Duplicate,
    /// A jump to a number, or a handler label, that is below 0 or isn't below the number of commands.
    BadLabel,
    /// No command, or a last command that isn't `return`, `fail`, `throw` or `vanish`.
    NoEnd,
    /// A specification of no procedure, a predicate that is neither core nor defined, or a logical variable that isn't
    /// declared there.
    UnknownName,
    /// A specification whose parameters aren't the procedure's, or a predicate used with other numbers of ins or outs.
    Arity,
    /// A limit is passed.
    TooMany,
    /// Memory ran out. It is no fault of any item.
    Memory,
}
