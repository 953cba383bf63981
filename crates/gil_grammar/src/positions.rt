//! Where names stand, and what is read of a list.

/// Where a name stands, which decides which reserved words may serve as one.
#[derive(Clone, Copy, Debug, PartialEq, Eq)]
pub enum Position {
    /// In an expression of a command, or as a variable, a parameter or a procedure. No reserved word serves there.
    Command,
    /// In an expression of an assertion, where `ret` is the value returned, and where logical names may stand.
    Assertion,
    /// As the name of a predicate, which may be `list` or `proto`.
    Predicate,
    /// As the name of an action, which may be `new`, `has`, `free`, `dispose`, `delete` or `setproto`.
    Action,
}

/// What a parameter or a variable is named by.
#[derive(Clone, Copy, Debug, PartialEq, Eq)]
pub enum Naming {
    /// A name, as of a program variable.
    Program,
    /// A logical name.
    Logical,
}

/// What an assertion in braces begins with.
#[derive(Clone, Copy, Debug, PartialEq, Eq)]
pub enum Opening {
    /// Its brace.
    Brace,
    /// The word `throw`, which stands before its brace.
    Throw,
}

/// How many assertions in braces are read, where what follows them isn't known.
#[derive(Clone, Copy, Debug, PartialEq, Eq)]
pub enum Extent {
    /// Each one that begins.
    Whole,
    /// As many as there are: what begins as one and isn't one is left.
    Longest,
}
