//! The operators of the object language.
use source_operators::Operator;

/// An operator of one operand.
#[derive(Clone, Copy, Debug, PartialEq, Eq)]
pub enum Prefix {
    /// `-a`
    Minus,
    /// `!a`
    Not,
}

/// An operator of two operands.
#[derive(Clone, Copy, Debug, PartialEq, Eq)]
pub enum Joint {
    Operation(Operator),
    /// `a[b]`; `a.p` is `a["p"]`
    Property,
}

/// An expression.
pub type Expression = source_operators::Expression<Prefix, Joint>;
