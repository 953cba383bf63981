//! The operators of the C-like language.
use source_operators::Operator;

/// An operator of one operand.
#[derive(Clone, Copy, Debug, PartialEq, Eq)]
pub enum Prefix {
    /// `-a`
    Minus,
    /// `!a`
    Not,
    /// `*a`
    Pointee,
}

/// An operator of two operands.
#[derive(Clone, Copy, Debug, PartialEq, Eq)]
pub enum Joint {
    Operation(Operator),
    /// `a[b]`
    Cell,
    /// `&a[b]`
    Address,
}

/// An expression.
pub type Expression = source_operators::Expression<Prefix, Joint>;
