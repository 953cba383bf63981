//! The trees of expressions.
use gil_values::{Text, Value};

/// An operator of two operands that both are done.
#[derive(Clone, Copy, Debug, PartialEq, Eq)]
pub enum Operator {
    Equal,
    Unequal,
    Less,
    LessOrEqual,
    Greater,
    GreaterOrEqual,
    Add,
    Subtract,
    Multiply,
    Divide,
    Remainder,
}

/// An operator that skips its right side where the left one decides.
#[derive(Clone, Copy, Debug, PartialEq, Eq)]
pub enum Connective {
    And,
    Or,
}

/// An expression: `P` are the operators of one operand of a language, `J` those of two. Contracts see it as its pure data, by
/// `expression_view`.
#[derive(Debug, Drop)]
pub enum Expression<P: Drop, J: Drop> {
    Constant(Value),
    Variable(Text),
    /// `(e)`, which means what it holds.
    Brackets(Box<Expression<P, J>>),
    Prefixed(P, Box<Expression<P, J>>),
    Joined(J, Box<Expression<P, J>>, Box<Expression<P, J>>),
    /// The right side may be skipped.
    Skipping(Connective, Box<Expression<P, J>>, Box<Expression<P, J>>),
}
