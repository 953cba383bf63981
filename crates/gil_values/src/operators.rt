//! The operators of expressions, one variant each.

/// An operator of one operand.
#[derive(Clone, Copy, Debug, PartialEq, Eq)]
pub enum UnOp {
    /// `not`, of booleans.
    Not,
    /// `neg`, of whole numbers.
    Neg,
    /// `len`: the number of characters of a text, or of elements of a list.
    Len,
    /// `kind`, of any value.
    Kind,
}

/// An operator of two operands, evaluated from left to right.
#[derive(Clone, Copy, Debug, PartialEq, Eq)]
pub enum BinOp {
    Add,
    Subtract,
    Multiply,
    /// Truncated towards zero (ISO/IEC 9899:2011, 6.5.5).
    Divide,
    /// The remainder has the dividend's sign (ISO/IEC 9899:2011, 6.5.5).
    Remainder,
    /// `=`, of any two values: values of different kinds are unequal.
    Equal,
    Less,
    LessOrEqual,
    /// `and`: both operands are evaluated.
    And,
    /// `or`: both operands are evaluated.
    Or,
    /// `++`, of two texts or of two lists.
    Append,
    /// `nth`: the element of a list at a number, counted from 0.
    Nth,
}
