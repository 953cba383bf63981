//! Variables, their sorts, and what gives them values.
use gil_values::Values;
use sequence::Sequence;

/// The values that a variable may have.
#[derive(Clone, Copy, Debug, PartialEq, Eq)]
pub enum Sort {
    Int,
    Bool,
    Str,
    Sym,
    /// A symbol that occurs in no value of a variable with a lower number.
    Fresh,
    List,
    /// A value of any kind.
    Any,
}

/// A variable, which is known by its number.
#[derive(Clone, Copy, Debug, PartialEq, Eq)]
pub struct Var {
    pub number: u64,
    pub sort: Sort,
}

/// The sorts of the variables 0, 1, 2 and so on.
pub type VarTable = Sequence<Sort>;

/// The values of the variables 0, 1, 2 and so on.
pub type Valuation = Values;
