//! Assertions and their parts: sorts, parameters, uses of predicates and items.
use crate::expressions::{Expr, Exprs};
use gil_values::Text;
use sequence::Sequence;

/// The sort of a parameter or of a logical variable. `Any` allows every value.
#[derive(Clone, Copy, Debug, PartialEq, Eq)]
pub enum SpecSort {
    Int,
    Bool,
    Str,
    Sym,
    List,
    Any,
}

/// A parameter or a logical variable. In a well-made program the name of a logical variable begins with its `#`.
#[derive(Debug, Drop)]
pub struct Param {
    pub name: Text,
    pub sort: SpecSort,
}

pub type Params = Sequence<Param>;

/// A use of a predicate: what is handed in, and what the predicate determines.
#[derive(Debug, Drop)]
pub struct PredUse {
    pub pred: Text,
    pub ins: Exprs,
    pub outs: Exprs,
}

/// An item of an assertion. The items of an assertion share the heap without overlap.
#[derive(Debug, Drop)]
pub enum Item {
    /// The expression is defined and true, of the empty heap.
    Pure(Expr),
    Uses(PredUse),
}

/// The list of the assertion's items; `emp` is the empty list.
pub type Assertion = Sequence<Item>;

pub type Assertions = Sequence<Assertion>;
