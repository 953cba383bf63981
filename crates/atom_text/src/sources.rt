//! What a text of atoms holds as it is written: declarations and expressions, each with the byte at which it begins.

use gil_syntax::Expr;
use gil_values::Text;
use pure_terms::Sort;
use sequence::Sequence;

/// A variable that is declared, and the byte at which its name stands there.
#[derive(Debug, Drop)]
pub struct Declaration {
    pub name: Text,
    pub sort: Sort,
    pub at: usize,
}

/// An expression that is stated, and the byte at which it begins.
#[derive(Debug, Drop)]
pub struct Stated {
    pub expression: Expr,
    pub at: usize,
}

pub type Declarations = Sequence<Declaration>;

pub type StatedList = Sequence<Stated>;

/// The declarations and the expressions of a text, in their order.
#[derive(Debug, Drop)]
pub struct AtomSource {
    pub declarations: Declarations,
    pub stated: StatedList,
}
