//! Rows: sums of variables times factors and a constant, which are at most 0, or are 0.
ghost use Rattle.std.specs.Prelude.{◌≡◌, [], ◌∷◌, ◌++◌, length, OnOk, OnErr};

use sequence::Sequence;
use smallvec::SmallVec;
use std::alloc::{AllocError, Global};
use std::marker::Model;

/// A variable, by its number, and its factor in a row.
#[derive(Clone, Copy, Debug, PartialEq, Eq, Default)]
pub struct Coefficient {
    pub variable: u64,
    pub factor: i128,
}

/// The variables of a row with their factors, which contracts see as the list of them. One or two take no memory.
#[derive(Drop)]
pub struct Coefficients {
    items: SmallVec<Coefficient, 2>,
}

impl Model for Coefficients {
    ghost use Rattle.std.specs.Prelude.{List};
    ghost use Rattle.linear_core.specs.declared.rows.Coefficient.{Coefficient};

    ghost Value = { List Coefficient };

    ghost view = { λ c. c.items.items };
}

impl Coefficients {
    /// The empty list, which takes no memory.
    pub fn new(alloc: Global) -> Coefficients
        ensures { result ≡ [] }
    {
        Coefficients {
            items: SmallVec::new(alloc),
        }
    }

    /// How many there are.
    pub fn len(&self) -> usize
        ensures { result ≡ length self.now }
    {
        self.items.len()
    }

    /// Adds one at the end.
    pub fn push(&mut self, coefficient: Coefficient) -> Result<(), AllocError>
        ensures ok { OnOk result (self.new ≡ self.old ++ coefficient ∷ []) }
        ensures err { OnErr result (self.new ≡ self.old) }
    {
        self.items.push(coefficient)?;
        Ok(())
    }

    /// The coefficients in order.
    pub fn as_slice(&self) -> &[Coefficient]
        ensures { result.now ≡ self.now }
    {
        self.items.as_slice()
    }
}

/// What a row says of its sum.
#[derive(Clone, Copy, Debug, PartialEq, Eq)]
pub enum Relation {
    /// It is at most 0.
    AtMostZero,
    /// It is 0.
    Zero,
}

/// A sum of variables times factors plus a constant, and what is said of it.
#[derive(Drop)]
pub struct Row {
    pub coefficients: Coefficients,
    pub constant: i128,
    pub relation: Relation,
}

/// A list of rows.
pub type Rows = Sequence<Row>;
