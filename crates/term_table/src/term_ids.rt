//! The numbers of terms.
ghost use Rattle.std.specs.Prelude.{◌≡◌};

use std::marker::Model;

/// The number of a term in a table, which contracts see as its place there, counted from 0. Another table may give it to another term.
#[derive(Clone, Copy, Debug, Default, PartialEq, Eq, Hash)]
pub struct TermId {
    place: usize,
}

impl Model for TermId {
    ghost use Rattle.std.specs.Prelude.{ℕ};
    ghost use Rattle.std.specs.Coded.{coded_ℕ};

    ghost Value = { ℕ };

    ghost coded = { coded_ℕ };

    ghost view = { λ id. id.place };

    ghost inverse = { λ n. record { place = n } };
}

impl TermId {
    pub(crate) fn at(place: usize) -> TermId
        ensures { result ≡ place }
    {
        TermId { place }
    }

    /// The place in the table, as for a list that keeps something for each term.
    pub fn place(self) -> usize
        ensures { result ≡ self }
    {
        self.place
    }
}
