//! Calls that are numbered, of which some are to fail.
ghost use Rattle.std.specs.Prelude.{◌≡◌, ◌↔◌, ◌≤◌, Contains, IsTrue};
ghost use Rattle.gil_io.specs.Faults.{next_count};

use std::marker::Model;

/// The numbers of the calls that are to fail, the number of the last call, and the count of faults. Both counts stay at
/// their last value.
#[derive(Drop)]
pub struct Calls {
    fail: Vec<usize>,
    number: usize,
    faults: u64,
}

impl Model for Calls {
    ghost use Rattle.gil_io.specs.Calls.{CallState};

    ghost Value = { CallState };

    ghost view = { λ calls. record { fail = calls.fail.items; calls = calls.number; faults = calls.faults } };
}

impl Calls {
    pub fn new(fail: Vec<usize>) -> Calls
        ensures { result ≡ record { fail = fail.items; calls = 0; faults = 0 } }
    {
        Calls {
            fail,
            number: 0,
            faults: 0,
        }
    }

    /// Begins the next call, and answers whether it is to fail.
    pub fn begin(&mut self) -> bool
        ensures fails { IsTrue result ↔ Contains self.old.fail (next_count self.old.calls) }
        ensures number { self.new ≡ record self.old { calls = next_count self.old.calls } }
    {
        self.number = self.number.saturating_add(1);
        self.fail.contains(&self.number)
    }

    /// Counts a fault.
    pub fn add_fault(&mut self)
        ensures faults { self.new ≡ record self.old { faults = next_count self.old.faults } }
        ensures never_falls { self.old.faults ≤ self.new.faults }
    {
        self.faults = self.faults.saturating_add(1);
    }
}
