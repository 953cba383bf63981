//! What several calls say together of a count of faults.
ghost use Rattle.std.specs.Prelude.{ℕ, ◌-◌, ◌^◌, ◌<◌, ◌≤◌};
ghost use Rattle.gil_io.specs.Faults.{FaultRose};

/// The laws of a risen count, for any counts: a fault in one of several calls is a fault in all of them together, as the
/// count falls in none; and a count has gone up, unless it stands at its last value.
pub fn fault_laws()
    ensures before { (old mid new : ℕ) → FaultRose old mid → mid ≤ new → FaultRose old new }
    ensures after { (old mid new : ℕ) → old ≤ mid → FaultRose mid new → FaultRose old new }
    ensures rises { (old new : ℕ) → FaultRose old new → old < 2 ^ 64 - 1 → old < new }
    ensures stands { (old : ℕ) → FaultRose old (2 ^ 64 - 1) }
{}
