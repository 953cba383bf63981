//! What checked runs show.
ghost use Rattle.checked_runs.specs.Laws.{VerifiedSpecificationsHold};

/// Where no checked run of a set of specifications has a fault, and they use only each other, each of them holds: of every run
/// from every heap that contains its precondition, whatever else the heap holds.
pub fn verified_specifications_hold()
    ensures { VerifiedSpecificationsHold }
{}
