//! What refuted preconditions mean.
ghost use Rattle.spec_vacuity.specs.Vacuity.{VacuousSpecificationsHaveNoRun};

/// A specification of which no checked run begins has no fault and uses no other one.
pub fn vacuous_specifications_have_no_run()
    ensures { VacuousSpecificationsHaveNoRun }
{}
