//! What a proof shows.
ghost use Rattle.solver_proof.specs.Refuting.{ClosedListsHaveNoSolution};

/// A list that a proof closes has no proper valuation under which every atom is true.
pub fn closed_lists_have_no_solution()
    ensures { ClosedListsHaveNoSolution }
{}
