//! What holds of every list whose variables get the sorts that it says.
ghost use Rattle.solver_sorts.specs.Laws.{SortedListsAreOver, SortedListsHaveTheSameSolutions};

/// A list whose variables get the sorts that it says is met by the same valuations as before.
pub fn sorted_lists_have_the_same_solutions()
    ensures solutions { SortedListsHaveTheSameSolutions }
    ensures over { SortedListsAreOver }
{}
