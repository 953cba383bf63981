//! What holds of the meaning of assertions: laws of the definitions, which no code is needed for.
ghost use Rattle.assert_logic.specs.Laws.{AddingIsComplete, CoreHeapsAreMatched, FoldingSplits, HeapsSplitAmongItems, LargerRanksKeep, MatchingGivesNames, MatchingInventsNothing, MatchingSplits, MeetingInventsNothing, ReturnsAreMatched};

/// What holds at a rank holds at each larger one.
pub fn larger_ranks_keep()
    ensures { LargerRanksKeep }
{}

/// A heap that meets several items is split among them, in any order.
pub fn heaps_split_among_items()
    ensures { HeapsSplitAmongItems }
{}

/// What meets items beside a state can be added to it.
pub fn adding_is_complete()
    ensures { AddingIsComplete }
{}

/// What was matched splits the heap that realizes the state.
pub fn matching_splits()
    ensures { MatchingSplits }
{}

/// So does a case that was folded, and its predicate holds of what was taken, with the outs that were asked for.
pub fn folding_splits()
    ensures { FoldingSplits }
{}

/// Meeting an assertion that can be read invents no symbol.
pub fn meeting_invents_nothing()
    ensures { MeetingInventsNothing }
{}

/// What was matched with nothing left is met by the whole heap, as at a return.
pub fn returns_are_matched()
    ensures { ReturnsAreMatched }
{}

/// Matching gives values to names of the assertion alone.
pub fn matching_gives_names()
    ensures { MatchingGivesNames }
{}

/// Matching invents no symbol.
pub fn matching_invents_nothing()
    ensures { MatchingInventsNothing }
{}

/// On core predicates nothing is chosen: what a part of a heap meets is matched, and the rest is left.
pub fn core_heaps_are_matched()
    ensures { CoreHeapsAreMatched }
{}
