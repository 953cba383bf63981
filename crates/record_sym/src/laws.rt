//! What holds of the branches of each action: laws of the table, which no code is needed for.
ghost use Rattle.record_heap.specs.declared.actions.RecordAction.TheVariants.{New, Lookup, Mutate, Dispose};
ghost use Rattle.record_sym.specs.Laws.{IsRightAction};

/// The branches of `new` cover what the concrete action comes to, and each is exact.
pub fn new_is_right()
    ensures { IsRightAction New }
{}

/// The branches of `lookup` cover what the concrete action comes to, and each is exact.
pub fn lookup_is_right()
    ensures { IsRightAction Lookup }
{}

/// The branches of `mutate` cover what the concrete action comes to, and each is exact.
pub fn mutate_is_right()
    ensures { IsRightAction Mutate }
{}

/// The branches of `dispose` cover what the concrete action comes to, and each is exact.
pub fn dispose_is_right()
    ensures { IsRightAction Dispose }
{}
