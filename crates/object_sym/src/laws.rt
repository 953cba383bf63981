//! What holds of the branches of each action: laws of the table, which no code is needed for.
ghost use Rattle.object_heap.specs.declared.actions.ObjectAction.TheVariants.{New, Get, Set, Delete, Has, GetProto, SetProto};
ghost use Rattle.object_sym.specs.Laws.{IsRightAction};

/// The branches of `new` cover what the concrete action comes to, and each is exact.
pub fn new_is_right()
    ensures { IsRightAction New }
{}

/// The branches of `get` cover what the concrete action comes to, and each is exact.
pub fn get_is_right()
    ensures { IsRightAction Get }
{}

/// The branches of `set` cover what the concrete action comes to, and each is exact.
pub fn set_is_right()
    ensures { IsRightAction Set }
{}

/// The branches of `delete` cover what the concrete action comes to, and each is exact.
pub fn delete_is_right()
    ensures { IsRightAction Delete }
{}

/// The branches of `has` cover what the concrete action comes to, and each is exact.
pub fn has_is_right()
    ensures { IsRightAction Has }
{}

/// The branches of `getproto` cover what the concrete action comes to, and each is exact.
pub fn getproto_is_right()
    ensures { IsRightAction GetProto }
{}

/// The branches of `setproto` cover what the concrete action comes to, and each is exact.
pub fn setproto_is_right()
    ensures { IsRightAction SetProto }
{}
