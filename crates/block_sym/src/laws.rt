//! What holds of the branches of each action: laws of the table, which no code is needed for.
ghost use Rattle.block_heap.specs.declared.actions.BlockAction.TheVariants.{Alloc, Load, Store, Free};
ghost use Rattle.block_sym.specs.Laws.{IsRightAction};

/// The branches of `alloc` cover what the concrete action comes to, and each is exact.
pub fn alloc_is_right()
    ensures { IsRightAction Alloc }
{}

/// The branches of `load` cover what the concrete action comes to, and each is exact.
pub fn load_is_right()
    ensures { IsRightAction Load }
{}

/// The branches of `store` cover what the concrete action comes to, and each is exact.
pub fn store_is_right()
    ensures { IsRightAction Store }
{}

/// The branches of `free` cover what the concrete action comes to, and each is exact.
pub fn free_is_right()
    ensures { IsRightAction Free }
{}
