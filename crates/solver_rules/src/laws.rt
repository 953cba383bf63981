//! What holds of lists on which no rule has anything to add: laws of the definitions, which no code is needed for.
ghost use Rattle.solver_rules.specs.Laws.{CombinationsClose, LooseDisequalitiesMayBeMet, ModelsSatisfy, SettledListsMayBeValued};

/// Where no rule has anything to add, values may be asked for of the classes.
pub fn settled_lists_may_be_valued()
    ensures { SettledListsMayBeValued }
{}

/// Disequalities of which a side is equated with no number may be asked for beside the classes.
pub fn loose_disequalities_may_be_met()
    ensures { LooseDisequalitiesMayBeMet }
{}

/// What meets the equalities and these disequalities, with numbers that solve the rows, satisfies the whole list.
pub fn models_satisfy()
    ensures { ModelsSatisfy }
{}

/// A combination of the rows of a list closes it.
pub fn combinations_close()
    ensures { CombinationsClose }
{}
