//! What holds of every expression and of every program: laws of the definitions, which no code is needed for.
ghost use Rattle.gil_syntax.specs.Laws.{DependsOnItsNames, GivesOneValue, InventsNoSymbol, NamesOneFault, ValidOrNamed};

/// The value of an expression depends only on the names that it has.
pub fn names_decide()
    ensures { DependsOnItsNames }
{}

/// A name that stands in two lists has one value.
pub fn one_name_has_one_value()
    ensures { GivesOneValue }
{}

/// A program is valid, or a fault of it is named.
pub fn valid_or_named()
    ensures { ValidOrNamed }
{}

/// No two faults of a program are named.
pub fn one_fault_is_named()
    ensures { NamesOneFault }
{}

/// Each symbol in the value of an expression occurs in the value of a name of the store.
pub fn evaluation_invents_no_symbol()
    ensures { InventsNoSymbol }
{}
