//! What holds of named forms: laws of the definitions, which no code is needed for.
ghost use Rattle.assertion_terms.specs.Laws.{NamedFormsAreRight, NamesAreOfVariables, TablesAreNamed};

/// Named forms mean what the terms, atoms and uses mean.
pub fn named_forms_are_right()
    ensures { NamedFormsAreRight }
{}

/// The names that stand in an assertion are those of the variables of its terms.
pub fn names_are_of_variables()
    ensures { NamesAreOfVariables }
{}

/// Assertions are well made, and the variables of a table have different names.
pub fn tables_are_named()
    ensures { TablesAreNamed }
{}
