//! What adding an assertion tells of the names that stand in it: laws of the definitions, which no code is needed for.
ghost use Rattle.sym_states.specs.NamingLaws.{AddingReadsNames, AddingInventsNothing};

/// Adding an assertion reads the values of the names that stand in it, each of which has one, and no other ones.
pub fn adding_reads_names()
    ensures { AddingReadsNames }
{}

/// Adding an assertion that can be read invents no symbol.
pub fn adding_invents_nothing()
    ensures { AddingInventsNothing }
{}
