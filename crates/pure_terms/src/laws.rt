//! What holds of every term, valuation and atom: laws of the definitions, which no code is needed for.
ghost use Rattle.pure_terms.specs.Laws.{DependOnVariables, FoldingReplaces, FragmentAtomByAtom, FragmentTermsAreBooleans, InventsNoSymbol, KnownKindsAreRight, RenamingKeeps, SimpleTermsHaveKinds, SimpleTermsHaveValues, StayWhenTablesGrow};

/// The value of a term and the truth of an atom depend only on the variables that are named.
pub fn variables_decide()
    ensures { DependOnVariables }
{}

/// They stay when the table and the valuation grow.
pub fn tables_may_grow()
    ensures { StayWhenTablesGrow }
{}

/// Each symbol in the value of a term occurs in the value of a variable of the term.
pub fn terms_invent_no_symbol()
    ensures { InventsNoSymbol }
{}

/// A kind that a term's form and its variables' sorts tell is the kind of its value.
pub fn known_kinds_are_right()
    ensures { KnownKindsAreRight }
{}

/// Simple terms have values, and known kinds where no variable is of sort any.
pub fn simple_terms_are_known()
    ensures values { SimpleTermsHaveValues }
    ensures kinds { SimpleTermsHaveKinds }
{}

/// The term of an atom of a fragment form is true or false.
pub fn fragment_atoms_are_true_or_false()
    ensures { FragmentTermsAreBooleans }
{}

/// Symbols are known apart alone: where they get other names and stay apart, so they do in the values of terms, atoms
/// are as true as before, and proper valuations stay proper.
pub fn symbols_may_be_renamed()
    ensures { RenamingKeeps }
{}

/// A list is in the fragment exactly where each of its atoms by itself is, and few variables are named.
pub fn the_fragment_goes_atom_by_atom()
    ensures { FragmentAtomByAtom }
{}

/// What folding gives may stand in the place of the operator's term: its value is the same wherever there is one, it
/// names no more variables, and it is the term itself or has fewer nodes.
pub fn folding_replaces()
    ensures { FoldingReplaces }
{}
