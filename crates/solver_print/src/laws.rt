//! What holds of every printed term.
ghost use Rattle.solver_print.specs.Laws.{TermsPrintAsExpressions};

/// A literal is printed as its value, and a variable by its name.
pub fn terms_print_as_expressions()
    ensures { TermsPrintAsExpressions }
{}
