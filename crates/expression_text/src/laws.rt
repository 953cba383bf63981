//! What holds of all expressions. The functions do nothing: their contracts are the laws.
ghost use Rattle.expression_text.specs.Laws.{ExpressionsAgain, OnlyWritableExpressions};

/// A writable expression that was printed is read again, whatever follows that is no part of it.
pub fn expressions_again()
    ensures { ExpressionsAgain }
{}

/// What is read as an expression is a writable one.
pub fn only_writable_expressions()
    ensures { OnlyWritableExpressions }
{}
