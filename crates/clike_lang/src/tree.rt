//! The trees of C-like programs.
use clike_operators::Expression;
use gil_values::Text;
use sequence::Sequence;

/// Expressions in order.
pub type Expressions = Sequence<Expression>;

/// A statement without statements in it. Contracts see it as its pure data, by `simple_view`.
#[derive(Debug, Drop)]
pub enum SimpleStatement {
    /// `x = e`
    Assign(Text, Expression),
    /// `x = input()`
    Input(Text),
    /// `x = malloc(e)`
    Malloc(Text, Expression),
    /// `x = f(e, ..)`, or `f(e, ..)` without a variable
    Call(Option<Text>, Text, Expressions),
    /// `free(e)`
    Free(Expression),
    /// `a[b] = c`; `*a = c` is `a[0] = c`
    Store(Expression, Expression, Expression),
}

/// A statement.
pub type Statement = source_statements::Statement<Expression, SimpleStatement>;

/// A statement, and the byte at which it begins.
pub type PlacedStatement = source_statements::PlacedStatement<Expression, SimpleStatement>;

/// Statements in order.
pub type Block = source_statements::Block<Expression, SimpleStatement>;

/// A function, and the byte at which it begins.
pub type Function = source_language::Function<Block>;

/// The functions of a program, in the order of its text.
pub type Functions = Sequence<Function>;
