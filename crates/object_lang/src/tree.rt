//! The trees of programs of the object language.
use gil_values::{Kind, Text};
use object_operators::Expression;
use sequence::Sequence;

/// Expressions in order.
pub type Expressions = Sequence<Expression>;

/// A statement without statements in it. Contracts see it as its pure data, by `simple_view`.
#[derive(Debug, Drop)]
pub enum SimpleStatement {
    /// `x = e`
    Assign(Text, Expression),
    /// `x = input int`, with the kind of the input
    Input(Text, Kind),
    /// `x = create(e)`
    Create(Text, Expression),
    /// `x = proto(e)`
    Proto(Text, Expression),
    /// `x = has(a, b)`
    Has(Text, Expression, Expression),
    /// `x = a(e, ..)`
    Call(Text, Expression, Expressions),
    /// `a[b] = c`
    Set(Expression, Expression, Expression),
    /// `delete a[b]`
    Delete(Expression, Expression),
    /// `setproto(a, b)`
    SetProto(Expression, Expression),
    Fail(Expression),
    Throw(Expression),
}

/// A statement.
pub type Statement = source_statements::Statement<Expression, SimpleStatement>;

/// A statement, and the byte at which it begins.
pub type PlacedStatement = source_statements::PlacedStatement<Expression, SimpleStatement>;

/// Statements in order.
pub type Block = source_statements::Block<Expression, SimpleStatement>;

/// A function, and the byte at which it begins.
pub type Function = source_language::Function<Block>;

/// The functions of a program, in the order of its text.
pub type Functions = Sequence<Function>;
