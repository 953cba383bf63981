//! Commands, and the bodies of procedures.
use crate::assertions::{Assertion, Params, PredUse};
use crate::expressions::{Expr, Exprs};
use gil_values::{Kind, Text};
use sequence::Sequence;

pub type Texts = Sequence<Text>;

/// A command. The first text of a command is the variable that it assigns.
#[derive(Debug, Drop)]
pub enum Command {
    Assign(Text, Expr),
    /// The expression is the callee, and the list its arguments. The label is that of the call's handler: where a throw
    /// reaches this call, the variable gets the value thrown, and the procedure goes on at the command with this index.
    Call(Text, Expr, Exprs, Option<i64>),
    /// The second text is the action.
    Act(Text, Text, Exprs),
    /// A new uninterpreted symbol.
    Usym(Text),
    /// The next input, which must have this kind. In a well-made program it is `Int`, `Bool` or `Str`.
    Isym(Text, Kind),
    /// Goes to the command with this index where the guard is true, and to the next where it is false.
    IfGoto(Expr, i64),
    Return(Expr),
    Fail(Expr),
    /// Leaves this procedure, and each that has called it without a handler, with a value for the first handler.
    Throw(Expr),
    Vanish,
    Fold(PredUse),
    Unfold(PredUse),
    AssertThat(Assertion),
    /// The program variables that may change, the logical variables, and the assertion.
    LoopInvariant(Texts, Params, Assertion),
}

/// A command of a body and the number of its place. In a program read from GIL text that is the command's index
/// from 0, in a compiled program the byte at which the source statement begins.
#[derive(Debug, Drop)]
pub struct NumberedCommand {
    pub command: Command,
    pub at: u32,
}

pub type Body = Sequence<NumberedCommand>;
