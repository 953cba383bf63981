//! Where statements read and assign the variable of thrown values.
ghost use Rattle.std.specs.Prelude.{◌≡◌, ◌||◌};
ghost use Rattle.source_statements.specs.Compiled as compiled;
ghost use Rattle.source_statements.specs.View.{block_view, statement_view};

use crate::language::Language;
use crate::tree::{Block, Statement};

/// Whether one of two tests holds.
fn either(first: bool, second: bool) -> bool
    ensures { result ≡ (first || second) }
{
    first || second
}

/// Whether there is a block in a statement whose throws are handled.
#[cycle(trying)]
fn statement_tries<L: Language>(statement: &Statement<L::Expression, L::Simple>) -> bool
    ensures { result ≡ compiled.statement_tries L.codes (statement_view L.expression_view L.simple_view statement.now) }
{
    match statement {
        Statement::If(_, body, other) => block_tries::<L>(body) || block_tries::<L>(other),
        Statement::While(_, _, body) => block_tries::<L>(body),
        Statement::Try(_, _, _) => true,
        _ => false,
    }
}

/// Whether there is one in the statements of a block.
#[cycle(trying)]
pub(crate) fn block_tries<L: Language>(block: &Block<L::Expression, L::Simple>) -> bool
    ensures { result ≡ compiled.block_tries L.codes (block_view L.expression_view L.simple_view block.now) }
{
    let mut tries = false;
    for placed in block.as_slice() {
        tries = either(tries, statement_tries::<L>(&placed.statement));
    }
    tries
}

/// Whether a statement assigns the variable of thrown values, where throws are handled around it or not.
#[cycle(throwing)]
fn statement_throws<L: Language>(
    handled: bool,
    statement: &Statement<L::Expression, L::Simple>,
) -> bool
    ensures { result ≡ compiled.statement_throws L.codes handled (statement_view L.expression_view L.simple_view statement.now) }
{
    match statement {
        Statement::Simple(simple) => handled && L::may_throw(simple),
        Statement::If(_, body, other) => {
            block_throws::<L>(handled, body) || block_throws::<L>(handled, other)
        }
        Statement::While(_, _, body) => block_throws::<L>(handled, body),
        Statement::Try(body, _, handler) => {
            block_throws::<L>(true, body) || block_throws::<L>(handled, handler)
        }
        _ => false,
    }
}

/// Whether the statements of a block do.
#[cycle(throwing)]
pub(crate) fn block_throws<L: Language>(
    handled: bool,
    block: &Block<L::Expression, L::Simple>,
) -> bool
    ensures { result ≡ compiled.block_throws L.codes handled (block_view L.expression_view L.simple_view block.now) }
{
    let mut throws = false;
    for placed in block.as_slice() {
        throws = either(throws, statement_throws::<L>(handled, &placed.statement));
    }
    throws
}
