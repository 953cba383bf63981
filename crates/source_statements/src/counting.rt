//! Which names statements assign besides those of the source.
ghost use Rattle.std.specs.Prelude.{◌≡◌, IfOk};
ghost use Rattle.source_statements.specs.Compiled as compiled;
ghost use Rattle.source_statements.specs.View.{block_view, statement_view};

use crate::language::Language;
use crate::tree::{Block, Statement};
use std::alloc::AllocError;

/// How many temporaries a statement uses, those of its blocks included.
#[cycle(counting)]
fn statement_temporaries<L: Language>(
    statement: &Statement<L::Expression, L::Simple>,
) -> Result<usize, AllocError>
    ensures { IfOk result (λ n. n ≡ compiled.statement_temporaries L.codes (statement_view L.expression_view L.simple_view statement.now)) }
{
    match statement {
        Statement::Simple(simple) => L::simple_uses(simple),
        Statement::Assert(condition) | Statement::Assume(condition) => L::uses(condition),
        Statement::If(condition, body, other) => {
            let most = block_temporaries::<L>(body)?.max(block_temporaries::<L>(other)?);
            Ok(L::uses(condition)?.max(most))
        }
        Statement::While(condition, _, body) => {
            Ok(L::uses(condition)?.max(block_temporaries::<L>(body)?))
        }
        Statement::Return(value) => L::uses(value),
        Statement::Logic(_) => Ok(0),
        Statement::Try(body, _, handler) => {
            Ok(block_temporaries::<L>(body)?.max(block_temporaries::<L>(handler)?))
        }
    }
}

/// How many temporaries the statements of a block use.
#[cycle(counting)]
pub(crate) fn block_temporaries<L: Language>(
    block: &Block<L::Expression, L::Simple>,
) -> Result<usize, AllocError>
    ensures { IfOk result (λ n. n ≡ compiled.block_temporaries L.codes (block_view L.expression_view L.simple_view block.now)) }
{
    let mut most = 0;
    for placed in block.as_slice() {
        most = statement_temporaries::<L>(&placed.statement)?.max(most);
    }
    Ok(most)
}
