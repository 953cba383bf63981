//! How many temporaries statements use.
ghost use Rattle.std.specs.Prelude.{◌≡◌, map, IfOk};
ghost use Rattle.while_lang.specs.View.{field_view, statement_view, block_view};
ghost use Rattle.while_compiler.specs.Compiled as compiled;

use source_language::sum;
use std::alloc::AllocError;
use while_lang::{Block, Fields, Statement};

/// How many temporaries a new record takes.
fn field_temporaries(fields: &Fields) -> Result<usize, AllocError>
    ensures { IfOk result (λ n. n ≡ compiled.field_temporaries (map field_view fields.now)) }
{
    match fields.len() {
        0 => Ok(1),
        some => sum(some, 2),
    }
}

/// How many temporaries a statement uses, those of its blocks included.
#[cycle(counting)]
fn statement_temporaries(statement: &Statement) -> Result<usize, AllocError>
    ensures { IfOk result (λ n. n ≡ compiled.statement_temporaries (statement_view statement.now)) }
{
    match statement {
        Statement::New(_, fields) => field_temporaries(fields),
        Statement::Mutate(..) | Statement::Dispose(_) => Ok(1),
        Statement::If(_, body, other) => {
            Ok(block_temporaries(body)?.max(block_temporaries(other)?))
        }
        Statement::While(_, _, body) => block_temporaries(body),
        _ => Ok(0),
    }
}

/// How many temporaries the statements of a block use.
#[cycle(counting)]
pub(crate) fn block_temporaries(block: &Block) -> Result<usize, AllocError>
    ensures { IfOk result (λ n. n ≡ compiled.block_temporaries (block_view block.now)) }
{
    let mut most = 0;
    for placed in block.as_slice() {
        most = statement_temporaries(&placed.statement)?.max(most);
    }
    Ok(most)
}
