//! The commands of statements and blocks.
ghost use Rattle.std.specs.Prelude.{◌≡◌, ◌+◌, IfOk};
ghost use Rattle.source_language.specs.Code.{code_view};
ghost use Rattle.while_lang.specs.View.{statement_view, block_view};
ghost use Rattle.while_compiler.specs.Compiled as compiled;

use crate::records::new_code;
use crate::simple::{
    assign_code, call_code, dispose_code, fail_code, input_code, lookup_code, mutate_code,
    return_code, symbol_code,
};
use crate::temporaries::block_temporaries;
use gil_syntax::Body;
use source_language::{
    append, assert_code, assume_code, body_label, code_len, first_temporaries, if_code,
    invariant_code, logic_code, sum, then_label, while_code,
};
use std::alloc::{AllocError, Global};
use while_lang::{Block, Statement};

/// The commands of a statement, at a label.
#[cycle(code)]
fn statement_code(
    alloc: Global,
    label: usize,
    at: u32,
    statement: &Statement,
) -> Result<Body, AllocError>
    ensures { IfOk result (λ code. code_view code ≡ compiled.statement_code label at (statement_view statement.now)) }
{
    match statement {
        Statement::Assign(target, value) => assign_code(alloc, at, target, value),
        Statement::Input(target, kind) => input_code(alloc, at, target, *kind),
        Statement::Symbol(target) => symbol_code(alloc, at, target),
        Statement::New(target, fields) => new_code(alloc, at, target, fields),
        Statement::Lookup(target, record, field) => lookup_code(alloc, at, target, record, field),
        Statement::Call(target, function, arguments) => call_code(
            alloc, at, target, function, arguments,
        ),
        Statement::Mutate(record, field, value) => mutate_code(alloc, at, record, field, value),
        Statement::Dispose(record) => dispose_code(alloc, at, record),
        Statement::Assert(condition) => assert_code(alloc, label, at, condition),
        Statement::Assume(condition) => assume_code(alloc, label, at, condition),
        Statement::If(condition, body, other) => {
            let off = block_code(alloc, sum(label, 1)?, other)?;
            let on = block_code(alloc, then_label(label, &off)?, body)?;
            if_code(alloc, label, at, condition, off, on)
        }
        Statement::While(condition, invariant, body) => {
            let names = first_temporaries(alloc, block_temporaries(body)?)?;
            let invariant = invariant_code(alloc, at, names, invariant)?;
            let body = block_code(alloc, body_label(label, &invariant)?, body)?;
            while_code(alloc, label, at, condition, invariant, body)
        }
        Statement::Return(value) => return_code(alloc, at, value),
        Statement::Fail(value) => fail_code(alloc, at, value),
        Statement::Logic(logic) => logic_code(alloc, at, logic),
    }
}

/// The commands of a block, at a label.
#[cycle(code)]
pub(crate) fn block_code(alloc: Global, label: usize, block: &Block) -> Result<Body, AllocError>
    ensures { IfOk result (λ code. code_view code ≡ compiled.block_code label (block_view block.now)) }
{
    let mut code = Body::new(alloc);
    for placed in block.as_slice() {
        let start = sum(label, code_len(&code))?;
        let more = statement_code(alloc, start, placed.at, &placed.statement)?;
        append(&mut code, more)?;
    }
    Ok(code)
}
