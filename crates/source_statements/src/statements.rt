//! The commands of statements and blocks.
ghost use Rattle.std.specs.Prelude.{◌≡◌, ◌+◌, ◌++◌, not, [], ◌∷◌, codes as characters, IfOk};
ghost use Rattle.gil_values.specs.Pure.{text as text_value};
ghost use Rattle.gil_syntax.specs.Pure.{literal, fail, return};
ghost use Rattle.gil_syntax.specs.View.{command_view};
ghost use Rattle.source_language.specs.Code.{code_view};
ghost use Rattle.source_language.specs.Procedures.{placed};
ghost use Rattle.source_language.specs.View.{invariants_view};
ghost use Rattle.source_statements.specs.Codes as codes;
ghost use Rattle.source_statements.specs.Compiled as compiled;
ghost use Rattle.source_statements.specs.Pure.{try_catch};
ghost use Rattle.source_statements.specs.View.{block_view, statement_view};

use crate::control::{behind, choice_code, far_label, guarded_code, inside_label, try_code};
use crate::counting::block_temporaries;
use crate::language::{Front, Language};
use crate::sizes::block_len;
use crate::throwing::block_throws;
use crate::tree::{Block, Statement};
use gil_syntax::{Body, Command, Expr};
use gil_values::{Text, Value};
use source_language::{
    Invariant, append, code_len, invariant_code, jump, logic_code, one, own_names, put, sum, text,
    truth,
};
use std::alloc::{AllocError, Global};

/// A command at a label that is done where a condition doesn't hold.
fn check_code<L: Language>(
    alloc: Global,
    label: usize,
    at: u32,
    condition: &L::Expression,
    command: Command,
) -> Result<Body, AllocError>
    ensures { IfOk result
        (λ code. code_view code
        ≡ codes.guarded_code (not L.codes.where_true) label at (L.codes.front (L.expression_view condition.now) label at)
        (L.codes.jumps (L.codes.operand (L.expression_view condition.now))) (placed at (command_view command) ∷ [])) }
{
    let Front {
        code: front,
        operand,
    } = L::front(alloc, label, at, condition)?;
    let conditions = L::jumps(alloc, &operand)?;
    let inside = one(alloc, at, command)?;
    guarded_code(!L::jumps_where_true(), label, at, front, conditions, inside)
}

/// The failure of an assertion.
fn assertion_fails(alloc: Global) -> Result<Command, AllocError>
    ensures { IfOk result (λ command. command_view command ≡ fail (literal (text_value (characters "assert")))) }
{
    Ok(Command::Fail(Expr::Lit(Value::Str(text(alloc, "assert")?))))
}

/// The return of a value.
fn return_code<L: Language>(
    alloc: Global,
    label: usize,
    at: u32,
    value: &L::Expression,
) -> Result<Body, AllocError>
    ensures { IfOk result
        (λ code. code_view code
        ≡ L.codes.front (L.expression_view value.now) label at ++ placed at (return (L.codes.operand (L.expression_view value.now))) ∷ []) }
{
    let Front { mut code, operand } = L::front(alloc, label, at, value)?;
    put(&mut code, at, Command::Return(operand))?;
    Ok(code)
}

/// A choice at a label.
#[cycle(code)]
fn choose_code<L: Language>(
    alloc: Global,
    handler: Option<usize>,
    label: usize,
    at: u32,
    condition: &L::Expression,
    body: &Block<L::Expression, L::Simple>,
    other: &Block<L::Expression, L::Simple>,
) -> Result<Body, AllocError>
    ensures { IfOk result
        (λ code. code_view code
        ≡ codes.if_code L.codes.where_true label at (L.codes.front (L.expression_view condition.now) label at)
        (L.codes.jumps (L.codes.operand (L.expression_view condition.now)))
        (λ n. compiled.block_code L.codes handler n (block_view L.expression_view L.simple_view body.now))
        (λ n. compiled.block_code L.codes handler n (block_view L.expression_view L.simple_view other.now))) }
{
    let Front {
        code: front,
        operand,
    } = L::front(alloc, label, at, condition)?;
    let conditions = L::jumps(alloc, &operand)?;
    let start = behind(label, &front, &conditions)?;
    if L::jumps_where_true() {
        let near = block_code::<L>(alloc, handler, start, other)?;
        let far = block_code::<L>(
            alloc,
            handler,
            far_label(label, &front, &conditions, &near)?,
            body,
        )?;
        choice_code(label, at, front, conditions, near, far)
    } else {
        let near = block_code::<L>(alloc, handler, start, body)?;
        let far = block_code::<L>(
            alloc,
            handler,
            far_label(label, &front, &conditions, &near)?,
            other,
        )?;
        choice_code(label, at, front, conditions, near, far)
    }
}

/// The invariant of a loop, with the names that its test and its body assign besides those of the source.
fn head_code<L: Language>(
    alloc: Global,
    handler: Option<usize>,
    at: u32,
    condition: &L::Expression,
    invariant: &Option<Invariant>,
    body: &Block<L::Expression, L::Simple>,
) -> Result<Body, AllocError>
    ensures { IfOk result
        (λ code. code_view code
        ≡ compiled.head_code L.codes handler at (L.expression_view condition.now) (invariants_view invariant.now)
        (block_view L.expression_view L.simple_view body.now)) }
{
    let most = L::uses(condition)?.max(block_temporaries::<L>(body)?);
    let names = own_names(alloc, most, block_throws::<L>(handler.is_some(), body))?;
    invariant_code(alloc, at, names, invariant)
}

/// The test of a loop at a label, its body, and the jump back.
#[cycle(code)]
fn loop_code<L: Language>(
    alloc: Global,
    handler: Option<usize>,
    back: usize,
    at: u32,
    label: usize,
    condition: &L::Expression,
    body: &Block<L::Expression, L::Simple>,
) -> Result<Body, AllocError>
    ensures { IfOk result
        (λ code. code_view code
        ≡ compiled.loop_code L.codes back at label (L.expression_view condition.now)
        (λ n. compiled.block_code L.codes handler n (block_view L.expression_view L.simple_view body.now))) }
{
    let Front {
        code: front,
        operand,
    } = L::front(alloc, label, at, condition)?;
    let conditions = L::jumps(alloc, &operand)?;
    let into = L::jumps_where_true();
    let start = inside_label(into, label, &front, &conditions)?;
    let mut inside = block_code::<L>(alloc, handler, start, body)?;
    jump(&mut inside, at, truth(), back)?;
    guarded_code(into, label, at, front, conditions, inside)
}

/// Where the handler begins of a block that stands at a label.
fn handler_label<L: Language>(
    alloc: Global,
    label: usize,
    body: &Block<L::Expression, L::Simple>,
) -> Result<usize, AllocError>
    ensures { IfOk result (λ n. n ≡ compiled.handler_label L.codes label (block_view L.expression_view L.simple_view body.now)) }
{
    sum(sum(label, block_len::<L>(alloc, body)?)?, 1)
}

/// A block at a label whose throws are handled, and the handler behind it.
#[cycle(code)]
fn handled_code<L: Language>(
    alloc: Global,
    handler: Option<usize>,
    label: usize,
    at: u32,
    body: &Block<L::Expression, L::Simple>,
    name: &Text,
    catch: &Block<L::Expression, L::Simple>,
) -> Result<Body, AllocError>
    ensures { IfOk result
        (λ code. code_view code
        ≡ compiled.statement_code L.codes handler label at
        (try_catch (block_view L.expression_view L.simple_view body.now) name.now (block_view L.expression_view L.simple_view catch.now))) }
{
    let start = handler_label::<L>(alloc, label, body)?;
    let behind = sum(start, 1)?;
    let inside = block_code::<L>(alloc, Some(start), label, body)?;
    let rest = block_code::<L>(alloc, handler, behind, catch)?;
    let end = sum(behind, code_len(&rest))?;
    try_code(alloc, end, at, name, inside, rest)
}

/// The commands of a statement, at a label.
#[cycle(code)]
fn statement_code<L: Language>(
    alloc: Global,
    handler: Option<usize>,
    label: usize,
    at: u32,
    statement: &Statement<L::Expression, L::Simple>,
) -> Result<Body, AllocError>
    ensures { IfOk result
        (λ code. code_view code ≡ compiled.statement_code L.codes handler label at (statement_view L.expression_view L.simple_view statement.now)) }
{
    match statement {
        Statement::Simple(simple) => L::simple_code(alloc, handler, label, at, simple),
        Statement::Assert(condition) => {
            check_code::<L>(alloc, label, at, condition, assertion_fails(alloc)?)
        }
        Statement::Assume(condition) => {
            check_code::<L>(alloc, label, at, condition, Command::Vanish)
        }
        Statement::If(condition, body, other) => {
            choose_code::<L>(alloc, handler, label, at, condition, body, other)
        }
        Statement::While(condition, invariant, body) => {
            let mut code = head_code::<L>(alloc, handler, at, condition, invariant, body)?;
            let start = sum(label, code_len(&code))?;
            append(
                &mut code,
                loop_code::<L>(alloc, handler, label, at, start, condition, body)?,
            )?;
            Ok(code)
        }
        Statement::Return(value) => return_code::<L>(alloc, label, at, value),
        Statement::Logic(logic) => logic_code(alloc, at, logic),
        Statement::Try(body, name, catch) => {
            handled_code::<L>(alloc, handler, label, at, body, name, catch)
        }
    }
}

/// The commands of a block, at a label.
#[cycle(code)]
pub(crate) fn block_code<L: Language>(
    alloc: Global,
    handler: Option<usize>,
    label: usize,
    block: &Block<L::Expression, L::Simple>,
) -> Result<Body, AllocError>
    ensures { IfOk result
        (λ code. code_view code ≡ compiled.block_code L.codes handler label (block_view L.expression_view L.simple_view block.now)) }
{
    let mut code = Body::new(alloc);
    for placed in block.as_slice() {
        let start = sum(label, code_len(&code))?;
        let more = statement_code::<L>(alloc, handler, start, placed.at, &placed.statement)?;
        append(&mut code, more)?;
    }
    Ok(code)
}
