//! The commands of statements without statements in them.
ghost use Rattle.std.specs.Prelude.{◌≡◌, ◌++◌, [], ◌∷◌, map, IfOk, OnOk, codes as characters};
ghost use Rattle.gil_values.specs.Characters.{IsText};
ghost use Rattle.gil_values.specs.declared.operators.BinOp.TheVariants.{Equal};
ghost use Rattle.gil_syntax.specs.Pure.{binary_of, act as pure_act};
ghost use Rattle.gil_syntax.specs.View.{expr_view, exprs_view};
ghost use Rattle.source_language.specs.Code.{code_view};
ghost use Rattle.source_language.specs.Names.{temporary as pure_temporary};
ghost use Rattle.source_language.specs.Procedures as procedures;
ghost use Rattle.source_language.specs.Procedures.{placed};
ghost use Rattle.clike_lang.specs.Pure as pure;
ghost use Rattle.clike_lang.specs.View.{expression_view, simple_view};
ghost use Rattle.clike_compiler.specs.Compiled as compiled;

use clike_lang::{Expressions, SimpleStatement};
use clike_operators::{Beyond, Clike, Expression, address_expression, cell_code, range_code};
use gil_syntax::{Body, Command, Expr, Exprs};
use gil_values::{BinOp, Kind, Text, Value};
use sequence::Sequence;
use source_language::{
    append, code_len, jump, null, one, procedure_literal, put, sum, temporary, temporary_variable,
    text,
};
use source_operators::{operand_code, operand_uses, operands_code, operands_uses};
use std::alloc::{AllocError, Global};
use syntax_copy::copy_of_expression;

/// An operand is the same as a literal.
fn equals(alloc: Global, operand: &Expr, literal: Expr) -> Result<Expr, AllocError>
    ensures { IfOk result (λ e. expr_view e ≡ binary_of Equal (expr_view operand.now) (expr_view literal)) }
{
    let operand = copy_of_expression(alloc, operand)?;
    Ok(Expr::Op2(
        BinOp::Equal,
        Box::new(alloc, operand)?,
        Box::new(alloc, literal)?,
    ))
}

/// Where an operand is false.
pub(crate) fn false_conditions(alloc: Global, operand: &Expr) -> Result<Sequence<Expr>, AllocError>
    ensures { IfOk result (λ es. map expr_view es ≡ compiled.false_conditions (expr_view operand.now)) }
{
    let mut conditions = Sequence::new(alloc);
    conditions.push(equals(alloc, operand, Expr::Lit(Value::Int(0)))?)?;
    conditions.push(equals(alloc, operand, null())?)?;
    Ok(conditions)
}

/// An action after the other commands, whose value a variable gets.
fn act(
    alloc: Global,
    commands: &mut Body,
    at: u32,
    target: Text,
    action: &str,
    arguments: Exprs,
) -> Result<(), AllocError>
    requires { IsText action.now }
    ensures { OnOk result
        (code_view commands.new ≡ code_view commands.old ++ placed at (pure_act target action.now (exprs_view arguments)) ∷ []) }
{
    let action = text(alloc, action)?;
    put(commands, at, Command::Act(target, action, arguments))
}

/// One argument.
fn argument(alloc: Global, value: Expr) -> Result<Exprs, AllocError>
    ensures { IfOk result (λ es. exprs_view es ≡ expr_view value ∷ []) }
{
    let mut arguments = Exprs::new(alloc);
    arguments.push(value)?;
    Ok(arguments)
}

/// `x = e`
fn assign_code(
    alloc: Global,
    label: usize,
    at: u32,
    target: &Text,
    value: &Expression,
) -> Result<Body, AllocError>
    ensures { IfOk result (λ code. code_view code ≡ compiled.simple_code label at (pure.assign target.now (expression_view value.now))) }
{
    let operand = operand_code(alloc, &Clike, value, label, at, 0)?;
    let mut code = operand.code;
    put(
        &mut code,
        at,
        Command::Assign(target.copy(alloc)?, operand.expression),
    )?;
    Ok(code)
}

/// `x = input()`
fn input_code(alloc: Global, label: usize, at: u32, target: &Text) -> Result<Body, AllocError>
    ensures { IfOk result (λ code. code_view code ≡ compiled.simple_code label at (pure.input target.now)) }
{
    let drawn = temporary_variable(alloc, 0)?;
    let mut code = one(alloc, at, Command::Isym(temporary(alloc, 0)?, Kind::Int))?;
    let range = range_code(alloc, sum(label, 1)?, at, &drawn, Beyond::Vanishes)?;
    append(&mut code, range)?;
    put(&mut code, at, Command::Assign(target.copy(alloc)?, drawn))?;
    Ok(code)
}

/// `x = malloc(e)`
fn malloc_code(
    alloc: Global,
    label: usize,
    at: u32,
    target: &Text,
    size: &Expression,
) -> Result<Body, AllocError>
    ensures { IfOk result (λ code. code_view code ≡ compiled.simple_code label at (pure.malloc target.now (expression_view size.now))) }
{
    let operand = operand_code(alloc, &Clike, size, label, at, 0)?;
    let mut code = operand.code;
    let arguments = argument(alloc, operand.expression)?;
    act(
        alloc,
        &mut code,
        at,
        target.copy(alloc)?,
        "alloc",
        arguments,
    )?;
    Ok(code)
}

/// The variable of a call, or the first temporary that is free.
fn call_target(alloc: Global, target: &Option<Text>, free: usize) -> Result<Text, AllocError>
    ensures { IfOk result (λ x. x ≡ compiled.target target.now free) }
{
    match target {
        Some(target) => target.copy(alloc),
        None => temporary(alloc, free),
    }
}

/// `x = f(e, ..)`
fn call_code(
    alloc: Global,
    label: usize,
    at: u32,
    target: &Option<Text>,
    function: &Text,
    arguments: &Expressions,
) -> Result<Body, AllocError>
    ensures { IfOk result
        (λ code. code_view code ≡ compiled.simple_code label at (pure.call target.now function.now (map expression_view arguments.now))) }
{
    let operands = operands_code(alloc, &Clike, arguments.as_slice(), label, at, 0)?;
    let mut code = operands.code;
    let target = call_target(alloc, target, operands.next)?;
    let callee = procedure_literal(alloc, function)?;
    put(
        &mut code,
        at,
        Command::Call(target, callee, operands.expressions, None),
    )?;
    Ok(code)
}

/// Frees a block, or passes NULL.
fn pass_or_free(
    alloc: Global,
    label: usize,
    at: u32,
    free: usize,
    pointer: Expr,
) -> Result<Body, AllocError>
    ensures { IfOk result (λ code. code_view code ≡ compiled.free_code label at «free» (expr_view pointer)) }
{
    let end = sum(sum(label, 1)?, 1)?;
    let mut code = Body::new(alloc);
    jump(&mut code, at, equals(alloc, &pointer, null())?, end)?;
    let arguments = argument(alloc, pointer)?;
    act(
        alloc,
        &mut code,
        at,
        temporary(alloc, free)?,
        "free",
        arguments,
    )?;
    Ok(code)
}

/// `free(e)`
fn free_code(alloc: Global, label: usize, at: u32, pointer: &Expression) -> Result<Body, AllocError>
    ensures { IfOk result (λ code. code_view code ≡ compiled.simple_code label at (pure.free (expression_view pointer.now))) }
{
    let operand = operand_code(alloc, &Clike, pointer, label, at, 0)?;
    let behind = sum(label, code_len(&operand.code))?;
    let mut code = operand.code;
    append(
        &mut code,
        pass_or_free(alloc, behind, at, operand.next, operand.expression)?,
    )?;
    Ok(code)
}

/// A cell behind a pointer gets a value.
fn write_code(
    alloc: Global,
    label: usize,
    at: u32,
    free: usize,
    pointer: &Expr,
    offset: &Expr,
    value: Expr,
) -> Result<Body, AllocError>
    ensures { IfOk result
        (λ code. code_view code ≡ compiled.store_code label at «free» (expr_view pointer.now) (expr_view offset.now) (expr_view value)) }
{
    let mut code = cell_code(alloc, label, at, free, pointer, offset)?;
    let mut arguments = argument(alloc, address_expression(alloc, free)?)?;
    arguments.push(value)?;
    let target = temporary(alloc, sum(free, 2)?)?;
    act(alloc, &mut code, at, target, "store", arguments)?;
    Ok(code)
}

/// A value, and the cell that it is stored in.
fn stored_code(
    alloc: Global,
    label: usize,
    at: u32,
    free: usize,
    pointer: &Expr,
    offset: &Expr,
    value: &Expression,
) -> Result<Body, AllocError>
    ensures { IfOk result
        (λ code. code_view code
        ≡ compiled.stored_code label at «free» (expr_view pointer.now) (expr_view offset.now) (expression_view value.now)) }
{
    let operand = operand_code(alloc, &Clike, value, label, at, free)?;
    let behind = sum(label, code_len(&operand.code))?;
    let mut code = operand.code;
    let last = write_code(
        alloc,
        behind,
        at,
        operand.next,
        pointer,
        offset,
        operand.expression,
    )?;
    append(&mut code, last)?;
    Ok(code)
}

/// The offset of a cell behind a pointer, a value, and the cell that it is stored in.
fn indexed_code(
    alloc: Global,
    label: usize,
    at: u32,
    free: usize,
    pointer: &Expr,
    offset: &Expression,
    value: &Expression,
) -> Result<Body, AllocError>
    ensures { IfOk result
        (λ code. code_view code
        ≡ compiled.indexed_code label at «free» (expr_view pointer.now) (expression_view offset.now) (expression_view value.now)) }
{
    let operand = operand_code(alloc, &Clike, offset, label, at, free)?;
    let behind = sum(label, code_len(&operand.code))?;
    let mut code = operand.code;
    let last = stored_code(
        alloc,
        behind,
        at,
        operand.next,
        pointer,
        &operand.expression,
        value,
    )?;
    append(&mut code, last)?;
    Ok(code)
}

/// `a[b] = c`
fn store_code(
    alloc: Global,
    label: usize,
    at: u32,
    pointer: &Expression,
    offset: &Expression,
    value: &Expression,
) -> Result<Body, AllocError>
    ensures { IfOk result
        (λ code. code_view code
        ≡ compiled.simple_code label at
        (pure.store (expression_view pointer.now) (expression_view offset.now) (expression_view value.now))) }
{
    let operand = operand_code(alloc, &Clike, pointer, label, at, 0)?;
    let behind = sum(label, code_len(&operand.code))?;
    let mut code = operand.code;
    let last = indexed_code(
        alloc,
        behind,
        at,
        operand.next,
        &operand.expression,
        offset,
        value,
    )?;
    append(&mut code, last)?;
    Ok(code)
}

/// How many temporaries a statement uses.
pub(crate) fn simple_uses(simple: &SimpleStatement) -> Result<usize, AllocError>
    ensures { IfOk result (λ n. n ≡ compiled.simple_uses (simple_view simple.now)) }
{
    match simple {
        SimpleStatement::Assign(_, value) => operand_uses(&Clike, value),
        SimpleStatement::Input(_) => Ok(1),
        SimpleStatement::Malloc(_, size) => operand_uses(&Clike, size),
        SimpleStatement::Call(Some(_), _, arguments) => {
            operands_uses(&Clike, arguments.as_slice())
        }
        SimpleStatement::Call(None, _, arguments) => {
            sum(operands_uses(&Clike, arguments.as_slice())?, 1)
        }
        SimpleStatement::Free(pointer) => sum(operand_uses(&Clike, pointer)?, 1),
        SimpleStatement::Store(pointer, offset, value) => {
            let first = operand_uses(&Clike, pointer)?;
            let second = sum(first, operand_uses(&Clike, offset)?)?;
            sum(sum(second, operand_uses(&Clike, value)?)?, 3)
        }
    }
}

/// The commands of a statement, at a label.
pub(crate) fn simple_code(
    alloc: Global,
    label: usize,
    at: u32,
    simple: &SimpleStatement,
) -> Result<Body, AllocError>
    ensures { IfOk result (λ code. code_view code ≡ compiled.simple_code label at (simple_view simple.now)) }
{
    match simple {
        SimpleStatement::Assign(target, value) => assign_code(alloc, label, at, target, value),
        SimpleStatement::Input(target) => input_code(alloc, label, at, target),
        SimpleStatement::Malloc(target, size) => malloc_code(alloc, label, at, target, size),
        SimpleStatement::Call(target, function, arguments) => call_code(
            alloc, label, at, target, function, arguments,
        ),
        SimpleStatement::Free(pointer) => free_code(alloc, label, at, pointer),
        SimpleStatement::Store(pointer, offset, value) => {
            store_code(alloc, label, at, pointer, offset, value)
        }
    }
}
