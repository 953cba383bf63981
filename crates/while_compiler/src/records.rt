//! New records.
ghost use Rattle.std.specs.Prelude.{◌≡◌, ◌+◌, [], ◌∷◌, ◌++◌, map, length, IfOk, OnOk, codes};
ghost use Rattle.gil_values.specs.Pure.{text};
ghost use Rattle.gil_syntax.specs.Pure.{literal, name, act, assign, list_of, from_list};
ghost use Rattle.gil_syntax.specs.View.{command_view, exprs_view, expr_view};
ghost use Rattle.source_language.specs.Code.{code_view};
ghost use Rattle.source_language.specs.Names.{temporary as pure_temporary};
ghost use Rattle.source_language.specs.Procedures.{placed};
ghost use Rattle.while_lang.specs.View.{field_view};
ghost use Rattle.while_compiler.specs.Compiled as compiled;

use gil_syntax::{Body, Command, Expr, Exprs};
use gil_values::Text;
use source_language::{append, put, sum, temporary, temporary_variable, text, text_literal};
use std::alloc::{AllocError, Global};
use syntax_copy::copy_of_expression;
use while_lang::{Field, Fields};

/// The names of the fields as literal texts.
fn name_literals(alloc: Global, fields: &[Field]) -> Result<Exprs, AllocError>
    ensures { IfOk result (λ es. exprs_view es ≡ compiled.name_literals (map field_view fields.now)) }
{
    let mut names = Exprs::new(alloc);
    for field in fields {
        names.push(text_literal(alloc, &field.name)?)?;
    }
    Ok(names)
}

/// The values of the fields, in the first temporaries.
fn field_values_code(alloc: Global, at: u32, fields: &[Field]) -> Result<Body, AllocError>
    ensures { IfOk result (λ code. code_view code ≡ compiled.field_values_code at 0 (map field_view fields.now)) }
{
    let mut code = Body::new(alloc);
    for (number, field) in fields.iter().enumerate() {
        let value = copy_of_expression(alloc, &field.value)?;
        put(
            &mut code,
            at,
            Command::Assign(temporary(alloc, number)?, value),
        )?;
    }
    Ok(code)
}

/// The arguments with which a field of the record in a temporary gets the value of another one.
fn fill_arguments(
    alloc: Global,
    made: usize,
    field: &Text,
    number: usize,
) -> Result<Exprs, AllocError>
    ensures { IfOk result
        (λ es. exprs_view es ≡ name (pure_temporary made) ∷ literal (text field.now) ∷ name (pure_temporary number) ∷ []) }
{
    let mut arguments = Exprs::new(alloc);
    arguments.push(temporary_variable(alloc, made)?)?;
    arguments.push(text_literal(alloc, field)?)?;
    arguments.push(temporary_variable(alloc, number)?)?;
    Ok(arguments)
}

/// The fields of the record in a temporary get their values.
fn fill_code(
    alloc: Global,
    at: u32,
    made: usize,
    written: usize,
    fields: &[Field],
) -> Result<Body, AllocError>
    ensures { IfOk result (λ code. code_view code ≡ compiled.fill_code at made written 0 (map field_view fields.now)) }
{
    let mut code = Body::new(alloc);
    for (number, field) in fields.iter().enumerate() {
        let arguments = fill_arguments(alloc, made, &field.name, number)?;
        let action = text(alloc, "mutate")?;
        put(
            &mut code,
            at,
            Command::Act(temporary(alloc, written)?, action, arguments),
        )?;
    }
    Ok(code)
}

/// The record is made, with these names, in a temporary.
fn make_command(alloc: Global, made: usize, fields: &[Field]) -> Result<Command, AllocError>
    ensures { IfOk result
        (λ command. command_view command
        ≡ act (pure_temporary made) (codes "new") (list_of (from_list (compiled.name_literals (map field_view fields.now))) ∷ [])) }
{
    let mut arguments = Exprs::new(alloc);
    arguments.push(Expr::List(name_literals(alloc, fields)?))?;
    let action = text(alloc, "new")?;
    Ok(Command::Act(temporary(alloc, made)?, action, arguments))
}

/// `x = new {p: e, ..}`
pub(crate) fn new_code(
    alloc: Global,
    at: u32,
    target: &Text,
    fields: &Fields,
) -> Result<Body, AllocError>
    ensures { IfOk result (λ code. code_view code ≡ compiled.new_code at target.now (map field_view fields.now)) }
{
    let fields = fields.as_slice();
    let made = fields.len();
    let mut code = field_values_code(alloc, at, fields)?;
    put(&mut code, at, make_command(alloc, made, fields)?)?;
    append(
        &mut code,
        fill_code(alloc, at, made, sum(made, 1)?, fields)?,
    )?;
    let record = temporary_variable(alloc, made)?;
    put(&mut code, at, Command::Assign(target.copy(alloc)?, record))?;
    Ok(code)
}
