//! Commands that are done where a condition leads to them.
ghost use Rattle.std.specs.Prelude.{◌≡◌, ◌+◌, ◌++◌, map, length, IfOk, OnOk};
ghost use Rattle.gil_syntax.specs.View.{expr_view};
ghost use Rattle.source_language.specs.Code.{code_view};
ghost use Rattle.source_statements.specs.Codes as codes;

use gil_syntax::{Body, Command, Expr};
use gil_values::Text;
use sequence::Sequence;
use source_language::{append, caught, code_len, jump, put, sum, truth};
use std::alloc::{AllocError, Global};

/// Jumps to a label, at conditions, after the other commands.
fn jumps_to(
    commands: &mut Body,
    at: u32,
    conditions: Sequence<Expr>,
    label: usize,
) -> Result<(), AllocError>
    ensures { OnOk result (code_view commands.new ≡ code_view commands.old ++ codes.jumps_to at (map expr_view conditions) label) }
{
    for condition in conditions.into_vec() {
        jump(commands, at, condition, label)?;
    }
    Ok(())
}

/// The index behind the front of a condition and its jumps.
pub(crate) fn behind(
    label: usize,
    front: &Body,
    conditions: &Sequence<Expr>,
) -> Result<usize, AllocError>
    ensures { IfOk result (λ n. n ≡ codes.behind label (code_view front.now) (map expr_view conditions.now)) }
{
    sum(sum(label, code_len(front))?, conditions.len())
}

/// Where commands begin that the jumps of a condition lead into, or to the end of.
pub(crate) fn inside_label(
    into: bool,
    label: usize,
    front: &Body,
    conditions: &Sequence<Expr>,
) -> Result<usize, AllocError>
    ensures { IfOk result (λ n. n ≡ codes.inside_label into label (code_view front.now) (map expr_view conditions.now)) }
{
    let start = behind(label, front, conditions)?;
    if into { sum(start, 1) } else { Ok(start) }
}

/// Jumps into commands or to their end after the other commands.
fn exits(
    commands: &mut Body,
    into: bool,
    at: u32,
    conditions: Sequence<Expr>,
    inside: usize,
    end: usize,
) -> Result<(), AllocError>
    ensures { OnOk result (code_view commands.new ≡ code_view commands.old ++ codes.exits_code into at (map expr_view conditions) «inside» end) }
{
    if into {
        jumps_to(commands, at, conditions, inside)?;
        jump(commands, at, truth(), end)
    } else {
        jumps_to(commands, at, conditions, end)
    }
}

/// Commands at a label that are done where the jumps of a condition lead into them, or where they don't lead to their end.
pub(crate) fn guarded_code(
    into: bool,
    label: usize,
    at: u32,
    front: Body,
    conditions: Sequence<Expr>,
    inside: Body,
) -> Result<Body, AllocError>
    ensures { IfOk result
        (λ code. code_view code ≡ codes.guarded_code into label at (code_view front) (map expr_view conditions) (code_view «inside»)) }
{
    let start = inside_label(into, label, &front, &conditions)?;
    let end = sum(start, code_len(&inside))?;
    let mut code = front;
    exits(&mut code, into, at, conditions, start, end)?;
    append(&mut code, inside)?;
    Ok(code)
}

/// Where the far commands of a choice begin, which the jumps of its condition lead to.
pub(crate) fn far_label(
    label: usize,
    front: &Body,
    conditions: &Sequence<Expr>,
    near: &Body,
) -> Result<usize, AllocError>
    ensures { IfOk result
        (λ n. n ≡ codes.far_label label (code_view front.now) (map expr_view conditions.now) (code_view near.now)) }
{
    let start = behind(label, front, conditions)?;
    sum(sum(start, code_len(near))?, 1)
}

/// A choice at a label: the near commands, and those that the jumps of its condition lead to.
pub(crate) fn choice_code(
    label: usize,
    at: u32,
    front: Body,
    conditions: Sequence<Expr>,
    near: Body,
    far: Body,
) -> Result<Body, AllocError>
    ensures { IfOk result
        (λ code. code_view code
        ≡ codes.choice_code label at (code_view front) (map expr_view conditions) (code_view near) (code_view far)) }
{
    let start = far_label(label, &front, &conditions, &near)?;
    let end = sum(start, code_len(&far))?;
    let mut code = front;
    jumps_to(&mut code, at, conditions, start)?;
    append(&mut code, near)?;
    jump(&mut code, at, truth(), end)?;
    append(&mut code, far)?;
    Ok(code)
}

/// A block, a jump over its handler, and the handler, in which a variable gets what is thrown.
pub(crate) fn try_code(
    alloc: Global,
    end: usize,
    at: u32,
    name: &Text,
    body: Body,
    handler: Body,
) -> Result<Body, AllocError>
    ensures { IfOk result
        (λ code. code_view code ≡ codes.try_code end at name.now (code_view body) (code_view handler)) }
{
    let name = name.copy(alloc)?;
    let value = Expr::Name(caught(alloc)?);
    let mut code = body;
    jump(&mut code, at, truth(), end)?;
    put(&mut code, at, Command::Assign(name, value))?;
    append(&mut code, handler)?;
    Ok(code)
}
