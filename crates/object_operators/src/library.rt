//! The procedure that reads properties.
ghost use Rattle.std.specs.Prelude.{◌≡◌, codes as characters, [], ◌∷◌, ◌++◌, IfOk, OnOk};
ghost use Rattle.gil_values.specs.Characters.{IsText};
ghost use Rattle.gil_syntax.specs.Pure.{name as pure_name, act};
ghost use Rattle.gil_syntax.specs.View.{expr_view, exprs_view, proc_view};
ghost use Rattle.source_language.specs.Code.{code_view};
ghost use Rattle.source_language.specs.Procedures.{placed};
ghost use Rattle.object_operators.specs.Library as library;
ghost use Rattle.object_operators.specs.Walk as walk;

use crate::pieces::binary;
use gil_syntax::{Body, Command, Expr, Exprs, Proc, Texts};
use gil_values::{BinOp, Kind, Text, Value};
use source_language::{jump, null, put, text, truth};
use std::alloc::{AllocError, Global};

/// The name of the procedure that reads properties.
pub fn get_name(alloc: Global) -> Result<Text, AllocError>
    ensures { IfOk result (λ t. t ≡ walk.get_name) }
{
    text(alloc, "get$")
}

/// A variable with these characters.
fn named(alloc: Global, characters: &str) -> Result<Expr, AllocError>
    requires { IsText characters.now }
    ensures { IfOk result (λ e. expr_view e ≡ pure_name characters.now) }
{
    Ok(Expr::Name(text(alloc, characters)?))
}

/// The object.
fn object_alone(alloc: Global) -> Result<Exprs, AllocError>
    ensures { IfOk result (λ es. exprs_view es ≡ library.object ∷ []) }
{
    let mut arguments = Exprs::new(alloc);
    arguments.push(named(alloc, "o")?)?;
    Ok(arguments)
}

/// The object and the name of the property.
fn object_and_property(alloc: Global) -> Result<Exprs, AllocError>
    ensures { IfOk result (λ es. exprs_view es ≡ library.object ∷ library.property ∷ []) }
{
    let mut arguments = object_alone(alloc)?;
    arguments.push(named(alloc, "p")?)?;
    Ok(arguments)
}

/// An action, whose value a variable gets.
fn put_action(
    alloc: Global,
    code: &mut Body,
    target: &str,
    action: &str,
    arguments: Exprs,
) -> Result<(), AllocError>
    requires target { IsText target.now }
    requires action { IsText action.now }
    ensures { OnOk result (code_view code.new
        ≡ code_view code.old ++ placed 0 (act target.now action.now (exprs_view arguments)) ∷ []) }
{
    let target = text(alloc, target)?;
    let action = text(alloc, action)?;
    put(code, 0, Command::Act(target, action, arguments))
}

/// The commands that ask an object and go on to its prototype.
fn asking_code(alloc: Global) -> Result<Body, AllocError>
    ensures { IfOk result (λ code. code_view code ≡ library.asking) }
{
    let mut code = Body::new(alloc);
    put_action(alloc, &mut code, "b", "has", object_and_property(alloc)?)?;
    jump(&mut code, 0, named(alloc, "b")?, 5)?;
    put_action(alloc, &mut code, "o", "getproto", object_alone(alloc)?)?;
    let is_last = binary(alloc, BinOp::Equal, &named(alloc, "o")?, &null())?;
    jump(&mut code, 0, is_last, 7)?;
    jump(&mut code, 0, truth(), 0)?;
    Ok(code)
}

/// The commands of the procedure.
fn get_code(alloc: Global) -> Result<Body, AllocError>
    ensures { IfOk result (λ code. code_view code ≡ library.get_proc.body) }
{
    let mut code = asking_code(alloc)?;
    put_action(alloc, &mut code, "v", "get", object_and_property(alloc)?)?;
    put(&mut code, 0, Command::Return(named(alloc, "v")?))?;
    put(
        &mut code,
        0,
        Command::Return(Expr::Lit(Value::Kind(Kind::Undef))),
    )?;
    Ok(code)
}

/// The procedure that reads properties.
pub fn get_procedure(alloc: Global) -> Result<Proc, AllocError>
    ensures { IfOk result (λ proc. proc_view proc ≡ library.get_proc) }
{
    let mut params = Texts::new(alloc);
    params.push(text(alloc, "o")?)?;
    params.push(text(alloc, "p")?)?;
    Ok(Proc {
        name: get_name(alloc)?,
        params,
        body: get_code(alloc)?,
    })
}
