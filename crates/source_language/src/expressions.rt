//! Expressions that compiled commands have.
ghost use Rattle.std.specs.Prelude.{◌≡◌, IfOk};
ghost use Rattle.gil_values.specs.Characters.{IsText};
ghost use Rattle.gil_values.specs.Pure.{text, procedure};
ghost use Rattle.gil_syntax.specs.Pure.{literal, name as pure_name};
ghost use Rattle.gil_syntax.specs.View.{expr_view};
ghost use Rattle.source_language.specs.Code as code;
ghost use Rattle.source_language.specs.Procedures as procedures;
ghost use Rattle.source_language.specs.Names as names;

use crate::pieces;
use crate::temporaries::temporary;
use gil_syntax::Expr;
use gil_values::{Kind, Text, Value};
use std::alloc::{AllocError, Global};

/// The literal `Null`.
pub fn null() -> Expr
    ensures { expr_view result ≡ procedures.null }
{
    Expr::Lit(Value::Kind(Kind::Null))
}

/// The literal `true`, at which a jump is always taken.
pub fn truth() -> Expr
    ensures { expr_view result ≡ code.truth }
{
    Expr::Lit(Value::Bool(true))
}

/// A variable.
pub fn variable(alloc: Global, name: &Text) -> Result<Expr, AllocError>
    ensures { IfOk result (λ e. expr_view e ≡ pure_name name.now) }
{
    Ok(Expr::Name(name.copy(alloc)?))
}

/// A temporary.
pub fn temporary_variable(alloc: Global, number: usize) -> Result<Expr, AllocError>
    ensures { IfOk result (λ e. expr_view e ≡ pure_name (names.temporary number)) }
{
    Ok(Expr::Name(temporary(alloc, number)?))
}

/// A literal text with these characters.
pub(crate) fn text_value(alloc: Global, characters: &str) -> Result<Expr, AllocError>
    requires { IsText characters.now }
    ensures { IfOk result (λ e. expr_view e ≡ literal (text characters.now)) }
{
    Ok(Expr::Lit(Value::Str(pieces::text(alloc, characters)?)))
}

/// A literal text.
pub fn text_literal(alloc: Global, characters: &Text) -> Result<Expr, AllocError>
    ensures { IfOk result (λ e. expr_view e ≡ literal (text characters.now)) }
{
    Ok(Expr::Lit(Value::Str(characters.copy(alloc)?)))
}

/// A procedure as a value.
pub fn procedure_literal(alloc: Global, name: &Text) -> Result<Expr, AllocError>
    ensures { IfOk result (λ e. expr_view e ≡ literal (procedure name.now)) }
{
    Ok(Expr::Lit(Value::Proc(name.copy(alloc)?)))
}
