//! Expressions without operands that begin as no name does.
ghost use Rattle.std.specs.Prelude.{◌≡◌, [], ◌∷◌, ◌++◌, codes, IfOk};
ghost use Rattle.gil_values.specs.Characters.{IsText};
ghost use Rattle.gil_values.specs.View.{value_view};
ghost use Rattle.gil_syntax.specs.View.{expr_view};
ghost use Rattle.gil_syntax.specs.WellMade as well_made;
ghost use Rattle.gil_lexer.specs.Bytes.{hash};
ghost use Rattle.value_text.specs.Reading.{Gives};
ghost use Rattle.expression_text.specs.Reading as spec;

use gil_syntax::Expr;
use gil_values::{Text, Value};
use std::alloc::{AllocError, Global};
use value_text::{ReadFault, begins_with, expect, name_at, value_at};

/// The logical variable or the literal at the front.
pub(crate) fn leaf_at(alloc: Global, bytes: &[u8]) -> Result<(Expr, &[u8]), ReadFault>
    ensures { Gives (λ x. (expr_view x.0, x.1.now)) result (spec.leaf_at bytes.now) }
{
    if begins_with(b'#', bytes) {
        return logical_at(alloc, bytes);
    }
    literal_at(alloc, bytes)
}

/// The logical variable at the front.
fn logical_at(alloc: Global, bytes: &[u8]) -> Result<(Expr, &[u8]), ReadFault>
    ensures { Gives (λ x. (expr_view x.0, x.1.now)) result (spec.logical_at bytes.now) }
{
    let (name, rest) = marked_name_at(alloc, bytes)?;
    Ok((Expr::Logical(name), rest))
}

/// The name behind `#` at the front, with it.
#[tactic(auto, unfolding(crate::specs::Reading::marked_name_at))]
pub fn marked_name_at(alloc: Global, bytes: &[u8]) -> Result<(Text, &[u8]), ReadFault>
    ensures { Gives (λ x. (x.0, x.1.now)) result (spec.marked_name_at bytes.now) }
{
    let rest = expect("#", bytes)?;
    let (name, rest) = name_at(alloc, rest)?;
    let marked = marked(alloc, &name)?;
    Ok((marked, rest))
}

/// A name behind `#`.
fn marked(alloc: Global, name: &Text) -> Result<Text, AllocError>
    ensures { IfOk result (λ text. text ≡ hash ∷ name.now) }
{
    let mut characters = String::from_str(alloc, "#")?;
    characters.push_str(name.as_str())?;
    text_of(alloc, characters.as_str())
}

/// The text with these characters.
fn text_of(alloc: Global, characters: &str) -> Result<Text, AllocError>
    requires { IsText characters.now }
    ensures { IfOk result (λ text. text ≡ characters.now) }
{
    match Text::from_str(alloc, characters)? {
        Some(text) => Ok(text),
        None => unreachable!(),
    }
}

/// The literal at the front.
#[tactic(auto, unfolding(crate::specs::Reading::literal_at))]
fn literal_at(alloc: Global, bytes: &[u8]) -> Result<(Expr, &[u8]), ReadFault>
    ensures { Gives (λ x. (expr_view x.0, x.1.now)) result (spec.literal_at bytes.now) }
{
    let (value, rest) = value_at(alloc, bytes)?;
    if is_spellable(&value) {
        Ok((Expr::Lit(value), rest))
    } else {
        Err(ReadFault::Form)
    }
}

/// Whether a literal may be the value.
fn is_spellable(value: &Value) -> bool
    ensures { result ≡ well_made.is_spellable (value_view value.now) }
{
    match value {
        Value::Sym(_) | Value::List(_) => false,
        Value::Int(_) | Value::Bool(_) | Value::Str(_) | Value::Kind(_) | Value::Proc(_) => true,
    }
}
