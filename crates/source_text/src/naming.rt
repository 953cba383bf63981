//! Names that a source text can't have.
ghost use Rattle.std.specs.Prelude.{◌≡◌, nat_eq, IsTrue, IfOk, IfErr, IfNone, OnSome};
ghost use Rattle.std.specs.List.{list_any};
ghost use Rattle.gil_lexemes.specs.declared.stops.Stop.TheVariants.{Memory};
ghost use Rattle.source_language.specs.Names as names;
ghost use Rattle.source_text.specs.Vocabulary.{are_source_lexemes};
ghost use Rattle.source_text.specs.Naming as spec;

use gil_lexemes::{Cursor, Stop};
use gil_lexer::Form;
use gil_values::Text;
use std::alloc::Global;

fn is_dollar(byte: u8) -> bool
    ensures { result ≡ nat_eq names.dollar byte }
{
    b'$' == byte
}

fn has_dollar(name: &Text) -> bool
    ensures { result ≡ list_any (nat_eq names.dollar) name.now }
{
    name.as_str().as_bytes().iter().any(|byte| is_dollar(*byte))
}

/// Whether a source program can have the name.
fn is_source_name(name: &Text) -> bool
    ensures { result ≡ names.is_source_name name.now }
{
    !has_dollar(name)
}

/// Whether the next token is a name, a logical name or a procedure literal with a `$`.
fn is_foreign(alloc: Global, cursor: Cursor<'_>) -> Result<bool, Stop>
    ensures ok { IfOk result (λ b. b ≡ spec.is_foreign cursor.entry) }
    ensures err { IfErr result (λ stop. stop ≡ Memory) }
{
    match cursor.first() {
        Some(Form::Name) => {
            let (name, _) = cursor.name(alloc)?;
            Ok(!is_source_name(&name))
        }
        Some(Form::Logical) => {
            let (name, _) = cursor.logical_name(alloc)?;
            Ok(!is_source_name(&name))
        }
        Some(Form::Procedure) => {
            let (name, _) = cursor.procedure(alloc)?;
            Ok(!is_source_name(&name))
        }
        _ => Ok(false),
    }
}

/// Where a name has a `$`, how many tokens are left from the first such name on.
pub(crate) fn foreign_name(alloc: Global, cursor: Cursor<'_>) -> Result<Option<usize>, Stop>
    ensures none { IfOk result (λ found. IfNone found (IsTrue (are_source_lexemes cursor.entry))) }
    ensures some { IfOk result (λ found. OnSome found (¬ IsTrue (are_source_lexemes cursor.entry))) }
    ensures err { IfErr result (λ stop. stop ≡ Memory) }
{
    let mut rest = cursor;
    let most = rest.left();
    for _ in 0..most {
        if is_foreign(alloc, rest.copy())? {
            return Ok(Some(rest.left()));
        }
        rest = rest.behind();
    }
    Ok(None)
}
