//! The line that says why a text isn't accepted.
ghost use Rattle.std.specs.Prelude.{◌≡◌, ◌≢◌, Ok, IfOk, IfErr, OnOk, string_bytes};
ghost use Rattle.gil_text.specs.declared.refused.RefusedKind.TheVariants.{Memory};
ghost use Rattle.gillian_core.specs.Refusals.{fault_word, kind_word, refusal_line};

use gil_syntax::InvalidKind;
use gil_text::{Refused, RefusedKind};
use gil_values::push_number;
use std::alloc::{AllocError, Global};

/// Want of memory, as a reader says it.
pub fn or_memory<T>(found: Result<T, AllocError>) -> Result<T, Refused>
    ensures ok { IfOk result (λ x. found ≡ Ok x) }
    ensures err { IfErr result (λ refused. refused.kind ≡ Memory) }
{
    match found {
        Ok(x) => Ok(x),
        Err(_) => Err(Refused {
            at: 0,
            kind: RefusedKind::Memory,
        }),
    }
}

/// The line of a refusal. Want of memory is no refusal.
pub fn refusal_text(alloc: Global, refused: Refused) -> Result<String, AllocError>
    ensures text { IfOk result (λ text. string_bytes text ≡ refusal_line refused) }
    ensures refusal { OnOk result (refused.kind ≢ Memory) }
{
    let word = word_of(refused.kind)?;
    let mut out = String::new(alloc);
    out.push_str("refused ")?;
    out.push_str(word)?;
    out.push_str(" at ")?;
    push_number(&mut out, refused.at as u64)?;
    out.push_str("\n")?;
    Ok(out)
}

/// The word of a kind.
fn word_of(kind: RefusedKind) -> Result<&'static str, AllocError>
    ensures word { IfOk result (λ word. word.now ≡ kind_word kind) }
    ensures refusal { OnOk result (kind ≢ Memory) }
{
    match kind {
        RefusedKind::Lex => Ok("lex"),
        RefusedKind::Nesting => Ok("nesting"),
        RefusedKind::Syntax => Ok("syntax"),
        RefusedKind::Invalid(fault) => Ok(word_of_fault(fault)),
        RefusedKind::Limit => Ok("limit"),
        RefusedKind::Entry => Ok("entry"),
        RefusedKind::Modes => Ok("modes"),
        RefusedKind::Memory => Err(AllocError),
    }
}

/// The word of a fault of a program.
fn word_of_fault(fault: InvalidKind) -> &'static str
    ensures { result.now ≡ fault_word fault }
{
    match fault {
        InvalidKind::Duplicate => "duplicate",
        InvalidKind::BadLabel => "label",
        InvalidKind::NoEnd => "noend",
        InvalidKind::UnknownName => "unknown-name",
        InvalidKind::Arity => "arity",
        InvalidKind::TooMany => "too-many",
        InvalidKind::Memory => "",
    }
}
