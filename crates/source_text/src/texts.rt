//! Reading whole texts to their trees.
ghost use Rattle.std.specs.Prelude.{◌≡◌, List, length, IfOk, IfErr};
ghost use Rattle.gil_text.specs.Located.{located_view};
ghost use Rattle.gil_text.specs.declared.refused.RefusedKind.TheVariants.{Memory};
ghost use Rattle.gil_text.specs.Refusals.{IsTokenPlace};
ghost use Rattle.source_text.specs.Located.{located_of};
ghost use Rattle.source_text.specs.Refusals.{IsRefusedTree, kind_of};
ghost use Rattle.source_text.specs.Texts.{PlacedItem, SpellItems};

use crate::language::SourceLanguage;
use crate::naming::foreign_name;
use crate::reading::source_at;
use gil_lexemes::{Cursor, Stop};
use gil_lexer::Tokens;
use gil_text::{Located, Refused, RefusedKind, place_of, tokens_of};
use std::alloc::Global;

/// The refusal of a text of which so many tokens are left, or that memory ran out.
fn stopped(bytes: &[u8], tokens: &Tokens, stop: Stop) -> Refused
    ensures kind { result.kind ≡ kind_of stop }
    ensures place { IsTokenPlace bytes.now tokens.now result.at }
{
    match stop {
        Stop::Syntax(left) => Refused {
            at: place_of(bytes, tokens.as_slice(), left),
            kind: RefusedKind::Syntax,
        },
        Stop::Memory => stopped_for_memory(bytes),
    }
}

/// That memory ran out.
pub fn stopped_for_memory(bytes: &[u8]) -> Refused
    ensures kind { result.kind ≡ Memory }
    ensures place { result.at ≡ length bytes.now }
{
    Refused {
        at: bytes.len(),
        kind: RefusedKind::Memory,
    }
}

/// The items of the source that the text spells. What the trees' program is isn't asked.
pub fn read_located<L: SourceLanguage>(
    alloc: Global,
    bytes: &[u8],
) -> Result<Located<L::Function>, Refused>
    ensures ok { IfOk result (λ located. (items : List (PlacedItem L.Pure)) × SpellItems L.nested L.spells bytes.now items
        × (located_view L.view located ≡ located_of items)) }
    ensures refused { IfErr result (IsRefusedTree L.nested L.spells bytes.now) }
{
    let tokens = tokens_of(alloc, bytes)?;
    let cursor = Cursor::new(bytes, tokens.as_slice());
    if let Some(left) = L::nesting_fault(cursor.copy()) {
        return Err(Refused {
            at: place_of(bytes, tokens.as_slice(), left),
            kind: RefusedKind::Nesting,
        });
    }
    match foreign_name(alloc, cursor.copy()) {
        Ok(None) => match source_at::<L>(alloc, tokens.as_slice(), cursor) {
            Ok(located) => Ok(located),
            Err(stop) => Err(stopped(bytes, &tokens, stop)),
        },
        Ok(Some(left)) => Err(stopped(bytes, &tokens, Stop::Syntax(left))),
        Err(stop) => Err(stopped(bytes, &tokens, stop)),
    }
}
