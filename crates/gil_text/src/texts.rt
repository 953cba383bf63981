//! Reading whole texts.
ghost use Rattle.std.specs.Prelude.{◌≡◌, List, All, IfOk, IfErr, MatchResult};
ghost use Rattle.gil_lexer.specs.Texts.{AreTokensOf, IsSlice};
ghost use Rattle.gil_syntax.specs.Pure.{PureParts};
ghost use Rattle.gil_syntax.specs.Valid.{IsValid};
ghost use Rattle.gil_syntax.specs.View.{proc_view};
ghost use Rattle.gil_syntax.specs.Program.{prog_view};
ghost use Rattle.gil_grammar.specs.Texts.{PlacedItem, Spell, SpellProgram};
ghost use Rattle.gil_text.specs.declared.refused.RefusedKind.TheVariants.{Memory};
ghost use Rattle.gil_text.specs.Located.{located_of, located_view};
ghost use Rattle.gil_text.specs.Refusals.{HasNoTokens, IsRefused, IsTokenPlace, lexical, place_of};

use crate::located::Located;
use crate::nesting::nesting_fault;
use crate::places::place_at;
use crate::reading::program_at;
use crate::refused::{Refused, RefusedKind};
use gil_lexemes::{Cursor, Stop};
use gil_lexer::{LexKind, Token, Tokens, lex};
use gil_syntax::{InvalidKind, Parts, Proc, Prog};
use std::alloc::Global;

/// The kind of refusal of a text with this fault.
fn lexical(kind: LexKind) -> RefusedKind
    ensures { result ≡ lexical kind }
{
    match kind {
        LexKind::Memory => RefusedKind::Memory,
        _ => RefusedKind::Lex,
    }
}

/// The tokens of a text.
pub fn tokens_of(alloc: Global, bytes: &[u8]) -> Result<Tokens, Refused>
    ensures tokens { IfOk result (λ tokens. AreTokensOf tokens bytes.now) }
    ensures slices { IfOk result (λ tokens. All (IsSlice bytes.now) tokens) }
    ensures lexical { IfErr result (λ refused. HasNoTokens bytes.now refused.at refused.kind) }
    ensures refused { IfErr result (IsRefused bytes.now) }
{
    match lex(alloc, bytes) {
        Ok(tokens) => Ok(tokens),
        Err(fault) => Err(Refused {
            at: fault.at,
            kind: lexical(fault.kind),
        }),
    }
}

/// The byte at which the last tokens of the text begin, so many of them, or its length where there are none.
pub fn place_of(bytes: &[u8], tokens: &[Token], left: usize) -> usize
    ensures place { result ≡ place_of bytes.now tokens.now left }
    ensures token { IsTokenPlace bytes.now tokens.now result }
{
    match tokens.get(tokens.len().saturating_sub(left)) {
        Some(token) => token.from,
        None => bytes.len(),
    }
}

/// The items of the program that the text spells.
pub(crate) fn read_located(alloc: Global, bytes: &[u8]) -> Result<Located<Proc>, Refused>
    ensures ok { IfOk result (λ located. (items : List PlacedItem) × Spell bytes.now items × (located_view proc_view located ≡ located_of items)) }
    ensures refused { IfErr result (IsRefused bytes.now) }
{
    let tokens = tokens_of(alloc, bytes)?;
    let cursor = Cursor::new(bytes, tokens.as_slice());
    if let Some(left) = nesting_fault(cursor.copy()) {
        let at = place_of(bytes, tokens.as_slice(), left);
        return Err(Refused {
            at,
            kind: RefusedKind::Nesting,
        });
    }
    match program_at(alloc, tokens.as_slice(), cursor) {
        Ok(located) => Ok(located),
        Err(Stop::Syntax(left)) => {
            let at = place_of(bytes, tokens.as_slice(), left);
            Err(Refused {
                at,
                kind: RefusedKind::Syntax,
            })
        }
        Err(Stop::Memory) => Err(Refused {
            at: bytes.len(),
            kind: RefusedKind::Memory,
        }),
    }
}

/// The program that the bytes spell. A refusal names the first kind that applies, and for `Invalid` the byte at which the
/// item begins.
pub fn read_prog(alloc: Global, bytes: &[u8]) -> Result<Prog, Refused>
    // What is read is the program of the text, and is valid.
    ensures ok { IfOk result (λ prog. SpellProgram bytes.now (prog_view prog)) }
    ensures valid { IfOk result (λ prog. IsValid (prog_view prog)) }
    // A text of a valid program is accepted, as that program.
    ensures only { (program : PureParts) → SpellProgram bytes.now program → IsValid program
        → MatchResult result (λ prog. prog_view prog ≡ program) (λ refused. refused.kind ≡ Memory) }
    // The refusal is the first that applies.
    ensures refused { IfErr result (IsRefused bytes.now) }
{
    let Located {
        functions: procs,
        specs,
        preds,
        functions_at: procs_at,
        specs_at,
        preds_at,
    } = read_located(alloc, bytes)?;
    let parts = Parts {
        procs,
        specs,
        preds,
    };
    let invalid = match Prog::new(alloc, parts) {
        Ok(prog) => return Ok(prog),
        Err(invalid) => invalid,
    };
    if invalid.kind == InvalidKind::Memory {
        return Err(Refused {
            at: bytes.len(),
            kind: RefusedKind::Memory,
        });
    }
    match place_at(&procs_at, &specs_at, &preds_at, invalid.item) {
        Some(at) => Err(Refused {
            at,
            kind: RefusedKind::Invalid(invalid.kind),
        }),
        None => unreachable!(),
    }
}
