//! Reading whole texts.
ghost use Rattle.std.specs.Prelude.{◌≡◌, ℕ, List, IfOk, IfErr, MatchResult};
ghost use Rattle.gil_text.specs.declared.refused.RefusedKind.TheVariants.{Memory};
ghost use Rattle.pure_terms.specs.Meaning.{AreOver};
ghost use Rattle.pure_terms.specs.View.{atoms_view};
ghost use Rattle.atom_text.specs.Accepted.{PureAtomText, SpellAtoms, text_view};
ghost use Rattle.atom_text.specs.Grammar.{Spell};
ghost use Rattle.atom_text.specs.Refusals.{IsRefused, IsUnfit};
ghost use Rattle.atom_text.specs.Sources.{PureSource, source_view};

use crate::naming::Unfit;
use crate::reading::source_at;
use crate::resolving::{AtomText, resolve};
use crate::sources::AtomSource;
use gil_lexemes::{Cursor, Stop};
use gil_syntax::InvalidKind;
use gil_text::{Refused, RefusedKind, nesting_fault, place_of, tokens_of};
use std::alloc::Global;

/// The declarations and the expressions that the text spells.
fn read_source(alloc: Global, bytes: &[u8]) -> Result<AtomSource, Refused>
    ensures ok { IfOk result (λ source. Spell bytes.now (source_view source)) }
    ensures refused { IfErr result (IsRefused bytes.now) }
{
    let tokens = tokens_of(alloc, bytes)?;
    let cursor = Cursor::new(bytes, tokens.as_slice());
    if let Some(left) = nesting_fault(cursor.copy()) {
        let at = place_of(bytes, tokens.as_slice(), left);
        return Err(Refused {
            at,
            kind: RefusedKind::Nesting,
        });
    }
    match source_at(alloc, tokens.as_slice(), cursor) {
        Ok(source) => Ok(source),
        Err(Stop::Syntax(left)) => {
            let at = place_of(bytes, tokens.as_slice(), left);
            Err(Refused {
                at,
                kind: RefusedKind::Syntax,
            })
        }
        Err(Stop::Memory) => Err(Refused {
            at: bytes.len(),
            kind: RefusedKind::Memory,
        }),
    }
}

/// The refusal of a text of so many bytes whose declarations and expressions make no list of atoms.
fn refusal(unfit: Unfit, length: usize) -> Refused
    ensures { (bytes : List ℕ) (source : PureSource) → Spell bytes source → IsUnfit source unfit → IsRefused bytes result }
{
    match unfit {
        Unfit::Duplicate(at) => Refused {
            at,
            kind: RefusedKind::Invalid(InvalidKind::Duplicate),
        },
        Unfit::UnknownName(at) => Refused {
            at,
            kind: RefusedKind::Invalid(InvalidKind::UnknownName),
        },
        Unfit::TooMany(at) => Refused {
            at,
            kind: RefusedKind::Invalid(InvalidKind::TooMany),
        },
        Unfit::Memory => Refused {
            at: length,
            kind: RefusedKind::Memory,
        },
    }
}

/// The variables and atoms that the bytes spell. A refusal names the first kind that applies: for a name that is declared
/// twice, and for too many, the byte of a name among the declarations; for a name that isn't declared, the first byte of
/// the expression that names it.
pub fn read_atoms(alloc: Global, bytes: &[u8]) -> Result<AtomText, Refused>
    // What is read is what the text spells, and its atoms are over its variables.
    ensures ok { IfOk result (λ text. SpellAtoms bytes.now (text_view text)) }
    ensures over { IfOk result (λ text. AreOver text.vars (atoms_view text.atoms)) }
    // A text that spells variables and atoms is accepted, as those.
    ensures only { (text : PureAtomText) → SpellAtoms bytes.now text
        → MatchResult result (λ read. text_view read ≡ text) (λ refused. refused.kind ≡ Memory) }
    // The refusal is the first that applies.
    ensures refused { IfErr result (IsRefused bytes.now) }
{
    let source = read_source(alloc, bytes)?;
    match resolve(alloc, &source) {
        Ok(text) => Ok(text),
        Err(unfit) => Err(refusal(unfit, bytes.len())),
    }
}
