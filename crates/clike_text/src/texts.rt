//! Reading whole texts.
ghost use Rattle.std.specs.Prelude.{◌≡◌, List, IfOk, IfErr, MatchResult};
ghost use Rattle.gil_text.specs.declared.refused.RefusedKind.TheVariants.{Memory};
ghost use Rattle.clike_lang.specs.Pure.{PureSource};
ghost use Rattle.clike_grammar.specs.Texts.{SpellSource};
ghost use Rattle.clike_compiler.specs.Source.{source_view};
ghost use Rattle.clike_compiler.specs.Valid.{IsValidSource};
ghost use Rattle.clike_text.specs.Refusals.{IsRefused};

use crate::functions::Clike;
use clike_compiler::Source;
use gil_syntax::InvalidKind;
use gil_text::{Located, Refused, RefusedKind, place_at};
use source_language::SourceParts;
use source_text::{read_located, stopped_for_memory};
use std::alloc::Global;

/// The source that the bytes spell. A refusal names the first kind that applies, and for `Invalid` the byte at which the item begins.
/// Places have 32 bits: a text of 4 GiB or more may be answered as want of memory.
pub fn read(alloc: Global, bytes: &[u8]) -> Result<Source, Refused>
    // What is read is the source of the text.
    ensures ok { IfOk result (λ source. SpellSource bytes.now (source_view source)) }
    // A text of a source without a fault is accepted, as that source.
    ensures only { (source : PureSource) → SpellSource bytes.now source → IsValidSource source
        → MatchResult result (λ found. source_view found ≡ source) (λ refused. refused.kind ≡ Memory) }
    // The refusal is the first that applies.
    ensures refused { IfErr result (IsRefused bytes.now) }
{
    let Located {
        functions,
        specs,
        preds,
        functions_at,
        specs_at,
        preds_at,
    } = read_located::<Clike>(alloc, bytes)?;
    let parts = SourceParts {
        functions,
        specs,
        preds,
    };
    let invalid = match Source::new(alloc, parts) {
        Ok(source) => return Ok(source),
        Err(invalid) => invalid,
    };
    match invalid.kind {
        InvalidKind::Memory => Err(stopped_for_memory(bytes)),
        _ => match place_at(&functions_at, &specs_at, &preds_at, invalid.item) {
            Some(at) => Err(Refused {
                at,
                kind: RefusedKind::Invalid(invalid.kind),
            }),
            None => unreachable!(),
        },
    }
}
