//! Reading whole texts to their trees.
ghost use Rattle.std.specs.Prelude.{◌≡◌, List, [], ◌∷◌, ◌++◌, slice_get, IfOk, IfErr, MatchResult};
ghost use Rattle.gil_text.specs.Located.{located_view};
ghost use Rattle.gil_text.specs.declared.refused.RefusedKind.TheVariants.{Memory};
ghost use Rattle.operator_text.specs.Few.{IsNestedWithFew};
ghost use Rattle.source_text.specs.Located.{located_of};
ghost use Rattle.source_text.specs.Refusals.{IsRefusedTree};
ghost use Rattle.object_lang.specs.Pure.{PureSource};
ghost use Rattle.object_lang.specs.View.{function_view};
ghost use Rattle.object_grammar.specs.Functions.{SpellsFunction};
ghost use Rattle.object_grammar.specs.Texts.{PlacedItem, SpellItems, SpellSource};
ghost use Rattle.object_compiler.specs.Source.{source_view};
ghost use Rattle.object_compiler.specs.Valid.{IsValidSource};
ghost use Rattle.object_text.specs.Refusals.{IsRefused};
ghost use Rattle.source_text.proofs.RefusalLemmas.{located_source};

use crate::functions::Objects;
use gil_syntax::InvalidKind;
use gil_text::{Located, Places, Refused, RefusedKind, place_at};
use object_compiler::Source;
use object_lang::Function;
use source_language::SourceParts;
use source_text::{read_located, stopped_for_memory};
use std::alloc::{AllocError, Global};

/// The functions, specifications and predicates that the bytes spell, each with the byte at which it begins. What the program of the trees
/// is isn't asked. A refusal names the first kind that applies. Places have 32 bits: a text of 4 GiB or more may be answered as want of memory.
pub fn read_trees(alloc: Global, bytes: &[u8]) -> Result<Located<Function>, Refused>
    // What is read are the items of the text.
    ensures ok { IfOk result (λ located. (items : List PlacedItem) × SpellItems bytes.now items × (located_view function_view located ≡ located_of items)) }
    // A text of a source is accepted, as that source.
    ensures only { (source : PureSource) → SpellSource bytes.now source
        → MatchResult result (λ located. located_source (located_view function_view located) ≡ source) (λ refused. refused.kind ≡ Memory) }
    // The refusal is the first that applies.
    ensures refused { IfErr result (IsRefusedTree IsNestedWithFew SpellsFunction bytes.now) }
{
    read_located::<Objects>(alloc, bytes)
}

/// The byte of an item of a program: of a function, of the procedure that reads properties, which stands at the end of the text, of a
/// specification or of a predicate.
#[tactic(auto, using(crate::proofs::Reading::behind_functions))]
fn item_at(
    functions: Places,
    end: usize,
    specs: &Places,
    preds: &Places,
    item: usize,
) -> Result<Option<usize>, AllocError>
    ensures { IfOk result (λ at. slice_get (functions ++ ((end ∷ []) ++ specs.now) ++ preds.now) item ≡ at) }
{
    let mut places = functions;
    places.push(end)?;
    Ok(place_at(&places, specs, preds, item))
}

/// The source that the bytes spell. A refusal names the first kind that applies, and for `Invalid` the byte at which the item begins.
/// Places have 32 bits: a text of 4 GiB or more may be answered as want of memory.
pub fn read(alloc: Global, bytes: &[u8]) -> Result<Source, Refused>
    // What is read is the source of the text.
    ensures ok { IfOk result (λ source. SpellSource bytes.now (source_view source)) }
    // A text of a source without a fault is accepted, as that source.
    ensures only { (source : PureSource) → SpellSource bytes.now source → IsValidSource source
        → MatchResult result (λ found. source_view found ≡ source) (λ refused. refused.kind ≡ Memory) }
    // The refusal is the first that applies.
    ensures refused { IfErr result (IsRefused bytes.now) }
{
    let Located {
        functions,
        specs,
        preds,
        functions_at,
        specs_at,
        preds_at,
    } = read_trees(alloc, bytes)?;
    let parts = SourceParts {
        functions,
        specs,
        preds,
    };
    let invalid = match Source::new(alloc, parts) {
        Ok(source) => return Ok(source),
        Err(invalid) => invalid,
    };
    match invalid.kind {
        InvalidKind::Memory => Err(stopped_for_memory(bytes)),
        _ => match item_at(
            functions_at,
            bytes.len(),
            &specs_at,
            &preds_at,
            invalid.item,
        ) {
            Ok(Some(at)) => Err(Refused {
                at,
                kind: RefusedKind::Invalid(invalid.kind),
            }),
            Ok(None) => unreachable!(),
            Err(_) => Err(stopped_for_memory(bytes)),
        },
    }
}
