//! Reading what texts of other languages hold of GIL.
ghost use Rattle.std.specs.Prelude.{◌≡◌, ◌≤◌, ◌⊎◌, ◌+◌, ◌-◌, ℕ, List, length, drop, IfOk, IfErr};
ghost use Rattle.gil_lexer.specs.Texts.{AreTokensOf};
ghost use Rattle.gil_lexemes.specs.declared.standing.Lexeme.{Lexeme};
ghost use Rattle.gil_lexemes.specs.declared.stops.Stop.TheVariants as stops;
ghost use Rattle.gil_lexemes.specs.Lexemes.{StandForAll};
ghost use Rattle.gil_lexemes.specs.Reading.{Gives};
ghost use Rattle.gil_grammar.specs.Annotations.{PureAnnotation, SpellsAnnotation};
ghost use Rattle.gil_grammar.specs.Nesting.{IsNestedFrom, IsNested};
ghost use Rattle.gil_grammar.specs.Reading.Annotations as read;
ghost use Rattle.gil_text.specs.declared.refused.RefusedKind.TheVariants.{Syntax, Memory};
ghost use Rattle.gil_text.specs.Annotated.{annotation_view};

use crate::assertions::expression_at;
use crate::commands::logic_at;
use crate::programs::{pred_at, spec_at};
use crate::refused::{Refused, RefusedKind};
use crate::texts::place_of;
use crate::vocabulary::word_of;
use gil_grammar::{Extent, Position};
use gil_lexemes::{Cursor, Stop};
use gil_lexer::{Tokens, Word};
use gil_syntax::{Command, Expr, PredDef, Spec};
use std::alloc::Global;

/// What a text of another language may hold of GIL.
#[derive(Debug, Drop)]
pub enum Annotation {
    Spec(Spec),
    Pred(PredDef),
    /// A command of which assertions are made, without its `;`.
    Logic(Command),
    /// An expression, without logical names.
    Expr(Expr),
}

/// The specification at the front.
fn specification_at<'a>(alloc: Global, cursor: Cursor<'a>) -> Result<(Annotation, Cursor<'a>), Stop>
    ensures { Gives (λ found. (annotation_view found.0, found.1)) result (read.specification_at cursor.entry) }
{
    let (specification, cursor) = spec_at(alloc, Extent::Longest, cursor.behind())?;
    Ok((Annotation::Spec(specification), cursor))
}

/// The predicate at the front.
fn predicate_at<'a>(alloc: Global, cursor: Cursor<'a>) -> Result<(Annotation, Cursor<'a>), Stop>
    ensures { Gives (λ found. (annotation_view found.0, found.1)) result (read.predicate_at cursor.entry) }
{
    let (predicate, cursor) = pred_at(alloc, Extent::Longest, cursor.behind())?;
    Ok((Annotation::Pred(predicate), cursor))
}

/// The logic command at the front, which begins with this reserved word.
fn logic_annotation<'a>(
    alloc: Global,
    word: Word,
    cursor: Cursor<'a>,
) -> Result<(Annotation, Cursor<'a>), Stop>
    ensures { Gives (λ found. (annotation_view found.0, found.1)) result (read.logic_at word cursor.entry) }
{
    let (command, cursor) = logic_at(alloc, word, cursor)?;
    Ok((Annotation::Logic(command), cursor))
}

/// The expression at the front.
fn value_at<'a>(alloc: Global, cursor: Cursor<'a>) -> Result<(Annotation, Cursor<'a>), Stop>
    ensures { Gives (λ found. (annotation_view found.0, found.1)) result (read.value_at cursor.entry) }
{
    let (expression, cursor) = expression_at(alloc, Position::Command, cursor)?;
    Ok((Annotation::Expr(expression), cursor))
}

/// The longest that begins at the front.
#[tactic(auto, unfolding(gil_grammar::specs::Reading::Annotations::annotation_at))]
fn longest_at<'a>(alloc: Global, cursor: Cursor<'a>) -> Result<(Annotation, Cursor<'a>), Stop>
    ensures { Gives (λ found. (annotation_view found.0, found.1)) result (read.annotation_at cursor.entry) }
{
    match word_of(cursor.first()) {
        Some(Word::Spec) => specification_at(alloc, cursor),
        Some(Word::Pred) => predicate_at(alloc, cursor),
        Some(Word::Fold) => logic_annotation(alloc, Word::Fold, cursor),
        Some(Word::Unfold) => logic_annotation(alloc, Word::Unfold, cursor),
        Some(Word::Assert) => logic_annotation(alloc, Word::Assert, cursor),
        Some(Word::Invariant) => logic_annotation(alloc, Word::Invariant, cursor),
        _ => value_at(alloc, cursor),
    }
}

/// The longest specification, predicate, logic command or expression that begins at the cursor, and the cursor behind it.
/// That it is the longest, and that none begins there, is said of texts in which no more brackets are open than may be.
pub fn annotation_at<'a>(
    alloc: Global,
    cursor: Cursor<'a>,
) -> Result<(Annotation, Cursor<'a>), Stop>
    ensures spelled { IfOk result (λ found. SpellsAnnotation (annotation_view found.0) cursor.entry found.1) }
    ensures shorter { IfOk result (λ found. length found.1 ≤ length cursor.entry) }
    ensures behind { IfOk result (λ found. found.1 ≡ drop (length cursor.entry - length found.1) cursor.entry) }
    ensures longest { IfOk result (λ found. (open_before : ℕ) (other : PureAnnotation) (left : List Lexeme)
        → IsNestedFrom open_before cursor.entry
        → SpellsAnnotation other cursor.entry left → length found.1 ≤ length left) }
    ensures none { IfErr result (λ stop. (open_before : ℕ) (a : PureAnnotation) (left : List Lexeme) → IsNestedFrom open_before cursor.entry
        → SpellsAnnotation a cursor.entry left → stop ≡ stops.Memory) }
{
    longest_at(alloc, cursor)
}

/// The longest specification, predicate, logic command or expression that begins at the token with this number, and the
/// number of the token behind it. That it is the longest, and that none begins there, is said of texts in which no more
/// brackets are open than may be.
pub fn read_assertions(
    alloc: Global,
    bytes: &[u8],
    tokens: &Tokens,
    from: usize,
) -> Result<(Annotation, usize), Refused>
    requires tokens { AreTokensOf tokens.now bytes.now }
    requires within { from ≤ length tokens.now }
    ensures spelled { IfOk result (λ found. (lexemes : List Lexeme) → StandForAll bytes.now tokens.now lexemes
        → SpellsAnnotation (annotation_view found.0) (drop from lexemes) (drop found.1 lexemes)) }
    ensures behind { IfOk result (λ found. (from ≤ found.1) × (found.1 ≤ length tokens.now)) }
    ensures longest { IfOk result (λ found. (lexemes : List Lexeme) (other : PureAnnotation) (left : List Lexeme)
        → StandForAll bytes.now tokens.now lexemes
        → IsNested lexemes → SpellsAnnotation other (drop from lexemes) left → length tokens.now ≤ found.1 + length left) }
    ensures none { IfErr result (λ refused. (lexemes : List Lexeme) (a : PureAnnotation) (left : List Lexeme)
        → StandForAll bytes.now tokens.now lexemes
        → IsNested lexemes → SpellsAnnotation a (drop from lexemes) left → refused.kind ≡ Memory) }
    ensures kinds { IfErr result (λ refused. (refused.kind ≡ Syntax) ⊎ (refused.kind ≡ Memory)) }
{
    let cursor = cursor_at(bytes, tokens, from);
    match annotation_at(alloc, cursor) {
        Ok((annotation, rest)) => Ok((annotation, tokens.len() - rest.left())),
        Err(Stop::Syntax(left)) => {
            let at = place_of(bytes, tokens.as_slice(), left);
            Err(Refused {
                at,
                kind: RefusedKind::Syntax,
            })
        }
        Err(Stop::Memory) => Err(Refused {
            at: bytes.len(),
            kind: RefusedKind::Memory,
        }),
    }
}

/// A cursor at the token with this number.
fn cursor_at<'a>(bytes: &'a [u8], tokens: &'a Tokens, from: usize) -> Cursor<'a>
    requires tokens { AreTokensOf tokens.now bytes.now }
    requires within { from ≤ length tokens.now }
    ensures behind { (lexemes : List Lexeme) → StandForAll bytes.now tokens.now lexemes → result ≡ drop from lexemes }
    ensures left { from + length result ≡ length tokens.now }
{
    Cursor::new(bytes, &tokens.as_slice()[from..])
}
