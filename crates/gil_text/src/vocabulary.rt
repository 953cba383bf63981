//! Reserved words, signs and names: what each stands for where it stands.
ghost use Rattle.std.specs.Prelude.{◌≡◌, option_map, IfSome, IfOk};
ghost use Rattle.gil_values.specs.Characters.{IsText};
ghost use Rattle.gil_values.specs.View.{value_view};
ghost use Rattle.gil_lexemes.specs.Reading.{Gives};
ghost use Rattle.gil_grammar.specs.Reading.Vocabulary as read;
ghost use Rattle.gil_grammar.specs.Vocabulary as spec;

use gil_grammar::Position;
use gil_lexemes::{Cursor, Stop};
use gil_lexer::{Form, Sign, Word};
use gil_syntax::SpecSort;
use gil_values::{BinOp, Kind, Text, UnOp, Value};
use std::alloc::{AllocError, Global};

/// The value for which a reserved word stands.
pub(crate) fn word_value(word: Word) -> Option<Value>
    ensures { option_map value_view result ≡ read.word_value word }
{
    match word {
        Word::True => Some(Value::Bool(true)),
        Word::False => Some(Value::Bool(false)),
        Word::IntKind => Some(Value::Kind(Kind::Int)),
        Word::BoolKind => Some(Value::Kind(Kind::Bool)),
        Word::StrKind => Some(Value::Kind(Kind::Str)),
        Word::SymKind => Some(Value::Kind(Kind::Sym)),
        Word::KindKind => Some(Value::Kind(Kind::Kind)),
        Word::ProcKind => Some(Value::Kind(Kind::Proc)),
        Word::ListKind => Some(Value::Kind(Kind::List)),
        Word::UndefKind => Some(Value::Kind(Kind::Undef)),
        Word::NullKind => Some(Value::Kind(Kind::Null)),
        _ => None,
    }
}

/// The operator of one operand that a reserved word is.
pub(crate) fn unary_of_word(word: Word) -> Option<UnOp>
    ensures { result ≡ read.unary_of_word word }
{
    match word {
        Word::Not => Some(UnOp::Not),
        Word::Neg => Some(UnOp::Neg),
        Word::Len => Some(UnOp::Len),
        Word::Kind => Some(UnOp::Kind),
        _ => None,
    }
}

/// The operator that a token of this form is between its operands.
pub(crate) fn operator_of(form: Option<Form>) -> Option<BinOp>
    ensures { result ≡ read.operator_of form }
{
    match form {
        Some(Form::Sign(sign)) => operator_of_sign(sign),
        Some(Form::Word(word)) => operator_of_word(word),
        _ => None,
    }
}

fn operator_of_sign(sign: Sign) -> Option<BinOp>
    ensures { result ≡ read.operator_of_sign sign }
{
    match sign {
        Sign::Plus => Some(BinOp::Add),
        Sign::Minus => Some(BinOp::Subtract),
        Sign::Star => Some(BinOp::Multiply),
        Sign::Slash => Some(BinOp::Divide),
        Sign::Percent => Some(BinOp::Remainder),
        Sign::Equal => Some(BinOp::Equal),
        Sign::Less => Some(BinOp::Less),
        Sign::LessEqual => Some(BinOp::LessOrEqual),
        Sign::PlusPlus => Some(BinOp::Append),
        _ => None,
    }
}

fn operator_of_word(word: Word) -> Option<BinOp>
    ensures { result ≡ read.operator_of_word word }
{
    match word {
        Word::And => Some(BinOp::And),
        Word::Or => Some(BinOp::Or),
        _ => None,
    }
}

/// The sort that a reserved word names.
pub(crate) fn sort_of_word(word: Word) -> Option<SpecSort>
    ensures { result ≡ read.sort_of_word word }
{
    match word {
        Word::Int => Some(SpecSort::Int),
        Word::Bool => Some(SpecSort::Bool),
        Word::Str => Some(SpecSort::Str),
        Word::Sym => Some(SpecSort::Sym),
        Word::List => Some(SpecSort::List),
        Word::Any => Some(SpecSort::Any),
        _ => None,
    }
}

/// The kind of inputs that a reserved word names.
pub fn input_of_word(word: Word) -> Option<Kind>
    ensures { result ≡ read.input_of_word word }
{
    match word {
        Word::Int => Some(Kind::Int),
        Word::Bool => Some(Kind::Bool),
        Word::Str => Some(Kind::Str),
        _ => None,
    }
}

/// The reserved word that a token of this form is.
pub fn word_of(form: Option<Form>) -> Option<Word>
    ensures { result ≡ read.word_of form }
{
    match form {
        Some(Form::Word(word)) => Some(word),
        _ => None,
    }
}

/// The name for which a reserved word serves at a position.
fn word_name(position: Position, word: Word) -> Option<&'static str>
    ensures name { option_map (λ name. name.now) result ≡ spec.word_name position word }
    ensures text { IfSome result (λ name. IsText name.now) }
{
    match (position, word) {
        (Position::Assertion, Word::Ret) => Some("ret"),
        (Position::Predicate, Word::List) => Some("list"),
        (Position::Predicate, Word::Proto) => Some("proto"),
        (Position::Action, Word::New) => Some("new"),
        (Position::Action, Word::Has) => Some("has"),
        (Position::Action, Word::Free) => Some("free"),
        (Position::Action, Word::Dispose) => Some("dispose"),
        (Position::Action, Word::Delete) => Some("delete"),
        (Position::Action, Word::Setproto) => Some("setproto"),
        _ => None,
    }
}

/// The text of a name for which a reserved word serves.
fn text_of_name(alloc: Global, name: &str) -> Result<Text, AllocError>
    requires { IsText name.now }
    ensures { IfOk result (λ text. text ≡ name.now) }
{
    match Text::from_str(alloc, name)? {
        Some(text) => Ok(text),
        None => unreachable!(),
    }
}

/// The name at a position, and the cursor behind it.
pub(crate) fn named_at<'a>(
    alloc: Global,
    position: Position,
    cursor: Cursor<'a>,
) -> Result<(Text, Cursor<'a>), Stop>
    ensures { Gives (λ found. (found.0, found.1)) result (read.named_at position cursor.entry) }
{
    match cursor.first() {
        Some(Form::Name) => cursor.name(alloc),
        Some(Form::Word(word)) => match word_name(position, word) {
            Some(name) => Ok((text_of_name(alloc, name)?, cursor.behind())),
            None => Err(Stop::Syntax(cursor.left())),
        },
        _ => Err(Stop::Syntax(cursor.left())),
    }
}
