//! The tokens of a whole text.
ghost use Rattle.std.specs.Prelude.{◌≡◌, false, ◌≤◌, ◌<◌, ◌+◌, ◌^◌, ◌≢◌, List, length, [], ◌∷◌, ◌++◌, All, OnOk, IfOk, IfErr, Ok, Err, ◌-◌};
ghost use Rattle.gil_lexer.specs.Reading as spec;
ghost use Rattle.gil_lexer.specs.Spelling.{ends_operand, takes_minus};
ghost use Rattle.gil_lexer.specs.Texts.{AreTokensOf, IsSlice};
ghost use Rattle.gil_lexer.specs.Faults.{StopsAt};
ghost use Rattle.gil_lexer.specs.declared.forms.Token.{Token};
ghost use Rattle.gil_lexer.specs.declared.faults.LexKind.TheVariants as kinds;

use crate::blanks::after_blanks;
use crate::bytes::{begins_with_digit, begins_with_name, digits_len, is_name_start, name_len};
use crate::faults::{LexFault, LexKind};
use crate::forms::{Form, Token};
use crate::literals::literal_len;
use crate::numbers;
use crate::signs::{Sign, find_sign};
use crate::token_list::Tokens;
use crate::words::find_word;
use std::alloc::Global;

// Whether a `-` right behind a token of this form is the sign, also before a digit.
fn ends_operand(form: Form) -> bool
    ensures { result ≡ ends_operand form }
{
    match form {
        Form::Name | Form::Logical | Form::Number | Form::Text => true,
        Form::Sign(Sign::RightParenthesis | Sign::RightBracket) => true,
        _ => false,
    }
}

// Whether a `-` before a digit belongs to the number, behind this token or at the text's start.
fn takes_minus(before: Option<Form>) -> bool
    ensures { result ≡ takes_minus before }
{
    match before {
        Some(form) => !ends_operand(form),
        None => true,
    }
}

// The name or the reserved word at the front.
#[tactic(auto, unfolding(crate::specs::Reading::name_at))]
fn name_at(text: &[u8]) -> (Form, usize)
    ensures { result ≡ spec.name_at text.now }
{
    let len = name_len(text);
    match find_word(&text[..len]) {
        Some(word) => (Form::Word(word), len),
        None => (Form::Name, len),
    }
}

// The name behind a mark.
fn marked_name(form: Form, after: &[u8]) -> Result<(Form, usize), LexKind>
    ensures { result ≡ spec.marked_name form after.now }
{
    if begins_with_name(after) {
        Ok((form, 1 + name_len(after)))
    } else {
        Err(LexKind::Byte)
    }
}

// The text literal behind its opening quote.
fn literal_at(after: &[u8]) -> Result<(Form, usize), LexKind>
    ensures { result ≡ spec.literal_form (spec.literal_len false after.now) }
{
    let len = literal_len(after)?;
    Ok((Form::Text, 1 + len))
}

// The number that the first bytes are.
#[tactic(auto, unfolding(crate::specs::Reading::number_at))]
fn number_at(text: &[u8], len: usize) -> Result<(Form, usize), LexKind>
    requires { len ≤ length text.now }
    ensures { result ≡ spec.number_at text.now len }
{
    match numbers::value(&text[..len]) {
        Some(_) => Ok((Form::Number, len)),
        None => Err(LexKind::Wide),
    }
}

fn sign_at(text: &[u8]) -> Result<(Form, usize), LexKind>
    ensures { result ≡ spec.sign_form (spec.sign_of text.now) }
{
    match find_sign(text) {
        Some(sign) => Ok((Form::Sign(sign), sign.spelling().len())),
        None => Err(LexKind::Byte),
    }
}

// The form of the token at the front, and how long it is.
#[tactic(auto, unfolding(crate::specs::Reading::token_at))]
fn token_at(text: &[u8], takes_minus: bool) -> Result<(Form, usize), LexKind>
    ensures { result ≡ spec.token_at takes_minus text.now }
{
    match text {
        [] => Err(LexKind::Byte),
        [b'"', after @ ..] => literal_at(after),
        [b'#', after @ ..] => marked_name(Form::Logical, after),
        [b'@', after @ ..] => marked_name(Form::Procedure, after),
        [b'-', after @ ..] if takes_minus && begins_with_digit(after) => {
            number_at(text, 1 + digits_len(after))
        }
        [first, ..] if first.is_ascii_digit() => number_at(text, digits_len(text)),
        [first, ..] if is_name_start(*first) => Ok(name_at(text)),
        _ => sign_at(text),
    }
}

// The token at the front of what follows the first `at` bytes of a text.
fn token_from(text: &[u8], at: usize, takes_minus: bool) -> Result<Token, LexFault>
    requires { at + length text.now < 2 ^ 64 }
    ensures ok { IfOk result (λ token. spec.token_at takes_minus text.now ≡ Ok (token.form, token.to - at)) }
    ensures from { IfOk result (λ token. token.from ≡ at) }
    ensures forward { IfOk result (λ token. at < token.to) }
    ensures within { IfOk result (λ token. token.to ≤ at + length text.now) }
    ensures err { IfErr result (λ fault. (fault.at ≡ at) × (spec.token_at takes_minus text.now ≡ Err fault.kind)) }
{
    match token_at(text, takes_minus) {
        Ok((form, len)) => Ok(Token {
            form,
            from: at,
            to: at + len,
        }),
        Err(kind) => Err(LexFault { at, kind }),
    }
}

// Puts a token behind the others.
fn keep(tokens: &mut Tokens, token: Token) -> Result<(), LexFault>
    ensures ok { OnOk result (tokens.new ≡ tokens.old ++ token ∷ []) }
    ensures err { IfErr result (λ fault. (fault.at ≡ token.from) × (fault.kind ≡ kinds.Memory)) }
{
    match tokens.push(token) {
        Ok(()) => Ok(()),
        Err(_) => Err(LexFault {
            at: token.from,
            kind: LexKind::Memory,
        }),
    }
}

/// The tokens of a text: each the longest that may stand there, with blanks and comments alone between them.
/// A text has these tokens and no others. A fault names the first byte of the token that it stands in, and
/// `Memory` the token at which memory ran out.
pub fn lex(alloc: Global, bytes: &[u8]) -> Result<Tokens, LexFault>
    // The text is these tokens.
    ensures tokens { IfOk result (λ tokens. AreTokensOf tokens bytes.now) }
    ensures slices { IfOk result (λ tokens. All (IsSlice bytes.now) tokens) }

    // What stands before the fault is tokens and blanks, and the fault stands there.
    ensures fault { IfErr result (λ fault. StopsAt fault.kind fault.at bytes.now) }
    ensures no_tokens { IfErr result (λ fault. fault.kind ≢ kinds.Memory → (tokens : List Token) → AreTokensOf tokens bytes.now → ⊥) }
{
    let mut tokens = Tokens::new(alloc);
    let mut before = None;
    let mut rest = after_blanks(bytes);
    while !rest.is_empty() {
        let at = bytes.len() - rest.len();
        let token = token_from(rest, at, takes_minus(before))?;
        keep(&mut tokens, token)?;
        before = Some(token.form);
        rest = after_blanks(&rest[token.to - at..]);
    }
    Ok(tokens)
}
