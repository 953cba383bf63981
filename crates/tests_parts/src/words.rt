//! The words and signs that are reserved.
use gil_lexer::{Form, lex};
use std::test::Fail;

/// The reserved words and the signs.
const WORDS_AND_SIGNS: &str =
    "proc spec pred ifgoto call do usym isym return fail vanish fold unfold invariant assert \
 assume emp true false not neg len kind nth and or ret Int Bool Str Sym Kind Proc List Undef Null int bool str sym list any \
 vars func function new input symbol dispose if else while let create setproto proto has delete undefined null malloc free \
 NULL throw catch try lemma := == != <= >= && || ++ ( ) [ ] { } , ; : . + - * / % = < > ! &";

/// The bytes of a form that is always spelled the same.
fn spelling_of(form: Form) -> Option<&'static [u8]> {
    match form {
        Form::Word(word) => Some(word.spelling()),
        Form::Sign(sign) => Some(sign.spelling()),
        _ => None,
    }
}

#[test]
fn words_and_signs_are_tokens(rt: HostRuntime) -> Result<(), Fail> {
    for spelling in WORDS_AND_SIGNS.split(' ') {
        let tokens = lex(rt.alloc(), spelling.as_bytes())?;
        assert!(rt; tokens.len() == 1, "{spelling}");
        let found = tokens.get(0).and_then(|token| spelling_of(token.form));
        assert!(rt; found == Some(spelling.as_bytes()), "{spelling}");
    }
    Ok(())
}
