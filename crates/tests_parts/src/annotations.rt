//! What of GIL stands at a token of a text.
use gil_lexer::lex;
use gil_text::read_assertions;
use std::alloc::Global;
use std::test::Fail;

/// Texts, the number of a token, and the number of the token behind the longest annotation there or the byte of the refusal.
const ANNOTATIONS: [(&str, usize, Result<usize, usize>); 14] = [
    ("spec f(a) [] { emp } { emp } { broken", 0, Ok(13)),
    ("spec f(a) [] { emp } { emp } { emp } )", 0, Ok(16)),
    (
        "spec f(a) [] { emp } throw { emp } throw { broken",
        0,
        Ok(14),
    ),
    (
        "spec f(a) [] { emp } { emp } throw { emp } { emp }",
        0,
        Ok(17),
    ),
    (
        "spec f(a) [] { emp } { emp } { broken throw { emp }",
        0,
        Ok(13),
    ),
    ("x := (a + 1);", 2, Ok(7)),
    ("fold list(x;);", 0, Ok(6)),
    ("assert { emp };", 0, Ok(4)),
    ("pred p(x; y: int) [#z] { emp } done", 0, Ok(15)),
    ("ret", 0, Err(0)),
    ("#x", 0, Err(0)),
    ("a return 1", 1, Err(2)),
    ("spec f", 0, Err(6)),
    ("", 0, Err(0)),
];

/// The number of the token behind the longest annotation at a token of the text, or the byte of the refusal.
fn behind_annotation(alloc: Global, text: &str, from: usize) -> Result<Result<usize, usize>, Fail> {
    let tokens = lex(alloc, text.as_bytes())?;
    if from > tokens.len() {
        return Err("no such token".into());
    }
    match read_assertions(alloc, text.as_bytes(), &tokens, from) {
        Ok((_, behind)) => Ok(Ok(behind)),
        Err(refused) => Ok(Err(refused.at)),
    }
}

#[test]
fn annotations_are_the_longest(rt: HostRuntime) -> Result<(), Fail> {
    for (text, from, expected) in ANNOTATIONS {
        let found = behind_annotation(rt.alloc(), text, from)?;
        assert!(rt; found == expected, "{text}");
    }
    Ok(())
}
