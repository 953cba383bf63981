//! What stands between tokens: space, tab, CR, LF, and comments from `//` to the end of the line.
ghost use Rattle.std.specs.Prelude.{◌≡◌, ◌≤◌, false, length};
ghost use Rattle.gil_lexer.specs.Reading as spec;

use crate::bytes::is_blank;

// What follows the line feed that ends a comment.
fn after_comment(text: &[u8]) -> &[u8]
    ensures rest { result.now ≡ spec.after_comment text.now }
    ensures within { length result.now ≤ length text.now }
{
    let mut rest = text;
    while let [byte, after @ ..] = rest {
        if *byte == b'\n' {
            return after;
        }
        rest = after;
    }
    rest
}

// What follows the blanks and comments at the front.
#[tactic(auto, using(crate::proofs::BlankLemmas::after_comment_is))]
pub(crate) fn after_blanks(text: &[u8]) -> &[u8]
    ensures rest { result.now ≡ spec.after_blanks false text.now }
    ensures within { length result.now ≤ length text.now }
{
    let mut rest = text;
    loop {
        match rest {
            [b'/', b'/', comment @ ..] => rest = after_comment(comment),
            [byte, after @ ..] if is_blank(*byte) => rest = after,
            _ => return rest,
        }
    }
}
