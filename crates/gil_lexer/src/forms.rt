//! A token: its form, and where it lies.
ghost use Rattle.std.specs.Prelude.{◌≡◌, ◌≤◌, length};
ghost use Rattle.std.specs.List.{slice_range};

use crate::signs::Sign;
use crate::words::Word;

/// What a token is. Its text says the rest: a name's letters, a number's digits, a text's characters.
#[derive(Clone, Copy, Debug, PartialEq, Eq)]
pub enum Form {
    /// A letter or `_`, then letters, digits, `_` and `$`, and no reserved word.
    Name,
    /// A reserved word.
    Word(Word),
    /// `#` and a name, which may be spelled like a reserved word.
    Logical,
    /// `@` and a name, which may be spelled like a reserved word.
    Procedure,
    /// Decimal digits, with a `-` before them where it belongs to the number.
    Number,
    /// A text literal, with its quotes.
    Text,
    /// A sign.
    Sign(Sign),
}

/// A token of a text: the bytes from `from` up to and without `to`.
#[derive(Clone, Copy, Debug, PartialEq, Eq)]
pub struct Token {
    pub form: Form,
    pub from: usize,
    pub to: usize,
}

impl Token {
    /// The token's bytes, where this is the text that it lies in.
    pub fn text(self, bytes: &[u8]) -> &[u8]
        requires forward { self.from ≤ self.to }
        requires within { self.to ≤ length bytes.now }
        ensures { result.now ≡ slice_range bytes.now self.from self.to }
    {
        &bytes[self.from..self.to]
    }
}
