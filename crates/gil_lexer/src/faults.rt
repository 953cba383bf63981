//! Why a text isn't all tokens and blanks.
use thiserror::Error;

/// What keeps the bytes from being tokens and blanks.
#[derive(Clone, Copy, Debug, PartialEq, Eq, Error)]
pub enum LexKind {
    /// The byte begins no token.
    #[error("no token begins here")]
    Byte,
    /// A text literal is left open: a byte that is no character 0x20 to 0x7E, as a line feed or a tab, or the end of the text
    /// comes before a quote that closes it.
    #[error("this text literal is left open")]
    Open,
    /// A backslash in a text literal begins none of the escapes `\"`, `\\` and `\n`.
    #[error("this text has a faulty escape")]
    Escape,
    /// The number is below -2^63 or above 2^63 - 1.
    #[error("this number does not fit 64 bits")]
    Wide,
    /// Memory ran out.
    #[error("out of memory")]
    Memory,
}

/// A fault, and the byte at which the token begins that it stands in.
#[derive(Clone, Copy, Debug, PartialEq, Eq, Error)]
#[error("{kind}, at byte {at}")]
pub struct LexFault {
    pub at: usize,
    pub kind: LexKind,
}
