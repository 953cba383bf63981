//! Why a text is refused.
use gil_syntax::InvalidKind;
use thiserror::Error;

/// What keeps a text from being accepted: the first kind in this order that applies. `Memory` may come before any.
#[derive(Clone, Copy, Debug, PartialEq, Eq, Error)]
pub enum RefusedKind {
    /// The bytes are no tokens and blanks.
    #[error("this is no token")]
    Lex,
    /// More brackets are open than may be.
    #[error("too many brackets are open")]
    Nesting,
    /// The tokens are those of no text of the language.
    #[error("this token cannot stand here")]
    Syntax,
    /// The text spells parts that make no program.
    #[error("this item is at fault: {0:?}")]
    Invalid(InvalidKind),
    /// A function of another language compiles to more commands than a procedure may have.
    #[error("this function is too long")]
    Limit,
    /// The program has no such procedure, or it has parameters.
    #[error("the program cannot be entered there")]
    Entry,
    /// An assertion reads what isn't known where it stands.
    #[error("this assertion reads what is not known")]
    Modes,
    /// Memory ran out.
    #[error("out of memory")]
    Memory,
}

/// A refusal, and the byte at which it stands: the first byte of a token, or of bytes that form none, or the text's
/// length; for `Invalid`, the byte at which the item begins.
#[derive(Clone, Copy, Debug, PartialEq, Eq, Error)]
#[error("{kind}, at byte {at}")]
pub struct Refused {
    pub at: usize,
    pub kind: RefusedKind,
}
