//! The places of statements and functions.
ghost use Rattle.std.specs.Prelude.{◌≡◌, length, IfOk, IfErr};
ghost use Rattle.gil_lexemes.specs.declared.stops.Stop.TheVariants.{Memory};
ghost use Rattle.gil_grammar.specs.Texts.{byte_before};

use gil_lexemes::{Cursor, Stop};
use gil_lexer::Token;
use gil_text::byte_before;

/// The byte at which the next token begins. A place has 32 bits; a text of 4 GiB or more may be answered as want of memory.
pub fn next_place(tokens: &[Token], cursor: &Cursor<'_>) -> Result<u32, Stop>
    ensures ok { IfOk result (λ at. at ≡ byte_before tokens.now (length cursor.now)) }
    ensures err { IfErr result (λ stop. stop ≡ Memory) }
{
    u32::try_from(byte_before(tokens, cursor.left())).map_err(|_| Stop::Memory)
}
