//! What has the form of a name.
ghost use Rattle.std.specs.Prelude.{◌≡◌, ◌↔◌, IsTrue};
ghost use Rattle.std.specs.List.{list_all};
ghost use Rattle.gil_lexer.specs.Bytes as class;
ghost use Rattle.gil_lexer.specs.Spelling.{IsName};

use crate::bytes::{begins_with_name, is_name_byte};

/// Whether the bytes have the form of a name, reserved or not: a letter or `_`, then letters, digits, `_` and `$`.
pub fn is_name(text: &[u8]) -> bool
    ensures { IsTrue result ↔ IsName text.now }
{
    begins_with_name(text) && are_name_bytes(text)
}

// Whether each byte may stand in a name.
fn are_name_bytes(text: &[u8]) -> bool
    ensures { result ≡ list_all class.is_name_byte text.now }
{
    text.iter().all(|byte| is_name_byte(*byte))
}
