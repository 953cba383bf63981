//! The classes of bytes.
ghost use Rattle.std.specs.Prelude.{◌≡◌, ◌≤◌, length};
ghost use Rattle.std.specs.List.{prefix_len};
ghost use Rattle.std.specs.Char.{is_ascii_digit};
ghost use Rattle.gil_lexer.specs.Bytes as class;

pub(crate) fn is_blank(byte: u8) -> bool
    ensures { result ≡ class.is_blank byte }
{
    byte == b' ' || byte == b'\t' || byte == b'\r' || byte == b'\n'
}

pub(crate) fn is_name_start(byte: u8) -> bool
    ensures { result ≡ class.is_name_start byte }
{
    byte.is_ascii_alphabetic() || byte == b'_'
}

pub(crate) fn is_name_byte(byte: u8) -> bool
    ensures { result ≡ class.is_name_byte byte }
{
    is_name_start(byte) || byte.is_ascii_digit() || byte == b'$'
}

pub(crate) fn is_printable(byte: u8) -> bool
    ensures { result ≡ class.is_printable byte }
{
    32 <= byte && byte <= 126
}

// Whether the byte stands for itself in a text literal.
pub(crate) fn is_plain(byte: u8) -> bool
    ensures { result ≡ class.is_plain byte }
{
    is_printable(byte) && byte != b'"' && byte != b'\\'
}

pub(crate) fn is_escape(byte: u8) -> bool
    ensures { result ≡ class.is_escape byte }
{
    byte == b'"' || byte == b'\\' || byte == b'n'
}

// Whether the text begins with a digit.
pub(crate) fn begins_with_digit(text: &[u8]) -> bool
    ensures { result ≡ class.begins is_ascii_digit text.now }
{
    match text {
        [first, ..] => first.is_ascii_digit(),
        [] => false,
    }
}

// Whether the text begins with what a name begins with.
pub(crate) fn begins_with_name(text: &[u8]) -> bool
    ensures { result ≡ class.begins class.is_name_start text.now }
{
    match text {
        [first, ..] => is_name_start(*first),
        [] => false,
    }
}

// How many digits stand at the front.
pub(crate) fn digits_len(text: &[u8]) -> usize
    ensures len { result ≡ prefix_len is_ascii_digit text.now }
    ensures within { result ≤ length text.now }
{
    text.iter().take_while(|b| b.is_ascii_digit()).count()
}

// How many bytes of a name stand at the front.
pub(crate) fn name_len(text: &[u8]) -> usize
    ensures len { result ≡ prefix_len class.is_name_byte text.now }
    ensures within { result ≤ length text.now }
{
    text.iter().take_while(|b| is_name_byte(**b)).count()
}
