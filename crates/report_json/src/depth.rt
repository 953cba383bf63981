//! How deep a report may be that is read.

/// How many brackets may be open at once in a report that is read, outside of text literals. Values, terms and proofs are read by
/// recursion, which takes stack for each bracket. It is more than values, terms and conditions have that the program writes.
pub const DEEPEST_REPORT: usize = 1_100;

/// Where in a text literal a byte stands.
#[derive(Clone, Copy, PartialEq, Eq)]
enum Within {
    Nothing,
    Literal,
    Escape,
}

/// Whether more brackets are open somewhere. Beyond that want of memory is answered, which may come on any report.
pub(crate) fn is_too_deep(bytes: &[u8]) -> bool {
    let mut within = Within::Nothing;
    let mut open: usize = 0;
    for byte in bytes {
        match within {
            Within::Nothing => open = open_behind(open, *byte),
            Within::Literal | Within::Escape => {}
        }
        if open > DEEPEST_REPORT {
            return true;
        }
        within = behind(within, *byte);
    }
    false
}

/// How many brackets are open behind a byte.
fn open_behind(open: usize, byte: u8) -> usize {
    match byte {
        b'(' | b'[' => open.saturating_add(1),
        b')' | b']' => open.saturating_sub(1),
        _ => open,
    }
}

/// Where the next byte stands.
fn behind(within: Within, byte: u8) -> Within {
    match within {
        Within::Nothing if byte == b'"' => Within::Literal,
        Within::Nothing => Within::Nothing,
        Within::Literal if byte == b'"' => Within::Nothing,
        Within::Literal if byte == b'\\' => Within::Escape,
        Within::Literal | Within::Escape => Within::Literal,
    }
}
