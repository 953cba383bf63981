//! Places: where in a program a command stands.
use crate::texts::Text;

/// A place, printed `main:4`: a procedure and a number. In a program read from GIL text the number is the
/// command's index from 0. In a compiled program it is the byte at which the source statement begins.
#[derive(Debug, Drop, PartialEq, Eq)]
pub struct Place {
    pub proc: Text,
    pub at: u32,
}
