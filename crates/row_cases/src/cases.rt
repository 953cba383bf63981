//! What a file of cases holds: calls of the program with what each must answer, as TOML spells them.
use crate::many::{Borders, Failing, Prefixes};
use serde::Deserialize;
use std::alloc::{AllocError, Global};
use std::fmt;
use thiserror::Error;

/// The most bytes that the source of a case may have: a few more than the program takes.
const MOST_BYTES: usize = 1_048_600;

/// The cases of a file.
#[derive(Debug, Drop, Deserialize)]
#[serde(deny_unknown_fields)]
pub struct Cases {
    #[serde(default)]
    pub case: Vec<Case>,
    #[serde(default)]
    pub prefixes: Vec<Prefixes>,
    #[serde(default)]
    pub failing: Vec<Failing>,
    #[serde(default)]
    pub borders: Vec<Borders>,
}

impl Cases {
    /// Adds the cases for which other entries stand.
    pub fn with_many(mut self, alloc: Global) -> Result<Vec<Case>, AllocError> {
        for text in &self.prefixes {
            self.case.append(&mut text.cases(alloc)?)?;
        }
        for call in &self.failing {
            self.case.append(&mut call.cases(alloc)?)?;
        }
        for text in &self.borders {
            self.case.append(&mut text.cases(alloc)?)?;
        }
        Ok(self.case)
    }
}

/// One call of the program.
#[derive(Debug, Deserialize)]
#[serde(deny_unknown_fields)]
pub struct Case {
    /// What the case shows.
    pub name: String,
    /// The words, the program's name first.
    pub words: Vec<String>,
    /// The bytes that the source has.
    pub source: SourceText,
    /// The exit code that must come.
    pub status: u8,
    /// What must be written.
    pub output: Output,
    /// The most bytes of a read, and of a write.
    pub read_size: Option<usize>,
    pub write_size: Option<usize>,
    /// The numbers of the reads, and of the writes, that fail, from 1.
    #[serde(default)]
    pub failing_reads: Vec<usize>,
    #[serde(default)]
    pub failing_writes: Vec<usize>,
    /// How many bytes the sink takes in all.
    pub room: Option<usize>,
    /// The rules by which terms are simplified.
    #[serde(default)]
    pub rules: Rules,
}

// Written out, as the others below, so that code which may drop a case calls this, and isn't made longer by it.
impl Drop for Case {
    fn drop(self) {
        let Case {
            name: _,
            words: _,
            source: _,
            status: _,
            output: _,
            read_size: _,
            write_size: _,
            failing_reads: _,
            failing_writes: _,
            room: _,
            rules: _,
        } = self;
    }
}

impl Case {
    /// A call over devices that never fail, by the rules that the program has.
    pub(crate) fn usual(
        alloc: Global,
        name: String,
        words: Vec<String>,
        source: SourceText,
        status: u8,
        output: Output,
    ) -> Case {
        Case {
            name,
            words,
            source,
            status,
            output,
            read_size: None,
            write_size: None,
            failing_reads: Vec::new(alloc),
            failing_writes: Vec::new(alloc),
            room: None,
            rules: Rules::Shipped,
        }
    }
}

/// Rules by which terms are simplified: those that the program has, or none.
#[derive(Clone, Copy, Debug, Default, Deserialize)]
#[serde(rename_all = "lowercase")]
pub enum Rules {
    #[default]
    Shipped,
    None,
}

/// What must be written: a text, to its last byte, or any text with this beginning, where several are right.
#[derive(Debug, Deserialize)]
#[serde(untagged)]
pub enum Output {
    Text(String),
    Begins(Beginning),
}

impl Drop for Output {
    fn drop(self) {
        match self {
            Output::Text(_) => {}
            Output::Begins(_) => {}
        }
    }
}

#[derive(Debug, Drop, Deserialize)]
#[serde(deny_unknown_fields)]
pub struct Beginning {
    pub begins: String,
}

impl Output {
    /// The same.
    pub fn copy(&self) -> Result<Output, AllocError> {
        Ok(match self {
            Output::Text(text) => Output::Text(text.clone()?),
            Output::Begins(beginning) => Output::Begins(Beginning {
                begins: beginning.begins.clone()?,
            }),
        })
    }
}

impl fmt::Display for Output {
    fn fmt<W: fmt::Write>(&self, f: &mut fmt::Formatter<W>) -> fmt::Result {
        match self {
            Output::Text(text) => write!(f, "{text:?}"),
            Output::Begins(beginning) => write!(f, "that begins with {:?}", beginning.begins),
        }
    }
}

/// The bytes of a source: a text, or pieces in order.
#[derive(Debug, Deserialize)]
#[serde(untagged)]
pub enum SourceText {
    Text(String),
    Pieces(Vec<Piece>),
}

impl Drop for SourceText {
    fn drop(self) {
        match self {
            SourceText::Text(_) => {}
            SourceText::Pieces(_) => {}
        }
    }
}

/// A piece of a source.
#[derive(Debug, Deserialize)]
#[serde(rename_all = "lowercase")]
pub enum Piece {
    Text(String),
    /// Bytes that may be no text.
    Bytes(Vec<u8>),
    /// A text, so many times.
    Repeat(Repeat),
    /// One byte, until the source has so many bytes.
    Fill(Fill),
    /// Two texts with a number between them, for each number from 0 on, so many times.
    Numbered(Numbered),
}

impl Drop for Piece {
    fn drop(self) {
        match self {
            Piece::Text(_) => {}
            Piece::Bytes(_) => {}
            Piece::Repeat(_) => {}
            Piece::Fill(_) => {}
            Piece::Numbered(_) => {}
        }
    }
}

#[derive(Debug, Drop, Deserialize)]
#[serde(deny_unknown_fields)]
pub struct Repeat {
    pub text: String,
    pub times: usize,
}

#[derive(Debug, Drop, Deserialize)]
#[serde(deny_unknown_fields)]
pub struct Fill {
    pub byte: u8,
    pub size: usize,
}

#[derive(Debug, Drop, Deserialize)]
#[serde(deny_unknown_fields)]
pub struct Numbered {
    pub before: String,
    pub after: String,
    pub times: usize,
}

/// Why the pieces make no source.
#[derive(Debug, Drop, Error)]
pub enum SourceFault {
    #[error("a source of more than 1,048,600 bytes")]
    TooLarge,
    #[error("a source that is filled up to fewer bytes than it has")]
    Filled,
    #[error("out of memory")]
    Memory,
}

impl From<AllocError> for SourceFault {
    fn from(_fault: AllocError) -> SourceFault {
        SourceFault::Memory
    }
}

impl SourceText {
    /// The bytes.
    pub fn bytes(&self, alloc: Global) -> Result<Vec<u8>, SourceFault> {
        let mut bytes = Vec::new(alloc);
        match self {
            SourceText::Text(text) => add(&mut bytes, text.as_bytes())?,
            SourceText::Pieces(pieces) => {
                for piece in pieces {
                    piece.add_to(alloc, &mut bytes)?;
                }
            }
        }
        Ok(bytes)
    }
}

impl Piece {
    /// Adds the bytes of the piece.
    fn add_to(&self, alloc: Global, bytes: &mut Vec<u8>) -> Result<(), SourceFault> {
        match self {
            Piece::Text(text) => add(bytes, text.as_bytes()),
            Piece::Bytes(more) => add(bytes, more),
            Piece::Repeat(repeat) => {
                for _ in 0..repeat.times {
                    add(bytes, repeat.text.as_bytes())?;
                }
                Ok(())
            }
            Piece::Fill(fill) => {
                if fill.size < bytes.len() {
                    return Err(SourceFault::Filled);
                }
                for _ in bytes.len()..fill.size {
                    add(bytes, &[fill.byte])?;
                }
                Ok(())
            }
            Piece::Numbered(numbered) => {
                for number in 0..numbered.times {
                    add(bytes, numbered.before.as_bytes())?;
                    add(bytes, number.to_string(alloc)?.as_bytes())?;
                    add(bytes, numbered.after.as_bytes())?;
                }
                Ok(())
            }
        }
    }
}

/// Adds bytes, where the source doesn't become too large.
fn add(bytes: &mut Vec<u8>, more: &[u8]) -> Result<(), SourceFault> {
    if more.len() > MOST_BYTES.saturating_sub(bytes.len()) {
        return Err(SourceFault::TooLarge);
    }
    bytes.extend_from_slice(more)?;
    Ok(())
}
