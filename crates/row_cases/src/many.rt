//! Entries of a file that stand for many cases: each prefix of a text, and each read and each write of a call that fails.
use crate::cases::{Beginning, Case, Output, Piece, SourceText};
use serde::Deserialize;
use std::alloc::{AllocError, Global};

/// A text of which each prefix is refused that isn't a whole text itself.
#[derive(Debug, Deserialize)]
#[serde(deny_unknown_fields)]
pub struct Prefixes {
    /// What the text is.
    pub name: String,
    pub words: Vec<String>,
    pub source: String,
    /// What the text is answered with, each prefix of at least so many bytes, and each with another number of bytes with which it is a
    /// whole text.
    pub status: u8,
    pub output: Output,
    pub enough: usize,
    #[serde(default)]
    pub whole: Vec<Span>,
    /// The numbers of bytes of prefixes that end within a token which can't end there.
    #[serde(default)]
    pub lexical: Vec<Span>,
}

impl Drop for Prefixes {
    fn drop(self) {
        let Prefixes {
            name: _,
            words: _,
            source: _,
            status: _,
            output: _,
            enough: _,
            whole: _,
            lexical: _,
        } = self;
    }
}

/// Numbers from the first to the last.
#[derive(Clone, Copy, Debug, Deserialize)]
#[serde(deny_unknown_fields)]
pub struct Span {
    pub first: usize,
    pub last: usize,
}

/// A call of which each read and each write fails in turn.
#[derive(Debug, Deserialize)]
#[serde(deny_unknown_fields)]
pub struct Failing {
    /// What is asked for.
    pub name: String,
    pub words: Vec<String>,
    pub source: String,
    /// What is answered where nothing fails.
    pub status: u8,
    pub output: String,
    /// The most bytes of a read and of a write.
    pub size: usize,
    /// How many reads and writes there are.
    pub reads: usize,
    pub writes: usize,
}

impl Drop for Failing {
    fn drop(self) {
        let Failing {
            name: _,
            words: _,
            source: _,
            status: _,
            output: _,
            size: _,
            reads: _,
            writes: _,
        } = self;
    }
}

/// A text as its tokens, between which any blank may stand and no byte that begins no token.
#[derive(Debug, Deserialize)]
#[serde(deny_unknown_fields)]
pub struct Borders {
    /// What the text is.
    pub name: String,
    pub words: Vec<String>,
    pub tokens: Vec<String>,
    /// What is answered.
    pub status: u8,
    pub output: String,
}

impl Drop for Borders {
    fn drop(self) {
        let Borders {
            name: _,
            words: _,
            tokens: _,
            status: _,
            output: _,
        } = self;
    }
}

/// What may stand between tokens.
const BLANKS: [&str; 5] = [" ", "\t", "\r", "\n", "// a comment: \" $ |\r\n"];

/// Bytes that begin no token.
const STRANGE: [u8; 3] = [0, 0x7F, 0xFF];

/// The case of bytes.
fn case_of_bytes(
    alloc: Global,
    name: String,
    words: &Vec<String>,
    bytes: Vec<u8>,
    status: u8,
    output: Output,
) -> Result<Case, AllocError> {
    let source = SourceText::Pieces(vec![in alloc; Piece::Bytes(bytes)]?);
    let words = words.clone()?;
    Ok(Case::usual(alloc, name, words, source, status, output))
}

impl Borders {
    /// A case for each blank between all tokens, and one for each strange byte before the first token and behind each.
    pub fn cases(&self, alloc: Global) -> Result<Vec<Case>, AllocError> {
        let mut cases = Vec::new(alloc);
        for (place, blank) in BLANKS.iter().enumerate() {
            cases.push(self.apart(alloc, place, blank)?)?;
        }
        for before in 0..self.tokens.len().saturating_add(1) {
            for strange in STRANGE {
                cases.push(self.broken(alloc, before, strange)?)?;
            }
        }
        Ok(cases)
    }

    /// The tokens with the blank behind each.
    fn apart(&self, alloc: Global, place: usize, blank: &str) -> Result<Case, AllocError> {
        let mut text = String::new(alloc);
        for token in &self.tokens {
            text.push_str(token)?;
            text.push_str(blank)?;
        }
        let name = format!(in alloc; "{} with blank {place} between its tokens", self.name)?;
        self.case(alloc, name, text)
    }

    /// The case of a text that is answered as the tokens are.
    fn case(&self, alloc: Global, name: String, text: String) -> Result<Case, AllocError> {
        let words = self.words.clone()?;
        let output = Output::Text(self.output.clone()?);
        let source = SourceText::Text(text);
        Ok(Case::usual(alloc, name, words, source, self.status, output))
    }

    /// The tokens with a space behind each, and with a strange byte right behind so many of them, where it is refused.
    fn broken(&self, alloc: Global, before: usize, strange: u8) -> Result<Case, AllocError> {
        let name = format!(in alloc; "{} with byte {strange} behind {before} tokens", self.name)?;
        let (bytes, at) = self.with_strange(alloc, before, strange)?;
        let output = Output::Text(format!(in alloc; "refused lex at {at}\n")?);
        case_of_bytes(alloc, name, &self.words, bytes, 3, output)
    }

    /// The tokens with a space behind each and with a strange byte, and where that stands.
    fn with_strange(
        &self,
        alloc: Global,
        before: usize,
        strange: u8,
    ) -> Result<(Vec<u8>, usize), AllocError> {
        let mut bytes = Vec::new(alloc);
        let mut at = 0;
        if before == 0 {
            bytes.push(strange)?;
        }
        for (number, token) in self.tokens.iter().enumerate() {
            bytes.extend_from_slice(token.as_bytes())?;
            if number.saturating_add(1) == before {
                at = bytes.len();
                bytes.push(strange)?;
            }
            bytes.push(b' ')?;
        }
        Ok((bytes, at))
    }
}

impl Span {
    fn contains(self, number: usize) -> bool {
        self.first <= number && number <= self.last
    }
}

impl Prefixes {
    /// A case for each prefix, and one for the whole text.
    pub fn cases(&self, alloc: Global) -> Result<Vec<Case>, AllocError> {
        let mut cases = Vec::new(alloc);
        for length in 0..self.source.len() {
            cases.push(self.case(alloc, length)?)?;
        }
        cases.push(self.case(alloc, self.source.len())?)?;
        Ok(cases)
    }

    /// The case of the first bytes.
    fn case(&self, alloc: Global, length: usize) -> Result<Case, AllocError> {
        let name = format!(in alloc; "the first {length} bytes of {}", self.name)?;
        let bytes = self.source.as_bytes();
        let front = bytes.get(..length).unwrap_or(bytes).to_vec(alloc)?;
        let (status, output) = self.answer(alloc, length)?;
        case_of_bytes(alloc, name, &self.words, front, status, output)
    }

    /// What the first bytes are answered with.
    fn answer(&self, alloc: Global, length: usize) -> Result<(u8, Output), AllocError> {
        if length >= self.enough || self.whole.iter().any(|span| span.contains(length)) {
            return Ok((self.status, self.output.copy()?));
        }
        let kind = if self.lexical.iter().any(|span| span.contains(length)) {
            "lex"
        } else {
            "syntax"
        };
        let begins = format!(in alloc; "refused {kind} at ")?;
        Ok((3, Output::Begins(Beginning { begins })))
    }
}

impl Failing {
    /// The case in which nothing fails, and one for each read and each write.
    pub fn cases(&self, alloc: Global) -> Result<Vec<Case>, AllocError> {
        let mut cases = Vec::new(alloc);
        cases.push(self.answered(alloc)?)?;
        for number in 0..self.reads {
            cases.push(self.read_fails(alloc, number.saturating_add(1))?)?;
        }
        for number in 0..self.writes {
            cases.push(self.write_fails(alloc, number)?)?;
        }
        Ok(cases)
    }

    /// Neither the read nor the write behind the last one comes, so that their failure changes nothing.
    fn answered(&self, alloc: Global) -> Result<Case, AllocError> {
        let mut case = self.case(alloc)?;
        case.failing_reads.push(self.reads.saturating_add(1))?;
        case.failing_writes.push(self.writes.saturating_add(1))?;
        Ok(case)
    }

    /// Nothing is written where a read fails.
    fn read_fails(&self, alloc: Global, number: usize) -> Result<Case, AllocError> {
        let mut case = self.case(alloc)?;
        case.name = format!(in alloc; "{}: read {number} fails", self.name)?;
        case.failing_reads.push(number)?;
        case.status = 4;
        case.output = Output::Text(String::new(alloc));
        Ok(case)
    }

    /// What was written before stays where a write fails.
    fn write_fails(&self, alloc: Global, before: usize) -> Result<Case, AllocError> {
        let mut case = self.case(alloc)?;
        let number = before.saturating_add(1);
        case.name = format!(in alloc; "{}: write {number} fails", self.name)?;
        case.failing_writes.push(number)?;
        case.status = 5;
        let taken = self
            .output
            .get(..before.saturating_mul(self.size))
            .unwrap_or("");
        case.output = Output::Text(String::from_str(alloc, taken)?);
        Ok(case)
    }

    /// The call.
    fn case(&self, alloc: Global) -> Result<Case, AllocError> {
        let name = self.name.clone()?;
        let words = self.words.clone()?;
        let source = SourceText::Text(self.source.clone()?);
        let output = Output::Text(self.output.clone()?);
        let mut case = Case::usual(alloc, name, words, source, self.status, output);
        case.read_size = Some(self.size);
        case.write_size = Some(self.size);
        Ok(case)
    }
}
