//! What a report is about.
use gil_values::Text;
use gillian_words::Language;

/// What is asked of an entry.
#[derive(Clone, Copy, Debug, PartialEq, Eq)]
pub enum EntryMode {
    /// How its run ends on given inputs.
    Run,
    /// Whether some inputs make it fail.
    Test,
    /// Which specifications it has.
    Infer,
}

/// What a report is about, in the order of the words that ask for it.
#[derive(Debug, Drop)]
pub enum Head {
    /// A run, a test or the specifications of an entry, within a bound.
    Entry {
        mode: EntryMode,
        language: Language,
        entry: Text,
        bound: u32,
    },
    /// The specifications of a text, each checked within a bound.
    Check {
        language: Language,
        bound: u32,
    },
    /// A list of atoms.
    Solve,
    /// A test of a made text with this many assertions.
    Sweep {
        size: u32,
    },
}
