//! What is known of specifications.
use gil_syntax::Texts;
use gil_values::Text;
use sequence::Sequence;

/// How a specification stands.
#[derive(Debug, Drop)]
pub enum Standing {
    /// Nothing is known against it.
    Sound,
    /// There is a cause of its own against it.
    Caused,
    /// It uses the specification of this name, which isn't sound.
    Depends(Text),
}

/// A specification, by its name, with the names of those that it uses.
#[derive(Debug, Drop)]
pub struct Entry {
    pub name: Text,
    pub uses: Texts,
    pub standing: Standing,
}

pub type Entries = Sequence<Entry>;
