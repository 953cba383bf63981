//! Where a value of a list ends.

/// Where a scan over a list of values is.
#[derive(Clone, Copy, Debug)]
pub enum Scan {
    /// Not between quotes.
    Outside,
    /// Between quotes.
    Inside,
    /// Between quotes, behind a backslash.
    Escaped,
}

impl Scan {
    ghost use Rattle.std.specs.Prelude.{◌≡◌};
    ghost use Rattle.gillian_words.specs.Pieces.{next};

    /// Where the scan is behind a byte, and None at a comma that isn't between quotes.
    pub fn next(self, byte: u8) -> Option<Scan>
        ensures { result ≡ next self byte }
    {
        match (self, byte) {
            (Scan::Outside, b',') => None,
            (Scan::Outside, b'"') => Some(Scan::Inside),
            (Scan::Outside, _) => Some(Scan::Outside),
            (Scan::Inside, b'"') => Some(Scan::Outside),
            (Scan::Inside, b'\\') => Some(Scan::Escaped),
            (Scan::Inside, _) => Some(Scan::Inside),
            (Scan::Escaped, _) => Some(Scan::Inside),
        }
    }
}
