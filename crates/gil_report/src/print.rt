//! What a report writes as one text.
use std::alloc::AllocError;

/// What is printed, in both forms of a report, as one text.
pub trait Print {
    ghost use Rattle.std.specs.Prelude.{◌≡◌, ◌++◌, ℕ, List, string_bytes, OnOk};

    ghost printed: { Self → List ℕ };

    /// Adds the text.
    fn print(&self, out: &mut String) -> Result<(), AllocError>
        ensures { OnOk result (string_bytes out.new ≡ string_bytes out.old ++ printed self.now) };
}
