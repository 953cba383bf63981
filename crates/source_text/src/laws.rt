//! What the grammar implies, whatever the language. The function does nothing: its contract is the law.
ghost use Rattle.std.specs.Prelude.{◌≡◌, ℕ, List};
ghost use Rattle.source_text.specs.Texts.{PlacedItem, SpellItems};

use crate::language::SourceLanguage;

/// One text has one reading: its items, each with the byte at which it begins.
pub fn one_text_has_one_reading<L: SourceLanguage>()
    ensures { (bytes : List ℕ) (items others : List (PlacedItem L.Pure)) → SpellItems L.nested L.spells bytes items → SpellItems L.nested L.spells bytes others
        → items ≡ others }
{}
