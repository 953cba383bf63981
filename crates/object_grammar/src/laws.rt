//! What the grammar implies. The functions do nothing: their contracts are the laws.
ghost use Rattle.std.specs.Prelude.{◌≡◌, ℕ, List, IsTrue};
ghost use Rattle.std.specs.List.{list_all};
ghost use Rattle.object_lang.specs.Names.{is_source_function};
ghost use Rattle.object_lang.specs.Pure.{PureSource};
ghost use Rattle.object_grammar.specs.Texts.{PlacedItem, SpellItems, SpellSource};

/// One text has one reading: its items, each with the byte at which it begins.
pub fn one_text_has_one_reading()
    ensures { (bytes : List ℕ) (items others : List PlacedItem) → SpellItems bytes items → SpellItems bytes others → items ≡ others }
{}

/// The functions of a source that a text spells name only what a source text can name.
pub fn texts_name_what_sources_name()
    ensures { (bytes : List ℕ) (source : PureSource) → SpellSource bytes source → IsTrue (list_all (λ f. is_source_function f) source.functions) }
{}
