//! Texts: the characters 0x20 to 0x7E and LF, and no other.
ghost use Rattle.std.specs.Prelude.{◌≡◌, ◌↔◌, ◌++◌, IfOk, OnOk, OnErr, IfSome, IsNone, IsTrue};
ghost use Rattle.gil_values.specs.Characters.{IsTextCharacter};
ghost use Rattle.gil_values.specs.Characters.{IsText};
ghost use Rattle.std.specs.Cmp.{partial_equiv_from_equiv};
ghost use Rattle.std.specs.Cmp.Lexicographic.{nat_list_eq_equiv};
ghost use Rattle.std.specs.Str.{bytes_eq};
ghost use Rattle.std.specs.Hash as fed;
ghost use Rattle.std.specs.Cmp.Rules.{hashing};
ghost use Rattle.std.proofs.Common.{rules};

use std::alloc::{AllocError, Global};
use std::hash::{Hash, Hasher};
use std::marker::Model;

/// A text, which contracts see as the list of its characters.
#[derive(Debug, Drop)]
pub struct Text {
    characters: String,
}

impl Model for Text {
    ghost use Rattle.std.specs.Prelude.{List, ℕ, string_bytes};
    ghost use Rattle.gil_values.specs.Characters.{IsText};

    ghost Value = { List ℕ };

    ghost view = { λ t. string_bytes t.characters };

    ghost invariant = { λ t. IsText (string_bytes t.characters) };
}

impl Text {
    /// The text with these characters, and None where one of them is in no text.
    pub fn from_str(alloc: Global, s: &str) -> Result<Option<Text>, AllocError>
        ensures text { IfOk result (λ found. IfSome found (λ t. t ≡ s.now)) }
        ensures none { IfOk result (λ found. IsNone found ↔ (IsText s.now → ⊥)) }
    {
        if !is_text(s) {
            return Ok(None);
        }
        let characters = String::from_str(alloc, s)?;
        Ok(Some(Text { characters }))
    }

    /// The characters.
    pub fn as_str(&self) -> &str
        ensures characters { result.now ≡ self.now }
        ensures text { IsText self.now }
    {
        self.characters.as_str()
    }

    /// Adds a text at the end.
    pub fn push_text(&mut self, text: &Text) -> Result<(), AllocError>
        ensures ok { OnOk result (self.new ≡ self.old ++ text.now) }
        ensures err { OnErr result (self.new ≡ self.old) }
    {
        self.characters.push_str(text.as_str())
    }

    /// An equal text.
    pub fn copy(&self, alloc: Global) -> Result<Text, AllocError>
        ensures { IfOk result (λ t. t ≡ self.now) }
    {
        let characters = String::from_str(alloc, self.characters.as_str())?;
        Ok(Text { characters })
    }
}

/// Texts are equal where their characters are, one by one.
impl PartialEq for Text {
    ghost eq = { bytes_eq };

    ghost laws = { partial_equiv_from_equiv nat_list_eq_equiv };

    fn eq(&self, other: &Text) -> bool {
        self.as_str() == other.as_str()
    }
}

impl Eq for Text {
    ghost laws = { nat_list_eq_equiv };
}

/// Texts hash as their characters, so that a text can be a key.
impl Hash for Text {
    ghost hash_input = { λ t. fed.str t };

    ghost respects_eq = { Prim.search (hashing, rules) };

    fn hash<H: Hasher>(&self, state: &mut H) {
        self.as_str().hash(state);
    }
}

/// Whether each character may stand in a text.
fn is_text(s: &str) -> bool
    ensures { IsTrue result ↔ IsText s.now }
{
    s.as_bytes().iter().all(|b| is_text_character(*b))
}

/// Whether a text may have this character.
fn is_text_character(character: u8) -> bool
    ensures { IsTrue result ↔ IsTextCharacter character }
{
    character == b'\n' || (b' ' <= character && character <= b'~')
}
