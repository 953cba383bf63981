//! What the definitions of texts imply. The functions do nothing: their contracts are the laws.
ghost use Rattle.std.specs.Prelude.{◌≡◌, ℕ, List};
ghost use Rattle.atom_text.specs.Accepted.{PureAtomText, SpellAtoms};
ghost use Rattle.atom_text.specs.Grammar.{Spell};
ghost use Rattle.atom_text.specs.Sources.{PureSource};

/// One text has one reading: its declarations and its expressions, each with the byte at which it begins.
pub fn one_text_has_one_reading()
    ensures { (bytes : List ℕ) (source other : PureSource) → Spell bytes source → Spell bytes other → source ≡ other }
{}

/// One text spells one list of variables and one list of atoms.
pub fn one_text_spells_one_list()
    ensures { (bytes : List ℕ) (text other : PureAtomText) → SpellAtoms bytes text → SpellAtoms bytes other → text ≡ other }
{}
