//! What the grammar implies. The functions do nothing: their contracts are the laws.
ghost use Rattle.std.specs.Prelude.{◌≡◌, ℕ, List, IsTrue};
ghost use Rattle.gil_lexemes.specs.declared.standing.Lexeme.{Lexeme};
ghost use Rattle.gil_syntax.specs.Pure.{PureExpr, PureParts};
ghost use Rattle.gil_syntax.specs.WellMade.{is_well_made};
ghost use Rattle.gil_grammar.specs.declared.positions.Position.{Position};
ghost use Rattle.gil_grammar.specs.Expressions.{SpellsExpr};
ghost use Rattle.gil_grammar.specs.Texts.{PlacedItem, Spell, SpellProgram};

/// One text has one reading: its items, each with the byte at which it begins.
pub fn one_text_has_one_reading()
    ensures { (bytes : List ℕ) (items others : List PlacedItem) → Spell bytes items → Spell bytes others → items ≡ others }
{}

/// One text spells one program.
pub fn one_text_spells_one_program()
    ensures { (bytes : List ℕ) (program other : PureParts) → SpellProgram bytes program → SpellProgram bytes other → program ≡ other }
{}

/// The lexemes of no expression begin another's.
pub fn expressions_end_where_they_end()
    ensures { (position : Position) (d e : PureExpr) (from rest left : List Lexeme) → SpellsExpr position d from rest
        → SpellsExpr position e from left → (d ≡ e) × (rest ≡ left) }
{}

/// The program that a text spells is well made.
pub fn texts_spell_well_made_programs()
    ensures { (bytes : List ℕ) (program : PureParts) → SpellProgram bytes program → IsTrue (is_well_made program) }
{}
