//! What the grammar and the compiler imply together. The function does nothing: its contract is the law.
ghost use Rattle.std.specs.Prelude.{ℕ, List, IsTrue};
ghost use Rattle.gil_syntax.specs.WellMade.{is_well_made};
ghost use Rattle.object_lang.specs.Pure.{PureSource};
ghost use Rattle.object_grammar.specs.Texts.{SpellSource};
ghost use Rattle.object_compiler.specs.Compiled.{compiled};

/// What a text spells compiles to a well made program.
pub fn texts_compile_to_well_made_programs()
    ensures { (bytes : List ℕ) (source : PureSource) → SpellSource bytes source → IsTrue (is_well_made (compiled source)) }
{}
