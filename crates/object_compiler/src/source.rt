//! Sources: the trees that have a compiled program.
ghost use Rattle.std.specs.Prelude.{◌≡◌, true, IsTrue};
ghost use Rattle.std.specs.List.{list_all};
ghost use Rattle.gil_syntax.specs.WellMade.{is_well_made};
ghost use Rattle.object_lang.specs.Names.{is_source_function};
ghost use Rattle.object_lang.specs.View.{source_parts_view};
ghost use Rattle.object_compiler.specs.Compiled.{compiled};
ghost use Rattle.object_compiler.specs.Valid.{IsValidSource};

use object_lang::Function;
use source_language::SourceParts;

/// A program of the object language. Contracts see it as its tree, by `source_view`. It names what a source text can name, and its
/// compiled program is well made, and valid where no function gives too many commands.
#[derive(Debug, Drop)]
pub struct Source {
    pub parts: SourceParts<Function>,
    pub ghost named: { list_all (λ f. is_source_function f) (source_parts_view parts).functions ≡ true },
    pub ghost well_made: { IsTrue (is_well_made (compiled (source_parts_view parts))) },
    pub ghost valid: { IsValidSource (source_parts_view parts) },
}
