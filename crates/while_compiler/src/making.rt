//! Sources of trees.
ghost use Rattle.std.specs.Prelude.{◌≡◌, ◌≢◌, true, IsTrue, IfOk, IfErr};
ghost use Rattle.std.specs.List.{list_all};
ghost use Rattle.gil_syntax.specs.declared.validity.InvalidKind.TheVariants.{Memory};
ghost use Rattle.gil_syntax.specs.WellMade.{is_well_made};
ghost use Rattle.gil_syntax.specs.Uncounted.{IsNamedButLength};
ghost use Rattle.while_lang.specs.Names.{is_source_function};
ghost use Rattle.while_lang.specs.View.{source_parts_view};
ghost use Rattle.while_compiler.specs.Compiled.{compiled};
ghost use Rattle.while_compiler.specs.Source.{source_view};

use crate::programs::parts_of;
use crate::source::Source;
use gil_syntax::{Invalid, check_but_length};
use source_language::SourceParts;
use std::alloc::Global;
use while_lang::Function;

impl Source {
    /// The source of trees. A fault is one of the compiled program, the number of a procedure's commands aside, and its item is
    /// counted through the functions, then the specifications, then the predicates.
    pub fn new(alloc: Global, parts: SourceParts<Function>) -> Result<Source, Invalid>
        requires named { list_all (λ f. is_source_function f) (source_parts_view parts).functions ≡ true }
        requires well_made { IsTrue (is_well_made (compiled (source_parts_view parts))) }
        ensures source { IfOk result (λ source. source_view source ≡ source_parts_view parts) }
        ensures invalid { IfErr result (λ e. e.kind ≢ Memory → IsNamedButLength (compiled (source_parts_view parts)) e.kind e.item) }
    {
        let program = parts_of(alloc, &parts)?;
        check_but_length(alloc, &program)?;
        Ok(Source { parts })
    }
}
