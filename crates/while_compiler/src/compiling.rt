//! Compiling a source.
ghost use Rattle.std.specs.Prelude.{◌≡◌, None, IfOk, IfErr, OnOk};
ghost use Rattle.gil_syntax.specs.Program.{prog_view};
ghost use Rattle.source_language.specs.Limits.{IsLimitOf};
ghost use Rattle.while_compiler.specs.Compiled.{compiled};
ghost use Rattle.while_compiler.specs.SameEnds.{HasSameEnds};
ghost use Rattle.while_compiler.specs.Source.{source_view};
ghost use Rattle.while_compiler.specs.Valid.{first_too_long};

use crate::programs::compiled_parts;
use crate::source::Source;
use gil_syntax::{InvalidKind, Prog};
use source_language::TooMany;
use std::alloc::Global;

/// The compiled program of a source. From every proper start, with any inputs, the two have the same ends.
pub fn compile(alloc: Global, source: &Source) -> Result<Prog, TooMany>
    ensures compiled { IfOk result (λ prog. prog_view prog ≡ compiled (source_view source.now)) }
    ensures same_ends { IfOk result (λ prog. HasSameEnds (source_view source.now) (prog_view prog)) }
    ensures short { OnOk result (first_too_long (source_view source.now).functions ≡ None) }
    ensures limit { IfErr result (λ e. IsLimitOf (first_too_long (source_view source.now).functions) e) }
{
    let parts = compiled_parts(alloc, &source.parts)?;
    match Prog::new(alloc, parts) {
        Ok(prog) => Ok(prog),
        Err(invalid) => match invalid.kind {
            InvalidKind::Memory => Err(TooMany::Memory),
            _ => unreachable!(),
        },
    }
}
