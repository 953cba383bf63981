//! Compiling a source.
ghost use Rattle.std.specs.Prelude.{◌≡◌, None, IfOk, IfErr, OnOk};
ghost use Rattle.gil_syntax.specs.View.{parts_view};
ghost use Rattle.gil_syntax.specs.Program.{prog_view};
ghost use Rattle.source_language.specs.Limits.{IsLimitOf};
ghost use Rattle.object_lang.specs.View.{source_parts_view};
ghost use Rattle.object_compiler.specs.Compiled.{compiled};
ghost use Rattle.object_compiler.specs.SameEnds.{HasSameEnds};
ghost use Rattle.object_compiler.specs.Source.{source_view};
ghost use Rattle.object_compiler.specs.Valid.{first_too_long};

use crate::language::ObjectCodes;
use crate::source::Source;
use gil_syntax::{InvalidKind, Parts, Prog};
use object_lang::{Function, resolved};
use object_operators::get_procedure;
use source_language::{SourceParts, TooMany};
use source_statements::compiled_parts;
use std::alloc::Global;

/// The parts of the compiled program, where no procedure is too long.
fn short_program_of(alloc: Global, source: &SourceParts<Function>) -> Result<Parts, TooMany>
    ensures parts { IfOk result (λ parts. parts_view parts ≡ compiled (source_parts_view source.now)) }
    ensures short { OnOk result (first_too_long (source_parts_view source.now) ≡ None) }
    ensures limit { IfErr result (λ e. IsLimitOf (first_too_long (source_parts_view source.now)) e) }
{
    let mut parts = compiled_parts::<ObjectCodes>(alloc, &resolved(alloc, source)?)?;
    parts.procs.push(get_procedure(alloc)?)?;
    Ok(parts)
}

/// The compiled program of a source. From every proper start, with any inputs, the two have the same ends.
pub fn compile(alloc: Global, source: &Source) -> Result<Prog, TooMany>
    ensures compiled { IfOk result (λ prog. prog_view prog ≡ compiled (source_view source.now)) }
    ensures same_ends { IfOk result (λ prog. HasSameEnds (source_view source.now) (prog_view prog)) }
    ensures short { OnOk result (first_too_long (source_view source.now) ≡ None) }
    ensures limit { IfErr result (λ e. IsLimitOf (first_too_long (source_view source.now)) e) }
{
    let parts = short_program_of(alloc, &source.parts)?;
    match Prog::new(alloc, parts) {
        Ok(prog) => Ok(prog),
        Err(invalid) => match invalid.kind {
            InvalidKind::Memory => Err(TooMany::Memory),
            _ => unreachable!(),
        },
    }
}
