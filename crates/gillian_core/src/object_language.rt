//! The object language, over objects.
ghost use Rattle.std.specs.Prelude.{◌≡◌, IfOk, IfErr};
ghost use Rattle.gil_syntax.specs.Program.{prog_view};
ghost use Rattle.gil_syntax.specs.Pure.{PureParts};
ghost use Rattle.gillian_core.specs.Compiled.{IsSourceOf};
ghost use Rattle.gillian_core.specs.Finishing.{IsNoProgram};
ghost use Rattle.gillian_core.specs.Right.{IsProgramOf};
ghost use Rattle.gillian_core.specs.ObjectLanguage.{object_language, object_sources};

use crate::limits::limit_refused;
use gil_syntax::Prog;
use gil_text::Refused;
use object_compiler::compile;
use object_text::read;
use std::alloc::Global;

/// The compiled program of a text.
pub fn program(alloc: Global, bytes: &[u8]) -> Result<Prog, Refused>
    ensures program { IfOk result (λ prog. IsProgramOf object_language bytes.now (prog_view prog)) }
    ensures only { IfOk result (λ prog. (p : PureParts) → IsSourceOf object_sources bytes.now p → prog_view prog ≡ p) }
    ensures none { IfErr result (IsNoProgram object_language bytes.now) }
{
    let source = read(alloc, bytes)?;
    match compile(alloc, &source) {
        Ok(prog) => Ok(prog),
        Err(too_many) => Err(limit_refused(too_many)),
    }
}
