//! The C-like language, over blocks.
ghost use Rattle.std.specs.Prelude.{◌≡◌, IfOk, IfErr};
ghost use Rattle.gil_syntax.specs.Program.{prog_view};
ghost use Rattle.gil_syntax.specs.Pure.{PureParts};
ghost use Rattle.gillian_core.specs.Compiled.{IsSourceOf};
ghost use Rattle.gillian_core.specs.Finishing.{IsNoProgram};
ghost use Rattle.gillian_core.specs.Right.{IsProgramOf};
ghost use Rattle.gillian_core.specs.ClikeLanguage.{clike_language, clike_sources};

use crate::limits::limit_refused;
use clike_compiler::compile;
use clike_text::read;
use gil_syntax::Prog;
use gil_text::Refused;
use std::alloc::Global;

/// The compiled program of a text.
pub fn program(alloc: Global, bytes: &[u8]) -> Result<Prog, Refused>
    ensures program { IfOk result (λ prog. IsProgramOf clike_language bytes.now (prog_view prog)) }
    ensures only { IfOk result (λ prog. (p : PureParts) → IsSourceOf clike_sources bytes.now p → prog_view prog ≡ p) }
    ensures none { IfErr result (IsNoProgram clike_language bytes.now) }
{
    let source = read(alloc, bytes)?;
    match compile(alloc, &source) {
        Ok(prog) => Ok(prog),
        Err(too_many) => Err(limit_refused(too_many)),
    }
}
