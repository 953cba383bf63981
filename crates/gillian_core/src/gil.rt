//! GIL, over any memory: what a text is doesn't depend on it.
ghost use Rattle.std.specs.Prelude.{◌≡◌, IfOk, IfErr};
ghost use Rattle.gil_syntax.specs.Program.{prog_view};
ghost use Rattle.gil_syntax.specs.Pure.{PureParts};
ghost use Rattle.gillian_core.specs.Finishing.{IsNoProgram};
ghost use Rattle.gillian_core.specs.Gil.{IsTextOf, gil_record};
ghost use Rattle.gillian_core.specs.Right.{IsProgramOf};

use gil_syntax::Prog;
use gil_text::{Refused, read_prog};
use std::alloc::Global;

/// The program of a text.
pub fn program(alloc: Global, bytes: &[u8]) -> Result<Prog, Refused>
    ensures program { IfOk result (λ prog. IsProgramOf gil_record bytes.now (prog_view prog)) }
    ensures only { IfOk result (λ prog. (p : PureParts) → IsTextOf bytes.now p → prog_view prog ≡ p) }
    ensures none { IfErr result (IsNoProgram gil_record bytes.now) }
{
    read_prog(alloc, bytes)
}
