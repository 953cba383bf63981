//! The program of a text with its entry.
ghost use Rattle.std.specs.Prelude.{◌≡◌, ◌↔◌, length, IsTrue, IfOk, IfErr};
ghost use Rattle.gil_machine.specs.Run.{IsEntry};
ghost use Rattle.gil_syntax.specs.Program.{prog_view};
ghost use Rattle.gil_text.specs.declared.refused.RefusedKind.TheVariants.{Entry};
ghost use Rattle.gillian_core.specs.Accepted.{EntersAt, HasProc};
ghost use Rattle.gillian_core.specs.Finishing.{IsNoEntry};
ghost use Rattle.gillian_core.specs.Languages.{definition_of};
ghost use Rattle.gillian_core.specs.Right.{IsProgramOf};

use crate::languages::program;
use gil_syntax::Prog;
use gil_text::{Refused, RefusedKind};
use gil_values::Text;
use gillian_words::Language;
use std::alloc::Global;

/// The program of a text that has the entry, without parameters.
pub fn program_with(
    alloc: Global,
    language: Language,
    entry: &Text,
    bytes: &[u8],
) -> Result<Prog, Refused>
    ensures program { IfOk result (λ prog. IsProgramOf (definition_of language) bytes.now (prog_view prog)) }
    ensures entry { IfOk result (λ prog. IsEntry (prog_view prog) entry.now) }
    ensures none { IfErr result (IsNoEntry (definition_of language) (EntersAt entry.now) bytes.now) }
{
    let prog = program(alloc, language, bytes)?;
    if is_entry(&prog, entry) {
        Ok(prog)
    } else {
        Err(no_entry(bytes))
    }
}

/// The program of a text that has the procedure, with any parameters.
pub fn program_that_has(
    alloc: Global,
    language: Language,
    name: &Text,
    bytes: &[u8],
) -> Result<Prog, Refused>
    ensures program { IfOk result (λ prog. IsProgramOf (definition_of language) bytes.now (prog_view prog)) }
    ensures has { IfOk result (λ prog. HasProc name.now (prog_view prog)) }
    ensures none { IfErr result (IsNoEntry (definition_of language) (HasProc name.now) bytes.now) }
{
    let prog = program(alloc, language, bytes)?;
    if has_proc(&prog, name) {
        Ok(prog)
    } else {
        Err(no_entry(bytes))
    }
}

/// What a text is refused as whose program hasn't the entry that is wanted.
fn no_entry(bytes: &[u8]) -> Refused
    ensures at { result.at ≡ length bytes.now }
    ensures kind { result.kind ≡ Entry }
{
    Refused {
        at: bytes.len(),
        kind: RefusedKind::Entry,
    }
}

/// Whether the procedure is one of the program, without parameters.
fn is_entry(prog: &Prog, entry: &Text) -> bool
    ensures { IsTrue result ↔ IsEntry (prog_view prog.now) entry.now }
{
    prog.arity(entry) == Some(0)
}

/// Whether the procedure is one of the program.
fn has_proc(prog: &Prog, name: &Text) -> bool
    ensures { IsTrue result ↔ HasProc name.now (prog_view prog.now) }
{
    prog.arity(name).is_some()
}
