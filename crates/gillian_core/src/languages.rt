//! The languages: how the texts of each are read, and the memory of its programs.
ghost use Rattle.std.specs.Prelude.{◌≡◌, [], map, IfOk, IfErr, IsSome};
ghost use Rattle.std.specs.FinMap.{empty};
ghost use Rattle.assert_logic.specs.Modes.{HasModes};
ghost use Rattle.gil_machine.specs.Held.{held_run_of};
ghost use Rattle.gil_machine.specs.Run.{IsEntry};
ghost use Rattle.gil_syntax.specs.Program.{prog_view};
ghost use Rattle.gil_syntax.specs.Programs.{find_proc};
ghost use Rattle.gil_syntax.specs.Pure.{PureParts};
ghost use Rattle.gil_values.specs.View.{values_view};
ghost use Rattle.gil_report.specs.View.{answer_view};
ghost use Rattle.gillian_core.specs.Checked.{AreRightAnswers};
ghost use Rattle.gillian_core.specs.Ends.{end_answer};
ghost use Rattle.gillian_core.specs.Finishing.{IsNoProgram};
ghost use Rattle.gillian_core.specs.Inferred.{AreRightFounds};
ghost use Rattle.gillian_core.specs.Languages.{definition_of};
ghost use Rattle.gillian_core.specs.Right.{IsProgramOf, IsRightVerdict};

use crate::checking::checked;
use crate::inferring::inferred;
use crate::running::run_answer;
use crate::testing::verdict;
use crate::{clike_language, gil, object_language, while_language};
use block_heap::BlockHeap;
use block_sym::BlockSym;
use gil_report::{Answer, Answers};
use gil_syntax::Prog;
use gil_text::Refused;
use gil_values::{Text, Values};
use gillian_words::{Bound, Language};
use mem_model::MemoryName;
use object_heap::ObjectHeap;
use object_sym::ObjectSym;
use record_heap::RecordHeap;
use record_sym::RecordSym;
use rewrite_book::RuleBook;
use std::alloc::{AllocError, Global};

/// The program of a text.
pub fn program(alloc: Global, language: Language, bytes: &[u8]) -> Result<Prog, Refused>
    ensures program { IfOk result (λ prog. IsProgramOf (definition_of language) bytes.now (prog_view prog)) }
    ensures only { IfOk result (λ prog. (p : PureParts) → (definition_of language).IsText bytes.now p → prog_view prog ≡ p) }
    ensures none { IfErr result (IsNoProgram (definition_of language) bytes.now) }
{
    match language {
        Language::GilRecord => gil::program(alloc, bytes),
        Language::GilBlock => gil::program(alloc, bytes),
        Language::GilObject => gil::program(alloc, bytes),
        Language::While => while_language::program(alloc, bytes),
        Language::Clike => clike_language::program(alloc, bytes),
        Language::Object => object_language::program(alloc, bytes),
    }
}

/// How the run of an entry of a program ends, from the empty heap.
pub fn run_in(
    alloc: Global,
    language: Language,
    prog: &Prog,
    entry: &Text,
    bound: Bound,
    inputs: &Values,
) -> Result<Answer, AllocError>
    requires { IsEntry (prog_view prog.now) entry.now }
    ensures { IfOk result (λ answer. answer_view answer ≡ end_answer (held_run_of (prog_view prog.now)
        (definition_of language).memory.actions entry.now [] empty 0 (values_view inputs.now) bound.steps)) }
{
    match language {
        Language::GilRecord => run_answer::<RecordHeap>(alloc, prog, entry, bound, inputs),
        Language::GilBlock => run_answer::<BlockHeap>(alloc, prog, entry, bound, inputs),
        Language::GilObject => run_answer::<ObjectHeap>(alloc, prog, entry, bound, inputs),
        Language::While => run_answer::<RecordHeap>(alloc, prog, entry, bound, inputs),
        Language::Clike => run_answer::<BlockHeap>(alloc, prog, entry, bound, inputs),
        Language::Object => run_answer::<ObjectHeap>(alloc, prog, entry, bound, inputs),
    }
}

/// The verdict on an entry of a program, from the empty heap.
pub fn verdict_in(
    alloc: Global,
    language: Language,
    prog: &Prog,
    entry: &Text,
    bound: Bound,
    rules: &RuleBook,
) -> Result<Answer, AllocError>
    requires { IsEntry (prog_view prog.now) entry.now }
    ensures { IfOk result (λ answer. IsRightVerdict (definition_of language).memory (prog_view prog.now) entry.now bound.steps
        (answer_view answer)) }
{
    match language {
        Language::GilRecord => verdict::<RecordSym>(alloc, prog, entry, bound, rules),
        Language::GilBlock => verdict::<BlockSym>(alloc, prog, entry, bound, rules),
        Language::GilObject => verdict::<ObjectSym>(alloc, prog, entry, bound, rules),
        Language::While => verdict::<RecordSym>(alloc, prog, entry, bound, rules),
        Language::Clike => verdict::<BlockSym>(alloc, prog, entry, bound, rules),
        Language::Object => verdict::<ObjectSym>(alloc, prog, entry, bound, rules),
    }
}

/// The name of the memory of a language's programs.
pub fn memory_name(language: Language) -> MemoryName
    ensures { result ≡ (definition_of language).memory.name }
{
    match language {
        Language::GilRecord => MemoryName::Record,
        Language::GilBlock => MemoryName::Block,
        Language::GilObject => MemoryName::Object,
        Language::While => MemoryName::Record,
        Language::Clike => MemoryName::Block,
        Language::Object => MemoryName::Object,
    }
}

/// An answer for each specification of a program.
pub fn check_in(
    alloc: Global,
    language: Language,
    prog: &Prog,
    bound: Bound,
    rules: &RuleBook,
) -> Result<Answers, AllocError>
    requires { HasModes (prog_view prog.now) (definition_of language).memory.name }
    ensures { IfOk result (λ answers. AreRightAnswers (definition_of language).memory.name (definition_of language).memory.actions
        (definition_of language).memory.keeps_plain bound.steps (prog_view prog.now) (map answer_view answers)) }
{
    match language {
        Language::GilRecord => checked::<RecordSym>(alloc, prog, bound, rules),
        Language::GilBlock => checked::<BlockSym>(alloc, prog, bound, rules),
        Language::GilObject => checked::<ObjectSym>(alloc, prog, bound, rules),
        Language::While => checked::<RecordSym>(alloc, prog, bound, rules),
        Language::Clike => checked::<BlockSym>(alloc, prog, bound, rules),
        Language::Object => checked::<ObjectSym>(alloc, prog, bound, rules),
    }
}

/// The specifications of a procedure that are found within a bound.
pub fn infer_in(
    alloc: Global,
    language: Language,
    prog: &Prog,
    entry: &Text,
    bound: Bound,
    rules: &RuleBook,
) -> Result<Answers, AllocError>
    requires { IsSome (find_proc (prog_view prog.now).procs entry.now) }
    ensures { IfOk result (λ answers. AreRightFounds (definition_of language).memory (prog_view prog.now) entry.now bound.steps
        (map answer_view answers)) }
{
    match language {
        Language::GilRecord => inferred::<RecordSym>(alloc, prog, entry, bound, rules),
        Language::GilBlock => inferred::<BlockSym>(alloc, prog, entry, bound, rules),
        Language::GilObject => inferred::<ObjectSym>(alloc, prog, entry, bound, rules),
        Language::While => inferred::<RecordSym>(alloc, prog, entry, bound, rules),
        Language::Clike => inferred::<BlockSym>(alloc, prog, entry, bound, rules),
        Language::Object => inferred::<ObjectSym>(alloc, prog, entry, bound, rules),
    }
}
