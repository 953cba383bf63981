//! The verdict on a text.
ghost use Rattle.std.specs.Prelude.{IfOk, IfErr};
ghost use Rattle.gillian_words.specs.Tasks.{test};
ghost use Rattle.gil_report.specs.View.{answer_view};
ghost use Rattle.gillian_core.specs.Finishing.{IsNoOutput};
ghost use Rattle.gillian_core.specs.Languages.{definition_of};
ghost use Rattle.gillian_core.specs.Right.{IsRightTest};

use crate::entries::program_with;
use crate::languages::verdict_in;
use crate::refusals::or_memory;
use gil_report::Answer;
use gil_text::Refused;
use gil_values::Text;
use gillian_words::{Bound, Language};
use rewrite_book::RuleBook;
use std::alloc::Global;

/// Whether some inputs make the entry of a text fail within the bound.
pub fn verdict_on(
    alloc: Global,
    language: Language,
    entry: &Text,
    bound: Bound,
    rules: &RuleBook,
    bytes: &[u8],
) -> Result<Answer, Refused>
    ensures verdict { IfOk result (λ answer. IsRightTest (definition_of language) entry.now bound.steps bytes.now (answer_view answer)) }
    ensures none { IfErr result (IsNoOutput (test language entry.now bound.steps) bytes.now) }
{
    let prog = program_with(alloc, language, entry, bytes)?;
    let answer = or_memory(verdict_in(alloc, language, &prog, entry, bound, rules))?;
    Ok(answer)
}
