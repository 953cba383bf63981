//! The mode `sweep`: a test of a made program.
ghost use Rattle.std.specs.Prelude.{◌≡◌, map, codes, IfOk};
ghost use Rattle.gil_report.specs.View.{answer_view};
ghost use Rattle.gillian_core.specs.Right.{AreRightSweep, IsRightTest};
ghost use Rattle.gillian_core.specs.WhileLanguage.{while_language};

use crate::judging::verdict_on;
use gil_report::{Answer, Answers};
use gil_values::Text;
use gillian_words::{Bound, Language, Size};
use rewrite_book::RuleBook;
use std::alloc::{AllocError, Global};
use sweep_text::sweep_text;

/// The most steps of a run of a made program.
const STEPS: u32 = 10_000;

/// The length of the made text of a size, and the verdict on it.
pub fn swept(alloc: Global, size: Size, rules: &RuleBook) -> Result<Answers, AllocError>
    ensures { IfOk result (λ answers. AreRightSweep size.assertions (map answer_view answers)) }
{
    let text = sweep_text(alloc, size.assertions)?;
    let verdict = made_verdict(alloc, rules, &text)?;
    let mut answers = Answers::new(alloc);
    answers.push(Answer::Bytes(text.len()))?;
    answers.push(verdict)?;
    Ok(answers)
}

/// The verdict on a made text. A refusal, which no made text has, is answered as want of memory.
fn made_verdict(alloc: Global, rules: &RuleBook, bytes: &[u8]) -> Result<Answer, AllocError>
    ensures { IfOk result (λ answer. IsRightTest while_language (codes "main") 10000 bytes.now (answer_view answer)) }
{
    let entry = main_name(alloc)?;
    let bound = Bound { steps: STEPS };
    match verdict_on(alloc, Language::While, &entry, bound, rules, bytes) {
        Ok(answer) => Ok(answer),
        Err(_) => Err(AllocError),
    }
}

/// The name of the entry of a made program.
fn main_name(alloc: Global) -> Result<Text, AllocError>
    ensures { IfOk result (λ name. name ≡ codes "main") }
{
    match Text::from_str(alloc, "main")? {
        Some(name) => Ok(name),
        None => unreachable!(),
    }
}
