//! From what was found out of each specification to the answers.
ghost use Rattle.std.specs.Prelude.{◌≡◌, IfOk, OnOk, map};
ghost use Rattle.spec_answers.specs.Answering.{entry_of, verdict_of, answer_of, answers_of, AddsAnswer};
ghost use Rattle.spec_answers.specs.Holding.{AnswersAreRight};

use crate::answers::{Examinations, Examined, Finding, SpecAnswer, SpecAnswers, Verdict};
use gil_syntax::Texts;
use gil_values::Text;
use sequence::Sequence;
use spec_dependencies::{Entries, Entry, Standing, settle_dependencies};
use std::alloc::{AllocError, Global};

fn copy_names(alloc: Global, names: &Texts) -> Result<Texts, AllocError>
    ensures { IfOk result (λ copies. copies ≡ names.now) }
{
    let mut copies = Sequence::new(alloc);
    for name in names.as_slice() {
        copies.push(name.copy(alloc)?)?;
    }
    Ok(copies)
}

/// A specification as one of those that may depend on others.
fn entry_of<C: Drop>(alloc: Global, examined: &Examined<C>) -> Result<Entry, AllocError>
    ensures { IfOk result (λ entry. entry ≡ entry_of examined.now) }
{
    let name = examined.name.copy(alloc)?;
    match &examined.finding {
        Finding::Clean(names) => Ok(Entry {
            name,
            uses: copy_names(alloc, names)?,
            standing: Standing::Sound,
        }),
        Finding::Vacuous(_) => Ok(Entry {
            name,
            uses: Sequence::new(alloc),
            standing: Standing::Sound,
        }),
        Finding::Caused(_) => Ok(Entry {
            name,
            uses: Sequence::new(alloc),
            standing: Standing::Caused,
        }),
    }
}

fn entries_of<C: Drop>(alloc: Global, examined: &Examinations<C>) -> Result<Entries, AllocError>
    ensures { IfOk result (λ entries. entries ≡ map entry_of examined.now) }
{
    let mut entries = Sequence::new(alloc);
    for one in examined.as_slice() {
        entries.push(entry_of(alloc, one)?)?;
    }
    Ok(entries)
}

/// What is answered where the specification stands so beside the others.
fn verdict_of<C: Drop>(
    alloc: Global,
    finding: Finding<C>,
    standing: &Standing,
) -> Result<Verdict<C>, AllocError>
    ensures { IfOk result (λ verdict. verdict ≡ verdict_of finding standing.now) }
{
    match finding {
        Finding::Clean(_) => match standing {
            Standing::Depends(name) => Ok(Verdict::DependsOn(name.copy(alloc)?)),
            Standing::Sound | Standing::Caused => Ok(Verdict::Verified),
        },
        Finding::Vacuous(proof) => Ok(Verdict::Vacuous(proof)),
        Finding::Caused(cause) => Ok(Verdict::Unproved(cause)),
    }
}

fn answer_of<C: Drop>(
    alloc: Global,
    examined: Examined<C>,
    entry: &Entry,
) -> Result<SpecAnswer<C>, AllocError>
    ensures { IfOk result (λ answer. answer ≡ answer_of examined entry.now) }
{
    let (name, finding) = examined.into_parts();
    let verdict = verdict_of(alloc, finding, &entry.standing)?;
    Ok(SpecAnswer { name, verdict })
}

/// Adds the answer of a specification, which stands as the entry at the place of the answer.
fn add_answer<C: Drop>(
    alloc: Global,
    answers: &mut SpecAnswers<C>,
    examined: Examined<C>,
    entries: &Entries,
) -> Result<(), AllocError>
    ensures { OnOk result (AddsAnswer examined entries.now answers.old answers.new) }
{
    match entries.get(answers.len()) {
        Some(entry) => {
            answers.push(answer_of(alloc, examined, entry)?)?;
            Ok(())
        }
        None => Ok(()),
    }
}

/// The answers of specifications, each of which stands as the entry at its place.
fn answers_of<C: Drop>(
    alloc: Global,
    examined: Examinations<C>,
    entries: &Entries,
) -> Result<SpecAnswers<C>, AllocError>
    ensures { IfOk result (λ answers. answers ≡ answers_of examined entries.now) }
{
    let mut answers = Sequence::new(alloc);
    for one in examined.into_vec() {
        add_answer(alloc, &mut answers, one, entries)?;
    }
    Ok(answers)
}

/// One answer for each specification, in order: those that have no cause of their own are verified where all that they use are, and
/// of the others each depends on one that it uses.
pub fn answer_specifications<C: Drop>(
    alloc: Global,
    examined: Examinations<C>,
) -> Result<SpecAnswers<C>, AllocError>
    ensures { IfOk result (λ answers. AnswersAreRight examined answers) }
{
    let entries = entries_of(alloc, &examined)?;
    let settled = settle_dependencies(alloc, entries)?;
    answers_of(alloc, examined, &settled)
}
