//! Reading what words ask for.
ghost use Rattle.std.specs.Prelude.{◌≡◌, ◌≢◌, Some, None, IfOk, IsErrOf, codes};
ghost use Rattle.std.specs.Option.{option_map};
ghost use Rattle.gillian_words.specs.declared.tasks.Language.{Language};
ghost use Rattle.gillian_words.specs.Asked.{AskFor, Asks, AsksTask, is_given};
ghost use Rattle.gillian_words.specs.Line.{spelled};
ghost use Rattle.gillian_words.specs.Tasks.{PureRequest, PureTask, language_word};
ghost use Rattle.gillian_words.specs.View.{given_view, request_view, task_view};

use crate::line::{Given, match_words};
use crate::options::{bound_option, entry_option, given_size, inputs_option, no_option};
use crate::tasks::{Language, Request, Task};
use std::alloc::{AllocError, Global};
use thiserror::Error;

/// Why there is nothing that words ask for.
#[derive(Clone, Copy, Debug, Drop, PartialEq, Eq, Error)]
pub enum WordsFault {
    /// The words don't fit.
    #[error("the words don't fit")]
    Refused,
    #[error("out of memory")]
    Memory,
}

impl From<AllocError> for WordsFault {
    ghost use Rattle.std.specs.Prelude.{◌≡◌};
    ghost use Rattle.gillian_words.specs.declared.asked.WordsFault.TheVariants.{Memory};

    ghost from_gives = { λ _ e. e ≡ Memory };

    fn from(_fault: AllocError) -> WordsFault {
        WordsFault::Memory
    }
}

/// What the words ask for, the program's name first, which isn't looked at. They are refused exactly where they ask for
/// nothing that is built.
pub fn read_words(alloc: Global, words: &Vec<String>) -> Result<Request, WordsFault>
    ensures asked { IfOk result (λ request. AskFor (spelled words.now) (request_view request)) }
    ensures refused { IsErrOf result WordsFault.Refused → (r : PureRequest) → AskFor (spelled words.now) r → ⊥ }
{
    match match_words(alloc, words)? {
        Some(given) => request_of(alloc, &given),
        None => Err(WordsFault::Refused),
    }
}

/// What is asked by what is given, with the form of the report. Only a mode with a report takes the flag.
fn request_of(alloc: Global, given: &Given) -> Result<Request, WordsFault>
    ensures asked { IfOk result (λ request. Asks (given_view given.now) (request_view request)) }
    ensures refused { IsErrOf result WordsFault.Refused → (r : PureRequest) → Asks (given_view given.now) r → ⊥ }
{
    let task = task_of(alloc, given)?;
    let json = is_given(given.json);
    if json && !task.has_report() {
        return Err(WordsFault::Refused);
    }
    Ok(Request { task, json })
}

/// What is asked by what is given, the form of the report aside.
fn task_of(alloc: Global, given: &Given) -> Result<Task, WordsFault>
    ensures asked { IfOk result (λ task. AsksTask (given_view given.now) (task_view task)) }
    ensures refused { IsErrOf result WordsFault.Refused → (t : PureTask) → AsksTask (given_view given.now) t → ⊥ }
{
    let Some(mode) = given.mode else {
        return Err(WordsFault::Refused);
    };
    match mode {
        "run" => run_of(alloc, given),
        "test" => test_of(alloc, given),
        "check" => check_of(given),
        "infer" => infer_of(alloc, given),
        "compile" => compile_of(given),
        "solve" => solve_of(given),
        "sweep" => sweep_of(given),
        _ => Err(WordsFault::Refused),
    }
}

/// The run that is asked for.
fn run_of(alloc: Global, given: &Given) -> Result<Task, WordsFault>
    requires mode { option_map (λ s. s.now) given.now.mode ≡ Some (codes "run") }
    ensures asked { IfOk result (λ task. AsksTask (given_view given.now) (task_view task)) }
    ensures refused { IsErrOf result WordsFault.Refused → (t : PureTask) → AsksTask (given_view given.now) t → ⊥ }
{
    let language = language_of(given.second)?;
    let entry = entry_option(alloc, given.entry)?;
    let bound = bound_option(given.bound)?;
    let inputs = inputs_option(alloc, given.inputs)?;
    Ok(Task::Run {
        language,
        entry,
        bound,
        inputs,
    })
}

/// The test that is asked for.
fn test_of(alloc: Global, given: &Given) -> Result<Task, WordsFault>
    requires mode { option_map (λ s. s.now) given.now.mode ≡ Some (codes "test") }
    ensures asked { IfOk result (λ task. AsksTask (given_view given.now) (task_view task)) }
    ensures refused { IsErrOf result WordsFault.Refused → (t : PureTask) → AsksTask (given_view given.now) t → ⊥ }
{
    let language = language_of(given.second)?;
    let entry = entry_option(alloc, given.entry)?;
    let bound = bound_option(given.bound)?;
    no_option(given.inputs)?;
    Ok(Task::Test {
        language,
        entry,
        bound,
    })
}

/// The check that is asked for.
fn check_of(given: &Given) -> Result<Task, WordsFault>
    requires mode { option_map (λ s. s.now) given.now.mode ≡ Some (codes "check") }
    ensures asked { IfOk result (λ task. AsksTask (given_view given.now) (task_view task)) }
    ensures refused { IsErrOf result WordsFault.Refused → (t : PureTask) → AsksTask (given_view given.now) t → ⊥ }
{
    let language = language_of(given.second)?;
    no_option(given.entry)?;
    let bound = bound_option(given.bound)?;
    no_option(given.inputs)?;
    Ok(Task::Check { language, bound })
}

/// The inference that is asked for.
fn infer_of(alloc: Global, given: &Given) -> Result<Task, WordsFault>
    requires mode { option_map (λ s. s.now) given.now.mode ≡ Some (codes "infer") }
    ensures asked { IfOk result (λ task. AsksTask (given_view given.now) (task_view task)) }
    ensures refused { IsErrOf result WordsFault.Refused → (t : PureTask) → AsksTask (given_view given.now) t → ⊥ }
{
    let language = language_of(given.second)?;
    let entry = entry_option(alloc, given.entry)?;
    let bound = bound_option(given.bound)?;
    no_option(given.inputs)?;
    Ok(Task::Infer {
        language,
        entry,
        bound,
    })
}

/// The compilation that is asked for.
fn compile_of(given: &Given) -> Result<Task, WordsFault>
    requires mode { option_map (λ s. s.now) given.now.mode ≡ Some (codes "compile") }
    ensures asked { IfOk result (λ task. AsksTask (given_view given.now) (task_view task)) }
    ensures refused { IsErrOf result WordsFault.Refused → (t : PureTask) → AsksTask (given_view given.now) t → ⊥ }
{
    let language = language_of(given.second)?;
    no_option(given.entry)?;
    no_option(given.bound)?;
    no_option(given.inputs)?;
    Ok(Task::Compile { language })
}

/// The solution that is asked for.
fn solve_of(given: &Given) -> Result<Task, WordsFault>
    requires mode { option_map (λ s. s.now) given.now.mode ≡ Some (codes "solve") }
    ensures asked { IfOk result (λ task. AsksTask (given_view given.now) (task_view task)) }
    ensures refused { IsErrOf result WordsFault.Refused → (t : PureTask) → AsksTask (given_view given.now) t → ⊥ }
{
    atoms_alone(given.second)?;
    no_option(given.entry)?;
    no_option(given.bound)?;
    no_option(given.inputs)?;
    Ok(Task::Solve)
}

/// The sweep that is asked for.
fn sweep_of(given: &Given) -> Result<Task, WordsFault>
    requires mode { option_map (λ s. s.now) given.now.mode ≡ Some (codes "sweep") }
    ensures asked { IfOk result (λ task. AsksTask (given_view given.now) (task_view task)) }
    ensures refused { IsErrOf result WordsFault.Refused → (t : PureTask) → AsksTask (given_view given.now) t → ⊥ }
{
    let size = given_size(given.second)?;
    no_option(given.entry)?;
    no_option(given.bound)?;
    no_option(given.inputs)?;
    Ok(Task::Sweep { size })
}

/// The language that a word names.
fn language_of(word: Option<&str>) -> Result<Language, WordsFault>
    ensures named { IfOk result (λ language. option_map (λ s. s.now) word.entry ≡ Some (language_word language)) }
    ensures refused { IsErrOf result WordsFault.Refused → (language : Language)
        → option_map (λ s. s.now) word.entry ≢ Some (language_word language) }
{
    match word.and_then(Language::of_word) {
        Some(language) => Ok(language),
        None => Err(WordsFault::Refused),
    }
}

/// What isn't the word for lists of atoms is refused.
fn atoms_alone(word: Option<&str>) -> Result<(), WordsFault>
    ensures named { IfOk result (λ _. option_map (λ s. s.now) word.entry ≡ Some (codes "atoms")) }
    ensures refused { IsErrOf result WordsFault.Refused → option_map (λ s. s.now) word.entry ≢ Some (codes "atoms") }
{
    match word {
        Some(word) if word == "atoms" => Ok(()),
        _ => Err(WordsFault::Refused),
    }
}

/// Whether a flag is given.
fn is_given(word: Option<&str>) -> bool
    ensures { result ≡ is_given (option_map (λ s. s.now) word.entry) }
{
    match word {
        Some(word) => word == "true",
        None => false,
    }
}
