//! What words ask for.
ghost use Rattle.std.specs.Prelude.{◌≤◌};

use gil_values::{Text, Values};

/// The language of a program's text.
#[derive(Clone, Copy, Debug, PartialEq, Eq)]
pub enum Language {
    /// GIL over records.
    GilRecord,
    /// GIL over blocks.
    GilBlock,
    /// GIL over objects.
    GilObject,
    /// While, over records.
    While,
    /// The C-like language, over blocks.
    Clike,
    /// The object language, over objects.
    Object,
}

impl Language {
    ghost use Rattle.std.specs.Prelude.{◌≡◌, ◌≢◌, IfSome, IfNone};
    ghost use Rattle.gillian_words.specs.declared.tasks.Language.{Language};
    ghost use Rattle.gillian_words.specs.Tasks.{language_word};

    /// The word of the language.
    pub fn word(self) -> &'static str
        ensures { result.now ≡ language_word self }
    {
        match self {
            Language::GilRecord => "gil-record",
            Language::GilBlock => "gil-block",
            Language::GilObject => "gil-object",
            Language::While => "while",
            Language::Clike => "clike",
            Language::Object => "object",
        }
    }

    /// The language of a word.
    pub(crate) fn of_word(word: &str) -> Option<Language>
        ensures some { IfSome result (λ language. word.now ≡ language_word language) }
        ensures none { IfNone result ((language : Language) → word.now ≢ language_word language) }
    {
        match word {
            "gil-record" => Some(Language::GilRecord),
            "gil-block" => Some(Language::GilBlock),
            "gil-object" => Some(Language::GilObject),
            "while" => Some(Language::While),
            "clike" => Some(Language::Clike),
            "object" => Some(Language::Object),
            _ => None,
        }
    }
}

/// The most steps of a run: at most 10,000.
#[derive(Clone, Copy, Debug)]
pub struct Bound {
    pub steps: u32,
    pub ghost within: { steps ≤ 10000 },
}

/// How many assertions a made program has: from 1 to 1,000.
#[derive(Clone, Copy, Debug)]
pub struct Size {
    pub assertions: u32,
    pub ghost least: { 1 ≤ assertions },
    pub ghost most: { assertions ≤ 1000 },
}

/// What is asked for: a mode, with what it works on and its options. Contracts see it as its pure data, by `task_view`.
#[derive(Debug, Drop)]
pub enum Task {
    /// One run of the entry on these inputs, which draws take in order.
    Run {
        language: Language,
        entry: Text,
        bound: Bound,
        inputs: Values,
    },
    /// A test of the entry for all inputs.
    Test {
        language: Language,
        entry: Text,
        bound: Bound,
    },
    /// A check of the specifications of the program.
    Check {
        language: Language,
        bound: Bound,
    },
    /// The specifications of the entry, which may have parameters.
    Infer {
        language: Language,
        entry: Text,
        bound: Bound,
    },
    /// The program as GIL text.
    Compile {
        language: Language,
    },
    /// A solution of a list of atoms.
    Solve,
    /// A test of a made program.
    Sweep {
        size: Size,
    },
}

/// What words ask for, with the form of its report. Contracts see it as its pure data, by `request_view`.
#[derive(Debug, Drop)]
pub struct Request {
    pub task: Task,
    /// Whether the report is to be JSON.
    pub json: bool,
}

impl Task {
    ghost use Rattle.std.specs.Prelude.{◌≡◌};
    ghost use Rattle.gillian_words.specs.Tasks.{has_report, reads_source};
    ghost use Rattle.gillian_words.specs.View.{task_view};

    /// Whether a report is written of it. A program is none.
    pub fn has_report(&self) -> bool
        ensures { result ≡ has_report (task_view self.now) }
    {
        match self {
            Task::Compile { .. } => false,
            Task::Run { .. }
            | Task::Test { .. }
            | Task::Check { .. }
            | Task::Infer { .. }
            | Task::Solve
            | Task::Sweep { .. } => true,
        }
    }

    /// Whether it is done with the text of the source. A made program needs none.
    pub fn reads_source(&self) -> bool
        ensures { result ≡ reads_source (task_view self.now) }
    {
        match self {
            Task::Sweep { .. } => false,
            Task::Run { .. }
            | Task::Test { .. }
            | Task::Check { .. }
            | Task::Infer { .. }
            | Task::Compile { .. }
            | Task::Solve => true,
        }
    }
}
