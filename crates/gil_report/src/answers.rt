//! The answers that reports give.
use crate::proofs::NamedProof;
use gil_syntax::{Expr, Spec};
use gil_values::{Place, Text, Value, Values};
use pure_terms::{Choices, Sort};
use sequence::Sequence;

/// A variable and its value.
#[derive(Debug, Drop)]
pub struct Binding {
    pub name: Text,
    pub value: Value,
}

pub type Bindings = Sequence<Binding>;

/// What is said of an expression: that it is true, or that it has a value, in a place where the analysis would need its
/// literal form.
#[derive(Debug, Drop)]
pub enum Condition {
    Holds(Expr),
    Open(Expr),
}

pub type Conditions = Sequence<Condition>;

/// The conditions of a path that aren't decided.
#[derive(Debug, Drop)]
pub struct Question {
    /// The command at which they are asked about.
    pub place: Place,
    /// The choices that lead there.
    pub path: Choices,
    /// The sorts of the variables 0, 1, 2 and so on.
    pub vars: Sequence<Sort>,
    /// What is assumed.
    pub given: Conditions,
    /// What is asked.
    pub query: Conditions,
    /// The place in `query` of a condition that keeps it out of the fragment.
    pub outside: usize,
}

/// A path, with values under which it is taken.
#[derive(Debug, Drop)]
pub struct Witness {
    /// The command at which it ends.
    pub place: Place,
    /// The choices that lead there.
    pub path: Choices,
    pub with: Bindings,
}

/// What a path of a specification lacks.
#[derive(Clone, Copy, Debug, PartialEq, Eq)]
pub enum Lack {
    /// A chunk that an action needs.
    Missing,
    /// The postcondition, where it returns.
    Post,
    /// An invariant.
    Invariant,
    /// The precondition of a specification that it uses.
    CallPre,
    /// The case of a predicate that it folds.
    FoldBody,
    /// An end within the bound.
    Cut,
}

/// Why a specification isn't verified.
#[derive(Debug, Drop)]
pub enum Cause {
    /// A path fails with the value.
    Fails(Value, Witness),
    Lacks(Lack, Witness),
    Undecided(Question),
    /// It uses the specification of this procedure, which isn't verified.
    Depends(Text),
}

/// An answer, with the name of the procedure where it is one of a list of specifications.
#[derive(Debug)]
pub enum Answer {
    // ---- how a run ends
    Returned(Value),
    Failed(Value, Place),
    Vanished,
    /// As many steps were done as the bound has, without an end.
    Cut,
    /// The draw with this number, from 1, has no input.
    NoInput(u32),
    /// The input of the draw with this number has another kind.
    BadInput(u32),
    /// A result at this place leaves 128 bits.
    Number(Place),

    // ---- the verdict of a test
    /// No run fails.
    Clean,
    /// A run on these inputs fails with the value at the place, and draws each input.
    Bug {
        place: Place,
        value: Value,
        inputs: Values,
    },
    Undecided(Question),

    // ---- specifications
    Verified(Text),
    /// The proof shows that nothing meets the precondition.
    Vacuous(Text, NamedProof),
    Unproved(Text, Cause),
    /// A specification that was found. Where it is cut, a path reached the bound.
    Found {
        spec: Spec,
        cut: bool,
    },

    // ---- the solution of a list of atoms
    /// These values make every atom true.
    Sat(Bindings),
    /// This proof shows that no values make every atom true.
    Unsat(NamedProof),
    /// The list isn't in the fragment. The place of an atom that keeps it out.
    Unknown(usize),

    // ---- made texts
    /// The length of the made text.
    Bytes(usize),
}

pub type Answers = Sequence<Answer>;

// Written out, so that code which may drop an answer calls this, and isn't made longer by it.
impl Drop for Answer {
    fn drop(self) {
        match self {
            Answer::Bug {
                place: _,
                value: _,
                inputs: _,
            } => {}
            Answer::Found { spec: _, cut: _ } => {}
            Answer::Undecided(_) => {}
            Answer::Returned(_) => {}
            Answer::Failed(_, _) => {}
            Answer::Verified(_) => {}
            Answer::Vacuous(_, _) => {}
            Answer::Unproved(_, _) => {}
            Answer::Sat(_) => {}
            Answer::Unsat(_) => {}
            Answer::Number(_) => {}
            Answer::NoInput(_) | Answer::BadInput(_) => {}
            Answer::Unknown(_) | Answer::Bytes(_) => {}
            Answer::Clean | Answer::Vanished | Answer::Cut => {}
        }
    }
}
