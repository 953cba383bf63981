//! What is found out of specifications, and what is answered.
ghost use Rattle.std.specs.Prelude.{◌≡◌};

use gil_syntax::Texts;
use gil_values::Text;
use sequence::Sequence;
use solver_proof::Proof;

/// What was found out of a specification by itself, where those that it uses are taken to hold.
#[derive(Debug, Drop)]
pub enum Finding<C> {
    /// No checked run of it has a fault, and it uses only the specifications of these names.
    Clean(Texts),
    /// The proof shows that nothing meets its precondition.
    Vacuous(Proof),
    /// Why it isn't verified.
    Caused(C),
}

/// A specification by its name, and what was found out of it.
#[derive(Debug)]
pub struct Examined<C> {
    pub name: Text,
    pub finding: Finding<C>,
}

// Written out, so that code which may drop one calls this, and isn't made longer by it.
impl<C: Drop> Drop for Examined<C> {
    fn drop(self) {
        let Examined {
            name: _,
            finding: _,
        } = self;
    }
}

impl<C: Drop> Examined<C> {
    /// The name and what was found.
    pub fn into_parts(self) -> (Text, Finding<C>)
        ensures name { result.0 ≡ self.name }
        ensures finding { result.1 ≡ self.finding }
    {
        let Examined { name, finding } = self;
        (name, finding)
    }
}

pub type Examinations<C> = Sequence<Examined<C>>;

/// What is answered of a specification.
#[derive(Debug, Drop)]
pub enum Verdict<C> {
    Verified,
    /// It holds, since nothing meets its precondition, as the proof shows.
    Vacuous(Proof),
    Unproved(C),
    /// It uses the specification of this name, which isn't verified.
    DependsOn(Text),
}

#[derive(Debug, Drop)]
pub struct SpecAnswer<C> {
    pub name: Text,
    pub verdict: Verdict<C>,
}

pub type SpecAnswers<C> = Sequence<SpecAnswer<C>>;
