//! Lists of the fragment and others, decided and refuted without rules.
ghost use Rattle.pure_terms.specs.Meaning.{AreOver};
ghost use Rattle.pure_terms.specs.View.{atoms_view};

use crate::reading::list;
use path_solver::PathSolver;
use pure_terms::{Atoms, Decider, Decision, Reason, VarTable};
use solver_proof::Refuter;
use std::alloc::{AllocError, Global};
use std::test::Fail;

#[derive(Clone, Copy, PartialEq, Eq)]
enum Answer {
    Sat,
    /// No values make every atom true, and there is a proof.
    Refuted,
    /// The atom at this place keeps the list out of the fragment.
    Unknown(usize),
}

const ROWS: [(&str, Answer); 4] = [
    ("(0 = 0);", Answer::Sat),
    ("(a = x); (a = y); (x < y);", Answer::Refuted),
    ("(x < 1); ((x * 1) = 6);", Answer::Unknown(1)),
    (
        "not(((x * y) = (y * x))); (x < y); (y < x);",
        Answer::Refuted,
    ),
];

#[test]
fn lists_are_decided_and_refuted(rt: HostRuntime) -> Result<(), Fail> {
    let alloc = rt.alloc();
    let mut solver = PathSolver::new(alloc);
    for (stated, wanted) in ROWS {
        let text = list(alloc, stated)?;
        let answer = answer_of(alloc, &mut solver, &text.vars, &text.atoms)?;
        assert!(rt; answer == Some(wanted), "{stated}");
    }
    Ok(())
}

/// Lists that are decided with the sorts that they say, and refuted by no proof.
const SORTED: [(&str, Answer); 5] = [
    ("(kind(a) = Int); (a < x); (x < a);", Answer::Refuted),
    (
        "(kind(a) = Int); (kind(c) = Int); (0 <= a); (a < c); not((0 <= (a + 1)));",
        Answer::Refuted,
    ),
    (
        "(kind(a) = Str); ([a] = [\"b\"]); (a = \"c\");",
        Answer::Refuted,
    ),
    (
        "(kind(a) = Int); (kind(c) = Int); (a < c); (c < (a + 2));",
        Answer::Sat,
    ),
    ("(kind(a) = Int); ((a * a) = 2);", Answer::Unknown(1)),
];

#[test]
fn lists_are_decided_with_the_sorts_that_they_say(rt: HostRuntime) -> Result<(), Fail> {
    let alloc = rt.alloc();
    let mut solver = PathSolver::new(alloc);
    for (stated, wanted) in SORTED {
        let text = list(alloc, stated)?;
        let answer = named(solver.decide(alloc, &text.vars, &text.atoms)?);
        assert!(rt; answer == wanted, "{stated}");
    }
    Ok(())
}

/// Lists that begin alike.
const TURNED: [&str; 9] = [
    "(x < y);",
    "(x < y); (y < z);",
    "(x < y); (y < z); (z < x);",
    "(x < y); (y < z); (z < x); (w < x);",
    "(x < y); (y < z); (w < x); not((w = 0));",
    "(x < y); (y < x);",
    "(x < y); (a = x); (c = y); not((a = c));",
    "(x < y); (a = x); (c = y); (a = c);",
    "(x < y); ((x * x) = 2);",
];

#[test]
fn what_stands_is_answered_as_it_is_anew(rt: HostRuntime) -> Result<(), Fail> {
    let alloc = rt.alloc();
    let mut solver = PathSolver::new(alloc);
    let mut pick: usize = 1;
    for _ in 0..100 {
        pick = (pick * 21 + 17) % 64;
        let stated = TURNED[pick % TURNED.len()];
        let text = list(alloc, stated)?;
        let kept = named(solver.decide(alloc, &text.vars, &text.atoms)?);
        let mut other = PathSolver::new(alloc);
        let anew = named(other.decide(alloc, &text.vars, &text.atoms)?);
        assert!(rt; kept == anew, "{stated}");
    }
    Ok(())
}

/// What a list is decided as, where a proof is found exactly if it is refuted.
fn answer_of<R: Refuter>(
    alloc: Global,
    refuter: &mut R,
    vars: &VarTable,
    atoms: &Atoms,
) -> Result<Option<Answer>, AllocError>
    requires { AreOver vars.now (atoms_view atoms.now) }
{
    let decided = named(refuter.decide(alloc, vars, atoms)?);
    let is_proved = refuter.refute(alloc, vars, atoms)?.is_some();
    if is_proved == (decided == Answer::Refuted) {
        return Ok(Some(decided));
    }
    Ok(None)
}

fn named(decision: Decision) -> Answer {
    match decision {
        Decision::Sat(_) => Answer::Sat,
        Decision::Unsat => Answer::Refuted,
        Decision::Unknown(Reason::Atom(place)) => Answer::Unknown(place),
        Decision::Unknown(Reason::Number(place)) => Answer::Unknown(place),
    }
}
