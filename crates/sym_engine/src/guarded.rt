//! The candidates of `ifgoto`.
ghost use Rattle.std.specs.Prelude.{◌≡◌, ◌+◌, ◌<◌, ◌^◌, ◌++◌, ◌∷◌, codes, IfOk, IsTrue};
ghost use Rattle.std.specs.List.{list_all};
ghost use Rattle.std.specs.Option.{option_map};
ghost use Rattle.gil_syntax.specs.Pure.{ifgoto as pure_ifgoto};
ghost use Rattle.gil_syntax.specs.Subexpressions.{literals_of};
ghost use Rattle.gil_syntax.specs.View.{expr_view};
ghost use Rattle.gil_syntax.specs.WellMade.{is_spellable};
ghost use Rattle.gil_values.specs.declared.kinds.Kind.{Kind};
ghost use Rattle.pure_terms.specs.Kinds.{allows, known_kind};
ghost use Rattle.pure_terms.specs.Rewriting.{Replaces};
ghost use Rattle.pure_terms.specs.View.{term_view, atoms_view};
ghost use Rattle.sym_engine.specs.Lawful.{AddsCopies, AreLawful, MayAdvance};
ghost use Rattle.sym_engine.specs.Narrow.{StayNarrow};
ghost use Rattle.sym_engine.specs.Plain.{StayPlain};
ghost use Rattle.sym_engine.specs.View.{candidate_view, candidates_view};
ghost use Rattle.sym_evaluation.specs.Questions.{connects, negates, stands_as_it_is, MayStandForGuard};
ghost use Rattle.sym_evaluation.specs.View.{good_view, sides_view};
ghost use Rattle.sym_paths.specs.Moves.{advanced, running_store};
ghost use Rattle.sym_paths.specs.View.{frames_view, path_view};
ghost use Rattle.sym_paths.specs.Cases.{failing_with};
ghost use Rattle.sym_paths.specs.Guards.{at_label, for_side, turning, turns};

use crate::candidates::{Candidate, Candidates, assume, fail_with, require_both};
use crate::frames::{advance, go_to};
use crate::valued::{evaluate_in, fail_each};
use gil_syntax::Expr;
use gil_values::{BinOp, Kind, Place, Text, UnOp};
use pure_terms::{Atom, Atoms, Literal, Term};
use rewrite_book::{RuleBook, simplify};
use sequence::Sequence;
use std::alloc::{AllocError, Global};
use std::rc::Rc;
use sym_evaluation::{Cases, GoodCase, Sides, guard_sides};
use sym_model::SymMemory;
use sym_paths::Path;

/// Whether the term's value may be a boolean, by the term's form and its variables' sorts.
fn may_be_boolean(term: &Term) -> bool
    ensures { result ≡ allows (known_kind (term_view term.now)) Kind.Bool }
{
    match term.known_kind() {
        Some(kind) => kind == Kind::Bool,
        None => true,
    }
}

/// `not`.
fn is_negation(op: UnOp) -> bool
    ensures { result ≡ negates op }
{
    matches!(op, UnOp::Not)
}

/// `and` and `or`.
fn is_connective(op: BinOp) -> bool
    ensures { result ≡ connects op }
{
    matches!(op, BinOp::And | BinOp::Or)
}

/// A part of a guard, simplified where it is asked about and no atom of the fragment.
fn simpler_part(alloc: Global, rules: &RuleBook, term: &Term) -> Result<Term, AllocError>
    ensures replaces { IfOk result (λ t. Replaces (term_view term.now) (term_view t)) }
    ensures same { IfOk result (λ t. IsTrue (stands_as_it_is (term_view term.now)) → term_view t ≡ term_view term.now) }
{
    let said = Atom::Holds(term.copy(alloc)?);
    if said.has_fragment_form() || !may_be_boolean(term) {
        return term.copy(alloc);
    }
    simplify(alloc, rules, term.copy(alloc)?)
}

/// The term of a guard, each part of which is simplified where it is no atom of the fragment.
fn simpler(alloc: Global, rules: &RuleBook, term: &Term) -> Result<Term, AllocError>
    ensures { IfOk result (λ t. MayStandForGuard (term_view term.now) (term_view t)) }
{
    match term {
        Term::Lit(_) => term.copy(alloc),
        Term::Op1(op, operand) => {
            if !is_negation(*op) {
                return simpler_part(alloc, rules, term);
            }
            let operand = simpler(alloc, rules, operand)?;
            Ok(Term::Op1(*op, Rc::new(alloc, operand)?))
        }
        Term::Op2(op, left, right) => {
            if !is_connective(*op) {
                return simpler_part(alloc, rules, term);
            }
            let left = simpler(alloc, rules, left)?;
            let right = simpler(alloc, rules, right)?;
            Ok(Term::Op2(*op, Rc::new(alloc, left)?, Rc::new(alloc, right)?))
        }
        Term::Var(_) | Term::List(_) => simpler_part(alloc, rules, term),
    }
}

/// The path takes a side of the guard.
fn turn<M: Drop>(
    alloc: Global,
    path: Path<M>,
    side: u64,
    guard: &GoodCase<Term>,
    more: &Atoms,
) -> Result<Candidate<M>, AllocError>
    requires { path.steps + 1 < 2 ^ 32 }
    ensures { IfOk result (λ c. candidate_view c ≡ turning (path_view path) (frames_view path.stack) side
        (good_view term_view guard.now) (atoms_view more.now)) }
{
    let mut path = path;
    require_both(alloc, &mut path.conds, &guard.conds, more)?;
    path.choices.push(side)?;
    path.steps += 1;
    Ok(Candidate {
        path,
        no_fault: Sequence::new(alloc),
    })
}

/// The path goes to the label.
fn turn_to_label<M: Drop>(
    alloc: Global,
    path: Path<M>,
    label: &i64,
    guard: &GoodCase<Term>,
    more: &Atoms,
) -> Result<Candidate<M>, AllocError>
    requires { path.steps + 1 < 2 ^ 32 }
    ensures { IfOk result (λ c. candidate_view c ≡ turning (path_view path) (at_label label.now (frames_view path.stack)) 1
        (good_view term_view guard.now) (atoms_view more.now)) }
{
    let mut path = path;
    go_to(&mut path.stack, label)?;
    turn(alloc, path, 1, guard, more)
}

/// The path goes to the next command.
fn turn_to_next<M: Drop>(
    alloc: Global,
    path: Path<M>,
    guard: &GoodCase<Term>,
    more: &Atoms,
) -> Result<Candidate<M>, AllocError>
    requires steps { path.steps + 1 < 2 ^ 32 }
    requires next { MayAdvance (frames_view path.stack) }
    ensures { IfOk result (λ c. candidate_view c ≡ turning (path_view path)
        (advanced (running_store (frames_view path.stack)) (frames_view path.stack)) 0 (good_view term_view guard.now)
        (atoms_view more.now)) }
{
    let mut path = path;
    advance(&mut path.stack)?;
    turn(alloc, path, 0, guard, more)
}

/// The guard is no boolean.
fn fail_guard<M: Drop>(
    alloc: Global,
    path: Path<M>,
    here: &Place,
    guard: &GoodCase<Term>,
    more: &Atoms,
) -> Result<Candidate<M>, AllocError>
    requires { path.steps + 1 < 2 ^ 32 }
    ensures { IfOk result (λ c. candidate_view c ≡ failing_with (path_view path) here.now (codes "type")
        (good_view term_view guard.now) (atoms_view more.now)) }
{
    let mut conds = Sequence::new(alloc);
    assume(alloc, &mut conds, &guard.conds)?;
    assume(alloc, &mut conds, more)?;
    match Text::from_str(alloc, "type")? {
        Some(text) => fail_with(alloc, path, here, &conds, Term::Lit(Literal::Str(text))),
        None => unreachable!(),
    }
}

/// Adds a candidate where the guard may be no boolean.
fn add_no_boolean<M: SymMemory>(
    alloc: Global,
    candidates: Candidates<M>,
    path: Path<M>,
    here: &Place,
    guard: &GoodCase<Term>,
    when_no_boolean: Option<Atoms>,
) -> Result<Candidates<M>, AllocError>
    requires { path.steps + 1 < 2 ^ 32 }
    ensures { IfOk result (λ cs. AddsCopies M.stands M.terms M.depends M.plain
        (for_side (failing_with (path_view path) here.now (codes "type") (good_view term_view guard.now))
        (option_map atoms_view when_no_boolean)) (candidates_view candidates) (candidates_view cs)) }
{
    let mut candidates = candidates;
    match when_no_boolean {
        Some(more) => {
            candidates.push(fail_guard(alloc, path, here, guard, &more)?)?;
            Ok(candidates)
        }
        None => Ok(candidates),
    }
}

/// Adds a candidate where the guard may be false, and one where it may be no boolean.
fn add_false<M: SymMemory>(
    alloc: Global,
    candidates: Candidates<M>,
    path: Path<M>,
    here: &Place,
    guard: &GoodCase<Term>,
    when_false: Option<Atoms>,
    when_no_boolean: Option<Atoms>,
) -> Result<Candidates<M>, AllocError>
    requires steps { path.steps + 1 < 2 ^ 32 }
    requires next { MayAdvance (frames_view path.stack) }
    ensures { IfOk result (λ cs. AddsCopies M.stands M.terms M.depends M.plain
        (for_side (turning (path_view path) (advanced (running_store (frames_view path.stack)) (frames_view path.stack)) 0
        (good_view term_view guard.now)) (option_map atoms_view when_false)
        ++ for_side (failing_with (path_view path) here.now (codes "type") (good_view term_view guard.now))
        (option_map atoms_view when_no_boolean)) (candidates_view candidates) (candidates_view cs)) }
{
    let mut candidates = candidates;
    match when_false {
        None => add_no_boolean(alloc, candidates, path, here, guard, when_no_boolean),
        Some(more) => match when_no_boolean {
            None => {
                candidates.push(turn_to_next(alloc, path, guard, &more)?)?;
                Ok(candidates)
            }
            Some(otherwise) => {
                let copy = path.copy(alloc)?;
                candidates.push(turn_to_next(alloc, copy, guard, &more)?)?;
                add_no_boolean(alloc, candidates, path, here, guard, Some(otherwise))
            }
        },
    }
}

/// Adds a candidate where the guard may be true, and those of the other sides. Where there is no other, it takes the path itself.
fn add_true<M: SymMemory>(
    alloc: Global,
    candidates: Candidates<M>,
    path: Path<M>,
    here: &Place,
    label: &i64,
    guard: &GoodCase<Term>,
    when_true: &Atoms,
    when_false: Option<Atoms>,
    when_no_boolean: Option<Atoms>,
) -> Result<Candidates<M>, AllocError>
    requires steps { path.steps + 1 < 2 ^ 32 }
    requires next { MayAdvance (frames_view path.stack) }
    ensures { IfOk result (λ cs. AddsCopies M.stands M.terms M.depends M.plain
        (turning (path_view path) (at_label label.now (frames_view path.stack)) 1 (good_view term_view guard.now) (atoms_view when_true.now)
        ∷ (for_side (turning (path_view path) (advanced (running_store (frames_view path.stack)) (frames_view path.stack)) 0
        (good_view term_view guard.now)) (option_map atoms_view when_false)
        ++ for_side (failing_with (path_view path) here.now (codes "type") (good_view term_view guard.now))
        (option_map atoms_view when_no_boolean))) (candidates_view candidates) (candidates_view cs)) }
{
    let mut candidates = candidates;
    match when_false {
        None => match when_no_boolean {
            None => {
                candidates.push(turn_to_label(alloc, path, label, guard, when_true)?)?;
                Ok(candidates)
            }
            Some(otherwise) => {
                let copy = path.copy(alloc)?;
                candidates.push(turn_to_label(alloc, copy, label, guard, when_true)?)?;
                add_no_boolean(alloc, candidates, path, here, guard, Some(otherwise))
            }
        },
        Some(more) => {
            let copy = path.copy(alloc)?;
            candidates.push(turn_to_label(alloc, copy, label, guard, when_true)?)?;
            add_false(
                alloc,
                candidates,
                path,
                here,
                guard,
                Some(more),
                when_no_boolean,
            )
        }
    }
}

/// Adds a candidate for each side of the guard.
fn add_sides<M: SymMemory>(
    alloc: Global,
    candidates: Candidates<M>,
    path: Path<M>,
    here: &Place,
    label: &i64,
    guard: &GoodCase<Term>,
    sides: Sides,
) -> Result<Candidates<M>, AllocError>
    requires steps { path.steps + 1 < 2 ^ 32 }
    requires next { MayAdvance (frames_view path.stack) }
    ensures { IfOk result (λ cs. AddsCopies M.stands M.terms M.depends M.plain
        (turns (path_view path) label.now here.now (good_view term_view guard.now) (sides_view sides)) (candidates_view candidates)
        (candidates_view cs)) }
{
    let Sides {
        when_true,
        when_false,
        when_no_boolean,
    } = sides;
    match when_true {
        None => add_false(
            alloc,
            candidates,
            path,
            here,
            guard,
            when_false,
            when_no_boolean,
        ),
        Some(more) => add_true(
            alloc,
            candidates,
            path,
            here,
            label,
            guard,
            &more,
            when_false,
            when_no_boolean,
        ),
    }
}

/// The candidates of `ifgoto`. What is asked of the guard is simplified by the rules, but for atoms of the fragment.
pub fn guard_candidates<M: SymMemory>(
    alloc: Global,
    rules: &RuleBook,
    path: Path<M>,
    here: &Place,
    expression: &Expr,
    label: &i64,
) -> Result<Candidates<M>, AllocError>
    requires spellable { IsTrue (list_all is_spellable (literals_of (expr_view expression.now))) }
    requires steps { path.steps + 1 < 2 ^ 32 }
    requires next { MayAdvance (frames_view path.stack) }
    ensures lawful { IfOk result (λ cs. AreLawful M.stands M.terms M.asked M.Local.actions (path_view path) here.now
        (pure_ifgoto (expr_view expression.now) label.now) (candidates_view cs)) }
    ensures plain { M.keeps_plain → IfOk result (λ cs. StayPlain M.plain (path_view path)
        (pure_ifgoto (expr_view expression.now) label.now) (candidates_view cs)) }
    ensures narrow { IfOk result (λ cs. StayNarrow M.terms (path_view path) (pure_ifgoto (expr_view expression.now) label.now) (candidates_view cs)) }
{
    let Cases { faults, good } = evaluate_in(alloc, &path.stack, expression)?;
    let candidates = fail_each(alloc, &path, here, &faults)?;
    match good {
        Some(good) => {
            let result = simpler(alloc, rules, &good.result)?;
            let guard = GoodCase {
                conds: good.conds,
                result,
            };
            let sides = guard_sides(alloc, &guard.result)?;
            add_sides(alloc, candidates, path, here, label, &guard, sides)
        }
        None => Ok(candidates),
    }
}
