//! The choice of a split where the numbers break a disequality. Any split is right; this is about how many follow.
ghost use Rattle.std.specs.Prelude.{◌≡◌, IsTrue, IfOk, IfSome};
ghost use Rattle.pure_terms.specs.declared.literals.Literal.{Literal as LiteralItself};
ghost use Rattle.pure_terms.specs.Pure.{literal, variable as variable_term};
ghost use Rattle.pure_terms.specs.View.{term_view, atoms_view};
ghost use Rattle.solver_proof.specs.Closing.{at_most};
ghost use Rattle.solver_rules.specs.Nodes.{vars_of, list_of_node, IsNodeOf};
ghost use Rattle.solver_rules.specs.Rules.{IsUndecided};
ghost use Rattle.solver_rules.specs.Steps.{IsStep};

use crate::plain::is_plain;
use crate::ranges::{Range, Sides as RowSides, node_of, range_at, ranges_from, sides_of_each};
use gil_values::BinOp;
use linear_core::Rows;
use pure_terms::{Atom, Atoms, Literal, Sort, Term, Var, holds};
use solver_rules::{Node, Pair, RowList, Step, disequality_of, is_undecided, order_at, rows_of};
use std::alloc::{AllocError, Global};
use std::rc::Rc;

/// What to split by.
#[derive(Clone, Copy)]
enum Choice {
    /// The order of the sides of the disequality at this place.
    Order(usize),
    /// Whether the variable is at most the number.
    AtMost(Var, i128),
}

/// With more numbers for a variable, orders tell more.
const FEW: i128 = 16;

/// So many disequalities that the numbers break are looked at.
const MANY: usize = 24;

/// A variable, or none, plus a number.
#[derive(Clone, Copy)]
struct Shift {
    variable: Option<Var>,
    plus: i128,
}

/// The sides of a disequality.
#[derive(Clone, Copy)]
struct Sides {
    first: Shift,
    second: Shift,
}

/// A variable, its least number, and how many more there are.
#[derive(Clone, Copy)]
struct Few {
    variable: Var,
    low: i128,
    more: i128,
}

/// The place of a disequality, and how many more differences of its sides there are than one.
#[derive(Clone, Copy)]
struct Near {
    place: usize,
    more: Option<i128>,
}

fn number_of(term: &Term) -> Option<i128> {
    match term {
        Term::Lit(Literal::Int(n)) => Some(*n),
        _ => None,
    }
}

fn opposite_of(term: &Term) -> Option<i128> {
    match term {
        Term::Lit(Literal::Int(n)) => 0i128.checked_sub(*n),
        _ => None,
    }
}

fn shift_of(variable: &Term, plus: Option<i128>) -> Option<Shift> {
    match variable {
        Term::Var(x) if x.sort == Sort::Int => match plus {
            Some(plus) => Some(Shift {
                variable: Some(*x),
                plus,
            }),
            None => None,
        },
        _ => None,
    }
}

fn side_of(term: &Term) -> Option<Shift> {
    match term {
        Term::Op2(BinOp::Add, s, t) => shift_of(s, number_of(t)),
        Term::Op2(BinOp::Subtract, s, t) => shift_of(s, opposite_of(t)),
        Term::Lit(Literal::Int(n)) => Some(Shift {
            variable: None,
            plus: *n,
        }),
        _ => shift_of(term, Some(0)),
    }
}

/// The sides of a disequality of whole numbers.
fn sides_of(atom: &Atom) -> Option<Sides> {
    match disequality_of(atom) {
        Some(Pair { left, right }) => match (side_of(left), side_of(right)) {
            (Some(first), Some(second)) => Some(Sides { first, second }),
            _ => None,
        },
        None => None,
    }
}

fn node_at(side: Shift) -> usize {
    match side.variable {
        Some(x) => node_of(Some(x.number)),
        None => node_of(None),
    }
}

fn range_of(ranges: &[Range], side: Shift) -> Range {
    range_at(ranges, node_at(side)).moved(side.plus)
}

/// Whether one range is a number that is an end of the other one.
fn is_at_end(first: Range, second: Range) -> bool {
    first.size() == Some(0) && (first.low == second.low || first.low == second.high)
}

/// A disequality that the ranges of its sides all but decide.
fn forced(ranges: &[Range], atoms: &[Atom]) -> Option<Choice> {
    for (place, atom) in atoms.iter().enumerate() {
        if let Some(Sides { first, second }) = sides_of(atom) {
            let left = range_of(ranges, first);
            let right = range_of(ranges, second);
            if is_at_end(left, right) || is_at_end(right, left) {
                return Some(Choice::Order(place));
            }
        }
    }
    None
}

/// The variable of a side, where more than one number is left for it, and few are.
fn few_of(ranges: &[Range], side: Shift) -> Option<Few> {
    let range = range_at(ranges, node_at(side));
    match (side.variable, range.low, range.size()) {
        (Some(variable), Some(low), Some(more)) if 0 < more && more < FEW => Some(Few {
            variable,
            low,
            more,
        }),
        _ => None,
    }
}

fn fewer(first: Option<Few>, second: Option<Few>) -> Option<Few> {
    match (first, second) {
        (Some(a), Some(b)) => Some(if b.more < a.more { b } else { a }),
        (Some(few), None) => Some(few),
        (None, few) => few,
    }
}

fn nearer(first: Option<Near>, second: Near) -> Near {
    match first {
        Some(near) => match (near.more, second.more) {
            (None, Some(_)) => second,
            (Some(a), Some(b)) if b < a => second,
            _ => near,
        },
        None => second,
    }
}

/// How far the second side may be from the first one.
fn distance(
    alloc: Global,
    count: usize,
    rows: &[RowSides],
    sides: Sides,
) -> Result<Range, AllocError> {
    let ranges = ranges_from(alloc, count, rows, node_at(sides.first))?;
    let range = range_of(ranges.as_slice(), sides.second);
    match 0i128.checked_sub(sides.first.plus) {
        Some(back) => Ok(range.moved(back)),
        None => Err(AllocError),
    }
}

fn is_broken(alloc: Global, node: &Node<'_>, atom: &Atom) -> bool {
    match holds(alloc, atom, node.numbers) {
        Ok(truth) => !truth,
        Err(_) => false,
    }
}

/// The choice among the disequalities that the numbers break: one that the rows all but decide, else a variable with few
/// numbers, else the disequality with the fewest differences.
fn choice_of_broken(
    alloc: Global,
    node: &Node<'_>,
    count: usize,
    rows: &[RowSides],
    ranges: &[Range],
) -> Result<Option<Choice>, AllocError> {
    let atoms = node.list.as_slice();
    let mut few = None;
    let mut nearest = None;
    let mut seen = 0;
    for (place, atom) in atoms.iter().enumerate() {
        if let Some(sides) = sides_of(atom) {
            if seen < MANY && is_broken(alloc, node, atom) {
                let range = distance(alloc, count, rows, sides)?;
                if range.low == Some(0) || range.high == Some(0) {
                    return Ok(Some(Choice::Order(place)));
                }
                let more = range.size();
                nearest = Some(nearer(nearest, Near { place, more }));
                few = fewer(few, few_of(ranges, sides.first));
                few = fewer(few, few_of(ranges, sides.second));
                seen += 1;
            }
        }
    }
    Ok(last_choice(few, nearest))
}

fn last_choice(few: Option<Few>, nearest: Option<Near>) -> Option<Choice> {
    match few {
        Some(few) => Some(Choice::AtMost(few.variable, few.low)),
        None => match nearest {
            Some(near) => Some(Choice::Order(near.place)),
            None => None,
        },
    }
}

fn choose(alloc: Global, node: &Node<'_>, rows: &Rows) -> Result<Option<Choice>, AllocError> {
    let count = node.vars.len().saturating_add(1);
    let rows = sides_of_each(alloc, rows)?;
    let ranges = ranges_from(alloc, count, rows.as_slice(), node_of(None))?;
    match forced(ranges.as_slice(), node.list.as_slice()) {
        Some(choice) => Ok(Some(choice)),
        None => choice_of_broken(alloc, node, count, rows.as_slice(), ranges.as_slice()),
    }
}

/// The term that a variable is at most a number.
fn bound_of(alloc: Global, variable: Var, number: i128) -> Result<Term, AllocError>
    ensures { IfOk result (λ t. term_view t ≡ at_most (variable_term variable) (literal (LiteralItself.Int number))) }
{
    let left = Rc::new(alloc, Term::Var(variable))?;
    let right = Rc::new(alloc, Term::Lit(Literal::Int(number)))?;
    Ok(Term::Op2(BinOp::LessOrEqual, left, right))
}

/// Whether the list says neither that a variable is at most a number nor that it isn't.
fn is_bound_undecided(list: &Atoms, variable: Var, number: i128) -> bool
    ensures { IsTrue result → IsUndecided (atoms_view list.now) (at_most (variable_term variable) (literal (LiteralItself.Int number))) }
{
    let left = Term::Var(variable);
    let right = Term::Lit(Literal::Int(number));
    is_undecided(list, BinOp::LessOrEqual, &left, &right)
}

/// The split by whether a variable is at most a number, where that is an atom of the fragment and the list doesn't say it.
fn split_at(
    alloc: Global,
    node: &Node<'_>,
    variable: Var,
    number: i128,
) -> Result<Option<Step>, AllocError>
    requires { IsNodeOf node.now }
    ensures { IfOk result (λ found. IfSome found (IsStep (vars_of node.now) (list_of_node node.now))) }
{
    if !is_bound_undecided(node.list, variable, number) {
        return Ok(None);
    }
    let bound = bound_of(alloc, variable, number)?;
    let atom = Atom::Holds(bound.copy(alloc)?);
    if is_plain(node.vars, &atom) {
        return Ok(Some(Step::Split(bound)));
    }
    Ok(None)
}

/// The split that tells most, where one is found.
pub(crate) fn chosen(alloc: Global, node: &Node<'_>) -> Result<Option<Step>, AllocError>
    requires { IsNodeOf node.now }
    ensures { IfOk result (λ found. IfSome found (IsStep (vars_of node.now) (list_of_node node.now))) }
{
    let RowList { rows, .. } = rows_of(alloc, node.classes.list())?;
    match choose(alloc, node, &rows)? {
        Some(Choice::Order(place)) => order_at(alloc, node, place),
        Some(Choice::AtMost(variable, number)) => split_at(alloc, node, variable, number),
        None => Ok(None),
    }
}
