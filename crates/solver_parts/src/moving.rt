//! Moving the numbers of values so that comparisons which they break hold. What is made here is only proposed.
ghost use Rattle.std.specs.Prelude.{◌≤◌};
ghost use Rattle.std.specs.Vec.{vec_len};

use gil_values::{BinOp, Value};
use pure_terms::{Atom, Atoms, HoldsFault, Literal, Sort, Term, Valuation, holds};
use std::alloc::{AllocError, Global};

/// The side of a comparison that is moved where both could be.
#[derive(Clone, Copy, PartialEq, Eq)]
pub(crate) enum Side {
    Left,
    Right,
}

/// A variable and a number that is added to it.
#[derive(Clone, Copy)]
struct Shift {
    variable: usize,
    plus: i128,
}

/// Two sides of which the left one is to be the right one and a number more, or at most that.
#[derive(Clone, Copy)]
struct Comparison<'a> {
    left: &'a Term,
    right: &'a Term,
    more: i128,
}

/// The number that a variable has instead of its value.
#[derive(Clone, Copy)]
struct Move {
    variable: usize,
    number: i128,
}

/// Values of which some are moved.
#[derive(Drop)]
struct MovedValues<'a> {
    values: &'a [Value],
    /// In the order of the variables.
    moves: Vec<Move>,
}

impl MovedValues<'_> {
    /// How many moves are of variables with lower numbers.
    fn moves_below(&self, variable: usize) -> usize
        ensures { result ≤ vec_len self.now.moves }
    {
        for place in 0..self.moves.len() {
            if variable <= self.moves[place].variable {
                return place;
            }
        }
        self.moves.len()
    }

    /// The number that a variable has.
    fn number(&self, variable: usize) -> Option<i128> {
        match self.moves.get(self.moves_below(variable)) {
            Some(item) if item.variable == variable => Some(item.number),
            _ => match self.values.get(variable) {
                Some(Value::Int(number)) => Some(*number),
                _ => None,
            },
        }
    }

    /// Gives a variable a number.
    fn put(&mut self, variable: usize, number: i128) -> Result<(), AllocError> {
        let place = self.moves_below(variable);
        if place < self.moves.len() && self.moves[place].variable == variable {
            self.moves[place].number = number;
        } else {
            self.moves.insert(place, Move { variable, number })?;
        }
        Ok(())
    }

    /// The values with the moved ones in their places.
    fn all(&self, alloc: Global) -> Result<Valuation, AllocError> {
        let mut all = Valuation::new(alloc);
        let mut next: usize = 0;
        for (variable, value) in self.values.iter().enumerate() {
            match self.moves.get(next) {
                Some(item) if item.variable == variable => {
                    all.push(Value::Int(item.number))?;
                    next = next.saturating_add(1);
                }
                _ => all.push(value.copy(alloc)?)?,
            }
        }
        Ok(all)
    }
}

/// So many atoms before the first that is mended are looked at before values are made.
const NEAR: usize = 32;

/// The values with each comparison that they break mended once, where each of these could be. They stand at these places. Where
/// the moved numbers break a comparison near to these nothing is answered.
pub(crate) fn moved(
    alloc: Global,
    atoms: &Atoms,
    values: &Valuation,
    broken: &[usize],
    side: Side,
) -> Result<Option<Valuation>, AllocError> {
    let mut moved = MovedValues {
        values: values.as_slice(),
        moves: Vec::new(alloc),
    };
    for place in broken {
        if !move_at(atoms, *place, side, &mut moved)? {
            return Ok(None);
        }
    }
    if breaks_near(atoms, &moved, broken) {
        return Ok(None);
    }
    Ok(Some(moved.all(alloc)?))
}

fn move_at(
    atoms: &Atoms,
    place: usize,
    side: Side,
    moved: &mut MovedValues<'_>,
) -> Result<bool, AllocError> {
    match atoms.get(place) {
        Some(atom) => move_atom(atom, side, moved),
        None => Ok(false),
    }
}

/// Whether moved values break a comparison from shortly before the first of these places on.
fn breaks_near(atoms: &Atoms, moved: &MovedValues<'_>, broken: &[usize]) -> bool {
    let first = match broken.get(0) {
        Some(place) => place.saturating_sub(NEAR),
        None => 0,
    };
    for place in first..atoms.len() {
        if let Some(atom) = atoms.get(place) {
            if breaks(atom, moved) {
                return true;
            }
        }
    }
    false
}

/// Whether an atom is a comparison of numbers that moved values break.
fn breaks(atom: &Atom, moved: &MovedValues<'_>) -> bool {
    match atom {
        Atom::Holds(term) => compares(term, moved) == Some(false),
        Atom::Not(term) => compares(term, moved) == Some(true),
        Atom::Open(_) => false,
    }
}

/// Whether a comparison of numbers holds.
fn compares(term: &Term, moved: &MovedValues<'_>) -> Option<bool> {
    match term {
        Term::Op2(op, left, right) => {
            let first = number_of(left, Some(moved))?;
            let second = number_of(right, Some(moved))?;
            match *op {
                BinOp::LessOrEqual => Some(first <= second),
                BinOp::Less => Some(first < second),
                BinOp::Equal => Some(first == second),
                _ => None,
            }
        }
        _ => None,
    }
}

/// Whether an atom isn't surely true under values.
fn is_broken(alloc: Global, atom: &Atom, values: &Valuation) -> Result<bool, AllocError> {
    match holds(alloc, atom, values) {
        Ok(truth) => Ok(!truth),
        Err(HoldsFault::Number) => Ok(true),
        Err(HoldsFault::Memory) => Err(AllocError),
    }
}

/// Whether the atom at a place isn't surely true under values.
pub(crate) fn is_broken_at(
    alloc: Global,
    atoms: &Atoms,
    values: &Valuation,
    place: usize,
) -> Result<bool, AllocError> {
    match atoms.get(place) {
        Some(atom) => is_broken(alloc, atom, values),
        None => Ok(false),
    }
}

/// Moves a number so that a comparison holds, if one can be moved.
fn move_atom(atom: &Atom, side: Side, moved: &mut MovedValues<'_>) -> Result<bool, AllocError> {
    match comparison_of(atom, side) {
        Some(comparison) => move_sides(comparison, side, moved),
        None => Ok(false),
    }
}

/// What a comparison wants of its sides.
fn comparison_of(atom: &Atom, side: Side) -> Option<Comparison<'_>> {
    match atom {
        Atom::Holds(Term::Op2(op, left, right)) => match *op {
            BinOp::LessOrEqual => Some(compared(left, right, 0)),
            BinOp::Less => Some(compared(left, right, -1)),
            BinOp::Equal => Some(compared(left, right, 0)),
            _ => None,
        },
        Atom::Not(Term::Op2(op, left, right)) => match *op {
            BinOp::LessOrEqual => Some(compared(right, left, -1)),
            BinOp::Less => Some(compared(right, left, 0)),
            BinOp::Equal => Some(compared(left, right, apart(side))),
            _ => None,
        },
        _ => None,
    }
}

fn compared<'a>(left: &'a Term, right: &'a Term, more: i128) -> Comparison<'a> {
    Comparison { left, right, more }
}

fn apart(side: Side) -> i128 {
    match side {
        Side::Left => 1,
        Side::Right => -1,
    }
}

/// Moves one of two sides.
fn move_sides(
    comparison: Comparison<'_>,
    side: Side,
    moved: &mut MovedValues<'_>,
) -> Result<bool, AllocError> {
    let Some(left) = number_of(comparison.left, Some(moved)) else {
        return Ok(false);
    };
    let Some(right) = number_of(comparison.right, Some(moved)) else {
        return Ok(false);
    };
    match (shift_of(comparison.left), shift_of(comparison.right)) {
        (Some(shift), None) => put(moved, shift, right.checked_add(comparison.more)),
        (None, Some(shift)) => put(moved, shift, left.checked_sub(comparison.more)),
        (Some(shift), Some(other)) => match side {
            Side::Left => put(moved, shift, right.checked_add(comparison.more)),
            Side::Right => put(moved, other, left.checked_sub(comparison.more)),
        },
        (None, None) => Ok(false),
    }
}

/// Gives a variable the value with which it is this number behind the shift.
fn put(
    moved: &mut MovedValues<'_>,
    shift: Shift,
    number: Option<i128>,
) -> Result<bool, AllocError> {
    let Some(number) = number else {
        return Ok(false);
    };
    match number.checked_sub(shift.plus) {
        Some(number) if shift.variable < moved.values.len() => {
            moved.put(shift.variable, number)?;
            Ok(true)
        }
        _ => Ok(false),
    }
}

/// The number that a sum has under values, or without them where it names no variable.
fn number_of(term: &Term, moved: Option<&MovedValues<'_>>) -> Option<i128> {
    match term {
        Term::Lit(Literal::Int(number)) => Some(*number),
        Term::Var(variable) => moved?.number(variable.number as usize),
        Term::Op2(BinOp::Add, left, right) => {
            number_of(left, moved)?.checked_add(number_of(right, moved)?)
        }
        Term::Op2(BinOp::Subtract, left, right) => {
            number_of(left, moved)?.checked_sub(number_of(right, moved)?)
        }
        _ => None,
    }
}

/// The variable of sort int and the number that a term adds.
fn shift_of(term: &Term) -> Option<Shift> {
    match term {
        Term::Var(variable) if variable.sort == Sort::Int => Some(Shift {
            variable: variable.number as usize,
            plus: 0,
        }),
        Term::Op2(BinOp::Add, left, right) => {
            let shift = shift_of(left)?;
            shifted(shift, shift.plus.checked_add(number_of(right, None)?))
        }
        Term::Op2(BinOp::Subtract, left, right) => {
            let shift = shift_of(left)?;
            shifted(shift, shift.plus.checked_sub(number_of(right, None)?))
        }
        _ => None,
    }
}

fn shifted(shift: Shift, plus: Option<i128>) -> Option<Shift> {
    match plus {
        Some(plus) => Some(Shift {
            variable: shift.variable,
            plus,
        }),
        None => None,
    }
}
