//! The rows of the atoms of a list.
ghost use Rattle.std.specs.Prelude.{◌≡◌, ℕ, ◌^◌, ◌+ℤ◌, ◌-ℤ◌, ◌≤ℤ◌, ◌++◌, ◌<◌, slice_get, pos, neg_ℤ, true, Some, IfOk, OnOk};
ghost use Rattle.std.specs.Option.{option_map};
ghost use Rattle.pure_terms.specs.Fragment.{has_literals_between, has_narrow_literals};
ghost use Rattle.pure_terms.specs.Pure.{PureAtom};
ghost use Rattle.pure_terms.specs.View.{term_view, atom_view, atoms_view};
ghost use Rattle.solver_proof.specs.Sums.{side_of, difference, row_of};
ghost use Rattle.solver_rules.specs.Rows.{part_of, linear_row, relation_of, rows_from, places_from, found_rows, found_places};

use crate::offsets::offset_of;
use gil_values::BinOp;
use linear_core::{Coefficient, Coefficients, Relation, Row, Rows};
use pure_terms::{Atom, Atoms, Term};
use std::alloc::{AllocError, Global};

/// Rows, and the places of the atoms that have them.
#[derive(Drop)]
pub struct RowList {
    pub rows: Rows,
    pub places: Vec<usize>,
}

fn push_part(
    coefficients: &mut Coefficients,
    factor: i128,
    of: Option<u64>,
) -> Result<(), AllocError>
    ensures { OnOk result (coefficients.new ≡ coefficients.old ++ part_of factor of) }
{
    match of {
        Some(variable) => {
            coefficients.push(Coefficient { variable, factor })?;
            Ok(())
        }
        None => Ok(()),
    }
}

/// One variable, where there is one, less another.
fn difference_of(
    alloc: Global,
    plus: Option<u64>,
    minus: Option<u64>,
) -> Result<Coefficients, AllocError>
    ensures { IfOk result (λ cs. cs ≡ part_of (pos 1) plus ++ part_of (neg_ℤ (pos 1)) minus) }
{
    let mut coefficients = Coefficients::new(alloc);
    push_part(&mut coefficients, 1, plus)?;
    push_part(&mut coefficients, -1, minus)?;
    Ok(coefficients)
}

fn relation_of(is_equal: bool) -> Relation
    ensures { result ≡ relation_of is_equal }
{
    if is_equal {
        Relation::Zero
    } else {
        Relation::AtMostZero
    }
}

fn constant_of(first: i128, second: i128, more: u8) -> i128
    requires first_low { neg_ℤ (pos (2 ^ 80)) ≤ℤ first }
    requires first_high { first ≤ℤ pos (2 ^ 80) }
    requires second_low { neg_ℤ (pos (2 ^ 80)) ≤ℤ second }
    requires second_high { second ≤ℤ pos (2 ^ 80) }
    requires more { more < 2 }
    ensures { result ≡ (first -ℤ second) +ℤ pos more }
{
    first - second + i128::from(more)
}

/// `s - t + more`, which is at most 0, or 0.
fn row_between(
    alloc: Global,
    s: &Term,
    t: &Term,
    more: u8,
    is_equal: bool,
) -> Result<Option<Row>, AllocError>
    requires left { has_literals_between (neg_ℤ (pos (2 ^ 80))) (pos (2 ^ 80)) (term_view s.now) ≡ true }
    requires right { has_literals_between (neg_ℤ (pos (2 ^ 80))) (pos (2 ^ 80)) (term_view t.now) ≡ true }
    requires more { more < 2 }
    ensures { IfOk result (λ o. o ≡ option_map linear_row (difference (side_of (term_view s.now)) (side_of (term_view t.now)) (pos more) is_equal)) }
{
    match offset_of(s) {
        Some(first) => match offset_of(t) {
            Some(second) => {
                let coefficients = difference_of(alloc, first.of, second.of)?;
                let constant = constant_of(first.plus, second.plus, more);
                let relation = relation_of(is_equal);
                Ok(Some(Row {
                    coefficients,
                    constant,
                    relation,
                }))
            }
            None => Ok(None),
        },
        None => Ok(None),
    }
}

/// The row of an atom.
fn row_of(alloc: Global, atom: &Atom) -> Result<Option<Row>, AllocError>
    requires { has_narrow_literals (atom_view atom.now) ≡ true }
    ensures { IfOk result (λ o. o ≡ option_map linear_row (row_of (atom_view atom.now))) }
{
    match atom {
        Atom::Holds(Term::Op2(BinOp::LessOrEqual, s, t)) => row_between(alloc, s, t, 0, false),
        Atom::Holds(Term::Op2(BinOp::Less, s, t)) => row_between(alloc, s, t, 1, false),
        Atom::Holds(Term::Op2(BinOp::Equal, s, t)) => row_between(alloc, s, t, 0, true),
        Atom::Not(Term::Op2(BinOp::LessOrEqual, s, t)) => row_between(alloc, t, s, 1, false),
        Atom::Not(Term::Op2(BinOp::Less, s, t)) => row_between(alloc, t, s, 0, false),
        _ => Ok(None),
    }
}

/// Adds a row and its place, where there is one.
fn push_found(
    rows: &mut Rows,
    places: &mut Vec<usize>,
    place: usize,
    found: Option<Row>,
) -> Result<(), AllocError>
    ensures rows { OnOk result (rows.new ≡ rows.old ++ found_rows found) }
    ensures places { OnOk result (places.new.items ≡ places.old.items ++ found_places place found) }
{
    match found {
        Some(row) => {
            rows.push(row)?;
            places.push(place)?;
            Ok(())
        }
        None => Ok(()),
    }
}

/// The rows of the atoms of a list.
pub fn rows_of(alloc: Global, list: &Atoms) -> Result<RowList, AllocError>
    requires { (i : ℕ) (a : PureAtom) → slice_get (atoms_view list.now) i ≡ Some a → has_narrow_literals a ≡ true }
    ensures rows { IfOk result (λ r. r.rows ≡ rows_from (atoms_view list.now)) }
    ensures places { IfOk result (λ r. r.places.items ≡ places_from 0 (atoms_view list.now)) }
{
    let atoms = list.as_slice();
    let mut rows = Rows::new(alloc);
    let mut places: Vec<usize> = Vec::new(alloc);
    for (place, atom) in atoms.iter().enumerate() {
        let found = row_of(alloc, atom)?;
        push_found(&mut rows, &mut places, place, found)?;
    }
    Ok(RowList { rows, places })
}
