//! How far the rows let the number of each variable be from another one. This guides the choice of a split, and no answer rests
//! on it.
use linear_core::{Relation, Row, Rows};
use std::alloc::{AllocError, Global};

/// The least and the greatest number, where there are any.
#[derive(Clone, Copy)]
pub(crate) struct Range {
    pub(crate) low: Option<i128>,
    pub(crate) high: Option<i128>,
}

pub(crate) const ANY: Range = Range {
    low: None,
    high: None,
};

const HERE: Range = Range {
    low: Some(0),
    high: Some(0),
};

impl Range {
    pub(crate) fn moved(self, by: i128) -> Range {
        Range {
            low: sum(self.low, by),
            high: sum(self.high, by),
        }
    }

    /// How many numbers there are beside one, where there are finitely many.
    pub(crate) fn size(self) -> Option<i128> {
        match self {
            Range {
                low: Some(low),
                high: Some(high),
            } => high.checked_sub(low),
            _ => None,
        }
    }
}

fn sum(number: Option<i128>, by: i128) -> Option<i128> {
    match number {
        Some(number) => number.checked_add(by),
        None => None,
    }
}

fn difference(number: Option<i128>, by: i128) -> Option<i128> {
    match number {
        Some(number) => number.checked_sub(by),
        None => None,
    }
}

/// The node of a variable; 0 is that of the number 0.
pub(crate) fn node_of(variable: Option<u64>) -> usize {
    match variable {
        Some(number) => (number as usize).saturating_add(1),
        None => 0,
    }
}

/// A row as `plus - minus + constant` of two nodes.
#[derive(Clone, Copy)]
pub(crate) struct Sides {
    plus: usize,
    minus: usize,
    constant: i128,
    is_equal: bool,
}

fn sides_of(row: &Row) -> Sides {
    let mut plus = 0;
    let mut minus = 0;
    for coefficient in row.coefficients.as_slice() {
        if coefficient.factor == 1 {
            plus = node_of(Some(coefficient.variable));
        } else {
            minus = node_of(Some(coefficient.variable));
        }
    }
    Sides {
        plus,
        minus,
        constant: row.constant,
        is_equal: row.relation == Relation::Zero,
    }
}

/// Each row as two nodes.
pub(crate) fn sides_of_each(alloc: Global, rows: &Rows) -> Result<Vec<Sides>, AllocError> {
    let mut sides: Vec<Sides> = Vec::new(alloc);
    for row in rows.as_slice() {
        sides.push(sides_of(row))?;
    }
    Ok(sides)
}

/// The range of a node.
pub(crate) fn range_at(ranges: &[Range], node: usize) -> Range {
    match ranges.get(node) {
        Some(range) => *range,
        None => ANY,
    }
}

/// Takes what is above a number out of a range.
fn lower(ranges: &mut [Range], node: usize, high: Option<i128>) -> bool {
    let old = range_at(ranges, node).high;
    match (old, high) {
        (_, None) => return false,
        (Some(old), Some(high)) if old <= high => return false,
        _ => {}
    }
    if ranges.len() <= node {
        return false;
    }
    ranges[node].high = high;
    true
}

/// Takes what is below a number out of a range.
fn raise(ranges: &mut [Range], node: usize, low: Option<i128>) -> bool {
    let old = range_at(ranges, node).low;
    match (old, low) {
        (_, None) => return false,
        (Some(old), Some(low)) if low <= old => return false,
        _ => {}
    }
    if ranges.len() <= node {
        return false;
    }
    ranges[node].low = low;
    true
}

/// Follows `plus + constant <= minus`.
fn follow(ranges: &mut [Range], plus: usize, minus: usize, constant: i128) -> bool {
    let high = difference(range_at(ranges, minus).high, constant);
    let low = sum(range_at(ranges, plus).low, constant);
    let lowered = lower(ranges, plus, high);
    let raised = raise(ranges, minus, low);
    lowered || raised
}

fn follow_row(ranges: &mut [Range], row: Sides) -> bool {
    let Sides {
        plus,
        minus,
        constant,
        is_equal,
    } = row;
    let moved = follow(ranges, plus, minus, constant);
    if !is_equal {
        return moved;
    }
    match 0i128.checked_sub(constant) {
        Some(constant) => follow(ranges, minus, plus, constant) || moved,
        None => moved,
    }
}

/// Follows each row once, from the first or from the last one.
fn pass(ranges: &mut [Range], rows: &[Sides], from_last: bool) -> bool {
    let mut moved = false;
    for turn in 0..rows.len() {
        let place = if from_last {
            rows.len() - (turn + 1)
        } else {
            turn
        };
        if follow_row(ranges, rows[place]) {
            moved = true;
        }
    }
    moved
}

/// The ranges of so many nodes, counted from one of them.
pub(crate) fn ranges_from(
    alloc: Global,
    count: usize,
    rows: &[Sides],
    origin: usize,
) -> Result<Vec<Range>, AllocError> {
    let mut ranges: Vec<Range> = Vec::new(alloc);
    for node in 0..count {
        ranges.push(if node == origin { HERE } else { ANY })?;
    }
    for turn in 0..count {
        if !pass(&mut ranges, rows, turn % 2 == 1) {
            return Ok(ranges);
        }
    }
    Ok(ranges)
}
