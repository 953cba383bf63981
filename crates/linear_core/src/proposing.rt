//! Numbers that meet differences, or a cycle of differences that can't be met: what is found here is tested, and no answer rests on
//! it.
use crate::differences::Difference;
use crate::walks::{Reach, Reaches, Step, Walk};
use std::alloc::{AllocError, Global};

/// What was found.
#[derive(Drop)]
pub(crate) enum Proposal {
    /// Numbers of the nodes.
    Numbers(Reaches),
    /// A walk from a node back to it, and numbers of the nodes, among which that of this node is greater than what the walk gives.
    Cycle(Reaches, usize, Reach),
    Nothing,
}

/// How a node got its number.
#[derive(Clone, Copy)]
struct Cause {
    row: usize,
    backwards: bool,
    from: usize,
    weight: i128,
}

/// The numbers of nodes, and how they got them.
#[derive(Drop)]
struct State {
    numbers: Vec<i128>,
    causes: Vec<Option<Cause>>,
}

/// Less than any number of a walk.
const LOW: i128 = -85_070_591_730_234_615_865_843_651_857_942_052_864;

fn number_of(numbers: &[i128], node: usize) -> i128 {
    match numbers.get(node) {
        Some(number) => *number,
        None => 0,
    }
}

fn cause_of(causes: &[Option<Cause>], node: usize) -> Option<Cause> {
    match causes.get(node) {
        Some(cause) => *cause,
        None => None,
    }
}

/// Gives a node a lesser number.
fn lower(state: &mut State, node: usize, cause: Cause) -> bool {
    let Some(number) = number_of(state.numbers.as_slice(), cause.from).checked_add(cause.weight)
    else {
        return false;
    };
    if state.numbers.len() <= node || state.causes.len() <= node {
        return false;
    }
    if state.numbers[node] <= number {
        return false;
    }
    state.numbers[node] = number;
    state.causes[node] = Some(cause);
    true
}

/// Follows a difference in each way that it allows.
fn follow(state: &mut State, row: usize, difference: Difference) -> bool {
    let mut moved = false;
    if let Some(weight) = 0i128.checked_sub(difference.constant) {
        let forwards = Cause {
            row,
            backwards: false,
            from: difference.minus,
            weight,
        };
        moved = lower(state, difference.plus, forwards);
    }
    if difference.is_equal {
        let backwards = Cause {
            row,
            backwards: true,
            from: difference.plus,
            weight: difference.constant,
        };
        if lower(state, difference.minus, backwards) {
            moved = true;
        }
    }
    moved
}

/// Follows each difference once, from the first or from the last one.
fn pass(state: &mut State, differences: &[Difference], from_last: bool) -> bool {
    let mut moved = false;
    for turn in 0..differences.len() {
        let row = if from_last {
            differences.len() - (turn + 1)
        } else {
            turn
        };
        if follow(state, row, differences[row]) {
            moved = true;
        }
    }
    moved
}

/// A node with the mark to which the causes lead from a node. Nodes on the way get the mark.
fn returns_to(
    causes: &[Option<Cause>],
    marks: &mut [usize],
    node: usize,
    mark: usize,
) -> Option<usize> {
    let mut at = node;
    for _step in 0..causes.len() {
        if marks.len() <= at {
            return None;
        }
        if marks[at] != 0 {
            return if marks[at] == mark { Some(at) } else { None };
        }
        marks[at] = mark;
        match cause_of(causes, at) {
            Some(cause) => at = cause.from,
            None => return None,
        }
    }
    None
}

/// A node to which its causes lead back.
fn node_on_cycle(alloc: Global, causes: &[Option<Cause>]) -> Result<Option<usize>, AllocError> {
    let mut marks: Vec<usize> = Vec::with_capacity(alloc, causes.len())?;
    for _node in 0..causes.len() {
        marks.push(0)?;
    }
    for node in 0..causes.len() {
        let mark = node.saturating_add(1);
        if let Some(back) = returns_to(causes, marks.as_mut_slice(), node, mark) {
            return Ok(Some(back));
        }
    }
    Ok(None)
}

/// The causes that lead from a node back to it.
fn causes_back(
    alloc: Global,
    causes: &[Option<Cause>],
    node: usize,
) -> Result<Vec<Cause>, AllocError> {
    let mut way: Vec<Cause> = Vec::new(alloc);
    let mut at = node;
    for _step in 0..causes.len() {
        match cause_of(causes, at) {
            Some(cause) => {
                way.push(cause)?;
                at = cause.from;
            }
            None => return Ok(way),
        }
        if at == node {
            return Ok(way);
        }
    }
    Ok(way)
}

/// The numbers that a walk from a node with the number 0 gives, the first after its first step, which is the last of these causes.
fn sums_of(alloc: Global, way: &[Cause]) -> Result<Vec<i128>, AllocError> {
    let mut sums: Vec<i128> = Vec::with_capacity(alloc, way.len())?;
    let mut sum: i128 = 0;
    for cause in way.iter().rev() {
        sum = sum.saturating_add(cause.weight);
        sums.push(sum)?;
    }
    Ok(sums)
}

/// The walk from a node back to it.
fn walk_back(alloc: Global, way: &[Cause]) -> Result<Reach, AllocError> {
    let sums = sums_of(alloc, way)?;
    let mut steps: Vec<Step> = Vec::with_capacity(alloc, way.len())?;
    for (turn, cause) in way.iter().enumerate() {
        let before = match way.len().checked_sub(turn.saturating_add(2)) {
            Some(place) => number_of(sums.as_slice(), place),
            None => 0,
        };
        steps.push(Step {
            row: cause.row,
            backwards: cause.backwards,
            from: cause.from,
            before,
        })?;
    }
    let number = match sums.last() {
        Some(sum) => *sum,
        None => 0,
    };
    Ok(Reach {
        number,
        walk: Walk::of_steps(steps),
    })
}

fn put(alloc: Global, reaches: &mut Reaches, node: usize, number: i128) {
    if node < reaches.len() {
        let walk = Walk::new(alloc);
        reaches.put(node, Reach { number, walk });
    }
}

fn reaches_of(alloc: Global, numbers: &[i128]) -> Result<Reaches, AllocError> {
    let mut reaches = Reaches::new(alloc, numbers.len())?;
    for (node, number) in numbers.iter().enumerate() {
        put(alloc, &mut reaches, node, *number);
    }
    Ok(reaches)
}

/// The cycle through a node.
fn cycle_at(alloc: Global, state: &State, node: usize) -> Result<Proposal, AllocError> {
    let way = causes_back(alloc, state.causes.as_slice(), node)?;
    let reach = walk_back(alloc, way.as_slice())?;
    let mut reaches = Reaches::new(alloc, state.numbers.len())?;
    for other in 0..state.numbers.len() {
        put(
            alloc,
            &mut reaches,
            other,
            if other == node { 0 } else { LOW },
        );
    }
    Ok(Proposal::Cycle(reaches, node, reach))
}

/// Numbers of so many nodes that meet the differences, or a cycle, where one of them is found.
pub(crate) fn propose(
    alloc: Global,
    differences: &[Difference],
    count: usize,
) -> Result<Proposal, AllocError> {
    let mut numbers: Vec<i128> = Vec::with_capacity(alloc, count)?;
    let mut causes: Vec<Option<Cause>> = Vec::with_capacity(alloc, count)?;
    for _node in 0..count {
        numbers.push(0)?;
        causes.push(None)?;
    }
    let mut state = State { numbers, causes };
    for turn in 0..count {
        if !pass(&mut state, differences, turn % 2 == 1) {
            let reaches = reaches_of(alloc, state.numbers.as_slice())?;
            return Ok(Proposal::Numbers(reaches));
        }
        if let Some(node) = node_on_cycle(alloc, state.causes.as_slice())? {
            return cycle_at(alloc, &state, node);
        }
    }
    Ok(Proposal::Nothing)
}
