//! Numbers of nodes that differences bound. This guides a guess, and no answer rests on it.
use std::alloc::{AllocError, Global};

/// The number of `to` is at most that of `from` plus the weight.
#[derive(Clone, Copy)]
pub(crate) struct Edge {
    pub(crate) from: usize,
    pub(crate) to: usize,
    pub(crate) weight: i128,
}

/// Numbers of nodes, and which node each number came from.
#[derive(Drop)]
struct State {
    numbers: Vec<i128>,
    causes: Vec<Option<usize>>,
}

fn number_at(numbers: &[i128], node: usize) -> i128 {
    match numbers.get(node) {
        Some(number) => *number,
        None => 0,
    }
}

/// Gives a node a lesser number.
fn lower(state: &mut State, node: usize, number: i128, cause: usize) -> bool {
    if state.numbers.len() <= node || state.causes.len() <= node {
        return false;
    }
    if state.numbers[node] <= number {
        return false;
    }
    state.numbers[node] = number;
    state.causes[node] = Some(cause);
    true
}

fn follow(state: &mut State, edge: Edge) -> bool {
    let start = number_at(state.numbers.as_slice(), edge.from);
    match start.checked_add(edge.weight) {
        Some(number) => lower(state, edge.to, number, edge.from),
        None => false,
    }
}

/// Follows each edge once, from the first or from the last one.
fn pass(state: &mut State, edges: &[Edge], from_last: bool) -> bool {
    let mut moved = false;
    for turn in 0..edges.len() {
        let place = if from_last {
            edges.len() - (turn + 1)
        } else {
            turn
        };
        if follow(state, edges[place]) {
            moved = true;
        }
    }
    moved
}

fn cause_of(causes: &[Option<usize>], node: usize) -> Option<usize> {
    match causes.get(node) {
        Some(cause) => *cause,
        None => None,
    }
}

/// Whether the causes lead from a node back to one that has the mark. Nodes on the way get the mark.
fn returns(causes: &[Option<usize>], marks: &mut [usize], node: usize, mark: usize) -> bool {
    let mut at = node;
    for _step in 0..causes.len() {
        if marks.len() <= at {
            return false;
        }
        if marks[at] != 0 {
            return marks[at] == mark;
        }
        marks[at] = mark;
        match cause_of(causes, at) {
            Some(cause) => at = cause,
            None => return false,
        }
    }
    false
}

/// Whether some causes lead round: then there are no such numbers.
fn go_round(alloc: Global, causes: &[Option<usize>]) -> Result<bool, AllocError> {
    let mut marks: Vec<usize> = Vec::with_capacity(alloc, causes.len())?;
    for _node in 0..causes.len() {
        marks.push(0)?;
    }
    for node in 0..causes.len() {
        if returns(causes, marks.as_mut_slice(), node, node.saturating_add(1)) {
            return Ok(true);
        }
    }
    Ok(false)
}

/// Numbers of so many nodes that all edges allow, where they are found.
pub(crate) fn numbers_by(
    alloc: Global,
    count: usize,
    edges: &[Edge],
) -> Result<Option<Vec<i128>>, AllocError> {
    let mut numbers: Vec<i128> = Vec::with_capacity(alloc, count)?;
    let mut causes: Vec<Option<usize>> = Vec::with_capacity(alloc, count)?;
    for _node in 0..count {
        numbers.push(0)?;
        causes.push(None)?;
    }
    let mut state = State { numbers, causes };
    for turn in 0..count {
        if !pass(&mut state, edges, turn % 2 == 1) {
            return Ok(Some(state.numbers));
        }
        if go_round(alloc, state.causes.as_slice())? {
            return Ok(None);
        }
    }
    Ok(None)
}
