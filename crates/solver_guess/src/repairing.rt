//! Moving numbers until those that are said to differ do. This guides a guess, and no answer rests on it.
use crate::graphs::Edge;
use std::alloc::{AllocError, Global};

/// The numbers of two nodes differ by another number than this one: `right - left`.
#[derive(Clone, Copy)]
pub(crate) struct Apart {
    pub(crate) left: usize,
    pub(crate) right: usize,
    pub(crate) by: i128,
}

/// Which edges and disequalities each node has: those of a node stand one after the other, from its start to the next one's.
#[derive(Drop)]
struct Places {
    starts: Vec<usize>,
    items: Vec<usize>,
}

/// What the numbers of other nodes allow a node.
#[derive(Clone, Copy)]
struct Room {
    low: Option<i128>,
    high: Option<i128>,
}

/// So often all nodes are gone over.
const TURNS: usize = 40;

/// So many numbers are tried for a node.
const TRIES: usize = 40;

fn number_at(numbers: &[i128], node: usize) -> i128 {
    match numbers.get(node) {
        Some(number) => *number,
        None => 0,
    }
}

fn count_at(counts: &[usize], node: usize) -> usize {
    match counts.get(node) {
        Some(count) => *count,
        None => 0,
    }
}

fn put_count(counts: &mut [usize], node: usize, count: usize) {
    if node < counts.len() {
        counts[node] = count;
    }
}

fn add_one(counts: &mut [usize], node: usize) {
    let count = count_at(counts, node);
    put_count(counts, node, count.saturating_add(1));
}

fn zeros(alloc: Global, count: usize) -> Result<Vec<usize>, AllocError> {
    let mut zeros: Vec<usize> = Vec::with_capacity(alloc, count)?;
    for _place in 0..count {
        zeros.push(0)?;
    }
    Ok(zeros)
}

/// Counts become the starts of the nodes, of which there is one more.
fn add_up(counts: &mut [usize]) {
    let mut sum: usize = 0;
    for node in 0..counts.len() {
        let count = counts[node];
        counts[node] = sum;
        sum = sum.saturating_add(count);
    }
}

/// The pairs at each node of so many, by their places.
fn places_of(alloc: Global, count: usize, pairs: &[(usize, usize)]) -> Result<Places, AllocError> {
    let mut starts = zeros(alloc, count.saturating_add(1))?;
    for (first, second) in pairs {
        add_one(starts.as_mut_slice(), *first);
        add_one(starts.as_mut_slice(), *second);
    }
    add_up(starts.as_mut_slice());
    let mut next = zeros(alloc, starts.len())?;
    for node in 0..starts.len() {
        put_count(next.as_mut_slice(), node, count_at(starts.as_slice(), node));
    }
    let mut items = zeros(alloc, pairs.len().saturating_mul(2))?;
    for (place, (first, second)) in pairs.iter().enumerate() {
        for node in [*first, *second] {
            put_count(items.as_mut_slice(), count_at(next.as_slice(), node), place);
            add_one(next.as_mut_slice(), node);
        }
    }
    Ok(Places { starts, items })
}

impl Places {
    /// The places of a node's pairs.
    fn of_node(&self, node: usize) -> &[usize] {
        let start = count_at(self.starts.as_slice(), node);
        let end = count_at(self.starts.as_slice(), node.saturating_add(1));
        if start <= end && end <= self.items.len() {
            &self.items[start..end]
        } else {
            &[]
        }
    }
}

fn least(first: Option<i128>, second: Option<i128>) -> Option<i128> {
    match (first, second) {
        (Some(one), Some(other)) => Some(one.min(other)),
        (None, other) => other,
        (one, None) => one,
    }
}

fn greatest(first: Option<i128>, second: Option<i128>) -> Option<i128> {
    match (first, second) {
        (Some(one), Some(other)) => Some(one.max(other)),
        (None, other) => other,
        (one, None) => one,
    }
}

/// What an edge allows a node that it has.
fn narrowed(room: Room, edge: Edge, node: usize, numbers: &[i128]) -> Room {
    if edge.to == node {
        let high = number_at(numbers, edge.from).checked_add(edge.weight);
        Room {
            low: room.low,
            high: least(room.high, high),
        }
    } else {
        let low = number_at(numbers, edge.to).checked_sub(edge.weight);
        Room {
            low: greatest(room.low, low),
            high: room.high,
        }
    }
}

/// What the numbers of other nodes allow a node.
fn room_of(edges: &[Edge], places: &[usize], node: usize, numbers: &[i128]) -> Room {
    let mut room = Room {
        low: None,
        high: None,
    };
    for place in places {
        if let Some(edge) = edges.get(*place) {
            room = narrowed(room, *edge, node, numbers);
        }
    }
    room
}

/// Whether a node with this number breaks a disequality.
fn breaks(apart: Apart, node: usize, number: i128, numbers: &[i128]) -> bool {
    let (left, right) = if apart.left == node {
        (number, number_at(numbers, apart.right))
    } else {
        (number_at(numbers, apart.left), number)
    };
    right.checked_sub(left) == Some(apart.by)
}

/// How many disequalities a node with this number breaks.
fn broken(all: &[Apart], places: &[usize], node: usize, number: i128, numbers: &[i128]) -> usize {
    let mut count: usize = 0;
    for place in places {
        if let Some(apart) = all.get(*place) {
            if breaks(*apart, node, number, numbers) {
                count = count.saturating_add(1);
            }
        }
    }
    count
}

/// The number at a turn from an end of the room, where it is within.
fn tried(room: Room, turn: i128) -> Option<i128> {
    let number = match (room.low, room.high) {
        (Some(low), _) => low.checked_add(turn)?,
        (None, Some(high)) => high.checked_sub(turn)?,
        (None, None) => turn,
    };
    match room.high {
        Some(high) if high < number => None,
        _ => Some(number),
    }
}

/// A number in the room that breaks the fewest disequalities; among several, which one depends on the turn.
fn best_number(
    all: &[Apart],
    places: &[usize],
    node: usize,
    room: Room,
    numbers: &[i128],
    seed: usize,
) -> Option<i128> {
    let mut best: Option<i128> = None;
    let mut fewest = usize::MAX;
    for turn in 0..TRIES {
        let Some(number) = tried(room, turn as i128) else {
            return best;
        };
        let count = broken(all, places, node, number, numbers);
        if count < fewest || (count == fewest && (seed / 7).saturating_add(turn) % 3 == 0) {
            best = Some(number);
            fewest = count;
        }
        if fewest == 0 {
            return best;
        }
    }
    best
}

/// Moves a node that breaks a disequality, and says whether there was one.
fn repair_node(
    edges: &[Edge],
    at_edges: &Places,
    all: &[Apart],
    at_aparts: &Places,
    node: usize,
    numbers: &mut [i128],
    seed: usize,
) -> bool {
    let places = at_aparts.of_node(node);
    let number = number_at(numbers, node);
    if broken(all, places, node, number, numbers) == 0 {
        return false;
    }
    let room = room_of(edges, at_edges.of_node(node), node, numbers);
    if let Some(better) = best_number(all, places, node, room, numbers, seed) {
        if node < numbers.len() {
            numbers[node] = better;
        }
    }
    true
}

fn edge_pairs(alloc: Global, edges: &[Edge]) -> Result<Vec<(usize, usize)>, AllocError> {
    let mut pairs: Vec<(usize, usize)> = Vec::with_capacity(alloc, edges.len())?;
    for edge in edges {
        pairs.push((edge.from, edge.to))?;
    }
    Ok(pairs)
}

fn apart_pairs(alloc: Global, all: &[Apart]) -> Result<Vec<(usize, usize)>, AllocError> {
    let mut pairs: Vec<(usize, usize)> = Vec::with_capacity(alloc, all.len())?;
    for apart in all {
        pairs.push((apart.left, apart.right))?;
    }
    Ok(pairs)
}

/// Moves numbers of nodes within what the edges allow, so that fewer disequalities are broken. The node 0 stays.
pub(crate) fn repair(
    alloc: Global,
    edges: &[Edge],
    all: &[Apart],
    numbers: &mut [i128],
) -> Result<(), AllocError> {
    if all.is_empty() {
        return Ok(());
    }
    let at_edges = places_of(alloc, numbers.len(), edge_pairs(alloc, edges)?.as_slice())?;
    let at_aparts = places_of(alloc, numbers.len(), apart_pairs(alloc, all)?.as_slice())?;
    let mut seed: usize = 0;
    for _turn in 0..TURNS {
        let mut moved = false;
        for node in 1..numbers.len() {
            seed = seed.saturating_add(1);
            if repair_node(edges, &at_edges, all, &at_aparts, node, numbers, seed) {
                moved = true;
            }
        }
        if !moved {
            return Ok(());
        }
    }
    Ok(())
}
