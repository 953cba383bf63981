//! Reading and writing items by places that may not be there. What is done there is only lost, since no answer rests on it.
use std::alloc::{AllocError, Global};

pub(crate) fn count_at(counts: &[usize], place: usize) -> usize {
    match counts.get(place) {
        Some(count) => *count,
        None => 0,
    }
}

pub(crate) fn put_count(counts: &mut [usize], place: usize, count: usize) {
    if place < counts.len() {
        counts[place] = count;
    }
}

pub(crate) fn add_to_count(counts: &mut [usize], place: usize, more: usize) {
    let count = count_at(counts, place);
    put_count(counts, place, count.saturating_add(more));
}

pub(crate) fn number_at(numbers: &[i128], place: usize) -> i128 {
    match numbers.get(place) {
        Some(number) => *number,
        None => 0,
    }
}

pub(crate) fn is_at(flags: &[bool], place: usize) -> bool {
    match flags.get(place) {
        Some(flag) => *flag,
        None => false,
    }
}

pub(crate) fn put_flag(flags: &mut [bool], place: usize, flag: bool) {
    if place < flags.len() {
        flags[place] = flag;
    }
}

/// So many equal counts.
pub(crate) fn counts_of(alloc: Global, len: usize, count: usize) -> Result<Vec<usize>, AllocError> {
    let mut counts: Vec<usize> = Vec::with_capacity(alloc, len)?;
    for _place in 0..len {
        counts.push(count)?;
    }
    Ok(counts)
}

/// So many flags, none of which is up.
pub(crate) fn flags_of(alloc: Global, len: usize) -> Result<Vec<bool>, AllocError> {
    let mut flags: Vec<bool> = Vec::with_capacity(alloc, len)?;
    for _place in 0..len {
        flags.push(false)?;
    }
    Ok(flags)
}

/// The sum, or the first number where it is out of range.
pub(crate) fn plus(first: i128, second: i128) -> i128 {
    match first.checked_add(second) {
        Some(sum) => sum,
        None => first,
    }
}

/// Lists of places, one after another: each from its start to that of the next.
#[derive(Drop)]
pub(crate) struct Grouped {
    starts: Vec<usize>,
    items: Vec<usize>,
}

impl Grouped {
    /// The items of each of so many groups, from pairs of a group and an item, in their order.
    pub(crate) fn new(
        alloc: Global,
        groups: usize,
        pairs: &[(usize, usize)],
    ) -> Result<Grouped, AllocError> {
        let mut starts = counts_of(alloc, groups.saturating_add(1), 0)?;
        for (group, _) in pairs {
            add_to_count(starts.as_mut_slice(), *group, 1);
        }
        add_up(starts.as_mut_slice());
        let mut next = counts_of(alloc, starts.len(), 0)?;
        for group in 0..starts.len() {
            put_count(
                next.as_mut_slice(),
                group,
                count_at(starts.as_slice(), group),
            );
        }
        let mut items = counts_of(alloc, pairs.len(), 0)?;
        for (group, item) in pairs {
            put_count(
                items.as_mut_slice(),
                count_at(next.as_slice(), *group),
                *item,
            );
            add_to_count(next.as_mut_slice(), *group, 1);
        }
        Ok(Grouped { starts, items })
    }

    /// The items of a group.
    pub(crate) fn of(&self, group: usize) -> &[usize] {
        let start = count_at(self.starts.as_slice(), group);
        let end = count_at(self.starts.as_slice(), group.saturating_add(1));
        if start <= end && end <= self.items.len() {
            &self.items[start..end]
        } else {
            &[]
        }
    }
}

/// Counts become the starts of the groups.
fn add_up(counts: &mut [usize]) {
    let mut sum: usize = 0;
    for group in 0..counts.len() {
        let count = counts[group];
        counts[group] = sum;
        sum = sum.saturating_add(count);
    }
}
