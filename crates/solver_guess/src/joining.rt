//! Numbers that are joined into classes, with the places that joined them. This guides a guess, and no answer rests on it.
use std::alloc::{AllocError, Global};

/// A place joins a number to another one.
#[derive(Clone, Copy)]
struct Link {
    to: usize,
    place: usize,
}

/// The numbers below a count, in classes.
#[derive(Drop)]
pub(crate) struct Classes {
    /// The number above each; the highest of a class is its own.
    ups: Vec<usize>,
    /// How many numbers a class has, at its highest.
    sizes: Vec<usize>,
    /// How each number was joined to another.
    links: Vec<Option<Link>>,
}

/// The numbers and places that lead from a number to one that has no link.
#[derive(Drop)]
struct Way {
    numbers: Vec<usize>,
    places: Vec<usize>,
}

/// More steps than lead to the highest number of a class, since the smaller class goes below the larger one.
const STEPS: usize = 64;

fn number_at(numbers: &[usize], place: usize) -> usize {
    match numbers.get(place) {
        Some(number) => *number,
        None => place,
    }
}

fn put(numbers: &mut [usize], place: usize, number: usize) {
    if place < numbers.len() {
        numbers[place] = number;
    }
}

/// How many of the last numbers two lists share.
fn shared_end(first: &[usize], second: &[usize]) -> usize {
    let most = first.len().min(second.len());
    for count in 0..most {
        if first[first.len() - (count + 1)] != second[second.len() - (count + 1)] {
            return count;
        }
    }
    most
}

impl Classes {
    /// Each number alone.
    pub(crate) fn new(alloc: Global, count: usize) -> Result<Classes, AllocError> {
        let mut ups: Vec<usize> = Vec::with_capacity(alloc, count)?;
        let mut sizes: Vec<usize> = Vec::with_capacity(alloc, count)?;
        let mut links: Vec<Option<Link>> = Vec::with_capacity(alloc, count)?;
        for number in 0..count {
            ups.push(number)?;
            sizes.push(1)?;
            links.push(None)?;
        }
        Ok(Classes { ups, sizes, links })
    }

    /// The number that stands for a number's class.
    pub(crate) fn root(&self, number: usize) -> usize {
        let mut at = number;
        for _step in 0..STEPS {
            let up = number_at(self.ups.as_slice(), at);
            if up == at {
                return at;
            }
            at = up;
        }
        at
    }

    /// Makes the classes of two numbers one.
    pub(crate) fn join(&mut self, first: usize, second: usize, place: usize) {
        let left = self.root(first);
        let right = self.root(second);
        if left == right {
            return;
        }
        let left_size = number_at(self.sizes.as_slice(), left);
        let right_size = number_at(self.sizes.as_slice(), right);
        let size = left_size.saturating_add(right_size);
        if left_size < right_size {
            self.put_below(left, right, size);
            self.turn(first, Link { to: second, place });
        } else {
            self.put_below(right, left, size);
            self.turn(second, Link { to: first, place });
        }
    }

    fn put_below(&mut self, low: usize, high: usize, size: usize) {
        put(self.ups.as_mut_slice(), low, high);
        put(self.sizes.as_mut_slice(), high, size);
    }

    /// The link of a number, where there is one, and another one in its stead.
    fn replace(&mut self, number: usize, link: Link) -> Option<Link> {
        if self.links.len() <= number {
            return None;
        }
        let old = self.links[number];
        self.links[number] = Some(link);
        old
    }

    /// Turns the links that lead on from a number, so that it can have another one.
    fn turn(&mut self, number: usize, link: Link) {
        let mut at = number;
        let mut new = link;
        for _step in 0..self.links.len() {
            match self.replace(at, new) {
                Some(old) => {
                    new = Link {
                        to: at,
                        place: old.place,
                    };
                    at = old.to;
                }
                None => return,
            }
        }
    }

    fn link_of(&self, number: usize) -> Option<Link> {
        match self.links.get(number) {
            Some(link) => *link,
            None => None,
        }
    }

    fn way_from(&self, alloc: Global, number: usize) -> Result<Way, AllocError> {
        let mut numbers: Vec<usize> = Vec::new(alloc);
        let mut places: Vec<usize> = Vec::new(alloc);
        numbers.push(number)?;
        let mut at = number;
        for _step in 0..self.links.len() {
            match self.link_of(at) {
                Some(link) => {
                    numbers.push(link.to)?;
                    places.push(link.place)?;
                    at = link.to;
                }
                None => return Ok(Way { numbers, places }),
            }
        }
        Ok(Way { numbers, places })
    }

    /// The places that lead from a number to another one of its class.
    pub(crate) fn chain(
        &self,
        alloc: Global,
        first: usize,
        second: usize,
    ) -> Result<Vec<usize>, AllocError> {
        let up = self.way_from(alloc, first)?;
        let down = self.way_from(alloc, second)?;
        let shared = shared_end(up.numbers.as_slice(), down.numbers.as_slice());
        let mut chain: Vec<usize> = Vec::new(alloc);
        let ups = up.numbers.len().saturating_sub(shared);
        for place in up.places.iter().take(ups) {
            chain.push(*place)?;
        }
        let downs = down.numbers.len().saturating_sub(shared);
        for step in 0..downs {
            let back = downs - (step + 1);
            if back < down.places.len() {
                chain.push(down.places[back])?;
            }
        }
        Ok(chain)
    }
}
