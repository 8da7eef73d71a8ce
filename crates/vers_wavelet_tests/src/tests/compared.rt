//! Answers for numbers compared with those of a plain list, over every range and every symbol.
use crate::tests::lists::is_answered_in_lists;
use crate::tests::numbers::{Query, is_answered, symbols_of};
use std::alloc::Allocator;
use test_alloc::{Check, is_made_right};
use vers_wavelet::wavelet::WaveletMatrix;

/// Lists of symbols of 3 bits.
pub const LISTS: [&[u64]; 3] = [
    &[1, 4, 4, 1, 3, 1, 4, 3, 2, 0],
    &[7, 7, 7],
    &[0, 1, 2, 3, 4, 5, 6, 7, 6, 5, 4, 3, 2],
];

/// Returns the number of elements of a range that are at least one number and below another.
pub fn count(numbers: &[u64], from: u64, end: u64) -> usize {
    let mut found = 0usize;
    for it in numbers {
        if from <= *it && *it < end {
            found = found.saturating_add(1);
        }
    }
    found
}

// Returns the number of elements of a range below a number.
fn below(numbers: &[u64], number: u64) -> usize {
    count(numbers, 0, number)
}

/// Returns the least number of 3 bits that more than `i` elements of a range are at most.
pub fn kth(numbers: &[u64], i: usize) -> Option<u64> {
    for number in 0..8 {
        if below(numbers, number + 1) > i {
            return Some(number);
        }
    }
    None
}

/// Returns the position of occurrence `rank` of a number.
pub fn found(numbers: &[u64], rank: usize, number: u64) -> Option<u64> {
    let mut left = rank;
    for (position, it) in numbers.iter().enumerate() {
        if *it == number {
            if left == 0 {
                return Some(position as u64);
            }
            left -= 1;
        }
    }
    None
}

// Returns the greatest element that is at most a number.
fn predecessor(numbers: &[u64], number: u64) -> Option<u64> {
    let n = below(numbers, number.saturating_add(1));
    if n == 0 { None } else { kth(numbers, n - 1) }
}

// Returns the ends of the range that a query is about.
fn range_of(query: Query) -> Option<(usize, usize)> {
    match query {
        Query::RankRange(a, b, _) | Query::Predecessor(a, b, _) | Query::Successor(a, b, _) => {
            Some((a, b))
        }
        Query::Quantile(a, b, _) => Some((a, b)),
        _ => None,
    }
}

// Returns the answer of a query by the elements of its range.
fn plain_of_range(part: &[u64], query: Query) -> Option<u64> {
    match query {
        Query::RankRange(_, _, s) => Some(count(part, s, s.saturating_add(1)) as u64),
        Query::Quantile(_, _, i) => kth(part, i),
        Query::Predecessor(_, _, s) => predecessor(part, s.min(7)),
        Query::Successor(_, _, s) => kth(part, below(part, s)),
        _ => None,
    }
}

// Returns the answer of a query by the plain list.
fn plain_answer(numbers: &[u64], query: Query) -> Option<u64> {
    match query {
        Query::Select(r, s) => found(numbers, r, s),
        Query::RankRange(a, _, _) if a >= numbers.len() => None,
        _ => {
            let (a, b) = range_of(query)?;
            plain_of_range(numbers.get(a..b)?, query)
        }
    }
}

// A range of a list, and a symbol or the number of an element.
#[derive(Clone, Copy, Drop)]
struct Part {
    a: usize,
    b: usize,
    s: u64,
}

// Returns true if numbers and lists of bits answer each query about a part as the plain list does.
fn is_right_about<A: Allocator + Copy>(
    alloc: A,
    list: &WaveletMatrix<A>,
    numbers: &[u64],
    part: Part,
) -> bool {
    let Part { a, b, s } = part;
    let queries = [
        Query::RankRange(a, b, s),
        Query::Select(a, s),
        Query::Quantile(a, b, s as usize),
        Query::Predecessor(a, b, s),
        Query::Successor(a, b, s),
    ];
    for query in queries.iter() {
        let wanted = plain_answer(numbers, *query);
        if !is_answered(list, *query, wanted)
            || !is_answered_in_lists(alloc, list, *query, wanted)
        {
            return false;
        }
    }
    true
}

// A plain list, which represents its symbols.
#[derive(Drop)]
struct Plain<'a, A: Allocator + Copy> {
    alloc: A,
    numbers: &'a [u64],
}

// Checks whether symbols answer as it does about each part.
impl<A: Allocator + Copy> Check<WaveletMatrix<A>> for Plain<'_, A> {
    fn is_right(&self, list: &mut WaveletMatrix<A>) -> bool {
        let end = self.numbers.len().saturating_add(2);
        for a in 0..end {
            for b in 0..end {
                for s in 0..8 {
                    if !is_right_about(self.alloc, list, self.numbers, Part { a, b, s }) {
                        return false;
                    }
                }
            }
        }
        true
    }
}

// Returns the first list whose symbols answer a query otherwise.
fn first_wrong_list<A: Allocator + Copy>(alloc: A, lists: &[&[u64]]) -> Option<usize> {
    for (case, numbers) in lists.iter().enumerate() {
        if !is_made_right(symbols_of(alloc, numbers, 3), &Plain { alloc, numbers }) {
            return Some(case);
        }
    }
    None
}

#[test]
fn every_range_as_a_plain_list(rt: HostRuntime) {
    assert!(rt; first_wrong_list(rt.alloc(), &LISTS).is_none());
}
