//! Gathered positions, compared with a plain list.
use crate::tests::compared::{LISTS, count};
use crate::tests::numbers::symbols_of;
use std::alloc::Allocator;
use std::ops::Range;
use test_alloc::{Check, is_made_right};
use vers_tally::tally::Tally;
use vers_wavelet::wavelet::{Gathered, GatheredQuery, WaveletMatrix};

// The number of the three digits of each symbol in reverse order.
const TURNED: [u64; 8] = [0, 4, 2, 6, 1, 5, 3, 7];

// The greatest number of rank calls: two for each of three digits.
const MOST: u64 = 6;

fn turned(symbol: u64) -> u64 {
    TURNED[(symbol % 8) as usize]
}

// Returns the number of occurrences of a symbol in the first positions.
fn seen(numbers: &[u64], end: usize, symbol: u64) -> usize {
    count(
        numbers.get(0..end).unwrap_or(&[]),
        symbol,
        symbol.saturating_add(1),
    )
}

// Returns the gathered position of the first of a symbol from a position on.
fn gathered(numbers: &[u64], position: usize, symbol: u64) -> usize {
    let mut before = seen(numbers, position, symbol % 8);
    for it in numbers {
        if turned(*it) < turned(symbol) {
            before = before.saturating_add(1);
        }
    }
    before
}

fn ends(range: Option<Range<usize>>) -> Option<(usize, usize)> {
    let range = range?;
    Some((range.start, range.end))
}

// Returns true if both forms of the call return the symbol at a position and its gathered position, within
// their bounds.
fn is_gathered<A: Allocator + Copy>(
    list: &WaveletMatrix<A>,
    numbers: &[u64],
    position: usize,
) -> bool {
    let mut tally = Tally::new();
    let wanted = match numbers.get(position) {
        Some(symbol) => Some(Gathered {
            symbol: *symbol,
            position: gathered(numbers, position, *symbol),
        }),
        None => None,
    };
    list.get_gathered_u64(position) == wanted
        && list.get_gathered_u64_counted(position, &mut tally) == wanted
        && tally.rank_calls() <= MOST
}

// Returns true if all forms of the call return the gathered position of the first of each symbol from a
// position on, within their bounds.
fn is_position_gathered<A: Allocator + Copy>(
    list: &WaveletMatrix<A>,
    numbers: &[u64],
    position: usize,
) -> bool {
    for symbol in 0..10 {
        let mut tally = Tally::new();
        let wanted = match numbers.get(0..position) {
            Some(_) => Some(gathered(numbers, position, symbol)),
            None => None,
        };
        if list.gathered_u64(position, symbol) != wanted
            || list.gathered_u64_counted(position, symbol, &mut tally) != wanted
            || tally.rank_calls() > MOST / 2
        {
            return false;
        }
        if position <= list.len() && list.bits_per_element() <= 64 {
            let is_same = Some(list.gathered_u64_unchecked(position, symbol)) == wanted;
            if !is_same {
                return false;
            }
        }
    }
    true
}

// Returns true if a batch returns the gathered position of the first of each symbol from a position on.
fn are_gathered_together<A: Allocator + Copy>(
    list: &WaveletMatrix<A>,
    numbers: &[u64],
    position: usize,
) -> bool {
    let mut queries = [GatheredQuery::new(position, 0); 10];
    for (symbol, query) in queries.iter_mut().enumerate() {
        *query = GatheredQuery::new(position, symbol as u64);
    }
    list.gathered_u64_each(&mut queries);
    for (symbol, query) in queries.iter().enumerate() {
        let wanted = match numbers.get(0..position) {
            Some(_) => Some(gathered(numbers, position, symbol as u64)),
            None => None,
        };
        if query.answer != wanted {
            return false;
        }
    }
    true
}

// Returns the gathered positions of a symbol from `a` on, before `b`.
fn range_gathered(numbers: &[u64], a: usize, b: usize, symbol: u64) -> Option<(usize, usize)> {
    numbers.get(a..b)?;
    let start = gathered(numbers, a, symbol);
    let end = gathered(numbers, b, symbol);
    if start < end {
        Some((start, end))
    } else {
        None
    }
}

// Returns true if both forms of the call return the gathered positions of the symbols of a range, within their
// bounds.
fn is_range_gathered<A: Allocator + Copy>(
    list: &WaveletMatrix<A>,
    numbers: &[u64],
    a: usize,
    b: usize,
) -> bool {
    for symbol in 0..10 {
        let mut tally = Tally::new();
        let wanted = range_gathered(numbers, a, b, symbol);
        let counted = list.gathered_range_u64_counted(a..b, symbol, &mut tally);
        if ends(list.gathered_range_u64(a..b, symbol)) != wanted
            || ends(counted) != wanted
            || tally.rank_calls() > MOST
        {
            return false;
        }
    }
    true
}

// A plain list, which gathered symbols must match.
#[derive(Drop)]
struct Plain<'a>(&'a [u64]);

impl<A: Allocator + Copy> Check<WaveletMatrix<A>> for Plain<'_> {
    fn is_right(&self, list: &mut WaveletMatrix<A>) -> bool {
        let end = self.0.len().saturating_add(3);
        for a in 0..end {
            if !is_gathered(list, self.0, a)
                || !is_position_gathered(list, self.0, a)
                || !are_gathered_together(list, self.0, a)
            {
                return false;
            }
            for b in 0..end {
                if !is_range_gathered(list, self.0, a, b) {
                    return false;
                }
            }
        }
        is_gathered(list, self.0, usize::MAX)
    }
}

#[test]
fn gathered_as_a_plain_list(rt: HostRuntime) {
    for numbers in LISTS {
        assert!(rt; is_made_right(symbols_of(rt.alloc(), numbers, 3), &Plain(numbers)));
    }
}
