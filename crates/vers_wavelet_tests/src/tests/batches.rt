//! Many queries at once, compared with a plain list and with single queries. Each overwrites an answer.
use crate::tests::compared::{LISTS, count, found, kth};
use crate::tests::numbers::{WIDTH, falling_numbers, symbols_of};
use std::alloc::{AllocError, Allocator, Global};
use test_alloc::{Check, is_made_right};
use vers_wavelet::wavelet::{GetQuery, QuantileQuery, RankQuery, SelectQuery, WaveletMatrix};

// More positions than a list has, so that a batch also queries past the end.
const POSITIONS: usize = 16;

// Symbols to be searched. Of 3 digits they are all eight, and two of them again.
const SYMBOLS: [u64; 10] = [0, 1, 2, 3, 4, 5, 6, 7, 8, 12];

// Returns true if the symbols at all positions, past the end too, are those of a plain list.
fn gets_are_right<A: Allocator + Copy>(list: &WaveletMatrix<A>, numbers: &[u64]) -> bool {
    let mut queries = [GetQuery::new(0); POSITIONS];
    for (position, query) in queries.iter_mut().enumerate() {
        *query = GetQuery::new(position);
        query.answer = Some(9);
    }
    list.get_u64_each(&mut queries);
    for (position, query) in queries.iter().enumerate() {
        let wanted = numbers.get(position).copied();
        if query.answer != wanted || list.get_u64(position) != wanted {
            return false;
        }
    }
    true
}

// Returns true if each symbol is counted as in a plain list, in that many of its first positions.
fn ranks_are_right<A: Allocator + Copy>(
    list: &WaveletMatrix<A>,
    numbers: &[u64],
    end: usize,
) -> bool {
    let mut queries = [RankQuery::new(end, 0); SYMBOLS.len()];
    for (query, symbol) in queries.iter_mut().zip(&SYMBOLS) {
        *query = RankQuery::new(end, *symbol);
        query.answer = Some(9);
    }
    list.rank_u64_each(&mut queries);
    for (query, symbol) in queries.iter().zip(&SYMBOLS) {
        let digits = *symbol % 8;
        let wanted = numbers
            .get(0..end)
            .map(|part| count(part, digits, digits + 1));
        if query.answer != wanted || list.rank_u64(end, *symbol) != wanted {
            return false;
        }
    }
    true
}

// Returns true if occurrence `rank` of each symbol is found where it is in a plain list.
fn selects_are_right<A: Allocator + Copy>(
    list: &WaveletMatrix<A>,
    numbers: &[u64],
    rank: usize,
) -> bool {
    let mut queries = [SelectQuery::new(rank, 0); SYMBOLS.len()];
    for (query, symbol) in queries.iter_mut().zip(&SYMBOLS) {
        *query = SelectQuery::new(rank, *symbol);
        query.answer = Some(9);
    }
    list.select_u64_each(&mut queries);
    for (query, symbol) in queries.iter().zip(&SYMBOLS) {
        let position = query.answer.map(|it| it as u64);
        if position != found(numbers, rank, *symbol % 8)
            || query.answer != list.select_u64(rank, *symbol)
        {
            return false;
        }
    }
    true
}

// Returns true if the elements by size of each range that begins at a position are those of a plain list.
fn quantiles_are_right<A: Allocator + Copy>(
    list: &WaveletMatrix<A>,
    numbers: &[u64],
    start: usize,
    i: usize,
) -> bool {
    let mut queries = [QuantileQuery::new(start, 0, i); POSITIONS];
    for (end, query) in queries.iter_mut().enumerate() {
        *query = QuantileQuery::new(start, end, i);
        query.answer = Some(9);
    }
    list.quantile_u64_each(&mut queries);
    for (end, query) in queries.iter().enumerate() {
        let wanted = match numbers.get(start..end) {
            Some(part) => kth(part, i),
            None => None,
        };
        if query.answer != wanted || list.quantile_u64(start..end, i) != wanted {
            return false;
        }
    }
    true
}

// Returns true if that holds for each range and each number of an element.
fn all_quantiles_are_right<A: Allocator + Copy>(list: &WaveletMatrix<A>, numbers: &[u64]) -> bool {
    for start in 0..POSITIONS {
        for i in 0..POSITIONS {
            if !quantiles_are_right(list, numbers, start, i) {
                return false;
            }
        }
    }
    true
}

// A plain list, which symbols must match in every batch.
#[derive(Drop)]
struct Plain<'a>(&'a [u64]);

impl<A: Allocator + Copy> Check<WaveletMatrix<A>> for Plain<'_> {
    fn is_right(&self, list: &mut WaveletMatrix<A>) -> bool {
        for n in 0..POSITIONS {
            if !ranks_are_right(list, self.0, n) || !selects_are_right(list, self.0, n) {
                return false;
            }
        }
        ranks_are_right(list, self.0, usize::MAX)
            && selects_are_right(list, self.0, usize::MAX)
            && gets_are_right(list, self.0)
            && all_quantiles_are_right(list, self.0)
    }
}

#[test]
fn batches_as_a_plain_list(rt: HostRuntime) {
    for numbers in LISTS {
        assert!(rt; is_made_right(symbols_of(rt.alloc(), numbers, 3), &Plain(numbers)));
    }
}

// Falling numbers from 64 on, each of them twice.
#[derive(Drop)]
struct Twice;

// More queries than a group has, some of which are for symbols that don't occur.
impl<A: Allocator + Copy> Check<WaveletMatrix<A>> for Twice {
    fn is_right(&self, list: &mut WaveletMatrix<A>) -> bool {
        let mut queries = [SelectQuery::new(0, 0); 200];
        for (i, query) in queries.iter_mut().enumerate() {
            *query = SelectQuery::new(i / 70, i as u64 % 70);
        }
        list.select_u64_each(&mut queries);
        for (i, query) in queries.iter().enumerate() {
            let position = (128 + i / 70).checked_sub(i % 70 * 2);
            if query.answer != if i / 70 < 2 { position } else { None } {
                return false;
            }
        }
        true
    }
}

fn twice_is_right(alloc: Global) -> Result<bool, AllocError> {
    let numbers = falling_numbers(alloc, 130)?;
    Ok(is_made_right(symbols_of(alloc, numbers.as_slice(), WIDTH), &Twice))
}

#[test]
fn batches_of_several_groups(rt: HostRuntime) {
    assert!(rt; matches!(twice_is_right(rt.alloc()), Ok(true)));
}
