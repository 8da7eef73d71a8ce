//! Symbols that are numbers, and their queries.
use std::alloc::{AllocError, Allocator};
use test_alloc::Step;
use vers_tally::tally::Tally;
use vers_wavelet::wavelet::WaveletMatrix;

/// Returns the symbols of that many low bits of each number.
pub fn symbols_of<A: Allocator + Copy>(
    alloc: A,
    numbers: &[u64],
    width: u16,
) -> Result<WaveletMatrix<A>, AllocError> {
    WaveletMatrix::from_slice(alloc, numbers, width.min(64))
}

/// The number of bits that the symbols of falling numbers have.
pub const WIDTH: u16 = 10;

/// Returns numbers that fall to 0, each but the first or the last of them twice.
pub fn falling_numbers<A: Allocator + Copy>(
    alloc: A,
    len: usize,
) -> Result<Vec<u64, A>, AllocError> {
    let mut numbers = Vec::new(alloc);
    for i in 0..len {
        numbers.push((len - 1 - i) as u64 / 2)?;
    }
    Ok(numbers)
}

/// Those of falling numbers that a walk has left, in their order or ascending.
#[derive(Clone, Copy, Drop)]
pub struct Falling {
    count: usize,
    from: usize,
    to: usize,
    is_by_size: bool,
}

impl Falling {
    /// Returns all of `count` numbers, in their order.
    pub fn new(count: usize) -> Falling {
        Falling {
            count,
            from: 0,
            to: count,
            is_by_size: false,
        }
    }

    /// Returns the same numbers, ascending.
    pub fn by_size(self) -> Falling {
        Falling {
            is_by_size: true,
            ..self
        }
    }

    /// Returns the number of items left.
    pub fn len(&self) -> usize {
        self.to.saturating_sub(self.from)
    }

    // Returns the number at a position.
    fn number(&self, position: usize) -> u64 {
        if self.is_by_size {
            position as u64 / 2
        } else {
            self.count.saturating_sub(position).saturating_sub(1) as u64 / 2
        }
    }

    // Skips `n` numbers and takes the next.
    fn front(&mut self, n: usize) -> Option<u64> {
        if n >= self.len() {
            self.from = self.to;
            return None;
        }
        let position = self.from.saturating_add(n);
        self.from = position.saturating_add(1);
        Some(self.number(position))
    }

    // Does the same from the back.
    fn back(&mut self, n: usize) -> Option<u64> {
        if n >= self.len() {
            self.from = self.to;
            return None;
        }
        self.to = self.to.saturating_sub(n).saturating_sub(1);
        Some(self.number(self.to))
    }

    /// Returns the answer of a step of a walk.
    pub fn take(&mut self, step: Step) -> Option<u64> {
        match step {
            Step::Next => self.front(0),
            Step::NextBack => self.back(0),
            Step::Nth(n) => self.front(n),
            Step::NthBack(n) => self.back(n),
            Step::Len => Some(self.len() as u64),
        }
    }
}

/// The queries of symbols. A range is given by its two ends.
#[derive(Clone, Copy, Drop)]
pub enum Query {
    Len,
    IsEmpty,
    Width,
    BitLen,
    HeapSize,
    Get(usize),
    RankRange(usize, usize, u64),
    RankOffset(usize, usize, u64),
    Rank(usize, u64),
    SelectOffset(usize, usize, u64),
    Select(usize, u64),
    Quantile(usize, usize, usize),
    Sorted(usize),
    Min(usize, usize),
    Max(usize, usize),
    Median(usize, usize),
    Predecessor(usize, usize, u64),
    Successor(usize, usize, u64),
}

/// Returns a position or a count as a number.
pub fn as_number(n: Option<usize>) -> Option<u64> {
    Some(n? as u64)
}

// Returns the answer of a query of a range of symbols, for numbers.
fn range_answer<A: Allocator + Copy>(list: &WaveletMatrix<A>, query: Query) -> Option<u64> {
    match query {
        Query::RankRange(a, b, s) => as_number(list.rank_range_u64(a..b, s)),
        Query::RankOffset(a, b, s) => as_number(list.rank_offset_u64(a, b, s)),
        Query::Quantile(a, b, i) => list.quantile_u64(a..b, i),
        Query::Min(a, b) => list.range_min_u64(a..b),
        Query::Max(a, b) => list.range_max_u64(a..b),
        Query::Median(a, b) => list.range_median_u64(a..b),
        Query::Predecessor(a, b, s) => list.predecessor_u64(a..b, s),
        Query::Successor(a, b, s) => list.successor_u64(a..b, s),
        _ => None,
    }
}

/// Returns the answer of one query, for numbers.
pub fn answer<A: Allocator + Copy>(list: &WaveletMatrix<A>, query: Query) -> Option<u64> {
    match query {
        Query::Len => Some(list.len() as u64),
        Query::IsEmpty => Some(u64::from(list.is_empty())),
        Query::Width => Some(list.bits_per_element() as u64),
        Query::BitLen => Some(u64::from(list.bit_len())),
        Query::HeapSize => Some(list.heap_size() as u64),
        Query::Get(i) => list.get_u64(i),
        Query::Rank(i, s) => as_number(list.rank_u64(i, s)),
        Query::SelectOffset(o, r, s) => as_number(list.select_offset_u64(o, r, s)),
        Query::Select(r, s) => as_number(list.select_u64(r, s)),
        Query::Sorted(i) => list.get_sorted_u64(i),
        _ => range_answer(list, query),
    }
}

// Returns the answer of the counted form of a query of a range of symbols, for numbers.
fn counted_range_answer<A: Allocator + Copy>(
    list: &WaveletMatrix<A>,
    query: Query,
    tally: &mut Tally,
) -> Option<u64> {
    match query {
        Query::RankRange(a, b, s) => as_number(list.rank_range_u64_counted(a..b, s, tally)),
        Query::RankOffset(a, b, s) => as_number(list.rank_offset_u64_counted(a, b, s, tally)),
        Query::Quantile(a, b, i) => list.quantile_u64_counted(a..b, i, tally),
        Query::Min(a, b) => list.range_min_u64_counted(a..b, tally),
        Query::Max(a, b) => list.range_max_u64_counted(a..b, tally),
        Query::Median(a, b) => list.range_median_u64_counted(a..b, tally),
        Query::Predecessor(a, b, s) => list.predecessor_u64_counted(a..b, s, tally),
        Query::Successor(a, b, s) => list.successor_u64_counted(a..b, s, tally),
        _ => answer(list, query),
    }
}

/// Returns the answer of the counted form of a query, or of its plain form if it has none.
pub fn counted_answer<A: Allocator + Copy>(
    list: &WaveletMatrix<A>,
    query: Query,
    tally: &mut Tally,
) -> Option<u64> {
    match query {
        Query::Get(i) => list.get_u64_counted(i, tally),
        Query::Rank(i, s) => as_number(list.rank_u64_counted(i, s, tally)),
        Query::SelectOffset(o, r, s) => as_number(list.select_offset_u64_counted(o, r, s, tally)),
        Query::Select(r, s) => as_number(list.select_u64_counted(r, s, tally)),
        Query::Sorted(i) => list.get_sorted_u64_counted(i, tally),
        _ => counted_range_answer(list, query, tally),
    }
}

/// Returns the position that an unchecked select returns, or `None` if it is the length.
pub fn position_below(position: usize, len: usize) -> Option<u64> {
    (position != len).then_some(position as u64)
}

// Returns the answer of the unchecked form of a query by size, or of its plain form if the precondition doesn't
// hold.
fn unchecked_by_size<A: Allocator + Copy>(list: &WaveletMatrix<A>, query: Query) -> Option<u64> {
    let len = list.len();
    if list.bits_per_element() > 64 {
        return answer(list, query);
    }
    match query {
        Query::Quantile(a, b, i) if a < b && b <= len && i < b - a => {
            Some(list.quantile_u64_unchecked(a..b, i))
        }
        Query::Sorted(i) if i < len => Some(list.get_sorted_u64_unchecked(i)),
        Query::Min(a, b) if a < b && b <= len => Some(list.range_min_u64_unchecked(a..b)),
        Query::Max(a, b) if a < b && b <= len => Some(list.range_max_u64_unchecked(a..b)),
        Query::Median(a, b) if a < b && b <= len => Some(list.range_median_u64_unchecked(a..b)),
        _ => answer(list, query),
    }
}

/// Returns the answer of the unchecked form of a query, if its precondition holds and the query has an answer
/// or finds nothing; otherwise that of its plain form.
pub fn unchecked_answer<A: Allocator + Copy>(list: &WaveletMatrix<A>, query: Query) -> Option<u64> {
    let len = list.len();
    if list.bits_per_element() > 64 {
        return answer(list, query);
    }
    match query {
        Query::Get(i) if i < len => Some(list.get_u64_unchecked(i)),
        Query::RankRange(a, b, s) if a < len && a <= b && b <= len => {
            Some(list.rank_range_u64_unchecked(a..b, s) as u64)
        }
        Query::RankOffset(a, b, s) if a < len && a <= b && b <= len => {
            Some(list.rank_offset_u64_unchecked(a, b, s) as u64)
        }
        Query::Rank(i, s) if i <= len => Some(list.rank_u64_unchecked(i, s) as u64),
        Query::SelectOffset(o, r, s) if o <= len => {
            position_below(list.select_offset_u64_unchecked(o, r, s), len)
        }
        Query::Select(r, s) => position_below(list.select_u64_unchecked(r, s), len),
        _ => unchecked_by_size(list, query),
    }
}

/// Returns true if a query made at most four rank calls for each bit of a symbol.
pub fn is_within<A: Allocator + Copy>(list: &WaveletMatrix<A>, tally: &Tally) -> bool {
    tally.rank_calls() <= 4 * u64::from(list.bit_len())
}

/// Returns true if all forms of a query for numbers have that answer, and the counted one within its bound.
pub fn is_answered<A: Allocator + Copy>(
    list: &WaveletMatrix<A>,
    query: Query,
    wanted: Option<u64>,
) -> bool {
    let mut tally = Tally::new();
    answer(list, query) == wanted
        && counted_answer(list, query, &mut tally) == wanted
        && is_within(list, &tally)
        && unchecked_answer(list, query) == wanted
}
