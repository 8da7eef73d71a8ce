//! Each query by its plain and its counted form, over tables of queries and their answers.
use std::alloc::Allocator;
use vers_rank::fast_rs_vec::RsVec;
use vers_tally::tally::Tally;

/// A query and its arguments.
#[derive(Clone, Copy, Drop)]
pub enum Query {
    Len,
    IsEmpty,
    Zeros,
    Ones,
    HeapSize,
    Get(usize),
    GetBits(usize, usize),
    Rank0(usize),
    Rank1(usize),
    Select0(usize),
    Select1(usize),
    Select(bool, usize),
    Select0Each(usize),
    Select1Each(usize),
    ZeroPairFirst(usize),
    ZeroPairSecond(usize),
    PairFirst(usize),
    PairSecond(usize),
    Successor0(usize),
    Successor1(usize),
    Predecessor0(usize),
    Predecessor1(usize),
}

// Returns a few numbers for a batch, the last of which is `r`.
fn batch_with(r: usize) -> [usize; 3] {
    [0, usize::MAX, r]
}

// Returns the answer for the last of them.
fn answer_of(positions: [usize; 3]) -> Option<u64> {
    Some(positions[2] as u64)
}

/// Returns the answer of a query in its plain form.
pub fn answer<A: Allocator + Copy>(list: &RsVec<A>, query: Query) -> Option<u64> {
    match query {
        Query::Len => Some(list.len() as u64),
        Query::IsEmpty => Some(u64::from(list.is_empty())),
        Query::Zeros => Some(list.zeros() as u64),
        Query::Ones => Some(list.ones() as u64),
        Query::HeapSize => Some(list.heap_size() as u64),
        Query::Get(position) => list.get(position),
        Query::GetBits(position, n) => list.get_bits(position, n),
        Query::Rank0(position) => Some(list.rank0(position) as u64),
        Query::Rank1(position) => Some(list.rank1(position) as u64),
        Query::Select0(r) | Query::Select(false, r) => Some(list.select0(r) as u64),
        Query::Select1(r) | Query::Select(true, r) => Some(list.select1(r) as u64),
        Query::Select0Each(r) => {
            let mut numbers = batch_with(r);
            list.select0_each(&mut numbers);
            answer_of(numbers)
        }
        Query::Select1Each(r) => {
            let mut numbers = batch_with(r);
            list.select1_each(&mut numbers);
            answer_of(numbers)
        }
        Query::ZeroPairFirst(r) => Some(list.select0_pair(r).first as u64),
        Query::ZeroPairSecond(r) => Some(list.select0_pair(r).second as u64),
        Query::PairFirst(r) => Some(list.select1_pair(r).first as u64),
        Query::PairSecond(r) => Some(list.select1_pair(r).second as u64),
        Query::Successor0(position) => list.successor0(position),
        Query::Successor1(position) => list.successor1(position),
        Query::Predecessor0(position) => list.predecessor0(position),
        Query::Predecessor1(position) => list.predecessor1(position),
    }
}

/// Returns the answer of a query in its counted form, or none if it has no such form.
pub fn counted<A: Allocator + Copy>(
    list: &RsVec<A>,
    query: Query,
    tally: &mut Tally,
) -> Option<u64> {
    match query {
        Query::Get(position) => list.get_counted(position, tally),
        Query::GetBits(position, n) => list.get_bits_counted(position, n, tally),
        Query::Rank0(position) => Some(list.rank0_counted(position, tally) as u64),
        Query::Rank1(position) => Some(list.rank1_counted(position, tally) as u64),
        Query::Select0(r) => Some(list.select0_counted(r, tally) as u64),
        Query::Select1(r) => Some(list.select1_counted(r, tally) as u64),
        Query::Select(bit, r) => Some(list.select_counted(bit, r, tally) as u64),
        Query::Select0Each(r) => {
            let mut numbers = batch_with(r);
            list.select0_each_counted(&mut numbers, tally);
            answer_of(numbers)
        }
        Query::Select1Each(r) => {
            let mut numbers = batch_with(r);
            list.select1_each_counted(&mut numbers, tally);
            answer_of(numbers)
        }
        Query::ZeroPairFirst(r) => Some(list.select0_pair_counted(r, tally).first as u64),
        Query::ZeroPairSecond(r) => Some(list.select0_pair_counted(r, tally).second as u64),
        Query::PairFirst(r) => Some(list.select1_pair_counted(r, tally).first as u64),
        Query::PairSecond(r) => Some(list.select1_pair_counted(r, tally).second as u64),
        Query::Successor0(position) => list.successor0_counted(position, tally),
        Query::Successor1(position) => list.successor1_counted(position, tally),
        Query::Predecessor0(position) => list.predecessor0_counted(position, tally),
        Query::Predecessor1(position) => list.predecessor1_counted(position, tally),
        _ => answer(list, query),
    }
}

/// Returns the nine counters, in the order in which a counter declares them.
pub fn counters(tally: &Tally) -> [u64; 9] {
    [
        tally.data_words(),
        tally.block_entries(),
        tally.superblock_entries(),
        tally.low_parts(),
        tally.rank_calls(),
        tally.items(),
        tally.blocks(),
        tally.nodes(),
        tally.chunks(),
    ]
}

// Returns the number of binary digits of a number.
fn digits(n: usize) -> u64 {
    u64::from(64 - (n as u64).leading_zeros())
}

/// Returns the bound of each counter after one query.
pub fn bounds<A: Allocator + Copy>(list: &RsVec<A>, query: Query) -> [u64; 9] {
    let superblocks = digits(list.len().div_ceil(8192)).wrapping_add(12);
    match query {
        Query::Get(_) => [1, 0, 0, 0, 1, 0, 0, 0, 0],
        Query::GetBits(..) => [2, 0, 0, 0, 1, 0, 0, 0, 0],
        Query::Rank0(_) | Query::Rank1(_) => [8, 1, 1, 0, 1, 0, 0, 0, 0],
        Query::Select0(_) | Query::Select1(_) | Query::Select(..) => {
            [8, 17, superblocks, 0, 1, 0, 0, 0, 0]
        }
        Query::Select0Each(_) | Query::Select1Each(_) => {
            [24, 51, superblocks.wrapping_mul(3), 0, 3, 0, 0, 0, 0]
        }
        Query::ZeroPairFirst(_)
        | Query::ZeroPairSecond(_)
        | Query::PairFirst(_)
        | Query::PairSecond(_) => [16, 34, superblocks.wrapping_mul(2), 0, 2, 0, 0, 0, 0],
        Query::Successor0(_)
        | Query::Successor1(_)
        | Query::Predecessor0(_)
        | Query::Predecessor1(_) => [16, 18, superblocks.wrapping_add(1), 0, 2, 0, 0, 0, 0],
        _ => [0, 0, 0, 0, 0, 0, 0, 0, 0],
    }
}

/// Returns true if no counter is above its bound.
pub fn is_within(counters: [u64; 9], bounds: [u64; 9]) -> bool {
    counters
        .iter()
        .zip(bounds.iter())
        .all(|(counter, bound)| *counter <= *bound)
}

/// Returns true if both forms of a query answer so, and the counted one within its bounds.
pub fn is_right<A: Allocator + Copy>(list: &RsVec<A>, query: Query, wanted: Option<u64>) -> bool {
    let mut tally = Tally::new();
    answer(list, query) == wanted
        && counted(list, query, &mut tally) == wanted
        && is_within(counters(&tally), bounds(list, query))
}

/// Returns the number of the first query that has another answer, or reads more than its bound.
pub fn first_wrong_answer<A: Allocator + Copy>(
    list: &RsVec<A>,
    rows: &[(Query, Option<u64>)],
) -> Option<usize> {
    for (row, (query, wanted)) in rows.iter().enumerate() {
        if !is_right(list, *query, *wanted) {
            return Some(row);
        }
    }
    None
}

/// Returns the queries of a position, or of that many bits.
pub fn queries_at(position: usize) -> [Query; 15] {
    [
        Query::Get(position),
        Query::GetBits(position, 1),
        Query::GetBits(position, 64),
        Query::Rank0(position),
        Query::Rank1(position),
        Query::Select0(position),
        Query::Select1(position),
        Query::ZeroPairFirst(position),
        Query::ZeroPairSecond(position),
        Query::PairFirst(position),
        Query::PairSecond(position),
        Query::Successor0(position),
        Query::Successor1(position),
        Query::Predecessor0(position),
        Query::Predecessor1(position),
    ]
}
