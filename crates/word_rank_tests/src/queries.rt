//! Queries and their answers, by hand and by a count of the bits.
use crate::lists::{bits_of, ranked, runs};
use std::alloc::{AllocError, Allocator, Global};
use std::test::Fail;
use test_alloc::{Look, asked, bit_of};
use vers_tally::tally::Tally;
use word_rank::WordRank;

// A query and its arguments.
#[derive(Clone, Copy, Drop)]
enum Query {
    Len,
    IsEmpty,
    HeapSize,
    IsOne(usize),
    Rank(usize),
    BitThere(usize),
    OnesBefore(usize),
}

// Returns the answer of a query in its plain form.
fn answer<A: Allocator + Copy>(list: &WordRank<A>, query: Query) -> u64 {
    match query {
        Query::Len => list.len() as u64,
        Query::IsEmpty => u64::from(list.is_empty()),
        Query::HeapSize => list.heap_size() as u64,
        Query::Rank(position) => list.rank1(position) as u64,
        Query::IsOne(position) if position < list.len() => u64::from(list.is_one(position)),
        Query::BitThere(position) if position < list.len() => {
            u64::from(list.get_and_rank1(position).is_one)
        }
        Query::OnesBefore(position) if position < list.len() => list
            .get_and_rank1(position)
            .ones as u64,
        _ => u64::MAX,
    }
}

// Returns the answer of a query in its counted form.
fn counted<A: Allocator + Copy>(list: &WordRank<A>, query: Query, tally: &mut Tally) -> u64 {
    match query {
        Query::Rank(position) => list.rank1_counted(position, tally) as u64,
        Query::IsOne(position) if position < list.len() => u64::from(list.is_one_counted(
            position, tally,
        )),
        Query::BitThere(position) if position < list.len() => {
            u64::from(list.get_and_rank1_counted(position, tally).is_one)
        }
        Query::OnesBefore(position) if position < list.len() => {
            list.get_and_rank1_counted(position, tally).ones as u64
        }
        _ => answer(list, query),
    }
}

// Returns the data words, block entries and superblock entries that a query reads, if the list has bits.
fn reads(query: Query) -> [u64; 3] {
    match query {
        Query::Len | Query::IsEmpty | Query::HeapSize => [0, 0, 0],
        Query::IsOne(_) => [1, 0, 0],
        Query::Rank(_) | Query::BitThere(_) | Query::OnesBefore(_) => [1, 1, 1],
    }
}

// Returns true if both forms of a query have the answer, and the counted one the reads.
fn is_right<A: Allocator + Copy>(list: &WordRank<A>, query: Query, wanted: u64) -> bool {
    let mut tally = Tally::new();
    answer(list, query) == wanted
        && counted(list, query, &mut tally) == wanted
        && (list.is_empty()
            || [
                tally.data_words(),
                tally.block_entries(),
                tally.superblock_entries(),
            ] == reads(query))
        && tally.rank_calls() == 0
}

fn first_wrong_answer<A: Allocator + Copy>(
    list: &WordRank<A>,
    rows: &[(Query, u64)],
) -> Option<usize> {
    for (row, (query, wanted)) in rows.iter().enumerate() {
        if !is_right(list, *query, *wanted) {
            return Some(row);
        }
    }
    None
}

// Runs of equal bits, queries of the list, and their answers.
const CASES: [(&[(bool, usize)], &[(Query, u64)]); 6] = [
    (
        &[],
        &[
            (Query::Len, 0),
            (Query::IsEmpty, 1),
            (Query::HeapSize, 0),
            (Query::Rank(0), 0),
            (Query::Rank(usize::MAX), 0),
        ],
    ),
    (
        &[(false, 1), (true, 2), (false, 1)],
        &[
            (Query::Len, 4),
            (Query::IsEmpty, 0),
            (Query::HeapSize, 18),
            (Query::IsOne(0), 0),
            (Query::IsOne(2), 1),
            (Query::Rank(0), 0),
            (Query::Rank(1), 0),
            (Query::Rank(2), 1),
            (Query::Rank(3), 2),
            (Query::Rank(4), 2),
            (Query::Rank(63), 2),
            (Query::Rank(usize::MAX), 2),
            (Query::BitThere(1), 1),
            (Query::OnesBefore(1), 0),
            (Query::BitThere(3), 0),
            (Query::OnesBefore(3), 2),
        ],
    ),
    (
        &[(true, 64)],
        &[
            (Query::HeapSize, 18),
            (Query::Rank(63), 63),
            (Query::Rank(64), 64),
            (Query::Rank(65), 64),
            (Query::BitThere(63), 1),
            (Query::OnesBefore(63), 63),
        ],
    ),
    (
        &[(false, 10), (true, 64), (false, 20), (true, 106)],
        &[
            (Query::HeapSize, 48),
            (Query::Rank(64), 54),
            (Query::Rank(94), 64),
            (Query::Rank(128), 98),
            (Query::Rank(199), 169),
            (Query::Rank(200), 170),
        ],
    ),
    (
        &[(true, 32_768), (false, 64), (true, 1)],
        &[
            (Query::Len, 32_833),
            (Query::HeapSize, 5156),
            (Query::Rank(32_767), 32_767),
            (Query::Rank(32_768), 32_768),
            (Query::Rank(32_832), 32_768),
            (Query::Rank(32_833), 32_769),
            (Query::BitThere(32_832), 1),
            (Query::OnesBefore(32_832), 32_768),
        ],
    ),
    (
        &[(true, 40_000), (false, 25_536), (true, 65_536)],
        &[
            (Query::Len, 131_072),
            (Query::HeapSize, 20_512),
            (Query::Rank(32_832), 32_832),
            (Query::Rank(65_536), 40_000),
            (Query::Rank(98_303), 72_767),
            (Query::Rank(98_304), 72_768),
            (Query::Rank(131_008), 105_472),
            (Query::Rank(usize::MAX), 105_536),
        ],
    ),
];

fn first_wrong_row(alloc: Global) -> Result<Option<(usize, usize)>, AllocError> {
    for (case, (list, rows)) in CASES.iter().enumerate() {
        let wrong = asked(runs(alloc, list), |list| first_wrong_answer(list, rows))?;
        if let Some(row) = wrong {
            return Ok(Some((case, row)));
        }
    }
    Ok(None)
}

#[test]
fn queries_and_their_answers(rt: HostRuntime) -> Result<(), Fail> {
    assert_eq!(rt; first_wrong_row(rt.alloc())?, None, "a case and a row");
    Ok(())
}

// Returns the first position whose rank or bit is not that of a count, up to two past the end.
fn first_wrong_position<A: Allocator + Copy>(list: &WordRank<A>, look: Look) -> Option<usize> {
    let mut ones: u64 = 0;
    for position in 0..list.len() {
        let is_one = u64::from(bit_of(look, position));
        if !is_right(list, Query::Rank(position), ones)
            || !is_right(list, Query::OnesBefore(position), ones)
            || !is_right(list, Query::BitThere(position), is_one)
            || !is_right(list, Query::IsOne(position), is_one)
        {
            return Some(position);
        }
        ones = ones.wrapping_add(is_one);
    }
    for position in [list.len(), list.len().saturating_add(1), usize::MAX] {
        if !is_right(list, Query::Rank(position), ones) {
            return Some(position);
        }
    }
    None
}

const LOOKS: [Look; 3] = [Look::Zeros, Look::Ones, Look::Mixed];

const LENGTHS: [usize; 11] = [0, 1, 63, 64, 65, 127, 128, 129, 32_767, 32_768, 32_900];

fn first_wrong_count(alloc: Global) -> Result<Option<(usize, usize)>, AllocError> {
    for look in LOOKS {
        for len in LENGTHS {
            let list = ranked(bits_of(alloc, look, len));
            if let Some(position) = asked(list, |list| first_wrong_position(list, look))? {
                return Ok(Some((len, position)));
            }
        }
    }
    Ok(None)
}

#[test]
fn ranks_of_every_position(rt: HostRuntime) -> Result<(), Fail> {
    assert_eq!(rt;
        first_wrong_count(rt.alloc())?,
        None,
        "a length and a position"
    );
    Ok(())
}
