//! Texts compared with a plain scan, and the reads of the counted calls.
use crate::shared::{are_counted, are_listed, periodic, scattered};
use std::alloc::Global;
use test_alloc::asked;
use text_index::{TextError, TextIndex};
use vers_tally::tally::Tally;

// The step of the samples.
const STEPS: [usize; 4] = [1, 3, 32, usize::MAX];

// Returns true if a text of these symbols answers queries of its patterns as a plain scan does.
fn is_counted_plainly(alloc: Global, symbols: &[u64]) -> bool {
    let is_right = asked(
        TextIndex::from_slice(alloc, symbols, 2),
        |text: &TextIndex<Global>| are_counted(text, symbols),
    );
    is_right == Ok(true)
}

// Returns true if it lists their positions so, with each step.
fn is_listed_plainly(alloc: Global, symbols: &[u64]) -> bool {
    for step in STEPS {
        let is_right = asked(
            TextIndex::with_step(alloc, symbols, 2, step),
            |text: &TextIndex<Global>| text.step() == step && are_listed(text, symbols),
        );
        if is_right != Ok(true) {
            return false;
        }
    }
    true
}

fn scattered_is_right(alloc: Global, n: usize) -> bool {
    match scattered(alloc, n, 2) {
        Ok(symbols) => is_counted_plainly(alloc, symbols.as_slice()),
        Err(_) => false,
    }
}

fn scattered_is_listed(alloc: Global, n: usize) -> bool {
    match scattered(alloc, n, 2) {
        Ok(symbols) => is_listed_plainly(alloc, symbols.as_slice()),
        Err(_) => false,
    }
}

fn periodic_is_right(alloc: Global, n: usize, period: u64) -> bool {
    match periodic(alloc, n, period) {
        Ok(symbols) => {
            is_counted_plainly(alloc, symbols.as_slice())
                && is_listed_plainly(alloc, symbols.as_slice())
        }
        Err(_) => false,
    }
}

#[test]
fn scattered_symbols(rt: HostRuntime) {
    let mut are_right = true;
    for n in 0..70 {
        are_right = are_right && scattered_is_right(rt.alloc(), n);
    }
    assert!(rt; are_right && scattered_is_right(rt.alloc(), 500));
}

#[test]
fn scattered_symbols_are_listed(rt: HostRuntime) {
    let mut are_right = true;
    for n in 0..40 {
        are_right = are_right && scattered_is_listed(rt.alloc(), n);
    }
    assert!(rt; are_right && scattered_is_listed(rt.alloc(), 300));
}

#[test]
fn periods_and_one_symbol(rt: HostRuntime) {
    let mut are_right = true;
    for period in 1..5 {
        are_right = are_right && periodic_is_right(rt.alloc(), 100, period);
    }
    assert!(rt; are_right && periodic_is_right(rt.alloc(), 257, 1));
}

// Returns the numbers of nodes and numbers that a count of a pattern of five symbols reads, each at depth 0.
fn reads_of_count(text: &TextIndex<Global>) -> (u64, u64) {
    let mut tally = Tally::new();
    text.count_counted(&[0, 0, 0, 0, 0], &mut tally);
    (tally.nodes(), tally.items())
}

// Returns the numbers of rank calls, numbers and sampled positions that locating its last occurrence reads.
fn reads_of_position(text: &TextIndex<Global>) -> (u64, u64, u64) {
    let mut tally = Tally::new();
    text.places(&[0, 0, 0, 0, 0]).next_back_counted(&mut tally);
    (tally.rank_calls(), tally.items(), tally.low_parts())
}

fn reads_of_one_symbol(
    alloc: Global,
    n: usize,
) -> Result<((u64, u64), (u64, u64, u64)), TextError> {
    let symbols = periodic(alloc, n, 1)?;
    let made = TextIndex::from_slice(alloc, symbols.as_slice(), 2);
    asked(made, |text: &TextIndex<Global>| {
        (reads_of_count(text), reads_of_position(text))
    })
}

#[test]
fn counts_and_positions_read_within_their_bounds(rt: HostRuntime) {
    match reads_of_one_symbol(rt.alloc(), 20000) {
        Ok((count, position)) => {
            assert!(rt; count.0 == 0 && count.1 <= 5 * 2);
            assert!(rt; position.0 <= 32 + 1 && position.1 == 0 && position.2 == 1);
        }
        Err(_) => assert!(rt; false),
    }
}

// The step of the samples of a text whose symbols each have two forks.
const STEP: usize = 8;

// Returns true if locating each position tests a mark for each position since the last sample, and takes a node and a
// rank of bits for each fork of an LF step.
fn are_located_within(text: &TextIndex<Global>) -> bool {
    let mut walk = text.places(&[]);
    for _ in 0..text.len() {
        let mut tally = Tally::new();
        let Some(position) = walk.next_counted(&mut tally) else {
            return false;
        };
        let steps = (position % STEP) as u64;
        if tally.nodes() != 2 * steps
            || tally.rank_calls() != steps + 2
            || tally.block_entries() != 2 * steps + 1
            || tally.items() != 0
        {
            return false;
        }
    }
    true
}

fn four_symbols_are_located_within(alloc: Global, n: usize) -> Result<bool, TextError> {
    let symbols = periodic(alloc, n, 4)?;
    let made = TextIndex::with_step(alloc, symbols.as_slice(), 2, STEP);
    asked(made, are_located_within)
}

#[test]
fn locating_takes_one_mark_and_one_rank_a_fork_for_each_step(rt: HostRuntime) {
    assert!(rt; four_symbols_are_located_within(rt.alloc(), 1000) == Ok(true));
}
