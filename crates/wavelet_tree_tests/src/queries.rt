//! Queries and their answers, beside plain lists.
use crate::lists::{LOOKS, Look, lesser_than, rank_of, symbols_of, tree_of, tree_of_shorts};
use std::alloc::{AllocError, Allocator, Global};
use std::ops::Range;
use std::test::Fail;
use test_alloc::asked;
use vers_tally::tally::Tally;
use wavelet_tree::{RangeQuery, WaveletTree};

// Returns true if a counted rank is right, and takes one rank of bits for each fork.
fn is_counted<A: Allocator + Copy>(
    tree: &WaveletTree<A>,
    symbol: u64,
    position: usize,
    wanted: usize,
) -> bool {
    if position > tree.len() {
        return false;
    }
    let mut tally = Tally::new();
    tree.rank_counted(position, symbol, &mut tally) == wanted
        && tally.nodes() == tally.data_words()
        && tally.items() <= 2
}

// Returns true if the ranks of a symbol are right, of which two begin and end a range.
fn is_ranked<A: Allocator + Copy>(
    tree: &WaveletTree<A>,
    symbols: &[u8],
    symbol: u64,
    range: Range<usize>,
) -> bool {
    if range.start > range.end || range.end > tree.len() {
        return true;
    }
    let lesser = lesser_than(symbols, symbol);
    let first = rank_of(symbols, range.start, symbol);
    let end = rank_of(symbols, range.end, symbol);
    let wanted = if first == end {
        None
    } else {
        Some(lesser.wrapping_add(first)..lesser.wrapping_add(end))
    };
    let mut tally = Tally::new();
    tree.rank(range.start, symbol) == first
        && tree.rank(range.end, symbol) == end
        && is_counted(tree, symbol, range.end, end)
        && tree.sorted_range(range.start..range.end, symbol) == wanted
        && tree.sorted_range_counted(range, symbol, &mut tally) == wanted
        && tally.nodes() == tally.data_words() / 2
        && tally.items() <= 2
}

// Returns true if the symbol at a position, and its sorted position, are right.
fn is_read<A: Allocator + Copy>(tree: &WaveletTree<A>, symbols: &[u8], position: usize) -> bool {
    if position >= tree.len() || position >= symbols.len() {
        return tree.len() == symbols.len();
    }
    let symbol = u64::from(symbols[position]);
    let sorted = lesser_than(symbols, symbol).wrapping_add(rank_of(symbols, position, symbol));
    let mut tally = Tally::new();
    let found = tree.get_sorted_counted(position, &mut tally);
    tree.get(position) == symbol
        && tree.get_sorted(position) == found
        && found.symbol == symbol
        && found.position == sorted
        && tally.nodes() == tally.data_words()
        && tally.items() == 0
}

// Symbols of which some lists have some, and some have none.
const ASKED: [u64; 10] = [0, 1, 2, 7, 18, 100, 200, 255, 256, u64::MAX];

// Returns true if one batch returns the right range of each of these symbols.
fn are_ranked_together<A: Allocator + Copy>(
    tree: &WaveletTree<A>,
    symbols: &[u8],
    range: Range<usize>,
) -> bool {
    if range.start > range.end || range.end > tree.len() {
        return true;
    }
    let mut queries = [RangeQuery::new(range.start..range.end, 0); 10];
    for k in 0..10 {
        queries[k] = RangeQuery::new(range.start..range.end, ASKED[k]);
    }
    tree.sorted_range_each(&mut queries);
    for query in queries {
        let lesser = lesser_than(symbols, query.symbol);
        let first = lesser.wrapping_add(rank_of(symbols, range.start, query.symbol));
        let end = lesser.wrapping_add(rank_of(symbols, range.end, query.symbol));
        let is_empty = first == end && query.start == query.end;
        if !is_empty && (query.start != first || query.end != end) {
            return false;
        }
    }
    true
}

// Returns true if a tree answers as its list.
fn is_right<A: Allocator + Copy>(tree: &WaveletTree<A>, symbols: &[u8]) -> bool {
    for position in 0..symbols.len().saturating_add(1) {
        let end = position.saturating_add(position % 5).min(symbols.len());
        if !is_read(tree, symbols, position)
            || !are_ranked_together(tree, symbols, 0..position)
            || !are_ranked_together(tree, symbols, position..end)
        {
            return false;
        }
        for symbol in ASKED {
            if !is_ranked(tree, symbols, symbol, 0..position)
                || !is_ranked(tree, symbols, symbol, position..end)
                || !is_ranked(tree, symbols, symbol, position..symbols.len())
            {
                return false;
            }
        }
    }
    tree.len() == symbols.len() && tree.is_empty() == symbols.is_empty() && tree.bit_len() == 8
}

// Lengths of lists, at and around the ends of words.
const LENGTHS: [usize; 8] = [0, 1, 2, 3, 63, 64, 65, 200];

// Returns the first look and length whose tree doesn't answer as its list.
fn first_wrong_list(alloc: Global) -> Result<Option<(usize, usize)>, AllocError> {
    for (number, look) in LOOKS.iter().enumerate() {
        for len in LENGTHS {
            let symbols = symbols_of(alloc, *look, len)?;
            let made = tree_of(alloc, symbols.as_slice());
            if !asked(made, |tree| is_right(tree, symbols.as_slice()))? {
                return Ok(Some((number, len)));
            }
        }
    }
    Ok(None)
}

#[test]
fn answers_are_those_of_lists(rt: HostRuntime) -> Result<(), Fail> {
    assert_eq!(rt; first_wrong_list(rt.alloc())?, None, "a look and a length");
    Ok(())
}

// Returns true if a tree of all numbers of 16 bits reads each of them.
fn are_all_read(tree: &WaveletTree<Global>) -> bool {
    for position in 0..tree.len() {
        let found = tree.get_sorted(position);
        if found.symbol != position as u64 || found.position != position {
            return false;
        }
    }
    tree.rank(65_536.min(tree.len()), 65_535) == 1 && tree.bit_len() == 16
}

fn are_all_numbers_read(alloc: Global) -> Result<bool, AllocError> {
    let mut numbers = Vec::with_capacity(alloc, 65_536)?;
    for number in 0..65_536u32 {
        numbers.push(number as u16)?;
    }
    asked(tree_of_shorts(alloc, numbers.as_slice()), are_all_read)
}

#[test]
fn all_numbers_of_16_bits(rt: HostRuntime) -> Result<(), Fail> {
    assert!(rt; are_all_numbers_read(rt.alloc())?);
    Ok(())
}

// Returns true if a long list of a look is read back.
fn is_read_back(tree: &WaveletTree<Global>, symbols: &[u8]) -> bool {
    for position in 0..tree.len().min(symbols.len()) {
        if tree.get(position) != u64::from(symbols[position]) {
            return false;
        }
    }
    tree.len() == symbols.len()
}

// Returns true if a list with more bits than a superblock of counts is read back.
fn is_long_list_read(alloc: Global, look: Look) -> Result<bool, AllocError> {
    let symbols = symbols_of(alloc, look, 30_000)?;
    asked(
        tree_of(alloc, symbols.as_slice()),
        |tree| is_read_back(tree, symbols.as_slice()),
    )
}

#[test]
fn long_lists_are_read_back(rt: HostRuntime) -> Result<(), Fail> {
    assert!(rt; is_long_list_read(rt.alloc(), Look::Turning)?);
    assert!(rt; is_long_list_read(rt.alloc(), Look::Skewed)?);
    Ok(())
}
