//! The parts by which trees are saved, by hand and beside a plain model, and the trees that are made of them.
use crate::lists::{LOOKS, Look, lesser_than, symbols_of, tree_of};
use std::alloc::{AllocError, Allocator, Global};
use std::test::Fail;
use test_alloc::asked;
use vers_bits::bit_vec::BitVec;
use vers_tally::tally::Tally;
use wavelet_tree::{PartsError, WaveletTree};

// Lists, the number of the bits of their trees, and these bits, the first one lowest.
const BITS: [(&[u8], usize, u64); 6] = [
    (&[], 0, 0),
    (&[5, 5, 5], 0, 0),
    (&[9, 5], 2, 0b01),
    (&[5, 9], 2, 0b10),
    (&[1, 2, 3, 4], 8, 0b1010_1100),
    (&[1, 1, 1, 1, 2, 3], 8, 0b1011_0000),
];

// Returns true if a tree has these bits.
fn has_bits(tree: &WaveletTree<Global>, count: usize, limb: u64) -> bool {
    let bits = tree.tree_bit_count();
    bits == count && (bits == 0 || tree.tree_limb(0) == limb)
}

// Returns the first list whose tree has other bits.
fn first_other_bits(alloc: Global) -> Result<Option<usize>, AllocError> {
    for (row, (symbols, count, limb)) in BITS.iter().enumerate() {
        let made = tree_of(alloc, symbols);
        if !asked(made, |tree| has_bits(tree, *count, *limb))? {
            return Ok(Some(row));
        }
    }
    Ok(None)
}

#[test]
fn bits_by_hand(rt: HostRuntime) -> Result<(), Fail> {
    assert_eq!(rt; first_other_bits(rt.alloc())?, None, "a row");
    Ok(())
}

/// The parts of a tree of bytes.
#[derive(Drop)]
pub struct Parts<A: Allocator + Copy> {
    starts: Vec<u64, A>,
    bits: Vec<u8, A>,
}

// Returns the number of elements below a symbol.
fn start_at(starts: &[u64], symbol: usize) -> u64 {
    if symbol < starts.len() {
        starts[symbol]
    } else {
        0
    }
}

// Returns where the symbols from `low` on and before `end` are divided.
fn split_of(starts: &[u64], low: usize, end: usize) -> usize {
    let all = start_at(starts, low).wrapping_add(start_at(starts, end));
    let mut split = end;
    for symbol in low.wrapping_add(1)..end {
        if start_at(starts, symbol).wrapping_mul(2) >= all {
            split = symbol;
            break;
        }
    }
    let before = split.wrapping_sub(1);
    if all < start_at(starts, before).wrapping_add(start_at(starts, split)) {
        before
    } else {
        split
    }
}

// Appends a bit for each element from `low` on and before `end`: 1 if it isn't below the split.
fn add_bits<A: Allocator + Copy>(
    bits: &mut Vec<u8, A>,
    symbols: &[u8],
    low: usize,
    split: usize,
    end: usize,
) -> Result<(), AllocError> {
    for symbol in symbols {
        let symbol = usize::from(*symbol);
        if low <= symbol && symbol < end {
            bits.push(u8::from(symbol >= split))?;
        }
    }
    Ok(())
}

/// Returns the parts of a list of bytes: those of each fork in turn, a fork before both sides.
pub fn parts_of<A: Allocator + Copy>(alloc: A, symbols: &[u8]) -> Result<Parts<A>, AllocError> {
    let mut starts = Vec::with_capacity(alloc, 257)?;
    for symbol in 0..257 {
        starts.push(lesser_than(symbols, symbol) as u64)?;
    }
    let mut bits = Vec::new(alloc);
    let mut ranges = Vec::new(alloc);
    ranges.push((0, 256))?;
    // A tree of 256 symbols has at most 511 forks and leaves.
    for _ in 0..511 {
        let Some((low, end)) = ranges.pop() else {
            break;
        };
        let split = split_of(starts.as_slice(), low, end);
        if start_at(starts.as_slice(), split) != start_at(starts.as_slice(), end) {
            add_bits(&mut bits, symbols, low, split, end)?;
            ranges.push((split, end))?;
            ranges.push((low, split))?;
        }
    }
    Ok(Parts { starts, bits })
}

// Returns the bits of some items.
fn bit_vec_of<A: Allocator + Copy>(alloc: A, bits: &[u8]) -> Result<BitVec<A>, PartsError> {
    match BitVec::from_bits(alloc, bits) {
        Ok(bits) => Ok(bits),
        Err(_) => Err(PartsError::Memory),
    }
}

/// Returns the tree with these parts.
pub fn tree_with<A: Allocator + Copy>(
    alloc: A,
    starts: &[u64],
    bits: &[u8],
    width: u16,
) -> Result<WaveletTree<A>, PartsError> {
    let starts = Vec::from_slice(alloc, starts)?;
    let bits = bit_vec_of(alloc, bits)?;
    WaveletTree::from_parts(starts, bits, width)
}

/// Returns the tree with the parts of a list of bytes.
pub fn loaded<A: Allocator + Copy>(alloc: A, symbols: &[u8]) -> Result<WaveletTree<A>, PartsError> {
    let parts = parts_of(alloc, symbols)?;
    tree_with(alloc, parts.starts.as_slice(), parts.bits.as_slice(), 8)
}

// Returns true if a tree of bytes has these parts.
fn has_parts(tree: &WaveletTree<Global>, starts: &[u64], bits: &[u8]) -> bool {
    for symbol in 0..starts.len().min(257) {
        let mut tally = Tally::new();
        if tree.bit_len() != 8
            || tree.start(symbol) != starts[symbol]
            || tree.start_counted(symbol, &mut tally) != starts[symbol]
            || tally.items() != 1
        {
            return false;
        }
    }
    for position in 0..bits.len().min(tree.tree_bit_count()) {
        if tree.tree_limb(position / 64) >> (position % 64) & 1 != u64::from(bits[position]) {
            return false;
        }
    }
    tree.tree_bit_count() == bits.len() && starts.len() == 257
}

// Returns true if a tree of bytes has these symbols.
fn has_symbols(tree: &WaveletTree<Global>, symbols: &[u8]) -> bool {
    for position in 0..tree.len().min(symbols.len()) {
        let symbol = u64::from(symbols[position]);
        let found = tree.get_sorted(position);
        if found.symbol != symbol || tree.rank(position, symbol) > found.position {
            return false;
        }
    }
    tree.len() == symbols.len() && tree.bit_len() == 8
}

// Returns true if a list has the parts of the model, and is made of them.
fn goes_round(alloc: Global, look: Look, len: usize) -> Result<bool, AllocError> {
    let symbols = symbols_of(alloc, look, len)?;
    let symbols = symbols.as_slice();
    let parts = parts_of(alloc, symbols)?;
    let (starts, bits) = (parts.starts.as_slice(), parts.bits.as_slice());
    let is_saved = asked(
        tree_of(alloc, symbols),
        |tree| has_parts(tree, starts, bits),
    )?;
    let again = asked(
        loaded(alloc, symbols),
        |tree| has_symbols(tree, symbols) && has_parts(tree, starts, bits),
    );
    Ok(is_saved && again == Ok(true))
}

// Lengths of lists, at and around the ends of words.
const LENGTHS: [usize; 8] = [0, 1, 2, 3, 63, 64, 65, 200];

// Returns the first look and length whose list doesn't go round.
fn first_other_list(alloc: Global) -> Result<Option<(usize, usize)>, AllocError> {
    for (number, look) in LOOKS.iter().enumerate() {
        for len in LENGTHS {
            if !goes_round(alloc, *look, len)? {
                return Ok(Some((number, len)));
            }
        }
    }
    Ok(None)
}

#[test]
fn lists_go_round(rt: HostRuntime) -> Result<(), Fail> {
    assert_eq!(rt; first_other_list(rt.alloc())?, None, "a look and a length");
    Ok(())
}

// Returns why there is no tree with these parts.
fn fault_of(alloc: Global, starts: &[u64], bits: &[u8], width: u16) -> Option<PartsError> {
    asked(tree_with(alloc, starts, bits, width), |_| ()).err()
}

// Returns true if these are the parts of no list.
fn is_refused(alloc: Global, starts: &[u64], bits: &[u8], width: u16) -> bool {
    fault_of(alloc, starts, bits, width) == Some(PartsError::NotAList)
}

#[test]
fn wrong_starts_are_refused(rt: HostRuntime) {
    let alloc = rt.alloc();
    assert!(rt; fault_of(alloc, &[0, 1, 2], &[0, 1], 1) == None);
    assert!(rt; is_refused(alloc, &[0, 1, 2], &[0, 1], 0));
    assert!(rt; is_refused(alloc, &[0, 1, 2], &[0, 1], 2));
    assert!(rt; is_refused(alloc, &[0, 1, 2], &[0, 1], 17));
    assert!(rt; is_refused(alloc, &[0, 1, 2], &[0, 1], 65535));
    assert!(rt; is_refused(alloc, &[1, 1, 2], &[0, 1], 1));
    assert!(rt; is_refused(alloc, &[1, 2, 3], &[0, 1], 1));
    assert!(rt; is_refused(alloc, &[0, 3, 2], &[0, 1], 1));
    assert!(rt; is_refused(alloc, &[0, 2, 1], &[], 1));
    assert!(rt; is_refused(alloc, &[0, 1], &[0, 1], 1));
    assert!(rt; is_refused(alloc, &[], &[], 0));
    assert!(rt; fault_of(alloc, &[0, 9223372036854775807], &[], 0) == None);
    assert!(rt; is_refused(alloc, &[0, 9223372036854775808], &[], 0));
    assert!(rt; is_refused(alloc, &[0, u64::MAX, u64::MAX], &[], 1));
    assert!(rt; is_refused(alloc, &[0, 2, 4, 3, 4], &[0, 0, 1, 1, 0, 1, 0, 1], 2));
}

// The parts of the list 0 1 1, and of the list 0 1 2 3.
#[test]
fn wrong_bits_are_refused(rt: HostRuntime) {
    let alloc = rt.alloc();
    assert!(rt; fault_of(alloc, &[0, 1, 3], &[0, 1, 1], 1) == None);
    assert!(rt; is_refused(alloc, &[0, 1, 3], &[0, 0, 1], 1));
    assert!(rt; is_refused(alloc, &[0, 1, 3], &[1, 1, 1], 1));
    assert!(rt; is_refused(alloc, &[0, 1, 3], &[0, 1, 1, 0], 1));
    assert!(rt; is_refused(alloc, &[0, 1, 3], &[0, 1, 1, 1], 1));
    assert!(rt; is_refused(alloc, &[0, 1, 3], &[1, 1], 1));
    assert!(rt; is_refused(alloc, &[0, 1, 3], &[], 1));
    let starts = [0, 1, 2, 3, 4];
    assert!(rt; fault_of(alloc, &starts, &[0, 0, 1, 1, 0, 1, 0, 1], 2) == None);
    assert!(rt; is_refused(alloc, &starts, &[0, 1, 1, 1, 0, 1, 0, 1], 2));
    assert!(rt; is_refused(alloc, &starts, &[0, 0, 1, 1, 1, 1, 0, 1], 2));
    assert!(rt; is_refused(alloc, &starts, &[0, 0, 1, 1, 0, 0, 0, 1], 2));
    assert!(rt; is_refused(alloc, &starts, &[0, 0, 1, 1, 0, 1, 0, 0], 2));
    assert!(rt; is_refused(alloc, &starts, &[0, 0, 1, 1, 0, 1, 1, 1], 2));
    assert!(rt; is_refused(alloc, &starts, &[0, 0, 1, 1, 0, 1, 0], 2));
    assert!(rt; is_refused(alloc, &starts, &[0, 0, 1, 1, 0, 1], 2));
    assert!(rt; is_refused(alloc, &starts, &[0, 0, 1, 1, 0, 1, 0, 1, 0], 2));
}

// Returns the number of lists of bits, of at most `most` bits, that are those of a list of numbers below 4 with these
// starts.
fn count_bits(alloc: Global, starts: &[u64], most: usize) -> usize {
    let mut count: usize = 0;
    for len in 0..most.wrapping_add(1) {
        for number in 0..1u32 << (len % 16) {
            let mut bits = [0; 16];
            for k in 0..16 {
                bits[k] = u8::from(number >> k & 1 == 1);
            }
            if fault_of(alloc, starts, &bits[..len.min(16)], 2).is_none() {
                count = count.wrapping_add(1);
            }
        }
    }
    count
}

// Returns the number of parts that are those of a list of `len` numbers below 4.
fn count_parts(alloc: Global, len: u64) -> usize {
    let mut count: usize = 0;
    for first in 0..len.wrapping_add(1) {
        for second in 0..len.wrapping_add(1) {
            for third in 0..len.wrapping_add(1) {
                let starts = [0, first, second, third, len];
                count = count.wrapping_add(count_bits(alloc, &starts, 10));
            }
        }
    }
    count
}

// Each of the 4^n lists has its own parts, and no others have a tree.
#[test]
fn as_many_parts_as_lists(rt: HostRuntime) {
    assert!(rt; count_parts(rt.alloc(), 0) == 1);
    assert!(rt; count_parts(rt.alloc(), 1) == 4);
    assert!(rt; count_parts(rt.alloc(), 3) == 64);
}
