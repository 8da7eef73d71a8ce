//! The symbols that trees return in order, as numbers of each type, beside plain lists.
ghost use Rattle.std.specs.Prelude.{◌≤◌};

use crate::lists::narrow_tree_of;
use std::alloc::{AllocError, Allocator, Global};
use std::test::Fail;
use test_alloc::asked;
use vers_wavelet::wavelet::Integer;
use wavelet_tree::WaveletTree;

// Widths and lengths of lists, the least symbol, and how many symbols there are from it on. Some lists are empty, some
// have one symbol alone, and some end around the ends of words.
const ROWS: [(u16, usize, u16, u64); 18] = [
    (0, 0, 0, 1),
    (0, 130, 0, 1),
    (1, 0, 0, 2),
    (1, 1, 1, 1),
    (1, 130, 0, 2),
    (1, 130, 1, 1),
    (2, 3, 1, 3),
    (2, 64, 0, 4),
    (2, 130, 0, 4),
    (8, 0, 0, 256),
    (8, 1, 255, 1),
    (8, 63, 250, 6),
    (8, 65, 0, 256),
    (8, 130, 0, 256),
    (16, 0, 0, 1),
    (16, 1, 65_535, 1),
    (16, 130, 65_406, 130),
    (16, 3_000, 0, 65_536),
];

// Returns `len` symbols, of which there are `kinds` from `least` on.
fn mixed_symbols<A: Allocator + Copy>(
    alloc: A,
    len: usize,
    least: u16,
    kinds: u64,
) -> Result<Vec<u16, A>, AllocError> {
    let mut symbols = Vec::with_capacity(alloc, len)?;
    for position in 0..len as u64 {
        let mixed = position.wrapping_mul(0x9E37_79B9_7F4A_7C15) >> 40;
        let kind = mixed.checked_rem(kinds).unwrap_or(0);
        symbols.push(least.wrapping_add((kind % 65_536) as u16))?;
    }
    Ok(symbols)
}

// Returns true if these are the symbols.
fn are_symbols<T: Integer>(numbers: &[T], symbols: &[u16]) -> bool {
    for position in 0..numbers.len().min(symbols.len()) {
        if numbers[position].number() != usize::from(symbols[position]) {
            return false;
        }
    }
    numbers.len() == symbols.len()
}

// Returns true if a tree returns its symbols as numbers of a type.
fn are_read<T: Integer>(alloc: Global, tree: &WaveletTree<Global>, symbols: &[u16]) -> bool
    requires { tree.now.width ≤ T.bits }
{
    match tree.to_integers::<T>(alloc) {
        Ok(numbers) => are_symbols(numbers.as_slice(), symbols),
        Err(_) => false,
    }
}

// Returns true if a tree returns its symbols as numbers of each type that they fit.
fn are_read_as_each(alloc: Global, tree: &WaveletTree<Global>, symbols: &[u16]) -> bool {
    let is_wide = tree.bit_len() > 8;
    (is_wide || are_read::<u8>(alloc, tree, symbols))
        && are_read::<u16>(alloc, tree, symbols)
        && are_read::<u32>(alloc, tree, symbols)
        && are_read::<u64>(alloc, tree, symbols)
}

// Returns the first row whose tree returns other symbols.
fn first_wrong_row(alloc: Global) -> Result<Option<usize>, AllocError> {
    for (number, (width, len, least, kinds)) in ROWS.iter().enumerate() {
        let symbols = mixed_symbols(alloc, *len, *least, *kinds)?;
        let made = narrow_tree_of(alloc, symbols.as_slice(), *width);
        if !asked(
            made,
            |tree| are_read_as_each(alloc, tree, symbols.as_slice()),
        )? {
            return Ok(Some(number));
        }
    }
    Ok(None)
}

#[test]
fn symbols_are_those_of_lists(rt: HostRuntime) -> Result<(), Fail> {
    assert_eq!(rt; first_wrong_row(rt.alloc())?, None, "a row");
    Ok(())
}
