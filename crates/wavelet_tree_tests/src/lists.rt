//! Lists of symbols that the tests run over, and their plain queries.
ghost use Rattle.std.specs.Prelude.{◌≡◌, ◌^◌, ◌<◌, ◌≤◌, All, true};

use std::alloc::{AllocError, Allocator};
use wavelet_tree::WaveletTree;

/// How the symbols of a list are drawn.
#[derive(Clone, Copy, Drop)]
pub enum Look {
    /// One symbol alone.
    Equal,
    /// 19 symbols in turn.
    Turning,
    /// The smaller a symbol, the more often: each is half as frequent as the one before.
    Skewed,
    /// Three symbols, far apart.
    Sparse,
}

/// The looks of the tests.
pub const LOOKS: [Look; 4] = [Look::Equal, Look::Turning, Look::Skewed, Look::Sparse];

/// Returns the symbol at a position.
pub fn symbol_of(look: Look, position: usize) -> u8 {
    let mixed = (position as u64).wrapping_mul(0x9E37_79B9_7F4A_7C15) >> 20;
    match look {
        Look::Equal => 7,
        Look::Turning => (position % 19) as u8,
        Look::Skewed => mixed.trailing_ones() as u8,
        Look::Sparse => (mixed % 3) as u8 * 100,
    }
}

/// Returns `len` symbols of a look.
pub fn symbols_of<A: Allocator + Copy>(
    alloc: A,
    look: Look,
    len: usize,
) -> Result<Vec<u8, A>, AllocError> {
    let mut symbols = Vec::with_capacity(alloc, len)?;
    for position in 0..len {
        symbols.push(symbol_of(look, position))?;
    }
    Ok(symbols)
}

/// Returns the tree of bytes.
pub fn tree_of<A: Allocator + Copy>(
    alloc: A,
    symbols: &[u8],
) -> Result<WaveletTree<A>, AllocError> {
    WaveletTree::from_integers(alloc, symbols, 8)
}

/// Returns the tree of numbers of 16 bits.
pub fn tree_of_shorts<A: Allocator + Copy>(
    alloc: A,
    numbers: &[u16],
) -> Result<WaveletTree<A>, AllocError> {
    WaveletTree::from_integers(alloc, numbers, 16)
}

// Returns true if each number has at most `width` bits.
fn are_narrow(numbers: &[u16], width: u16) -> bool
    requires { width ≤ 16 }
    ensures { result ≡ true → All (λ s. s < 2 ^ width) numbers.now }
{
    for number in numbers {
        if u32::from(*number) >= 1 << width {
            return false;
        }
    }
    true
}

/// Returns the tree of numbers of at most 16 bits. Errors: `AllocError` also if one of them has more than `width` bits.
pub fn narrow_tree_of<A: Allocator + Copy>(
    alloc: A,
    numbers: &[u16],
    width: u16,
) -> Result<WaveletTree<A>, AllocError> {
    if width > 16 || !are_narrow(numbers, width) {
        return Err(AllocError);
    }
    WaveletTree::from_integers(alloc, numbers, width)
}

/// Returns the number of occurrences of a symbol before `position`.
pub fn rank_of(symbols: &[u8], position: usize, symbol: u64) -> usize {
    let mut count: usize = 0;
    for it in &symbols[..position.min(symbols.len())] {
        count = count.wrapping_add(usize::from(u64::from(*it) == symbol));
    }
    count
}

/// Returns the number of symbols below one.
pub fn lesser_than(symbols: &[u8], symbol: u64) -> usize {
    let mut count: usize = 0;
    for it in symbols {
        count = count.wrapping_add(usize::from(u64::from(*it) < symbol));
    }
    count
}
