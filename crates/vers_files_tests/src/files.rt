//! Files, byte by byte.
use std::alloc::{AllocError, Global};
pub use test_alloc::{BITS, INVERTED, PACKED_SYMBOLS, POSTINGS, SYMBOLS, VALUES};
use vers_saved::kind::TEXTS;
use vers_saved::{FACTOR, MAGIC, START, TREE_VERSION, TURN};

/// The ascending list 4, 4, 9, by its parts.
pub const SORTED: [u8; 88] = [
    119, 111, 108, 116, 115, 106, 101, 109, 2, 0, 0, 0, 0, 0, 0, 0, 2, 0, 0, 0, 0, 0, 0, 0, 64, 0,
    0, 0, 0, 0, 0, 0, 5, 0, 0, 0, 0, 0, 0, 0, 3, 0, 0, 0, 0, 0, 0, 0, 4, 0, 0, 0, 0, 0, 0, 0, 9, 0,
    0, 0, 0, 0, 0, 0, 4, 0, 0, 0, 0, 0, 0, 0, 38, 0, 0, 0, 0, 0, 0, 0, 7, 206, 226, 57, 198, 241,
    116, 240,
];

/// The ascending list 4, 4, 9 in the first version.
pub const LISTED_SORTED: [u8; 72] = [
    119, 111, 108, 116, 115, 106, 101, 109, 1, 0, 0, 0, 0, 0, 0, 0, 2, 0, 0, 0, 0, 0, 0, 0, 64, 0,
    0, 0, 0, 0, 0, 0, 3, 0, 0, 0, 0, 0, 0, 0, 4, 0, 0, 0, 0, 0, 0, 0, 4, 0, 0, 0, 0, 0, 0, 0, 9, 0,
    0, 0, 0, 0, 0, 0, 111, 45, 32, 241, 4, 243, 68, 89,
];

/// Twelve bits with ones at 1, 3 and 5, by the parts of the positions.
pub const SPARSE: [u8; 96] = [
    119, 111, 108, 116, 115, 106, 101, 109, 2, 0, 0, 0, 0, 0, 0, 0, 4, 0, 0, 0, 0, 0, 0, 0, 64, 0,
    0, 0, 0, 0, 0, 0, 6, 0, 0, 0, 0, 0, 0, 0, 12, 0, 0, 0, 0, 0, 0, 0, 3, 0, 0, 0, 0, 0, 0, 0, 1,
    0, 0, 0, 0, 0, 0, 0, 5, 0, 0, 0, 0, 0, 0, 0, 0, 0, 0, 0, 0, 0, 0, 0, 42, 0, 0, 0, 0, 0, 0, 0,
    7, 44, 23, 139, 185, 69, 234, 143,
];

/// Twelve bits with ones at 1, 3 and 5 in the first version.
pub const LISTED_SPARSE: [u8; 80] = [
    119, 111, 108, 116, 115, 106, 101, 109, 1, 0, 0, 0, 0, 0, 0, 0, 4, 0, 0, 0, 0, 0, 0, 0, 64, 0,
    0, 0, 0, 0, 0, 0, 4, 0, 0, 0, 0, 0, 0, 0, 1, 0, 0, 0, 0, 0, 0, 0, 3, 0, 0, 0, 0, 0, 0, 0, 5, 0,
    0, 0, 0, 0, 0, 0, 12, 0, 0, 0, 0, 0, 0, 0, 211, 69, 242, 206, 7, 97, 208, 228,
];

/// The parentheses 110100.
pub const TREE: [u8; 56] = [
    119, 111, 108, 116, 115, 106, 101, 109, 1, 0, 0, 0, 0, 0, 0, 0, 6, 0, 0, 0, 0, 0, 0, 0, 0, 2,
    0, 0, 0, 0, 0, 0, 6, 0, 0, 0, 0, 0, 0, 0, 11, 0, 0, 0, 0, 0, 0, 0, 242, 254, 142, 183, 3, 64,
    184, 36,
];

/// An unknown kind.
pub const OTHER_KIND: [u8; 56] = [
    119, 111, 108, 116, 115, 106, 101, 109, 1, 0, 0, 0, 0, 0, 0, 0, 9, 0, 0, 0, 0, 0, 0, 0, 64, 0,
    0, 0, 0, 0, 0, 0, 1, 0, 0, 0, 0, 0, 0, 0, 7, 0, 0, 0, 0, 0, 0, 0, 22, 111, 48, 166, 234, 128,
    163, 238,
];

/// A tree with blocks of 256 bits.
pub const OTHER_BLOCKS: [u8; 56] = [
    119, 111, 108, 116, 115, 106, 101, 109, 1, 0, 0, 0, 0, 0, 0, 0, 6, 0, 0, 0, 0, 0, 0, 0, 0, 1,
    0, 0, 0, 0, 0, 0, 6, 0, 0, 0, 0, 0, 0, 0, 11, 0, 0, 0, 0, 0, 0, 0, 128, 100, 26, 208, 62, 215,
    86, 129,
];

/// The symbols 1, 1, 1, 0 of 1 bit.
pub const NARROW_TEXT: [u8; 56] = [
    119, 111, 108, 116, 115, 106, 101, 109, 2, 0, 0, 0, 0, 0, 0, 0, 3, 0, 0, 0, 0, 0, 0, 0, 1, 0,
    0, 0, 0, 0, 0, 0, 4, 0, 0, 0, 0, 0, 0, 0, 7, 0, 0, 0, 0, 0, 0, 0, 14, 5, 102, 138, 152, 245,
    17, 178,
];

/// The symbols 7, 65536 of 17 bits.
pub const WIDE_SYMBOLS: [u8; 184] = [
    119, 111, 108, 116, 115, 106, 101, 109, 2, 0, 0, 0, 0, 0, 0, 0, 3, 0, 0, 0, 0, 0, 0, 0, 17, 0,
    0, 0, 0, 0, 0, 0, 2, 0, 0, 0, 0, 0, 0, 0, 2, 0, 0, 0, 0, 0, 0, 0, 0, 0, 0, 0, 0, 0, 0, 0, 0, 0,
    0, 0, 0, 0, 0, 0, 0, 0, 0, 0, 0, 0, 0, 0, 0, 0, 0, 0, 0, 0, 0, 0, 0, 0, 0, 0, 0, 0, 0, 0, 0, 0,
    0, 0, 0, 0, 0, 0, 0, 0, 0, 0, 0, 0, 0, 0, 0, 0, 0, 0, 0, 0, 0, 0, 0, 0, 0, 0, 0, 0, 0, 0, 0, 0,
    0, 0, 0, 0, 0, 0, 0, 0, 0, 0, 0, 0, 0, 0, 0, 0, 0, 0, 0, 0, 0, 0, 0, 0, 0, 0, 0, 0, 0, 0, 1, 0,
    0, 0, 0, 0, 0, 0, 2, 0, 0, 0, 0, 0, 0, 0, 2, 0, 0, 0, 0, 0, 0, 0, 75, 122, 23, 87, 188, 247,
    242, 10,
];

/// The index of the bytes of `ba`, with a sample every 32 positions, in the first version: the length, the step, the
/// row of the whole text, the column `ab`, and the row of position 0.
pub const COLUMN_INDEX: [u8; 88] = [
    119, 111, 108, 116, 115, 106, 101, 109, 1, 0, 0, 0, 0, 0, 0, 0, 9, 0, 0, 0, 0, 0, 0, 0, 8, 0,
    0, 0, 0, 0, 0, 0, 5, 0, 0, 0, 0, 0, 0, 0, 2, 0, 0, 0, 0, 0, 0, 0, 32, 0, 0, 0, 0, 0, 0, 0, 2,
    0, 0, 0, 0, 0, 0, 0, 97, 98, 0, 0, 0, 0, 0, 0, 2, 0, 0, 0, 0, 0, 0, 0, 80, 59, 220, 222, 75,
    155, 166, 164,
];

// The words of the index of the bytes of `ba` before their sum.
const INDEX_WORDS: u64 = 268;

// Returns a word of the index of the bytes of `ba`, with a sample every 32 positions.
fn index_word(k: u64) -> u64 {
    match k {
        0 => MAGIC,
        1 => TREE_VERSION,
        2 => TEXTS,
        3 => 8,
        4 => 263,
        // The length, the step, the row of the whole text, and the number of bits of the tree.
        5 => 2,
        6 => 32,
        7 | 8 => 2,
        // The number of bytes below each symbol: the column is `ab`, 97 and 98.
        9..=106 => 0,
        107 => 1,
        108..=265 => 2,
        // The bits 01 of the tree, and the row of position 0.
        _ => 2,
    }
}

/// Returns the saved form of that index.
pub fn index(alloc: Global) -> Result<Vec<u8>, AllocError> {
    let mut form = Vec::new(alloc);
    let mut sum = START;
    for k in 0..INDEX_WORDS {
        let word = index_word(k);
        form.extend_from_slice(&word.to_le_bytes())?;
        sum = (sum ^ word).wrapping_mul(FACTOR).rotate_left(TURN);
    }
    form.extend_from_slice(&sum.to_le_bytes())?;
    Ok(form)
}
