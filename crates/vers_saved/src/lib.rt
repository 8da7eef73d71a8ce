//! Saved forms of the library's lists: bytes that identify their list. Other bytes are rejected.
#![tactic(auto)]

pub mod bits;
mod columns;
pub mod documents;
pub mod fault;
pub mod form;
mod gather;
pub mod inverted_index;
pub mod kind;
pub mod laws;
pub mod numbers;
mod packed;
mod parts;
pub mod saved;
pub mod sparse;
pub mod stream;
pub mod symbols;
pub mod texts;
pub mod trees;
pub mod words;

/// The first word of each saved form: the bytes `woltsjem`.
pub const MAGIC: u64 = 7882823766888968055;

/// The first version of the form of each kind of list.
pub const VERSION: u64 = 1;

/// The version of the form of symbols by levels.
pub const LEVELS_VERSION: u64 = 2;

/// The version of the form of ascending lists by their parts.
pub const PARTS_VERSION: u64 = 2;

/// The version of the form of texts by the wavelet trees of their columns.
pub const TREE_VERSION: u64 = 2;

/// The sum of no words.
pub const START: u64 = 0xcbf2_9ce4_8422_2325;

/// The factor of a sum.
pub const FACTOR: u64 = 0x9e37_79b9_7f4a_7c15;

/// The number of bits by which a sum is rotated.
pub const TURN: u32 = 29;
