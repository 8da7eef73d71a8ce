//! Lists of bits with a rank of three reads: the number of ones before each word is stored.
#![tactic(auto)]

mod build;
mod rank;

pub use rank::{BitAndRank, WordRank};
