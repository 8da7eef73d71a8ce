//! Ascending lists of numbers in high and low parts (Elias-Fano), and sparse lists of bits based on them.
#![tactic(auto)]

pub mod elias_fano;
pub mod laws;
pub mod order;
pub mod sparse;
