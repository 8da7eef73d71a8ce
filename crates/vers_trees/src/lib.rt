//! Ordered trees as lists of parentheses: excess, searches for a position where it rises, balance.
#![tactic(auto)]

pub mod laws;
pub mod trees;
