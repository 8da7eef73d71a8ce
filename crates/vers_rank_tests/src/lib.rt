//! Tests of lists of bits with rank and select, and of their iterators.
#![tactic(auto)]

#[cfg(test)]
mod tests;
