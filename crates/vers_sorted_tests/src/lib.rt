//! Tests of ascending lists and of sparse lists of bits.
#![tactic(auto)]

#[cfg(test)]
mod tests;
