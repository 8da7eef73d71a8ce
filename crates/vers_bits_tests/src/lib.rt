//! Tests of the list of bits.
#![tactic(auto)]

#[cfg(test)]
mod tests;
