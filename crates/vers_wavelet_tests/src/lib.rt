//! Tests of lists of symbols.
#![tactic(auto)]

#[cfg(test)]
mod tests;
