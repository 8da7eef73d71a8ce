//! Tests of range minima.
#![tactic(auto)]

#[cfg(test)]
mod tests;
