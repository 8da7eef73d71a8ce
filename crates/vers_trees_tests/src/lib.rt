//! Tests of trees of parentheses.
#![tactic(auto)]

#[cfg(test)]
mod tests;
