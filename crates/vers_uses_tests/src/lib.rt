//! Tests of a user's first program, and of the names of the library that it uses.
#![tactic(auto)]

#[cfg(test)]
mod paths;
#[cfg(test)]
mod values;
