//! Tests of the inverted index. An `assert!` of an `==` is faster to prove than an `assert_eq!`, which prints both
//! sides.
#![tactic(auto)]

#[cfg(test)]
mod combined;
#[cfg(test)]
mod engine;
#[cfg(test)]
mod memory;
#[cfg(test)]
mod numbers;
#[cfg(test)]
mod plain;
#[cfg(test)]
mod rows;
#[cfg(test)]
mod shared;
