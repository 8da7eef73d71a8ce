//! A use of the library: an index of documents, the bases of a genome, and prices by the day. docs/USING.md
//! explains it.
#![tactic(auto)]

pub mod budget;
pub mod documents;
pub mod genome;
pub mod levels;
pub mod prices;
