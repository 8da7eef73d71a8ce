//! Counters of the reads of a query, and vectors whose entries are read only with such a counter.
#![tactic(auto)]

pub mod ends;
pub mod laws;
pub mod made_ends;
pub mod tally;
