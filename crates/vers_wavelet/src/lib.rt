//! Lists of symbols with rank, select and order statistics.
#![tactic(auto)]

pub mod laws;
pub mod wavelet;
