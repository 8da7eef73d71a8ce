//! Lists of bits with rank (how many ones or zeros precede a position) and select (their positions).
#![tactic(auto)]

mod build;
pub mod fast_rs_vec;
mod lanes;
pub mod laws;
mod offsets;
mod word;
