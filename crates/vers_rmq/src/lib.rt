//! Range minimum queries: the first position of a least item in any range of a list.
#![tactic(auto)]

pub mod laws;
pub mod rmq;
