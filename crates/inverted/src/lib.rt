//! An inverted index: many ascending lists of documents, one for each term, stored as one list of numbers.
#![tactic(auto)]

mod documents;
mod fault;
mod inverted_index;
pub mod laws;
mod list;
mod make;
mod numbers;
mod operations;
mod queries;

pub use documents::Documents;
pub use fault::InvertedError;
pub use inverted_index::InvertedIndex;
pub use list::ListOf;
pub use make::{Pairs, refusal};
