//! The structures of the library, for C.
//!
//! A handle is empty, or an owner of one structure. Exports build a structure into a handle, query, change and
//! save it, make another owner of it for another thread, and drop an owner. Every precondition is tested here:
//! a call that fails returns a status and leaves everything unchanged.
#![tactic(auto)]

mod answer;
mod asked;
mod asks;
mod batch;
mod builds;
mod change;
mod combine;
mod counts;
mod documents;
mod handle;
mod held;
mod kept;
mod loose;
mod makes;
mod owners;
mod quick;
mod saves;
mod shares;
mod status;
mod text;
mod texts;
