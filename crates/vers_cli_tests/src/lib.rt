//! Tests of the line program over memory: its answers, and runs with an error.
#![tactic(auto)]

#[cfg(test)]
mod answers;
#[cfg(test)]
mod devices;
#[cfg(test)]
mod faults;
#[cfg(test)]
mod forest;
#[cfg(test)]
mod memory;
#[cfg(test)]
mod room;
