//! Tests of lists in files, over memory.
#![tactic(auto)]

#[cfg(test)]
mod asked;
#[cfg(test)]
mod fasta;
#[cfg(test)]
mod files;
#[cfg(test)]
mod indexes;
#[cfg(test)]
mod memory;
#[cfg(test)]
mod places;
#[cfg(test)]
mod shown;
#[cfg(test)]
mod texts;
