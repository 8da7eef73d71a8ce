//! Tests of the line program over texts: its answers, FASTA files, and runs that are refused memory.
#![tactic(auto)]

#[cfg(test)]
mod answers;
#[cfg(test)]
mod fasta;
#[cfg(test)]
mod memory;
#[cfg(test)]
mod plain;
