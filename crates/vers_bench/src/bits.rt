//! The series of lists of bits with rank and select.
use crate::lists::bits_of;
use crate::report::{Report, asked};
use crate::walks::sum_of_positions;
use crate::workload::Below;
use std::alloc::{AllocError, Global};
use std::io;
use vers_rank::fast_rs_vec::RsVec;

type Bits = RsVec<Global>;

fn rank1(bits: &Bits, position: &u64) -> u64 {
    bits.rank1(*position as usize) as u64
}

fn select1(bits: &Bits, number: &u64) -> u64 {
    bits.select1(*number as usize) as u64
}

fn select0(bits: &Bits, number: &u64) -> u64 {
    bits.select0(*number as usize) as u64
}

#[inline(never)]
fn iter1_pass(bits: &Bits) -> u64 {
    sum_of_positions(bits.iter1())
}

// Returns the overhead of the list over its bits, in thousandths of a percent.
fn overhead(bits: &Bits) -> u64 {
    let heap_bits = (bits.heap_size() as u64).saturating_mul(8);
    let len = (bits.len() as u64).max(1);
    (heap_bits.saturating_mul(100_000) / len).saturating_sub(100_000)
}

/// Returns the bits of limbs, with rank and select.
pub fn indexed(alloc: Global, limbs: &[u64]) -> Result<Bits, AllocError> {
    RsVec::from_bit_vec(bits_of(alloc, limbs)?)
}

/// Runs all series over a list of bits.
pub fn run(report: &Report, limbs: &[u64]) -> io::Result<()> {
    asked(report, limbs, indexed(report.alloc(), limbs), run_built)
}

fn run_built(report: &Report, limbs: &[u64], bits: &Bits) -> io::Result<()> {
    let len = bits.len() as u64;
    let ones = bits.ones() as u64;
    report.builds_of_copies(len, ones, limbs, bits_of, RsVec::from_bit_vec)?;
    report.size("heap_overhead_percent", overhead(bits))?;
    let positions = report.questions(7, 0, Below(len));
    report.queries("rank1", bits, &positions, rank1)?;
    report.chained_queries("rank1_chained", bits, &positions, rank1)?;
    let numbers = report.questions(7, 1, Below(ones));
    report.queries("select1", bits, &numbers, select1)?;
    report.chained_queries("select1_chained", bits, &numbers, select1)?;
    let numbers = report.questions(7, 2, Below(bits.zeros() as u64));
    report.queries("select0", bits, &numbers, select0)?;
    report.walk("iter1", ones, bits, iter1_pass)
}
