//! The series of plain lists of bits: making, appending, reading and counting, by limbs.
//!
//! Each pass is a function of its own in the machine code, so that a profiler counts its instructions.
use crate::report::{Report, asked, or_refused};
use crate::workload::{Below, NONE};
use std::alloc::{AllocError, Global};
use std::io;
use vers_bits::bit_vec::{BitVec, GrowError};

type Bits = BitVec<Global>;

const WIDTH: usize = 37;

/// Returns the bits of limbs.
pub fn bits_of(alloc: Global, limbs: &[u64]) -> Result<Bits, AllocError> {
    or_refused(BitVec::from_limbs(alloc, limbs))
}

// Returns the number of bits of a list, or the value for none if it was not made.
fn len_or_none(made: Result<Bits, GrowError>) -> u64 {
    match made {
        Ok(list) => list.len() as u64,
        Err(_) => NONE,
    }
}

#[inline(never)]
fn from_limbs_pass(alloc: &Global, limbs: &[u64]) -> u64 {
    len_or_none(BitVec::from_limbs(*alloc, limbs))
}

fn extended(bits: &Bits) -> Result<Bits, GrowError> {
    let mut list = BitVec::from_ones(bits.allocator(), 3)?;
    list.extend_bitvec(bits)?;
    Ok(list)
}

// A list of three bits is extended, so that no limb is aligned with a limb.
#[inline(never)]
fn extend_bitvec_pass(bits: &Bits) -> u64 {
    len_or_none(extended(bits))
}

fn get_bits(bits: &Bits, position: &u64) -> u64 {
    match bits.get_bits(*position as usize, WIDTH) {
        Some(word) => word,
        None => NONE,
    }
}

#[inline(never)]
fn count_ones_pass(bits: &Bits) -> u64 {
    bits.count_ones()
}

/// Runs all series over a list of bits, with reads of some of its bits.
pub fn run(report: &Report, limbs: &[u64]) -> io::Result<()> {
    let alloc = report.alloc();
    let len = (limbs.len() as u64).wrapping_mul(64);
    report.passes("from_limbs", len, &alloc, limbs, from_limbs_pass)?;
    asked(report, (), bits_of(alloc, limbs), run_built)
}

fn run_built(report: &Report, _source: (), bits: &Bits) -> io::Result<()> {
    let len = bits.len() as u64;
    report.walk("extend_bitvec", len, bits, extend_bitvec_pass)?;
    let positions = report.questions(7, 0, Below(len));
    report.queries("get_bits", bits, &positions, get_bits)?;
    report.walk("count_ones", len, bits, count_ones_pass)
}
