//! The series of walks over the ones of a list: from both ends, in steps, by chunks, and of two lists
//! side by side.
//!
//! Each pass is a function of its own in the machine code, so that a profiler counts its instructions.
ghost use Rattle.std.specs.Iterator.{IsFinite};

use crate::bits::indexed;
use crate::report::{Report, asked};
use std::alloc::Global;
use std::io;
use vers_rank::fast_rs_vec::RsVec;

type Bits = RsVec<Global>;

/// The number of ones that a step of `iter1_nth` passes, including the one that it returns.
const STEP: usize = 10;

/// Returns the sum of the positions that a walk passes.
#[inline(always)]
pub fn sum_of_positions<I: Iterator<Item = usize> + Drop>(walk: I) -> u64
    requires can { I.can_next walk }
    requires ends { IsFinite (I.remaining walk) }
{
    walk.fold(0u64, |sum, position| sum.wrapping_add(position as u64))
}

/// Returns the sum of the numbers that a walk passes.
#[inline(always)]
pub fn sum_of<I: Iterator<Item = u64> + Drop>(walk: I) -> u64
    requires can { I.can_next walk }
    requires ends { IsFinite (I.remaining walk) }
{
    walk.fold(0u64, |sum, number| sum.wrapping_add(number))
}

#[inline(never)]
fn front_pass(bits: &Bits) -> u64 {
    sum_of_positions(bits.iter1())
}

#[inline(never)]
fn back_pass(bits: &Bits) -> u64 {
    sum_of_positions(bits.iter1().rev())
}

#[inline(never)]
fn nth_pass(bits: &Bits) -> u64 {
    let mut positions = bits.iter1();
    let mut sum = 0u64;
    for _ in 0..bits.ones() / STEP {
        let position = positions.nth(STEP - 1).unwrap_or(0);
        sum = sum.wrapping_add(position as u64);
    }
    sum
}

#[inline(never)]
fn chunks_pass(bits: &Bits) -> u64 {
    sum_of_positions(bits.bit_set_iter1())
}

#[inline(never)]
fn equality_pass(bits: &Bits) -> u64 {
    u64::from(bits.sparse_equals::<false>(bits))
}

/// Runs all series over a list of bits.
pub fn run(report: &Report, limbs: &[u64]) -> io::Result<()> {
    asked(report, (), indexed(report.alloc(), limbs), run_built)
}

fn run_built(report: &Report, _source: (), bits: &Bits) -> io::Result<()> {
    let ones = bits.ones() as u64;
    report.walk("iter1", ones, bits, front_pass)?;
    report.walk("iter1_back", ones, bits, back_pass)?;
    report.walk("iter1_nth", ones / 10, bits, nth_pass)?;
    report.walk("bit_set_iter1", ones, bits, chunks_pass)?;
    report.walk("sparse_equals1", ones, bits, equality_pass)
}
