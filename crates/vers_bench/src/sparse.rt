//! The series of lists of bits with few ones.
use crate::lists::bits_of;
use crate::report::{Report, asked, bits_per_item};
use crate::walks::sum_of;
use crate::workload::{Below, NONE};
use std::alloc::{AllocError, Global};
use std::io;
use vers_bits::bit_vec::BitVec;
use vers_sorted::sparse::SparseRSVec;

type Bits = BitVec<Global>;

type Sparse = SparseRSVec<Global>;

fn get(list: &Sparse, position: &u64) -> u64 {
    list.get(*position).unwrap_or(NONE)
}

fn rank1(list: &Sparse, position: &u64) -> u64 {
    list.rank1(*position)
}

fn select1(list: &Sparse, number: &u64) -> u64 {
    list.select1(*number as usize)
}

#[inline(never)]
fn iter1_pass(list: &Sparse) -> u64 {
    sum_of(list.iter1())
}

fn sparse_of(_alloc: Global, bits: &Bits) -> Result<Sparse, AllocError> {
    SparseRSVec::from_bitvec(bits)
}

fn sparse_of_inverted(_alloc: Global, bits: &Bits) -> Result<Sparse, AllocError> {
    SparseRSVec::from_bitvec_inverted(bits)
}

/// Runs all series over a list of bits.
pub fn run(report: &Report, limbs: &[u64]) -> io::Result<()> {
    asked(report, (), bits_of(report.alloc(), limbs), run_bits)
}

fn run_bits(report: &Report, _source: (), bits: &Bits) -> io::Result<()> {
    let len = bits.len() as u64;
    let ones = bits.count_ones();
    report.builds("build", len, ones, bits, sparse_of)?;
    let zeros = bits.count_zeros();
    report.builds("build_inverted", len, zeros, bits, sparse_of_inverted)?;
    asked(report, ones, SparseRSVec::from_bitvec(bits), run_built)
}

fn run_built(report: &Report, ones: u64, list: &Sparse) -> io::Result<()> {
    report.size("heap_bits_per_item", bits_per_item(list.heap_size(), ones))?;
    let positions = report.questions(7, 0, Below(list.len()));
    report.queries("get", list, &positions, get)?;
    report.queries("rank1", list, &positions, rank1)?;
    report.queries(
        "select1",
        list,
        &report.questions(7, 1, Below(ones)),
        select1,
    )?;
    report.walk("iter1", ones, list, iter1_pass)
}
