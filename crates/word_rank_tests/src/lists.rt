//! Lists of bits that the tests run over.
use std::alloc::{AllocError, Allocator};
use test_alloc::{Look, bit_of};
use vers_bits::bit_vec::{BitVec, GrowError};
use word_rank::WordRank;

/// Returns the same bits, with rank.
pub fn ranked<A: Allocator + Copy>(
    bits: Result<BitVec<A>, GrowError>,
) -> Result<WordRank<A>, AllocError> {
    match bits {
        Ok(bits) => WordRank::from_bit_vec(bits),
        Err(_) => Err(AllocError),
    }
}

// Returns runs of equal bits, one after another: each with its bit and its length.
fn bits_of_runs<A: Allocator + Copy>(
    alloc: A,
    runs: &[(bool, usize)],
) -> Result<BitVec<A>, GrowError> {
    let mut bits = BitVec::new(alloc);
    for (bit, length) in runs {
        for _ in 0..*length {
            bits.append(*bit)?;
        }
    }
    Ok(bits)
}

/// Returns runs of equal bits with rank.
pub fn runs<A: Allocator + Copy>(
    alloc: A,
    runs: &[(bool, usize)],
) -> Result<WordRank<A>, AllocError> {
    ranked(bits_of_runs(alloc, runs))
}

/// Returns `len` bits of a look.
pub fn bits_of<A: Allocator + Copy>(
    alloc: A,
    look: Look,
    len: usize,
) -> Result<BitVec<A>, GrowError> {
    let mut bits = BitVec::new(alloc);
    for position in 0..len {
        bits.append(bit_of(look, position))?;
    }
    Ok(bits)
}
