//! Lists of bits that the tests run over.
use std::alloc::Allocator;
use test_alloc::{Look, bit_of};
use vers_bits::bit_vec::{BitVec, GrowError};
use vers_rank::fast_rs_vec::RsVec;

/// Returns the same bits, indexed.
pub fn indexed<A: Allocator + Copy>(bits: BitVec<A>) -> Result<RsVec<A>, GrowError> {
    match RsVec::from_bit_vec(bits) {
        Ok(list) => Ok(list),
        Err(_) => Err(GrowError::Memory),
    }
}

/// Returns runs of equal bits, one after another, indexed: each with its bit and its length.
pub fn runs<A: Allocator + Copy>(alloc: A, runs: &[(bool, usize)]) -> Result<RsVec<A>, GrowError> {
    let mut bits = BitVec::new(alloc);
    for (bit, length) in runs {
        for _ in 0..*length {
            bits.append(*bit)?;
        }
    }
    indexed(bits)
}

/// Returns `count` ones, each after `gap` zeros, indexed.
pub fn spread<A: Allocator + Copy>(
    alloc: A,
    gap: usize,
    ones: usize,
) -> Result<RsVec<A>, GrowError> {
    let mut bits = BitVec::new(alloc);
    for _ in 0..ones {
        for _ in 0..gap {
            bits.append(false)?;
        }
        bits.append(true)?;
    }
    indexed(bits)
}

/// Returns the bits 10110, indexed.
pub fn list_10110<A: Allocator + Copy>(alloc: A) -> Result<RsVec<A>, GrowError> {
    runs(alloc, &[(true, 1), (false, 1), (true, 2), (false, 1)])
}

/// Returns `len` bits of a look.
pub fn bits_of<A: Allocator + Copy>(
    alloc: A,
    look: Look,
    len: usize,
) -> Result<BitVec<A>, GrowError> {
    let mut bits = BitVec::new(alloc);
    for position in 0..len {
        bits.append(bit_of(look, position))?;
    }
    Ok(bits)
}

/// Returns the same bits, indexed.
pub fn list_of<A: Allocator + Copy>(
    alloc: A,
    look: Look,
    len: usize,
) -> Result<RsVec<A>, GrowError> {
    indexed(bits_of(alloc, look, len)?)
}

/// Returns the same bits, indexed, with another one at one position.
pub fn turned_at<A: Allocator + Copy>(
    alloc: A,
    look: Look,
    len: usize,
    turned: usize,
) -> Result<RsVec<A>, GrowError> {
    let mut bits = BitVec::new(alloc);
    for position in 0..len {
        bits.append(bit_of(look, position) != (position == turned))?;
    }
    indexed(bits)
}

/// The items over which a list is walked.
#[derive(Clone, Copy, Drop)]
pub enum Over {
    Bits,
    Zeros,
    Ones,
}

/// Returns the item that a walk over a list of a look returns for a position, if any.
pub fn item_at(over: Over, look: Look, position: usize) -> Option<u64> {
    let bit = bit_of(look, position);
    match over {
        Over::Bits => Some(u64::from(bit)),
        Over::Zeros => (!bit).then_some(position as u64),
        Over::Ones => bit.then_some(position as u64),
    }
}
