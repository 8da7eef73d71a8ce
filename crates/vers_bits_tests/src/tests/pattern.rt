//! A pattern of numbers and of bits, by which lists of any length are made and compared.
use std::alloc::Allocator;
use vers_bits::bit_vec::{BitVec, GrowError};

/// Returns number `position` of the pattern.
pub fn item(position: usize) -> u8 {
    (position as u64)
        .wrapping_mul(0x9E37_79B9_7F4A_7C15)
        .to_be_bytes()[0]
}

/// Returns bit `position` of the pattern: whether its number is odd.
pub fn bit(position: usize) -> bool {
    item(position) % 2 == 1
}

/// Returns bit `position` of the pattern from a position on.
pub fn bit_from(from: usize, position: usize) -> bool {
    bit(from.wrapping_add(position))
}

/// Returns the bits of the pattern from a position on, `len` of them.
pub fn pattern<A: Allocator + Copy>(
    alloc: A,
    from: usize,
    len: usize,
) -> Result<BitVec<A>, GrowError> {
    let mut list = BitVec::with_capacity(alloc, len)?;
    for position in 0..len {
        list.append(bit_from(from, position))?;
    }
    Ok(list)
}

/// Returns the 64 bits of the pattern from a position on, the first as the lowest one.
pub fn word(from: usize) -> u64 {
    let mut word = 0u64;
    for position in (0..64).rev() {
        word = word
            .wrapping_mul(2)
            .wrapping_add(u64::from(bit_from(from, position)));
    }
    word
}

/// The expected bit at each position.
pub trait Bits {
    /// Returns the bit at a position.
    fn bit_at(&self, position: usize) -> bool;
}

/// The bits of the pattern from a position on.
#[derive(Clone, Copy, Drop)]
pub struct PatternFrom {
    pub position: usize,
}

impl Bits for PatternFrom {
    fn bit_at(&self, position: usize) -> bool {
        bit_from(self.position, position)
    }
}

/// Returns true if a list has `len` bits, each of them as wanted.
pub fn has_bits<A: Allocator + Copy, W: Bits>(list: &BitVec<A>, len: usize, wanted: &W) -> bool {
    for position in 0..len {
        if list.is_bit_set(position) != Some(wanted.bit_at(position)) {
            return false;
        }
    }
    list.len() == len
}

/// Returns true if a list has the bits of the pattern from a position on, `len` of them.
pub fn has_pattern<A: Allocator + Copy>(list: &BitVec<A>, from: usize, len: usize) -> bool {
    has_bits(list, len, &PatternFrom { position: from })
}
