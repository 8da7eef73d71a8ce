//! Every constructor of a list of bits, by one table of items in each type that lists are made of.
use crate::tests::pattern::item;
use std::alloc::{AllocError, Allocator};
use vers_bits::bit_vec::{BitVec, GrowError};

/// A constructor; if it packs, with the number of bits of each item.
#[derive(Clone, Copy, Drop)]
pub enum Maker {
    WithCapacity,
    FromZeros,
    FromOnes,
    FromBools,
    FromBoolIter,
    FromBits,
    FromBitsU16,
    FromBitsU32,
    FromBitsU64,
    FromBitsIter,
    FromLimbs,
    FromLimbsIter,
    PackU8(usize),
    PackU16(usize),
    PackU32(usize),
    PackU64(usize),
    PackIterU8(usize),
    PackIterU16(usize),
    PackIterU32(usize),
    PackIterU64(usize),
}

/// Items in each type of which lists are made.
#[derive(Drop)]
pub struct Items<A: Allocator + Copy> {
    alloc: A,
    bools: Vec<bool, A>,
    bytes: Vec<u8, A>,
    shorts: Vec<u16, A>,
    words: Vec<u32, A>,
    longs: Vec<u64, A>,
}

impl<A: Allocator + Copy> Items<A> {
    fn new(alloc: A) -> Self {
        Items {
            alloc,
            bools: Vec::new(alloc),
            bytes: Vec::new(alloc),
            shorts: Vec::new(alloc),
            words: Vec::new(alloc),
            longs: Vec::new(alloc),
        }
    }

    /// Returns the allocator of the items.
    pub fn allocator(&self) -> A {
        self.alloc
    }

    // Adds the lowest digits of a number, as many as each type has.
    fn add(&mut self, number: u64) -> Result<(), AllocError> {
        push(&mut self.bools, number % 2 == 1)?;
        push(&mut self.bytes, (number % 256) as u8)?;
        push(&mut self.shorts, (number % 65536) as u16)?;
        push(&mut self.words, (number % 4294967296) as u32)?;
        push(&mut self.longs, number)
    }

    /// Returns the items with the lowest digits of the numbers.
    pub fn of_numbers(alloc: A, numbers: &[u64]) -> Result<Self, AllocError> {
        let mut items = Items::new(alloc);
        for number in numbers {
            items.add(*number)?;
        }
        Ok(items)
    }

    /// Returns the first items of the pattern.
    pub fn of_pattern(alloc: A, len: usize) -> Result<Self, AllocError> {
        let mut items = Items::new(alloc);
        for position in 0..len {
            items.add(u64::from(item(position)))?;
        }
        Ok(items)
    }
}

/// Appends an item. The prover knows nothing of it.
pub fn push<T: Drop, A: Allocator + Copy>(
    items: &mut Vec<T, A>,
    item: T,
) -> Result<(), AllocError> {
    items.push(item)?;
    Ok(())
}

/// Returns the list that a constructor makes of items, or of as many bits if it takes only a length.
pub fn make<A: Allocator + Copy>(
    alloc: A,
    maker: Maker,
    items: &Items<A>,
) -> Result<BitVec<A>, GrowError> {
    let longs = items.longs.as_slice();
    match maker {
        Maker::WithCapacity => BitVec::with_capacity(alloc, longs.len()),
        Maker::FromZeros => BitVec::from_zeros(alloc, longs.len()),
        Maker::FromOnes => BitVec::from_ones(alloc, longs.len()),
        Maker::FromBools => BitVec::from_bools(alloc, &items.bools),
        Maker::FromBits => BitVec::from_bits(alloc, &items.bytes),
        Maker::FromBitsU16 => BitVec::from_bits_u16(alloc, &items.shorts),
        Maker::FromBitsU32 => BitVec::from_bits_u32(alloc, &items.words),
        Maker::FromBitsU64 => BitVec::from_bits_u64(alloc, longs),
        Maker::FromLimbs => BitVec::from_limbs(alloc, longs),
        _ => pack(alloc, maker, items),
    }
}

// Does the same for the constructors that pack a slice.
fn pack<A: Allocator + Copy>(
    alloc: A,
    maker: Maker,
    items: &Items<A>,
) -> Result<BitVec<A>, GrowError> {
    match maker {
        Maker::PackU8(k) => BitVec::pack_sequence_u8(alloc, &items.bytes, k),
        Maker::PackU16(k) => BitVec::pack_sequence_u16(alloc, &items.shorts, k),
        Maker::PackU32(k) => BitVec::pack_sequence_u32(alloc, &items.words, k),
        Maker::PackU64(k) => BitVec::pack_sequence_u64(alloc, &items.longs, k),
        _ => make_of_iter(alloc, maker, items),
    }
}

// Does the same for the constructors that take an iterator.
fn make_of_iter<A: Allocator + Copy>(
    alloc: A,
    maker: Maker,
    items: &Items<A>,
) -> Result<BitVec<A>, GrowError> {
    match maker {
        Maker::FromBoolIter => BitVec::from_bool_iter(alloc, items.bools.iter().copied()),
        Maker::FromBitsIter => BitVec::from_bits_iter(alloc, items.longs.iter().copied()),
        Maker::FromLimbsIter => BitVec::from_limbs_iter(alloc, items.longs.iter().copied()),
        _ => pack_iter(alloc, maker, items),
    }
}

// Does the same for the constructors that pack the items of one.
fn pack_iter<A: Allocator + Copy>(
    alloc: A,
    maker: Maker,
    items: &Items<A>,
) -> Result<BitVec<A>, GrowError> {
    match maker {
        Maker::PackIterU8(k) => BitVec::pack_from_iter_u8(alloc, items.bytes.iter().copied(), k),
        Maker::PackIterU16(k) => BitVec::pack_from_iter_u16(alloc, items.shorts.iter().copied(), k),
        Maker::PackIterU32(k) => BitVec::pack_from_iter_u32(alloc, items.words.iter().copied(), k),
        Maker::PackIterU64(k) => BitVec::pack_from_iter_u64(alloc, items.longs.iter().copied(), k),
        _ => Err(GrowError::Memory),
    }
}
