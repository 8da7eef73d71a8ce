//! The iterators over the bits and over the limbs of a list of bits.
ghost use Rattle.std.specs.Prelude.{◌≡◌, map};
ghost use Rattle.vers_bits.specs.Bits.{bit_value, limbs};

use crate::bit_vec::BitVec;
use crate::list_ends::{BorrowedList, ListEnds, Listed, OwnedList};
use std::alloc::{AllocError, Allocator};

#[tactic(auto, using(crate::proofs::BothEnds::items))]
impl<'a, A: Allocator + Copy> Listed for &'a BitVec<A> {
    type Item = u64;

    ghost items = { λ bits. map bit_value bits.now };

    #[inline]
    fn count_items(&self) -> usize {
        self.len()
    }

    #[inline]
    fn item_at(&self, i: usize) -> u64 {
        self.get_unchecked(i)
    }
}

impl<'a, A: Allocator + Copy> BorrowedList for &'a BitVec<A> {
    fn second(&self) -> Self {
        *self
    }
}

#[tactic(auto, using(crate::proofs::BothEnds::items))]
impl<A: Allocator + Copy> Listed for BitVec<A> {
    type Item = u64;

    ghost items = { λ bits. map bit_value bits };

    #[inline]
    fn count_items(&self) -> usize {
        self.len()
    }

    #[inline]
    fn item_at(&self, i: usize) -> u64 {
        self.get_unchecked(i)
    }
}

impl<A: Allocator + Copy> OwnedList for BitVec<A> {
    fn second(&self) -> Result<Self, AllocError> {
        self.clone()
    }
}

/// The limbs of a list of bits, which iterators read one by one.
#[derive(Drop)]
pub struct Limbs<'a, A: Allocator + Copy> {
    bits: &'a BitVec<A>,
}

#[tactic(auto, using(crate::proofs::BothEnds::items))]
impl<'a, A: Allocator + Copy> Listed for Limbs<'a, A> {
    type Item = u64;

    ghost items = { λ s. limbs s.bits.now };

    #[inline]
    fn count_items(&self) -> usize {
        self.bits.len().div_ceil(64)
    }

    #[inline]
    fn item_at(&self, i: usize) -> u64 {
        self.bits.limb(i)
    }
}

impl<'a, A: Allocator + Copy> BorrowedList for Limbs<'a, A> {
    fn second(&self) -> Self {
        Limbs { bits: self.bits }
    }
}

/// An iterator over the bits of a list, as numbers: 1 for a one, 0 for a zero.
pub type BitVecRefIter<'a, A> = ListEnds<&'a BitVec<A>>;

/// An iterator over the bits of a list that it owns, as numbers: 1 for a one, 0 for a zero.
pub type BitVecIter<A> = ListEnds<BitVec<A>>;

/// An iterator over the limbs of a list of bits, 64 bits each, least significant first, with zeros past the
/// length.
pub type LimbIter<'a, A> = ListEnds<Limbs<'a, A>>;

impl<A: Allocator + Copy> BitVec<A> {
    /// Returns an iterator over the bits, as numbers.
    pub fn iter(&self) -> BitVecRefIter<'_, A>
        ensures { result ≡ map bit_value self.now }
    {
        ListEnds::new(self)
    }

    /// Returns an iterator over the limbs.
    pub fn iter_limbs(&self) -> LimbIter<'_, A>
        ensures { result ≡ limbs self.now }
    {
        ListEnds::new(Limbs { bits: self })
    }
}

impl<'a, A: Allocator + Copy> IntoIterator for &'a BitVec<A> {
    type Item = u64;

    type IntoIter = BitVecRefIter<'a, A>;

    ghost into_iter_gives = { λ bits items. items ≡ map bit_value bits.now };

    fn into_iter(self) -> BitVecRefIter<'a, A> {
        self.iter()
    }
}

impl<'a, A: Allocator + Copy> IntoIterator for &'a mut BitVec<A> {
    type Item = u64;

    type IntoIter = BitVecRefIter<'a, A>;

    ghost into_iter_gives = { λ bits items. items ≡ map bit_value bits.now };

    fn into_iter(self) -> BitVecRefIter<'a, A> {
        self.iter()
    }
}

impl<A: Allocator + Copy> IntoIterator for BitVec<A> {
    type Item = u64;

    type IntoIter = BitVecIter<A>;

    ghost into_iter_gives = { λ bits items. items ≡ map bit_value bits };

    /// Returns an iterator over the bits, as numbers, which owns the list.
    fn into_iter(self) -> BitVecIter<A> {
        ListEnds::new(self)
    }
}
