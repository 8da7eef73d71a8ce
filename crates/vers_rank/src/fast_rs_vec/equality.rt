//! Equality of indexed lists.
ghost use Rattle.std.specs.Prelude.{◌≡◌, ◌↔◌, IsTrue, length};
ghost use Rattle.vers_bits.specs.Equality.{same_bits, same_bits_per, same_bits_equiv};

use super::RsVec;
use super::reader::Reader;
use std::alloc::Allocator;
use vers_tally::tally::{Tally, Uncounted};

impl<A: Allocator + Copy> RsVec<A> {
    /// Returns true if both lists have the same bits, comparing the positions of their zeros if `ZERO` is true,
    /// otherwise of their ones. Fast if these are few.
    #[inline]
    pub fn sparse_equals<const ZERO: bool>(&self, other: &Self) -> bool
        ensures { IsTrue result ↔ (self.now ≡ other.now) }
    {
        self.has_positions_of(!ZERO, other)
    }

    /// Returns true if both lists have the same bits, comparing all limbs.
    #[inline]
    pub fn full_equals(&self, other: &Self) -> bool
        ensures { IsTrue result ↔ (self.now ≡ other.now) }
    {
        self == other
    }

    // Returns true if both lists have the same length and the same positions of a bit, by a walk over each.
    fn has_positions_of(&self, bit: bool, other: &Self) -> bool
        ensures { IsTrue result ↔ (self.now ≡ other.now) }
    {
        if self.len() != other.len() {
            return false;
        }
        if self.total(bit) != other.total(bit) {
            return false;
        }
        let mut tally = Tally::new();
        let mut here = Reader::new();
        let mut there = Reader::new();
        for r in 0..self.total(bit) {
            let position = here.position(bit, r, self, &mut tally);
            if position != there.position(bit, r, other, &mut tally) {
                return false;
            }
        }
        true
    }
}

impl<A: Allocator + Copy> PartialEq for RsVec<A> {
    ghost eq = { same_bits };

    ghost laws = { same_bits_per };

    /// Returns true if both lists have the same bits.
    fn eq(&self, other: &RsVec<A>) -> bool
        ensures by_bits { result ≡ same_bits self.now other.now }
        ensures exact { IsTrue result ↔ (self.now ≡ other.now) }
    {
        self.bits.as_bit_vec(Uncounted) == other.bits.as_bit_vec(Uncounted)
    }
}

impl<A: Allocator + Copy> Eq for RsVec<A> {
    ghost laws = { same_bits_equiv };
}
