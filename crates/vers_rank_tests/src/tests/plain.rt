//! A list of bits whose queries scan it bit by bit: what the index is compared with.
use std::alloc::Allocator;
use vers_bits::bit_vec::BitVec;

/// A list of bits with no index.
#[derive(Drop)]
pub struct PlainList<A: Allocator + Copy> {
    bits: BitVec<A>,
}

impl<A: Allocator + Copy> PlainList<A> {
    /// Returns the same bits.
    pub fn new(bits: BitVec<A>) -> Self {
        PlainList { bits }
    }

    /// Returns the number of bits that the list has.
    pub fn len(&self) -> usize {
        self.bits.len()
    }

    /// Returns the bit at a position, 1 or 0. `None` for a position that the list doesn't have.
    pub fn get(&self, position: usize) -> Option<u64> {
        self.bits.get(position)
    }

    // Returns true if there is a bit at a position, and it has that value.
    fn holds(&self, bit: bool, position: usize) -> bool {
        self.bits.is_bit_set(position) == Some(bit)
    }

    /// Returns the number of zeros or ones below a position.
    pub fn rank(&self, bit: bool, position: usize) -> usize {
        let mut count: usize = 0;
        for p in 0..position.min(self.len()) {
            if self.holds(bit, p) {
                count = count.wrapping_add(1);
            }
        }
        count
    }

    /// Returns the position of zero or one number `r` (from 0) or the length if there are fewer.
    pub fn select(&self, bit: bool, r: usize) -> usize {
        let mut left = r;
        for p in 0..self.len() {
            if self.holds(bit, p) {
                if left == 0 {
                    return p;
                }
                left -= 1;
            }
        }
        self.len()
    }

    /// Returns the least position above `position` that has the bit.
    pub fn successor(&self, bit: bool, position: usize) -> Option<u64> {
        for p in position..self.len() {
            if p > position && self.holds(bit, p) {
                return Some(p as u64);
            }
        }
        None
    }

    /// Returns the greatest position below `position` that has the bit.
    pub fn predecessor(&self, bit: bool, position: usize) -> Option<u64> {
        for p in (0..position.min(self.len())).rev() {
            if self.holds(bit, p) {
                return Some(p as u64);
            }
        }
        None
    }

    /// Returns the `n` bits from `position` on as a number, the lowest first; 0 if `n` is 0. `None` if the
    /// list doesn't have them.
    pub fn get_bits(&self, position: usize, n: usize) -> Option<u64> {
        if n > 64 || position.checked_add(n)? > self.len() {
            return None;
        }
        let mut number: u64 = 0;
        for i in (0..n).rev() {
            let bit = self.bits.get(position.wrapping_add(i))?;
            number = number.wrapping_mul(2).wrapping_add(bit);
        }
        Some(number)
    }
}
