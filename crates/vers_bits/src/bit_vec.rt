//! Lists of bits.
ghost use Rattle.std.specs.Prelude.{◌≡◌, ℕ, ◌+◌, ◌-◌, ◌*◌, ◌/◌, ◌%◌, ◌^◌, ◌<◌, ◌≤◌, ◌↔◌, [], ◌∷◌, ◌++◌, length, take, drop, IsTrue, IsSome, IfSome, IsOk, OnOk, OnErr, IfOk, Some, None, slice_get, slice_index, slice_index_or, true, false, ◌==◌, Bool, List, option_map, flat_map};
ghost use Rattle.vers_bits.specs.Bits.{bit_value, number, count, limb, limbs, limb_count, part, part_number};
ghost use Rattle.vers_bits.specs.inside.Words.{HoldsBits, AddsBit};
ghost use Rattle.vers_bits.specs.Equality.{same_bits, hash_input, same_bits_per, same_bits_equiv, hash_input-Alike};

use crate::bit_vec::chunks::{are_same, ones_of};
pub use crate::bit_vec::fault::{GrowError, LengthMismatch, OutOfRange, SplitCause, SplitError};
pub use crate::bit_vec::iter::{BitVecIter, BitVecRefIter, LimbIter};
pub use crate::bit_vec::mask::BitMask;
use std::alloc::{AllocError, Allocator};
use std::hash::{Hash, Hasher};
use std::marker::Model;

mod chunks;
mod edit;
mod fault;
mod grow;
mod iter;
mod make;
pub mod mask;
mod words;

/// The greatest length of a list of bits.
pub const MAX_LEN: usize = usize::MAX - 63;

/// A list of bits, stored in limbs of 64 bits and nothing else. Bit `p` is bit `p % 64` of limb `p / 64`, least
/// significant first. Contracts see a `BitVec` as the list of its bits.
#[derive(Drop)]
pub struct BitVec<A: Allocator + Copy> {
    data: Vec<u64, A>,
    len: usize,
}

impl<A: Allocator + Copy> Model for BitVec<A> {
    ghost use Rattle.std.specs.Prelude.{List, Bool};
    ghost use Rattle.vers_bits.specs.inside.Words.{word_bits, HoldsBits};

    ghost Value = { List Bool };

    ghost view = { λ v. word_bits v.data.items v.len };

    ghost invariant = { λ v. HoldsBits v.data.items v.len };
}

impl<A: Allocator + Copy> PartialEq for BitVec<A> {
    ghost eq = { same_bits };

    ghost laws = { same_bits_per };

    /// Returns true if both lists have the same bits.
    #[tactic(auto, using(crate::proofs::Equal::equality))]
    fn eq(&self, other: &BitVec<A>) -> bool
        ensures by_bits { result ≡ same_bits self.now other.now }
        ensures exact { IsTrue result ↔ (self.now ≡ other.now) }
    {
        self.len() == other.len() && are_same(self.limbs(), other.limbs())
    }
}

impl<A: Allocator + Copy> Eq for BitVec<A> {
    ghost laws = { same_bits_equiv };
}

impl<A: Allocator + Copy> Hash for BitVec<A> {
    ghost hash_input = { hash_input };

    ghost respects_eq = { hash_input-Alike };

    /// Feeds the length, then each limb, to the hasher.
    fn hash<H: Hasher>(&self, state: &mut H) {
        state.write_usize(self.len());
        for limb in self.limbs() {
            limb.hash(state);
        }
    }
}

impl<A: Allocator + Copy> Clone for BitVec<A> {
    ghost is_clone = { λ old new. new ≡ old };

    /// Returns a copy of the list.
    fn clone(&self) -> Result<Self, AllocError> {
        let data = Vec::from_slice(*self.data.allocator(), self.data.as_slice())?;
        Ok(BitVec {
            data,
            len: self.len,
        })
    }
}

#[tactic(auto, using(crate::proofs::Words::words))]
impl<A: Allocator + Copy> BitVec<A> {
    /// Returns the empty list, which allocates nothing.
    #[tactic(auto, unfolding(crate::specs::inside::Words::word_bits))]
    pub fn new(alloc: A) -> Self
        ensures { result ≡ [] }
    {
        BitVec {
            data: Vec::new(alloc),
            len: 0,
        }
    }

    /// Returns the number of bits.
    pub fn len(&self) -> usize
        ensures value { result ≡ length self.now }
        ensures bounded { result ≤ MAX_LEN }
    {
        self.len
    }

    /// Returns true if the list is empty.
    pub fn is_empty(&self) -> bool
        ensures { IsTrue result ↔ (self.now ≡ []) }
    {
        self.len() == 0
    }

    /// Returns true if the bit at `position` is a one, or `None` if `position` is out of bounds.
    pub fn is_bit_set(&self, position: usize) -> Option<bool>
        ensures { result ≡ slice_get self.now position }
    {
        if position >= self.len() {
            return None;
        }
        Some((self.data[position / 64] >> (position % 64)) & 1 == 1)
    }

    /// Returns the bit at `position`, 1 or 0, or `None` if `position` is out of bounds.
    pub fn get(&self, position: usize) -> Option<u64>
        ensures { result ≡ option_map bit_value (slice_get self.now position) }
    {
        if position >= self.len() {
            return None;
        }
        Some((self.data[position / 64] >> (position % 64)) & 1)
    }

    /// Returns true if the bit at `position` is a one. Precondition: `position` is below the length.
    pub fn is_bit_set_unchecked(&self, position: usize) -> bool
        requires { position < length self.now }
        ensures { result ≡ slice_index_or self.now position false }
    {
        (self.data[position / 64] >> (position % 64)) & 1 == 1
    }

    /// Returns the bit at `position`, 1 or 0. Precondition: `position` is below the length.
    pub fn get_unchecked(&self, position: usize) -> u64
        requires { position < length self.now }
        ensures { result ≡ bit_value (slice_index_or self.now position false) }
    {
        u64::from(self.is_bit_set_unchecked(position))
    }

    /// Returns limb `k`: the 64 bits from position `64 * k`, least significant first, with zeros past the
    /// length. Precondition: limb `k` contains at least one bit of the list.
    pub fn limb(&self, k: usize) -> u64
        requires { 64 * k < length self.now }
        ensures { result ≡ limb self.now k }
    {
        self.data[k]
    }

    /// Returns block `k` of 8 limbs, from limb `8 * k`, with zeros past the length. `None` if the list has
    /// fewer limbs.
    #[inline(always)]
    #[tactic(auto, using(crate::proofs::Chunks::blocks))]
    pub fn limb_block(&self, k: usize) -> Option<&[u64; 8]>
        ensures limbs { IfSome result (λ block. (j : ℕ) → j < 8
            → slice_index block.now j ≡ limb self.now (8 * k + j)) }
        ensures some { IsSome result ↔ (512 * k + 448 < length self.now) }
    {
        let (blocks, _) = self.limbs().as_chunks::<8>();
        blocks.get(k)
    }

    // Returns all limbs.
    #[tactic(auto, using(crate::proofs::Equal::words))]
    fn limbs(&self) -> &[u64]
        ensures { result.now ≡ limbs self.now }
    {
        known_words(self.data.as_slice())
    }

    /// Returns the number of ones.
    #[tactic(auto, using(crate::proofs::Chunks::all_limbs))]
    pub fn count_ones(&self) -> u64
        ensures { result ≡ count true self.now (length self.now) }
    {
        // There are few enough limbs for their ones to be counted.
        let _ = self.len();
        ones_of(self.limbs())
    }

    /// Returns the number of zeros.
    #[tactic(auto, using(crate::proofs::Counting::limbs))]
    pub fn count_zeros(&self) -> u64
        ensures { result ≡ count false self.now (length self.now) }
    {
        self.len() as u64 - self.count_ones()
    }

    /// Returns the number of bytes that the limbs take.
    pub fn heap_size(&self) -> usize
        ensures { result ≡ 8 * limb_count (length self.now) }
    {
        8 * self.data.len()
    }

    /// Returns the `n` bits from `position` on as a number. `None` if there are fewer, or `n` is 0 or above
    /// 64.
    #[tactic(auto, using(crate::proofs::Counting::parts))]
    pub fn get_bits(&self, position: usize, n: usize) -> Option<u64>
        ensures { result ≡ part_number self.now position n }
    {
        let len = self.len();
        if n == 0 || n > 64 || position > len || n > len - position {
            return None;
        }
        Some(self.get_bits_unchecked(position, n))
    }

    /// Returns the `n` bits from `position` on as a number: 0 if `n` is 0. Precondition: `n` is at most 64,
    /// and `position + n` at most the length.
    #[tactic(auto, using(crate::proofs::Counting::in_limbs))]
    pub fn get_bits_unchecked(&self, position: usize, n: usize) -> u64
        requires few { n ≤ 64 }
        requires within { position + n ≤ length self.now }
        ensures { result ≡ number (part self.now position n) }
    {
        // A position below the length is below `MAX_LEN`.
        let _ = self.len();
        if n == 0 {
            return 0;
        }
        // The limb of the last bit is the next one, or the first again, of which no bit is kept: no branch
        // depends on the position, which would often be mispredicted.
        let first = self.limb(position / 64) >> (position % 64);
        let last = self.limb((position + n - 1) / 64) << 1 << (63 - position % 64);
        (first | last) & (u64::MAX >> (64 - n))
    }

    /// Returns element `index` of the list, read as packed elements of `n` bits. `None` if there is no such
    /// element, or `n` is 0 or above 64.
    #[tactic(auto, using(crate::proofs::Counting::elements))]
    pub fn unpack_element(&self, index: usize, n: usize) -> Option<u64>
        ensures { result ≡ part_number self.now (index * n) n }
    {
        // A product that overflows exceeds `MAX_LEN`, and so the length.
        let _ = self.len();
        match index.checked_mul(n) {
            Some(position) => self.get_bits(position, n),
            None => None,
        }
    }

    /// Returns element `index` of the list, read as packed elements of `n` bits: 0 if `n` is 0. Precondition:
    /// `n` is at most 64, and the list has the element.
    #[tactic(auto, using(crate::proofs::Counting::elements))]
    pub fn unpack_element_unchecked(&self, index: usize, n: usize) -> u64
        requires few { n ≤ 64 }
        requires within { index * n + n ≤ length self.now }
        ensures { result ≡ number (part self.now (index * n) n) }
    {
        // A position below the length is below `MAX_LEN`.
        let _ = self.len();
        self.get_bits_unchecked(index * n, n)
    }

    /// Returns a copy of the allocator.
    pub fn allocator(&self) -> A {
        *self.data.allocator()
    }
}

// Returns the same words. The contract adds that each of them has 64 bits.
fn known_words(words: &[u64]) -> &[u64]
    ensures same { result.now ≡ words.now }
    ensures fit { (k : ℕ) → slice_index words.now k < 2 ^ 64 }
{
    words
}
