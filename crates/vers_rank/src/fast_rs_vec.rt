//! Lists of bits with rank and select.
ghost use Rattle.std.specs.Prelude.{◌≡◌, ℕ, ◌+◌, ◌<◌, ◌≤◌, ◌↔◌, [], List, length, true, false, IfOk, IsTrue, slice_get, slice_index_or, option_map};
ghost use Rattle.vers_bits.specs.Bits.{bit_value, count, number, part, select};
ghost use Rattle.vers_tally.specs.Reads.{AddsAtMost, one_more};
ghost use Rattle.vers_rank.specs.Queries.{part_number_or_zero, superblock_count, index_size, get_reads, get_bits_reads, rank_reads, select_reads};

mod batch;
mod bit_set_iter;
mod equality;
mod iter;
mod neighbours;
mod pair;
mod rank;
mod reader;
mod select;
mod select_iter;

use crate::build::{add_entries, samples};
pub use bit_set_iter::BitSetIter;
pub use iter::{RsVecIter, RsVecRefIter};
pub use pair::PositionPair;
pub use rank::RankedBit;
pub use select_iter::{Positions, SelectIntoIter, SelectIter};
use std::alloc::{AllocError, Allocator};
use std::marker::Model;
use vers_bits::bit_vec::{BitVec, MAX_LEN};
use vers_tally::tally::{BlockEntries, CountedBits, SuperblockEntries, Tally, Uncounted};

/// The number of bits in a limb.
const LIMB: usize = 64;

/// The number of bits in a block.
pub(crate) const BLOCK: usize = 512;

/// The number of bits in a superblock, and of ones or zeros between two select samples.
pub(crate) const SUPERBLOCK: usize = 8192;

/// The number of blocks in a superblock.
pub(crate) const BLOCKS: usize = SUPERBLOCK / BLOCK;

/// A list of bits with rank and select. Contracts see it as the list of its bits.
///
/// In addition to the bits it stores 2 bytes per block of 512 bits (the zeros of its superblock before it), 8
/// bytes per superblock of 8192 bits (the zeros before it), and samples: for every 8192nd one and every 8192nd
/// zero, its superblock.
///
/// Each query has a form `_counted`, which counts its reads in a `Tally`; the plain form passes a counter of
/// its own.
#[derive(Drop)]
pub struct RsVec<A: Allocator + Copy> {
    bits: CountedBits<A>,
    blocks: BlockEntries<A>,
    superblocks: SuperblockEntries<A>,
    zero_samples: SuperblockEntries<A>,
    one_samples: SuperblockEntries<A>,
    zeros: usize,
}

impl<A: Allocator + Copy> Model for RsVec<A> {
    ghost use Rattle.std.specs.Prelude.{List, Bool};
    ghost use Rattle.vers_rank.specs.inside.Index.{IsIndexed};

    ghost Value = { List Bool };

    ghost view = { λ v. v.bits };

    ghost invariant = { λ v. IsIndexed v.bits v.blocks v.superblocks v.zero_samples v.one_samples v.zeros };
}

impl<A: Allocator + Copy> Clone for RsVec<A> {
    ghost is_clone = { λ old new. new ≡ old };

    /// Returns a copy of the list and its index.
    fn clone(&self) -> Result<Self, AllocError> {
        let bits = self.bits.as_bit_vec(Uncounted).clone()?;
        let alloc = bits.allocator();
        let blocks = Vec::from_slice(alloc, self.blocks.as_slice(Uncounted))?;
        let superblocks = Vec::from_slice(alloc, self.superblocks.as_slice(Uncounted))?;
        let zero_samples = Vec::from_slice(alloc, self.zero_samples.as_slice(Uncounted))?;
        let one_samples = Vec::from_slice(alloc, self.one_samples.as_slice(Uncounted))?;
        Ok(RsVec {
            bits: CountedBits::new(bits),
            blocks: BlockEntries::new(blocks),
            superblocks: SuperblockEntries::new(superblocks),
            zero_samples: SuperblockEntries::new(zero_samples),
            one_samples: SuperblockEntries::new(one_samples),
            zeros: self.zeros,
        })
    }
}

impl<A: Allocator + Copy> RsVec<A> {
    /// Returns the same bits, with rank and select. Errors: `AllocError` only if the allocator refuses a
    /// request; the list is then dropped.
    #[tactic(auto, using(crate::proofs::Builds::whole))]
    pub fn from_bit_vec(bits: BitVec<A>) -> Result<Self, AllocError>
        ensures { IfOk result (λ v. v ≡ bits) }
    {
        let alloc = bits.allocator();
        let mut blocks = Vec::new(alloc);
        let mut superblocks = Vec::new(alloc);
        let zeros = add_entries(&bits, &mut blocks, &mut superblocks)?;
        let n = zeros.max(bits.len() - zeros) / SUPERBLOCK + 2;
        let zero_samples = samples(&bits, &superblocks, false, n)?;
        let one_samples = samples(&bits, &superblocks, true, n)?;
        Ok(RsVec {
            bits: CountedBits::new(bits),
            blocks: BlockEntries::new(blocks),
            superblocks: SuperblockEntries::new(superblocks),
            zero_samples: SuperblockEntries::new(zero_samples),
            one_samples: SuperblockEntries::new(one_samples),
            zeros,
        })
    }

    /// Returns the bits without the index. Allocates nothing.
    pub fn into_bit_vec(self) -> BitVec<A>
        ensures { result ≡ self }
    {
        self.bits.into_bit_vec(Uncounted)
    }

    /// Returns the number of bits.
    #[inline]
    pub fn len(&self) -> usize
        ensures value { result ≡ length self.now }
        ensures bounded { result ≤ MAX_LEN }
    {
        self.bits.len()
    }

    /// Returns true if the list is empty.
    #[inline]
    pub fn is_empty(&self) -> bool
        ensures { IsTrue result ↔ (self.now ≡ []) }
    {
        self.len() == 0
    }

    /// Returns the number of zeros. Reads nothing.
    #[inline]
    #[tactic(auto, using(crate::proofs::Ranks::sums))]
    pub fn zeros(&self) -> usize
        ensures value { result ≡ count false self.now (length self.now) }
        ensures within { result ≤ length self.now }
        ensures bounded { length self.now ≤ MAX_LEN }
    {
        self.zeros
    }

    /// Returns the number of ones. Reads nothing.
    #[inline]
    #[tactic(auto, using(crate::proofs::Ranks::sums))]
    pub fn ones(&self) -> usize
        ensures value { result ≡ count true self.now (length self.now) }
        ensures within { result ≤ length self.now }
        ensures bounded { length self.now ≤ MAX_LEN }
    {
        self.bits.len() - self.zeros
    }

    /// Returns the number of bytes that the bits and their index take, in addition to the `RsVec` itself.
    pub fn heap_size(&self) -> usize
        ensures { result ≡ index_size self.now }
    {
        8 * self.bits.len().div_ceil(64)
            + 2 * self.blocks.len()
            + 8 * self.superblocks.len()
            + 8 * self.zero_samples.len()
            + 8 * self.one_samples.len()
    }

    /// Returns the bit at `position`, 1 or 0, or `None` if `position` is out of bounds.
    #[inline]
    pub fn get(&self, position: usize) -> Option<u64>
        ensures { result ≡ option_map bit_value (slice_get self.now position) }
    {
        let mut tally = Tally::new();
        self.get_counted(position, &mut tally)
    }

    /// Returns `get(position)`. Reads at most one data word.
    #[inline(always)]
    pub fn get_counted(&self, position: usize, tally: &mut Tally) -> Option<u64>
        ensures value { result ≡ option_map bit_value (slice_get self.now position) }
        ensures counted { tally.new.rank_calls ≡ one_more tally.old.rank_calls }
        ensures adds { AddsAtMost tally.old tally.new get_reads }
    {
        tally.add_rank_call();
        self.bits.get(position, tally)
    }

    /// Returns the bit at `position`, 1 or 0. Precondition: `position` is below the length.
    #[inline]
    pub fn get_unchecked(&self, position: usize) -> u64
        requires { position < length self.now }
        ensures { result ≡ bit_value (slice_index_or self.now position false) }
    {
        let mut tally = Tally::new();
        u64::from(self.is_one_counted(position, &mut tally))
    }

    /// Returns true if the bit at `position` is a one. Reads one data word. Precondition: `position` is below the
    /// length.
    #[inline(always)]
    pub fn is_one_counted(&self, position: usize, tally: &mut Tally) -> bool
        requires { position < length self.now }
        ensures value { result ≡ slice_index_or self.now position false }
        ensures counted { tally.new.rank_calls ≡ one_more tally.old.rank_calls }
        ensures adds { AddsAtMost tally.old tally.new get_reads }
    {
        tally.add_rank_call();
        self.bits.is_one(position, tally)
    }

    /// Returns the `n` bits from `position` on as a number; 0 if `n` is 0. `None` if there are fewer, or `n`
    /// is above 64.
    #[inline]
    pub fn get_bits(&self, position: usize, n: usize) -> Option<u64>
        ensures { result ≡ part_number_or_zero self.now position n }
    {
        let mut tally = Tally::new();
        self.get_bits_counted(position, n, &mut tally)
    }

    /// Returns `get_bits(position, n)`. Reads at most two data words.
    #[inline(always)]
    #[tactic(auto, using(crate::proofs::Parts::parts))]
    pub fn get_bits_counted(&self, position: usize, n: usize, tally: &mut Tally) -> Option<u64>
        ensures value { result ≡ part_number_or_zero self.now position n }
        ensures counted { tally.new.rank_calls ≡ one_more tally.old.rank_calls }
        ensures adds { AddsAtMost tally.old tally.new get_bits_reads }
    {
        tally.add_rank_call();
        if n == 0 {
            return if position <= self.bits.len() {
                Some(0)
            } else {
                None
            };
        }
        self.bits.get_bits(position, n, tally)
    }

    /// Returns the `n` bits from `position` on as a number; 0 if `n` is 0. Precondition: `n` is at most 64,
    /// and `position + n` at most the length.
    #[inline]
    #[tactic(auto, using(crate::proofs::Parts::parts))]
    pub fn get_bits_unchecked(&self, position: usize, n: usize) -> u64
        requires few { n ≤ 64 }
        requires within { position + n ≤ length self.now }
        ensures { result ≡ number (part self.now position n) }
    {
        let mut tally = Tally::new();
        self.get_bits_counted(position, n, &mut tally).unwrap()
    }
}

impl<A: Allocator + Copy> From<RsVec<A>> for BitVec<A> {
    ghost from_gives = { λ v r. r ≡ v };

    /// Returns the bits without the index. Allocates nothing.
    fn from(indexed: RsVec<A>) -> Self {
        indexed.into_bit_vec()
    }
}
