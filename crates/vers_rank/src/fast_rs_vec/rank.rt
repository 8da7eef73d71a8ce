//! Rank: the number of zeros or ones below a position.
ghost use Rattle.std.specs.Prelude.{◌≡◌, ℕ, ◌+◌, ◌*◌, ◌/◌, ◌<◌, ◌≤◌, ◌%◌, ◌^◌, length, true, false, count_ones, slice_index_or};
ghost use Rattle.vers_bits.specs.Bits.{count};
ghost use Rattle.vers_tally.specs.Reads.{no_reads, one_more, only_data_words, AddsAtMost};
ghost use Rattle.vers_rank.specs.Queries.{rank_reads};
ghost use Rattle.vers_rank.specs.inside.Index.{AreLimbsOf};

use super::{BLOCK, BLOCKS, LIMB, RsVec};
use std::alloc::Allocator;
use vers_tally::tally::Tally;

// The least number of bits of a list that is taken to be larger than the processor's caches.
const LARGE: usize = 33_554_432;

/// The bit at a position, and the number of zeros below it.
#[derive(Clone, Copy, Drop)]
pub struct RankedBit {
    /// The number of zeros below the position.
    pub zeros: usize,
    /// True if the bit is a one.
    pub is_one: bool,
}

impl<A: Allocator + Copy> RsVec<A> {
    /// Returns the number of zeros below `position`; all zeros if `position` is past the end.
    #[inline]
    pub fn rank0(&self, position: usize) -> usize
        ensures value { result ≡ count false self.now position }
        ensures within { result ≤ length self.now }
    {
        let mut tally = Tally::new();
        self.rank0_counted(position, &mut tally)
    }

    /// Returns the number of ones below `position`; all ones if `position` is past the end.
    #[inline]
    pub fn rank1(&self, position: usize) -> usize
        ensures value { result ≡ count true self.now position }
        ensures within { result ≤ length self.now }
    {
        let mut tally = Tally::new();
        self.rank1_counted(position, &mut tally)
    }

    /// Returns `rank0(position)`. Reads at most 8 data words, one block entry and one superblock entry.
    #[inline(always)]
    #[tactic(auto, using(crate::proofs::Ranks::sums))]
    pub fn rank0_counted(&self, position: usize, tally: &mut Tally) -> usize
        ensures value { result ≡ count false self.now position }
        ensures within { result ≤ length self.now }
        ensures counted { tally.new.rank_calls ≡ one_more tally.old.rank_calls }
        ensures adds { AddsAtMost tally.old tally.new rank_reads }
    {
        tally.add_rank_call();
        if let Some(limbs) = self.bits.block(position / BLOCK, tally) {
            let ones = self.ones_of_block(limbs, position);
            return position.min(self.len()) - self.ones_below(ones, position, tally);
        }
        if position >= self.len() {
            return self.zeros();
        }
        position - self.ones_below_in_last(position, tally)
    }

    /// Returns `rank1(position)`. Reads at most 8 data words, one block entry and one superblock entry.
    #[inline(always)]
    #[tactic(auto, using(crate::proofs::Ranks::sums))]
    pub fn rank1_counted(&self, position: usize, tally: &mut Tally) -> usize
        ensures value { result ≡ count true self.now position }
        ensures within { result ≤ length self.now }
        ensures counted { tally.new.rank_calls ≡ one_more tally.old.rank_calls }
        ensures adds { AddsAtMost tally.old tally.new rank_reads }
    {
        tally.add_rank_call();
        if let Some(limbs) = self.bits.block(position / BLOCK, tally) {
            let ones = self.ones_of_block(limbs, position);
            return self.ones_below(ones, position, tally);
        }
        if position >= self.len() {
            return self.ones();
        }
        self.ones_below_in_last(position, tally)
    }

    /// Returns the number of zeros below `position`, and the bit there. Precondition: `position` is below the length.
    #[inline]
    pub fn rank0_with_bit(&self, position: usize) -> RankedBit
        requires { position < length self.now }
        ensures zeros { result.zeros ≡ count false self.now position }
        ensures bit { result.is_one ≡ slice_index_or self.now position false }
    {
        let mut tally = Tally::new();
        self.rank0_with_bit_counted(position, &mut tally)
    }

    /// Returns `rank0_with_bit(position)`. Reads at most 9 data words, one block entry and one superblock entry.
    #[inline(always)]
    #[tactic(auto, using(crate::proofs::Ranks::sums))]
    pub fn rank0_with_bit_counted(&self, position: usize, tally: &mut Tally) -> RankedBit
        requires { position < length self.now }
        ensures zeros { result.zeros ≡ count false self.now position }
        ensures bit { result.is_one ≡ slice_index_or self.now position false }
        ensures counted { tally.new.rank_calls ≡ one_more tally.old.rank_calls }
        ensures adds { AddsAtMost tally.old tally.new (record rank_reads { data_words = 9 }) }
    {
        tally.add_rank_call();
        if let Some(limbs) = self.bits.block(position / BLOCK, tally) {
            let ones = self.ones_in_block(limbs, position);
            return RankedBit {
                zeros: position - self.ones_below(ones, position, tally),
                is_one: limbs[position / LIMB % 8] >> (position % LIMB) & 1 == 1,
            };
        }
        RankedBit {
            zeros: position - self.ones_below_in_last(position, tally),
            is_one: self.bits.is_one(position, tally),
        }
    }

    // Returns the number of ones below a position, by those of its block before it.
    #[inline(always)]
    #[tactic(auto, using(crate::proofs::Ranks::sums))]
    fn ones_below(&self, ones: usize, position: usize, tally: &mut Tally) -> usize
        requires ones { count true self.now (BLOCK * (position / BLOCK)) + ones
            ≡ count true self.now position }
        requires within { BLOCK * (position / BLOCK) < length self.now }
        ensures value { result ≡ count true self.now position }
        ensures few { result ≤ position }
        ensures adds { AddsAtMost tally.old tally.new
            (record no_reads { block_entries = 1; superblock_entries = 1 }) }
    {
        let block = position / BLOCK;
        let zeros = self.zeros_before(block, tally);
        BLOCK * block - zeros + ones
    }

    // Returns the number of ones below a position in the last block, which may not have all its limbs.
    #[inline(always)]
    #[tactic(auto, using(crate::proofs::Ranks::sums))]
    fn ones_below_in_last(&self, position: usize, tally: &mut Tally) -> usize
        requires { position < length self.now }
        ensures value { result ≡ count true self.now position }
        ensures few { result ≤ position }
        ensures adds { AddsAtMost tally.old tally.new
            (record no_reads { data_words = 8; block_entries = 1; superblock_entries = 1 }) }
    {
        let block = position / BLOCK;
        let ones = self.ones_up_to(block, position, tally);
        BLOCK * block - self.zeros_before(block, tally) + ones
    }

    // Returns the number of zeros before a block.
    #[inline(always)]
    #[tactic(auto, using(crate::proofs::Ranks::entries))]
    pub(super) fn zeros_before(&self, block: usize, tally: &mut Tally) -> usize
        requires { BLOCK * block < length self.now }
        ensures value { result ≡ count false self.now (BLOCK * block) }
        ensures adds { AddsAtMost tally.old tally.new
            (record no_reads { block_entries = 1; superblock_entries = 1 }) }
    {
        self.blocks.read(block, tally) as usize
            + self.superblocks.read(block / BLOCKS, tally) as usize
    }

    // Returns the number of ones from the start of a block up to a position in it: up to its half, its quarter
    // there, its limb there, and in that limb. Limbs past the position, which the last block may not have, are
    // not read.
    #[inline(always)]
    fn ones_up_to(&self, block: usize, position: usize, tally: &mut Tally) -> usize
        requires within { (BLOCK * block ≤ position) × (position < BLOCK * block + BLOCK)
            × (position < length self.now) }
        ensures value { count true self.now (BLOCK * block) + result ≡ count true self.now position }
        ensures few { result ≤ BLOCK }
        ensures adds { AddsAtMost tally.old tally.new (only_data_words 8) }
    {
        let half = self.ones_up_to_half(block, position, tally);
        let quarter = self.ones_up_to_quarter(position, tally);
        let limb = self.ones_up_to_limb(position, tally);
        half + quarter + limb + self.ones_of_rest(position, tally)
    }

    // Returns the number of ones from the start of a block up to the position's half of it.
    #[inline(always)]
    #[tactic(auto, using(crate::proofs::Ranks::parts))]
    fn ones_up_to_half(&self, block: usize, position: usize, tally: &mut Tally) -> usize
        requires within { (BLOCK * block ≤ position) × (position < BLOCK * block + BLOCK)
            × (position < length self.now) }
        ensures value { count true self.now (BLOCK * block) + result
            ≡ count true self.now (256 * (position / 256)) }
        ensures few { result ≤ 256 }
        ensures adds { AddsAtMost tally.old tally.new (only_data_words 4) }
    {
        if position / 256 % 2 == 0 {
            return 0;
        }
        self.ones_of_two(8 * block, tally) + self.ones_of_two(8 * block + 2, tally)
    }

    // Returns the number of ones from the start of the position's half of a block up to its quarter.
    #[inline(always)]
    #[tactic(auto, using(crate::proofs::Ranks::parts))]
    fn ones_up_to_quarter(&self, position: usize, tally: &mut Tally) -> usize
        requires { position < length self.now }
        ensures value { count true self.now (256 * (position / 256)) + result
            ≡ count true self.now (128 * (position / 128)) }
        ensures few { result ≤ 128 }
        ensures adds { AddsAtMost tally.old tally.new (only_data_words 2) }
    {
        if position / 128 % 2 == 0 {
            return 0;
        }
        self.ones_of_two(position / 256 * 4, tally)
    }

    // Returns the number of ones from the start of the position's quarter of a block up to its limb.
    #[inline(always)]
    #[tactic(auto, using(crate::proofs::Ranks::parts))]
    fn ones_up_to_limb(&self, position: usize, tally: &mut Tally) -> usize
        requires { position < length self.now }
        ensures value { count true self.now (128 * (position / 128)) + result
            ≡ count true self.now (64 * (position / 64)) }
        ensures few { result ≤ 64 }
        ensures adds { AddsAtMost tally.old tally.new (only_data_words 1) }
    {
        if position / LIMB % 2 == 0 {
            return 0;
        }
        self.ones_of_whole(position / 128 * 2, tally)
    }

    // Reads two limbs and returns their number of ones.
    #[inline(always)]
    #[tactic(auto, using(crate::proofs::Ranks::parts))]
    pub(super) fn ones_of_two(&self, k: usize, tally: &mut Tally) -> usize
        requires within { 64 * k + 64 < length self.now }
        requires is_position { 64 * k < 18446744073709551616 }
        ensures value { count true self.now (64 * k) + result ≡ count true self.now (64 * (k + 2)) }
        ensures few { result ≤ 128 }
        ensures adds { AddsAtMost tally.old tally.new (only_data_words 2) }
    {
        self.ones_of_whole(k + 1, tally) + self.ones_of_whole(k, tally)
    }

    // Reads a limb and returns its number of ones.
    #[inline(always)]
    #[tactic(auto, using(crate::proofs::Ranks::limbs))]
    pub(super) fn ones_of_whole(&self, k: usize, tally: &mut Tally) -> usize
        requires { 64 * k < length self.now }
        ensures value { count true self.now (64 * k) + result ≡ count true self.now (64 * (k + 1)) }
        ensures few { result ≤ 64 }
        ensures adds { AddsAtMost tally.old tally.new (only_data_words 1) }
    {
        self.bits.limb(k, tally).count_ones() as usize
    }

    // Reads the position's limb and returns its number of ones below the position.
    #[inline(always)]
    #[tactic(auto, using(crate::proofs::Ranks::limbs))]
    fn ones_of_rest(&self, position: usize, tally: &mut Tally) -> usize
        requires { position < length self.now }
        ensures value { count true self.now (64 * (position / 64)) + result
            ≡ count true self.now position }
        ensures few { result ≤ 64 }
        ensures adds { AddsAtMost tally.old tally.new (only_data_words 1) }
    {
        ones_of_part(self.bits.limb(position / LIMB, tally), position)
    }

    // Returns the number of ones from the start of a block up to a position in it. Beyond the processor's caches ranks
    // wait for memory, and the fewer instructions one takes, the more of them wait together.
    #[inline(always)]
    fn ones_of_block(&self, limbs: &[u64; 8], position: usize) -> usize
        requires { AreLimbsOf self.now (position / BLOCK) limbs.now }
        ensures value { count true self.now (BLOCK * (position / BLOCK)) + result
            ≡ count true self.now position }
    {
        if self.len() < LARGE {
            self.ones_in_block(limbs, position)
        } else {
            self.ones_by_limbs(limbs, position)
        }
    }

    // Returns the number of ones from the start of a block up to a position in it, limb by limb.
    #[inline(always)]
    #[tactic(auto, using(crate::proofs::Ranks::limbs))]
    fn ones_by_limbs(&self, limbs: &[u64; 8], position: usize) -> usize
        requires { AreLimbsOf self.now (position / BLOCK) limbs.now }
        ensures value { count true self.now (BLOCK * (position / BLOCK)) + result
            ≡ count true self.now position }
    {
        let block = position / BLOCK;
        let mut ones = 0;
        for k in 8 * block..position / LIMB {
            ones += self.ones_of_limb(limbs, block, k);
        }
        ones + ones_of_part(limbs[position / LIMB % 8], position)
    }

    // Returns the number of ones from the start of a block up to a position in it: up to its half, its quarter
    // there, its limb there, and in that limb. Every limb that is examined is masked out of the sum unless the
    // position is past it, with no branch on the position, which would be mispredicted. None is in a half past
    // the position's own, which may be in another cache line.
    #[inline(always)]
    #[tactic(auto, using(crate::proofs::Ranks::limbs))]
    fn ones_in_block(&self, limbs: &[u64; 8], position: usize) -> usize
        requires { AreLimbsOf self.now (position / BLOCK) limbs.now }
        ensures value { count true self.now (BLOCK * (position / BLOCK)) + result
            ≡ count true self.now position }
    {
        let half = self.ones_before_half(limbs, position);
        let quarter = self.ones_before_quarter(limbs, position);
        let limb = self.ones_before_limb(limbs, position);
        half + quarter + limb + ones_of_part(limbs[position / LIMB % 8], position)
    }

    // Returns the number of ones from the start of a block up to the position's half of it.
    #[inline(always)]
    #[tactic(auto, using(crate::proofs::Ranks::parts))]
    fn ones_before_half(&self, limbs: &[u64; 8], position: usize) -> usize
        requires { AreLimbsOf self.now (position / BLOCK) limbs.now }
        ensures value { count true self.now (BLOCK * (position / BLOCK)) + result
            ≡ count true self.now (256 * (position / 256)) }
        ensures few { result ≤ 256 }
    {
        let block = position / BLOCK;
        let two = self.ones_of_pair(limbs, block, 8 * block);
        let four = two + self.ones_of_pair(limbs, block, 8 * block + 2);
        if position / 256 % 2 == 1 { four } else { 0 }
    }

    // Returns the number of ones from the start of the position's half of a block up to its quarter.
    #[inline(always)]
    #[tactic(auto, using(crate::proofs::Ranks::parts))]
    fn ones_before_quarter(&self, limbs: &[u64; 8], position: usize) -> usize
        requires { AreLimbsOf self.now (position / BLOCK) limbs.now }
        ensures value { count true self.now (256 * (position / 256)) + result
            ≡ count true self.now (128 * (position / 128)) }
        ensures few { result ≤ 128 }
    {
        let two = self.ones_of_pair(limbs, position / BLOCK, position / 256 * 4);
        if position / 128 % 2 == 1 { two } else { 0 }
    }

    // Returns the number of ones from the start of the position's quarter of a block up to its limb.
    #[inline(always)]
    #[tactic(auto, using(crate::proofs::Ranks::parts))]
    fn ones_before_limb(&self, limbs: &[u64; 8], position: usize) -> usize
        requires { AreLimbsOf self.now (position / BLOCK) limbs.now }
        ensures value { count true self.now (128 * (position / 128)) + result
            ≡ count true self.now (64 * (position / 64)) }
        ensures few { result ≤ 64 }
    {
        let first = self.ones_of_limb(limbs, position / BLOCK, position / 128 * 2);
        if position / 64 % 2 == 1 { first } else { 0 }
    }

    // Returns the number of ones in two limbs of a block.
    #[inline(always)]
    #[tactic(auto, using(crate::proofs::Ranks::parts))]
    fn ones_of_pair(&self, limbs: &[u64; 8], block: usize, k: usize) -> usize
        requires limbs { AreLimbsOf self.now block limbs.now }
        requires within { (8 * block ≤ k) × (k + 1 < 8 * block + 8) }
        ensures value { count true self.now (64 * k) + result ≡ count true self.now (64 * (k + 2)) }
        ensures few { result ≤ 128 }
    {
        self.ones_of_limb(limbs, block, k) + self.ones_of_limb(limbs, block, k + 1)
    }

    // Returns the number of ones in a limb of a block.
    #[inline(always)]
    #[tactic(auto, using(crate::proofs::Ranks::limbs))]
    fn ones_of_limb(&self, limbs: &[u64; 8], block: usize, k: usize) -> usize
        requires limbs { AreLimbsOf self.now block limbs.now }
        requires within { (8 * block ≤ k) × (k < 8 * block + 8) }
        ensures value { count true self.now (64 * k) + result ≡ count true self.now (64 * (k + 1)) }
        ensures few { result ≤ 64 }
    {
        limbs[k % 8].count_ones() as usize
    }
}

// Returns the number of ones in a limb below a position in it.
#[inline(always)]
#[tactic(auto, using(crate::proofs::Ranks::limbs))]
fn ones_of_part(limb: u64, position: usize) -> usize
    ensures value { result ≡ count_ones (limb % 2 ^ (position % 64)) }
    ensures few { result ≤ 64 }
{
    (limb & ((1 << (position % LIMB)) - 1)).count_ones() as usize
}
