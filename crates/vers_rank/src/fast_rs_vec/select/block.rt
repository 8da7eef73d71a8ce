//! The block of an occurrence in its superblock.
ghost use Rattle.std.specs.Prelude.{◌≡◌, ◌+◌, ◌*◌, ◌<◌, ◌≤◌, IsFalse, IsTrue, length};
ghost use Rattle.vers_bits.specs.Bits.{count};
ghost use Rattle.vers_tally.specs.Reads.{no_reads, only_block_entries, AddsAtMost};

use crate::fast_rs_vec::{BLOCK, BLOCKS, RsVec, SUPERBLOCK};
use crate::lanes::{FAR_BELOW, FoundBlock, last_up_to};
use std::alloc::Allocator;
use vers_tally::tally::Tally;

impl<A: Allocator + Copy> RsVec<A> {
    // Returns the number of positions of a superblock before its block `j` that have the bit.
    #[inline(always)]
    fn count_in_superblock(&self, bit: bool, s: usize, j: u16, tally: &mut Tally) -> u16
        requires few { j < BLOCKS }
        requires within { BLOCK * (BLOCKS * s + j) < length self.now }
        ensures value { count bit self.now (SUPERBLOCK * s) + result
            ≡ count bit self.now (BLOCK * (BLOCKS * s + j)) }
        ensures few { result ≤ SUPERBLOCK }
        ensures adds { AddsAtMost tally.old tally.new (only_block_entries 1) }
    {
        let _ = &self.bits;
        let zeros = self.blocks.read(BLOCKS * s + j as usize, tally);
        if bit { BLOCK as u16 * j - zeros } else { zeros }
    }

    // Returns the number of positions before a block that have the bit, or of all such positions if the list
    // ends before it.
    #[inline(always)]
    #[tactic(auto, using(crate::proofs::Ranks::sums))]
    pub(crate) fn count_at_block(&self, bit: bool, block: usize, tally: &mut Tally) -> usize
        ensures value { result ≡ count bit self.now (BLOCK * block) }
        ensures adds { AddsAtMost tally.old tally.new
            (record no_reads { block_entries = 1; superblock_entries = 1 }) }
    {
        if block >= self.blocks.len() {
            return self.total(bit);
        }
        let zeros = self.zeros_before(block, tally);
        if bit { BLOCK * block - zeros } else { zeros }
    }

    // Returns the block of number `r` of a superblock.
    #[inline(always)]
    #[tactic(auto, using(crate::proofs::Selects::within_superblock))]
    pub(crate) fn block_with(
        &self,
        bit: bool,
        r: u16,
        s: usize,
        is_whole: bool,
        tally: &mut Tally,
    ) -> FoundBlock
        requires within { SUPERBLOCK * s < length self.now }
        requires whole { IsTrue is_whole → SUPERBLOCK * s + SUPERBLOCK ≤ length self.now }
        requires last { IsFalse is_whole → length self.now < SUPERBLOCK * s + SUPERBLOCK }
        requires small { r < SUPERBLOCK }
        requires to { count bit self.now (SUPERBLOCK * s) + r < count bit self.now (SUPERBLOCK * (s + 1)) }
        ensures few { result.block < BLOCKS }
        ensures within { BLOCK * (BLOCKS * s + result.block) < length self.now }
        ensures whole { IsTrue is_whole
            → BLOCK * (BLOCKS * s + result.block) + BLOCK ≤ length self.now }
        ensures from { result.rest ≤ r }
        ensures counted { count bit self.now (BLOCK * (BLOCKS * s + result.block)) + result.rest
            ≡ count bit self.now (SUPERBLOCK * s) + r }
        ensures to { count bit self.now (SUPERBLOCK * s) + r
            < count bit self.now (BLOCK * (BLOCKS * s + result.block + 1)) }
        ensures adds { AddsAtMost tally.old tally.new (only_block_entries 16) }
    {
        if is_whole {
            return self.block_among(bit, r, s, tally);
        }
        let blocks = self.blocks.len() - BLOCKS * s;
        self.block_up_to(bit, r, s, blocks as u16, tally)
    }

    // Returns the block of number `r` among the 16 of a superblock, or the last of them: all their entries are
    // read and compared at once, by lanes.
    #[inline(always)]
    fn block_among(&self, bit: bool, r: u16, s: usize, tally: &mut Tally) -> FoundBlock
        requires within { SUPERBLOCK * s + SUPERBLOCK ≤ length self.now }
        requires small { r < SUPERBLOCK }
        ensures few { result.block < BLOCKS }
        ensures from { result.rest ≤ r }
        ensures counted { count bit self.now (BLOCK * (BLOCKS * s + result.block)) + result.rest
            ≡ count bit self.now (SUPERBLOCK * s) + r }
        ensures to { result.block + 1 < BLOCKS
            → count bit self.now (SUPERBLOCK * s) + r
            < count bit self.now (BLOCK * (BLOCKS * s + result.block + 1)) }
        ensures adds { AddsAtMost tally.old tally.new (only_block_entries 16) }
    {
        let _ = &self.bits;
        let zeros = self.blocks.read_16(BLOCKS * s, tally);
        last_up_to(zeros, bit, r)
    }

    // Returns the block of number `r` among the first `n` of a superblock, or the last of them: one after the
    // other, up to the first whose entry passes `r`.
    #[inline(always)]
    #[tactic(auto, using(crate::proofs::Selects::block_search))]
    fn block_up_to(&self, bit: bool, r: u16, s: usize, n: u16, tally: &mut Tally) -> FoundBlock
        requires some { (0 < n) × (n ≤ BLOCKS) }
        requires within { BLOCK * (BLOCKS * s + n) < length self.now + BLOCK }
        requires small { r < SUPERBLOCK }
        ensures few { result.block < n }
        ensures from { result.rest ≤ r }
        ensures counted { count bit self.now (BLOCK * (BLOCKS * s + result.block)) + result.rest
            ≡ count bit self.now (SUPERBLOCK * s) + r }
        ensures to { result.block + 1 < n
            → count bit self.now (SUPERBLOCK * s) + r
            < count bit self.now (BLOCK * (BLOCKS * s + result.block + 1)) }
        ensures adds { AddsAtMost tally.old tally.new (only_block_entries n) }
    {
        let mut rest = r;
        for j in 1..n {
            let below = r.wrapping_sub(self.count_in_superblock(bit, s, j, tally));
            if below >= FAR_BELOW {
                return FoundBlock { block: j - 1, rest };
            }
            rest = below;
        }
        FoundBlock { block: n - 1, rest }
    }
}
