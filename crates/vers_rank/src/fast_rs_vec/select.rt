//! Select: the positions of zeros and ones, by superblock, block and limb.
ghost use Rattle.std.specs.Prelude.{◌≡◌, ◌+◌, ◌*◌, ◌<◌, ◌≤◌, IsFalse, IsTrue, length, true, false};
ghost use Rattle.vers_bits.specs.Bits.{count, limb, select};
ghost use Rattle.vers_tally.specs.Reads.{no_reads, one_more, only_superblock_entries, digits, AddsAtMost};
ghost use Rattle.vers_rank.specs.Queries.{superblock_count, select_reads};
ghost use Rattle.vers_rank.specs.inside.Index.{held, held_in};

mod block;
mod limb;
mod superblock;

use super::{BLOCKS, LIMB, RsVec, SUPERBLOCK};
pub(crate) use limb::{InLimb, InWord};
use std::alloc::Allocator;
use vers_tally::tally::Tally;

impl<A: Allocator + Copy> RsVec<A> {
    /// Returns the position of zero `r` (from 0), or the length if there are fewer.
    #[inline]
    pub fn select0(&self, r: usize) -> usize
        ensures value { result ≡ select false self.now r }
        ensures within { result ≤ length self.now }
    {
        let mut tally = Tally::new();
        self.select0_counted(r, &mut tally)
    }

    /// Returns the position of one `r` (from 0), or the length if there are fewer.
    #[inline]
    pub fn select1(&self, r: usize) -> usize
        ensures value { result ≡ select true self.now r }
        ensures within { result ≤ length self.now }
    {
        let mut tally = Tally::new();
        self.select1_counted(r, &mut tally)
    }

    /// Returns `select0(r)`. Reads at most 8 data words, 17 block entries, and 12 superblock entries plus one
    /// for each binary digit of the number of superblocks.
    #[inline(always)]
    pub fn select0_counted(&self, r: usize, tally: &mut Tally) -> usize
        ensures value { result ≡ select false self.now r }
        ensures within { result ≤ length self.now }
        ensures counted { tally.new.rank_calls ≡ one_more tally.old.rank_calls }
        ensures adds { AddsAtMost tally.old tally.new
            (select_reads (superblock_count (length self.now))) }
    {
        self.select_counted(false, r, tally)
    }

    /// Returns `select1(r)`. Reads at most 8 data words, 17 block entries, and 12 superblock entries plus one
    /// for each binary digit of the number of superblocks.
    #[inline(always)]
    pub fn select1_counted(&self, r: usize, tally: &mut Tally) -> usize
        ensures value { result ≡ select true self.now r }
        ensures within { result ≤ length self.now }
        ensures counted { tally.new.rank_calls ≡ one_more tally.old.rank_calls }
        ensures adds { AddsAtMost tally.old tally.new
            (select_reads (superblock_count (length self.now))) }
    {
        self.select_counted(true, r, tally)
    }

    /// Returns the position of occurrence `r` (from 0) of `bit`, or the length if there are fewer:
    /// `select0_counted` or `select1_counted`.
    #[inline(always)]
    #[tactic(auto, using(crate::proofs::Selects::totals))]
    pub fn select_counted(&self, bit: bool, r: usize, tally: &mut Tally) -> usize
        ensures value { result ≡ select bit self.now r }
        ensures within { result ≤ length self.now }
        ensures counted { tally.new.rank_calls ≡ one_more tally.old.rank_calls }
        ensures adds { AddsAtMost tally.old tally.new
            (select_reads (superblock_count (length self.now))) }
    {
        tally.add_rank_call();
        self.position_of(bit, r, tally)
    }

    // Returns the position of zero or one `r`, or the length, as a part of a query.
    #[inline(always)]
    #[tactic(auto, using(crate::proofs::Selects::totals))]
    pub(super) fn position_of(&self, bit: bool, r: usize, tally: &mut Tally) -> usize
        ensures value { result ≡ select bit self.now r }
        ensures within { result ≤ length self.now }
        ensures same_queries { tally.new.rank_calls ≡ tally.old.rank_calls }
        ensures adds { AddsAtMost tally.old tally.new
            (record no_reads {
              data_words = 8;
              block_entries = 16;
              superblock_entries = digits (superblock_count (length self.now)) + 11;
            }) }
    {
        let len = self.len();
        if r >= self.total(bit) {
            return len;
        }
        let at = self.locate(bit, r, tally);
        LIMB * at.limb + at.position
    }

    // Returns the location of zero or one `r`.
    #[inline(always)]
    #[tactic(auto, using(crate::proofs::Selects::totals))]
    pub(super) fn locate(&self, bit: bool, r: usize, tally: &mut Tally) -> InWord
        requires { r < count bit self.now (length self.now) }
        ensures value { 64 * result.limb + result.position ≡ select bit self.now r }
        ensures within { (64 * result.limb < length self.now) × (result.position < 64) }
        ensures word { result.word ≡ limb self.now result.limb }
        ensures adds { AddsAtMost tally.old tally.new
            (record no_reads {
              data_words = 8;
              block_entries = 16;
              superblock_entries = digits (superblock_count (length self.now)) + 11;
            }) }
    {
        let _ = self.len();
        let s = self.superblock_with(bit, r, tally);
        let r_in_superblock = self.number_in(bit, r, s, tally);
        let at = if s < self.len() / SUPERBLOCK {
            self.limb_of(bit, r_in_superblock, s, true, tally)
        } else {
            self.limb_of(bit, r_in_superblock, s, false, tally)
        };
        self.position_in_limb(bit, at, tally)
    }

    // Returns the number within its superblock of number `r`.
    #[inline(always)]
    pub(super) fn number_in(&self, bit: bool, r: usize, s: usize, tally: &mut Tally) -> u16
        requires within { SUPERBLOCK * s < length self.now }
        requires from { count bit self.now (SUPERBLOCK * s) ≤ r }
        requires to { r < count bit self.now (SUPERBLOCK * (s + 1)) }
        ensures value { count bit self.now (SUPERBLOCK * s) + result ≡ r }
        ensures small { result < SUPERBLOCK }
        ensures adds { AddsAtMost tally.old tally.new (only_superblock_entries 1) }
    {
        let _ = self.len();
        (r - self.count_at_superblock(bit, s, tally)) as u16
    }

    // Returns the limb of number `r` of a superblock. `is_whole` says that the superblock has all its bits.
    #[inline(always)]
    fn limb_of(&self, bit: bool, r: u16, s: usize, is_whole: bool, tally: &mut Tally) -> InLimb
        requires within { SUPERBLOCK * s < length self.now }
        requires whole { IsTrue is_whole → SUPERBLOCK * s + SUPERBLOCK ≤ length self.now }
        requires last { IsFalse is_whole → length self.now < SUPERBLOCK * s + SUPERBLOCK }
        requires small { r < SUPERBLOCK }
        requires to { count bit self.now (SUPERBLOCK * s) + r < count bit self.now (SUPERBLOCK * (s + 1)) }
        ensures within { 64 * result.limb < length self.now }
        ensures counted { held bit self.now (64 * result.limb) + result.rest
            ≡ count bit self.now (SUPERBLOCK * s) + r }
        ensures few { result.rest < held_in bit (limb self.now result.limb) 64 }
        ensures adds { AddsAtMost tally.old tally.new
            (record no_reads { data_words = 7; block_entries = 16 }) }
    {
        let _ = self.len();
        let found = self.block_with(bit, r, s, is_whole, tally);
        let block = BLOCKS * s + found.block as usize;
        self.limb_in_block(bit, found.rest as usize, block, is_whole, tally)
    }

    // Returns the number of positions that have the bit.
    #[inline(always)]
    pub(super) fn total(&self, bit: bool) -> usize
        ensures { result ≡ count bit self.now (length self.now) }
    {
        if bit { self.ones() } else { self.zeros() }
    }
}
