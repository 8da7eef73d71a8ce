//! The positions of two consecutive zeros or ones.
ghost use Rattle.std.specs.Prelude.{◌≡◌, ◌+◌, ◌/◌, ◌<◌, ◌≤◌, length, false, true};
ghost use Rattle.vers_bits.specs.Bits.{select};
ghost use Rattle.vers_tally.specs.Reads.{AddsAtMost, one_more, times};
ghost use Rattle.vers_rank.specs.Queries.{superblock_count, select_reads};

use super::{LIMB, RsVec};
use crate::word::marks;
use std::alloc::Allocator;
use vers_tally::tally::Tally;

/// The positions of two consecutive zeros of a list, or of two consecutive ones.
#[derive(Clone, Copy, Drop)]
pub struct PositionPair {
    /// The position of the first.
    pub first: usize,
    /// The position of the next one.
    pub second: usize,
}

impl<A: Allocator + Copy> RsVec<A> {
    /// Returns the positions of zero `r` (from 0) and of the next zero, each the length if there are fewer.
    #[inline]
    pub fn select0_pair(&self, r: usize) -> PositionPair
        ensures first { result.first ≡ select false self.now r }
        ensures second { result.second ≡ select false self.now (r + 1) }
        ensures within { (result.first ≤ length self.now) × (result.second ≤ length self.now) }
    {
        let mut tally = Tally::new();
        self.select0_pair_counted(r, &mut tally)
    }

    /// Returns `select0_pair(r)`. Counts one query. Reads at most what one select does if both are in one word
    /// of 64 bits, otherwise two.
    #[inline(always)]
    pub fn select0_pair_counted(&self, r: usize, tally: &mut Tally) -> PositionPair
        ensures first { result.first ≡ select false self.now r }
        ensures second { result.second ≡ select false self.now (r + 1) }
        ensures within { (result.first ≤ length self.now) × (result.second ≤ length self.now) }
        ensures counted { tally.new.rank_calls ≡ one_more tally.old.rank_calls }
        ensures adds { AddsAtMost tally.old tally.new
            (times 2 (select_reads (superblock_count (length self.now)))) }
        ensures near { result.second < length self.now
            → result.first / 64 ≡ result.second / 64
            → AddsAtMost tally.old tally.new
            (select_reads (superblock_count (length self.now))) }
    {
        self.pair_of(false, r, tally)
    }

    /// Returns the positions of one `r` (from 0) and of the next one, each the length if there are fewer.
    #[inline]
    pub fn select1_pair(&self, r: usize) -> PositionPair
        ensures first { result.first ≡ select true self.now r }
        ensures second { result.second ≡ select true self.now (r + 1) }
        ensures within { (result.first ≤ length self.now) × (result.second ≤ length self.now) }
    {
        let mut tally = Tally::new();
        self.select1_pair_counted(r, &mut tally)
    }

    /// Returns `select1_pair(r)`. Counts one query. Reads at most what one select does if both are in one word
    /// of 64 bits, otherwise two.
    #[inline(always)]
    pub fn select1_pair_counted(&self, r: usize, tally: &mut Tally) -> PositionPair
        ensures first { result.first ≡ select true self.now r }
        ensures second { result.second ≡ select true self.now (r + 1) }
        ensures within { (result.first ≤ length self.now) × (result.second ≤ length self.now) }
        ensures counted { tally.new.rank_calls ≡ one_more tally.old.rank_calls }
        ensures adds { AddsAtMost tally.old tally.new
            (times 2 (select_reads (superblock_count (length self.now)))) }
        ensures near { result.second < length self.now
            → result.first / 64 ≡ result.second / 64
            → AddsAtMost tally.old tally.new
            (select_reads (superblock_count (length self.now))) }
    {
        self.pair_of(true, r, tally)
    }

    // Returns the positions of zero or one `r` and of the next, mostly from the rest of its word. Both selects
    // of the rare case are one call in the source, so that the compiler inlines the search only once.
    #[inline(always)]
    fn pair_of(&self, bit: bool, r: usize, tally: &mut Tally) -> PositionPair
        ensures first { result.first ≡ select bit self.now r }
        ensures second { result.second ≡ select bit self.now (r + 1) }
        ensures within { (result.first ≤ length self.now) × (result.second ≤ length self.now) }
        ensures counted { tally.new.rank_calls ≡ one_more tally.old.rank_calls }
        ensures adds { AddsAtMost tally.old tally.new
            (times 2 (select_reads (superblock_count (length self.now)))) }
        ensures near { result.second < length self.now
            → result.first / 64 ≡ result.second / 64
            → AddsAtMost tally.old tally.new
            (select_reads (superblock_count (length self.now))) }
    {
        tally.add_rank_call();
        let len = self.len();
        let total = self.total(bit);
        if r >= total {
            return PositionPair {
                first: len,
                second: len,
            };
        }
        let mut first = len;
        let mut number = r;
        loop {
            let at = self.locate(bit, number, tally);
            let position = LIMB * at.limb + at.position;
            if number > r {
                return PositionPair {
                    first,
                    second: position,
                };
            }
            let after = marks(bit, at.word) >> at.position >> 1;
            if after != 0 {
                // The last word has zeros past the end too.
                let second = position + 1 + after.trailing_zeros() as usize;
                return PositionPair {
                    first: position,
                    second: second.min(len),
                };
            }
            first = position;
            number = r + 1;
            if number >= total {
                return PositionPair { first, second: len };
            }
        }
    }
}
