//! The superblock of an occurrence: a guess between two samples, and a search near it.
ghost use Rattle.std.specs.Prelude.{◌≡◌, ◌+◌, ◌-◌, ◌*◌, ◌/◌, ◌^◌, ◌<◌, ◌≤◌, length};
ghost use Rattle.vers_bits.specs.Bits.{count};
ghost use Rattle.vers_tally.specs.Reads.{only_superblock_entries, digits, AddsAtMost};
ghost use Rattle.vers_rank.specs.Queries.{superblock_count};
ghost use Rattle.vers_rank.specs.inside.Index.{AreSamples, IsSample};

use crate::fast_rs_vec::{RsVec, SUPERBLOCK};
use std::alloc::Allocator;
use vers_tally::tally::{SuperblockEntries, Tally};

/// The number of superblocks up to which a search takes exactly two halvings.
const FEW: usize = 4;

/// The number of superblocks from the guessed one that a search tries before it bisects.
const STEPS: usize = 4;

// Returns which of the `n` superblocks between two samples contains number `r`, if each of them contains
// equally many.
#[inline(always)]
fn guessed(r: usize, n: usize) -> usize
    requires some { 0 < n }
    requires few { SUPERBLOCK * (n - 1) < 2 ^ 64 }
    ensures { result < n }
{
    (r % SUPERBLOCK * (n - 1) + SUPERBLOCK / 2) / SUPERBLOCK
}

impl<A: Allocator + Copy> RsVec<A> {
    // Returns the number of positions before a superblock that have the bit.
    #[inline(always)]
    #[tactic(auto, using(crate::proofs::Ranks::sums))]
    pub(super) fn count_at_superblock(&self, bit: bool, s: usize, tally: &mut Tally) -> usize
        requires { SUPERBLOCK * s < length self.now }
        ensures value { result ≡ count bit self.now (SUPERBLOCK * s) }
        ensures adds { AddsAtMost tally.old tally.new (only_superblock_entries 1) }
    {
        let zeros = self.superblocks.read(s, tally) as usize;
        if bit { SUPERBLOCK * s - zeros } else { zeros }
    }

    // Returns the superblock that sample `j` names.
    #[inline(always)]
    fn sample(&self, bit: bool, j: usize, tally: &mut Tally) -> usize
        requires { SUPERBLOCK * j < count bit self.now (length self.now) + SUPERBLOCK }
        ensures value { IsSample bit self.now j result }
        ensures adds { AddsAtMost tally.old tally.new (only_superblock_entries 1) }
    {
        self.samples(bit).read(j, tally) as usize
    }

    // Returns the samples of the zeros or of the ones.
    #[inline(always)]
    fn samples(&self, bit: bool) -> &SuperblockEntries<A>
        ensures { AreSamples bit self.now result.now }
    {
        let _ = &self.bits;
        if bit {
            &self.one_samples
        } else {
            &self.zero_samples
        }
    }

    // Returns the superblock of number `r`.
    #[inline(always)]
    #[tactic(auto, using(crate::proofs::Selects::between))]
    pub(crate) fn superblock_with(&self, bit: bool, r: usize, tally: &mut Tally) -> usize
        requires { r < count bit self.now (length self.now) }
        ensures within { SUPERBLOCK * result < length self.now }
        ensures from { count bit self.now (SUPERBLOCK * result) ≤ r }
        ensures to { r < count bit self.now (SUPERBLOCK * (result + 1)) }
        ensures adds { AddsAtMost tally.old tally.new
            (only_superblock_entries (digits (superblock_count (length self.now)) + 10)) }
    {
        let _ = self.len();
        // The last first, so that a single bounds check covers both.
        let last = self.sample(bit, r / SUPERBLOCK + 1, tally);
        let first = self.sample(bit, r / SUPERBLOCK, tally);
        let n = last + 1 - first;
        if n == 1 {
            return first;
        }
        self.superblock_guessed(bit, r, first, n, tally)
    }

    // Returns the superblock of number `r` among the `n` from `first` on: if there are many, it interpolates,
    // and searches near the guess.
    #[inline(always)]
    #[tactic(auto, using(crate::proofs::Selects::steps))]
    fn superblock_guessed(
        &self,
        bit: bool,
        r: usize,
        first: usize,
        n: usize,
        tally: &mut Tally,
    ) -> usize
        requires some { 0 < n }
        requires within { SUPERBLOCK * (first + n) < length self.now + SUPERBLOCK }
        requires from { count bit self.now (SUPERBLOCK * first) ≤ r }
        requires to { r < count bit self.now (SUPERBLOCK * (first + n)) }
        ensures within { SUPERBLOCK * result < length self.now }
        ensures from { count bit self.now (SUPERBLOCK * result) ≤ r }
        ensures to { r < count bit self.now (SUPERBLOCK * (result + 1)) }
        ensures adds { AddsAtMost tally.old tally.new
            (only_superblock_entries (digits (n - 1) + 8)) }
    {
        let _ = self.len();
        if n <= FEW {
            return self.superblock_among(bit, r, first, n, tally);
        }
        let guess = guessed(r, n);
        if self.count_at_superblock(bit, first + guess, tally) <= r {
            return self.superblock_from(bit, r, first + guess, n - guess, tally);
        }
        self.superblock_before(bit, r, first, guess, tally)
    }

    // Returns the superblock of number `r` among the `n` from `first` on, searching near the first.
    #[inline(always)]
    #[tactic(auto, using(crate::proofs::Selects::steps))]
    fn superblock_from(
        &self,
        bit: bool,
        r: usize,
        first: usize,
        n: usize,
        tally: &mut Tally,
    ) -> usize
        requires some { 0 < n }
        requires within { SUPERBLOCK * (first + n) < length self.now + SUPERBLOCK }
        requires from { count bit self.now (SUPERBLOCK * first) ≤ r }
        requires to { r < count bit self.now (SUPERBLOCK * (first + n)) }
        ensures within { SUPERBLOCK * result < length self.now }
        ensures from { count bit self.now (SUPERBLOCK * result) ≤ r }
        ensures to { r < count bit self.now (SUPERBLOCK * (result + 1)) }
        ensures adds { AddsAtMost tally.old tally.new
            (only_superblock_entries (digits (n - 1) + 7)) }
    {
        let _ = self.len();
        for step in 1..STEPS + 1 {
            if step >= n || self.count_at_superblock(bit, first + step, tally) > r {
                return first + step - 1;
            }
        }
        self.superblock_among(bit, r, first + STEPS, n - STEPS, tally)
    }

    // Returns the superblock of number `r` among the `n` from `first` on, searching near the last.
    #[inline(always)]
    #[tactic(auto, using(crate::proofs::Selects::steps))]
    fn superblock_before(
        &self,
        bit: bool,
        r: usize,
        first: usize,
        n: usize,
        tally: &mut Tally,
    ) -> usize
        requires some { 0 < n }
        requires within { SUPERBLOCK * (first + n) < length self.now + SUPERBLOCK }
        requires from { count bit self.now (SUPERBLOCK * first) ≤ r }
        requires to { r < count bit self.now (SUPERBLOCK * (first + n)) }
        ensures within { SUPERBLOCK * result < length self.now }
        ensures from { count bit self.now (SUPERBLOCK * result) ≤ r }
        ensures to { r < count bit self.now (SUPERBLOCK * (result + 1)) }
        ensures adds { AddsAtMost tally.old tally.new
            (only_superblock_entries (digits (n - 1) + 7)) }
    {
        let _ = self.len();
        for step in 1..STEPS + 1 {
            if step >= n || self.count_at_superblock(bit, first + n - step, tally) <= r {
                return first + n - step;
            }
        }
        self.superblock_among(bit, r, first, n - STEPS, tally)
    }

    // Returns the superblock of number `r` among the `n` from `first` on, by bisection.
    #[inline(always)]
    #[tactic(auto, using(crate::proofs::Selects::halves))]
    fn superblock_among(
        &self,
        bit: bool,
        r: usize,
        first: usize,
        n: usize,
        tally: &mut Tally,
    ) -> usize
        requires some { 0 < n }
        requires within { SUPERBLOCK * (first + n) < length self.now + SUPERBLOCK }
        requires from { count bit self.now (SUPERBLOCK * first) ≤ r }
        requires to { r < count bit self.now (SUPERBLOCK * (first + n)) }
        ensures within { SUPERBLOCK * result < length self.now }
        ensures from { count bit self.now (SUPERBLOCK * result) ≤ r }
        ensures to { r < count bit self.now (SUPERBLOCK * (result + 1)) }
        ensures adds { AddsAtMost tally.old tally.new
            (only_superblock_entries (digits (n - 1) + 3)) }
    {
        let _ = self.len();
        let mut start = first;
        let mut left = n;
        while left > FEW {
            start = self.superblock_half(bit, r, start, left, tally);
            left -= left / 2;
        }
        // Two more halvings of at most four, whatever is left, so that no branch depends on it.
        start = self.superblock_half(bit, r, start, left, tally);
        left -= left / 2;
        self.superblock_half(bit, r, start, left, tally)
    }

    // Returns the start of the half of `n` superblocks from `first` on that contains number `r`. It selects a
    // value without a branch.
    #[inline(always)]
    #[tactic(auto, using(crate::proofs::Selects::halves))]
    fn superblock_half(
        &self,
        bit: bool,
        r: usize,
        first: usize,
        n: usize,
        tally: &mut Tally,
    ) -> usize
        requires some { 0 < n }
        requires within { SUPERBLOCK * (first + n) < length self.now + SUPERBLOCK }
        requires from { count bit self.now (SUPERBLOCK * first) ≤ r }
        requires to { r < count bit self.now (SUPERBLOCK * (first + n)) }
        ensures within { SUPERBLOCK * (result + (n - n / 2)) < length self.now + SUPERBLOCK }
        ensures from { count bit self.now (SUPERBLOCK * result) ≤ r }
        ensures to { r < count bit self.now (SUPERBLOCK * (result + (n - n / 2))) }
        ensures adds { AddsAtMost tally.old tally.new (only_superblock_entries 1) }
    {
        let _ = self.len();
        let middle = first + n / 2;
        if self.count_at_superblock(bit, middle, tally) <= r {
            middle
        } else {
            first
        }
    }
}
