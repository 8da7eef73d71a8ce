//! The first steps of searches for many numbers, all of them step by step.
ghost use Rattle.std.specs.Prelude.{◌≡◌, ℕ, ◌+◌, ◌-◌, ◌<◌, ◌≤◌, false, length, slice_index};
ghost use Rattle.vers_bits.specs.Bits.{select};
ghost use Rattle.vers_tally.specs.Reads.{only_low_parts, times, AddsAtMost};
ghost use Rattle.vers_sorted.specs.Layout.{first_of, last_of, high_of, low_of, high_length, high_parts};
ghost use Rattle.vers_sorted.specs.inside.Parts.{reads};
ghost use Rattle.vers_sorted.specs.inside.Begun.{IsBegun, IsInside};

use super::EliasFanoVec;
use super::batch::GROUP;
use super::scan::zero_after;
use std::alloc::Allocator;
use vers_tally::tally::Tally;

impl<A: Allocator + Copy> EliasFanoVec<A> {
    // Returns the high part of a number, or 0 below the first element.
    #[inline(always)]
    #[tactic(auto, using(crate::proofs::Buckets::high_is))]
    fn high_or_zero(&self, v: u64) -> usize
        ensures { result ≡ high_of self.now v }
    {
        let _ = &self.len;
        (v.saturating_sub(self.first) >> self.width) as usize
    }

    // Computes the high parts of numbers.
    #[inline(always)]
    fn high_numbers(&self, asked: &[u64], highs: &mut [usize; GROUP])
        requires { length asked.now ≤ GROUP }
        ensures { (j : ℕ) → j < length asked.now
            → slice_index highs.new j ≡ high_of self.now (slice_index asked.now j) }
    {
        for j in 0..asked.len() {
            highs[j] = self.high_or_zero(asked[j]);
        }
    }

    // For each number inside the list, finds the positions of the zeros before and after the elements with its
    // high part, and the low part of the first of these. Each caller names a type of its own, so each has its
    // own copy, which is inlined into it without the counter.
    #[inline(always)]
    pub(super) fn begin_each<Caller>(
        &self,
        asked: &[u64],
        before: &mut [usize; GROUP],
        after: &mut [usize; GROUP],
        parts: &mut [u64; GROUP],
        tally: &mut Tally,
    )
        requires { length asked.now ≤ GROUP }
        ensures begun { (j : ℕ) → j < length asked.now → IsInside self.now (slice_index asked.now j)
            → IsBegun self.now (slice_index asked.now j) (slice_index before.new j)
            (slice_index after.new j) (slice_index parts.new j) }
        ensures adds { AddsAtMost tally.old tally.new
            (times (length asked.now) (reads 1 3 (high_length self.now))) }
    {
        let _ = &self.len;
        self.high_numbers(asked, before);
        self.high
            .select0_each_counted(&mut before[..asked.len()], tally);
        self.go_on_each(asked, before, after, parts, tally);
    }

    // Does the same, from the positions of the zeros before.
    #[inline(always)]
    fn go_on_each(
        &self,
        asked: &[u64],
        before: &[usize; GROUP],
        after: &mut [usize; GROUP],
        parts: &mut [u64; GROUP],
        tally: &mut Tally,
    )
        requires few { length asked.now ≤ GROUP }
        requires before { (j : ℕ) → j < length asked.now → slice_index before.now j
            ≡ select false (high_parts self.now) (high_of self.now (slice_index asked.now j)) }
        ensures begun { (j : ℕ) → j < length asked.now → IsInside self.now (slice_index asked.now j)
            → IsBegun self.now (slice_index asked.now j) (slice_index before.now j)
            (slice_index after.new j) (slice_index parts.new j) }
        ensures adds { AddsAtMost tally.old tally.new
            (times (length asked.now) (reads 1 2 (high_length self.now))) }
    {
        for j in 0..asked.len() {
            if self.is_inside(asked[j]) {
                after[j] = self.zero_past(asked[j], before[j], tally);
                parts[j] = self.first_part(asked[j], before[j], tally);
            }
        }
    }

    // Returns the position of the zero after the elements with the high part of a number, from that of the zero
    // before.
    #[inline(always)]
    #[tactic(auto, using(crate::proofs::Buckets::bucket))]
    fn zero_past(&self, v: u64, before: usize, tally: &mut Tally) -> usize
        requires inside { IsInside self.now v }
        requires before { before ≡ select false (high_parts self.now) (high_of self.now v) }
        ensures value { result ≡ select false (high_parts self.now) (high_of self.now v + 1) }
        ensures adds { AddsAtMost tally.old tally.new (reads 0 2 (high_length self.now)) }
    {
        let _ = &self.len;
        zero_after(&self.high, self.high_number(v), before, tally)
    }

    // Returns the low part of the first of these elements, or of the next one if there are none.
    #[inline(always)]
    #[tactic(auto, using(crate::proofs::Begins::first_within, crate::proofs::Buckets::zeros_from))]
    fn first_part(&self, v: u64, before: usize, tally: &mut Tally) -> u64
        requires inside { IsInside self.now v }
        requires before { before ≡ select false (high_parts self.now) (high_of self.now v) }
        ensures value { result ≡ low_of self.now (slice_index self.now (before - high_of self.now v)) }
        ensures adds { AddsAtMost tally.old tally.new (only_low_parts 1) }
    {
        let _ = self.len();
        self.low_part(before - self.high_number(v), tally)
    }
}
