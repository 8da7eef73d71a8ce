//! Quantiles of many ranges.
ghost use Rattle.std.specs.Prelude.{◌≡◌, ℕ, ◌+◌, ◌<◌, ◌≤◌, ◌↔◌, ◌&&◌, List, Bool, Option, None, length, map, nat_le, slice_get, slice_range, option_map, IsTrue, IfSome, if◌then◌else◌};
ghost use Rattle.vers_tally.specs.Reads.{AddsAtMost, times};
ghost use Rattle.vers_wavelet.specs.Symbols.{by_size};
ghost use Rattle.vers_wavelet.specs.inside.Levels.{values};
ghost use Rattle.vers_wavelet.specs.inside.Counts.{kth_symbol};
ghost use Rattle.vers_wavelet.specs.inside.Walks.{HasRoom};
ghost use Rattle.vers_wavelet.specs.Reads.{walk_reads};

use crate::wavelet::WaveletMatrix;
use crate::wavelet::batch::{Query, ask_each};
use crate::wavelet::digits::Digits;
use crate::wavelet::level::{Choice, choose_level};
use std::alloc::Allocator;
use vers_rank::fast_rs_vec::RsVec;
use vers_tally::tally::Tally;

/// A range, the rank of one of its elements by size, and the answer, that element.
#[derive(Clone, Copy, Drop)]
pub struct QuantileQuery {
    /// The first position of the range. Answering overwrites it, `end` and `i`.
    pub start: usize,
    /// The position after the range.
    pub end: usize,
    /// The rank of the element by size (from 0, counting duplicates).
    pub i: usize,
    /// The element, once the query is answered.
    pub answer: Option<u64>,
}

impl QuantileQuery {
    /// Returns a query for the `i`-th smallest symbol of the positions from `start` on, before `end`.
    #[inline]
    pub fn new(start: usize, end: usize, i: usize) -> Self
        ensures start { result.start ≡ start }
        ensures end { result.end ≡ end }
        ensures i { result.i ≡ i }
        ensures answer { result.answer ≡ None }
    {
        QuantileQuery {
            start,
            end,
            i,
            answer: None,
        }
    }

    // Returns true if there is such an element, and it fits in a word.
    #[inline(always)]
    fn has_answer(self, levels: usize, len: usize) -> bool
        ensures { IsTrue result ↔ (levels ≤ 64) × (self.end ≤ len)
            × (self.start + self.i < self.end) }
    {
        levels <= 64 && self.end <= len && self.i < self.end.saturating_sub(self.start)
    }
}

impl Query for QuantileQuery {
    ghost keeps = { λ n k q. IfSome q.answer (λ y. (q.start + q.i < q.end) × (q.end ≤ n)
        × (k ≤ 64) × HasRoom 64 k y) };

    ghost stays = { λ _. (0, 0) };

    ghost outcome = { λ ls q. option_map (λ y. y + kth_symbol ls q.start q.end q.i) q.answer };

    ghost meaning = { λ ls n q. if nat_le (length ls) 64 && nat_le q.end (length (values ls n))
        then slice_get (by_size (slice_range (values ls n) q.start q.end)) q.i else None };

    #[inline(always)]
    fn begin(self, levels: usize, len: usize) -> Self {
        QuantileQuery {
            start: self.start,
            end: self.end,
            i: self.i,
            answer: if self.has_answer(levels, len) {
                Some(0)
            } else {
                None
            },
        }
    }

    #[inline(always)]
    fn step<A: Allocator + Copy>(self, level: &RsVec<A>, i: usize, tally: &mut Tally) -> Self {
        let Some(mut number) = self.answer else {
            return self;
        };
        let from = Choice {
            start: self.start,
            end: self.end,
            left: self.i,
            bit: false,
        };
        let choice = choose_level(level, from, tally);
        number.put_digit(i, choice.bit);
        QuantileQuery {
            start: choice.start,
            end: choice.end,
            i: choice.left,
            answer: Some(number),
        }
    }
}

impl<A: Allocator + Copy> WaveletMatrix<A> {
    /// Answers each query as `quantile_u64` does. Allocates nothing. All queries go level by level, which is
    /// faster than one after another if there are many.
    pub fn quantile_u64_each(&self, queries: &mut [QuantileQuery])
        ensures { map (λ q. q.answer) queries.new ≡ map (λ q.
            if nat_le self.now.width 64 && nat_le q.end (length self.now.items)
            then slice_get (by_size (slice_range self.now.items q.start q.end)) q.i
            else None) queries.old }
    {
        let mut tally = Tally::new();
        self.quantile_u64_each_counted(queries, &mut tally)
    }

    /// Answers each query as `quantile_u64_each` does. Reads at most what `quantile_u64` does for each query.
    #[inline(always)]
    pub fn quantile_u64_each_counted(&self, queries: &mut [QuantileQuery], tally: &mut Tally)
        ensures value { map (λ q. q.answer) queries.new ≡ map (λ q.
            if nat_le self.now.width 64 && nat_le q.end (length self.now.items)
            then slice_get (by_size (slice_range self.now.items q.start q.end)) q.i
            else None) queries.old }
        ensures adds { AddsAtMost tally.old tally.new
            (times (length queries.old) (walk_reads self.now)) }
    {
        ask_each(self.levels(), self.len(), queries, tally);
    }
}
