//! Ranks of symbols, for many queries.
ghost use Rattle.std.specs.Prelude.{◌≡◌, ℕ, ◌-◌, ◌%◌, ◌^◌, ◌≤◌, ◌&&◌, List, Bool, Option, Some, None, length, map, nat_le, option_map, IfSome, if◌then◌else◌};
ghost use Rattle.vers_tally.specs.Reads.{AddsAtMost, times};
ghost use Rattle.vers_wavelet.specs.Symbols.{occurrences};
ghost use Rattle.vers_wavelet.specs.inside.Levels.{values, final_position};
ghost use Rattle.vers_wavelet.specs.Reads.{walk_reads};

use crate::wavelet::WaveletMatrix;
use crate::wavelet::batch::{Query, ask_each};
use crate::wavelet::digits::Digits;
use crate::wavelet::level::next_position;
use std::alloc::Allocator;
use vers_rank::fast_rs_vec::RsVec;
use vers_tally::tally::Tally;

/// A length of a prefix, a symbol to be counted in it, and the answer.
#[derive(Clone, Copy, Drop)]
pub struct RankQuery {
    /// The length of the prefix. Answering overwrites it.
    pub end: usize,
    /// The symbol. Only its low bits are used.
    pub symbol: u64,
    /// The number of occurrences of the symbol in the prefix, once the query is answered.
    pub answer: Option<usize>,
}

impl RankQuery {
    /// Returns a query for the number of occurrences of a symbol in the first `end` positions.
    #[inline]
    pub fn new(end: usize, symbol: u64) -> Self
        ensures end { result.end ≡ end }
        ensures symbol { result.symbol ≡ symbol }
        ensures answer { result.answer ≡ None }
    {
        RankQuery {
            end,
            symbol,
            answer: None,
        }
    }
}

impl Query for RankQuery {
    ghost keeps = { λ n k q. IfSome q.answer (λ c. (c ≤ q.end) × (q.end ≤ n) × (k ≤ 64)) };

    ghost stays = { λ _. (0, 0) };

    ghost outcome = { λ ls q. option_map (λ c. final_position ls q.symbol q.end
        - final_position ls q.symbol (q.end - c)) q.answer };

    ghost meaning = { λ ls n q. if nat_le (length ls) 64 && nat_le q.end (length (values ls n))
        then Some (length (occurrences (values ls n) 0 q.end (q.symbol % 2 ^ length ls)))
        else None };

    #[inline(always)]
    fn begin(self, levels: usize, len: usize) -> Self {
        let is_known = levels <= 64 && self.end <= len;
        RankQuery {
            end: self.end,
            symbol: self.symbol,
            answer: if is_known { Some(self.end) } else { None },
        }
    }

    // If no position is left, the level is not read.
    #[inline(always)]
    #[tactic(auto, using(crate::proofs::Values::parts))]
    fn step<A: Allocator + Copy>(self, level: &RsVec<A>, i: usize, tally: &mut Tally) -> Self {
        let Some(count) = self.answer else {
            return self;
        };
        if count == 0 {
            return self;
        }
        let bit = self.symbol.digit(i);
        let start = next_position(level, bit, self.end - count, tally);
        let end = next_position(level, bit, self.end, tally);
        RankQuery {
            end,
            symbol: self.symbol,
            answer: Some(end - start),
        }
    }
}

impl<A: Allocator + Copy> WaveletMatrix<A> {
    /// Answers each query as `rank_u64` does. Allocates nothing. All queries go level by level, which is faster
    /// than one after another if there are many.
    pub fn rank_u64_each(&self, queries: &mut [RankQuery])
        ensures { map (λ q. q.answer) queries.new ≡ map (λ q.
            if nat_le self.now.width 64 && nat_le q.end (length self.now.items)
            then Some (length (occurrences self.now.items 0 q.end (q.symbol % 2 ^ self.now.width)))
            else None) queries.old }
    {
        let mut tally = Tally::new();
        self.rank_u64_each_counted(queries, &mut tally)
    }

    /// Answers each query as `rank_u64_each` does. Reads at most what `rank_u64` does for each query.
    #[inline(always)]
    pub fn rank_u64_each_counted(&self, queries: &mut [RankQuery], tally: &mut Tally)
        ensures value { map (λ q. q.answer) queries.new ≡ map (λ q.
            if nat_le self.now.width 64 && nat_le q.end (length self.now.items)
            then Some (length (occurrences self.now.items 0 q.end (q.symbol % 2 ^ self.now.width)))
            else None) queries.old }
        ensures adds { AddsAtMost tally.old tally.new
            (times (length queries.old) (walk_reads self.now)) }
    {
        ask_each(self.levels(), self.len(), queries, tally);
    }
}
