//! Positions of symbols in gathered order, for many queries.
ghost use Rattle.std.specs.Prelude.{◌≡◌, ℕ, ◌%◌, ◌^◌, ◌≤◌, ◌&&◌, List, Bool, Option, Some, None, length, map, nat_le, option_map, IfSome, if◌then◌else◌};
ghost use Rattle.vers_tally.specs.Reads.{AddsAtMost, times};
ghost use Rattle.vers_wavelet.specs.Symbols.{gathered};
ghost use Rattle.vers_wavelet.specs.Numbers.{low_bits_of};
ghost use Rattle.vers_wavelet.specs.inside.Levels.{values, final_position};
ghost use Rattle.vers_wavelet.specs.Reads.{walk_reads};

use crate::wavelet::WaveletMatrix;
use crate::wavelet::batch::{Query, ask_each};
use crate::wavelet::digits::Digits;
use crate::wavelet::level::next_position;
use std::alloc::Allocator;
use vers_rank::fast_rs_vec::RsVec;
use vers_tally::tally::Tally;

/// A position, a symbol to be found from there on, and the answer.
#[derive(Clone, Copy, Drop)]
pub struct GatheredQuery {
    /// The position.
    pub position: usize,
    /// The symbol. Only its low bits are used.
    pub symbol: u64,
    /// The gathered position of the first such symbol from the position on, once the query is answered.
    pub answer: Option<usize>,
}

impl GatheredQuery {
    /// Returns a query for the gathered position of the first of a symbol from `position` on.
    #[inline]
    pub fn new(position: usize, symbol: u64) -> Self
        ensures position { result.position ≡ position }
        ensures symbol { result.symbol ≡ symbol }
        ensures answer { result.answer ≡ None }
    {
        GatheredQuery {
            position,
            symbol,
            answer: None,
        }
    }
}

impl Query for GatheredQuery {
    ghost keeps = { λ n k q. IfSome q.answer (λ p. (p ≤ n) × (k ≤ 64)) };

    ghost stays = { λ q. (q.position, q.symbol) };

    ghost outcome = { λ ls q. option_map (λ p. final_position ls q.symbol p) q.answer };

    ghost meaning = { λ ls n q. if nat_le (length ls) 64 && nat_le q.position (length (values ls n))
        then Some (gathered (record { width = length ls; items = values ls n }) q.position
        (q.symbol % 2 ^ length ls))
        else None };

    #[inline(always)]
    fn begin(self, levels: usize, len: usize) -> Self {
        let is_known = levels <= 64 && self.position <= len;
        GatheredQuery {
            position: self.position,
            symbol: self.symbol,
            answer: if is_known { Some(self.position) } else { None },
        }
    }

    #[inline(always)]
    #[tactic(auto, using(crate::proofs::Values::parts))]
    fn step<A: Allocator + Copy>(self, level: &RsVec<A>, i: usize, tally: &mut Tally) -> Self {
        let Some(position) = self.answer else {
            return self;
        };
        let bit = self.symbol.digit(i);
        GatheredQuery {
            position: self.position,
            symbol: self.symbol,
            answer: Some(next_position(level, bit, position, tally)),
        }
    }
}

impl<A: Allocator + Copy> WaveletMatrix<A> {
    /// Answers each query as `gathered_u64` does. Allocates nothing. All queries go level by level, which is
    /// faster than one after another if there are many.
    pub fn gathered_u64_each(&self, queries: &mut [GatheredQuery])
        ensures { map (λ q. q.answer) queries.new ≡ map (λ q.
            if nat_le self.now.width 64 && nat_le q.position (length self.now.items)
            then Some (gathered self.now q.position (low_bits_of self.now q.symbol))
            else None) queries.old }
    {
        let mut tally = Tally::new();
        self.gathered_u64_each_counted(queries, &mut tally)
    }

    /// Answers each query as `gathered_u64_each` does. Reads at most two ranks of each level for each query.
    #[inline(always)]
    pub fn gathered_u64_each_counted(&self, queries: &mut [GatheredQuery], tally: &mut Tally)
        ensures value { map (λ q. q.answer) queries.new ≡ map (λ q.
            if nat_le self.now.width 64 && nat_le q.position (length self.now.items)
            then Some (gathered self.now q.position (low_bits_of self.now q.symbol))
            else None) queries.old }
        ensures adds { AddsAtMost tally.old tally.new
            (times (length queries.old) (walk_reads self.now)) }
    {
        ask_each(self.levels(), self.len(), queries, tally);
    }
}
