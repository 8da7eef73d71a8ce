//! The symbols at many positions.
ghost use Rattle.std.specs.Prelude.{◌≡◌, ℕ, ◌+◌, ◌<◌, ◌≤◌, List, Bool, Option, Some, None, length, map, nat_le, slice_get, option_map, IfSome, if◌then◌else◌};
ghost use Rattle.vers_tally.specs.Reads.{AddsAtMost, times};
ghost use Rattle.vers_wavelet.specs.inside.Levels.{value, values};
ghost use Rattle.vers_wavelet.specs.inside.Walks.{HasRoom};
ghost use Rattle.vers_wavelet.specs.Reads.{walk_reads};

use crate::wavelet::WaveletMatrix;
use crate::wavelet::batch::{Query, ask_each};
use crate::wavelet::digits::Digits;
use crate::wavelet::level::read_level;
use std::alloc::Allocator;
use vers_rank::fast_rs_vec::RsVec;
use vers_tally::tally::Tally;

/// A position and the answer, its symbol.
#[derive(Clone, Copy, Drop)]
pub struct GetQuery {
    /// The position. Answering overwrites it.
    pub position: usize,
    /// The symbol at the position, once the query is answered.
    pub answer: Option<u64>,
}

impl GetQuery {
    /// Returns a query for the symbol at `position`.
    #[inline]
    pub fn new(position: usize) -> Self
        ensures position { result.position ≡ position }
        ensures answer { result.answer ≡ None }
    {
        GetQuery {
            position,
            answer: None,
        }
    }
}

impl Query for GetQuery {
    ghost keeps = { λ n k q. IfSome q.answer (λ y. (q.position < n) × (k ≤ 64) × HasRoom 64 k y) };

    ghost stays = { λ _. (0, 0) };

    ghost outcome = { λ ls q. option_map (λ y. y + value ls q.position) q.answer };

    ghost meaning = { λ ls n q. if nat_le (length ls) 64 then slice_get (values ls n) q.position else None };

    #[inline(always)]
    fn begin(self, levels: usize, len: usize) -> Self {
        let is_known = levels <= 64 && self.position < len;
        GetQuery {
            position: self.position,
            answer: if is_known { Some(0) } else { None },
        }
    }

    #[inline(always)]
    fn step<A: Allocator + Copy>(self, level: &RsVec<A>, i: usize, tally: &mut Tally) -> Self {
        let Some(mut number) = self.answer else {
            return self;
        };
        let step = read_level(level, self.position, tally);
        number.put_digit(i, step.bit);
        GetQuery {
            position: step.position,
            answer: Some(number),
        }
    }
}

impl<A: Allocator + Copy> WaveletMatrix<A> {
    /// Answers each query as `get_u64` does. Allocates nothing. All queries go level by level, which is faster
    /// than one after another if there are many.
    pub fn get_u64_each(&self, queries: &mut [GetQuery])
        ensures { map (λ q. q.answer) queries.new ≡ map (λ q.
            if nat_le self.now.width 64 then slice_get self.now.items q.position else None)
            queries.old }
    {
        let mut tally = Tally::new();
        self.get_u64_each_counted(queries, &mut tally)
    }

    /// Answers each query as `get_u64_each` does. Reads at most what `get_u64` does for each query.
    #[inline(always)]
    pub fn get_u64_each_counted(&self, queries: &mut [GetQuery], tally: &mut Tally)
        ensures value { map (λ q. q.answer) queries.new ≡ map (λ q.
            if nat_le self.now.width 64 then slice_get self.now.items q.position else None)
            queries.old }
        ensures adds { AddsAtMost tally.old tally.new
            (times (length queries.old) (walk_reads self.now)) }
    {
        ask_each(self.levels(), self.len(), queries, tally);
    }
}
