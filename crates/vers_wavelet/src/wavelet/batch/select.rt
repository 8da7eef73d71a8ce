//! The positions of many occurrences.
ghost use Rattle.std.specs.Prelude.{◌≡◌, ℕ, ◌+◌, ◌-◌, ◌%◌, ◌^◌, ◌<◌, ◌≤◌, List, Bool, Option, Some, None, length, map, nat_le, slice_get, slice_index_or, option_map, All, IfSome, if◌then◌else◌};
ghost use Rattle.vers_tally.specs.Reads.{AddsAtMost, times};
ghost use Rattle.vers_rank.specs.Queries.{select_reads, superblock_count};
ghost use Rattle.vers_wavelet.specs.Batches.{Become};
ghost use Rattle.vers_wavelet.specs.inside.Walks.{HasClimbed};
ghost use Rattle.vers_wavelet.specs.inside.Batches.{IsClimbing, no_query};
ghost use Rattle.vers_rank.specs.Batches.{Changed};
ghost use Rattle.vers_bits.specs.Bits.{select};
ghost use Rattle.vers_wavelet.specs.Symbols.{occurrences};
ghost use Rattle.vers_wavelet.specs.Makers.{digit};
ghost use Rattle.vers_wavelet.specs.inside.Levels.{start, values, final_position, AreLevels};
ghost use Rattle.vers_wavelet.specs.Reads.{query_reads};

use crate::wavelet::WaveletMatrix;
use crate::wavelet::batch::group::{GROUP, Group};
use crate::wavelet::batch::{Query, ask_each};
use crate::wavelet::digits::Digits;
use crate::wavelet::level::{is_of_bit, next_position};
use std::alloc::Allocator;
use vers_rank::fast_rs_vec::RsVec;
use vers_tally::tally::Tally;

/// A symbol, the number of one of its occurrences, and the answer, its position.
#[derive(Clone, Copy, Drop)]
pub struct SelectQuery {
    /// The number of the occurrence (from 0).
    pub rank: usize,
    /// The symbol. Only its low bits are used.
    pub symbol: u64,
    /// The position of the occurrence, once the query is answered.
    pub answer: Option<usize>,
}

impl SelectQuery {
    /// Returns a query for the position of occurrence `rank` (from 0) of a symbol.
    #[inline]
    pub fn new(rank: usize, symbol: u64) -> Self
        ensures rank { result.rank ≡ rank }
        ensures symbol { result.symbol ≡ symbol }
        ensures answer { result.answer ≡ None }
    {
        SelectQuery {
            rank,
            symbol,
            answer: None,
        }
    }

    // Returns the query with the position of the occurrence below the last level, from that of the first one
    // that may be.
    #[inline(always)]
    fn turn(self, len: usize) -> Self
        ensures rank { result.rank ≡ self.rank }
        ensures symbol { result.symbol ≡ self.symbol }
        ensures seeks { (ls : List (List Bool)) → AreLevels ls len
            → self.answer ≡ Some (final_position ls self.symbol 0)
            → HasClimbed ls len result.symbol (final_position ls result.symbol 0 + result.rank) (length ls)
            result.answer }
    {
        let Some(first) = self.answer else {
            return self;
        };
        if self.rank >= len.saturating_sub(first) {
            return SelectQuery {
                rank: self.rank,
                symbol: self.symbol,
                answer: None,
            };
        }
        SelectQuery {
            rank: self.rank,
            symbol: self.symbol,
            answer: Some(first + self.rank),
        }
    }

    // Returns the number of the query's position among the zeros or the ones of the level above.
    #[inline(always)]
    pub(super) fn number_above<A: Allocator + Copy>(self, level: &RsVec<A>, bit: bool) -> usize
        ensures { (p : ℕ) → self.answer ≡ Some p → start bit level.now ≤ p
            → result ≡ p - start bit level.now }
    {
        let Some(position) = self.answer else {
            return 0;
        };
        if bit {
            position.saturating_sub(level.zeros())
        } else {
            position
        }
    }

    // Returns the query one level up, on level `k`, from the position of its number there. If the position of
    // another symbol was reached, there is no answer.
    #[inline(always)]
    fn rise<A: Allocator + Copy>(
        self,
        levels: &[RsVec<A>],
        len: usize,
        k: usize,
        above: usize,
    ) -> Self
        requires levels { AreLevels levels.now len }
        requires few { length levels.now ≤ 64 }
        requires within { k < length levels.now }
        requires seeks { IsClimbing levels.now len (k + 1) self }
        requires above { (v : List Bool) (p : ℕ) → v ≡ slice_index_or levels.now k v
            → self.answer ≡ Some p → start (digit self.symbol (length levels.now - (k + 1))) v ≤ p
            → above ≡ select (digit self.symbol (length levels.now - (k + 1))) v
            (p - start (digit self.symbol (length levels.now - (k + 1))) v) }
        ensures rank { result.rank ≡ self.rank }
        ensures symbol { result.symbol ≡ self.symbol }
        ensures seeks { IsClimbing levels.now len k result }
    {
        let Some(position) = self.answer else {
            return self;
        };
        let bit = self.symbol.digit(levels.len() - (k + 1));
        if !is_of_bit(&levels[k], bit, position) {
            return SelectQuery {
                rank: self.rank,
                symbol: self.symbol,
                answer: None,
            };
        }
        SelectQuery {
            rank: self.rank,
            symbol: self.symbol,
            answer: Some(above),
        }
    }
}

impl Query for SelectQuery {
    ghost keeps = { λ n k q. IfSome q.answer (λ p. (p ≤ n) × (k ≤ 64)) };

    ghost stays = { λ q. (q.rank, q.symbol) };

    ghost outcome = { λ ls q. option_map (λ p. final_position ls q.symbol p) q.answer };

    ghost meaning = { λ ls n q. if nat_le (length ls) 64 then Some (final_position ls q.symbol 0) else None };

    #[inline(always)]
    fn begin(self, levels: usize, len: usize) -> Self {
        SelectQuery {
            rank: self.rank,
            symbol: self.symbol,
            answer: if levels <= 64 { Some(0) } else { None },
        }
    }

    #[inline(always)]
    #[tactic(auto, using(crate::proofs::Values::parts))]
    fn step<A: Allocator + Copy>(self, level: &RsVec<A>, i: usize, tally: &mut Tally) -> Self {
        let Some(position) = self.answer else {
            return self;
        };
        let bit = self.symbol.digit(i);
        SelectQuery {
            rank: self.rank,
            symbol: self.symbol,
            answer: Some(next_position(level, bit, position, tally)),
        }
    }
}

// Moves each query to the position of its occurrence below the last level.
#[inline(always)]
fn turn_each(queries: &mut [SelectQuery], len: usize)
    ensures { Become (λ q r. (r.rank ≡ q.rank) × (r.symbol ≡ q.symbol)
        × ((ls : List (List Bool)) → AreLevels ls len → q.answer ≡ Some (final_position ls q.symbol 0)
        → HasClimbed ls len r.symbol (final_position ls r.symbol 0 + r.rank) (length ls) r.answer))
        queries.old queries.new }
{
    for j in 0..queries.len() {
        queries[j] = queries[j].turn(len);
    }
}

// Moves `n` queries one level up, to level `k`, from query `from` on.
#[inline(always)]
fn rise_group<A: Allocator + Copy>(
    levels: &[RsVec<A>],
    len: usize,
    k: usize,
    queries: &mut [SelectQuery],
    from: usize,
    n: usize,
    tally: &mut Tally,
)
    requires levels { AreLevels levels.now len }
    requires few { length levels.now ≤ 64 }
    requires within { k < length levels.now }
    requires group { n ≤ 64 }
    requires inside { from + n ≤ length queries.old }
    requires seeks { (j : ℕ) → j < n → IsClimbing levels.now len (k + 1)
        (slice_index_or queries.old (from + j) no_query) }
    ensures each { Changed no_query (λ q r. (r.rank ≡ q.rank) × (r.symbol ≡ q.symbol)
        × IsClimbing levels.now len k r) from n queries.old queries.new }
    ensures adds { AddsAtMost tally.old tally.new
        (times n (select_reads (superblock_count len))) }
{
    let i = levels.len() - (k + 1);
    let level = &levels[k];
    let mut group = Group::new(level, i, queries, from, n);
    group.find_all(n, level, tally);
    for j in 0..n {
        let query = queries[from + j];
        let above = group.found(j, query.symbol.digit(i));
        queries[from + j] = query.rise(levels, len, k, above);
    }
}

// Moves the queries one level up, to level `k`, group by group.
#[inline(always)]
fn rise_each<A: Allocator + Copy>(
    levels: &[RsVec<A>],
    len: usize,
    k: usize,
    queries: &mut [SelectQuery],
    tally: &mut Tally,
)
    requires levels { AreLevels levels.now len }
    requires few { length levels.now ≤ 64 }
    requires within { k < length levels.now }
    requires seeks { All (IsClimbing levels.now len (k + 1)) queries.old }
    ensures each { Become (λ q r. (r.rank ≡ q.rank) × (r.symbol ≡ q.symbol)
        × IsClimbing levels.now len k r) queries.old queries.new }
    ensures adds { AddsAtMost tally.old tally.new
        (times (length queries.old) (select_reads (superblock_count len))) }
{
    let many = queries.len();
    let mut from = 0;
    while from < many {
        let n = GROUP.min(many - from);
        rise_group(levels, len, k, queries, from, n, tally);
        from += n;
    }
}

// Moves the queries up through all levels, from the positions where the occurrences of their symbols begin
// below the last.
#[inline(always)]
fn climb_each<A: Allocator + Copy>(
    levels: &[RsVec<A>],
    len: usize,
    queries: &mut [SelectQuery],
    tally: &mut Tally,
)
    requires levels { AreLevels levels.now len }
    requires few { length levels.now ≤ 64 }
    requires begun { All (λ q. q.answer ≡ Some (final_position levels.now q.symbol 0)) queries.old }
    ensures each { Become (λ q r. (r.rank ≡ q.rank) × (r.symbol ≡ q.symbol)
        × HasClimbed levels.now len r.symbol (final_position levels.now r.symbol 0 + r.rank) 0 r.answer)
        queries.old queries.new }
    ensures adds { AddsAtMost tally.old tally.new (times (length levels.now)
        (times (length queries.old) (select_reads (superblock_count len)))) }
{
    turn_each(queries, len);
    for i in 0..levels.len() {
        rise_each(levels, len, levels.len() - (i + 1), queries, tally);
    }
}

impl<A: Allocator + Copy> WaveletMatrix<A> {
    /// Answers each query as `select_u64` does. Allocates nothing. All queries go level by level, which is
    /// faster than one after another if there are many.
    pub fn select_u64_each(&self, queries: &mut [SelectQuery])
        ensures { map (λ q. q.answer) queries.new ≡ map (λ q.
            if nat_le self.now.width 64 then slice_get (occurrences self.now.items 0
            (length self.now.items) (q.symbol % 2 ^ self.now.width)) q.rank else None) queries.old }
    {
        let mut tally = Tally::new();
        self.select_u64_each_counted(queries, &mut tally)
    }

    /// Answers each query as `select_u64_each` does. Reads at most what `select_u64` does for each query.
    #[inline(always)]
    pub fn select_u64_each_counted(&self, queries: &mut [SelectQuery], tally: &mut Tally)
        ensures value { map (λ q. q.answer) queries.new ≡ map (λ q.
            if nat_le self.now.width 64 then slice_get (occurrences self.now.items 0
            (length self.now.items) (q.symbol % 2 ^ self.now.width)) q.rank else None) queries.old }
        ensures adds { AddsAtMost tally.old tally.new
            (times (length queries.old) (query_reads self.now)) }
    {
        let levels = self.levels();
        let len = self.len();
        ask_each(levels, len, queries, tally);
        if levels.len() > 64 {
            return;
        }
        climb_each(levels, len, queries, tally);
    }
}
