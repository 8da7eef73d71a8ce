//! Gathered order: all positions sorted stably by their symbols' digits, lowest digit first, so that equal
//! symbols are adjacent.
ghost use Rattle.std.specs.Prelude.{◌≡◌, ◌+◌, ◌<◌, ◌≤◌, ◌↔◌, length, slice_get, Some, IsSome, IfSome};
ghost use Rattle.vers_tally.specs.Reads.{AddsAtMost, times};
ghost use Rattle.vers_rank.specs.Queries.{rank_reads};
ghost use Rattle.vers_wavelet.specs.Symbols.{gathered};
ghost use Rattle.vers_wavelet.specs.Numbers.{low_bits_of, positions_of};
ghost use Rattle.vers_wavelet.specs.Reads.{walk_reads};

use crate::wavelet::WaveletMatrix;
use crate::wavelet::walk::{descend, narrow, read_symbol};
use std::alloc::Allocator;
use std::ops::Range;
use vers_tally::tally::Tally;

/// The symbol at a position, and its gathered position: its index when all positions are sorted stably by their
/// symbols' digits, lowest digit first.
#[derive(Clone, Copy, PartialEq, Eq, Debug, Drop)]
pub struct Gathered {
    /// The symbol.
    pub symbol: u64,
    /// The gathered position.
    pub position: usize,
}

impl<A: Allocator + Copy> WaveletMatrix<A> {
    /// Returns the symbol at `position`, and its gathered position: its index when all positions are sorted stably
    /// by their symbols' digits, lowest digit first. `None` if the symbols have more than 64 bits, or `position`
    /// is out of bounds.
    pub fn get_gathered_u64(&self, position: usize) -> Option<Gathered>
        ensures symbol { IfSome result (λ g. slice_get self.now.items position ≡ Some g.symbol) }
        ensures position { IfSome result (λ g. g.position ≡ gathered self.now position g.symbol) }
        ensures answered { IsSome result ↔ (self.now.width ≤ 64) × (position < length self.now.items) }
    {
        let mut tally = Tally::new();
        self.get_gathered_u64_counted(position, &mut tally)
    }

    /// Returns `get_gathered_u64(position)`. Reads at most two ranks of each level: `2k` rank calls for symbols of
    /// `k` bits.
    #[inline(always)]
    pub fn get_gathered_u64_counted(&self, position: usize, tally: &mut Tally) -> Option<Gathered>
        ensures symbol { IfSome result (λ g. slice_get self.now.items position ≡ Some g.symbol) }
        ensures position { IfSome result (λ g. g.position ≡ gathered self.now position g.symbol) }
        ensures answered { IsSome result ↔ (self.now.width ≤ 64) × (position < length self.now.items) }
        ensures adds { AddsAtMost tally.old tally.new (walk_reads self.now) }
    {
        if !self.fits_word() || position >= self.len() {
            return None;
        }
        let mut symbol: u64 = 0;
        let position = read_symbol(self.levels(), self.len(), position, &mut symbol, tally);
        Some(Gathered { symbol, position })
    }

    /// Returns the gathered position of the first occurrence of a symbol from `position` on, or the one that it
    /// would have if there is none. (The gathered position is the index when all positions are sorted stably by
    /// their symbols' digits, lowest digit first.) Only the low bits of `symbol` count. `None` if the symbols
    /// have more than 64 bits, or `position` is past the end.
    pub fn gathered_u64(&self, position: usize, symbol: u64) -> Option<usize>
        ensures value { IfSome result (λ p. p ≡ gathered self.now position (low_bits_of self.now symbol)) }
        ensures answered { IsSome result ↔ (self.now.width ≤ 64) × (position ≤ length self.now.items) }
    {
        let mut tally = Tally::new();
        self.gathered_u64_counted(position, symbol, &mut tally)
    }

    /// Returns `gathered_u64(..)`. Reads at most one rank of each level: `k` rank calls for symbols of `k` bits.
    #[inline(always)]
    pub fn gathered_u64_counted(
        &self,
        position: usize,
        symbol: u64,
        tally: &mut Tally,
    ) -> Option<usize>
        ensures value { IfSome result (λ p. p ≡ gathered self.now position (low_bits_of self.now symbol)) }
        ensures answered { IsSome result ↔ (self.now.width ≤ 64) × (position ≤ length self.now.items) }
        ensures adds { AddsAtMost tally.old tally.new (times self.now.width rank_reads) }
    {
        if !self.fits_word() || position > self.len() {
            return None;
        }
        Some(self.gathered_from(position, symbol, tally))
    }

    /// Returns the gathered position that `gathered_u64` does. Precondition: `position` is at most the length, and
    /// the symbols have at most 64 bits.
    pub fn gathered_u64_unchecked(&self, position: usize, symbol: u64) -> usize
        requires within { position ≤ length self.now.items }
        requires wide { self.now.width ≤ 64 }
        ensures { result ≡ gathered self.now position (low_bits_of self.now symbol) }
    {
        let mut tally = Tally::new();
        self.gathered_from(position, symbol, &mut tally)
    }

    // Returns the gathered position of the first occurrence of a symbol from a position on.
    #[inline(always)]
    fn gathered_from(&self, position: usize, symbol: u64, tally: &mut Tally) -> usize
        requires within { position ≤ length self.now.items }
        requires wide { self.now.width ≤ 64 }
        ensures value { result ≡ gathered self.now position (low_bits_of self.now symbol) }
        ensures adds { AddsAtMost tally.old tally.new (times self.now.width rank_reads) }
    {
        descend(self.levels(), self.len(), position, &symbol, tally)
    }

    /// Returns the gathered positions of the occurrences of a symbol in a range: they are adjacent. (The
    /// gathered position is the index when all positions are sorted stably by their symbols' digits, lowest
    /// digit first.) Only the low bits of `symbol` count. `None` if the symbols have more than 64 bits, the
    /// range ends past the list, or the symbol doesn't occur in the range.
    pub fn gathered_range_u64(&self, range: Range<usize>, symbol: u64) -> Option<Range<usize>>
        ensures start { IfSome result (λ r. r.start
            ≡ gathered self.now range.start (low_bits_of self.now symbol)) }
        ensures end { IfSome result (λ r. r.end
            ≡ r.start + length (positions_of self.now range.start range.end symbol)) }
        ensures answered { IsSome result ↔ (self.now.width ≤ 64) × (range.end ≤ length self.now.items)
            × (0 < length (positions_of self.now range.start range.end symbol)) }
    {
        let mut tally = Tally::new();
        self.gathered_range_u64_counted(range, symbol, &mut tally)
    }

    /// Returns `gathered_range_u64(..)`. Reads at most two ranks of each level: `2k` rank calls for symbols of
    /// `k` bits.
    #[inline(always)]
    pub fn gathered_range_u64_counted(
        &self,
        range: Range<usize>,
        symbol: u64,
        tally: &mut Tally,
    ) -> Option<Range<usize>>
        ensures start { IfSome result (λ r. r.start
            ≡ gathered self.now range.start (low_bits_of self.now symbol)) }
        ensures end { IfSome result (λ r. r.end
            ≡ r.start + length (positions_of self.now range.start range.end symbol)) }
        ensures answered { IsSome result ↔ (self.now.width ≤ 64) × (range.end ≤ length self.now.items)
            × (0 < length (positions_of self.now range.start range.end symbol)) }
        ensures adds { AddsAtMost tally.old tally.new (walk_reads self.now) }
    {
        if !self.fits_word() || range.end > self.len() || range.start >= range.end {
            return None;
        }
        let positions = self.gathered_between(range.start, range.end, symbol, tally);
        if positions.start == positions.end {
            return None;
        }
        Some(positions)
    }

    // Returns the gathered positions of the occurrences of a symbol from `start` on, before `end`, or an empty
    // range if there are none.
    #[inline(always)]
    fn gathered_between(
        &self,
        start: usize,
        end: usize,
        symbol: u64,
        tally: &mut Tally,
    ) -> Range<usize>
        requires order { start ≤ end }
        requires within { end ≤ length self.now.items }
        requires wide { self.now.width ≤ 64 }
        ensures start { result.start < result.end
            → result.start ≡ gathered self.now start (low_bits_of self.now symbol) }
        ensures end { result.end ≡ result.start + length (positions_of self.now start end symbol) }
        ensures adds { AddsAtMost tally.old tally.new (walk_reads self.now) }
    {
        let part = narrow(self.levels(), self.len(), start, end, &symbol, tally);
        part.start..part.end
    }
}
