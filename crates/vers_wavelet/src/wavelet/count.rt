//! Rank: the number of occurrences of a symbol.
ghost use Rattle.std.specs.Prelude.{◌≡◌, ◌%◌, ◌^◌, ◌<◌, ◌≤◌, ◌↔◌, length, IsSome, IfSome};
ghost use Rattle.vers_bits.specs.Bits.{number};
ghost use Rattle.vers_tally.specs.Reads.{AddsAtMost};
ghost use Rattle.vers_wavelet.specs.Symbols.{occurrences, BeginsInside};
ghost use Rattle.vers_wavelet.specs.Reads.{walk_reads};

use crate::wavelet::WaveletMatrix;
use std::alloc::Allocator;
use std::ops::Range;
use vers_bits::bit_vec::BitVec;
use vers_tally::tally::Tally;

#[tactic(auto, using(crate::proofs::Digits::symbols))]
impl<A: Allocator + Copy> WaveletMatrix<A> {
    /// Returns the number of occurrences of a symbol in a range. `None` if the symbol has another width, or the
    /// range starts at or past the end, ends past it or is reversed.
    pub fn rank_range(&self, range: Range<usize>, symbol: &BitVec<A>) -> Option<usize>
        ensures value { IfSome result (λ n. n
            ≡ length (occurrences self.now.items range.start range.end (number symbol.now))) }
        ensures answered { IsSome result ↔ (length symbol.now ≡ self.now.width)
            × BeginsInside range.start range.end self.now.items }
    {
        let mut tally = Tally::new();
        self.rank_range_counted(range, symbol, &mut tally)
    }

    /// Returns `rank_range(..)`. Reads at most two ranks of each level: `2k` rank calls for symbols of `k` bits.
    #[inline(always)]
    pub fn rank_range_counted(
        &self,
        range: Range<usize>,
        symbol: &BitVec<A>,
        tally: &mut Tally,
    ) -> Option<usize>
        ensures value { IfSome result (λ n. n
            ≡ length (occurrences self.now.items range.start range.end (number symbol.now))) }
        ensures answered { IsSome result ↔ (length symbol.now ≡ self.now.width)
            × BeginsInside range.start range.end self.now.items }
        ensures adds { AddsAtMost tally.old tally.new (walk_reads self.now) }
    {
        let len = self.len();
        if symbol.len() != self.bits_per_element()
            || range.start >= len
            || range.end > len
            || range.start > range.end
        {
            return None;
        }
        Some(self.count_in(range.start, range.end, symbol, tally))
    }

    /// Returns the number of occurrences of a symbol in a range. Precondition: the range is within the list,
    /// and the symbol has the list's width.
    pub fn rank_range_unchecked(&self, range: Range<usize>, symbol: &BitVec<A>) -> usize
        requires order { range.start ≤ range.end }
        requires within { range.end ≤ length self.now.items }
        requires wide { length symbol.now ≡ self.now.width }
        ensures { result ≡ length (occurrences self.now.items range.start range.end
            (number symbol.now)) }
    {
        let mut tally = Tally::new();
        self.count_in(range.start, range.end, symbol, &mut tally)
    }

    /// Returns the number of occurrences of a symbol from position `offset` on, before `end`. `None` if the
    /// symbol has another width, `offset` is at or past the end of the list, or `end` is past it or before
    /// `offset`.
    pub fn rank_offset(&self, offset: usize, end: usize, symbol: &BitVec<A>) -> Option<usize>
        ensures value { IfSome result (λ n. n
            ≡ length (occurrences self.now.items offset end (number symbol.now))) }
        ensures answered { IsSome result ↔ (length symbol.now ≡ self.now.width)
            × BeginsInside offset end self.now.items }
    {
        let mut tally = Tally::new();
        self.rank_offset_counted(offset, end, symbol, &mut tally)
    }

    /// Returns `rank_offset(..)`. Reads at most two ranks of each level: `2k` rank calls for symbols of `k` bits.
    #[inline(always)]
    pub fn rank_offset_counted(
        &self,
        offset: usize,
        end: usize,
        symbol: &BitVec<A>,
        tally: &mut Tally,
    ) -> Option<usize>
        ensures value { IfSome result (λ n. n
            ≡ length (occurrences self.now.items offset end (number symbol.now))) }
        ensures answered { IsSome result ↔ (length symbol.now ≡ self.now.width)
            × BeginsInside offset end self.now.items }
        ensures adds { AddsAtMost tally.old tally.new (walk_reads self.now) }
    {
        self.rank_range_counted(offset..end, symbol, tally)
    }

    /// Returns the number of occurrences of a symbol from position `offset` on, before `end`. Precondition: the
    /// range is within the list, and the symbol has the list's width.
    pub fn rank_offset_unchecked(&self, offset: usize, end: usize, symbol: &BitVec<A>) -> usize
        requires order { offset ≤ end }
        requires within { end ≤ length self.now.items }
        requires wide { length symbol.now ≡ self.now.width }
        ensures { result ≡ length (occurrences self.now.items offset end (number symbol.now)) }
    {
        self.rank_range_unchecked(offset..end, symbol)
    }

    /// Returns the number of occurrences of a symbol in the first `end` positions. `None` if the symbol has
    /// another width, or there are fewer positions.
    pub fn rank(&self, end: usize, symbol: &BitVec<A>) -> Option<usize>
        ensures value { IfSome result (λ n. n
            ≡ length (occurrences self.now.items 0 end (number symbol.now))) }
        ensures answered { IsSome result ↔ (length symbol.now ≡ self.now.width)
            × (end ≤ length self.now.items) }
    {
        let mut tally = Tally::new();
        self.rank_counted(end, symbol, &mut tally)
    }

    /// Returns `rank(..)`. Reads at most two ranks of each level: `2k` rank calls for symbols of `k` bits.
    #[inline(always)]
    pub fn rank_counted(&self, end: usize, symbol: &BitVec<A>, tally: &mut Tally) -> Option<usize>
        ensures value { IfSome result (λ n. n
            ≡ length (occurrences self.now.items 0 end (number symbol.now))) }
        ensures answered { IsSome result ↔ (length symbol.now ≡ self.now.width)
            × (end ≤ length self.now.items) }
        ensures adds { AddsAtMost tally.old tally.new (walk_reads self.now) }
    {
        if symbol.len() != self.bits_per_element() || end > self.len() {
            return None;
        }
        Some(self.count_in(0, end, symbol, tally))
    }

    /// Returns the number of occurrences of a symbol in the first `end` positions. Precondition: `end` is at
    /// most the length, and the symbol has the list's width.
    pub fn rank_unchecked(&self, end: usize, symbol: &BitVec<A>) -> usize
        requires within { end ≤ length self.now.items }
        requires wide { length symbol.now ≡ self.now.width }
        ensures { result ≡ length (occurrences self.now.items 0 end (number symbol.now)) }
    {
        self.rank_range_unchecked(0..end, symbol)
    }

    /// Returns the number of occurrences of a symbol in a range. Only the low bits of `symbol` count. `None` if
    /// the symbols have more than 64 bits, or the range starts at or past the end, ends past it or is reversed.
    pub fn rank_range_u64(&self, range: Range<usize>, symbol: u64) -> Option<usize>
        ensures value { IfSome result (λ n. n
            ≡ length (occurrences self.now.items range.start range.end
            (symbol % 2 ^ self.now.width))) }
        ensures answered { IsSome result ↔ (self.now.width ≤ 64)
            × BeginsInside range.start range.end self.now.items }
    {
        let mut tally = Tally::new();
        self.rank_range_u64_counted(range, symbol, &mut tally)
    }

    /// Returns `rank_range_u64(..)`. Reads at most two ranks of each level: `2k` rank calls for symbols of `k`
    /// bits.
    #[inline(always)]
    pub fn rank_range_u64_counted(
        &self,
        range: Range<usize>,
        symbol: u64,
        tally: &mut Tally,
    ) -> Option<usize>
        ensures value { IfSome result (λ n. n
            ≡ length (occurrences self.now.items range.start range.end
            (symbol % 2 ^ self.now.width))) }
        ensures answered { IsSome result ↔ (self.now.width ≤ 64)
            × BeginsInside range.start range.end self.now.items }
        ensures adds { AddsAtMost tally.old tally.new (walk_reads self.now) }
    {
        let len = self.len();
        if !self.fits_word() || range.start >= len || range.end > len || range.start > range.end {
            return None;
        }
        Some(self.count_in(range.start, range.end, &symbol, tally))
    }

    /// Returns the number of occurrences of a symbol in a range. Only the low bits of `symbol` count.
    /// Precondition: the range is within the list, and the symbols have at most 64 bits.
    pub fn rank_range_u64_unchecked(&self, range: Range<usize>, symbol: u64) -> usize
        requires order { range.start ≤ range.end }
        requires within { range.end ≤ length self.now.items }
        requires wide { self.now.width ≤ 64 }
        ensures { result ≡ length (occurrences self.now.items range.start range.end
            (symbol % 2 ^ self.now.width)) }
    {
        let mut tally = Tally::new();
        self.count_in(range.start, range.end, &symbol, &mut tally)
    }

    /// Returns the number of occurrences of a symbol from position `offset` on, before `end`. Only the low bits
    /// of `symbol` count. `None` if the symbols have more than 64 bits, `offset` is at or past the end of the
    /// list, or `end` is past it or before `offset`.
    pub fn rank_offset_u64(&self, offset: usize, end: usize, symbol: u64) -> Option<usize>
        ensures value { IfSome result (λ n. n
            ≡ length (occurrences self.now.items offset end (symbol % 2 ^ self.now.width))) }
        ensures answered { IsSome result ↔ (self.now.width ≤ 64) × BeginsInside offset end self.now.items }
    {
        let mut tally = Tally::new();
        self.rank_offset_u64_counted(offset, end, symbol, &mut tally)
    }

    /// Returns `rank_offset_u64(..)`. Reads at most two ranks of each level: `2k` rank calls for symbols of `k`
    /// bits.
    #[inline(always)]
    pub fn rank_offset_u64_counted(
        &self,
        offset: usize,
        end: usize,
        symbol: u64,
        tally: &mut Tally,
    ) -> Option<usize>
        ensures value { IfSome result (λ n. n
            ≡ length (occurrences self.now.items offset end (symbol % 2 ^ self.now.width))) }
        ensures answered { IsSome result ↔ (self.now.width ≤ 64) × BeginsInside offset end self.now.items }
        ensures adds { AddsAtMost tally.old tally.new (walk_reads self.now) }
    {
        self.rank_range_u64_counted(offset..end, symbol, tally)
    }

    /// Returns the number of occurrences of a symbol from position `offset` on, before `end`. Only the low bits
    /// of `symbol` count. Precondition: the range is within the list, and the symbols have at most 64 bits.
    pub fn rank_offset_u64_unchecked(&self, offset: usize, end: usize, symbol: u64) -> usize
        requires order { offset ≤ end }
        requires within { end ≤ length self.now.items }
        requires wide { self.now.width ≤ 64 }
        ensures { result ≡ length (occurrences self.now.items offset end
            (symbol % 2 ^ self.now.width)) }
    {
        self.rank_range_u64_unchecked(offset..end, symbol)
    }

    /// Returns the number of occurrences of a symbol in the first `end` positions. Only the low bits of
    /// `symbol` count. `None` if the symbols have more than 64 bits, or there are fewer positions.
    pub fn rank_u64(&self, end: usize, symbol: u64) -> Option<usize>
        ensures value { IfSome result (λ n. n
            ≡ length (occurrences self.now.items 0 end (symbol % 2 ^ self.now.width))) }
        ensures answered { IsSome result ↔ (self.now.width ≤ 64) × (end ≤ length self.now.items) }
    {
        let mut tally = Tally::new();
        self.rank_u64_counted(end, symbol, &mut tally)
    }

    /// Returns `rank_u64(..)`. Reads at most two ranks of each level: `2k` rank calls for symbols of `k` bits.
    #[inline(always)]
    pub fn rank_u64_counted(&self, end: usize, symbol: u64, tally: &mut Tally) -> Option<usize>
        ensures value { IfSome result (λ n. n
            ≡ length (occurrences self.now.items 0 end (symbol % 2 ^ self.now.width))) }
        ensures answered { IsSome result ↔ (self.now.width ≤ 64) × (end ≤ length self.now.items) }
        ensures adds { AddsAtMost tally.old tally.new (walk_reads self.now) }
    {
        if !self.fits_word() || end > self.len() {
            return None;
        }
        Some(self.count_in(0, end, &symbol, tally))
    }

    /// Returns the number of occurrences of a symbol in the first `end` positions. Only the low bits of
    /// `symbol` count. Precondition: `end` is at most the length, and the symbols have at most 64 bits.
    pub fn rank_u64_unchecked(&self, end: usize, symbol: u64) -> usize
        requires within { end ≤ length self.now.items }
        requires wide { self.now.width ≤ 64 }
        ensures { result ≡ length (occurrences self.now.items 0 end (symbol % 2 ^ self.now.width)) }
    {
        self.rank_range_u64_unchecked(0..end, symbol)
    }
}
