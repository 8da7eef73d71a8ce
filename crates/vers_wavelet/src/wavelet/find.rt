//! Select: the positions of a symbol.
ghost use Rattle.std.specs.Prelude.{◌≡◌, ◌%◌, ◌^◌, ◌≤◌, ◌==◌, length, slice_get, slice_index_or, None, if◌then◌else◌};
ghost use Rattle.vers_bits.specs.Bits.{number};
ghost use Rattle.vers_tally.specs.Reads.{AddsAtMost};
ghost use Rattle.vers_wavelet.specs.Symbols.{as_word, occurrences};
ghost use Rattle.vers_wavelet.specs.Numbers.{position_from};
ghost use Rattle.vers_wavelet.specs.Reads.{query_reads};

use crate::wavelet::WaveletMatrix;
use std::alloc::Allocator;
use vers_bits::bit_vec::BitVec;
use vers_tally::tally::Tally;

#[tactic(auto, using(crate::proofs::Digits::symbols, crate::proofs::Offsets::selects))]
impl<A: Allocator + Copy> WaveletMatrix<A> {
    /// Returns the position of occurrence `rank` (from 0) of a symbol from position `offset` on. `None` if the
    /// symbol has another width, `offset` is at or past the end, or there are fewer occurrences.
    pub fn select_offset(&self, offset: usize, rank: usize, symbol: &BitVec<A>) -> Option<usize>
        ensures { result ≡ (if length symbol.now == self.now.width
            then slice_get (occurrences self.now.items offset (length self.now.items) (number symbol.now)) rank
            else None) }
    {
        let mut tally = Tally::new();
        self.select_offset_counted(offset, rank, symbol, &mut tally)
    }

    /// Returns `select_offset(..)`. Makes at most `4k` rank calls for symbols of `k` bits, each reading at most
    /// what one select of a level does.
    #[inline(always)]
    pub fn select_offset_counted(
        &self,
        offset: usize,
        rank: usize,
        symbol: &BitVec<A>,
        tally: &mut Tally,
    ) -> Option<usize>
        ensures value { result ≡ (if length symbol.now == self.now.width
            then slice_get (occurrences self.now.items offset (length self.now.items) (number symbol.now)) rank
            else None) }
        ensures adds { AddsAtMost tally.old tally.new (query_reads self.now) }
    {
        if symbol.len() != self.bits_per_element() || offset >= self.len() {
            return None;
        }
        self.find_from(offset, rank, symbol, tally)
    }

    /// Returns the position of occurrence `rank` (from 0) of a symbol from position `offset` on, or the length
    /// if there are fewer. Precondition: `offset` is at most the length, and the symbol has the list's width.
    pub fn select_offset_unchecked(&self, offset: usize, rank: usize, symbol: &BitVec<A>) -> usize
        requires within { offset ≤ length self.now.items }
        requires wide { length symbol.now ≡ self.now.width }
        ensures { result ≡ slice_index_or
            (occurrences self.now.items offset (length self.now.items) (number symbol.now)) rank
            (length self.now.items) }
    {
        self.position_from(offset, rank, symbol)
    }

    /// Returns the position of occurrence `rank` (from 0) of a symbol. `None` if the symbol has another width,
    /// or there are fewer occurrences.
    pub fn select(&self, rank: usize, symbol: &BitVec<A>) -> Option<usize>
        ensures { result ≡ (if length symbol.now == self.now.width
            then slice_get (occurrences self.now.items 0 (length self.now.items) (number symbol.now)) rank
            else None) }
    {
        let mut tally = Tally::new();
        self.select_counted(rank, symbol, &mut tally)
    }

    /// Returns `select(..)`. Makes at most `4k` rank calls for symbols of `k` bits, each reading at most what
    /// one select of a level does.
    #[inline(always)]
    pub fn select_counted(
        &self,
        rank: usize,
        symbol: &BitVec<A>,
        tally: &mut Tally,
    ) -> Option<usize>
        ensures value { result ≡ (if length symbol.now == self.now.width
            then slice_get (occurrences self.now.items 0 (length self.now.items) (number symbol.now)) rank
            else None) }
        ensures adds { AddsAtMost tally.old tally.new (query_reads self.now) }
    {
        if symbol.len() != self.bits_per_element() {
            return None;
        }
        self.find_from(0, rank, symbol, tally)
    }

    /// Returns the position of occurrence `rank` (from 0) of a symbol, or the length if there are fewer.
    /// Precondition: the symbol has the list's width.
    pub fn select_unchecked(&self, rank: usize, symbol: &BitVec<A>) -> usize
        requires wide { length symbol.now ≡ self.now.width }
        ensures { result ≡ slice_index_or
            (occurrences self.now.items 0 (length self.now.items) (number symbol.now)) rank
            (length self.now.items) }
    {
        self.select_offset_unchecked(0, rank, symbol)
    }

    /// Returns the position of occurrence `rank` (from 0) of a symbol from position `offset` on. Only the low
    /// bits of `symbol` count. `None` if the symbols have more than 64 bits, `offset` is at or past the end, or
    /// there are fewer occurrences.
    pub fn select_offset_u64(&self, offset: usize, rank: usize, symbol: u64) -> Option<usize>
        ensures { result ≡ as_word self.now.width (position_from self.now offset rank symbol) }
    {
        let mut tally = Tally::new();
        self.select_offset_u64_counted(offset, rank, symbol, &mut tally)
    }

    /// Returns `select_offset_u64(..)`. Makes at most `4k` rank calls for symbols of `k` bits, each reading at
    /// most what one select of a level does.
    #[inline(always)]
    pub fn select_offset_u64_counted(
        &self,
        offset: usize,
        rank: usize,
        symbol: u64,
        tally: &mut Tally,
    ) -> Option<usize>
        ensures value { result ≡ as_word self.now.width (position_from self.now offset rank symbol) }
        ensures adds { AddsAtMost tally.old tally.new (query_reads self.now) }
    {
        if !self.fits_word() || offset >= self.len() {
            return None;
        }
        self.find_from(offset, rank, &symbol, tally)
    }

    /// Returns the position of occurrence `rank` (from 0) of a symbol from position `offset` on, or the length
    /// if there are fewer. Only the low bits of `symbol` count. Precondition: `offset` is at most the length,
    /// and the symbols have at most 64 bits.
    pub fn select_offset_u64_unchecked(&self, offset: usize, rank: usize, symbol: u64) -> usize
        requires within { offset ≤ length self.now.items }
        requires wide { self.now.width ≤ 64 }
        ensures { result ≡ slice_index_or
            (occurrences self.now.items offset (length self.now.items)
            (symbol % 2 ^ self.now.width)) rank (length self.now.items) }
    {
        self.position_from(offset, rank, &symbol)
    }

    /// Returns the position of occurrence `rank` (from 0) of a symbol. Only the low bits of `symbol` count.
    /// `None` if the symbols have more than 64 bits, or there are fewer occurrences.
    pub fn select_u64(&self, rank: usize, symbol: u64) -> Option<usize>
        ensures { result ≡ as_word self.now.width (position_from self.now 0 rank symbol) }
    {
        let mut tally = Tally::new();
        self.select_u64_counted(rank, symbol, &mut tally)
    }

    /// Returns `select_u64(..)`. Makes at most `4k` rank calls for symbols of `k` bits, each reading at most
    /// what one select of a level does.
    #[inline(always)]
    pub fn select_u64_counted(&self, rank: usize, symbol: u64, tally: &mut Tally) -> Option<usize>
        ensures value { result ≡ as_word self.now.width (position_from self.now 0 rank symbol) }
        ensures adds { AddsAtMost tally.old tally.new (query_reads self.now) }
    {
        if !self.fits_word() {
            return None;
        }
        self.find_from(0, rank, &symbol, tally)
    }

    /// Returns the position of occurrence `rank` (from 0) of a symbol, or the length if there are fewer. Only
    /// the low bits of `symbol` count. Precondition: the symbols have at most 64 bits.
    pub fn select_u64_unchecked(&self, rank: usize, symbol: u64) -> usize
        requires wide { self.now.width ≤ 64 }
        ensures { result ≡ slice_index_or
            (occurrences self.now.items 0 (length self.now.items) (symbol % 2 ^ self.now.width))
            rank (length self.now.items) }
    {
        self.select_offset_u64_unchecked(0, rank, symbol)
    }
}
