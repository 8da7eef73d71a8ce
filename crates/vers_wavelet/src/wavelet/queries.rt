//! Queries of a wavelet matrix for symbols of both kinds.
ghost use Rattle.std.specs.Prelude.{◌≡◌, ℕ, ◌+◌, ◌-◌, ◌*◌, ◌%◌, ◌^◌, ◌<◌, ◌≤◌, ◌↔◌, length, slice_get, slice_index, slice_index_or, slice_range, count_by, nat_lt, nat_le, Some, None, false, IsTrue, IfOk};
ghost use Rattle.vers_bits.specs.Bits.{number};
ghost use Rattle.vers_tally.specs.Reads.{AddsAtMost, times};
ghost use Rattle.vers_wavelet.specs.Symbols.{occurrences, ordered, by_size, range_elements};
ghost use Rattle.vers_wavelet.specs.inside.Ways.{IsFound, IsWayOf};
ghost use Rattle.vers_wavelet.specs.inside.Nearest.{nearest};
ghost use Rattle.vers_wavelet.specs.Reads.{query_reads, walk_reads};

use crate::wavelet::WaveletMatrix;
use crate::wavelet::digits::Digits;
use crate::wavelet::nearest::find_nearest;
use crate::wavelet::walk::{climb, descend, find_kth, narrow, read_symbol};
use crate::wavelet::way::{Found, Way};
use std::alloc::{AllocError, Allocator};
use vers_bits::bit_vec::BitVec;
use vers_tally::tally::Tally;

impl<A: Allocator + Copy> WaveletMatrix<A> {
    // Returns a symbol that is 0.
    #[tactic(auto, using(crate::proofs::Digits::symbols))]
    pub(super) fn zero_symbol(&self) -> Result<BitVec<A>, AllocError>
        ensures zero { IfOk result (λ v. number v ≡ 0) }
        ensures wide { IfOk result (λ v. length v ≡ self.now.width) }
    {
        let alloc = *self.levels.allocator();
        BitVec::from_zeros(alloc, self.bits_per_element()).map_err(|_| AllocError)
    }

    // Returns the number of occurrences of a symbol in a range.
    #[inline(always)]
    pub(super) fn count_in<D: Digits>(
        &self,
        start: usize,
        end: usize,
        symbol: &D,
        tally: &mut Tally,
    ) -> usize
        requires order { start ≤ end }
        requires within { end ≤ length self.now.items }
        requires wide { self.now.width ≤ D.width symbol.now }
        ensures value { result ≡ length (occurrences self.now.items start end
            (D.number symbol.now % 2 ^ self.now.width)) }
        ensures adds { AddsAtMost tally.old tally.new (walk_reads self.now) }
    {
        let part = narrow(self.levels(), self.len(), start, end, symbol, tally);
        part.end - part.start
    }

    // Returns the position of occurrence `rank` of a symbol from a position on.
    #[inline(always)]
    pub(super) fn find_from<D: Digits>(
        &self,
        offset: usize,
        rank: usize,
        symbol: &D,
        tally: &mut Tally,
    ) -> Option<usize>
        requires within { offset ≤ length self.now.items }
        requires wide { self.now.width ≤ D.width symbol.now }
        ensures value { result ≡ slice_get (occurrences self.now.items offset
            (length self.now.items) (D.number symbol.now % 2 ^ self.now.width)) rank }
        ensures adds { AddsAtMost tally.old tally.new (query_reads self.now) }
    {
        let levels = self.levels();
        let len = self.len();
        let first = descend(levels, len, offset, symbol, tally);
        if rank >= len - first {
            return None;
        }
        climb(levels, len, symbol, first + rank, tally)
    }

    // Does the same, but returns the length if there are fewer.
    #[inline(always)]
    #[tactic(auto, using(crate::proofs::Items::found))]
    pub(super) fn position_from<D: Digits>(&self, offset: usize, rank: usize, symbol: &D) -> usize
        requires within { offset ≤ length self.now.items }
        requires wide { self.now.width ≤ D.width symbol.now }
        ensures { result ≡ slice_index_or
            (occurrences self.now.items offset (length self.now.items)
            (D.number symbol.now % 2 ^ self.now.width)) rank (length self.now.items) }
    {
        let mut tally = Tally::new();
        self.find_from(offset, rank, symbol, &mut tally)
            .unwrap_or(self.len())
    }

    // Writes the symbol at a position into a number that is 0.
    #[inline(always)]
    pub(super) fn read_at<D: Digits>(&self, position: usize, answer: &mut D, tally: &mut Tally)
        requires within { position < length self.now.items }
        requires zero { D.number answer.old ≡ 0 }
        requires wide { self.now.width ≤ D.width answer.old }
        ensures value { D.number answer.new ≡ slice_index self.now.items position }
        ensures same { D.width answer.new ≡ D.width answer.old }
        ensures adds { AddsAtMost tally.old tally.new (walk_reads self.now) }
    {
        read_symbol(self.levels(), self.len(), position, answer, tally);
    }

    // Writes the `i`-th smallest element of a range into a number that is 0.
    #[inline(always)]
    pub(super) fn kth_in<D: Digits>(
        &self,
        start: usize,
        end: usize,
        i: usize,
        answer: &mut D,
        tally: &mut Tally,
    )
        requires order { start + i < end }
        requires within { end ≤ length self.now.items }
        requires zero { D.number answer.old ≡ 0 }
        requires wide { self.now.width ≤ D.width answer.old }
        ensures value { D.number answer.new
            ≡ slice_index (by_size (slice_range self.now.items start end)) i }
        ensures same { D.width answer.new ≡ D.width answer.old }
        ensures adds { AddsAtMost tally.old tally.new (walk_reads self.now) }
    {
        find_kth(self.levels(), self.len(), start, end, i, answer, tally);
    }

    // Returns the `i`-th smallest symbol, and which elements by size are equal to it. It continues from the path
    // down to the last one found.
    #[inline(always)]
    pub(super) fn find_by_size(&self, way: &mut Way, i: usize, tally: &mut Tally) -> Found
        requires within { i < length self.now.items }
        requires wide { self.now.width ≤ 64 }
        requires way { IsWayOf self.now way.old }
        ensures value { result.symbol ≡ slice_index (by_size self.now.items) i }
        ensures found { IsFound self.now.items result }
        ensures way { IsWayOf self.now way.new }
        ensures adds { AddsAtMost tally.old tally.new (walk_reads self.now) }
    {
        way.find(self.levels(), self.len(), i, tally)
    }

    // Writes the `i`-th smallest symbol into a number that is 0 if `by_size`, otherwise the symbol at position
    // `i`.
    #[inline(always)]
    pub(super) fn element<D: Digits>(
        &self,
        by_size: bool,
        i: usize,
        answer: &mut D,
        tally: &mut Tally,
    )
        requires within { i < length self.now.items }
        requires zero { D.number answer.old ≡ 0 }
        requires wide { self.now.width ≤ D.width answer.old }
        ensures value { D.number answer.new ≡ slice_index (ordered by_size self.now.items) i }
        ensures same { D.width answer.new ≡ D.width answer.old }
        ensures adds { AddsAtMost tally.old tally.new (walk_reads self.now) }
    {
        if by_size {
            self.kth_in(0, self.len(), i, answer, tally);
            return;
        }
        self.read_at(i, answer, tally);
    }

    // Returns true if a range has a symbol that is at least a symbol, or, if `is_up` is false, one that is at
    // most it; and writes the nearest of these into a number that is 0. It is the symbol itself if the range
    // has it.
    #[inline(always)]
    pub(super) fn nearest_in<D: Digits>(
        &self,
        is_up: bool,
        start: usize,
        end: usize,
        symbol: &D,
        answer: &mut D,
        tally: &mut Tally,
    ) -> bool
        requires order { start ≤ end }
        requires within { end ≤ length self.now.items }
        requires symbol { self.now.width ≤ D.width symbol.now }
        requires zero { D.number answer.old ≡ 0 }
        requires wide { self.now.width ≤ D.width answer.old }
        ensures found { IsTrue result → nearest is_up (range_elements self.now.items start end)
            (D.number symbol.now % 2 ^ self.now.width) ≡ Some (D.number answer.new) }
        ensures none { result ≡ false → nearest is_up (range_elements self.now.items start end)
            (D.number symbol.now % 2 ^ self.now.width) ≡ None }
        ensures same { D.width answer.new ≡ D.width answer.old }
        ensures adds { AddsAtMost tally.old tally.new (times 2 (walk_reads self.now)) }
    {
        find_nearest(
            self.levels(),
            self.len(),
            start,
            end,
            is_up,
            symbol,
            answer,
            tally,
        )
    }
}
