//! The nearest symbols of a range on either side of a symbol.
ghost use Rattle.std.specs.Prelude.{◌≡◌, ◌≢◌, ◌%◌, ◌^◌, ◌<◌, ◌≤◌, length, option_map, Ok, None, IfSome, IfOk};
ghost use Rattle.vers_bits.specs.Bits.{number};
ghost use Rattle.vers_tally.specs.Reads.{AddsAtMost, times};
ghost use Rattle.vers_wavelet.specs.Symbols.{range_elements, greatest_up_to, least_from, as_word};
ghost use Rattle.vers_wavelet.specs.Reads.{walk_reads};

use crate::wavelet::WaveletMatrix;
use std::alloc::{AllocError, Allocator};
use std::ops::Range;
use vers_bits::bit_vec::BitVec;
use vers_tally::tally::Tally;

#[tactic(auto, using(crate::proofs::Digits::symbols, crate::proofs::Nearest::neighbours))]
impl<A: Allocator + Copy> WaveletMatrix<A> {
    /// Returns the greatest symbol of a range that is at most `symbol`. `None` if `symbol` has another width,
    /// the range is reversed or ends past the end, or there is no such symbol. Errors: `AllocError` if the
    /// allocator refuses a request.
    pub fn predecessor(
        &self,
        range: Range<usize>,
        symbol: &BitVec<A>,
    ) -> Result<Option<BitVec<A>>, AllocError>
        ensures value { length symbol.now ≡ self.now.width → IfOk result (λ o. option_map number o
            ≡ greatest_up_to (range_elements self.now.items range.start range.end)
            (number symbol.now)) }
        ensures width { IfOk result (λ o. IfSome o (λ v. length v ≡ self.now.width)) }
        ensures other_width { length symbol.now ≢ self.now.width → result ≡ Ok None }
        ensures past { length self.now.items < range.end → result ≡ Ok None }
        ensures empty { range.end ≤ range.start → result ≡ Ok None }
    {
        let mut tally = Tally::new();
        self.predecessor_counted(range, symbol, &mut tally)
    }

    /// Returns `predecessor(..)`. Reads at most four ranks of each level: `4k` rank calls for symbols of `k`
    /// bits.
    #[inline(always)]
    pub fn predecessor_counted(
        &self,
        range: Range<usize>,
        symbol: &BitVec<A>,
        tally: &mut Tally,
    ) -> Result<Option<BitVec<A>>, AllocError>
        ensures value { length symbol.now ≡ self.now.width → IfOk result (λ o. option_map number o
            ≡ greatest_up_to (range_elements self.now.items range.start range.end)
            (number symbol.now)) }
        ensures width { IfOk result (λ o. IfSome o (λ v. length v ≡ self.now.width)) }
        ensures other_width { length symbol.now ≢ self.now.width → result ≡ Ok None }
        ensures past { length self.now.items < range.end → result ≡ Ok None }
        ensures empty { range.end ≤ range.start → result ≡ Ok None }
        ensures adds { AddsAtMost tally.old tally.new (times 2 (walk_reads self.now)) }
    {
        if symbol.len() != self.bits_per_element()
            || range.start >= range.end
            || range.end > self.len()
        {
            return Ok(None);
        }
        let mut answer = self.zero_symbol()?;
        if !self.nearest_in(false, range.start, range.end, symbol, &mut answer, tally) {
            return Ok(None);
        }
        Ok(Some(answer))
    }

    /// Returns the least symbol of a range that is at least `symbol`. `None` if `symbol` has another width, the
    /// range is reversed or ends past the end, or there is no such symbol. Errors: `AllocError` if the
    /// allocator refuses a request.
    pub fn successor(
        &self,
        range: Range<usize>,
        symbol: &BitVec<A>,
    ) -> Result<Option<BitVec<A>>, AllocError>
        ensures value { length symbol.now ≡ self.now.width → IfOk result (λ o. option_map number o
            ≡ least_from (range_elements self.now.items range.start range.end)
            (number symbol.now)) }
        ensures width { IfOk result (λ o. IfSome o (λ v. length v ≡ self.now.width)) }
        ensures other_width { length symbol.now ≢ self.now.width → result ≡ Ok None }
        ensures past { length self.now.items < range.end → result ≡ Ok None }
        ensures empty { range.end ≤ range.start → result ≡ Ok None }
    {
        let mut tally = Tally::new();
        self.successor_counted(range, symbol, &mut tally)
    }

    /// Returns `successor(..)`. Reads at most four ranks of each level: `4k` rank calls for symbols of `k` bits.
    #[inline(always)]
    pub fn successor_counted(
        &self,
        range: Range<usize>,
        symbol: &BitVec<A>,
        tally: &mut Tally,
    ) -> Result<Option<BitVec<A>>, AllocError>
        ensures value { length symbol.now ≡ self.now.width → IfOk result (λ o. option_map number o
            ≡ least_from (range_elements self.now.items range.start range.end)
            (number symbol.now)) }
        ensures width { IfOk result (λ o. IfSome o (λ v. length v ≡ self.now.width)) }
        ensures other_width { length symbol.now ≢ self.now.width → result ≡ Ok None }
        ensures past { length self.now.items < range.end → result ≡ Ok None }
        ensures empty { range.end ≤ range.start → result ≡ Ok None }
        ensures adds { AddsAtMost tally.old tally.new (times 2 (walk_reads self.now)) }
    {
        if symbol.len() != self.bits_per_element()
            || range.start >= range.end
            || range.end > self.len()
        {
            return Ok(None);
        }
        let mut answer = self.zero_symbol()?;
        if !self.nearest_in(true, range.start, range.end, symbol, &mut answer, tally) {
            return Ok(None);
        }
        Ok(Some(answer))
    }

    /// Returns the greatest symbol of a range that is at most `symbol`. Uses only the low bits of `symbol`. `None` if
    /// the symbols have more than 64 bits, the range is reversed or ends past the end, or there is no such symbol.
    pub fn predecessor_u64(&self, range: Range<usize>, symbol: u64) -> Option<u64>
        ensures { result ≡ as_word self.now.width
            (greatest_up_to (range_elements self.now.items range.start range.end)
            (symbol % 2 ^ self.now.width)) }
    {
        let mut tally = Tally::new();
        self.predecessor_u64_counted(range, symbol, &mut tally)
    }

    /// Returns `predecessor_u64(..)`. Reads at most four ranks of each level: `4k` rank calls for symbols of
    /// `k` bits.
    #[inline(always)]
    pub fn predecessor_u64_counted(
        &self,
        range: Range<usize>,
        symbol: u64,
        tally: &mut Tally,
    ) -> Option<u64>
        ensures value { result ≡ as_word self.now.width
            (greatest_up_to (range_elements self.now.items range.start range.end)
            (symbol % 2 ^ self.now.width)) }
        ensures adds { AddsAtMost tally.old tally.new (times 2 (walk_reads self.now)) }
    {
        if !self.fits_word() || range.start > range.end || range.end > self.len() {
            return None;
        }
        let mut answer: u64 = 0;
        if !self.nearest_in(false, range.start, range.end, &symbol, &mut answer, tally) {
            return None;
        }
        Some(answer)
    }

    /// Returns the least symbol of a range that is at least `symbol`. Uses only the low bits of `symbol`. `None` if
    /// the symbols have more than 64 bits, the range is reversed or ends past the end, or there is no such symbol.
    pub fn successor_u64(&self, range: Range<usize>, symbol: u64) -> Option<u64>
        ensures { result ≡ as_word self.now.width
            (least_from (range_elements self.now.items range.start range.end)
            (symbol % 2 ^ self.now.width)) }
    {
        let mut tally = Tally::new();
        self.successor_u64_counted(range, symbol, &mut tally)
    }

    /// Returns `successor_u64(..)`. Reads at most four ranks of each level: `4k` rank calls for symbols of `k`
    /// bits.
    #[inline(always)]
    pub fn successor_u64_counted(
        &self,
        range: Range<usize>,
        symbol: u64,
        tally: &mut Tally,
    ) -> Option<u64>
        ensures value { result ≡ as_word self.now.width
            (least_from (range_elements self.now.items range.start range.end)
            (symbol % 2 ^ self.now.width)) }
        ensures adds { AddsAtMost tally.old tally.new (times 2 (walk_reads self.now)) }
    {
        if !self.fits_word() || range.start > range.end || range.end > self.len() {
            return None;
        }
        let mut answer: u64 = 0;
        if !self.nearest_in(true, range.start, range.end, &symbol, &mut answer, tally) {
            return None;
        }
        Some(answer)
    }
}
