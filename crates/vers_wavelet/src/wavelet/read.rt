//! Access: the symbol at a position.
ghost use Rattle.std.specs.Prelude.{◌≡◌, ◌<◌, ◌≤◌, ◌↔◌, length, slice_get, slice_index, Some, None, Ok, IsSome, IfSome, IfOk};
ghost use Rattle.vers_bits.specs.Bits.{number};
ghost use Rattle.vers_tally.specs.Reads.{AddsAtMost};
ghost use Rattle.vers_wavelet.specs.Reads.{walk_reads};

use crate::wavelet::WaveletMatrix;
use std::alloc::{AllocError, Allocator};
use vers_bits::bit_vec::BitVec;
use vers_tally::tally::Tally;

#[tactic(auto, using(crate::proofs::Digits::symbols))]
impl<A: Allocator + Copy> WaveletMatrix<A> {
    /// Returns the symbol at `position`, or `None` if `position` is out of bounds. Errors: `AllocError` if the
    /// allocator refuses a request.
    pub fn get_value(&self, position: usize) -> Result<Option<BitVec<A>>, AllocError>
        ensures value { IfOk result (λ o. IfSome o (λ v.
            (slice_get self.now.items position ≡ Some (number v)) × (length v ≡ self.now.width))) }
        ensures answered { IfOk result (λ o. IsSome o ↔ (position < length self.now.items)) }
        ensures past { length self.now.items ≤ position → result ≡ Ok None }
    {
        let mut tally = Tally::new();
        self.get_value_counted(position, &mut tally)
    }

    /// Returns `get_value(position)`. Reads at most two ranks of each level: `2k` rank calls for symbols of `k`
    /// bits.
    #[inline(always)]
    pub fn get_value_counted(
        &self,
        position: usize,
        tally: &mut Tally,
    ) -> Result<Option<BitVec<A>>, AllocError>
        ensures value { IfOk result (λ o. IfSome o (λ v.
            (slice_get self.now.items position ≡ Some (number v)) × (length v ≡ self.now.width))) }
        ensures answered { IfOk result (λ o. IsSome o ↔ (position < length self.now.items)) }
        ensures past { length self.now.items ≤ position → result ≡ Ok None }
        ensures adds { AddsAtMost tally.old tally.new (walk_reads self.now) }
    {
        if position >= self.len() {
            return Ok(None);
        }
        let mut answer = self.zero_symbol()?;
        self.read_at(position, &mut answer, tally);
        Ok(Some(answer))
    }

    /// Returns the symbol at `position`. Precondition: `position` is below the length. Errors: `AllocError` if the
    /// allocator refuses a request.
    pub fn get_value_unchecked(&self, position: usize) -> Result<BitVec<A>, AllocError>
        requires within { position < length self.now.items }
        ensures { IfOk result (λ v. (number v ≡ slice_index self.now.items position)
            × (length v ≡ self.now.width)) }
    {
        let mut tally = Tally::new();
        let mut answer = self.zero_symbol()?;
        self.read_at(position, &mut answer, &mut tally);
        Ok(answer)
    }

    /// Returns the symbol at `position`. `None` if the symbols have more than 64 bits, or `position` is out of bounds.
    pub fn get_u64(&self, position: usize) -> Option<u64>
        ensures value { IfSome result (λ x. slice_get self.now.items position ≡ Some x) }
        ensures answered { IsSome result ↔ (self.now.width ≤ 64) × (position < length self.now.items) }
    {
        let mut tally = Tally::new();
        self.get_u64_counted(position, &mut tally)
    }

    /// Returns `get_u64(position)`. Reads at most two ranks of each level: `2k` rank calls for symbols of `k` bits.
    #[inline(always)]
    pub fn get_u64_counted(&self, position: usize, tally: &mut Tally) -> Option<u64>
        ensures value { IfSome result (λ x. slice_get self.now.items position ≡ Some x) }
        ensures answered { IsSome result ↔ (self.now.width ≤ 64) × (position < length self.now.items) }
        ensures adds { AddsAtMost tally.old tally.new (walk_reads self.now) }
    {
        if !self.fits_word() || position >= self.len() {
            return None;
        }
        let mut answer: u64 = 0;
        self.read_at(position, &mut answer, tally);
        Some(answer)
    }

    /// Returns the symbol at `position`. Precondition: `position` is below the length, and the symbols have at most
    /// 64 bits.
    pub fn get_u64_unchecked(&self, position: usize) -> u64
        requires within { position < length self.now.items }
        requires wide { self.now.width ≤ 64 }
        ensures { result ≡ slice_index self.now.items position }
    {
        let mut tally = Tally::new();
        let mut answer: u64 = 0;
        self.read_at(position, &mut answer, &mut tally);
        answer
    }
}
