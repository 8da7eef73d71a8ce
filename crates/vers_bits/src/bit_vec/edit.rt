//! Functions that change a list of bits in place or split it, and allocate only for a second half.
ghost use Rattle.std.specs.Prelude.{◌≡◌, ◌+◌, ◌-◌, ◌/◌, ◌%◌, ◌<◌, ◌≤◌, ◌==◌, not, length, take, drop, slice_set, slice_index_or, ◌↔◌, false, IfOk, IfErr, IsOk, MatchResult};

use crate::bit_vec::words::{cut, flip, put_bit};
use crate::bit_vec::{BitVec, OutOfRange, SplitCause, SplitError};
use std::alloc::Allocator;

impl<A: Allocator + Copy> BitVec<A> {
    // Keeps the first `len` bits.
    #[tactic(auto, using(crate::proofs::Edits::cuts))]
    pub(super) fn truncate(&mut self, len: usize)
        requires { len ≤ length self.old }
        ensures { self.new ≡ take len self.old }
    {
        cut(&mut self.data, len);
        self.len = len;
    }

    /// Drops the last `n` bits, or all if there are fewer.
    pub fn drop_last(&mut self, n: usize)
        ensures { self.new ≡ take (length self.old - n) self.old }
    {
        let len = self.len();
        self.truncate(len.saturating_sub(n));
    }

    /// Flips the bit at `position`. Precondition: `position` is below the length.
    #[tactic(auto, using(crate::proofs::Edits::puts))]
    pub fn flip_bit(&mut self, position: usize)
        requires { position < length self.old }
        ensures { self.new ≡ slice_set self.old position (not (slice_index_or self.old position false)) }
    {
        flip(&mut self.data, position);
    }

    /// Flips the bit at `position`. Precondition: `position` is below the length.
    pub fn flip_bit_unchecked(&mut self, position: usize)
        requires { position < length self.old }
        ensures { self.new ≡ slice_set self.old position (not (slice_index_or self.old position false)) }
    {
        self.flip_bit(position);
    }

    /// Sets the bit at `position` to the lowest bit of `value`. Errors: `OutOfRange` if `position` is out of bounds;
    /// the list is then unchanged.
    pub fn set(&mut self, position: usize, value: u64) -> Result<(), OutOfRange>
        ensures { MatchResult result
            (λ _. (position < length self.old) × (self.new ≡ slice_set self.old position
            (value % 2 == 1))) (λ _. (length self.old ≤ position) × (self.new ≡ self.old)) }
    {
        if position >= self.len() {
            return Err(OutOfRange);
        }
        self.set_unchecked(position, value);
        Ok(())
    }

    /// Sets the bit at `position` to the lowest bit of `value`. Precondition: `position` is below the length.
    #[tactic(auto, using(crate::proofs::Edits::puts))]
    pub fn set_unchecked(&mut self, position: usize, value: u64)
        requires { position < length self.old }
        ensures { self.new ≡ slice_set self.old position (value % 2 == 1) }
    {
        put_bit(&mut self.data, position, value % 2 == 1);
    }

    /// Returns the first `at` bits, and the others. If `at` is 0 or the length, one list is empty and the call
    /// allocates nothing. If the allocator refuses a request, the error is the unchanged list. Precondition:
    /// `at` is at most the length.
    pub fn split_at_unchecked(mut self, at: usize) -> Result<(Self, Self), Self>
        requires { at ≤ length self }
        ensures halves { IfOk result (λ h. (h.0 ≡ take at self) × (h.1 ≡ drop at self)) }
        ensures kept { IfErr result (λ v. v ≡ self) }
        ensures at_start { at ≡ 0 → IsOk result }
        ensures at_end { at ≡ length self → IsOk result }
    {
        let mut rest = BitVec::new(self.allocator());
        if at == self.len() {
            return Ok((self, rest));
        }
        if at == 0 {
            return Ok((rest, self));
        }
        if rest.extend_from(&self, at).is_err() {
            return Err(self);
        }
        self.truncate(at);
        Ok((self, rest))
    }

    /// Returns the first `at` bits, and the others. If `at` is 0 or the length, one list is empty and the call
    /// allocates nothing.
    ///
    /// # Errors
    ///
    /// `OutOfRange` if `at` is above the length; `Memory` if the allocator refuses a request. The error
    /// contains the unchanged list.
    pub fn split_at(self, at: usize) -> Result<(Self, Self), SplitError<A>>
        ensures halves { IfOk result (λ h. (h.0 ≡ take at self) × (h.1 ≡ drop at self)) }
        ensures kept { IfErr result (λ e. e.vec ≡ self) }
        ensures out_of_range { MatchResult result (λ _. at ≤ length self)
            (λ e. (e.cause ≡ SplitCause.OutOfRange) ↔ (length self < at)) }
        ensures at_start { at ≡ 0 → IsOk result }
        ensures at_end { at ≡ length self → IsOk result }
    {
        if at > self.len() {
            return Err(SplitError {
                vec: self,
                cause: SplitCause::OutOfRange,
            });
        }
        match self.split_at_unchecked(at) {
            Ok(halves) => Ok(halves),
            Err(vec) => Err(SplitError {
                vec,
                cause: SplitCause::Memory,
            }),
        }
    }
}
