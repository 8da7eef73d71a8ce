//! Functions that append to a list of bits.
ghost use Rattle.std.specs.Prelude.{◌≡◌, ℕ, ◌+◌, ◌-◌, ◌*◌, ◌/◌, ◌%◌, ◌^◌, ◌<◌, ◌≤◌, ◌↔◌, [], ◌∷◌, ◌++◌, length, take, drop, Some, None, IsOk, OnOk, OnErr, ◌==◌, IfErr, flat_map, replicate, Bool, List, false};
ghost use Rattle.std.specs.Borrow.{Bor};
ghost use Rattle.std.specs.Iterator.{Drains, IsFinite, YieldsThen};
ghost use Rattle.vers_bits.specs.Bits.{low_bits};
ghost use Rattle.vers_bits.specs.Makers.{StopsAt};

use crate::bit_vec::words::{add_bit, add_bits, add_within, add_zeros, low_part};
use crate::bit_vec::{BitVec, GrowError, MAX_LEN};
use std::alloc::{AllocError, Allocator};

// A list of bits, or a reference to one.
trait AsList<A: Allocator + Copy> {
    ghost bits: { Self → List Bool };

    fn as_list(&self) -> &BitVec<A>
        ensures { result.now ≡ bits self.now };
}

impl<A: Allocator + Copy> AsList<A> for BitVec<A> {
    ghost bits = { λ list. list };

    fn as_list(&self) -> &BitVec<A> {
        self
    }
}

impl<'a, A: Allocator + Copy> AsList<A> for &'a BitVec<A> {
    ghost bits = { λ list. list.now };

    fn as_list(&self) -> &BitVec<A> {
        self
    }
}

impl<A: Allocator + Copy> BitVec<A> {
    /// Appends a bit. Allocates only if the length is a multiple of 64. The list is unchanged on error.
    ///
    /// # Errors
    ///
    /// `TooLong` if the length is `MAX_LEN`; `Memory` if the allocator refuses a request.
    pub fn append(&mut self, bit: bool) -> Result<(), GrowError>
        ensures grown { OnOk result (self.new ≡ self.old ++ bit ∷ []) }
        ensures kept { OnErr result (self.new ≡ self.old) }
        ensures too_long { (result ≡ Err GrowError.TooLong) ↔ (length self.old ≡ MAX_LEN) }
        ensures room { 0 < length self.old % 64 → IsOk result }
    {
        add_bit(&mut self.data, self.len, bit)?;
        self.len += 1;
        Ok(())
    }

    /// Appends the lowest bit of a number. Errors as for `append`.
    pub fn append_bit(&mut self, number: u64) -> Result<(), GrowError>
        ensures grown { OnOk result (self.new ≡ self.old ++ (number % 2 == 1) ∷ []) }
        ensures kept { OnErr result (self.new ≡ self.old) }
        ensures too_long { (result ≡ Err GrowError.TooLong) ↔ (length self.old ≡ MAX_LEN) }
        ensures room { 0 < length self.old % 64 → IsOk result }
    {
        self.append(number % 2 == 1)
    }

    /// Appends the low `len` bits of a number, least significant first. Allocates nothing if `len` is 0 or the
    /// last limb has room. The list is unchanged on error. Precondition: `len` is at most 64.
    ///
    /// # Errors
    ///
    /// `TooLong` if the list would exceed `MAX_LEN` bits; `Memory` if the allocator refuses a request.
    #[tactic(auto, using(crate::proofs::Growing::growth))]
    pub fn append_bits(&mut self, bits: u64, len: usize) -> Result<(), GrowError>
        requires { len ≤ 64 }
        ensures grown { OnOk result (self.new ≡ self.old ++ low_bits bits len) }
        ensures kept { OnErr result (self.new ≡ self.old) }
        ensures too_long { (result ≡ Err GrowError.TooLong) ↔ (MAX_LEN < length self.old + len) }
        ensures none { len ≡ 0 → IsOk result }
        ensures room { 0 < length self.old % 64 → length self.old % 64 + len ≤ 64 → IsOk result }
    {
        if len > MAX_LEN - self.len() {
            return Err(GrowError::TooLong);
        }
        if len == 0 {
            return Ok(());
        }
        self.append_number(low_part(bits, len), len)?;
        Ok(())
    }

    /// Appends the low `len` bits of a number, least significant first. Precondition: `len` is at most 64.
    /// Errors as for `append_bits`.
    pub fn append_bits_unchecked(&mut self, bits: u64, len: usize) -> Result<(), GrowError>
        requires { len ≤ 64 }
        ensures grown { OnOk result (self.new ≡ self.old ++ low_bits bits len) }
        ensures kept { OnErr result (self.new ≡ self.old) }
        ensures too_long { (result ≡ Err GrowError.TooLong) ↔ (MAX_LEN < length self.old + len) }
        ensures none { len ≡ 0 → IsOk result }
        ensures room { 0 < length self.old % 64 → length self.old % 64 + len ≤ 64 → IsOk result }
    {
        self.append_bits(bits, len)
    }

    // Appends the low `n` digits of a number, with zeros above its own. On error some of them may have been
    // appended.
    #[tactic(auto, using(crate::proofs::Growing::growth))]
    pub(super) fn append_digits(&mut self, number: u64, n: usize) -> Result<(), GrowError>
        ensures grown { OnOk result (self.new ≡ self.old ++ low_bits number n) }
        ensures too_long { (result ≡ Err GrowError.TooLong) ↔ (MAX_LEN < length self.old + n) }
    {
        if n <= 64 {
            return self.append_bits(number, n);
        }
        if n > MAX_LEN - self.len() {
            return Err(GrowError::TooLong);
        }
        self.append_bits(number, 64)?;
        self.append_zeros(n - 64)?;
        Ok(())
    }

    // Appends the `n` digits of a number. Precondition: the last limb has room for them.
    #[tactic(auto, using(crate::proofs::Words::words, crate::proofs::Holds::held, crate::proofs::Holds::held_bits, crate::proofs::Growing::add_none))]
    pub(super) fn append_within(&mut self, bits: u64, n: usize)
        requires small { bits < 2 ^ n }
        requires room { n ≤ (64 - length self.old % 64) % 64 }
        ensures { self.new ≡ self.old ++ low_bits bits n }
    {
        if n == 0 {
            return;
        }
        add_within(&mut self.data, self.len, bits, n);
        self.len += n;
    }

    // Appends the `n` digits of a number.
    #[inline(always)]
    #[tactic(auto, using(crate::proofs::Words::words, crate::proofs::Holds::held, crate::proofs::Holds::held_bits))]
    fn append_number(&mut self, number: u64, n: usize) -> Result<(), AllocError>
        requires some { 0 < n }
        requires few { n ≤ 64 }
        requires small { number < 2 ^ n }
        requires short { length self.old + n ≤ MAX_LEN }
        ensures grown { OnOk result (self.new ≡ self.old ++ low_bits number n) }
        ensures kept { OnErr result (self.new ≡ self.old) }
        ensures room { 0 < length self.old % 64 → length self.old % 64 + n ≤ 64 → IsOk result }
    {
        add_bits(&mut self.data, self.len, number, n)?;
        self.len += n;
        Ok(())
    }

    // Appends zeros.
    #[tactic(auto, using(crate::proofs::Words::words, crate::proofs::Holds::held, crate::proofs::Holds::held_bits))]
    fn append_zeros(&mut self, n: usize) -> Result<(), AllocError>
        requires { length self.old + n ≤ MAX_LEN }
        ensures { OnOk result (self.new ≡ self.old ++ replicate n false) }
    {
        add_zeros(&mut self.data, self.len, n)?;
        self.len += n;
        Ok(())
    }

    /// Appends the 64 bits of a number, least significant first. Errors as for `append_bits`.
    #[inline(always)]
    #[tactic(auto, using(crate::proofs::Growing::growth))]
    pub fn append_word(&mut self, word: u64) -> Result<(), GrowError>
        ensures grown { OnOk result (self.new ≡ self.old ++ low_bits word 64) }
        ensures kept { OnErr result (self.new ≡ self.old) }
        ensures too_long { (result ≡ Err GrowError.TooLong) ↔ (MAX_LEN < length self.old + 64) }
    {
        if self.len() > MAX_LEN - 64 {
            return Err(GrowError::TooLong);
        }
        self.append_number(word, 64)?;
        Ok(())
    }

    /// Appends the lowest bit of a number. Errors as for `append`.
    pub fn append_bit_u8(&mut self, number: u8) -> Result<(), GrowError>
        ensures grown { OnOk result (self.new ≡ self.old ++ (number % 2 == 1) ∷ []) }
        ensures kept { OnErr result (self.new ≡ self.old) }
        ensures too_long { (result ≡ Err GrowError.TooLong) ↔ (length self.old ≡ MAX_LEN) }
        ensures room { 0 < length self.old % 64 → IsOk result }
    {
        self.append_bit(u64::from(number))
    }

    /// Appends the lowest bit of a number. Errors as for `append`.
    pub fn append_bit_u16(&mut self, number: u16) -> Result<(), GrowError>
        ensures grown { OnOk result (self.new ≡ self.old ++ (number % 2 == 1) ∷ []) }
        ensures kept { OnErr result (self.new ≡ self.old) }
        ensures too_long { (result ≡ Err GrowError.TooLong) ↔ (length self.old ≡ MAX_LEN) }
        ensures room { 0 < length self.old % 64 → IsOk result }
    {
        self.append_bit(u64::from(number))
    }

    /// Appends the lowest bit of a number. Errors as for `append`.
    pub fn append_bit_u32(&mut self, number: u32) -> Result<(), GrowError>
        ensures grown { OnOk result (self.new ≡ self.old ++ (number % 2 == 1) ∷ []) }
        ensures kept { OnErr result (self.new ≡ self.old) }
        ensures too_long { (result ≡ Err GrowError.TooLong) ↔ (length self.old ≡ MAX_LEN) }
        ensures room { 0 < length self.old % 64 → IsOk result }
    {
        self.append_bit(u64::from(number))
    }

    // Appends the bits of another list from position `start`. On error some of them may have been appended.
    #[inline(always)]
    fn append_from(&mut self, other: &BitVec<A>, start: usize) -> Result<(), GrowError>
        requires start { start ≤ length other.now }
        requires short { length self.old + (length other.now - start) ≤ MAX_LEN }
        ensures grown { OnOk result (self.new ≡ self.old ++ drop start other.now) }
        ensures begun { OnErr result (take (length self.old) self.new ≡ self.old) }
    {
        let added = other.len() - start;
        self.reserve(added)?;
        for k in 0..added / 64 {
            self.append_number(other.get_bits_unchecked(start + 64 * k, 64), 64)?;
        }
        let rest = added % 64;
        self.append_bits(other.get_bits_unchecked(start + (added - rest), rest), rest)
    }

    // Appends the bits of another list from position `start`. Inlined: for an empty list, or from position 0,
    // the compiler drops one of the two shifts of a limb.
    #[inline(always)]
    pub(super) fn extend_from(&mut self, other: &BitVec<A>, start: usize) -> Result<(), GrowError>
        requires { start ≤ length other.now }
        ensures grown { OnOk result (self.new ≡ self.old ++ drop start other.now) }
        ensures kept { OnErr result (self.new ≡ self.old) }
        ensures too_long { (result ≡ Err GrowError.TooLong)
            ↔ (MAX_LEN < length self.old + (length other.now - start)) }
    {
        let len = self.len();
        if other.len() - start > MAX_LEN - len {
            return Err(GrowError::TooLong);
        }
        if self.append_from(other, start).is_err() {
            self.truncate(len);
            return Err(GrowError::Memory);
        }
        Ok(())
    }

    /// Appends all bits of another list. The list is unchanged on error.
    ///
    /// # Errors
    ///
    /// `TooLong` if the list would exceed `MAX_LEN` bits; `Memory` if the allocator refuses a request.
    pub fn extend_bitvec(&mut self, other: &BitVec<A>) -> Result<(), GrowError>
        ensures grown { OnOk result (self.new ≡ self.old ++ other.now) }
        ensures kept { OnErr result (self.new ≡ self.old) }
        ensures too_long { (result ≡ Err GrowError.TooLong)
            ↔ (MAX_LEN < length self.old + length other.now) }
    {
        self.extend_from(other, 0)
    }

    // Appends the remaining lists of an iterator. On error, the iterator has just passed the list that was not
    // appended.
    #[inline(always)]
    fn extend_by<L: AsList<A> + Drop, I: Iterator<Item = L>>(
        &mut self,
        lists: &mut I,
    ) -> Result<(), GrowError>
        requires can { I.can_next lists.old }
        requires ends { IsFinite (I.remaining lists.old) }
        ensures grown { OnOk result ((xs : List L) × YieldsThen I.next_gives lists.old xs None lists.new
            × (self.new ≡ self.old ++ flat_map L.bits xs)) }
        ensures refused { IfErr result (λ e. (xs : List L) × (x : L)
            × YieldsThen I.next_gives lists.old xs (Some x) lists.new
            × (self.new ≡ self.old ++ flat_map L.bits xs)
            × ((e ≡ GrowError.TooLong) ↔ (MAX_LEN < length self.new + length (L.bits x)))) }
    {
        while let Some(list) = lists.next() {
            self.extend_bitvec(list.as_list())?;
        }
        Ok(())
    }

    /// Appends the lists of a finite iterator, in order. On error, the lists before the one that failed stay
    /// appended, and nothing of that one does.
    ///
    /// # Errors
    ///
    /// `TooLong` if the list would exceed `MAX_LEN` bits; `Memory` if the allocator refuses a request.
    pub fn extend<I: Iterator<Item = BitVec<A>> + Drop>(
        &mut self,
        mut lists: I,
    ) -> Result<(), GrowError>
        requires can { I.can_next lists }
        requires ends { IsFinite (I.remaining lists) }
        ensures grown { OnOk result ((xs : List (List Bool)) × Drains I.next_gives lists xs
            × (self.new ≡ self.old ++ flat_map (λ x. x) xs)) }
        ensures refused { IfErr result (λ e. StopsAt I.next_gives lists (λ xs x.
            (self.new ≡ self.old ++ flat_map (λ y. y) xs)
            × ((e ≡ GrowError.TooLong) ↔ (MAX_LEN < length self.new + length x)))) }
    {
        self.extend_by(&mut lists)
    }

    /// Appends the lists of a finite iterator over references, in order. Errors as for `extend`.
    pub fn extend_ref<'a, I: Iterator<Item = &'a BitVec<A>> + Drop>(
        &mut self,
        mut lists: I,
    ) -> Result<(), GrowError>
    where
        A: 'a,
        requires can { I.can_next lists }
        requires ends { IsFinite (I.remaining lists) }
        ensures grown { OnOk result ((xs : List (Bor (List Bool))) × Drains I.next_gives lists xs
            × (self.new ≡ self.old ++ flat_map (λ x. x.now) xs)) }
        ensures refused { IfErr result (λ e. StopsAt I.next_gives lists (λ xs x.
            (self.new ≡ self.old ++ flat_map (λ y. y.now) xs)
            × ((e ≡ GrowError.TooLong) ↔ (MAX_LEN < length self.new + length x.now)))) }
    {
        self.extend_by(&mut lists)
    }

    // Reserves room for `added` more bits.
    #[tactic(auto, using(crate::proofs::Words::words))]
    fn reserve(&mut self, added: usize) -> Result<(), AllocError>
        requires { length self.old + added ≤ MAX_LEN }
        ensures { self.new ≡ self.old }
    {
        let words = (self.len() + added).div_ceil(64);
        self.data.reserve(words - self.data.len())
    }
}
