//! Two lists of bits of the same length, combined through a function on their limbs.
ghost use Rattle.std.specs.Prelude.{◌≡◌, ℕ, ◌+◌, ◌-◌, ◌*◌, ◌/◌, ◌%◌, ◌^◌, ◌<◌, ◌≤◌, ◌||◌, ◌&&◌, true, false, min, length, take, drop, option_map, slice_get, slice_index, slice_index_or, IfOk, bit_or, bit_and, bit_xor};
ghost use Rattle.vers_bits.specs.inside.Kinds.{limb_op};
ghost use Rattle.vers_bits.specs.Bits.{bit_value, number, count, limb, part, part_number, masked};
ghost use Rattle.vers_bits.specs.Masks.{OnEveryPair, AnswersAs, OfBoth, OfMasked, OfOneLength, Applied, zip_bits, xor};

use crate::bit_vec::words::{cut, low_part};
use crate::bit_vec::{BitVec, LengthMismatch};
use std::alloc::{AllocError, Allocator};
use std::marker::Model;

/// Two lists of the same length and a closure on their limbs. Bit `p` is bit `p % 64` of what the closure
/// returns for both limbs `p / 64`. Contracts see both lists and the closure. They describe a result for each
/// definition `g` that the closure follows, through the list `masked g`.
#[derive(Drop)]
pub struct MaskedBitVec<'a, 'b, F, A: Allocator + Copy> {
    left: &'a BitVec<A>,
    right: &'b BitVec<A>,
    mask: F,
}

impl<'a, 'b, F, A: Allocator + Copy> Model for MaskedBitVec<'a, 'b, F, A> {
    ghost use Rattle.std.specs.Prelude.{◌≡◌, length};
    ghost use Rattle.vers_bits.specs.Masks.{Masking};

    ghost Value = { Masking F };

    ghost view = { λ m. record { left = m.left.now; right = m.right.now; mask = m.mask } };

    ghost invariant = { λ m. length m.left.now ≡ length m.right.now };
}

impl<'a, 'b, F: Fn(u64, u64) -> u64, A: Allocator + Copy> MaskedBitVec<'a, 'b, F, A> {
    // Returns what the closure returns for both limbs `k`.
    fn answer(&self, k: usize) -> u64
        requires may_call { OnEveryPair (F.pre self.now.mask) }
        requires within { 64 * k < length self.now.left }
        ensures { (g : ℕ → ℕ → ℕ) → AnswersAs (F.post self.now.mask) g
            → result ≡ g (limb self.now.left k) (limb self.now.right k) }
    {
        let mine = self.left.limb(k);
        let theirs = self.right.limb(k);
        (self.mask)(mine, theirs)
    }

    // Returns limb `k` of the masked list, with zeros past the length.
    #[tactic(auto, using(crate::proofs::Masks::limbs))]
    fn limb(&self, k: usize) -> u64
        requires may_call { OnEveryPair (F.pre self.now.mask) }
        requires within { 64 * k < length self.now.left }
        ensures value { OfMasked (F.post self.now.mask) self.now (λ bits. result ≡ limb bits k) }
        ensures short { result < 2 ^ min (length self.now.left - 64 * k) 64 }
    {
        let rest = self.left.len() - 64 * k;
        low_part(self.answer(k), rest.min(64))
    }

    // Returns the number of ones in limb `k` of the masked list.
    #[tactic(auto, using(crate::proofs::Masks::limbs, crate::proofs::Masks::counts))]
    fn ones_of_limb(&self, k: usize) -> u64
        requires may_call { OnEveryPair (F.pre self.now.mask) }
        requires within { 64 * k < length self.now.left }
        ensures value { OfMasked (F.post self.now.mask) self.now
            (λ bits. count true bits (64 * k) + result ≡ count true bits (64 * k + 64)) }
        ensures few { result ≤ 64 }
        ensures inside { 64 * k + result ≤ length self.now.left }
    {
        self.limb(k).count_ones() as u64
    }

    // Returns the `n` bits from `position` as a number. Precondition: they are in one limb.
    #[tactic(auto, using(crate::proofs::Masks::parts))]
    fn part(&self, position: usize, n: usize) -> u64
        requires may_call { OnEveryPair (F.pre self.now.mask) }
        requires some { 0 < n }
        requires one_limb { position % 64 + n ≤ 64 }
        requires within { position + n ≤ length self.now.left }
        ensures { OfMasked (F.post self.now.mask) self.now (λ bits.
            result ≡ number (part bits position n)) }
    {
        (self.limb(position / 64) >> (position % 64)) & (u64::MAX >> (64 - n))
    }

    /// Returns true if the bit at `position` is a one, or `None` if `position` is out of bounds.
    #[tactic(auto, using(crate::proofs::Masks::positions))]
    pub fn is_bit_set(&self, position: usize) -> Option<bool>
        requires { OnEveryPair (F.pre self.now.mask) }
        ensures { OfMasked (F.post self.now.mask) self.now (λ bits. result ≡ slice_get bits position) }
    {
        if position >= self.left.len() {
            return None;
        }
        Some(self.is_bit_set_unchecked(position))
    }

    /// Returns the bit at `position`, 1 or 0, or `None` if `position` is out of bounds.
    #[tactic(auto, using(crate::proofs::Masks::positions))]
    pub fn get(&self, position: usize) -> Option<u64>
        requires { OnEveryPair (F.pre self.now.mask) }
        ensures { OfMasked (F.post self.now.mask) self.now
            (λ bits. result ≡ option_map bit_value (slice_get bits position)) }
    {
        if position >= self.left.len() {
            return None;
        }
        Some(self.get_unchecked(position))
    }

    /// Returns true if the bit at `position` is a one. Precondition: `position` is below the length.
    #[tactic(auto, using(crate::proofs::Masks::reads))]
    pub fn is_bit_set_unchecked(&self, position: usize) -> bool
        requires may_call { OnEveryPair (F.pre self.now.mask) }
        requires within { position < length self.now.left }
        ensures { OfMasked (F.post self.now.mask) self.now
            (λ bits. result ≡ slice_index_or bits position false) }
    {
        (self.answer(position / 64) >> (position % 64)) & 1 == 1
    }

    /// Returns the bit at `position`, 1 or 0. Precondition: `position` is below the length.
    #[tactic(auto, using(crate::proofs::Masks::reads))]
    pub fn get_unchecked(&self, position: usize) -> u64
        requires may_call { OnEveryPair (F.pre self.now.mask) }
        requires within { position < length self.now.left }
        ensures { OfMasked (F.post self.now.mask) self.now
            (λ bits. result ≡ bit_value (slice_index_or bits position false)) }
    {
        u64::from(self.is_bit_set_unchecked(position))
    }

    /// Returns the `n` bits from `position` on as a number. `None` if there are fewer, or `n` is 0 or above
    /// 64.
    #[tactic(auto, using(crate::proofs::Masks::parts))]
    pub fn get_bits(&self, position: usize, n: usize) -> Option<u64>
        requires { OnEveryPair (F.pre self.now.mask) }
        ensures { OfMasked (F.post self.now.mask) self.now (λ bits.
            result ≡ part_number bits position n) }
    {
        let len = self.left.len();
        if n == 0 || n > 64 || position > len || n > len - position {
            return None;
        }
        Some(self.get_bits_unchecked(position, n))
    }

    /// Returns the `n` bits from `position` on as a number: 0 if `n` is 0. Precondition: `n` is at most 64,
    /// and `position + n` at most the length.
    #[tactic(auto, using(crate::proofs::Masks::parts))]
    pub fn get_bits_unchecked(&self, position: usize, n: usize) -> u64
        requires may_call { OnEveryPair (F.pre self.now.mask) }
        requires few { n ≤ 64 }
        requires within { position + n ≤ length self.now.left }
        ensures { OfMasked (F.post self.now.mask) self.now (λ bits.
            result ≡ number (part bits position n)) }
    {
        let len = self.left.len();
        if n == 0 || position >= len {
            return 0;
        }
        let room = 64 - position % 64;
        if n <= room {
            return self.part(position, n);
        }
        self.part(position, room) | (self.part(position + room, n - room) << room)
    }

    /// Returns the number of ones.
    #[tactic(auto, using(crate::proofs::Masks::counts))]
    pub fn count_ones(&self) -> u64
        requires { OnEveryPair (F.pre self.now.mask) }
        ensures value { OfMasked (F.post self.now.mask) self.now
            (λ bits. result ≡ count true bits (length self.now.left)) }
        ensures few { result ≤ length self.now.left }
    {
        let mut ones: u64 = 0;
        for k in 0..self.left.len().div_ceil(64) {
            ones += self.ones_of_limb(k);
        }
        ones
    }

    /// Returns the number of zeros.
    #[tactic(auto, using(crate::proofs::Masks::counts))]
    pub fn count_zeros(&self) -> u64
        requires { OnEveryPair (F.pre self.now.mask) }
        ensures { OfMasked (F.post self.now.mask) self.now
            (λ bits. result ≡ count false bits (length self.now.left)) }
    {
        self.left.len() as u64 - self.count_ones()
    }

    /// Returns a new list of the bits. Errors: `AllocError` if the allocator refuses a request.
    pub fn to_bit_vec(&self) -> Result<BitVec<A>, AllocError>
        requires { OnEveryPair (F.pre self.now.mask) }
        ensures { IfOk result (λ v. OfMasked (F.post self.now.mask) self.now (λ bits. v ≡ bits)) }
    {
        let mut bits = self.left.clone()?;
        bits.combine(self.right, &self.mask);
        Ok(bits)
    }
}

impl<A: Allocator + Copy> BitVec<A> {
    // Replaces each limb by what a closure returns for both limbs, and clears the bits past the length.
    #[tactic(auto, using(crate::proofs::Words::words, crate::proofs::Masks::combines))]
    fn combine<F: Fn(u64, u64) -> u64>(&mut self, other: &BitVec<A>, mask: &F)
        requires same { length self.old ≡ length other.now }
        requires may_call { OnEveryPair (F.pre mask.now) }
        ensures { OfBoth (F.post mask.now) self.old other.now (λ bits. self.new ≡ bits) }
    {
        combine_words(&mut self.data, other.limbs(), mask);
        cut(&mut self.data, self.len);
    }

    /// Returns both lists combined through a closure on their limbs. Precondition: the closure may be called on
    /// every pair of limbs. Errors: `LengthMismatch` if their lengths differ.
    pub fn mask_custom<'a, 'b, F: Fn(u64, u64) -> u64 + Drop>(
        &'a self,
        other: &'b BitVec<A>,
        mask: F,
    ) -> Result<MaskedBitVec<'a, 'b, F, A>, LengthMismatch>
        requires { OnEveryPair (F.pre mask) }
        ensures { OfOneLength result self.now other.now
            (λ m. (m.left ≡ self.now) × (m.right ≡ other.now) × (m.mask ≡ mask)) }
    {
        if self.len() != other.len() {
            return Err(LengthMismatch);
        }
        Ok(MaskedBitVec {
            left: self,
            right: other,
            mask,
        })
    }
}

/// How two limbs are combined.
#[derive(Clone, Copy, Drop)]
enum MaskKind {
    Or,
    And,
    Xor,
}

impl MaskKind {
    fn combine(self, x: u64, y: u64) -> u64
        ensures { result ≡ limb_op self x y }
    {
        match self {
            MaskKind::Or => x | y,
            MaskKind::And => x & y,
            MaskKind::Xor => x ^ y,
        }
    }
}

/// Two lists of the same length combined bit by bit, by or, and or xor. Contracts see the list of the bits.
#[derive(Drop)]
pub struct BitMask<'s, 'b, A: Allocator + Copy> {
    left: &'s BitVec<A>,
    right: &'b BitVec<A>,
    kind: MaskKind,
}

impl<'s, 'b, A: Allocator + Copy> Model for BitMask<'s, 'b, A> {
    ghost use Rattle.std.specs.Prelude.{◌≡◌, length, List, Bool};
    ghost use Rattle.vers_bits.specs.Bits.{masked};

    ghost Value = { List Bool };

    ghost use Rattle.vers_bits.specs.inside.Kinds.{limb_op};

    ghost view = { λ m. masked (limb_op m.kind) m.left.now m.right.now };

    ghost invariant = { λ m. length m.left.now ≡ length m.right.now };
}

impl<'s, 'b, A: Allocator + Copy> BitMask<'s, 'b, A> {
    /// Returns true if the bit at `position` is a one, or `None` if `position` is out of bounds.
    #[tactic(auto, using(crate::proofs::Masks::lengths))]
    pub fn is_bit_set(&self, position: usize) -> Option<bool>
        ensures { result ≡ slice_get self.now position }
    {
        let kind = self.kind;
        MaskedBitVec {
            left: self.left,
            right: self.right,
            mask: |x: u64, y: u64| kind.combine(x, y),
        }
        .is_bit_set(position)
    }

    /// Returns the bit at `position`, 1 or 0, or `None` if `position` is out of bounds.
    #[tactic(auto, using(crate::proofs::Masks::lengths))]
    pub fn get(&self, position: usize) -> Option<u64>
        ensures { result ≡ option_map bit_value (slice_get self.now position) }
    {
        let kind = self.kind;
        MaskedBitVec {
            left: self.left,
            right: self.right,
            mask: |x: u64, y: u64| kind.combine(x, y),
        }
        .get(position)
    }

    /// Returns true if the bit at `position` is a one. Precondition: `position` is below the length.
    #[tactic(auto, using(crate::proofs::Masks::lengths))]
    pub fn is_bit_set_unchecked(&self, position: usize) -> bool
        requires { position < length self.now }
        ensures { result ≡ slice_index_or self.now position false }
    {
        let kind = self.kind;
        MaskedBitVec {
            left: self.left,
            right: self.right,
            mask: |x: u64, y: u64| kind.combine(x, y),
        }
        .is_bit_set_unchecked(position)
    }

    /// Returns the bit at `position`, 1 or 0. Precondition: `position` is below the length.
    #[tactic(auto, using(crate::proofs::Masks::lengths))]
    pub fn get_unchecked(&self, position: usize) -> u64
        requires { position < length self.now }
        ensures { result ≡ bit_value (slice_index_or self.now position false) }
    {
        let kind = self.kind;
        MaskedBitVec {
            left: self.left,
            right: self.right,
            mask: |x: u64, y: u64| kind.combine(x, y),
        }
        .get_unchecked(position)
    }

    /// Returns the `n` bits from `position` on as a number. `None` if there are fewer, or `n` is 0 or above
    /// 64.
    #[tactic(auto, using(crate::proofs::Masks::lengths))]
    pub fn get_bits(&self, position: usize, n: usize) -> Option<u64>
        ensures { result ≡ part_number self.now position n }
    {
        let kind = self.kind;
        MaskedBitVec {
            left: self.left,
            right: self.right,
            mask: |x: u64, y: u64| kind.combine(x, y),
        }
        .get_bits(position, n)
    }

    /// Returns the `n` bits from `position` on as a number: 0 if `n` is 0. Precondition: `n` is at most 64,
    /// and `position + n` at most the length.
    #[tactic(auto, using(crate::proofs::Masks::lengths))]
    pub fn get_bits_unchecked(&self, position: usize, n: usize) -> u64
        requires few { n ≤ 64 }
        requires within { position + n ≤ length self.now }
        ensures { result ≡ number (part self.now position n) }
    {
        let kind = self.kind;
        MaskedBitVec {
            left: self.left,
            right: self.right,
            mask: |x: u64, y: u64| kind.combine(x, y),
        }
        .get_bits_unchecked(position, n)
    }

    /// Returns the number of ones.
    #[tactic(auto, using(crate::proofs::Masks::lengths))]
    pub fn count_ones(&self) -> u64
        ensures { result ≡ count true self.now (length self.now) }
    {
        let kind = self.kind;
        MaskedBitVec {
            left: self.left,
            right: self.right,
            mask: |x: u64, y: u64| kind.combine(x, y),
        }
        .count_ones()
    }

    /// Returns the number of zeros.
    #[tactic(auto, using(crate::proofs::Masks::lengths))]
    pub fn count_zeros(&self) -> u64
        ensures { result ≡ count false self.now (length self.now) }
    {
        let kind = self.kind;
        MaskedBitVec {
            left: self.left,
            right: self.right,
            mask: |x: u64, y: u64| kind.combine(x, y),
        }
        .count_zeros()
    }

    /// Returns a new list of the bits. Errors: `AllocError` if the allocator refuses a request.
    #[tactic(auto, using(crate::proofs::Masks::lengths))]
    pub fn to_bit_vec(&self) -> Result<BitVec<A>, AllocError>
        ensures { IfOk result (λ v. v ≡ self.now) }
    {
        let kind = self.kind;
        MaskedBitVec {
            left: self.left,
            right: self.right,
            mask: |x: u64, y: u64| kind.combine(x, y),
        }
        .to_bit_vec()
    }

    /// Returns the same mask. Allocates nothing.
    pub fn clone(&self) -> Self
        ensures { result ≡ self.now }
    {
        BitMask {
            left: self.left,
            right: self.right,
            kind: self.kind,
        }
    }
}

impl<A: Allocator + Copy> BitVec<A> {
    // Returns both lists combined by a kind of mask.
    #[tactic(auto, using(crate::proofs::Masks::lengths))]
    fn mask_by<'s, 'b>(
        &'s self,
        other: &'b BitVec<A>,
        kind: MaskKind,
    ) -> Result<BitMask<'s, 'b, A>, LengthMismatch>
        ensures masked { OfOneLength result self.now other.now
            (λ m. m ≡ masked (limb_op kind) self.now other.now) }
        ensures long { IfOk result (λ m. length m ≡ length self.now) }
    {
        if self.len() != other.len() {
            return Err(LengthMismatch);
        }
        Ok(BitMask {
            left: self,
            right: other,
            kind,
        })
    }

    /// Returns the bitwise or of both lists. Errors: `LengthMismatch` if their lengths differ.
    #[tactic(auto, using(crate::proofs::Zips::zips))]
    pub fn mask_or<'s, 'b>(
        &'s self,
        other: &'b BitVec<A>,
    ) -> Result<BitMask<'s, 'b, A>, LengthMismatch>
        ensures masked { OfOneLength result self.now other.now
            (λ m. m ≡ zip_bits (λ x y. x || y) self.now other.now) }
        ensures long { IfOk result (λ m. length m ≡ length self.now) }
    {
        self.mask_by(other, MaskKind::Or)
    }

    /// Returns the bitwise and of both lists. Errors: `LengthMismatch` if their lengths differ.
    #[tactic(auto, using(crate::proofs::Zips::zips))]
    pub fn mask_and<'s, 'b>(
        &'s self,
        other: &'b BitVec<A>,
    ) -> Result<BitMask<'s, 'b, A>, LengthMismatch>
        ensures masked { OfOneLength result self.now other.now
            (λ m. m ≡ zip_bits (λ x y. x && y) self.now other.now) }
        ensures long { IfOk result (λ m. length m ≡ length self.now) }
    {
        self.mask_by(other, MaskKind::And)
    }

    /// Returns the bitwise xor of both lists. Errors: `LengthMismatch` if their lengths differ.
    #[tactic(auto, using(crate::proofs::Zips::zips))]
    pub fn mask_xor<'s, 'b>(
        &'s self,
        other: &'b BitVec<A>,
    ) -> Result<BitMask<'s, 'b, A>, LengthMismatch>
        ensures masked { OfOneLength result self.now other.now (λ m.
            m ≡ zip_bits xor self.now other.now) }
        ensures long { IfOk result (λ m. length m ≡ length self.now) }
    {
        self.mask_by(other, MaskKind::Xor)
    }

    // Replaces each limb by what a closure returns for both limbs, and clears the bits past the length. Errors:
    // `LengthMismatch` if the lengths differ; the list is then unchanged.
    fn apply<F: Fn(u64, u64) -> u64>(
        &mut self,
        other: &BitVec<A>,
        mask: &F,
    ) -> Result<(), LengthMismatch>
        requires { OnEveryPair (F.pre mask.now) }
        ensures { Applied result self.old self.new other.now
            (OfBoth (F.post mask.now) self.old other.now (λ bits. self.new ≡ bits)) }
    {
        if self.len() != other.len() {
            return Err(LengthMismatch);
        }
        self.combine(other, mask);
        Ok(())
    }

    /// Replaces the list by its bitwise or with the other. Errors: `LengthMismatch` if their lengths differ;
    /// the list is then unchanged.
    #[tactic(auto, using(crate::proofs::Zips::zips))]
    pub fn apply_mask_or(&mut self, other: &BitVec<A>) -> Result<(), LengthMismatch>
        ensures { Applied result self.old self.new other.now
            (self.new ≡ zip_bits (λ x y. x || y) self.old other.now) }
    {
        self.apply(other, &|x: u64, y: u64| x | y)
    }

    /// Replaces the list by its bitwise and with the other. Errors: `LengthMismatch` if their lengths differ;
    /// the list is then unchanged.
    #[tactic(auto, using(crate::proofs::Zips::zips))]
    pub fn apply_mask_and(&mut self, other: &BitVec<A>) -> Result<(), LengthMismatch>
        ensures { Applied result self.old self.new other.now
            (self.new ≡ zip_bits (λ x y. x && y) self.old other.now) }
    {
        self.apply(other, &|x: u64, y: u64| x & y)
    }

    /// Replaces the list by its bitwise xor with the other. Errors: `LengthMismatch` if their lengths differ;
    /// the list is then unchanged.
    #[tactic(auto, using(crate::proofs::Zips::zips))]
    pub fn apply_mask_xor(&mut self, other: &BitVec<A>) -> Result<(), LengthMismatch>
        ensures { Applied result self.old self.new other.now (self.new
            ≡ zip_bits xor self.old other.now) }
    {
        self.apply(other, &|x: u64, y: u64| x ^ y)
    }

    /// Replaces each limb by what a function returns for both limbs, and clears the bits past the length.
    /// Precondition: the function may be called on every pair of limbs. Errors: `LengthMismatch` if the lengths
    /// differ; the list is then unchanged.
    pub fn apply_mask_custom(
        &mut self,
        other: &BitVec<A>,
        mask: fn(u64, u64) -> u64,
    ) -> Result<(), LengthMismatch>
        requires { OnEveryPair (pre mask) }
        ensures { Applied result self.old self.new other.now
            (OfBoth (post mask) self.old other.now (λ bits. self.new ≡ bits)) }
    {
        self.apply(other, &mask)
    }
}

// Replaces each word by what a closure returns for it and the other slice's word at its position.
fn combine_words<F: Fn(u64, u64) -> u64, A: Allocator + Copy>(
    words: &mut Vec<u64, A>,
    others: &[u64],
    mask: &F,
)
    requires same { length words.old.items ≡ length others.now }
    requires may_call { OnEveryPair (F.pre mask.now) }
    ensures value { (g : ℕ → ℕ → ℕ) → AnswersAs (F.post mask.now) g → (k : ℕ) → k < length words.old.items
        → slice_index words.new.items k
        ≡ g (slice_index words.old.items k) (slice_index others.now k) }
    ensures long { length words.new.items ≡ length words.old.items }
    ensures fit { (k : ℕ) → slice_index words.old.items k < 2 ^ 64 }
{
    for k in 0..others.len() {
        let mine = words[k];
        words[k] = mask(mine, others[k]);
    }
}
