//! The parts of an ascending list, and a test of whether parts are those of one.
ghost use Rattle.std.specs.Prelude.{◌≡◌, ◌+◌, ◌-◌, ◌*◌, ◌/◌, ◌^◌, ◌<◌, ◌≤◌, ℕ, Bool, List, IsTrue, false, nat_lt, true, length, IfOk, IfSome, None, ◌↔◌};
ghost use Rattle.std.specs.List.Sorted.{IsNonDecreasing};
ghost use Rattle.vers_bits.specs.Bits.{bit_value, count, limb, number, part, select};
ghost use Rattle.vers_sorted.specs.Layout.{ArePartsOf, first_of, high_count, high_parts, last_of, low_count, low_parts, width};
ghost use Rattle.vers_sorted.specs.Sorted.{each_next, order_of};
ghost use Rattle.vers_sorted.specs.inside.Decoding.{AreDecodable, AreReadAhead, HasRead, IsNear, StepsUp, above, position_ahead};

use super::EliasFanoVec;
use super::make::width_of;
use std::alloc::{AllocError, Allocator};
use vers_bits::bit_vec::{BitVec, MAX_LEN as MOST_BITS};
use vers_rank::fast_rs_vec::RsVec;
use vers_tally::tally::{CountedBits, Uncounted};

/// Bits that are read by limbs.
pub trait Limbs {
    // The bits.
    ghost bits: { Self → List Bool };

    /// Returns the number of bits.
    fn len(&self) -> usize
        ensures value { result ≡ length (bits self.now) }
        ensures bounded { result ≤ MOST_BITS };

    /// Returns limb `k`. Precondition: limb `k` contains at least one bit.
    fn limb(&self, k: usize) -> u64
        requires { 64 * k < length (bits self.now) }
        ensures { result ≡ limb (bits self.now) k };
}

impl<A: Allocator + Copy> Limbs for BitVec<A> {
    ghost bits = { λ bits. bits };

    #[inline]
    fn len(&self) -> usize {
        self.len()
    }

    #[inline]
    fn limb(&self, k: usize) -> u64 {
        self.limb(k)
    }
}

/// The length of a list, and its first and last element, or 0 if there are none.
#[derive(Clone, Copy, PartialEq, Eq, Debug, Drop)]
pub struct Ends {
    /// The number of elements.
    pub len: usize,
    /// The first element.
    pub first: u64,
    /// The last element.
    pub last: u64,
}

/// The numbers of bits of the low and of the high parts of a list.
#[derive(Clone, Copy, PartialEq, Eq, Debug, Drop)]
pub struct PartLengths {
    /// The number of bits of the low parts.
    pub low: usize,
    /// The number of bits of the high parts.
    pub high: usize,
}

impl Ends {
    // Returns the distance of the last element from the first.
    #[inline]
    fn span(&self) -> u64
        ensures { result ≡ self.now.last - self.now.first }
    {
        self.last.saturating_sub(self.first)
    }

    /// Returns the numbers of bits of the parts of such a list. `None` if one of them exceeds `MAX_LEN` of bit
    /// vectors.
    pub fn part_lengths(&self) -> Option<PartLengths>
        ensures low { IfSome result (λ l. l.low ≡ low_count self.now.len (self.now.last - self.now.first)) }
        ensures high { IfSome result (λ l. l.high ≡ high_count self.now.len (self.now.last - self.now.first)) }
        ensures none { result ≡ None
            → low_count self.now.len (self.now.last - self.now.first) ≤ MOST_BITS
            → high_count self.now.len (self.now.last - self.now.first) ≤ MOST_BITS → ⊥ }
    {
        if self.len == 0 {
            return Some(PartLengths { low: 0, high: 0 });
        }
        let span = self.span();
        let width = width_of(self.len, span);
        let low = self.len.checked_mul(width)?;
        let high = self.len.checked_add((span >> width) as usize)?;
        let high = high.checked_add(2)?;
        Some(PartLengths { low, high })
    }
}

// Returns limb `k`, or 0 if it contains no bit.
#[inline(always)]
#[tactic(auto, using(crate::proofs::Decoding::words))]
fn limb_or_zero<L: Limbs>(bits: &L, k: usize) -> u64
    ensures { result ≡ limb (L.bits bits.now) k }
{
    if k < bits.len().div_ceil(64) {
        bits.limb(k)
    } else {
        0
    }
}

// Bits of a list that were read ahead, as a number: the last `len` of the first `limbs` limbs.
#[derive(Clone, Copy, Drop)]
struct Bits {
    limbs: usize,
    len: usize,
    word: u64,
}

// Returns the next `width` bits. Reads one more limb if fewer were read ahead.
#[inline(always)]
#[tactic(auto, using(crate::proofs::Decoding::parts))]
fn next_part<L: Limbs>(low: &L, width: usize, bits: &mut Bits) -> u64
    requires narrow { width < 64 }
    requires within { position_ahead bits.old + width ≤ length (L.bits low.now) }
    requires read { AreReadAhead (L.bits low.now) bits.old }
    ensures value { result ≡ number (part (L.bits low.now) (position_ahead bits.old) width) }
    ensures small { result < 2 ^ width }
    ensures position { position_ahead bits.new ≡ position_ahead bits.old + width }
    ensures read { AreReadAhead (L.bits low.now) bits.new }
{
    let _ = low.len();
    if bits.len >= width {
        let word = bits.word;
        bits.word = word >> width;
        bits.len -= width;
        return word % (1 << width);
    }
    let next = low.limb(bits.limbs);
    let word = bits.word | (next << bits.len);
    *bits = Bits {
        limbs: bits.limbs + 1,
        len: bits.len + 64 - width,
        word: next >> (width - bits.len),
    };
    word % (1 << width)
}

// A walk over the elements of a list: what was read ahead of their low parts, the position of the one of the last
// element, and the least low part that the next element may have if its one is at the next position.
#[derive(Clone, Copy, Drop)]
struct Walk {
    lows: Bits,
    position: usize,
    least: u64,
}

impl Walk {
    // Returns a walk before the first element.
    fn new() -> Walk
        ensures { result ≡ record { lows = record { limbs = 0; len = 0; word = 0 }; position = 0; least = 0 } }
    {
        let lows = Bits {
            limbs: 0,
            len: 0,
            word: 0,
        };
        Walk {
            lows,
            position: 0,
            least: 0,
        }
    }
}

// Reads the low part of the next element, whose one is at `position`. Returns true if it may follow the last one.
#[inline(always)]
fn read_element<L: Limbs, const RISING: bool>(
    low: &L,
    width: usize,
    position: usize,
    walk: &mut Walk,
) -> bool
    requires narrow { width < 64 }
    requires within { position_ahead walk.old.lows + width ≤ length (L.bits low.now) }
    requires read { AreReadAhead (L.bits low.now) walk.old.lows }
    requires near { walk.old.position ≤ MOST_BITS }
    ensures follows { let low_part = number (part (L.bits low.now) (position_ahead walk.old.lows) width) in
        result ≡ nat_lt (walk.old.position + bit_value (nat_lt low_part walk.old.least)) position }
    ensures position { walk.new.position ≡ position }
    ensures least { walk.new.least
        ≡ number (part (L.bits low.now) (position_ahead walk.old.lows) width) + bit_value RISING }
    ensures part { position_ahead walk.new.lows ≡ position_ahead walk.old.lows + width }
    ensures read { AreReadAhead (L.bits low.now) walk.new.lows }
{
    let part = next_part(low, width, &mut walk.lows);
    let past = walk.position + usize::from(part < walk.least);
    walk.position = position;
    walk.least = part + u64::from(RISING);
    past < position
}

// Reads the elements whose ones are in limb `k` of the high parts. Returns true if each may follow the one before it.
#[inline(always)]
fn read_limb<L: Limbs, H: Limbs, const RISING: bool>(
    low: &L,
    high: &H,
    width: usize,
    k: usize,
    walk: &mut Walk,
) -> bool
    requires narrow { width < 64 }
    requires low { length (L.bits low.now)
        ≡ count true (H.bits high.now) (length (H.bits high.now)) * width }
    requires within { 64 * k < length (H.bits high.now) }
    requires read { HasRead RISING (H.bits high.now) (L.bits low.now) width
        (count true (H.bits high.now) (64 * k)) walk.old }
    ensures yes { result ≡ true → HasRead RISING (H.bits high.now) (L.bits low.now) width
        (count true (H.bits high.now) (64 * (k + 1))) walk.new }
    ensures no { result ≡ false → ((i : ℕ) → i < count true (H.bits high.now) (length (H.bits high.now))
        → StepsUp RISING (H.bits high.now) (L.bits low.now) width i) → ⊥ }
{
    let _ = high.len();
    let mut word = high.limb(k);
    while word != 0 {
        let position = 64 * k + word.trailing_zeros() as usize;
        word &= word - 1;
        if !read_element::<L, RISING>(low, width, position, walk) {
            return false;
        }
    }
    true
}

// Returns the number of ones.
#[tactic(auto, using(crate::proofs::Decoding::counts))]
fn count_ones_in<L: Limbs>(bits: &L) -> usize
    ensures { result ≡ count true (L.bits bits.now) (length (L.bits bits.now)) }
{
    let mut ones = 0;
    for k in 0..bits.len().div_ceil(64) {
        ones += bits.limb(k).count_ones() as usize;
    }
    ones
}

// Returns how far an element is above the first, by the position of its one and its low part. `None` if it is too far,
// or there is no zero before that one.
#[inline(always)]
#[tactic(auto, using(crate::proofs::Decoding::joins))]
fn above_of(i: usize, position: usize, low: u64, width: usize, span: u64) -> Option<u64>
    requires narrow { width < 64 }
    requires small { low < 2 ^ width }
    ensures near { IfSome result (λ _. IsNear span width i position) }
    ensures value { IfSome result (λ v. v ≡ 2 ^ width * (position - i - 1) + low) }
    ensures none { result ≡ None → IsNear span width i position → ⊥ }
{
    if position <= i {
        return None;
    }
    let high = (position - i - 1) as u64;
    if high > span >> width {
        return None;
    }
    Some((high << width) | low)
}

// Returns true if element 0 is the first one: its one is at position 1, and its low part is 0.
#[tactic(auto, using(crate::proofs::Decoding::words))]
fn begins_at_first<L: Limbs, H: Limbs>(low: &L, high: &H, width: usize) -> bool
    requires narrow { width < 64 }
    requires some { 0 < count true (H.bits high.now) (length (H.bits high.now)) }
    ensures { IsTrue result ↔ ((select true (H.bits high.now) 0 ≡ 1)
        × (number (part (L.bits low.now) 0 width) ≡ 0)) }
{
    limb_or_zero(high, 0) % 4 == 2 && limb_or_zero(low, 0) % (1 << width) == 0
}

// Returns true if parts with as many bits and ones as a list with these ends has are those of such a list. The loop is
// faster in a function of its own, which isn't inlined.
#[inline(never)]
fn are_decodable<L: Limbs, H: Limbs, const RISING: bool>(
    ends: Ends,
    width: usize,
    low: &L,
    high: &H,
) -> bool
    requires some { 0 < ends.len }
    requires narrow { width < 64 }
    requires low { length (L.bits low.now) ≡ ends.len * width }
    requires ones { count true (H.bits high.now) (length (H.bits high.now)) ≡ ends.len }
    ensures yes { result ≡ true
        → AreDecodable RISING (H.bits high.now) (L.bits low.now) (ends.last - ends.first) width ends.len }
    ensures no { result ≡ false
        → AreDecodable RISING (H.bits high.now) (L.bits low.now) (ends.last - ends.first) width ends.len → ⊥ }
{
    if !begins_at_first(low, high, width) {
        return false;
    }
    let mut walk = Walk::new();
    for k in 0..high.len().div_ceil(64) {
        if !read_limb::<L, H, RISING>(low, high, width, k, &mut walk) {
            return false;
        }
    }
    let part = walk.least - u64::from(RISING);
    let span = ends.span();
    let Some(end) = above_of(ends.len - 1, walk.position, part, width, span) else {
        return false;
    };
    end == span
}

/// Returns true if these are the ends and the parts of a list that ascends, strictly if `rising`. Reads the parts
/// once, and allocates nothing.
pub fn are_parts<L: Limbs, H: Limbs>(ends: Ends, low: &L, high: &H, rising: bool) -> bool
    ensures yes { result ≡ true → (elements : List ℕ) × (each_next (order_of rising) elements ≡ true)
        × ArePartsOf elements ends.len ends.first ends.last (L.bits low.now) (H.bits high.now) }
    ensures no { result ≡ false → (elements : List ℕ) → each_next (order_of rising) elements ≡ true
        → ArePartsOf elements ends.len ends.first ends.last (L.bits low.now) (H.bits high.now) → ⊥ }
{
    let (low_bits, high_bits) = (low.len(), high.len());
    let Some(lengths) = ends.part_lengths() else {
        return false;
    };
    if low_bits != lengths.low || high_bits != lengths.high {
        return false;
    }
    if ends.len == 0 {
        return ends.first == 0 && ends.last == 0;
    }
    if ends.first > ends.last || count_ones_in(high) != ends.len {
        return false;
    }
    let width = width_of(ends.len, ends.span());
    if rising {
        are_decodable::<L, H, true>(ends, width, low, high)
    } else {
        are_decodable::<L, H, false>(ends, width, low, high)
    }
}

#[tactic(auto, using(crate::proofs::Packed::packed))]
impl<A: Allocator + Copy> EliasFanoVec<A> {
    /// Returns the list with these ends and parts. Precondition: there is one, as `are_parts` tests. Errors:
    /// `AllocError` only if the allocator refuses a request.
    pub fn from_parts(ends: Ends, low: BitVec<A>, high: BitVec<A>) -> Result<Self, AllocError>
        requires { (elements : List ℕ) × IsNonDecreasing elements
            × ArePartsOf elements ends.len ends.first ends.last low high }
        ensures parts { IfOk result (λ v. ArePartsOf v ends.len ends.first ends.last low high) }
        ensures ascending { IfOk result (λ v. IsNonDecreasing v) }
    {
        let width = width_of(ends.len, ends.span());
        Ok(EliasFanoVec {
            high: RsVec::from_bit_vec(high)?,
            low: CountedBits::new(low),
            first: ends.first,
            last: ends.last,
            width,
            len: ends.len,
        })
    }

    /// Returns the number of elements, the first and the last.
    pub fn ends(&self) -> Ends
        ensures len { result.len ≡ length self.now }
        ensures first { result.first ≡ first_of self.now }
        ensures last { result.last ≡ last_of self.now }
    {
        Ends {
            len: self.len,
            first: self.first,
            last: self.last,
        }
    }

    /// Returns the low parts of the elements, one after another.
    #[tactic(auto, using(crate::proofs::Chunks::low_same))]
    pub fn low_parts(&self) -> &BitVec<A>
        ensures { result.now ≡ low_parts self.now }
    {
        let _ = &self.len;
        self.low.as_bit_vec(Uncounted)
    }

    /// Returns the high parts of the elements, with their index.
    #[tactic(auto, using(crate::proofs::Packed::high_same))]
    pub fn high_parts(&self) -> &RsVec<A>
        ensures { result.now ≡ high_parts self.now }
    {
        let _ = &self.len;
        &self.high
    }
}
