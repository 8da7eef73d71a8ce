//! The words of ascending lists: their ends, and the limbs of their low and of their high parts.
ghost use Rattle.std.specs.Prelude.{◌≡◌, ◌+◌, ◌-◌, ◌<◌, ◌≤◌, ℕ, Bool, List, IfOk, IfSome, None, drop, false, length, slice_index, take, true};
ghost use Rattle.std.specs.List.Sorted.{IsNonDecreasing};
ghost use Rattle.vers_bits.specs.Bits.{limb, limb_count, limbs};
ghost use Rattle.vers_sorted.specs.Layout.{high_parts, low_parts};
ghost use Rattle.vers_saved.specs.Faults.{are_of_list, are_of_sparse};
ghost use Rattle.vers_saved.specs.Format.{bits_in, sorted_words};
ghost use Rattle.vers_saved.specs.Kinds.{AreWords, EndsPadded};
ghost use Rattle.vers_saved.specs.inside.SortedParts.{AreEndsOf};

use crate::bits::limb_of;
use crate::form::first_bits;
use crate::words::Words;
use std::alloc::{AllocError, Allocator};
use std::marker::Model;
use vers_bits::bit_vec::BitVec;
use vers_rank::fast_rs_vec::RsVec;
use vers_sorted::elias_fano::{EliasFanoVec, Ends, Limbs, PartLengths, are_parts};

/// The number of words before the parts.
pub(crate) const ENDS: usize = 3;

/// A number of words of others, from one of them on.
#[derive(Drop)]
pub(crate) struct Cut<'a, W: Words> {
    words: &'a W,
    from: usize,
    count: usize,
}

impl<'a, W: Words> Model for Cut<'a, W> {
    ghost use Rattle.std.specs.Prelude.{◌+◌, ◌≤◌, List, ℕ, drop, length, take};

    ghost Value = { List ℕ };

    ghost view = { λ c. take c.count (drop c.from (W.words c.words.now)) };

    ghost invariant = { λ c. c.from + c.count ≤ 18446744073709551615 };
}

impl<'a, W: Words> Cut<'a, W> {
    // Returns `count` words from word `from` on.
    pub(crate) fn new(words: &'a W, from: usize, count: usize) -> Self
        requires { from + count ≤ 18446744073709551615 }
        ensures { result ≡ take count (drop from (W.words words.now)) }
    {
        Cut { words, from, count }
    }
}

#[tactic(auto, using(crate::proofs::SortedParts::cuts))]
impl<'a, W: Words> Words for Cut<'a, W> {
    ghost words = { λ c. c };

    #[inline]
    fn word(&self, k: usize) -> u64 {
        self.words.word(self.from + k)
    }
}

/// The words of a slice.
#[derive(Drop)]
pub(crate) struct Listed<'a> {
    words: &'a [u64],
}

impl<'a> Words for Listed<'a> {
    ghost words = { λ l. l.words.now };

    #[inline]
    fn word(&self, k: usize) -> u64 {
        self.words[k]
    }
}

/// The first bits of words from one of them on, the last of which has only zeros past these bits.
#[derive(Drop)]
struct PartBits<'a, W: Words> {
    words: &'a W,
    from: usize,
    bits: usize,
}

impl<'a, W: Words> Model for PartBits<'a, W> {
    ghost use Rattle.std.specs.Prelude.{Bool, List, drop};
    ghost use Rattle.vers_saved.specs.Format.{bits_in};
    ghost use Rattle.vers_saved.specs.inside.SortedParts.{AreBitsIn};

    ghost Value = { List Bool };

    ghost view = { λ p. bits_in p.bits (drop p.from (W.words p.words.now)) };

    ghost invariant = { λ p. AreBitsIn (W.words p.words.now) p.from p.bits };
}

#[tactic(auto, using(crate::proofs::SortedParts::part_bits))]
impl<'a, W: Words> Limbs for PartBits<'a, W> {
    ghost bits = { λ p. p };

    #[inline]
    fn len(&self) -> usize {
        self.bits
    }

    #[inline]
    fn limb(&self, k: usize) -> u64 {
        self.words.word(self.from + k)
    }
}

// Returns the first `bits` bits of words from word `from` on. `None` if the last one has ones past them.
fn bits_at<'a, W: Words>(words: &'a W, from: usize, bits: usize) -> Option<PartBits<'a, W>>
    requires within { from + limb_count bits ≤ length (W.words words.now) }
    requires small { length (W.words words.now) ≤ 288230376151711743 }
    requires fit { AreWords (W.words words.now) }
    ensures some { IfSome result (λ p. p ≡ bits_in bits (drop from (W.words words.now))) }
    ensures padded { IfSome result (λ _. EndsPadded bits (drop from (W.words words.now))) }
    ensures none { result ≡ None → EndsPadded bits (drop from (W.words words.now)) → ⊥ }
{
    if bits % 64 != 0 && words.word(from + bits / 64) >= 1 << (bits % 64) {
        return None;
    }
    Some(PartBits { words, from, bits })
}

// The ends of a list and the numbers of bits of its parts.
#[derive(Clone, Copy, Drop)]
struct PartEnds {
    ends: Ends,
    lengths: PartLengths,
}

// Returns what the first words say. `None` if they are too few or too many for it.
fn ends_of<W: Words>(words: &W, count: usize) -> Option<PartEnds>
    requires count { count ≡ length (W.words words.now) }
    requires small { count ≤ 288230376151711743 }
    ensures some { IfSome result (λ s.
        AreEndsOf (W.words words.now) s.ends.len s.ends.first s.ends.last s.lengths.low s.lengths.high) }
    ensures none { result ≡ None → (s : List ℕ) → W.words words.now ≡ sorted_words s → ⊥ }
{
    if count < ENDS {
        return None;
    }
    let ends = Ends {
        len: words.word(0) as usize,
        first: words.word(1),
        last: words.word(2),
    };
    let lengths = ends.part_lengths()?;
    if count - ENDS != lengths.low.div_ceil(64) + lengths.high.div_ceil(64) {
        return None;
    }
    Some(PartEnds { ends, lengths })
}

// Returns true if these words are those of a list that ascends, strictly if `rising`.
pub(crate) fn are_of_list<W: Words>(words: &W, count: usize, rising: bool) -> bool
    requires count { count ≡ length (W.words words.now) }
    requires small { count ≤ 288230376151711743 }
    requires fit { AreWords (W.words words.now) }
    ensures { result ≡ are_of_list rising (W.words words.now) }
{
    let Some(head) = ends_of(words, count) else {
        return false;
    };
    let Some(low) = bits_at(words, ENDS, head.lengths.low) else {
        return false;
    };
    let from = ENDS + head.lengths.low.div_ceil(64);
    let Some(high) = bits_at(words, from, head.lengths.high) else {
        return false;
    };
    are_parts(head.ends, &low, &high, rising)
}

// Returns true if `n` words from word `from` on are those of a sparse list of bits.
pub(crate) fn are_of_sparse<W: Words>(words: &W, from: usize, n: usize) -> bool
    requires within { from + n ≤ length (W.words words.now) }
    requires few { from ≤ 5 }
    requires small { n ≤ 288230376151711743 }
    requires fit { AreWords (W.words words.now) }
    ensures { result ≡ are_of_sparse (take n (drop from (W.words words.now))) }
{
    if n <= ENDS || !are_of_list(&Cut::new(words, from + 1, n - 1), n - 1, true) {
        return false;
    }
    let (len, count, last) = (words.word(from), words.word(from + 1), words.word(from + 3));
    count == 0 || last < len
}

// Returns the list with these words, which are those of a list.
pub(crate) fn list_in<A: Allocator + Copy>(
    alloc: A,
    words: &[u64],
) -> Result<EliasFanoVec<A>, AllocError>
    requires list { (elements : List ℕ) × IsNonDecreasing elements × (words.now ≡ sorted_words elements) }
    requires small { length words.now ≤ 288230376151711743 }
    ensures words { IfOk result (λ v. sorted_words v ≡ words.now) }
    ensures ascending { IfOk result (λ v. IsNonDecreasing v) }
{
    let head = ends_of(&Listed { words }, words.len()).unwrap();
    let end = ENDS + head.lengths.low.div_ceil(64);
    let low = part_in(alloc, &words[ENDS..end], head.lengths.low)?;
    let high = part_in(alloc, &words[end..], head.lengths.high)?;
    let list = EliasFanoVec::from_parts(head.ends, low, high)?;
    Ok(list)
}

// Returns the first `len` bits of words, of which there are as many as these bits need.
fn part_in<A: Allocator + Copy>(
    alloc: A,
    words: &[u64],
    len: usize,
) -> Result<BitVec<A>, AllocError>
    requires small { length words.now ≤ 288230376151711743 }
    requires counted { length words.now ≡ limb_count len }
    ensures { IfOk result (λ v. v ≡ bits_in len words.now) }
{
    let copied = Vec::from_slice(alloc, words)?;
    Ok(first_bits(len, copied))
}

// Returns the number of words of a list.
pub(crate) fn count_list<A: Allocator + Copy>(list: &EliasFanoVec<A>) -> usize
    ensures count { result ≡ length (sorted_words list.now) }
    ensures small { result ≤ 576460752303423489 }
    ensures fit { AreWords (sorted_words list.now) }
    ensures ascending { IsNonDecreasing list.now }
{
    let _ = list.len();
    let _ends = list.ends();
    ENDS + list.low_parts().len().div_ceil(64) + list.high_parts().len().div_ceil(64)
}

// Returns word `k` of a list.
#[inline]
pub(crate) fn list_word<A: Allocator + Copy>(list: &EliasFanoVec<A>, k: usize) -> u64
    requires { k < length (sorted_words list.now) }
    ensures { result ≡ slice_index (sorted_words list.now) k }
{
    if k < ENDS {
        return end_word(list, k);
    }
    let low = list.low_parts();
    let limbs = low.len().div_ceil(64);
    if k - ENDS < limbs {
        return low.limb(k - ENDS);
    }
    limb_of(list.high_parts(), k - ENDS - limbs)
}

// Copies limbs of low parts, from one of them on.
fn copy_low<A: Allocator + Copy>(low: &BitVec<A>, from: usize, out: &mut [u64])
    requires within { from + length out.old ≤ limb_count (length low.now) }
    requires small { from + length out.old < 18446744073709551616 }
    ensures { (j : ℕ) → j < length out.old → slice_index out.new j ≡ limb low.now (from + j) }
{
    for k in 0..out.len() {
        out[k] = low.limb(from + k);
    }
}

// Copies limbs of high parts, from one of them on.
fn copy_high<A: Allocator + Copy>(high: &RsVec<A>, from: usize, out: &mut [u64])
    requires within { from + length out.old ≤ length (limbs high.now) }
    requires small { from + length out.old < 18446744073709551616 }
    ensures { (j : ℕ) → j < length out.old
        → slice_index out.new j ≡ slice_index (limbs high.now) (from + j) }
{
    for k in 0..out.len() {
        out[k] = limb_of(high, from + k);
    }
}

// Copies words of a list, from one of them on.
pub(crate) fn copy_list<A: Allocator + Copy>(list: &EliasFanoVec<A>, from: usize, out: &mut [u64])
    requires within { from + length out.old ≤ length (sorted_words list.now) }
    requires small { from + length out.old < 18446744073709551616 }
    ensures { (j : ℕ) → j < length out.old
        → slice_index out.new j ≡ slice_index (sorted_words list.now) (from + j) }
{
    let low = list.low_parts();
    let end = ENDS + low.len().div_ceil(64);
    if from >= end {
        return copy_high(list.high_parts(), from - end, out);
    }
    if from >= ENDS && out.len() <= end - from {
        return copy_low(low, from - ENDS, out);
    }
    for k in 0..out.len() {
        out[k] = list_word(list, from + k);
    }
}

// Returns word `k` of the ends of a list.
fn end_word<A: Allocator + Copy>(list: &EliasFanoVec<A>, k: usize) -> u64
    requires { k < 3 }
    ensures { result ≡ slice_index (sorted_words list.now) k }
{
    let ends = list.ends();
    if k == 0 {
        return ends.len as u64;
    }
    if k == 1 {
        return ends.first;
    }
    ends.last
}
