//! Lists of bits with few ones.
ghost use Rattle.std.specs.Prelude.{◌≡◌, ◌+◌, ◌*◌, ◌/◌, ◌<◌, ◌≤◌, ◌↔◌, [], All, not, length, drop, map, slice_index_or, slice_get, option_map, IsTrue, IfOk, IfSome, Some, None, true, false};
ghost use Rattle.std.specs.List.Sorted.{IsStrictlyIncreasing};
ghost use Rattle.vers_bits.specs.Bits.{bit_value, count, is_bit, positions, select};
ghost use Rattle.vers_tally.specs.Reads.{AddsAtMost};
ghost use Rattle.vers_sorted.specs.Layout.{heap_size_of, last_of, element_reads, search_reads};
ghost use Rattle.vers_sorted.specs.Ones.{AreMarked};

use crate::elias_fano::{EliasFanoRefIter, EliasFanoVec, MAX_LEN, Numbers};
use std::alloc::{AllocError, Allocator};
use std::marker::Model;
use vers_bits::bit_vec::BitVec;
use vers_tally::tally::Tally;

/// A list of bits that stores only the positions of its ones, as an ascending list, for bits with few ones.
/// Contracts see a `SparseRSVec` as the list of its bits.
#[derive(Drop)]
pub struct SparseRSVec<A: Allocator + Copy> {
    ones: EliasFanoVec<A>,
    len: u64,
}

impl<A: Allocator + Copy> Model for SparseRSVec<A> {
    ghost use Rattle.std.specs.Prelude.{List, Bool};
    ghost use Rattle.vers_sorted.specs.Ones.{ones_at, AreSparse};

    ghost Value = { List Bool };

    ghost view = { λ v. ones_at v.ones v.len };

    ghost invariant = { λ v. AreSparse v.ones v.len };
}

impl<A: Allocator + Copy> Clone for SparseRSVec<A> {
    ghost is_clone = { λ old new. new ≡ old };

    /// Returns a copy of the list.
    fn clone(&self) -> Result<Self, AllocError> {
        let ones = self.ones.clone()?;
        Ok(SparseRSVec {
            ones,
            len: self.len,
        })
    }
}

#[tactic(auto, using(crate::proofs::SparseBits::sparse))]
impl<A: Allocator + Copy> SparseRSVec<A> {
    /// Returns the list of `len` bits with ones at the given positions. Precondition: these ascend strictly and
    /// are below `len`. Errors: `AllocError` only if the allocator refuses a request.
    pub fn new(alloc: A, ones: &[u64], len: u64) -> Result<Self, AllocError>
        requires rising { IsStrictlyIncreasing ones.now }
        requires within { All (λ position. position < len) ones.now }
        ensures length { IfOk result (λ v. length v ≡ len) }
        ensures positions { IfOk result (λ v. positions true v ≡ ones.now) }
    {
        Ok(SparseRSVec::from_sorted(EliasFanoVec::from_slice(alloc, ones)?, len))
    }

    /// Returns the list of `len` bits with ones at the elements of a list. Precondition: these ascend strictly
    /// and are below `len`.
    pub fn from_sorted(ones: EliasFanoVec<A>, len: u64) -> Self
        requires rising { IsStrictlyIncreasing ones }
        requires within { All (λ position. position < len) ones }
        ensures length { length result ≡ len }
        ensures positions { positions true result ≡ ones }
    {
        SparseRSVec { ones, len }
    }

    /// Returns the same bits in sparse form. Errors: `AllocError` only if the allocator refuses a request.
    pub fn from_bitvec(bits: &BitVec<A>) -> Result<Self, AllocError>
        ensures { IfOk result (λ v. v ≡ bits.now) }
    {
        SparseRSVec::from_positions(bits, true)
    }

    /// Returns the bits of another list with ones and zeros exchanged. Errors: `AllocError` only if the
    /// allocator refuses a request.
    pub fn from_bitvec_inverted(bits: &BitVec<A>) -> Result<Self, AllocError>
        ensures { IfOk result (λ v. v ≡ map not bits.now) }
    {
        SparseRSVec::from_positions(bits, false)
    }

    // Returns the list with ones where another has `bit`.
    #[tactic(auto, using(crate::proofs::SparseBits::from_positions))]
    fn from_positions(bits: &BitVec<A>, bit: bool) -> Result<Self, AllocError>
        ensures { IfOk result (λ v. v ≡ map (is_bit bit) bits.now) }
    {
        let len = count_of(bits, bit);
        // A list of more elements needs more memory than there can be.
        if len > MAX_LEN {
            return Err(AllocError);
        }
        let positions = Positions { bits, bit, from: 0 };
        let from = last_start(bits, bit);
        let last = last_left(Positions { bits, bit, from });
        Ok(SparseRSVec {
            ones: EliasFanoVec::from_numbers(bits.allocator(), positions, len, last)?,
            len: bits.len() as u64,
        })
    }

    /// Returns the number of bits.
    #[inline]
    pub fn len(&self) -> u64
        ensures { result ≡ length self.now }
    {
        self.len
    }

    /// Returns true if the list is empty.
    #[inline]
    pub fn is_empty(&self) -> bool
        ensures { IsTrue result ↔ (self.now ≡ []) }
    {
        self.len() == 0
    }

    /// Returns the number of bytes that the list of the ones' positions takes.
    pub fn heap_size(&self) -> usize
        ensures { result ≡ heap_size_of (positions true self.now) }
    {
        let _ = &self.len;
        self.ones.heap_size()
    }

    /// Returns true if the bit at `position` is a one, or `None` if `position` is out of bounds.
    #[inline]
    pub fn is_set(&self, position: u64) -> Option<bool>
        ensures { result ≡ slice_get self.now position }
    {
        let mut tally = Tally::new();
        self.is_set_counted(position, &mut tally)
    }

    /// Returns `is_set(position)`. Reads at most what one search among the positions of the ones does.
    #[inline(always)]
    pub fn is_set_counted(&self, position: u64, tally: &mut Tally) -> Option<bool>
        ensures value { result ≡ slice_get self.now position }
        ensures adds { AddsAtMost tally.old tally.new (search_reads (positions true self.now)) }
    {
        if position >= self.len() {
            return None;
        }
        Some(self.holds_one(position, tally))
    }

    // Returns true if the bit at `position` is a one. Precondition: `position` is below the length.
    #[inline(always)]
    fn holds_one(&self, position: u64, tally: &mut Tally) -> bool
        requires { position < length self.now }
        ensures value { result ≡ slice_index_or self.now position false }
        ensures adds { AddsAtMost tally.old tally.new (search_reads (positions true self.now)) }
    {
        let _ = &self.len;
        self.ones.has_counted(position, tally)
    }

    /// Returns true if the bit at `position` is a one. Precondition: `position` is below the length.
    #[inline]
    pub fn is_set_unchecked(&self, position: u64) -> bool
        requires { position < length self.now }
        ensures { result ≡ slice_index_or self.now position false }
    {
        let mut tally = Tally::new();
        self.holds_one(position, &mut tally)
    }

    /// Returns the bit at `position`, 1 or 0, or `None` if `position` is out of bounds.
    #[inline]
    pub fn get(&self, position: u64) -> Option<u64>
        ensures { result ≡ option_map bit_value (slice_get self.now position) }
    {
        let mut tally = Tally::new();
        self.get_counted(position, &mut tally)
    }

    /// Returns `get(position)`. Reads at most what one search among the positions of the ones does.
    #[inline(always)]
    pub fn get_counted(&self, position: u64, tally: &mut Tally) -> Option<u64>
        ensures value { result ≡ option_map bit_value (slice_get self.now position) }
        ensures adds { AddsAtMost tally.old tally.new (search_reads (positions true self.now)) }
    {
        if position >= self.len() {
            return None;
        }
        Some(u64::from(self.holds_one(position, tally)))
    }

    /// Returns the bit at `position`, 1 or 0. Precondition: `position` is below the length.
    #[inline]
    pub fn get_unchecked(&self, position: u64) -> u64
        requires { position < length self.now }
        ensures { result ≡ bit_value (slice_index_or self.now position false) }
    {
        u64::from(self.is_set_unchecked(position))
    }

    /// Returns the position of one `r` (from 0), or the length if there are fewer.
    #[inline]
    pub fn select1(&self, r: usize) -> u64
        ensures value { result ≡ select true self.now r }
        ensures within { result ≤ length self.now }
    {
        let mut tally = Tally::new();
        self.select1_counted(r, &mut tally)
    }

    /// Returns `select1(r)`. Reads at most what one element of the positions of the ones does.
    #[inline(always)]
    pub fn select1_counted(&self, r: usize, tally: &mut Tally) -> u64
        ensures value { result ≡ select true self.now r }
        ensures within { result ≤ length self.now }
        ensures adds { AddsAtMost tally.old tally.new (element_reads (positions true self.now)) }
    {
        let _ = &self.len;
        match self.ones.get_counted(r, tally) {
            Some(position) => position,
            None => self.len,
        }
    }

    /// Returns the number of ones below `position`; all ones if `position` is past the end.
    #[inline]
    pub fn rank1(&self, position: u64) -> u64
        ensures value { result ≡ count true self.now position }
        ensures within { result ≤ length self.now }
    {
        let mut tally = Tally::new();
        self.rank1_counted(position, &mut tally)
    }

    /// Returns `rank1(position)`. Reads at most what one search among the positions of the ones does.
    #[inline(always)]
    pub fn rank1_counted(&self, position: u64, tally: &mut Tally) -> u64
        ensures value { result ≡ count true self.now position }
        ensures within { result ≤ length self.now }
        ensures adds { AddsAtMost tally.old tally.new (search_reads (positions true self.now)) }
    {
        let _ = &self.len;
        self.ones.rank_counted(position, tally)
    }

    /// Returns the number of zeros below `position`; all zeros if `position` is past the end.
    #[inline]
    pub fn rank0(&self, position: u64) -> u64
        ensures value { result ≡ count false self.now position }
        ensures within { result ≤ length self.now }
    {
        let mut tally = Tally::new();
        self.rank0_counted(position, &mut tally)
    }

    /// Returns `rank0(position)`. Reads at most what one search among the positions of the ones does.
    #[inline(always)]
    #[tactic(auto, using(crate::proofs::SparseBits::zeros))]
    pub fn rank0_counted(&self, position: u64, tally: &mut Tally) -> u64
        ensures value { result ≡ count false self.now position }
        ensures within { result ≤ length self.now }
        ensures adds { AddsAtMost tally.old tally.new (search_reads (positions true self.now)) }
    {
        let ones = self.rank1_counted(position, tally);
        position.min(self.len()) - ones
    }

    /// Returns the positions of the ones, an ascending list.
    pub fn ones(&self) -> &EliasFanoVec<A>
        ensures { result.now ≡ positions true self.now }
    {
        let _ = &self.len;
        &self.ones
    }

    /// Returns an iterator over the positions of the ones.
    pub fn iter1(&self) -> EliasFanoRefIter<'_, A>
        ensures { result ≡ record {
          left = positions true self.now;
          step = element_reads (positions true self.now);
        } }
    {
        let _ = &self.len;
        self.ones.iter()
    }
}

// The positions of the ones or the zeros of a list, from position `from` on.
#[derive(Clone, Copy, Drop)]
struct Positions<'a, A: Allocator + Copy> {
    bits: &'a BitVec<A>,
    bit: bool,
    from: usize,
}

#[tactic(auto, using(crate::proofs::SparseBits::walking))]
impl<A: Allocator + Copy> Numbers for Positions<'_, A> {
    ghost left = { λ walk. drop (count walk.bit walk.bits.now walk.from) (positions walk.bit walk.bits.now) };

    #[inline(always)]
    fn next(&mut self) -> Option<u64> {
        let _ = self.bits.len();
        let position = position_from(self.bits, self.bit, self.from)?;
        self.from = position + 1;
        Some(position as u64)
    }
}

// Returns the number of ones or zeros.
fn count_of<A: Allocator + Copy>(bits: &BitVec<A>, bit: bool) -> usize
    ensures { result ≡ count bit bits.now (length bits.now) }
{
    if bit {
        bits.count_ones() as usize
    } else {
        bits.count_zeros() as usize
    }
}

// Returns the first position from `from` on of a one or a zero. `None` if there is none.
#[inline(always)]
#[tactic(auto, using(crate::proofs::Marks::walking))]
fn position_from<A: Allocator + Copy>(bits: &BitVec<A>, bit: bool, from: usize) -> Option<usize>
    ensures { result ≡ slice_get (positions bit bits.now) (count bit bits.now from) }
{
    let mut position = from;
    while position < bits.len() {
        if let Some(found) = position_in_limb(bits, bit, position) {
            return Some(found);
        }
        position = 64 * (position / 64) + 64;
    }
    None
}

// Returns the first position from `position` on in its limb of a one or a zero. `None` if there is none.
#[inline(always)]
#[tactic(auto, using(crate::proofs::Marks::walking))]
fn position_in_limb<A: Allocator + Copy>(
    bits: &BitVec<A>,
    bit: bool,
    position: usize,
) -> Option<usize>
    requires { position < length bits.now }
    ensures some { IfSome result
        (λ found. slice_get (positions bit bits.now) (count bit bits.now position) ≡ Some found) }
    ensures none { result ≡ None → count bit bits.now (64 * (position / 64) + 64) ≡ count bit bits.now position }
{
    let word = marks_of(bits, bit, position / 64) >> (position % 64);
    let skip = word.trailing_zeros() as usize;
    if skip < (bits.len() - position).min(64 - position % 64) {
        return Some(position + skip);
    }
    None
}

// Returns the start of the last limb that has a one or a zero, or 0 if none has.
#[tactic(auto, using(crate::proofs::SparseBits::lasts))]
fn last_start<A: Allocator + Copy>(bits: &BitVec<A>, bit: bool) -> usize
    ensures { last_of (drop (count bit bits.now result) (positions bit bits.now)) ≡ last_of (positions bit bits.now) }
{
    let mut k = bits.len().div_ceil(64);
    while k > 0 {
        k -= 1;
        if position_in_limb(bits, bit, 64 * k).is_some() {
            return 64 * k;
        }
    }
    0
}

// Returns the last of the numbers left, or 0 if none is left.
#[tactic(auto, using(crate::proofs::Makes::lasts))]
fn last_left<N: Numbers>(mut numbers: N) -> u64
    ensures { result ≡ last_of (N.left numbers) }
{
    let mut last = 0;
    while let Some(number) = numbers.next() {
        last = number;
    }
    last
}

// Returns the word in which the ones or the zeros of a limb are ones.
#[tactic(auto, using(crate::proofs::Marks::limbs))]
fn marks_of<A: Allocator + Copy>(bits: &BitVec<A>, bit: bool, k: usize) -> u64
    requires { 64 * k < length bits.now }
    ensures { AreMarked bit bits.now (64 * k) 64 result }
{
    let limb = bits.limb(k);
    if bit { limb } else { !limb }
}
