//! Ascending lists of numbers.
ghost use Rattle.std.specs.Prelude.{◌≡◌, ◌<◌, ◌≤◌, ◌==◌, ◌↔◌, [], length, slice_index, slice_get, nat_le, if◌then◌else◌, IsTrue, IsSome, Some};
ghost use Rattle.std.specs.List.Sorted.{IsNonDecreasing};
ghost use Rattle.vers_sorted.specs.Sorted.{is_element, below, greatest_not_above, least_not_below, delta};
ghost use Rattle.vers_sorted.specs.Layout.{heap_size_of, first_of, last_of};

mod ahead;
mod batch;
mod begin;
mod iter;
mod low;
mod make;
mod narrow;
mod neighbours;
mod parts;
mod scan;
mod search;
mod successors;

pub use iter::{EliasFanoIter, EliasFanoRefIter};
pub use make::{MAX_LEN, Numbers};
pub use parts::{Ends, Limbs, PartLengths, are_parts};
use std::alloc::{AllocError, Allocator};
use std::marker::Model;
pub use successors::Successors;
use vers_rank::fast_rs_vec::RsVec;
use vers_tally::tally::{CountedBits, Tally, Uncounted};

/// An ascending list of numbers, duplicates allowed, in about two bits per element plus the width of a low part.
/// Contracts see an `EliasFanoVec` as the list of its elements, and each query promises that it ascends.
///
/// Each element is stored as its difference to the first. The low parts, the lowest digits of these differences,
/// all of the same width, are stored one after another in a list of bits; the rest, the high part `h` of element
/// `i`, is a one at position `h + i + 1` of a list of bits with rank and select.
#[derive(Drop)]
pub struct EliasFanoVec<A: Allocator + Copy> {
    high: RsVec<A>,
    low: CountedBits<A>,
    first: u64,
    last: u64,
    width: usize,
    len: usize,
}

impl<A: Allocator + Copy> Model for EliasFanoVec<A> {
    ghost use Rattle.std.specs.Prelude.{List, ℕ};
    ghost use Rattle.vers_sorted.specs.Layout.{elements};
    ghost use Rattle.vers_sorted.specs.inside.Parts.{IsPacked};

    ghost Value = { List ℕ };

    ghost view = { λ v. elements v.high v.low v.first v.width v.len };

    ghost invariant = { λ v. IsPacked (elements v.high v.low v.first v.width v.len)
        v.high v.low v.first v.last v.width };
}

impl<A: Allocator + Copy> Clone for EliasFanoVec<A> {
    ghost is_clone = { λ old new. new ≡ old };

    /// Returns a copy of the list.
    fn clone(&self) -> Result<Self, AllocError> {
        let low = self.low.as_bit_vec(Uncounted).clone()?;
        let high = self.high.clone()?;
        Ok(EliasFanoVec {
            high,
            low: CountedBits::new(low),
            first: self.first,
            last: self.last,
            width: self.width,
            len: self.len,
        })
    }
}

#[tactic(auto, using(crate::proofs::Packed::packed))]
impl<A: Allocator + Copy> EliasFanoVec<A> {
    /// Returns the number of elements.
    #[inline]
    pub fn len(&self) -> usize
        ensures value { result ≡ length self.now }
        ensures ascending { IsNonDecreasing self.now }
    {
        self.len
    }

    /// Returns true if the list is empty.
    #[inline]
    pub fn is_empty(&self) -> bool
        ensures { IsTrue result ↔ (self.now ≡ []) }
    {
        self.len() == 0
    }

    // Returns the first element, or 0 if there is none.
    #[inline(always)]
    fn first(&self) -> u64
        ensures { result ≡ first_of self.now }
    {
        self.first
    }

    // Returns the last element, or 0 if there is none.
    #[inline(always)]
    fn last(&self) -> u64
        ensures { result ≡ last_of self.now }
    {
        self.last
    }

    /// Returns the number of bytes that the high parts with their index and the low parts take.
    #[tactic(auto, using(crate::proofs::Packed::sizes))]
    pub fn heap_size(&self) -> usize
        ensures { result ≡ heap_size_of self.now }
    {
        let _ = self.high.len();
        self.high.heap_size() + 8 * self.low.len().div_ceil(64)
    }

    /// Returns the element at position `i`, or `None` if `i` is out of bounds.
    #[inline]
    pub fn get(&self, i: usize) -> Option<u64>
        ensures value { result ≡ slice_get self.now i }
        ensures ascending { IsNonDecreasing self.now }
    {
        let mut tally = Tally::new();
        self.get_counted(i, &mut tally)
    }

    /// Returns the element at position `i`. Precondition: `i` is below the length.
    #[inline]
    pub fn get_unchecked(&self, i: usize) -> u64
        requires { i < length self.now }
        ensures value { result ≡ slice_index self.now i }
        ensures ascending { IsNonDecreasing self.now }
    {
        let _ = self.len();
        let mut tally = Tally::new();
        self.element(i, &mut tally)
    }

    /// Returns the element at position `i`, or `None` if `i` is out of bounds: `get(i)`.
    #[inline]
    pub fn select(&self, i: usize) -> Option<u64>
        ensures value { result ≡ slice_get self.now i }
        ensures ascending { IsNonDecreasing self.now }
    {
        let mut tally = Tally::new();
        self.select_counted(i, &mut tally)
    }

    /// Returns the difference between element `i` and the previous one, or the first element itself if `i` is 0.
    /// `None` if `i` is out of bounds.
    #[inline]
    pub fn delta(&self, i: usize) -> Option<u64>
        ensures value { result ≡ delta self.now i }
        ensures ascending { IsNonDecreasing self.now }
    {
        let mut tally = Tally::new();
        self.delta_counted(i, &mut tally)
    }

    /// Returns the number of elements below `v`.
    #[inline]
    pub fn rank(&self, v: u64) -> u64
        ensures value { result ≡ below self.now v }
        ensures within { result ≤ length self.now }
        ensures ascending { IsNonDecreasing self.now }
    {
        let mut tally = Tally::new();
        self.rank_counted(v, &mut tally)
    }

    /// Returns true if `v` is an element.
    #[inline]
    pub fn has(&self, v: u64) -> bool
        ensures value { result ≡ is_element self.now v }
        ensures ascending { IsNonDecreasing self.now }
    {
        let mut tally = Tally::new();
        self.has_counted(v, &mut tally)
    }

    /// Returns the greatest element that is at most `v`, or `None` if there is none.
    #[inline]
    pub fn predecessor(&self, v: u64) -> Option<u64>
        ensures value { result ≡ greatest_not_above self.now v }
        ensures ascending { IsNonDecreasing self.now }
    {
        let mut tally = Tally::new();
        self.predecessor_counted(v, &mut tally)
    }

    /// Returns the greatest element that is at most `v`. Precondition: there is one.
    #[inline]
    pub fn predecessor_unchecked(&self, v: u64) -> u64
        requires { IsSome (greatest_not_above self.now v) }
        ensures value { greatest_not_above self.now v ≡ Some result }
        ensures ascending { IsNonDecreasing self.now }
    {
        self.predecessor(v).unwrap()
    }

    /// Returns the least element that is at least `v`, or `None` if there is none.
    #[inline]
    pub fn successor(&self, v: u64) -> Option<u64>
        ensures value { result ≡ least_not_below self.now v }
        ensures ascending { IsNonDecreasing self.now }
    {
        let mut tally = Tally::new();
        self.successor_counted(v, &mut tally)
    }

    /// Returns the least element that is at least `v`. Precondition: there is one.
    #[inline]
    pub fn successor_unchecked(&self, v: u64) -> u64
        requires { IsSome (least_not_below self.now v) }
        ensures value { least_not_below self.now v ≡ Some result }
        ensures ascending { IsNonDecreasing self.now }
    {
        self.successor(v).unwrap()
    }
}

/// Returns two lists, the shorter first.
#[inline(always)]
pub fn by_length<'a, A: Allocator + Copy>(
    one: &'a EliasFanoVec<A>,
    other: &'a EliasFanoVec<A>,
) -> (&'a EliasFanoVec<A>, &'a EliasFanoVec<A>)
    ensures shorter { result.0.now
        ≡ (if nat_le (length one.now) (length other.now) then one.now else other.now) }
    ensures longer { result.1.now
        ≡ (if nat_le (length one.now) (length other.now) then other.now else one.now) }
{
    if one.len() <= other.len() {
        (one, other)
    } else {
        (other, one)
    }
}
