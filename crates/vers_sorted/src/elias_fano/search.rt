//! Queries of an ascending list.
ghost use Rattle.std.specs.Prelude.{◌≡◌, ℕ, ◌+◌, ◌-◌, ◌*◌, ◌<◌, ◌≤◌, ◌==◌, List, false, length, slice_index, slice_get, IsTrue, IsFalse};
ghost use Rattle.vers_bits.specs.Bits.{select};
ghost use Rattle.std.specs.List.Sorted.{IsNonDecreasing};
ghost use Rattle.vers_tally.specs.Reads.{only_low_parts, digits, AddsAtMost};
ghost use Rattle.vers_sorted.specs.Sorted.{is_element, below, greatest_not_above, least_not_below, delta};
ghost use Rattle.vers_sorted.specs.Layout.{first_of, last_of, high_of, low_of, high_length, high_parts, element_reads, search_reads};
ghost use Rattle.vers_sorted.specs.inside.Parts.{reads};
ghost use Rattle.vers_sorted.specs.inside.Buckets.{IsBucket};
ghost use Rattle.vers_sorted.specs.inside.Begun.{IsInside};

use crate::elias_fano::EliasFanoVec;
use crate::elias_fano::narrow::MANY;
use crate::elias_fano::scan::{one_before, one_from};
use std::alloc::Allocator;
use vers_tally::tally::Tally;

// The elements with one high part: those from position `start` up to position `end`.
#[derive(Clone, Copy, Drop)]
pub(super) struct Bucket {
    pub(super) high: u64,
    pub(super) start: usize,
    pub(super) end: usize,
}

#[tactic(auto, using(crate::proofs::Packed::packed))]
impl<A: Allocator + Copy> EliasFanoVec<A> {
    // Returns the low part of an element.
    #[inline(always)]
    #[tactic(auto, using(crate::proofs::Packed::low_parts_read))]
    pub(super) fn low_part(&self, i: usize, tally: &mut Tally) -> u64
        requires { i < length self.now }
        ensures value { result ≡ low_of self.now (slice_index self.now i) }
        ensures adds { AddsAtMost tally.old tally.new (only_low_parts 1) }
    {
        let _ = self.low.len();
        self.low.low_part(i * self.width, self.width, tally)
    }

    // Returns the high part of an element.
    #[inline(always)]
    #[tactic(auto, using(crate::proofs::Packed::high_parts_read))]
    fn high_part(&self, i: usize, tally: &mut Tally) -> u64
        requires { i < length self.now }
        ensures value { result ≡ high_of self.now (slice_index self.now i) }
        ensures adds { AddsAtMost tally.old tally.new (reads 0 1 (high_length self.now)) }
    {
        let _ = &self.len;
        (self.high.select1_counted(i, tally) - i - 1) as u64
    }

    // Returns an element from its high part and its low part.
    #[inline(always)]
    #[tactic(auto, using(crate::proofs::Packed::joined_parts))]
    pub(super) fn with_low_part(&self, high: u64, i: usize, tally: &mut Tally) -> u64
        requires within { i < length self.now }
        requires high { high ≡ high_of self.now (slice_index self.now i) }
        ensures value { result ≡ slice_index self.now i }
        ensures adds { AddsAtMost tally.old tally.new (only_low_parts 1) }
    {
        let _ = &self.len;
        let low = self.low_part(i, tally);
        self.first + ((high << self.width) | low)
    }

    // Returns an element.
    #[inline(always)]
    pub(super) fn element(&self, i: usize, tally: &mut Tally) -> u64
        requires { i < length self.now }
        ensures value { result ≡ slice_index self.now i }
        ensures adds { AddsAtMost tally.old tally.new (reads 1 1 (high_length self.now)) }
    {
        let high = self.high_part(i, tally);
        self.with_low_part(high, i, tally)
    }

    // Returns the high part of a number that isn't below the first element.
    #[inline(always)]
    #[tactic(auto, using(crate::proofs::Buckets::high_is))]
    pub(super) fn high_number(&self, v: u64) -> usize
        requires { first_of self.now ≤ v }
        ensures value { result ≡ high_of self.now v }
        ensures ascending { IsNonDecreasing self.now }
    {
        let _ = &self.len;
        ((v - self.first) >> self.width) as usize
    }

    // Returns its low part.
    #[inline(always)]
    #[tactic(auto, using(crate::proofs::Buckets::low_is))]
    pub(super) fn low_number(&self, v: u64) -> u64
        requires { first_of self.now ≤ v }
        ensures value { result ≡ low_of self.now v }
        ensures ascending { IsNonDecreasing self.now }
    {
        let _ = &self.len;
        (v - self.first) & ((1 << self.width) - 1)
    }

    // Returns the elements with the high part of `v`, from the positions of two zeros, mostly by one select.
    #[inline(always)]
    #[tactic(auto, using(crate::proofs::Buckets::bucket))]
    fn bucket_of(&self, v: u64, tally: &mut Tally) -> Bucket
        requires some { 0 < length self.now }
        requires from { first_of self.now ≤ v }
        requires to { v ≤ last_of self.now }
        ensures bucket { IsBucket self.now v result }
        ensures adds { AddsAtMost tally.old tally.new (reads 0 3 (high_length self.now)) }
    {
        let _ = &self.len;
        let zeros = self.high.select0_pair_counted(self.high_number(v), tally);
        self.bucket_between(v, zeros.first, zeros.second)
    }

    // Returns the elements with the high part of `v`, from the positions of the zeros before and after them.
    #[inline(always)]
    #[tactic(auto, using(crate::proofs::Buckets::bucket))]
    pub(super) fn bucket_between(&self, v: u64, before: usize, after: usize) -> Bucket
        requires some { 0 < length self.now }
        requires from { first_of self.now ≤ v }
        requires to { v ≤ last_of self.now }
        requires before { before ≡ select false (high_parts self.now) (high_of self.now v) }
        requires after { after ≡ select false (high_parts self.now) (high_of self.now v + 1) }
        ensures bucket { IsBucket self.now v result }
        ensures start { result.start ≡ before - high_of self.now v }
    {
        let high = self.high_number(v);
        Bucket {
            high: high as u64,
            start: before - high,
            end: after - high - 1,
        }
    }

    // Returns the number of elements below `v`, from the elements with its high part.
    #[inline(always)]
    #[tactic(auto, using(crate::proofs::Buckets::search_steps))]
    pub(super) fn below_in(&self, bucket: Bucket, v: u64, tally: &mut Tally) -> usize
        requires above { first_of self.now ≤ v }
        requires bucket { IsBucket self.now v bucket }
        ensures value { result ≡ below self.now v }
        ensures adds { AddsAtMost tally.old tally.new
            (only_low_parts (digits (length self.now) + 4)) }
    {
        let _ = self.len();
        let low = self.low_number(v);
        let between = self.narrowed(bucket, v, low, tally);
        let mut from = between.from;
        let mut to = between.to;
        while from < to {
            let mid = from + (to - from) / 2;
            if self.low_part(mid, tally) < low {
                from = mid + 1;
            } else {
                to = mid;
            }
        }
        from
    }

    // Does the same if the low part of the first of those elements is known too.
    #[inline(always)]
    #[tactic(auto, using(crate::proofs::Buckets::search_steps))]
    pub(super) fn below_from(&self, bucket: Bucket, part: u64, v: u64, tally: &mut Tally) -> usize
        requires above { first_of self.now ≤ v }
        requires bucket { IsBucket self.now v bucket }
        requires part { part ≡ low_of self.now (slice_index self.now bucket.start) }
        ensures value { result ≡ below self.now v }
        ensures adds { AddsAtMost tally.old tally.new
            (only_low_parts (digits (length self.now) + 4)) }
    {
        let low = self.low_number(v);
        if bucket.start >= bucket.end {
            return bucket.start;
        }
        if part >= low {
            return bucket.start;
        }
        self.below_in(bucket, v, tally)
    }

    // Returns true if a bucket of many elements has `v` in its middle, as most of those do in which many are
    // equal to it. The bucket is that of another number.
    #[inline(always)]
    #[tactic(auto, using(crate::proofs::Buckets::elements))]
    fn is_amid(&self, bucket: Bucket, other: u64, v: u64, tally: &mut Tally) -> bool
        requires { IsBucket self.now other bucket }
        ensures element { IsTrue result → IsTrue (is_element self.now v) }
        ensures adds { AddsAtMost tally.old tally.new (only_low_parts 1) }
    {
        let _ = self.len();
        let count = bucket.end.saturating_sub(bucket.start);
        if count < MANY {
            return false;
        }
        self.with_low_part(bucket.high, bucket.start + count / 2, tally) == v
    }

    // Returns the first element past a bucket. Mostly its one is among the next 64 high parts.
    #[inline(always)]
    #[tactic(auto, using(crate::proofs::Besides::beside, crate::proofs::Packed::high_parts_read))]
    fn element_past(&self, bucket: Bucket, v: u64, tally: &mut Tally) -> u64
        requires from { first_of self.now ≤ v }
        requires to { v ≤ last_of self.now }
        requires bucket { IsBucket self.now v bucket }
        requires more { bucket.end < length self.now }
        ensures value { result ≡ slice_index self.now bucket.end }
        ensures adds { AddsAtMost tally.old tally.new (reads 1 2 (high_length self.now)) }
    {
        let _ = &self.len;
        let _ = self.high.len();
        let i = bucket.end;
        let position = one_from(&self.high, i, bucket.high as usize + i + 2, tally);
        self.with_low_part((position - i - 1) as u64, i, tally)
    }

    // Returns the last element before a bucket. Mostly its one is among the 64 high parts before.
    #[inline(always)]
    #[tactic(auto, using(crate::proofs::Besides::beside, crate::proofs::Packed::high_parts_read))]
    fn element_before(&self, bucket: Bucket, v: u64, tally: &mut Tally) -> u64
        requires from { first_of self.now ≤ v }
        requires to { v ≤ last_of self.now }
        requires bucket { IsBucket self.now v bucket }
        requires some { 0 < bucket.start }
        ensures value { result ≡ slice_index self.now (bucket.start - 1) }
        ensures adds { AddsAtMost tally.old tally.new (reads 1 2 (high_length self.now)) }
    {
        let _ = &self.len;
        let _ = self.high.len();
        let i = bucket.start - 1;
        let position = one_before(&self.high, i, bucket.high as usize + i + 1, tally);
        self.with_low_part((position - i - 1) as u64, i, tally)
    }

    /// Returns `has(v)`. Reads at most as many low parts, and queries the high parts at most as often, as the
    /// length has binary digits, plus 8.
    #[inline(always)]
    #[tactic(auto, using(crate::proofs::Elements::elements, crate::proofs::Bounds::bounds))]
    pub fn has_counted(&self, v: u64, tally: &mut Tally) -> bool
        ensures value { result ≡ is_element self.now v }
        ensures ascending { IsNonDecreasing self.now }
        ensures adds { AddsAtMost tally.old tally.new (search_reads self.now) }
    {
        if self.len() == 0 {
            return false;
        }
        if v < self.first() {
            return false;
        }
        if v > self.last() {
            return false;
        }
        let bucket = self.bucket_of(v, tally);
        let k = self.below_in(bucket, v, tally);
        if k >= bucket.end {
            return false;
        }
        self.with_low_part(bucket.high, k, tally) == v
    }

    /// Returns `get(i)`. Reads at most 2 low parts, with at most 2 queries of the high parts.
    #[inline(always)]
    #[tactic(auto, using(crate::proofs::Packed::gets, crate::proofs::Bounds::bounds))]
    pub fn get_counted(&self, i: usize, tally: &mut Tally) -> Option<u64>
        ensures value { result ≡ slice_get self.now i }
        ensures ascending { IsNonDecreasing self.now }
        ensures adds { AddsAtMost tally.old tally.new (element_reads self.now) }
    {
        if i >= self.len() {
            return None;
        }
        Some(self.element(i, tally))
    }

    /// Returns `select(i)`. Reads at most what `get_counted` does.
    #[inline(always)]
    pub fn select_counted(&self, i: usize, tally: &mut Tally) -> Option<u64>
        ensures value { result ≡ slice_get self.now i }
        ensures ascending { IsNonDecreasing self.now }
        ensures adds { AddsAtMost tally.old tally.new (element_reads self.now) }
    {
        self.get_counted(i, tally)
    }

    /// Returns `delta(i)`. Reads at most 2 low parts, with at most 2 queries of the high parts.
    #[inline(always)]
    #[tactic(auto, using(crate::proofs::Neighbours::deltas, crate::proofs::Bounds::bounds))]
    pub fn delta_counted(&self, i: usize, tally: &mut Tally) -> Option<u64>
        ensures value { result ≡ delta self.now i }
        ensures ascending { IsNonDecreasing self.now }
        ensures adds { AddsAtMost tally.old tally.new (element_reads self.now) }
    {
        let _ = &self.first;
        if i >= self.len() {
            return None;
        }
        if i == 0 {
            return Some(self.first);
        }
        let ones = self.high.select1_pair_counted(i - 1, tally);
        let before = self.with_low_part((ones.first - i) as u64, i - 1, tally);
        let element = self.with_low_part((ones.second - i - 1) as u64, i, tally);
        Some(element - before)
    }

    /// Returns `rank(v)`. Reads at most as many low parts, and queries the high parts at most as often, as the
    /// length has binary digits, plus 8.
    #[inline(always)]
    #[tactic(auto, using(crate::proofs::Bounds::bounds, crate::proofs::Buckets::ends))]
    pub fn rank_counted(&self, v: u64, tally: &mut Tally) -> u64
        ensures value { result ≡ below self.now v }
        ensures within { result ≤ length self.now }
        ensures ascending { IsNonDecreasing self.now }
        ensures adds { AddsAtMost tally.old tally.new (search_reads self.now) }
    {
        let _ = self.len();
        if !self.is_inside(v) {
            return self.rank_outside(v);
        }
        let bucket = self.bucket_of(v, tally);
        self.below_in(bucket, v, tally) as u64
    }

    // Returns true if a number is above the first element and at most the last.
    #[inline(always)]
    #[tactic(auto, using(crate::proofs::Begins::insides))]
    pub(super) fn is_inside(&self, v: u64) -> bool
        ensures inside { IsTrue result → IsInside self.now v }
        ensures outside { IsFalse result → first_of self.now < v → last_of self.now < v }
    {
        let _ = self.len();
        self.first() < v && v <= self.last()
    }

    // Returns the number of elements below a number that isn't in that range.
    #[inline(always)]
    #[tactic(auto, using(crate::proofs::Neighbours::outside))]
    pub(super) fn rank_outside(&self, v: u64) -> u64
        requires { first_of self.now < v → last_of self.now < v }
        ensures { result ≡ below self.now v }
    {
        let _ = self.len();
        if v <= self.first() {
            return 0;
        }
        self.len() as u64
    }

    /// Returns `predecessor(v)`. Reads at most as many low parts, and queries the high parts at most as often,
    /// as the length has binary digits, plus 8.
    #[inline(always)]
    #[tactic(auto, using(crate::proofs::Bounds::bounds, crate::proofs::Elements::neighbours))]
    pub fn predecessor_counted(&self, v: u64, tally: &mut Tally) -> Option<u64>
        ensures value { result ≡ greatest_not_above self.now v }
        ensures ascending { IsNonDecreasing self.now }
        ensures adds { AddsAtMost tally.old tally.new (search_reads self.now) }
    {
        let _ = self.len();
        let _ = self.last();
        if !self.is_inside_after(v) {
            return self.predecessor_outside(v);
        }
        let bucket = self.bucket_of(v + 1, tally);
        if self.is_amid(bucket, v + 1, v, tally) {
            return Some(v);
        }
        let k = self.below_in(bucket, v + 1, tally);
        Some(self.last_below(bucket, v + 1, k, tally))
    }

    // Returns true if the number after `v` is above the first element and at most the last.
    #[inline(always)]
    #[tactic(auto, using(crate::proofs::Begins::insides))]
    pub(super) fn is_inside_after(&self, v: u64) -> bool
        ensures inside { IsTrue result → IsInside self.now (v + 1) }
        ensures outside { IsFalse result → first_of self.now ≤ v → last_of self.now ≤ v }
    {
        let _ = self.len();
        self.first() <= v && v < self.last()
    }

    // Returns the predecessor of a number if the next number isn't in that range.
    #[inline(always)]
    #[tactic(auto, using(crate::proofs::Neighbours::outside))]
    pub(super) fn predecessor_outside(&self, v: u64) -> Option<u64>
        requires { first_of self.now ≤ v → last_of self.now ≤ v }
        ensures { result ≡ greatest_not_above self.now v }
    {
        let _ = self.len();
        if v < self.first() || self.len() == 0 {
            return None;
        }
        Some(self.last())
    }

    // Returns the last of the `k` elements below `v`.
    #[inline(always)]
    #[tactic(auto, using(crate::proofs::Buckets::sides))]
    pub(super) fn last_below(&self, bucket: Bucket, v: u64, k: usize, tally: &mut Tally) -> u64
        requires from { first_of self.now ≤ v }
        requires to { v ≤ last_of self.now }
        requires bucket { IsBucket self.now v bucket }
        requires below { k ≡ below self.now v }
        requires some { 0 < k }
        ensures value { result ≡ slice_index self.now (k - 1) }
        ensures adds { AddsAtMost tally.old tally.new (reads 1 2 (high_length self.now)) }
    {
        let _ = self.len();
        if k <= bucket.start {
            return self.element_before(bucket, v, tally);
        }
        self.with_low_part(bucket.high, k - 1, tally)
    }

    /// Returns `successor(v)`. Reads at most as many low parts, and queries the high parts at most as often, as
    /// the length has binary digits, plus 8.
    #[inline(always)]
    #[tactic(auto, using(crate::proofs::Bounds::bounds, crate::proofs::Elements::neighbours))]
    pub fn successor_counted(&self, v: u64, tally: &mut Tally) -> Option<u64>
        ensures value { result ≡ least_not_below self.now v }
        ensures ascending { IsNonDecreasing self.now }
        ensures adds { AddsAtMost tally.old tally.new (search_reads self.now) }
    {
        let _ = self.len();
        if !self.is_inside(v) {
            return self.successor_outside(v);
        }
        let bucket = self.bucket_of(v, tally);
        if self.is_amid(bucket, v, v, tally) {
            return Some(v);
        }
        let k = self.below_in(bucket, v, tally);
        Some(self.first_from(bucket, v, k, tally))
    }

    // Returns the successor of a number that isn't above the first element and at most the last.
    #[inline(always)]
    #[tactic(auto, using(crate::proofs::Neighbours::outside))]
    pub(super) fn successor_outside(&self, v: u64) -> Option<u64>
        requires { first_of self.now < v → last_of self.now < v }
        ensures { result ≡ least_not_below self.now v }
    {
        let _ = self.len();
        if v > self.first() || self.len() == 0 {
            return None;
        }
        Some(self.first())
    }

    // Returns the element after the `k` elements below `v`.
    #[inline(always)]
    #[tactic(auto, using(crate::proofs::Buckets::sides))]
    pub(super) fn first_from(&self, bucket: Bucket, v: u64, k: usize, tally: &mut Tally) -> u64
        requires from { first_of self.now ≤ v }
        requires to { v ≤ last_of self.now }
        requires bucket { IsBucket self.now v bucket }
        requires below { k ≡ below self.now v }
        requires more { k < length self.now }
        ensures value { result ≡ slice_index self.now k }
        ensures adds { AddsAtMost tally.old tally.new (reads 1 2 (high_length self.now)) }
    {
        let _ = self.len();
        if bucket.end <= k {
            return self.element_past(bucket, v, tally);
        }
        self.with_low_part(bucket.high, k, tally)
    }
}
