//! Predecessors and successors of many numbers at once.
ghost use Rattle.std.specs.Prelude.{◌≡◌, ℕ, ◌+◌, ◌<◌, ◌≤◌, ◌^◌, List, Option, length, map, slice_index, slice_index_or, option_and_then, Some, None};
ghost use Rattle.std.specs.List.Sorted.{IsNonDecreasing};
ghost use Rattle.vers_tally.specs.Reads.{digits, times, AddsAtMost};
ghost use Rattle.vers_rank.specs.Batches.{Changed};
ghost use Rattle.vers_sorted.specs.Sorted.{greatest_not_above, least_not_below};
ghost use Rattle.vers_sorted.specs.Layout.{high_length, search_reads};
ghost use Rattle.vers_sorted.specs.inside.Parts.{reads};
ghost use Rattle.vers_sorted.specs.inside.Begun.{IsBegun, IsInside};

use super::EliasFanoVec;
use super::batch::GROUP;
use std::alloc::Allocator;
use vers_tally::tally::Tally;

// A side of a number, on which an element is searched.
pub(super) trait Side {
    // The number below which elements are counted.
    ghost bound: { ℕ → ℕ };

    // The element that is searched.
    ghost neighbour: { List ℕ → ℕ → Option ℕ };

    // Returns that number, if it fits in 64 bits.
    fn limit(v: u64) -> u64
        ensures { bound v < 2 ^ 64 → result ≡ bound v };

    // Returns that element, from the first results of the search.
    fn begun<A: Allocator + Copy>(
        list: &EliasFanoVec<A>,
        v: u64,
        before: usize,
        after: usize,
        part: u64,
        tally: &mut Tally,
    ) -> Option<u64>
        requires { IsInside list.now (bound v) → IsBegun list.now (bound v) before after part }
        ensures value { result ≡ neighbour list.now v }
        ensures adds { AddsAtMost tally.old tally.new
            (reads (digits (length list.now) + 5) 2 (high_length list.now)) };
}

// The greatest element that is at most a number.
pub(super) struct Before;

impl Side for Before {
    ghost bound = { λ v. v + 1 };

    ghost neighbour = { greatest_not_above };

    #[inline(always)]
    fn limit(v: u64) -> u64 {
        v.saturating_add(1)
    }

    #[inline(always)]
    fn begun<A: Allocator + Copy>(
        list: &EliasFanoVec<A>,
        v: u64,
        before: usize,
        after: usize,
        part: u64,
        tally: &mut Tally,
    ) -> Option<u64> {
        list.predecessor_begun(v, before, after, part, tally)
    }
}

// The least element that is at least a number.
pub(super) struct After;

impl Side for After {
    ghost bound = { λ v. v };

    ghost neighbour = { least_not_below };

    #[inline(always)]
    fn limit(v: u64) -> u64 {
        v
    }

    #[inline(always)]
    fn begun<A: Allocator + Copy>(
        list: &EliasFanoVec<A>,
        v: u64,
        before: usize,
        after: usize,
        part: u64,
        tally: &mut Tally,
    ) -> Option<u64> {
        list.successor_begun(v, before, after, part, tally)
    }
}

// Computes for each of `n` values the number below which elements are counted.
#[inline(always)]
fn bounds_each<S: Side>(values: &[Option<u64>], from: usize, n: usize, asked: &mut [u64; GROUP])
    requires within { from + n ≤ length values.now }
    requires few { n ≤ GROUP }
    ensures { (j : ℕ) → j < n → (v : ℕ) → slice_index_or values.now (from + j) None ≡ Some v
        → S.bound v < 2 ^ 64 → slice_index asked.new j ≡ S.bound v }
{
    for j in 0..n {
        asked[j] = S::limit(values[from + j].unwrap_or(0));
    }
}

impl<A: Allocator + Copy> EliasFanoVec<A> {
    /// Replaces each `Some(v)` in `values` by `predecessor(v)`; each `None` stays. Allocates nothing.
    pub fn predecessor_each(&self, values: &mut [Option<u64>])
        ensures value { values.new ≡ map (option_and_then (greatest_not_above self.now)) values.old }
        ensures ascending { IsNonDecreasing self.now }
    {
        let mut tally = Tally::new();
        self.predecessor_each_counted(values, &mut tally)
    }

    /// Does what `predecessor_each` does. Reads at most what as many calls of `predecessor` do.
    #[inline(always)]
    pub fn predecessor_each_counted(&self, values: &mut [Option<u64>], tally: &mut Tally)
        ensures value { values.new ≡ map (option_and_then (greatest_not_above self.now)) values.old }
        ensures ascending { IsNonDecreasing self.now }
        ensures adds { AddsAtMost tally.old tally.new
            (times (length values.old) (search_reads self.now)) }
    {
        let _ = self.len();
        self.neighbour_each::<Before>(values, tally)
    }

    /// Replaces each `Some(v)` in `values` by `successor(v)`; each `None` stays. Allocates nothing.
    pub fn successor_each(&self, values: &mut [Option<u64>])
        ensures value { values.new ≡ map (option_and_then (least_not_below self.now)) values.old }
        ensures ascending { IsNonDecreasing self.now }
    {
        let mut tally = Tally::new();
        self.successor_each_counted(values, &mut tally)
    }

    /// Does what `successor_each` does. Reads at most what as many calls of `successor` do.
    #[inline(always)]
    pub fn successor_each_counted(&self, values: &mut [Option<u64>], tally: &mut Tally)
        ensures value { values.new ≡ map (option_and_then (least_not_below self.now)) values.old }
        ensures ascending { IsNonDecreasing self.now }
        ensures adds { AddsAtMost tally.old tally.new
            (times (length values.old) (search_reads self.now)) }
    {
        let _ = self.len();
        self.neighbour_each::<After>(values, tally)
    }

    // Replaces each number by its neighbour on one side, group by group.
    #[inline(always)]
    fn neighbour_each<S: Side>(&self, values: &mut [Option<u64>], tally: &mut Tally)
        ensures value { values.new ≡ map (option_and_then (S.neighbour self.now)) values.old }
        ensures adds { AddsAtMost tally.old tally.new
            (times (length values.old) (search_reads self.now)) }
    {
        let len = values.len();
        let mut from = 0;
        while from < len {
            let n = GROUP.min(len - from);
            self.neighbour_group::<S>(values, from, n, tally);
            from += n;
        }
    }

    // Does the same for `n` numbers: the first steps of all searches, and then the rest of each.
    #[inline(always)]
    fn neighbour_group<S: Side>(
        &self,
        values: &mut [Option<u64>],
        from: usize,
        n: usize,
        tally: &mut Tally,
    )
        requires within { from + n ≤ length values.old }
        requires few { n ≤ GROUP }
        ensures value { Changed None (λ x y. y ≡ option_and_then (S.neighbour self.now) x)
            from n values.old values.new }
        ensures adds { AddsAtMost tally.old tally.new (times n (search_reads self.now)) }
    {
        let _ = &self.len;
        let mut asked = [0; GROUP];
        let mut before = [0; GROUP];
        let mut after = [0; GROUP];
        let mut parts = [0; GROUP];
        bounds_each::<S>(values, from, n, &mut asked);
        self.begin_each::<S>(&asked[..n], &mut before, &mut after, &mut parts, tally);
        self.neighbours_each::<S>(values, from, n, &before, &after, &parts, tally);
    }

    // Does the same, from the first results of the searches.
    #[inline(always)]
    fn neighbours_each<S: Side>(
        &self,
        values: &mut [Option<u64>],
        from: usize,
        n: usize,
        before: &[usize; GROUP],
        after: &[usize; GROUP],
        parts: &[u64; GROUP],
        tally: &mut Tally,
    )
        requires within { from + n ≤ length values.old }
        requires few { n ≤ GROUP }
        requires begun { (j : ℕ) → j < n → (v : ℕ)
            → slice_index_or values.old (from + j) None ≡ Some v → IsInside self.now (S.bound v)
            → IsBegun self.now (S.bound v) (slice_index before.now j) (slice_index after.now j)
            (slice_index parts.now j) }
        ensures value { Changed None (λ x y. y ≡ option_and_then (S.neighbour self.now) x)
            from n values.old values.new }
        ensures adds { AddsAtMost tally.old tally.new
            (times n (reads (digits (length self.now) + 5) 2 (high_length self.now))) }
    {
        for j in 0..n {
            values[from + j] = self.neighbour::<S>(
                values[from + j],
                before[j],
                after[j],
                parts[j],
                tally,
            );
        }
    }

    // Returns the neighbour of a number, from the first results of the search.
    #[inline(always)]
    fn neighbour<S: Side>(
        &self,
        value: Option<u64>,
        before: usize,
        after: usize,
        part: u64,
        tally: &mut Tally,
    ) -> Option<u64>
        requires { (v : ℕ) → value ≡ Some v → IsInside self.now (S.bound v)
            → IsBegun self.now (S.bound v) before after part }
        ensures value { result ≡ option_and_then (S.neighbour self.now) value }
        ensures adds { AddsAtMost tally.old tally.new
            (reads (digits (length self.now) + 5) 2 (high_length self.now)) }
    {
        let Some(v) = value else {
            return None;
        };
        S::begun(self, v, before, after, part, tally)
    }

    // Returns the predecessor of a number, from the first results of the search.
    #[inline(always)]
    #[tactic(auto, using(crate::proofs::Elements::neighbours))]
    fn predecessor_begun(
        &self,
        v: u64,
        before: usize,
        after: usize,
        part: u64,
        tally: &mut Tally,
    ) -> Option<u64>
        requires { IsInside self.now (v + 1) → IsBegun self.now (v + 1) before after part }
        ensures value { result ≡ greatest_not_above self.now v }
        ensures adds { AddsAtMost tally.old tally.new
            (reads (digits (length self.now) + 5) 2 (high_length self.now)) }
    {
        let _ = self.len();
        let _ = self.last();
        if !self.is_inside_after(v) {
            return self.predecessor_outside(v);
        }
        let bucket = self.bucket_between(v + 1, before, after);
        let k = self.below_from(bucket, part, v + 1, tally);
        Some(self.last_below(bucket, v + 1, k, tally))
    }

    // Returns the successor of a number, from the first results of the search.
    #[inline(always)]
    #[tactic(auto, using(crate::proofs::Elements::neighbours))]
    fn successor_begun(
        &self,
        v: u64,
        before: usize,
        after: usize,
        part: u64,
        tally: &mut Tally,
    ) -> Option<u64>
        requires { IsInside self.now v → IsBegun self.now v before after part }
        ensures value { result ≡ least_not_below self.now v }
        ensures adds { AddsAtMost tally.old tally.new
            (reads (digits (length self.now) + 5) 2 (high_length self.now)) }
    {
        let _ = self.len();
        if !self.is_inside(v) {
            return self.successor_outside(v);
        }
        let bucket = self.bucket_between(v, before, after);
        let k = self.below_from(bucket, part, v, tally);
        Some(self.first_from(bucket, v, k, tally))
    }
}
