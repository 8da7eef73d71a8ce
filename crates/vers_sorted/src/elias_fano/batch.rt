//! Queries for many positions or numbers at once.
ghost use Rattle.std.specs.Prelude.{◌≡◌, ℕ, ◌+◌, ◌<◌, ◌≤◌, length, map, slice_get, slice_index, slice_index_or, unwrap_or, option_and_then, Some, None};
ghost use Rattle.std.specs.List.Sorted.{IsNonDecreasing};
ghost use Rattle.vers_tally.specs.Reads.{digits, only_low_parts, times, AddsAtMost};
ghost use Rattle.vers_rank.specs.Batches.{Changed};
ghost use Rattle.vers_sorted.specs.Sorted.{below};
ghost use Rattle.vers_sorted.specs.Layout.{high_position, element_reads, search_reads};
ghost use Rattle.vers_sorted.specs.inside.Begun.{IsBegun, IsInside};

use super::EliasFanoVec;
use super::iter::Elements;
use std::alloc::Allocator;
use vers_tally::tally::Tally;

/// The elements that are searched together: enough that the processor has their reads in flight at once, and few
/// enough that what they read stays in the cache.
pub(super) const GROUP: usize = 64;

// Computes the numbers of the ones of the elements at `n` positions, past all ones for each `None`.
#[inline(always)]
fn ask_each(positions: &[Option<u64>], from: usize, n: usize, ones: &mut [usize; GROUP])
    requires within { from + n ≤ length positions.now }
    requires few { n ≤ GROUP }
    ensures { (j : ℕ) → j < n → slice_index ones.new j
        ≡ unwrap_or (slice_index_or positions.now (from + j) None) 18446744073709551615 }
{
    for j in 0..n {
        ones[j] = positions[from + j].unwrap_or(u64::MAX) as usize;
    }
}

// Returns true if the last of `n` positions is n - 1 past the first, as in a run.
#[inline(always)]
fn is_run(positions: &[Option<u64>], from: usize, n: usize) -> bool
    requires { from + n ≤ length positions.now }
{
    if n < 2 {
        return false;
    }
    match (positions[from], positions[from + n - 1]) {
        (Some(first), Some(last)) => last.wrapping_sub(first) == (n - 1) as u64,
        _ => false,
    }
}

impl<A: Allocator + Copy> EliasFanoVec<A> {
    /// Replaces each `Some(i)` in `positions` by `get(i)`; each `None` stays. Allocates nothing.
    pub fn get_each(&self, positions: &mut [Option<u64>])
        ensures value { positions.new ≡ map (option_and_then (slice_get self.now)) positions.old }
        ensures ascending { IsNonDecreasing self.now }
    {
        let mut tally = Tally::new();
        self.get_each_counted(positions, &mut tally)
    }

    /// Does what `get_each` does. Reads at most what as many calls of `get` do.
    #[inline(always)]
    pub fn get_each_counted(&self, positions: &mut [Option<u64>], tally: &mut Tally)
        ensures value { positions.new ≡ map (option_and_then (slice_get self.now)) positions.old }
        ensures ascending { IsNonDecreasing self.now }
        ensures adds { AddsAtMost tally.old tally.new
            (times (length positions.old) (element_reads self.now)) }
    {
        let _ = self.len();
        let len = positions.len();
        let mut from = 0;
        while from < len {
            let n = GROUP.min(len - from);
            self.get_group(positions, from, n, tally);
            from += n;
        }
    }

    // Replaces each of `n` positions by the element there: in turn if they are a run, otherwise by all selects first,
    // level by level.
    #[inline(always)]
    fn get_group(&self, positions: &mut [Option<u64>], from: usize, n: usize, tally: &mut Tally)
        requires within { from + n ≤ length positions.old }
        requires few { n ≤ GROUP }
        ensures value { Changed None (λ position m. m ≡ option_and_then (slice_get self.now) position)
            from n positions.old positions.new }
        ensures adds { AddsAtMost tally.old tally.new (times n (element_reads self.now)) }
    {
        if is_run(positions, from, n) {
            self.get_in_turn(positions, from, n, tally);
            return;
        }
        let _ = &self.len;
        let mut ones = [0; GROUP];
        ask_each(positions, from, n, &mut ones);
        self.high.select1_each_counted(&mut ones[..n], tally);
        self.elements_each(positions, from, n, &ones, tally);
    }

    // Replaces each of `n` positions by the element there, as an iterator reads them.
    fn get_in_turn(&self, positions: &mut [Option<u64>], from: usize, n: usize, tally: &mut Tally)
        requires { from + n ≤ length positions.old }
        ensures value { Changed None (λ position m. m ≡ option_and_then (slice_get self.now) position)
            from n positions.old positions.new }
        ensures adds { AddsAtMost tally.old tally.new (times n (element_reads self.now)) }
    {
        let mut elements = Elements::new(self);
        for j in 0..n {
            positions[from + j] = elements.element_of(positions[from + j], tally);
        }
    }

    // Replaces each of `n` positions by the element there, by the position of its one.
    #[inline(always)]
    fn elements_each(
        &self,
        positions: &mut [Option<u64>],
        from: usize,
        n: usize,
        ones: &[usize; GROUP],
        tally: &mut Tally,
    )
        requires within { from + n ≤ length positions.old }
        requires few { n ≤ GROUP }
        requires ones { (j : ℕ) → j < n → (i : ℕ)
            → slice_index_or positions.old (from + j) None ≡ Some i → i < length self.now
            → slice_index ones.now j ≡ high_position self.now i }
        ensures value { Changed None (λ position m. m ≡ option_and_then (slice_get self.now) position)
            from n positions.old positions.new }
        ensures adds { AddsAtMost tally.old tally.new (times n (only_low_parts 1)) }
    {
        for j in 0..n {
            positions[from + j] = self.element_at(positions[from + j], ones[j], tally);
        }
    }

    // Returns the element at a position, by the position of its one.
    #[inline(always)]
    #[tactic(auto, using(crate::proofs::Packed::gets))]
    fn element_at(&self, position: Option<u64>, one: usize, tally: &mut Tally) -> Option<u64>
        requires { (i : ℕ) → position ≡ Some i → i < length self.now → one ≡ high_position self.now i }
        ensures value { result ≡ option_and_then (slice_get self.now) position }
        ensures adds { AddsAtMost tally.old tally.new (only_low_parts 1) }
    {
        let Some(number) = position else {
            return None;
        };
        let i = number as usize;
        if i >= self.len() {
            return None;
        }
        Some(self.with_low_part((one - i - 1) as u64, i, tally))
    }

    /// Replaces each `v` in `numbers` by `rank(v)`. Allocates nothing.
    pub fn rank_each(&self, numbers: &mut [u64])
        ensures value { numbers.new ≡ map (below self.now) numbers.old }
        ensures ascending { IsNonDecreasing self.now }
    {
        let mut tally = Tally::new();
        self.rank_each_counted(numbers, &mut tally)
    }

    /// Replaces each `v` in `numbers` by `rank(v)`. Reads at most what as many calls of `rank` do.
    #[inline(always)]
    pub fn rank_each_counted(&self, numbers: &mut [u64], tally: &mut Tally)
        ensures value { numbers.new ≡ map (below self.now) numbers.old }
        ensures ascending { IsNonDecreasing self.now }
        ensures adds { AddsAtMost tally.old tally.new
            (times (length numbers.old) (search_reads self.now)) }
    {
        let _ = self.len();
        let len = numbers.len();
        let mut from = 0;
        while from < len {
            let n = GROUP.min(len - from);
            self.rank_group(numbers, from, n, tally);
            from += n;
        }
    }

    // Replaces each of `n` numbers by the number of elements below it.
    #[inline(always)]
    #[tactic(auto, using(crate::proofs::Batches::rank_reads))]
    fn rank_group(&self, numbers: &mut [u64], from: usize, n: usize, tally: &mut Tally)
        requires within { from + n ≤ length numbers.old }
        requires few { n ≤ GROUP }
        ensures value { Changed 0 (λ v r. r ≡ below self.now v) from n numbers.old numbers.new }
        ensures adds { AddsAtMost tally.old tally.new (times n (search_reads self.now)) }
    {
        let mut before = [0; GROUP];
        let mut after = [0; GROUP];
        let mut parts = [0; GROUP];
        self.begin_each::<u64>(
            &numbers[from..from + n],
            &mut before,
            &mut after,
            &mut parts,
            tally,
        );
        self.ranks_each(numbers, from, n, &before, &after, &parts, tally);
    }

    // Does the same, from the first results of the searches.
    #[inline(always)]
    fn ranks_each(
        &self,
        numbers: &mut [u64],
        from: usize,
        n: usize,
        before: &[usize; GROUP],
        after: &[usize; GROUP],
        parts: &[u64; GROUP],
        tally: &mut Tally,
    )
        requires within { from + n ≤ length numbers.old }
        requires few { n ≤ GROUP }
        requires begun { (j : ℕ) → j < n → IsInside self.now (slice_index numbers.old (from + j))
            → IsBegun self.now (slice_index numbers.old (from + j)) (slice_index before.now j)
            (slice_index after.now j) (slice_index parts.now j) }
        ensures value { Changed 0 (λ v r. r ≡ below self.now v) from n numbers.old numbers.new }
        ensures adds { AddsAtMost tally.old tally.new
            (times n (only_low_parts (digits (length self.now) + 4))) }
    {
        for j in 0..n {
            numbers[from + j] = self.rank_begun(
                numbers[from + j],
                before[j],
                after[j],
                parts[j],
                tally,
            );
        }
    }

    // Returns the number of elements below a number, from the first results of the search.
    #[inline(always)]
    fn rank_begun(&self, v: u64, before: usize, after: usize, part: u64, tally: &mut Tally) -> u64
        requires { IsInside self.now v → IsBegun self.now v before after part }
        ensures value { result ≡ below self.now v }
        ensures adds { AddsAtMost tally.old tally.new
            (only_low_parts (digits (length self.now) + 4)) }
    {
        let _ = self.len();
        if !self.is_inside(v) {
            return self.rank_outside(v);
        }
        let bucket = self.bucket_between(v, before, after);
        self.below_from(bucket, part, v, tally) as u64
    }
}
