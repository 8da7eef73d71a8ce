//! Interpolation of a number's position among many elements with the same high part.
ghost use Rattle.std.specs.Prelude.{◌≡◌, ◌≤◌, slice_index};
ghost use Rattle.vers_tally.specs.Reads.{only_low_parts, AddsAtMost};
ghost use Rattle.vers_sorted.specs.Layout.{first_of, low_of};
ghost use Rattle.vers_sorted.specs.inside.Buckets.{IsBucket, IsBetween};

use super::EliasFanoVec;
use super::search::Bucket;
use std::alloc::Allocator;
use vers_tally::tally::Tally;

// The range of positions that contains the end of the elements below a number.
#[derive(Clone, Copy, Drop)]
pub(super) struct Between {
    pub(super) from: usize,
    pub(super) to: usize,
}

// The number of elements with the same high part from which on interpolation pays off.
pub(super) const MANY: usize = 256;

// Returns the position of a low part among `count` that rise evenly from `first` to `last`.
#[inline(always)]
fn guess(first: u64, last: u64, low: u64, count: usize) -> usize {
    let span = last.saturating_sub(first);
    let above = low.saturating_sub(first).min(span);
    let shift = 32u32.saturating_sub(span.leading_zeros());
    let share = (above >> shift).wrapping_mul(count as u64);
    (share / (span >> shift).max(1)) as usize
}

impl<A: Allocator + Copy> EliasFanoVec<A> {
    // Returns the range that contains the end of the elements below `v`. If the elements rise evenly, but for a
    // few at both ends, it is short.
    #[inline(always)]
    #[tactic(auto, using(crate::proofs::Buckets::search_steps))]
    pub(super) fn narrowed(&self, bucket: Bucket, v: u64, low: u64, tally: &mut Tally) -> Between
        requires above { first_of self.now ≤ v }
        requires bucket { IsBucket self.now v bucket }
        requires low { low ≡ low_of self.now v }
        ensures between { IsBetween self.now v bucket result }
        ensures adds { AddsAtMost tally.old tally.new (only_low_parts 4) }
    {
        let _ = self.len();
        let all = Between {
            from: bucket.start,
            to: bucket.end,
        };
        let count = bucket.end - bucket.start;
        if count < MANY {
            return all;
        }
        // A few at both ends may be far from the others.
        let start = bucket.start + count / 64;
        let last = bucket.end - 1 - count / 64;
        let from = self.low_part(start, tally);
        let to = self.low_part(last, tally);
        let after = self.side_of(bucket, v, low, all, start, from);
        let between = self.side_of(bucket, v, low, after, last, to);
        let near = start.saturating_add(guess(from, to, low, count - count / 32));
        let margin = count / MANY;
        let lower = near.saturating_sub(margin);
        let after = self.probed(bucket, v, low, between, lower, tally);
        self.probed(bucket, v, low, after, near.saturating_add(margin), tally)
    }

    // Returns the side of position `i` that contains the end of the elements below `v`, if `i` is one of the
    // positions.
    #[inline(always)]
    #[tactic(auto, using(crate::proofs::Buckets::search_steps))]
    fn probed(
        &self,
        bucket: Bucket,
        v: u64,
        low: u64,
        between: Between,
        i: usize,
        tally: &mut Tally,
    ) -> Between
        requires above { first_of self.now ≤ v }
        requires bucket { IsBucket self.now v bucket }
        requires low { low ≡ low_of self.now v }
        requires between { IsBetween self.now v bucket between }
        ensures between { IsBetween self.now v bucket result }
        ensures adds { AddsAtMost tally.old tally.new (only_low_parts 1) }
    {
        let _ = self.len();
        if i < between.from {
            return between;
        }
        if i >= between.to {
            return between;
        }
        let part = self.low_part(i, tally);
        self.side_of(bucket, v, low, between, i, part)
    }

    // Does the same from the low part of the element at position `i`, which was read.
    #[inline(always)]
    #[tactic(auto, using(crate::proofs::Buckets::search_steps))]
    fn side_of(
        &self,
        bucket: Bucket,
        v: u64,
        low: u64,
        between: Between,
        i: usize,
        part: u64,
    ) -> Between
        requires above { first_of self.now ≤ v }
        requires bucket { IsBucket self.now v bucket }
        requires low { low ≡ low_of self.now v }
        requires between { IsBetween self.now v bucket between }
        requires part { part ≡ low_of self.now (slice_index self.now i) }
        ensures { IsBetween self.now v bucket result }
    {
        let _ = self.len();
        if i < between.from {
            return between;
        }
        if i >= between.to {
            return between;
        }
        if part < low {
            return Between {
                from: i + 1,
                to: between.to,
            };
        }
        Between {
            from: between.from,
            to: i,
        }
    }
}
