//! The ends of a range as positions of a list.
ghost use Rattle.std.specs.Prelude.{◌≡◌, ◌^◌, ◌<◌};
ghost use Rattle.std.specs.Range.Bound.{start_index, end_index};
ghost use Rattle.vers_rmq.specs.Ranges.{start_position, end_position};

use std::ops::Bound;

// Returns the first position of a range that starts at the bound, among `n` positions.
#[inline(always)]
pub(super) fn start_position(start: Bound<usize>, n: usize) -> usize
    requires some { 0 < n }
    requires start { start_index start < 2 ^ 64 }
    ensures { result ≡ start_position start n }
{
    let first = match start {
        Bound::Included(position) => position,
        Bound::Excluded(position) => position + 1,
        Bound::Unbounded => 0,
    };
    first.min(n - 1)
}

// Returns the last position of a range that ends at the bound, among `n` positions.
#[inline(always)]
pub(super) fn end_position(end: Bound<usize>, n: usize) -> usize
    requires some { 0 < n }
    requires end { 0 < end_index end n }
    ensures { result ≡ end_position end n }
{
    let last = match end {
        Bound::Included(position) => position,
        Bound::Excluded(position) => position - 1,
        Bound::Unbounded => n - 1,
    };
    last.min(n - 1)
}
