//! The choice between items, and the least of a few.
ghost use Rattle.std.specs.Prelude.{◌≡◌, ◌+◌, ◌-◌, ◌<◌, ◌≤◌, length, slice_index};
ghost use Rattle.vers_tally.specs.Reads.{only_items, AddsAtMost};
ghost use Rattle.vers_rmq.specs.Minima.{lesser};
ghost use Rattle.vers_rmq.specs.inside.Candidates.{IsLeastItem, lesser_item};

use std::alloc::Allocator;
use vers_tally::tally::{CountedItems, Tally};

/// An item of a list, with its position.
#[derive(Clone, Copy, Drop)]
pub struct PlacedItem {
    /// The position.
    pub position: usize,
    /// The item.
    pub value: u64,
}

// Returns the lesser of two items, the first if they are equal.
#[inline(always)]
pub(super) fn lesser_of(first: PlacedItem, second: PlacedItem) -> PlacedItem
    ensures { result ≡ lesser_item first second }
{
    if first.value <= second.value {
        first
    } else {
        second
    }
}

// Returns the one of two positions that has the lesser item, the first if they are equal.
#[tactic(auto, using(crate::proofs::Minima::lesser_inside, crate::proofs::Minima::chosen_position))]
pub(super) fn lesser_position(items: &[u64], m: usize, n: usize) -> usize
    requires first { m < length items.now }
    requires second { n < length items.now }
    ensures value { result ≡ lesser items.now m n }
    ensures inside { result < length items.now }
{
    let first = PlacedItem {
        position: m,
        value: items[m],
    };
    let second = PlacedItem {
        position: n,
        value: items[n],
    };
    lesser_of(first, second).position
}

// Returns the item at a position. Reads one item.
#[inline(always)]
pub(super) fn read_at<A: Allocator + Copy>(
    items: &CountedItems<A>,
    position: usize,
    tally: &mut Tally,
) -> PlacedItem
    requires { position < length items.now }
    ensures at { result.position ≡ position }
    ensures item { result.value ≡ slice_index items.now position }
    ensures adds { AddsAtMost tally.old tally.new (only_items 1) }
{
    let value = items.read(position, tally);
    PlacedItem { position, value }
}

// Returns the first least item from `i` to `j`. Reads each of them once.
#[inline(always)]
#[tactic(auto, using(crate::proofs::Minima::scan_start, crate::proofs::Minima::scan_more, crate::proofs::Minima::scan_end))]
pub(super) fn scan<A: Allocator + Copy>(
    items: &CountedItems<A>,
    i: usize,
    j: usize,
    tally: &mut Tally,
) -> PlacedItem
    requires order { i ≤ j }
    requires inside { j < length items.now }
    ensures value { IsLeastItem items.now i j result }
    ensures adds { AddsAtMost tally.old tally.new (only_items (j - i + 1)) }
{
    let _ = items.len();
    let mut least = read_at(items, i, tally);
    for k in i + 1..j + 1 {
        let here = read_at(items, k, tally);
        least = lesser_of(least, here);
    }
    least
}
