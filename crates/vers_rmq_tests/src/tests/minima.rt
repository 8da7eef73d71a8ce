//! Lists with range minima, and their queries.
ghost use Rattle.std.specs.Prelude.{◌≡◌, ℕ, ◌^◌, ◌<◌, ◌≤◌, IsTrue, length};
ghost use Rattle.std.specs.Range.Bound.{start_index, end_index};
ghost use Rattle.vers_rmq.specs.Ranges.{start_position, end_position};

use std::alloc::{AllocError, Allocator};
use std::ops::Bound;
use vers_bits::bit_vec::GrowError;
use vers_rmq::rmq::binary_rmq::BinaryRmq;
use vers_rmq::rmq::fast_rmq::FastRmq;
use vers_tally::tally::Tally;

/// The queries of both types.
pub trait RangeMinima: Clone + Drop {
    ghost item_count: { Self → ℕ };

    /// The greatest number of items that one query reads.
    const MOST_READS: u64;

    fn numbers(&self) -> &[u64];

    fn count(&self) -> usize
        ensures { result ≡ item_count self.now };

    fn has_none(&self) -> bool;

    fn bytes(&self) -> usize;

    // The query and its counted form, and both with ends.
    fn position(&self, i: usize, j: usize) -> usize
        requires order { i ≤ j }
        requires inside { j < item_count self.now };

    fn position_counted(&self, i: usize, j: usize, tally: &mut Tally) -> usize
        requires order { i ≤ j }
        requires inside { j < item_count self.now };

    fn position_in(&self, start: Bound<usize>, end: Bound<usize>) -> usize
        requires some { 0 < item_count self.now }
        requires start { start_index start < 2 ^ 64 }
        requires end { 0 < end_index end (item_count self.now) }
        requires order { start_position start (item_count self.now) ≤ end_position end (item_count self.now) };

    fn position_in_counted(
        &self,
        start: Bound<usize>,
        end: Bound<usize>,
        tally: &mut Tally,
    ) -> usize
        requires some { 0 < item_count self.now }
        requires start { start_index start < 2 ^ 64 }
        requires end { 0 < end_index end (item_count self.now) }
        requires order { start_position start (item_count self.now) ≤ end_position end (item_count self.now) };

    // Returns true if the functions that only this type has agree that the first least item is at a position.
    fn agrees(&self, i: usize, j: usize, position: usize) -> bool
        requires order { i ≤ j }
        requires inside { j < item_count self.now };
}

/// The constructors of both types, with memory of an allocator.
pub trait MadeOf<A>: RangeMinima {
    /// A vector of items.
    type Items: Drop;

    fn vec_of(alloc: A, items: &[u64]) -> Result<Self::Items, AllocError>;

    /// Returns the items of a vector, or `AllocError` also if there are too many.
    fn of_vec(items: Self::Items) -> Result<Self, AllocError>;

    /// Returns the items of an iterator.
    fn of_iter(alloc: A, items: &[u64]) -> Result<Self, GrowError>;
}

/// Returns the position of the first least item from `i` to `j`. `None` if the list does not have the range, or
/// if another form returns another position, or reads more items than its bound.
pub fn least<R: RangeMinima>(minima: &R, i: usize, j: usize) -> Option<usize> {
    if i > j || j >= minima.count() {
        return None;
    }
    let mut tally = Tally::new();
    let position = minima.position_counted(i, j, &mut tally);
    let is_few = tally.items() <= R::MOST_READS;
    if is_few && minima.position(i, j) == position && minima.agrees(i, j, position) {
        Some(position)
    } else {
        None
    }
}

/// Does the same for a range with ends.
pub fn least_in<R: RangeMinima>(
    minima: &R,
    start: Bound<usize>,
    end: Bound<usize>,
) -> Option<usize> {
    if !may_ask(start, end, minima.count()) {
        return None;
    }
    let mut tally = Tally::new();
    let position = minima.position_in_counted(start, end, &mut tally);
    if tally.items() <= R::MOST_READS && minima.position_in(start, end) == position {
        Some(position)
    } else {
        None
    }
}

// Returns true if the ends are valid for a list of `n` items.
fn may_ask(start: Bound<usize>, end: Bound<usize>, n: usize) -> bool
    ensures some { IsTrue result → 0 < n }
    ensures start { IsTrue result → start_index start < 2 ^ 64 }
    ensures end { IsTrue result → 0 < end_index end n }
    ensures order { IsTrue result → start_position start n ≤ end_position end n }
{
    if n == 0 {
        return false;
    }
    let first = match start {
        Bound::Included(position) => position,
        Bound::Excluded(position) => {
            if position == usize::MAX {
                return false;
            }
            position + 1
        }
        Bound::Unbounded => 0,
    };
    let last = match end {
        Bound::Included(position) => position,
        Bound::Excluded(position) => {
            if position == 0 {
                return false;
            }
            position - 1
        }
        Bound::Unbounded => n - 1,
    };
    first.min(n - 1) <= last.min(n - 1)
}

impl<A: Allocator + Copy> MadeOf<A> for BinaryRmq<A> {
    type Items = Vec<u64, A>;

    fn vec_of(alloc: A, items: &[u64]) -> Result<Vec<u64, A>, AllocError> {
        Vec::from_slice(alloc, items)
    }

    fn of_vec(items: Vec<u64, A>) -> Result<Self, AllocError> {
        if items.len() > vers_rmq::rmq::binary_rmq::MAX_LEN {
            return Err(AllocError);
        }
        BinaryRmq::from_vec(items)
    }

    fn of_iter(alloc: A, items: &[u64]) -> Result<Self, GrowError> {
        BinaryRmq::from_iter(alloc, items.iter().copied())
    }
}

impl<A: Allocator + Copy> RangeMinima for BinaryRmq<A> {
    ghost item_count = { λ items. length items };

    const MOST_READS: u64 = 2;

    fn numbers(&self) -> &[u64] {
        self.as_slice()
    }

    fn count(&self) -> usize {
        self.len()
    }

    fn has_none(&self) -> bool {
        self.is_empty()
    }

    fn bytes(&self) -> usize {
        self.heap_size()
    }

    fn position(&self, i: usize, j: usize) -> usize {
        self.range_min(i, j)
    }

    fn position_counted(&self, i: usize, j: usize, tally: &mut Tally) -> usize {
        self.range_min_counted(i, j, tally)
    }

    fn position_in(&self, start: Bound<usize>, end: Bound<usize>) -> usize {
        self.range_min_with_range(start, end)
    }

    fn position_in_counted(
        &self,
        start: Bound<usize>,
        end: Bound<usize>,
        tally: &mut Tally,
    ) -> usize {
        self.range_min_with_range_counted(start, end, tally)
    }

    fn agrees(&self, i: usize, j: usize, position: usize) -> bool {
        if position >= self.len() {
            return false;
        }
        let mut tally = Tally::new();
        let least = self.range_min_item(i, j);
        let counted = self.range_min_item_counted(i, j, &mut tally);
        least.position == position
            && counted.position == position
            && least.value == self.item(position)
            && counted.value == self.item_counted(position, &mut tally)
            && tally.items() <= 3
    }
}

impl<A: Allocator + Copy> MadeOf<A> for FastRmq<A> {
    type Items = Vec<u64, A>;

    fn vec_of(alloc: A, items: &[u64]) -> Result<Vec<u64, A>, AllocError> {
        Vec::from_slice(alloc, items)
    }

    fn of_vec(items: Vec<u64, A>) -> Result<Self, AllocError> {
        if items.len() > vers_rmq::rmq::fast_rmq::MAX_LEN {
            return Err(AllocError);
        }
        FastRmq::from_vec(items)
    }

    fn of_iter(alloc: A, items: &[u64]) -> Result<Self, GrowError> {
        FastRmq::from_iter(alloc, items.iter().copied())
    }
}

impl<A: Allocator + Copy> RangeMinima for FastRmq<A> {
    ghost item_count = { λ items. length items };

    const MOST_READS: u64 = 18;

    fn numbers(&self) -> &[u64] {
        self.as_slice()
    }

    fn count(&self) -> usize {
        self.len()
    }

    fn has_none(&self) -> bool {
        self.is_empty()
    }

    fn bytes(&self) -> usize {
        self.heap_size()
    }

    fn position(&self, i: usize, j: usize) -> usize {
        self.range_min(i, j)
    }

    fn position_counted(&self, i: usize, j: usize, tally: &mut Tally) -> usize {
        self.range_min_counted(i, j, tally)
    }

    fn position_in(&self, start: Bound<usize>, end: Bound<usize>) -> usize {
        self.range_min_with_range(start, end)
    }

    fn position_in_counted(
        &self,
        start: Bound<usize>,
        end: Bound<usize>,
        tally: &mut Tally,
    ) -> usize {
        self.range_min_with_range_counted(start, end, tally)
    }

    fn agrees(&self, _: usize, _: usize, _: usize) -> bool {
        true
    }
}

/// Returns the range minima of numbers.
pub fn made<A, R: MadeOf<A>>(alloc: A, numbers: &[u64]) -> Result<R, AllocError> {
    R::of_vec(R::vec_of(alloc, numbers)?)
}
