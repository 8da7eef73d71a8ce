//! Queries of lists of values for range minima, and of plain numbers.
ghost use Rattle.std.specs.Prelude.{◌≡◌};
ghost use Rattle.vers_rmq.specs.Minima.{first_least};

use crate::answer::Answer;
use crate::query::Query;
use crate::queryable::Queryable;
use std::alloc::Allocator;
use vers_rmq::rmq::binary_rmq::BinaryRmq;
use vers_rmq::rmq::fast_rmq::FastRmq;

impl<A: Allocator + Copy> Queryable for FastRmq<A> {
    ghost use Rattle.catalogue.specs.Structures.{BlockValues};

    ghost content = { BlockValues };

    #[inline(always)]
    fn answer(&self, query: Query, a: u64, b: u64, c: u64) -> Answer {
        match query {
            Query::Len => Answer::position(self.len()),
            Query::Get => Answer::number_or_absent(self.as_slice().get(a as usize).copied()),
            Query::HeapSize => Answer::position(self.heap_size()),
            Query::RangeMin => Answer::position_or_absent(fast_least(self, a as usize, b as usize)),
            _ => Answer::Unknown,
        }
    }
}

// Returns the first position of a least value from position `i` to position `j`, both included.
#[inline(always)]
fn fast_least<A: Allocator + Copy>(values: &FastRmq<A>, i: usize, j: usize) -> Option<usize>
    ensures { result ≡ first_least values.now i j }
{
    if i <= j && j < values.len() {
        Some(values.range_min(i, j))
    } else {
        None
    }
}

impl<A: Allocator + Copy> Queryable for BinaryRmq<A> {
    ghost use Rattle.catalogue.specs.Structures.{TableValues};

    ghost content = { TableValues };

    #[inline(always)]
    fn answer(&self, query: Query, a: u64, b: u64, c: u64) -> Answer {
        match query {
            Query::Len => Answer::position(self.len()),
            Query::Get => Answer::number_or_absent(self.as_slice().get(a as usize).copied()),
            Query::HeapSize => Answer::position(self.heap_size()),
            Query::RangeMin => Answer::position_or_absent(binary_least(
                self, a as usize, b as usize,
            )),
            _ => Answer::Unknown,
        }
    }
}

// Returns the first position of a least value from position `i` to position `j`, both included.
#[inline(always)]
fn binary_least<A: Allocator + Copy>(values: &BinaryRmq<A>, i: usize, j: usize) -> Option<usize>
    ensures { result ≡ first_least values.now i j }
{
    if i <= j && j < values.len() {
        Some(values.range_min(i, j))
    } else {
        None
    }
}

impl<A: Allocator + Copy> Queryable for Vec<u64, A> {
    ghost use Rattle.catalogue.specs.Structures.{PlainNumbers};

    ghost content = { λ numbers. PlainNumbers numbers.items };

    #[inline(always)]
    fn answer(&self, query: Query, a: u64, b: u64, c: u64) -> Answer {
        match query {
            Query::Len => Answer::position(self.len()),
            Query::Get => Answer::number_or_absent(self.as_slice().get(a as usize).copied()),
            _ => Answer::Unknown,
        }
    }
}
