//! Queries of ascending lists.

use crate::answer::Answer;
use crate::query::Query;
use crate::queryable::Queryable;
use std::alloc::Allocator;
use vers_sorted::elias_fano::EliasFanoVec;

impl<A: Allocator + Copy> Queryable for EliasFanoVec<A> {
    ghost use Rattle.catalogue.specs.Structures.{SortedElements};

    ghost content = { SortedElements };

    #[inline(always)]
    fn answer(&self, query: Query, a: u64, b: u64, c: u64) -> Answer {
        match query {
            Query::Len => Answer::position(self.len()),
            Query::Get => Answer::number_or_absent(self.get(a as usize)),
            Query::HeapSize => Answer::position(self.heap_size()),
            Query::Rank => Answer::Found(self.rank(a)),
            Query::Has => Answer::truth(self.has(a)),
            Query::Predecessor => Answer::number_or_absent(self.predecessor(a)),
            Query::Successor => Answer::number_or_absent(self.successor(a)),
            Query::Delta => Answer::number_or_absent(self.delta(a as usize)),
            _ => Answer::Unknown,
        }
    }
}
