//! Queries of documents with costs.

use crate::answer::Answer;
use crate::query::Query;
use crate::queryable::Queryable;
use postings::Postings;
use std::alloc::Allocator;

impl<A: Allocator + Copy> Queryable for Postings<A> {
    ghost use Rattle.catalogue.specs.Structures.{Documents};

    ghost content = { Documents };

    #[inline(always)]
    fn answer(&self, query: Query, a: u64, b: u64, c: u64) -> Answer {
        match query {
            Query::Len => Answer::position(self.len()),
            Query::Get => Answer::number_or_absent(self.documents().get(a as usize)),
            Query::Cost => Answer::number_or_absent(self.costs().get(a as usize).copied()),
            Query::HeapSize => Answer::position(self.heap_size()),
            Query::Rank => Answer::Found(self.rank(a)),
            Query::Has => Answer::truth(self.contains(a)),
            Query::Successor => Answer::number_or_absent(self.next_at_least(a)),
            Query::Cheapest => Answer::number_or_absent(self.cheapest(a, b)),
            _ => Answer::Unknown,
        }
    }
}
