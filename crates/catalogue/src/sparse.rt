//! Queries of lists of bits with few ones.

use crate::answer::Answer;
use crate::query::Query;
use crate::queryable::Queryable;
use std::alloc::Allocator;
use vers_sorted::sparse::SparseRSVec;

impl<A: Allocator + Copy> Queryable for SparseRSVec<A> {
    ghost use Rattle.catalogue.specs.Structures.{SparseBits};

    ghost content = { SparseBits };

    #[inline(always)]
    fn answer(&self, query: Query, a: u64, b: u64, c: u64) -> Answer {
        match query {
            Query::Len => Answer::Found(self.len()),
            Query::Get => Answer::number_or_absent(self.get(a)),
            Query::HeapSize => Answer::position(self.heap_size()),
            Query::Rank0 => Answer::Found(self.rank0(a)),
            Query::Rank1 => Answer::Found(self.rank1(a)),
            Query::Select1 => Answer::Found(self.select1(a as usize)),
            _ => Answer::Unknown,
        }
    }
}
