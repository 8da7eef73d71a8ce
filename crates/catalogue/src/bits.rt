//! Queries of lists of bits.

use crate::answer::Answer;
use crate::query::Query;
use crate::queryable::Queryable;
use std::alloc::Allocator;
use vers_bits::bit_vec::BitVec;
use vers_rank::fast_rs_vec::RsVec;

impl<A: Allocator + Copy> Queryable for BitVec<A> {
    ghost use Rattle.catalogue.specs.Structures.{GrowingBits};

    ghost content = { GrowingBits };

    #[inline(always)]
    fn answer(&self, query: Query, a: u64, b: u64, c: u64) -> Answer {
        match query {
            Query::Len => Answer::position(self.len()),
            Query::Get => Answer::number_or_absent(self.get(a as usize)),
            Query::GetBits => Answer::number_or_absent(self.get_bits(a as usize, b as usize)),
            Query::HeapSize => Answer::position(self.heap_size()),
            _ => Answer::Unknown,
        }
    }
}

impl<A: Allocator + Copy> Queryable for RsVec<A> {
    ghost use Rattle.catalogue.specs.Structures.{IndexedBits};

    ghost content = { IndexedBits };

    #[inline(always)]
    fn answer(&self, query: Query, a: u64, b: u64, c: u64) -> Answer {
        match query {
            Query::Len => Answer::position(self.len()),
            Query::Get => Answer::number_or_absent(self.get(a as usize)),
            Query::GetBits => Answer::number_or_absent(self.get_bits(a as usize, b as usize)),
            Query::HeapSize => Answer::position(self.heap_size()),
            Query::Rank0 => Answer::position(self.rank0(a as usize)),
            Query::Rank1 => Answer::position(self.rank1(a as usize)),
            Query::Select0 => Answer::position(self.select0(a as usize)),
            Query::Select1 => Answer::position(self.select1(a as usize)),
            _ => Answer::Unknown,
        }
    }
}
