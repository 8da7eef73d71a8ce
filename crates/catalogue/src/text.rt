//! Queries of texts.

use crate::answer::Answer;
use crate::query::Query;
use crate::queryable::Queryable;
use std::alloc::Allocator;
use text_index::TextIndex;

impl<A: Allocator + Copy> Queryable for TextIndex<A> {
    ghost use Rattle.catalogue.specs.Structures.{IndexedText};

    ghost content = { IndexedText };

    #[inline(always)]
    fn answer(&self, query: Query, _a: u64, _b: u64, _c: u64) -> Answer {
        match query {
            Query::Len => Answer::position(self.len()),
            Query::Width => Answer::Found(u64::from(self.bits_per_symbol())),
            Query::HeapSize => Answer::position(self.heap_size()),
            Query::Step => Answer::position(self.step()),
            _ => Answer::Unknown,
        }
    }
}
