//! Queries of an inverted index, which has a list of documents for each term.
ghost use Rattle.std.specs.Prelude.{◌≡◌};
ghost use Rattle.catalogue.specs.ListsAnswers.{answer_of_term};

use crate::answer::Answer;
use crate::query::{Query, TermQuery};
use crate::queryable::Queryable;
use inverted::InvertedIndex;
use std::alloc::Allocator;

impl<A: Allocator + Copy> Queryable for InvertedIndex<A> {
    ghost use Rattle.catalogue.specs.Structures.{DocumentLists};

    ghost content = { DocumentLists };

    #[inline(always)]
    fn answer(&self, query: Query, a: u64, b: u64, c: u64) -> Answer {
        match query {
            Query::Len => Answer::position(self.len()),
            Query::Get => Answer::number_or_absent(self.pair_number(a as usize)),
            Query::HeapSize => Answer::position(self.heap_size()),
            Query::Terms => Answer::Found(self.terms()),
            Query::Universe => Answer::Found(self.universe()),
            Query::Term(query) => answer_of(self, query, a, b),
            _ => Answer::Unknown,
        }
    }
}

// Returns the answer to a query of the documents of a term.
#[inline(always)]
fn answer_of<A: Allocator + Copy>(
    index: &InvertedIndex<A>,
    query: TermQuery,
    term: u64,
    number: u64,
) -> Answer
    ensures { result ≡ answer_of_term index.now query term number }
{
    match query {
        TermQuery::Count => Answer::Found(index.count(term)),
        TermQuery::Get => Answer::number_or_absent(index.get(term, number as usize)),
        TermQuery::Rank => Answer::Found(index.rank(term, number)),
        TermQuery::Has => Answer::truth(index.contains(term, number)),
        TermQuery::Successor => Answer::number_or_absent(index.next_at_least(term, number)),
    }
}
