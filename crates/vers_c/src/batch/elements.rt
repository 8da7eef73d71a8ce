//! Batches of queries of ascending lists.
ghost use Rattle.std.specs.Prelude.{◌≡◌, map, option_and_then, slice_get, slice_index_or, unwrap_or};
ghost use Rattle.vers_sorted.specs.Sorted.{below};
ghost use Rattle.catalogue.specs.Answers.{found_or_absent};
ghost use Rattle.catalogue.specs.declared.answer.Answer.TheVariants as answer;
ghost use Rattle.vers_c.specs.Batches.{answered_row};
ghost use Rattle.catalogue.specs.BitsAnswers.{sparse_answer};
ghost use Rattle.catalogue.specs.ListsAnswers.{lists_answer};
ghost use Rattle.catalogue.specs.PostingsAnswers.{posted_answer};
ghost use Rattle.catalogue.specs.SortedAnswers.{sorted_answer};
ghost use Rattle.vers_c.specs.BatchQueries.{element_found, element_query};
ghost use Rattle.catalogue.specs.declared.query.Query.TheVariants as query;

use super::{Batch, GROUP, in_groups};
use crate::asked::{Ask, Row, answer_each};
use catalogue::answer::Answer;
use catalogue::query::Query;
use inverted::InvertedIndex;
use postings::Postings;
use std::alloc::Global;
use vers_sorted::elias_fano::EliasFanoVec;
use vers_sorted::sparse::SparseRSVec;

// Numbers of elements below numbers.
#[derive(Clone, Copy)]
struct Ranks;

impl Batch<EliasFanoVec<Global>, u64> for Ranks {
    ghost answers = { λ _ elements. sorted_answer elements query.Rank };

    ghost wants = { λ _ elements number. answer.Found (below elements number) };

    ghost says = { λ _ rank. answer.Found rank };

    #[inline(always)]
    fn of(self, ask: Ask) -> u64 {
        ask.a
    }

    #[inline(always)]
    fn ask_all(self, elements: &EliasFanoVec<Global>, numbers: &mut [u64]) {
        elements.rank_each(numbers)
    }

    #[inline(always)]
    fn answer(self, rank: u64) -> Answer {
        Answer::Found(rank)
    }
}

/// The element to be found from a number.
#[derive(Clone, Copy)]
pub enum Element {
    /// The one at a position.
    At,
    /// The greatest that is at most the number.
    Before,
    /// The least that is at least the number.
    After,
}

impl Batch<EliasFanoVec<Global>, Option<u64>> for Element {
    ghost answers = { λ element elements. sorted_answer elements (element_query element) };

    ghost wants = { λ element elements number.
        found_or_absent (option_and_then (element_found element elements) number) };

    ghost says = { λ _ element. found_or_absent element };

    #[inline(always)]
    fn of(self, ask: Ask) -> Option<u64> {
        Some(ask.a)
    }

    #[inline(always)]
    fn ask_all(self, elements: &EliasFanoVec<Global>, numbers: &mut [Option<u64>]) {
        match self {
            Element::At => elements.get_each(numbers),
            Element::Before => elements.predecessor_each(numbers),
            Element::After => elements.successor_each(numbers),
        }
    }

    #[inline(always)]
    fn answer(self, element: Option<u64>) -> Answer {
        Answer::number_or_absent(element)
    }
}

// The positions of the ones of a list of bits by their numbers, or its length if there is no such one.
#[derive(Clone, Copy)]
struct Ones {
    len: u64,
}

impl Batch<EliasFanoVec<Global>, Option<u64>> for Ones {
    ghost answers = { λ ones elements number _ _. answer.Found (slice_index_or elements number ones.len) };

    ghost wants = { λ ones elements number.
        answer.Found (unwrap_or (option_and_then (slice_get elements) number) ones.len) };

    ghost says = { λ ones element. answer.Found (unwrap_or element ones.len) };

    #[inline(always)]
    fn of(self, ask: Ask) -> Option<u64> {
        Some(ask.a)
    }

    #[inline(always)]
    fn ask_all(self, elements: &EliasFanoVec<Global>, numbers: &mut [Option<u64>]) {
        elements.get_each(numbers)
    }

    #[inline(always)]
    fn answer(self, element: Option<u64>) -> Answer {
        Answer::Found(element.unwrap_or(self.len))
    }
}

/// Replaces each row by the answer of an ascending list to its numbers, with a batch search for each frequent
/// query.
pub fn each_of_elements<R: Row>(
    elements: &EliasFanoVec<Global>,
    query: Query,
    rows: &mut [R],
    b: u64,
    c: u64,
    other: u64,
)
    ensures { rows.new ≡ map (answered_row R.ask R.with_answer (sorted_answer elements.now query) other b c) rows.old }
{
    match query {
        Query::Get => find_each(elements, Element::At, rows, b, c, other),
        Query::Predecessor => find_each(elements, Element::Before, rows, b, c, other),
        Query::Successor => find_each(elements, Element::After, rows, b, c, other),
        Query::Rank => {
            let mut numbers = [0; GROUP];
            in_groups(Ranks, elements, &mut numbers, rows, b, c, other)
        }
        _ => answer_each(elements, query, rows, b, c, other),
    }
}

/// Does what `each_of_elements` does for a list of bits with few ones, whose positions are an ascending list.
#[tactic(auto, unfolding(vers_bits::specs::Bits::select))]
pub fn each_of_ones<R: Row>(
    bits: &SparseRSVec<Global>,
    query: Query,
    rows: &mut [R],
    b: u64,
    c: u64,
    other: u64,
)
    ensures { rows.new ≡ map (answered_row R.ask R.with_answer (sparse_answer bits.now query) other b c) rows.old }
{
    match query {
        Query::Select1 => {
            let ones = Ones { len: bits.len() };
            let mut numbers = [None; GROUP];
            in_groups(ones, bits.ones(), &mut numbers, rows, b, c, other)
        }
        _ => answer_each(bits, query, rows, b, c, other),
    }
}

/// Does what `each_of_elements` does for documents with costs, which are an ascending list.
pub fn each_of_documents<R: Row>(
    posted: &Postings<Global>,
    query: Query,
    rows: &mut [R],
    b: u64,
    c: u64,
    other: u64,
)
    ensures { rows.new ≡ map (answered_row R.ask R.with_answer (posted_answer posted.now query) other b c) rows.old }
{
    let documents = posted.documents();
    match query {
        Query::Get => each_of_elements(documents, Query::Get, rows, b, c, other),
        Query::Rank => each_of_elements(documents, Query::Rank, rows, b, c, other),
        Query::Successor => each_of_elements(documents, Query::Successor, rows, b, c, other),
        _ => answer_each(posted, query, rows, b, c, other),
    }
}

/// Does what `each_of_elements` does for an inverted index, whose pairs are an ascending list of numbers.
pub fn each_of_pairs<R: Row>(
    index: &InvertedIndex<Global>,
    query: Query,
    rows: &mut [R],
    b: u64,
    c: u64,
    other: u64,
)
    ensures { rows.new ≡ map (answered_row R.ask R.with_answer (lists_answer index.now query) other b c) rows.old }
{
    match query {
        Query::Get => each_of_elements(index.pair_numbers(), Query::Get, rows, b, c, other),
        _ => answer_each(index, query, rows, b, c, other),
    }
}

// Does what `each_of_elements` does for the query of an element.
fn find_each<R: Row>(
    elements: &EliasFanoVec<Global>,
    element: Element,
    rows: &mut [R],
    b: u64,
    c: u64,
    other: u64,
)
    ensures { rows.new ≡ map
        (answered_row R.ask R.with_answer (sorted_answer elements.now (element_query element)) other b c) rows.old }
{
    let mut numbers = [None; GROUP];
    in_groups(element, elements, &mut numbers, rows, b, c, other)
}
