//! Queries of a list of documents.
ghost use Rattle.std.specs.Prelude.{◌≡◌, ◌+◌, ◌≤◌, All, length, IfOk};
ghost use Rattle.vers_tally.specs.Reads.{AddsAtMost};
ghost use Rattle.vers_sorted.specs.Sorted.{is_element, below, least_not_below};
ghost use Rattle.vers_sorted.specs.Layout.{search_reads};
ghost use Rattle.postings.specs.Posted.{cheapest, common, cheapest_reads, intersect_reads, lookups};

use crate::postings::Postings;
use std::alloc::{AllocError, Allocator};
use vers_sorted::elias_fano::{EliasFanoVec, by_length};
use vers_tally::tally::Tally;

impl<A: Allocator + Copy> Postings<A> {
    /// Returns true if a document is in the list.
    #[inline]
    pub fn contains(&self, document: u64) -> bool
        ensures { result ≡ is_element self.now.documents document }
    {
        self.documents.has(document)
    }

    /// Returns `contains(document)`. Reads at most what one search among the documents does.
    #[inline(always)]
    pub fn contains_counted(&self, document: u64, tally: &mut Tally) -> bool
        ensures value { result ≡ is_element self.now.documents document }
        ensures adds { AddsAtMost tally.old tally.new (search_reads self.now.documents) }
    {
        self.documents.has_counted(document, tally)
    }

    /// Returns the number of documents below a number.
    #[inline]
    pub fn rank(&self, document: u64) -> u64
        ensures value { result ≡ below self.now.documents document }
        ensures within { result ≤ length self.now.documents }
    {
        self.documents.rank(document)
    }

    /// Returns `rank(document)`. Reads at most what one search among the documents does.
    #[inline(always)]
    pub fn rank_counted(&self, document: u64, tally: &mut Tally) -> u64
        ensures value { result ≡ below self.now.documents document }
        ensures within { result ≤ length self.now.documents }
        ensures adds { AddsAtMost tally.old tally.new (search_reads self.now.documents) }
    {
        self.documents.rank_counted(document, tally)
    }

    /// Returns the first document that is at least a number, or `None` if there is none.
    #[inline]
    pub fn next_at_least(&self, document: u64) -> Option<u64>
        ensures { result ≡ least_not_below self.now.documents document }
    {
        self.documents.successor(document)
    }

    /// Returns `next_at_least(document)`. Reads at most what one search among the documents does.
    #[inline(always)]
    pub fn next_at_least_counted(&self, document: u64, tally: &mut Tally) -> Option<u64>
        ensures value { result ≡ least_not_below self.now.documents document }
        ensures adds { AddsAtMost tally.old tally.new (search_reads self.now.documents) }
    {
        self.documents.successor_counted(document, tally)
    }

    /// Returns the first document of least cost among those from `from` to `to`, both included. `None` if there
    /// is none.
    #[inline]
    pub fn cheapest(&self, from: u64, to: u64) -> Option<u64>
        ensures { result ≡ cheapest self.now from to }
    {
        let mut tally = Tally::new();
        self.cheapest_counted(from, to, &mut tally)
    }

    /// Returns `cheapest(from, to)`. Reads at most what two searches among the documents do, 18 costs and one
    /// document.
    #[inline(always)]
    pub fn cheapest_counted(&self, from: u64, to: u64, tally: &mut Tally) -> Option<u64>
        ensures value { result ≡ cheapest self.now from to }
        ensures adds { AddsAtMost tally.old tally.new (cheapest_reads self.now.documents) }
    {
        let start = self.documents.rank_counted(from, tally) as usize;
        let end = up_to(&self.documents, to, tally);
        if start >= end {
            return None;
        }
        let position = self.costs.range_min_counted(start, end - 1, tally);
        self.documents.get_counted(position, tally)
    }

    /// Returns the documents that are in both lists, ascending, in this list's allocator. Errors: `AllocError`
    /// if the allocator refuses a request.
    pub fn intersect(&self, other: &Postings<A>) -> Result<Vec<u64, A>, AllocError>
        ensures { IfOk result (λ found.
            found.items ≡ common self.now.documents other.now.documents) }
    {
        let mut tally = Tally::new();
        self.intersect_counted(other, &mut tally)
    }

    /// Returns `intersect(other)`. Reads at most, for each document of the shorter list, that document and
    /// what one search in the longer list does.
    pub fn intersect_counted(
        &self,
        other: &Postings<A>,
        tally: &mut Tally,
    ) -> Result<Vec<u64, A>, AllocError>
        ensures value { IfOk result (λ found.
            found.items ≡ common self.now.documents other.now.documents) }
        ensures adds { AddsAtMost tally.old tally.new
            (intersect_reads self.now.documents other.now.documents) }
    {
        let (shorter, longer) = by_length(&self.documents, &other.documents);
        common_documents(self.costs.allocator(), shorter, longer, tally)
    }
}

// Returns the number of documents that are at most a number, by one search.
#[inline(always)]
fn up_to<A: Allocator + Copy>(documents: &EliasFanoVec<A>, to: u64, tally: &mut Tally) -> usize
    requires { All (λ d. d ≤ 18446744073709551615) documents.now }
    ensures value { result ≡ below documents.now (to + 1) }
    ensures adds { AddsAtMost tally.old tally.new (search_reads documents.now) }
{
    match to.checked_add(1) {
        Some(above) => documents.rank_counted(above, tally) as usize,
        None => documents.len(),
    }
}

// Returns the documents of the shorter list that are in the longer one too, in one walk along the shorter.
#[inline(always)]
fn common_documents<A: Allocator + Copy>(
    alloc: A,
    shorter: &EliasFanoVec<A>,
    longer: &EliasFanoVec<A>,
    tally: &mut Tally,
) -> Result<Vec<u64, A>, AllocError>
    ensures value { IfOk result (λ found. found.items ≡ common shorter.now longer.now) }
    ensures adds { AddsAtMost tally.old tally.new (lookups shorter.now longer.now) }
{
    let mut found = Vec::new(alloc);
    let mut documents = shorter.iter();
    for _ in 0..shorter.len() {
        let Some(document) = documents.next_counted(tally) else {
            break;
        };
        if longer.has_counted(document, tally) {
            found.push(document)?;
        }
    }
    Ok(found)
}
