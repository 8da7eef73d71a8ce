//! The list of documents and its constructor.
ghost use Rattle.std.specs.Prelude.{◌≡◌, ◌≤◌, ◌↔◌, [], length, min, OnOk, IfOk, IfErr, IsTrue};
ghost use Rattle.std.specs.List.Sorted.{IsStrictlyIncreasing};
ghost use Rattle.postings.specs.Posted.{ArePaired, postings_size};
ghost use Rattle.postings.specs.Makers.{IsRefusedFor};

use crate::fault::PostingsError;
use std::alloc::{AllocError, Allocator};
use std::marker::Model;
use vers_rmq::rmq::fast_rmq::{FastRmq, MAX_LEN};
use vers_sorted::elias_fano::EliasFanoVec;
use vers_sorted::order::is_strictly_ascending;

/// Documents, each a number, with a cost each. Contracts see a `Postings` as the list of its documents, which
/// ascend strictly, and the list of their costs.
///
/// It stores the documents in high and low parts, and the costs with an index for range minimum queries.
#[derive(Drop)]
pub struct Postings<A: Allocator + Copy> {
    pub(crate) documents: EliasFanoVec<A>,
    pub(crate) costs: FastRmq<A>,
}

impl<A: Allocator + Copy> Model for Postings<A> {
    ghost use Rattle.postings.specs.Posted.{Posted, ArePaired};

    ghost Value = { Posted };

    ghost view = { λ p. record { documents = p.documents; costs = p.costs } };

    ghost invariant = { λ p. ArePaired (record { documents = p.documents; costs = p.costs }) };
}

impl<A: Allocator + Copy> Clone for Postings<A> {
    ghost is_clone = { λ old new. new ≡ old };

    /// Returns a copy of the documents and costs.
    fn clone(&self) -> Result<Self, AllocError> {
        let costs = self.costs.clone()?;
        let (documents, costs) = second_beside(&self.documents, costs)?;
        Ok(Postings { documents, costs })
    }
}

impl<A: Allocator + Copy> Postings<A> {
    /// Returns the documents with their costs. Drops the costs on error.
    ///
    /// # Errors
    ///
    /// The first that applies, in the order of `PostingsError`. All except `Memory` precede any allocation.
    pub fn from_sorted(documents: &[u64], costs: Vec<u64, A>) -> Result<Self, PostingsError>
        ensures made { IfOk result (λ p. p ≡ record {
          documents = documents.now;
          costs = costs.items;
        }) }
        ensures paired { IfOk result ArePaired }
        ensures within { IfOk result (λ p. length p.documents ≤ MAX_LEN) }
        ensures refused { IfErr result (IsRefusedFor documents.now costs.items MAX_LEN) }
    {
        check(documents, costs.as_slice())?;
        let alloc = *costs.allocator();
        let costs = FastRmq::from_vec(costs)?;
        let (documents, costs) = documents_beside(alloc, documents, costs)?;
        Ok(Postings { documents, costs })
    }

    /// Returns the documents, as the ascending list that stores them.
    #[inline]
    pub fn documents(&self) -> &EliasFanoVec<A>
        ensures { result.now ≡ self.now.documents }
    {
        &self.documents
    }

    /// Returns the cost of each document, at the document's position.
    #[inline]
    pub fn costs(&self) -> &[u64]
        ensures { result.now ≡ self.now.costs }
    {
        self.costs.as_slice()
    }

    /// Returns the number of bytes of the heap that the list takes; the greatest `usize` if they are more.
    pub fn heap_size(&self) -> usize
        ensures { result ≡ min (postings_size self.now) 18446744073709551615 }
    {
        self.documents
            .heap_size()
            .saturating_add(self.costs.heap_size())
    }

    /// Returns the number of documents.
    #[inline]
    pub fn len(&self) -> usize
        ensures value { result ≡ length self.now.documents }
        ensures paired { ArePaired self.now }
    {
        self.documents.len()
    }

    /// Returns true if there are no documents.
    #[inline]
    pub fn is_empty(&self) -> bool
        ensures { IsTrue result ↔ (self.now.documents ≡ []) }
    {
        self.documents.is_empty()
    }
}

// Tests whether the list can be made, in the order of `PostingsError`.
fn check(documents: &[u64], costs: &[u64]) -> Result<(), PostingsError>
    ensures ascending { OnOk result (IsStrictlyIncreasing documents.now) }
    ensures paired { OnOk result (length documents.now ≡ length costs.now) }
    ensures within { OnOk result (length documents.now ≤ MAX_LEN) }
    ensures refused { IfErr result (IsRefusedFor documents.now costs.now MAX_LEN) }
{
    if documents.len() != costs.len() {
        return Err(PostingsError::LengthMismatch);
    }
    if documents.len() > MAX_LEN {
        return Err(PostingsError::TooLong);
    }
    if !is_strictly_ascending(documents) {
        return Err(PostingsError::NotAscending);
    }
    Ok(())
}

// Returns a list of documents together with another part, which is dropped on error.
fn documents_beside<A: Allocator + Copy, C: Drop>(
    alloc: A,
    documents: &[u64],
    costs: C,
) -> Result<(EliasFanoVec<A>, C), AllocError>
    requires { IsStrictlyIncreasing documents.now }
    ensures { IfOk result (λ made. (made.0 ≡ documents.now) × (made.1 ≡ costs)) }
{
    Ok((EliasFanoVec::from_slice(alloc, documents)?, costs))
}

// Returns a copy of a list of documents together with another part, which is dropped on error.
fn second_beside<A: Allocator + Copy, C: Drop>(
    documents: &EliasFanoVec<A>,
    costs: C,
) -> Result<(EliasFanoVec<A>, C), AllocError>
    ensures { IfOk result (λ made. (made.0 ≡ documents.now) × (made.1 ≡ costs)) }
{
    Ok((documents.clone()?, costs))
}
