//! Documents stored one after another in one text.
ghost use Rattle.std.specs.Prelude.{◌≡◌, ℕ, ◌↔◌, [], length, slice_get, IfOk, IfSome, IsNone, IsTrue};
ghost use Rattle.std.specs.List.Sorted.{IsNonDecreasing};
ghost use Rattle.vers_uses.specs.Documents.{Holds};

use std::alloc::{AllocError, Allocator};
use std::marker::Model;
use vers_vecs::EliasFanoVec;
use vers_vecs::laws::sorted::{first_elements_are_below, other_elements_are_not_below};

/// The documents of a text: the start of each, and the end of the text. A document ends where the next one
/// starts.
#[derive(Drop)]
pub struct Documents<A: Allocator + Copy> {
    starts: EliasFanoVec<A>,
    end: u64,
}

impl<A: Allocator + Copy> Model for Documents<A> {
    ghost use Rattle.vers_uses.specs.Documents.{Collection};

    ghost Value = { Collection };

    ghost view = { λ texts. record { starts = texts.starts; end = texts.end } };
}

impl<A: Allocator + Copy> Documents<A> {
    /// Returns the documents that start at these bytes of a text of `end` bytes. Two documents may start at the
    /// same byte; the first is then empty. Precondition: the starts ascend. Errors: `AllocError` if the
    /// allocator refuses a request.
    pub fn new(alloc: A, starts: &[u64], end: u64) -> Result<Self, AllocError>
        requires { IsNonDecreasing starts.now }
        ensures { IfOk result (λ texts. texts ≡ record { starts = starts.now; end = end }) }
    {
        Ok(Documents {
            starts: EliasFanoVec::from_slice(alloc, starts)?,
            end,
        })
    }

    /// Returns the number of documents.
    pub fn len(&self) -> usize
        ensures { result ≡ length self.now.starts }
    {
        self.starts.len()
    }

    /// Returns true if there are no documents.
    pub fn is_empty(&self) -> bool
        ensures { IsTrue result ↔ (self.now.starts ≡ []) }
    {
        self.starts.is_empty()
    }

    /// Returns the start of a document, or `None` if there is no such document.
    pub fn start_of(&self, document: usize) -> Option<u64>
        ensures { result ≡ slice_get self.now.starts document }
    {
        self.starts.get(document)
    }

    /// Returns the document that contains a byte, or `None` if none does.
    pub fn document_of(&self, byte: u64) -> Option<usize>
        ensures found { IfSome result (Holds self.now byte) }
        ensures none { IsNone result → (document : ℕ) → Holds self.now byte document → ⊥ }
    {
        first_elements_are_below();
        other_elements_are_not_below();
        if byte >= self.end {
            return None;
        }
        let started = self.starts.rank(byte + 1) as usize;
        started.checked_sub(1)
    }
}
