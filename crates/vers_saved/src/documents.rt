//! Documents with costs, saved by the documents and then their costs, each as a word.
ghost use Rattle.std.specs.Prelude.{[], ◌≡◌, ◌<◌, ◌≤◌, ◌^◌, ℕ, length, slice_index};
ghost use Rattle.postings.specs.Posted.{ArePaired};
ghost use Rattle.vers_saved.specs.Format.{posting_words};
ghost use Rattle.vers_saved.specs.declared.kind.TheConstants.{POSTING_LISTS};

use crate::form::Shape;
use crate::kind::{Kind, POSTING_LISTS};
use crate::numbers::{are_words, copy_elements};
use crate::saved::{Loaded, Saved};
use postings::Postings;
use std::alloc::{AllocError, Allocator};
use vers_rmq::rmq::fast_rmq::MAX_LEN;

#[tactic(auto, using(crate::proofs::PostingLists::postings))]
impl<A: Allocator + Copy> Saved for Postings<A> {
    ghost kind = { POSTING_LISTS };

    ghost count = { λ posted. length posted.documents };

    ghost width = { λ _. 128 };

    ghost words = { posting_words };

    ghost Fits = { ArePaired };

    type Prepared = ();

    fn kind() -> Kind {
        POSTING_LISTS
    }

    fn shape(&self) -> Option<Shape> {
        let count = self.len();
        if count > MAX_LEN {
            return None;
        }
        are_words(self.costs());
        Some(Shape { count, width: 128 })
    }

    #[inline]
    fn word(&self, k: usize) -> u64 {
        let count = self.len();
        if k < count {
            self.documents().get_unchecked(k)
        } else {
            self.costs()[k - count]
        }
    }

    fn copy_words(&self, from: usize, out: &mut [u64]) {
        copy_elements(self.documents().iter(), self.costs(), from, out)
    }

    fn prepare(&self) {}
}

#[tactic(auto, using(crate::proofs::PostingLists::postings))]
impl<A: Allocator + Copy> Loaded<A> for Postings<A> {
    ghost use Rattle.vers_saved.specs.inside.Telling.{no_first, postings_tell};

    fn make(of: Shape, held: &mut Vec<u64, A>) -> Result<Self, AllocError> {
        let alloc = *held.allocator();
        let (documents, costs) = held.as_slice().split_at(of.count);
        let costs = Vec::from_slice(alloc, costs)?;
        match Postings::from_sorted(documents, costs) {
            Ok(postings) => Ok(postings),
            Err(_) => Err(AllocError),
        }
    }

    ghost packed = { λ _. [] };

    ghost first_tells = { no_first };

    ghost tells = { postings_tell };
}
