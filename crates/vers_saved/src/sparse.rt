//! Lists of bits with few ones, saved by the length and the parts of the positions of the ones.
ghost use Rattle.std.specs.Prelude.{[], ◌≡◌, ◌<◌, ◌≤◌, ◌^◌, ⊤, length, slice_index};
ghost use Rattle.vers_saved.specs.Format.{position_words, sparse_words};
ghost use Rattle.vers_saved.specs.declared.kind.TheConstants.{SPARSE_LISTS};

use crate::form::Shape;
use crate::kind::{GREATEST_WORDS, Kind, SPARSE_LISTS};
use crate::numbers::words_shape;
use crate::parts::{copy_list, count_list, list_in, list_word};
use crate::saved::{Loaded, Saved};
use std::alloc::{AllocError, Allocator};
use vers_sorted::sparse::SparseRSVec;

#[tactic(auto, using(crate::proofs::SortedForms::sparse))]
impl<A: Allocator + Copy> Saved for SparseRSVec<A> {
    ghost kind = { SPARSE_LISTS };

    ghost count = { λ bits. length (sparse_words bits) };

    ghost width = { λ _. 64 };

    ghost words = { sparse_words };

    ghost Fits = { λ _. ⊤ };

    type Prepared = ();

    fn kind() -> Kind {
        SPARSE_LISTS
    }

    fn shape(&self) -> Option<Shape> {
        let _ = self.len();
        let count = count_list(self.ones()) + 1;
        if count as u64 > GREATEST_WORDS {
            return None;
        }
        Some(words_shape(count))
    }

    #[inline]
    fn word(&self, k: usize) -> u64 {
        if k == 0 {
            return self.len();
        }
        list_word(self.ones(), k - 1)
    }

    #[inline]
    fn copy_words(&self, from: usize, out: &mut [u64]) {
        if from > 0 {
            return copy_list(self.ones(), from - 1, out);
        }
        for k in 0..out.len() {
            out[k] = self.word(k);
        }
    }

    fn prepare(&self) {}
}

#[tactic(auto, using(crate::proofs::SortedForms::sparse, crate::proofs::SparseLists::listed))]
impl<A: Allocator + Copy> Loaded<A> for SparseRSVec<A> {
    ghost use Rattle.vers_saved.specs.inside.Telling.{positions_tell, sparse_tell};

    fn make(of: Shape, held: &mut Vec<u64, A>) -> Result<Self, AllocError> {
        let alloc = *held.allocator();
        let words = held.as_slice();
        let ones = list_in(alloc, &words[1..])?;
        Ok(SparseRSVec::from_sorted(ones, words[0]))
    }

    ghost packed = { position_words };

    fn make_packed(of: Shape, held: &mut Vec<u64, A>) -> Result<Self, AllocError> {
        let alloc = *held.allocator();
        let words = held.as_slice();
        let last = words.len() - 1;
        SparseRSVec::new(alloc, &words[..last], words[last])
    }

    ghost first_tells = { positions_tell };

    ghost tells = { sparse_tell };
}
