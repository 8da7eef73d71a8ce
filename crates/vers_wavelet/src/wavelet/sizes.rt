//! The size of a wavelet matrix, and its clones.
ghost use Rattle.std.specs.Prelude.{◌≡◌, length, min};
ghost use Rattle.std.specs.List.{range_with_len, sum_by};
ghost use Rattle.vers_rank.specs.Queries.{index_size};
ghost use Rattle.vers_wavelet.specs.Symbols.{digit_list, matrix_size};
ghost use Rattle.vers_wavelet.specs.inside.Levels.{values, AreLevels};

use crate::wavelet::WaveletMatrix;
use std::alloc::{AllocError, Allocator};
use vers_rank::fast_rs_vec::RsVec;

#[tactic(auto, using(crate::proofs::Sizes::same_levels))]
impl<A: Allocator + Copy> Clone for WaveletMatrix<A> {
    ghost is_clone = { λ old new. new ≡ old };

    /// Returns a copy of the matrix.
    fn clone(&self) -> Result<Self, AllocError> {
        let levels = self.levels.clone()?;
        Ok(WaveletMatrix {
            levels,
            len: self.len,
        })
    }
}

impl<A: Allocator + Copy> WaveletMatrix<A> {
    /// Returns the number of bytes that the levels take, each a list of as many bits as there are symbols, with
    /// its index; the greatest `usize` if it is larger.
    pub fn heap_size(&self) -> usize
        ensures { result ≡ matrix_size self.now }
    {
        size_of_levels(self.levels(), self.len())
    }
}

// Returns the bytes of the levels together: the level of the lowest digits comes last.
fn size_of_levels<A: Allocator + Copy>(levels: &[RsVec<A>], len: usize) -> usize
    requires { AreLevels levels.now len }
    ensures { result ≡ min (sum_by (λ j.
        index_size (digit_list j (values levels.now len))) (range_with_len 0 (length levels.now)))
        18446744073709551615 }
{
    let mut bytes: usize = 0;
    for i in 0..levels.len() {
        let k = levels.len() - (i + 1);
        bytes = bytes.saturating_add(levels[k].heap_size());
    }
    bytes
}
