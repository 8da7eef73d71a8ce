//! The levels of a wavelet matrix, and the matrix of given levels.
ghost use Rattle.std.specs.Prelude.{◌≡◌, ℕ, ◌^◌, ◌<◌, ◌≤◌, ◌↔◌, [], length, slice_index_or, All, IfSome, IsSome, None};
ghost use Rattle.vers_wavelet.specs.Makers.{AllHaveLength, symbol_levels};
ghost use Rattle.vers_wavelet.specs.inside.Levels.{AreLevels};

use crate::wavelet::WaveletMatrix;
use std::alloc::Allocator;
use vers_rank::fast_rs_vec::RsVec;

// The greatest number of levels.
const MAX_LEVELS: usize = 65535;

// Returns the length of each of the levels. `None` if their lengths differ, or there are too many.
fn common_len<A: Allocator + Copy>(levels: &[RsVec<A>]) -> Option<usize>
    ensures levels { IfSome result (λ n. AreLevels levels.now n) }
    ensures none { result ≡ None → length levels.now ≤ 65535 → (n : ℕ) → AllHaveLength levels.now n → ⊥ }
{
    if levels.is_empty() {
        return Some(0);
    }
    if levels.len() > MAX_LEVELS {
        return None;
    }
    let len = levels[0].len();
    for k in 0..levels.len() {
        if levels[k].len() != len {
            return None;
        }
    }
    Some(len)
}

impl<A: Allocator + Copy> WaveletMatrix<A> {
    /// Returns level `k`: the bit of each symbol's digit `bits_per_element() - 1 - k`, in the order that a stable
    /// sort by the higher digits gives, zeros first. Precondition: `k` is below `bits_per_element()`.
    #[inline]
    pub fn level(&self, k: usize) -> &RsVec<A>
        requires { k < self.now.width }
        ensures value { result.now ≡ slice_index_or (symbol_levels self.now) k [] }
        ensures len { length result.now ≡ length self.now.items }
    {
        &self.levels()[k]
    }

    /// Returns the matrix with these levels. `None` if their lengths differ, or if there are more than 65535.
    /// Allocates nothing.
    pub fn from_levels(levels: Vec<RsVec<A>, A>) -> Option<Self>
        ensures levels { IfSome result (λ w. symbol_levels w ≡ levels.items) }
        ensures fit { IfSome result (λ w. All (λ y. y < 2 ^ w.width) w.items) }
        ensures some { IsSome result ↔ ((length levels.items ≤ 65535) × ((n : ℕ) × AllHaveLength levels.items n)) }
    {
        let len = common_len(levels.as_slice())?;
        Some(WaveletMatrix { levels, len })
    }
}
