//! Lists of bits, saved by their limbs.
ghost use Rattle.std.specs.Prelude.{[], ◌≡◌, ◌<◌, ⊤, length, slice_index};
ghost use Rattle.vers_bits.specs.Bits.{limbs};
ghost use Rattle.vers_saved.specs.declared.kind.TheConstants.{BIT_LISTS};

use crate::form::{Shape, bits_of, taken};
use crate::kind::{BIT_LISTS, Kind};
use crate::saved::{Loaded, Saved};
use std::alloc::{AllocError, Allocator};
use vers_bits::bit_vec::BitVec;
use vers_rank::fast_rs_vec::RsVec;

// Returns the shape of a list of `count` bits.
fn shape_of(count: usize) -> Shape
    ensures count { result.count ≡ count }
    ensures width { result.width ≡ 1 }
{
    Shape { count, width: 1 }
}

// Returns limb `k`.
#[inline]
#[tactic(auto, using(crate::proofs::Sources::bits))]
pub(crate) fn limb_of<A: Allocator + Copy>(bits: &RsVec<A>, k: usize) -> u64
    requires { k < length (limbs bits.now) }
    ensures { result ≡ slice_index (limbs bits.now) k }
{
    let len = bits.len();
    let position = 64 * k;
    let left = len - position;
    // For a whole limb the compiler removes shift and mask.
    if left < 64 {
        bits.get_bits_unchecked(position, left)
    } else {
        bits.get_bits_unchecked(position, 64)
    }
}

#[tactic(auto, using(crate::proofs::BitLists::bits, crate::proofs::Sources::bits))]
impl<A: Allocator + Copy> Saved for BitVec<A> {
    ghost kind = { BIT_LISTS };

    ghost count = { length };

    ghost width = { λ _. 1 };

    ghost words = { limbs };

    ghost Fits = { λ _. ⊤ };

    type Prepared = ();

    fn kind() -> Kind {
        BIT_LISTS
    }

    fn shape(&self) -> Option<Shape> {
        Some(shape_of(self.len()))
    }

    #[inline]
    fn word(&self, k: usize) -> u64 {
        self.limb(k)
    }

    fn prepare(&self) {}
}

#[tactic(auto, using(crate::proofs::BitLists::bits, crate::proofs::Sources::bits))]
impl<A: Allocator + Copy> Loaded<A> for BitVec<A> {
    ghost use Rattle.vers_saved.specs.inside.Telling.{no_first, bits_tell};

    fn make(of: Shape, held: &mut Vec<u64, A>) -> Result<Self, AllocError> {
        Ok(bits_of(&BIT_LISTS, of, taken(held)))
    }

    ghost packed = { λ _. [] };

    ghost first_tells = { no_first };

    ghost tells = { bits_tell 1 };
}

#[tactic(auto, using(crate::proofs::BitLists::bits, crate::proofs::Sources::bits))]
impl<A: Allocator + Copy> Saved for RsVec<A> {
    ghost kind = { BIT_LISTS };

    ghost count = { length };

    ghost width = { λ _. 1 };

    ghost words = { limbs };

    ghost Fits = { λ _. ⊤ };

    type Prepared = ();

    fn kind() -> Kind {
        BIT_LISTS
    }

    fn shape(&self) -> Option<Shape> {
        Some(shape_of(self.len()))
    }

    #[inline]
    fn word(&self, k: usize) -> u64 {
        limb_of(self, k)
    }

    fn prepare(&self) {}
}

#[tactic(auto, using(crate::proofs::BitLists::bits, crate::proofs::Sources::bits))]
impl<A: Allocator + Copy> Loaded<A> for RsVec<A> {
    ghost use Rattle.vers_saved.specs.inside.Telling.{no_first, bits_tell};

    fn make(of: Shape, held: &mut Vec<u64, A>) -> Result<Self, AllocError> {
        RsVec::from_bit_vec(bits_of(&BIT_LISTS, of, taken(held)))
    }

    ghost packed = { λ _. [] };

    ghost first_tells = { no_first };

    ghost tells = { bits_tell 1 };
}
