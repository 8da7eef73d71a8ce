//! Laws of indexed lists.
ghost use Rattle.std.specs.Prelude.{◌≡◌, IfOk};
ghost use Rattle.vers_rank.specs.Laws.{IndexIsSmall};

use crate::fast_rs_vec::RsVec;
use std::alloc::{AllocError, Allocator};
use vers_bits::bit_vec::BitVec;

/// The entries and the samples of an index take at most 56 bytes for each superblock of 8192 bits, and 32 more.
#[tactic(auto, using(crate::proofs::Ranks::sums))]
pub fn index_is_small()
    ensures { IndexIsSmall }
{}

/// Returns the same bits, after making an indexed list of them. Errors: `AllocError` if the allocator refuses a
/// request.
pub fn bits_come_back<A: Allocator + Copy>(bits: BitVec<A>) -> Result<BitVec<A>, AllocError>
    ensures { IfOk result (λ v. v ≡ bits) }
{
    let indexed = RsVec::from_bit_vec(bits)?;
    Ok(indexed.into_bit_vec())
}
