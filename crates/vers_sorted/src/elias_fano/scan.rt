//! Steps along the high parts that read the next bits before they use a select.
ghost use Rattle.std.specs.Prelude.{◌≡◌, ◌+◌, ◌<◌, true, false, length};
ghost use Rattle.vers_bits.specs.Bits.{count, select};
ghost use Rattle.vers_tally.specs.Reads.{AddsAtMost};
ghost use Rattle.vers_sorted.specs.inside.Parts.{reads};

use std::alloc::Allocator;
use vers_rank::fast_rs_vec::RsVec;
use vers_tally::tally::Tally;

// Returns the position of the zero after zero `h`, from the position of zero `h`.
#[inline(always)]
#[tactic(auto, using(crate::proofs::Scans::scans))]
pub(super) fn zero_after<A: Allocator + Copy>(
    high: &RsVec<A>,
    h: usize,
    position: usize,
    tally: &mut Tally,
) -> usize
    requires within { h + 1 < count false high.now (length high.now) }
    requires position { position ≡ select false high.now h }
    ensures value { result ≡ select false high.now (h + 1) }
    ensures adds { AddsAtMost tally.old tally.new (reads 0 2 (length high.now)) }
{
    let _ = high.len();
    if let Some(word) = high.get_bits_counted(position + 1, 64, tally) {
        if word != u64::MAX {
            return position + 1 + word.trailing_ones() as usize;
        }
    }
    high.select0_counted(h + 1, tally)
}

// Returns the position of one `k`, the next one from position `from` on.
#[inline(always)]
#[tactic(auto, using(crate::proofs::Besides::ones_beside))]
pub(super) fn one_from<A: Allocator + Copy>(
    high: &RsVec<A>,
    k: usize,
    from: usize,
    tally: &mut Tally,
) -> usize
    requires within { k < count true high.now (length high.now) }
    requires before { count true high.now from ≡ k }
    ensures value { result ≡ select true high.now k }
    ensures adds { AddsAtMost tally.old tally.new (reads 0 2 (length high.now)) }
{
    let _ = high.len();
    if let Some(word) = high.get_bits_counted(from, 64, tally) {
        if word != 0 {
            return from + word.trailing_zeros() as usize;
        }
    }
    high.select1_counted(k, tally)
}

// Returns the position of one `k`, the last one before position `to`.
#[inline(always)]
#[tactic(auto, using(crate::proofs::Besides::ones_beside))]
pub(super) fn one_before<A: Allocator + Copy>(
    high: &RsVec<A>,
    k: usize,
    to: usize,
    tally: &mut Tally,
) -> usize
    requires within { k < count true high.now (length high.now) }
    requires before { count true high.now to ≡ k + 1 }
    ensures value { result ≡ select true high.now k }
    ensures adds { AddsAtMost tally.old tally.new (reads 0 2 (length high.now)) }
{
    let _ = high.len();
    if to >= 64 {
        if let Some(word) = high.get_bits_counted(to - 64, 64, tally) {
            if word != 0 {
                return to - 1 - word.leading_zeros() as usize;
            }
        }
    }
    high.select1_counted(k, tally)
}
