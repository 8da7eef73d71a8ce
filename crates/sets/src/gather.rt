//! The numbers of a set, in a list.
ghost use Rattle.std.specs.Prelude.{◌+◌, IfOk};
ghost use Rattle.vers_tally.specs.Reads.{AddsAtMost, times};
ghost use Rattle.sets.specs.Sets.{IsSetOf};
ghost use Rattle.sets.specs.Steps.{IsAfter};

use crate::seek::Seek;
use crate::step::Step;
use std::alloc::{AllocError, Allocator};
use vers_sorted::elias_fano::EliasFanoVec;
use vers_tally::tally::Tally;

/// Returns the numbers of a set as an ascending list. Errors: `AllocError` only if the allocator refuses a
/// request.
pub fn collect<A: Allocator + Copy, S: Seek>(
    alloc: A,
    source: S,
) -> Result<EliasFanoVec<A>, AllocError>
    ensures { IfOk result (IsSetOf (S.set source).has) }
{
    let found = numbers_of(alloc, source)?;
    EliasFanoVec::from_slice(alloc, found.as_slice())
}

/// Returns the numbers of a set, ascending. Errors: `AllocError` only if the allocator refuses a request.
pub fn numbers_of<A: Allocator + Copy, S: Seek>(
    alloc: A,
    source: S,
) -> Result<Vec<u64, A>, AllocError>
    ensures { IfOk result (λ found. IsSetOf (S.set source).has found.items) }
{
    let mut tally = Tally::new();
    numbers_of_counted(alloc, source, &mut tally)
}

/// Returns `numbers_of(alloc, source)`. Takes at most one step more than the most steps of the set.
pub fn numbers_of_counted<A: Allocator + Copy, S: Seek>(
    alloc: A,
    mut source: S,
    tally: &mut Tally,
) -> Result<Vec<u64, A>, AllocError>
    ensures value { IfOk result (λ found. IsSetOf (S.set source).has found.items) }
    ensures adds { AddsAtMost tally.old tally.new
        (times ((S.set source).most_steps + 1) (S.set source).step_reads) }
{
    let mut found = Vec::new(alloc);
    let mut from = Some(0u64);
    while let Some(at) = from {
        match source.seek_counted(at, tally) {
            Step::Found(x) => {
                found.push(x)?;
                from = after(x);
            }
            Step::Past(x) => {
                from = Some(x);
            }
            Step::Ended => {
                from = None;
            }
        }
    }
    Ok(found)
}

// Returns the number after x, if it has 64 bits.
#[inline(always)]
pub(crate) fn after(x: u64) -> Option<u64>
    ensures { IsAfter x result }
{
    if x == u64::MAX { None } else { Some(x + 1) }
}
