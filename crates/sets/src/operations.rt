//! Intersections, unions and differences of ascending lists. Equal elements count once. Errors of the forms
//! `_counted`: `AllocError` only if the allocator refuses a request.
ghost use Rattle.std.specs.Prelude.{◌≡◌, ◌+◌, ◌∷◌, IfOk, length, map, min};
ghost use Rattle.std.specs.List.{sum_by};
ghost use Rattle.vers_tally.specs.Reads.{AddsAtMost, plus, times};
ghost use Rattle.sets.specs.Sets.{IsSetOf, in_all, in_any, in_both, in_either, in_difference, in_difference_of};
ghost use Rattle.sets.specs.Sources.{seek_reads, seek_reads_of};

use crate::cursor::Cursor;
use crate::gather::numbers_of_counted;
use crate::joined::{Both, Either, Without};
use crate::several::{AllOf, AnyOf};
use std::alloc::{AllocError, Allocator};
use vers_sorted::elias_fano::{EliasFanoVec, by_length};
use vers_tally::tally::Tally;

/// Returns the numbers that are in both lists. Errors: `AllocError` only if the allocator refuses a request.
pub fn intersection<A: Allocator + Copy>(
    alloc: A,
    one: &EliasFanoVec<A>,
    other: &EliasFanoVec<A>,
) -> Result<EliasFanoVec<A>, AllocError>
    ensures { IfOk result (IsSetOf (in_both one.now other.now)) }
{
    let mut tally = Tally::new();
    let found = intersection_numbers_counted(alloc, one, other, &mut tally)?;
    EliasFanoVec::from_slice(alloc, found.as_slice())
}

/// Returns the elements of `intersection(alloc, one, other)`. Takes at most one step more in each list than
/// the shorter has elements.
pub fn intersection_numbers_counted<A: Allocator + Copy>(
    alloc: A,
    one: &EliasFanoVec<A>,
    other: &EliasFanoVec<A>,
    tally: &mut Tally,
) -> Result<Vec<u64, A>, AllocError>
    ensures value { IfOk result (λ found. IsSetOf (in_both one.now other.now) found.items) }
    ensures adds { AddsAtMost tally.old tally.new
        (times (min (length one.now) (length other.now) + 1)
        (plus (seek_reads one.now) (seek_reads other.now))) }
{
    let (shorter, longer) = by_length(one, other);
    let both = Both {
        one: Cursor::new(shorter),
        other: Cursor::new(longer),
    };
    numbers_of_counted(alloc, both, tally)
}

/// Returns the numbers that are in one of two lists, or in both. Errors: `AllocError` only if the allocator
/// refuses a request.
pub fn union<A: Allocator + Copy>(
    alloc: A,
    one: &EliasFanoVec<A>,
    other: &EliasFanoVec<A>,
) -> Result<EliasFanoVec<A>, AllocError>
    ensures { IfOk result (IsSetOf (in_either one.now other.now)) }
{
    let mut tally = Tally::new();
    let found = union_numbers_counted(alloc, one, other, &mut tally)?;
    EliasFanoVec::from_slice(alloc, found.as_slice())
}

/// Returns the elements of `union(alloc, one, other)`. Takes at most one step more in each list than both have
/// elements.
pub fn union_numbers_counted<A: Allocator + Copy>(
    alloc: A,
    one: &EliasFanoVec<A>,
    other: &EliasFanoVec<A>,
    tally: &mut Tally,
) -> Result<Vec<u64, A>, AllocError>
    ensures value { IfOk result (λ found. IsSetOf (in_either one.now other.now) found.items) }
    ensures adds { AddsAtMost tally.old tally.new
        (times (length one.now + length other.now + 1)
        (plus (seek_reads one.now) (seek_reads other.now))) }
{
    let either = Either {
        one: Cursor::new(one),
        other: Cursor::new(other),
    };
    numbers_of_counted(alloc, either, tally)
}

/// Returns the numbers of the first list that are not in the other. Errors: `AllocError` only if the allocator
/// refuses a request.
pub fn difference<A: Allocator + Copy>(
    alloc: A,
    one: &EliasFanoVec<A>,
    other: &EliasFanoVec<A>,
) -> Result<EliasFanoVec<A>, AllocError>
    ensures { IfOk result (IsSetOf (in_difference one.now other.now)) }
{
    let mut tally = Tally::new();
    let found = difference_numbers_counted(alloc, one, other, &mut tally)?;
    EliasFanoVec::from_slice(alloc, found.as_slice())
}

/// Returns the elements of `difference(alloc, one, other)`. Takes at most one step more in each list than
/// the first has elements.
pub fn difference_numbers_counted<A: Allocator + Copy>(
    alloc: A,
    one: &EliasFanoVec<A>,
    other: &EliasFanoVec<A>,
    tally: &mut Tally,
) -> Result<Vec<u64, A>, AllocError>
    ensures value { IfOk result (λ found. IsSetOf (in_difference one.now other.now) found.items) }
    ensures adds { AddsAtMost tally.old tally.new
        (times (length one.now + 1) (plus (seek_reads one.now) (seek_reads other.now))) }
{
    let without = Without {
        one: Cursor::new(one),
        other: Cursor::new(other),
    };
    numbers_of_counted(alloc, without, tally)
}

/// Returns the numbers that are in the first list and in each of the others. The fewer elements the first has,
/// the fewer steps. Errors: `AllocError` only if the allocator refuses a request.
pub fn intersection_of<'a, A: Allocator + Copy>(
    alloc: A,
    first: &'a EliasFanoVec<A>,
    others: &[&'a EliasFanoVec<A>],
) -> Result<EliasFanoVec<A>, AllocError>
    ensures { IfOk result (IsSetOf (in_all first.now (map (λ list. list.now) others.now))) }
{
    let mut tally = Tally::new();
    let found = intersection_of_numbers_counted(alloc, first, others, &mut tally)?;
    EliasFanoVec::from_slice(alloc, found.as_slice())
}

/// Returns the elements of `intersection_of(alloc, first, others)`. Takes at most one step more in each list than
/// the first has elements.
pub fn intersection_of_numbers_counted<'a, A: Allocator + Copy>(
    alloc: A,
    first: &'a EliasFanoVec<A>,
    others: &[&'a EliasFanoVec<A>],
    tally: &mut Tally,
) -> Result<Vec<u64, A>, AllocError>
    ensures value { IfOk result (λ found.
        IsSetOf (in_all first.now (map (λ list. list.now) others.now)) found.items) }
    ensures adds { AddsAtMost tally.old tally.new
        (times (length first.now + 1)
        (plus (seek_reads first.now) (seek_reads_of (map (λ list. list.now) others.now)))) }
{
    let others = cursors_of(alloc, others)?;
    let all = AllOf {
        first: Cursor::new(first),
        others,
    };
    numbers_of_counted(alloc, all, tally)
}

/// Returns the numbers that are in the first list or in one of the others. Errors: `AllocError` only if the allocator
/// refuses a request.
pub fn union_of<'a, A: Allocator + Copy>(
    alloc: A,
    first: &'a EliasFanoVec<A>,
    others: &[&'a EliasFanoVec<A>],
) -> Result<EliasFanoVec<A>, AllocError>
    ensures { IfOk result (IsSetOf (in_any (first.now ∷ map (λ list. list.now) others.now))) }
{
    let mut tally = Tally::new();
    let found = union_of_numbers_counted(alloc, first, others, &mut tally)?;
    EliasFanoVec::from_slice(alloc, found.as_slice())
}

/// Returns the elements of `union_of(alloc, first, others)`. Takes at most one step more in each list than
/// all have elements.
pub fn union_of_numbers_counted<'a, A: Allocator + Copy>(
    alloc: A,
    first: &'a EliasFanoVec<A>,
    others: &[&'a EliasFanoVec<A>],
    tally: &mut Tally,
) -> Result<Vec<u64, A>, AllocError>
    ensures value { IfOk result (λ found.
        IsSetOf (in_any (first.now ∷ map (λ list. list.now) others.now)) found.items) }
    ensures adds { AddsAtMost tally.old tally.new
        (times (length first.now + sum_by (λ list. length list.now) others.now + 1)
        (plus (seek_reads first.now) (seek_reads_of (map (λ list. list.now) others.now)))) }
{
    let others = cursors_of(alloc, others)?;
    let any = AnyOf {
        first: Cursor::new(first),
        others,
    };
    numbers_of_counted(alloc, any, tally)
}

/// Returns the numbers that are in the first list and in none of the others. Errors: `AllocError` only if the
/// allocator refuses a request.
pub fn difference_of<'a, A: Allocator + Copy>(
    alloc: A,
    first: &'a EliasFanoVec<A>,
    others: &[&'a EliasFanoVec<A>],
) -> Result<EliasFanoVec<A>, AllocError>
    ensures { IfOk result (IsSetOf (in_difference_of first.now (map (λ list. list.now) others.now))) }
{
    let mut tally = Tally::new();
    let found = difference_of_numbers_counted(alloc, first, others, &mut tally)?;
    EliasFanoVec::from_slice(alloc, found.as_slice())
}

/// Returns the elements of `difference_of(alloc, first, others)`. Takes at most one step more in each list than
/// the first has elements.
pub fn difference_of_numbers_counted<'a, A: Allocator + Copy>(
    alloc: A,
    first: &'a EliasFanoVec<A>,
    others: &[&'a EliasFanoVec<A>],
    tally: &mut Tally,
) -> Result<Vec<u64, A>, AllocError>
    ensures value { IfOk result (λ found.
        IsSetOf (in_difference_of first.now (map (λ list. list.now) others.now)) found.items) }
    ensures adds { AddsAtMost tally.old tally.new
        (times (length first.now + 1)
        (plus (seek_reads first.now) (seek_reads_of (map (λ list. list.now) others.now)))) }
{
    let Some((second, rest)) = others.split_first() else {
        return numbers_of_counted(alloc, Cursor::new(first), tally);
    };
    let others = cursors_of(alloc, rest)?;
    let remaining = Without {
        one: Cursor::new(first),
        other: AnyOf {
            first: Cursor::new(second),
            others,
        },
    };
    numbers_of_counted(alloc, remaining, tally)
}

// Returns a cursor at the first element of each list.
fn cursors_of<'a, A: Allocator + Copy>(
    alloc: A,
    lists: &[&'a EliasFanoVec<A>],
) -> Result<Vec<Cursor<'a, A>, A>, AllocError>
    ensures { IfOk result (λ cursors. cursors.items ≡ map (λ list. list.now) lists.now) }
{
    let mut cursors = Vec::new(alloc);
    for i in 0..lists.len() {
        cursors.push(Cursor::new(lists[i]))?;
    }
    Ok(cursors)
}
