//! Sparse lists of bits, and their queries.
ghost use Rattle.std.specs.Prelude.{◌≡◌, nat_lt, IsTrue};
ghost use Rattle.std.specs.List.{list_all};
ghost use Rattle.std.specs.List.Sorted.{IsStrictlyIncreasing};

use std::alloc::{AllocError, Allocator};
use vers_sorted::sparse::SparseRSVec;
use vers_tally::tally::Tally;

// Returns true if the numbers ascend strictly.
fn is_rising(numbers: &[u64]) -> bool
    ensures { IsTrue result → IsStrictlyIncreasing numbers.now }
{
    numbers.is_sorted_by(|one, next| *one < *next)
}

// Returns true if all numbers are below `limit`.
fn are_below(numbers: &[u64], limit: u64) -> bool
    ensures { result ≡ list_all (λ n. nat_lt n limit) numbers.now }
{
    numbers.iter().all(|number| *number < limit)
}

/// Returns the list of `len` bits with ones at the positions, or an empty list if there is no such list.
pub fn bits_of<A: Allocator + Copy>(
    alloc: A,
    ones: &[u64],
    len: u64,
) -> Result<SparseRSVec<A>, AllocError> {
    if is_rising(ones) && are_below(ones, len) {
        return SparseRSVec::new(alloc, ones, len);
    }
    SparseRSVec::new(alloc, &[], 0)
}

/// The queries of a sparse list.
#[derive(Clone, Copy, Drop)]
pub enum Query {
    Len,
    IsEmpty,
    HeapSize,
    IsSet(u64),
    IsSetUnchecked(u64),
    Get(u64),
    GetUnchecked(u64),
    Rank0(u64),
    Rank1(u64),
    Select1(usize),
    Iter1(usize),
}

// Returns a boolean as a number.
fn as_number(bit: Option<bool>) -> Option<u64> {
    Some(u64::from(bit?))
}

/// Returns the answer of one query, a boolean as 1 or 0. An unchecked one is called only if its precondition
/// holds; `Iter1` takes the item of that number of the iterator over the ones.
pub fn answer<A: Allocator + Copy>(bits: &SparseRSVec<A>, query: Query) -> Option<u64> {
    match query {
        Query::Len => Some(bits.len()),
        Query::IsEmpty => Some(u64::from(bits.is_empty())),
        Query::HeapSize => Some(bits.heap_size() as u64),
        Query::IsSet(position) => as_number(bits.is_set(position)),
        Query::IsSetUnchecked(position) => {
            if position >= bits.len() {
                return None;
            }
            Some(u64::from(bits.is_set_unchecked(position)))
        }
        Query::Get(position) => bits.get(position),
        Query::GetUnchecked(position) => {
            if position >= bits.len() {
                return None;
            }
            Some(bits.get_unchecked(position))
        }
        Query::Rank0(position) => Some(bits.rank0(position)),
        Query::Rank1(position) => Some(bits.rank1(position)),
        Query::Select1(r) => Some(bits.select1(r)),
        Query::Iter1(r) => bits.iter1().nth(r),
    }
}

/// Returns the answer of the counted form of a query, or of its plain form if it has none.
pub fn counted<A: Allocator + Copy>(bits: &SparseRSVec<A>, query: Query) -> Option<u64> {
    let mut tally = Tally::new();
    match query {
        Query::IsSet(position) => as_number(bits.is_set_counted(position, &mut tally)),
        Query::Get(position) => bits.get_counted(position, &mut tally),
        Query::Rank0(position) => Some(bits.rank0_counted(position, &mut tally)),
        Query::Rank1(position) => Some(bits.rank1_counted(position, &mut tally)),
        Query::Select1(r) => Some(bits.select1_counted(r, &mut tally)),
        _ => answer(bits, query),
    }
}
