//! The queries of a list of bits, and its changes, by tables.
ghost use Rattle.std.specs.Prelude.{◌+◌, ◌≤◌, IsTrue};

use std::alloc::Allocator;
use vers_bits::bit_vec::{BitVec, GrowError};

/// A query. An unchecked one is called only if its precondition holds, and otherwise answers `None`.
#[derive(Clone, Copy, Drop)]
pub enum Query {
    Len,
    IsEmpty,
    HeapSize,
    CountOnes,
    CountZeros,
    Limb(usize),
    Get(usize),
    GetUnchecked(usize),
    IsBitSet(usize),
    IsBitSetUnchecked(usize),
    GetBits(usize, usize),
    GetBitsUnchecked(usize, usize),
    UnpackElement(usize, usize),
    UnpackElementUnchecked(usize, usize),
}

/// Returns the answer to a query, a boolean as 1 or 0.
pub fn answer<A: Allocator + Copy>(list: &BitVec<A>, query: Query) -> Option<u64> {
    match query {
        Query::Len => Some(list.len() as u64),
        Query::IsEmpty => Some(u64::from(list.is_empty())),
        Query::HeapSize => Some(list.heap_size() as u64),
        Query::CountOnes => Some(list.count_ones()),
        Query::CountZeros => Some(list.count_zeros()),
        Query::Get(position) => list.get(position),
        Query::IsBitSet(position) => number_of(list.is_bit_set(position)),
        Query::GetBits(position, n) => list.get_bits(position, n),
        Query::UnpackElement(index, n) => list.unpack_element(index, n),
        _ => unchecked_answer(list, query),
    }
}

/// Returns a boolean as 1 or 0.
pub fn number_of(bit: Option<bool>) -> Option<u64> {
    Some(u64::from(bit?))
}

// Returns the answers of the queries with a precondition.
fn unchecked_answer<A: Allocator + Copy>(list: &BitVec<A>, query: Query) -> Option<u64> {
    match query {
        Query::Limb(k) => limb(list, k),
        Query::GetUnchecked(position) => get_unchecked(list, position),
        Query::IsBitSetUnchecked(position) => is_bit_set_unchecked(list, position),
        Query::GetBitsUnchecked(position, n) => get_bits_unchecked(list, position, n),
        Query::UnpackElementUnchecked(index, n) => unpack_element_unchecked(list, index, n),
        _ => None,
    }
}

fn limb<A: Allocator + Copy>(list: &BitVec<A>, k: usize) -> Option<u64> {
    if k >= list.len().div_ceil(64) {
        return None;
    }
    Some(list.limb(k))
}

fn get_unchecked<A: Allocator + Copy>(list: &BitVec<A>, position: usize) -> Option<u64> {
    if position >= list.len() {
        return None;
    }
    Some(list.get_unchecked(position))
}

fn is_bit_set_unchecked<A: Allocator + Copy>(list: &BitVec<A>, position: usize) -> Option<u64> {
    if position >= list.len() {
        return None;
    }
    Some(u64::from(list.is_bit_set_unchecked(position)))
}

/// Returns true if a list of `len` bits has that many from a position on, and a number has room for them.
pub fn is_part(len: usize, position: usize, n: usize) -> bool
    ensures { IsTrue result → (n ≤ 64) × (position + n ≤ len) }
{
    n <= 64 && position <= len && n <= len - position
}

fn get_bits_unchecked<A: Allocator + Copy>(
    list: &BitVec<A>,
    position: usize,
    n: usize,
) -> Option<u64> {
    if !is_part(list.len(), position, n) {
        return None;
    }
    Some(list.get_bits_unchecked(position, n))
}

fn unpack_element_unchecked<A: Allocator + Copy>(
    list: &BitVec<A>,
    index: usize,
    n: usize,
) -> Option<u64> {
    if !is_part(list.len(), index.checked_mul(n)?, n) {
        return None;
    }
    Some(list.unpack_element_unchecked(index, n))
}

/// Returns the row of the first query (from 0) with another answer.
pub fn first_wrong_answer<A: Allocator + Copy>(
    list: &BitVec<A>,
    rows: &[(Query, Option<u64>)],
) -> Option<usize> {
    for (row, (query, wanted)) in rows.iter().enumerate() {
        if answer(list, *query) != *wanted {
            return Some(row);
        }
    }
    None
}

/// A change. One with a precondition is made only if it holds.
#[derive(Clone, Copy, Drop)]
pub enum Change {
    Append(bool),
    AppendBit(u64),
    AppendBitU8(u8),
    AppendBitU16(u16),
    AppendBitU32(u32),
    AppendWord(u64),
    AppendBits(u64, usize),
    AppendBitsUnchecked(u64, usize),
    Set(usize, u64),
    SetUnchecked(usize, u64),
    FlipBit(usize),
    FlipBitUnchecked(usize),
    DropLast(usize),
}

/// Makes a change that appends bits.
pub fn append<A: Allocator + Copy>(list: &mut BitVec<A>, change: Change) -> Result<(), GrowError> {
    match change {
        Change::Append(bit) => list.append(bit),
        Change::AppendBit(number) => list.append_bit(number),
        Change::AppendBitU8(number) => list.append_bit_u8(number),
        Change::AppendBitU16(number) => list.append_bit_u16(number),
        Change::AppendBitU32(number) => list.append_bit_u32(number),
        Change::AppendWord(word) => list.append_word(word),
        Change::AppendBits(bits, n) => list.append_bits(bits, n.min(64)),
        Change::AppendBitsUnchecked(bits, n) => list.append_bits_unchecked(bits, n.min(64)),
        _ => Ok(()),
    }
}

/// Makes a change, and returns true if it was made.
pub fn is_made<A: Allocator + Copy>(list: &mut BitVec<A>, change: Change) -> bool {
    let len = list.len();
    match change {
        Change::Set(position, value) => list.set(position, value).is_ok(),
        Change::SetUnchecked(position, value) if position < len => {
            list.set_unchecked(position, value);
            true
        }
        Change::FlipBit(position) if position < len => {
            list.flip_bit(position);
            true
        }
        Change::FlipBitUnchecked(position) if position < len => {
            list.flip_bit_unchecked(position);
            true
        }
        Change::SetUnchecked(..) | Change::FlipBit(_) | Change::FlipBitUnchecked(_) => false,
        Change::DropLast(n) => {
            list.drop_last(n);
            true
        }
        _ => append(list, change).is_ok(),
    }
}

/// A line of a script: a change that is made, one that is refused, or a query and its answer.
#[derive(Clone, Copy, Drop)]
pub enum Line {
    Make(Change),
    Refuse(Change),
    Ask(Query, Option<u64>),
}

/// Returns the number of the first line of a script (from 0) with another result.
pub fn first_wrong_line<A: Allocator + Copy>(
    list: &mut BitVec<A>,
    script: &[Line],
) -> Option<usize> {
    for (number, line) in script.iter().enumerate() {
        let is_right = match *line {
            Line::Make(change) => is_made(list, change),
            Line::Refuse(change) => !is_made(list, change),
            Line::Ask(query, wanted) => answer(list, query) == wanted,
        };
        if !is_right {
            return Some(number);
        }
    }
    None
}
