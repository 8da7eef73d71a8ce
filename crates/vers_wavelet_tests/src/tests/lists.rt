//! Symbols that are lists of their bits, with the same queries as numbers.
//!
//! A refused request is an error: it is never taken for none.
use crate::tests::numbers::{Query, answer, as_number, is_within, position_below};
use std::alloc::{AllocError, Allocator};
use test_alloc::{Check, is_made_right};
use vers_bits::bit_vec::{BitVec, GrowError};
use vers_tally::tally::Tally;
use vers_wavelet::wavelet::WaveletMatrix;

/// The result of a query for lists of bits, as a number.
pub type FoundNumber = Result<Option<u64>, AllocError>;

/// Returns the low bits of a number.
pub fn symbol_of<A: Allocator + Copy>(
    alloc: A,
    number: u64,
    width: usize,
) -> Result<BitVec<A>, GrowError> {
    BitVec::pack_sequence_u64(alloc, &[number], width)
}

/// Returns the number of a list of at most 64 bits.
pub fn number_of<A: Allocator + Copy>(symbol: &BitVec<A>) -> u64 {
    symbol.get_bits(0, symbol.len()).unwrap_or(0)
}

// Returns the number of the three digits at the first, the middle and the last position.
fn number_of_digits<A: Allocator + Copy>(symbol: &BitVec<A>) -> u64 {
    let first = symbol.get(0).unwrap_or(0);
    let middle = symbol.get(symbol.len() / 2).unwrap_or(0);
    let last = symbol.get(symbol.len().saturating_sub(1)).unwrap_or(0);
    (first | middle << 1) | last << 2
}

/// The number that a list of bits represents.
#[derive(Clone, Copy, Drop)]
pub enum Coding {
    /// That of its bits, of which there are at most 64.
    Bits,
    /// One of three digits, which are its first, its middle and its last bit. The others are zeros.
    Digits,
}

// Returns the number that a symbol represents.
fn number_by<A: Allocator + Copy>(coding: Coding, symbol: &BitVec<A>) -> u64 {
    match coding {
        Coding::Bits => number_of(symbol),
        Coding::Digits => number_of_digits(symbol),
    }
}

// Returns the number in an answer, or `None`.
fn found_number<A: Allocator + Copy>(
    coding: Coding,
    found: Result<Option<BitVec<A>>, AllocError>,
) -> FoundNumber {
    Ok(match found? {
        Some(symbol) => Some(number_by(coding, &symbol)),
        None => None,
    })
}

// Returns the number in an answer.
fn symbol_number<A: Allocator + Copy>(
    coding: Coding,
    found: Result<BitVec<A>, AllocError>,
) -> FoundNumber {
    Ok(Some(number_by(coding, &found?)))
}

// Returns the answer of a query for a symbol that is a list of bits.
fn answer_for<A: Allocator + Copy>(
    list: &WaveletMatrix<A>,
    query: Query,
    coding: Coding,
    symbol: &BitVec<A>,
) -> FoundNumber {
    match query {
        Query::RankRange(a, b, _) => Ok(as_number(list.rank_range(a..b, symbol))),
        Query::RankOffset(a, b, _) => Ok(as_number(list.rank_offset(a, b, symbol))),
        Query::Rank(i, _) => Ok(as_number(list.rank(i, symbol))),
        Query::SelectOffset(o, r, _) => Ok(as_number(list.select_offset(o, r, symbol))),
        Query::Select(r, _) => Ok(as_number(list.select(r, symbol))),
        Query::Predecessor(a, b, _) => found_number(coding, list.predecessor(a..b, symbol)),
        Query::Successor(a, b, _) => found_number(coding, list.successor(a..b, symbol)),
        _ => Ok(None),
    }
}

// Does the same for the counted form.
fn counted_for<A: Allocator + Copy>(
    list: &WaveletMatrix<A>,
    query: Query,
    coding: Coding,
    symbol: &BitVec<A>,
    tally: &mut Tally,
) -> FoundNumber {
    match query {
        Query::RankRange(a, b, _) => Ok(as_number(list.rank_range_counted(a..b, symbol, tally))),
        Query::RankOffset(a, b, _) => Ok(as_number(list.rank_offset_counted(a, b, symbol, tally))),
        Query::Rank(i, _) => Ok(as_number(list.rank_counted(i, symbol, tally))),
        Query::SelectOffset(o, r, _) => {
            Ok(as_number(list.select_offset_counted(o, r, symbol, tally)))
        }
        Query::Select(r, _) => Ok(as_number(list.select_counted(r, symbol, tally))),
        Query::Predecessor(a, b, _) => found_number(
            coding,
            list.predecessor_counted(a..b, symbol, tally),
        ),
        Query::Successor(a, b, _) => found_number(
            coding,
            list.successor_counted(a..b, symbol, tally),
        ),
        _ => Ok(None),
    }
}

// Does the same for the unchecked form, if there is one and its precondition holds.
fn unchecked_for<A: Allocator + Copy>(
    list: &WaveletMatrix<A>,
    query: Query,
    coding: Coding,
    symbol: &BitVec<A>,
) -> FoundNumber {
    let len = list.len();
    if symbol.len() != list.bits_per_element() {
        return answer_for(list, query, coding, symbol);
    }
    match query {
        Query::RankRange(a, b, _) if a < len && a <= b && b <= len => {
            Ok(Some(list.rank_range_unchecked(a..b, symbol) as u64))
        }
        Query::RankOffset(a, b, _) if a < len && a <= b && b <= len => {
            Ok(Some(list.rank_offset_unchecked(a, b, symbol) as u64))
        }
        Query::Rank(i, _) if i <= len => Ok(Some(list.rank_unchecked(i, symbol) as u64)),
        Query::SelectOffset(o, r, _) if o <= len => {
            Ok(position_below(list.select_offset_unchecked(o, r, symbol), len))
        }
        Query::Select(r, _) => Ok(position_below(list.select_unchecked(r, symbol), len)),
        _ => answer_for(list, query, coding, symbol),
    }
}

// Returns the answer of a query that returns a symbol.
fn symbol_answer<A: Allocator + Copy>(
    list: &WaveletMatrix<A>,
    query: Query,
    coding: Coding,
) -> FoundNumber {
    match query {
        Query::Get(i) => found_number(coding, list.get_value(i)),
        Query::Quantile(a, b, i) => found_number(coding, list.quantile(a..b, i)),
        Query::Sorted(i) => found_number(coding, list.get_sorted(i)),
        Query::Min(a, b) => found_number(coding, list.range_min(a..b)),
        Query::Max(a, b) => found_number(coding, list.range_max(a..b)),
        Query::Median(a, b) => found_number(coding, list.range_median(a..b)),
        _ => Ok(answer(list, query)),
    }
}

// Does the same for the counted form.
fn counted_symbol<A: Allocator + Copy>(
    list: &WaveletMatrix<A>,
    query: Query,
    coding: Coding,
    tally: &mut Tally,
) -> FoundNumber {
    match query {
        Query::Get(i) => found_number(coding, list.get_value_counted(i, tally)),
        Query::Quantile(a, b, i) => found_number(coding, list.quantile_counted(a..b, i, tally)),
        Query::Sorted(i) => found_number(coding, list.get_sorted_counted(i, tally)),
        Query::Min(a, b) => found_number(coding, list.range_min_counted(a..b, tally)),
        Query::Max(a, b) => found_number(coding, list.range_max_counted(a..b, tally)),
        Query::Median(a, b) => found_number(coding, list.range_median_counted(a..b, tally)),
        _ => Ok(answer(list, query)),
    }
}

// Does the same for the unchecked form, if its precondition holds.
fn unchecked_symbol<A: Allocator + Copy>(
    list: &WaveletMatrix<A>,
    query: Query,
    coding: Coding,
) -> FoundNumber {
    let len = list.len();
    match query {
        Query::Get(i) if i < len => symbol_number(coding, list.get_value_unchecked(i)),
        Query::Quantile(a, b, i) if a < b && b <= len && i < b - a => {
            symbol_number(coding, list.quantile_unchecked(a..b, i))
        }
        Query::Sorted(i) if i < len => symbol_number(coding, list.get_sorted_unchecked(i)),
        Query::Min(a, b) if a < b && b <= len => symbol_number(
            coding,
            list.range_min_unchecked(a..b),
        ),
        Query::Max(a, b) if a < b && b <= len => symbol_number(
            coding,
            list.range_max_unchecked(a..b),
        ),
        Query::Median(a, b) if a < b && b <= len => {
            symbol_number(coding, list.range_median_unchecked(a..b))
        }
        _ => symbol_answer(list, query, coding),
    }
}

/// Returns the number of the symbol in a query, if it has one.
pub fn symbol_asked(query: Query) -> Option<u64> {
    match query {
        Query::RankRange(_, _, s)
        | Query::RankOffset(_, _, s)
        | Query::Rank(_, s)
        | Query::SelectOffset(_, _, s)
        | Query::Select(_, s)
        | Query::Predecessor(_, _, s)
        | Query::Successor(_, _, s) => Some(s),
        _ => None,
    }
}

/// The form of a query. One whose precondition doesn't hold is not called unchecked.
#[derive(Clone, Copy, Drop)]
pub enum Form {
    Plain,
    Counted,
    Unchecked,
}

/// Returns the answer of a form of a query, for which there is a symbol of at most 64 bits.
pub fn answer_in<A: Allocator + Copy>(
    list: &WaveletMatrix<A>,
    query: Query,
    form: Form,
    symbol: &BitVec<A>,
) -> FoundNumber {
    let is_for_symbol = symbol_asked(query).is_some();
    let coding = Coding::Bits;
    match form {
        Form::Plain if is_for_symbol => answer_for(list, query, coding, symbol),
        Form::Plain => symbol_answer(list, query, coding),
        Form::Counted if is_for_symbol => {
            counted_for(list, query, coding, symbol, &mut Tally::new())
        }
        Form::Counted => counted_symbol(list, query, coding, &mut Tally::new()),
        Form::Unchecked if is_for_symbol => unchecked_for(list, query, coding, symbol),
        Form::Unchecked => unchecked_symbol(list, query, coding),
    }
}

/// A query of a list, how its symbols are read, and its expected answer.
#[derive(Drop)]
pub struct Asked<'a, A: Allocator + Copy> {
    pub list: &'a WaveletMatrix<A>,
    pub query: Query,
    pub coding: Coding,
    pub wanted: Option<u64>,
}

/// Returns true if all forms of a query for a symbol answer so, and the counted one within its bound.
pub fn is_answered_to<A: Allocator + Copy>(asked: &Asked<'_, A>, symbol: &BitVec<A>) -> bool {
    let wanted = Ok(asked.wanted);
    let mut tally = Tally::new();
    answer_for(asked.list, asked.query, asked.coding, symbol) == wanted
        && counted_for(asked.list, asked.query, asked.coding, symbol, &mut tally) == wanted
        && is_within(asked.list, &tally)
        && unchecked_for(asked.list, asked.query, asked.coding, symbol) == wanted
}

impl<A: Allocator + Copy> Check<BitVec<A>> for Asked<'_, A> {
    fn is_right(&self, symbol: &mut BitVec<A>) -> bool {
        is_answered_to(self, symbol)
    }
}

/// Does the same for a query that returns a symbol.
pub fn is_symbol_answered<A: Allocator + Copy>(asked: &Asked<'_, A>) -> bool {
    let wanted = Ok(asked.wanted);
    let mut tally = Tally::new();
    symbol_answer(asked.list, asked.query, asked.coding) == wanted
        && counted_symbol(asked.list, asked.query, asked.coding, &mut tally) == wanted
        && is_within(asked.list, &tally)
        && unchecked_symbol(asked.list, asked.query, asked.coding) == wanted
}

/// Returns true if all forms of a query answer so, with the symbol if it has one.
pub fn is_answered_for<A: Allocator + Copy>(
    asked: &Asked<'_, A>,
    symbol: Result<BitVec<A>, GrowError>,
) -> bool {
    match symbol_asked(asked.query) {
        Some(_) => is_made_right(symbol, asked),
        None => is_symbol_answered(asked),
    }
}

/// Does the same for a symbol of the low bits of the query's number.
pub fn is_answered_in_lists<A: Allocator + Copy>(
    alloc: A,
    list: &WaveletMatrix<A>,
    query: Query,
    wanted: Option<u64>,
) -> bool {
    let number = symbol_asked(query).unwrap_or(0);
    let asked = Asked {
        list,
        query,
        coding: Coding::Bits,
        wanted,
    };
    is_answered_for(&asked, symbol_of(alloc, number, list.bits_per_element()))
}
