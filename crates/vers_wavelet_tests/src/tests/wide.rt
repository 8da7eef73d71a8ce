//! The queries for symbols of one bit, of a word and a bit, and of many more.
//!
//! A number of three digits represents the symbol that has them at its first, its middle and its last position,
//! and zeros elsewhere: so symbols are in the order of their numbers.
use crate::tests::lists::{Asked, Coding, is_answered_for, symbol_asked};
use crate::tests::makers::{Method, of_bits};
use crate::tests::numbers::{Query, answer};
use std::alloc::{AllocError, Allocator, Global};
use test_alloc::{Check, is_made_right};
use vers_bits::bit_vec::{BitVec, GrowError};
use vers_wavelet::wavelet::{GetQuery, QuantileQuery, RankQuery, SelectQuery, WaveletMatrix};

const NUMBERS: [u64; 6] = [1, 5, 3, 7, 0, 5];

// Queries of symbols for these numbers.
const ROWS: [(Query, Option<u64>); 34] = [
    (Query::Get(1), Some(5)),
    (Query::Get(6), None),
    (Query::RankRange(0, 6, 5), Some(2)),
    (Query::RankRange(2, 6, 5), Some(1)),
    (Query::RankRange(6, 6, 5), None),
    (Query::RankRange(3, 2, 5), None),
    (Query::RankOffset(1, 5, 3), Some(1)),
    (Query::RankOffset(4, 3, 3), None),
    (Query::Rank(6, 0), Some(1)),
    (Query::Rank(0, 1), Some(0)),
    (Query::Rank(7, 0), None),
    (Query::Select(1, 5), Some(5)),
    (Query::Select(2, 5), None),
    (Query::Select(0, 4), None),
    (Query::Select(usize::MAX, 5), None),
    (Query::SelectOffset(2, 0, 5), Some(5)),
    (Query::SelectOffset(6, 0, 5), None),
    (Query::Quantile(0, 6, 0), Some(0)),
    (Query::Quantile(0, 6, 3), Some(5)),
    (Query::Quantile(0, 6, 6), None),
    (Query::Quantile(4, 2, 0), None),
    (Query::Sorted(5), Some(7)),
    (Query::Sorted(6), None),
    (Query::Min(1, 4), Some(3)),
    (Query::Min(2, 2), None),
    (Query::Max(1, 3), Some(5)),
    (Query::Median(0, 6), Some(3)),
    (Query::Predecessor(0, 6, 4), Some(3)),
    (Query::Predecessor(0, 6, 5), Some(5)),
    (Query::Predecessor(0, 4, 0), None),
    (Query::Predecessor(3, 2, 5), None),
    (Query::Successor(0, 6, 2), Some(3)),
    (Query::Successor(0, 6, 3), Some(3)),
    (Query::Successor(0, 3, 6), None),
];

// Queries of an empty list.
const ROWS_OF_NONE: [(Query, Option<u64>); 8] = [
    (Query::Get(0), None),
    (Query::RankRange(0, 0, 5), None),
    (Query::Rank(0, 5), Some(0)),
    (Query::Select(0, 5), None),
    (Query::SelectOffset(0, 0, 5), None),
    (Query::Quantile(0, 0, 0), None),
    (Query::Predecessor(0, 0, 7), None),
    (Query::Successor(0, 0, 0), None),
];

// Returns true if a position of the symbol for a number has a one.
fn is_one(number: u64, position: usize, width: usize) -> bool {
    (position == 0 && number % 2 == 1)
        || (position == width / 2 && number / 2 % 2 == 1)
        || (position == width.saturating_sub(1) && number / 4 % 2 == 1)
}

// Returns the symbols for some numbers, one after another.
fn bits_of<A: Allocator + Copy>(
    alloc: A,
    numbers: &[u64],
    width: usize,
) -> Result<BitVec<A>, GrowError> {
    let mut bits = BitVec::new(alloc);
    for number in numbers.iter() {
        for position in 0..width {
            bits.append(is_one(*number, position, width))?;
        }
    }
    Ok(bits)
}

// Returns true if all forms of a query answer so, for a symbol of that many bits, which may be another width
// than the list's.
fn is_answered_at<A: Allocator + Copy>(
    alloc: A,
    list: &WaveletMatrix<A>,
    query: Query,
    width: usize,
    wanted: Option<u64>,
) -> bool {
    let number = symbol_asked(query).unwrap_or(0);
    let asked = Asked {
        list,
        query,
        coding: Coding::Digits,
        wanted,
    };
    is_answered_for(&asked, bits_of(alloc, &[number], width))
}

// Returns true if all queries have the answers in their rows.
fn are_answered<A: Allocator + Copy>(
    alloc: A,
    list: &WaveletMatrix<A>,
    rows: &[(Query, Option<u64>)],
) -> bool {
    for (query, wanted) in rows.iter() {
        if !is_answered_at(alloc, list, *query, list.bits_per_element(), *wanted) {
            return false;
        }
    }
    true
}

// Returns true if queries that take a number, or return one, have no answer.
fn has_none<A: Allocator + Copy>(list: &WaveletMatrix<A>, rows: &[(Query, Option<u64>)]) -> bool {
    for (query, _) in rows.iter() {
        if answer(list, *query).is_some() {
            return false;
        }
    }
    list.iter_u64().is_none()
        && list.iter_sorted_u64().is_none()
        && list.get_gathered_u64(0).is_none()
        && list.gathered_u64(0, 5).is_none()
        && list.gathered_range_u64(0..6, 5).is_none()
        && batches_have_none(list)
}

// Returns true if no query of a batch has an answer, also if it had one before.
fn batches_have_none<A: Allocator + Copy>(list: &WaveletMatrix<A>) -> bool {
    let mut gets = [GetQuery {
        position: 0,
        answer: Some(9),
    }];
    list.get_u64_each(&mut gets);
    let mut ranks = [RankQuery {
        end: 0,
        symbol: 5,
        answer: Some(9),
    }];
    list.rank_u64_each(&mut ranks);
    let mut selects = [SelectQuery {
        rank: 0,
        symbol: 5,
        answer: Some(9),
    }];
    list.select_u64_each(&mut selects);
    let mut quantiles = [QuantileQuery {
        start: 0,
        end: 1,
        i: 0,
        answer: Some(9),
    }];
    list.quantile_u64_each(&mut quantiles);
    gets[0].answer.is_none()
        && ranks[0].answer.is_none()
        && selects[0].answer.is_none()
        && quantiles[0].answer.is_none()
}

// Queries for a symbol of another width, which have no answer.
const OF_ANOTHER_WIDTH: [Query; 7] = [
    Query::RankRange(0, 6, 5),
    Query::RankOffset(0, 6, 5),
    Query::Rank(6, 5),
    Query::SelectOffset(0, 0, 5),
    Query::Select(0, 5),
    Query::Predecessor(0, 6, 5),
    Query::Successor(0, 6, 5),
];

fn refuses_width<A: Allocator + Copy>(
    alloc: A,
    list: &WaveletMatrix<A>,
    queries: &[Query],
    width: usize,
) -> bool {
    for query in queries {
        if !is_answered_at(alloc, list, *query, width, None) {
            return false;
        }
    }
    true
}

// Returns true if a symbol is there, of that many ones.
fn is_of_ones<A: Allocator + Copy>(
    symbol: Result<Option<BitVec<A>>, AllocError>,
    width: usize,
) -> bool {
    match symbol {
        Ok(Some(symbol)) => symbol.len() == width && symbol.count_ones() == width as u64,
        _ => false,
    }
}

// Returns true if there is one symbol, of ones, which doesn't fit in a word.
fn is_one_of_ones<A: Allocator + Copy>(list: &WaveletMatrix<A>) -> bool {
    list.len() == 1
        && list.iter_u64().is_none()
        && is_of_ones(list.get_value(0), list.bits_per_element())
}

// A property of symbols.
#[derive(Clone, Copy, Drop)]
enum Property<'a> {
    // Queries have the answers in their rows.
    Rows(&'a [(Query, Option<u64>)]),
    // Queries for numbers have no answer.
    NoNumbers(&'a [(Query, Option<u64>)]),
    // Queries for symbols of that many bits have no answer.
    OtherWidth(usize),
    // There is one symbol, whose bits are ones.
    OneOfOnes,
}

// Symbols of that many bits, and a property of them.
#[derive(Drop)]
struct Wide<'a> {
    alloc: Global,
    width: u16,
    property: Property<'a>,
}

impl Check<WaveletMatrix<Global>> for Wide<'_> {
    fn is_right(&self, list: &mut WaveletMatrix<Global>) -> bool {
        match self.property {
            Property::Rows(rows) => are_answered(self.alloc, list, rows),
            Property::NoNumbers(rows) => has_none(list, rows),
            Property::OtherWidth(width) => {
                refuses_width(self.alloc, list, &OF_ANOTHER_WIDTH, width)
            }
            Property::OneOfOnes => is_one_of_ones(list),
        }
    }
}

// Checks the property for the symbols in a list of bits.
impl Check<BitVec<Global>> for Wide<'_> {
    fn is_right(&self, bits: &mut BitVec<Global>) -> bool {
        is_made_right(of_bits(Method::Sorting, bits, self.width), self)
    }
}

// Returns the first of several widths at which a property does not hold for the symbols of some numbers.
fn first_wrong_width(
    alloc: Global,
    numbers: &[u64],
    widths: &[u16],
    property: Property,
) -> Option<u16> {
    for width in widths {
        let wide = Wide {
            alloc,
            width: *width,
            property,
        };
        if !is_made_right(bits_of(alloc, numbers, *width as usize), &wide) {
            return Some(*width);
        }
    }
    None
}

const WIDTHS: [u16; 5] = [3, 64, 65, 127, u16::MAX];

// The rows are in a function of its own, which is faster to prove than in a test.
fn rows() -> &'static [(Query, Option<u64>)] {
    &ROWS
}

#[test]
fn wide_symbols(rt: HostRuntime) {
    let wrong = first_wrong_width(rt.alloc(), &NUMBERS, &WIDTHS, Property::Rows(rows()));
    assert!(rt; wrong.is_none());
}

#[test]
fn no_wide_symbols(rt: HostRuntime) {
    let wrong = first_wrong_width(rt.alloc(), &[], &WIDTHS, Property::Rows(&ROWS_OF_NONE));
    assert!(rt; wrong.is_none());
}

#[test]
fn no_numbers_of_more_than_64_bits(rt: HostRuntime) {
    let wrong = first_wrong_width(
        rt.alloc(),
        &NUMBERS,
        &[65, 127],
        Property::NoNumbers(rows()),
    );
    assert!(rt; wrong.is_none());
}

#[test]
fn symbols_of_another_length(rt: HostRuntime) {
    for other in [0, 1, 2, 63, 66, 128] {
        let property = Property::OtherWidth(other);
        let wrong = first_wrong_width(rt.alloc(), &NUMBERS, &[3, 64, 65, 127], property);
        assert!(rt; wrong.is_none());
    }
}

#[test]
fn one_symbol_of_127_ones(rt: HostRuntime) {
    let alloc = rt.alloc();
    let wide = Wide {
        alloc,
        width: 127,
        property: Property::OneOfOnes,
    };
    assert!(rt; is_made_right(BitVec::from_ones(alloc, 127), &wide));
}
