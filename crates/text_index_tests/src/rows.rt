//! Rows that were worked out by hand.
use std::alloc::Global;
use test_alloc::asked;
use text_index::{TextError, TextIndex};
use vers_tally::tally::Tally;

// Symbols, their width, a pattern, and its number of occurrences.
type Row<'a> = (&'a [u64], u16, &'a [u64], usize);

const ROWS: [Row; 13] = [
    (&[2, 1, 2, 1, 2], 2, &[2, 1, 2], 2),
    (&[2, 1, 2, 1, 2], 2, &[2, 2], 0),
    (&[2, 1, 2, 1, 2], 2, &[], 6),
    (&[2, 1, 2, 1, 2], 2, &[2, 1, 2, 1, 2], 1),
    (&[2, 1, 2, 1, 2], 2, &[2, 1, 2, 1, 2, 1], 0),
    (&[2, 1, 2, 1, 2], 2, &[4], 0),
    (&[0, 1, 2, 3, 0, 1, 2, 0, 1, 2, 3, 3], 2, &[0, 1, 2], 3),
    (&[], 1, &[], 1),
    (&[], 1, &[0], 0),
    (&[0, 0, 0, 0], 1, &[0, 0], 3),
    (&[0], 16, &[0], 1),
    (&[65535, 0, 65535], 16, &[65535], 2),
    (&[65535, 0, 65535], 16, &[u64::MAX], 0),
];

// Returns the number of the first row whose pattern has another number of occurrences.
fn wrong_row(alloc: Global, rows: &[Row]) -> Option<usize> {
    for (row, (symbols, width, pattern, wanted)) in rows.iter().enumerate() {
        let is_right = asked(
            TextIndex::from_slice(alloc, symbols, *width),
            |text: &TextIndex<Global>| {
                text.count(pattern) == *wanted
                    && text.len() == symbols.len()
                    && text.is_empty() == symbols.is_empty()
                    && text.bits_per_symbol() == *width
            },
        );
        if is_right != Ok(true) {
            return Some(row);
        }
    }
    None
}

#[test]
fn patterns_have_their_positions(rt: HostRuntime) {
    assert!(rt; wrong_row(rt.alloc(), &ROWS).is_none());
}

// Returns true if patterns of a text are counted together, for more counts than patterns and for fewer.
fn are_counted_together(text: &TextIndex<Global>) -> bool {
    let patterns: [&[u64]; 5] = [&[2, 1, 2], &[2, 2], &[], &[u64::MAX, 2], &[1]];
    let mut counts = [7; 6];
    text.count_each(&patterns, &mut counts);
    let mut few = [7; 1];
    text.count_each_counted(&patterns, &mut few, &mut Tally::new());
    counts == [2, 0, 6, 0, 2, 7] && few == [2]
}

#[test]
fn patterns_are_counted_together(rt: HostRuntime) {
    let made = TextIndex::from_slice(rt.alloc(), &[2, 1, 2, 1, 2], 2);
    assert!(rt; asked(made, are_counted_together) == Ok(true));
}

// Symbols of two bits, a pattern, and its positions in suffix-array order.
type Positions<'a> = (&'a [u64], &'a [u64], &'a [usize]);

const POSITIONS: [Positions; 6] = [
    (&[2, 1, 2, 1, 2], &[2], &[4, 2, 0]),
    (&[2, 1, 2, 1, 2], &[], &[5, 3, 1, 4, 2, 0]),
    (&[2, 1, 2, 1, 2], &[2, 2], &[]),
    (
        &[0, 1, 2, 3, 0, 1, 2, 0, 1, 2, 3, 3],
        &[0, 1, 2],
        &[4, 0, 7],
    ),
    (&[0, 0, 0, 0], &[0, 0], &[2, 1, 0]),
    (&[], &[], &[0]),
];

// Returns the number of the first row whose pattern has other positions.
fn wrong_positions(alloc: Global, rows: &[Positions]) -> Option<usize> {
    for (row, (symbols, pattern, wanted)) in rows.iter().enumerate() {
        let is_right = asked(
            TextIndex::from_slice(alloc, symbols, 2),
            |text: &TextIndex<Global>| match text.first_places(pattern, 6) {
                Ok(found) => found.as_slice() == *wanted,
                Err(_) => false,
            },
        );
        if is_right != Ok(true) {
            return Some(row);
        }
    }
    None
}

#[test]
fn positions_in_their_order(rt: HostRuntime) {
    assert!(rt; wrong_positions(rt.alloc(), &POSITIONS).is_none());
}

// Symbols, their width, the step, and the error of the constructor.
type Fault<'a> = (&'a [u64], u16, usize, Option<TextError>);

const FAULTS: [Fault; 7] = [
    (&[0], 0, 0, Some(TextError::WidthOutOfRange)),
    (&[u64::MAX], 17, 1, Some(TextError::WidthOutOfRange)),
    (&[0, 3, 4], 2, 0, Some(TextError::NoStep)),
    (&[0, 3, 4], 2, 1, Some(TextError::WideSymbol)),
    (&[65536], 16, 32, Some(TextError::WideSymbol)),
    (&[0, 3], 2, 1, None),
    (&[0, 3], 2, usize::MAX, None),
];

// Returns the number of the first row of which the constructor returns another error.
fn wrong_fault(alloc: Global, rows: &[Fault]) -> Option<usize> {
    for (row, (symbols, width, step, wanted)) in rows.iter().enumerate() {
        let made = TextIndex::with_step(alloc, symbols, *width, *step);
        let fault = asked(made, |_: &TextIndex<Global>| ()).err();
        if fault != *wanted {
            return Some(row);
        }
    }
    None
}

#[test]
fn faults_in_their_order(rt: HostRuntime) {
    assert!(rt; wrong_fault(rt.alloc(), &FAULTS).is_none());
}
