//! The series of texts in which patterns are found.
//!
//! Patterns are taken from the text, or, if they must not occur in it, from another one of its kind.
use crate::report::{Report, asked, bits_per_item, or_refused};
use crate::workload::{Below, NONE, Questions, bases, fold, words};
use std::alloc::{AllocError, Global};
use std::io;
use text_index::TextIndex;

type Text = TextIndex<Global>;

/// The source of a text, and another text of its kind.
#[derive(Clone, Copy)]
struct Source<'a> {
    symbols: &'a [u64],
    others: &'a [u64],
    width: u16,
}

// The lengths of the patterns that are counted, and the names of these series.
const COUNTS: [(&str, usize); 3] = [("count_8", 8), ("count_16", 16), ("count_32", 32)];

// The greatest length of a pattern.
const LONGEST: usize = 32;

// The number of occurrences of a pattern that are located, and the number of symbols that are extracted.
const POSITIONS: usize = 10;

const PIECE: usize = 64;

// Returns the `len` symbols from a position on.
fn pattern(symbols: &[u64], position: u64, len: usize) -> &[u64] {
    let position = position as usize;
    symbols
        .get(position..position.saturating_add(len))
        .unwrap_or(&[])
}

fn count(text: &Text, symbols: &[u64], position: u64, len: usize) -> u64 {
    text.count(pattern(symbols, position, len)) as u64
}

// Returns the first positions of a pattern of eight symbols, folded.
fn sum_of_first(text: &Text, symbols: &[u64], position: u64) -> u64 {
    let Ok(found) = text.first_places(pattern(symbols, position, 8), POSITIONS) else {
        return NONE;
    };
    let mut sum = 0;
    for position in &found {
        sum = fold(sum, *position as u64);
    }
    sum
}

// Returns the symbols from a position on, folded.
fn piece(text: &Text, position: u64) -> u64 {
    let position = position as usize;
    let Ok(Some(found)) = text.extract(position..position.saturating_add(PIECE)) else {
        return NONE;
    };
    let mut sum = 0;
    for symbol in &found {
        sum = fold(sum, *symbol);
    }
    sum
}

#[inline(never)]
fn made(alloc: Global, source: Source) -> Result<Text, AllocError> {
    or_refused(TextIndex::from_slice(alloc, source.symbols, source.width))
}

fn run_counts(report: &Report, source: Source, text: &Text) -> io::Result<()> {
    let queries = report.settings.scaled(100_000);
    let begins = Below(source.symbols.len().saturating_sub(LONGEST) as u64);
    for (number, (name, len)) in COUNTS.iter().enumerate() {
        let asked = Questions::new(queries, 102, number, begins);
        let answer = |it: &Text, position: &u64| count(it, source.symbols, *position, *len);
        report.queries(name, text, &asked, answer)?;
    }
    let begins = Below(source.others.len().saturating_sub(LONGEST) as u64);
    let asked = Questions::new(queries, 102, 3, begins);
    let answer = |it: &Text, position: &u64| count(it, source.others, *position, LONGEST);
    report.queries("count_absent_32", text, &asked, answer)
}

fn run_queries(report: &Report, source: Source, text: &Text) -> io::Result<()> {
    let n = source.symbols.len() as u64;
    report.size("heap_bits_per_item", bits_per_item(text.heap_size(), n))?;
    run_counts(report, source, text)?;
    let queries = report.settings.scaled(20_000);
    let begins = Below(n.saturating_sub(PIECE as u64));
    let asked = Questions::new(queries, 103, 0, begins);
    let answer = |it: &Text, position: &u64| sum_of_first(it, source.symbols, *position);
    report.queries("first_places_10", text, &asked, answer)?;
    let asked = Questions::new(queries, 103, 1, begins);
    report.queries("extract_64", text, &asked, |it: &Text, position: &u64| {
        piece(it, *position)
    })
}

fn run_text(report: &Report, kind: &str, source: Source) -> io::Result<()> {
    let n = source.symbols.len();
    let parameters = format!(in report.alloc(); "{kind} n={n}")?;
    let report = report.over(parameters.as_str());
    report.builds("build", n as u64, n as u64, source, made)?;
    if source.others.is_empty() {
        return Ok(());
    }
    let text = made(report.alloc(), source);
    asked(&report, source, text, run_queries)
}

// Runs the series over bases, with the symbols of 2 bits.
fn run_bases(report: &Report, n: usize) -> io::Result<()> {
    let symbols = bases(report.alloc(), n, 100)?;
    let others = bases(report.alloc(), n / 10, 101)?;
    let source = Source {
        symbols: symbols.as_slice(),
        others: others.as_slice(),
        width: 2,
    };
    run_text(report, "bases", source)
}

// Runs the series over words, with the symbols of 8 bits.
fn run_words(report: &Report, n: usize) -> io::Result<()> {
    let symbols = words(report.alloc(), n, 100)?;
    let others = words(report.alloc(), n / 10, 101)?;
    let source = Source {
        symbols: symbols.as_slice(),
        others: others.as_slice(),
        width: 8,
    };
    run_text(report, "words", source)
}

// Runs the build over `n` equal symbols of 2 bits.
fn run_equal(report: &Report, n: usize) -> io::Result<()> {
    let symbols = Vec::from_elem(report.alloc(), 1u64, n)?;
    let source = Source {
        symbols: symbols.as_slice(),
        others: &[],
        width: 2,
    };
    run_text(report, "equal", source)
}

fn run_size(report: &Report, n: usize) -> io::Result<()> {
    run_bases(report, n)?;
    run_words(report, n)?;
    run_equal(report, n)
}

/// Runs all series over texts of a million symbols, and if times are requested of ten million too.
pub fn run(report: &Report) -> io::Result<()> {
    let settings = report.settings;
    run_size(report, settings.size_or(1_000_000))?;
    if settings.has_large() {
        run_size(report, settings.scaled(10_000_000))
    } else {
        Ok(())
    }
}
