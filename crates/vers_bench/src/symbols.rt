//! The series of wavelet matrices.
use crate::report::{Report, asked, bits_per_item};
use crate::walks::sum_of;
use crate::workload::{Below, Draw, NONE, Questions, Random, position_or_none, symbols};
use std::alloc::{AllocError, Global};
use std::io;
use vers_wavelet::wavelet::WaveletMatrix;

type Matrix = WaveletMatrix<Global>;

/// Symbols of a width, the source of a matrix.
#[derive(Clone, Copy)]
pub struct Symbols<'a> {
    /// The symbols.
    pub list: &'a [u64],
    /// The number of bits of each.
    pub width: u16,
}

impl Symbols<'_> {
    // Returns the greatest number of occurrences that is queried: of 8 bits, each symbol occurs about n / 256
    // times.
    fn most_occurrences(&self) -> u64 {
        if self.width == 8 {
            (self.list.len() as u64 / 256).saturating_mul(3) / 4
        } else {
            1
        }
    }
}

/// A range of positions, and the rank of one of its elements by size.
#[derive(Clone, Copy, Drop)]
pub struct Quantile {
    /// The first position of the range.
    pub from: usize,
    /// The position after the range.
    pub to: usize,
    /// The rank of the element.
    pub number: usize,
}

/// The ranges of a list of that many symbols, each with an element.
#[derive(Clone, Copy)]
pub struct Quantiles(pub u64);

impl Draw for Quantiles {
    type Item = Quantile;

    fn draw(&self, random: &mut Random) -> Quantile {
        let from = random.below(self.0);
        let long = random.below(self.0.saturating_sub(from)).saturating_add(1);
        Quantile {
            from: from as usize,
            to: from.saturating_add(long) as usize,
            number: random.below(long) as usize,
        }
    }
}

impl Draw for Symbols<'_> {
    type Item = u64;

    fn draw(&self, random: &mut Random) -> u64 {
        let position = random.below(self.list.len() as u64) as usize;
        self.list.get(position).copied().unwrap_or(0)
    }
}

fn get(matrix: &Matrix, position: &u64) -> u64 {
    matrix.get_u64(*position as usize).unwrap_or(NONE)
}

fn rank(matrix: &Matrix, position: &u64, symbol: &u64) -> u64 {
    position_or_none(matrix.rank_u64(*position as usize, *symbol))
}

fn select(matrix: &Matrix, rank: &u64, symbol: &u64) -> u64 {
    position_or_none(matrix.select_u64(*rank as usize, *symbol))
}

fn kth(matrix: &Matrix, asked: &Quantile) -> u64 {
    let element = matrix.quantile_u64(asked.from..asked.to, asked.number);
    element.unwrap_or(NONE)
}

fn predecessor(matrix: &Matrix, asked: &Quantile, symbol: &u64) -> u64 {
    let element = matrix.predecessor_u64(asked.from..asked.to, *symbol);
    element.unwrap_or(NONE)
}

fn successor(matrix: &Matrix, asked: &Quantile, symbol: &u64) -> u64 {
    let element = matrix.successor_u64(asked.from..asked.to, *symbol);
    element.unwrap_or(NONE)
}

#[inline(never)]
fn walk_pass(matrix: &Matrix) -> u64 {
    match matrix.iter_u64() {
        Some(walk) => sum_of(walk),
        None => 0,
    }
}

#[inline(never)]
fn sorted_walk_pass(matrix: &Matrix) -> u64 {
    match matrix.iter_sorted_u64() {
        Some(walk) => sum_of(walk),
        None => 0,
    }
}

fn run_built(report: &Report, source: Symbols, matrix: &Matrix) -> io::Result<()> {
    let n = matrix.len() as u64;
    let size = bits_per_item(matrix.heap_size(), n);
    report.size("heap_bits_per_item", size)?;
    let count = report.settings.scaled(200_000);
    let positions = Questions::new(count, 9, 0, Below(n));
    let symbols = Questions::new(count, 9, 1, source);
    let ranks = Questions::new(count, 9, 2, Below(source.most_occurrences()));
    let quantiles = Questions::new(count, 9, 3, Quantiles(n));
    report.queries("get_u64", matrix, &positions, get)?;
    report.paired_queries("rank_u64", matrix, &positions, &symbols, rank)?;
    report.paired_queries("select_u64", matrix, &ranks, &symbols, select)?;
    report.queries("quantile_u64", matrix, &quantiles, kth)?;
    report.paired_queries("predecessor_u64", matrix, &quantiles, &symbols, predecessor)?;
    report.paired_queries("successor_u64", matrix, &quantiles, &symbols, successor)?;
    report.walk("iter_u64", n, matrix, walk_pass)?;
    report.walk("iter_sorted_u64", n, matrix, sorted_walk_pass)
}

/// Builds by stable sorting, of symbols that have at most 64 bits.
pub fn sorted_build(alloc: Global, source: Symbols) -> Result<Matrix, AllocError> {
    WaveletMatrix::from_slice(alloc, source.list, source.width.min(64))
}

// Builds by counting prefixes.
fn counted_build(alloc: Global, source: Symbols) -> Result<Matrix, AllocError> {
    WaveletMatrix::from_slice_pc(alloc, source.list, source.width.clamp(1, 63))
}

fn run_builds(report: &Report, source: Symbols) -> io::Result<()> {
    let count = source.list.len() as u64;
    report.builds("build", count, count, source, sorted_build)?;
    if source.width == 8 {
        report.builds("build_pc", count, count, source, counted_build)
    } else {
        Ok(())
    }
}

fn run_symbols(report: &Report, source: Symbols) -> io::Result<()> {
    run_builds(report, source)?;
    asked(
        report,
        source,
        sorted_build(report.alloc(), source),
        run_built,
    )
}

fn run_width(report: &Report, n: usize, width: u16) -> io::Result<()> {
    let parameters = format!(in report.alloc(); "n={n} width={width}")?;
    let list = symbols(report.alloc(), n, width)?;
    let source = Symbols {
        list: list.as_slice(),
        width,
    };
    run_symbols(&report.over(parameters.as_str()), source)
}

/// Runs all series over symbols of 8 bits and of 32.
pub fn run(report: &Report) -> io::Result<()> {
    let settings = report.settings;
    let n = settings.size_or(1_000_000);
    run_width(report, n, 8)?;
    if settings.size.is_some() {
        return Ok(());
    }
    run_width(report, n, 32)
}
