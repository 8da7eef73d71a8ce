//! The series of batches: queries one by one, and the same many at once.
//!
//! A batch replaces its queries by answers, so these are copied outside the measured time.
use crate::bits::indexed;
use crate::report::{Report, Timed, asked, timed_since};
use crate::symbols::{Quantile, Quantiles, Symbols, sorted_build};
use crate::workload::{
    Below, Draw, NONE, Questions, Random, RandomBits, elements_uniform, fold, position_or_none,
    symbols,
};
use std::alloc::Global;
use std::io;
use std::time::CpuClock;
use vers_rank::fast_rs_vec::RsVec;
use vers_sorted::elias_fano::EliasFanoVec;
use vers_sorted::order::is_ascending;
use vers_wavelet::wavelet::{GetQuery, QuantileQuery, RankQuery, SelectQuery, WaveletMatrix};

/// The greatest numbers of queries in a batch.
const SIZES: [usize; 2] = [64, 65_536];

/// A kind of queries, which are answered one by one, or many at once.
trait Batched: Draw {
    /// The structure that they query.
    type Structure;

    /// Answers one query.
    fn one(structure: &Self::Structure, query: &Self::Item) -> u64;

    /// Answers many queries in place.
    fn each(structure: &Self::Structure, queries: &mut [Self::Item]);

    /// Returns the answer of a query.
    fn answer(query: &Self::Item) -> u64;
}

#[inline(never)]
fn batches_pass<K: Batched>(structure: &K::Structure, queries: &mut [K::Item], size: usize) -> u64 {
    let mut sum = 0;
    for batch in queries.chunks_mut(size.max(1)) {
        K::each(structure, batch);
        for query in batch {
            sum = fold(sum, K::answer(query));
        }
    }
    sum
}

// Returns the time of a pass over batches of a size, and its checksum.
fn measured<K: Batched>(
    report: &Report,
    structure: &K::Structure,
    queries: &[K::Item],
    size: usize,
) -> io::Result<Timed>
where
    K::Item: Copy,
{
    let mut copy = Vec::from_slice(report.alloc(), queries)?;
    let start = report.rt.thread_cpu_time()?;
    let checksum = batches_pass::<K>(structure, copy.as_mut_slice(), size);
    timed_since(report.rt, start, checksum)
}

// Runs a series of queries one by one, and in batches of each size, and prints a line for each.
fn run_kind<K: Batched>(
    report: &Report,
    operation: &str,
    structure: &K::Structure,
    questions: &Questions<K>,
) -> io::Result<()>
where
    K::Item: Copy,
{
    let queries = questions.made(report.alloc())?;
    let queries = queries.as_slice();
    let one = |it: &K::Structure, query: &K::Item| K::one(it, query);
    report.listed_queries(operation, structure, queries, one)?;
    for size in &SIZES {
        let name = format!(in report.alloc(); "{operation}_each_{size}")?;
        let run = || measured::<K>(report, structure, queries, *size);
        report.repeated(name.as_str(), queries.len() as u64, run)?;
    }
    Ok(())
}

type Matrix = WaveletMatrix<Global>;

/// Queries for the symbols at positions below a number.
#[derive(Clone, Copy)]
struct Gets(u64);

impl Draw for Gets {
    type Item = GetQuery;

    fn draw(&self, random: &mut Random) -> GetQuery {
        GetQuery::new(random.below(self.0) as usize)
    }
}

impl Batched for Gets {
    type Structure = Matrix;

    fn one(matrix: &Matrix, query: &GetQuery) -> u64 {
        matrix.get_u64(query.position).unwrap_or(NONE)
    }

    fn each(matrix: &Matrix, queries: &mut [GetQuery]) {
        matrix.get_u64_each(queries);
    }

    fn answer(query: &GetQuery) -> u64 {
        query.answer.unwrap_or(NONE)
    }
}

/// Queries for ranks of symbols.
#[derive(Clone, Copy)]
struct Ranks<'a>(Symbols<'a>);

impl Draw for Ranks<'_> {
    type Item = RankQuery;

    fn draw(&self, random: &mut Random) -> RankQuery {
        let end = random.below(self.0.list.len() as u64) as usize;
        RankQuery::new(end, self.0.draw(random))
    }
}

impl Batched for Ranks<'_> {
    type Structure = Matrix;

    fn one(matrix: &Matrix, query: &RankQuery) -> u64 {
        position_or_none(matrix.rank_u64(query.end, query.symbol))
    }

    fn each(matrix: &Matrix, queries: &mut [RankQuery]) {
        matrix.rank_u64_each(queries);
    }

    fn answer(query: &RankQuery) -> u64 {
        position_or_none(query.answer)
    }
}

/// Queries for the first positions of symbols.
#[derive(Clone, Copy)]
struct Selects<'a>(Symbols<'a>);

impl Draw for Selects<'_> {
    type Item = SelectQuery;

    fn draw(&self, random: &mut Random) -> SelectQuery {
        SelectQuery::new(0, self.0.draw(random))
    }
}

impl Batched for Selects<'_> {
    type Structure = Matrix;

    fn one(matrix: &Matrix, query: &SelectQuery) -> u64 {
        position_or_none(matrix.select_u64(query.rank, query.symbol))
    }

    fn each(matrix: &Matrix, queries: &mut [SelectQuery]) {
        matrix.select_u64_each(queries);
    }

    fn answer(query: &SelectQuery) -> u64 {
        position_or_none(query.answer)
    }
}

/// Queries for quantiles.
#[derive(Clone, Copy)]
struct Elements(Quantiles);

impl Draw for Elements {
    type Item = QuantileQuery;

    fn draw(&self, random: &mut Random) -> QuantileQuery {
        let Quantile { from, to, number } = self.0.draw(random);
        QuantileQuery::new(from, to, number)
    }
}

impl Batched for Elements {
    type Structure = Matrix;

    fn one(matrix: &Matrix, query: &QuantileQuery) -> u64 {
        let range = query.start..query.end;
        matrix.quantile_u64(range, query.i).unwrap_or(NONE)
    }

    fn each(matrix: &Matrix, queries: &mut [QuantileQuery]) {
        matrix.quantile_u64_each(queries);
    }

    fn answer(query: &QuantileQuery) -> u64 {
        query.answer.unwrap_or(NONE)
    }
}

fn run_matrix(report: &Report, source: Symbols, matrix: &Matrix) -> io::Result<()> {
    let n = matrix.len() as u64;
    let count = report.settings.scaled(131_072);
    let gets = Questions::new(count, 9, 0, Gets(n));
    run_kind(report, "get_u64", matrix, &gets)?;
    let ranks = Questions::new(count, 9, 1, Ranks(source));
    run_kind(report, "rank_u64", matrix, &ranks)?;
    let selects = Questions::new(count, 9, 3, Selects(source));
    run_kind(report, "select_u64", matrix, &selects)?;
    let quantiles = Questions::new(count, 9, 4, Elements(Quantiles(n)));
    run_kind(report, "quantile_u64", matrix, &quantiles)
}

// Runs the series over symbols of 32 bits.
fn run_symbols(report: &Report, n: usize) -> io::Result<()> {
    let width = 32;
    let parameters = format!(in report.alloc(); "symbols n={n} width={width}")?;
    let list = symbols(report.alloc(), n, width)?;
    let source = Symbols {
        list: list.as_slice(),
        width,
    };
    let made = sorted_build(report.alloc(), source);
    asked(&report.over(parameters.as_str()), source, made, run_matrix)
}

type Bits = RsVec<Global>;

/// The numbers of that many ones.
#[derive(Clone, Copy)]
struct Ones(u64);

impl Draw for Ones {
    type Item = usize;

    fn draw(&self, random: &mut Random) -> usize {
        random.below(self.0) as usize
    }
}

impl Batched for Ones {
    type Structure = Bits;

    fn one(bits: &Bits, number: &usize) -> u64 {
        bits.select1(*number) as u64
    }

    fn each(bits: &Bits, numbers: &mut [usize]) {
        bits.select1_each(numbers);
    }

    fn answer(position: &usize) -> u64 {
        *position as u64
    }
}

/// The numbers of that many zeros.
#[derive(Clone, Copy)]
struct Zeros(u64);

impl Draw for Zeros {
    type Item = usize;

    fn draw(&self, random: &mut Random) -> usize {
        random.below(self.0) as usize
    }
}

impl Batched for Zeros {
    type Structure = Bits;

    fn one(bits: &Bits, number: &usize) -> u64 {
        bits.select0(*number) as u64
    }

    fn each(bits: &Bits, numbers: &mut [usize]) {
        bits.select0_each(numbers);
    }

    fn answer(position: &usize) -> u64 {
        *position as u64
    }
}

fn run_bits(report: &Report, _source: (), bits: &Bits) -> io::Result<()> {
    let ones = report.questions(7, 0, Ones(bits.ones() as u64));
    run_kind(report, "select1", bits, &ones)?;
    let zeros = report.questions(7, 1, Zeros(bits.zeros() as u64));
    run_kind(report, "select0", bits, &zeros)
}

// Runs the series over bits of which half are ones.
fn run_limbs(report: &Report, limb_count: usize) -> io::Result<()> {
    let data = RandomBits {
        limb_count,
        percent: 50,
    };
    let parameters = data.parameters(report.alloc())?;
    let limbs = data.limbs(report.alloc())?;
    let made = indexed(report.alloc(), limbs.as_slice());
    asked(&report.over(parameters.as_str()), (), made, run_bits)
}

type List = EliasFanoVec<Global>;

/// Positions of that many elements.
#[derive(Clone, Copy)]
struct Positions(u64);

impl Draw for Positions {
    type Item = Option<u64>;

    fn draw(&self, random: &mut Random) -> Option<u64> {
        Some(random.below(self.0))
    }
}

impl Batched for Positions {
    type Structure = List;

    fn one(list: &List, position: &Option<u64>) -> u64 {
        match *position {
            Some(position) => list.get(position as usize).unwrap_or(NONE),
            None => NONE,
        }
    }

    fn each(list: &List, positions: &mut [Option<u64>]) {
        list.get_each(positions);
    }

    fn answer(element: &Option<u64>) -> u64 {
        element.unwrap_or(NONE)
    }
}

// The number of elements below a number.
impl Batched for Below {
    type Structure = List;

    fn one(list: &List, number: &u64) -> u64 {
        list.rank(*number)
    }

    fn each(list: &List, numbers: &mut [u64]) {
        list.rank_each(numbers);
    }

    fn answer(below: &u64) -> u64 {
        *below
    }
}

/// Numbers below a limit, for the predecessor of each.
#[derive(Clone, Copy)]
struct Predecessors(u64);

impl Draw for Predecessors {
    type Item = Option<u64>;

    fn draw(&self, random: &mut Random) -> Option<u64> {
        Some(random.below(self.0))
    }
}

impl Batched for Predecessors {
    type Structure = List;

    fn one(list: &List, number: &Option<u64>) -> u64 {
        match *number {
            Some(number) => list.predecessor(number).unwrap_or(NONE),
            None => NONE,
        }
    }

    fn each(list: &List, numbers: &mut [Option<u64>]) {
        list.predecessor_each(numbers);
    }

    fn answer(element: &Option<u64>) -> u64 {
        element.unwrap_or(NONE)
    }
}

/// Numbers below a limit, for the successor of each.
#[derive(Clone, Copy)]
struct Successors(u64);

impl Draw for Successors {
    type Item = Option<u64>;

    fn draw(&self, random: &mut Random) -> Option<u64> {
        Some(random.below(self.0))
    }
}

impl Batched for Successors {
    type Structure = List;

    fn one(list: &List, number: &Option<u64>) -> u64 {
        match *number {
            Some(number) => list.successor(number).unwrap_or(NONE),
            None => NONE,
        }
    }

    fn each(list: &List, numbers: &mut [Option<u64>]) {
        list.successor_each(numbers);
    }

    fn answer(element: &Option<u64>) -> u64 {
        element.unwrap_or(NONE)
    }
}

// Runs the series over a list whose elements are below a number.
fn run_list(report: &Report, end: u64, list: &List) -> io::Result<()> {
    let positions = report.questions(8, 0, Positions(list.len() as u64));
    run_kind(report, "get", list, &positions)?;
    run_kind(report, "rank", list, &report.questions(8, 1, Below(end)))?;
    let numbers = report.questions(8, 1, Predecessors(end));
    run_kind(report, "predecessor", list, &numbers)?;
    let numbers = report.questions(8, 1, Successors(end));
    run_kind(report, "successor", list, &numbers)
}

// Runs the series over elements far apart.
fn run_elements(report: &Report, n: usize) -> io::Result<()> {
    let parameters = format!(in report.alloc(); "members n={n}")?;
    let elements = elements_uniform(report.alloc(), n)?;
    if !is_ascending(elements.as_slice()) {
        return Ok(());
    }
    let end = elements.last().copied().unwrap_or(0).wrapping_add(1);
    let made = EliasFanoVec::from_slice(report.alloc(), elements.as_slice());
    asked(&report.over(parameters.as_str()), end, made, run_list)
}

/// Runs all series: over symbols, bits, and elements of an ascending list.
pub fn run(report: &Report) -> io::Result<()> {
    let settings = report.settings;
    run_symbols(report, settings.scaled(10_000_000))?;
    run_limbs(report, settings.scaled(1_048_576))?;
    run_elements(report, settings.scaled(10_000_000))
}
