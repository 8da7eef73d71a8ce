//! The series of range minima.
use crate::report::{Report, asked, bits_per_item};
use crate::workload::{Between, Draw, Ends, Random, values};
use std::alloc::{AllocError, Global};
use std::io;
use vers_rmq::rmq::binary_rmq::BinaryRmq;
use vers_rmq::rmq::fast_rmq::FastRmq;

// The greatest number of items of both types; more are refused.
const MOST: usize = 4_294_967_295;

/// The interface that is measured of both types.
trait RangeMinima: Drop {
    /// Returns the first position of a least item of a range, or the greatest number if there is no such range.
    fn first_least(&self, first: usize, last: usize) -> usize;

    /// Returns the number of bytes of the structure.
    fn bytes(&self) -> usize;
}

impl RangeMinima for FastRmq<Global> {
    #[inline]
    fn first_least(&self, first: usize, last: usize) -> usize {
        if first <= last && last < self.len() {
            self.range_min(first, last)
        } else {
            usize::MAX
        }
    }

    fn bytes(&self) -> usize {
        self.heap_size()
    }
}

impl RangeMinima for BinaryRmq<Global> {
    #[inline]
    fn first_least(&self, first: usize, last: usize) -> usize {
        if first <= last && last < self.len() {
            self.range_min(first, last)
        } else {
            usize::MAX
        }
    }

    fn bytes(&self) -> usize {
        self.heap_size()
    }
}

// The ranges of at most 64 of that many items.
#[derive(Clone, Copy)]
struct Short(u64);

impl Draw for Short {
    type Item = Ends;

    fn draw(&self, random: &mut Random) -> Ends {
        let first = random.below(self.0);
        let last = first.saturating_add(random.below(64));
        Ends {
            first,
            last: last.min(self.0.saturating_sub(1)),
        }
    }
}

fn first_least<M: RangeMinima>(minima: &M, range: &Ends) -> u64 {
    minima.first_least(range.first as usize, range.last as usize) as u64
}

fn run_built<M: RangeMinima>(report: &Report, n: u64, minima: &M) -> io::Result<()> {
    report.size("heap_bits_per_item", bits_per_item(minima.bytes(), n))?;
    report.queries(
        "range_min",
        minima,
        &report.questions(10, 0, Between(n)),
        first_least,
    )?;
    report.queries(
        "range_min_short",
        minima,
        &report.questions(10, 2, Short(n)),
        first_least,
    )
}

fn fast(items: Vec<u64>) -> Result<FastRmq<Global>, AllocError> {
    if items.len() > MOST {
        return Err(AllocError);
    }
    FastRmq::from_vec(items)
}

fn binary(items: Vec<u64>) -> Result<BinaryRmq<Global>, AllocError> {
    if items.len() > MOST {
        return Err(AllocError);
    }
    BinaryRmq::from_vec(items)
}

// Runs all series over a type of range minima, which `make` makes.
fn run_type<M: RangeMinima, F: FnOnce(Vec<u64>) -> Result<M, AllocError> + Copy>(
    report: &Report,
    items: &[u64],
    make: F,
) -> io::Result<()>
    requires { F.IsAlwaysCallable make }
{
    let n = items.len() as u64;
    report.builds_of_copies(n, n, items, Vec::from_slice, make)?;
    let made = make(Vec::from_slice(report.alloc(), items)?);
    asked(report, n, made, run_built)
}

fn run_items(report: &Report, items: &[u64]) -> io::Result<()> {
    run_type(&report.of("rmq_fast"), items, fast)?;
    run_type(&report.of("rmq_binary"), items, binary)
}

fn run_count(report: &Report, n: usize) -> io::Result<()> {
    let parameters = format!(in report.alloc(); "n={n}")?;
    let items = values(report.alloc(), n)?;
    run_items(&report.over(parameters.as_str()), items.as_slice())
}

/// Runs all series over a million items, and if times are requested over ten million too.
pub fn run(report: &Report) -> io::Result<()> {
    let settings = report.settings;
    run_count(report, settings.size_or(1_000_000))?;
    if settings.has_large() {
        run_count(report, settings.scaled(10_000_000))
    } else {
        Ok(())
    }
}
