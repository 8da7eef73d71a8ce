//! The series of ascending lists.
ghost use Rattle.std.specs.List.Sorted.{IsNonDecreasing};

use crate::report::{Report, asked, bits_per_item};
use crate::walks::sum_of;
use crate::workload::{
    Below, Clustered, Draw, NONE, Questions, Random, elements_clustered, elements_uniform,
};
use std::alloc::Global;
use std::io;
use vers_sorted::elias_fano::EliasFanoVec;
use vers_sorted::order::is_ascending;

type Elements = EliasFanoVec<Global>;

fn get(list: &Elements, position: &u64) -> u64 {
    list.get(*position as usize).unwrap_or(NONE)
}

fn delta(list: &Elements, position: &u64) -> u64 {
    list.delta(*position as usize).unwrap_or(NONE)
}

fn rank(list: &Elements, value: &u64) -> u64 {
    list.rank(*value)
}

fn predecessor(list: &Elements, value: &u64) -> u64 {
    list.predecessor(*value).unwrap_or(NONE)
}

fn successor(list: &Elements, value: &u64) -> u64 {
    list.successor(*value).unwrap_or(NONE)
}

#[inline(never)]
fn iter_pass(list: &Elements) -> u64 {
    sum_of(list.iter())
}

#[inline(never)]
fn back_pass(list: &Elements) -> u64 {
    sum_of(list.iter().rev())
}

/// The values that are queried: `span` values from `first` on, by `count` queries.
#[derive(Clone, Copy)]
struct Asked {
    first: u64,
    span: u64,
    count: usize,
}

impl Draw for Asked {
    type Item = u64;

    fn draw(&self, random: &mut Random) -> u64 {
        self.first.wrapping_add(random.below(self.span))
    }
}

fn run_built(report: &Report, values: Asked, list: &Elements) -> io::Result<()> {
    let len = list.len() as u64;
    report.size("heap_bits_per_item", bits_per_item(list.heap_size(), len))?;
    let positions = Questions::new(values.count, 8, 0, Below(len));
    report.queries("get", list, &positions, get)?;
    report.queries("delta", list, &positions, delta)?;
    let values = Questions::new(values.count, 8, 1, values);
    report.queries("rank", list, &values, rank)?;
    report.queries("predecessor", list, &values, predecessor)?;
    report.queries("successor", list, &values, successor)?;
    report.walk("iter", len, list, iter_pass)?;
    report.walk("iter_back", len, list, back_pass)
}

// Runs all series over a list of numbers. Numbers that don't ascend are skipped.
fn run_list(report: &Report, numbers: &[u64], values: Asked) -> io::Result<()> {
    if !is_ascending(numbers) {
        return Ok(());
    }
    let len = numbers.len() as u64;
    report.builds("build", len, len, numbers, EliasFanoVec::from_slice)?;
    let made = EliasFanoVec::from_slice(report.alloc(), numbers);
    asked(report, values, made, run_built)
}

// Does the same under the name of a kind of numbers.
fn run_kind(report: &Report, kind: &str, numbers: &[u64], values: Asked) -> io::Result<()> {
    let len = numbers.len();
    let parameters = format!(in report.alloc(); "{kind} n={len}")?;
    run_list(&report.over(parameters.as_str()), numbers, values)
}

fn run_uniform(report: &Report, len: usize) -> io::Result<()> {
    let elements = elements_uniform(report.alloc(), len)?;
    let values = Asked {
        first: 0,
        span: elements.last().copied().unwrap_or(0).wrapping_add(1),
        count: report.query_count(),
    };
    run_kind(report, "uniform", elements.as_slice(), values)
}

// Runs the series over lists with a dense cluster, or with many equal elements. They have few queries.
fn run_clustered(report: &Report, len: usize, are_equal: bool) -> io::Result<()> {
    let Clustered { elements, first } = elements_clustered(report.alloc(), len, are_equal)?;
    let count = report.settings.scaled(2_000);
    let elements = elements.as_slice();
    if are_equal {
        let first = first.wrapping_sub(1);
        let span = 3;
        run_kind(report, "equal", elements, Asked { first, span, count })
    } else {
        let span = (len as u64).saturating_mul(2) / 10;
        run_kind(report, "cluster", elements, Asked { first, span, count })
    }
}

/// Runs all series over lists of elements: far apart, with many equal ones, and with a dense cluster.
pub fn run(report: &Report) -> io::Result<()> {
    let settings = report.settings;
    let len = settings.size_or(1_000_000);
    run_uniform(report, len)?;
    if settings.size.is_some() {
        return Ok(());
    }
    run_clustered(report, len, true)?;
    run_clustered(report, len, false)
}
