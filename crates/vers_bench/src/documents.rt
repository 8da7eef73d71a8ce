//! The series of documents with costs, and the same over a sorted vector.
//!
//! Each pass is a function of its own in the machine code, so that a profiler counts its instructions.
use crate::report::{Report, asked, many, or_refused};
use crate::workload::{Below, Between, Ends, NONE, documents, drawn, fold, values};
use postings::Postings;
use std::alloc::{AllocError, Global};
use std::io;

type List = Postings<Global>;

type Plain = Vec<u64>;

fn contains(list: &List, number: &u64) -> u64 {
    u64::from(list.contains(*number))
}

fn next(list: &List, number: &u64) -> u64 {
    list.next_at_least(*number).unwrap_or(NONE)
}

fn cheapest(list: &List, range: &Ends) -> u64 {
    list.cheapest(range.first, range.last).unwrap_or(NONE)
}

// Folds the documents found into a checksum, or the value for none if memory was refused.
fn folded(mut sum: u64, found: Result<Vec<u64>, AllocError>) -> u64 {
    let Ok(found) = found else {
        return fold(sum, NONE);
    };
    for document in &found {
        sum = fold(sum, *document);
    }
    sum
}

#[inline(never)]
fn intersect_pass(list: &List, others: &[List]) -> u64 {
    let mut sum = 0;
    for other in others {
        sum = folded(sum, list.intersect(other));
    }
    sum
}

fn contains_halving(all: &Plain, number: &u64) -> u64 {
    u64::from(all.binary_search(number).is_ok())
}

fn next_halving(all: &Plain, number: &u64) -> u64 {
    let (Ok(position) | Err(position)) = all.binary_search(number);
    all.get(position).copied().unwrap_or(NONE)
}

// Returns the documents of the shorter list that are in the longer one too, by bisection.
fn common_by_halving(shorter: &[u64], longer: &Plain) -> Result<Vec<u64>, AllocError> {
    let mut found = Vec::new(*longer.allocator());
    for document in shorter {
        if longer.binary_search(document).is_ok() {
            found.push(*document)?;
        }
    }
    Ok(found)
}

#[inline(never)]
fn halving_intersect_pass(all: &Plain, others: &[Vec<u64>]) -> u64 {
    let mut sum = 0;
    for other in others {
        sum = folded(sum, common_by_halving(other.as_slice(), all));
    }
    sum
}

// Returns the first position from `from` on whose document is at least a number: by steps that double, and
// bisection of the last step.
#[inline]
fn galloped(list: &[u64], from: usize, document: u64) -> usize {
    let mut start = from;
    let mut end = from;
    let mut step = 1usize;
    for _ in 0..64 {
        if list.get(end).copied().unwrap_or(NONE) >= document {
            break;
        }
        start = end.saturating_add(1);
        end = end.saturating_add(step);
        step = step.wrapping_mul(2);
    }
    start.saturating_add(position_between(list, start, end, document))
}

// Returns the position of a document in a part of the list, by bisection.
#[inline]
fn position_between(list: &[u64], start: usize, end: usize, document: u64) -> usize {
    let Some(part) = list.get(start..end.min(list.len())) else {
        return 0;
    };
    let (Ok(position) | Err(position)) = part.binary_search(&document);
    position
}

// Returns the documents of the shorter list that are in the longer one too, each searched from the last
// position on.
fn common_by_galloping(shorter: &[u64], longer: &Plain) -> Result<Vec<u64>, AllocError> {
    let mut found = Vec::new(*longer.allocator());
    let mut position = 0;
    for document in shorter {
        position = galloped(longer.as_slice(), position, *document);
        if longer.get(position) == Some(document) {
            found.push(*document)?;
        }
    }
    Ok(found)
}

#[inline(never)]
fn galloping_intersect_pass(all: &Plain, others: &[Vec<u64>]) -> u64 {
    let mut sum = 0;
    for other in others {
        sum = folded(sum, common_by_galloping(other.as_slice(), all));
    }
    sum
}

/// Documents, and the cost of each.
#[derive(Drop)]
struct Costed<'a> {
    documents: &'a [u64],
    costs: Vec<u64>,
}

fn with_costs(alloc: Global, documents: &[u64]) -> Result<Costed<'_>, AllocError> {
    let costs = values(alloc, documents.len())?;
    Ok(Costed { documents, costs })
}

#[inline(never)]
fn made_of(source: Costed) -> Result<List, AllocError> {
    or_refused(Postings::from_sorted(source.documents, source.costs))
}

fn made(alloc: Global, documents: &[u64]) -> Result<List, AllocError> {
    made_of(with_costs(alloc, documents)?)
}

fn made_at(alloc: Global, lists: &[Vec<u64>], position: usize) -> Result<List, AllocError> {
    let documents: &[u64] = match lists.get(position) {
        Some(list) => list.as_slice(),
        None => &[],
    };
    made(alloc, documents)
}

/// Runs all series over documents, and intersects them with lists of a thousandth as many.
pub fn run(report: &Report) -> io::Result<()> {
    let n = report.query_count();
    let all = documents(report.alloc(), n)?;
    let parameters = format!(in report.alloc(); "n={n}")?;
    run_documents(&report.over(parameters.as_str()), &all)
}

fn run_documents(report: &Report, all: &Plain) -> io::Result<()> {
    let documents = all.as_slice();
    let count = documents.len() as u64;
    report.builds_of_copies(count, count, documents, with_costs, made_of)?;
    let alloc = report.alloc();
    asked(report, all, made(alloc, documents), run_queries)?;
    let few = many(alloc, report.settings.scaled(64), documents, drawn)?;
    run_intersections(report, all, few.as_slice())
}

fn run_queries(report: &Report, all: &Plain, list: &List) -> io::Result<()> {
    let end = all.last().copied().unwrap_or(0).wrapping_add(2);
    let numbers = report.questions(13, 0, Below(end));
    report.queries("contains", list, &numbers, contains)?;
    report.queries("contains_halving", all, &numbers, contains_halving)?;
    report.queries("next_at_least", list, &numbers, next)?;
    report.queries("next_at_least_halving", all, &numbers, next_halving)?;
    report.queries(
        "cheapest",
        list,
        &report.questions(13, 1, Between(end)),
        cheapest,
    )
}

// Returns the number of documents of all lists.
fn len_of_all(lists: &[Vec<u64>]) -> u64 {
    let mut sum = 0u64;
    for list in lists {
        sum = sum.wrapping_add(list.len() as u64);
    }
    sum
}

fn run_intersections(report: &Report, all: &Plain, few: &[Vec<u64>]) -> io::Result<()> {
    let list = made(report.alloc(), all.as_slice());
    asked(report, few, list, run_intersect)?;
    let count = len_of_all(few);
    let halving = "intersect_halving";
    report.passes(halving, count, all, few, halving_intersect_pass)?;
    let galloping = "intersect_galloping";
    report.passes(galloping, count, all, few, galloping_intersect_pass)
}

fn run_intersect(report: &Report, few: &[Vec<u64>], list: &List) -> io::Result<()> {
    let count = len_of_all(few);
    let others = many(report.alloc(), few.len(), few, made_at)?;
    report.passes("intersect", count, list, others.as_slice(), intersect_pass)
}
