//! The series of saved forms: making a list of plain input, saving it, a copy of the bytes, and loading it.
//!
//! The checksum of each but the first is the sum in a form: in the one that was saved, in its copy, and in that of
//! the list that was loaded, which is saved again once the time is taken.
use crate::bits::indexed;
use crate::lists::bits_of;
use crate::report::{Report, Timed, asked, or_refused, timed_since};
use crate::symbols::{Symbols, sorted_build};
use crate::trees::{Tree, copied, random_bits, tree_of};
use crate::workload::{NONE, elements_uniform, symbols};
use std::alloc::{AllocError, Global};
use std::io;
use std::time::CpuClock;
use vers_bits::bit_vec::BitVec;
use vers_rank::fast_rs_vec::RsVec;
use vers_saved::fault::LoadError;
use vers_saved::saved::{Saved, load_from_slice, save_to_vec};
use vers_saved::trees::load_parentheses_from_slice;
use vers_sorted::elias_fano::EliasFanoVec;
use vers_sorted::order::is_ascending;
use vers_wavelet::wavelet::WaveletMatrix;

// Returns the error of a list that could not be saved or loaded.
fn no_form() -> io::Error {
    io::Error::from(io::ErrorKind::InvalidInput)
}

// Returns the saved form of a list.
fn form_of<S: Saved>(alloc: Global, list: &S) -> io::Result<Vec<u8>> {
    let mut bytes = Vec::new(alloc);
    match save_to_vec(list, &mut bytes) {
        Ok(()) => Ok(bytes),
        Err(_) => Err(no_form()),
    }
}

// Returns the sum in a form, which is its last word.
fn sum_in(bytes: &[u8]) -> u64 {
    match bytes.last_chunk::<8>() {
        Some(word) => u64::from_le_bytes(*word),
        None => NONE,
    }
}

// Returns the time of a save.
fn saved<S: Saved>(report: &Report, list: &S) -> io::Result<Timed> {
    let start = report.rt.thread_cpu_time()?;
    let bytes = form_of(report.alloc(), list)?;
    timed_since(report.rt, start, sum_in(bytes.as_slice()))
}

// Returns the time of a copy of the bytes.
fn copied_bytes(report: &Report, bytes: &[u8]) -> io::Result<Timed> {
    let start = report.rt.thread_cpu_time()?;
    let copy = Vec::from_slice(report.alloc(), bytes)?;
    timed_since(report.rt, start, sum_in(copy.as_slice()))
}

// Returns the time of a load. Another was dropped before, so that its memory is known to the allocator, as that
// of a list that is made again and again.
fn loaded<S: Saved + Drop, L: FnOnce(Global, &[u8]) -> Result<S, LoadError> + Copy>(
    report: &Report,
    bytes: &[u8],
    load: L,
) -> io::Result<Timed>
    requires { L.IsAlwaysCallable load }
{
    if load(report.alloc(), bytes).is_err() {
        return Err(no_form());
    }
    let start = report.rt.thread_cpu_time()?;
    let Ok(list) = load(report.alloc(), bytes) else {
        return Err(no_form());
    };
    let timed = timed_since(report.rt, start, 0)?;
    let form = form_of(report.alloc(), &list)?;
    Ok(timed.with_checksum(sum_in(form.as_slice())))
}

// Runs the series over a list of `count` items.
fn run_made<S: Saved + Drop, L: FnOnce(Global, &[u8]) -> Result<S, LoadError> + Copy>(
    report: &Report,
    count: u64,
    list: &S,
    load: L,
) -> io::Result<()>
    requires { L.IsAlwaysCallable load }
{
    report.repeated("save", count, || saved(report, list))?;
    let form = form_of(report.alloc(), list)?;
    let bytes = form.as_slice();
    report.repeated("copy", count, || copied_bytes(report, bytes))?;
    report.repeated("load", count, || loaded(report, bytes, load))
}

// Runs the series over a list of `count` items that `make` makes of a source.
fn run_list<
    S: Saved + Drop,
    I: Copy + Drop,
    M: FnOnce(Global, I) -> Result<S, AllocError> + Copy,
    L: FnOnce(Global, &[u8]) -> Result<S, LoadError> + Copy,
>(report: &Report, kind: &str, count: usize, source: I, make: M, load: L) -> io::Result<()>
    requires make { M.IsAlwaysCallable make }
    requires load { L.IsAlwaysCallable load }
{
    let parameters = format!(in report.alloc(); "{kind} n={count}")?;
    let report = report.over(parameters.as_str());
    let count = count as u64;
    report.builds("build", count, count, source, make)?;
    let made = make(report.alloc(), source);
    asked(
        &report,
        (),
        made,
        |report, _, list| run_made(report, count, list, load),
    )
}

/// Runs the series over lists of bits.
pub fn run_limbs(report: &Report, limbs: &[u64]) -> io::Result<()> {
    let count = limbs.len().saturating_mul(64);
    run_list(
        report,
        "BitVec",
        count,
        limbs,
        bits_of,
        load_from_slice::<BitVec<Global>, Global>,
    )?;
    run_list(
        report,
        "RsVec",
        count,
        limbs,
        indexed,
        load_from_slice::<RsVec<Global>, Global>,
    )
}

// Returns the ascending list of elements. None of the lists that are measured descends.
fn sorted_of(alloc: Global, elements: &[u64]) -> Result<EliasFanoVec<Global>, AllocError> {
    if is_ascending(elements) {
        EliasFanoVec::from_slice(alloc, elements)
    } else {
        Err(AllocError)
    }
}

fn run_elements(report: &Report, count: usize) -> io::Result<()> {
    let elements = elements_uniform(report.alloc(), count)?;
    run_list(
        report,
        "EliasFanoVec",
        count,
        elements.as_slice(),
        sorted_of,
        load_from_slice::<EliasFanoVec<Global>, Global>,
    )
}

fn run_symbols(report: &Report, count: usize, width: u16) -> io::Result<()> {
    let kind = format!(in report.alloc(); "WaveletMatrix width={width}")?;
    let list = symbols(report.alloc(), count, width)?;
    let source = Symbols {
        list: list.as_slice(),
        width,
    };
    run_list(
        report,
        kind.as_str(),
        count,
        source,
        sorted_build,
        load_from_slice::<WaveletMatrix<Global>, Global>,
    )
}

// Returns the tree of parentheses, which are copied.
fn tree_of_copy(alloc: Global, bits: &BitVec<Global>) -> Result<Tree, AllocError> {
    tree_of(copied(alloc, bits)?)
}

// Returns a tree from the parentheses of its form, as `load_tree_from_slice` loads one in memory of a reference.
fn load_tree(alloc: Global, bytes: &[u8]) -> Result<Tree, LoadError> {
    let bits = load_parentheses_from_slice(alloc, 512, bytes)?;
    Ok(tree_of(bits)?)
}

fn run_parentheses(report: &Report, _source: (), bits: &BitVec<Global>) -> io::Result<()> {
    run_list(report, "BpTree", bits.len(), bits, tree_of_copy, load_tree)
}

fn run_tree(report: &Report, node_count: usize) -> io::Result<()> {
    let bits = or_refused(random_bits(report.alloc(), node_count.saturating_mul(2)));
    asked(report, (), bits, run_parentheses)
}

/// Runs the series over elements, symbols and nodes.
pub fn run(report: &Report) -> io::Result<()> {
    let count = report.settings.size_or(1_000_000);
    run_elements(report, count)?;
    run_symbols(report, count, 8)?;
    run_symbols(report, count, 32)?;
    run_tree(report, count)
}
