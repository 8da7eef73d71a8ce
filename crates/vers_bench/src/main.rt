//! Measures the structures of the library.
//!
//! Without arguments it prints the checksums of a small workload. With arguments it prints times: the name of
//! the driver in the lines, then the structures to run (none: all), and the options `--small` (a sixteenth of
//! the sizes), `--reps N` (how often each series is run, 5 by default) and `--size N` (one size of structures
//! instead of the usual ones, as bits, elements, symbols, items or nodes).
#![tactic(auto)]

mod batches;
mod bits;
mod documents;
mod lists;
mod minima;
mod report;
mod saved;
mod sorted;
mod sparse;
mod symbols;
mod texts;
mod trees;
mod walks;
mod workload;

use report::{Report, Settings};
use std::io;
use workload::RandomBits;

/// The meaning of an argument, by the argument before it.
#[derive(Clone, Copy)]
enum Meaning {
    /// An option, or a name.
    Option,
    /// How often each series is run.
    Repetitions,
    /// The one size of structures.
    Size,
}

// Takes an argument, and returns the meaning of the next one.
fn take(settings: &mut Settings, word: String, meaning: Meaning) -> io::Result<Meaning> {
    let number = word.as_str().parse::<usize>().ok();
    match meaning {
        Meaning::Option => return take_option(settings, word),
        Meaning::Repetitions => settings.repetitions = number.unwrap_or(5),
        Meaning::Size => settings.size = number,
    }
    Ok(Meaning::Option)
}

fn take_option(settings: &mut Settings, word: String) -> io::Result<Meaning> {
    if word.as_str() == "--reps" {
        return Ok(Meaning::Repetitions);
    }
    if word.as_str() == "--size" {
        return Ok(Meaning::Size);
    }
    if word.as_str() == "--small" {
        settings.divisor = 16;
    } else if settings.name.is_empty() {
        settings.name = word;
    } else {
        settings.structures.push(word)?;
    }
    Ok(Meaning::Option)
}

fn take_words(rt: &HostRuntime, settings: &mut Settings) -> io::Result<()> {
    let mut meaning = Meaning::Option;
    for word in std::env::args(rt)?.into_iter().skip(1) {
        meaning = take(settings, word, meaning)?;
    }
    Ok(())
}

// Runs the series of a structure that is made of a list of bits.
fn run_limbs(report: &Report, limbs: &[u64]) -> io::Result<()> {
    match report.structure {
        "bits" => bits::run(report, limbs),
        "walks" => walks::run(report, limbs),
        "list" => lists::run(report, limbs),
        "saved" => saved::run_limbs(report, limbs),
        _ => sparse::run(report, limbs),
    }
}

// Does the same over a list of random bits.
fn run_list(report: &Report, data: RandomBits) -> io::Result<()> {
    let parameters = data.parameters(report.alloc())?;
    let limbs = data.limbs(report.alloc())?;
    run_limbs(&report.over(parameters.as_str()), limbs.as_slice())
}

// Does the same over lists of each share of ones, or of only the first if one size is requested.
fn run_shares(report: &Report, len: usize, percents: &[u64]) -> io::Result<()> {
    for percent in percents {
        let data = RandomBits {
            limb_count: len / 64,
            percent: *percent,
        };
        run_list(report, data)?;
        if report.settings.size.is_some() {
            break;
        }
    }
    Ok(())
}

// Does the same over a list of 2^20 bits, and if times are requested over one of 2^26 too.
fn run_lengths(report: &Report, percents: &[u64]) -> io::Result<()> {
    let settings = report.settings;
    run_shares(report, settings.size_or(1 << 20), percents)?;
    if settings.has_large() {
        run_shares(report, settings.scaled(1 << 26), percents)
    } else {
        Ok(())
    }
}

// All structures.
const STRUCTURES: [&str; 12] = [
    "bits", "walks", "list", "sorted", "sparse", "wavelet", "rmq", "tree", "postings", "batches",
    "saved", "texts",
];

// Runs the series of a structure.
fn run_structure(report: &Report) -> io::Result<()> {
    match report.structure {
        "bits" | "walks" => run_lengths(report, &[50, 5]),
        "list" => run_lengths(report, &[50]),
        "sorted" => sorted::run(report),
        "sparse" => run_shares(report, report.settings.size_or(1 << 20), &[5, 1]),
        "wavelet" => symbols::run(report),
        "rmq" => minima::run(report),
        "tree" => trees::run(report),
        "postings" => documents::run(report),
        "batches" => batches::run(report),
        "saved" => {
            run_lengths(report, &[50])?;
            saved::run(report)
        }
        "texts" => texts::run(report),
        _ => Ok(()),
    }
}

// Runs the series of each structure that is requested.
fn run(report: &Report) -> io::Result<()> {
    for structure in STRUCTURES {
        if report.settings.wants(structure) {
            run_structure(&report.of(structure))?;
        }
    }
    Ok(())
}

fn main(rt: HostRuntime) -> io::Result<()> {
    let mut settings = Settings {
        name: String::new(rt.alloc()),
        structures: Vec::new(rt.alloc()),
        repetitions: 5,
        divisor: 1,
        size: None,
    };
    take_words(&rt, &mut settings)?;
    let report = Report {
        rt: &rt,
        settings: &settings,
        structure: "",
        parameters: "",
    };
    run(&report)
}
