//! A list of numbers with range minima, of one block.
use crate::asked;
use std::alloc::{AllocError, Global};
use std::io;
use vers_vecs::FastRmq;

const ITEMS: [u64; 24] = [
    52, 31, 47, 31, 60, 25, 38, 90, 44, 71, 25, 83, 29, 95, 66, 57, 40, 12, 78, 33, 18, 61, 18, 50,
];

fn made(alloc: Global) -> Result<FastRmq<Global>, AllocError> {
    FastRmq::from_vec(Vec::from_slice(alloc, &ITEMS)?)
}

// Prints the first position of a least item, or nothing if there is no such range.
fn print_least(
    rt: &HostRuntime,
    minima: &FastRmq<Global>,
    first: usize,
    last: usize,
) -> io::Result<()> {
    if first <= last && last < minima.len() {
        print!(rt; " {}", minima.range_min(first, last))?;
    }
    Ok(())
}

// Prints for each position the least item from the start of a part of `size` positions up to it.
fn print_from_starts(rt: &HostRuntime, minima: &FastRmq<Global>, size: usize) -> io::Result<()> {
    print!(rt; "minima from_start_of_{size}")?;
    for position in 0..minima.len() {
        let within = position.checked_rem(size).unwrap_or(0);
        print_least(rt, minima, position.saturating_sub(within), position)?;
    }
    println!(rt; "")
}

// Prints for each position the least item from it up to the end of a part of `size` positions.
fn print_to_ends(rt: &HostRuntime, minima: &FastRmq<Global>, size: usize) -> io::Result<()> {
    let final_position = minima.len().saturating_sub(1);
    print!(rt; "minima to_end_of_{size}")?;
    for position in 0..minima.len() {
        let within = position.checked_rem(size).unwrap_or(0);
        let end = position
            .saturating_sub(within)
            .saturating_add(size)
            .saturating_sub(1);
        print_least(rt, minima, position, end.min(final_position))?;
    }
    println!(rt; "")
}

fn print_minima(rt: &HostRuntime, minima: &FastRmq<Global>) -> io::Result<()> {
    print!(rt; "minima as_slice")?;
    for item in minima.as_slice() {
        print!(rt; " {item}")?;
    }
    println!(rt; "")?;
    print_from_starts(rt, minima, 128)?;
    print_to_ends(rt, minima, 128)?;
    print_from_starts(rt, minima, 16)?;
    print_to_ends(rt, minima, 16)?;
    println!(rt; "minima heap_size {}", minima.heap_size())
}

/// Prints the items, the ranges that the masks of a block answer, and the size.
pub fn print(rt: &HostRuntime) -> io::Result<()> {
    asked(made(rt.alloc()), |minima| print_minima(rt, minima))
}
