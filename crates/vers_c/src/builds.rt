//! Exports that build a structure into an empty handle. Each returns a status.
ghost use Rattle.std.specs.Prelude.{◌≡◌, map, Some, take};
ghost use Rattle.vers_bits.specs.Bits.{pack};
ghost use Rattle.vers_c.specs.Makes.{IsMade, posted_made, sorted_made, sparse_made, symbols_made};
ghost use Rattle.catalogue.specs.Structures.{BlockValues, GrowingBits, IndexedBits, Parentheses, TableValues};
ghost use Rattle.vers_c.specs.Structures.{contents};

use crate::handle::VersHandle;
use crate::kept::Kept;
use crate::makes::{binary, bits, fast, growing, posted, sparse, tree};
use crate::owners::{fill, fill_made};
use crate::status::{NO_MEMORY, OCCUPIED, REFUSED};
use catalogue::structure::Structure;
use std::alloc::Global;
use vers_sorted::elias_fano::EliasFanoVec;
use vers_sorted::order::{are_below, is_ascending, is_strictly_ascending};
use vers_wavelet::wavelet::{Integer, WaveletMatrix};

/// Builds a list of bits that can change: the first `len` bits of words.
#[unsafe(no_mangle)]
pub extern "C" fn vers_growing_build(
    alloc: Global,
    words: &[u64],
    len: usize,
    handle: &mut VersHandle,
) -> u32
    ensures { IsMade (Some (GrowingBits (take len (pack words.now 64)))) (contents handle.old)
        (contents handle.new) result }
{
    if handle.is_built {
        return OCCUPIED;
    }
    match growing(alloc, words, len) {
        Ok(bits) => fill(alloc, handle, Kept::Other(Structure::Growing(bits))),
        Err(_) => NO_MEMORY,
    }
}

/// Builds a list of bits with rank and select: the first `len` bits of words.
#[unsafe(no_mangle)]
pub extern "C" fn vers_bits_build(
    alloc: Global,
    words: &[u64],
    len: usize,
    handle: &mut VersHandle,
) -> u32
    ensures { IsMade (Some (IndexedBits (take len (pack words.now 64)))) (contents handle.old)
        (contents handle.new) result }
{
    if handle.is_built {
        return OCCUPIED;
    }
    match bits(alloc, words, len) {
        Ok(bits) => fill(alloc, handle, Kept::Other(Structure::Bits(bits))),
        Err(_) => NO_MEMORY,
    }
}

/// Builds a list of `len` bits from the positions of its ones. Refuses positions that don't ascend strictly, or
/// are past the length.
#[unsafe(no_mangle)]
pub extern "C" fn vers_sparse_build(
    alloc: Global,
    ones: &[u64],
    len: u64,
    handle: &mut VersHandle,
) -> u32
    ensures { IsMade (sparse_made ones.now len) (contents handle.old) (contents handle.new) result }
{
    if handle.is_built {
        return OCCUPIED;
    }
    if !is_strictly_ascending(ones) || !are_below(ones, len) {
        return REFUSED;
    }
    match sparse(alloc, ones, len) {
        Ok(bits) => fill(alloc, handle, Kept::Other(Structure::Sparse(bits))),
        Err(_) => NO_MEMORY,
    }
}

/// Builds an ascending list. Refuses numbers that don't ascend.
#[unsafe(no_mangle)]
pub extern "C" fn vers_sorted_build(alloc: Global, numbers: &[u64], handle: &mut VersHandle) -> u32
    ensures { IsMade (sorted_made numbers.now) (contents handle.old) (contents handle.new) result }
{
    if handle.is_built {
        return OCCUPIED;
    }
    if !is_ascending(numbers) {
        return REFUSED;
    }
    match EliasFanoVec::from_slice(alloc, numbers) {
        Ok(elements) => fill(alloc, handle, Kept::Other(Structure::Sorted(elements))),
        Err(_) => NO_MEMORY,
    }
}

// Builds the list of symbols of integers of any type.
fn build_symbols<N: Integer>(
    alloc: Global,
    numbers: &[N],
    width: u32,
    handle: &mut VersHandle,
) -> u32
    ensures { IsMade (symbols_made (map N.value numbers.now) width) (contents handle.old) (contents handle.new)
        result }
{
    if handle.is_built {
        return OCCUPIED;
    }
    if width > 64 {
        return REFUSED;
    }
    match WaveletMatrix::from_integers(alloc, numbers, width as u16) {
        Ok(symbols) => fill(alloc, handle, Kept::Other(Structure::Symbols(symbols))),
        Err(_) => NO_MEMORY,
    }
}

/// Builds a list of symbols: the `width` low bits of numbers. Refuses a width above 64.
#[unsafe(no_mangle)]
pub extern "C" fn vers_symbols_build(
    alloc: Global,
    numbers: &[u64],
    width: u32,
    handle: &mut VersHandle,
) -> u32
    ensures { IsMade (symbols_made numbers.now width) (contents handle.old) (contents handle.new) result }
{
    build_symbols(alloc, numbers, width, handle)
}

/// Builds the list of symbols that `vers_symbols_build` does, from bytes.
#[unsafe(no_mangle)]
pub extern "C" fn vers_symbols_build_bytes(
    alloc: Global,
    bytes: &[u8],
    width: u32,
    handle: &mut VersHandle,
) -> u32
    ensures { IsMade (symbols_made bytes.now width) (contents handle.old) (contents handle.new) result }
{
    build_symbols(alloc, bytes, width, handle)
}

/// Builds the list of symbols that `vers_symbols_build` does, from numbers in 16 bits each.
#[unsafe(no_mangle)]
pub extern "C" fn vers_symbols_build_u16s(
    alloc: Global,
    u16s: &[u16],
    width: u32,
    handle: &mut VersHandle,
) -> u32
    ensures { IsMade (symbols_made u16s.now width) (contents handle.old) (contents handle.new) result }
{
    build_symbols(alloc, u16s, width, handle)
}

/// Builds the list of symbols that `vers_symbols_build` does, from numbers in 32 bits each.
#[unsafe(no_mangle)]
pub extern "C" fn vers_symbols_build_u32s(
    alloc: Global,
    u32s: &[u32],
    width: u32,
    handle: &mut VersHandle,
) -> u32
    ensures { IsMade (symbols_made u32s.now width) (contents handle.old) (contents handle.new) result }
{
    build_symbols(alloc, u32s, width, handle)
}

/// Builds a list of parentheses from the first `len` bits of words: a one opens, and a zero closes.
#[unsafe(no_mangle)]
pub extern "C" fn vers_tree_build(
    alloc: Global,
    words: &[u64],
    len: usize,
    handle: &mut VersHandle,
) -> u32
    ensures { IsMade (Some (Parentheses (take len (pack words.now 64)))) (contents handle.old)
        (contents handle.new) result }
{
    if handle.is_built {
        return OCCUPIED;
    }
    match tree(alloc, words, len) {
        Ok(made) => fill(alloc, handle, Kept::Tree(made)),
        Err(_) => NO_MEMORY,
    }
}

/// Builds a list of values with range minima from blocks.
#[unsafe(no_mangle)]
pub extern "C" fn vers_fast_rmq_build(alloc: Global, values: &[u64], handle: &mut VersHandle) -> u32
    ensures { IsMade (Some (BlockValues values.now)) (contents handle.old) (contents handle.new) result }
{
    if handle.is_built {
        return OCCUPIED;
    }
    match fast(alloc, values) {
        Ok(made) => fill(alloc, handle, Kept::Other(Structure::Fast(made))),
        Err(_) => NO_MEMORY,
    }
}

/// Builds a list of values with range minima from a sparse table.
#[unsafe(no_mangle)]
pub extern "C" fn vers_binary_rmq_build(
    alloc: Global,
    values: &[u64],
    handle: &mut VersHandle,
) -> u32
    ensures { IsMade (Some (TableValues values.now)) (contents handle.old) (contents handle.new) result }
{
    if handle.is_built {
        return OCCUPIED;
    }
    match binary(alloc, values) {
        Ok(made) => fill(alloc, handle, Kept::Other(Structure::Binary(made))),
        Err(_) => NO_MEMORY,
    }
}

/// Builds documents with costs. Refuses documents that don't ascend strictly, or another number of costs.
#[unsafe(no_mangle)]
pub extern "C" fn vers_postings_build(
    alloc: Global,
    documents: &[u64],
    costs: &[u64],
    handle: &mut VersHandle,
) -> u32
    ensures { IsMade (posted_made documents.now costs.now) (contents handle.old) (contents handle.new) result }
{
    if handle.is_built {
        return OCCUPIED;
    }
    fill_made(alloc, handle, posted(alloc, documents, costs))
}
