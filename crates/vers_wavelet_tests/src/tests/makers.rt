//! Constructors of symbols: by stable sorting and by counting prefixes, of numbers and of lists of bits.
use std::alloc::{AllocError, Allocator, Global};
use test_alloc::asked;
use vers_bits::bit_vec::{BitVec, GrowError};
use vers_wavelet::wavelet::WaveletMatrix;

/// The method by which symbols are made.
#[derive(Clone, Copy, Drop)]
pub enum Method {
    Sorting,
    Counting,
}

/// Returns the symbols of numbers. Out of memory for a width that the constructor doesn't allow.
pub fn of_numbers<A: Allocator + Copy>(
    alloc: A,
    method: Method,
    numbers: &[u64],
    width: u16,
) -> Result<WaveletMatrix<A>, AllocError> {
    if width > 64 {
        return Err(AllocError);
    }
    match method {
        Method::Sorting => WaveletMatrix::from_slice(alloc, numbers, width),
        Method::Counting => {
            if width == 0 || width > 63 {
                return Err(AllocError);
            }
            WaveletMatrix::from_slice_pc(alloc, numbers, width)
        }
    }
}

/// Returns the symbols of a list of bits. Out of memory if the constructor doesn't allow them.
pub fn of_bits<A: Allocator + Copy>(
    method: Method,
    bits: &BitVec<A>,
    width: u16,
) -> Result<WaveletMatrix<A>, AllocError> {
    if width == 0 || bits.len() % width as usize != 0 {
        return Err(AllocError);
    }
    match method {
        Method::Sorting => WaveletMatrix::from_bit_vec(bits, width),
        Method::Counting => {
            if width > 63 {
                return Err(AllocError);
            }
            WaveletMatrix::from_bit_vec_pc(bits, width)
        }
    }
}

/// Returns true if a matrix has the numbers as its symbols.
pub fn has_numbers<A: Allocator + Copy>(
    symbols: &WaveletMatrix<A>,
    width: u16,
    numbers: &[u64],
) -> bool {
    for (position, number) in numbers.iter().enumerate() {
        if symbols.get_u64(position) != Some(*number) {
            return false;
        }
    }
    symbols.len() == numbers.len() && symbols.bit_len() == width
}

// Numbers, a width, and the symbols that their low bits are.
type Row<'a> = (&'a [u64], u16, &'a [u64]);

const HIGHEST: u64 = 1 << 63;

// Returns the number of the first row of which a constructor makes other symbols.
fn first_wrong_numbers(alloc: Global, method: Method, rows: &[Row]) -> Option<usize> {
    for (at, (numbers, width, symbols)) in rows.iter().enumerate() {
        let made = of_numbers(alloc, method, numbers, *width);
        let is_right = asked(made, |it| has_numbers(it, *width, symbols));
        if is_right != Ok(true) {
            return Some(at);
        }
    }
    None
}

// Numbers of which only the low bits count.
const LOW_BITS: [Row; 5] = [
    (&[9, 5, 3], 3, &[1, 5, 3]),
    (&[2, 3, 4, 5], 1, &[0, 1, 0, 1]),
    (&[7, 7, 6, 0, 7, 1], 3, &[7, 7, 6, 0, 7, 1]),
    (&[], 8, &[]),
    (&[u64::MAX, 0, 256], 8, &[255, 0, 0]),
];

#[test]
fn numbers_count_by_their_low_bits(rt: HostRuntime) {
    let wrong = first_wrong_numbers(rt.alloc(), Method::Sorting, &LOW_BITS);
    assert!(rt; wrong.is_none());
    let wrong = first_wrong_numbers(rt.alloc(), Method::Counting, &LOW_BITS);
    assert!(rt; wrong.is_none());
}

// Numbers of 0 bits, and of all 64.
const ENDS: [Row; 5] = [
    (&[7, 7], 0, &[]),
    (&[], 0, &[]),
    (&[], 64, &[]),
    (&[u64::MAX, 0, HIGHEST, 5], 64, &[u64::MAX, 0, HIGHEST, 5]),
    (&[HIGHEST, 5], 63, &[0, 5]),
];

#[test]
fn numbers_of_no_bits_and_of_64_bits(rt: HostRuntime) {
    let wrong = first_wrong_numbers(rt.alloc(), Method::Sorting, &ENDS);
    assert!(rt; wrong.is_none());
}

// Numbers of as many bits as integers have, and of one more.
const AROUND_INTEGERS: [Row; 6] = [
    (&[511, 256, 7], 8, &[255, 0, 7]),
    (&[511, 256, 1_023], 9, &[511, 256, 511]),
    (&[131_071, 65_536, 7], 16, &[65_535, 0, 7]),
    (&[131_071, 65_536, 262_143], 17, &[131_071, 65_536, 131_071]),
    (
        &[8_589_934_591, 4_294_967_296, 7],
        32,
        &[4_294_967_295, 0, 7],
    ),
    (
        &[8_589_934_591, 4_294_967_296, 7],
        33,
        &[8_589_934_591, 4_294_967_296, 7],
    ),
];

#[test]
fn numbers_of_widths_around_those_of_integers(rt: HostRuntime) {
    let wrong = first_wrong_numbers(rt.alloc(), Method::Sorting, &AROUND_INTEGERS);
    assert!(rt; wrong.is_none());
}

// Returns the number of symbols that a constructor makes of numbers.
fn len_of(alloc: Global, method: Method, numbers: &[u64], width: u16) -> Result<usize, AllocError> {
    asked(of_numbers(alloc, method, numbers, width), |it| it.len())
}

#[test]
fn no_table_is_given_from_60_bits_on(rt: HostRuntime) {
    for width in 60..64 {
        let len = len_of(rt.alloc(), Method::Counting, &[], width);
        assert!(rt; len.is_err());
    }
}

// Returns bit `i` of symbol `e`.
fn is_one(e: usize, i: usize) -> bool {
    e.wrapping_mul(e).wrapping_add(i.wrapping_mul(5)) % 7 < 3
}

/// Returns symbols of that many bits, one after another.
pub fn packed<A: Allocator + Copy>(
    alloc: A,
    count: usize,
    width: u16,
) -> Result<BitVec<A>, GrowError> {
    let mut bits = BitVec::new(alloc);
    for e in 0..count {
        for i in 0..width as usize {
            bits.append(is_one(e, i))?;
        }
    }
    Ok(bits)
}

// Returns true if a list has the bits of symbol `e`.
fn has_bits<A: Allocator + Copy>(symbol: &BitVec<A>, width: u16, e: usize) -> bool {
    for i in 0..width as usize {
        if symbol.is_bit_set(i) != Some(is_one(e, i)) {
            return false;
        }
    }
    symbol.len() == width as usize
}

// Compares a symbol that may not be there.
fn is_symbol<A: Allocator + Copy>(symbol: &Option<BitVec<A>>, width: u16, e: usize) -> bool {
    match symbol {
        Some(symbol) => has_bits(symbol, width, e),
        None => false,
    }
}

/// Returns true if a matrix has those symbols.
pub fn has_symbols<A: Allocator + Copy>(
    symbols: &WaveletMatrix<A>,
    count: usize,
    width: u16,
) -> bool {
    for e in 0..count {
        if asked(symbols.get_value(e), |it| is_symbol(it, width, e)) != Ok(true) {
            return false;
        }
    }
    symbols.len() == count && symbols.bit_len() == width
}

// Returns true if a constructor makes them.
fn makes_symbols(alloc: Global, method: Method, count: usize, width: u16) -> bool {
    let made = |bits: &BitVec<Global>| {
        asked(
            of_bits(method, bits, width),
            |it| has_symbols(it, count, width),
        )
    };
    matches!(asked(packed(alloc, count, width), made), Ok(Ok(true)))
}

// Numbers of symbols: none, and numbers around the ends of 16 lanes, of words, of blocks and of superblocks of
// a level.
const COUNTS: [usize; 17] = [
    0, 1, 2, 15, 16, 17, 63, 64, 65, 130, 511, 512, 513, 8191, 8192, 8193, 16385,
];

// Returns the first width at which a constructor does not make them, and their number.
fn first_wrong_symbols(alloc: Global, method: Method, widths: &[u16]) -> Option<(u16, usize)> {
    for width in widths {
        for count in COUNTS {
            if !makes_symbols(alloc, method, count, *width) {
                return Some((*width, count));
            }
        }
    }
    None
}

#[test]
fn symbols_are_parts_of_the_list(rt: HostRuntime) {
    let widths = [1, 2, 8, 9, 16, 17, 32, 33, 63, 64, 65, 127];
    let wrong = first_wrong_symbols(rt.alloc(), Method::Sorting, &widths);
    assert!(rt; wrong.is_none());
}

#[test]
fn counting_makes_the_same_symbols(rt: HostRuntime) {
    let wrong = first_wrong_symbols(rt.alloc(), Method::Counting, &[1, 2, 9, 16]);
    assert!(rt; wrong.is_none());
}

// Returns the number of symbol `e`, which has at most 64 bits.
fn number(e: usize, width: u16) -> u64 {
    let mut number: u64 = 0;
    for i in 0..u64::from(width.min(64)) {
        number |= u64::from(is_one(e, i as usize)) << i;
    }
    number
}

// Returns the numbers of that many symbols.
fn numbers(alloc: Global, count: usize, width: u16) -> Result<Vec<u64>, AllocError> {
    let mut numbers = Vec::new(alloc);
    for e in 0..count {
        numbers.push(number(e, width))?;
    }
    Ok(numbers)
}

// Returns true if a constructor makes the symbols of those numbers.
fn makes_numbers(alloc: Global, method: Method, count: usize, width: u16) -> bool {
    let Ok(numbers) = numbers(alloc, count, width) else {
        return false;
    };
    first_wrong_numbers(alloc, method, &[(&numbers, width, &numbers)]).is_none()
}

// Returns the first number of symbols of 9 bits that a constructor does not make of their numbers.
fn first_wrong_count(alloc: Global, method: Method) -> Option<usize> {
    for count in COUNTS {
        if !makes_numbers(alloc, method, count, 9) {
            return Some(count);
        }
    }
    None
}

#[test]
fn counting_makes_the_same_of_numbers(rt: HostRuntime) {
    assert!(rt; first_wrong_count(rt.alloc(), Method::Sorting).is_none());
    assert!(rt; first_wrong_count(rt.alloc(), Method::Counting).is_none());
}

#[test]
fn the_widest_symbols(rt: HostRuntime) {
    assert!(rt; makes_symbols(rt.alloc(), Method::Sorting, 2, u16::MAX));
    assert!(rt; makes_symbols(rt.alloc(), Method::Sorting, 0, u16::MAX));
}

#[test]
fn no_digits_are_no_symbols(rt: HostRuntime) {
    let len = len_of(rt.alloc(), Method::Sorting, &[7, 2], 0);
    assert!(rt; matches!(len, Ok(0)));
}
