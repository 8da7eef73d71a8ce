//! The load line of a list of symbols.
ghost use Rattle.std.specs.Prelude.{◌≡◌, ◌<◌, ◌≤◌, ◌%◌, ◌++◌, ℕ, List, length, option_map, IfOk, OnOk};
ghost use Rattle.vers_bits.specs.Bits.{low_bits, pack};
ghost use Rattle.vers_wavelet.specs.Makers.{low_symbols};
ghost use Rattle.vers_words.specs.Text.{words_in};
ghost use Rattle.vers_words.specs.Arguments.{all_numbers as numbers_all};
ghost use Rattle.vers_words.specs.Loading.{map_loading};
ghost use Rattle.catalogue.specs.Structures.{content_of};
ghost use Rattle.vers_cli.specs.Holding.{loaded, is_accepted as accepts};
ghost use Rattle.vers_cli.specs.Loads.{symbols_loaded};

use crate::name::Load;
use catalogue::structure::Structure;
use std::alloc::{AllocError, Allocator};
use vers_bits::bit_vec::BitVec;
use vers_bits::laws::packed_elements_are_items;
use vers_wavelet::wavelet::WaveletMatrix;
use vers_words::arguments::count_numbers;
use vers_words::loading::Loading;
use vers_words::text::{number, split_first_word};

// The greatest number of bits of a symbol.
const WIDEST: u64 = 64;

/// Returns true if the load line `symbols K n ..` is accepted.
pub fn is_accepted(arguments: &[u8]) -> bool
    ensures { result ≡ accepts (symbols_loaded (numbers_all (words_in arguments.now))) }
{
    let Some((word, numbers)) = split_first_word(arguments) else {
        return false;
    };
    match number(word) {
        None => false,
        Some(width) => width <= WIDEST && count_numbers(numbers).is_some(),
    }
}

/// Returns the result of the load line `symbols K n ..`. Its numbers are packed as they are read. Errors:
/// `AllocError` if the allocator refuses a request.
pub fn load<'a, A: Allocator + Copy>(
    alloc: &'a A,
    arguments: &[u8],
) -> Result<Loading<Structure<'a, A>>, AllocError>
    ensures { IfOk result (λ loading.
        map_loading content_of loading ≡ loaded Load.Symbols (words_in arguments.now)) }
{
    let Some((word, numbers)) = split_first_word(arguments) else {
        return Ok(Loading::Malformed);
    };
    let Some(width) = number(word) else {
        return Ok(Loading::Malformed);
    };
    let Some(packed) = packed_numbers(*alloc, numbers, kept_width(width))? else {
        return Ok(Loading::Malformed);
    };
    if width > WIDEST {
        return Ok(Loading::Inadmissible);
    }
    match of_packed(&packed, width as u16) {
        Ok(symbols) => Ok(Loading::Accepted(Structure::Symbols(symbols))),
        Err(error) => Err(error),
    }
}

// Returns the number of bits of each number that are kept: none if the width is refused.
fn kept_width(width: u64) -> usize
    ensures narrow { result ≤ 64 }
    ensures all { width ≤ 64 → result ≡ width }
{
    if width <= WIDEST { width as usize } else { 0 }
}

// Returns the low `width` bits of each number of a line, one after another. `None` if a word is no number below
// 2^64.
fn packed_numbers<A: Allocator + Copy>(
    alloc: A,
    arguments: &[u8],
    width: usize,
) -> Result<Option<BitVec<A>>, AllocError>
    requires { width ≤ 64 }
    ensures { IfOk result (λ found.
        found ≡ option_map (λ numbers. pack numbers width) (numbers_all (words_in arguments.now))) }
{
    let mut packed = BitVec::new(alloc);
    let mut rest = arguments;
    while let Some((word, others)) = split_first_word(rest) {
        let Some(value) = number(word) else {
            return Ok(None);
        };
        append_low(&mut packed, value, width)?;
        rest = others;
    }
    Ok(Some(packed))
}

// Appends the low `n` bits of a number. More bits than a list may have need more memory than there can be.
fn append_low<A: Allocator + Copy>(
    bits: &mut BitVec<A>,
    number: u64,
    n: usize,
) -> Result<(), AllocError>
    requires { n ≤ 64 }
    ensures { OnOk result (bits.new ≡ bits.old ++ low_bits number n) }
{
    if bits.append_bits(number, n).is_err() {
        return Err(AllocError);
    }
    Ok(())
}

// Returns the symbols of `width` bits each in a list of bits; none if `width` is 0.
fn of_packed<A: Allocator + Copy>(
    packed: &BitVec<A>,
    width: u16,
) -> Result<WaveletMatrix<A>, AllocError>
    requires narrow { width ≤ 64 }
    requires whole { 0 < width → length packed.now % width ≡ 0 }
    ensures width { IfOk result (λ symbols. symbols.width ≡ width) }
    ensures items { IfOk result (λ symbols. (numbers : List ℕ) → packed.now ≡ pack numbers width
        → symbols.items ≡ low_symbols numbers width) }
{
    packed_elements_are_items();
    if width == 0 {
        return WaveletMatrix::from_slice(packed.allocator(), &[], 0);
    }
    WaveletMatrix::from_bit_vec(packed, width)
}
