//! The load line of a list of bits.
ghost use Rattle.std.specs.Prelude.{◌≡◌, ◌≤◌, true, length, IfOk};
ghost use Rattle.std.specs.List.{list_all};
ghost use Rattle.vers_words.specs.Text.{words_in};
ghost use Rattle.vers_words.specs.Arguments.{is_bit_digit, bits_of, bits_of_digits};
ghost use Rattle.vers_words.specs.Loading.{map_loading};
ghost use Rattle.catalogue.specs.Structures.{content_of};
ghost use Rattle.vers_cli.specs.Holding.{loaded, is_accepted as accepts};
ghost use Rattle.vers_cli.specs.Loads.{bits_loaded};

use crate::name::Load;
use catalogue::structure::Structure;
use std::alloc::{AllocError, Allocator};
use vers_bits::bit_vec::{BitVec, MAX_LEN};
use vers_rank::fast_rs_vec::RsVec;
use vers_words::arguments::bit_digits;
use vers_words::loading::Loading;

/// Returns true if the load line `bits S` is accepted.
pub fn is_accepted(arguments: &[u8]) -> bool
    ensures { result ≡ accepts (bits_loaded (bits_of (words_in arguments.now))) }
{
    match bit_digits(arguments) {
        None => false,
        Some(digits) => digits.len() <= MAX_LEN,
    }
}

/// Returns the result of the load line `bits S`. Errors: `AllocError` if the allocator refuses a request.
pub fn load<'a, A: Allocator + Copy>(
    alloc: &'a A,
    arguments: &[u8],
) -> Result<Loading<Structure<'a, A>>, AllocError>
    ensures { IfOk result (λ loading.
        map_loading content_of loading ≡ loaded Load.Bits (words_in arguments.now)) }
{
    let Some(digits) = bit_digits(arguments) else {
        return Ok(Loading::Malformed);
    };
    if digits.len() > MAX_LEN {
        return Ok(Loading::Inadmissible);
    }
    match RsVec::from_bit_vec(bit_vec(*alloc, digits)?) {
        Ok(bits) => Ok(Loading::Accepted(Structure::Bits(bits))),
        Err(error) => Err(error),
    }
}

/// Returns the list of the bits in digits 0 and 1. Precondition: there are no other digits, and at most
/// `MAX_LEN`. Errors: `AllocError` if the allocator refuses a request.
pub fn bit_vec<A: Allocator + Copy>(alloc: A, digits: &[u8]) -> Result<BitVec<A>, AllocError>
    requires short { length digits.now ≤ MAX_LEN }
    requires digits { list_all is_bit_digit digits.now ≡ true }
    ensures { IfOk result (λ bits. bits ≡ bits_of_digits digits.now) }
{
    // The digit 1 is odd and 0 is even. The list is never too long, so an error is of memory.
    BitVec::from_bits(alloc, digits).map_err(|_| AllocError)
}
