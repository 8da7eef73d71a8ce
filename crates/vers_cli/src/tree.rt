//! The load line of a list of parentheses.
ghost use Rattle.std.specs.Prelude.{◌≡◌, true, IfOk, IsErr, MatchResult};
ghost use Rattle.vers_words.specs.Text.{words_in};
ghost use Rattle.vers_words.specs.Arguments.{bits_of};
ghost use Rattle.vers_words.specs.Loading.{map_loading};
ghost use Rattle.catalogue.specs.Structures.{content_of};
ghost use Rattle.vers_cli.specs.Holding.{loaded, is_accepted as accepts};
ghost use Rattle.vers_cli.specs.Loads.{tree_loaded};

use crate::bits::bit_vec;
use crate::name::Load;
use catalogue::structure::Structure;
use std::alloc::{AllocError, Allocator};
use vers_trees::trees::bp::{BpTree, MAX_LEN};
use vers_words::arguments::bit_digits;
use vers_words::loading::Loading;

/// Returns true if the load line `tree S` is accepted.
pub fn is_accepted(arguments: &[u8]) -> bool
    ensures { result ≡ accepts (tree_loaded (bits_of (words_in arguments.now))) }
{
    match bit_digits(arguments) {
        None => false,
        Some(digits) => digits.len() <= MAX_LEN,
    }
}

/// Returns the result of the load line `tree S`. Errors: `AllocError` if the allocator refuses a request.
pub fn load<'a, A: Allocator + Copy>(
    alloc: &'a A,
    arguments: &[u8],
) -> Result<Loading<Structure<'a, A>>, AllocError>
    ensures { IfOk result (λ loading.
        map_loading content_of loading ≡ loaded Load.Tree (words_in arguments.now)) }
{
    let Some(digits) = bit_digits(arguments) else {
        return Ok(Loading::Malformed);
    };
    if digits.len() > MAX_LEN {
        return Ok(Loading::Inadmissible);
    }
    // The list is never too long, so an error is of memory.
    match boxed(alloc, BpTree::from_bit_vector(bit_vec(alloc, digits)?)) {
        Ok(tree) => Ok(Loading::Accepted(Structure::Tree(tree))),
        Err(error) => Err(error),
    }
}

// Returns a value in a box. Its type is generic, so that the proof doesn't go through its fields.
fn boxed<T: Drop, E: Drop, A: Allocator>(
    alloc: A,
    made: Result<T, E>,
) -> Result<Box<T, A>, AllocError>
    ensures { MatchResult made (λ value. IfOk result (λ boxed. boxed.value ≡ value)) (λ _. IsErr result) }
{
    match made {
        Ok(value) => Ok(Box::new(alloc, value)?),
        Err(_) => Err(AllocError),
    }
}
