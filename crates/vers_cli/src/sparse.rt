//! The load line of a sparse list of bits.
ghost use Rattle.std.specs.Prelude.{◌≡◌, true, IfOk};
ghost use Rattle.vers_words.specs.Text.{words_in};
ghost use Rattle.vers_words.specs.Arguments.{all_numbers as numbers_all};
ghost use Rattle.vers_words.specs.Loading.{map_loading};
ghost use Rattle.catalogue.specs.Structures.{content_of};
ghost use Rattle.vers_cli.specs.Holding.{loaded, is_accepted as accepts};
ghost use Rattle.vers_cli.specs.Loads.{sparse_loaded};

use crate::name::Load;
use crate::sorted::{elements_of, rise_of};
use catalogue::structure::Structure;
use std::alloc::{AllocError, Allocator};
use vers_sorted::sparse::SparseRSVec;
use vers_words::arguments::count_numbers;
use vers_words::loading::Loading;
use vers_words::text::{number, split_first_word};

/// Returns true if the load line `sparse LEN p ..` is accepted.
pub fn is_accepted(arguments: &[u8]) -> bool
    ensures { result ≡ accepts (sparse_loaded (numbers_all (words_in arguments.now))) }
{
    let Some((word, positions)) = split_first_word(arguments) else {
        return false;
    };
    let Some(len) = number(word) else {
        return false;
    };
    match rise_of(positions, true) {
        None => false,
        Some(rise) => rise.is_below(len),
    }
}

/// Returns the result of the load line `sparse LEN p ..`. Errors: `AllocError` if the allocator refuses a
/// request.
pub fn load<'a, A: Allocator + Copy>(
    alloc: &'a A,
    arguments: &[u8],
) -> Result<Loading<Structure<'a, A>>, AllocError>
    ensures { IfOk result (λ loading.
        map_loading content_of loading ≡ loaded Load.Sparse (words_in arguments.now)) }
{
    let Some((word, positions)) = split_first_word(arguments) else {
        return Ok(Loading::Malformed);
    };
    let Some(len) = number(word) else {
        return Ok(Loading::Malformed);
    };
    let Some(rise) = rise_of(positions, true) else {
        if count_numbers(positions).is_none() {
            return Ok(Loading::Malformed);
        }
        return Ok(Loading::Inadmissible);
    };
    if !rise.is_below(len) {
        return Ok(Loading::Inadmissible);
    }
    match elements_of(*alloc, positions, rise) {
        Ok(ones) => Ok(Loading::Accepted(Structure::Sparse(SparseRSVec::from_sorted(ones, len)))),
        Err(error) => Err(error),
    }
}
