//! The load line of a list of values.
ghost use Rattle.std.specs.Prelude.{◌≡◌, IfOk};
ghost use Rattle.vers_words.specs.Text.{words_in};
ghost use Rattle.vers_words.specs.Arguments.{all_numbers as numbers_all};
ghost use Rattle.vers_words.specs.Loading.{map_loading};
ghost use Rattle.catalogue.specs.Structures.{content_of};
ghost use Rattle.vers_cli.specs.Holding.{loaded, is_accepted as accepts};
ghost use Rattle.vers_cli.specs.Loads.{values_loaded};

use crate::name::Load;
use catalogue::structure::Structure;
use std::alloc::{AllocError, Allocator};
use vers_rmq::rmq::fast_rmq::{FastRmq, MAX_LEN};
use vers_words::arguments::{all_numbers, count_numbers};
use vers_words::loading::Loading;

/// Returns true if the load line `values n ..` is accepted.
pub fn is_accepted(arguments: &[u8]) -> bool
    ensures { result ≡ accepts (values_loaded (numbers_all (words_in arguments.now))) }
{
    match count_numbers(arguments) {
        None => false,
        Some(count) => count <= MAX_LEN,
    }
}

/// Returns the result of the load line `values n ..`. Errors: `AllocError` if the allocator refuses a request.
pub fn load<'a, A: Allocator + Copy>(
    alloc: &'a A,
    arguments: &[u8],
) -> Result<Loading<Structure<'a, A>>, AllocError>
    ensures { IfOk result (λ loading.
        map_loading content_of loading ≡ loaded Load.Values (words_in arguments.now)) }
{
    let Some(numbers) = all_numbers(*alloc, arguments)? else {
        return Ok(Loading::Malformed);
    };
    if numbers.len() > MAX_LEN {
        return Ok(Loading::Inadmissible);
    }
    match FastRmq::from_vec(numbers) {
        Ok(values) => Ok(Loading::Accepted(Structure::Fast(values))),
        Err(error) => Err(error),
    }
}
