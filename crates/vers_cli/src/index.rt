//! The load line of an inverted index.
ghost use Rattle.std.specs.Prelude.{◌≡◌, option_map, IfOk};
ghost use Rattle.std.specs.Option.{option_and_then};
ghost use Rattle.vers_words.specs.Text.{words_in};
ghost use Rattle.vers_words.specs.Arguments.{all_numbers as numbers_all};
ghost use Rattle.vers_words.specs.Loading.{map_loading};
ghost use Rattle.catalogue.specs.Structures.{content_of};
ghost use Rattle.vers_cli.specs.Holding.{loaded, is_accepted as accepts};
ghost use Rattle.vers_cli.specs.Loads.{first_numbers, index_parts, inverted_loaded, pairs_in};

use crate::documents::split_first_pair;
use crate::name::Load;
use catalogue::structure::Structure;
use inverted::{InvertedError, InvertedIndex, Pairs, refusal};
use std::alloc::{AllocError, Allocator};
use vers_words::arguments::count_numbers;
use vers_words::loading::Loading;
use vers_words::text::{number, split_first_word};

// The pairs of the numbers of a text, up to the first word that is no number.
#[derive(Clone, Copy, Drop)]
struct LinePairs<'a> {
    rest: &'a [u8],
}

impl Pairs for LinePairs<'_> {
    ghost left = { λ pairs. pairs_in (first_numbers (words_in pairs.rest.now)) };

    fn next(&mut self) -> Option<(u64, u64)> {
        let (term, document, others) = split_first_pair(self.rest)?;
        self.rest = others;
        Some((term, document))
    }
}

// The limits of terms and documents, and the pairs of a line.
#[derive(Clone, Copy, Drop)]
struct Parts<'a> {
    terms: u64,
    universe: u64,
    pairs: LinePairs<'a>,
}

// Returns the limits and the pairs of a line. `None` if a word is no number below 2^64, there are not two limits, or
// the last term has no document.
fn parts_of(arguments: &[u8]) -> Option<Parts<'_>>
    ensures { option_map (λ parts. (
      parts.terms,
      parts.universe,
      pairs_in (first_numbers (words_in parts.pairs.rest.now)),
    )) result
        ≡ option_and_then index_parts (numbers_all (words_in arguments.now)) }
{
    let (first, others) = split_first_word(arguments)?;
    let (second, rest) = split_first_word(others)?;
    let terms = number(first)?;
    let universe = number(second)?;
    let count = count_numbers(rest)?;
    if count % 2 == 0 {
        let pairs = LinePairs { rest };
        Some(Parts {
            terms,
            universe,
            pairs,
        })
    } else {
        None
    }
}

/// Returns true if the load line `inverted TERMS UNIVERSE t d ..` is accepted.
pub fn is_accepted(arguments: &[u8]) -> bool
    ensures { result ≡ accepts (inverted_loaded (numbers_all (words_in arguments.now))) }
{
    match parts_of(arguments) {
        None => false,
        Some(parts) => refusal(parts.terms, parts.universe, parts.pairs).is_none(),
    }
}

/// Returns the result of the load line `inverted TERMS UNIVERSE t d ..`. Errors: `AllocError` if the allocator
/// refuses a request.
pub fn load<'a, A: Allocator + Copy>(
    alloc: &'a A,
    arguments: &[u8],
) -> Result<Loading<Structure<'a, A>>, AllocError>
    ensures { IfOk result (λ loading.
        map_loading content_of loading ≡ loaded Load.Inverted (words_in arguments.now)) }
{
    let Some(parts) = parts_of(arguments) else {
        return Ok(Loading::Malformed);
    };
    match InvertedIndex::from_source(*alloc, parts.terms, parts.universe, parts.pairs) {
        Ok(index) => Ok(Loading::Accepted(Structure::Inverted(index))),
        Err(InvertedError::Memory) => Err(AllocError),
        Err(_) => Ok(Loading::Inadmissible),
    }
}
