//! The load line of documents with costs.
ghost use Rattle.std.specs.Prelude.{◌≡◌, ◌<◌, ◌∷◌, ℕ, List, [], length, unwrap_or, option_map, IfOk, OnOk, IsErr, IfSome, MatchOption, MatchResult};
ghost use Rattle.std.specs.Option.{option_and_then};
ghost use Rattle.vers_words.specs.Text.{words_in};
ghost use Rattle.vers_words.specs.Arguments.{no_arguments as none_of, all_numbers as numbers_all};
ghost use Rattle.vers_words.specs.Loading.{map_loading};
ghost use Rattle.catalogue.specs.Structures.{content_of};
ghost use Rattle.vers_cli.specs.Holding.{loaded, is_accepted as accepts};
ghost use Rattle.vers_cli.specs.Loads.{first_numbers, if_admitted, pairs_in, posted_first, posted_of, postings_loaded, rising_count};

use crate::name::Load;
use crate::sorted::Rise;
use catalogue::structure::Structure;
use postings::{Postings, PostingsError};
use std::alloc::{AllocError, Allocator};
use vers_rmq::rmq::fast_rmq::MAX_LEN;
use vers_words::arguments::{count_numbers, no_arguments};
use vers_words::loading::Loading;
use vers_words::text::{number, split_first_word};

/// Returns true if the load line `postings d c ..` is accepted.
pub fn is_accepted(arguments: &[u8]) -> bool
    ensures { result ≡ accepts (postings_loaded (numbers_all (words_in arguments.now))) }
{
    match ascending_documents(arguments) {
        None => false,
        Some(count) => count <= MAX_LEN,
    }
}

/// Returns the result of the load line `postings d c ..`. Errors: `AllocError` if the allocator refuses a
/// request.
pub fn load<'a, A: Allocator + Copy>(
    alloc: &'a A,
    arguments: &[u8],
) -> Result<Loading<Structure<'a, A>>, AllocError>
    ensures { IfOk result (λ loading.
        map_loading content_of loading ≡ loaded Load.Postings (words_in arguments.now)) }
{
    let Some(Pairs { documents, costs }) = all_pairs(*alloc, arguments)? else {
        return Ok(Loading::Malformed);
    };
    match admitted(documents.as_slice(), costs) {
        Ok(None) => Ok(Loading::Inadmissible),
        Ok(Some(postings)) => Ok(Loading::Accepted(Structure::Postings(postings))),
        Err(error) => Err(error),
    }
}

// Documents, and the cost of each.
#[derive(Drop)]
struct Pairs<A: Allocator> {
    documents: Vec<u64, A>,
    costs: Vec<u64, A>,
}

// Returns the documents and costs of a line, which alternate. `None` if a word is no number below 2^64, or the
// last document has no cost.
fn all_pairs<A: Allocator + Copy>(
    alloc: A,
    arguments: &[u8],
) -> Result<Option<Pairs<A>>, AllocError>
    ensures pairs { IfOk result (λ found. option_map
        (λ pairs. record { documents = pairs.documents.items; costs = pairs.costs.items }) found
        ≡ option_and_then posted_of (numbers_all (words_in arguments.now))) }
    ensures paired { IfOk result (λ found. IfSome found
        (λ pairs. length pairs.documents.items ≡ length pairs.costs.items)) }
{
    let Some(count) = count_numbers(arguments) else {
        return Ok(None);
    };
    let mut pairs = Pairs {
        documents: Vec::with_capacity(alloc, count / 2)?,
        costs: Vec::with_capacity(alloc, count / 2)?,
    };
    match pairs.fill(arguments)? {
        None => Ok(None),
        Some(()) => Ok(Some(pairs)),
    }
}

impl<A: Allocator> Pairs<A> {
    // Appends the documents and costs of a line, which alternate. `None` if a word is no number below 2^64, or
    // the last document has no cost. Precondition: there are none yet.
    fn fill(&mut self, arguments: &[u8]) -> Result<Option<()>, AllocError>
        requires documents { self.old.documents.items ≡ [] }
        requires costs { self.old.costs.items ≡ [] }
        ensures pairs { IfOk result (λ found. option_map
            (λ _. record { documents = self.new.documents.items; costs = self.new.costs.items }) found
            ≡ option_and_then posted_of (numbers_all (words_in arguments.now))) }
        ensures paired { OnOk result (length self.new.documents.items ≡ length self.new.costs.items) }
    {
        let mut rest = arguments;
        while let Some((document, cost, others)) = split_first_pair(rest) {
            self.documents.push(document)?;
            self.costs.push(cost)?;
            rest = others;
        }
        Ok(no_arguments(rest))
    }
}

/// Returns the two numbers at the beginning of a text, such as a document and its cost, and the text after them. `None`
/// if it doesn't begin with two numbers below 2^64.
pub fn split_first_pair(text: &[u8]) -> Option<(u64, u64, &[u8])>
    ensures pairs { MatchOption result
        (option_and_then posted_of (numbers_all (words_in text.now))
        ≡ option_map (λ _. record { documents = []; costs = [] }) (none_of (words_in text.now)))
        (λ parts. option_and_then posted_of (numbers_all (words_in text.now))
        ≡ option_map (posted_first parts.0 parts.1)
        (option_and_then posted_of (numbers_all (words_in parts.2.now)))) }
    ensures first { MatchOption result (pairs_in (first_numbers (words_in text.now)) ≡ [])
        (λ parts. pairs_in (first_numbers (words_in text.now))
        ≡ (parts.0, parts.1) ∷ pairs_in (first_numbers (words_in parts.2.now))) }
    ensures shorter { IfSome result (λ parts. length parts.2.now < length text.now) }
{
    let (word, others) = split_first_word(text)?;
    let (cost_word, more) = split_first_word(others)?;
    let document = number(word)?;
    let cost = number(cost_word)?;
    Some((document, cost, more))
}

// Returns the number of documents of a line, each with its cost. `None` if the words are others, or the
// documents don't ascend strictly.
fn ascending_documents(arguments: &[u8]) -> Option<usize>
    ensures { result ≡ rising_count (option_and_then posted_of (numbers_all (words_in arguments.now))) }
{
    let mut rise = Rise { len: 0, last: 0 };
    let mut rest = arguments;
    while let Some((last, _, others)) = split_first_pair(rest) {
        if !rise.admits(last, true) {
            return None;
        }
        let len = rise.len + 1;
        rise = Rise { len, last };
        rest = others;
    }
    match no_arguments(rest) {
        None => None,
        Some(()) => Some(rise.len),
    }
}

/// Returns documents with their costs. `None` if the documents don't ascend strictly or are too many.
pub fn admitted<A: Allocator + Copy>(
    documents: &[u64],
    costs: Vec<u64, A>,
) -> Result<Option<Postings<A>>, AllocError>
    requires { length documents.now ≡ length costs.items }
    ensures { IfOk result (λ made.
        made ≡ if_admitted (record { documents = documents.now; costs = costs.items })) }
{
    match Postings::from_sorted(documents, costs) {
        Ok(postings) => Ok(Some(postings)),
        Err(PostingsError::LengthMismatch) => Ok(None),
        Err(PostingsError::TooLong) => Ok(None),
        Err(PostingsError::NotAscending) => Ok(None),
        Err(PostingsError::Memory) => Err(AllocError),
    }
}
