//! The load line of an ascending list.
ghost use Rattle.std.specs.Prelude.{◌≡◌, ◌==◌, ◌||◌, ℕ, List, Some, None, true, false, length, nat_lt, IfOk, IfSome};
ghost use Rattle.std.specs.List.Sorted.{IsNonDecreasing};
ghost use Rattle.vers_sorted.specs.Layout.{last_of};
ghost use Rattle.vers_sorted.specs.Sorted.{each_next};
ghost use Rattle.vers_words.specs.Text.{words_in};
ghost use Rattle.vers_words.specs.Arguments.{all_numbers as numbers_all};
ghost use Rattle.vers_words.specs.Loading.{map_loading};
ghost use Rattle.catalogue.specs.Structures.{content_of};
ghost use Rattle.vers_cli.specs.Holding.{loaded, is_accepted as accepts};
ghost use Rattle.vers_cli.specs.Loads.{first_numbers, in_order, sorted_loaded};

use crate::name::Load;
use catalogue::structure::Structure;
use std::alloc::{AllocError, Allocator};
use vers_sorted::elias_fano::{EliasFanoVec, MAX_LEN, Numbers};
use vers_words::arguments::count_numbers;
use vers_words::loading::Loading;
use vers_words::text::{number, split_first_word};

/// The number of ascending numbers so far, and the last of them, or 0 if there are none.
#[derive(Clone, Copy, Drop)]
pub struct Rise {
    pub len: usize,
    pub last: u64,
}

impl Rise {
    /// Returns true if a number may come next.
    pub fn admits(self, next: u64, strictly: bool) -> bool
        ensures { result ≡ ((self.len == 0) || in_order strictly self.last next) }
    {
        if self.len == 0 {
            return true;
        }
        if strictly {
            self.last < next
        } else {
            self.last <= next
        }
    }

    /// Returns true if all numbers are below a limit, given that they ascend.
    pub fn is_below(self, limit: u64) -> bool
        ensures { result ≡ ((self.len == 0) || nat_lt self.last limit) }
    {
        self.len == 0 || self.last < limit
    }
}

/// Returns the number of the numbers of a line, and the last of them. `None` if a word is no number below 2^64,
/// or a number is below the previous one, or equal to it if `strictly`.
pub fn rise_of(arguments: &[u8], strictly: bool) -> Option<Rise>
    ensures none { result ≡ None → (numbers : List ℕ)
        → numbers_all (words_in arguments.now) ≡ Some numbers → each_next (in_order strictly) numbers ≡ false }
    ensures all { IfSome result (λ _.
        numbers_all (words_in arguments.now) ≡ Some (first_numbers (words_in arguments.now))) }
    ensures order { IfSome result (λ _.
        each_next (in_order strictly) (first_numbers (words_in arguments.now)) ≡ true) }
    ensures len { IfSome result (λ rise. rise.len ≡ length (first_numbers (words_in arguments.now))) }
    ensures last { IfSome result (λ rise. rise.last ≡ last_of (first_numbers (words_in arguments.now))) }
{
    let mut rise = Rise { len: 0, last: 0 };
    let mut rest = arguments;
    while let Some((word, others)) = split_first_word(rest) {
        let last = number(word)?;
        if !rise.admits(last, strictly) {
            return None;
        }
        let len = rise.len + 1;
        rise = Rise { len, last };
        rest = others;
    }
    Some(rise)
}

// The numbers of the words of a text, up to the first word that is no number.
#[derive(Clone, Copy, Drop)]
struct LineNumbers<'a> {
    rest: &'a [u8],
}

impl Numbers for LineNumbers<'_> {
    ghost left = { λ numbers. first_numbers (words_in numbers.rest.now) };

    fn next(&mut self) -> Option<u64> {
        let (word, others) = split_first_word(self.rest)?;
        let value = number(word)?;
        self.rest = others;
        Some(value)
    }
}

/// Returns the list of the numbers of a line, parsed from its text. Precondition: they ascend. Errors:
/// `AllocError` if the allocator refuses a request.
pub fn elements_of<A: Allocator + Copy>(
    alloc: A,
    arguments: &[u8],
    rise: Rise,
) -> Result<EliasFanoVec<A>, AllocError>
    requires ascending { IsNonDecreasing (first_numbers (words_in arguments.now)) }
    requires len { rise.len ≡ length (first_numbers (words_in arguments.now)) }
    requires last { rise.last ≡ last_of (first_numbers (words_in arguments.now)) }
    ensures { IfOk result (λ elements. elements ≡ first_numbers (words_in arguments.now)) }
{
    // A line of more numbers needs more memory than there can be.
    if rise.len > MAX_LEN {
        return Err(AllocError);
    }
    EliasFanoVec::from_numbers(alloc, LineNumbers { rest: arguments }, rise.len, rise.last)
}

/// Returns true if the load line `sorted n ..` is accepted.
pub fn is_accepted(arguments: &[u8]) -> bool
    ensures { result ≡ accepts (sorted_loaded (numbers_all (words_in arguments.now))) }
{
    rise_of(arguments, false).is_some()
}

/// Returns the result of the load line `sorted n ..`. Errors: `AllocError` if the allocator refuses a request.
pub fn load<'a, A: Allocator + Copy>(
    alloc: &'a A,
    arguments: &[u8],
) -> Result<Loading<Structure<'a, A>>, AllocError>
    ensures { IfOk result (λ loading.
        map_loading content_of loading ≡ loaded Load.Sorted (words_in arguments.now)) }
{
    let Some(rise) = rise_of(arguments, false) else {
        if count_numbers(arguments).is_none() {
            return Ok(Loading::Malformed);
        }
        return Ok(Loading::Inadmissible);
    };
    match elements_of(*alloc, arguments, rise) {
        Ok(elements) => Ok(Loading::Accepted(Structure::Sorted(elements))),
        Err(error) => Err(error),
    }
}
