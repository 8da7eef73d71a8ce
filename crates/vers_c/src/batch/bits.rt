//! Batches of queries of bits with rank and select.
ghost use Rattle.std.specs.Prelude.{◌≡◌, ℕ, ◌+◌, ◌<◌, length, map, not, slice_index, true};
ghost use Rattle.vers_bits.specs.Bits.{select};
ghost use Rattle.catalogue.specs.declared.answer.Answer.TheVariants as answer;
ghost use Rattle.vers_c.specs.Batches.{answered_row};
ghost use Rattle.catalogue.specs.BitsAnswers.{bits_answer};
ghost use Rattle.vers_c.specs.BatchQueries.{select_query};

use super::{Batch, GROUP, in_groups};
use crate::asked::{Ask, Row, answer_each};
use catalogue::answer::Answer;
use catalogue::query::Query;
use std::alloc::Global;
use vers_rank::fast_rs_vec::RsVec;

// Positions of zeros or of ones by their numbers.
#[derive(Clone, Copy)]
struct Selects {
    bit: bool,
}

impl Batch<RsVec<Global>, usize> for Selects {
    ghost answers = { λ batch bits. bits_answer bits (select_query batch.bit) };

    ghost wants = { λ batch bits number. answer.Found (select batch.bit bits number) };

    ghost says = { λ _ position. answer.Found position };

    #[inline(always)]
    fn of(self, ask: Ask) -> usize {
        ask.a as usize
    }

    #[inline(always)]
    fn ask_all(self, bits: &RsVec<Global>, numbers: &mut [usize]) {
        match (is_run(numbers), self.bit) {
            (true, true) => select_run::<false>(bits, numbers),
            (true, false) => select_run::<true>(bits, numbers),
            (false, true) => bits.select1_each(numbers),
            (false, false) => bits.select0_each(numbers),
        }
    }

    #[inline(always)]
    fn answer(self, position: usize) -> Answer {
        Answer::position(position)
    }
}

// Returns true if each number is one more than the one before.
fn is_run(numbers: &[usize]) -> bool
    ensures { result ≡ true → (k : ℕ) → k < length numbers.now
        → slice_index numbers.now k ≡ slice_index numbers.now 0 + k }
{
    for k in 1..numbers.len() {
        if numbers[k - 1].checked_add(1) != Some(numbers[k]) {
            return false;
        }
    }
    true
}

// Replaces each number of a run by the position of the zero or the one, as an iterator reads them.
fn select_run<const ZERO: bool>(bits: &RsVec<Global>, numbers: &mut [usize])
    requires { (k : ℕ) → k < length numbers.old → slice_index numbers.old k ≡ slice_index numbers.old 0 + k }
    ensures { numbers.new ≡ map (select (not ZERO) bits.now) numbers.old }
{
    let Some(first) = numbers.first() else {
        return;
    };
    let mut skip = *first;
    let mut positions = bits.select_iter::<ZERO>();
    for k in 0..numbers.len() {
        numbers[k] = positions.nth(skip).unwrap_or(bits.len());
        skip = 0;
    }
}

/// Replaces each row by the answer of bits with rank and select to its numbers, with a loop of its own for each
/// frequent query.
pub fn each_of_bits<R: Row>(
    bits: &RsVec<Global>,
    query: Query,
    rows: &mut [R],
    b: u64,
    c: u64,
    other: u64,
)
    ensures { rows.new ≡ map (answered_row R.ask R.with_answer (bits_answer bits.now query) other b c) rows.old }
{
    match query {
        Query::Get => answer_each(bits, Query::Get, rows, b, c, other),
        Query::Rank0 => answer_each(bits, Query::Rank0, rows, b, c, other),
        Query::Rank1 => answer_each(bits, Query::Rank1, rows, b, c, other),
        Query::Select0 => select_each(bits, false, rows, b, c, other),
        Query::Select1 => select_each(bits, true, rows, b, c, other),
        _ => answer_each(bits, query, rows, b, c, other),
    }
}

// Does the same for the positions of a bit.
#[inline(always)]
fn select_each<R: Row>(bits: &RsVec<Global>, bit: bool, rows: &mut [R], b: u64, c: u64, other: u64)
    ensures { rows.new
        ≡ map (answered_row R.ask R.with_answer (bits_answer bits.now (select_query bit)) other b c) rows.old }
{
    let mut numbers = [0; GROUP];
    in_groups(Selects { bit }, bits, &mut numbers, rows, b, c, other)
}
