//! Many queries at once, by the library's batch functions.
ghost use Rattle.std.specs.Prelude.{◌≡◌, ℕ, ◌<◌, length, map};
ghost use Rattle.catalogue.specs.Answers.{value_or};
ghost use Rattle.vers_c.specs.Batches.{asked, answered_row};
ghost use Rattle.catalogue.specs.declared.answer.Answer.{Answer};

mod bits;
mod elements;
mod symbols;
mod values;

use crate::asked::{Ask, Row};
pub use bits::each_of_bits;
use catalogue::answer::Answer;
pub use elements::{each_of_documents, each_of_elements, each_of_ones, each_of_pairs};
use std::alloc::Global;
pub use symbols::each_of_symbols;
pub use values::each_of_values;

/// The number of queries passed to the library together.
const GROUP: usize = 64;

/// The greatest number of queries passed to it together, if their memory can be allocated.
const MOST: usize = 65_536;

/// A query of a structure `S` that the library answers in batches, each in a `Q` of its own.
trait Batch<S, Q: Copy>: Copy {
    ghost use Rattle.catalogue.specs.declared.answer.Answer.{Answer};

    // The structure's answer to three numbers.
    ghost answers: { Self → S → ℕ → ℕ → ℕ → Answer };

    // The structure's answer to a `Q`.
    ghost wants: { Self → S → Q → Answer };

    // The answer in a `Q` afterwards.
    ghost says: { Self → Q → Answer };

    /// Returns the `Q` of three numbers.
    fn of(self, ask: Ask) -> Q
        ensures { (structure : S) → wants self structure result
            ≡ answers self structure ask.a ask.b ask.c };

    /// Answers all.
    fn ask_all(self, structure: &S, queries: &mut [Q])
        ensures { map (says self) queries.new ≡ map (wants self structure.now) queries.old };

    /// Returns the answer in a `Q` afterwards.
    fn answer(self, query: Q) -> Answer
        ensures { result ≡ says self query };
}

/// Replaces each row by the answer to its numbers, or by `other` if there is none, in groups as long as
/// `queries`, the work area.
#[inline(always)]
fn in_groups<S, Q: Copy, B: Batch<S, Q>, R: Row>(
    batch: B,
    structure: &S,
    queries: &mut [Q],
    rows: &mut [R],
    b: u64,
    c: u64,
    other: u64,
)
    requires { 0 < length queries.old }
    ensures { rows.new ≡ map (answered_row R.ask R.with_answer (B.answers batch structure.now) other b c) rows.old }
{
    let len = rows.len();
    let mut from = 0;
    while from < len {
        let n = queries.len().min(len - from);
        ask_group(
            batch,
            structure,
            &mut queries[..n],
            &mut rows[from..from + n],
            b,
            c,
            other,
        );
        from += n;
    }
}

// Does the same with an allocated work area for up to `MOST` queries, or with `queries` if that fails. A level
// that many queries read in turn stays in the cache.
fn in_wide_groups<S, Q: Copy + Drop, B: Batch<S, Q>, R: Row>(
    alloc: Global,
    batch: B,
    structure: &S,
    few: &mut [Q],
    rows: &mut [R],
    b: u64,
    c: u64,
    other: u64,
)
    requires { 0 < length few.old }
    ensures { rows.new ≡ map (answered_row R.ask R.with_answer (B.answers batch structure.now) other b c) rows.old }
{
    let wanted = rows.len().min(MOST);
    if wanted > few.len() {
        if let Ok(mut many) = vec![in alloc; few[0]; wanted] {
            in_groups(batch, structure, many.as_mut_slice(), rows, b, c, other);
            return;
        }
    }
    in_groups(batch, structure, few, rows, b, c, other)
}

// Does the same for one group, at most as long as the work area.
#[inline(always)]
fn ask_group<S, Q: Copy, B: Batch<S, Q>, R: Row>(
    batch: B,
    structure: &S,
    queries: &mut [Q],
    rows: &mut [R],
    b: u64,
    c: u64,
    other: u64,
)
    requires { length queries.old ≡ length rows.old }
    ensures { rows.new ≡ map (answered_row R.ask R.with_answer (B.answers batch structure.now) other b c) rows.old }
{
    make_each(batch, queries, rows, b, c);
    batch.ask_all(structure, queries);
    store_each(batch, queries, rows, other);
}

// Makes queries of the numbers of rows.
#[inline(always)]
fn make_each<S, Q: Copy, B: Batch<S, Q>, R: Row>(
    batch: B,
    queries: &mut [Q],
    rows: &[R],
    b: u64,
    c: u64,
)
    requires { length queries.old ≡ length rows.now }
    ensures { (structure : S) → map (B.wants batch structure) queries.new
        ≡ map (λ row. asked (B.answers batch structure) (R.ask b c row)) rows.now }
{
    for i in 0..rows.len() {
        queries[i] = batch.of(rows[i].ask(b, c));
    }
}

// Copies the answers of queries into rows.
#[inline(always)]
fn store_each<S, Q: Copy, B: Batch<S, Q>, R: Row>(
    batch: B,
    queries: &[Q],
    rows: &mut [R],
    other: u64,
)
    requires { length queries.now ≡ length rows.old }
    ensures { (answer : R → Answer) → map (B.says batch) queries.now ≡ map answer rows.old
        → rows.new ≡ map (λ row. R.with_answer row (value_or other (answer row))) rows.old }
{
    for i in 0..rows.len() {
        rows[i] = rows[i].with_answer(batch.answer(queries[i]).value_or(other));
    }
}
