//! Batches of queries of values with range minima.
ghost use Rattle.std.specs.Prelude.{◌≡◌, map};
ghost use Rattle.catalogue.specs.MinimaAnswers.{fast_answer};
ghost use Rattle.vers_c.specs.Batches.{answered_row};

use crate::asked::{Row, answer_each};
use catalogue::query::Query;
use std::alloc::Global;
use vers_rmq::rmq::fast_rmq::FastRmq;

/// Replaces each row by the answer of values with blocks to its numbers, with a loop of its own for each
/// frequent query.
pub fn each_of_values<R: Row>(
    values: &FastRmq<Global>,
    query: Query,
    rows: &mut [R],
    b: u64,
    c: u64,
    other: u64,
)
    ensures { rows.new ≡ map (answered_row R.ask R.with_answer (fast_answer values.now query) other b c) rows.old }
{
    match query {
        Query::Get => answer_each(values, Query::Get, rows, b, c, other),
        Query::RangeMin => answer_each(values, Query::RangeMin, rows, b, c, other),
        _ => answer_each(values, query, rows, b, c, other),
    }
}
