//! Batches of queries of symbols.
ghost use Rattle.std.specs.Prelude.{◌≡◌, map, slice_get};
ghost use Rattle.catalogue.specs.Answers.{found_or_absent};
ghost use Rattle.vers_c.specs.Batches.{answered_row};
ghost use Rattle.catalogue.specs.SymbolsAnswers.{answer_of_symbols, found_of_symbols, if_numbers, symbols_answer};
ghost use Rattle.catalogue.specs.declared.query.Query.TheVariants as query;
ghost use Rattle.catalogue.specs.declared.query.SymbolsQuery.TheVariants as of_symbols;

use super::{Batch, GROUP, in_wide_groups};
use crate::asked::{Ask, Row, answer_each};
use catalogue::answer::Answer;
use catalogue::query::{Query, SymbolsQuery};
use std::alloc::Global;
use vers_wavelet::wavelet::{GetQuery, QuantileQuery, RankQuery, SelectQuery, WaveletMatrix};

// Symbols at positions.
#[derive(Clone, Copy)]
struct Gets;

impl Batch<WaveletMatrix<Global>, GetQuery> for Gets {
    ghost answers = { λ _ symbols. symbols_answer symbols query.Get };

    ghost wants = { λ _ symbols it. if_numbers symbols (slice_get symbols.items it.position) };

    ghost says = { λ _ it. found_or_absent it.answer };

    #[inline(always)]
    fn of(self, ask: Ask) -> GetQuery {
        GetQuery::new(ask.a as usize)
    }

    #[inline(always)]
    fn ask_all(self, symbols: &WaveletMatrix<Global>, queries: &mut [GetQuery]) {
        symbols.get_u64_each(queries)
    }

    #[inline(always)]
    fn answer(self, query: GetQuery) -> Answer {
        Answer::number_or_absent(query.answer)
    }
}

// Ranks of symbols.
#[derive(Clone, Copy)]
struct Ranks;

impl Batch<WaveletMatrix<Global>, RankQuery> for Ranks {
    ghost answers = { λ _ symbols. answer_of_symbols symbols of_symbols.RankOf };

    ghost wants = { λ _ symbols it.
        if_numbers symbols (found_of_symbols symbols of_symbols.RankOf it.end it.symbol 0) };

    ghost says = { λ _ it. found_or_absent it.answer };

    #[inline(always)]
    fn of(self, ask: Ask) -> RankQuery {
        RankQuery::new(ask.a as usize, ask.b)
    }

    #[inline(always)]
    fn ask_all(self, symbols: &WaveletMatrix<Global>, queries: &mut [RankQuery]) {
        symbols.rank_u64_each(queries)
    }

    #[inline(always)]
    fn answer(self, query: RankQuery) -> Answer {
        Answer::position_or_absent(query.answer)
    }
}

// Positions of symbols by the numbers of their occurrences.
#[derive(Clone, Copy)]
struct Selects;

impl Batch<WaveletMatrix<Global>, SelectQuery> for Selects {
    ghost answers = { λ _ symbols. answer_of_symbols symbols of_symbols.SelectOf };

    ghost wants = { λ _ symbols it.
        if_numbers symbols (found_of_symbols symbols of_symbols.SelectOf it.rank it.symbol 0) };

    ghost says = { λ _ it. found_or_absent it.answer };

    #[inline(always)]
    fn of(self, ask: Ask) -> SelectQuery {
        SelectQuery::new(ask.a as usize, ask.b)
    }

    #[inline(always)]
    fn ask_all(self, symbols: &WaveletMatrix<Global>, queries: &mut [SelectQuery]) {
        symbols.select_u64_each(queries)
    }

    #[inline(always)]
    fn answer(self, query: SelectQuery) -> Answer {
        Answer::position_or_absent(query.answer)
    }
}

// Quantiles of ranges.
#[derive(Clone, Copy)]
struct Quantiles;

impl Batch<WaveletMatrix<Global>, QuantileQuery> for Quantiles {
    ghost answers = { λ _ symbols. answer_of_symbols symbols of_symbols.Quantile };

    ghost wants = { λ _ symbols it.
        if_numbers symbols (found_of_symbols symbols of_symbols.Quantile it.start it.end it.i) };

    ghost says = { λ _ it. found_or_absent it.answer };

    #[inline(always)]
    fn of(self, ask: Ask) -> QuantileQuery {
        QuantileQuery::new(ask.a as usize, ask.b as usize, ask.c as usize)
    }

    #[inline(always)]
    fn ask_all(self, symbols: &WaveletMatrix<Global>, queries: &mut [QuantileQuery]) {
        symbols.quantile_u64_each(queries)
    }

    #[inline(always)]
    fn answer(self, query: QuantileQuery) -> Answer {
        Answer::number_or_absent(query.answer)
    }
}

/// Replaces each row by the answer of a list of symbols to its numbers, level by level for each frequent query.
pub fn each_of_symbols<R: Row>(
    alloc: Global,
    symbols: &WaveletMatrix<Global>,
    query: Query,
    rows: &mut [R],
    b: u64,
    c: u64,
    other: u64,
)
    ensures { rows.new ≡ map (answered_row R.ask R.with_answer (symbols_answer symbols.now query) other b c) rows.old }
{
    match query {
        Query::Get => {
            let mut few = [GetQuery::new(0); GROUP];
            in_wide_groups(alloc, Gets, symbols, &mut few, rows, b, c, other)
        }
        Query::Symbols(SymbolsQuery::RankOf) => {
            let mut few = [RankQuery::new(0, 0); GROUP];
            in_wide_groups(alloc, Ranks, symbols, &mut few, rows, b, c, other)
        }
        Query::Symbols(SymbolsQuery::SelectOf) => {
            let mut few = [SelectQuery::new(0, 0); GROUP];
            in_wide_groups(alloc, Selects, symbols, &mut few, rows, b, c, other)
        }
        Query::Symbols(SymbolsQuery::Quantile) => {
            let mut few = [QuantileQuery::new(0, 0, 0); GROUP];
            in_wide_groups(alloc, Quantiles, symbols, &mut few, rows, b, c, other)
        }
        _ => answer_each(symbols, query, rows, b, c, other),
    }
}
