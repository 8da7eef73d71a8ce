//! The calls that allocate nothing, with every request refused, of lists of every length.
use crate::tests::lists::{Asked, Coding, Form, answer_in, is_answered_to, symbol_of};
use crate::tests::memory::{Going, Heap, LENGTHS, number_walk_over, sorted_number_walk_over};
use crate::tests::numbers::{
    Falling, Query, WIDTH, answer, falling_numbers, is_answered, symbols_of,
};
use crate::tests::walks::{Pass, Walk, is_walked, numbers_are_walked};
use std::alloc::{Allocator, Global};
use test_alloc::{
    Check, Ending, Refusing, Step, Trial, Tried, first_wrong_trial, tried_on, try_use_checked,
};
use vers_bits::bit_vec::BitVec;
use vers_tally::ends::{Borrowing, BothEnds, Source};
use vers_tally::tally::Tally;
use vers_wavelet::wavelet::{GetQuery, QuantileQuery, RankQuery, SelectQuery, WaveletMatrix};

// Returns true if all forms of the queries for numbers agree on that many symbols.
fn answers_numbers<A: Allocator + Copy>(list: &WaveletMatrix<A>, len: usize) -> bool {
    let i = len / 2;
    let s = i as u64 / 2;
    let queries = [
        Query::Len,
        Query::HeapSize,
        Query::Get(i),
        Query::RankRange(0, len, s),
        Query::RankOffset(0, len, s),
        Query::Rank(len, s),
        Query::SelectOffset(0, 0, s),
        Query::Select(0, s),
        Query::Quantile(0, len, i),
        Query::Sorted(i),
        Query::Min(0, len),
        Query::Max(0, len),
        Query::Median(0, len),
        Query::Predecessor(0, len, s),
        Query::Successor(0, len, s),
    ];
    for query in queries {
        if !is_answered(list, query, answer(list, query)) {
            return false;
        }
    }
    true
}

// Returns true if batches of queries answer as single queries do for that many symbols.
fn answers_batches<A: Allocator + Copy>(list: &WaveletMatrix<A>, len: usize) -> bool {
    let i = len / 2;
    let s = i as u64 / 2;
    let mut gets = [GetQuery::new(i), GetQuery::new(len)];
    list.get_u64_each(&mut gets);
    let mut ranks = [RankQuery::new(len, s), RankQuery::new(i, s)];
    list.rank_u64_each(&mut ranks);
    let mut selects = [SelectQuery::new(0, s), SelectQuery::new(1, s)];
    list.select_u64_each(&mut selects);
    let mut quantiles = [QuantileQuery::new(0, len, i), QuantileQuery::new(i, len, 0)];
    list.quantile_u64_each(&mut quantiles);
    gets[0].answer == list.get_u64(i)
        && gets[1].answer.is_none()
        && ranks[0].answer == list.rank_u64(len, s)
        && ranks[1].answer == list.rank_u64(i, s)
        && selects[0].answer == list.select_u64(0, s)
        && selects[1].answer == list.select_u64(1, s)
        && quantiles[0].answer == list.quantile_u64(0..len, i)
        && quantiles[1].answer == list.quantile_u64(i..len, 0)
}

// Returns true if ranks and selects for a list of bits answer what those for its number do.
fn answers_lists<A: Allocator + Copy>(
    list: &WaveletMatrix<A>,
    len: usize,
    symbol: &BitVec<A>,
) -> bool {
    let s = len as u64 / 2 / 2;
    let queries = [
        Query::RankRange(0, len, s),
        Query::RankOffset(0, len, s),
        Query::Rank(len, s),
        Query::SelectOffset(0, 0, s),
        Query::Select(0, s),
    ];
    for query in queries {
        let asked = Asked {
            list,
            query,
            coding: Coding::Bits,
            wanted: answer(list, query),
        };
        if !is_answered_to(&asked, symbol) {
            return false;
        }
    }
    true
}

// Returns true if queries that have no answer say so, in both forms that are checked.
fn answer_none<A: Allocator + Copy>(
    list: &WaveletMatrix<A>,
    queries: &[Query],
    symbol: &BitVec<A>,
) -> bool {
    for query in queries {
        if answer_in(list, *query, Form::Plain, symbol) != Ok(None)
            || answer_in(list, *query, Form::Counted, symbol) != Ok(None)
        {
            return false;
        }
    }
    true
}

// Returns true if positions and ranges out of bounds have no answer.
fn refuses_ranges<A: Allocator + Copy>(
    list: &WaveletMatrix<A>,
    len: usize,
    symbol: &BitVec<A>,
) -> bool {
    let past = len.saturating_add(1);
    let queries = [
        Query::Get(len),
        Query::Get(usize::MAX),
        Query::Quantile(0, len, len),
        Query::Quantile(0, len, usize::MAX),
        Query::Quantile(0, past, 0),
        Query::Quantile(1, 0, 0),
        Query::Sorted(len),
        Query::Min(len, len),
        Query::Min(0, past),
        Query::Max(1, 0),
        Query::Max(0, past),
        Query::Median(0, 0),
        Query::Median(0, past),
        Query::Predecessor(0, 0, 0),
        Query::Predecessor(1, 0, 0),
        Query::Predecessor(0, past, 0),
        Query::Successor(len, len, 0),
        Query::Successor(1, 0, 0),
        Query::Successor(0, past, 0),
    ];
    answer_none(list, &queries, symbol)
}

// Returns true if a symbol of another width has no answer.
fn refuses_width<A: Allocator + Copy>(
    list: &WaveletMatrix<A>,
    len: usize,
    symbol: &BitVec<A>,
) -> bool {
    let queries = [
        Query::RankRange(0, len, 0),
        Query::RankOffset(0, len, 0),
        Query::Rank(len, 0),
        Query::SelectOffset(0, 0, 0),
        Query::Select(0, 0),
        Query::Predecessor(0, len, 0),
        Query::Successor(0, len, 0),
    ];
    answer_none(list, &queries, symbol)
}

// Returns true if a clone of a walk over numbers goes through them.
fn clone_is_walked<S: Source<Item = u64> + Borrowing>(
    walk: Option<BothEnds<S>>,
    plain: Falling,
) -> bool {
    match walk {
        Some(walk) => is_walked(walk.clone(), plain, Pass::Steps),
        None => false,
    }
}

// Returns true if a walk over lists has that many items, and none past its end.
fn is_as_long<W: Walk>(walk: W, len: usize) -> bool {
    let mut walk = walk;
    walk.step(Step::Len) == Ok(Some(len as u64))
        && walk.step(Step::Nth(len)) == Ok(None)
        && walk.step_counted(Step::NextBack, &mut Tally::new()) == Ok(None)
        && walk.last_step() == Ok(None)
}

fn clones_are_right<A: Allocator + Copy>(list: &WaveletMatrix<A>, plain: Falling) -> bool {
    let len = list.len();
    clone_is_walked(list.iter_u64(), plain)
        && clone_is_walked(list.iter_sorted_u64(), plain.by_size())
        && is_as_long(list.iter().clone(), len)
        && is_as_long(list.iter_sorted().clone(), len)
}

// A symbol, perhaps of another width, and the plain list of the symbols that are queried.
#[derive(Drop)]
struct Using<'a, A: Allocator + Copy> {
    symbol: &'a BitVec<A>,
    plain: Falling,
}

impl<A: Allocator + Copy> Check<WaveletMatrix<A>> for Using<'_, A> {
    fn is_right(&self, list: &mut WaveletMatrix<A>) -> bool {
        let len = list.len();
        if self.symbol.len() != list.bits_per_element() {
            return refuses_width(list, len, self.symbol);
        }
        answers_numbers(list, len)
            && answers_batches(list, len)
            && answers_lists(list, len, self.symbol)
            && refuses_ranges(list, len, self.symbol)
            && numbers_are_walked(list, self.plain, Pass::Steps)
            && numbers_are_walked(list, self.plain, Pass::Last)
            && clones_are_right(list, self.plain)
    }
}

// Numbers whose symbols are queried.
#[derive(Drop)]
struct Numbers<'a, B: Allocator, A: Allocator + Copy> {
    heap: &'a Refusing<B>,
    alloc: A,
    numbers: &'a [u64],
}

impl<B: Allocator, A: Allocator + Copy> Tried<BitVec<A>> for Numbers<'_, B, A> {
    fn tried(&self, symbol: &BitVec<A>) -> Ending {
        let using = Using {
            symbol,
            plain: Falling::new(self.numbers.len()),
        };
        try_use_checked(
            self.heap,
            symbols_of(self.alloc, self.numbers, WIDTH),
            &using,
        )
    }
}

// Calls that allocate nothing.
#[derive(Clone, Copy, Drop)]
enum Call {
    // Queries, for a symbol of that many bits, and walks over numbers that borrow symbols.
    OfWidth(usize),
    // Walks over numbers that own symbols.
    Walk,
    SortedWalk,
    // The constructor of symbols without digits.
    NoDigits,
}

const CALLS: [Call; 7] = [
    Call::OfWidth(WIDTH as usize),
    Call::OfWidth(0),
    Call::OfWidth(2),
    Call::OfWidth(11),
    Call::Walk,
    Call::SortedWalk,
    Call::NoDigits,
];

// Tests a constructor of symbols without digits, which makes an empty list.
fn tried_no_digits<B: Allocator, A: Allocator + Copy>(
    heap: &Refusing<B>,
    alloc: A,
    numbers: &[u64],
) -> Ending {
    heap.start();
    match symbols_of(alloc, numbers, 0) {
        Ok(symbols) if symbols.is_empty() => Ending::Done,
        Ok(_) => Ending::Wrong,
        Err(_) => Ending::OutOfMemory,
    }
}

// Returns a walk whose items are refused.
fn going<B: Allocator>(heap: &Refusing<B>, plain: Falling) -> Going<'_, B> {
    Going {
        heap,
        plain,
        are_items_granted: false,
    }
}

fn tried<B: Allocator, A: Allocator + Copy>(
    heap: &Refusing<B>,
    alloc: A,
    call: Call,
    numbers: &[u64],
) -> Ending {
    let plain = Falling::new(numbers.len());
    match call {
        Call::OfWidth(width) => {
            let symbol = symbol_of(alloc, numbers.len() as u64 / 2 / 2, width);
            let of = Numbers {
                heap,
                alloc,
                numbers,
            };
            tried_on(symbol, &of)
        }
        Call::Walk => try_use_checked(heap, number_walk_over(alloc, numbers), &going(heap, plain)),
        Call::SortedWalk => {
            let walk = sorted_number_walk_over(alloc, numbers);
            try_use_checked(heap, walk, &going(heap, plain.by_size()))
        }
        Call::NoDigits => tried_no_digits(heap, alloc, numbers),
    }
}

impl Trial<Global> for Call {
    fn run(self, heap: &Heap, len: usize) -> Ending {
        match falling_numbers(heap, len) {
            Ok(numbers) => tried(heap, heap, self, numbers.as_slice()),
            Err(_) => Ending::Wrong,
        }
    }

    fn takes_memory(self, _: usize) -> bool {
        false
    }
}

#[test]
fn calls_that_take_no_memory(rt: HostRuntime) {
    assert!(rt; first_wrong_trial(rt.alloc(), &LENGTHS, &CALLS).is_none());
}
