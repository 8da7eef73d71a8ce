//! Symbols that are returned as lists of bits, each of their requests refused in turn. A refused item of a walk
//! counts as passed.
use crate::tests::lists::{Form, FoundNumber, answer_in, symbol_of};
use crate::tests::memory::{Heap, LENGTHS, sorted_walk_over, walk_over};
use crate::tests::numbers::{Falling, Query, WIDTH, falling_numbers, symbols_of};
use crate::tests::walks::{Walk, goes_on};
use std::alloc::{AllocError, Allocator, Global};
use test_alloc::{
    Ending, Making, Refusing, Step, Trial, Tried, done_if, first_wrong_trial, out_of_memory_if,
    tried_on, try_making,
};
use vers_bits::bit_vec::BitVec;
use vers_tally::tally::Tally;
use vers_wavelet::wavelet::WaveletMatrix;

// The queries of all symbols, for the position in the middle or for its number by size.
#[derive(Clone, Copy, Drop)]
enum Topic {
    Get,
    Quantile,
    Sorted,
    Min,
    Max,
    Median,
    Predecessor,
    Successor,
}

impl Topic {
    // Returns the query about that many symbols.
    fn query(self, len: usize) -> Query {
        let i = len / 2;
        let number = i as u64 / 2;
        match self {
            Topic::Get => Query::Get(i),
            Topic::Quantile => Query::Quantile(0, len, i),
            Topic::Sorted => Query::Sorted(i),
            Topic::Min => Query::Min(0, len),
            Topic::Max => Query::Max(0, len),
            Topic::Median => Query::Median(0, len),
            Topic::Predecessor => Query::Predecessor(0, len, number),
            Topic::Successor => Query::Successor(0, len, number),
        }
    }

    // Returns its answer for falling numbers, if there are any.
    fn answer(self, len: usize) -> Option<u64> {
        let last = len.checked_sub(1)? as u64;
        let i = len as u64 / 2;
        Some(match self {
            Topic::Get => last.saturating_sub(i) / 2,
            Topic::Min => 0,
            Topic::Max => last / 2,
            Topic::Median => last / 2 / 2,
            _ => i / 2,
        })
    }
}

const TOPICS: [Topic; 8] = [
    Topic::Get,
    Topic::Quantile,
    Topic::Sorted,
    Topic::Min,
    Topic::Max,
    Topic::Median,
    Topic::Predecessor,
    Topic::Successor,
];

// A form of a query, whose answer is a symbol.
#[derive(Clone, Copy, Drop)]
struct Asking {
    topic: Topic,
    form: Form,
}

// The same for symbols that were made with a heap.
#[derive(Drop)]
struct Answering<'a> {
    heap: &'a Heap,
    asking: Asking,
}

// The same with a symbol for the query.
#[derive(Drop)]
struct AnsweringFor<'a, 'b> {
    heap: &'a Heap,
    asking: Asking,
    list: &'b WaveletMatrix<&'a Heap>,
}

// The answer, as a number.
#[derive(Drop)]
struct Answer<'a, 'b, 'c> {
    asking: Asking,
    list: &'b WaveletMatrix<&'a Heap>,
    symbol: &'c BitVec<&'a Heap>,
}

impl Making for Answer<'_, '_, '_> {
    type Made = Option<u64>;

    type Fault = AllocError;

    fn make(&self) -> FoundNumber {
        let query = self.asking.topic.query(self.list.len());
        answer_in(self.list, query, self.asking.form, self.symbol)
    }

    fn is_right(&self, number: &Option<u64>) -> bool {
        *number == self.asking.topic.answer(self.list.len())
    }
}

impl<'a> Tried<BitVec<&'a Heap>> for AnsweringFor<'a, '_> {
    fn tried(&self, symbol: &BitVec<&'a Heap>) -> Ending {
        let asking = self.asking;
        let list = self.list;
        try_making(
            self.heap,
            &Answer {
                asking,
                list,
                symbol,
            },
        )
    }
}

impl<'a> Tried<WaveletMatrix<&'a Heap>> for Answering<'a> {
    fn tried(&self, list: &WaveletMatrix<&'a Heap>) -> Ending {
        let heap = self.heap;
        let asking = self.asking;
        let number = list.len() as u64 / 2 / 2;
        tried_on(
            symbol_of(heap, number, WIDTH as usize),
            &AnsweringFor { heap, asking, list },
        )
    }
}

impl Trial<Global> for Asking {
    fn run(self, heap: &Heap, len: usize) -> Ending {
        match falling_numbers(heap, len) {
            Ok(numbers) => {
                let list = symbols_of(heap, numbers.as_slice(), WIDTH);
                tried_on(list, &Answering { heap, asking: self })
            }
            Err(_) => Ending::Wrong,
        }
    }

    // An empty range has no symbol, and needs no memory.
    fn takes_memory(self, len: usize) -> bool {
        len > 0
    }
}

// Returns the first length at which a form of a query is wrong.
fn first_wrong_answer(alloc: Global) -> Option<(usize, usize)> {
    for topic in TOPICS {
        for form in [Form::Plain, Form::Counted, Form::Unchecked] {
            let wrong = first_wrong_trial(alloc, &LENGTHS, &[Asking { topic, form }]);
            if wrong.is_some() {
                return wrong;
            }
        }
    }
    None
}

#[test]
fn symbols_as_answers_are_refused_in_turn(rt: HostRuntime) {
    assert!(rt; first_wrong_answer(rt.alloc()).is_none());
}

// A walk over lists of bits.
#[derive(Clone, Copy, Drop)]
enum Way {
    Borrowed,
    BorrowedSorted,
    Owned,
    OwnedSorted,
}

const WAYS: [Way; 4] = [
    Way::Borrowed,
    Way::BorrowedSorted,
    Way::Owned,
    Way::OwnedSorted,
];

// A way to take an item from a walk.
#[derive(Clone, Copy, Drop)]
enum How {
    Plain(Step),
    Counted(Step),
    Last,
}

const HOWS: [How; 10] = [
    How::Plain(Step::Next),
    How::Plain(Step::NextBack),
    How::Plain(Step::Nth(1)),
    How::Plain(Step::NthBack(2)),
    How::Plain(Step::Nth(usize::MAX)),
    How::Counted(Step::Next),
    How::Counted(Step::NextBack),
    How::Counted(Step::Nth(1)),
    How::Counted(Step::NthBack(2)),
    How::Last,
];

// An item that is taken from a walk.
#[derive(Clone, Copy, Drop)]
struct Taking {
    way: Way,
    how: How,
}

impl Taking {
    // Returns the expected items of the walk.
    fn plain(self, len: usize) -> Falling {
        match self.way {
            Way::Borrowed | Way::Owned => Falling::new(len),
            Way::BorrowedSorted | Way::OwnedSorted => Falling::new(len).by_size(),
        }
    }
}

// Tests a step of a walk whose item may be refused. After it the walk continues with the items that a plain
// list has then.
fn tried_step<B: Allocator, W: Walk>(
    heap: &Refusing<B>,
    walk: &mut W,
    step: Step,
    is_counted: bool,
    plain: Falling,
) -> Ending {
    let mut plain = plain;
    let wanted = plain.take(step);
    heap.start();
    let found = if is_counted {
        walk.step_counted(step, &mut Tally::new())
    } else {
        walk.step(step)
    };
    heap.allow_all();
    match found {
        Ok(number) => done_if(number == wanted && goes_on(walk, plain)),
        Err(AllocError) => out_of_memory_if(goes_on(walk, plain)),
    }
}

fn tried_last<B: Allocator, W: Walk>(heap: &Refusing<B>, walk: W, plain: Falling) -> Ending {
    let mut plain = plain;
    heap.start();
    match walk.last_step() {
        Ok(number) => done_if(number == plain.take(Step::NextBack)),
        Err(AllocError) => Ending::OutOfMemory,
    }
}

// Tests an item of a walk that was made.
fn tried_walk<B: Allocator, W: Walk, X: Drop>(
    heap: &Refusing<B>,
    made: Result<W, X>,
    how: How,
    plain: Falling,
) -> Ending {
    let Ok(mut walk) = made else {
        return Ending::Wrong;
    };
    match how {
        How::Plain(step) => tried_step(heap, &mut walk, step, false, plain),
        How::Counted(step) => tried_step(heap, &mut walk, step, true, plain),
        How::Last => tried_last(heap, walk, plain),
    }
}

// The same for a walk that borrows symbols.
#[derive(Drop)]
struct Borrowing<'a, B: Allocator> {
    heap: &'a Refusing<B>,
    taking: Taking,
}

impl<B: Allocator, A: Allocator + Copy> Tried<WaveletMatrix<A>> for Borrowing<'_, B> {
    fn tried(&self, list: &WaveletMatrix<A>) -> Ending {
        let how = self.taking.how;
        let plain = self.taking.plain(list.len());
        match self.taking.way {
            Way::Borrowed | Way::Owned => {
                tried_walk(self.heap, Ok::<_, AllocError>(list.iter()), how, plain)
            }
            Way::BorrowedSorted | Way::OwnedSorted => {
                tried_walk(
                    self.heap,
                    Ok::<_, AllocError>(list.iter_sorted()),
                    how,
                    plain,
                )
            }
        }
    }
}

fn tried_taking<B: Allocator, A: Allocator + Copy>(
    heap: &Refusing<B>,
    alloc: A,
    taking: Taking,
    numbers: &[u64],
) -> Ending {
    let how = taking.how;
    let plain = taking.plain(numbers.len());
    match taking.way {
        Way::Owned => tried_walk(heap, walk_over(alloc, numbers), how, plain),
        Way::OwnedSorted => tried_walk(heap, sorted_walk_over(alloc, numbers), how, plain),
        Way::Borrowed | Way::BorrowedSorted => {
            let borrowing = Borrowing { heap, taking };
            tried_on(symbols_of(alloc, numbers, WIDTH), &borrowing)
        }
    }
}

impl Trial<Global> for Taking {
    fn run(self, heap: &Heap, len: usize) -> Ending {
        match falling_numbers(heap, len) {
            Ok(numbers) => tried_taking(heap, heap, self, numbers.as_slice()),
            Err(_) => Ending::Wrong,
        }
    }

    // Only an item that exists is allocated.
    fn takes_memory(self, len: usize) -> bool {
        let mut plain = self.plain(len);
        match self.how {
            How::Plain(step) | How::Counted(step) => plain.take(step).is_some(),
            How::Last => len > 0,
        }
    }
}

// Returns the first length at which an item is wrong.
fn first_wrong_item(alloc: Global) -> Option<(usize, usize)> {
    for way in WAYS {
        for how in HOWS {
            let wrong = first_wrong_trial(alloc, &LENGTHS, &[Taking { way, how }]);
            if wrong.is_some() {
                return wrong;
            }
        }
    }
    None
}

#[test]
fn refused_items_are_passed(rt: HostRuntime) {
    assert!(rt; first_wrong_item(rt.alloc()).is_none());
}
