//! The calls that allocate, each of their requests refused in turn.
use crate::shared::{combined, counted, has_elements, listed};
use sets::{Cursor, collect};
use std::alloc::{AllocError, Allocator, Global};
use test_alloc::{
    Ending, LENGTHS, Making, OPERATIONS, Operation, Refusing, Trial, evens, first_wrong_trial,
    result_with_half, try_making,
};
use vers_sorted::elias_fano::EliasFanoVec;
use vers_tally::tally::Tally;

type Heap = Refusing<Global>;

// A call that makes a list.
#[derive(Clone, Copy, Drop)]
enum Call {
    Plain(Operation),
    Counted(Operation),
    Collect,
}

// Returns the numbers of the counted form, with a fresh counter.
fn counted_call<A: Allocator + Copy>(
    alloc: A,
    operation: Operation,
    one: &EliasFanoVec<A>,
    other: &EliasFanoVec<A>,
) -> Result<Vec<u64, A>, AllocError> {
    counted(alloc, operation, one, other, &mut Tally::new())
}

// Returns the list of numbers that were found.
fn listed_of<A: Allocator + Copy>(
    alloc: A,
    found: Result<Vec<u64, A>, AllocError>,
) -> Result<EliasFanoVec<A>, AllocError> {
    listed(alloc, found?.as_slice())
}

// A call on two lists, and its result.
#[derive(Drop)]
struct Combining<'a, A: Allocator + Copy> {
    alloc: A,
    call: Call,
    one: &'a EliasFanoVec<A>,
    other: &'a EliasFanoVec<A>,
    wanted: &'a [u64],
}

impl<A: Allocator + Copy> Making for Combining<'_, A> {
    type Made = EliasFanoVec<A>;

    type Fault = AllocError;

    fn make(&self) -> Result<EliasFanoVec<A>, AllocError> {
        match self.call {
            Call::Plain(operation) => combined(self.alloc, operation, self.one, self.other),
            Call::Counted(operation) => {
                listed_of(
                    self.alloc,
                    counted_call(self.alloc, operation, self.one, self.other),
                )
            }
            Call::Collect => collect(self.alloc, Cursor::new(self.one)),
        }
    }

    fn is_right(&self, found: &EliasFanoVec<A>) -> bool {
        has_elements(found, self.wanted)
    }
}

// Returns the elements that a call makes of even numbers and of the second half of these.
fn wanted_of<'a>(call: Call, evens: &'a [u64]) -> &'a [u64] {
    match call {
        Call::Collect => evens,
        Call::Plain(operation) | Call::Counted(operation) => result_with_half(operation, evens),
    }
}

// Tries a call on two lists that were made. The memory of the lists is refused throughout.
fn tried_on<'a>(
    heap: &'a Heap,
    others: &'a Heap,
    call: Call,
    lists: (&EliasFanoVec<&'a Heap>, &EliasFanoVec<&'a Heap>),
    wanted: &[u64],
) -> Ending {
    others.refuse_all();
    let (one, other) = lists;
    let combining = Combining {
        alloc: heap,
        call,
        one,
        other,
        wanted,
    };
    try_making(heap, &combining)
}

// Tries a call on a list, and on another that is made.
fn tried_one<'a>(
    heap: &'a Heap,
    others: &'a Heap,
    call: Call,
    one: &EliasFanoVec<&'a Heap>,
    evens: &[u64],
) -> Ending {
    match listed(others, &evens[evens.len() / 2..]) {
        Ok(other) => tried_on(heap, others, call, (one, &other), wanted_of(call, evens)),
        Err(_) => Ending::Wrong,
    }
}

// Tries a call on two lists that are made.
fn tried<'a>(heap: &'a Heap, others: &'a Heap, call: Call, evens: &[u64]) -> Ending {
    match listed(others, evens) {
        Ok(one) => tried_one(heap, others, call, &one, evens),
        Err(_) => Ending::Wrong,
    }
}

// A call, and the memory of its lists.
#[derive(Clone, Copy, Drop)]
struct CallIn {
    call: Call,
    alloc: Global,
}

impl Trial<Global> for CallIn {
    fn run(self, heap: &Heap, len: usize) -> Ending {
        let others = Refusing::none(self.alloc);
        match evens(self.alloc, len) {
            Ok(numbers) => tried(heap, &others, self.call, numbers.as_slice()),
            Err(_) => Ending::Wrong,
        }
    }

    fn takes_memory(self, _: usize) -> bool {
        true
    }
}

// Returns the first length at which a call is wrong, of all calls.
fn first_wrong(alloc: Global) -> Option<usize> {
    for operation in OPERATIONS {
        let calls = [
            CallIn {
                call: Call::Plain(operation),
                alloc,
            },
            CallIn {
                call: Call::Counted(operation),
                alloc,
            },
            CallIn {
                call: Call::Collect,
                alloc,
            },
        ];
        let wrong = first_wrong_trial(alloc, &LENGTHS, &calls);
        if let Some((len, _)) = wrong {
            return Some(len);
        }
    }
    None
}

#[test]
fn calls_take_memory(rt: HostRuntime) {
    assert!(rt; first_wrong(rt.alloc()).is_none());
}
