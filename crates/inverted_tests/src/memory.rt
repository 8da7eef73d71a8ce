//! The calls that allocate, each of their requests refused in turn.
use crate::shared::{Answers, combined, has_elements, has_list, is_answered, listed};
use inverted::{InvertedError, InvertedIndex, ListOf};
use sets::Walk;
use std::alloc::{AllocError, Allocator, Global};
use test_alloc::{
    Check, Conversion, Ending, LENGTHS, Making, OPERATIONS, Operation, Refusing, Trial, evens,
    first_wrong_trial, result_with_half, try_clone_checked, try_conversion, try_making,
    try_use_checked,
};
use vers_sorted::elias_fano::EliasFanoVec;

type Heap = Refusing<Global>;

// Returns pairs of terms 0 and 2: the first `n` even documents, and the second half of these.
fn pairs_of<A: Allocator + Copy>(alloc: A, n: usize) -> Result<Vec<(u64, u64), A>, AllocError> {
    let mut pairs = Vec::new(alloc);
    for k in 0..n as u64 {
        pairs.push((0, k.wrapping_mul(2)))?;
    }
    for k in n as u64 / 2..n as u64 {
        pairs.push((2, k.wrapping_mul(2)))?;
    }
    Ok(pairs)
}

// The limit of documents.
const UNIVERSE: u64 = 1 << 40;

// The index of pairs.
#[derive(Drop)]
struct Indexing<'a, A: Allocator + Copy> {
    alloc: A,
    pairs: &'a [(u64, u64)],
    documents: &'a [u64],
}

// The documents of terms 0 and 2 that an index must have.
#[derive(Clone, Copy, Drop)]
struct Wanted<'a> {
    documents: &'a [u64],
}

// Returns true if an index has the documents, which queries and a walk find.
fn is_index<A: Allocator + Copy>(index: &InvertedIndex<A>, documents: &[u64]) -> bool {
    let half = documents.len() / 2;
    let mut walk = Walk::new(ListOf::new(index, 2));
    let mut left = index.documents(2);
    for document in &documents[half..] {
        if walk.next() != Some(*document) || left.next() != Some(*document) {
            return false;
        }
    }
    let none = Answers {
        contains: false,
        rank: 0,
        next: None,
    };
    walk.next().is_none()
        && left.next().is_none()
        && has_list(index, 0, documents)
        && has_list(index, 2, &documents[half..])
        && is_answered(index, 1, 0, none)
}

impl<'a, A: Allocator + Copy> Check<InvertedIndex<A>> for Wanted<'a> {
    fn is_right(&self, it: &mut InvertedIndex<A>) -> bool {
        is_index(it, self.documents)
    }
}

impl<'a, A: Allocator + Copy> Making for Indexing<'a, A> {
    type Made = InvertedIndex<A>;

    type Fault = InvertedError;

    fn make(&self) -> Result<InvertedIndex<A>, InvertedError> {
        InvertedIndex::from_pairs(self.alloc, 3, UNIVERSE, self.pairs)
    }

    fn is_right(&self, index: &InvertedIndex<A>) -> bool {
        is_index(index, self.documents)
    }
}

// Returns the numbers of pairs.
fn numbers<A: Allocator + Copy>(alloc: A, pairs: &[(u64, u64)]) -> Result<Vec<u64, A>, AllocError> {
    let mut numbers = Vec::new(alloc);
    for pair in pairs {
        numbers.push(pair.0.wrapping_mul(UNIVERSE).wrapping_add(pair.1))?;
    }
    Ok(numbers)
}

// Makes an index from the list of its numbers.
impl<'a, A: Allocator + Copy> Conversion<EliasFanoVec<A>> for Wanted<'a> {
    type Made = InvertedIndex<A>;

    type Refused = InvertedError;

    fn convert(&self, list: EliasFanoVec<A>) -> Result<InvertedIndex<A>, InvertedError> {
        InvertedIndex::from_numbers(3, UNIVERSE, list)
    }

    fn is_right(&self, index: &InvertedIndex<A>) -> bool {
        is_index(index, self.documents)
    }

    fn is_kept(&self, refused: InvertedError) -> bool {
        refused == InvertedError::Memory
    }
}

// An operation on terms 0 and 2, and its result.
#[derive(Drop)]
struct Combining<'a, A: Allocator + Copy> {
    alloc: A,
    operation: Operation,
    index: &'a InvertedIndex<A>,
    wanted: &'a [u64],
}

impl<'a, A: Allocator + Copy> Making for Combining<'a, A> {
    type Made = EliasFanoVec<A>;

    type Fault = AllocError;

    fn make(&self) -> Result<EliasFanoVec<A>, AllocError> {
        combined(self.alloc, self.operation, self.index, 0, 2)
    }

    fn is_right(&self, found: &EliasFanoVec<A>) -> bool {
        has_elements(found, self.wanted)
    }
}

// A call that is tried.
#[derive(Clone, Copy, Drop)]
enum Call {
    Make,
    FromNumbers,
    Clone,
    Query,
    Combine(Operation),
}

// Tries an operation on an index that is made. The memory of the index is refused throughout.
fn tried_operation<'a>(
    heap: &'a Heap,
    others: &'a Heap,
    operation: Operation,
    index: &InvertedIndex<&'a Heap>,
    documents: &[u64],
) -> Ending {
    others.refuse_all();
    let combining = Combining {
        alloc: heap,
        operation,
        index,
        wanted: result_with_half(operation, documents),
    };
    try_making(heap, &combining)
}

// Tries an operation on an index.
fn tried_on<'a>(
    heap: &'a Heap,
    others: &'a Heap,
    operation: Operation,
    pairs: &[(u64, u64)],
    documents: &[u64],
) -> Ending {
    match InvertedIndex::from_pairs(others, 3, UNIVERSE, pairs) {
        Ok(index) => tried_operation(heap, others, operation, &index, documents),
        Err(_) => Ending::Wrong,
    }
}

// Tries to make an index from the list of the numbers of pairs.
fn tried_numbers(
    heap: &Heap,
    alloc: Global,
    pairs: &[(u64, u64)],
    wanted: &Wanted<'_>,
) -> Result<Ending, AllocError> {
    let numbers = numbers(alloc, pairs)?;
    Ok(try_conversion(heap, listed(heap, numbers.as_slice()), wanted))
}

// Tries a call on pairs and the documents of term 0.
fn tried(
    heap: &Heap,
    alloc: Global,
    call: Call,
    pairs: &[(u64, u64)],
    documents: &[u64],
) -> Ending {
    let wanted = Wanted { documents };
    match call {
        Call::Make => {
            let indexing = Indexing {
                alloc: heap,
                pairs,
                documents,
            };
            try_making(heap, &indexing)
        }
        Call::FromNumbers => { tried_numbers(heap, alloc, pairs, &wanted).unwrap_or(Ending::Wrong) }
        Call::Clone => {
            try_clone_checked(
                heap,
                InvertedIndex::from_pairs(heap, 3, UNIVERSE, pairs),
                &wanted,
            )
        }
        Call::Query => {
            try_use_checked(
                heap,
                InvertedIndex::from_pairs(heap, 3, UNIVERSE, pairs),
                &wanted,
            )
        }
        Call::Combine(operation) => {
            tried_on(heap, &Refusing::none(alloc), operation, pairs, documents)
        }
    }
}

// Tries a call on the first `len` even documents.
fn tried_at(heap: &Heap, alloc: Global, call: Call, len: usize) -> Result<Ending, AllocError> {
    let pairs = pairs_of(alloc, len)?;
    let documents = evens(alloc, len)?;
    Ok(tried(heap, alloc, call, pairs.as_slice(), documents.as_slice()))
}

// A call, and the memory of what it needs.
#[derive(Clone, Copy, Drop)]
struct CallIn {
    call: Call,
    alloc: Global,
}

impl Trial<Global> for CallIn {
    fn run(self, heap: &Heap, len: usize) -> Ending {
        tried_at(heap, self.alloc, self.call, len).unwrap_or(Ending::Wrong)
    }

    fn takes_memory(self, _: usize) -> bool {
        !matches!(self.call, Call::FromNumbers | Call::Query)
    }
}

// Returns the first length at which making, cloning or querying is wrong, and the number of the call.
fn first_wrong(alloc: Global) -> Option<(usize, usize)> {
    let calls = [
        CallIn {
            call: Call::Make,
            alloc,
        },
        CallIn {
            call: Call::FromNumbers,
            alloc,
        },
        CallIn {
            call: Call::Clone,
            alloc,
        },
        CallIn {
            call: Call::Query,
            alloc,
        },
    ];
    first_wrong_trial(alloc, &LENGTHS, &calls)
}

#[test]
fn indexes_take_memory(rt: HostRuntime) {
    assert!(rt; InvertedError::from(AllocError) == InvertedError::Memory);
    assert!(rt; first_wrong(rt.alloc()).is_none());
}

// Returns the first length at which an operation is wrong.
fn first_wrong_operation(alloc: Global) -> Option<usize> {
    for operation in OPERATIONS {
        let calls = [CallIn {
            call: Call::Combine(operation),
            alloc,
        }];
        let wrong = first_wrong_trial(alloc, &LENGTHS, &calls);
        if let Some((len, _)) = wrong {
            return Some(len);
        }
    }
    None
}

#[test]
fn operations_take_memory(rt: HostRuntime) {
    assert!(rt; first_wrong_operation(rt.alloc()).is_none());
}
