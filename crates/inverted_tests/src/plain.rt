//! Indexes compared with a plain model, which tests each pair.
use crate::shared::{Answers, combined, has_elements, has_list, is_answered, is_list, numbered};
use inverted::InvertedIndex;
use std::alloc::{AllocError, Allocator, Global};
use test_alloc::{OPERATIONS, Operation, asked, is_in_result};

type Index = InvertedIndex<Global>;

// A plain index: pairs of ascending terms and documents, and their limits.
#[derive(Clone, Copy, Drop)]
struct Plain<'a> {
    terms: u64,
    universe: u64,
    pairs: &'a [(u64, u64)],
}

// Returns true if a term has a document.
fn has(plain: Plain<'_>, term: u64, document: u64) -> bool {
    plain
        .pairs
        .iter()
        .any(|pair| pair.0 == term && pair.1 == document)
}

// Returns the documents of a term.
fn documents<A: Allocator + Copy>(
    alloc: A,
    plain: Plain<'_>,
    term: u64,
) -> Result<Vec<u64, A>, AllocError> {
    let mut found = Vec::new(alloc);
    for pair in plain.pairs {
        if pair.0 == term {
            found.push(pair.1)?;
        }
    }
    Ok(found)
}

// Returns the answers of a number in ascending documents.
fn plain_answers(documents: &[u64], document: u64) -> Answers {
    let below = documents.partition_point(|other| *other < document);
    let next = documents.get(below).copied();
    Answers {
        contains: next == Some(document),
        rank: below as u64,
        next,
    }
}

// Returns true if the iterator over the documents of a term gives these and ends.
fn are_walked(index: &Index, term: u64, wanted: &[u64]) -> bool {
    let mut documents = index.documents(term);
    for document in wanted {
        if documents.next() != Some(*document) {
            return false;
        }
    }
    documents.next().is_none()
}

// Returns true if the queries of a term are right, of all numbers up to past its limit.
fn is_term_right(
    alloc: Global,
    index: &Index,
    plain: Plain<'_>,
    term: u64,
) -> Result<bool, AllocError> {
    let wanted = documents(alloc, plain, term)?;
    let wanted = wanted.as_slice();
    for document in 0..plain.universe.saturating_add(2) {
        if !is_answered(index, term, document, plain_answers(wanted, document)) {
            return Ok(false);
        }
    }
    Ok(has_list(index, term, wanted) && are_walked(index, term, wanted))
}

// Returns true if a document is in the result of an operation.
fn is_in(operation: Operation, plain: Plain<'_>, one: u64, other: u64, document: u64) -> bool {
    let (one, other) = (has(plain, one, document), has(plain, other, document));
    is_in_result(operation, one, other)
}

// Returns true if an operation on two terms is right.
fn is_combined(
    alloc: Global,
    index: &Index,
    plain: Plain<'_>,
    operation: Operation,
    one: u64,
    other: u64,
) -> Result<bool, AllocError> {
    let mut wanted = Vec::new(alloc);
    for document in 0..plain.universe {
        if is_in(operation, plain, one, other, document) {
            wanted.push(document)?;
        }
    }
    Ok(is_list(
        combined(alloc, operation, index, one, other),
        wanted.as_slice(),
    ))
}

// Returns true if all queries and operations of an index are right, of each term and one that it doesn't have.
fn is_right(alloc: Global, index: &Index, plain: Plain<'_>) -> Result<bool, AllocError> {
    for one in 0..plain.terms.saturating_add(1) {
        if !is_term_right(alloc, index, plain, one)? {
            return Ok(false);
        }
        for operation in OPERATIONS {
            let other = plain.terms.wrapping_sub(one);
            if !is_combined(alloc, index, plain, operation, one, other)? {
                return Ok(false);
            }
        }
    }
    Ok(true)
}

// Returns the numbers of the pairs.
fn numbers<A: Allocator + Copy>(alloc: A, plain: Plain<'_>) -> Result<Vec<u64, A>, AllocError> {
    let mut numbers = Vec::new(alloc);
    for (term, document) in plain.pairs {
        numbers.push(term.wrapping_mul(plain.universe).wrapping_add(*document))?;
    }
    Ok(numbers)
}

// Returns true if an index is right, and has these numbers, of which it is made again.
fn is_right_again(alloc: Global, index: &Index, plain: Plain<'_>, numbers: &[u64]) -> bool {
    let is_again = asked(
        numbered(alloc, plain.terms, plain.universe, numbers),
        |index: &Index| is_right(alloc, index, plain) == Ok(true),
    );
    is_again == Ok(true)
        && has_elements(index.pair_numbers(), numbers)
        && is_right(alloc, index, plain) == Ok(true)
}

// Returns true if the index of a plain one is made, from its pairs and from its numbers, and is right.
fn is_made_right(alloc: Global, plain: Plain<'_>) -> Result<bool, AllocError> {
    let numbers = numbers(alloc, plain)?;
    let is_wanted = asked(
        InvertedIndex::from_pairs(alloc, plain.terms, plain.universe, plain.pairs),
        |index: &Index| is_right_again(alloc, index, plain, numbers.as_slice()),
    );
    Ok(is_wanted == Ok(true))
}

// Returns those of 12 pairs of 3 terms and 4 documents that a number's bits choose.
fn chosen_of<A: Allocator + Copy>(alloc: A, chosen: u64) -> Result<Vec<(u64, u64), A>, AllocError> {
    let mut pairs = Vec::new(alloc);
    for term in 0..3u64 {
        for document in 0..4u64 {
            if (chosen >> (4 * term + document)) & 1 == 1 {
                pairs.push((term, document))?;
            }
        }
    }
    Ok(pairs)
}

// Returns the first choice of pairs for which an index is wrong.
fn wrong_choice(alloc: Global) -> Result<Option<u64>, AllocError> {
    for chosen in 0..4096 {
        let pairs = chosen_of(alloc, chosen)?;
        let plain = Plain {
            terms: 3,
            universe: 4,
            pairs: pairs.as_slice(),
        };
        if !is_made_right(alloc, plain)? {
            return Ok(Some(chosen));
        }
    }
    Ok(None)
}

#[test]
fn all_indexes_of_twelve_pairs(rt: HostRuntime) {
    assert!(rt; wrong_choice(rt.alloc()) == Ok(None));
}

// Returns pseudorandom pairs of `terms` terms and documents below `universe`: about one of `gap` of all pairs.
fn scattered<A: Allocator + Copy>(
    alloc: A,
    terms: u64,
    universe: u64,
    gap: u64,
) -> Result<Vec<(u64, u64), A>, AllocError> {
    let mut pairs = Vec::new(alloc);
    let mut state = gap;
    for term in 0..terms {
        for document in 0..universe {
            state = state
                .wrapping_mul(6364136223846793005)
                .wrapping_add(1442695040888963407);
            if (state >> 33).checked_rem(gap) == Some(0) {
                pairs.push((term, document))?;
            }
        }
    }
    Ok(pairs)
}

// The number of terms, the limit of documents, and the gap.
const SCATTERED: [(u64, u64, u64); 5] = [
    (1, 300, 2),
    (9, 200, 1),
    (20, 150, 3),
    (60, 90, 40),
    (5, 2, 2),
];

// Returns the first row for which an index is wrong.
fn wrong_row(alloc: Global) -> Result<Option<usize>, AllocError> {
    for (row, (terms, universe, gap)) in SCATTERED.iter().enumerate() {
        let pairs = scattered(alloc, *terms, *universe, *gap)?;
        let plain = Plain {
            terms: *terms,
            universe: *universe,
            pairs: pairs.as_slice(),
        };
        if !is_made_right(alloc, plain)? {
            return Ok(Some(row));
        }
    }
    Ok(None)
}

#[test]
fn dense_and_sparse_terms(rt: HostRuntime) {
    assert!(rt; wrong_row(rt.alloc()) == Ok(None));
}
