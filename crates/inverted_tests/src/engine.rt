//! A search engine over documents whose words are numbers, as docs/USING.md shows it.
ghost use Rattle.std.specs.Prelude.{◌&&◌, not, IfOk};
ghost use Rattle.sets.specs.Sets.{IsSetOf};
ghost use Rattle.vers_sorted.specs.Sorted.{is_element};
ghost use Rattle.inverted.specs.Lists.{list_of};

use crate::shared::is_list;
use inverted::{InvertedError, InvertedIndex, ListOf};
use sets::{Both, Without, collect};
use std::alloc::{AllocError, Global};
use test_alloc::asked;
use vers_sorted::elias_fano::EliasFanoVec;

type Index = InvertedIndex<Global>;

type Pairs = Vec<(u64, u64), Global>;

type Found = Result<EliasFanoVec<Global>, AllocError>;

// Returns the words below a limit with the documents that have them.
fn pairs_of(alloc: Global, documents: &[&[u64]], words: u64) -> Result<Pairs, AllocError> {
    let mut pairs = Vec::new(alloc);
    for word in 0..words {
        for (document, text) in documents.iter().enumerate() {
            if text.contains(&word) {
                pairs.push((word, document as u64))?;
            }
        }
    }
    Ok(pairs)
}

// Returns the index of documents.
fn index_of(alloc: Global, documents: &[&[u64]], words: u64) -> Result<Index, InvertedError> {
    let pairs = pairs_of(alloc, documents, words)?;
    InvertedIndex::from_pairs(alloc, words, documents.len() as u64, pairs.as_slice())
}

// Returns the documents that have two words and not a third.
fn found(alloc: Global, index: &Index, one: u64, other: u64, third: u64) -> Found
    ensures { IfOk result (IsSetOf (λ document. (is_element (list_of index.now one) document
        && is_element (list_of index.now other) document)
        && not (is_element (list_of index.now third) document))) }
{
    let both = Both {
        one: ListOf::new(index, one),
        other: ListOf::new(index, other),
    };
    let source = Without {
        one: both,
        other: ListOf::new(index, third),
    };
    collect(alloc, source)
}

// The words of documents: "the cat sat", "the dog ran", "the cat and the dog", "a cat and a dog ran".
const DOCUMENTS: [&[u64]; 4] = [
    &[0, 1, 2],
    &[0, 3, 4],
    &[0, 1, 5, 0, 3],
    &[6, 1, 5, 6, 3, 4],
];

// Returns true if an index of the documents gives what a reader finds.
fn is_right(alloc: Global, index: &Index) -> bool {
    is_list(found(alloc, index, 1, 3, 4), &[2])
        && is_list(index.intersection(alloc, 1, 3), &[2, 3])
        && is_list(index.union(alloc, 2, 4), &[0, 1, 3])
        && index.count(0) == 3
        && index.next_at_least(4, 2) == Some(3)
}

#[test]
fn documents_by_words(rt: HostRuntime) {
    let alloc = rt.alloc();
    let are_right = asked(
        index_of(alloc, &DOCUMENTS, 7),
        |index: &Index| is_right(alloc, index),
    );
    assert!(rt; are_right == Ok(true));
}
