//! Saved forms of ascending lists and of sparse lists of bits: by parts, and of the first version.
use crate::levels::{EXTREMES, are_one_form_each, is_one_form, is_read, with_word};
use crate::rows::{fault_of, is_kept};
use crate::stored::{
    EQUAL_ELEMENTS, LISTED_NO_ELEMENTS, LISTED_NO_ONES, LISTED_ONE_ELEMENT, LISTED_SORTED,
    LISTED_SPARSE, LISTED_WIDE, NO_ELEMENTS, NO_ONES, ONE_ELEMENT, SORTED, SPARSE, WIDE_ELEMENTS,
};
use std::alloc::Global;
use vers_saved::fault::LoadError;
use vers_saved::saved::Loaded;
use vers_sorted::elias_fano::EliasFanoVec;
use vers_sorted::sparse::SparseRSVec;

type Elements = EliasFanoVec<Global>;

type Sparse = SparseRSVec<Global>;

#[test]
fn lists_by_parts(rt: HostRuntime) {
    assert!(rt; is_kept::<Elements>(rt.alloc(), &NO_ELEMENTS));
    assert!(rt; is_kept::<Elements>(rt.alloc(), &ONE_ELEMENT));
    assert!(rt; is_kept::<Elements>(rt.alloc(), &EQUAL_ELEMENTS));
    assert!(rt; is_kept::<Elements>(rt.alloc(), &WIDE_ELEMENTS));
    assert!(rt; is_kept::<Sparse>(rt.alloc(), &NO_ONES));
}

#[test]
fn lists_of_the_first_version(rt: HostRuntime) {
    assert!(rt; is_read::<Elements>(rt.alloc(), &LISTED_SORTED, &SORTED));
    assert!(rt; is_read::<Elements>(rt.alloc(), &LISTED_NO_ELEMENTS, &NO_ELEMENTS));
    assert!(rt; is_read::<Elements>(rt.alloc(), &LISTED_ONE_ELEMENT, &ONE_ELEMENT));
    assert!(rt; is_read::<Elements>(rt.alloc(), &LISTED_WIDE, &WIDE_ELEMENTS));
    assert!(rt; is_read::<Sparse>(rt.alloc(), &LISTED_SPARSE, &SPARSE));
    assert!(rt; is_read::<Sparse>(rt.alloc(), &LISTED_NO_ONES, &NO_ONES));
}

#[test]
fn changes_with_right_sums(rt: HostRuntime) {
    assert!(rt; are_one_form_each::<Elements>(rt.alloc(), &SORTED));
    assert!(rt; are_one_form_each::<Elements>(rt.alloc(), &NO_ELEMENTS));
    assert!(rt; are_one_form_each::<Elements>(rt.alloc(), &ONE_ELEMENT));
    assert!(rt; are_one_form_each::<Elements>(rt.alloc(), &EQUAL_ELEMENTS));
    assert!(rt; are_one_form_each::<Elements>(rt.alloc(), &WIDE_ELEMENTS));
    assert!(rt; are_one_form_each::<Sparse>(rt.alloc(), &SPARSE));
    assert!(rt; are_one_form_each::<Sparse>(rt.alloc(), &NO_ONES));
}

/// Returns true if each field of a head, and each of the next `ends` words, is one form at its extremes.
pub fn are_one_form_at_extremes<S: Loaded<Global> + Drop>(
    alloc: Global,
    bytes: &[u8],
    ends: usize,
) -> bool {
    let mut are_right = true;
    for k in 0..ends.wrapping_add(5) {
        for word in EXTREMES {
            // (no elements have the same words in the first version)
            are_right = are_right
                && ((k == 1 && word == 1) || is_one_form::<S>(alloc, bytes, k, word));
        }
    }
    are_right
}

#[test]
fn fields_at_extremes(rt: HostRuntime) {
    assert!(rt; are_one_form_at_extremes::<Elements>(rt.alloc(), &SORTED, 3));
    assert!(rt; are_one_form_at_extremes::<Elements>(rt.alloc(), &NO_ELEMENTS, 3));
    assert!(rt; are_one_form_at_extremes::<Sparse>(rt.alloc(), &SPARSE, 4));
    assert!(rt; are_one_form_at_extremes::<Sparse>(rt.alloc(), &NO_ONES, 4));
}

/// Returns the error of a form with one word replaced, and its sum made right.
pub fn fault_with<S: Loaded<Global> + Drop>(
    alloc: Global,
    bytes: &[u8],
    k: usize,
    word: u64,
) -> Option<LoadError> {
    match with_word(alloc, bytes, k, word) {
        Ok(other) => fault_of::<S, Global>(alloc, other.as_slice()),
        Err(_) => Some(LoadError::Memory),
    }
}

// Words that are no list's: the list 0, 1, 4, 7 has the low parts 0101 and the high parts 011001010.
#[test]
fn words_of_no_list(rt: HostRuntime) {
    let wrong = Some(LoadError::NotAscending);
    for (k, word) in [
        (5, 3),
        (6, 1),
        (7, 6),
        (8, 9),
        (8, 2),
        (8, 26),
        (9, 165),
        (9, 134),
        (9, 422),
        (9, 678),
    ] {
        assert!(rt; fault_with::<Elements>(rt.alloc(), &SORTED, k, word) == wrong);
    }
    assert!(rt; fault_with::<Elements>(rt.alloc(), &SORTED, 1, 3) == Some(LoadError::OtherVersion));
    assert!(rt; fault_with::<Elements>(rt.alloc(), &SORTED, 4, 4) == Some(LoadError::BadLength));
}

// Twelve bits with ones at 1 and 3: a length that isn't above the last one, and equal positions.
#[test]
fn words_of_no_sparse_list(rt: HostRuntime) {
    let wrong = Some(LoadError::NotAscending);
    assert!(rt; fault_with::<Sparse>(rt.alloc(), &SPARSE, 5, 3) == wrong);
    assert!(rt; fault_with::<Sparse>(rt.alloc(), &SPARSE, 5, 4).is_none());
    assert!(rt; fault_with::<Sparse>(rt.alloc(), &SPARSE, 8, 1) == wrong);
}
