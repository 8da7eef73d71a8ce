//! What the constructors make.
use crate::tests::assert_none_wrong;
use crate::tests::makers::{Items, Maker, make};
use crate::tests::queries::{Query, first_wrong_answer};
use std::alloc::{AllocError, Global};
use vers_bits::bit_vec::{BitVec, GrowError};

// Two items of ten bits each.
const TENS: &[(Query, Option<u64>)] = &[
    (Query::Len, Some(20)),
    (Query::GetBits(0, 10), Some(7)),
    (Query::GetBits(10, 10), Some(255)),
    (Query::UnpackElement(0, 10), Some(7)),
    (Query::UnpackElement(1, 10), Some(255)),
    (Query::UnpackElement(2, 10), None),
    (Query::UnpackElement(9223372036854775808, 2), None),
    (Query::GetBits(usize::MAX, 2), None),
    (Query::UnpackElement(0, 0), None),
    (Query::UnpackElementUnchecked(1, 10), Some(255)),
    (Query::IsBitSetUnchecked(2), Some(1)),
    (Query::GetUnchecked(3), Some(0)),
    (Query::GetBitsUnchecked(8, 4), Some(12)),
    (Query::GetBitsUnchecked(20, 0), Some(0)),
];

// The bits 01.
const ZERO_ONE: &[(Query, Option<u64>)] = &[
    (Query::Len, Some(2)),
    (Query::Get(0), Some(0)),
    (Query::Get(1), Some(1)),
];

// Two limbs.
const LIMBS: &[(Query, Option<u64>)] = &[
    (Query::Len, Some(128)),
    (Query::GetBits(0, 64), Some(5)),
    (Query::GetBits(64, 64), Some(u64::MAX)),
];

// Constructors, their items, queries and their answers.
const CASES: [(&[Maker], &[u64], &[(Query, Option<u64>)]); 9] = [
    (
        &[Maker::FromLimbs, Maker::FromLimbsIter],
        &[5, u64::MAX],
        LIMBS,
    ),
    (
        &[
            Maker::FromBools,
            Maker::FromBoolIter,
            Maker::FromBits,
            Maker::FromBitsU16,
            Maker::FromBitsU32,
            Maker::FromBitsIter,
        ],
        &[2, 3],
        ZERO_ONE,
    ),
    (&[Maker::FromBitsU64], &[2, u64::MAX], ZERO_ONE),
    (
        &[
            Maker::PackU8(10),
            Maker::PackU16(10),
            Maker::PackU32(10),
            Maker::PackU64(10),
            Maker::PackIterU8(10),
            Maker::PackIterU16(10),
            Maker::PackIterU32(10),
            Maker::PackIterU64(10),
        ],
        &[7, 255],
        TENS,
    ),
    (
        &[Maker::PackU64(3)],
        &[7, 9],
        &[(Query::Len, Some(6)), (Query::GetBits(0, 6), Some(15))],
    ),
    (&[Maker::PackU64(0)], &[7, 9], &[(Query::IsEmpty, Some(1))]),
    (
        &[Maker::PackU64(100)],
        &[u64::MAX, 1],
        &[
            (Query::Len, Some(200)),
            (Query::GetBits(0, 64), Some(u64::MAX)),
            (Query::GetBits(64, 36), Some(0)),
            (Query::GetBits(100, 64), Some(1)),
            (Query::GetBits(164, 36), Some(0)),
        ],
    ),
    (
        &[Maker::FromLimbs],
        &[1, 3],
        &[
            (Query::Len, Some(128)),
            (Query::Limb(1), Some(3)),
            (Query::CountOnes, Some(3)),
            (Query::GetBits(60, 6), Some(48)),
            (Query::GetBits(60, 0), None),
            (Query::GetBits(usize::MAX, 2), None),
        ],
    ),
    (
        &[Maker::FromBits],
        &[1, 1, 1, 1, 1, 1, 1, 1, 1, 1],
        &[
            (Query::UnpackElement(9223372036854775808, 2), None),
            (Query::GetBits(usize::MAX, 2), None),
            (Query::GetBits(8, 3), None),
            (Query::GetBits(8, 2), Some(3)),
        ],
    ),
];

// A constructor, a length, queries and their answers.
const OF_LENGTH: [(Maker, usize, &[(Query, Option<u64>)]); 4] = [
    (
        Maker::FromZeros,
        70,
        &[
            (Query::Len, Some(70)),
            (Query::CountOnes, Some(0)),
            (Query::CountZeros, Some(70)),
            (Query::HeapSize, Some(16)),
        ],
    ),
    (
        Maker::FromOnes,
        70,
        &[
            (Query::Len, Some(70)),
            (Query::CountOnes, Some(70)),
            (Query::CountZeros, Some(0)),
            (Query::GetBits(64, 6), Some(63)),
        ],
    ),
    (
        Maker::FromOnes,
        10,
        &[
            (Query::UnpackElement(9223372036854775808, 2), None),
            (Query::GetBits(usize::MAX, 2), None),
            (Query::GetBits(8, 3), None),
            (Query::GetBits(8, 2), Some(3)),
        ],
    ),
    (
        Maker::WithCapacity,
        1000,
        &[(Query::IsEmpty, Some(1)), (Query::HeapSize, Some(0))],
    ),
];

// Returns the row of the first wrong answer of a list, or the number of rows if it was not made.
fn wrong_answer(
    made: Result<BitVec<Global>, GrowError>,
    rows: &[(Query, Option<u64>)],
) -> Option<usize> {
    match made {
        Ok(list) => first_wrong_answer(&list, rows),
        Err(_) => Some(rows.len()),
    }
}

// Does the same for a list that a constructor makes of items.
fn wrong_answer_of_items(
    maker: Maker,
    items: &Items<Global>,
    rows: &[(Query, Option<u64>)],
) -> Option<usize> {
    wrong_answer(make(items.allocator(), maker, items), rows)
}

// Does the same for items that were made.
fn wrong_answer_of(
    maker: Maker,
    made: Result<Items<Global>, AllocError>,
    rows: &[(Query, Option<u64>)],
) -> Option<usize> {
    match made {
        Ok(items) => wrong_answer_of_items(maker, &items, rows),
        Err(_) => Some(rows.len()),
    }
}

// Does the same for the first of some constructors that makes a wrong list.
fn wrong_answer_of_any(
    alloc: Global,
    makers: &[Maker],
    numbers: &[u64],
    rows: &[(Query, Option<u64>)],
) -> Option<usize> {
    for maker in makers {
        let items = Items::of_numbers(alloc, numbers);
        if let Some(row) = wrong_answer_of(*maker, items, rows) {
            return Some(row);
        }
    }
    None
}

// Returns the first case with a wrong answer, and its row.
fn first_wrong_case(alloc: Global) -> Option<(usize, usize)> {
    for (case, (makers, numbers, rows)) in CASES.iter().enumerate() {
        if let Some(row) = wrong_answer_of_any(alloc, makers, numbers, rows) {
            return Some((case, row));
        }
    }
    None
}

// Does the same for lists of a length.
fn first_wrong_length(alloc: Global) -> Option<(usize, usize)> {
    for (case, (maker, len, rows)) in OF_LENGTH.iter().enumerate() {
        if let Some(row) = wrong_answer_of(*maker, Items::of_pattern(alloc, *len), rows) {
            return Some((case, row));
        }
    }
    None
}

#[test]
fn makers_make_the_bits_of_items(rt: HostRuntime) {
    assert_none_wrong(&rt, first_wrong_case(rt.alloc()));
    assert_none_wrong(&rt, first_wrong_length(rt.alloc()));
}

// Returns the first wrong answer of a list made of a vector of limbs.
fn wrong_of_vector(made: Result<Vec<u64, Global>, AllocError>) -> Option<usize> {
    match made {
        Ok(limbs) => wrong_answer(BitVec::from_vec(limbs), LIMBS),
        Err(_) => Some(LIMBS.len()),
    }
}

#[test]
fn a_vector_of_limbs_makes_64_bits_each(rt: HostRuntime) {
    let limbs = Vec::from_slice(rt.alloc(), &[5, u64::MAX]);
    assert_eq!(rt; wrong_of_vector(limbs), None, "a row");
}

// Returns the error of each constructor for too many bits.
fn faults_of_too_long(alloc: Global) -> [Option<GrowError>; 5] {
    [
        BitVec::from_zeros(alloc, usize::MAX).err(),
        BitVec::from_ones(alloc, usize::MAX).err(),
        BitVec::with_capacity(alloc, usize::MAX).err(),
        BitVec::pack_sequence_u8(alloc, &[1, 2], usize::MAX).err(),
        BitVec::pack_from_iter_u8(alloc, [1, 2].iter().copied(), usize::MAX).err(),
    ]
}

#[test]
fn a_list_past_the_greatest_length_is_too_long(rt: HostRuntime) {
    assert_eq!(rt;
        faults_of_too_long(rt.alloc()),
        [Some(GrowError::TooLong); 5]
    );
}
