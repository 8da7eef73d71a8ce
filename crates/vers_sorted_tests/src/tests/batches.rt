//! Batches of positions and of numbers, compared with written answers and with single calls.
use crate::tests::lists::list_of;
use std::alloc::Allocator;
use std::test::Fail;
use test_alloc::asked;
use vers_sorted::elias_fano::EliasFanoVec;

// The most positions that a batch is tested with.
const MOST: usize = 130;

// Returns true if the elements at some positions of 2, 4, 4 and 9 are these.
fn are_as_written<A: Allocator + Copy>(list: &EliasFanoVec<A>) -> bool {
    let mut elements = [Some(0), None, Some(3), Some(4), Some(u64::MAX), Some(1)];
    list.get_each(&mut elements);
    elements == [Some(2), None, Some(9), None, None, Some(4)]
}

// Returns true if the numbers of elements of 2, 4, 4 and 9 below some numbers are these.
fn are_below_as_written<A: Allocator + Copy>(list: &EliasFanoVec<A>) -> bool {
    let mut numbers = [4, 0, u64::MAX, 5, 9, 10, 2, 3];
    list.rank_each(&mut numbers);
    numbers == [1, 0, 4, 3, 3, 4, 0, 1]
}

// Returns true if the predecessors and successors of some numbers are these.
fn are_beside_as_written<A: Allocator + Copy>(list: &EliasFanoVec<A>) -> bool {
    let asked = [Some(4), None, Some(1), Some(u64::MAX), Some(8), Some(9)];
    let mut before = asked;
    list.predecessor_each(&mut before);
    let mut after = asked;
    list.successor_each(&mut after);
    before == [Some(4), None, None, Some(9), Some(4), Some(9)]
        && after == [Some(4), None, Some(2), None, Some(9), Some(9)]
}

#[test]
fn written_answers(rt: HostRuntime) -> Result<(), Fail> {
    assert!(rt;
        asked(
            list_of(rt.alloc(), &[2, 4, 4, 9]),
            |list| are_as_written(list) && are_below_as_written(list) && are_beside_as_written(list)
        )?
    );
    Ok(())
}

// Returns a position of a batch: every third is none.
fn position_at(i: usize) -> Option<u64> {
    if i % 3 == 2 {
        return None;
    }
    Some((i / 7) as u64)
}

// Returns true if the first `n` of the positions are answered as single calls do, and the others are kept.
fn is_right<A: Allocator + Copy>(list: &EliasFanoVec<A>, n: usize) -> bool {
    let mut elements = [None; MOST];
    for (i, element) in elements.iter_mut().enumerate() {
        *element = position_at(i);
    }
    if n <= MOST {
        list.get_each(&mut elements[..n]);
    }
    elements.iter().enumerate().all(|(i, element)| {
        let position = position_at(i);
        if i < n && position.is_some() {
            *element == list.get(i / 7)
        } else {
            *element == position
        }
    })
}

// Returns true if `n` positions from one on, with the one in the middle replaced, are answered as single calls do.
fn is_run_right<A: Allocator + Copy>(
    list: &EliasFanoVec<A>,
    first: u64,
    n: usize,
    middle: Option<u64>,
) -> bool {
    let mut positions = [None; MOST];
    for (i, position) in positions.iter_mut().enumerate() {
        *position = Some(first.wrapping_add(i as u64));
    }
    if n > 2 && n <= MOST {
        positions[n / 2] = middle;
    }
    let mut elements = positions;
    if n <= MOST {
        list.get_each(&mut elements[..n]);
    }
    elements.iter().zip(&positions).enumerate().all(|(i, (element, position))| match position {
        Some(position) if i < n => *element == list.get(*position as usize),
        _ => *element == *position,
    })
}

// Returns true if runs of positions are answered as single calls do, from the first one, from a later one, past the
// end and around the greatest number; with a position in the middle that is no next one.
fn are_runs_right<A: Allocator + Copy>(list: &EliasFanoVec<A>) -> bool {
    [0, 2, 7, u64::MAX - 5].iter().all(|first| {
        [1, 2, 12, 64, 65, 130].iter().all(|n| {
            is_run_right(list, *first, *n, Some(first.wrapping_add((*n / 2) as u64)))
                && is_run_right(list, *first, *n, Some(1))
                && is_run_right(list, *first, *n, None)
        })
    })
}

// Returns number `i` of a batch: below, among and above the elements, in no order.
fn number_at(i: usize) -> u64 {
    (i as u64).wrapping_mul(389) % 1000
}

// Returns true if the first `n` of the numbers are ranked as single calls do, and the others are kept.
fn is_ranked<A: Allocator + Copy>(list: &EliasFanoVec<A>, n: usize) -> bool {
    let mut numbers = [0; MOST];
    for (i, number) in numbers.iter_mut().enumerate() {
        *number = number_at(i);
    }
    if n <= MOST {
        list.rank_each(&mut numbers[..n]);
    }
    numbers.iter().enumerate().all(|(i, number)| {
        let asked = number_at(i);
        *number == if i < n { list.rank(asked) } else { asked }
    })
}

// Returns value `i` of a batch of neighbours: every fifth is none.
fn value_at(i: usize) -> Option<u64> {
    if i % 5 == 3 {
        return None;
    }
    Some(number_at(i))
}

// Returns true if the first `n` of the values are answered as single calls do, and the others are kept.
fn are_beside<A: Allocator + Copy>(list: &EliasFanoVec<A>, n: usize) -> bool {
    let mut before = [None; MOST];
    for (i, value) in before.iter_mut().enumerate() {
        *value = value_at(i);
    }
    let mut after = before;
    if n <= MOST {
        list.predecessor_each(&mut before[..n]);
        list.successor_each(&mut after[..n]);
    }
    before.iter().zip(&after).enumerate().all(|(i, (one, other))| {
        let value = value_at(i);
        if i < n && value.is_some() {
            *one == list.predecessor(number_at(i)) && *other == list.successor(number_at(i))
        } else {
            *one == value && *other == value
        }
    })
}

// Returns true if that holds for batches of few and of many positions, ending with a group and elsewhere.
fn are_right<A: Allocator + Copy>(list: &EliasFanoVec<A>) -> bool {
    [0, 1, 63, 64, 65, 128, 130].iter().all(|n| is_right(list, *n)
        && is_ranked(list, *n)
        && are_beside(list, *n))
}

#[test]
fn batches_of_every_length(rt: HostRuntime) -> Result<(), Fail> {
    let elements = [3, 3, 8, 20, 21, 22, 300, 301, 500, 900, 901, 902, 903];
    assert!(rt; asked(list_of(rt.alloc(), &elements), |list| are_right(list))?);
    assert!(rt; asked(list_of(rt.alloc(), &[]), |list| are_right(list))?);
    Ok(())
}

// More elements with one high part than a word has bits, and equal ones among them.
#[test]
fn batches_of_crowded_elements(rt: HostRuntime) -> Result<(), Fail> {
    let mut elements = [500; 100];
    elements[0] = 1;
    elements[98] = 501;
    elements[99] = u64::MAX;
    assert!(rt; asked(list_of(rt.alloc(), &elements), |list| are_right(list))?);
    assert!(rt; asked(list_of(rt.alloc(), &elements), |list| are_runs_right(list))?);
    Ok(())
}

#[test]
fn runs_of_positions(rt: HostRuntime) -> Result<(), Fail> {
    let elements = [3, 3, 8, 20, 21, 22, 300, 301, 500, 900, 901, 902, 903];
    assert!(rt; asked(list_of(rt.alloc(), &elements), |list| are_runs_right(list))?);
    assert!(rt; asked(list_of(rt.alloc(), &[]), |list| are_runs_right(list))?);
    Ok(())
}
