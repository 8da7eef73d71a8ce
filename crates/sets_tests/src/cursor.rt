//! Steps of a cursor along one list, which rise, stay, and begin again.
use crate::shared::{listed, multiples};
use sets::{Cursor, Seek, Step};
use std::alloc::Global;
use test_alloc::asked;
use vers_sorted::elias_fano::EliasFanoVec;
use vers_tally::tally::Tally;

type List = EliasFanoVec<Global>;

// A number, and the step of a search from it.
type Row = (u64, Step);

// Returns true if a cursor along a list takes these steps in turn.
fn steps(list: &List, rows: &[Row]) -> bool {
    let mut cursor = Cursor::new(list);
    let mut tally = Tally::new();
    for (at, wanted) in rows {
        if cursor.seek_counted(*at, &mut tally) != *wanted {
            return false;
        }
    }
    true
}

// In a list of few elements: each, again, from the last one on, and past the last.
const FEW: [Row; 10] = [
    (0, Step::Found(2)),
    (2, Step::Found(2)),
    (3, Step::Found(4)),
    (4, Step::Found(4)),
    (5, Step::Found(9)),
    (10, Step::Found(u64::MAX)),
    (u64::MAX, Step::Found(u64::MAX)),
    (4, Step::Found(4)),
    (0, Step::Found(2)),
    (9, Step::Found(9)),
];

// In a list of the first 2000 multiples of 3: next elements, elements of the same word of high parts, of later words,
// and of one that isn't read word by word; past the last one, and back.
const MANY: [Row; 12] = [
    (0, Step::Found(0)),
    (1, Step::Found(3)),
    (3, Step::Found(3)),
    (90, Step::Found(90)),
    (91, Step::Found(93)),
    (200, Step::Found(201)),
    (500, Step::Found(501)),
    (5000, Step::Found(5001)),
    (5995, Step::Found(5997)),
    (5998, Step::Ended),
    (6000, Step::Ended),
    (4, Step::Found(6)),
];

#[test]
fn steps_along_few_elements(rt: HostRuntime) {
    let are_right = asked(
        listed(rt.alloc(), &[2, 4, 4, 9, u64::MAX]),
        |list: &List| steps(list, &FEW),
    );
    assert!(rt; are_right == Ok(true));
}

#[test]
fn steps_along_many_elements(rt: HostRuntime) {
    let are_right = asked(
        multiples(rt.alloc(), 2000, 3),
        |list: &List| steps(list, &MANY),
    );
    assert!(rt; are_right == Ok(true));
}

#[test]
fn steps_along_no_element(rt: HostRuntime) {
    let are_right = asked(
        listed(rt.alloc(), &[]),
        |list: &List| steps(
            list,
            &[(0, Step::Ended), (7, Step::Ended), (0, Step::Ended)],
        ),
    );
    assert!(rt; are_right == Ok(true));
}
