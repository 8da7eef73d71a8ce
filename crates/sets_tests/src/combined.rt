//! Sources of sources, and walks along them.
use crate::shared::{has_elements, listed};
use sets::{AllOf, AnyOf, Both, Cursor, Either, Seek, Step, Walk, Without, collect};
use std::alloc::{AllocError, Allocator, Global};
use test_alloc::{asked, asked_both};
use vers_sorted::elias_fano::EliasFanoVec;
use vers_tally::tally::Tally;

type List = EliasFanoVec<Global>;

// Returns true if a walk takes these numbers and ends, and stays ended.
fn walks<S: Seek>(source: S, wanted: &[u64]) -> bool {
    let mut walk = Walk::new(source);
    for number in wanted {
        if walk.next() != Some(*number) {
            return false;
        }
    }
    walk.next().is_none() && walk.next().is_none()
}

// A source that counts the steps in another one.
#[derive(Drop)]
struct Counted<S: Seek> {
    source: S,
    steps: usize,
}

impl<S: Seek> Seek for Counted<S> {
    ghost set = { λ counted. S.set counted.source };

    fn seek_counted(&mut self, at: u64, tally: &mut Tally) -> Step {
        self.steps = self.steps.saturating_add(1);
        self.source.seek_counted(at, tally)
    }
}

// Returns how many steps a walk takes to the end of a set of fewer than 100 numbers.
fn steps_of<S: Seek>(source: S) -> usize {
    let mut walk = Walk::new(Counted { source, steps: 0 });
    for _ in 0..100 {
        if walk.next().is_none() {
            break;
        }
    }
    walk.source.steps
}

// Returns true if the list of a set has these elements.
fn collects<S: Seek>(alloc: Global, source: S, wanted: &[u64]) -> bool {
    let is_wanted = asked(
        collect(alloc, source),
        |found: &List| has_elements(found, wanted),
    );
    is_wanted == Ok(true)
}

// Returns true if sources of two lists have the numbers of a row.
fn two_are_right(alloc: Global, one: &List, other: &List) -> bool {
    walks(Cursor::new(one), &[1, 3, 5, 7, u64::MAX])
        && walks(
            Both {
                one: Cursor::new(one),
                other: Cursor::new(other),
            },
            &[3, 5, u64::MAX],
        )
        && walks(
            Either {
                one: Cursor::new(one),
                other: Cursor::new(other),
            },
            &[1, 2, 3, 5, 7, 9, u64::MAX],
        )
        && walks(
            Without {
                one: Cursor::new(other),
                other: Cursor::new(one),
            },
            &[2, 9],
        )
        && collects(
            alloc,
            Either {
                one: Without {
                    one: Cursor::new(one),
                    other: Cursor::new(other),
                },
                other: Without {
                    one: Cursor::new(other),
                    other: Cursor::new(one),
                },
            },
            &[1, 2, 7, 9],
        )
}

// Passes two lists to a test of them.
fn with_lists<F: FnOnce(&List, &List) -> bool>(alloc: Global, test: F) -> bool
    requires { F.IsAlwaysCallable test }
{
    let is_right = asked_both(
        listed(alloc, &[1, 3, 5, 5, 7, u64::MAX]),
        listed(alloc, &[2, 3, 3, 5, 9, u64::MAX]),
        test,
    );
    is_right == Ok(true)
}

#[test]
fn sources_of_two_lists(rt: HostRuntime) {
    let alloc = rt.alloc();
    let are_right = with_lists(
        alloc,
        |one: &List, other: &List| two_are_right(alloc, one, other),
    );
    assert!(rt; are_right);
}

// Returns cursors of two lists.
fn cursors<'a, A: Allocator + Copy>(
    alloc: A,
    one: &'a EliasFanoVec<A>,
    other: &'a EliasFanoVec<A>,
) -> Result<Vec<Cursor<'a, A>, A>, AllocError> {
    let mut sources = Vec::new(alloc);
    sources.push(Cursor::new(one))?;
    sources.push(Cursor::new(other))?;
    Ok(sources)
}

// Returns true if a source of many lists has the numbers of a row.
fn many_are_right(alloc: Global, one: &List, other: &List) -> Result<bool, AllocError> {
    let others = cursors(alloc, one, other)?;
    let first = Cursor::new(other);
    let is_right = walks(AllOf { first, others }, &[3, 5, u64::MAX]);
    let others = cursors(alloc, one, other)?;
    let first = Cursor::new(one);
    Ok(is_right && walks(AnyOf { first, others }, &[1, 2, 3, 5, 7, 9, u64::MAX]))
}

#[test]
fn sources_of_many_lists(rt: HostRuntime) {
    let alloc = rt.alloc();
    let are_right = with_lists(
        alloc,
        |one: &List, other: &List| many_are_right(alloc, one, other) == Ok(true),
    );
    assert!(rt; are_right);
}

// Returns true if a cursor finds elements in any order of searches.
fn finds_in_any_order(list: &List) -> bool {
    let mut cursor = Cursor::new(list);
    let rows = [
        (6, Step::Found(7)),
        (0, Step::Found(1)),
        (2, Step::Found(3)),
        (8, Step::Found(u64::MAX)),
        (5, Step::Found(5)),
        (u64::MAX, Step::Found(u64::MAX)),
        (4, Step::Found(5)),
    ];
    for (at, wanted) in rows {
        if cursor.seek_counted(at, &mut Tally::new()) != wanted {
            return false;
        }
    }
    true
}

#[test]
fn searches_back_and_forth(rt: HostRuntime) {
    assert!(rt; with_lists(rt.alloc(), |one: &List, _: &List| finds_in_any_order(one)));
}

#[test]
fn a_walk_takes_a_step_for_each_number_and_one_more(rt: HostRuntime) {
    let is_right = asked(
        listed(rt.alloc(), &[1, 3, 5, 5, 7]),
        |list: &List| steps_of(Cursor::new(list)) == 5,
    );
    assert!(rt; is_right == Ok(true));
}
