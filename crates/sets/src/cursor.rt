//! An ascending list as a source.
ghost use Rattle.std.specs.Prelude.{◌≡◌, ℕ, length};
ghost use Rattle.std.specs.List.Sorted.{IsNonDecreasing};
ghost use Rattle.vers_tally.specs.Reads.{AddsAtMost};
ghost use Rattle.vers_sorted.specs.Layout.{element_reads};
ghost use Rattle.vers_sorted.specs.Sorted.{is_element, below, least_not_below};
ghost use Rattle.sets.specs.Steps.{IsStep, PassesOne, Rises};
ghost use Rattle.sets.specs.Sources.{searched_list};

use crate::seek::Seek;
use crate::step::Step;
use std::alloc::Allocator;
use std::marker::Model;
use vers_sorted::elias_fano::{EliasFanoVec, Successors};
use vers_tally::tally::Tally;

/// The elements of an ascending list, as a source. If it is searched for ascending numbers, each search begins at the
/// end of the last one. Contracts see it as the list.
#[derive(Drop)]
pub struct Cursor<'a, A: Allocator + Copy> {
    list: &'a EliasFanoVec<A>,
    successors: Successors<'a, A>,
}

impl<'a, A: Allocator + Copy> Model for Cursor<'a, A> {
    ghost use Rattle.std.specs.Prelude.{◌≡◌, List, ℕ};

    ghost Value = { List ℕ };

    ghost view = { λ cursor. cursor.list.now };

    ghost invariant = { λ cursor. cursor.successors ≡ cursor.list.now };
}

impl<'a, A: Allocator + Copy> Cursor<'a, A> {
    /// Returns a cursor at the first element of a list.
    pub fn new(list: &'a EliasFanoVec<A>) -> Self
        ensures { result ≡ list.now }
    {
        Cursor {
            list,
            successors: Successors::new(list),
        }
    }
}

impl<'a, A: Allocator + Copy> Seek for Cursor<'a, A> {
    ghost set = { λ elements. searched_list elements };

    fn seek_counted(&mut self, at: u64, tally: &mut Tally) -> Step {
        let next = self.successors.successor_counted(at, tally);
        step_to(self.list, next, tally)
    }
}

// Returns the step to an element. The greatest number of 64 bits is the last element, which is read again.
fn step_to<A: Allocator + Copy>(
    list: &EliasFanoVec<A>,
    next: Option<u64>,
    tally: &mut Tally,
) -> Step
    requires { IsNonDecreasing list.now }
    ensures value { (at : ℕ) → next ≡ least_not_below list.now at
        → IsStep (is_element list.now) at result }
    ensures passes { (at : ℕ) → next ≡ least_not_below list.now at
        → PassesOne (below list.now) at result }
    ensures rises { Rises (below list.now) (length list.now) }
    ensures adds { AddsAtMost tally.old tally.new (element_reads list.now) }
{
    let Some(element) = next else {
        return Step::Ended;
    };
    if element < u64::MAX {
        return Step::Found(element);
    }
    let last = list.get_counted(list.len().saturating_sub(1), tally);
    Step::Found(last.unwrap_or(element))
}
