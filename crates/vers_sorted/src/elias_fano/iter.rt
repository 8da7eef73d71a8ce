//! Iterators over the elements of an ascending list.
ghost use Rattle.std.specs.Prelude.{◌≡◌, ℕ, List, option_and_then, slice_get};
ghost use Rattle.std.specs.List.Sorted.{IsNonDecreasing};
ghost use Rattle.vers_tally.specs.Reads.{AddsAtMost};
ghost use Rattle.vers_sorted.specs.Layout.{element_reads};

use super::EliasFanoVec;
use super::ahead::Ahead;
use std::alloc::{AllocError, Allocator};
use std::marker::Model;
use vers_tally::ends::{Ascending, Borrowing, BothEnds, Owning, Source};
use vers_tally::tally::Tally;

/// An ascending list, borrowed or owned.
pub trait Sorted: Drop {
    type Alloc: Allocator + Copy;

    ghost elements: { Self → List ℕ };

    /// Returns the list itself.
    fn list(&self) -> &EliasFanoVec<Self::Alloc>
        ensures { result.now ≡ elements self.now };
}

impl<'a, A: Allocator + Copy> Sorted for &'a EliasFanoVec<A> {
    type Alloc = A;

    ghost elements = { λ list. list.now };

    #[inline]
    fn list(&self) -> &EliasFanoVec<A> {
        *self
    }
}

impl<A: Allocator + Copy> Sorted for EliasFanoVec<A> {
    type Alloc = A;

    ghost elements = { λ list. list };

    #[inline]
    fn list(&self) -> &EliasFanoVec<A> {
        self
    }
}

/// The elements of an ascending list, which iterators read one by one. It keeps the bits that it has read: those from
/// element `next` on, for a walk from the front, and those before element `end`, for one from the back.
#[derive(Drop)]
pub struct Elements<L: Sorted> {
    list: L,
    next: usize,
    ahead: Ahead,
    end: usize,
    behind: Ahead,
}

impl<L: Sorted> Model for Elements<L> {
    ghost use Rattle.std.specs.Prelude.{List, ℕ};
    ghost use Rattle.vers_sorted.specs.inside.Ahead.{IsAhead, IsBehind};

    ghost Value = { List ℕ };

    ghost view = { λ s. L.elements s.list };

    ghost invariant = { λ s. IsAhead (L.elements s.list) s.next s.ahead
        × IsBehind (L.elements s.list) s.end s.behind };
}

impl<L: Sorted> Elements<L> {
    // Returns the elements of a list, of which nothing is read ahead.
    pub(super) fn new(list: L) -> Self
        ensures { result ≡ L.elements list }
    {
        Elements {
            list,
            next: 0,
            ahead: Ahead::none(),
            end: 0,
            behind: Ahead::none(),
        }
    }

    // Returns the element at a position, if there is one. It is read fastest at the position after the last one.
    #[inline(always)]
    pub(super) fn element_of(&mut self, position: Option<u64>, tally: &mut Tally) -> Option<u64>
        ensures value { result ≡ option_and_then (slice_get self.old) position }
        ensures same { self.new ≡ self.old }
        ensures adds { AddsAtMost tally.old tally.new (element_reads self.old) }
    {
        let i = position? as usize;
        if i >= self.count_items() {
            return None;
        }
        Some(self.item_at(i, tally))
    }
}

#[tactic(auto, using(crate::proofs::BothEnds::elements))]
impl<L: Sorted> Source for Elements<L> {
    type Item = u64;

    ghost items = { λ elements. elements };

    ghost step = { λ elements. element_reads elements };

    ghost in_order = { IsNonDecreasing };

    #[inline]
    fn count_items(&self) -> usize {
        self.list.list().len()
    }

    #[inline(always)]
    fn item_at(&mut self, i: usize, tally: &mut Tally) -> u64 {
        let list = self.list.list();
        let _ = list.len();
        if i != self.next {
            self.ahead = Ahead::none();
        }
        self.next = i + 1;
        list.element_ahead(i, &mut self.ahead, tally)
    }

    #[inline(always)]
    fn item_at_back(&mut self, i: usize, tally: &mut Tally) -> u64 {
        let list = self.list.list();
        let _ = list.len();
        if i + 1 != self.end {
            self.behind = Ahead::none();
        }
        self.end = i;
        list.element_behind(i, &mut self.behind, tally)
    }
}

impl<L: Sorted> Ascending for Elements<L> {
    ghost ascends = { λ numbers up. up };
}

impl<'a, A: Allocator + Copy> Borrowing for Elements<&'a EliasFanoVec<A>> {
    fn second(&self) -> Self {
        Elements::new(self.list)
    }
}

impl<A: Allocator + Copy> Owning for Elements<EliasFanoVec<A>> {
    fn second(&self) -> Result<Self, AllocError> {
        let list = self.list.clone()?;
        Ok(Elements::new(list))
    }
}

/// An iterator over the elements of a list. Each step reads at most what one `get` does.
pub type EliasFanoRefIter<'a, A> = BothEnds<Elements<&'a EliasFanoVec<A>>>;

/// An iterator over the elements of a list that it owns. Each step reads at most what one `get`
/// does.
pub type EliasFanoIter<A> = BothEnds<Elements<EliasFanoVec<A>>>;

impl<A: Allocator + Copy> EliasFanoVec<A> {
    /// Returns an iterator over the elements.
    pub fn iter(&self) -> EliasFanoRefIter<'_, A>
        ensures value { result ≡ record { left = self.now; step = element_reads self.now } }
        ensures ascending { IsNonDecreasing self.now }
    {
        BothEnds::new(Elements::new(self))
    }
}

impl<'a, A: Allocator + Copy> IntoIterator for &'a EliasFanoVec<A> {
    type Item = u64;

    type IntoIter = EliasFanoRefIter<'a, A>;

    ghost into_iter_gives = { λ list items. items ≡ record { left = list.now; step = element_reads list.now } };

    fn into_iter(self) -> EliasFanoRefIter<'a, A> {
        self.iter()
    }
}

impl<'a, A: Allocator + Copy> IntoIterator for &'a mut EliasFanoVec<A> {
    type Item = u64;

    type IntoIter = EliasFanoRefIter<'a, A>;

    ghost into_iter_gives = { λ list items. items ≡ record { left = list.now; step = element_reads list.now } };

    fn into_iter(self) -> EliasFanoRefIter<'a, A> {
        self.iter()
    }
}

impl<A: Allocator + Copy> IntoIterator for EliasFanoVec<A> {
    type Item = u64;

    type IntoIter = EliasFanoIter<A>;

    ghost into_iter_gives = { λ list items. items ≡ record { left = list; step = element_reads list } };

    /// Returns an iterator over the elements, which owns the list.
    fn into_iter(self) -> EliasFanoIter<A> {
        BothEnds::new(Elements::new(self))
    }
}
