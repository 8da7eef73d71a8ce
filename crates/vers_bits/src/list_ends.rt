//! One implementation of all double-ended iterators that count no reads.
ghost use Rattle.std.specs.Prelude.{◌≡◌, ◌<◌, List, IfOk, Some, None, length, slice_get};
ghost use Rattle.std.specs.Iterator.{item_count, YieldsFirst, YieldsLast};
ghost use Rattle.std.specs.List.{last_or};
ghost use Rattle.vers_bits.specs.Walk.{TakesNth, TakesNthBack};

use crate::walk::Span;
use std::alloc::AllocError;
use std::marker::Model;

/// A list of items, each of which is read at its position.
pub trait Listed: Drop {
    type Item;

    ghost items: { Self → List Self.Item };

    /// Returns the number of items.
    fn count_items(&self) -> usize
        ensures { result ≡ length (items self.now) };

    /// Returns the item at position `i`. Precondition: `i` is below the number of items.
    fn item_at(&self, i: usize) -> Self::Item
        requires { i < length (items self.now) }
        ensures { slice_get (items self.now) i ≡ Some result };
}

/// A list of items that is copied without allocating.
pub trait BorrowedList: Listed {
    /// Returns a copy of the list.
    fn second(&self) -> Self
        ensures { result ≡ self.now };
}

/// A list of items whose copy allocates.
pub trait OwnedList: Listed {
    /// Returns a copy of the list.
    fn second(&self) -> Result<Self, AllocError>
        ensures { IfOk result (λ l. l ≡ self.now) };
}

/// A double-ended iterator over the items of a list. Contracts see it as the list of the items left.
#[derive(Drop)]
pub struct ListEnds<L: Listed> {
    list: L,
    span: Span,
}

impl<L: Listed> Model for ListEnds<L> {
    ghost use Rattle.std.specs.Prelude.{List, ◌≤◌, length};
    ghost use Rattle.vers_bits.specs.Walk.{items_in};

    ghost Value = { List L.Item };

    ghost view = { λ s. items_in (L.items s.list) s.span };

    ghost invariant = { λ s. s.span.to ≤ length (L.items s.list) };
}

#[tactic(auto, using(crate::proofs::BothEnds::lists))]
impl<L: Listed> ListEnds<L> {
    /// Returns an iterator over all items of a list.
    pub fn new(list: L) -> Self
        ensures { result ≡ L.items list }
    {
        let span = Span::below(list.count_items());
        ListEnds { list, span }
    }

    /// Returns the number of items left.
    #[inline]
    pub fn len(&self) -> usize
        ensures { result ≡ length self.now }
    {
        self.span.len()
    }

    /// Returns the number of items left as both the lower and the upper bound.
    pub fn size_hint(&self) -> (usize, Option<usize>)
        ensures { result ≡ (length self.now, Some (length self.now)) }
    {
        let len = self.len();
        (len, Some(len))
    }

    /// Returns the number of items left.
    pub fn count(self) -> usize
        ensures { result ≡ length self }
    {
        self.len()
    }

    /// Skips `n` items and takes the next. If at most `n` are left, returns `None` and the iterator has ended.
    #[inline]
    pub fn nth(&mut self, n: usize) -> Option<L::Item>
        ensures { TakesNth n self.old result self.new }
    {
        let i = self.span.nth(n)?;
        Some(self.list.item_at(i))
    }

    /// Skips `n` items from the back and takes the next. If at most `n` are left, returns `None` and the
    /// iterator has ended.
    #[inline]
    pub fn nth_back(&mut self, n: usize) -> Option<L::Item>
        ensures { TakesNthBack n self.old result self.new }
    {
        let i = self.span.nth_back(n)?;
        Some(self.list.item_at(i))
    }

    /// Returns the last item, or `None` if no item is left.
    pub fn last(mut self) -> Option<L::Item>
        ensures { result ≡ last_or None self }
    {
        self.nth_back(0)
    }
}

impl<L: BorrowedList> ListEnds<L> {
    /// Returns a second iterator over the items left. Allocates nothing.
    pub fn clone(&self) -> Self
        ensures { result ≡ self.now }
    {
        ListEnds {
            list: self.list.second(),
            span: self.span,
        }
    }
}

impl<L: OwnedList> Clone for ListEnds<L> {
    ghost is_clone = { λ old new. new ≡ old };

    /// Returns a second iterator over the items left, with a list of its own.
    fn clone(&self) -> Result<Self, AllocError> {
        let list = self.list.second()?;
        Ok(ListEnds {
            list,
            span: self.span,
        })
    }
}

#[tactic(auto, using(crate::proofs::BothEnds::ends))]
impl<L: Listed> Iterator for ListEnds<L> {
    type Item = L::Item;

    ghost next_gives = { YieldsFirst (λ s. s) };

    ghost remaining = { item_count (λ s. s) };

    #[inline]
    fn next(&mut self) -> Option<L::Item> {
        self.nth(0)
    }

    fn size_hint(&self) -> (usize, Option<usize>) {
        self.size_hint()
    }
}

#[tactic(auto, using(crate::proofs::BothEnds::ends))]
impl<L: Listed> DoubleEndedIterator for ListEnds<L> {
    ghost next_back_gives = { YieldsLast (λ s. s) };

    #[inline]
    fn next_back(&mut self) -> Option<L::Item> {
        self.nth_back(0)
    }
}
