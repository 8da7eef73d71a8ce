//! One implementation of all double-ended iterators whose items are allocated.
ghost use Rattle.std.specs.Prelude.{◌≡◌, ◌<◌, List, IfOk, Some, None, length, slice_get};
ghost use Rattle.std.specs.Iterator.{item_count};
ghost use Rattle.std.specs.List.{last_or};
ghost use Rattle.vers_tally.specs.Ends.{MakesNth, MakesNthBack, MakesFirst, MakesLast, MayRefuse};
ghost use Rattle.vers_tally.specs.Reads.{Reads, AddsAtMost};

use crate::tally::Tally;
use std::alloc::AllocError;
use std::marker::Model;
use vers_bits::walk::Span;

/// A list of items, each of which is allocated at its position, with a counter.
pub trait Maker: Drop {
    type Item;

    ghost items: { Self → List Self.Item };

    // The bound on the reads of making one item.
    ghost step: { Self → Reads };

    /// Returns the number of items.
    fn count_items(&self) -> usize
        ensures { result ≡ length (items self.now) };

    /// Returns the item at position `i`. On error the maker has the same items. Precondition: `i` is below the
    /// number of items.
    fn make_at(&mut self, i: usize, tally: &mut Tally) -> Result<Self::Item, AllocError>
        requires { i < length (items self.old) }
        ensures value { IfOk result (λ x. slice_get (items self.old) i ≡ Some x) }
        ensures same_items { items self.new ≡ items self.old }
        ensures same_step { step self.new ≡ step self.old }
        ensures adds { AddsAtMost tally.old tally.new (step self.old) };
}

/// A maker that is copied without allocating.
pub trait BorrowingMaker: Maker {
    /// Returns a copy of the maker.
    fn second(&self) -> Self
        ensures { result ≡ self.now };
}

/// A maker whose copy allocates.
pub trait OwningMaker: Maker {
    /// Returns a copy of the maker.
    fn second(&self) -> Result<Self, AllocError>
        ensures { IfOk result (λ m. m ≡ self.now) };
}

/// A double-ended iterator over the items of a maker. An item whose allocation fails counts as passed.
/// Contracts see it as the items `left`, and the reads of a `step`, the bound on making one of them.
#[derive(Drop)]
pub struct MadeEnds<M: Maker> {
    maker: M,
    span: Span,
}

impl<M: Maker> Model for MadeEnds<M> {
    ghost use Rattle.std.specs.Prelude.{◌≤◌, length};
    ghost use Rattle.vers_bits.specs.Walk.{items_in};
    ghost use Rattle.vers_tally.specs.Ends.{Walking};

    ghost Value = { Walking M.Item };

    ghost view = { λ s. record { left = items_in (M.items s.maker) s.span; step = M.step s.maker } };

    ghost invariant = { λ s. s.span.to ≤ length (M.items s.maker) };
}

#[tactic(auto, using(crate::proofs::Made::steps))]
impl<M: Maker> MadeEnds<M> {
    /// Returns an iterator over all items of a maker.
    pub fn new(maker: M) -> Self
        ensures { result ≡ record { left = M.items maker; step = M.step maker } }
    {
        let span = Span::below(maker.count_items());
        MadeEnds { maker, span }
    }

    /// Returns the number of items left.
    #[inline]
    pub fn len(&self) -> usize
        ensures { result ≡ length self.now.left }
    {
        self.span.len()
    }

    /// Returns the number of items left as both the lower and the upper bound.
    pub fn size_hint(&self) -> (usize, Option<usize>)
        ensures { result ≡ (length self.now.left, Some (length self.now.left)) }
    {
        let len = self.len();
        (len, Some(len))
    }

    /// Returns the number of items left.
    pub fn count(self) -> usize
        ensures { result ≡ length self.left }
    {
        self.len()
    }

    /// Skips `n` items and makes the next. If at most `n` are left, returns `None` and the iterator has ended.
    pub fn nth(&mut self, n: usize) -> Option<Result<M::Item, AllocError>>
        ensures steps { MakesNth n self.old.left result self.new.left }
        ensures same_step { self.new.step ≡ self.old.step }
    {
        let mut tally = Tally::new();
        self.nth_counted(n, &mut tally)
    }

    /// Skips `n` items from the back and makes the next. If at most `n` are left, returns `None` and the
    /// iterator has ended.
    pub fn nth_back(&mut self, n: usize) -> Option<Result<M::Item, AllocError>>
        ensures steps { MakesNthBack n self.old.left result self.new.left }
        ensures same_step { self.new.step ≡ self.old.step }
    {
        let mut tally = Tally::new();
        self.nth_back_counted(n, &mut tally)
    }

    /// Makes the first of the items left, which is passed also on error. `None` if none is left.
    pub fn next(&mut self) -> Option<Result<M::Item, AllocError>>
        ensures steps { MakesFirst self.old.left result self.new.left }
        ensures same_step { self.new.step ≡ self.old.step }
    {
        self.nth(0)
    }

    /// Makes the last of the items left, which is passed also on error. `None` if none is left.
    pub fn next_back(&mut self) -> Option<Result<M::Item, AllocError>>
        ensures steps { MakesLast self.old.left result self.new.left }
        ensures same_step { self.new.step ≡ self.old.step }
    {
        self.nth_back(0)
    }

    /// Does what `next` does. Reads at most one `step`.
    pub fn next_counted(&mut self, tally: &mut Tally) -> Option<Result<M::Item, AllocError>>
        ensures steps { MakesFirst self.old.left result self.new.left }
        ensures same_step { self.new.step ≡ self.old.step }
        ensures adds { AddsAtMost tally.old tally.new self.old.step }
    {
        self.nth_counted(0, tally)
    }

    /// Does what `next_back` does. Reads at most one `step`.
    pub fn next_back_counted(&mut self, tally: &mut Tally) -> Option<Result<M::Item, AllocError>>
        ensures steps { MakesLast self.old.left result self.new.left }
        ensures same_step { self.new.step ≡ self.old.step }
        ensures adds { AddsAtMost tally.old tally.new self.old.step }
    {
        self.nth_back_counted(0, tally)
    }

    /// Does what `nth` does. Reads at most one `step`.
    pub fn nth_counted(
        &mut self,
        n: usize,
        tally: &mut Tally,
    ) -> Option<Result<M::Item, AllocError>>
        ensures steps { MakesNth n self.old.left result self.new.left }
        ensures same_step { self.new.step ≡ self.old.step }
        ensures adds { AddsAtMost tally.old tally.new self.old.step }
    {
        let i = self.span.nth(n)?;
        Some(self.maker.make_at(i, tally))
    }

    /// Does what `nth_back` does. Reads at most one `step`.
    pub fn nth_back_counted(
        &mut self,
        n: usize,
        tally: &mut Tally,
    ) -> Option<Result<M::Item, AllocError>>
        ensures steps { MakesNthBack n self.old.left result self.new.left }
        ensures same_step { self.new.step ≡ self.old.step }
        ensures adds { AddsAtMost tally.old tally.new self.old.step }
    {
        let i = self.span.nth_back(n)?;
        Some(self.maker.make_at(i, tally))
    }

    /// Returns the last item, or `None` if no item is left.
    pub fn last(mut self) -> Option<Result<M::Item, AllocError>>
        ensures { MayRefuse result (last_or None self.left) }
    {
        self.nth_back(0)
    }
}

impl<M: BorrowingMaker> MadeEnds<M> {
    /// Returns a second iterator over the items left. Allocates nothing.
    pub fn clone(&self) -> Self
        ensures { result ≡ self.now }
    {
        MadeEnds {
            maker: self.maker.second(),
            span: self.span,
        }
    }
}

impl<M: OwningMaker> Clone for MadeEnds<M> {
    ghost is_clone = { λ old new. new ≡ old };

    /// Returns a second iterator over the items left, with a maker of its own.
    fn clone(&self) -> Result<Self, AllocError> {
        let maker = self.maker.second()?;
        Ok(MadeEnds {
            maker,
            span: self.span,
        })
    }
}

#[tactic(auto, using(crate::proofs::Made::ends))]
impl<M: Maker> Iterator for MadeEnds<M> {
    type Item = Result<M::Item, AllocError>;

    ghost next_gives = { λ s r t. MakesFirst s.left r t.left };

    ghost remaining = { item_count (λ s. s.left) };

    fn next(&mut self) -> Option<Result<M::Item, AllocError>> {
        self.next()
    }

    fn size_hint(&self) -> (usize, Option<usize>) {
        self.size_hint()
    }
}

#[tactic(auto, using(crate::proofs::Made::ends))]
impl<M: Maker> DoubleEndedIterator for MadeEnds<M> {
    ghost next_back_gives = { λ s r t. MakesLast s.left r t.left };

    fn next_back(&mut self) -> Option<Result<M::Item, AllocError>> {
        self.next_back()
    }
}
