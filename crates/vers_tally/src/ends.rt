//! One implementation of all double-ended iterators that count their reads.
ghost use Rattle.std.specs.Prelude.{◌≡◌, ◌<◌, ◌≤◌, ◌↔◌, ℕ, [], List, All, IsNone, IfSome, IfOk, Some, None, length, slice_get};
ghost use Rattle.std.specs.Iterator.{item_count, YieldsFirst, YieldsLast};
ghost use Rattle.std.specs.List.{Contains, last_or};
ghost use Rattle.std.specs.List.Sorted.{IsNonDecreasing};
ghost use Rattle.vers_bits.specs.declared.walk.Span.{Span};
ghost use Rattle.vers_bits.specs.Walk.{items_in, TakesNth, TakesNthBack, TakesFirst, TakesLast};
ghost use Rattle.vers_tally.specs.Reads.{Reads, AddsAtMost};

use crate::tally::Tally;
use std::alloc::AllocError;
use std::marker::Model;
use vers_bits::walk::Span;

/// A list of items, each of which is read at its position, with a counter. A source may keep what it has read,
/// to read the next item faster.
pub trait Source: Drop {
    type Item;

    ghost items: { Self → List Self.Item };

    // The bound on the reads of one item.
    ghost step: { Self → Reads };

    // A property of the items of any range, such as that they ascend.
    ghost in_order: { List Self.Item → Type 0 } = { λ _. Unit {0} };

    /// Returns the number of items.
    fn count_items(&self) -> usize
        ensures value { result ≡ length (items self.now) }
        ensures in_order { (span : Span) → in_order (items_in (items self.now) span) };

    /// Returns the item at position `i`. A walk from the front passes the positions in turn. Precondition: `i`
    /// is below the number of items.
    fn item_at(&mut self, i: usize, tally: &mut Tally) -> Self::Item
        requires { i < length (items self.old) }
        ensures value { slice_get (items self.old) i ≡ Some result }
        ensures same_items { items self.new ≡ items self.old }
        ensures same_step { step self.new ≡ step self.old }
        ensures adds { AddsAtMost tally.old tally.new (step self.old) };

    /// Returns the item at position `i`. A walk from the back passes the positions in turn. Precondition: `i`
    /// is below the number of items.
    #[inline]
    fn item_at_back(&mut self, i: usize, tally: &mut Tally) -> Self::Item
        requires { i < length (items self.old) }
        ensures value { slice_get (items self.old) i ≡ Some result }
        ensures same_items { items self.new ≡ items self.old }
        ensures same_step { step self.new ≡ step self.old }
        ensures adds { AddsAtMost tally.old tally.new (step self.old) }
    {
        self.item_at(i, tally)
    }
}

/// A source that is copied without allocating.
pub trait Borrowing: Source {
    /// Returns a copy of the source.
    fn second(&self) -> Self
        ensures { result ≡ self.now };
}

/// A source whose copy allocates.
pub trait Owning: Source {
    /// Returns a copy of the source.
    fn second(&self) -> Result<Self, AllocError>
        ensures { IfOk result (λ s. s ≡ self.now) };
}

/// A source of ascending numbers.
pub trait Ascending: Source<Item = u64> {
    ghost ascends: { (numbers : List ℕ) → Self.in_order numbers → IsNonDecreasing numbers };
}

/// A double-ended iterator over the items of a source. Contracts see it as the items `left`, and the reads of a
/// `step`, the bound on reading one of them.
#[derive(Drop)]
pub struct BothEnds<S: Source> {
    source: S,
    span: Span,
}

impl<S: Source> Model for BothEnds<S> {
    ghost use Rattle.std.specs.Prelude.{◌≤◌, length};
    ghost use Rattle.vers_bits.specs.declared.walk.Span.{Span};
    ghost use Rattle.vers_bits.specs.Walk.{items_in};
    ghost use Rattle.vers_tally.specs.Ends.{Walking};

    ghost Value = { Walking S.Item };

    ghost view = { λ s. record { left = items_in (S.items s.source) s.span; step = S.step s.source } };

    ghost invariant = { λ s. (s.span.to ≤ length (S.items s.source))
        × ((span : Span) → S.in_order (items_in (S.items s.source) span)) };
}

#[tactic(auto, using(crate::proofs::Steps::lists))]
impl<S: Source> BothEnds<S> {
    /// Returns an iterator over all items of a source.
    pub fn new(source: S) -> Self
        ensures value { result ≡ record { left = S.items source; step = S.step source } }
        ensures in_order { S.in_order (S.items source) }
    {
        let span = Span::below(source.count_items());
        BothEnds { source, span }
    }

    /// Returns the number of items left.
    #[inline]
    pub fn len(&self) -> usize
        ensures value { result ≡ length self.now.left }
        ensures in_order { S.in_order self.now.left }
    {
        self.span.len()
    }

    /// Returns the number of items left as both the lower and the upper bound.
    pub fn size_hint(&self) -> (usize, Option<usize>)
        ensures { result ≡ (length self.now.left, Some (length self.now.left)) }
    {
        let len = self.len();
        (len, Some(len))
    }

    /// Returns the number of items left.
    pub fn count(self) -> usize
        ensures { result ≡ length self.left }
    {
        self.len()
    }

    /// Skips `n` items and takes the next. If at most `n` are left, returns `None` and the iterator has ended.
    #[inline(always)]
    pub fn nth(&mut self, n: usize) -> Option<S::Item>
        ensures steps { TakesNth n self.old.left result self.new.left }
        ensures same_step { self.new.step ≡ self.old.step }
    {
        let mut tally = Tally::new();
        self.nth_counted(n, &mut tally)
    }

    /// Skips `n` items from the back and takes the next. If at most `n` are left, returns `None` and the
    /// iterator has ended.
    #[inline(always)]
    pub fn nth_back(&mut self, n: usize) -> Option<S::Item>
        ensures steps { TakesNthBack n self.old.left result self.new.left }
        ensures same_step { self.new.step ≡ self.old.step }
    {
        let mut tally = Tally::new();
        self.nth_back_counted(n, &mut tally)
    }

    /// Takes the first of the items left. `None` if none is left.
    #[inline(always)]
    pub fn next(&mut self) -> Option<S::Item>
        ensures steps { TakesFirst self.old.left result self.new.left }
        ensures same_step { self.new.step ≡ self.old.step }
    {
        let mut tally = Tally::new();
        self.next_counted(&mut tally)
    }

    /// Takes the last of the items left. `None` if none is left.
    #[inline(always)]
    pub fn next_back(&mut self) -> Option<S::Item>
        ensures steps { TakesLast self.old.left result self.new.left }
        ensures same_step { self.new.step ≡ self.old.step }
    {
        let mut tally = Tally::new();
        self.next_back_counted(&mut tally)
    }

    /// Does what `next` does. Reads at most one `step`.
    #[inline(always)]
    pub fn next_counted(&mut self, tally: &mut Tally) -> Option<S::Item>
        ensures steps { TakesFirst self.old.left result self.new.left }
        ensures same_step { self.new.step ≡ self.old.step }
        ensures adds { AddsAtMost tally.old tally.new self.old.step }
    {
        self.nth_counted(0, tally)
    }

    /// Does what `next_back` does. Reads at most one `step`.
    #[inline(always)]
    pub fn next_back_counted(&mut self, tally: &mut Tally) -> Option<S::Item>
        ensures steps { TakesLast self.old.left result self.new.left }
        ensures same_step { self.new.step ≡ self.old.step }
        ensures adds { AddsAtMost tally.old tally.new self.old.step }
    {
        self.nth_back_counted(0, tally)
    }

    /// Does what `nth` does. Reads at most one `step`.
    #[inline(always)]
    pub fn nth_counted(&mut self, n: usize, tally: &mut Tally) -> Option<S::Item>
        ensures steps { TakesNth n self.old.left result self.new.left }
        ensures same_step { self.new.step ≡ self.old.step }
        ensures adds { AddsAtMost tally.old tally.new self.old.step }
    {
        let i = self.span.nth(n)?;
        Some(self.source.item_at(i, tally))
    }

    /// Does what `nth_back` does. Reads at most one `step`.
    #[inline(always)]
    pub fn nth_back_counted(&mut self, n: usize, tally: &mut Tally) -> Option<S::Item>
        ensures steps { TakesNthBack n self.old.left result self.new.left }
        ensures same_step { self.new.step ≡ self.old.step }
        ensures adds { AddsAtMost tally.old tally.new self.old.step }
    {
        let i = self.span.nth_back(n)?;
        Some(self.source.item_at_back(i, tally))
    }

    /// Returns the last item, or `None` if no item is left.
    pub fn last(mut self) -> Option<S::Item>
        ensures { result ≡ last_or None self.left }
    {
        let mut tally = Tally::new();
        self.nth_back_counted(0, &mut tally)
    }
}

impl<S: Borrowing> BothEnds<S> {
    /// Returns a second iterator over the items left. Allocates nothing.
    pub fn clone(&self) -> Self
        ensures { result ≡ self.now }
    {
        let source = self.source.second();
        BothEnds {
            source,
            span: self.span,
        }
    }
}

impl<S: Owning> Clone for BothEnds<S> {
    ghost is_clone = { λ old new. new ≡ old };

    /// Returns a second iterator over the items left, with a source of its own.
    fn clone(&self) -> Result<Self, AllocError> {
        let source = self.source.second()?;
        Ok(BothEnds {
            source,
            span: self.span,
        })
    }
}

impl<S: Ascending> BothEnds<S> {
    /// Returns the least of the numbers left, or `None` if none is left.
    #[tactic(auto, using(crate::proofs::Steps::least))]
    pub fn min(mut self) -> Option<u64>
        ensures none { IsNone result ↔ (self.left ≡ []) }
        ensures element { IfSome result (Contains self.left) }
        ensures least { IfSome result (λ m. All (λ x. m ≤ x) self.left) }
    {
        let _ = self.len();
        self.nth(0)
    }

    /// Returns the greatest of the numbers left, or `None` if none is left.
    #[tactic(auto, using(crate::proofs::Steps::greatest))]
    pub fn max(mut self) -> Option<u64>
        ensures none { IsNone result ↔ (self.left ≡ []) }
        ensures element { IfSome result (Contains self.left) }
        ensures greatest { IfSome result (λ m. All (λ x. x ≤ m) self.left) }
    {
        let _ = self.len();
        self.nth_back(0)
    }
}

#[tactic(auto, using(crate::proofs::Steps::ends))]
impl<S: Source> Iterator for BothEnds<S> {
    type Item = S::Item;

    ghost next_gives = { YieldsFirst (λ s. s.left) };

    ghost remaining = { item_count (λ s. s.left) };

    #[inline(always)]
    fn next(&mut self) -> Option<S::Item> {
        self.next()
    }

    fn size_hint(&self) -> (usize, Option<usize>) {
        self.size_hint()
    }
}

#[tactic(auto, using(crate::proofs::Steps::ends))]
impl<S: Source> DoubleEndedIterator for BothEnds<S> {
    ghost next_back_gives = { YieldsLast (λ s. s.left) };

    #[inline(always)]
    fn next_back(&mut self) -> Option<S::Item> {
        self.next_back()
    }
}
