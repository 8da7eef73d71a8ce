//! Iterators over the positions of the zeros or the ones of an indexed list.
ghost use Rattle.std.specs.Prelude.{◌≡◌, not, true, false, length};
ghost use Rattle.vers_bits.specs.Bits.{positions};
ghost use Rattle.vers_rank.specs.Queries.{superblock_count, select_reads};

use super::RsVec;
use super::iter::Indexed;
use super::reader::Reader;
use std::alloc::{AllocError, Allocator};
use std::marker::{Model, PhantomData};
use vers_tally::ends::{Borrowing, BothEnds, Owning, Source};
use vers_tally::tally::Tally;

/// Marks an iterator over the zeros of a list if `ZERO` is true, otherwise over its ones.
#[derive(Drop)]
pub struct Kind<const ZERO: bool>;

/// The positions of one kind of bit of an indexed list, which iterators of type `K` read one by one. It keeps
/// the current limb of each end.
#[derive(Drop)]
pub struct Positions<K, L: Indexed> {
    list: L,
    bit: bool,
    front: Reader,
    back: Reader,
    kind: PhantomData<K>,
}

impl<K, L: Indexed> Model for Positions<K, L> {
    ghost use Rattle.vers_rank.specs.inside.Walks.{PositionsOf, IsReading, IsReadingBack};

    ghost Value = { PositionsOf };

    ghost view = { λ s. record { bits = L.bits s.list; bit = s.bit } };

    ghost invariant = { λ s. IsReading s.bit (L.bits s.list) s.front × IsReadingBack s.bit (L.bits s.list) s.back };
}

#[tactic(auto, using(crate::proofs::BothEnds::kinds))]
impl<K, L: Indexed> Positions<K, L> {
    /// Returns the positions of the ones of a list if `bit` is true, otherwise of its zeros. Reads nothing yet.
    pub fn new(list: L, bit: bool) -> Self
        ensures { result ≡ record { bits = L.bits list; bit = bit } }
    {
        let nothing = Reader::new();
        Positions {
            list,
            bit,
            front: nothing,
            back: nothing,
            kind: PhantomData,
        }
    }
}

#[tactic(auto, using(crate::proofs::BothEnds::kinds))]
impl<K, L: Indexed> Source for Positions<K, L> {
    type Item = usize;

    ghost items = { λ s. positions s.bit s.bits };

    ghost step = { λ s. select_reads (superblock_count (length s.bits)) };

    #[inline]
    fn count_items(&self) -> usize {
        let list = self.list.list();
        if self.bit { list.ones() } else { list.zeros() }
    }

    #[inline(always)]
    fn item_at(&mut self, i: usize, tally: &mut Tally) -> usize {
        self.front.position(self.bit, i, self.list.list(), tally)
    }

    #[inline(always)]
    fn item_at_back(&mut self, i: usize, tally: &mut Tally) -> usize {
        self.back
            .position_back(self.bit, i, self.list.list(), tally)
    }
}

impl<'a, K, A: Allocator + Copy> Borrowing for Positions<K, &'a RsVec<A>> {
    fn second(&self) -> Self {
        Positions::new(self.list, self.bit)
    }
}

impl<K, A: Allocator + Copy> Owning for Positions<K, RsVec<A>> {
    fn second(&self) -> Result<Self, AllocError> {
        let list = self.list.clone()?;
        Ok(Positions::new(list, self.bit))
    }
}

/// An iterator over the positions of the zeros of a list if `ZERO` is true, otherwise of its ones, ascending.
/// Each step reads at most what one select does.
pub type SelectIter<'a, const ZERO: bool, A> = BothEnds<Positions<Kind<ZERO>, &'a RsVec<A>>>;

/// An iterator over the positions of the zeros of a list that it owns if `ZERO` is true, otherwise of its ones,
/// ascending. Each step reads at most what one select does.
pub type SelectIntoIter<const ZERO: bool, A> = BothEnds<Positions<Kind<ZERO>, RsVec<A>>>;

impl<A: Allocator + Copy> RsVec<A> {
    /// Returns an iterator over the positions of the zeros if `ZERO` is true, otherwise of the ones.
    pub fn select_iter<const ZERO: bool>(&self) -> SelectIter<'_, ZERO, A>
        ensures { result ≡ record {
          left = positions (not ZERO) self.now;
          step = select_reads (superblock_count (length self.now));
        } }
    {
        BothEnds::new(Positions::new(self, !ZERO))
    }

    /// Returns an iterator over the positions of the zeros.
    pub fn iter0(&self) -> SelectIter<'_, true, A>
        ensures { result ≡ record {
          left = positions false self.now;
          step = select_reads (superblock_count (length self.now));
        } }
    {
        self.select_iter::<true>()
    }

    /// Returns an iterator over the positions of the ones.
    pub fn iter1(&self) -> SelectIter<'_, false, A>
        ensures { result ≡ record {
          left = positions true self.now;
          step = select_reads (superblock_count (length self.now));
        } }
    {
        self.select_iter::<false>()
    }

    /// Returns an iterator over the positions of the zeros if `ZERO` is true, otherwise of the ones, which owns
    /// the list.
    pub fn into_select_iter<const ZERO: bool>(self) -> SelectIntoIter<ZERO, A>
        ensures { result ≡ record {
          left = positions (not ZERO) self;
          step = select_reads (superblock_count (length self));
        } }
    {
        let positions = Positions::new(self, !ZERO);
        BothEnds::new(positions)
    }

    /// Returns an iterator over the positions of the zeros, which owns the list.
    pub fn into_iter0(self) -> SelectIntoIter<true, A>
        ensures { result ≡ record {
          left = positions false self;
          step = select_reads (superblock_count (length self));
        } }
    {
        BothEnds::new(Positions::new(self, false))
    }

    /// Returns an iterator over the positions of the ones, which owns the list.
    pub fn into_iter1(self) -> SelectIntoIter<false, A>
        ensures { result ≡ record {
          left = positions true self;
          step = select_reads (superblock_count (length self));
        } }
    {
        BothEnds::new(Positions::new(self, true))
    }
}
