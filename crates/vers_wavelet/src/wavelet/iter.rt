//! Iterators over the symbols: in their order or ascending, as numbers or as lists of their bits.
ghost use Rattle.std.specs.Prelude.{◌≡◌, ◌≤◌, ◌↔◌, Bool, true, false, List, length, IsSome, IfSome};
ghost use Rattle.vers_wavelet.specs.Symbols.{Symbols, by_size, in_bits, ordered};
ghost use Rattle.vers_wavelet.specs.Reads.{walk_reads};

use crate::wavelet::WaveletMatrix;
use crate::wavelet::way::{Found, Way};
use std::alloc::{AllocError, Allocator};
use std::marker::{Model, PhantomData};
use vers_bits::bit_vec::BitVec;
use vers_tally::ends::{Borrowing, BothEnds, Owning, Source};
use vers_tally::made_ends::{BorrowingMaker, MadeEnds, Maker, OwningMaker};
use vers_tally::tally::Tally;

/// A wavelet matrix, borrowed or owned.
pub trait Matrix: Drop {
    type Alloc: Allocator + Copy;

    ghost symbols: { Self → Symbols };

    /// Returns the matrix itself.
    fn matrix(&self) -> &WaveletMatrix<Self::Alloc>
        ensures { result.now ≡ symbols self.now };
}

impl<'a, A: Allocator + Copy> Matrix for &'a WaveletMatrix<A> {
    type Alloc = A;

    ghost symbols = { λ matrix. matrix.now };

    #[inline]
    fn matrix(&self) -> &WaveletMatrix<A> {
        *self
    }
}

impl<A: Allocator + Copy> Matrix for WaveletMatrix<A> {
    type Alloc = A;

    ghost symbols = { λ matrix. matrix };

    #[inline]
    fn matrix(&self) -> &WaveletMatrix<A> {
        self
    }
}

/// The order in which iterators return the symbols of a matrix.
pub trait Order {
    ghost by_size: { Bool };

    /// Returns true if symbols come in ascending order, otherwise they come in their own order.
    fn is_by_size() -> bool
        ensures { result ≡ by_size };
}

/// The symbols' own order.
#[derive(Drop)]
pub struct InOrder;

impl Order for InOrder {
    ghost by_size = { false };

    #[inline(always)]
    fn is_by_size() -> bool {
        false
    }
}

/// Ascending order.
#[derive(Drop)]
pub struct BySize;

impl Order for BySize {
    ghost by_size = { true };

    #[inline(always)]
    fn is_by_size() -> bool {
        true
    }
}

/// The symbols of a matrix as numbers, in their order, which iterators read one by one. A symbol has at
/// most 64 bits.
#[derive(Drop)]
pub struct Numbers<M: Matrix> {
    matrix: M,
}

impl<M: Matrix> Model for Numbers<M> {
    ghost use Rattle.std.specs.Prelude.{◌≤◌};
    ghost use Rattle.vers_wavelet.specs.Symbols.{Symbols};

    ghost Value = { Symbols };

    ghost view = { λ s. M.symbols s.matrix };

    ghost invariant = { λ s. (M.symbols s.matrix).width ≤ 64 };
}

impl<M: Matrix> Numbers<M> {
    fn new(matrix: M) -> Self
        requires { (M.symbols matrix).width ≤ 64 }
        ensures { result ≡ M.symbols matrix }
    {
        Numbers { matrix }
    }
}

#[tactic(auto, using(crate::proofs::Items::numbers))]
impl<M: Matrix> Source for Numbers<M> {
    type Item = u64;

    ghost items = { λ symbols. symbols.items };

    ghost step = { λ symbols. walk_reads symbols };

    #[inline]
    fn count_items(&self) -> usize {
        self.matrix.matrix().len()
    }

    #[inline(always)]
    fn item_at(&mut self, i: usize, tally: &mut Tally) -> u64 {
        let mut answer: u64 = 0;
        self.matrix.matrix().read_at(i, &mut answer, tally);
        answer
    }
}

impl<'a, A: Allocator + Copy> Borrowing for Numbers<&'a WaveletMatrix<A>> {
    fn second(&self) -> Self {
        Numbers::new(self.matrix)
    }
}

impl<A: Allocator + Copy> Owning for Numbers<WaveletMatrix<A>> {
    fn second(&self) -> Result<Self, AllocError> {
        let matrix = self.matrix.clone()?;
        Ok(Numbers::new(matrix))
    }
}

/// The symbols of a matrix as numbers, ascending, which iterators read one by one. A symbol has at most 64
/// bits. It keeps the last symbol found, with the elements that are equal to it, and the path down to it, from
/// which the next one is found.
#[derive(Drop)]
pub struct SortedNumbers<M: Matrix> {
    matrix: M,
    way: Way,
    found: Found,
}

impl<M: Matrix> Model for SortedNumbers<M> {
    ghost use Rattle.std.specs.Prelude.{◌≤◌};
    ghost use Rattle.vers_wavelet.specs.Symbols.{Symbols};
    ghost use Rattle.vers_wavelet.specs.inside.Ways.{IsFound, IsWayOf};

    ghost Value = { Symbols };

    ghost view = { λ s. M.symbols s.matrix };

    ghost invariant = { λ s. ((M.symbols s.matrix).width ≤ 64)
        × IsWayOf (M.symbols s.matrix) s.way × IsFound (M.symbols s.matrix).items s.found };
}

impl<M: Matrix> SortedNumbers<M> {
    fn new(matrix: M) -> Self
        requires { (M.symbols matrix).width ≤ 64 }
        ensures { result ≡ M.symbols matrix }
    {
        SortedNumbers {
            matrix,
            way: Way::new(),
            found: Found {
                symbol: 0,
                from: 0,
                count: 0,
            },
        }
    }
}

#[tactic(auto, using(crate::proofs::Items::numbers))]
impl<M: Matrix> Source for SortedNumbers<M> {
    type Item = u64;

    ghost items = { λ symbols. by_size symbols.items };

    ghost step = { λ symbols. walk_reads symbols };

    #[inline]
    fn count_items(&self) -> usize {
        self.matrix.matrix().len()
    }

    #[inline(always)]
    fn item_at(&mut self, i: usize, tally: &mut Tally) -> u64 {
        if self.found.has(i) {
            return self.found.symbol;
        }
        let matrix = self.matrix.matrix();
        self.found = matrix.find_by_size(&mut self.way, i, tally);
        self.found.symbol
    }
}

impl<'a, A: Allocator + Copy> Borrowing for SortedNumbers<&'a WaveletMatrix<A>> {
    fn second(&self) -> Self {
        SortedNumbers::new(self.matrix)
    }
}

impl<A: Allocator + Copy> Owning for SortedNumbers<WaveletMatrix<A>> {
    fn second(&self) -> Result<Self, AllocError> {
        let matrix = self.matrix.clone()?;
        Ok(SortedNumbers::new(matrix))
    }
}

/// The symbols of a matrix as lists of their bits, in the order `O`, which iterators make one by
/// one.
#[derive(Drop)]
pub struct SymbolLists<O: Order, M: Matrix> {
    matrix: M,
    order: PhantomData<O>,
}

/// The symbols of a matrix as lists of their bits, in their order.
pub type Lists<M> = SymbolLists<InOrder, M>;

/// The symbols of a matrix as lists of their bits, ascending.
pub type SortedLists<M> = SymbolLists<BySize, M>;

impl<O: Order, M: Matrix> Model for SymbolLists<O, M> {
    ghost use Rattle.vers_wavelet.specs.Symbols.{Symbols};

    ghost Value = { Symbols };

    ghost view = { λ s. M.symbols s.matrix };
}

impl<O: Order, M: Matrix> SymbolLists<O, M> {
    fn new(matrix: M) -> Self
        ensures { result ≡ M.symbols matrix }
    {
        SymbolLists {
            matrix,
            order: PhantomData,
        }
    }
}

#[tactic(auto, using(crate::proofs::Items::lists))]
impl<O: Order, M: Matrix> Maker for SymbolLists<O, M> {
    type Item = BitVec<M::Alloc>;

    ghost items = { λ symbols. in_bits symbols.width (ordered O.by_size symbols.items) };

    ghost step = { λ symbols. walk_reads symbols };

    #[inline]
    fn count_items(&self) -> usize {
        self.matrix.matrix().len()
    }

    fn make_at(&mut self, i: usize, tally: &mut Tally) -> Result<BitVec<M::Alloc>, AllocError> {
        let matrix = self.matrix.matrix();
        let mut answer = matrix.zero_symbol()?;
        matrix.element(O::is_by_size(), i, &mut answer, tally);
        Ok(answer)
    }
}

impl<'a, O: Order, A: Allocator + Copy> BorrowingMaker for SymbolLists<O, &'a WaveletMatrix<A>> {
    fn second(&self) -> Self {
        SymbolLists::new(self.matrix)
    }
}

impl<O: Order, A: Allocator + Copy> OwningMaker for SymbolLists<O, WaveletMatrix<A>> {
    fn second(&self) -> Result<Self, AllocError> {
        let matrix = self.matrix.clone()?;
        Ok(SymbolLists::new(matrix))
    }
}

/// An iterator over the symbols as lists of their bits. Each item is allocated, and reads at most what one
/// query does: `2k` rank calls for symbols of `k` bits.
pub type WaveletRefIter<'a, A> = MadeEnds<Lists<&'a WaveletMatrix<A>>>;

/// An iterator over the symbols of a matrix that it owns, as lists of their bits. Each item is allocated, and
/// reads at most what one query does: `2k` rank calls for symbols of `k` bits.
pub type WaveletIter<A> = MadeEnds<Lists<WaveletMatrix<A>>>;

/// An iterator over the symbols, ascending, as lists of their bits. Each item is allocated, and reads at most
/// what one query does: `2k` rank calls for symbols of `k` bits.
pub type WaveletSortedRefIter<'a, A> = MadeEnds<SortedLists<&'a WaveletMatrix<A>>>;

/// An iterator over the symbols of a matrix that it owns, ascending, as lists of their bits. Each item is
/// allocated, and reads at most what one query does: `2k` rank calls for symbols of `k` bits.
pub type WaveletSortedIter<A> = MadeEnds<SortedLists<WaveletMatrix<A>>>;

/// An iterator over the symbols as numbers. Each step reads at most what one query does: `2k` rank
/// calls for symbols of `k` bits.
pub type WaveletNumRefIter<'a, A> = BothEnds<Numbers<&'a WaveletMatrix<A>>>;

/// An iterator over the symbols of a matrix that it owns, as numbers. Each step reads at most what
/// one query does: `2k` rank calls for symbols of `k` bits.
pub type WaveletNumIter<A> = BothEnds<Numbers<WaveletMatrix<A>>>;

/// An iterator over the symbols, ascending, as numbers. Each step reads at most what one query does: `2k` rank
/// calls for symbols of `k` bits.
pub type WaveletSortedNumRefIter<'a, A> = BothEnds<SortedNumbers<&'a WaveletMatrix<A>>>;

/// An iterator over the symbols of a matrix that it owns, ascending, as numbers. Each step reads at most what
/// one query does: `2k` rank calls for symbols of `k` bits.
pub type WaveletSortedNumIter<A> = BothEnds<SortedNumbers<WaveletMatrix<A>>>;

impl<A: Allocator + Copy> WaveletMatrix<A> {
    /// Returns an iterator over the symbols, as lists of their bits.
    pub fn iter(&self) -> WaveletRefIter<'_, A>
        ensures { result ≡ record {
          left = in_bits self.now.width self.now.items;
          step = walk_reads self.now;
        } }
    {
        MadeEnds::new(SymbolLists::new(self))
    }

    /// Returns an iterator over the symbols, ascending, as lists of their bits.
    pub fn iter_sorted(&self) -> WaveletSortedRefIter<'_, A>
        ensures { result ≡ record {
          left = in_bits self.now.width (by_size self.now.items);
          step = walk_reads self.now;
        } }
    {
        MadeEnds::new(SymbolLists::new(self))
    }

    /// Returns an iterator over the symbols, ascending, as lists of their bits, which owns the matrix.
    pub fn into_iter_sorted(self) -> WaveletSortedIter<A>
        ensures { result ≡ record {
          left = in_bits self.width (by_size self.items);
          step = walk_reads self;
        } }
    {
        MadeEnds::new(SymbolLists::new(self))
    }

    /// Returns an iterator over the symbols, as numbers. `None` if they have more than 64 bits.
    pub fn iter_u64(&self) -> Option<WaveletNumRefIter<'_, A>>
        ensures value { IfSome result (λ walk.
            walk ≡ record { left = self.now.items; step = walk_reads self.now }) }
        ensures answered { IsSome result ↔ (self.now.width ≤ 64) }
    {
        if !self.fits_word() {
            return None;
        }
        Some(BothEnds::new(Numbers::new(self)))
    }

    /// Returns an iterator over the symbols, as numbers, which owns the matrix. `None` if they have more than
    /// 64 bits.
    pub fn into_iter_u64(self) -> Option<WaveletNumIter<A>>
        ensures value { IfSome result (λ walk.
            walk ≡ record { left = self.items; step = walk_reads self }) }
        ensures answered { IsSome result ↔ (self.width ≤ 64) }
    {
        if !self.fits_word() {
            return None;
        }
        Some(BothEnds::new(Numbers::new(self)))
    }

    /// Returns an iterator over the symbols, ascending, as numbers. `None` if they have more than 64 bits.
    pub fn iter_sorted_u64(&self) -> Option<WaveletSortedNumRefIter<'_, A>>
        ensures value { IfSome result (λ walk.
            walk ≡ record { left = by_size self.now.items; step = walk_reads self.now }) }
        ensures answered { IsSome result ↔ (self.now.width ≤ 64) }
    {
        if !self.fits_word() {
            return None;
        }
        Some(BothEnds::new(SortedNumbers::new(self)))
    }

    /// Returns an iterator over the symbols, ascending, as numbers, which owns the matrix. `None` if they have
    /// more than 64 bits.
    pub fn into_iter_sorted_u64(self) -> Option<WaveletSortedNumIter<A>>
        ensures value { IfSome result (λ walk.
            walk ≡ record { left = by_size self.items; step = walk_reads self }) }
        ensures answered { IsSome result ↔ (self.width ≤ 64) }
    {
        if !self.fits_word() {
            return None;
        }
        Some(BothEnds::new(SortedNumbers::new(self)))
    }
}

impl<'a, A: Allocator + Copy> IntoIterator for &'a WaveletMatrix<A> {
    type Item = Result<BitVec<A>, AllocError>;

    type IntoIter = WaveletRefIter<'a, A>;

    ghost into_iter_gives = { λ matrix items. items ≡ record {
      left = in_bits matrix.now.width matrix.now.items;
      step = walk_reads matrix.now;
    } };

    fn into_iter(self) -> WaveletRefIter<'a, A> {
        self.iter()
    }
}

impl<'a, A: Allocator + Copy> IntoIterator for &'a mut WaveletMatrix<A> {
    type Item = Result<BitVec<A>, AllocError>;

    type IntoIter = WaveletRefIter<'a, A>;

    ghost into_iter_gives = { λ matrix items. items ≡ record {
      left = in_bits matrix.now.width matrix.now.items;
      step = walk_reads matrix.now;
    } };

    fn into_iter(self) -> WaveletRefIter<'a, A> {
        self.iter()
    }
}

impl<A: Allocator + Copy> IntoIterator for WaveletMatrix<A> {
    type Item = Result<BitVec<A>, AllocError>;

    type IntoIter = WaveletIter<A>;

    ghost into_iter_gives = { λ matrix items. items ≡ record {
      left = in_bits matrix.width matrix.items;
      step = walk_reads matrix;
    } };

    /// Returns an iterator over the symbols, as lists of their bits, which owns the matrix.
    fn into_iter(self) -> WaveletIter<A> {
        MadeEnds::new(SymbolLists::new(self))
    }
}
