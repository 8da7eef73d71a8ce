//! The sources of lists of symbols.
ghost use Rattle.std.specs.Prelude.{◌≡◌, ℕ, ◌+◌, ◌-◌, ◌*◌, ◌/◌, ◌%◌, ◌^◌, ◌<◌, ◌≤◌, [], List, length, slice_get, Some};
ghost use Rattle.std.specs.List.{range_with_len};
ghost use Rattle.vers_bits.specs.Bits.{number, part};
ghost use Rattle.vers_wavelet.specs.Makers.{digit};
ghost use Rattle.vers_wavelet.specs.inside.Makers.{prefix};

use crate::wavelet::integer::Integer;
use std::alloc::Allocator;
use vers_bits::bit_vec::{BitVec, MAX_LEN};

// Items that represent numbers, of which only the `width` low digits count.
pub(super) trait Source {
    type Item: Copy + Drop;

    ghost items: { Self → List Self.Item };

    ghost number: { Self → Self.Item → ℕ };

    ghost width: { Self → ℕ };

    // The items of this source.
    ghost has: { Self → Self.Item → Type 0 };

    // Returns the number of items.
    fn len(&self) -> usize
        ensures value { result ≡ length (items self.now) }
        ensures bounded { result ≤ MAX_LEN };

    // Returns the number of digits that count.
    fn width(&self) -> usize
        ensures { result ≡ width self.now };

    // Returns item `i`.
    fn item(&self, i: usize) -> Self::Item
        requires { i < length (items self.now) }
        ensures value { slice_get (items self.now) i ≡ Some result }
        ensures has { has self.now result };

    // Returns true if digit `i` of an item's number is 1.
    fn digit(&self, item: Self::Item, i: usize) -> bool
        requires has { has self.now item }
        requires within { i < width self.now }
        ensures { result ≡ digit (number self.now item) i };

    // Returns the `n` highest of the digits that count, as a number.
    fn prefix(&self, item: Self::Item, n: usize) -> usize
        requires has { has self.now item }
        requires within { n ≤ width self.now }
        requires narrow { width self.now < 64 }
        ensures { result ≡ prefix (width self.now) n (number self.now item) };
}

// The numbers of a slice. An item is the number itself.
#[derive(Drop)]
pub(super) struct Words<'a, N: Integer> {
    numbers: &'a [N],
    width: usize,
    ghost narrow: { width ≤ 64 },
}

impl<'a, N: Integer> Words<'a, N> {
    // Returns the low digits of the numbers; no items if no digits count.
    pub(super) fn new(numbers: &'a [N], width: usize) -> Self
        requires { width ≤ 64 }
        ensures width { result.width ≡ width }
        ensures none { width ≡ 0 → result.numbers.now ≡ [] }
        ensures all { 0 < width → result.numbers.now ≡ numbers.now }
    {
        let kept = if width == 0 { 0 } else { numbers.len() };
        Words {
            numbers: numbers.split_at(kept).0,
            width,
        }
    }
}

impl<'a, N: Integer> Source for Words<'a, N> {
    type Item = N;

    ghost items = { λ s. s.numbers.now };

    ghost number = { λ _ item. N.value item };

    ghost width = { λ s. s.width };

    ghost has = { λ _ _. Unit {0} };

    fn len(&self) -> usize {
        N::len_of(self.numbers)
    }

    fn width(&self) -> usize {
        self.width
    }

    fn item(&self, i: usize) -> N {
        self.numbers[i]
    }

    #[inline(always)]
    #[tactic(auto, using(crate::proofs::Digits::words))]
    fn digit(&self, item: N, i: usize) -> bool {
        (item.number() >> i) & 1 == 1
    }

    #[inline(always)]
    #[tactic(auto, using(crate::proofs::Sources::words))]
    fn prefix(&self, item: N, n: usize) -> usize {
        (item.number() >> (self.width - n)) & ((1 << n) - 1)
    }
}

// The packed numbers of a list of bits. An item is the index of a number.
#[derive(Drop)]
pub(super) struct Packed<'a, A: Allocator + Copy> {
    bits: &'a BitVec<A>,
    width: usize,
    ghost some: { 0 < width },
    ghost short: { length bits.now ≤ 18446744073709551552 },
}

impl<'a, A: Allocator + Copy> Packed<'a, A> {
    // Returns the numbers of `width` bits each.
    pub(super) fn new(bits: &'a BitVec<A>, width: usize) -> Self
        requires { 0 < width }
        ensures bits { result.bits.now ≡ bits.now }
        ensures width { result.width ≡ width }
    {
        // The length is known to be at most `MAX_LEN`.
        let _ = bits.len();
        Packed { bits, width }
    }
}

#[tactic(auto, using(crate::proofs::Sources::packed))]
impl<'a, A: Allocator + Copy> Source for Packed<'a, A> {
    type Item = usize;

    ghost items = { λ s. range_with_len 0 (length s.bits.now / s.width) };

    ghost number = { λ s e. number (part s.bits.now (e * s.width) s.width) };

    ghost width = { λ s. s.width };

    ghost has = { λ s e. e * s.width + s.width ≤ length s.bits.now };

    fn len(&self) -> usize {
        self.bits.len() / self.width
    }

    fn width(&self) -> usize {
        self.width
    }

    fn item(&self, i: usize) -> usize {
        i
    }

    #[inline(always)]
    fn digit(&self, item: usize, i: usize) -> bool {
        self.bits.is_bit_set_unchecked(item * self.width + i)
    }

    #[inline(always)]
    fn prefix(&self, item: usize, n: usize) -> usize {
        let start = item * self.width + (self.width - n);
        self.bits.get_bits_unchecked(start, n) as usize
    }
}
