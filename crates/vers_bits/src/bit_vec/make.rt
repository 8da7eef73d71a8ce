//! Constructors of lists of bits.
ghost use Rattle.std.specs.Prelude.{◌≡◌, ℕ, Bool, ◌+◌, ◌-◌, ◌*◌, ◌/◌, ◌%◌, ◌^◌, ◌<◌, ◌≤◌, ◌↔◌, ◌==◌, List, [], ◌∷◌, ◌++◌, length, map, flat_map, replicate, true, false, IfOk, IfErr, IsOk, OnOk, OnErr, Some, None, if◌then◌else◌};
ghost use Rattle.std.specs.Iterator.{Drains, IsFinite, YieldsThen};
ghost use Rattle.vers_bits.specs.Bits.{bit_value, number, low_bits, pack};
ghost use Rattle.vers_bits.specs.Makers.{StopsAt};

use crate::bit_vec::words::cut;
use crate::bit_vec::{BitVec, GrowError, MAX_LEN};
use std::alloc::Allocator;

// The items that lists of bits are made of: numbers of up to 64 bits, and booleans.
trait Item: Copy + Drop {
    ghost number: { Self → ℕ };

    ghost is_odd: { Self → Bool };

    // Returns the item as a number.
    fn number(self) -> u64
        ensures { result ≡ number self };

    // Returns true if the number is odd.
    fn is_odd(self) -> bool
        ensures { result ≡ is_odd self };
}

impl Item for bool {
    ghost number = { bit_value };

    ghost is_odd = { λ bit. bit };

    fn number(self) -> u64 {
        u64::from(self)
    }

    fn is_odd(self) -> bool {
        self
    }
}

impl Item for u8 {
    ghost number = { λ n. n };

    ghost is_odd = { λ n. n % 2 == 1 };

    fn number(self) -> u64 {
        u64::from(self)
    }

    fn is_odd(self) -> bool {
        self % 2 == 1
    }
}

impl Item for u16 {
    ghost number = { λ n. n };

    ghost is_odd = { λ n. n % 2 == 1 };

    fn number(self) -> u64 {
        u64::from(self)
    }

    fn is_odd(self) -> bool {
        self % 2 == 1
    }
}

impl Item for u32 {
    ghost number = { λ n. n };

    ghost is_odd = { λ n. n % 2 == 1 };

    fn number(self) -> u64 {
        u64::from(self)
    }

    fn is_odd(self) -> bool {
        self % 2 == 1
    }
}

impl Item for u64 {
    ghost number = { λ n. n };

    ghost is_odd = { λ n. n % 2 == 1 };

    fn number(self) -> u64 {
        self
    }

    fn is_odd(self) -> bool {
        self % 2 == 1
    }
}

#[tactic(auto, using(crate::proofs::Limbs::from_words))]
impl<A: Allocator + Copy> BitVec<A> {
    /// Returns the empty list, with room for `n` bits.
    ///
    /// # Errors
    ///
    /// `TooLong` if `n` is above `MAX_LEN`; `Memory` if the allocator refuses a request.
    #[tactic(auto, unfolding(crate::specs::inside::Words::word_bits))]
    pub fn with_capacity(alloc: A, n: usize) -> Result<Self, GrowError>
        ensures made { IfOk result (λ v. v ≡ []) }
        ensures too_long { (result ≡ Err GrowError.TooLong) ↔ (MAX_LEN < n) }
    {
        check_len(n)?;
        let data = Vec::with_capacity(alloc, n.div_ceil(64))?;
        Ok(BitVec { data, len: 0 })
    }

    // Returns a list of `n` equal bits.
    #[tactic(auto, using(crate::proofs::Filling::fills))]
    fn from_equal(alloc: A, bit: bool, n: usize) -> Result<Self, GrowError>
        ensures made { IfOk result (λ v. v ≡ replicate n bit) }
        ensures too_long { (result ≡ Err GrowError.TooLong) ↔ (MAX_LEN < n) }
    {
        check_len(n)?;
        let word = equal_word(bit);
        let mut data = Vec::new(alloc);
        data.resize(n.div_ceil(64), word)?;
        cut(&mut data, n);
        Ok(BitVec { data, len: n })
    }

    /// Returns a list of `n` zeros.
    ///
    /// # Errors
    ///
    /// `TooLong` if `n` is above `MAX_LEN`; `Memory` if the allocator refuses a request.
    pub fn from_zeros(alloc: A, n: usize) -> Result<Self, GrowError>
        ensures made { IfOk result (λ v. v ≡ replicate n false) }
        ensures too_long { (result ≡ Err GrowError.TooLong) ↔ (MAX_LEN < n) }
    {
        BitVec::from_equal(alloc, false, n)
    }

    /// Returns a list of `n` ones.
    ///
    /// # Errors
    ///
    /// `TooLong` if `n` is above `MAX_LEN`; `Memory` if the allocator refuses a request.
    pub fn from_ones(alloc: A, n: usize) -> Result<Self, GrowError>
        ensures made { IfOk result (λ v. v ≡ replicate n true) }
        ensures too_long { (result ≡ Err GrowError.TooLong) ↔ (MAX_LEN < n) }
    {
        BitVec::from_equal(alloc, true, n)
    }

    /// Returns the bits of the limbs, 64 of each, least significant first. Allocates nothing. Errors: `TooLong`
    /// if they exceed `MAX_LEN` bits; the limbs are then dropped.
    pub fn from_vec(limbs: Vec<u64, A>) -> Result<Self, GrowError>
        ensures made { IfOk result (λ v. v ≡ pack limbs.items 64) }
        ensures too_long { (result ≡ Err GrowError.TooLong) ↔ (MAX_LEN < 64 * length limbs.items) }
        ensures room { 64 * length limbs.items ≤ MAX_LEN → IsOk result }
    {
        let len = bits_of_limbs(limbs.len())?;
        Ok(BitVec { data: limbs, len })
    }

    /// Returns the bits of the limbs, 64 of each, least significant first.
    ///
    /// # Errors
    ///
    /// `TooLong` if they exceed `MAX_LEN` bits, which is tested before any allocation; `Memory` if the
    /// allocator refuses a request.
    pub fn from_limbs(alloc: A, limbs: &[u64]) -> Result<Self, GrowError>
        ensures made { IfOk result (λ v. v ≡ pack limbs.now 64) }
        ensures too_long { (result ≡ Err GrowError.TooLong) ↔ (MAX_LEN < 64 * length limbs.now) }
    {
        bits_of_limbs(limbs.len())?;
        BitVec::from_vec(Vec::from_slice(alloc, limbs)?)
    }

    // Returns the lowest bit of each item of a slice.
    fn odd_items<T: Item>(alloc: A, items: &[T]) -> Result<Self, GrowError>
        ensures made { IfOk result (λ v. v ≡ map T.is_odd items.now) }
        ensures too_long { (result ≡ Err GrowError.TooLong) ↔ (MAX_LEN < length items.now) }
    {
        let mut list = BitVec::with_capacity(alloc, items.len())?;
        let mut rest = items;
        while !rest.is_empty() {
            let (limb, others) = rest.split_at(rest.len().min(64));
            list.append_bits(parities(limb), limb.len())?;
            rest = others;
        }
        Ok(list)
    }

    // Returns the lowest bit of each remaining item of an iterator. On error, the iterator has just passed the
    // item that was not appended. The first bit of each limb is appended, which may allocate. The others are
    // gathered in a word until the limb is full.
    #[inline(always)]
    fn odd_items_of<T: Item, I: Iterator<Item = T>>(
        alloc: A,
        items: &mut I,
    ) -> Result<Self, GrowError>
        requires can { I.can_next items.old }
        requires ends { IsFinite (I.remaining items.old) }
        ensures made { IfOk result (λ v. (xs : List T) × YieldsThen I.next_gives items.old xs None items.new
            × (v ≡ map T.is_odd xs)) }
        ensures refused { IfErr result (λ e. (xs : List T) × (x : T)
            × YieldsThen I.next_gives items.old xs (Some x) items.new
            × ((e ≡ GrowError.TooLong) ↔ (MAX_LEN < length xs + 1))) }
    {
        let mut list = BitVec::new(alloc);
        let mut word = 0;
        let mut gathered = 0;
        let mut room = 0;
        while let Some(item) = items.next() {
            if gathered < room {
                word = with_digit(word, gathered, item.is_odd());
                gathered += 1;
            } else {
                list.append_within(word, gathered);
                list.append(item.is_odd())?;
                word = 0;
                gathered = 0;
                room = 63;
            }
        }
        list.append_within(word, gathered);
        Ok(list)
    }

    // Returns the low `k` digits of each item of a slice.
    fn packed_items<T: Item>(alloc: A, items: &[T], k: usize) -> Result<Self, GrowError>
        ensures made { IfOk result (λ v. v ≡ flat_map (λ x. low_bits (T.number x) k) items.now) }
        ensures too_long { (result ≡ Err GrowError.TooLong) ↔ (MAX_LEN < length items.now * k) }
    {
        let Some(len) = items.len().checked_mul(k) else {
            return Err(GrowError::TooLong);
        };
        let mut list = BitVec::with_capacity(alloc, len)?;
        for item in items {
            if list.append_digits(item.number(), k).is_err() {
                return Err(GrowError::Memory);
            }
        }
        Ok(list)
    }

    // Returns the low `k` digits of each remaining item of an iterator. On error, the iterator has just passed
    // the item that was not appended.
    #[inline(always)]
    fn packed_items_of<T: Item, I: Iterator<Item = T>>(
        alloc: A,
        items: &mut I,
        k: usize,
    ) -> Result<Self, GrowError>
        requires can { I.can_next items.old }
        requires ends { IsFinite (I.remaining items.old) }
        ensures made { IfOk result (λ v. (xs : List T) × YieldsThen I.next_gives items.old xs None items.new
            × (v ≡ flat_map (λ x. low_bits (T.number x) k) xs)) }
        ensures refused { IfErr result (λ e. (xs : List T) × (x : T)
            × YieldsThen I.next_gives items.old xs (Some x) items.new
            × ((e ≡ GrowError.TooLong) ↔ (MAX_LEN < (length xs + 1) * k))) }
    {
        let mut list = BitVec::new(alloc);
        while let Some(item) = items.next() {
            list.append_digits(item.number(), k)?;
        }
        Ok(list)
    }

    /// Returns the lowest bit of each item.
    ///
    /// # Errors
    ///
    /// `TooLong` if there are more than `MAX_LEN` items; `Memory` if the allocator refuses a request.
    pub fn from_bits(alloc: A, bits: &[u8]) -> Result<Self, GrowError>
        ensures made { IfOk result (λ v. v ≡ map (λ n. n % 2 == 1) bits.now) }
        ensures too_long { (result ≡ Err GrowError.TooLong) ↔ (MAX_LEN < length bits.now) }
    {
        BitVec::odd_items(alloc, bits)
    }

    /// Returns the lowest bit of each item.
    ///
    /// # Errors
    ///
    /// `TooLong` if there are more than `MAX_LEN` items; `Memory` if the allocator refuses a request.
    pub fn from_bits_u16(alloc: A, bits: &[u16]) -> Result<Self, GrowError>
        ensures made { IfOk result (λ v. v ≡ map (λ n. n % 2 == 1) bits.now) }
        ensures too_long { (result ≡ Err GrowError.TooLong) ↔ (MAX_LEN < length bits.now) }
    {
        BitVec::odd_items(alloc, bits)
    }

    /// Returns the lowest bit of each item.
    ///
    /// # Errors
    ///
    /// `TooLong` if there are more than `MAX_LEN` items; `Memory` if the allocator refuses a request.
    pub fn from_bits_u32(alloc: A, bits: &[u32]) -> Result<Self, GrowError>
        ensures made { IfOk result (λ v. v ≡ map (λ n. n % 2 == 1) bits.now) }
        ensures too_long { (result ≡ Err GrowError.TooLong) ↔ (MAX_LEN < length bits.now) }
    {
        BitVec::odd_items(alloc, bits)
    }

    /// Returns the lowest bit of each item.
    ///
    /// # Errors
    ///
    /// `TooLong` if there are more than `MAX_LEN` items; `Memory` if the allocator refuses a request.
    pub fn from_bits_u64(alloc: A, bits: &[u64]) -> Result<Self, GrowError>
        ensures made { IfOk result (λ v. v ≡ map (λ n. n % 2 == 1) bits.now) }
        ensures too_long { (result ≡ Err GrowError.TooLong) ↔ (MAX_LEN < length bits.now) }
    {
        BitVec::odd_items(alloc, bits)
    }

    /// Returns the lowest bit of each item of a finite iterator.
    ///
    /// # Errors
    ///
    /// `TooLong` at the item that would exceed `MAX_LEN` bits; `Memory` if the allocator refuses a request.
    pub fn from_bits_iter<I: Iterator<Item = u64> + Drop>(
        alloc: A,
        mut bits: I,
    ) -> Result<Self, GrowError>
        requires can { I.can_next bits }
        requires ends { IsFinite (I.remaining bits) }
        ensures made { IfOk result
            (λ v. (xs : List ℕ) × Drains I.next_gives bits xs × (v ≡ map (λ n. n % 2 == 1) xs)) }
        ensures refused { IfErr result (λ e. StopsAt I.next_gives bits
            (λ xs x. (e ≡ GrowError.TooLong) ↔ (MAX_LEN < length xs + 1))) }
    {
        BitVec::odd_items_of(alloc, &mut bits)
    }

    /// Returns the booleans as bits.
    ///
    /// # Errors
    ///
    /// `TooLong` if there are more than `MAX_LEN`; `Memory` if the allocator refuses a request.
    pub fn from_bools(alloc: A, bools: &[bool]) -> Result<Self, GrowError>
        ensures made { IfOk result (λ v. v ≡ bools.now) }
        ensures too_long { (result ≡ Err GrowError.TooLong) ↔ (MAX_LEN < length bools.now) }
    {
        BitVec::odd_items(alloc, bools)
    }

    /// Returns the booleans of a finite iterator as bits.
    ///
    /// # Errors
    ///
    /// `TooLong` at the one that would exceed `MAX_LEN` bits; `Memory` if the allocator refuses a request.
    pub fn from_bool_iter<I: Iterator<Item = bool> + Drop>(
        alloc: A,
        mut bools: I,
    ) -> Result<Self, GrowError>
        requires can { I.can_next bools }
        requires ends { IsFinite (I.remaining bools) }
        ensures made { IfOk result (λ v. Drains I.next_gives bools v) }
        ensures refused { IfErr result (λ e. StopsAt I.next_gives bools
            (λ xs x. (e ≡ GrowError.TooLong) ↔ (MAX_LEN < length xs + 1))) }
    {
        BitVec::odd_items_of(alloc, &mut bools)
    }

    /// Returns the bits of the limbs of a finite iterator, 64 of each, least significant first.
    ///
    /// # Errors
    ///
    /// `TooLong` at the limb that would exceed `MAX_LEN` bits; `Memory` if the allocator refuses a request.
    pub fn from_limbs_iter<I: Iterator<Item = u64> + Drop>(
        alloc: A,
        mut limbs: I,
    ) -> Result<Self, GrowError>
        requires can { I.can_next limbs }
        requires ends { IsFinite (I.remaining limbs) }
        ensures made { IfOk result (λ v. (xs : List ℕ) × Drains I.next_gives limbs xs
            × (v ≡ pack xs 64)) }
        ensures refused { IfErr result (λ e. StopsAt I.next_gives limbs
            (λ xs x. (e ≡ GrowError.TooLong) ↔ (MAX_LEN < (length xs + 1) * 64))) }
    {
        BitVec::packed_items_of(alloc, &mut limbs, 64)
    }

    /// Returns the low `k` bits of each number, one after another, with zeros above its 8 bits.
    ///
    /// # Errors
    ///
    /// `TooLong` if they exceed `MAX_LEN`, which is tested before any allocation; `Memory` if the allocator
    /// refuses a request.
    pub fn pack_sequence_u8(alloc: A, sequence: &[u8], k: usize) -> Result<Self, GrowError>
        ensures made { IfOk result (λ v. v ≡ pack sequence.now k) }
        ensures too_long { (result ≡ Err GrowError.TooLong) ↔ (MAX_LEN < length sequence.now * k) }
    {
        BitVec::packed_items(alloc, sequence, k)
    }

    /// Returns the low `k` bits of each number, one after another, with zeros above its 16 bits.
    ///
    /// # Errors
    ///
    /// `TooLong` if they exceed `MAX_LEN`, which is tested before any allocation; `Memory` if the allocator
    /// refuses a request.
    pub fn pack_sequence_u16(alloc: A, sequence: &[u16], k: usize) -> Result<Self, GrowError>
        ensures made { IfOk result (λ v. v ≡ pack sequence.now k) }
        ensures too_long { (result ≡ Err GrowError.TooLong) ↔ (MAX_LEN < length sequence.now * k) }
    {
        BitVec::packed_items(alloc, sequence, k)
    }

    /// Returns the low `k` bits of each number, one after another, with zeros above its 32 bits.
    ///
    /// # Errors
    ///
    /// `TooLong` if they exceed `MAX_LEN`, which is tested before any allocation; `Memory` if the allocator
    /// refuses a request.
    pub fn pack_sequence_u32(alloc: A, sequence: &[u32], k: usize) -> Result<Self, GrowError>
        ensures made { IfOk result (λ v. v ≡ pack sequence.now k) }
        ensures too_long { (result ≡ Err GrowError.TooLong) ↔ (MAX_LEN < length sequence.now * k) }
    {
        BitVec::packed_items(alloc, sequence, k)
    }

    /// Returns the low `k` bits of each number, one after another, with zeros above its 64 bits.
    ///
    /// # Errors
    ///
    /// `TooLong` if they exceed `MAX_LEN`, which is tested before any allocation; `Memory` if the allocator
    /// refuses a request.
    pub fn pack_sequence_u64(alloc: A, sequence: &[u64], k: usize) -> Result<Self, GrowError>
        ensures made { IfOk result (λ v. v ≡ pack sequence.now k) }
        ensures too_long { (result ≡ Err GrowError.TooLong) ↔ (MAX_LEN < length sequence.now * k) }
    {
        BitVec::packed_items(alloc, sequence, k)
    }

    /// Returns the low `k` bits of each number of a finite iterator, with zeros above its 8 bits.
    ///
    /// # Errors
    ///
    /// `TooLong` at the number that would exceed `MAX_LEN` bits; `Memory` if the allocator refuses a request.
    pub fn pack_from_iter_u8<I: Iterator<Item = u8> + Drop>(
        alloc: A,
        mut sequence: I,
        k: usize,
    ) -> Result<Self, GrowError>
        requires can { I.can_next sequence }
        requires ends { IsFinite (I.remaining sequence) }
        ensures made { IfOk result (λ v. (xs : List ℕ) × Drains I.next_gives sequence xs
            × (v ≡ pack xs k)) }
        ensures refused { IfErr result (λ e. StopsAt I.next_gives sequence
            (λ xs x. (e ≡ GrowError.TooLong) ↔ (MAX_LEN < (length xs + 1) * k))) }
    {
        BitVec::packed_items_of(alloc, &mut sequence, k)
    }

    /// Returns the low `k` bits of each number of a finite iterator, with zeros above its 16 bits.
    ///
    /// # Errors
    ///
    /// `TooLong` at the number that would exceed `MAX_LEN` bits; `Memory` if the allocator refuses a request.
    pub fn pack_from_iter_u16<I: Iterator<Item = u16> + Drop>(
        alloc: A,
        mut sequence: I,
        k: usize,
    ) -> Result<Self, GrowError>
        requires can { I.can_next sequence }
        requires ends { IsFinite (I.remaining sequence) }
        ensures made { IfOk result (λ v. (xs : List ℕ) × Drains I.next_gives sequence xs
            × (v ≡ pack xs k)) }
        ensures refused { IfErr result (λ e. StopsAt I.next_gives sequence
            (λ xs x. (e ≡ GrowError.TooLong) ↔ (MAX_LEN < (length xs + 1) * k))) }
    {
        BitVec::packed_items_of(alloc, &mut sequence, k)
    }

    /// Returns the low `k` bits of each number of a finite iterator, with zeros above its 32 bits.
    ///
    /// # Errors
    ///
    /// `TooLong` at the number that would exceed `MAX_LEN` bits; `Memory` if the allocator refuses a request.
    pub fn pack_from_iter_u32<I: Iterator<Item = u32> + Drop>(
        alloc: A,
        mut sequence: I,
        k: usize,
    ) -> Result<Self, GrowError>
        requires can { I.can_next sequence }
        requires ends { IsFinite (I.remaining sequence) }
        ensures made { IfOk result (λ v. (xs : List ℕ) × Drains I.next_gives sequence xs
            × (v ≡ pack xs k)) }
        ensures refused { IfErr result (λ e. StopsAt I.next_gives sequence
            (λ xs x. (e ≡ GrowError.TooLong) ↔ (MAX_LEN < (length xs + 1) * k))) }
    {
        BitVec::packed_items_of(alloc, &mut sequence, k)
    }

    /// Returns the low `k` bits of each number of a finite iterator, with zeros above its 64 bits.
    ///
    /// # Errors
    ///
    /// `TooLong` at the number that would exceed `MAX_LEN` bits; `Memory` if the allocator refuses a request.
    pub fn pack_from_iter_u64<I: Iterator<Item = u64> + Drop>(
        alloc: A,
        mut sequence: I,
        k: usize,
    ) -> Result<Self, GrowError>
        requires can { I.can_next sequence }
        requires ends { IsFinite (I.remaining sequence) }
        ensures made { IfOk result (λ v. (xs : List ℕ) × Drains I.next_gives sequence xs
            × (v ≡ pack xs k)) }
        ensures refused { IfErr result (λ e. StopsAt I.next_gives sequence
            (λ xs x. (e ≡ GrowError.TooLong) ↔ (MAX_LEN < (length xs + 1) * k))) }
    {
        BitVec::packed_items_of(alloc, &mut sequence, k)
    }
}

// Errors: `TooLong` if `len` is above `MAX_LEN`.
fn check_len(len: usize) -> Result<(), GrowError>
    ensures exact { (result ≡ Err GrowError.TooLong) ↔ (MAX_LEN < len) }
    ensures within { len ≤ MAX_LEN → IsOk result }
{
    if len > MAX_LEN {
        return Err(GrowError::TooLong);
    }
    Ok(())
}

// Returns the number of bits of that many limbs. Errors: `TooLong` if it is above `MAX_LEN`.
fn bits_of_limbs(limbs: usize) -> Result<usize, GrowError>
    ensures value { IfOk result (λ len. len ≡ 64 * limbs) }
    ensures exact { (result ≡ Err GrowError.TooLong) ↔ (MAX_LEN < 64 * limbs) }
    ensures within { 64 * limbs ≤ MAX_LEN → IsOk result }
{
    if limbs > MAX_LEN / 64 {
        return Err(GrowError::TooLong);
    }
    Ok(64 * limbs)
}

// Returns a word of 64 equal bits.
fn equal_word(bit: bool) -> u64
    ensures { result ≡ (if bit then 18446744073709551615 else 0) }
{
    if bit { u64::MAX } else { 0 }
}

// Returns the number whose digits are the lowest bits of the items, the first item's lowest.
fn parities<T: Item>(items: &[T]) -> u64
    requires { length items.now ≤ 64 }
    ensures { result ≡ number (map T.is_odd items.now) }
{
    let mut word = 0;
    for position in (0..items.len()).rev() {
        word = 2 * word + u64::from(items[position].is_odd());
    }
    word
}

// Returns a number of `n` digits with one more digit above them.
#[tactic(auto, using(crate::proofs::Gather::digits))]
fn with_digit(word: u64, n: usize, digit: bool) -> u64
    requires short { n < 64 }
    requires small { word < 2 ^ n }
    ensures digits { low_bits result (n + 1) ≡ low_bits word n ++ digit ∷ [] }
    ensures small { result < 2 ^ (n + 1) }
{
    word | (u64::from(digit) << n)
}
