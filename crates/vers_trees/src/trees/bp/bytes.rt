//! Lookup tables for whole bytes of parentheses.
ghost use Rattle.std.specs.Prelude.{◌≡◌, ℕ, ◌+◌, ◌*◌, ◌-◌, ◌^◌, ◌<◌, ◌≤◌, ◌⊎◌, ℤ, ◌+ℤ◌, ◌-ℤ◌, ◌≤ℤ◌, ◌≢◌, Bool, true, false, List, length, pos, negsuc, min, max, slice_index_or, slice_set, MatchOption};
ghost use Rattle.vers_trees.specs.Bytes.{IsByte, IsEntry, position_along, position_in, least_in, greatest_in};
ghost use Rattle.vers_trees.specs.inside.Bytes.{step_along, octal};

use std::marker::Model;

/// For each byte of parentheses the sums along it, from its start and from its end. An entry contains the
/// greatest of the sums along the byte in bits 0 to 4 and the least in bits 5 to 9, each plus 8, and from bit
/// 10 on three bits for each sum from -8 to 8: the first position whose bit makes it, or 7 if there is none.
#[derive(Drop)]
pub struct ByteTables {
    forward: [u64; 256],
    backward: [u64; 256],
}

impl Model for ByteTables {
    ghost use Rattle.std.specs.Prelude.{true, false};
    ghost use Rattle.vers_trees.specs.inside.Bytes.{AreEntries};

    ghost Value = { Unit {0} };

    ghost view = { λ _. tt };

    ghost invariant = { λ t. AreEntries false 256 t.forward × AreEntries true 256 t.backward };
}

// An entry of a table. Only a lookup makes one, so a function that takes one knows that the byte was looked up.
#[derive(Drop)]
pub(super) struct Entry {
    packed: u64,
}

impl Model for Entry {
    ghost use Rattle.std.specs.Prelude.{ℕ};

    ghost Value = { ℕ };

    ghost view = { λ entry. entry.packed };
}

impl ByteTables {
    /// Returns the tables of all bytes. Allocates nothing.
    pub fn new() -> ByteTables {
        let mut forward = [0; 256];
        let mut backward = [0; 256];
        for byte in 0..256 {
            let from_start = entry_of(byte, false);
            let from_end = entry_of(byte, true);
            forward[byte] = from_start;
            backward[byte] = from_end;
        }
        ByteTables { forward, backward }
    }

    // Returns a copy of the tables.
    pub(super) fn copied(&self) -> ByteTables {
        ByteTables {
            forward: self.forward,
            backward: self.backward,
        }
    }

    /// Returns the entry of a byte from its start, where a one adds 1 and a zero subtracts 1.
    #[inline(always)]
    pub fn forward_entry(&self, byte: u8) -> u64
        ensures { (bits : List Bool) → IsByte bits byte → IsEntry false bits result }
    {
        self.met_forward(byte).packed
    }

    /// Returns the entry of a byte from its end, where a one subtracts 1 and a zero adds 1.
    #[inline(always)]
    pub fn backward_entry(&self, byte: u8) -> u64
        ensures { (bits : List Bool) → IsByte bits byte → IsEntry true bits result }
    {
        self.met_backward(byte).packed
    }

    // Returns the entry of a byte from its start.
    #[inline(always)]
    pub(super) fn met_forward(&self, byte: u8) -> Entry
        ensures { (bits : List Bool) → IsByte bits byte → IsEntry false bits result }
    {
        Entry {
            packed: self.forward[byte as usize],
        }
    }

    // Returns the entry of a byte from its end.
    #[inline(always)]
    pub(super) fn met_backward(&self, byte: u8) -> Entry
        ensures { (bits : List Bool) → IsByte bits byte → IsEntry true bits result }
    {
        Entry {
            packed: self.backward[byte as usize],
        }
    }
}

// The sums along a byte so far: the least and the greatest sum, each plus 8, and the first position of each
// sum, 7 if there is none.
#[derive(Drop)]
struct Met {
    positions: [u64; 17],
    least: usize,
    greatest: usize,
}

impl Met {
    // Records a sum, plus 8, at a position.
    fn meet(&mut self, value: usize, position: u64)
        requires { value < 17 }
        ensures least { self.new.least ≡ min self.old.least value }
        ensures greatest { self.new.greatest ≡ max self.old.greatest value }
        ensures again { self.old.least ≤ value → value ≤ self.old.greatest
            → self.new.positions ≡ self.old.positions }
        ensures first { (value < self.old.least) ⊎ (self.old.greatest < value)
            → self.new.positions ≡ slice_set self.old.positions value position }
    {
        if value < self.least || value > self.greatest {
            self.positions[value] = position;
        }
        self.least = self.least.min(value);
        self.greatest = self.greatest.max(value);
    }

    // Returns the entry of the recorded sums.
    fn entry(&self) -> u64
        requires positions { (x : ℕ) → slice_index_or self.now.positions x 7 < 8 }
        requires least { self.now.least < 32 }
        requires greatest { self.now.greatest < 32 }
        ensures greatest { greatest_in result ≡ self.now.greatest }
        ensures least { least_in result ≡ self.now.least }
        ensures positions { (x : ℕ) → x < 17 → position_in result x ≡ slice_index_or self.now.positions x 7 }
    {
        1024 * number_of(&self.positions) + 32 * self.least as u64 + self.greatest as u64
    }
}

// Returns the number with these octal digits, the lowest first.
fn number_of(digits: &[u64; 17]) -> u64
    requires { (x : ℕ) → slice_index_or digits.now x 7 < 8 }
    ensures value { result ≡ octal digits.now }
    ensures bounded { result < 2 ^ 51 }
{
    let mut number = 0;
    let mut x = 17;
    while x > 0 {
        x -= 1;
        number = 8 * number + digits[x];
    }
    number
}

// Returns the position of the bit at which a step along a byte is made.
fn position_of(step: u64, from_end: bool) -> u64
    requires { step < 8 }
    ensures { result ≡ position_along from_end step }
{
    if from_end { 7 - step } else { step }
}

// Returns the sum, plus 8, after a step at a bit.
fn stepped(value: usize, opens: bool, from_end: bool) -> usize
    requires low { 0 < value }
    requires high { value < 16 }
    ensures { pos result ≡ pos value +ℤ step_along from_end opens }
{
    if opens == from_end {
        value - 1
    } else {
        value + 1
    }
}

// Returns the entry of a byte, from its end or from its start.
fn entry_of(byte: usize, from_end: bool) -> u64
    requires { byte < 256 }
    ensures { (bits : List Bool) → IsByte bits byte → IsEntry from_end bits result }
{
    let mut met = Met {
        positions: [7; 17],
        least: 9,
        greatest: 7,
    };
    let mut value = 8;
    for step in 0..8 {
        let position = position_of(step, from_end);
        value = stepped(value, (byte >> position) % 2 == 1, from_end);
        met.meet(value, position);
    }
    met.entry()
}

// Returns the sum that is `x - 8` above the one at which a byte begins.
#[inline(always)]
fn sum_at(rise: i64, x: u64) -> i64
    requires few { x ≤ 16 }
    requires low { negsuc 9223372036854775799 ≤ℤ rise }
    requires high { rise ≤ℤ pos 9223372036854775799 }
    ensures { result ≡ rise +ℤ (pos x -ℤ pos 8) }
{
    rise - 8 + x as i64
}

// Returns the difference of a sum to the one at which a byte begins, plus 8.
#[inline(always)]
fn above(rise: i64, target: i64) -> u64
    requires low { negsuc 9223372036854775799 ≤ℤ rise }
    requires high { rise ≤ℤ pos 9223372036854775799 }
    requires from { (rise -ℤ pos 8) ≤ℤ target }
    requires to { target ≤ℤ (rise +ℤ pos 8) }
    ensures { rise +ℤ (pos result -ℤ pos 8) ≡ target }
{
    (target - (rise - 8)) as u64
}

// Returns the position in a byte of the given entry at which a sum that begins at `rise` first is `target`.
#[inline(always)]
pub(super) fn position_met(entry: Entry, rise: i64, target: i64) -> Option<usize>
    requires bounded { greatest_in entry ≤ 16 }
    requires ordered { least_in entry ≤ greatest_in entry }
    requires low { negsuc 9223372036854775799 ≤ℤ rise }
    requires high { rise ≤ℤ pos 9223372036854775799 }
    ensures { MatchOption
        result
        ((x : ℕ) → least_in entry ≤ x → x ≤ greatest_in entry → rise +ℤ (pos x -ℤ pos 8) ≢ target)
        (λ position. (x : ℕ)
        × (least_in entry ≤ x)
        × (x ≤ greatest_in entry)
        × (rise +ℤ (pos x -ℤ pos 8) ≡ target)
        × (position ≡ position_in entry x)) }
{
    let packed = entry.packed;
    if target < sum_at(rise, packed / 32 % 32) {
        return None;
    }
    if sum_at(rise, packed % 32) < target {
        return None;
    }
    let x = above(rise, target);
    Some((packed >> (10 + 3 * x)) as usize % 8)
}
