//! The table of the positions of least items, by powers of two.
ghost use Rattle.std.specs.Prelude.{◌≡◌, ◌+◌, ◌*◌, ◌^◌, ◌<◌, ◌≤◌, length, IfOk};
ghost use Rattle.vers_rmq.specs.Layout.{clog};
ghost use Rattle.vers_rmq.specs.Minima.{IsFirstLeast};
ghost use Rattle.vers_rmq.specs.inside.Tables.{reach, HoldsPositions, IsTable};

use crate::rmq::least::lesser_position;
use std::alloc::{AllocError, Allocator};

// Returns the exponent of the greatest power of two that is at most `a`.
#[inline(always)]
pub(super) fn log2(a: usize) -> usize
    requires { 0 < a }
    ensures low { 2 ^ result ≤ a }
    ensures high { a < 2 * 2 ^ result }
    ensures few { result < 64 }
{
    63 - a.leading_zeros() as usize
}

// Returns two to the power of `k`.
#[inline(always)]
#[tactic(auto, using(crate::proofs::Logs::shifted))]
pub(super) fn width(k: usize) -> usize
    requires { k < 64 }
    ensures { result ≡ 2 ^ k }
{
    1 << k
}

// Returns the number of levels in the table of `n` items: one for each power of two up to the first that is at
// least `n`.
#[tactic(auto, using(crate::proofs::Logs::levels_are, crate::proofs::Logs::one_level, crate::proofs::Logs::few_levels))]
fn level_count(n: usize) -> usize
    requires { n < 2 ^ 32 }
    ensures value { result ≡ clog n + 1 }
    ensures few { result ≤ 33 }
{
    if n < 2 { 1 } else { log2(n - 1) + 2 }
}

// Returns the entry of level `k + 1` for the range from `i` on, from two entries of level `k`.
#[tactic(auto, using(crate::proofs::Tables::next_joined, crate::proofs::Tables::next_same))]
fn next_position(items: &[u64], table: &[u32], k: usize, i: usize) -> u32
    requires positions { HoldsPositions items.now table.now }
    requires inside { length items.now * k + length items.now ≤ length table.now }
    requires width { 2 ^ k < length items.now }
    requires few { length items.now < 2 ^ 32 }
    requires small { k < 32 }
    requires here { i < length items.now }
    ensures { IsFirstLeast items.now i (reach (length items.now) (k + 1) i) result }
{
    let m = table[items.len() * k + i];
    let h = i + width(k);
    if h < items.len() {
        return lesser_position(items, m as usize, table[items.len() * k + h] as usize) as u32;
    }
    m
}

// Returns the table: a level for each power of two up to the first that is at least the number of items, and on
// it an entry for each item. Allocates once.
pub(super) fn positions<A: Allocator + Copy>(
    items: &[u64],
    alloc: A,
) -> Result<Vec<u32, A>, AllocError>
    requires { length items.now < 2 ^ 32 }
    ensures { IfOk result (λ v. IsTable items.now v.items) }
{
    let mut table = Vec::with_capacity(alloc, items.len() * level_count(items.len()))?;
    for i in 0..items.len() {
        table.push(i as u32)?;
    }
    let mut k = 0;
    'levels: while width(k) < items.len() {
        for j in 0..items.len() {
            let position = next_position(items, table.as_slice(), k, j);
            table.push(position)?;
        }
        k += 1;
    }
    Ok(table)
}
