//! Counts of many patterns, which are joined in one array of symbols.
ghost use Rattle.std.specs.Prelude.{◌≡◌, ◌↔◌, ◌≤◌, [], ℕ, ◌<◌, IsTrue, length, map, slice_index, slice_index_or, Some};
ghost use Rattle.vers_c.specs.Structures.{content};
ghost use Rattle.vers_c.specs.Texts.{AreCountsIn, AreEnds, IsCounted, pattern_at};

use crate::kept::Kept;
use crate::status::{DONE, REFUSED, UNKNOWN};
use catalogue::structure::Structure;
use std::alloc::Global;
use text_index::TextIndex;

/// The number of patterns that are counted together.
const GROUP: usize = 64;

/// Replaces the end of each joined pattern by the number of its occurrences in a text. Returns a status.
pub fn count_each(kept: &Kept, symbols: &[u64], ends: &mut [u64]) -> u32
    ensures { IsCounted (Some (content kept.now)) symbols.now ends.old ends.new result }
{
    match kept {
        Kept::Other(Structure::Text(text)) => {
            if !are_ends(symbols.len(), ends) {
                return REFUSED;
            }
            count_groups(text, symbols, ends);
            DONE
        }
        _ => UNKNOWN,
    }
}

// Returns true if each pattern ends not before it begins, and within a number of symbols. The first one begins at 0.
fn are_ends(len: usize, ends: &[u64]) -> bool
    ensures { IsTrue result ↔ AreEnds len 0 ends.now }
{
    let mut start = 0;
    for k in 0..ends.len() {
        let end = ends[k];
        if end < start || end > len as u64 {
            return false;
        }
        start = end;
    }
    true
}

// Replaces the ends of patterns by the numbers of their occurrences.
fn count_groups(text: &TextIndex<Global>, symbols: &[u64], ends: &mut [u64])
    requires { AreEnds (length symbols.now) 0 ends.old }
    ensures { AreCountsIn text.now.items symbols.now 0 ends.old ends.new }
{
    let (mut first, mut start) = (0, 0);
    while first < ends.len() {
        let count = GROUP.min(ends.len() - first);
        let group = &mut ends[first..first + count];
        let end = group[count - 1] as usize;
        count_group(text, symbols, start, group);
        start = end;
        first += count;
    }
}

// Does the same for one group, whose first pattern begins at `start`.
fn count_group(text: &TextIndex<Global>, symbols: &[u64], start: usize, ends: &mut [u64])
    requires few { length ends.old ≤ 64 }
    requires ends { AreEnds (length symbols.now) start ends.old }
    ensures { AreCountsIn text.now.items symbols.now start ends.old ends.new }
{
    let mut patterns: [&[u64]; GROUP] = [&[]; GROUP];
    let mut counts = [0; GROUP];
    let count = ends.len();
    collect(symbols, start, ends, &mut patterns);
    text.count_each(&patterns[..count], &mut counts);
    copy(&counts, ends)
}

// Collects joined patterns.
fn collect<'a>(symbols: &'a [u64], start: usize, ends: &[u64], patterns: &mut [&'a [u64]])
    requires ends { AreEnds (length symbols.now) start ends.now }
    requires room { length ends.now ≤ length patterns.old }
    ensures long { length patterns.new ≡ length patterns.old }
    ensures patterns { (k : ℕ) → k < length ends.now → slice_index_or (map (λ p. p.now) patterns.new) k []
        ≡ pattern_at symbols.now start ends.now k }
{
    let mut from = start;
    for k in 0..ends.len() {
        let end = ends[k] as usize;
        patterns[k] = &symbols[from..end];
        from = end;
    }
}

// Copies counts over as many numbers.
fn copy(counts: &[usize], numbers: &mut [u64])
    requires { length numbers.old ≤ length counts.now }
    ensures long { length numbers.new ≡ length numbers.old }
    ensures same { (k : ℕ) → k < length numbers.old → slice_index numbers.new k ≡ slice_index counts.now k }
{
    for k in 0..numbers.len() {
        numbers[k] = counts[k] as u64;
    }
}
