//! The reads of several counted queries together.
ghost use Rattle.std.specs.Prelude.{◌<◌, ◌≤◌, ◌↔◌, IsTrue};
ghost use Rattle.vers_vecs.specs.Reads.{AddsAtMost, times};
ghost use Rattle.vers_vecs.specs.Queries.{rank_reads};
ghost use Rattle.vers_uses.specs.Genome.{gc_in};

use crate::genome::Genome;
use std::alloc::Allocator;
use vers_vecs::tally::Tally;

/// A range of a genome: its first position, and the one past its last.
#[derive(Clone, Copy, PartialEq, Eq, Debug)]
pub struct Window {
    /// The first position.
    pub from: usize,
    /// The position past the last.
    pub to: usize,
    ghost ordered: { from ≤ to },
}

/// Returns true if the second window has more Gs and Cs than the first. Reads at most what four ranks do.
pub fn has_more<A: Allocator + Copy>(
    genome: &Genome<A>,
    first: Window,
    second: Window,
    tally: &mut Tally,
) -> bool
    ensures value { IsTrue result
        ↔ (gc_in genome.now first.from first.to < gc_in genome.now second.from second.to) }
    ensures adds { AddsAtMost tally.old tally.new (times 4 rank_reads) }
{
    let before = genome.gc_between_counted(first.from, first.to, tally);
    before < genome.gc_between_counted(second.from, second.to, tally)
}
