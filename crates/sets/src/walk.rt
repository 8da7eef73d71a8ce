//! A walk along the numbers of a set.
ghost use Rattle.std.specs.Prelude.{◌≡◌, ◌+◌, ◌≤◌, Option, Some};
ghost use Rattle.vers_tally.specs.Reads.{AddsAtMost};
ghost use Rattle.sets.specs.Steps.{IsWalked, steps_taken, walked_reads};

use crate::gather::after;
use crate::seek::Seek;
use crate::step::Step;
use vers_tally::tally::Tally;

/// An ascending walk along the numbers of a set. It allocates nothing.
#[derive(Drop)]
pub struct Walk<S: Seek> {
    /// The set.
    pub source: S,
    /// The number from which the walk continues. `None` past the last.
    pub from: Option<u64>,
}

impl<S: Seek> Walk<S> {
    /// Returns a walk from the first number of a set.
    pub fn new(source: S) -> Self
        ensures { result ≡ record { source = source; from = Some 0 } }
    {
        Walk {
            source,
            from: Some(0),
        }
    }

    /// Takes the next number of the set. `None` if none is left.
    pub fn next(&mut self) -> Option<u64>
        ensures taken { IsWalked (S.set self.old.source).has self.old.from result self.new.from }
        ensures same_set { S.set self.new.source ≡ S.set self.old.source }
    {
        let mut tally = Tally::new();
        self.next_counted(&mut tally)
    }

    /// Does what `next` does. All calls of a walk together take at most one step more than the most steps of the set.
    pub fn next_counted(&mut self, tally: &mut Tally) -> Option<u64>
        ensures taken { IsWalked (S.set self.old.source).has self.old.from result self.new.from }
        ensures same_set { S.set self.new.source ≡ S.set self.old.source }
        ensures rises { steps_taken (S.set self.old.source) self.old.from
            ≤ steps_taken (S.set self.old.source) self.new.from }
        ensures most { steps_taken (S.set self.old.source) self.new.from
            ≤ (S.set self.old.source).most_steps + 1 }
        ensures adds { AddsAtMost tally.old tally.new
            (walked_reads (S.set self.old.source) self.old.from self.new.from) }
    {
        let taken = next_from(&mut self.source, self.from, tally);
        self.from = taken.from;
        taken.number
    }
}

// The number that a walk took, and the number from which it continues.
#[derive(Clone, Copy, Drop)]
struct Taken {
    number: Option<u64>,
    from: Option<u64>,
}

// Returns the first number of a set from a number, and the number from which a walk continues.
fn next_from<S: Seek>(source: &mut S, start: Option<u64>, tally: &mut Tally) -> Taken
    ensures taken { IsWalked (S.set source.old).has start result.number result.from }
    ensures same_set { S.set source.new ≡ S.set source.old }
    ensures rises { steps_taken (S.set source.old) start ≤ steps_taken (S.set source.old) result.from }
    ensures most { steps_taken (S.set source.old) result.from ≤ (S.set source.old).most_steps + 1 }
    ensures adds { AddsAtMost tally.old tally.new (walked_reads (S.set source.old) start result.from) }
{
    let mut from = start;
    while let Some(at) = from {
        match source.seek_counted(at, tally) {
            Step::Found(x) => {
                return Taken {
                    number: Some(x),
                    from: after(x),
                };
            }
            Step::Past(x) => {
                from = Some(x);
            }
            Step::Ended => {
                from = None;
            }
        }
    }
    Taken {
        number: None,
        from: None,
    }
}
