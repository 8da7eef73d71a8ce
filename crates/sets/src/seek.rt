//! Sets of numbers that are searched step by step.
ghost use Rattle.std.specs.Prelude.{◌≡◌};
ghost use Rattle.vers_tally.specs.Reads.{AddsAtMost};
ghost use Rattle.sets.specs.Steps.{Searched, IsStep, PassesOne, Rises};

use crate::step::Step;
use vers_tally::tally::Tally;

/// A set of numbers that is searched step by step. A source may keep what it has read, to read the next number
/// faster.
pub trait Seek: Drop {
    ghost set: { Self → Searched };

    /// Takes one step of a search for the first number of the set that is at least `at`.
    fn seek_counted(&mut self, at: u64, tally: &mut Tally) -> Step
        ensures value { IsStep (set self.old).has at result }
        ensures passes { PassesOne (set self.old).passed at result }
        ensures rises { Rises (set self.old).passed (set self.old).most_steps }
        ensures same_set { set self.new ≡ set self.old }
        ensures adds { AddsAtMost tally.old tally.new (set self.old).step_reads };
}
