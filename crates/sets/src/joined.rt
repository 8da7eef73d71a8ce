//! Two sources combined to one.
ghost use Rattle.std.specs.Prelude.{◌≡◌, ◌+◌, ◌&&◌, ◌||◌, not};
ghost use Rattle.vers_tally.specs.Reads.{AddsAtMost, plus};
ghost use Rattle.sets.specs.inside.Joints.{earlier_of, past_one};

use crate::seek::Seek;
use crate::step::Step;
use vers_tally::tally::Tally;

/// The numbers that are in two sets. A search steps through the first, so put the set with fewer numbers first.
#[derive(Drop)]
pub struct Both<R: Seek, S: Seek> {
    pub one: R,
    pub other: S,
}

/// The numbers that are in one of two sets, or in both.
#[derive(Drop)]
pub struct Either<R: Seek, S: Seek> {
    pub one: R,
    pub other: S,
}

/// The numbers of the first set that are not in the other.
#[derive(Drop)]
pub struct Without<R: Seek, S: Seek> {
    pub one: R,
    pub other: S,
}

impl<R: Seek, S: Seek> Seek for Both<R, S> {
    ghost set = { λ s. record {
      has = λ x. (R.set s.one).has x && (S.set s.other).has x;
      step_reads = plus (R.set s.one).step_reads (S.set s.other).step_reads;
      passed = (R.set s.one).passed;
      most_steps = (R.set s.one).most_steps;
    } };

    fn seek_counted(&mut self, at: u64, tally: &mut Tally) -> Step {
        match self.one.seek_counted(at, tally) {
            Step::Found(x) => match self.other.seek_counted(x, tally) {
                Step::Found(y) => { if x < y { Step::Past(y) } else { Step::Found(x) } }
                Step::Past(y) => Step::Past(y),
                Step::Ended => Step::Ended,
            },
            Step::Past(x) => Step::Past(x),
            Step::Ended => Step::Ended,
        }
    }
}

#[tactic(auto, using(crate::proofs::Joints::rise_together))]
impl<R: Seek, S: Seek> Seek for Either<R, S> {
    ghost set = { λ s. record {
      has = λ x. (R.set s.one).has x || (S.set s.other).has x;
      step_reads = plus (R.set s.one).step_reads (S.set s.other).step_reads;
      passed = λ v. (R.set s.one).passed v + (S.set s.other).passed v;
      most_steps = (R.set s.one).most_steps + (S.set s.other).most_steps;
    } };

    fn seek_counted(&mut self, at: u64, tally: &mut Tally) -> Step {
        let one = self.one.seek_counted(at, tally);
        let other = self.other.seek_counted(at, tally);
        earlier(one, other)
    }
}

impl<R: Seek, S: Seek> Seek for Without<R, S> {
    ghost set = { λ s. record {
      has = λ x. (R.set s.one).has x && not ((S.set s.other).has x);
      step_reads = plus (R.set s.one).step_reads (S.set s.other).step_reads;
      passed = (R.set s.one).passed;
      most_steps = (R.set s.one).most_steps;
    } };

    fn seek_counted(&mut self, at: u64, tally: &mut Tally) -> Step {
        match self.one.seek_counted(at, tally) {
            Step::Found(x) => match self.other.seek_counted(x, tally) {
                Step::Found(y) => { if x < y { Step::Found(x) } else { past(x) } }
                Step::Past(_) => Step::Found(x),
                Step::Ended => Step::Found(x),
            },
            Step::Past(x) => Step::Past(x),
            Step::Ended => Step::Ended,
        }
    }
}

// Returns the earlier of two steps from one number.
pub(crate) fn earlier(one: Step, other: Step) -> Step
    ensures { result ≡ earlier_of one other }
{
    match one {
        Step::Found(x) => match other {
            Step::Found(y) => Step::Found(x.min(y)),
            Step::Past(y) => { if x < y { Step::Found(x) } else { Step::Past(y) } }
            Step::Ended => Step::Found(x),
        },
        Step::Past(x) => match other {
            Step::Found(y) => { if y < x { Step::Found(y) } else { Step::Past(x) } }
            Step::Past(y) => Step::Past(x.min(y)),
            Step::Ended => Step::Past(x),
        },
        Step::Ended => other,
    }
}

// Returns the step past a number.
fn past(x: u64) -> Step
    ensures { result ≡ past_one x }
{
    if x == u64::MAX {
        Step::Ended
    } else {
        Step::Past(x + 1)
    }
}
