//! Many sources combined to one.
ghost use Rattle.std.specs.Prelude.{◌≡◌, ◌&&◌, ◌∷◌, map};
ghost use Rattle.std.specs.List.{list_all};
ghost use Rattle.vers_tally.specs.Reads.{AddsAtMost, plus};
ghost use Rattle.sets.specs.Sources.{any_of, step_reads_of};
ghost use Rattle.sets.specs.Steps.{IsStep, PassesOne, Rises};
ghost use Rattle.sets.specs.inside.Joints.{IsEach};

use crate::joined::earlier;
use crate::seek::Seek;
use crate::step::Step;
use std::alloc::Allocator;
use vers_tally::tally::Tally;

/// The numbers that are in a set and in each of several others. A search steps through the first, so put the
/// set with the fewest numbers first.
#[derive(Drop)]
pub struct AllOf<S: Seek, A: Allocator + Copy> {
    pub first: S,
    pub others: Vec<S, A>,
}

/// The numbers that are in a set or in one of several others.
#[derive(Drop)]
pub struct AnyOf<S: Seek, A: Allocator + Copy> {
    pub first: S,
    pub others: Vec<S, A>,
}

impl<S: Seek, A: Allocator + Copy> Seek for AllOf<S, A> {
    ghost set = { λ s. record {
      has = λ x. (S.set s.first).has x && list_all (λ other. other.has x) (map S.set s.others.items);
      step_reads = plus (S.set s.first).step_reads (step_reads_of (map S.set s.others.items));
      passed = (S.set s.first).passed;
      most_steps = (S.set s.first).most_steps;
    } };

    fn seek_counted(&mut self, at: u64, tally: &mut Tally) -> Step {
        match self.first.seek_counted(at, tally) {
            Step::Found(x) => in_each(&mut self.others, x, tally),
            Step::Past(x) => Step::Past(x),
            Step::Ended => Step::Ended,
        }
    }
}

impl<S: Seek, A: Allocator + Copy> Seek for AnyOf<S, A> {
    ghost set = { λ s. any_of (S.set s.first ∷ map S.set s.others.items) };

    fn seek_counted(&mut self, at: u64, tally: &mut Tally) -> Step {
        let mut step = self.first.seek_counted(at, tally);
        for i in 0..self.others.len() {
            let other = self.others[i].seek_counted(at, tally);
            step = earlier(step, other);
        }
        step
    }
}

// Returns `Found(x)` if x is in each of several sets, and otherwise a step past numbers that are not in all of
// them.
fn in_each<S: Seek, A: Allocator + Copy>(sets: &mut Vec<S, A>, x: u64, tally: &mut Tally) -> Step
    ensures value { IsEach (λ y. list_all (λ one. one.has y) (map S.set sets.old.items)) x result }
    ensures same_sets { map S.set sets.new.items ≡ map S.set sets.old.items }
    ensures adds { AddsAtMost tally.old tally.new (step_reads_of (map S.set sets.old.items)) }
{
    for i in 0..sets.len() {
        match sets[i].seek_counted(x, tally) {
            Step::Found(y) => {
                if x < y {
                    return Step::Past(y);
                }
            }
            Step::Past(y) => {
                return Step::Past(y);
            }
            Step::Ended => {
                return Step::Ended;
            }
        }
    }
    Step::Found(x)
}
