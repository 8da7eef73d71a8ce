//! The list of a term as a source.
ghost use Rattle.std.specs.Prelude.{◌≡◌, ◌+◌, ◌^◌, ◌<◌, ℕ, true, length};
ghost use Rattle.vers_tally.specs.Reads.{AddsAtMost};
ghost use Rattle.vers_sorted.specs.Sorted.{is_element, below};
ghost use Rattle.sets.specs.Sources.{seek_reads};
ghost use Rattle.sets.specs.Steps.{IsStep, PassesOne, Rises};
ghost use Rattle.inverted.specs.Lists.{list_of, searched_term, term_of};
ghost use Rattle.inverted.specs.inside.Steps.{IsCursorOf, step_in};

use crate::inverted_index::InvertedIndex;
use sets::{Cursor, Seek, Step};
use std::alloc::Allocator;
use std::marker::Model;
use vers_tally::tally::Tally;

/// The documents of a term, as a source, which the sources of `sets` combine with others. Contracts see it as the
/// index and the term.
#[derive(Drop)]
pub struct ListOf<'a, A: Allocator + Copy> {
    index: &'a InvertedIndex<A>,
    term: u64,
    cursor: Cursor<'a, A>,
}

impl<'a, A: Allocator + Copy> Model for ListOf<'a, A> {
    ghost use Rattle.inverted.specs.Lists.{Term};
    ghost use Rattle.inverted.specs.inside.Steps.{IsCursorOf};

    ghost Value = { Term };

    ghost view = { λ list. record { index = list.index.now; term = list.term } };

    ghost invariant = { λ list. IsCursorOf list.cursor list.index.now.numbers };
}

impl<'a, A: Allocator + Copy> ListOf<'a, A> {
    /// Returns the documents of a term: none if there is no such term.
    pub fn new(index: &'a InvertedIndex<A>, term: u64) -> Self
        ensures value { result ≡ term_of index.now term }
        ensures below { (t d : ℕ) → is_element (list_of index.now t) d ≡ true → d < index.now.universe }
    {
        ListOf {
            index,
            term,
            cursor: index.cursor(),
        }
    }
}

impl<'a, A: Allocator + Copy> Seek for ListOf<'a, A> {
    ghost set = { λ list. searched_term list };

    fn seek_counted(&mut self, at: u64, tally: &mut Tally) -> Step {
        self.index
            .step_counted(self.term, at, &mut self.cursor, tally)
    }
}

impl<A: Allocator + Copy> InvertedIndex<A> {
    // Returns a cursor at the first number of all terms.
    fn cursor(&self) -> Cursor<'_, A>
        ensures cursor { IsCursorOf result self.now.numbers }
        ensures below { (t d : ℕ) → is_element (list_of self.now t) d ≡ true → d < self.now.universe }
    {
        Cursor::new(&self.numbers)
    }

    // Takes one step of a search for the first document of a term that is at least `at`, by a cursor over the numbers
    // of all terms.
    fn step_counted(&self, t: u64, at: u64, cursor: &mut Cursor<'_, A>, tally: &mut Tally) -> Step
        requires { IsCursorOf cursor.old self.now.numbers }
        ensures value { IsStep (is_element (list_of self.now t)) at result }
        ensures passes { PassesOne (below (list_of self.now t)) at result }
        ensures rises { Rises (below (list_of self.now t)) (length (list_of self.now t)) }
        ensures same_numbers { IsCursorOf cursor.new self.now.numbers }
        ensures adds { AddsAtMost tally.old tally.new (seek_reads self.now.numbers) }
    {
        if t >= self.terms {
            return Step::Ended;
        }
        if at >= self.universe {
            return Step::Ended;
        }
        let start = t * self.universe;
        let step = cursor.seek_counted(start + at, tally);
        step_in(start, self.universe, step)
    }
}

// Returns the step to a number from `start` on as one to its document, which ends the search past the term.
#[inline(always)]
fn step_in(start: u64, universe: u64, step: Step) -> Step
    requires { start + universe < 2 ^ 64 }
    ensures { result ≡ step_in start universe step }
{
    let end = start + universe;
    match step {
        Step::Found(number) if number < end => Step::Found(number.saturating_sub(start)),
        Step::Past(number) if number < end => Step::Past(number.saturating_sub(start)),
        _ => Step::Ended,
    }
}
