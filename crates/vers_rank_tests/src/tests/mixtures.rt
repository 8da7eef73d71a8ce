//! Mixtures of steps from both ends, over short lists and over lists longer than a limb, a block and a superblock.
use crate::tests::iterators::wrong_walk;
use crate::tests::lists::{Over, item_at, list_of};
use std::alloc::{AllocError, Allocator, Global};
use test_alloc::{Look, Step, asked};
use vers_rank::fast_rs_vec::RsVec;

// Steps that are taken over and over, to the end and past it.
const STEPS: [Step; 9] = [
    Step::Next,
    Step::NextBack,
    Step::Nth(3),
    Step::NthBack(2),
    Step::NextBack,
    Step::Next,
    Step::Nth(70),
    Step::NthBack(130),
    Step::Nth(0),
];

// The numbers of the items that are left: from `from` on, and below `to`.
#[derive(Clone, Copy, Drop)]
struct Left {
    from: usize,
    to: usize,
}

impl Left {
    fn count(self) -> usize {
        self.to.saturating_sub(self.from)
    }

    // Returns the number of the item after `n` others, which are passed with it.
    fn pass(&mut self, n: usize) -> Option<usize> {
        if n >= self.count() {
            self.from = self.to;
            return None;
        }
        let number = self.from.wrapping_add(n);
        self.from = number.wrapping_add(1);
        Some(number)
    }

    // Does the same from the back.
    fn pass_back(&mut self, n: usize) -> Option<usize> {
        if n >= self.count() {
            self.to = self.from;
            return None;
        }
        self.to = self.to.wrapping_sub(n).wrapping_sub(1);
        Some(self.to)
    }

    // Returns the number of the item that a step returns.
    fn take(&mut self, step: Step) -> Option<usize> {
        match step {
            Step::Next => self.pass(0),
            Step::NextBack => self.pass_back(0),
            Step::Nth(n) => self.pass(n),
            Step::NthBack(n) => self.pass_back(n),
            Step::Len => None,
        }
    }
}

// A list of a look, of that many bits, and over what it is walked.
#[derive(Clone, Copy, Drop)]
struct Walked {
    over: Over,
    look: Look,
    len: usize,
}

impl Walked {
    fn count(self) -> usize {
        let mut count: usize = 0;
        for position in 0..self.len {
            if item_at(self.over, self.look, position).is_some() {
                count = count.wrapping_add(1);
            }
        }
        count
    }

    // Returns the item of a number (from 0).
    fn item(self, number: usize) -> Option<u64> {
        let mut before: usize = 0;
        for position in 0..self.len {
            let item = item_at(self.over, self.look, position);
            if item.is_some() {
                if before == number {
                    return item;
                }
                before = before.wrapping_add(1);
            }
        }
        None
    }

    // Returns the item that a step returns, of those that are left.
    fn taken(self, left: &mut Left, step: Step) -> Option<u64> {
        self.item(left.take(step)?)
    }
}

// Returns the result of each step of a mixture, and the number of items left after it.
fn rows_of<A: Allocator + Copy>(
    alloc: A,
    walked: Walked,
) -> Result<Vec<(Step, Option<u64>), A>, AllocError> {
    let mut rows = Vec::new(alloc);
    let mut left = Left {
        from: 0,
        to: walked.count(),
    };
    for turn in 0..walked.len {
        let step = STEPS[turn % STEPS.len()];
        rows.push((step, walked.taken(&mut left, step)))?;
        rows.push((Step::Len, Some(left.count() as u64)))?;
    }
    rows.push((Step::Nth(usize::MAX), None))?;
    rows.push((Step::NthBack(usize::MAX), None))?;
    Ok(rows)
}

// Returns the first row that is wrong in some walk over a list, in one form or the other.
fn wrong_row(list: &RsVec<Global>, over: Over, rows: &[(Step, Option<u64>)]) -> Option<usize> {
    wrong_walk(list, over, false, rows).or(wrong_walk(list, over, true, rows))
}

// Returns true if all walks return what a plain list does.
fn are_right(alloc: Global, walked: Walked, rows: &[(Step, Option<u64>)]) -> bool {
    let list = list_of(alloc, walked.look, walked.len);
    asked(
        list,
        |list: &RsVec<Global>| wrong_row(list, walked.over, rows),
    ) == Ok(None)
}

fn is_right(alloc: Global, walked: Walked) -> bool {
    match rows_of(alloc, walked) {
        Ok(rows) => are_right(alloc, walked, rows.as_slice()),
        Err(_) => false,
    }
}

const LENGTHS: [usize; 9] = [0, 1, 2, 5, 65, 130, 513, 1100, 8300];

const LOOKS: [Look; 3] = [Look::Mixed, Look::Ones, Look::Sparse];

const OVERS: [Over; 3] = [Over::Bits, Over::Zeros, Over::Ones];

// Returns the first length, the look and over what a walk goes wrong there.
fn first_wrong(alloc: Global) -> Option<(usize, usize, usize)> {
    for len in LENGTHS.iter() {
        for (row, look) in LOOKS.iter().enumerate() {
            for (column, over) in OVERS.iter().enumerate() {
                let walked = Walked {
                    over: *over,
                    look: *look,
                    len: *len,
                };
                if !is_right(alloc, walked) {
                    return Some((*len, row, column));
                }
            }
        }
    }
    None
}

#[test]
fn mixtures_from_both_ends(rt: HostRuntime) {
    assert_eq!(rt;
        first_wrong(rt.alloc()),
        None,
        "a length, a look and a kind"
    );
}
