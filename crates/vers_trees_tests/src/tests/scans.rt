//! Every list of up to 10 bits, with all queries, compared with a plain scan of its excesses.
ghost use Rattle.std.specs.Prelude.{◌<◌, ◌≤◌};

use crate::tests::lists::{Query, ask, asked, number};
use std::alloc::{AllocError, Allocator, Global};
use vers_bits::bit_vec::{BitVec, GrowError};
use vers_trees::trees::bp::{BpTree, MAX_BLOCK_SIZE};

// The number of bits of the longest lists.
const LONGEST: usize = 10;

// The greatest rise of the excess that is searched, up and down: one more than it can be.
const WINDOW: i64 = 11;

// The numbers of lists, searches and other queries for each block size: 2 ^ n lists of n bits, two searches for
// 23 numbers at each position up to the length, and two queries of a list and five at such a position.
const LISTS: u64 = 2047;

const SEARCHES: u64 = 942126;

const OTHERS: u64 = 106499;

// Bit `k` of list number `code` is bit `k` of the number.
fn is_one(code: usize, k: usize) -> bool {
    k < 64 && (code >> k) % 2 == 1
}

// Returns the excess before each position of a list of `n` bits, and at its end.
fn excesses<A: Allocator + Copy>(
    alloc: A,
    n: usize,
    code: usize,
) -> Result<Vec<i64, A>, AllocError> {
    let mut sums = Vec::new(alloc);
    let mut sum = 0i64;
    for k in 0..n.saturating_add(1) {
        sums.push(sum)?;
        sum = sum.saturating_add(if is_one(code, k) { 1 } else { -1 });
    }
    Ok(sums)
}

// Returns the first position after `i` past which the excess is `r` more than past `i`.
fn rise_after(sums: &[i64], i: usize, r: i64) -> Option<i64> {
    let sought = sums.get(i.checked_add(1)?)?.checked_add(r)?;
    for (k, sum) in sums.iter().enumerate() {
        if k > i && k - i > 1 && *sum == sought {
            return i64::try_from(k - 1).ok();
        }
    }
    None
}

// Returns the last position before `i` before which the excess is `r` more than before `i`.
fn rise_before(sums: &[i64], i: usize, r: i64) -> Option<i64> {
    let _past = sums.get(i.checked_add(1)?)?;
    let sought = sums.get(i)?.checked_add(r)?;
    let mut met = None;
    for (k, sum) in sums.iter().enumerate() {
        if k < i && *sum == sought {
            met = i64::try_from(k).ok();
        }
    }
    met
}

// Returns the position of one `i`, or the length.
fn position_of_one(sums: &[i64], i: usize) -> Option<i64> {
    let mut left = i;
    for (k, pair) in sums.windows(2).enumerate() {
        if pair.first() < pair.last() {
            if left == 0 {
                return i64::try_from(k).ok();
            }
            left -= 1;
        }
    }
    number(sums.len().checked_sub(1))
}

// Returns true if no excess is negative, and the last is 0.
fn is_level(sums: &[i64]) -> bool {
    for sum in sums {
        if *sum < 0 {
            return false;
        }
    }
    sums.last() == Some(&0)
}

// The numbers of answers compared, and of wrong ones.
#[derive(Clone, Copy, PartialEq, Drop)]
struct Compared {
    lists: u64,
    searches: u64,
    others: u64,
    wrong: u64,
}

impl Compared {
    // Counts an answer.
    fn note(&mut self, is_right: bool) {
        if !is_right {
            self.wrong = self.wrong.saturating_add(1);
        }
    }

    // Compares both searches at a position, for every rise of the window.
    fn note_searches<const N: usize, A: Allocator + Copy>(
        &mut self,
        tree: &BpTree<N, A>,
        sums: &[i64],
        i: usize,
    ) {
        for step in 0..23u8 {
            let r = i64::from(step).saturating_sub(WINDOW);
            self.searches = self.searches.saturating_add(2);
            self.note(number(tree.fwd_search(i, r)) == rise_after(sums, i, r));
            self.note(number(tree.bwd_search(i, r)) == rise_before(sums, i, r));
        }
    }

    // Compares the other queries at a position.
    fn note_others<const N: usize, A: Allocator + Copy>(
        &mut self,
        tree: &BpTree<N, A>,
        sums: &[i64],
        code: usize,
        i: usize,
    ) {
        let past = sums.get(i.saturating_add(1)).copied();
        let depth = if is_one(code, i) { -1 } else { -2 };
        self.others = self.others.saturating_add(5);
        self.note(ask(tree, Query::Excess(i)).is(past));
        self.note(ask(tree, Query::Close(i)).is(rise_after(sums, i, -1)));
        self.note(ask(tree, Query::Open(i)).is(rise_before(sums, i, -1)));
        self.note(ask(tree, Query::Enclose(i)).is(rise_before(sums, i, depth)));
        self.note(ask(tree, Query::Handle(i)).is(position_of_one(sums, i)));
    }

    // Compares all queries of a tree of the list.
    fn note_tree<const N: usize, A: Allocator + Copy>(
        &mut self,
        tree: &BpTree<N, A>,
        sums: &[i64],
        code: usize,
    ) {
        self.lists = self.lists.saturating_add(1);
        self.others = self.others.saturating_add(2);
        let balanced = i64::from(is_level(sums));
        self.note(ask(tree, Query::IsBalanced).is(Some(balanced)));
        let ones = i64::from(code.count_ones());
        self.note(ask(tree, Query::Size).is(Some(ones)));
        for i in 0..sums.len() {
            self.note_searches(tree, sums, i);
            self.note_others(tree, sums, code, i);
        }
    }
}

// Returns the tree of list number `code` of `n` bits.
fn tree_of_code<const N: usize>(
    alloc: Global,
    n: usize,
    code: usize,
) -> Result<BpTree<N, Global>, GrowError>
    requires some { 0 < N }
    requires bounded { N ≤ MAX_BLOCK_SIZE }
{
    let mut bits = BitVec::new(alloc);
    for k in 0..n {
        bits.append(is_one(code, k))?;
    }
    BpTree::from_bit_vector(bits)
}

// Compares all lists of up to the longest, with blocks of `N` bits.
fn compared_at<const N: usize>(alloc: Global) -> Result<Compared, GrowError>
    requires some { 0 < N }
    requires bounded { N ≤ MAX_BLOCK_SIZE }
{
    let mut all = Compared {
        lists: 0,
        searches: 0,
        others: 0,
        wrong: 0,
    };
    for n in 0..LONGEST + 1 {
        for code in 0..1usize << n {
            let sums = excesses(alloc, n, code)?;
            let before = all;
            all = asked(
                tree_of_code::<N>(alloc, n, code),
                |tree: &BpTree<N, Global>| {
                    let mut after = before;
                    after.note_tree(tree, sums.as_slice(), code);
                    Ok(after)
                },
            )?;
        }
    }
    Ok(all)
}

#[test]
fn every_answer_is_that_of_a_scan(rt: HostRuntime) {
    let wanted = Compared {
        lists: LISTS,
        searches: SEARCHES,
        others: OTHERS,
        wrong: 0,
    };
    let compared = [
        compared_at::<1>(rt.alloc()),
        compared_at::<3>(rt.alloc()),
        compared_at::<8>(rt.alloc()),
        compared_at::<12>(rt.alloc()),
    ];
    assert!(rt; compared == [Ok(wanted); 4]);
}
