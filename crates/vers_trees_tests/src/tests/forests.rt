//! Every balanced list of up to 12 bits, and longer ones, with all queries, compared with a plain forest.
ghost use Rattle.std.specs.Prelude.{◌<◌, ◌≤◌};

use crate::tests::lists::{Query, ask, asked, tree_of};
use crate::tests::plain::{
    Group, Node, Order, answer, is_ancestor, leftmost, nodes_of, opened_at, positions, rightmost,
};
use crate::tests::queries::Question;
use crate::tests::tours::{First, TOURS, Tour, tour_gives};
use std::alloc::{AllocError, Allocator, Global};
use vers_bits::bit_vec::GrowError;
use vers_trees::trees::bp::{BpTree, MAX_BLOCK_SIZE};

// The number of bits of the longest of all lists.
const LONGEST: usize = 12;

// There are 1, 1, 2, 5, 14, 42 and 132 balanced lists of 0 to 6 nodes.
const EVERY: Compared = Compared {
    lists: 197,
    nodes: 1078,
    pairs: 6080,
    wrong: 0,
};

// The queries of each node, other than for its ancestors.
const QUESTIONS: [Question; 11] = [
    Question::Parent,
    Question::FirstChild,
    Question::LastChild,
    Question::NextSibling,
    Question::PreviousSibling,
    Question::Index,
    Question::IsLeaf,
    Question::Depth,
    Question::SubtreeSize,
    Question::LevelNext,
    Question::LevelPrev,
];

// Numbers of levels that no forest has.
const FAR: [u64; 4] = [
    9223372036854775807,
    9223372036854775808,
    9223372036854775809,
    u64::MAX,
];

// The numbers of lists, nodes and pairs of nodes compared, and of wrong answers.
#[derive(Clone, Copy, PartialEq, Drop)]
struct Compared {
    lists: u64,
    nodes: u64,
    pairs: u64,
    wrong: u64,
}

// Returns the nodes that a walk returns.
fn toured(
    alloc: Global,
    nodes: &[Node],
    node: usize,
    tour: Tour,
) -> Result<Vec<usize>, AllocError> {
    let (group, order) = match tour {
        Tour::Children => (Group::Under(Some(node)), Order::Opening),
        Tour::RevChildren => (Group::Under(Some(node)), Order::Backwards),
        Tour::Subtree => (Group::Subtree(node), Order::Opening),
        Tour::SubtreePost => (Group::Subtree(node), Order::Closing),
        Tour::Iter | Tour::All => (Group::All, Order::Opening),
        Tour::AllPost => (Group::All, Order::Closing),
    };
    positions(alloc, nodes, group, order)
}

impl Compared {
    const NONE: Compared = Compared {
        lists: 0,
        nodes: 0,
        pairs: 0,
        wrong: 0,
    };

    // Counts an answer.
    fn note(&mut self, is_right: bool) {
        if !is_right {
            self.wrong = self.wrong.saturating_add(1);
        }
    }

    // Compares a query of a node.
    fn note_question<const N: usize, A: Allocator + Copy>(
        &mut self,
        tree: &BpTree<N, A>,
        nodes: &[Node],
        node: usize,
        question: Question,
    ) {
        let position = opened_at(nodes, node);
        let wanted = answer(nodes, node, question);
        self.note(ask(tree, Query::Node(position, question)).is(wanted));
    }

    // Compares all queries of a node.
    fn note_node<const N: usize, A: Allocator + Copy>(
        &mut self,
        tree: &BpTree<N, A>,
        nodes: &[Node],
        node: usize,
    ) {
        self.nodes = self.nodes.saturating_add(1);
        for question in QUESTIONS {
            self.note_question(tree, nodes, node, question);
        }
        for levels in 0..nodes.len() as u64 {
            self.note_question(tree, nodes, node, Question::LevelAncestor(levels));
        }
        for levels in FAR {
            self.note_question(tree, nodes, node, Question::LevelAncestor(levels));
        }
    }

    // Compares whether a node is an ancestor of each.
    fn note_pairs<const N: usize, A: Allocator + Copy>(
        &mut self,
        tree: &BpTree<N, A>,
        nodes: &[Node],
        node: usize,
    ) {
        let position = opened_at(nodes, node);
        for (other, below) in nodes.iter().enumerate() {
            self.pairs = self.pairs.saturating_add(1);
            let wanted = i64::from(is_ancestor(nodes, node, other));
            self.note(ask(tree, Query::IsAncestor(position, below.open)).is(Some(wanted)));
        }
    }

    // Compares all walks from a node, whose first step is plain or counted.
    fn note_walks<const N: usize, A: Allocator + Copy>(
        &mut self,
        alloc: Global,
        tree: &BpTree<N, A>,
        nodes: &[Node],
        node: usize,
    ) -> Result<(), AllocError> {
        let position = opened_at(nodes, node);
        for tour in TOURS {
            let wanted = toured(alloc, nodes, node, tour)?;
            for first in [First::Plain, First::Counted] {
                let given = tour_gives(tree, tour, position, first, wanted.as_slice());
                self.note(given == Some(true));
            }
        }
        Ok(())
    }

    // Compares the ends of a level.
    fn note_level<const N: usize, A: Allocator + Copy>(
        &mut self,
        tree: &BpTree<N, A>,
        nodes: &[Node],
        depth: u64,
    ) {
        self.note(ask(tree, Query::LevelLeftmost(depth)).is(leftmost(nodes, depth)));
        self.note(ask(tree, Query::LevelRightmost(depth)).is(rightmost(nodes, depth)));
    }

    // Compares all queries of the tree of a forest.
    fn note_forest<const N: usize, A: Allocator + Copy>(
        &mut self,
        alloc: Global,
        tree: &BpTree<N, A>,
        nodes: &[Node],
    ) -> Result<(), AllocError> {
        self.lists = self.lists.saturating_add(1);
        self.note(tree.size() == nodes.len());
        for node in 0..nodes.len() {
            self.note_node(tree, nodes, node);
            self.note_pairs(tree, nodes, node);
            self.note_walks(alloc, tree, nodes, node)?;
        }
        for depth in 0..nodes.len() as u64 {
            self.note_level(tree, nodes, depth);
        }
        for depth in FAR {
            self.note_level(tree, nodes, depth);
        }
        Ok(())
    }
}

// Compares all queries of bits, and adds them to the counts; nothing if they are not balanced.
fn with_bits<const N: usize>(
    alloc: Global,
    bits: &[u8],
    before: Compared,
) -> Result<Compared, GrowError>
    requires some { 0 < N }
    requires bounded { N ≤ MAX_BLOCK_SIZE }
{
    let nodes = nodes_of(alloc, bits)?;
    asked(
        tree_of::<N, Global>(alloc, bits),
        |tree: &BpTree<N, Global>| {
            let mut after = before;
            if tree.is_balanced() {
                after.note_forest(alloc, tree, nodes.as_slice())?;
            }
            Ok(after)
        },
    )
}

// Bit `k` of list number `code` is bit `k` of the number.
fn bits_of_code(alloc: Global, n: usize, code: usize) -> Result<Vec<u8>, AllocError> {
    let mut bits = Vec::new(alloc);
    for k in 0..n {
        let is_one = k < 64 && (code >> k) % 2 == 1;
        bits.push(u8::from(is_one))?;
    }
    Ok(bits)
}

// Compares all lists of up to the longest, with blocks of `N` bits.
fn every<const N: usize>(alloc: Global) -> Result<Compared, GrowError>
    requires some { 0 < N }
    requires bounded { N ≤ MAX_BLOCK_SIZE }
{
    let mut all = Compared::NONE;
    for n in 0..LONGEST + 1 {
        for code in 0..1usize << n {
            let bits = bits_of_code(alloc, n, code)?;
            all = with_bits::<N>(alloc, bits.as_slice(), all)?;
        }
    }
    Ok(all)
}

#[test]
fn every_answer_is_that_of_a_plain_forest(rt: HostRuntime) {
    let compared = [
        every::<1>(rt.alloc()),
        every::<3>(rt.alloc()),
        every::<8>(rt.alloc()),
        every::<12>(rt.alloc()),
    ];
    assert!(rt; compared == [Ok(EVERY); 4]);
}

// The parts of long lists, and how often each is repeated: one path down; a node with leaves; trees of several
// shapes, of which one has nodes in its first child and after it all the way down.
const LONG: [[(&[u8], usize); 4]; 3] = [
    [(&[], 1), (&[1], 20), (&[0], 20), (&[], 1)],
    [(&[1], 1), (&[1, 0], 20), (&[], 20), (&[0], 1)],
    [
        (&[1, 0], 1),
        (&[1, 1, 0, 1, 1, 0, 0], 20),
        (&[0], 20),
        (&[1, 1, 0, 0], 1),
    ],
];

// They have 20, 21 and 83 nodes.
const ALL_LONG: Compared = Compared {
    lists: 3,
    nodes: 124,
    pairs: 7730,
    wrong: 0,
};

fn long_bits(alloc: Global, parts: &[(&[u8], usize)]) -> Result<Vec<u8>, AllocError> {
    let mut bits = Vec::new(alloc);
    for (part, times) in parts {
        for _ in 0..*times {
            bits.extend_from_slice(part)?;
        }
    }
    Ok(bits)
}

// Compares all long lists, with blocks of `N` bits.
fn long<const N: usize>(alloc: Global) -> Result<Compared, GrowError>
    requires some { 0 < N }
    requires bounded { N ≤ MAX_BLOCK_SIZE }
{
    let mut all = Compared::NONE;
    for parts in LONG {
        let bits = long_bits(alloc, &parts)?;
        all = with_bits::<N>(alloc, bits.as_slice(), all)?;
    }
    Ok(all)
}

#[test]
fn answers_of_long_lists(rt: HostRuntime) {
    let compared = [
        long::<1>(rt.alloc()),
        long::<8>(rt.alloc()),
        long::<64>(rt.alloc()),
        long::<77>(rt.alloc()),
        long::<4294967296>(rt.alloc()),
    ];
    assert!(rt; compared == [Ok(ALL_LONG); 5]);
}
