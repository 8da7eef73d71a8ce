//! Every allocating call, each of its requests refused in turn, and the calls that allocate nothing, of forests
//! of every size.
//!
//! A structure with a given block size names its allocator: its size with a generic allocator is not known.
use crate::tests::builders::stepped;
use crate::tests::lists::{Query, ask, tree_of};
use crate::tests::nodes::{are_balanced, node_at};
use crate::tests::plain::{
    Group, Node, Order, answer, is_ancestor, leftmost, nodes_of, positions, rightmost,
};
use crate::tests::queries::{Question, number};
use crate::tests::tours::{First, Tour, tour_gives};
use crate::tests::walks::NODE_WITH_TWO;
use std::alloc::{AllocError, Allocator, Global};
use test_alloc::{
    Check, Conversion, Ending, LENGTHS, Making, Refusing, Trial, first_wrong_trial,
    try_clone_checked, try_conversion, try_making, try_use_checked,
};
use vers_bits::bit_vec::{BitVec, GrowError};
use vers_rank::fast_rs_vec::{RsVec, SelectIntoIter};
use vers_tally::tally::Tally;
use vers_trees::trees::bp::{BpBuilder, BpTree, BuildError};

type Heap = Refusing<Global>;

// Returns the bits of a path of that many nodes, each but the last with one child. Of three nodes, one has two
// leaves.
fn forest_bits<A: Allocator + Copy>(alloc: A, nodes: usize) -> Result<Vec<u8, A>, AllocError> {
    let mut bits = Vec::new(alloc);
    for position in 0..nodes.wrapping_mul(2) {
        let is_one = if nodes == 3 {
            NODE_WITH_TWO.get(position) == Some(&1)
        } else {
            position < nodes
        };
        bits.push(u8::from(is_one))?;
    }
    Ok(bits)
}

// A forest, as its bits and as a plain list of its nodes, with their positions in postorder.
#[derive(Clone, Copy, Drop)]
struct Forest<'a> {
    bits: &'a [u8],
    nodes: &'a [Node],
    closed: &'a [usize],
}

// The queries of some nodes, other than those of all.
const QUESTIONS: [Question; 12] = [
    Question::FirstChild,
    Question::LastChild,
    Question::NextSibling,
    Question::PreviousSibling,
    Question::Parent,
    Question::Index,
    Question::IsLeaf,
    Question::Depth,
    Question::SubtreeSize,
    Question::LevelNext,
    Question::LevelPrev,
    Question::LevelAncestor(1),
];

// Returns true if both forms of the queries for the relatives of a node match the list.
fn has_kin<const N: usize, A: Allocator + Copy>(
    tree: &BpTree<N, A>,
    nodes: &[Node],
    k: usize,
) -> bool {
    let Some(node) = nodes.get(k) else {
        return true;
    };
    for question in QUESTIONS {
        if !ask(tree, Query::Node(node.open, question)).is(answer(nodes, k, question)) {
            return false;
        }
    }
    let is_below = i64::from(is_ancestor(nodes, 0, k));
    ask(tree, Query::IsAncestor(0, node.open)).is(Some(is_below))
        && ask(tree, Query::LevelLeftmost(node.depth)).is(leftmost(nodes, node.depth))
        && ask(tree, Query::LevelRightmost(node.depth)).is(rightmost(nodes, node.depth))
        && ask(tree, Query::IsOpen(node.open)).is(Some(1))
        && ask(tree, Query::IsOpen(node.close)).is(Some(0))
}

// The children of the first root, in order and backwards, of a forest of one node, of three, and of more.
const CHILDREN: [[&[usize]; 2]; 3] = [[&[], &[]], [&[1, 3], &[3, 1]], [&[1], &[1]]];

// Returns true if the walks from the first root return the nodes of the forest, all of which are below it.
fn has_walks<const N: usize, A: Allocator + Copy>(tree: &BpTree<N, A>, closed: &[usize]) -> bool {
    let [children, backwards] = match closed.len() {
        0 => return true,
        1 => CHILDREN[0],
        3 => CHILDREN[1],
        _ => CHILDREN[2],
    };
    for (tour, wanted) in [
        (Tour::Children, children),
        (Tour::RevChildren, backwards),
        (Tour::SubtreePost, closed),
        (Tour::AllPost, closed),
    ] {
        if tour_gives(tree, tour, 0, First::Counted, wanted) != Some(true) {
            return false;
        }
    }
    true
}

// Returns true if the walk over the first root and what is below it returns all nodes, as they open.
fn has_subtree<const N: usize, A: Allocator + Copy>(tree: &BpTree<N, A>, nodes: &[Node]) -> bool {
    if !are_balanced(tree) {
        return false;
    }
    let Some(root) = node_at(tree, 0) else {
        return nodes.is_empty();
    };
    let mut walk = tree.subtree_iter(root);
    for node in nodes {
        if walk.next() != Some(node.open) {
            return false;
        }
    }
    walk.next().is_none()
}

fn item(items: &[usize], k: usize) -> Option<usize> {
    Some(*items.get(k)?)
}

// Returns true if a walk in postorder returns its nodes by turns from both ends, and each by its number.
fn has_postorder<const N: usize, A: Allocator + Copy>(
    tree: &BpTree<N, A>,
    closed: &[usize],
) -> bool {
    if !are_balanced(tree) {
        return false;
    }
    let mut walk = tree.dfs_post_iter();
    let len = closed.len();
    for k in 0..len / 2 {
        let from_back = len.wrapping_sub(k).wrapping_sub(1);
        if walk.next() != item(closed, k) || walk.next_back() != item(closed, from_back) {
            return false;
        }
    }
    let mut copy = walk.clone();
    copy.len() == len % 2
        && copy.nth(0) == walk.nth_back(0)
        && walk.next().is_none()
        && copy.next_back().is_none()
        && tree.dfs_post_iter().nth(1) == item(closed, 1)
        && tree.dfs_post_iter().last() == item(closed, len.wrapping_sub(1))
        && tree.dfs_post_iter().nth(len).is_none()
}

// Returns true if both forms of the queries of a node match the list.
fn has_node<const N: usize, A: Allocator + Copy>(
    tree: &BpTree<N, A>,
    nodes: &[Node],
    k: usize,
    node: Node,
) -> bool {
    let open = number(Some(node.open));
    let close = number(Some(node.close));
    let excess = i64::try_from(node.depth.saturating_add(1)).ok();
    ask(tree, Query::Handle(k)).is(open)
        && ask(tree, Query::Close(node.open)).is(close)
        && ask(tree, Query::Open(node.close)).is(open)
        && ask(tree, Query::Excess(node.open)).is(excess)
        && ask(tree, Query::Forward(node.open, -1)).is(close)
        && ask(tree, Query::Enclose(node.open)).is(answer(nodes, k, Question::Parent))
}

// Returns true if a tree has the nodes of a list, and no others.
fn has_nodes<const N: usize, A: Allocator + Copy>(tree: &BpTree<N, A>, nodes: &[Node]) -> bool {
    for (k, node) in nodes.iter().enumerate() {
        if !has_node(tree, nodes, k, *node) {
            return false;
        }
    }
    let first = (!nodes.is_empty()).then_some(0);
    tree.root() == first
        && tree.dfs_iter().next_counted(&mut Tally::new()) == first
        && tree.dfs_iter().last() == last_opened(nodes)
        && tree.is_empty() == nodes.is_empty()
        && tree.size() == nodes.len()
        && tree.len() == nodes.len().wrapping_mul(2)
        && ask(tree, Query::IsBalanced).is(Some(1))
        && tree.heap_size() > 0
}

fn last_opened(nodes: &[Node]) -> Option<usize> {
    Some(nodes.last()?.open)
}

impl<const N: usize, A: Allocator + Copy> Check<BpTree<N, A>> for Forest<'_> {
    fn is_right(&self, tree: &mut BpTree<N, A>) -> bool {
        let len = self.nodes.len();
        has_nodes(tree, self.nodes)
            && has_kin(tree, self.nodes, 0)
            && has_kin(tree, self.nodes, len / 2)
            && has_kin(tree, self.nodes, len.wrapping_sub(1))
            && has_walks(tree, self.closed)
            && has_subtree(tree, self.nodes)
            && has_postorder(tree, self.closed)
    }
}

// Checks whether a walk returns the nodes and ends.
impl<A: Allocator + Copy> Check<SelectIntoIter<false, A>> for Forest<'_> {
    fn is_right(&self, walk: &mut SelectIntoIter<false, A>) -> bool {
        for node in self.nodes {
            if walk.next() != Some(node.open) {
                return false;
            }
        }
        walk.next().is_none()
    }
}

impl<'a> Conversion<BitVec<&'a Heap>> for Forest<'_> {
    type Made = BpTree<8, &'a Heap>;

    type Refused = GrowError;

    fn convert(&self, bits: BitVec<&'a Heap>) -> Result<BpTree<8, &'a Heap>, GrowError> {
        BpTree::from_bit_vector(bits)
    }

    fn is_right(&self, tree: &BpTree<8, &'a Heap>) -> bool {
        has_nodes(tree, self.nodes)
    }

    fn is_kept(&self, fault: GrowError) -> bool {
        fault == GrowError::Memory
    }
}

impl<'a> Conversion<BpBuilder<8, &'a Heap>> for Forest<'_> {
    type Made = BpTree<8, &'a Heap>;

    type Refused = BuildError;

    fn convert(&self, it: BpBuilder<8, &'a Heap>) -> Result<BpTree<8, &'a Heap>, BuildError> {
        it.build()
    }

    fn is_right(&self, tree: &BpTree<8, &'a Heap>) -> bool {
        has_nodes(tree, self.nodes)
    }

    fn is_kept(&self, fault: BuildError) -> bool {
        fault == BuildError::Memory
    }
}

// A call about a forest. The last seven allocate nothing.
#[derive(Clone, Copy, Drop)]
enum Call {
    FromBitVector,
    Clone,
    CloneWalk,
    WithCapacity,
    Steps,
    Build,
    New,
    Queries,
    IntoIter,
    LastOfIntoIter,
    IntoParentheses,
    IntoRsVec,
    IntoBitVec,
}

const CALLS: [Call; 13] = [
    Call::FromBitVector,
    Call::Clone,
    Call::CloneWalk,
    Call::WithCapacity,
    Call::Steps,
    Call::Build,
    Call::New,
    Call::Queries,
    Call::IntoIter,
    Call::LastOfIntoIter,
    Call::IntoParentheses,
    Call::IntoRsVec,
    Call::IntoBitVec,
];

// A builder that is new, has room for the nodes of a forest, or has taken its steps. It is compared through the
// tree that is built of it, once nothing is refused any more.
#[derive(Drop)]
struct Builder<'a, 'b> {
    heap: &'a Heap,
    call: Call,
    forest: Forest<'b>,
}

// Returns the tree of a builder that was made, after the steps if the call includes them.
fn made_of<'a>(heap: &'a Heap, call: Call, bits: &[u8]) -> Result<BpTree<8, &'a Heap>, GrowError> {
    let made = match call {
        Call::WithCapacity => BpBuilder::with_capacity(heap, bits.len() as u64 / 2),
        Call::Steps => stepped(Ok(BpBuilder::new(heap)), bits),
        _ => Ok(BpBuilder::new(heap)),
    };
    built(heap, made)
}

fn built<'a>(
    heap: &Heap,
    made: Result<BpBuilder<8, &'a Heap>, GrowError>,
) -> Result<BpTree<8, &'a Heap>, GrowError> {
    match made {
        Ok(builder) => {
            heap.allow_all();
            builder.build().ok().ok_or(GrowError::TooLong)
        }
        Err(fault) => Err(fault),
    }
}

impl<'a> Making for Builder<'a, '_> {
    type Made = BpTree<8, &'a Heap>;

    type Fault = GrowError;

    fn make(&self) -> Result<BpTree<8, &'a Heap>, GrowError> {
        made_of(self.heap, self.call, self.forest.bits)
    }

    fn is_right(&self, tree: &BpTree<8, &'a Heap>) -> bool {
        match self.call {
            Call::Steps => has_nodes(tree, self.forest.nodes),
            _ => has_nodes(tree, &[]),
        }
    }
}

// Returns true if a list has a one where each node opens, and a zero where it closes.
fn has_ranks<A: Allocator + Copy>(list: &RsVec<A>, nodes: &[Node]) -> bool {
    for (k, node) in nodes.iter().enumerate() {
        if list.select1(k) != node.open || list.select0(list.rank0(node.close)) != node.close {
            return false;
        }
    }
    list.ones() == nodes.len()
}

fn has_ones<A: Allocator + Copy>(list: &BitVec<A>, nodes: &[Node]) -> bool {
    list.len() == nodes.len().wrapping_mul(2) && list.count_ones() == nodes.len() as u64
}

// A structure that is turned into a walk or a list, which is compared.
trait Turning: Drop {
    fn turns_right(self, call: Call, nodes: &[Node]) -> bool;
}

impl<const N: usize, A: Allocator + Copy> Turning for BpTree<N, A> {
    fn turns_right(self, call: Call, nodes: &[Node]) -> bool {
        match call {
            Call::IntoIter => self.into_iter().count() == nodes.len(),
            Call::LastOfIntoIter => self.into_iter().last() == last_opened(nodes),
            Call::IntoParentheses => has_ranks(&self.into_parentheses_vec(), nodes),
            Call::IntoRsVec => has_ranks(&RsVec::from(self), nodes),
            _ => has_ones(&BitVec::from(self), nodes),
        }
    }
}

fn tried_turn<B: Allocator, T: Turning, X: Drop>(
    heap: &Refusing<B>,
    made: Result<T, X>,
    call: Call,
    nodes: &[Node],
) -> Ending {
    let Ok(it) = made else {
        return Ending::Wrong;
    };
    heap.start();
    if it.turns_right(call, nodes) {
        Ending::Done
    } else {
        Ending::Wrong
    }
}

// Tests the clone of a walk that owns what was made.
fn tried_walk_clone<B: Allocator, T: IntoIterator + Drop, X: Drop, C: Check<T::IntoIter>>(
    heap: &Refusing<B>,
    made: Result<T, X>,
    check: &C,
) -> Ending
where
    T::IntoIter: Clone + Drop,
{
    match made {
        Ok(it) => try_clone_checked(heap, Ok::<_, X>(it.into_iter()), check),
        Err(_) => Ending::Wrong,
    }
}

// Tests a call of what was made, of a generic type, since a tree itself is slow to prove.
fn tried_made<
    B: Allocator,
    T: Turning + Clone + IntoIterator,
    X: Drop,
    C: Check<T> + Check<T::IntoIter>,
>(heap: &Refusing<B>, made: Result<T, X>, call: Call, check: &C, nodes: &[Node]) -> Ending
where
    T::IntoIter: Clone + Drop,
{
    match call {
        Call::Clone => try_clone_checked(heap, made, check),
        Call::CloneWalk => tried_walk_clone(heap, made, check),
        Call::Queries => try_use_checked(heap, made, check),
        _ => tried_turn(heap, made, call, nodes),
    }
}

fn tried_tree(heap: &Heap, call: Call, forest: Forest) -> Ending {
    let tree = tree_of::<8, &Heap>(heap, forest.bits);
    tried_made(heap, tree, call, &forest, forest.nodes)
}

fn tried_maker(heap: &Heap, forest: Forest) -> Ending {
    try_conversion(heap, BitVec::from_bits(heap, forest.bits), &forest)
}

fn tried_build(heap: &Heap, forest: Forest) -> Ending {
    let builder = stepped::<8, &Heap>(Ok(BpBuilder::new(heap)), forest.bits);
    try_conversion(heap, builder, &forest)
}

fn tried(heap: &Heap, call: Call, forest: Forest) -> Ending {
    match call {
        Call::FromBitVector => tried_maker(heap, forest),
        Call::Build => tried_build(heap, forest),
        Call::New | Call::WithCapacity | Call::Steps => {
            try_making(heap, &Builder { heap, call, forest })
        }
        _ => tried_tree(heap, call, forest),
    }
}

// Returns the positions of the nodes in the order in which they close. On a path the last one closes first.
fn closing_order<A: Allocator + Copy>(
    alloc: A,
    nodes: &[Node],
) -> Result<Vec<usize, A>, AllocError> {
    if nodes.len() == 3 {
        return positions(alloc, nodes, Group::All, Order::Closing);
    }
    let mut closed = Vec::new(alloc);
    for node in nodes.iter().rev() {
        closed.push(node.open)?;
    }
    Ok(closed)
}

fn tried_of_nodes(heap: &Heap, call: Call, bits: &[u8], nodes: &[Node]) -> Ending {
    match closing_order(heap, nodes) {
        Ok(closed) => {
            let closed = closed.as_slice();
            tried(
                heap,
                call,
                Forest {
                    bits,
                    nodes,
                    closed,
                },
            )
        }
        Err(_) => Ending::Wrong,
    }
}

fn tried_of_bits(heap: &Heap, call: Call, bits: &[u8]) -> Ending {
    match nodes_of(heap, bits) {
        Ok(nodes) => tried_of_nodes(heap, call, bits, nodes.as_slice()),
        Err(_) => Ending::Wrong,
    }
}

impl Trial<Global> for Call {
    fn run(self, heap: &Heap, len: usize) -> Ending {
        match forest_bits(heap, len) {
            Ok(bits) => tried_of_bits(heap, self, bits.as_slice()),
            Err(_) => Ending::Wrong,
        }
    }

    fn takes_memory(self, len: usize) -> bool {
        match self {
            Call::FromBitVector | Call::Clone | Call::CloneWalk | Call::Build => true,
            Call::WithCapacity | Call::Steps => len > 0,
            _ => false,
        }
    }
}

#[test]
fn calls_take_memory_or_none(rt: HostRuntime) {
    assert!(rt; first_wrong_trial(rt.alloc(), &LENGTHS, &CALLS).is_none());
    assert!(rt; first_wrong_trial(rt.alloc(), &[3], &CALLS).is_none());
}
