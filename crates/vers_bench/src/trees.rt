//! The series of trees of parentheses: a random one, a path, and a node with many leaves.
//!
//! Each pass is a function of its own in the machine code, so that a profiler counts its instructions.
ghost use Rattle.std.specs.Prelude.{All, IfOk, IfSome};
ghost use Rattle.vers_trees.specs.Forest.{IsBalanced, forest_of};
ghost use Rattle.vers_trees.specs.Nodes.{IsNode};

use crate::report::{Report, asked, bits_per_item, or_refused};
use crate::walks::sum_of_positions;
use crate::workload::{Random, fold, parentheses, position_or_none};
use std::alloc::{AllocError, Global};
use std::io;
use vers_bits::bit_vec::{BitVec, GrowError};
use vers_trees::laws::ones_are_nodes;
use vers_trees::trees::bp::BpTree;

type Bits = BitVec<Global>;

/// The trees that are measured, in blocks of 512 bits.
pub type Tree = BpTree<512, Global>;

// The shapes of trees that are measured.
#[derive(Clone, Copy)]
enum Shape {
    /// A random tree, each as likely as any other.
    Random,
    /// Each node but the last has one child.
    Path,
    /// All nodes but the first are its children.
    Star,
}

/// A node, and the number of levels up to the ancestor that is queried.
#[derive(Clone, Copy, Drop)]
struct Climb {
    node: usize,
    levels: u64,
}

fn close(tree: &Tree, node: &usize) -> u64 {
    position_or_none(tree.close(*node))
}

fn open(tree: &Tree, end: &usize) -> u64 {
    position_or_none(tree.open(*end))
}

#[inline(never)]
fn parent_pass(tree: &Tree, nodes: &[usize]) -> u64
    requires balanced { IsBalanced tree.now }
    requires nodes { All (λ v. IsNode (forest_of tree.now) v) nodes.now }
{
    let mut sum = 0;
    for node in nodes {
        sum = fold(sum, position_or_none(tree.parent(*node)));
    }
    sum
}

#[inline(never)]
fn subtree_size_pass(tree: &Tree, nodes: &[usize]) -> u64
    requires balanced { IsBalanced tree.now }
    requires nodes { All (λ v. IsNode (forest_of tree.now) v) nodes.now }
{
    let mut sum = 0;
    for node in nodes {
        sum = fold(sum, position_or_none(tree.subtree_size(*node)));
    }
    sum
}

#[inline(never)]
fn level_ancestor_pass(tree: &Tree, climbs: &[Climb]) -> u64
    requires balanced { IsBalanced tree.now }
    requires nodes { All (λ c. IsNode (forest_of tree.now) c.node) climbs.now }
{
    let mut sum = 0;
    for climb in climbs {
        sum = fold(
            sum,
            position_or_none(tree.level_ancestor(climb.node, climb.levels)),
        );
    }
    sum
}

#[inline(never)]
fn children_pass(tree: &Tree, nodes: &[usize]) -> u64
    requires balanced { IsBalanced tree.now }
    requires nodes { All (λ v. IsNode (forest_of tree.now) v) nodes.now }
{
    let mut sum = 0;
    for node in nodes {
        for child in tree.children(*node) {
            sum = fold(sum, child as u64);
        }
    }
    sum
}

// Returns the number of children of the nodes.
fn children_count(tree: &Tree, nodes: &[usize]) -> u64
    requires balanced { IsBalanced tree.now }
    requires nodes { All (λ v. IsNode (forest_of tree.now) v) nodes.now }
{
    let mut count = nodes.len() as u64;
    for node in nodes {
        for _ in tree.children(*node) {
            count = count.wrapping_add(1);
        }
    }
    count
}

#[inline(never)]
fn dfs_iter_pass(tree: &Tree) -> u64 {
    sum_of_positions(tree.dfs_iter())
}

// Returns the node of this number in preorder, or `None` if there are fewer.
fn numbered(tree: &Tree, number: usize) -> Option<usize>
    requires { IsBalanced tree.now }
    ensures { IfSome result (λ v. IsNode (forest_of tree.now) v) }
{
    ones_are_nodes();
    if number >= tree.size() {
        return None;
    }
    Some(tree.node_handle(number))
}

#[inline]
fn first_child(tree: &Tree, node: usize) -> Option<usize>
    requires balanced { IsBalanced tree.now }
    requires node { IsNode (forest_of tree.now) node }
    ensures { IfSome result (λ v. IsNode (forest_of tree.now) v) }
{
    tree.first_child(node)
}

#[inline]
fn next_sibling(tree: &Tree, node: usize) -> Option<usize>
    requires balanced { IsBalanced tree.now }
    requires node { IsNode (forest_of tree.now) node }
    ensures { IfSome result (λ v. IsNode (forest_of tree.now) v) }
{
    tree.next_sibling(node)
}

#[inline]
fn parent(tree: &Tree, node: usize) -> Option<usize>
    requires balanced { IsBalanced tree.now }
    requires node { IsNode (forest_of tree.now) node }
    ensures { IfSome result (λ v. IsNode (forest_of tree.now) v) }
{
    tree.parent(node)
}

// Walks from the first root through the whole tree by first children, next siblings and parents. Each step
// enters a node or leaves one.
#[inline(never)]
fn dfs_walk_pass(tree: &Tree, _none: &[()]) -> u64
    requires balanced { IsBalanced tree.now }
{
    let mut sum = 0;
    let Some(root) = numbered(tree, 0) else {
        return sum;
    };
    let mut node = root;
    let mut is_entered = true;
    for _ in 0..tree.len() {
        if is_entered {
            sum = fold(sum, node as u64);
            if let Some(child) = first_child(tree, node) {
                node = child;
                continue;
            }
        }
        if let Some(next) = next_sibling(tree, node) {
            node = next;
            is_entered = true;
        } else if let Some(above) = parent(tree, node) {
            node = above;
            is_entered = false;
        } else {
            break;
        }
    }
    sum
}

// Returns the bits of a tree of `count` bits.
fn bits_of(alloc: Global, shape: Shape, count: usize) -> Result<Bits, GrowError> {
    match shape {
        Shape::Random => random_bits(alloc, count),
        Shape::Path => path_bits(alloc, count),
        Shape::Star => star_bits(alloc, count),
    }
}

/// Returns the parentheses of a random tree, `count` of them.
pub fn random_bits(alloc: Global, count: usize) -> Result<Bits, GrowError> {
    let limbs = parentheses(alloc, count)?;
    let mut bits = BitVec::from_limbs(alloc, limbs.as_slice())?;
    bits.drop_last(bits.len().saturating_sub(count));
    Ok(bits)
}

fn path_bits(alloc: Global, count: usize) -> Result<Bits, GrowError> {
    let mut bits = BitVec::new(alloc);
    for i in 0..count {
        bits.append(i < count / 2)?;
    }
    Ok(bits)
}

fn star_bits(alloc: Global, count: usize) -> Result<Bits, GrowError> {
    let mut bits = BitVec::new(alloc);
    bits.append(true)?;
    for i in 2..count {
        bits.append(i % 2 == 0)?;
    }
    bits.append(false)?;
    Ok(bits)
}

// Returns random nodes.
fn nodes_asked(
    alloc: Global,
    random: &mut Random,
    tree: &Tree,
    count: usize,
) -> Result<Vec<usize>, AllocError>
    requires { IsBalanced tree.now }
    ensures { IfOk result (λ nodes. All (λ v. IsNode (forest_of tree.now) v) nodes.items) }
{
    let mut nodes = Vec::with_capacity(alloc, count)?;
    for _ in 0..count {
        let number = random.below(tree.size() as u64) as usize;
        if let Some(node) = numbered(tree, number) {
            nodes.push(node)?;
        }
    }
    Ok(nodes)
}

// Returns the same nodes, each with a number of levels.
fn climbs_asked(
    alloc: Global,
    random: &mut Random,
    tree: &Tree,
    nodes: &[usize],
) -> Result<Vec<Climb>, AllocError>
    requires { All (λ v. IsNode (forest_of tree.now) v) nodes.now }
    ensures { IfOk result (λ climbs. All (λ c. IsNode (forest_of tree.now) c.node) climbs.items) }
{
    let mut climbs = Vec::with_capacity(alloc, nodes.len())?;
    for node in nodes {
        climbs.push(Climb {
            node: *node,
            levels: random.below(16).wrapping_add(1),
        })?;
    }
    Ok(climbs)
}

// Returns the positions at which the nodes close.
fn ends_of(alloc: Global, tree: &Tree, nodes: &[usize]) -> Result<Vec<usize>, AllocError> {
    let mut ends = Vec::with_capacity(alloc, nodes.len())?;
    for node in nodes {
        ends.push(tree.close(*node).unwrap_or(*node))?;
    }
    Ok(ends)
}

/// Returns the tree of parentheses.
pub fn tree_of(bits: Bits) -> Result<Tree, AllocError> {
    or_refused(BpTree::from_bit_vector(bits))
}

/// Returns a copy of parentheses.
pub fn copied(_alloc: Global, bits: &Bits) -> Result<Bits, AllocError> {
    bits.clone()
}

/// Runs all series over trees of each shape.
pub fn run(report: &Report) -> io::Result<()> {
    let settings = report.settings;
    let count = settings.size_or(1_000_000).saturating_mul(2);
    run_shape(report, Shape::Random, count)?;
    if settings.size.is_some() {
        return Ok(());
    }
    run_shape(report, Shape::Path, count)?;
    run_shape(report, Shape::Star, count.saturating_add(2))
}

fn run_shape(report: &Report, shape: Shape, count: usize) -> io::Result<()> {
    let kind = match shape {
        Shape::Random => "",
        Shape::Path => "path ",
        Shape::Star => "star ",
    };
    let parameters = format!(in report.alloc(); "{kind}bits={count}")?;
    let report = report.over(parameters.as_str());
    let bits = or_refused(bits_of(report.alloc(), shape, count));
    asked(&report, (), bits, run_bits)
}

fn run_bits(report: &Report, _source: (), bits: &Bits) -> io::Result<()> {
    let len = bits.len() as u64;
    report.builds_of_copies(len, bits.count_ones(), bits, copied, tree_of)?;
    asked(report, (), tree_of(copied(report.alloc(), bits)?), run_tree)
}

fn run_tree(report: &Report, _source: (), tree: &Tree) -> io::Result<()> {
    if !tree.is_balanced() {
        return Err(io::Error::from(io::ErrorKind::InvalidInput));
    }
    report.size(
        "heap_bits_per_item",
        bits_per_item(tree.heap_size(), tree.len() as u64),
    )?;
    run_nodes(report, tree)?;
    run_few(report, tree)?;
    run_walks(report, tree)
}

fn run_nodes(report: &Report, tree: &Tree) -> io::Result<()>
    requires { IsBalanced tree.now }
{
    let mut random = Random::new(11);
    let nodes = nodes_asked(report.alloc(), &mut random, tree, report.query_count())?;
    run_searches(report, tree, nodes.as_slice())?;
    let climbs = climbs_asked(report.alloc(), &mut random, tree, nodes.as_slice())?;
    run_climbs(report, tree, climbs.as_slice())
}

fn run_few(report: &Report, tree: &Tree) -> io::Result<()>
    requires { IsBalanced tree.now }
{
    let count = report.query_count() / 5;
    let nodes = nodes_asked(report.alloc(), &mut Random::new(11), tree, count)?;
    run_children(report, tree, nodes.as_slice())
}

fn run_walks(report: &Report, tree: &Tree) -> io::Result<()>
    requires { IsBalanced tree.now }
{
    if report.settings.size.is_some() {
        return Ok(());
    }
    let size = tree.size() as u64;
    report.walk("dfs_iter", size, tree, dfs_iter_pass)?;
    report.passes("dfs_walk", size, tree, &[], dfs_walk_pass)
}

fn run_searches(report: &Report, tree: &Tree, nodes: &[usize]) -> io::Result<()>
    requires balanced { IsBalanced tree.now }
    requires nodes { All (λ v. IsNode (forest_of tree.now) v) nodes.now }
{
    report.listed_queries("close", tree, nodes, close)?;
    run_ends(report, tree, nodes)?;
    let count = nodes.len() as u64;
    report.passes("parent", count, tree, nodes, parent_pass)?;
    report.passes("subtree_size", count, tree, nodes, subtree_size_pass)
}

fn run_ends(report: &Report, tree: &Tree, nodes: &[usize]) -> io::Result<()> {
    let ends = ends_of(report.alloc(), tree, nodes)?;
    report.listed_queries("open", tree, ends.as_slice(), open)
}

fn run_climbs(report: &Report, tree: &Tree, climbs: &[Climb]) -> io::Result<()>
    requires balanced { IsBalanced tree.now }
    requires nodes { All (λ c. IsNode (forest_of tree.now) c.node) climbs.now }
{
    let count = climbs.len() as u64;
    report.passes("level_ancestor", count, tree, climbs, level_ancestor_pass)
}

fn run_children(report: &Report, tree: &Tree, nodes: &[usize]) -> io::Result<()>
    requires balanced { IsBalanced tree.now }
    requires nodes { All (λ v. IsNode (forest_of tree.now) v) nodes.now }
{
    let count = children_count(tree, nodes);
    report.passes("children", count, tree, nodes, children_pass)
}
