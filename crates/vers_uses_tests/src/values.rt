//! What no contract says: values that were worked out by hand.
use std::alloc::{Allocator, Global};
use std::test::Fail;
use test_alloc::asked;
use vers_uses::budget::{Window, has_more};
use vers_uses::documents::Documents;
use vers_uses::genome::Genome;
use vers_uses::levels::{nodes_on_level, take_steps};
use vers_uses::prices::Prices;
use vers_vecs::elias_fano::is_ascending;
use vers_vecs::tally::Tally;
use vers_vecs::trees::TreeBuilder;
use vers_vecs::trees::bp::{BpBuilder, BpTree, BuildError};

// The starts of four documents, in a text of 40 bytes.
const STARTS: [u64; 4] = [2, 10, 10, 25];

// Bytes, and the document that contains each.
const HOLDERS: [(u64, Option<usize>); 5] = [
    (1, None),
    (2, Some(0)),
    (10, Some(2)),
    (39, Some(3)),
    (40, None),
];

// Returns the first of the bytes with a wrong document.
fn wrong_byte<A: Allocator + Copy>(texts: &Documents<A>) -> Option<u64> {
    for (byte, document) in HOLDERS.iter() {
        if texts.document_of(*byte) != *document {
            return Some(*byte);
        }
    }
    None
}

#[test]
fn documents_of_bytes(rt: HostRuntime) -> Result<(), Fail> {
    assert!(rt; is_ascending(&STARTS));
    let texts = Documents::new(rt.alloc(), &STARTS, 40);
    assert_eq!(rt; asked(texts, wrong_byte::<Global>)?, None, "a byte");
    Ok(())
}

// The bases whose Gs and Cs are queried.
const BASES: [u8; 8] = *b"ACGTGGCA";

// Returns the number of Gs and Cs of a range, the positions of two of them, and those of the next after two
// positions.
fn answers_of<A: Allocator + Copy>(
    genome: &Genome<A>,
) -> (usize, [Option<usize>; 2], [Option<u64>; 2]) {
    (
        genome.gc_between(1, 5),
        [genome.nth_gc(4), genome.nth_gc(5)],
        [genome.next_gc(2), genome.next_gc(6)],
    )
}

#[test]
fn bases_of_a_genome(rt: HostRuntime) -> Result<(), Fail> {
    let genome = Genome::from_bases(rt.alloc(), &BASES);
    let answers = asked(genome, answers_of::<Global>)?;
    assert_eq!(rt; answers, (3, [Some(6), None], [Some(4), None]));
    Ok(())
}

// Returns true if the second half of the bases has more Gs and Cs than the first, and the number of ranks that
// it took.
fn more_in_the_second<A: Allocator + Copy>(genome: &Genome<A>) -> (bool, u64) {
    let mut tally = Tally::new();
    let first = Window { from: 0, to: 4 };
    let second = Window { from: 4, to: 8 };
    let is_more = has_more(genome, first, second, &mut tally);
    (is_more, tally.rank_calls())
}

#[test]
fn more_in_the_second_window(rt: HostRuntime) -> Result<(), Fail> {
    let genome = Genome::from_bases(rt.alloc(), &BASES);
    assert_eq!(rt; asked(genome, more_in_the_second::<Global>)?, (true, 4));
    Ok(())
}

// Days from one up to another, and the cheapest of them.
const CHEAPEST: [((usize, usize), Option<usize>); 4] = [
    ((0, 4), Some(1)),
    ((2, 4), Some(3)),
    ((2, 5), None),
    ((2, 2), None),
];

// Returns the first of the day ranges with another cheapest day.
fn wrong_days<A: Allocator + Copy>(prices: &Prices<A>) -> Option<(usize, usize)> {
    for ((from, to), day) in CHEAPEST.iter() {
        if prices.cheapest(*from, *to) != *day {
            return Some((*from, *to));
        }
    }
    None
}

#[test]
fn cheapest_days(rt: HostRuntime) -> Result<(), Fail> {
    let by_day = Vec::from_slice(rt.alloc(), &[9, 6, 10, 6])?;
    let prices = Prices::new(by_day);
    assert_eq!(rt;
        asked(prices, wrong_days::<Global>)?,
        None,
        "from a day up to another"
    );
    Ok(())
}

// Two trees: a node with two children, each of which has a leaf, and a leaf.
const STEPS: [bool; 12] = [
    true, true, true, false, false, true, true, false, false, false, true, false,
];

// The positions of the nodes of each depth.
const LEVELS: [(u64, &[usize]); 4] = [(0, &[0, 10]), (1, &[1, 5]), (2, &[2, 6]), (3, &[])];

// Returns the trees that the steps build.
fn built<B: TreeBuilder + Drop>(mut builder: B) -> Result<B::Tree, BuildError> {
    match take_steps(&mut builder, &STEPS) {
        Ok(()) => builder.build(),
        Err(_) => Err(BuildError::Memory),
    }
}

// Returns true if the nodes of a depth are at these positions. Only balanced parentheses have levels.
fn has_level(alloc: Global, tree: &BpTree<8, Global>, depth: u64, positions: &[usize]) -> bool {
    if !tree.is_balanced() {
        return false;
    }
    match nodes_on_level(alloc, tree, depth) {
        Ok(nodes) => nodes.as_slice() == positions,
        Err(_) => false,
    }
}

// Returns the first depth whose nodes are elsewhere.
fn wrong_depth(alloc: Global, tree: &BpTree<8, Global>) -> Option<u64> {
    for (depth, positions) in LEVELS.iter() {
        if !has_level(alloc, tree, *depth, positions) {
            return Some(*depth);
        }
    }
    None
}

#[test]
fn nodes_of_each_level(rt: HostRuntime) -> Result<(), Fail> {
    let alloc = rt.alloc();
    let trees = built(BpBuilder::<8, Global>::new(alloc));
    let wrong = asked(trees, |tree: &BpTree<8, Global>| wrong_depth(alloc, tree));
    assert_eq!(rt; wrong?, None, "a depth");
    Ok(())
}
