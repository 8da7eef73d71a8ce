//! A list of parentheses with a tree of excesses over blocks of 8 bits.
use crate::asked;
use std::alloc::Global;
use std::io;
use vers_vecs::bit_vec::GrowError;
use vers_vecs::{BitVec, BpTree};

type Tree = BpTree<8, Global>;

const BITS: [u8; 24] = [
    1, 1, 1, 0, 0, 1, 1, 1, 0, 1, 0, 1, 1, 1, 0, 0, 1, 0, 0, 1, 0, 0, 0, 0,
];

fn made(alloc: Global) -> Result<Tree, GrowError> {
    BpTree::from_bit_vector(BitVec::from_bits(alloc, &BITS)?)
}

fn print_tree(rt: &HostRuntime, tree: &Tree) -> io::Result<()> {
    print!(rt; "tree excess")?;
    for position in 0..tree.len() {
        print!(rt; " {}", tree.excess(position))?;
    }
    println!(rt; "\ntree heap_size {}", tree.heap_size())
}

/// Prints the excess past each position, and the size.
pub fn print(rt: &HostRuntime) -> io::Result<()> {
    asked(made(rt.alloc()), |tree| print_tree(rt, tree))
}
