//! All symbols of a tree in order, read fork by fork.
ghost use Rattle.std.specs.Prelude.{◌≡◌, ◌+◌, ◌^◌, ◌<◌, ◌≤◌, length, map, replicate, IfOk};
ghost use Rattle.wavelet_tree.specs.inside.Reading.{AreRead, Merges, StoresMany, next_source, own_ones};

use crate::node::{LEAVES, Node};
use crate::tree::WaveletTree;
use std::alloc::{AllocError, Allocator};
use vers_bits::bit_vec::BitVec;
use vers_tally::tally::Uncounted;
use vers_wavelet::wavelet::Integer;
use word_rank::WordRank;

impl<A: Allocator + Copy> WaveletTree<A> {
    /// Returns the symbols in order, as numbers of a type. Reads each bit of the tree once, fork by fork, instead of a
    /// walk from the root for each symbol. Allocates a second list of the same length, which it drops. Precondition:
    /// `bit_len()` is at most the number of bits of the type.
    ///
    /// # Errors
    ///
    /// `AllocError` if the allocator refuses a request.
    pub fn to_integers<T: Integer>(&self, alloc: A) -> Result<Vec<T, A>, AllocError>
        requires { self.now.width ≤ T.bits }
        ensures { IfOk result (λ v. map T.value v.items ≡ self.now.items) }
    {
        let mut items = blank_items(alloc, self.len)?;
        let mut scratch = Vec::from_slice(alloc, items.as_slice())?;
        let nodes = self.nodes.as_slice(Uncounted);
        read_tree(
            nodes,
            &self.bits,
            self.root,
            0,
            items.as_mut_slice(),
            scratch.as_mut_slice(),
        );
        Ok(items)
    }
}

// Returns numbers that are overwritten later.
fn blank_items<T: Integer, A: Allocator + Copy>(
    alloc: A,
    many: usize,
) -> Result<Vec<T, A>, AllocError>
    ensures { IfOk result (λ v. length v.items ≡ many) }
{
    let mut items = Vec::with_capacity(alloc, many)?;
    for _ in 0..many {
        items.push(T::of(0))?;
    }
    Ok(items)
}

// Writes the symbols of a tree whose bits begin at bit `start`, and returns where its bits end. The subtrees of a fork
// are read into `scratch`, one after the other, and merged.
fn read_tree<T: Integer, A: Allocator + Copy>(
    nodes: &[Node],
    bits: &WordRank<A>,
    link: u32,
    start: usize,
    items: &mut [T],
    scratch: &mut [T],
) -> usize
    requires stored { StoresMany nodes.now bits.now link start (length items.old) (2 ^ T.bits) }
    requires room { length scratch.old ≡ length items.old }
    ensures { AreRead nodes.now bits.now link start result (map T.value items.new) }
{
    if link >= LEAVES {
        write_symbol(items, u64::from(link - LEAVES));
        return start;
    }
    let node = nodes[link as usize];
    let end = start + items.len();
    let high_len = bits.rank1(end) - bits.rank1(start);
    let low_len = items.len() - high_len;
    let (low_items, high_items) = items.split_at_mut(low_len);
    let (low_scratch, high_scratch) = scratch.split_at_mut(low_len);
    let low_end = read_tree(nodes, bits, node.low_link, end, low_scratch, low_items);
    let high_end = read_tree(
        nodes,
        bits,
        node.high_link,
        low_end,
        high_scratch,
        high_items,
    );
    merge(bits.bits(), start, low_len, scratch, items);
    high_end
}

// Overwrites each element by a symbol.
fn write_symbol<T: Integer>(items: &mut [T], symbol: u64)
    requires { 0 < length items.old → symbol < 2 ^ T.bits }
    ensures { map T.value items.new ≡ replicate (length items.old) symbol }
{
    for item in items.iter_mut() {
        *item = T::of(symbol);
    }
}

// Merges the elements of a fork whose bits begin at bit `start`: a zero takes the next of the first `low_len` elements,
// and a one the next of the others. No branch depends on a bit, and the bits are read a word at a time.
fn merge<T: Integer, A: Allocator + Copy>(
    bits: &BitVec<A>,
    start: usize,
    low_len: usize,
    parts: &[T],
    merged: &mut [T],
)
    requires fits { length bits.now < 2 ^ 64 }
    requires within { start + length merged.old ≤ length bits.now }
    requires long { length parts.now ≡ length merged.old }
    requires ones { low_len + own_ones bits.now start (length merged.old) ≡ length merged.old }
    ensures { Merges bits.now start low_len parts.now merged.new (length merged.new) }
{
    let mut low = 0;
    let mut high = low_len;
    let mut position = 0;
    while position < merged.len() {
        let many = (merged.len() - position).min(64);
        let word = bits.get_bits_unchecked(start + position, many);
        for k in 0..many {
            let is_one = word >> k & 1 == 1;
            merged[position + k] = parts[source(is_one, low, high)];
            high += usize::from(is_one);
            low += usize::from(!is_one);
        }
        position += many;
    }
}

// Returns the next position on the left, or on the right if the bit is a one.
#[inline(always)]
fn source(is_one: bool, low: usize, high: usize) -> usize
    ensures { result ≡ next_source is_one low high }
{
    if is_one { high } else { low }
}
