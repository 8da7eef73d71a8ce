//! The data of blocks of 128 items.
ghost use Rattle.std.specs.Prelude.{◌+◌, ◌-◌, ◌*◌, ◌<◌, ◌≤◌, length, IfOk, slice_index_or};
ghost use Rattle.vers_rmq.specs.Minima.{IsFirstLeast};
ghost use Rattle.vers_rmq.specs.inside.Masks.{AreMasks};
ghost use Rattle.vers_rmq.specs.inside.Blocks.{AreBlocks, AreAllBlocks};

use crate::rmq::fast_rmq::mask::{Masks, prefix_masks, suffix_masks};
use crate::rmq::fast_rmq::{BLOCK, MAX_LEN, PART};
use std::alloc::{AllocError, Allocator};

// The masks of a block, which take 64 bytes: those of the whole block, and those of its parts of 16 items.
#[derive(Clone, Copy)]
pub(super) struct BlockMasks {
    pub(super) whole: Masks,
    pub(super) parts: Masks,
}

// For each block the least item, the distance of its first position to the block's start, and the masks.
#[derive(Drop)]
pub(super) struct Blocks<A: Allocator + Copy> {
    pub(super) minima: Vec<u64, A>,
    pub(super) positions: Vec<u8, A>,
    pub(super) masks: Vec<BlockMasks, A>,
}

// Returns the masks of the block from `start` to before `end`, and the first position of its least item.
fn block_masks(items: &[u64], start: usize, end: usize) -> (BlockMasks, usize)
    requires some { start < end }
    requires few { end ≤ start + BLOCK }
    requires inside { end ≤ length items.now }
    ensures whole { AreMasks items.now BLOCK start end result.0.whole }
    ensures parts { AreMasks items.now PART start end result.0.parts }
    ensures least { IsFirstLeast items.now start (end - 1) result.1 }
{
    let (prefixes, part_prefixes, least) = prefix_masks(items, start, end);
    let (suffixes, part_suffixes) = suffix_masks(items, start, end);
    let masks = BlockMasks {
        whole: Masks { prefixes, suffixes },
        parts: Masks {
            prefixes: part_prefixes,
            suffixes: part_suffixes,
        },
    };
    (masks, least)
}

// Appends the data of block `b`.
fn add_block<A: Allocator + Copy>(
    items: &[u64],
    blocks: &mut Blocks<A>,
    b: usize,
) -> Result<(), AllocError>
    requires few { length items.now ≤ MAX_LEN }
    requires inside { BLOCK * b < length items.now }
    requires before { AreBlocks items.now b blocks.old.minima.items blocks.old.positions.items
        blocks.old.masks.items }
    ensures { IfOk result (λ _. AreBlocks items.now (b + 1)
        blocks.new.minima.items blocks.new.positions.items blocks.new.masks.items) }
{
    let start = BLOCK * b;
    let end = items.len().min(start + BLOCK);
    let (masks, least) = block_masks(items, start, end);
    blocks.minima.push(items[least])?;
    blocks.positions.push((least - start) as u8)?;
    blocks.masks.push(masks)?;
    Ok(())
}

// Returns the data of all blocks. Allocates each vector once.
#[tactic(auto, using(crate::proofs::Blocks::no_blocks, crate::proofs::Blocks::all_blocks))]
pub(super) fn all_blocks<A: Allocator + Copy>(
    items: &[u64],
    alloc: A,
) -> Result<Blocks<A>, AllocError>
    requires { length items.now ≤ MAX_LEN }
    ensures { IfOk result (λ v. AreAllBlocks items.now v.minima.items v.positions.items
        v.masks.items) }
{
    let count = items.len().div_ceil(BLOCK);
    let mut blocks = Blocks {
        minima: Vec::with_capacity(alloc, count)?,
        positions: Vec::with_capacity(alloc, count)?,
        masks: Vec::with_capacity(alloc, count)?,
    };
    for b in 0..count {
        add_block(items, &mut blocks, b)?;
    }
    Ok(blocks)
}
