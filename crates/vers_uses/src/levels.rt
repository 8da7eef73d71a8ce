//! Any tree by its traits: built from steps, and walked along a level.
ghost use Rattle.std.specs.Prelude.{◌≡◌, ◌++◌, map, IfOk, OnOk};
ghost use Rattle.vers_vecs.specs.Nodes.{level};

use std::alloc::{AllocError, Allocator};
use vers_vecs::bit_vec::GrowError;
use vers_vecs::trees::{LevelTree, TreeBuilder};

/// Calls a builder to enter a node for each true and to leave one for each false.
///
/// # Errors
///
/// Those of the builder.
pub fn take_steps<B: TreeBuilder>(builder: &mut B, steps: &[bool]) -> Result<(), GrowError>
    ensures { OnOk result (B.steps builder.new ≡ B.steps builder.old ++ steps.now) }
{
    for enters in steps {
        if *enters {
            builder.enter_node()?;
        } else {
            builder.leave_node()?;
        }
    }
    Ok(())
}

/// Returns the nodes of a depth in any tree, from left to right. Errors: `AllocError` if the allocator refuses
/// a request.
pub fn nodes_on_level<T: LevelTree, A: Allocator>(
    alloc: A,
    tree: &T,
    depth: u64,
) -> Result<Vec<T::NodeHandle, A>, AllocError>
where
    T::NodeHandle: Copy,
    requires balanced { T.is_forest tree.now }
    ensures { IfOk result
        (λ nodes. map (T.position tree.now) nodes.items ≡ level (T.forest tree.now) depth) }
{
    let mut nodes = Vec::new(alloc);
    let mut next = tree.level_leftmost(depth);
    while let Some(node) = next {
        nodes.push(node)?;
        next = tree.level_next(node);
    }
    Ok(nodes)
}
