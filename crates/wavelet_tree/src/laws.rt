//! Laws over the definitions, true of every tree. Each function does nothing: its contract is the law, and its
//! proof is checked with the crate.
#![tactic(auto, using(crate::proofs::PublicLaws::depth_law))]

ghost use Rattle.wavelet_tree.specs.Laws.{NoDepthExceedsHeight};

/// No symbol of a tree is deeper than its deepest leaf.
pub fn no_depth_exceeds_height()
    ensures { NoDepthExceedsHeight }
{}
