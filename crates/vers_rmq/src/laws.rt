//! Laws of range minima. Each function does nothing: its contract is the law, and its proof is
//! checked with the crate.
ghost use Rattle.vers_rmq.specs.Laws.{LeastPositionIsFirst, OneFirstLeast};

/// A range has one first least position, so both types return the same position.
#[tactic(auto, using(crate::proofs::Minima::same_position))]
pub fn one_first_least()
    ensures { OneFirstLeast }
{}

/// The least position of a range is the first position of its least item: no item of the range is below the one
/// there, and those before it are above.
#[tactic(auto, using(crate::proofs::Found::first_positions))]
pub fn least_position_is_first()
    ensures { LeastPositionIsFirst }
{}
