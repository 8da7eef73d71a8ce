//! Laws of counting. Each function does nothing: its contract is the law, and its proof is
//! checked with the crate.
ghost use Rattle.vers_tally.specs.Laws.{ReadingNothingAddsNothing, BoundsAdd, GreaterBoundsHold, HalvingTakesADigit};

/// Reading nothing adds nothing.
#[tactic(auto, using(crate::proofs::Adding::bounds))]
pub fn reading_nothing_adds_nothing()
    ensures { ReadingNothingAddsNothing }
{}

/// Two sequences of reads, one after the other, add at most the sum of both bounds.
#[tactic(auto, using(crate::proofs::Adding::bounds))]
pub fn bounds_add()
    ensures { BoundsAdd }
{}

/// A greater bound holds too.
#[tactic(auto, using(crate::proofs::Adding::bounds))]
pub fn greater_bounds_hold()
    ensures { GreaterBoundsHold }
{}

/// Half a number has one binary digit less.
#[tactic(auto, using(crate::proofs::Halves::digits_half))]
pub fn halving_takes_a_digit()
    ensures { HalvingTakesADigit }
{}
