//! Laws of ascending lists. Each function does nothing: its contract is the law, and its proof is
//! checked with the crate.
ghost use Rattle.vers_sorted.specs.Laws.{BelowIsAtMostAll, BelowRises, FirstElementsAreBelow, OtherElementsAreNotBelow, LeastNotBelowIsNext, GreatestNotAboveIsLast, GreatestNotAboveIsGreatest, LeastNotBelowIsLeast, NoneBelowNoneNotAbove, ClogIsLeast, HighPartsAreFew, PartsDetermineList, PartsDecodeToList};

/// At most all elements are below a number.
#[tactic(auto, using(crate::proofs::Neighbours::laws))]
pub fn below_is_at_most_all()
    ensures { BelowIsAtMostAll }
{}

/// No fewer elements are below a greater number.
#[tactic(auto, using(crate::proofs::Neighbours::laws))]
pub fn below_rises()
    ensures { BelowRises }
{}

/// The elements of an ascending list before position `below elements v` are below `v`.
#[tactic(auto, using(crate::proofs::Neighbours::laws))]
pub fn first_elements_are_below()
    ensures { FirstElementsAreBelow }
{}

/// The elements of an ascending list from position `below elements v` on are at least `v`.
#[tactic(auto, using(crate::proofs::Neighbours::laws))]
pub fn other_elements_are_not_below()
    ensures { OtherElementsAreNotBelow }
{}

/// The least element that is at least `v` is at position `below elements v`. There is none if the list has no
/// such position.
#[tactic(auto, using(crate::proofs::Neighbours::laws))]
pub fn least_not_below_is_next()
    ensures { LeastNotBelowIsNext }
{}

/// The greatest element that is at most `v` is the last one below `v + 1`, if there is one.
#[tactic(auto, using(crate::proofs::Neighbours::laws))]
pub fn greatest_not_above_is_last()
    ensures { GreatestNotAboveIsLast }
{}

/// In a sorted list, `greatest_not_above` is an element, not above `v`, and the greatest such element.
#[tactic(auto, using(crate::proofs::Neighbours::laws))]
pub fn greatest_not_above_is_greatest()
    ensures { GreatestNotAboveIsGreatest }
{}

/// In a sorted list, `least_not_below` is an element, not below `v`, and the least such element.
#[tactic(auto, using(crate::proofs::Neighbours::laws))]
pub fn least_not_below_is_least()
    ensures { LeastNotBelowIsLeast }
{}

/// If no element is below `v + 1`, none is at most `v`.
#[tactic(auto, using(crate::proofs::Neighbours::laws))]
pub fn none_below_none_not_above()
    ensures { NoneBelowNoneNotAbove }
{}

/// `2 ^ clog n` is the least power of two that is at least `n`.
#[tactic(auto, using(crate::proofs::Lengths::laws))]
pub fn clog_is_least()
    ensures { ClogIsLeast }
{}

/// The high parts of `n` elements have at most `2 + n + p` bits, where `p` is the least power of two that is at
/// least `n` and at least 2.
#[tactic(auto, using(crate::proofs::Lengths::laws))]
pub fn high_parts_are_few()
    ensures { HighPartsAreFew }
{}

/// The parts of an ascending list determine its elements.
#[tactic(auto, using(crate::proofs::Parted::laws))]
pub fn parts_decode_to_list()
    ensures { PartsDecodeToList }
{}

/// Two ascending lists with the same ends and parts are equal.
#[tactic(auto, using(crate::proofs::Parted::laws))]
pub fn parts_determine_list()
    ensures { PartsDetermineList }
{}
