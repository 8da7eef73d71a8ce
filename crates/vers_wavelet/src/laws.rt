//! Laws of lists of symbols. Each function does nothing: its contract is the law, and its proof is
//! checked with the crate.
ghost use Rattle.vers_wavelet.specs.Laws.{SortedElementsAscend, SortingKeepsElements, KthBySizeIsKth, KthBySizeIsItem, RangesHaveElements, RangesHavePredecessors, RangesHaveSuccessors, GreatestUpToIsPredecessor, SomeElementsAreUpTo, LeastFromIsSuccessor, SomeElementsAreFrom, RangesInsideStay, NarrowSymbolsAreWords, WideSymbolsAreNoWords, OneElementOfANumber, QuantilesListElementsBySize, SmallNumbersStay, LevelsAreEven, EveryLevelsAreSome, LevelsDetermineSymbols, OccurrencesAreCounted};

/// Sorted elements ascend.
#[tactic(auto, using(crate::proofs::BySize::by_size_ascends))]
pub fn sorted_elements_ascend()
    ensures { SortedElementsAscend }
{}

/// Sorting keeps each element as often as it occurs.
#[tactic(auto, using(crate::proofs::BySize::count_by_size))]
pub fn sorting_keeps_elements()
    ensures { SortingKeepsElements }
{}

/// The `i`-th smallest element is the one that at most `i` elements are below and more than `i` are at most: no
/// other number satisfies this.
pub fn kth_by_size_is_kth()
    ensures { KthBySizeIsKth }
{}

/// The `i`-th smallest element is the item at position `i` in ascending order.
#[tactic(auto, using(crate::proofs::BySize::kth_item))]
pub fn kth_by_size_is_item()
    ensures { KthBySizeIsItem }
{}

/// The greatest element up to a number is the predecessor: an element that is at most the number, and no such
/// element is above it.
pub fn greatest_up_to_is_predecessor()
    ensures { GreatestUpToIsPredecessor }
{}

/// There is a greatest element up to a number exactly if some element is at most the number.
#[tactic(auto, using(crate::proofs::Nearest::greatest_up_to_some))]
pub fn some_elements_are_up_to()
    ensures { SomeElementsAreUpTo }
{}

/// The least element from a number on is the successor: an element that is at least the number, and no such element
/// is below it.
pub fn least_from_is_successor()
    ensures { LeastFromIsSuccessor }
{}

/// There is a least element from a number on exactly if some element is at least the number.
#[tactic(auto, using(crate::proofs::Nearest::least_from_some))]
pub fn some_elements_are_from()
    ensures { SomeElementsAreFrom }
{}

/// A range's `i`-th smallest element is the one that at most `i` of its elements are below and more than `i` are
/// at most. It exists if the range ends within the list and has more than `i` positions.
pub fn ranges_have_elements()
    ensures { RangesHaveElements }
{}

/// A range's greatest element up to a number is the predecessor among its elements. It exists if the range is
/// within the list and some of its elements are at most the number.
pub fn ranges_have_predecessors()
    ensures { RangesHavePredecessors }
{}

/// A range's least element from a number on is the successor among its elements. It exists if the range is within
/// the list and some of its elements are at least the number.
pub fn ranges_have_successors()
    ensures { RangesHaveSuccessors }
{}

/// The elements of a range that ends within the list are those at its positions.
#[tactic(auto, using(crate::proofs::Ranges::elements_inside))]
pub fn ranges_inside_stay()
    ensures { RangesInsideStay }
{}

/// Symbols of at most 64 bits fit in a word.
#[tactic(auto, using(crate::proofs::Ranges::narrow_word))]
pub fn narrow_symbols_are_words()
    ensures { NarrowSymbolsAreWords }
{}

/// Symbols of more than 64 bits don't fit in a word.
#[tactic(auto, using(crate::proofs::Ranges::wide_word))]
pub fn wide_symbols_are_no_words()
    ensures { WideSymbolsAreNoWords }
{}

/// A list has only one `i`-th smallest element, so a quantile is one number.
pub fn one_element_of_a_number()
    ensures { OneElementOfANumber }
{}

/// The quantiles from the first to the last are the elements in ascending order, duplicates included.
#[tactic(auto, using(crate::proofs::BySize::quantiles_ascend))]
pub fn quantiles_list_elements_by_size()
    ensures { QuantilesListElementsBySize }
{}

/// Numbers of at most `k` digits are their own low digits if `k` isn't 0.
#[tactic(auto, using(crate::proofs::Makes::small_numbers_stay))]
pub fn small_numbers_stay()
    ensures { SmallNumbersStay }
{}

/// A list of symbols has a level for each digit, and each level has a bit for each symbol.
#[tactic(auto, using(crate::proofs::Inverses::levels_even))]
pub fn levels_are_even()
    ensures { LevelsAreEven }
{}

/// Any lists of bits of one length are the levels of a list of symbols.
#[tactic(auto, using(crate::proofs::Inverses::some_symbols))]
pub fn every_levels_are_some()
    ensures { EveryLevelsAreSome }
{}

/// Two lists of as many symbols are equal if they have the same levels.
#[tactic(auto, using(crate::proofs::Inverses::levels_tell))]
pub fn levels_determine_symbols()
    ensures { LevelsDetermineSymbols }
{}

/// A symbol occurs in a range as often as it is among the range's elements.
#[tactic(auto, using(crate::proofs::Lists::occurrences_are_counted))]
pub fn occurrences_are_counted()
    ensures { OccurrencesAreCounted }
{}
