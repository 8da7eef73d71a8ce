//! Laws of inverted indexes. Each function has an empty body: the checked proof of its contract is the proof of the
//! law.
ghost use Rattle.inverted.specs.Laws.{EachTermHasList, NumbersDetermineIndex};

/// States that an index of numbers has a list for each term.
pub fn each_term_has_list()
    ensures { EachTermHasList }
{}

/// States that two indexes with the same number of terms, the same universe and the same numbers are equal.
pub fn numbers_determine_index()
    ensures { NumbersDetermineIndex }
{}
