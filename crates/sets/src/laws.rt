//! Laws of sets as ascending lists. Each function has an empty body: the checked proof of its contract is the
//! proof of the law.
ghost use Rattle.sets.specs.Laws.{SetIsOneList, IntersectionIsFilter, DifferenceIsFilter, SetBelowIsFilter};

/// States that a set is one list.
pub fn set_is_one_list()
    ensures { SetIsOneList }
{}

/// States that an intersection with a strictly ascending list is a filter of it.
pub fn intersection_is_filter()
    ensures { IntersectionIsFilter }
{}

/// States that a difference of a strictly ascending list and another is a filter of the first.
pub fn difference_is_filter()
    ensures { DifferenceIsFilter }
{}

/// States that a set of numbers below a limit is a filter of the numbers below it.
pub fn set_below_is_filter()
    ensures { SetBelowIsFilter }
{}
