//! Tests of a constructor's preconditions on a caller's numbers.
ghost use Rattle.std.specs.Prelude.{◌≡◌, ◌<◌, ◌↔◌, All, IsTrue, nat_le, nat_lt, not};
ghost use Rattle.std.specs.List.{list_all};
ghost use Rattle.std.specs.List.Sorted.{IsNonDecreasing, IsStrictlyIncreasing};
ghost use Rattle.vers_sorted.specs.Sorted.{each_next, order_of};

/// Returns true if the numbers ascend: no number is below the previous one. `EliasFanoVec::from_slice` requires
/// this.
#[tactic(auto, using(crate::proofs::Orders::ascending_is))]
pub fn is_ascending(numbers: &[u64]) -> bool
    ensures each { result ≡ each_next nat_le numbers.now }
    ensures all { IsTrue result ↔ IsNonDecreasing numbers.now }
{
    is_in_order::<false>(numbers)
}

/// Returns true if the numbers ascend strictly: each number is above the previous one. `SparseRSVec::new`
/// requires this.
#[tactic(auto, using(crate::proofs::Orders::rising_is))]
pub fn is_strictly_ascending(numbers: &[u64]) -> bool
    ensures each { result ≡ each_next nat_lt numbers.now }
    ensures all { IsTrue result ↔ IsStrictlyIncreasing numbers.now }
{
    is_in_order::<true>(numbers)
}

// Returns true if each number is below the next one, or at most that if not `STRICT`. No number ends the loop, so the
// compiler compares several at once.
fn is_in_order<const STRICT: bool>(numbers: &[u64]) -> bool
    ensures { result ≡ each_next (order_of STRICT) numbers.now }
{
    let Some((_first, next)) = numbers.split_first() else {
        return true;
    };
    let before = &numbers[..next.len()];
    let mut faults: usize = 0;
    for i in 0..before.len() {
        faults += usize::from(is_out_of_order::<STRICT>(before[i], next[i]));
    }
    faults == 0
}

// Returns true if two numbers aren't in that order.
#[inline(always)]
fn is_out_of_order<const STRICT: bool>(one: u64, next: u64) -> bool
    ensures { result ≡ not (order_of STRICT one next) }
{
    if STRICT { next <= one } else { next < one }
}

/// Returns true if each number is below a limit. `SparseRSVec::new` requires this of its length.
#[tactic(auto, using(crate::proofs::Orders::below_is))]
pub fn are_below(numbers: &[u64], limit: u64) -> bool
    ensures each { result ≡ list_all (λ number. nat_lt number limit) numbers.now }
    ensures all { IsTrue result ↔ All (λ number. number < limit) numbers.now }
{
    numbers.iter().all(|number| *number < limit)
}
