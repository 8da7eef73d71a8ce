//! The export that combines ascending lists as sets.
ghost use Rattle.std.specs.Prelude.{◌≡◌, Bool, ℕ, IfOk, IsErr, IsSome, option_map};
ghost use Rattle.sets.specs.Sets.{IsSetOf};
ghost use Rattle.vers_c.specs.Combined.{coded_combined, combined, contents_combined, numbers_with};
ghost use Rattle.vers_c.specs.Makes.{IsMade};
ghost use Rattle.vers_c.specs.Structures.{content, contents};

use crate::handle::VersHandle;
use crate::kept::Kept;
use crate::owners::{fill_made, put, taken};
use crate::status::{OCCUPIED, REFUSED};
use catalogue::documents::Joint;
use catalogue::structure::Structure;
use sets::{difference, intersection, union};
use std::alloc::{AllocError, Global};
use vers_sorted::elias_fano::EliasFanoVec;

/// Puts numbers of two ascending lists, without repeats, into a third handle, as an ascending list: those that the code
/// of a `Joint` selects. The handles are distinct.
#[unsafe(no_mangle)]
pub extern "C" fn vers_combine(
    alloc: Global,
    one: &mut VersHandle,
    other: &mut VersHandle,
    code: u32,
    into: &mut VersHandle,
) -> u32
    ensures made { IsMade (contents_combined (contents one.old) (contents other.old) code) (contents into.old)
        (contents into.new) result }
    ensures one { contents one.new ≡ contents one.old }
    ensures other { contents other.new ≡ contents other.old }
{
    if into.is_built {
        return OCCUPIED;
    }
    if !one.is_built || !other.is_built {
        return REFUSED;
    }
    let first = taken(alloc, one);
    let second = taken(alloc, other);
    let made = kept_combined(alloc, &first, &second, code);
    put(one, first);
    put(other, second);
    fill_made(alloc, into, made)
}

// Returns numbers of two ascending lists, by the code of a `Joint`. `None` if one is no such list, or there is no such
// code. Errors: `AllocError` if the allocator refuses a request.
#[tactic(auto, unfolding(crate::specs::Combined::coded_combined))]
fn kept_combined(
    alloc: Global,
    kept: &Kept,
    other: &Kept,
    code: u32,
) -> Result<Option<Kept>, AllocError>
    ensures made { IfOk result (λ made. option_map content made
        ≡ coded_combined (content kept.now) (content other.now) code) }
    ensures both { IsErr result → IsSome (coded_combined (content kept.now) (content other.now) code) }
{
    let Some(joint) = Joint::of(code) else {
        return Ok(None);
    };
    match kept {
        Kept::Other(Structure::Sorted(one)) => match other {
            Kept::Other(Structure::Sorted(two)) => {
                let made = combined_lists(alloc, joint, one, two)?;
                Ok(Some(Kept::Other(Structure::Sorted(made))))
            }
            _ => Ok(None),
        },
        _ => Ok(None),
    }
}

// Returns numbers of two ascending lists. Errors: `AllocError` if the allocator refuses a request.
fn combined_lists(
    alloc: Global,
    joint: Joint,
    one: &EliasFanoVec<Global>,
    other: &EliasFanoVec<Global>,
) -> Result<EliasFanoVec<Global>, AllocError>
    ensures { IfOk result (λ made. made ≡ combined joint one.now other.now) }
{
    match joint {
        Joint::Intersection => Ok(as_set(intersection(alloc, one, other)?)),
        Joint::Union => Ok(as_set(union(alloc, one, other)?)),
        Joint::Difference => Ok(as_set(difference(alloc, one, other)?)),
    }
}

// Returns the list. If it is a set, it has exactly the numbers of 64 bits that the set has.
fn as_set(list: EliasFanoVec<Global>) -> EliasFanoVec<Global>
    ensures { (has : ℕ → Bool) → IsSetOf has list → result ≡ numbers_with has }
{
    let _ = list.ends();
    list
}
