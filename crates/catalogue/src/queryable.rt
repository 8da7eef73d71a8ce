//! Structures that can be queried.
ghost use Rattle.std.specs.Prelude.{◌≡◌};
ghost use Rattle.catalogue.specs.Structures.{answer as answer_of};

use crate::answer::Answer;
use crate::query::Query;

/// A structure that can be queried.
pub trait Queryable {
    ghost use Rattle.catalogue.specs.Structures.{Content};

    // The plain list of the structure.
    ghost content: { Self → Content };

    /// Returns the answer to a query with three numbers.
    fn answer(&self, query: Query, a: u64, b: u64, c: u64) -> Answer
        ensures { result ≡ answer_of (content self.now) query a b c };
}

/// Returns the answer of a structure. It is a function of its own, so that it saves no registers that only
/// other paths need.
#[inline(never)]
pub fn answer_once<S: Queryable>(structure: &S, query: Query, a: u64, b: u64, c: u64) -> Answer
    ensures { result ≡ answer_of (S.content structure.now) query a b c }
{
    structure.answer(query, a, b, c)
}
