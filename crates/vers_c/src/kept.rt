//! The structures of handles.
ghost use Rattle.std.specs.Prelude.{◌≡◌, ◌≢◌, map, Some, None, IfOk, IfSome, IsErr, IsSome, option_map};
ghost use Rattle.catalogue.specs.Structures.{PlainNumbers, content_of, kind_of, answer as answer_of};
ghost use Rattle.vers_c.specs.Answers.{IsReportedAs};
ghost use Rattle.vers_c.specs.Batches.{answered_row};
ghost use Rattle.vers_c.specs.Changes.{IsChanged, changed_by_code, coded_status};
ghost use Rattle.vers_c.specs.Codes.{batch_status, coded_answer, query_of};
ghost use Rattle.vers_c.specs.Lists.{coded_joined, common_of, joined_of, listed_of};
ghost use Rattle.vers_c.specs.Texts.{first_pattern_positions, pattern_count, pattern_positions, piece};
ghost use Rattle.vers_c.specs.Structures.{content};

use crate::asked::{Row, answer_each};
use crate::batch::{
    each_of_bits, each_of_documents, each_of_elements, each_of_ones, each_of_pairs,
    each_of_symbols, each_of_values,
};
use crate::change::Change;
use crate::makes::Parentheses;
use crate::status::{DONE, UNKNOWN};
use crate::text::as_numbers;
use catalogue::answer::Answer;
use catalogue::documents::{Joint, documents_of, joined_documents};
use catalogue::query::Query;
use catalogue::queryable::{Queryable, answer_once};
use catalogue::structure::{Kind, Structure};
use catalogue::with_list;
use std::alloc::{AllocError, Global};
use std::sync::Arc;

/// A structure in the memory of the program.
#[derive(Drop)]
pub enum Kept {
    /// Parentheses. They are not those of `Structure`, which borrow their allocator.
    Tree(Box<Parentheses, Global>),
    /// Another structure.
    Other(Structure<'static, Global>),
}

impl Kept {
    // Returns the kind, or `None` for plain numbers.
    fn kind(&self) -> Option<Kind>
        ensures { result ≡ kind_of (content self.now) }
    {
        match self {
            Kept::Tree(_) => Some(Kind::Tree),
            Kept::Other(structure) => structure.kind(),
        }
    }

    /// Returns the answer to a query with three numbers.
    pub fn answer(&self, query: Query, a: u64, b: u64, c: u64) -> Answer
        ensures { result ≡ answer_of (content self.now) query a b c }
    {
        match self {
            Kept::Tree(tree) => answer_once(&**tree, query, a, b, c),
            Kept::Other(structure) => structure.answer(query, a, b, c),
        }
    }
}

/// An owner of a structure, which may have other owners in other threads.
pub type Owner = Arc<Kept, Global>;

/// Returns the structure's answer to a query, fastest if the structure is of a given kind.
#[inline(always)]
pub fn answer_as(kept: &Kept, kind: Kind, query: Query, a: u64, b: u64, c: u64) -> Answer
    ensures { result ≡ answer_of (content kept.now) query a b c }
{
    match kind {
        Kind::Bits => match kept {
            Kept::Other(Structure::Bits(bits)) => bits.answer(query, a, b, c),
            _ => kept.answer(query, a, b, c),
        },
        Kind::Sorted => match kept {
            Kept::Other(Structure::Sorted(elements)) => elements.answer(query, a, b, c),
            _ => kept.answer(query, a, b, c),
        },
        Kind::Symbols => match kept {
            Kept::Other(Structure::Symbols(symbols)) => symbols.answer(query, a, b, c),
            _ => kept.answer(query, a, b, c),
        },
        Kind::Tree => match kept {
            Kept::Tree(tree) => (**tree).answer(query, a, b, c),
            _ => kept.answer(query, a, b, c),
        },
        Kind::Fast => match kept {
            Kept::Other(Structure::Fast(values)) => values.answer(query, a, b, c),
            _ => kept.answer(query, a, b, c),
        },
        _ => kept.answer(query, a, b, c),
    }
}

/// Returns the structure's answer to the query of a code.
pub fn answer_coded(kept: &Kept, code: u32, a: u64, b: u64, c: u64) -> Answer
    ensures { result ≡ coded_answer (content kept.now) code a b c }
{
    match Query::of(code) {
        Some(query) => kept.answer(query, a, b, c),
        None => Answer::Unknown,
    }
}

/// Replaces each row by the answer to its numbers, with a loop for each structure.
pub fn each_answer<R: Row>(
    kept: &Kept,
    alloc: Global,
    query: Query,
    rows: &mut [R],
    b: u64,
    c: u64,
    other: u64,
)
    ensures { rows.new
        ≡ map (answered_row R.ask R.with_answer (answer_of (content kept.now) query) other b c) rows.old }
{
    match kept {
        Kept::Tree(tree) => answer_each(&**tree, query, rows, b, c, other),
        Kept::Other(structure) => each_other(structure, alloc, query, rows, b, c, other),
    }
}

// Does what `each_answer` does for a structure other than `Kept::Tree`.
fn each_other<R: Row>(
    structure: &Structure<'static, Global>,
    alloc: Global,
    query: Query,
    rows: &mut [R],
    b: u64,
    c: u64,
    other: u64,
)
    ensures { rows.new
        ≡ map (answered_row R.ask R.with_answer (answer_of (content_of structure.now) query) other b c) rows.old }
{
    match structure {
        Structure::Bits(bits) => each_of_bits(bits, query, rows, b, c, other),
        Structure::Sorted(elements) => each_of_elements(elements, query, rows, b, c, other),
        Structure::Sparse(bits) => each_of_ones(bits, query, rows, b, c, other),
        Structure::Symbols(symbols) => each_of_symbols(alloc, symbols, query, rows, b, c, other),
        Structure::Fast(values) => each_of_values(values, query, rows, b, c, other),
        Structure::Postings(posted) => each_of_documents(posted, query, rows, b, c, other),
        Structure::Inverted(index) => each_of_pairs(index, query, rows, b, c, other),
        _ => with_list!(structure, list => answer_each(list, query, rows, b, c, other)),
    }
}

/// Returns the query of a code, or `None` if the structure doesn't have it.
pub fn query_of_code(kept: &Kept, code: u32) -> Option<Query>
    ensures known { IfSome result (λ query. (query_of code ≡ Some query)
        × (batch_status (content kept.now) code ≡ DONE)) }
    ensures unknown { result ≡ None
        → batch_status (content kept.now) code ≡ UNKNOWN }
{
    let query = Query::of(code)?;
    if query.is_of(kept.kind()) {
        Some(query)
    } else {
        None
    }
}

/// Does what `answer_each` does for the query of a code. Returns a status.
pub fn each_answer_coded<R: Row>(
    kept: &Kept,
    alloc: Global,
    code: u32,
    rows: &mut [R],
    b: u64,
    c: u64,
    other: u64,
) -> u32
    ensures status { result ≡ batch_status (content kept.now) code }
    ensures done { result ≡ DONE → rows.new
        ≡ map (answered_row R.ask R.with_answer (coded_answer (content kept.now) code) other b c) rows.old }
    ensures left { result ≢ DONE → rows.new ≡ rows.old }
{
    match query_of_code(kept, code) {
        Some(query) => {
            each_answer(kept, alloc, query, rows, b, c, other);
            DONE
        }
        None => UNKNOWN,
    }
}

/// Changes the structure by the change of a code. Returns a status.
pub fn change(kept: &mut Kept, code: u32, a: u64, b: u64) -> u32
    ensures changed { IsChanged (changed_by_code (content kept.old) code a b) (content kept.old)
        (content kept.new) result }
    ensures reported { IsReportedAs (coded_status (content kept.old) code a b) result }
{
    let Some(change) = Change::of(code) else {
        return UNKNOWN;
    };
    match kept {
        Kept::Other(Structure::Growing(bits)) => change.make(bits, a, b),
        _ => UNKNOWN,
    }
}

// Returns plain numbers.
fn numbers(items: Vec<u64, Global>) -> Kept
    ensures { content result ≡ PlainNumbers items.items }
{
    Kept::Other(Structure::Numbers(items))
}

/// Returns the documents common to two lists, as plain numbers. `None` if one is no such list. Errors:
/// `AllocError` if the allocator refuses a request.
pub fn common(kept: &Kept, other: &Kept) -> Result<Option<Kept>, AllocError>
    ensures common { IfOk result (λ made. option_map content made
        ≡ common_of (content kept.now) (content other.now)) }
    ensures both { IsErr result → IsSome (common_of (content kept.now) (content other.now)) }
{
    match kept {
        Kept::Other(Structure::Postings(one)) => match other {
            Kept::Other(Structure::Postings(two)) => Ok(Some(numbers(one.intersect(two)?))),
            _ => Ok(None),
        },
        _ => Ok(None),
    }
}

/// Returns the documents of a term, as plain numbers. `None` if this is no inverted index. Errors: `AllocError` if the
/// allocator refuses a request.
pub fn listed(kept: &Kept, alloc: Global, term: u64) -> Result<Option<Kept>, AllocError>
    ensures listed { IfOk result (λ made. option_map content made ≡ listed_of (content kept.now) term) }
    ensures index { IsErr result → IsSome (listed_of (content kept.now) term) }
{
    match kept {
        Kept::Other(Structure::Inverted(index)) => {
            Ok(Some(numbers(documents_of(alloc, index, term)?)))
        }
        _ => Ok(None),
    }
}

/// Returns documents of the first of some terms and of the others, as plain numbers, by the code of a `Joint`. `None`
/// if this is no inverted index, there is no such code, or there is no term. Errors: `AllocError` if the allocator
/// refuses a request.
pub fn joined_coded(
    kept: &Kept,
    alloc: Global,
    code: u32,
    terms: &[u64],
) -> Result<Option<Kept>, AllocError>
    ensures joined { IfOk result (λ made. option_map content made
        ≡ coded_joined (content kept.now) code terms.now) }
    ensures index { IsErr result → IsSome (coded_joined (content kept.now) code terms.now) }
{
    let Some(joint) = Joint::of(code) else {
        return Ok(None);
    };
    match terms.split_first() {
        Some((first, others)) => joined(kept, alloc, joint, *first, others),
        None => Ok(None),
    }
}

// Returns documents of a term and of others, as plain numbers. `None` if this is no inverted index.
fn joined(
    kept: &Kept,
    alloc: Global,
    joint: Joint,
    first: u64,
    others: &[u64],
) -> Result<Option<Kept>, AllocError>
    ensures joined { IfOk result (λ made. option_map content made
        ≡ joined_of (content kept.now) joint first others.now) }
    ensures index { IsErr result → IsSome (joined_of (content kept.now) joint first others.now) }
{
    match kept {
        Kept::Other(Structure::Inverted(index)) => {
            Ok(Some(numbers(joined_documents(alloc, index, joint, first, others)?)))
        }
        _ => Ok(None),
    }
}

/// Returns the number of occurrences of a pattern in a text.
pub fn count(kept: &Kept, pattern: &[u64]) -> Answer
    ensures { result ≡ pattern_count (content kept.now) pattern.now }
{
    match kept {
        Kept::Other(Structure::Text(text)) => Answer::position(text.count(pattern)),
        _ => Answer::Unknown,
    }
}

/// Returns the positions of a pattern in a text, ascending, as plain numbers. `None` if this is no text.
/// Errors: `AllocError` if the allocator refuses a request.
pub fn places(kept: &Kept, alloc: Global, pattern: &[u64]) -> Result<Option<Kept>, AllocError>
    ensures positions { IfOk result (λ made. option_map content made
        ≡ pattern_positions (content kept.now) pattern.now) }
    ensures text { IsErr result → IsSome (pattern_positions (content kept.now) pattern.now) }
{
    match kept {
        Kept::Other(Structure::Text(text)) => {
            let positions = text.places_ascending(pattern)?;
            Ok(Some(numbers(as_numbers(alloc, &positions)?)))
        }
        _ => Ok(None),
    }
}

/// Returns the first positions of a pattern in a text, at most `limit`, in suffix-array order, as plain
/// numbers. `None` if this is no text. Errors: `AllocError` if the allocator refuses a request.
pub fn first_places(
    kept: &Kept,
    alloc: Global,
    pattern: &[u64],
    limit: usize,
) -> Result<Option<Kept>, AllocError>
    ensures positions { IfOk result (λ made. option_map content made
        ≡ first_pattern_positions (content kept.now) pattern.now limit) }
    ensures text { IsErr result
        → IsSome (first_pattern_positions (content kept.now) pattern.now limit) }
{
    match kept {
        Kept::Other(Structure::Text(text)) => {
            let positions = text.first_places(pattern, limit)?;
            Ok(Some(numbers(as_numbers(alloc, &positions)?)))
        }
        _ => Ok(None),
    }
}

/// Returns the symbols of a text from one position up to another, as plain numbers. `None` if this is no
/// text with such positions. Errors: `AllocError` if the allocator refuses a request.
pub fn extract(kept: &Kept, from: usize, to: usize) -> Result<Option<Kept>, AllocError>
    ensures piece { IfOk result (λ made. option_map content made
        ≡ piece (content kept.now) from to) }
    ensures some { IsErr result → IsSome (piece (content kept.now) from to) }
{
    match kept {
        Kept::Other(Structure::Text(text)) => match text.extract(from..to)? {
            Some(symbols) => Ok(Some(numbers(symbols))),
            None => Ok(None),
        },
        _ => Ok(None),
    }
}
