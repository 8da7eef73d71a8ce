//! Queries and their codes.
ghost use Rattle.std.specs.Prelude.{◌≡◌, ℕ, slice_get};
ghost use Rattle.catalogue.specs.Answers.{is_known};
ghost use Rattle.catalogue.specs.Structures.{Content, kind_of, answer};

use crate::structure::Kind;
use vers_trees::trees::bp::{LevelEnd, Measure, Relative};

/// A query of a structure.
#[derive(Clone, Copy, Drop)]
pub enum Query {
    /// The number of items.
    Len,
    /// The item at position `a`.
    Get,
    /// The `b` bits from position `a` on, as a number.
    GetBits,
    /// The number of bytes of the heap that the structure takes.
    HeapSize,
    /// The number of zeros below a position.
    Rank0,
    /// The number of ones below a position.
    Rank1,
    /// The position of a zero by its number.
    Select0,
    /// The position of a one by its number.
    Select1,
    /// The number of elements below a number.
    Rank,
    /// Membership: true if a number is an element.
    Has,
    /// The greatest element that is at most a number.
    Predecessor,
    /// The least element that is at least a number.
    Successor,
    /// The difference between an element and the previous one.
    Delta,
    /// The number of bits of a symbol.
    Width,
    /// A query of symbols at positions, or of a symbol in the list.
    Symbols(SymbolsQuery),
    /// A query of any parentheses.
    Tree(TreeQuery),
    /// A relative of a node of balanced parentheses.
    Node(Relative),
    /// The ancestor of a node of balanced parentheses `b` levels up.
    LevelAncestor,
    /// A number of a node of balanced parentheses.
    Measure(Measure),
    /// An end of a level of balanced parentheses.
    Level(LevelEnd),
    /// True if a node is an ancestor of another.
    IsAncestor,
    /// The first position of a least value from position `a` to position `b`, both included.
    RangeMin,
    /// The first document of least cost from document `a` to document `b`, both included.
    Cheapest,
    /// The cost of the document at a position.
    Cost,
    /// True if parentheses are balanced and a node opens at a position.
    HasNode,
    /// The step of the samples of a text.
    Step,
    /// The number of terms.
    Terms,
    /// The number that all documents of terms are below.
    Universe,
    /// A query of the documents of term `a`.
    Term(TermQuery),
}

/// A query of the documents of term `a`.
#[derive(Clone, Copy, Drop)]
pub enum TermQuery {
    /// The number of documents.
    Count,
    /// The document at position `b`.
    Get,
    /// The number of documents below `b`.
    Rank,
    /// Membership: true if `b` is a document.
    Has,
    /// The least document that is at least `b`.
    Successor,
}

/// A query of a list of symbols.
#[derive(Clone, Copy, Drop)]
pub enum SymbolsQuery {
    /// The number of occurrences of symbol `b` in the first `a` positions.
    RankOf,
    /// The position of occurrence `a` of symbol `b`.
    SelectOf,
    /// The number of occurrences of symbol `c` in the positions from `a` up to `b`.
    RankRange,
    /// The position of occurrence `b` of symbol `c` from position `a` on.
    SelectFrom,
    /// The `c`-th smallest symbol of the positions from `a` up to `b`.
    Quantile,
    /// The least symbol of the positions from `a` up to `b`.
    Least,
    /// The greatest symbol of the positions from `a` up to `b`.
    Greatest,
    /// The median symbol of the positions from `a` up to `b`, the lower one of two.
    Median,
    /// The greatest symbol that is at most `c` in the positions from `a` up to `b`.
    Predecessor,
    /// The least symbol that is at least `c` in the positions from `a` up to `b`.
    Successor,
}

/// A query of any parentheses.
#[derive(Clone, Copy, Drop)]
pub enum TreeQuery {
    /// The number of ones.
    Size,
    /// True if the parentheses are balanced.
    IsBalanced,
    /// The ones minus the zeros up to a position, included, as a signed number.
    Excess,
    /// The zero that closes the one at a position.
    Close,
    /// The one that the zero at a position closes.
    Open,
    /// Where the nearest pair opens that encloses that of a position.
    Enclose,
    /// The position of a one by its number.
    NodeHandle,
    /// The first position after `a` past which the excess is `b` more, a signed number.
    FwdSearch,
    /// The last position before `a` before which the excess is `b` more, a signed number.
    BwdSearch,
    /// The position of the first bit.
    Root,
}

/// The query of each code of C, which is its index here. The root has none: it is the first position, if there is one.
pub const QUERIES: [Query; 60] = [
    Query::Len,
    Query::Get,
    Query::GetBits,
    Query::HeapSize,
    Query::Rank0,
    Query::Rank1,
    Query::Select0,
    Query::Select1,
    Query::Rank,
    Query::Has,
    Query::Predecessor,
    Query::Successor,
    Query::Delta,
    Query::Width,
    Query::Symbols(SymbolsQuery::RankOf),
    Query::Symbols(SymbolsQuery::SelectOf),
    Query::Symbols(SymbolsQuery::RankRange),
    Query::Symbols(SymbolsQuery::SelectFrom),
    Query::Symbols(SymbolsQuery::Quantile),
    Query::Symbols(SymbolsQuery::Least),
    Query::Symbols(SymbolsQuery::Greatest),
    Query::Symbols(SymbolsQuery::Median),
    Query::Symbols(SymbolsQuery::Predecessor),
    Query::Symbols(SymbolsQuery::Successor),
    Query::Tree(TreeQuery::Size),
    Query::Tree(TreeQuery::IsBalanced),
    Query::Tree(TreeQuery::Excess),
    Query::Tree(TreeQuery::Close),
    Query::Tree(TreeQuery::Open),
    Query::Tree(TreeQuery::Enclose),
    Query::Tree(TreeQuery::NodeHandle),
    Query::Tree(TreeQuery::FwdSearch),
    Query::Tree(TreeQuery::BwdSearch),
    Query::Node(Relative::Parent),
    Query::Node(Relative::FirstChild),
    Query::Node(Relative::LastChild),
    Query::Node(Relative::NextSibling),
    Query::Node(Relative::PreviousSibling),
    Query::Node(Relative::LevelNext),
    Query::Node(Relative::LevelPrev),
    Query::LevelAncestor,
    Query::Measure(Measure::NodeIndex),
    Query::Measure(Measure::IsLeaf),
    Query::Measure(Measure::Depth),
    Query::Measure(Measure::SubtreeSize),
    Query::Level(LevelEnd::Leftmost),
    Query::Level(LevelEnd::Rightmost),
    Query::IsAncestor,
    Query::RangeMin,
    Query::Cheapest,
    Query::Cost,
    Query::HasNode,
    Query::Step,
    Query::Terms,
    Query::Universe,
    Query::Term(TermQuery::Count),
    Query::Term(TermQuery::Get),
    Query::Term(TermQuery::Rank),
    Query::Term(TermQuery::Has),
    Query::Term(TermQuery::Successor),
];

impl Query {
    // Returns the query at a position of a table.
    fn at(table: &[Query], position: usize) -> Option<Query>
        ensures { result ≡ slice_get table.now position }
    {
        table.get(position).copied()
    }

    /// Returns the query of a code, or `None` if there is none.
    pub fn of(code: u32) -> Option<Query>
        ensures { result ≡ slice_get QUERIES code }
    {
        Query::at(&QUERIES, code as usize)
    }

    /// Returns true if the structures of a kind have the query: its answer is never `Unknown`. Plain numbers have no
    /// kind.
    pub fn is_of(self, kind: Option<Kind>) -> bool
        ensures { (structure : Content) (a b c : ℕ) → kind_of structure ≡ kind
            → result ≡ is_known (answer structure self a b c) }
    {
        match self {
            Query::Len => true,
            Query::Get => !matches!(kind, Some(Kind::Text)),
            Query::HeapSize => kind.is_some(),
            Query::GetBits => matches!(kind, Some(Kind::Growing | Kind::Bits)),
            Query::Rank0 | Query::Rank1 | Query::Select1 => {
                matches!(kind, Some(Kind::Bits | Kind::Sparse))
            }
            Query::Select0 => matches!(kind, Some(Kind::Bits)),
            Query::Rank | Query::Has | Query::Successor => {
                matches!(kind, Some(Kind::Sorted | Kind::Postings))
            }
            Query::Predecessor | Query::Delta => matches!(kind, Some(Kind::Sorted)),
            Query::Width => matches!(kind, Some(Kind::Symbols | Kind::Text)),
            Query::Symbols(_) => matches!(kind, Some(Kind::Symbols)),
            Query::Tree(_) | Query::HasNode | Query::IsAncestor | Query::LevelAncestor => {
                matches!(kind, Some(Kind::Tree))
            }
            Query::Node(_) | Query::Measure(_) | Query::Level(_) => {
                matches!(kind, Some(Kind::Tree))
            }
            Query::RangeMin => matches!(kind, Some(Kind::Fast | Kind::Binary)),
            Query::Cheapest | Query::Cost => matches!(kind, Some(Kind::Postings)),
            Query::Step => matches!(kind, Some(Kind::Text)),
            Query::Terms | Query::Universe | Query::Term(_) => matches!(kind, Some(Kind::Inverted)),
        }
    }
}
