//! Exports of one query each: they return what `vers_ask` does for any structure, fastest for one kind.
ghost use Rattle.std.specs.Prelude.{◌≡◌};
ghost use Rattle.vers_c.specs.Codes.{contents_asked};
ghost use Rattle.vers_c.specs.Structures.{contents};
ghost use Rattle.catalogue.specs.declared.query.Query.TheVariants as query;
ghost use Rattle.catalogue.specs.declared.query.SymbolsQuery.TheVariants as of_symbols;
ghost use Rattle.catalogue.specs.declared.query.TreeQuery.TheVariants as of_tree;
ghost use Rattle.vers_trees.specs.declared.trees.bp.relatives.Relative.TheVariants as of_node;
ghost use Rattle.vers_trees.specs.declared.trees.bp.relatives.Measure.TheVariants as of_measure;

use crate::answer::VersAnswer;
use crate::handle::VersHandle;
use crate::kept::answer_as;
use crate::owners::{put, taken};
use catalogue::query::{Query, SymbolsQuery, TreeQuery};
use catalogue::structure::Kind;
use std::alloc::Global;
use vers_trees::trees::bp::{Measure, Relative};

// Returns the answer of the handle's structure, fastest if it is of a given kind.
#[inline(always)]
fn ask_as(
    alloc: Global,
    handle: &mut VersHandle,
    kind: Kind,
    query: Query,
    a: u64,
    b: u64,
    c: u64,
) -> VersAnswer
    ensures value { result ≡ contents_asked (contents handle.old) query a b c }
    ensures kept { contents handle.new ≡ contents handle.old }
{
    if !handle.is_built {
        return VersAnswer::vacant();
    }
    let owner = taken(alloc, handle);
    let answer = answer_as(&owner, kind, query, a, b, c);
    put(handle, owner);
    VersAnswer::of(answer)
}

/// Returns the bit at a position, fastest for bits with rank and select.
#[unsafe(no_mangle)]
pub extern "C" fn vers_quick_bits_get(
    alloc: Global,
    handle: &mut VersHandle,
    position: u64,
) -> VersAnswer
    ensures value { result ≡ contents_asked (contents handle.old) query.Get position 0 0 }
    ensures kept { contents handle.new ≡ contents handle.old }
{
    ask_as(alloc, handle, Kind::Bits, Query::Get, position, 0, 0)
}

/// Returns the number of zeros below a position, fastest for bits with rank and select.
#[unsafe(no_mangle)]
pub extern "C" fn vers_quick_bits_rank0(
    alloc: Global,
    handle: &mut VersHandle,
    position: u64,
) -> VersAnswer
    ensures value { result ≡ contents_asked (contents handle.old) query.Rank0 position 0 0 }
    ensures kept { contents handle.new ≡ contents handle.old }
{
    ask_as(alloc, handle, Kind::Bits, Query::Rank0, position, 0, 0)
}

/// Returns the number of ones below a position, fastest for bits with rank and select.
#[unsafe(no_mangle)]
pub extern "C" fn vers_quick_bits_rank1(
    alloc: Global,
    handle: &mut VersHandle,
    position: u64,
) -> VersAnswer
    ensures value { result ≡ contents_asked (contents handle.old) query.Rank1 position 0 0 }
    ensures kept { contents handle.new ≡ contents handle.old }
{
    ask_as(alloc, handle, Kind::Bits, Query::Rank1, position, 0, 0)
}

/// Returns the position of a zero by its number, fastest for bits with rank and select.
#[unsafe(no_mangle)]
pub extern "C" fn vers_quick_bits_select0(
    alloc: Global,
    handle: &mut VersHandle,
    number: u64,
) -> VersAnswer
    ensures value { result ≡ contents_asked (contents handle.old) query.Select0 number 0 0 }
    ensures kept { contents handle.new ≡ contents handle.old }
{
    ask_as(alloc, handle, Kind::Bits, Query::Select0, number, 0, 0)
}

/// Returns the position of a one by its number, fastest for bits with rank and select.
#[unsafe(no_mangle)]
pub extern "C" fn vers_quick_bits_select1(
    alloc: Global,
    handle: &mut VersHandle,
    number: u64,
) -> VersAnswer
    ensures value { result ≡ contents_asked (contents handle.old) query.Select1 number 0 0 }
    ensures kept { contents handle.new ≡ contents handle.old }
{
    ask_as(alloc, handle, Kind::Bits, Query::Select1, number, 0, 0)
}

/// Returns the element at a position, fastest for ascending lists.
#[unsafe(no_mangle)]
pub extern "C" fn vers_quick_sorted_get(
    alloc: Global,
    handle: &mut VersHandle,
    position: u64,
) -> VersAnswer
    ensures value { result ≡ contents_asked (contents handle.old) query.Get position 0 0 }
    ensures kept { contents handle.new ≡ contents handle.old }
{
    ask_as(alloc, handle, Kind::Sorted, Query::Get, position, 0, 0)
}

/// Returns the number of elements below a number, fastest for ascending lists.
#[unsafe(no_mangle)]
pub extern "C" fn vers_quick_sorted_rank(
    alloc: Global,
    handle: &mut VersHandle,
    number: u64,
) -> VersAnswer
    ensures value { result ≡ contents_asked (contents handle.old) query.Rank number 0 0 }
    ensures kept { contents handle.new ≡ contents handle.old }
{
    ask_as(alloc, handle, Kind::Sorted, Query::Rank, number, 0, 0)
}

/// Returns the greatest element that is at most a number, fastest for ascending lists.
#[unsafe(no_mangle)]
pub extern "C" fn vers_quick_sorted_predecessor(
    alloc: Global,
    handle: &mut VersHandle,
    number: u64,
) -> VersAnswer
    ensures value { result ≡ contents_asked (contents handle.old) query.Predecessor number 0 0 }
    ensures kept { contents handle.new ≡ contents handle.old }
{
    ask_as(
        alloc,
        handle,
        Kind::Sorted,
        Query::Predecessor,
        number,
        0,
        0,
    )
}

/// Returns the least element that is at least a number, fastest for ascending lists.
#[unsafe(no_mangle)]
pub extern "C" fn vers_quick_sorted_successor(
    alloc: Global,
    handle: &mut VersHandle,
    number: u64,
) -> VersAnswer
    ensures value { result ≡ contents_asked (contents handle.old) query.Successor number 0 0 }
    ensures kept { contents handle.new ≡ contents handle.old }
{
    ask_as(alloc, handle, Kind::Sorted, Query::Successor, number, 0, 0)
}

/// Returns the symbol at a position, fastest for lists of symbols.
#[unsafe(no_mangle)]
pub extern "C" fn vers_quick_symbols_get(
    alloc: Global,
    handle: &mut VersHandle,
    position: u64,
) -> VersAnswer
    ensures value { result ≡ contents_asked (contents handle.old) query.Get position 0 0 }
    ensures kept { contents handle.new ≡ contents handle.old }
{
    ask_as(alloc, handle, Kind::Symbols, Query::Get, position, 0, 0)
}

/// Returns 1 if a parenthesis opens, otherwise 0, fastest for parentheses.
#[unsafe(no_mangle)]
pub extern "C" fn vers_quick_tree_get(
    alloc: Global,
    handle: &mut VersHandle,
    position: u64,
) -> VersAnswer
    ensures value { result ≡ contents_asked (contents handle.old) query.Get position 0 0 }
    ensures kept { contents handle.new ≡ contents handle.old }
{
    ask_as(alloc, handle, Kind::Tree, Query::Get, position, 0, 0)
}

/// Returns the value at a position, fastest for values with blocks.
#[unsafe(no_mangle)]
pub extern "C" fn vers_quick_values_get(
    alloc: Global,
    handle: &mut VersHandle,
    position: u64,
) -> VersAnswer
    ensures value { result ≡ contents_asked (contents handle.old) query.Get position 0 0 }
    ensures kept { contents handle.new ≡ contents handle.old }
{
    ask_as(alloc, handle, Kind::Fast, Query::Get, position, 0, 0)
}

/// Returns the first position of a least value from one position to another, both included, fastest for values
/// with blocks.
#[unsafe(no_mangle)]
pub extern "C" fn vers_quick_values_range_min(
    alloc: Global,
    handle: &mut VersHandle,
    from: u64,
    to: u64,
) -> VersAnswer
    ensures value { result ≡ contents_asked (contents handle.old) query.RangeMin from to 0 }
    ensures kept { contents handle.new ≡ contents handle.old }
{
    ask_as(alloc, handle, Kind::Fast, Query::RangeMin, from, to, 0)
}

/// Returns the number of occurrences of a symbol in the first positions, fastest for symbols.
#[unsafe(no_mangle)]
pub extern "C" fn vers_quick_symbols_rank(
    alloc: Global,
    handle: &mut VersHandle,
    end: u64,
    symbol: u64,
) -> VersAnswer
    ensures value { result ≡ contents_asked (contents handle.old) (query.Symbols of_symbols.RankOf) end symbol 0 }
    ensures kept { contents handle.new ≡ contents handle.old }
{
    ask_as(
        alloc,
        handle,
        Kind::Symbols,
        Query::Symbols(SymbolsQuery::RankOf),
        end,
        symbol,
        0,
    )
}

/// Returns a symbol of a range of positions by its number in ascending order, fastest for symbols.
#[unsafe(no_mangle)]
pub extern "C" fn vers_quick_symbols_quantile(
    alloc: Global,
    handle: &mut VersHandle,
    from: u64,
    to: u64,
    number: u64,
) -> VersAnswer
    ensures value { result ≡ contents_asked (contents handle.old) (query.Symbols of_symbols.Quantile) from to number }
    ensures kept { contents handle.new ≡ contents handle.old }
{
    ask_as(
        alloc,
        handle,
        Kind::Symbols,
        Query::Symbols(SymbolsQuery::Quantile),
        from,
        to,
        number,
    )
}

/// Returns the zero that closes the one at a position, fastest for trees.
#[unsafe(no_mangle)]
pub extern "C" fn vers_quick_tree_close(
    alloc: Global,
    handle: &mut VersHandle,
    position: u64,
) -> VersAnswer
    ensures value { result ≡ contents_asked (contents handle.old) (query.Tree of_tree.Close) position 0 0 }
    ensures kept { contents handle.new ≡ contents handle.old }
{
    ask_as(
        alloc,
        handle,
        Kind::Tree,
        Query::Tree(TreeQuery::Close),
        position,
        0,
        0,
    )
}

/// Returns the parent of a node, fastest for trees.
#[unsafe(no_mangle)]
pub extern "C" fn vers_quick_tree_parent(
    alloc: Global,
    handle: &mut VersHandle,
    node: u64,
) -> VersAnswer
    ensures value { result ≡ contents_asked (contents handle.old) (query.Node of_node.Parent) node 0 0 }
    ensures kept { contents handle.new ≡ contents handle.old }
{
    ask_as(
        alloc,
        handle,
        Kind::Tree,
        Query::Node(Relative::Parent),
        node,
        0,
        0,
    )
}

/// Returns the first child of a node, fastest for trees.
#[unsafe(no_mangle)]
pub extern "C" fn vers_quick_tree_first_child(
    alloc: Global,
    handle: &mut VersHandle,
    node: u64,
) -> VersAnswer
    ensures value { result ≡ contents_asked (contents handle.old) (query.Node of_node.FirstChild) node 0 0 }
    ensures kept { contents handle.new ≡ contents handle.old }
{
    ask_as(
        alloc,
        handle,
        Kind::Tree,
        Query::Node(Relative::FirstChild),
        node,
        0,
        0,
    )
}

/// Returns the next sibling of a node, fastest for trees.
#[unsafe(no_mangle)]
pub extern "C" fn vers_quick_tree_next_sibling(
    alloc: Global,
    handle: &mut VersHandle,
    node: u64,
) -> VersAnswer
    ensures value { result ≡ contents_asked (contents handle.old) (query.Node of_node.NextSibling) node 0 0 }
    ensures kept { contents handle.new ≡ contents handle.old }
{
    ask_as(
        alloc,
        handle,
        Kind::Tree,
        Query::Node(Relative::NextSibling),
        node,
        0,
        0,
    )
}

/// Returns the depth of a node, fastest for trees.
#[unsafe(no_mangle)]
pub extern "C" fn vers_quick_tree_depth(
    alloc: Global,
    handle: &mut VersHandle,
    node: u64,
) -> VersAnswer
    ensures value { result ≡ contents_asked (contents handle.old) (query.Measure of_measure.Depth) node 0 0 }
    ensures kept { contents handle.new ≡ contents handle.old }
{
    ask_as(
        alloc,
        handle,
        Kind::Tree,
        Query::Measure(Measure::Depth),
        node,
        0,
        0,
    )
}
