//! Laws of parentheses. Each function does nothing: its contract is the law, and its proof is
//! checked with the crate.
ghost use Rattle.vers_trees.specs.Laws.{ForwardFindsFirst, BackwardFindsLast, OneForest, CloseFindsPair, OpenFindsPair, OpenUndoesClose, CloseUndoesOpen, EncloseFindsParent, ForestWritesItsList, NodesAreFew};
ghost use Rattle.vers_trees.specs.WalkLaws.{PreorderOpensInOrder, PostorderClosesInOrder, OnesAreNodes};
ghost use Rattle.vers_trees.specs.ReadLaws.{CallsAreWithinOneBound, CallsReadFew, SearchesReadFew};
ghost use Rattle.vers_trees.specs.BalanceLaws.{ReadingDecidesBalance};
ghost use Rattle.vers_trees.specs.NodeLaws.{NodeIffOne, LevelIffDepth, LevelsGoOn, LevelsGoBack, LevelsAreParts};

/// A forward search finds the first position after the given one at which the excess has risen by the given
/// amount.
pub fn forward_finds_first()
    ensures { ForwardFindsFirst }
{}

/// A backward search finds the last position before the given one at which the excess is higher by the given
/// amount.
pub fn backward_finds_last()
    ensures { BackwardFindsLast }
{}

/// No list of parentheses represents two forests.
#[tactic(auto, using(crate::proofs::grammar::Grammar::one_forest))]
pub fn one_forest()
    ensures { OneForest }
{}

/// In the parentheses of a forest, `close` of a one is the other position of its pair.
pub fn close_finds_pair()
    ensures { CloseFindsPair }
{}

/// In the parentheses of a forest, `open` of a zero is the other position of its pair.
pub fn open_finds_pair()
    ensures { OpenFindsPair }
{}

/// In the parentheses of a forest, `open` of the zero that closes a one is that one.
#[tactic(auto, using(crate::proofs::PublicLaws::open_of_close))]
pub fn open_undoes_close()
    ensures { OpenUndoesClose }
{}

/// In the parentheses of a forest, `close` of the one that opens for a zero is that zero.
#[tactic(auto, using(crate::proofs::PublicLaws::close_of_open))]
pub fn close_undoes_open()
    ensures { CloseUndoesOpen }
{}

/// In the parentheses of a forest, `enclose` of either position of a pair is the parent of its node.
pub fn enclose_finds_parent()
    ensures { EncloseFindsParent }
{}

/// The forest of a balanced list has that list as its parentheses.
#[tactic(auto, using(crate::proofs::PublicLaws::written))]
pub fn forest_writes_its_list()
    ensures { ForestWritesItsList }
{}

/// Reading parentheses from the left decides whether they are balanced.
#[tactic(auto, using(crate::proofs::grammar::Grammar::balance_decides))]
pub fn reading_decides_balance()
    ensures { ReadingDecidesBalance }
{}

/// The tree over the blocks of a nonempty list has fewer than three nodes per block.
#[tactic(auto, using(crate::proofs::PublicLaws::few_nodes))]
pub fn nodes_are_few()
    ensures { NodesAreFew }
{}

/// The nodes of a forest in preorder open at the ones of its parentheses, in order.
#[tactic(auto, using(crate::proofs::kin::NodeList::nodes_are_ones))]
pub fn preorder_opens_in_order()
    ensures { PreorderOpensInOrder }
{}

/// The nodes of a forest in postorder close at the zeros of its parentheses, in order.
#[tactic(auto, using(crate::proofs::walks::ListsOfNodes::closes_in_order))]
pub fn postorder_closes_in_order()
    ensures { PostorderClosesInOrder }
{}

/// In balanced parentheses one `i` is a node: what `node_handle` returns below the `size`.
#[tactic(auto, using(crate::proofs::walks::WalksOfNodes::ones_are_nodes))]
pub fn ones_are_nodes()
    ensures { OnesAreNodes }
{}

/// In balanced parentheses a node opens exactly at each position of a one.
#[tactic(auto, using(crate::proofs::PublicLaws::node_iff_one))]
pub fn node_iff_one()
    ensures { NodeIffOne }
{}

/// A level of a forest consists of exactly the nodes of its depth.
pub fn level_iff_depth()
    ensures { LevelIffDepth }
{}

/// Element `i` of a level is a node of its depth, and the next one on the level is the element after it:
/// `level_leftmost` and `level_next` go along the level.
pub fn levels_go_on()
    ensures { LevelsGoOn }
{}

/// The previous node on a level is the element before it: `level_rightmost` and `level_prev` go back along the
/// level.
pub fn levels_go_back()
    ensures { LevelsGoBack }
{}

/// No level has more elements than the forest has nodes.
#[tactic(auto, using(crate::proofs::PublicLaws::levels_are_parts))]
pub fn levels_are_parts()
    ensures { LevelsAreParts }
{}

/// The bound of each counted function, and of each step of a walk, is at most one bound, `tree_reads`.
#[tactic(auto, using(crate::proofs::PublicLaws::calls_within))]
pub fn calls_are_within_one_bound()
    ensures { CallsAreWithinOneBound }
{}

/// Whatever adds at most `tree_reads` begins at most four blocks, and reads at most eight nodes per level and,
/// as data words, four times the bits of a block plus 32.
#[tactic(auto, using(crate::proofs::PublicLaws::calls_few))]
pub fn calls_read_few()
    ensures { CallsReadFew }
{}

/// A search begins at most two blocks, and reads at most four nodes per level and, as data words, twice the
/// bits of a block plus four.
#[tactic(auto, using(crate::proofs::PublicLaws::searches_few))]
pub fn searches_read_few()
    ensures { SearchesReadFew }
{}
