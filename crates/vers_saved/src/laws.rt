//! Laws of saved forms. Each function does nothing: its contract is the law, and its proof is
//! checked with the crate.
ghost use Rattle.vers_saved.specs.Laws.{SumDetectsOneWord, BitsGoRound, SortedGoRound, ListedSortedGoRound, SymbolsGoRound, PackedSymbolsGoRound, SparseGoRound, ListedSparseGoRound, TableValuesGoRound, BlockValuesGoRound, ParenthesesGoRound, PostingsGoRound, InvertedGoRound};

/// If two lists of words differ in exactly one word, their sums differ.
#[tactic(auto, using(crate::proofs::SumDetects::sum_detects_one_word))]
pub fn sum_detects_one_word()
    ensures { SumDetectsOneWord }
{}

/// The form of each list that may be saved has no error, and no other list has that form.
pub fn forms_go_round()
    ensures bits { BitsGoRound }
    ensures sorted { SortedGoRound }
    ensures listed_sorted { ListedSortedGoRound }
    ensures symbols { SymbolsGoRound }
    ensures packed_symbols { PackedSymbolsGoRound }
    ensures sparse { SparseGoRound }
    ensures listed_sparse { ListedSparseGoRound }
    ensures table_values { TableValuesGoRound }
    ensures block_values { BlockValuesGoRound }
    ensures parentheses { ParenthesesGoRound }
    ensures postings { PostingsGoRound }
    ensures inverted { InvertedGoRound }
{}
