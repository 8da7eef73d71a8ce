//! Laws of patterns. The function does nothing: its contract is the law, and its proof is checked with the crate.
ghost use Rattle.vers_words.specs.Laws.{PatternsReadBack};

/// The pattern that `append_pattern` writes of symbols is read as these symbols.
#[tactic(auto, using(crate::proofs::ReadBack::read_back))]
pub fn patterns_read_back()
    ensures { PatternsReadBack }
{}
