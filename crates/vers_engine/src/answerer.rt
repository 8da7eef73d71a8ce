//! Answering lines.
ghost use Rattle.std.specs.Prelude.{◌≡◌, ◌++◌, OnOk, OnErr};
ghost use Rattle.vers_engine.specs.Answers.{Answering};

use std::alloc::{AllocError, Allocator};

/// A type that answers lines, one after another. The answer of a line, and the answerer afterwards, depend only
/// on the line and the answerer before.
pub trait Answerer<A: Allocator> {
    // The function from a line and an answerer to its answer and the next answerer.
    ghost answering: { Answering Self };

    /// Appends the answer of a line, with its end. Errors: `AllocError` if the allocator refuses a request; the
    /// answers are then unchanged, the state of `self` is unspecified, and the run ends.
    fn answer(&mut self, line: &[u8], answers: &mut Vec<u8, A>) -> Result<(), AllocError>
        ensures answer { OnOk result (answers.new.items
            ≡ answers.old.items ++ answering.answer_to self.old line.now) }
        ensures holds { OnOk result (self.new ≡ answering.holding_after self.old line.now) }
        ensures kept { OnErr result (answers.new.items ≡ answers.old.items) };
}
