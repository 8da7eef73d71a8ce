//! Replying to lines by their first word.
ghost use Rattle.std.specs.Prelude.{◌≡◌, ◌++◌, ◌∷◌, [], length, take, IfOk, OnOk};
ghost use Rattle.vers_words.specs.Reply.{plain_reply, reply_text};
ghost use Rattle.vers_engine.specs.Replies.{Replying, answering_by};

use crate::answerer::Answerer;
use std::alloc::{AllocError, Allocator};
use vers_words::reply::Reply;
use vers_words::text::{split_first_word, without_return};

/// A type that replies to lines, one after another. The reply to a line, and the replier afterwards, depend
/// only on the line's first word, the text after it, and the replier before. It answers a line with the text of
/// its reply, and a line without words with nothing. It implements `Answerer`.
pub trait Replier<A: Allocator + Copy> {
    // The function from a line and a replier to its reply and the next replier.
    ghost replying: { Replying Self };

    /// Returns the reply to a line, from its first word and the text after it. Errors: `AllocError` if the
    /// allocator refuses a request; the state of `self` is then unspecified, and the run ends.
    fn reply(&mut self, word: &[u8], arguments: &[u8]) -> Result<Reply<A>, AllocError>
        ensures reply { IfOk result (λ reply. plain_reply reply
            ≡ replying.reply_to self.old word.now arguments.now) }
        ensures holds { OnOk result (self.new
            ≡ replying.holding_after self.old word.now arguments.now) };
}

impl<A: Allocator + Copy, S: Replier<A>> Answerer<A> for S {
    ghost answering = { answering_by S.replying };

    fn answer(&mut self, line: &[u8], answers: &mut Vec<u8, A>) -> Result<(), AllocError> {
        let len = answers.len();
        let result = append_answer(self, line, answers);
        if result.is_err() {
            answers.truncate(len);
        }
        result
    }
}

// Appends the answer of a line, with its end. A line without words has none. On error a part of it may have
// been appended.
fn append_answer<A: Allocator + Copy, S: Replier<A>>(
    replier: &mut S,
    line: &[u8],
    answers: &mut Vec<u8, A>,
) -> Result<(), AllocError>
    ensures answer { OnOk result (answers.new.items
        ≡ answers.old.items ++ (answering_by S.replying).answer_to replier.old line.now) }
    ensures holds { OnOk result (replier.new
        ≡ (answering_by S.replying).holding_after replier.old line.now) }
    ensures kept { take (length answers.old.items) answers.new.items ≡ answers.old.items }
{
    let Some((word, arguments)) = split_first_word(without_return(line)) else {
        return Ok(());
    };
    append_line(replier.reply(word, arguments)?, answers)
}

// Appends a reply with the end of its line. On error a part of it may have been appended.
fn append_line<A: Allocator + Copy>(
    reply: Reply<A>,
    answers: &mut Vec<u8, A>,
) -> Result<(), AllocError>
    ensures text { OnOk result (answers.new.items
        ≡ answers.old.items ++ (reply_text (plain_reply reply) ++ 10 ∷ [])) }
    ensures kept { take (length answers.old.items) answers.new.items ≡ answers.old.items }
{
    reply.append_to(answers)?;
    answers.push(b'\n')?;
    Ok(())
}
