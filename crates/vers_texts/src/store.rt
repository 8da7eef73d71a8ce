//! Replies to lines, and the current text after them.
ghost use Rattle.std.specs.Prelude.{◌≡◌, Some, None, IfOk, OnOk, IsOk, IsErr, MatchResult};
ghost use Rattle.text_index.specs.Makers.{is_text as are_text};
ghost use Rattle.vers_words.specs.Patterns.{number_and_pattern as number_then_pattern};
ghost use Rattle.vers_words.specs.Reply.{plain_reply};
ghost use Rattle.vers_texts.specs.TextLines.{text_reply, held_after_text};
ghost use Rattle.vers_texts.specs.Rules.{replies_by_the_rules};

use crate::name::Name;
use crate::queries;
use std::alloc::{AllocError, Allocator};
use std::marker::Model;
use text_index::{MAX_LEN, TextIndex};
use vers_engine::Replier;
use vers_sorted::order::are_below;
use vers_words::patterns::number_and_pattern;
use vers_words::reply::Reply;

/// The current text, if there is one, with the allocator for answers and for the next text. Contracts see its
/// symbols.
#[derive(Drop)]
pub struct Store<A: Allocator + Copy> {
    alloc: A,
    held: Option<TextIndex<A>>,
}

impl<A: Allocator + Copy> Model for Store<A> {
    ghost use Rattle.std.specs.Prelude.{ℕ, List, Option, option_map};

    ghost Value = { Option (List ℕ) };

    ghost view = { λ s. option_map (λ text. text.items) s.held };
}

impl<A: Allocator + Copy> Store<A> {
    /// Returns a store without a text.
    pub fn new(alloc: A) -> Store<A>
        ensures { result ≡ None }
    {
        Store { alloc, held: None }
    }

    /// Returns a store with the text of this index.
    pub fn of(alloc: A, text: TextIndex<A>) -> Store<A>
        ensures { result ≡ Some text.items }
    {
        let held = Some(text);
        Store { alloc, held }
    }

    // Returns the reply to the load line `text K PATTERN`. The current text is kept unless the line is accepted.
    fn load(&mut self, arguments: &[u8]) -> Result<Reply<A>, AllocError>
        ensures reply { IfOk result (λ reply.
            plain_reply reply ≡ text_reply (number_then_pattern arguments.now)) }
        ensures holds { OnOk result (self.new
            ≡ held_after_text self.old (number_then_pattern arguments.now)) }
    {
        let Some((width, symbols)) = number_and_pattern(self.alloc, arguments)? else {
            return Ok(Reply::BadLine);
        };
        if !is_text(width, symbols.as_slice()) {
            return Ok(Reply::Refused);
        }
        self.hold(width as u16, symbols.as_slice())?;
        Ok(Reply::Number(symbols.len() as u64))
    }

    // Replaces the current text, which is dropped first, so that its memory is free. A text that passed the
    // tests fails only if the allocator refuses a request.
    fn hold(&mut self, width: u16, symbols: &[u64]) -> Result<(), AllocError>
        ensures { OnOk result (self.new ≡ Some symbols.now) }
    {
        drop(self.held.take());
        accept(
            &mut self.held,
            TextIndex::from_slice(self.alloc, symbols, width),
        )
    }
}

// Replaces the current text by the result, if it is no error. The type is generic, so that the proof doesn't go
// through its fields.
fn accept<H: Drop, E: Drop>(held: &mut Option<H>, made: Result<H, E>) -> Result<(), AllocError>
    ensures { MatchResult made (λ new. IsOk result × (held.new ≡ Some new)) (λ _. IsErr result) }
{
    match made {
        Ok(new) => {
            drop(held.replace(new));
            Ok(())
        }
        Err(_) => Err(AllocError),
    }
}

// The greatest number of bits of a symbol.
const WIDEST: u64 = 16;

// Returns true if the symbols and their width make a text.
fn is_text(width: u64, symbols: &[u64]) -> bool
    ensures { result ≡ are_text width symbols.now }
{
    if width == 0 || width > WIDEST {
        return false;
    }
    symbols.len() <= MAX_LEN && are_below(symbols, 1 << width)
}

impl<A: Allocator + Copy> Replier<A> for Store<A> {
    ghost replying = { replies_by_the_rules };

    fn reply(&mut self, word: &[u8], arguments: &[u8]) -> Result<Reply<A>, AllocError> {
        match Name::of(word) {
            None => Ok(Reply::BadLine),
            Some(Name::Text) => self.load(arguments),
            Some(Name::Query(query)) => match &self.held {
                None => Ok(Reply::WrongStructure),
                Some(text) => queries::reply(self.alloc, text, query, arguments),
            },
        }
    }
}
