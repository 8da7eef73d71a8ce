//! Replies to lines, and the current structure after them.
ghost use Rattle.std.specs.Prelude.{◌≡◌, None, Some, if◌then◌else◌, option_and_then, option_map, IfOk, OnOk, IsErr, MatchResult};
ghost use Rattle.catalogue.specs.Structures.{content_of};
ghost use Rattle.vers_words.specs.Text.{words_in, words_of};
ghost use Rattle.vers_words.specs.Loading.{map_loading};
ghost use Rattle.vers_words.specs.Reply.{plain_reply};
ghost use Rattle.vers_cli.specs.Holding.{holding_of, loaded, outcome_of, held_after, is_accepted as accepts};
ghost use Rattle.vers_cli.specs.Names.{is_query as is_known, line_of as named_line};
ghost use Rattle.vers_cli.specs.Rules.{load_reply, line_loaded, query_reply};
ghost use Rattle.vers_cli.specs.Answers.{replies_by_the_rules};

use crate::held::Held;
use crate::load::{is_accepted, load};
use crate::name::{Load, is_query, line_of, load_of};
use crate::replies::line_reply;
use catalogue::structure::Structure;
use std::alloc::{AllocError, Allocator};
use std::marker::Model;
use vers_engine::Replier;
use vers_words::loading::Loading;
use vers_words::reply::Reply;
use vers_words::text::{split_first_word, without_return};

/// The current structure, if there is one, with the allocator for answers and for the next structure.
#[derive(Drop)]
pub struct Store<'a, A: Allocator + Copy> {
    alloc: &'a A,
    held: Held<'a, A>,
}

impl<'a, A: Allocator + Copy> Model for Store<'a, A> {
    ghost use Rattle.vers_cli.specs.Holding.{Holding, holding_of};

    ghost Value = { Holding };

    ghost view = { λ s. holding_of s.held };
}

impl<'a, A: Allocator + Copy> Store<'a, A> {
    /// Returns a store without a structure.
    pub fn new(alloc: &'a A) -> Store<'a, A>
        ensures { result ≡ None }
    {
        Store {
            alloc,
            held: Held::Nothing,
        }
    }

    /// Returns a store with this structure.
    pub fn of(alloc: &'a A, structure: Structure<'a, A>) -> Store<'a, A>
        ensures { result ≡ Some (content_of structure.entry) }
    {
        let held = Held::Holding(structure);
        Store { alloc, held }
    }

    /// Returns the allocator.
    pub(crate) fn allocator(&self) -> &'a A {
        self.alloc
    }

    // Returns the reply to a load line. The current structure is kept unless the line is accepted.
    fn load(&mut self, line: Load, arguments: &[u8]) -> Result<Reply<A>, AllocError>
        ensures reply { IfOk result (λ reply.
            plain_reply reply ≡ load_reply (loaded line (words_in arguments.now))) }
        ensures holds { OnOk result (self.new
            ≡ held_after self.old (map_loading Some (loaded line (words_in arguments.now)))) }
    {
        self.make_room(line, arguments);
        match accept(&mut self.held, holding(load(self.alloc, line, arguments)))? {
            Loading::Malformed => Ok(Reply::BadLine),
            Loading::Inadmissible => Ok(Reply::Refused),
            Loading::Accepted(()) => Ok(Reply::Number(self.held.len())),
        }
    }

    // Drops the current structure if a load line is accepted, so that its memory is free for the next.
    fn make_room(&mut self, line: Load, arguments: &[u8])
        ensures { self.new
            ≡ (if accepts (loaded line (words_in arguments.now)) then None else self.old) }
    {
        if is_accepted(line, arguments) {
            put(&mut self.held, Held::Nothing);
        }
    }

    // Returns the reply to a line that is no load line.
    fn query(&self, word: &[u8], arguments: &[u8]) -> Result<Reply<A>, AllocError>
        ensures { IfOk result (λ reply. plain_reply reply ≡ query_reply self.now (is_known word.now)
            (option_and_then (λ content. named_line content word.now) self.now) (words_in arguments.now)) }
    {
        if let Held::Holding(structure) = &self.held {
            if let Some(line) = line_of(structure, word) {
                return line_reply(*self.alloc, structure, line, arguments);
            }
        }
        if is_query(word) {
            Ok(Reply::WrongStructure)
        } else {
            Ok(Reply::BadLine)
        }
    }
}

/// Returns the result of a line that must be a load line. Errors: `AllocError` if the allocator refuses a request.
pub fn load_line<'a, A: Allocator + Copy>(
    alloc: &'a A,
    line: &[u8],
) -> Result<Loading<Structure<'a, A>>, AllocError>
    ensures { IfOk result (λ loading. map_loading content_of loading ≡ line_loaded (words_of line.now)) }
{
    let Some((word, arguments)) = split_first_word(without_return(line)) else {
        return Ok(Loading::Malformed);
    };
    match load_of(word) {
        None => Ok(Loading::Malformed),
        Some(line) => load(alloc, line, arguments),
    }
}

// Returns the result of a load line with its structure as the current one.
fn holding<'a, A: Allocator + Copy>(
    given: Result<Loading<Structure<'a, A>>, AllocError>,
) -> Result<Loading<Held<'a, A>>, AllocError>
    ensures { MatchResult given.entry (λ loading. IfOk result (λ held.
        map_loading holding_of held ≡ map_loading (λ it. Some (content_of it)) loading)) (λ _. IsErr result) }
{
    match given {
        Ok(Loading::Malformed) => Ok(Loading::Malformed),
        Ok(Loading::Inadmissible) => Ok(Loading::Inadmissible),
        Ok(Loading::Accepted(structure)) => Ok(Loading::Accepted(Held::Holding(structure))),
        Err(error) => Err(error),
    }
}

// Replaces a value by another, and drops it.
fn put<H: Drop>(held: &mut H, new: H)
    ensures { held.new ≡ new }
{
    *held = new;
}

// Replaces the current structure by the result of a load line, if it is accepted. The type is generic, so that
// the proof doesn't go through its fields.
fn accept<H: Drop>(
    held: &mut H,
    given: Result<Loading<H>, AllocError>,
) -> Result<Loading<()>, AllocError>
    ensures { MatchResult given (λ loading.
        (result ≡ Ok (outcome_of loading)) × (held.new ≡ held_after held.old loading))
        (λ _. IsErr result) }
{
    match given {
        Ok(Loading::Malformed) => Ok(Loading::Malformed),
        Ok(Loading::Inadmissible) => Ok(Loading::Inadmissible),
        Ok(Loading::Accepted(new)) => {
            put(held, new);
            Ok(Loading::Accepted(()))
        }
        Err(error) => Err(error),
    }
}

impl<A: Allocator + Copy> Replier<A> for Store<'_, A> {
    ghost replying = { replies_by_the_rules };

    fn reply(&mut self, word: &[u8], arguments: &[u8]) -> Result<Reply<A>, AllocError> {
        match load_of(word) {
            Some(line) => self.load(line, arguments),
            None => self.query(word, arguments),
        }
    }
}
