//! The current structure.
ghost use Rattle.std.specs.Prelude.{◌≡◌, IsErr, MatchResult};
ghost use Rattle.vers_words.specs.Loading.{map_loading};
ghost use Rattle.vers_cli.specs.Holding.{holding_of, length_held};

use catalogue::structure::Structure;
use std::alloc::{AllocError, Allocator};
use vers_words::loading::Loading;

/// The structure of the last accepted load line, if there was one.
#[derive(Drop)]
pub enum Held<'a, A: Allocator + Copy> {
    /// No structure.
    Nothing,
    /// A structure.
    Holding(Structure<'a, A>),
}

impl<A: Allocator + Copy> Held<'_, A> {
    /// Returns the length of the current structure, or 0 if there is none.
    pub fn len(&self) -> u64
        ensures { result ≡ length_held (holding_of self.now) }
    {
        match self {
            Held::Nothing => 0,
            Held::Holding(structure) => structure.len(),
        }
    }
}
