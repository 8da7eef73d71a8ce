//! The names of lines.
ghost use Rattle.std.specs.Prelude.{◌≡◌};

use vers_words::names::named;

/// The first word of a query line.
#[derive(Clone, Copy, Drop)]
pub enum Query {
    Len,
    Count,
    Positions,
    First,
    Extract,
    Piece,
    Sites,
}

/// The first word of a line.
#[derive(Clone, Copy, Drop)]
pub enum Name {
    Text,
    Query(Query),
}

/// All names, with their text. It is the only table of names: the contract of `Name::of` reads it too.
pub const NAMES: [(&[u8], Name); 8] = [
    (b"text", Name::Text),
    (b"len", Name::Query(Query::Len)),
    (b"count", Name::Query(Query::Count)),
    (b"places", Name::Query(Query::Positions)),
    (b"first", Name::Query(Query::First)),
    (b"extract", Name::Query(Query::Extract)),
    (b"piece", Name::Query(Query::Piece)),
    (b"sites", Name::Query(Query::Sites)),
];

impl Name {
    ghost use Rattle.vers_texts.specs.Name.{name_of};

    /// Returns the name that a word is, or `None` if it is none.
    pub fn of(word: &[u8]) -> Option<Name>
        ensures { result ≡ name_of word.now }
    {
        named(&NAMES, word)
    }
}
