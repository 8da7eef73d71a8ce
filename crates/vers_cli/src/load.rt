//! Load lines.
ghost use Rattle.std.specs.Prelude.{◌≡◌, IfOk};
ghost use Rattle.catalogue.specs.Structures.{content_of};
ghost use Rattle.vers_words.specs.Text.{words_in};
ghost use Rattle.vers_words.specs.Loading.{map_loading};
ghost use Rattle.vers_cli.specs.Holding.{loaded, is_accepted as accepts};

use crate::name::Load;
use crate::{bits, documents, index, sorted, sparse, symbols, tree, values};
use catalogue::structure::Structure;
use std::alloc::{AllocError, Allocator};
use vers_words::loading::Loading;

/// Returns true if a load line is accepted. Allocates nothing.
pub fn is_accepted(load: Load, arguments: &[u8]) -> bool
    ensures { result ≡ accepts (loaded load (words_in arguments.now)) }
{
    match load {
        Load::Bits => bits::is_accepted(arguments),
        Load::Sorted => sorted::is_accepted(arguments),
        Load::Sparse => sparse::is_accepted(arguments),
        Load::Values => values::is_accepted(arguments),
        Load::Tree => tree::is_accepted(arguments),
        Load::Symbols => symbols::is_accepted(arguments),
        Load::Postings => documents::is_accepted(arguments),
        Load::Inverted => index::is_accepted(arguments),
    }
}

/// Returns the result of a load line. Errors: `AllocError` if the allocator refuses a request.
pub fn load<'a, A: Allocator + Copy>(
    alloc: &'a A,
    load: Load,
    arguments: &[u8],
) -> Result<Loading<Structure<'a, A>>, AllocError>
    ensures { IfOk result (λ loading.
        map_loading content_of loading ≡ loaded load (words_in arguments.now)) }
{
    match load {
        Load::Bits => bits::load(alloc, arguments),
        Load::Sorted => sorted::load(alloc, arguments),
        Load::Sparse => sparse::load(alloc, arguments),
        Load::Values => values::load(alloc, arguments),
        Load::Tree => tree::load(alloc, arguments),
        Load::Symbols => symbols::load(alloc, arguments),
        Load::Postings => documents::load(alloc, arguments),
        Load::Inverted => index::load(alloc, arguments),
    }
}
