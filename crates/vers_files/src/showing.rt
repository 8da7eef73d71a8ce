//! Descriptions of the structures of files.
ghost use Rattle.std.specs.Prelude.{◌≡◌, ◌⊎◌, length, Some, IfOk, IfErr};
ghost use Rattle.catalogue.specs.Structures.{content_of, length_of, HasForm, HasSomeForm, kind_of, saved_form, width_of};
ghost use Rattle.vers_saved.specs.TextForms.{IsTextRefused};
ghost use Rattle.vers_files.specs.Forms.{IsNoForm};
ghost use Rattle.vers_files.specs.Shown.{IsListShown, IsTextShown};
ghost use Rattle.vers_files.specs.TextFiles.{IsNoTextForm};

use crate::loading::{NAMED, load_file, number_of_kind};
use catalogue::structure::{Kind, Structure};
use std::alloc::Allocator;
use std::io::Read;
use vers_cli::Source;
use vers_saved::fault::LoadError;
use vers_saved::kind::TEXTS;
use vers_saved::saved::saved_size;
use vers_saved::stream::fill;
use vers_saved::texts::load_text;

/// A description of the structure of a file.
#[derive(Clone, Copy, Drop)]
pub struct Shown {
    /// The kind.
    pub kind: Kind,
    /// The number of items.
    pub len: u64,
    /// The number of bits of an item in the file, or of a block of a tree.
    pub width: u64,
    /// The number of bytes of its saved form, in the version that is written; 0 if it has none.
    pub bytes: u64,
}

/// Returns the description of the structure in a saved form, the rest of a reader. Reads blocks, and at most one byte
/// past the end that the head gives.
///
/// # Errors
///
/// That of the bytes as a form of the kind that they name; `Memory` if the allocator refuses a request; `Read` if the
/// reader fails.
pub fn show<A: Allocator + Copy, F: Read>(alloc: A, file: &mut F) -> Result<Shown, LoadError>
    ensures shown { IfOk result (λ shown. IsListShown (F.remaining file.old) shown
        ⊎ IsTextShown (F.remaining file.old) shown) }
    ensures refused { IfErr result (λ e. IsNoTextForm (F.remaining file.old) e) }
{
    let mut block = [0; NAMED];
    let filled = fill(file, &mut block)?;
    let front = &block[..filled];
    if number_of_kind(front) == TEXTS {
        return show_text(alloc, &mut front.chain(file));
    }
    show_list(alloc, &mut front.chain(file))
}

// Returns the description of the index of a text in its saved form, the rest of a reader.
fn show_text<A: Allocator + Copy, R: Source>(alloc: A, reader: &mut R) -> Result<Shown, LoadError>
    ensures shown { IfOk result (λ shown. IsTextShown (R.remaining reader.old) shown) }
    ensures refused { IfErr result (λ e. IsTextRefused (R.remaining reader.old) e) }
{
    match load_text(alloc, reader) {
        Ok(text) => Ok(Shown {
            kind: Kind::Text,
            len: text.len() as u64,
            width: u64::from(text.bits_per_symbol()),
            bytes: saved_size(&text).unwrap_or(0) as u64,
        }),
        Err(fault) => Err(fault),
    }
}

// Returns the description of the list in a saved form, the rest of a reader.
fn show_list<A: Allocator + Copy, F: Read>(alloc: A, file: &mut F) -> Result<Shown, LoadError>
    ensures shown { IfOk result (λ shown. IsListShown (F.remaining file.old) shown) }
    ensures refused { IfErr result (λ e. IsNoForm (F.remaining file.old) e) }
{
    match load_file(&alloc, file) {
        Ok(structure) => {
            let shown = description_of(&structure);
            // (by a call, so that the proof of this function doesn't go through the fields)
            drop(structure);
            Ok(shown)
        }
        Err(fault) => Err(fault),
    }
}

// Returns the description of a structure, which has a saved form.
fn description_of<A: Allocator + Copy>(structure: &Structure<'_, A>) -> Shown
    ensures kind { HasSomeForm (content_of structure.now) → kind_of (content_of structure.now) ≡ Some result.kind }
    ensures len { result.len ≡ length_of (content_of structure.now) }
    ensures width { result.width ≡ width_of (content_of structure.now) }
    ensures bytes { HasForm (content_of structure.now)
        → result.bytes ≡ length (saved_form (content_of structure.now)) }
    ensures none { ¬ HasForm (content_of structure.now) → result.bytes ≡ 0 }
{
    Shown {
        kind: structure.kind().unwrap_or(Kind::Bits),
        len: structure.len(),
        width: structure.item_width(),
        bytes: structure.saved_size().unwrap_or(0) as u64,
    }
}
