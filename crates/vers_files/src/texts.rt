//! Lines about the text of a file, which is saved as its index or as a list of symbols.
ghost use Rattle.std.specs.Prelude.{◌≡◌, ◌<◌, ◌≤◌, ◌↔◌, ◌⊎◌, IsTrue, ℕ, List, length, Option, Some, false, IfOk, IfErr, OnErr};
ghost use Rattle.vers_io.specs.Device.{FollowsReadFault, FollowsWriteFault};
ghost use Rattle.vers_wavelet.specs.Symbols.{Symbols};
ghost use Rattle.text_index.specs.Makers.{IsSymbolWidth, symbols_of};
ghost use Rattle.catalogue.specs.Structures.{Content, SymbolList, content_of};
ghost use Rattle.vers_texts.specs.Answers.{by_the_rules};
ghost use Rattle.vers_files.specs.Asked.{AnswersFrom};
ghost use Rattle.vers_files.specs.Forms.{IsFormOf, IsNoForm};
ghost use Rattle.vers_files.specs.TextFiles.{AreSymbolsOf, AreTextOf, HasNoSymbols, IsIndexOf, IsNoSymbolText, IsNoText, text_fault_text};
ghost use Rattle.vers_saved.specs.TextForms.{IsTextRefused};

use crate::loading::{NAMED, fault_line, load_file, number_of_kind};
use catalogue::structure::Structure;
use std::alloc::{AllocError, Allocator};
use std::io::Read;
use text_index::{MAX_LEN, TextError, TextIndex};
use vers_saved::fault::LoadError;
use vers_saved::kind::TEXTS;
use vers_saved::stream::fill;
use vers_saved::texts::load_text as load_saved_text;
use vers_texts::{Device, RunError, Sink, Source, Store, run_from};
use vers_wavelet::wavelet::WaveletMatrix;

/// Why the lines about the text of a file were not answered: the first reason that applies.
#[derive(Clone, Copy, PartialEq, Eq, Debug, Drop)]
pub enum TextFault {
    /// The file was not loaded.
    File(LoadError),
    /// It is neither an index of a text nor a list of symbols.
    NoSymbols,
    /// Its symbols have 0 bits, or more than 16.
    OtherWidth,
    /// There are more symbols than a text can have.
    TooLong,
    /// The allocator refused a request for the symbols or the index.
    Memory,
}

impl From<AllocError> for TextFault {
    ghost use Rattle.vers_files.specs.declared.texts.TextFault.TheVariants.{Memory};

    ghost from_gives = { λ _ e. e ≡ Memory };

    fn from(_: AllocError) -> TextFault {
        TextFault::Memory
    }
}

// The symbols of a list, and the number of bits of each.
#[derive(Drop)]
struct PlainSymbols<A: Allocator> {
    width: u16,
    items: Vec<u64, A>,
}

/// Reads lines to the end of the input and writes the answer of each, with the text loaded from `file`, the
/// saved form of the index of a text, or of a list of symbols of 1 to 16 bits. The answers are those of the program
/// over texts, and so are the errors of reader and writer, which are the inner error. Symbols are indexed before the
/// first line, and the loaded list is dropped before that.
///
/// # Errors
///
/// Why the file is no text. No line was read then, and nothing was written.
pub fn ask_text<A: Allocator + Copy, F: Read, R: Source, W: Sink>(
    alloc: A,
    file: &mut F,
    reader: &mut Device<R>,
    writer: &mut Device<W>,
) -> Result<Result<(), RunError>, TextFault>
    requires reader { reader.old.has_failed ≡ false }
    requires writer { writer.old.has_failed ≡ false }
    ensures answers { IfOk result (λ ended. (text : Symbols) × AreTextOf (F.remaining file.old) text
        × AnswersFrom by_the_rules (Some text.items) ended (R.remaining reader.old.inner) (R.remaining reader.new.inner)
        (W.contents writer.old.inner) (W.contents writer.new.inner)) }
    ensures read { IfOk result (λ ended. (ended ≡ Err RunError.Read) ↔ IsTrue reader.new.has_failed) }
    ensures write { IfOk result (λ ended. (ended ≡ Err RunError.Write) ↔ IsTrue writer.new.has_failed) }
    ensures read_cause { IfOk result (λ ended. ended ≡ Err RunError.Read → 0 < reader.new.reads_left
        → FollowsReadFault R.read_gives reader.new.inner) }
    ensures write_cause { IfOk result (λ ended. ended ≡ Err RunError.Write
        → FollowsWriteFault W.write_gives writer.new.inner) }
    ensures refused { IfErr result (λ e. IsNoText (F.remaining file.old) e) }
    ensures reader { OnErr result (reader.new ≡ reader.old) }
    ensures writer { OnErr result (writer.new ≡ writer.old) }
{
    match load_text(alloc, file) {
        Ok(text) => Ok(run_from(alloc, Store::of(alloc, text), reader, writer)),
        Err(fault) => Err(fault),
    }
}

// Loads a text from a saved form, the rest of a reader, and returns its index.
fn load_text<A: Allocator + Copy, F: Read>(
    alloc: A,
    file: &mut F,
) -> Result<TextIndex<A>, TextFault>
    ensures loaded { IfOk result (λ text. AreTextOf (F.remaining file.old) (symbols_of text)) }
    ensures refused { IfErr result (λ e. IsNoText (F.remaining file.old) e) }
{
    let mut block = [0; NAMED];
    let filled = match fill(file, &mut block) {
        Ok(filled) => filled,
        Err(fault) => return Err(TextFault::File(fault)),
    };
    let front = &block[..filled];
    if number_of_kind(front) == TEXTS {
        return load_index(alloc, &mut front.chain(file));
    }
    index_symbols(alloc, &mut front.chain(file))
}

// Loads the index of a text from its saved form, the rest of a reader.
fn load_index<A: Allocator + Copy, R: Source>(
    alloc: A,
    reader: &mut R,
) -> Result<TextIndex<A>, TextFault>
    ensures loaded { IfOk result (λ text. IsIndexOf (R.remaining reader.old) text) }
    ensures refused { IfErr result (λ e. (fault : LoadError) × (e ≡ TextFault.File fault)
        × IsTextRefused (R.remaining reader.old) fault) }
{
    match load_saved_text(alloc, reader) {
        Ok(text) => Ok(text),
        Err(fault) => Err(TextFault::File(fault)),
    }
}

// Loads the symbols of a text from their saved form, the rest of a reader, and returns their index. The loaded list
// is dropped before that.
fn index_symbols<A: Allocator + Copy, F: Read>(
    alloc: A,
    file: &mut F,
) -> Result<TextIndex<A>, TextFault>
    ensures loaded { IfOk result (λ text. AreSymbolsOf (F.remaining file.old)
        (record { width = text.width; items = text.items })) }
    ensures refused { IfErr result (λ e. IsNoSymbolText (F.remaining file.old) e) }
{
    let symbols = load_symbols(alloc, file)?;
    indexed(alloc, symbols.items.as_slice(), symbols.width)
}

// Loads symbols from their saved form, the rest of a reader. Their index is dropped.
fn load_symbols<A: Allocator + Copy, F: Read>(
    alloc: A,
    file: &mut F,
) -> Result<PlainSymbols<A>, TextFault>
    ensures loaded { IfOk result (λ symbols. AreSymbolsOf (F.remaining file.old)
        (record { width = symbols.width; items = symbols.items.items })) }
    ensures width { IfOk result (λ symbols. IsSymbolWidth symbols.width) }
    ensures refused { IfErr result (λ e. IsNoSymbolText (F.remaining file.old) e) }
{
    symbols_of(alloc, load_file(&alloc, file))
}

// Returns the symbols of what was loaded, which is dropped. Its type is generic, so that the proof doesn't go
// through its fields.
fn symbols_of<A: Allocator + Copy, O: Owner<A>>(
    alloc: A,
    loaded: Result<O, LoadError>,
) -> Result<PlainSymbols<A>, TextFault>
    ensures loaded { (left : Option (List ℕ)) → IfOk loaded (λ owner. IsFormOf left (O.content owner))
        → IfOk result (λ symbols. AreSymbolsOf left
        (record { width = symbols.width; items = symbols.items.items })) }
    ensures width { IfOk result (λ symbols. IsSymbolWidth symbols.width) }
    ensures refused { (left : Option (List ℕ)) → IfOk loaded (λ owner. IsFormOf left (O.content owner))
        → IfErr loaded (IsNoForm left) → IfErr result (IsNoSymbolText left) }
{
    match loaded {
        Ok(owner) => owner.symbols(alloc),
        Err(fault) => Err(TextFault::File(fault)),
    }
}

// An owner of a list.
trait Owner<A: Allocator + Copy>: Drop {
    ghost content: { Self → Content };

    // Returns the symbols.
    fn symbols(&self, alloc: A) -> Result<PlainSymbols<A>, TextFault>
        ensures held { IfOk result (λ symbols. content self.now
            ≡ SymbolList (record { width = symbols.width; items = symbols.items.items })) }
        ensures width { IfOk result (λ symbols. IsSymbolWidth symbols.width) }
        ensures refused { IfErr result (λ e. (e ≡ TextFault.Memory)
            ⊎ ((e ≡ TextFault.NoSymbols) × HasNoSymbols (content self.now))
            ⊎ ((e ≡ TextFault.OtherWidth) × ((symbols : Symbols) × (content self.now ≡ SymbolList symbols)
            × (IsSymbolWidth symbols.width → ⊥)))) };
}

impl<A: Allocator + Copy> Owner<A> for Structure<'_, A> {
    ghost content = { content_of };

    fn symbols(&self, alloc: A) -> Result<PlainSymbols<A>, TextFault> {
        let Structure::Symbols(symbols) = self else {
            return Err(TextFault::NoSymbols);
        };
        let width = symbols.bit_len();
        if width == 0 || width > 16 {
            return Err(TextFault::OtherWidth);
        }
        Ok(PlainSymbols {
            width,
            items: items_of(alloc, symbols)?,
        })
    }
}

// Returns the items of a list of symbols of at most 64 bits.
fn items_of<A: Allocator + Copy>(
    alloc: A,
    symbols: &WaveletMatrix<A>,
) -> Result<Vec<u64, A>, AllocError>
    requires { symbols.now.width ≤ 64 }
    ensures { IfOk result (λ items. items.items ≡ symbols.now.items) }
{
    let mut items = Vec::with_capacity(alloc, symbols.len())?;
    for place in 0..symbols.len() {
        items.push(symbols.get_u64_unchecked(place))?;
    }
    Ok(items)
}

// Returns the index of a text of a width that texts may have.
fn indexed<A: Allocator + Copy>(
    alloc: A,
    symbols: &[u64],
    width: u16,
) -> Result<TextIndex<A>, TextFault>
    requires { IsSymbolWidth width }
    ensures width { IfOk result (λ text. text.width ≡ width) }
    ensures items { IfOk result (λ text. text.items ≡ symbols.now) }
    ensures refused { IfErr result (λ e. (e ≡ TextFault.Memory)
        ⊎ ((e ≡ TextFault.TooLong) × (MAX_LEN < length symbols.now))) }
{
    match TextIndex::from_slice(alloc, symbols, width) {
        Ok(text) => Ok(text),
        Err(TextError::TooLong) => Err(TextFault::TooLong),
        Err(_) => Err(TextFault::Memory),
    }
}

/// Returns the text of an error: its name, and what it means.
pub fn text_fault_line(fault: &TextFault) -> &'static str
    ensures { result.now ≡ text_fault_text fault.now }
{
    match fault {
        TextFault::File(fault) => fault_line(fault),
        TextFault::NoSymbols => "NoSymbols: the file has neither a text nor symbols",
        TextFault::OtherWidth => "OtherWidth: the symbols of a text have 1 to 16 bits",
        TextFault::TooLong => "TooLong: a text has at most 4294967294 symbols",
        TextFault::Memory => "Memory: out of memory",
    }
}
