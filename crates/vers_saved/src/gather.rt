//! Words of a saved form, gathered from any reader a block at a time.
ghost use Rattle.std.specs.Prelude.{◌≡◌, ℕ, ◌+◌, ◌-◌, ◌*◌, ◌%◌, ◌<◌, ◌≤◌, ◌++◌, ◌⊎◌, [], List, length, map, take, drop, slice_index, OnOk, OnErr, IfOk, IfErr, IfSome, MatchResult, Some, None};
ghost use Rattle.std.specs.Io.KnownBytes.{Consumes, IsAtEnd, prepend_known};
ghost use Rattle.vers_saved.specs.Format.{bytes_of, bytes_word, saved};
ghost use Rattle.vers_saved.specs.Faults.{at_version, first_failing, version_fault, head_tests, row_bits, row_words, rows_of, words_among, words_for, words_said};
ghost use Rattle.vers_saved.specs.Kinds.{AreWords, IsWhole};
ghost use Rattle.vers_io.specs.Device.{FollowsReadFault};
ghost use Rattle.vers_saved.specs.Streams.{IsRefused, IsRefusedAs};

use crate::fault::LoadError;
use crate::form::{Form, HEAD, Head, head_of, test_body};
use crate::kind::{Kind, Rows};
use crate::numbers::are_words;
use crate::words::{FRAME, TwoParts, word_of};
use std::alloc::{AllocError, Allocator};
use std::io;
use vers_io::Source;

/// The greatest number of bytes read or written at once.
pub(crate) const BLOCK: usize = 65536;

// Reads once into a block, after the bytes that were read before.
fn read_behind<R: Source>(reader: &mut R, block: &mut [u8], filled: usize) -> io::Result<usize>
    requires { filled < length block.old }
    ensures front { take filled block.new ≡ take filled block.old }
    ensures fits { IfOk result (λ n. filled + n ≤ length block.new) }
    ensures read { IfOk result (λ n. Consumes (R.remaining reader.old) (R.remaining reader.new)
        (take n (drop filled block.new))) }
    ensures end { IfOk result (λ n. n ≡ 0 → IsAtEnd (R.remaining reader.new)) }
    ensures cause { OnErr result (FollowsReadFault R.read_gives reader.new) }
{
    reader.read_once(&mut block[filled..])
}

/// Reads until a block is full, or the reader ends. Returns the number of bytes read. Errors: `Read` if the
/// reader fails.
pub fn fill<R: Source>(reader: &mut R, block: &mut [u8]) -> Result<usize, LoadError>
    ensures within { IfOk result (λ n. n ≤ length block.new) }
    ensures read { IfOk result (λ n. Consumes (R.remaining reader.old) (R.remaining reader.new)
        (take n block.new)) }
    ensures end { IfOk result (λ n. n < length block.new → IsAtEnd (R.remaining reader.new)) }
    ensures kind { IfErr result (λ e. e ≡ LoadError.Read) }
    ensures cause { OnErr result (FollowsReadFault R.read_gives reader.new) }
{
    let mut filled = 0;
    while filled < block.len() {
        match read_behind(reader, block, filled) {
            Ok(0) => return Ok(filled),
            Ok(given) => filled += given,
            Err(_) => return Err(LoadError::Read),
        }
    }
    Ok(filled)
}

// Reserves room for `more` words, and for as many as there are, but at most for `missing`. So words are moved
// few times, and the vector takes no more memory than all words need.
fn make_room<A: Allocator>(
    words: &mut Vec<u64, A>,
    more: usize,
    missing: usize,
) -> Result<(), AllocError>
    ensures { words.new.items ≡ words.old.items }
{
    if words.capacity() - words.len() >= more {
        return Ok(());
    }
    words.reserve_exact(words.len().max(more).min(missing))
}

// Appends the words of chunks of eight bytes.
fn append_words<A: Allocator>(words: &mut Vec<u64, A>, chunks: &[[u8; 8]]) -> Result<(), AllocError>
    ensures { OnOk result (words.new.items ≡ words.old.items ++ map bytes_word chunks.now) }
{
    words.extend(chunks.iter().map(|chunk| word_of(*chunk)))
}

// Shows that all items of a slice are bytes.
fn are_bytes(items: &[u8])
    ensures { (k : ℕ) → slice_index items.now k < 256 }
{}

// Appends the words of a piece of `size` bytes, which a reader fills. Errors: `TooShort` if it ends before.
fn gather_piece<R: Source, A: Allocator>(
    reader: &mut R,
    piece: &mut [u8],
    size: usize,
    words: &mut Vec<u64, A>,
    missing: usize,
) -> Result<(), LoadError>
    requires size { length piece.old ≡ size }
    requires whole { size % 8 ≡ 0 }
    ensures gathered { OnOk result ((more : List ℕ)
        × Consumes (R.remaining reader.old) (R.remaining reader.new) (bytes_of more)
        × (words.new.items ≡ words.old.items ++ more) × (8 * length more ≡ size)) }
    ensures short { IfErr result (λ e. e ≡ LoadError.TooShort → (text : List ℕ)
        × Consumes (R.remaining reader.old) (R.remaining reader.new) text
        × IsAtEnd (R.remaining reader.new) × (length text < size)) }
    ensures kind { IfErr result (λ e. (e ≡ LoadError.TooShort) ⊎ ((e ≡ LoadError.Memory) ⊎ (e ≡ LoadError.Read))) }
    ensures cause { IfErr result (λ e. e ≡ LoadError.Read → FollowsReadFault R.read_gives reader.new) }
{
    let filled = fill(reader, piece)?;
    if filled < size {
        return Err(LoadError::TooShort);
    }
    are_bytes(piece);
    make_room(words, size / 8, missing)?;
    let (chunks, _) = piece.as_chunks::<8>();
    append_words(words, chunks)?;
    Ok(())
}

// Appends words until there are `count`. Errors: `TooShort` if the reader ends before.
fn gather<R: Source, A: Allocator>(
    reader: &mut R,
    block: &mut [u8],
    words: &mut Vec<u64, A>,
    count: usize,
) -> Result<(), LoadError>
    requires block { length block.old ≡ 65536 }
    requires few { length words.old.items ≤ count }
    requires small { 8 * count < 18446744073709551616 }
    ensures gathered { OnOk result ((more : List ℕ)
        × Consumes (R.remaining reader.old) (R.remaining reader.new) (bytes_of more)
        × (words.new.items ≡ words.old.items ++ more)) }
    ensures len { OnOk result (length words.new.items ≡ count) }
    ensures short { IfErr result (λ e. e ≡ LoadError.TooShort → (text : List ℕ)
        × Consumes (R.remaining reader.old) (R.remaining reader.new) text
        × IsAtEnd (R.remaining reader.new)
        × (8 * length words.old.items + length text < 8 * count)) }
    ensures kind { IfErr result (λ e. (e ≡ LoadError.TooShort) ⊎ ((e ≡ LoadError.Memory) ⊎ (e ≡ LoadError.Read))) }
    ensures cause { IfErr result (λ e. e ≡ LoadError.Read → FollowsReadFault R.read_gives reader.new) }
{
    while words.len() < count {
        let missing = count - words.len();
        let most = (8 * missing).min(BLOCK);
        if let Err(fault) = gather_piece(reader, &mut block[..most], most, words, missing) {
            return Err(fault);
        }
    }
    Ok(())
}

// Tests that a reader has ended. Errors: `BadLength` if it has more bytes.
fn test_end<R: Source>(reader: &mut R, block: &mut [u8]) -> Result<(), LoadError>
    requires { 0 < length block.old }
    ensures end { OnOk result (IsAtEnd (R.remaining reader.new)
        × Consumes (R.remaining reader.old) (R.remaining reader.new) []) }
    ensures more { IfErr result (λ e. e ≡ LoadError.BadLength → (text : List ℕ)
        × Consumes (R.remaining reader.old) (R.remaining reader.new) text × (0 < length text)) }
    ensures kind { IfErr result (λ e. (e ≡ LoadError.BadLength) ⊎ (e ≡ LoadError.Read)) }
    ensures cause { IfErr result (λ e. e ≡ LoadError.Read → FollowsReadFault R.read_gives reader.new) }
{
    match reader.read_once(block) {
        Ok(0) => Ok(()),
        Ok(_) => Err(LoadError::BadLength),
        Err(_) => Err(LoadError::Read),
    }
}

// Gathers the head of the form in a reader. No word was gathered before.
fn gather_head<R: Source, A: Allocator>(
    kind: &Kind,
    reader: &mut R,
    block: &mut [u8],
    words: &mut Vec<u64, A>,
) -> Result<Head, LoadError>
    requires block { length block.old ≡ 65536 }
    requires none { words.old.items ≡ [] }
    ensures gathered { OnOk result (Consumes (R.remaining reader.old) (R.remaining reader.new)
        (bytes_of words.new.items) × (length words.new.items ≡ 6)) }
    ensures fit { OnOk result (AreWords words.new.items) }
    ensures version { IfOk result (λ h. h.version ≡ (at_version kind.now h.version).version) }
    ensures none { IfOk result (λ h.
        first_failing (head_tests (at_version kind.now h.version) words.new.items) ≡ None) }
    ensures head { IfOk result (λ h. (h.shape.count ≡ slice_index words.new.items 4)
        × (h.shape.width ≡ slice_index words.new.items 3)
        × (h.rows.count ≡ rows_of (at_version kind.now h.version) h.shape.width)
        × (h.rows.bits ≡ row_bits (at_version kind.now h.version) h.shape.count h.shape.width)
        × (row_words h.rows.count h.rows.bits ≤ 288230376151711743)
        × (h.version ≡ slice_index words.new.items 1)) }
    ensures refused { IfErr result (IsRefused kind.now (R.remaining reader.old)) }
    ensures cause { IfErr result (λ e. e ≡ LoadError.Read → FollowsReadFault R.read_gives reader.new) }
{
    if let Err(fault) = gather(reader, block, words, FRAME) {
        return Err(fault);
    }
    are_words(words.as_slice());
    head_of(&kind.at_version(words[1]), words)
}

// Removes a head from the words that begin with it, and returns it. One more word is left.
fn cut_head<A: Allocator>(words: &mut Vec<u64, A>) -> [u64; HEAD]
    requires { length words.old.items ≡ 6 }
    ensures same { result ++ words.new.items ≡ words.old.items }
    ensures five { length result ≡ 5 }
    ensures one { length words.new.items ≡ 1 }
{
    let head = [words[0], words[1], words[2], words[3], words[4]];
    words[0] = words[5];
    words.truncate(1);
    head
}

// Gathers the words after a head, up to the sum, of the form in a reader. The head is separate, and one word
// after it was gathered.
fn gather_body<R: Source, A: Allocator>(
    kind: &Kind,
    rows: Rows,
    head: &[u64],
    reader: &mut R,
    block: &mut [u8],
    words: &mut Vec<u64, A>,
) -> Result<(), LoadError>
    requires block { length block.old ≡ 65536 }
    requires five { length head.now ≡ 5 }
    requires begun { length words.old.items ≡ 1 }
    requires fit { AreWords (head.now ++ words.old.items) }
    requires head { first_failing (head_tests kind.now (head.now ++ words.old.items)) ≡ None }
    requires count { rows.count ≡ rows_of kind.now (slice_index head.now 3) }
    requires bits { rows.bits ≡ row_bits kind.now (slice_index head.now 4) (slice_index head.now 3) }
    requires small { row_words rows.count rows.bits ≤ 288230376151711743 }
    ensures gathered { OnOk result ((more : List ℕ)
        × Consumes (R.remaining reader.old) (R.remaining reader.new) (bytes_of more)
        × (words.new.items ≡ words.old.items ++ more) × IsAtEnd (R.remaining reader.new)) }
    ensures fit { OnOk result (AreWords (head.now ++ words.new.items)) }
    ensures none { OnOk result (version_fault kind.now (bytes_of (head.now ++ words.new.items)) ≡ None) }
    ensures refused { IfErr result (IsRefusedAs kind.now
        (prepend_known (bytes_of (head.now ++ words.old.items)) (R.remaining reader.old))) }
    ensures cause { IfErr result (λ e. e ≡ LoadError.Read → FollowsReadFault R.read_gives reader.new) }
{
    if let Err(fault) = gather(reader, block, words, rows.words() + 1) {
        return Err(fault);
    }
    if let Err(fault) = test_end(reader, block) {
        return Err(fault);
    }
    let rest = words.as_slice();
    are_words(rest);
    test_body(kind.order, rows, &TwoParts { front: head, rest })
}

// Returns the head of the saved form that is the rest of a reader, for a list of that kind, and gathers its words;
// none was gathered before.
fn gather_form<R: Source, A: Allocator>(
    kind: &Kind,
    reader: &mut R,
    block: &mut [u8],
    words: &mut Vec<u64, A>,
) -> Result<Head, LoadError>
    requires block { length block.old ≡ 65536 }
    requires none { words.old.items ≡ [] }
    ensures version { IfOk result (λ h. h.version ≡ (at_version kind.now h.version).version) }
    ensures ok { IfOk result (λ h. IfSome (R.remaining reader.old) (λ bytes.
        bytes ≡ saved (at_version kind.now h.version).version kind.now.number
        h.shape.count h.shape.width words.new.items)) }
    ensures whole { IfOk result (λ h.
        IsWhole (at_version kind.now h.version) h.shape.count h.shape.width words.new.items) }
    ensures end { OnOk result (IsAtEnd (R.remaining reader.new)) }
    ensures refused { IfErr result (IsRefused kind.now (R.remaining reader.old)) }
    ensures cause { IfErr result (λ e. e ≡ LoadError.Read → FollowsReadFault R.read_gives reader.new) }
{
    let found = gather_head(kind, reader, block, words)?;
    let used = kind.at_version(found.version);
    let head = cut_head(words);
    if let Err(fault) = gather_body(&used, found.rows, &head, reader, block, words) {
        return Err(fault);
    }
    words.truncate(found.rows.words());
    Ok(found)
}

// Returns the shape and the words of the saved form that is the rest of a reader, for a list of that kind in the
// version that it names.
pub(crate) fn form_from<R: Source, A: Allocator + Copy>(
    alloc: A,
    kind: Kind,
    reader: &mut R,
) -> Result<Form<A>, LoadError>
    ensures version { IfOk result (λ r. r.version ≡ (at_version kind r.version).version) }
    ensures ok { IfOk result (λ r. IfSome (R.remaining reader.old) (λ bytes.
        bytes ≡ saved (at_version kind r.version).version kind.number r.shape.count r.shape.width r.words.items)) }
    ensures whole { IfOk result (λ r. IsWhole (at_version kind r.version) r.shape.count r.shape.width r.words.items) }
    ensures end { OnOk result (IsAtEnd (R.remaining reader.new)) }
    ensures refused { IfErr result (IsRefused kind (R.remaining reader.old)) }
    ensures cause { IfErr result (λ e. e ≡ LoadError.Read → FollowsReadFault R.read_gives reader.new) }
    ensures back { (version count width : ℕ) → (words : List ℕ) → version ≡ (at_version kind version).version
        → IsWhole (at_version kind version) count width words
        → R.remaining reader.old ≡ Some (saved (at_version kind version).version kind.number count width words)
        → MatchResult result (λ r. (r.version ≡ version) × (r.shape.count ≡ count)
        × (r.shape.width ≡ width) × (r.words.items ≡ words))
        (λ e. (e ≡ LoadError.Read) ⊎ (e ≡ LoadError.Memory)) }
{
    let mut block = Vec::from_elem(alloc, 0u8, BLOCK)?;
    let mut words = Vec::new(alloc);
    match gather_form(&kind, reader, block.as_mut_slice(), &mut words) {
        Ok(
            Head {
                version,
                shape,
                rows: _,
            },
        ) => Ok(Form {
            version,
            shape,
            words,
        }),
        Err(fault) => Err(fault),
    }
}
