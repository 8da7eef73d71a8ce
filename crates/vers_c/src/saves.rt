//! Saved forms of the structures of handles.
ghost use Rattle.std.specs.Prelude.{◌≡◌, ◌≢◌, ◌↔◌, ◌⊎◌, Bool, List, Some, None, IfOk, IfErr, IfSome, OnOk, MatchResult, length, option_map};
ghost use Rattle.catalogue.specs.Structures.{Content, Fits, HasForm, kind_of, saved_form, saved_kind};
ghost use Rattle.catalogue.specs.declared.structure.Kind.TheVariants as kinds;
ghost use Rattle.vers_bits.specs.Bits.{limbs};
ghost use Rattle.vers_saved.specs.Faults.{fault_of};
ghost use Rattle.vers_saved.specs.Format.{saved_parentheses};
ghost use Rattle.vers_saved.specs.Kinds.{IsWhole, tree_kind};
ghost use Rattle.vers_c.specs.Answers.{absent, found_or_absent, vacant};
ghost use Rattle.vers_c.specs.Saves.{ContentsHaveForm, IsFormOf, IsLoaded, IsSaved, contents_form, fault_as};
ghost use Rattle.vers_c.specs.Structures.{content, contents};

use crate::answer::VersAnswer;
use crate::handle::VersHandle;
use crate::kept::Kept;
use crate::makes::{Parentheses, boxed};
use crate::owners::{fill, put, taken};
use crate::status::{
    ABSENT, BAD_LENGTH, BAD_PADDING, BAD_SUM, DONE, NO_MEMORY, NOT_A_TEXT, NOT_ASCENDING, NOT_OURS,
    OCCUPIED, OTHER_KIND, OTHER_VERSION, REFUSED, TOO_SHORT, UNKNOWN, VACANT,
};
use catalogue::answer::Answer;
use catalogue::forms::bytes_of;
use catalogue::structure::{Kind, Structure};
use std::alloc::Global;
use vers_saved::fault::{LoadError, SaveError};
use vers_saved::saved::{load_from_slice, saved_size};
use vers_saved::texts::load_text_from_slice;
use vers_saved::trees::load_parentheses_from_slice;

impl Kept {
    /// Returns the number of bytes of the saved form, or `None` if there is none.
    pub fn saved_size(&self) -> Option<usize>
        ensures size { IfSome result (λ size. size ≡ length (saved_form (content self.now))) }
        ensures some { IfSome result (λ _. HasForm (content self.now)) }
        ensures none { result ≡ None → ¬ HasForm (content self.now) }
    {
        match self {
            Kept::Tree(tree) => saved_size(&**tree),
            Kept::Other(structure) => structure.saved_size(),
        }
    }

    /// Returns the saved form.
    ///
    /// # Errors
    ///
    /// `NoForm` if there is none; `Memory` if the allocator refuses a request.
    pub fn to_bytes(&self, alloc: Global) -> Result<Vec<u8, Global>, SaveError>
        ensures saved { IfOk result (λ out. out.items ≡ saved_form (content self.now)) }
        ensures whole { OnOk result (HasForm (content self.now)) }
        ensures fits { OnOk result (Fits (content self.now)) }
        ensures refused { IfErr result (λ e. (e ≡ SaveError.Memory)
            ⊎ ((e ≡ SaveError.NoForm) × ¬ HasForm (content self.now))) }
    {
        match self {
            Kept::Tree(tree) => bytes_of(alloc, &**tree),
            Kept::Other(structure) => structure.to_bytes(alloc),
        }
    }
}

/// Returns the number of bytes of the saved form of the handle's structure.
#[unsafe(no_mangle)]
pub extern "C" fn vers_saved_size(alloc: Global, handle: &mut VersHandle) -> VersAnswer
    ensures value { result.status ≡ DONE
        → result ≡ found_or_absent (option_map length (contents_form (contents handle.old))) }
    ensures whole { result.status ≡ DONE → ContentsHaveForm (contents handle.old) }
    ensures absent { result.status ≡ ABSENT → ¬ ContentsHaveForm (contents handle.old) }
    ensures vacant { (result ≡ vacant) ↔ (contents handle.old ≡ None) }
    ensures reported { (result.status ≡ DONE) ⊎ (result ≡ absent) ⊎ (result ≡ vacant) }
    ensures kept { contents handle.new ≡ contents handle.old }
{
    if !handle.is_built {
        return VersAnswer::vacant();
    }
    let owner = taken(alloc, handle);
    let size = owner.saved_size();
    put(handle, owner);
    match size {
        Some(size) => VersAnswer::of(Answer::position(size)),
        None => VersAnswer::of(Answer::Absent),
    }
}

/// Writes the saved form of the handle's structure to `bytes`. Refuses another number of bytes than the form has.
#[unsafe(no_mangle)]
pub extern "C" fn vers_save(alloc: Global, handle: &mut VersHandle, bytes: &mut [u8]) -> u32
    ensures saved { IsSaved (contents handle.old) bytes.old bytes.new result }
    ensures kept { contents handle.new ≡ contents handle.old }
{
    if !handle.is_built {
        return VACANT;
    }
    let owner = taken(alloc, handle);
    let made = owner.to_bytes(alloc);
    put(handle, owner);
    match made {
        Ok(out) => written(&out, bytes),
        Err(SaveError::NoForm) => ABSENT,
        Err(_) => NO_MEMORY,
    }
}

// Writes bytes over others, of which there are as many.
fn written(from: &[u8], to: &mut [u8]) -> u32
    ensures done { result ≡ DONE → to.new ≡ from.now }
    ensures left { result ≢ DONE → to.new ≡ to.old }
    ensures refused { result ≡ REFUSED → length from.now ≢ length to.old }
    ensures status { (result ≡ DONE) ⊎ (result ≡ REFUSED) }
{
    if from.len() != to.len() {
        return REFUSED;
    }
    to.copy_from_slice(from);
    DONE
}

// Loads parentheses from their saved form.
//
// # Errors
//
// That of the first test that fails; `Memory` if the allocator refuses a request.
fn load_parentheses(alloc: Global, bytes: &[u8]) -> Result<Box<Parentheses, Global>, LoadError>
    ensures loaded { IfOk result (λ tree. bytes.now ≡ saved_parentheses 512 tree.value) }
    ensures whole { IfOk result (λ tree.
        IsWhole (tree_kind 512) (length tree.value) 512 (limbs tree.value)) }
    ensures none { OnOk result (fault_of (tree_kind 512) bytes.now ≡ None) }
    ensures refused { IfErr result (λ e. (fault_of (tree_kind 512) bytes.now ≡ Some e)
        ⊎ ((e ≡ LoadError.Memory) × (fault_of (tree_kind 512) bytes.now ≡ None))) }
    ensures back { (x : List Bool) → IsWhole (tree_kind 512) (length x) 512 (limbs x)
        → bytes.now ≡ saved_parentheses 512 x
        → MatchResult result (λ tree. tree.value ≡ x) (λ e. e ≡ LoadError.Memory) }
{
    let bits = load_parentheses_from_slice(alloc, 512, bytes)?;
    match boxed(alloc, bits) {
        Ok(tree) => Ok(tree),
        Err(_) => Err(LoadError::Memory),
    }
}

// Returns a loaded list as a structure.
macro_rules! loaded_as {
    ($loaded:expr, $structure:path) => {
        match $loaded {
            Ok(list) => Ok(Kept::Other($structure(list))),
            Err(error) => Err(error),
        }
    };
}

// Loads a structure of a kind from its saved form.
//
// # Errors
//
// The error of the first test that fails; the last test is that of a text. `Memory` if the allocator refuses a
// request.
fn load(alloc: Global, kind: Kind, bytes: &[u8]) -> Result<Kept, LoadError>
    ensures kind { IfOk result (λ kept. kind_of (content kept) ≡ Some kind) }
    ensures form { IfOk result (λ kept. IsFormOf bytes.now (content kept)) }
    ensures back { (held : Content) → kind_of held ≡ Some kind → IsFormOf bytes.now held
        → MatchResult result (λ kept. content kept ≡ held) (λ e. e ≡ LoadError.Memory) }
    ensures none { OnOk result (fault_of (saved_kind kind) bytes.now ≡ None) }
    ensures refused { IfErr result (λ e. (fault_of (saved_kind kind) bytes.now ≡ Some e)
        ⊎ (((e ≡ LoadError.Memory) ⊎ ((e ≡ LoadError.NotAText) × (kind ≡ kinds.Text)))
        × (fault_of (saved_kind kind) bytes.now ≡ None))) }
{
    match kind {
        Kind::Growing => loaded_as!(load_from_slice(alloc, bytes), Structure::Growing),
        Kind::Bits => loaded_as!(load_from_slice(alloc, bytes), Structure::Bits),
        Kind::Sparse => loaded_as!(load_from_slice(alloc, bytes), Structure::Sparse),
        Kind::Sorted => loaded_as!(load_from_slice(alloc, bytes), Structure::Sorted),
        Kind::Symbols => loaded_as!(load_from_slice(alloc, bytes), Structure::Symbols),
        Kind::Tree => match load_parentheses(alloc, bytes) {
            Ok(tree) => Ok(Kept::Tree(tree)),
            Err(error) => Err(error),
        },
        Kind::Fast => loaded_as!(load_from_slice(alloc, bytes), Structure::Fast),
        Kind::Binary => loaded_as!(load_from_slice(alloc, bytes), Structure::Binary),
        Kind::Postings => loaded_as!(load_from_slice(alloc, bytes), Structure::Postings),
        Kind::Text => loaded_as!(load_text_from_slice(alloc, bytes), Structure::Text),
        Kind::Inverted => loaded_as!(load_from_slice(alloc, bytes), Structure::Inverted),
    }
}

/// Builds a structure of a kind from its saved form. Refuses other bytes, with the status of the first test
/// that fails.
#[unsafe(no_mangle)]
pub extern "C" fn vers_load(alloc: Global, code: u32, bytes: &[u8], handle: &mut VersHandle) -> u32
    ensures { IsLoaded code bytes.now (contents handle.old) (contents handle.new) result }
{
    if handle.is_built {
        return OCCUPIED;
    }
    let Some(kind) = Kind::of(code as usize) else {
        return UNKNOWN;
    };
    match load(alloc, kind, bytes) {
        Ok(kept) => fill(alloc, handle, kept),
        Err(error) => fault(error),
    }
}

// Returns the status of an error of loading.
fn fault(error: LoadError) -> u32
    ensures { result ≡ fault_as error }
{
    match error {
        LoadError::Memory => NO_MEMORY,
        LoadError::TooShort => TOO_SHORT,
        LoadError::NotOurs => NOT_OURS,
        LoadError::OtherVersion => OTHER_VERSION,
        LoadError::OtherKind => OTHER_KIND,
        LoadError::BadLength => BAD_LENGTH,
        LoadError::BadSum => BAD_SUM,
        LoadError::BadPadding => BAD_PADDING,
        LoadError::NotAscending => NOT_ASCENDING,
        LoadError::NotAText => NOT_A_TEXT,
        // Not possible: the bytes are in memory.
        LoadError::Read => REFUSED,
    }
}
