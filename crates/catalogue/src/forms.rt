//! Saved forms of lists.
ghost use Rattle.std.specs.Prelude.{◌≡◌, ◌≢◌, ◌⊎◌, Err, IfOk, IfErr, OnOk};
ghost use Rattle.std.specs.Io.KnownBytes.{Keeps};
ghost use Rattle.vers_saved.specs.Format.{saved};
ghost use Rattle.vers_saved.specs.Kinds.{IsWhole};
ghost use Rattle.vers_saved.specs.Streams.{Writes};

use std::alloc::Allocator;
use std::io::Write;
use vers_saved::fault::SaveError;
use vers_saved::saved::{Saved, save_to_vec};
use vers_saved::stream::save;

/// Returns the saved form of a list.
///
/// # Errors
///
/// `NoForm` if there is none; `Memory` if the allocator refuses a request.
pub fn bytes_of<S: Saved, A: Allocator>(alloc: A, list: &S) -> Result<Vec<u8, A>, SaveError>
    ensures saved { IfOk result (λ out. out.items
        ≡ saved S.kind.version S.kind.number (S.count list.now) (S.width list.now) (S.words list.now)) }
    ensures whole { OnOk result (IsWhole S.kind (S.count list.now) (S.width list.now) (S.words list.now)) }
    ensures fits { OnOk result (S.Fits list.now) }
    ensures refused { IfErr result (λ e. (e ≡ SaveError.Memory) ⊎ ((e ≡ SaveError.NoForm)
        × ¬ IsWhole S.kind (S.count list.now) (S.width list.now) (S.words list.now))) }
{
    let mut out = Vec::new(alloc);
    save_to_vec(list, &mut out)?;
    Ok(out)
}

// Writes the saved form of a list.
pub(crate) fn write_form<S: Saved, A: Allocator, W: Write>(
    alloc: A,
    list: &S,
    writer: &mut W,
) -> Result<(), SaveError>
    ensures written { result ≢ Err SaveError.NoForm → Writes result (W.contents writer.old)
        (W.contents writer.new)
        (saved S.kind.version S.kind.number (S.count list.now) (S.width list.now) (S.words list.now)) }
    ensures kept { IfErr result (λ e. (e ≡ SaveError.Write)
        ⊎ Keeps (W.contents writer.old) (W.contents writer.new)) }
    ensures whole { OnOk result (IsWhole S.kind (S.count list.now) (S.width list.now) (S.words list.now)) }
    ensures fits { OnOk result (S.Fits list.now) }
    ensures none { IfErr result (λ e. e ≡ SaveError.NoForm
        → ¬ IsWhole S.kind (S.count list.now) (S.width list.now) (S.words list.now)) }
{
    save(alloc, list, writer)
}
