//! Query lines about the list of a file.
ghost use Rattle.std.specs.Prelude.{◌≡◌, Some, ◌<◌, ◌↔◌, IsTrue, false, IfOk, IfErr, OnErr};
ghost use Rattle.vers_io.specs.Device.{FollowsReadFault, FollowsWriteFault};
ghost use Rattle.catalogue.specs.Structures.{Content};
ghost use Rattle.vers_cli.specs.Answers.{by_the_rules};
ghost use Rattle.vers_files.specs.Forms.{IsFormOf, IsNoForm};
ghost use Rattle.vers_files.specs.Asked.{AnswersFrom};

use crate::loading::load_file;
use std::alloc::Allocator;
use std::io::Read;
use vers_cli::{Device, RunError, Sink, Source, Store, run_from};
use vers_saved::fault::LoadError;

/// Reads lines to the end of the input and writes the answer of each, with the list loaded from `file` as the
/// first structure. The answers are those of `run`, and so are the errors of reader and writer, which are the
/// inner error.
///
/// # Errors
///
/// Why the file was not loaded. No line was read then, and nothing was written.
pub fn ask<A: Allocator + Copy, F: Read, R: Source, W: Sink>(
    alloc: A,
    file: &mut F,
    reader: &mut Device<R>,
    writer: &mut Device<W>,
) -> Result<Result<(), RunError>, LoadError>
    requires reader { reader.old.has_failed ≡ false }
    requires writer { writer.old.has_failed ≡ false }
    ensures answers { IfOk result (λ ended. (held : Content) × IsFormOf (F.remaining file.old) held
        × AnswersFrom by_the_rules (Some held) ended (R.remaining reader.old.inner) (R.remaining reader.new.inner)
        (W.contents writer.old.inner) (W.contents writer.new.inner)) }
    ensures read { IfOk result (λ ended. (ended ≡ Err RunError.Read) ↔ IsTrue reader.new.has_failed) }
    ensures write { IfOk result (λ ended. (ended ≡ Err RunError.Write) ↔ IsTrue writer.new.has_failed) }
    ensures read_cause { IfOk result (λ ended. ended ≡ Err RunError.Read → 0 < reader.new.reads_left
        → FollowsReadFault R.read_gives reader.new.inner) }
    ensures write_cause { IfOk result (λ ended. ended ≡ Err RunError.Write
        → FollowsWriteFault W.write_gives writer.new.inner) }
    ensures refused { IfErr result (λ e. IsNoForm (F.remaining file.old) e) }
    ensures reader { OnErr result (reader.new ≡ reader.old) }
    ensures writer { OnErr result (writer.new ≡ writer.old) }
{
    match load_file(&alloc, file) {
        Ok(structure) => Ok(run_from(Store::of(&alloc, structure), reader, writer)),
        Err(fault) => Err(fault),
    }
}
