//! Structures in files.
use crate::lines::{fail, say_waiting, status};
use crate::progress::Progress;
use catalogue::structure::Kind;
use std::alloc::AllocError;
use std::fs::{self, File};
use std::process::ExitCode;
use vers_cli::Device;
use vers_files::{
    FilePlace, SaveFault, Shown, TextFault, WrongLine, ask, ask_text, fault_line, index_fasta_to,
    index_to, read, save_to, show, symbols_cut, text_fault_line,
};
use vers_saved::fault::LoadError;

// What a query of a file that isn't a saved form prints.
const NO_INDEX: &str = "the file is no saved index; vers text index FILE INDEX makes one";

// Opens a file, or prints why it can't.
fn opened(rt: &HostRuntime, path: &str) -> Option<File> {
    match File::open(rt, path) {
        Ok(file) => Some(file),
        Err(error) => {
            let _ = eprintln!(rt; "vers: {path}: {error}");
            None
        }
    }
}

/// Answers lines about the structure in a file.
pub fn answer(rt: &HostRuntime, path: &str) -> ExitCode {
    let Some(mut file) = opened(rt, path) else {
        return ExitCode::FAILURE;
    };
    say_waiting(rt, "`len`");
    let mut reader = Device::new(rt.stdin());
    let mut writer = Device::new(rt.stdout());
    match ask(rt.alloc(), &mut file, &mut reader, &mut writer) {
        Ok(ended) => status(rt, ended),
        Err(fault) => fail_about(rt, path, fault_line(&fault)),
    }
}

/// Answers lines about the text in a file.
pub fn answer_text(rt: &HostRuntime, path: &str) -> ExitCode {
    let Some(mut file) = opened(rt, path) else {
        return ExitCode::FAILURE;
    };
    say_waiting(rt, "`count \"the\"` and `places 0 1`");
    let mut reader = Device::new(rt.stdin());
    let mut writer = Device::new(rt.stdout());
    match ask_text(rt.alloc(), &mut file, &mut reader, &mut writer) {
        Ok(ended) => status(rt, ended),
        Err(TextFault::File(LoadError::NotOurs)) => fail_about(rt, path, NO_INDEX),
        Err(fault) => fail_about(rt, path, text_fault_line(&fault)),
    }
}

/// Describes the structure in a file.
pub fn describe(rt: &HostRuntime, path: &str) -> ExitCode {
    let Some(mut file) = opened(rt, path) else {
        return ExitCode::FAILURE;
    };
    match show(rt.alloc(), &mut file) {
        Ok(list) => print_shown(rt, &list),
        Err(fault) => fail_about(rt, path, fault_line(&fault)),
    }
}

fn print_shown(rt: &HostRuntime, list: &Shown) -> ExitCode {
    let Shown {
        kind,
        len,
        width,
        bytes,
    } = *list;
    let name = if matches!(kind, Kind::Tree) {
        "block size"
    } else {
        "width"
    };
    let kind = kind.name();
    match println!(rt; "kind: {kind}\nlength: {len}\n{name}: {width}\nbytes: {bytes}") {
        Ok(()) => ExitCode::SUCCESS,
        Err(_) => fail(rt, "write failed"),
    }
}

// The file that a save replaces, and its temporary file.
#[derive(Drop)]
struct Target {
    file: String,
    beside: String,
}

// Returns what a save to a file replaces. A link leads to the file that is replaced.
fn target_of(rt: &HostRuntime, path: &str) -> Result<Target, AllocError> {
    let resolved = fs::canonicalize(rt, path);
    let file = match &resolved {
        Ok(file) => file.as_path().as_str(),
        Err(_) => path,
    };
    Ok(Target {
        file: format!(in rt.alloc(); "{file}")?,
        beside: format!(in rt.alloc(); "{file}.new")?,
    })
}

/// Saves the index of the bytes of a file, or of a FASTA file, to another file.
pub fn index(rt: &HostRuntime, path: &str, index: &str, is_fasta: bool) -> ExitCode {
    let Some(file) = opened(rt, path) else {
        return ExitCode::FAILURE;
    };
    let (Ok(source), Ok(target)) = (target_of(rt, path), target_of(rt, index)) else {
        return fail(rt, "out of memory");
    };
    if source.file == target.file {
        return fail_about(rt, index, "the index would replace the file itself");
    }
    let mut file = Progress::new(rt, path, file);
    let mut place = FilePlace {
        files: rt,
        path: target.file.as_str(),
        beside: target.beside.as_str(),
    };
    let indexed = if is_fasta {
        index_fasta_to(rt.alloc(), &mut file, &mut place)
    } else {
        Ok(index_to(rt.alloc(), &mut file, &mut place))
    };
    match indexed {
        Ok(saved) => status_of_index(&file, index, &target, saved),
        Err(WrongLine { number }) => {
            let _ = eprintln!(rt;
                "vers: {path}: line {number} is no header with a name, nor residues after a header"
            );
            ExitCode::FAILURE
        }
    }
}

// Returns the status of an index that was saved or not, and prints why not.
fn status_of_index(
    file: &Progress<'_, File>,
    index: &str,
    target: &Target,
    saved: Result<(), SaveFault>,
) -> ExitCode {
    let (rt, path) = (file.rt, file.path);
    match saved {
        Ok(()) => {
            file.report_saved(index);
            ExitCode::SUCCESS
        }
        Err(SaveFault::Read) => fail_about(rt, path, "the file can't be read"),
        Err(SaveFault::TooLong) => fail_about(rt, path, "a text has at most 4294967294 bytes"),
        Err(fault) => fail_to_save(rt, index, target, fault),
    }
}

/// Saves the structure of the load line on standard input to a file.
pub fn save(rt: &HostRuntime, path: &str) -> ExitCode {
    let input = match read(rt.alloc(), &mut rt.stdin()) {
        Ok(input) => input,
        Err(LoadError::Memory) => return fail(rt, "out of memory"),
        Err(_) => return fail(rt, "the line can't be read"),
    };
    let Ok(target) = target_of(rt, path) else {
        return fail(rt, "out of memory");
    };
    let line = match input.as_slice() {
        [line @ .., b'\n'] => line,
        line => line,
    };
    let mut place = FilePlace {
        files: rt,
        path: target.file.as_str(),
        beside: target.beside.as_str(),
    };
    match save_to(rt.alloc(), line, &mut place) {
        Ok(()) => {
            say_cut(rt, path, symbols_cut(line));
            ExitCode::SUCCESS
        }
        Err(fault) => fail_to_save(rt, path, &target, fault),
    }
}

// Says how many symbols were cut to their low bits, unless none were.
fn say_cut(rt: &HostRuntime, path: &str, count: usize) {
    if count != 0 {
        let _ = eprintln!(rt; "vers: {path}: symbols cut to their low bits: {count}");
    }
}

// Prints why a structure wasn't saved to a file, and returns status 1.
fn fail_to_save(rt: &HostRuntime, file: &str, target: &Target, fault: SaveFault) -> ExitCode {
    let about = match fault {
        SaveFault::Begin | SaveFault::Sync | SaveFault::Put => target.beside.as_str(),
        _ => file,
    };
    fail_about(rt, about, why_not_saved(fault))
}

fn why_not_saved(fault: SaveFault) -> &'static str {
    match fault {
        SaveFault::BadLine => "bad line",
        SaveFault::Refused => "refused",
        SaveFault::NoBits => "symbols of no bits have no saved form",
        SaveFault::TooLong => "the structure has too many elements for a saved form",
        SaveFault::OutOfMemory => "out of memory",
        SaveFault::Read => "the file can't be read",
        SaveFault::Write => "write failed",
        SaveFault::Begin =>
            "the file can't be created: its folder is missing or can't be written, or another save has begun or was interrupted",
        SaveFault::Sync => "the file can't be synced",
        SaveFault::Put => "the file can't be renamed",
        SaveFault::Settle => "the file is replaced, but its folder can't be synced",
    }
}

// Prints why a command failed with a file, and returns status 1.
fn fail_about(rt: &HostRuntime, file: &str, why: &str) -> ExitCode {
    let _ = eprintln!(rt; "vers: {file}: {why}");
    ExitCode::FAILURE
}
