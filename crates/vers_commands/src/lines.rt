//! Lines of standard input, answered on standard output.
use std::io::IsTerminal;
use std::process::ExitCode;
use vers_cli::{Device, RunError, fault_line};
use vers_texts::Store;

/// Answers lines.
pub fn answer(rt: &HostRuntime) -> ExitCode {
    say_waiting(rt, "`bits 0110` and `rank1 3`");
    let mut reader = Device::new(rt.stdin());
    let mut writer = Device::new(rt.stdout());
    status(rt, vers_cli::run(rt.alloc(), &mut reader, &mut writer))
}

/// Answers lines about a text.
pub fn answer_text(rt: &HostRuntime) -> ExitCode {
    say_waiting(rt, "`text 2 0 1 2 0 1` and `places 0 1`");
    let store = Store::new(rt.alloc());
    let mut reader = Device::new(rt.stdin());
    let mut writer = Device::new(rt.stdout());
    status(
        rt,
        vers_texts::run_from(rt.alloc(), store, &mut reader, &mut writer),
    )
}

/// Says on a terminal which lines the program waits for.
pub fn say_waiting(rt: &HostRuntime, example: &str) {
    if rt.stdin().is_terminal() {
        let _ = eprintln!(rt;
            "vers: waiting for lines, such as {example}, with spaces between words, up to ctrl-d"
        );
    }
}

/// Returns the status of a run, and prints its error.
pub fn status(rt: &HostRuntime, ended: Result<(), RunError>) -> ExitCode {
    match ended {
        Ok(()) => ExitCode::SUCCESS,
        Err(error) => fail(rt, fault_line(&error)),
    }
}

/// Prints a text and a line end.
pub fn print(rt: &HostRuntime, text: &str) -> ExitCode {
    match println!(rt; "{text}") {
        Ok(()) => ExitCode::SUCCESS,
        Err(_) => fail(rt, "write failed"),
    }
}

/// Prints why a command failed, and returns status 1.
pub fn fail(rt: &HostRuntime, why: &str) -> ExitCode {
    let _ = eprintln!(rt; "vers: {why}");
    ExitCode::FAILURE
}
