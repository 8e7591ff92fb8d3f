// The program: reads standard input and prints what document 01 says. Where standard input cannot be read to its end nothing
// is printed, and standard error says why; so it does where not all can be written. Then the exit status is 1.
#![tactic(auto)]

use answering::{Failure, INPUT_BYTES, answer};
use pti::PROGRAM_BYTES;
use std::io;
use std::process::ExitCode;

// Where standard error fails too, the exit status alone says so.
fn failed(rt: &impl Eprint, stream: &str, e: io::Error) -> ExitCode {
    let _ = eprintln!(rt; "run_record: {stream}: {e}");
    ExitCode::FAILURE
}

fn main(rt: HostRuntime) -> ExitCode {
    let mut input = [0u8; INPUT_BYTES];
    let mut out = [0u8; PROGRAM_BYTES];
    match answer(&mut rt.stdin(), &mut rt.stdout(), &mut input, &mut out) {
        Ok(_) => ExitCode::SUCCESS,
        Err(Failure::Unwritten(_, e)) => failed(&rt, "standard output", e),
        Err(Failure::Unread(e)) => failed(&rt, "standard input", e),
    }
}
