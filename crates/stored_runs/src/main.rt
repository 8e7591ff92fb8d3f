// The program on each of the files that its arguments name; what is printed of a file stands behind its name.
#![tactic(auto)]

use answering::{INPUT_BYTES, answer};
use pti::PROGRAM_BYTES;
use std::env::{Env, FillError};
use std::process::ExitCode;
use std::rt::Files;
use std::{fs, io};
use streams::write_all;

// The longest name, in bytes.
const NAME_BYTES: usize = 4096;

// The file's name as a line, and behind it what the program prints of the file.
fn run_file(rt: &(impl Files + Print), name: &str) -> io::Result<()> {
    let mut file = fs::open(rt, name)?;
    let mut to = io::writer(rt);
    write_all(&mut to, name.as_bytes())?;
    write_all(&mut to, b"\n")?;
    let mut input = [0u8; INPUT_BYTES];
    let mut out = [0u8; PROGRAM_BYTES];
    answer(&mut file, &mut to, &mut input, &mut out)?;
    Ok(())
}

// A file that cannot be read, or whose answer cannot be written, is said on standard error. Was all of it written?
fn run_named(rt: &(impl Files + Print + Eprint), name: &str) -> bool {
    match run_file(rt, name) {
        Ok(()) => true,
        Err(e) => {
            // Where standard error fails too, the exit status alone says so.
            let _ = eprintln!(rt; "{name}: {e}");
            false
        }
    }
}

// An argument that is no file's name: too long, or no text.
fn is_no_name(rt: &impl Eprint, i: usize) -> bool {
    let _ = eprintln!(rt; "stored_runs: argument {i} is no file's name");
    false
}

// The argument's file, where there is such an argument. Was all of it written?
fn run_argument(rt: &(impl Env + Files + Print + Eprint), i: usize) -> Option<bool> {
    let mut name = [0u8; NAME_BYTES];
    match rt.arg(i, &mut name) {
        Ok(n) => match str::from_utf8(&name[..n]) {
            Ok(name) => Some(run_named(rt, name)),
            Err(_) => Some(is_no_name(rt, i)),
        },
        Err(FillError::TooLong) => Some(is_no_name(rt, i)),
        Err(FillError::NotPresent) => None,
    }
}

fn main(rt: HostRuntime) -> ExitCode {
    let mut code = ExitCode::SUCCESS;
    for i in 1..usize::MAX {
        match run_argument(&rt, i) {
            Some(true) => {}
            Some(false) => code = ExitCode::FAILURE,
            None => break,
        }
    }
    code
}
