//! Runs `meson setup` for C projects: from a command line and the bytes of a source tree to the bytes of a build directory.
//!
//! `main` passes the command line and the runtime to [`run`], which evaluates a project by `meson::perform`. The crate `meson` states the
//! theorem about the whole.
//!
//! # Decisions
//!
//! **`run` gets its streams as arguments.** [`run`] takes the runtime for files and memory, and two writers: one for the log and help, one
//! for faults and refusals. So a test can read what a run prints, and only `main` names the standard streams.
//!
//! **Closed streams are taken first.** The program opens the root folder for reading once for each closed standard stream. So no output
//! gets the number of a standard stream, and a write to a closed stream fails.
#![tactic(auto)]

#[cfg(test)]
mod no_words;
mod program;

use program::run;
use std::fs::File;
use std::io::ErrorKind;
use std::os::fd::AsRawFd;
use std::process::ExitCode;
use std::{env, fs, io};

// The statuses with which the program ends before `run`.
const DEVICE_FAILED: u8 = 2;

const MEMORY_RAN_OUT: u8 = 3;

const BAD_LINE: u8 = 4;

// The number of the last standard stream.
const STANDARD_ERROR: i32 = 2;

fn main(rt: HostRuntime) -> ExitCode {
    let Ok(_held) = hold_streams(&rt) else {
        return say_and_exit(&rt, "meson: device fault", DEVICE_FAILED);
    };
    let words = match words(&rt) {
        Ok(words) => words,
        Err(error) if error.kind() == ErrorKind::OutOfMemory => {
            return say_and_exit(&rt, "meson: out of memory", MEMORY_RAN_OUT);
        }
        Err(_) => return say_and_exit(&rt, "error: a word is not UTF-8", BAD_LINE),
    };
    let root = match env::current_dir(&rt) {
        Ok(root) => root.into_string(),
        Err(error) if error.kind() == ErrorKind::OutOfMemory => {
            return say_and_exit(&rt, "meson: out of memory", MEMORY_RAN_OUT);
        }
        Err(_) => return say_and_exit(&rt, "meson: device fault", DEVICE_FAILED),
    };
    let status = run(
        &rt,
        words.as_slice(),
        root.as_str(),
        rt.stdout(),
        rt.stderr(),
    );
    ExitCode::from(status)
}

// Takes the numbers of the closed standard streams, so that no file gets one and a write to a closed stream fails. A folder that is open
// for reading takes no bytes.
fn hold_streams(rt: &HostRuntime) -> io::Result<Vec<File>> {
    let mut held = Vec::new(rt.alloc());
    for _ in 0..=STANDARD_ERROR {
        let folder = fs::open(rt, "/")?;
        if folder.as_raw_fd() > STANDARD_ERROR {
            break;
        }
        held.push(folder)?;
    }
    Ok(held)
}

// Returns the arguments of the command line. The first is the program's name.
fn words(rt: &HostRuntime) -> io::Result<Vec<String>> {
    Ok(env::args(rt)?.collect(rt.alloc())?)
}

fn say_and_exit(rt: &impl Eprint, text: &str, status: u8) -> ExitCode {
    let _ = rt.eprintln(text);
    ExitCode::from(status)
}
