//! Plays a scenario: one request a line of standard input, one answer a line of standard output.
#![tactic(auto)]

use dav_resource_core::davreplay::{replay, seed_of};
use std::alloc::AllocError;
use std::env;
use std::io::{self, ErrorKind, Write};
use std::process::ExitCode;

fn main(rt: HostRuntime) -> ExitCode {
    match words(&rt) {
        Ok(words) => match seed_of(&words) {
            Some(seed) => ExitCode::from(replay(
                rt.alloc(),
                seed,
                rt.stdin(),
                rt.stdout(),
                rt.stderr(),
            )),
            None => usage(rt.stderr()),
        },
        Err(error) => match error.kind() {
            ErrorKind::OutOfMemory => ended(rt.stderr(), b"out of memory\n", 3),
            _ => usage(rt.stderr()),
        },
    }
}

// The words behind the program's name; an error where one is no text.
fn words(rt: &HostRuntime) -> io::Result<Vec<String>> {
    let mut words = Vec::new(rt.alloc());
    for word in env::args(rt)?.skip(1) {
        if words.push(word).is_err() {
            return Err(io::Error::from(AllocError));
        }
    }
    Ok(words)
}

fn usage<E: Write + Drop>(faults: E) -> ExitCode {
    ended(faults, b"usage: davreplay SEED\n", 2)
}

// A failed write changes no status.
fn ended<E: Write + Drop>(mut faults: E, text: &[u8], status: u8) -> ExitCode {
    let _written = faults.write_all(text);
    ExitCode::from(status)
}
