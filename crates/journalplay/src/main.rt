//! Plays with a journal in a file: what it has, and then one command a line of standard input, one answer a line of standard output.
#![tactic(auto)]

mod choices;
mod commands;
mod playing;
mod reading;
mod stopped;

use choices::{Choices, Unread};
use journal_core::Header;
use line_streams::Fault;
use playing::play;
use reading::read_stream;
use std::alloc::AllocError;
use std::env;
use std::hash::{BuildHasher, RandomState};
use std::io::{self, BufReader, BufWriter, ErrorKind, Write};
use std::process::ExitCode;
use std::time::{SystemTime, UNIX_EPOCH};
use stopped::Stopped;

// The words that the program takes.
const USAGE: &str =
    "usage: journalplay [--list] [--key NUMBER] [--began NUMBER] PATH\n       journalplay --read\n";

// How many bytes are read at once.
const BUFFER: usize = 64 * 1024;

fn main(rt: HostRuntime) -> ExitCode {
    let words = match words(&rt) {
        Ok(words) => words,
        Err(error) if error.kind() == ErrorKind::OutOfMemory => return ended(
            &rt,
            "out of memory\n",
            3,
        ),
        Err(_) => return ended(&rt, USAGE, 2),
    };
    let choices = match Choices::of(rt.alloc(), &words) {
        Ok(choices) => choices,
        Err(Unread::OutOfMemory) => return ended(&rt, "out of memory\n", 3),
        Err(Unread::Usage) => return ended(&rt, USAGE, 2),
    };
    match run(&rt, &choices) {
        Ok(true) => ExitCode::SUCCESS,
        Ok(false) => ExitCode::from(1),
        Err(Fault::OutOfMemory) => ended(&rt, "out of memory\n", 3),
        Err(Fault::Io) => ended(&rt, "a stream failed\n", 3),
    }
}

// Plays, or reads, and tells an error of the journal; whether there was none.
fn run(rt: &HostRuntime, choices: &Choices) -> Result<bool, Fault> {
    let mut output = BufWriter::with_capacity(rt.alloc(), BUFFER, rt.stdout())?;
    let told = match run_on(rt, choices, &mut output) {
        Ok(()) => true,
        Err(Stopped::Journal(error)) => {
            writeln!(output, "error {error}")?;
            false
        }
        Err(Stopped::Stream(fault)) => return Err(fault),
    };
    output.flush()?;
    Ok(told)
}

// Plays, or reads.
fn run_on<O: Write + Drop>(
    rt: &HostRuntime,
    choices: &Choices,
    output: &mut BufWriter<O>,
) -> Result<(), Stopped> {
    let mut input = BufReader::with_capacity(rt.alloc(), BUFFER, rt.stdin())?;
    let Some(path) = &choices.path else {
        return read_stream(rt.alloc(), input, output);
    };
    let header = Header {
        generation: 0,
        key: match choices.key {
            Some(key) => key,
            None => drawn(rt)?,
        },
        began: match choices.began {
            Some(began) => began,
            None => now(rt)?,
        },
    };
    play(rt, path.as_str(), header, choices.list, &mut input, output)
}

// A number drawn at random.
fn drawn(rt: &HostRuntime) -> io::Result<u64> {
    Ok(RandomState::new(rt)?.hash_one(&0u8))
}

// The system's moment, in nanoseconds since 1970.
fn now(rt: &HostRuntime) -> io::Result<u64> {
    match SystemTime::now(rt)?.duration_since(UNIX_EPOCH) {
        Ok(since) => Ok(u64::try_from(since.as_nanos()).unwrap_or(u64::MAX)),
        Err(_) => Ok(0),
    }
}

// The words behind the program's name; an error where one is no text.
fn words(rt: &HostRuntime) -> io::Result<Vec<String>> {
    let mut words = Vec::new(rt.alloc());
    for word in env::args(rt)?.skip(1) {
        if words.push(word).is_err() {
            return Err(io::Error::from(AllocError));
        }
    }
    Ok(words)
}

// A failed write changes no status.
fn ended(rt: &HostRuntime, text: &str, status: u8) -> ExitCode {
    let _written = rt.stderr().write_all(text.as_bytes());
    ExitCode::from(status)
}
