//! The server as a program: its words, its streams, and how it ends.
use crate::chosen::{chosen_fronts, chosen_settings, chosen_streams};
use crate::clock::SystemClock;
use crate::fronts::Fronts;
use crate::limits::Limits;
use crate::memory::{serve_in_memory, serve_single};
use crate::place::{Place, Placed};
use crate::stopped::Stopped;
use crate::stored::{Keeping, serve_stored};
use dav_handler_core::serving::Clock;
use dav_store_core::StoreError;
use http_frames::frames::Frames;
use http_frames::gathered::Gathered;
use http_frames::serving::End;
use journal_core::JournalError;
use kept_frames::Told;
use line_streams::Fault;
use rand::make_rng;
use rand_chacha::ChaCha20Rng;
use rand_core::{Rng, SeedableRng};
use server_choices::{Choices, Unread};
use std::alloc::AllocError;
use std::env;
use std::fmt::Display;
use std::io::{self, ErrorKind, Read, Write};
use std::process::ExitCode;

// What is told at the start where no file keeps the stores.
const IN_MEMORY: &str = "what is stored is in memory alone, and gone when the server ends\n";

// What is told where the file is no longer found by its name.
const LOST: &str =
    "the store is no longer at its name: the file there was removed, replaced or cut short, so nothing more is written\n";

// The words that the program takes.
const USAGE: &str =
    "usage: davserve [--help] [--one|--login] [--read-only] [--scheme http|https] [--prefix PATH] [--user-header NAME] [--address-header NAME] [--longest-timeout SECONDS] [--propfind-depth finite|infinite] [--max-body BYTES] [--window BYTES] [--waiting BYTES] [--unfinished BYTES] [--store FILE] [--existing] [--began NANOSECONDS] [--lease SECONDS] [--sync always|second] [--compact-over BYTES] [--compact-useless PERCENT] [--users FILE] [--realm TEXT] [--log FILE] [--log-format common|combined|json] [--seed NUMBER] [--clock NANOSECONDS|frames]\n";

/// Serves on the standard streams as the words behind the program's name choose, and tells on standard error why it ends, where that is not the end of the input. Its status.
pub fn run(rt: &HostRuntime) -> ExitCode {
    match words(rt) {
        Ok(words) => run_as(rt, &words),
        Err(error) if error.kind() == ErrorKind::OutOfMemory => no_memory(rt),
        Err(_) => usage(rt),
    }
}

// The words behind the program's name; an error where one is no text.
fn words(rt: &HostRuntime) -> io::Result<Vec<String>> {
    let mut words = Vec::new(rt.alloc());
    for word in env::args(rt)?.skip(1) {
        if words.push(word).is_err() {
            return Err(io::Error::from(AllocError));
        }
    }
    Ok(words)
}

fn run_as(rt: &HostRuntime, words: &[String]) -> ExitCode {
    if asks_for_help(words) {
        return help(rt);
    }
    match Choices::of(rt.alloc(), words) {
        Ok(mut choices) => told_end(rt, &serve_chosen(rt, &mut choices)),
        Err(unread) => told_unread(rt, &unread),
    }
}

// Tells which word is wrong, where one is, and the usage.
fn told_unread(rt: &HostRuntime, unread: &Unread) -> ExitCode {
    let _written = match unread {
        Unread::OutOfMemory => return no_memory(rt),
        Unread::Usage => Ok(()),
        Unread::Unknown(word) if word.starts_with("--") => {
            writeln!(rt.stderr(), "{word} is no option of davserve")
        }
        Unread::Unknown(word) => writeln!(
            rt.stderr(),
            "{word} is no option of davserve, which serves no folder: davstore import puts one into a store"
        ),
        Unread::Value(name) => writeln!(rt.stderr(), "{name} needs another value"),
    };
    usage(rt)
}

// Whether one of the words is `--help`.
fn asks_for_help(words: &[String]) -> bool {
    for word in words {
        if word.as_str() == "--help" {
            return true;
        }
    }
    false
}

// Answers the requests of the connections on the standard streams.
fn serve_chosen(rt: &HostRuntime, choices: &mut Choices) -> Result<End, Stopped> {
    let rng = generator(rt, choices.seed)?;
    if choices.one {
        return serve_connection(rt, choices, rng);
    }
    serve_connections(rt, choices, rng)
}

// The generator of tokens: one that begins as the number says, or else one that nobody can foretell.
fn generator(rt: &HostRuntime, seed: Option<u64>) -> io::Result<ChaCha20Rng> {
    match seed {
        Some(seed) => Ok(ChaCha20Rng::seed_from_u64(seed)),
        None => make_rng(rt),
    }
}

// Serves the one connection that the standard streams are.
fn serve_connection<R: Rng + Drop>(
    rt: &HostRuntime,
    choices: &mut Choices,
    rng: R,
) -> Result<End, Stopped> {
    tell_in_memory(rt);
    let config = Limits::of(choices).config;
    let settings = chosen_settings(rt, choices);
    Ok(serve_single(
        rt,
        choices.clock,
        config,
        settings,
        rng,
        &mut rt.stdin(),
        &mut rt.stdout(),
    )?)
}

// Serves the connections that the frames on the standard streams are of.
fn serve_connections<R: Rng + Drop>(
    rt: &HostRuntime,
    choices: &mut Choices,
    rng: R,
) -> Result<End, Stopped> {
    let place = Place::new();
    let input = Placed {
        rt,
        place: &place,
        input: rt.stdin(),
    };
    let frames = Frames::new(rt.alloc(), input)?;
    let output = Gathered::new(rt.alloc(), rt.stdout())?;
    let clock = SystemClock {
        rt,
        runs: choices.clock.is_none(),
    };
    let served = serve(rt, choices, &place, frames, output, rng, clock);
    if place.is_lost() {
        return Err(Stopped::Lost);
    }
    match place.into_failure() {
        Some(error) => Err(Stopped::Unkept(JournalError::Failed(error))),
        None => served,
    }
}

// Serves with stores that a file keeps, or that are empty at first and in memory alone. It is told here of no streams, generator and clock in particular, and so
// are the functions that it calls: so their check is short.
fn serve<R: Rng + Drop, C: Clock + Drop, I: Read + Drop, O: Write + Drop>(
    rt: &HostRuntime,
    choices: &mut Choices,
    place: &Place,
    mut frames: Frames<I>,
    output: O,
    rng: R,
    clock: C,
) -> Result<End, Stopped> {
    let mut fronts = chosen_fronts(rt, choices, &mut frames)?;
    match choices.store.take() {
        Some(path) => {
            let output = Told::new(output);
            serve_file(
                rt,
                path.as_str(),
                choices,
                place,
                &mut fronts,
                frames,
                output,
                rng,
                clock,
            )
        }
        None => serve_memory(rt, choices, &mut fronts, frames, output, rng, clock),
    }
}

fn serve_file<R: Rng + Drop, C: Clock + Drop, I: Read + Drop, O: Write + Drop>(
    rt: &HostRuntime,
    path: &str,
    choices: &mut Choices,
    place: &Place,
    fronts: &mut Fronts<'_>,
    frames: Frames<I>,
    output: O,
    rng: R,
    clock: C,
) -> Result<End, Stopped> {
    let mut streams = chosen_streams(rt, choices, frames, output)?;
    let keeping = Keeping {
        settings: chosen_settings(rt, choices),
        sync: choices.sync,
        compacting: choices.compacting,
        existing: choices.existing,
        began: choices.began,
        lease: choices.lease,
        path,
        place,
    };
    serve_stored(rt, choices.clock, fronts, &mut streams, keeping, rng, clock)
}

fn serve_memory<R: Rng + Drop, C: Clock + Drop, I: Read + Drop, O: Write + Drop>(
    rt: &HostRuntime,
    choices: &mut Choices,
    fronts: &mut Fronts<'_>,
    frames: Frames<I>,
    output: O,
    rng: R,
    clock: C,
) -> Result<End, Stopped> {
    tell_in_memory(rt);
    let mut streams = chosen_streams(rt, choices, frames, output)?;
    let settings = chosen_settings(rt, choices);
    serve_in_memory(
        rt,
        choices.clock,
        fronts,
        &mut streams,
        settings,
        rng,
        clock,
    )
}

fn tell_in_memory(rt: &HostRuntime) {
    let _told = rt.stderr().write_all(IN_MEMORY.as_bytes());
}

// Tells how serving ended, where that is not the end of the input.
fn told_end(rt: &HostRuntime, served: &Result<End, Stopped>) -> ExitCode {
    match served {
        Ok(end) => told_input(rt, *end),
        Err(stopped) => told_stop(rt, stopped),
    }
}

// Tells how the input ended, where it isn't whole.
fn told_input(rt: &HostRuntime, end: End) -> ExitCode {
    match end {
        End::Whole => ExitCode::SUCCESS,
        End::Wrong => ended(rt, "a frame is wrong\n", 4),
        End::Cut => no_stream(rt),
    }
}

fn told_stop(rt: &HostRuntime, stopped: &Stopped) -> ExitCode {
    match stopped {
        Stopped::Stream(Fault::OutOfMemory) => no_memory(rt),
        Stopped::Stream(Fault::Io) => no_stream(rt),
        Stopped::Ended(end) => told_input(rt, *end),
        Stopped::Unkept(error) => ended_by(rt, "a change could not be kept", error, 5),
        Stopped::Refused(error) => ended_by(rt, "the store is not opened", error, status_of(error)),
        Stopped::Missing(path) => missing(rt, path.as_str()),
        Stopped::Other(path, began) => other(rt, path.as_str(), *began),
        Stopped::Empty(path) => empty(rt, path.as_str()),
        Stopped::Taken(path) => taken(rt, path.as_str()),
        Stopped::Lost => ended(rt, LOST, 10),
        Stopped::InTheWay(draft) => in_the_way(rt, draft.as_str()),
        Stopped::NoUsers(error) => ended_by(rt, "the file of users is not read", error, 7),
        Stopped::WrongUsers(error) => ended_by(rt, "the file of users is wrong", error, 7),
        Stopped::WrongRealm => usage(rt),
        Stopped::NoLog(error) => ended_by(rt, "the log is not opened", error, 8),
    }
}

// By why a file is not opened: it is in use, or a call of the system failed, or it is none that this program knows.
fn status_of(error: &StoreError) -> u8 {
    match error {
        StoreError::Journal(JournalError::Busy) => 9,
        StoreError::Journal(JournalError::Failed(_) | JournalError::Full) => 11,
        _ => 6,
    }
}

fn missing(rt: &HostRuntime, path: &str) -> ExitCode {
    let _written = writeln!(
        rt.stderr(),
        "the store is not opened: nothing stands at {path}, and with --existing none is made; davstore {path} new makes one"
    );
    ExitCode::from(6)
}

fn other(rt: &HostRuntime, path: &str, began: u64) -> ExitCode {
    let _written = writeln!(
        rt.stderr(),
        "the store is not opened: {path} keeps another one, which began at {began}, and not when --began says"
    );
    ExitCode::from(6)
}

fn empty(rt: &HostRuntime, path: &str) -> ExitCode {
    let _written = writeln!(
        rt.stderr(),
        "the store is not opened: {path} is empty, as a crash can leave a store that is being made; nothing was ever kept in it, so remove it to have a new one"
    );
    ExitCode::from(6)
}

fn taken(rt: &HostRuntime, path: &str) -> ExitCode {
    let _written = writeln!(
        rt.stderr(),
        "the store is not made: something else stands at {path} by now, and stays"
    );
    ExitCode::from(6)
}

fn in_the_way(rt: &HostRuntime, draft: &str) -> ExitCode {
    let _written = writeln!(
        rt.stderr(),
        "the store is not opened: {draft} is in the way, and no draft of it; move it away"
    );
    ExitCode::from(6)
}

// Tells the usage on standard output, with status 0; 1 where that fails.
fn help(rt: &HostRuntime) -> ExitCode {
    match rt.stdout().write_all(USAGE.as_bytes()) {
        Ok(()) => ExitCode::SUCCESS,
        Err(_) => no_stream(rt),
    }
}

fn usage(rt: &HostRuntime) -> ExitCode {
    ended(rt, USAGE, 2)
}

fn no_memory(rt: &HostRuntime) -> ExitCode {
    ended(rt, "out of memory\n", 3)
}

fn no_stream(rt: &HostRuntime) -> ExitCode {
    ended(rt, "a stream failed\n", 1)
}

// A failed write changes no status.
fn ended(rt: &HostRuntime, text: &str, status: u8) -> ExitCode {
    let _written = rt.stderr().write_all(text.as_bytes());
    ExitCode::from(status)
}

fn ended_by<E: Display>(rt: &HostRuntime, text: &str, error: &E, status: u8) -> ExitCode {
    let _written = writeln!(rt.stderr(), "{text}: {error}");
    ExitCode::from(status)
}
