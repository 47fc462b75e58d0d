//! What an export asks of the system, and a record of it that only proofs read.
ghost use Rattle.std.specs.Prelude.{◌≡◌, ◌++◌, ◌∷◌, [], Bool, List, is_ok, string_bytes};
ghost use Rattle.store_tools.specs.Exports.{SystemCall, makes_file, makes_folder, opens, sets_time, syncs, writes};
ghost use Rattle.store_tools.specs.Private.Recorded.{host_history, plain_call};

use dav_guarded_core::fs::Moment;
use http_server::Log;
use std::fs::{self, File, OpenOptions};
use std::io::{self, ErrorKind, Write};
use std::time::{Duration, UNIX_EPOCH};

const MAKES_FOLDER: u8 = 0;

const MAKES_FILE: u8 = 1;

const OPENS: u8 = 2;

const WRITES: u8 = 3;

const SETS_TIME: u8 = 4;

const SYNCS: u8 = 5;

/// What an export asks of the system, at places of it. A call that writes, sets a time or syncs is at the place of the file that was made, or of the folder that was opened, last.
pub(crate) trait Calls<'a> {
    /// Each call so far, in order, and whether it was done.
    ghost history: { Self → List (SystemCall × Bool) };

    /// Makes a folder where nothing has its name.
    fn make_folder(&mut self, place: &String) -> io::Result<()>
        ensures noted { history self.new
            ≡ history self.old ++ (makes_folder (string_bytes place.now), is_ok result) ∷ [] };

    /// Makes a file where nothing has its name.
    fn make_file(&mut self, place: &String) -> io::Result<()>
        ensures noted { history self.new
            ≡ history self.old ++ (makes_file (string_bytes place.now), is_ok result) ∷ [] };

    /// Opens a folder.
    fn open_folder(&mut self, place: &String) -> io::Result<()>
        ensures noted { history self.new
            ≡ history self.old ++ (opens (string_bytes place.now), is_ok result) ∷ [] };

    /// Writes all these bytes.
    fn write(&mut self, place: &String, bytes: &'a [u8]) -> io::Result<()>
        ensures noted { history self.new
            ≡ history self.old ++ (writes (string_bytes place.now) bytes.now, is_ok result) ∷ [] };

    /// Sets the time of the last change.
    fn set_time(&mut self, place: &String, time: Moment) -> io::Result<()>
        ensures noted { history self.new
            ≡ history self.old ++ (sets_time (string_bytes place.now) time.0, is_ok result) ∷ [] };

    /// Syncs what was written and set, or what was made in a folder.
    fn sync(&mut self, place: &String) -> io::Result<()>
        ensures noted { history self.new
            ≡ history self.old ++ (syncs (string_bytes place.now), is_ok result) ∷ [] };
}

/// A call, as it is recorded.
#[derive(Clone, Copy, Drop)]
pub(crate) struct Call<'a> {
    call: u8,
    bytes: &'a [u8],
    time: Moment,
    is_done: bool,
}

/// The system.
#[derive(Drop)]
pub(crate) struct Host<'a> {
    rt: &'a HostRuntime,
    // The file that was made, or the folder that was opened, last; none behind a folder that was made.
    open: Option<File>,
    log: Log<String, Call<'a>>,
}

impl<'a> Host<'a> {
    pub(crate) fn new(rt: &'a HostRuntime) -> Host<'a> {
        Host {
            rt,
            open: None,
            log: Log::new(),
        }
    }

    // Records a call.
    fn note(&mut self, place: &String, call: Call<'a>)
        ensures { self.new.log.items ≡ self.old.log.items ++ (place.now, call.exit) ∷ [] }
    {
        self.log = self.log.and(place, &call);
    }

    // Records a call without bytes and a time.
    fn note_plain(&mut self, place: &String, call: u8, is_done: bool)
        ensures { host_history self.new
            ≡ host_history self.old ++ (plain_call (string_bytes place.now) call, is_done) ∷ [] }
    {
        self.note(
            place,
            Call {
                call,
                bytes: b"",
                time: Moment(0),
                is_done,
            },
        );
    }
}

// Makes a file, to be written.
fn create(rt: &HostRuntime, place: &str) -> io::Result<File> {
    OpenOptions::new()
        .write(true)
        .create_new(true)
        .open(rt, place)
}

// What is open, or an error where nothing is.
fn opened(open: &Option<File>) -> io::Result<&File> {
    match open {
        Some(file) => Ok(file),
        None => Err(ErrorKind::NotFound.into()),
    }
}

// Writes all to what is open.
fn write_all(open: &mut Option<File>, bytes: &[u8]) -> io::Result<()> {
    match open {
        Some(file) => file.write_all(bytes),
        None => Err(ErrorKind::NotFound.into()),
    }
}

// Keeps what is open now, where it could be opened.
fn keep(open: &mut Option<File>, answer: io::Result<File>) -> io::Result<()> {
    *open = Some(answer?);
    Ok(())
}

fn set_modified(open: &Option<File>, time: Moment) -> io::Result<()> {
    let file = opened(open)?;
    match UNIX_EPOCH.checked_add(Duration::from_nanos(time.0)) {
        Some(time) => file.set_modified(time),
        None => Ok(()),
    }
}

fn sync_all(open: &Option<File>) -> io::Result<()> {
    opened(open)?.sync_all()
}

impl<'a> Calls<'a> for Host<'a> {
    ghost history = { host_history };

    fn make_folder(&mut self, place: &String) -> io::Result<()> {
        self.open = None;
        let answer = fs::create_dir(self.rt, place.as_str());
        self.note_plain(place, MAKES_FOLDER, answer.is_ok());
        answer
    }

    fn make_file(&mut self, place: &String) -> io::Result<()> {
        self.open = None;
        let answer = keep(&mut self.open, create(self.rt, place.as_str()));
        self.note_plain(place, MAKES_FILE, answer.is_ok());
        answer
    }

    fn open_folder(&mut self, place: &String) -> io::Result<()> {
        self.open = None;
        let answer = keep(&mut self.open, File::open(self.rt, place.as_str()));
        self.note_plain(place, OPENS, answer.is_ok());
        answer
    }

    fn write(&mut self, place: &String, bytes: &'a [u8]) -> io::Result<()> {
        let answer = write_all(&mut self.open, bytes);
        let is_done = answer.is_ok();
        self.note(
            place,
            Call {
                call: WRITES,
                bytes,
                time: Moment(0),
                is_done,
            },
        );
        answer
    }

    fn set_time(&mut self, place: &String, time: Moment) -> io::Result<()> {
        let answer = set_modified(&self.open, time);
        let is_done = answer.is_ok();
        self.note(
            place,
            Call {
                call: SETS_TIME,
                bytes: b"",
                time,
                is_done,
            },
        );
        answer
    }

    fn sync(&mut self, place: &String) -> io::Result<()> {
        let answer = sync_all(&self.open);
        self.note_plain(place, SYNCS, answer.is_ok());
        answer
    }
}
