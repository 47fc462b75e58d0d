//! The names of a copy: which file has its name, what takes that, and under which other one the file that had it stays.
ghost use Rattle.std.specs.Prelude.{IsTrue, IfOk};
ghost use Rattle.sqlite_std_file.specs.File.{file_is_usable};
ghost use Rattle.journal_core.specs.Resting.{disk_behind};

use crate::failures::Failure;
use dav_store_core::StoreError;
use journal_core::{Header, Journal, JournalError, Reader};
use journal_file::open;
use sqlite_std_file::{FileFrom, Start};
use std::alloc::AllocError;
use std::fs::{self, File, OpenOptions, TryLockError};
use std::io::{self, ErrorKind};
use std::os::unix::fs::{MetadataExt, OpenOptionsExt};
use std::thread::sleep;
use std::time::Duration;
use store_files::{has_name, header_at, sync_folder};

// Who may read and write a file that is made: its owner alone.
const MODE: u32 = 0o600;

// So often a turn is asked for that another `take` has for a moment, and so many milliseconds lie between.
const TRIES: u32 = 100;

const PAUSE: u64 = 50;

/// Where a link at the path leads, where something stands there.
pub(crate) fn real_path(rt: &HostRuntime, path: &str) -> Result<String, Failure> {
    match fs::canonicalize(rt, path) {
        Ok(real) => Ok(real.into_string()),
        Err(error) if error.kind() == ErrorKind::NotFound => {
            Ok(String::from_str(rt.alloc(), path)?)
        }
        Err(error) => Err(Failure::from(error)),
    }
}

/// The header of the store at this path; none where nothing stands there, or it has none yet.
pub(crate) fn standing_header(
    rt: &HostRuntime,
    path: &str,
) -> Result<Option<Header>, JournalError> {
    match header_at(rt, path) {
        Err(JournalError::Failed(error)) if error.kind() == ErrorKind::NotFound => Ok(None),
        found => found,
    }
}

/// Under which name the file at this path stays, which is of this generation, once another file has its name.
pub(crate) fn before_of(
    rt: &HostRuntime,
    path: &str,
    generation: u64,
) -> Result<String, AllocError> {
    format!(in rt.alloc(); "{path}.before-{generation}")
}

/// Opens the copy at this path, which has this header, and at which it is the caller's turn. `Busy` where another program has it open, or has put another file in its place.
pub(crate) fn open_copy<S: Start>(
    rt: &HostRuntime,
    path: &str,
    header: Header,
    start: S,
) -> Result<(Journal<FileFrom<S>, ()>, Option<Reader>), Failure>
    ensures usable { IfOk result (λ r. IsTrue (file_is_usable S.Start (disk_behind r.0))) }
{
    mend(rt, path, header.generation)?;
    let found = fs::symlink_metadata(rt, path)?;
    let opened = open(rt, path, header, &(), start)?;
    if !has_name(rt, path, &found)? {
        return Err(Failure::from(JournalError::Busy));
    }
    Ok(opened)
}

// Takes away the second name of the file at this path, which a crash has left between the two steps of `give_name`. No file with two names is opened. Whoever calls this has its turn there.
fn mend(rt: &HostRuntime, path: &str, generation: u64) -> Result<(), Failure> {
    if fs::symlink_metadata(rt, path)?.nlink() < 2 {
        return Ok(());
    }
    let before = before_of(rt, path, generation)?;
    remove_second(rt, path, before.as_str())
}

// Removes this name of the file at the path, where it is one.
fn remove_second(rt: &HostRuntime, path: &str, second: &str) -> Result<(), Failure> {
    if !are_one(rt, path, second)? {
        return Ok(());
    }
    Ok(fs::remove_file(rt, second)?)
}

// Whether two names are those of one file.
fn are_one(rt: &HostRuntime, path: &str, second: &str) -> io::Result<bool> {
    let found = fs::symlink_metadata(rt, path)?;
    has_name(rt, second, &found)
}

/// The turn at the file at this path: while it is held no other `take` gives that another name. `Busy` where another one has it, or another program has put another file in its place.
pub(crate) fn take_turn(rt: &HostRuntime, path: &str) -> Result<File, Failure> {
    let file = File::open(rt, path)?;
    match file.try_lock() {
        Ok(()) => {}
        Err(TryLockError::WouldBlock) => return Err(Failure::from(JournalError::Busy)),
        Err(TryLockError::Error(error)) => return Err(Failure::from(error)),
    }
    if !has_name(rt, path, &file.metadata()?)? {
        return Err(Failure::from(JournalError::Busy));
    }
    Ok(file)
}

/// The same of a file that whoever calls this has open and locked: another `take` that begins lets go of it at once, so it is waited for.
pub(crate) fn turn_at_own(rt: &HostRuntime, path: &str) -> Result<File, Failure> {
    for _ in 0..TRIES {
        match take_turn(rt, path) {
            Err(Failure::Refused(StoreError::Journal(JournalError::Busy))) => {
                sleep(rt, Duration::from_millis(PAUSE));
            }
            turn => return turn,
        }
    }
    Err(Failure::from(JournalError::Busy))
}

/// The path of a copy where no store stands yet: a new file, at which it is whose turn it is that has this.
#[derive(Drop)]
pub(crate) struct Reserved {
    file: File,
    // Whether it was made for that.
    is_made: bool,
}

/// Takes the turn at the new file at the path, which is made where nothing stands there. `Busy` where another one has it, or has put a store there.
pub(crate) fn reserve(rt: &HostRuntime, path: &str) -> Result<Reserved, Failure> {
    let is_made = make(rt, path)?;
    let file = take_turn(rt, path)?;
    if standing_header(rt, path)?.is_some() {
        return Err(Failure::from(JournalError::Busy));
    }
    Ok(Reserved { file, is_made })
}

// Makes a file that has no byte; false where something stands there.
fn make(rt: &HostRuntime, path: &str) -> io::Result<bool> {
    match OpenOptions::new()
        .read(true)
        .write(true)
        .create_new(true)
        .mode(MODE)
        .open(rt, path)
    {
        Ok(_made) => Ok(true),
        Err(error) if error.kind() == ErrorKind::AlreadyExists => Ok(false),
        Err(error) => Err(error),
    }
}

/// Takes a reserved file away again, where it was made for that and has the name still.
pub(crate) fn give_up(rt: &HostRuntime, path: &str, reserved: &Reserved) -> io::Result<()> {
    if !reserved.is_made || !has_name(rt, path, &reserved.file.metadata()?)? {
        return Ok(());
    }
    fs::remove_file(rt, path)
}

/// Gives a file the name of the copy, which is on the disk then. The file that had it, which whoever calls this has locked, stays under the other name, where one is named. Where it can't have that, this
/// is told of it, the file is removed, and all stays as it was.
pub(crate) fn give_name(
    rt: &HostRuntime,
    file: &str,
    path: &str,
    before: Option<&str>,
) -> Result<(), Failure> {
    if let Some(before) = before
        && let Err(error) = keep(rt, path, before)
    {
        let _removed = fs::remove_file(rt, file);
        return Err(Failure::At(String::from_str(rt.alloc(), before)?, error));
    }
    if let Err(error) = fs::rename(rt, file, path) {
        if let Some(before) = before {
            remove_second(rt, path, before)?;
        }
        return Err(Failure::from(error));
    }
    Ok(sync_folder(rt, path)?)
}

// Gives the file at the path a second name. Another file that has it keeps it, and that is refused.
fn keep(rt: &HostRuntime, path: &str, before: &str) -> io::Result<()> {
    match fs::hard_link(rt, path, before) {
        Err(error) if error.kind() == ErrorKind::AlreadyExists => {
            if are_one(rt, path, before)? {
                return Ok(());
            }
            Err(error)
        }
        linked => linked,
    }
}
