//! How the file of a journal is opened.
ghost use Rattle.std.specs.Prelude.{IsTrue, IfOk};
ghost use Rattle.sqlite_std_file.specs.File.{file_is_usable};
ghost use Rattle.journal_core.specs.Resting.{disk_behind};
ghost use Rattle.journal_file.specs.JournalFiles.{IsMadeWith};

use journal_core::{Clocked, Header, Journal, JournalError, Reader, Stream};
use sqlite_disk::{Files, Start, is_no_room};
use sqlite_std_file::{FileFrom, OpenError};
use std::fs::{self, OpenOptions};
use std::io::{self, ErrorKind};
use std::os::unix::fs::OpenOptionsExt;

/// Who may read and write a file that is made: its owner alone.
const MODE: u32 = 0o600;

/// Opens the journal in the file at this path, and keeps it locked until the journal is dropped. Where the file is new, or was not there, it is made with this header, and the journal is open:
/// then there is no reader. Else the reader is to be read to its end by `Journal::read`, and then the journal is open.
///
/// - `Foreign`: what stands there is no regular file, or is neither new nor begins as a journal. `Unsupported`: it is a journal of a later version, or has flags that are not known.
///   `Damaged`: it begins as a journal, and has no whole header. In these three cases nothing was changed or made, neither there nor beside it.
/// - `Busy`: another process has the file open, or this one has; or another process has put another file in its place meanwhile.
/// - `Failed`: a call of the system failed. So it is also where the file has a second name, or a rollback journal of SQLite beside it, and where something that is not a regular file has the
///   name of the log that the kit makes, which is PATH-wal. `Full`: the disk has no room for the header.
/// - `OutOfMemory`: there is no memory.
///
/// The name of the file is on the disk, too, before the first record is read or appended: the kit syncs its folder.
///
/// What is proved of the journal holds under the premises of the kit's `sqlite_std_file`: no other code touches the file while it is open, this program's own included; after a crash it holds
/// one of the contents that the model allows by the reading that `S` names; and a value of each `S` is taken once. Two files that were opened under one `S` could be shown to disagree, and all
/// clauses would then say nothing. So a process opens one path once, and takes a `Start` of its own for each journal.
pub fn open<S: Start, B>(
    rt: &HostRuntime,
    path: &str,
    header: Header,
    note: &B,
    start: S,
) -> Result<(Journal<FileFrom<S>, B>, Option<Reader>), JournalError>
    ensures usable { IfOk result (λ r. IsTrue (file_is_usable S.Start (disk_behind r.0))) }
    ensures made { IfOk result (λ r. IsMadeWith S.Start header r.0 r.1) }
{
    let db = open_file(rt, path, start)?;
    let mut journal = Journal::new(Clocked::new(db));
    let reader = journal.start(rt.alloc(), note, header)?;
    let own = match &reader {
        Some(reader) => reader.header(),
        None => header,
    };
    match look(rt, path)? {
        Some(found) if found == own => Ok((journal, reader)),
        _ => Err(JournalError::Busy),
    }
}

/// Opens the file of a journal at this path as a disk, and keeps it locked until that is dropped; its header is not read under the lock (own). Where the file was not there, it is made without a byte. Its
/// errors, and its premises, are those of `open`.
pub fn open_file<S: Start>(
    rt: &HostRuntime,
    path: &str,
    start: S,
) -> Result<FileFrom<S>, JournalError>
    ensures usable { IfOk result (λ db. IsTrue (file_is_usable S.Start db)) }
{
    find(rt, path)?;
    let Files { log, db } = sqlite_std_file::open(rt, path, start).map_err(told)?;
    drop(log);
    let _removed = remove_log(rt, path);
    Ok(db)
}

// Finds a file that is new or begins as a journal, or makes one that has no byte.
fn find(rt: &HostRuntime, path: &str) -> Result<(), JournalError> {
    match fs::metadata(rt, path) {
        Ok(found) if !found.is_file() => Err(JournalError::Foreign),
        Ok(_) => {
            look(rt, path)?;
            Ok(())
        }
        Err(error) if error.kind() == ErrorKind::NotFound => make(rt, path).map_err(failed),
        Err(error) => Err(failed(error)),
    }
}

// Reads the header of the file that has this name, without a lock and by no disk; none where it is new.
fn look(rt: &HostRuntime, path: &str) -> Result<Option<Header>, JournalError> {
    let file = fs::open(rt, path).map_err(failed)?;
    let mut source = Stream::new(file);
    match Reader::begin(rt.alloc(), &mut source, &())? {
        Some(reader) => Ok(Some(reader.header())),
        None => Ok(None),
    }
}

// Makes a file that has no byte. Where something has this name by now, that fails.
fn make(rt: &HostRuntime, path: &str) -> io::Result<()> {
    let file = OpenOptions::new()
        .read(true)
        .write(true)
        .create_new(true)
        .mode(MODE)
        .open(rt, path)?;
    drop(file);
    Ok(())
}

// Removes the log beside the file, where it is a regular file and has no byte. It stands where a link at the path leads.
fn remove_log(rt: &HostRuntime, path: &str) -> io::Result<()> {
    let mut log = fs::canonicalize(rt, path)?.into_string();
    log.push_str("-wal")?;
    let found = fs::symlink_metadata(rt, log.as_str())?;
    if found.is_file() && found.len() == 0 {
        fs::remove_file(rt, log.as_str())?;
    }
    Ok(())
}

// What the kit could not open.
fn told(error: OpenError) -> JournalError {
    match error {
        OpenError::Busy => JournalError::Busy,
        OpenError::OutOfMemory => JournalError::OutOfMemory,
        OpenError::Io(error) => failed(error),
        OpenError::HotJournal => JournalError::Failed(ErrorKind::Unsupported.into()),
    }
}

// A call of the system that failed.
fn failed(error: io::Error) -> JournalError {
    if error.kind() == ErrorKind::OutOfMemory {
        return JournalError::OutOfMemory;
    }
    if is_no_room(&error) {
        return JournalError::Full;
    }
    JournalError::Failed(error)
}
