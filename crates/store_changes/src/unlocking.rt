//! Unlocking: a lock of the stores of a file is ended, while no server runs.
ghost use Rattle.std.specs.Prelude.{IsTrue};
ghost use Rattle.journal_core.specs.Resting.{disk_behind};

use crate::ending::{Unended, end_lock};
use crate::importing::{read_all, stand, tell_empty};
use journal_core::{Journal, Reader, Round};
use journal_file::open;
use sqlite_disk::Disk;
use sqlite_std_file::Wary;
use std::alloc::AllocError;
use std::io::{BufWriter, Write};
use store_copies::Failure;
use store_files::{header_of, now};

/// Ends the lock with this token in the stores of the file at this path (own), and tells so; else why not. Whether it was ended: its record is on the disk then.
///
/// - `Refused`: the file of stores is broken, or is none, or another program has it open.
/// - `Unkept`: the record could not be appended. `Failed`: a call of the system failed, or there is no memory, or no file is there.
pub fn unlock<O: Write + Drop>(
    rt: &HostRuntime,
    path: &str,
    token: &str,
    output: &mut BufWriter<O>,
) -> Result<bool, Failure> {
    if !stand(rt, path, None, output)? {
        return Ok(false);
    }
    let header = header_of(rt, 0, 0)?;
    let (mut journal, found) = open(rt, path, header, &(), Wary)?;
    let Some(mut reader) = found else {
        tell_empty(path, output)?;
        return Ok(false);
    };
    unlock_in(rt, path, &mut journal, &mut reader, token, output)
}

// Ends the lock in the stores that the journal keeps.
fn unlock_in<D: Disk, O: Write + Drop>(
    rt: &HostRuntime,
    path: &str,
    journal: &mut Journal<D, ()>,
    reader: &mut Reader,
    token: &str,
    output: &mut BufWriter<O>,
) -> Result<bool, Failure>
    requires usable { IsTrue (D.Disk.is_usable (disk_behind journal.old)) }
{
    let mut opened = read_all(rt, path, journal, reader)?;
    let clock = now(rt)?;
    let mut round = Round::new(rt.alloc());
    match end_lock(rt.alloc(), &mut opened, &mut round, token, clock) {
        Ok(()) => {}
        Err(Unended::OutOfMemory) => return Err(Failure::from(AllocError)),
        Err(Unended::NoLock) => {
            writeln!(output, "there is no such lock")?;
            return Ok(false);
        }
        Err(Unended::NoMoment) => {
            writeln!(output, "no moment comes behind the last one")?;
            return Ok(false);
        }
    }
    match journal.append(&(), &round) {
        Ok(()) => writeln!(output, "unlocked: {token}")?,
        Err(error) => return Err(Failure::Unkept(error)),
    }
    Ok(true)
}
