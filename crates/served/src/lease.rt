//! The lease of a store's file that several machines can open: whoever had the file before has stopped by the time at which it is read.
ghost use Rattle.std.specs.Prelude.{IsTrue, OnOk};
ghost use Rattle.journal_core.specs.Resting.{disk_behind};

use crate::stopped::Stopped;
use crate::streams::Streams;
use http_frames::frames::{Frames, Head, write_touched};
use http_frames::serving::End;
use journal_core::{Journal, JournalError};
use line_streams::Fault;
use sqlite_disk::Disk;
use std::alloc::AllocError;
use std::fs::{self, File};
use std::io::{self, Read, Write};
use std::str;
use store_files::sync_folder;

// The longest lease, in seconds. One that isn't known may be as long.
const LONGEST: u64 = 60;

/// Tells the listener the lease of whoever had this file last, waits until it says that this one is over, and notes the new one beside the file, unless it stands there already (own). The file is locked.
///
/// - `Ended`: the input ended before, or another frame came.
/// - `Refused`: the new lease could not be noted. `Stream`: a stream failed, or there is no memory.
pub(crate) fn wait_for<I: Read, O: Write>(
    rt: &HostRuntime,
    path: &str,
    seconds: u64,
    streams: &mut Streams<I, O>,
) -> Result<(), Stopped> {
    let name = beside(rt, path, "lease")?;
    let standing = standing_lease(rt, name.as_str());
    let last = standing.unwrap_or(LONGEST);
    writeln!(streams.output, "locked {last}")?;
    streams.output.flush()?;
    take_frame(&mut streams.frames, Head::Go)?;
    if standing == Some(seconds) {
        return Ok(());
    }
    note(rt, path, name.as_str(), seconds).map_err(failed)
}

/// Touches the file behind the first frame that asks for it, and tells that for each one that has come by then (own).
///
/// - `Ended`: the input ended before, or another frame came.
/// - `Unkept`: the file can't be written. `Stream`: a stream failed.
pub(crate) fn touch_first<D: Disk, I: Read, O: Write>(
    streams: &mut Streams<I, O>,
    journal: &mut Journal<D, O>,
) -> Result<(), Stopped>
    requires usable { IsTrue (D.Disk.is_usable (disk_behind journal.old)) }
    ensures usable { OnOk result (IsTrue (D.Disk.is_usable (disk_behind journal.new))) }
{
    take_frame(&mut streams.frames, Head::Touch)?;
    let more = take_all(&mut streams.frames);
    journal.touch(&streams.output).map_err(Stopped::Unkept)?;
    tell_touched(&mut streams.output, more.saturating_add(1))
}

// Tells so many times that the file was touched.
fn tell_touched<O: Write>(output: &mut O, count: u64) -> Result<(), Stopped> {
    'telling: for _touch in 0..count {
        write_touched(output)?;
    }
    Ok(())
}

// Takes the next frame, which has to be this one.
fn take_frame<I: Read>(frames: &mut Frames<I>, wanted: Head) -> Result<(), Stopped> {
    // A loop is proved to end, so this one counts its turns.
    for _step in 0..u64::MAX {
        if let Some(frame) = frames.next() {
            if frame.head != Some(wanted) {
                return Err(Stopped::Ended(End::Wrong));
            }
            let length = frame.length;
            frames.skip(length);
            return Ok(());
        }
        if !frames.read()? {
            return Err(Stopped::Ended(if frames.is_empty() {
                End::Whole
            } else {
                End::Cut
            }));
        }
    }
    Err(Stopped::Stream(Fault::Io))
}

// Takes each frame that was read and asks for a touch. How many there were.
fn take_all<I: Read>(frames: &mut Frames<I>) -> u64 {
    for count in 0..u64::MAX - 1 {
        let Some(frame) = frames.next() else {
            return count;
        };
        if frame.head != Some(Head::Touch) {
            return count;
        }
        let length = frame.length;
        frames.skip(length);
    }
    0
}

// How many seconds the lease had that stands there; none where that isn't told.
fn standing_lease(rt: &HostRuntime, name: &str) -> Option<u64> {
    let text = fs::read(rt, name).ok()?;
    seconds_in(&text)
}

// The seconds of a lease: a number of at most two digits, with a line feed behind it.
fn seconds_in(text: &[u8]) -> Option<u64> {
    let line = str::from_utf8(text).ok()?;
    let seconds: u64 = line.strip_suffix('\n')?.parse().ok()?;
    if seconds == 0 || seconds > LONGEST {
        return None;
    }
    Some(seconds)
}

// Puts the lease on the disk: it stands there whole, or as it was before.
fn note(rt: &HostRuntime, path: &str, name: &str, seconds: u64) -> io::Result<()> {
    let draft = beside(rt, path, "lease-draft")?;
    let mut file = File::create(rt, draft.as_str())?;
    writeln!(file, "{seconds}")?;
    file.sync_all()?;
    fs::rename(rt, draft.as_str(), name)?;
    sync_folder(rt, path)
}

// The name of a file that stands beside that of the store.
fn beside(rt: &HostRuntime, path: &str, what: &str) -> Result<String, AllocError> {
    format!(in rt.alloc(); "{path}.{what}")
}

fn failed(error: io::Error) -> Stopped {
    Stopped::from(JournalError::Failed(error))
}
