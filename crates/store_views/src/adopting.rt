//! Adopting: the gate is shut of a round that a copy has not whole.
ghost use Rattle.std.specs.Prelude.{◌≡◌, Ok, true, false, IsTrue};
ghost use Rattle.journal_copies.specs.DiskLooks.{LooksAt, disk_in};
ghost use Rattle.store_views.specs.Adopted.{IsAdopted};

use crate::looking::Broken;
use dav_store_core::StoreError;
use journal_copies::{Looking, find_break, shut};
use journal_core::{Clocked, Header, JournalError};
use journal_file::open_file;
use sqlite_disk::Disk;
use sqlite_std_file::Wary;
use std::alloc::Global;
use std::io::{BufRead, BufReader, BufWriter, Write};
use store_copies::{Failure, Tail};
use store_files::header_at;

// How many bytes are read at once.
const BUFFER: usize = 64 * 1024;

/// A place at which a file is broken, and nothing whole stands behind it (own).
#[derive(Clone, Copy)]
pub struct End {
    /// The gate there.
    pub place: u64,
    /// How many records stand before it.
    pub records: u64,
    /// How many bytes stand from it on.
    pub behind: u64,
}

/// Where the file is broken and may be adopted (own); else why it may not is told.
pub fn end_of<O: Write + Drop>(
    rt: &HostRuntime,
    path: &str,
    broken: &Broken,
    output: &mut BufWriter<O>,
) -> Result<Option<End>, Failure> {
    let place = broken.bytes;
    let Some(header) = header_of(rt, path)? else {
        return Ok(None);
    };
    if !is_at_gate(&broken.error, place) {
        return Ok(None);
    }
    let mut tail = Tail::of(rt, path, header.key, place)?;
    if tail.next_round()?.is_some() {
        writeln!(output, "not adopted: whole rounds stand behind it")?;
        return Ok(None);
    }
    if broken.records == 0 {
        writeln!(output, "not adopted: no record stands before it")?;
        return Ok(None);
    }
    Ok(Some(End {
        place,
        records: broken.records,
        behind: tail.len(),
    }))
}

// Whether no whole round stands at this gate.
fn is_at_gate(error: &StoreError, place: u64) -> bool {
    match error {
        StoreError::Journal(JournalError::Damaged(at)) => *at == place && place > 0,
        _ => false,
    }
}

/// The header of the file at this path (own); none where it has none.
pub fn header_of(rt: &HostRuntime, path: &str) -> Result<Option<Header>, Failure> {
    match header_at(rt, path) {
        Ok(found) => Ok(found),
        Err(JournalError::Foreign | JournalError::Unsupported | JournalError::Damaged(_)) => Ok(
            None,
        ),
        Err(error) => Err(Failure::from(error)),
    }
}

/// Asks on standard error whether it is to be done (own); only `yes` says so.
pub fn is_wanted(rt: &HostRuntime, path: &str, end: &End) -> Result<bool, Failure> {
    let End {
        place,
        records,
        behind,
    } = end;
    write!(
        rt.stderr(),
        "{path}: the gate at byte {place} is shut, so that the store has the {records} records before it, and nothing of the {behind} bytes from there on is ever read. Type yes: "
    )?;
    let mut input = BufReader::with_capacity(rt.alloc(), BUFFER, rt.stdin())?;
    let mut line = Vec::new(rt.alloc());
    input.read_until(b'\n', &mut line)?;
    Ok(line.as_slice() == b"yes\n".as_slice() || line.as_slice() == b"yes".as_slice())
}

/// Shuts the gate, and tells so (own). The file is locked meanwhile, and read once more before.
pub fn adopt<O: Write + Drop>(
    rt: &HostRuntime,
    path: &str,
    end: &End,
    output: &mut BufWriter<O>,
) -> Result<bool, Failure> {
    if shut_in(rt, path, end)? {
        writeln!(
            output,
            "adopted: {} records, {} bytes",
            end.records, end.place
        )?;
        return Ok(true);
    }
    writeln!(output, "not adopted: it has changed")?;
    Ok(false)
}

// Shuts the gate in the file at this path, where that is still broken there.
fn shut_in(rt: &HostRuntime, path: &str, end: &End) -> Result<bool, Failure> {
    let mut file = Looking::new(Clocked::new(open_file(rt, path, Wary)?));
    shut_there(rt.alloc(), &mut file, end)
}

// Shuts the gate, where the file is still broken there; false where it isn't, and then nothing is changed.
fn shut_there<D: Disk>(alloc: Global, file: &mut Looking<D, ()>, end: &End) -> Result<bool, Failure>
    requires usable { IsTrue (D.Disk.is_usable (disk_in file.old)) }
    // The file was broken there behind some rounds; it has these now, on its disk, and all but the eight bytes of the gate stays.
    ensures adopts { result ≡ Ok true → LooksAt D.Disk.seen D.Disk.is_clean file.old (D.Disk.seen (disk_in file.old)) 0 → IsTrue (D.Disk.is_clean (disk_in file.new))
        → IsAdopted D.Disk.seen D.Disk.may_leave end.now.place file.old file.new }
    ensures stays { result ≡ Ok false → D.Disk.seen (disk_in file.new) ≡ D.Disk.seen (disk_in file.old) }
{
    let Some(broken) = find_break(alloc, file, &())? else {
        return Ok(false);
    };
    if broken.place as u64 != end.place || broken.records != end.records {
        return Ok(false);
    }
    shut(file, &(), &broken)?;
    Ok(true)
}
