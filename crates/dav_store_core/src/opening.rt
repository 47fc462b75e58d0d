//! How the stores that a journal keeps are read from it.
ghost use Rattle.std.specs.Prelude.{◌≡◌, ◌+◌, ◌^◌, ◌≤◌, ℕ, [], Ok, Err, true, false};
ghost use Rattle.std.specs.Prelude.{IsTrue, IsFalse, IfErr, IfOk, OnOk, length};
ghost use Rattle.sqlite_disk.specs.Disk.{MoreFaults, Only};
ghost use Rattle.journal_core.specs.declared.header.Header.{Header};
ghost use Rattle.journal_core.specs.JournalReading.{HasEnded, header_of};
ghost use Rattle.journal_core.specs.Resting.{IsBeingRead, disk_behind, header_in, is_ready};
ghost use Rattle.dav_store_core.specs.Loading.{HasLoadCause, IsAtFault, IsDamage, IsLoaded, IsLoading};
ghost use Rattle.dav_store_core.specs.Loading.{StandsForNone, StopsThere, WritesNothing};

use crate::error::StoreError;
use crate::opened::{Opened, Setback, take_record};
use journal_core::{Journal, JournalError, Reader};
use sqlite_disk::Disk;
use std::alloc::Global;

/// Is told how far a journal was read (own).
pub trait Watch {
    /// The file was read up to this byte.
    fn has_read(&mut self, place: usize);
}

/// Reads a journal to its end, and plays each record behind the one before, from a root folder
/// alone, at the moment that the header names, or in a compacted store from the snapshot in front
/// (own). Then the journal is open. Before each record the watch is told how far the file was read.
///
/// - `Damaged`: the record with that number, counted from 0, is none; or a note of it is of a moment
///   before the last one, or cannot be done, with any memory. With 0 also where a compacted store
///   has no snapshot in front.
/// - `Journal`: the journal is not read, as `Journal::read` says; or there is no memory. `TooLarge`:
///   the file is longer than 2^64 bytes.
pub fn load<D: Disk, B, W: Watch>(
    alloc: Global,
    journal: &mut Journal<D, B>,
    reader: &mut Reader,
    note: &B,
    watch: &mut W,
) -> Result<Opened, StoreError>
    requires usable { IsTrue (D.Disk.is_usable (disk_behind journal.old)) }
    // The stores are those that the file stands for, unless a read of the disk lied.
    ensures stands { IfOk result (λ o.
        IsBeingRead D.Disk.seen D.Disk.is_clean journal.old reader.old []
        → IsTrue (D.Disk.is_clean (disk_behind journal.new))
        → Only (D.Disk.seen (disk_behind journal.old)) (D.Disk.may_leave (disk_behind journal.old))
        → IsLoaded D.Disk.seen D.Disk.may_leave D.Disk.is_clean journal.new
        (header_of reader.old) o.stores o.last.0) }
    // A file that stands for stores is never refused for what it holds.
    ensures damaged { IfErr result (λ e. IsDamage e
        → IsBeingRead D.Disk.seen D.Disk.is_clean journal.old reader.old []
        → IsTrue (D.Disk.is_clean (disk_behind journal.new))
        → StandsForNone (header_of reader.old) (D.Disk.seen (disk_behind journal.old))) }
    // The number is that of the first record that cannot be done, or that of the snapshot which a
    // compacted store lacks; and the journal's errors are those of its reading.
    ensures cause { IfErr result (λ e.
        IsBeingRead D.Disk.seen D.Disk.is_clean journal.old reader.old []
        → HasLoadCause (MoreFaults (D.Disk.faults (disk_behind journal.old))
        (D.Disk.faults (disk_behind journal.new))) (IsAtFault
        (IsBeingRead D.Disk.seen D.Disk.is_clean journal.new reader.new)
        (IsTrue (D.Disk.is_clean (disk_behind journal.new))
        → HasEnded reader.new (D.Disk.seen (disk_behind journal.new)) [])
        (header_of reader.old)) e) }
    ensures large { result ≡ Err (StoreError.Journal JournalError.TooLarge)
        → IsBeingRead D.Disk.seen D.Disk.is_clean journal.old reader.old []
        → IsTrue (D.Disk.is_clean (disk_behind journal.new))
        → 2 ^ 64 ≤ length (D.Disk.seen (disk_behind journal.old)) }
    ensures ready { OnOk result (IsTrue (is_ready journal.new)) }
    ensures header { OnOk result (IsBeingRead D.Disk.seen D.Disk.is_clean journal.old reader.old []
        → header_in journal.new ≡ header_of reader.old) }
    ensures nothing { WritesNothing D.Disk.seen D.Disk.may_leave D.Disk.is_clean note.now
        journal.old journal.new }
    ensures usable { IsTrue (D.Disk.is_usable (disk_behind journal.new)) }
{
    watch.has_read(reader.place());
    let (mut opened, first) = Opened::begin(alloc, journal, reader, note)?;
    // A loop is proved to end, so this one counts its turns.
    'loading: for number in first..u64::MAX {
        watch.has_read(reader.place());
        if !load_next(alloc, journal, reader, note, &mut opened, number)? {
            return Ok(opened);
        }
    }
    Err(StoreError::Journal(JournalError::TooLarge))
}

// Reads the next record, which has this number, and plays it. False at the end of the journal.
fn load_next<D: Disk, B>(
    alloc: Global,
    journal: &mut Journal<D, B>,
    reader: &mut Reader,
    note: &B,
    opened: &mut Opened,
    number: u64,
) -> Result<bool, StoreError>
    requires usable { IsTrue (D.Disk.is_usable (disk_behind journal.old)) }
    ensures on { result ≡ Ok true → (h : Header)
        → IsLoading D.Disk.seen D.Disk.is_clean journal.old reader.old h number
        opened.old.stores opened.old.last.0
        → IsLoading D.Disk.seen D.Disk.is_clean journal.new reader.new h (number + 1)
        opened.new.stores opened.new.last.0 }
    ensures ends { result ≡ Ok false → (h : Header)
        → IsLoading D.Disk.seen D.Disk.is_clean journal.old reader.old h number
        opened.old.stores opened.old.last.0
        → IsTrue (D.Disk.is_clean (disk_behind journal.new))
        → Only (D.Disk.seen (disk_behind journal.old)) (D.Disk.may_leave (disk_behind journal.old))
        → IsLoaded D.Disk.seen D.Disk.may_leave D.Disk.is_clean journal.new h
        opened.new.stores opened.new.last.0 }
    ensures damaged { IfErr result (λ e. IsDamage e → (h : Header)
        → IsLoading D.Disk.seen D.Disk.is_clean journal.old reader.old h number
        opened.old.stores opened.old.last.0
        → IsTrue (D.Disk.is_clean (disk_behind journal.new))
        → StandsForNone h (D.Disk.seen (disk_behind journal.old))) }
    ensures cause { IfErr result (λ e. (h : Header)
        → IsLoading D.Disk.seen D.Disk.is_clean journal.old reader.old h number
        opened.old.stores opened.old.last.0
        → HasLoadCause (MoreFaults (D.Disk.faults (disk_behind journal.old))
        (D.Disk.faults (disk_behind journal.new))) (StopsThere
        (IsBeingRead D.Disk.seen D.Disk.is_clean journal.new reader.new) h) e) }
    ensures large { result ≡ Err (StoreError.Journal JournalError.TooLarge) → (h : Header)
        → IsLoading D.Disk.seen D.Disk.is_clean journal.old reader.old h number
        opened.old.stores opened.old.last.0
        → IsTrue (D.Disk.is_clean (disk_behind journal.new))
        → 2 ^ 64 ≤ length (D.Disk.seen (disk_behind journal.old)) }
    ensures ready { result ≡ Ok false → IsTrue (is_ready journal.new) }
    ensures header { result ≡ Ok false → IsFalse (is_ready journal.old)
        → header_in journal.new ≡ header_of reader.old }
    ensures begun { header_of reader.new ≡ header_of reader.old }
    ensures faults { D.Disk.faults (disk_behind journal.old)
        ≤ D.Disk.faults (disk_behind journal.new) }
    ensures nothing { WritesNothing D.Disk.seen D.Disk.may_leave D.Disk.is_clean note.now
        journal.old journal.new }
    ensures usable { IsTrue (D.Disk.is_usable (disk_behind journal.new)) }
{
    if !journal.read(reader, note)? {
        return Ok(false);
    }
    match take_record(alloc, opened, reader.record()) {
        Ok(()) => Ok(true),
        Err(Setback::Memory) => Err(StoreError::Journal(JournalError::OutOfMemory)),
        Err(Setback::Damage) => Err(StoreError::Damaged(number)),
    }
}
