//! Putting a new file in the place of a copy, and appending what was read.
ghost use Rattle.std.specs.Prelude.{◌≡◌, ◌++◌, [], ◌∷◌, List, ℕ, IsTrue, IfOk, OnOk};
ghost use Rattle.sqlite_std_file.specs.File.{file_is_usable};
ghost use Rattle.journal_core.specs.Resting.{IsSettled, disk_behind};
ghost use Rattle.journal_file.specs.JournalFiles.{file_is_clean, file_may_leave, file_seen};
ghost use Rattle.journal_copies.specs.ReadRounds.{HoldRecords, bytes_of_each, records_of_all};
ghost use Rattle.store_copies.specs.TakenRounds.{HasRoundAlone};

use crate::failures::Failure;
use crate::naming::{before_of, give_name, give_up, reserve};
use journal_copies::append_rounds;
use journal_core::{Header, Journal};
use journal_file::open;
use sqlite_disk::Disk;
use sqlite_std_file::{FileFrom, Start};
use std::alloc::{AllocError, Global};
use std::io::{self, ErrorKind, Write};
use store_files::{clear, draft_of, make_like};

/// Puts a file with its first round at the path, in place of the one that has this header, or where there is none.
pub(crate) fn put_file<S: Start>(
    rt: &HostRuntime,
    real: &str,
    had: Option<Header>,
    header: Header,
    round: &[u8],
    start: S,
) -> Result<Journal<FileFrom<S>, ()>, Failure>
    ensures usable { IfOk result (λ journal. IsTrue (file_is_usable S.Start (disk_behind journal))) }
    ensures taken { IfOk result (λ journal. HasRoundAlone (file_seen S.Start) (file_may_leave S.Start) (file_is_clean S.Start) journal round.now) }
{
    match had {
        Some(old) => replace(rt, real, old, header, round, start),
        None => put_first(rt, real, header, round, start),
    }
}

// Puts the file at the path where no store stands.
fn put_first<S: Start>(
    rt: &HostRuntime,
    real: &str,
    header: Header,
    round: &[u8],
    start: S,
) -> Result<Journal<FileFrom<S>, ()>, Failure>
    ensures usable { IfOk result (λ journal. IsTrue (file_is_usable S.Start (disk_behind journal))) }
    ensures taken { IfOk result (λ journal. HasRoundAlone (file_seen S.Start) (file_may_leave S.Start) (file_is_clean S.Start) journal round.now) }
{
    let draft = draft_of(rt, real, header.key, header.generation)?;
    let reserved = reserve(rt, real)?;
    match write_beside(rt, real, draft.as_str(), None, header, round, start) {
        Ok(journal) => Ok(journal),
        Err(error) => {
            let _given_up = give_up(rt, real, &reserved);
            Err(error)
        }
    }
}

// Puts the file at the path in place of the one that has this header, which stays under another name; that is told.
fn replace<S: Start>(
    rt: &HostRuntime,
    real: &str,
    old: Header,
    header: Header,
    round: &[u8],
    start: S,
) -> Result<Journal<FileFrom<S>, ()>, Failure>
    ensures usable { IfOk result (λ journal. IsTrue (file_is_usable S.Start (disk_behind journal))) }
    ensures taken { IfOk result (λ journal. HasRoundAlone (file_seen S.Start) (file_may_leave S.Start) (file_is_clean S.Start) journal round.now) }
{
    let draft = draft_of(rt, real, old.key, header.generation)?;
    let before = before_of(rt, real, old.generation)?;
    let kept = Some(before.as_str());
    let journal = write_beside(rt, real, draft.as_str(), kept, header, round, start)?;
    writeln!(rt.stdout(), "kept: {before}")?;
    Ok(journal)
}

// Writes the first round into a draft beside the path, and gives it the name, which is on the disk then. What had the name stays under this one, where there is one.
fn write_beside<S: Start>(
    rt: &HostRuntime,
    real: &str,
    draft: &str,
    before: Option<&str>,
    header: Header,
    round: &[u8],
    start: S,
) -> Result<Journal<FileFrom<S>, ()>, Failure>
    ensures usable { IfOk result (λ journal. IsTrue (file_is_usable S.Start (disk_behind journal))) }
    ensures taken { IfOk result (λ journal. HasRoundAlone (file_seen S.Start) (file_may_leave S.Start) (file_is_clean S.Start) journal round.now) }
{
    make_beside(rt, real, draft, header)?;
    let (mut journal, found) = open(rt, draft, header, &(), start)?;
    if found.is_some() {
        return Err(in_the_way(rt, draft)?);
    }
    append_beside(rt, real, draft, before, &mut journal, round)?;
    Ok(journal)
}

// Makes the draft, without a byte.
fn make_beside(rt: &HostRuntime, real: &str, draft: &str, header: Header) -> Result<(), Failure> {
    clear(rt, draft, header.began, header.generation)?;
    Ok(make_like(rt, real, draft)?)
}

// What is told of a path at which something stands in the way.
fn in_the_way(rt: &HostRuntime, path: &str) -> Result<Failure, AllocError> {
    let error = io::Error::from(ErrorKind::AlreadyExists);
    Ok(Failure::At(String::from_str(rt.alloc(), path)?, error))
}

// Appends the first round, and then gives the new file its name.
fn append_beside<D: Disk>(
    rt: &HostRuntime,
    real: &str,
    draft: &str,
    before: Option<&str>,
    journal: &mut Journal<D, ()>,
    round: &[u8],
) -> Result<(), Failure>
    requires usable { IsTrue (D.Disk.is_usable (disk_behind journal.old)) }
    requires anew { IsTrue (D.Disk.is_clean (disk_behind journal.old)) → IsSettled D.Disk.seen D.Disk.may_leave D.Disk.is_clean journal.old [] }
    ensures taken { OnOk result (HasRoundAlone D.Disk.seen D.Disk.may_leave D.Disk.is_clean journal.new round.now) }
    ensures usable { OnOk result (IsTrue (D.Disk.is_usable (disk_behind journal.new))) }
{
    append_read(rt.alloc(), journal, round, &[])?;
    put_in_place(rt, real, draft, before, journal, round)
}

// Gives the draft the name of the copy, once its first round is on the disk.
fn put_in_place<D: Disk>(
    rt: &HostRuntime,
    real: &str,
    draft: &str,
    before: Option<&str>,
    _journal: &Journal<D, ()>,
    _round: &[u8],
) -> Result<(), Failure>
    requires { HasRoundAlone D.Disk.seen D.Disk.may_leave D.Disk.is_clean _journal.now _round.now }
{
    give_name(rt, draft, real, before)
}

/// Appends a round that was read to a journal that is open, and those behind it, so that their records stand behind those that it has, on its disk.
pub(crate) fn append_read<D: Disk>(
    alloc: Global,
    journal: &mut Journal<D, ()>,
    first: &[u8],
    more: &[Vec<u8>],
) -> Result<(), Failure>
    requires usable { IsTrue (D.Disk.is_usable (disk_behind journal.old)) }
    ensures taken { OnOk result ((records : List (List ℕ)) (new : List (List (List ℕ))) → IsSettled D.Disk.seen D.Disk.may_leave D.Disk.is_clean journal.old records
        → HoldRecords (first.now ∷ bytes_of_each more.now) new → IsSettled D.Disk.seen D.Disk.may_leave D.Disk.is_clean journal.new (records ++ records_of_all new)) }
    ensures clean { D.Disk.is_clean (disk_behind journal.new) ≡ D.Disk.is_clean (disk_behind journal.old) }
    ensures usable { OnOk result (IsTrue (D.Disk.is_usable (disk_behind journal.new))) }
{
    if !append_rounds(alloc, journal, &(), first, more)? {
        return Err(Failure::from(io::Error::from(ErrorKind::InvalidData)));
    }
    Ok(())
}
