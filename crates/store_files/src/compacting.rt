//! Compacting a store: its file is written anew, as a snapshot of what stands in it, and takes the place of the old one.
ghost use Rattle.std.specs.Prelude.{◌≡◌, ◌<◌, ◌-◌, ◌^◌, ◌⊎◌, ℕ, [], false, IsTrue, IfOk, OnOk};
ghost use Rattle.sqlite_std_file.specs.File.{file_is_usable};
ghost use Rattle.journal_core.specs.declared.header.Header.{Header};
ghost use Rattle.journal_core.specs.Resting.{disk_behind, header_in};
ghost use Rattle.journal_file.specs.JournalFiles.{file_is_clean, file_may_leave, file_seen};
ghost use Rattle.dav_store_core.specs.Compacting.{IsMadeAnew};
ghost use Rattle.dav_guarded_core.specs.Stores.{Stores};
ghost use Rattle.dav_snapshots_core.specs.WrittenSnapshots.{HasPaths};
ghost use Rattle.dav_store_core.specs.Loading.{IsLoaded};
ghost use Rattle.store_files.specs.WrittenStores.{IsOnDisk, IsReadAs};

use crate::error::Uncompacted;
use crate::placing::{
    clear, clear_log, draft_of, find_free, header_at, in_the_way, is_new, make_like, sync_folder,
};
use dav_store_core::{Opened, StoreError, Watch, compact, load};
use journal_core::{Header, Journal, Reader};
use journal_file::open;
use sqlite_disk::Disk;
use sqlite_std_file::{FileFrom, Start, Wary};
use std::alloc::Global;
use std::fs;
use std::hash::{BuildHasher, RandomState};
use std::io::{self, ErrorKind};

/// A file that was compacted (own).
#[derive(Drop)]
pub struct Compacted<S: Start, B> {
    /// The new file, which is open, and locked.
    pub journal: Journal<FileFrom<S>, B>,
    /// Its header.
    pub header: Header,
    /// How many bytes the old file had.
    pub before: u64,
    /// How many it has.
    pub now: u64,
}

// How long a file was, and how long it is once it was compacted.
#[derive(Clone, Copy)]
struct Lengths {
    // How many bytes it had.
    before: u64,
    // How many it has.
    now: u64,
}

/// What is supposed of the new file as it is opened: it has no byte (own).
#[derive(Drop)]
pub struct Anew;

impl Start for Anew {
    ghost log = { [] };

    ghost db = { [] };

    ghost is_mixing = { false };

    fn mixes() -> bool {
        false
    }
}

/// Compacts the file at this path, as `compact_opened` does, while no server runs, and gives the new one (own). The file is locked
/// meanwhile. Where a link stands at the path, that is done where it leads.
///
/// - `Store`: the old file is refused, as `load` says, or another program has it open.
/// - `New`: it has no record yet.
/// - And as `compact_opened` says.
pub fn compact_file<S: Start>(
    rt: &HostRuntime,
    path: &str,
    start: S,
) -> Result<Compacted<S, ()>, Uncompacted>
    ensures usable { IfOk result (λ made. IsTrue (file_is_usable S.Start (disk_behind made.journal))) }
{
    let real = fs::canonicalize(rt, path)?;
    if is_new(rt, real.as_str())? {
        return Err(Uncompacted::New);
    }
    let header = header_of(rt, 0, 0)?;
    let (mut old, found) = open(rt, real.as_str(), header, &(), Wary)?;
    match found {
        Some(mut reader) => compact_journal(rt, real.as_str(), &mut old, &mut reader, start),
        None => Err(Uncompacted::New),
    }
}

// Compacts the file, which has this journal.
fn compact_journal<D: Disk, S: Start>(
    rt: &HostRuntime,
    path: &str,
    journal: &mut Journal<D, ()>,
    reader: &mut Reader,
    start: S,
) -> Result<Compacted<S, ()>, Uncompacted>
    requires usable { IsTrue (D.Disk.is_usable (disk_behind journal.old)) }
    ensures usable { IfOk result (λ made. IsTrue (file_is_usable S.Start (disk_behind made.journal))) }
    // What the old file stands for is what the new one stands for, on the disk.
    ensures kept { IfOk result (λ made. (s : Stores) × (last : ℕ)
        × IsReadAs D.Disk.seen D.Disk.may_leave D.Disk.is_clean journal.old journal.new reader.old s last
        × IsOnDisk (file_seen S.Start) (file_may_leave S.Start) (file_is_clean S.Start)
        made.journal made.header s last) }
{
    let header = reader.header();
    let opened = load(rt.alloc(), journal, reader, &(), &mut Unwatched)?;
    compact_opened(rt, path, header, &opened, &(), start)
}

/// Nobody is told how far a file was read (own).
#[derive(Drop)]
pub struct Unwatched;

impl Watch for Unwatched {
    fn has_read(&mut self, _place: usize) {}
}

/// Writes what stands in the file at this path, which whoever calls it has open and read, into a draft
/// beside it, and gives that the name of the old one, once it is on the disk (own). Where a
/// link stands at the path, that is done where it leads.
///
/// - `InTheWay`: what stands at the draft's name is no draft of this store, or came there
///   meanwhile. It stays. `Replaced`: another file has come to the path meanwhile. It stays, too.
/// - `Store`, `Failed`: the new file could not be made and written; it is removed again.
/// - `Unsynced`: it was given the name of the old one, but the folder could not be synced.
///
/// As `journal_file::open` says, a value of each `S` is taken once, and `S` says that the file has no byte.
pub fn compact_opened<S: Start, B>(
    rt: &HostRuntime,
    path: &str,
    header: Header,
    opened: &Opened,
    note: &B,
    start: S,
) -> Result<Compacted<S, B>, Uncompacted>
    ensures usable { IfOk result (λ made. IsTrue (file_is_usable S.Start (disk_behind made.journal))) }
    // What stood in the old file stands in the new one, and is on the disk.
    ensures kept { IfOk result (λ made. IsOnDisk (file_seen S.Start) (file_may_leave S.Start)
        (file_is_clean S.Start) made.journal made.header opened.now.stores opened.now.last.0) }
    ensures next { IfOk result (λ made. header.generation < made.header.generation
        ⊎ made.header.generation ≡ 2 ^ 64 - 1) }
    ensures began { IfOk result (λ made. made.header.began ≡ header.began) }
{
    let real = fs::canonicalize(rt, path)?;
    let later = header_of(rt, header.generation.saturating_add(1), header.began)?;
    let new = draft_of(rt, real.as_str(), header.key, later.generation)?;
    clear(rt, new.as_str(), later.began, later.generation)?;
    match write_anew(
        rt,
        real.as_str(),
        header,
        new.as_str(),
        later,
        opened,
        note,
        start,
    ) {
        Ok(made) => Ok(made),
        Err(error) => {
            remove_unmade(rt, new.as_str(), &error);
            Err(error)
        }
    }
}

// Removes a new file that could not be made, but not one that another program has made, or that has the name of the old one.
pub(crate) fn remove_unmade(rt: &HostRuntime, new: &str, error: &Uncompacted) {
    match error {
        Uncompacted::InTheWay(path) if path.as_str() == new => {}
        Uncompacted::Unsynced(_) => {}
        _ => {
            let _removed = fs::remove_file(rt, new);
        }
    }
}

/// A header whose key is drawn at random (own). `io::Error` where the system gives none.
pub fn header_of(rt: &HostRuntime, generation: u64, began: u64) -> io::Result<Header>
    ensures { IfOk result (λ header. (header.generation ≡ generation) × (header.began ≡ began)) }
{
    let key = RandomState::new(rt)?.hash_one(&0u8);
    Ok(Header {
        generation,
        key,
        began,
    })
}

// Writes the new file, and gives it the name of the old one, which has this header. `InTheWay` where it isn't new, `Replaced` where another file has the name of the old one; `Unsynced` where the folder could not be synced.
fn write_anew<S: Start, B>(
    rt: &HostRuntime,
    old: &str,
    replaced: Header,
    new: &str,
    header: Header,
    opened: &Opened,
    note: &B,
    start: S,
) -> Result<Compacted<S, B>, Uncompacted>
    requires later { 0 < header.generation }
    ensures usable { IfOk result (λ made. IsTrue (file_is_usable S.Start (disk_behind made.journal))) }
    ensures kept { IfOk result (λ made. IsOnDisk (file_seen S.Start) (file_may_leave S.Start)
        (file_is_clean S.Start) made.journal header opened.now.stores opened.now.last.0) }
    ensures header { IfOk result (λ made. made.header ≡ header) }
{
    make_new(rt, old, new)?;
    let (mut journal, found) = open(rt, new, header, note, start)?;
    if found.is_some() {
        return Err(in_the_way(rt, new)?);
    }
    clear_log(rt, new)?;
    let lengths = write_over(rt, old, replaced, new, &mut journal, header, opened, note)?;
    Ok(Compacted {
        journal,
        header,
        before: lengths.before,
        now: lengths.now,
    })
}

// Writes the snapshot into the new file, and gives it the name of the old one, which is on the disk then.
fn write_over<D: Disk, B>(
    rt: &HostRuntime,
    old: &str,
    replaced: Header,
    new: &str,
    journal: &mut Journal<D, B>,
    header: Header,
    opened: &Opened,
    note: &B,
) -> Result<Lengths, Uncompacted>
    requires usable { IsTrue (D.Disk.is_usable (disk_behind journal.old)) }
    requires anew { IsTrue (D.Disk.is_clean (disk_behind journal.old))
        → IsMadeAnew D.Disk.seen D.Disk.may_leave D.Disk.is_clean journal.old
        × (header_in journal.old ≡ header) }
    ensures written { OnOk result (IsOnDisk D.Disk.seen D.Disk.may_leave D.Disk.is_clean journal.new
        header opened.now.stores opened.now.last.0) }
    ensures usable { OnOk result (IsTrue (D.Disk.is_usable (disk_behind journal.new))) }
{
    write_into(rt.alloc(), journal, header, opened, note)?;
    let before = fs::metadata(rt, old)?.len();
    let now = fs::metadata(rt, new)?.len();
    if header_at(rt, old)? != Some(replaced) {
        return Err(Uncompacted::Replaced);
    }
    put_in_place(rt, new, old, journal, header, opened)?;
    match sync_folder(rt, old) {
        Ok(()) => Ok(Lengths { before, now }),
        Err(error) => Err(Uncompacted::Unsynced(error)),
    }
}

// Makes the new file, without a byte. `InTheWay` where something has its name, that came there meanwhile.
fn make_new(rt: &HostRuntime, old: &str, new: &str) -> Result<(), Uncompacted> {
    match make_like(rt, old, new) {
        Ok(()) => Ok(()),
        Err(error) if error.kind() == ErrorKind::AlreadyExists => Err(in_the_way(rt, new)?),
        Err(error) => Err(Uncompacted::Failed(error)),
    }
}

// Gives the new file the name of the old one, once what stood there is on the disk.
fn put_in_place<D: Disk, B>(
    rt: &HostRuntime,
    new: &str,
    old: &str,
    _journal: &Journal<D, B>,
    _header: Header,
    _opened: &Opened,
) -> io::Result<()>
    requires { IsOnDisk D.Disk.seen D.Disk.may_leave D.Disk.is_clean _journal.now _header
        _opened.now.stores _opened.now.last.0 }
{
    fs::rename(rt, new, old)
}

/// Makes a store at this path, where nothing stands, of what was read of another file with this header, and gives it (own).
/// It is of the next generation, and on the disk at `Ok`, its name too.
///
/// - `InTheWay`: something stands there. It stays.
/// - `Store`, `Failed`: the file could not be made and written; it is removed again.
///
/// As `journal_file::open` says, a value of each `S` is taken once, and `S` says that the file has no byte.
pub fn make_store<S: Start>(
    rt: &HostRuntime,
    path: &str,
    header: Header,
    opened: &Opened,
    start: S,
) -> Result<Journal<FileFrom<S>, ()>, Uncompacted>
    ensures kept { IfOk result (λ journal. (h : Header) × (h.began ≡ header.began)
        × IsOnDisk (file_seen S.Start) (file_may_leave S.Start) (file_is_clean S.Start)
        journal h opened.now.stores opened.now.last.0) }
{
    find_free(rt, path)?;
    let later = header_of(rt, header.generation.saturating_add(1), header.began)?;
    match write_store(rt, path, later, opened, start) {
        Ok(journal) => Ok(journal),
        Err(Uncompacted::InTheWay(path)) => Err(Uncompacted::InTheWay(path)),
        Err(error) => {
            let _removed = fs::remove_file(rt, path);
            Err(error)
        }
    }
}

// Writes the store, and puts its name on the disk. `InTheWay` where another program has made one there meanwhile.
fn write_store<S: Start>(
    rt: &HostRuntime,
    path: &str,
    header: Header,
    opened: &Opened,
    start: S,
) -> Result<Journal<FileFrom<S>, ()>, Uncompacted>
    requires later { 0 < header.generation }
    ensures kept { IfOk result (λ journal. IsOnDisk (file_seen S.Start) (file_may_leave S.Start)
        (file_is_clean S.Start) journal header opened.now.stores opened.now.last.0) }
{
    let (mut journal, found) = open(rt, path, header, &(), start)?;
    if found.is_some() {
        return Err(in_the_way(rt, path)?);
    }
    write_named(rt, path, &mut journal, header, opened)?;
    Ok(journal)
}

// Writes the snapshot into the file, and puts its name on the disk.
fn write_named<D: Disk>(
    rt: &HostRuntime,
    path: &str,
    journal: &mut Journal<D, ()>,
    header: Header,
    opened: &Opened,
) -> Result<(), Uncompacted>
    requires usable { IsTrue (D.Disk.is_usable (disk_behind journal.old)) }
    requires anew { IsTrue (D.Disk.is_clean (disk_behind journal.old))
        → IsMadeAnew D.Disk.seen D.Disk.may_leave D.Disk.is_clean journal.old
        × (header_in journal.old ≡ header) }
    ensures written { OnOk result (IsOnDisk D.Disk.seen D.Disk.may_leave D.Disk.is_clean journal.new
        header opened.now.stores opened.now.last.0) }
{
    write_into(rt.alloc(), journal, header, opened, &())?;
    let real = fs::canonicalize(rt, path)?;
    Ok(sync_folder(rt, real.as_str())?)
}

// The snapshot, which is on the disk at `Ok`.
fn write_into<D: Disk, B>(
    alloc: Global,
    journal: &mut Journal<D, B>,
    _header: Header,
    opened: &Opened,
    note: &B,
) -> Result<(), StoreError>
    requires usable { IsTrue (D.Disk.is_usable (disk_behind journal.old)) }
    requires anew { IsTrue (D.Disk.is_clean (disk_behind journal.old))
        → IsMadeAnew D.Disk.seen D.Disk.may_leave D.Disk.is_clean journal.old
        × (header_in journal.old ≡ _header) }
    ensures written { OnOk result (IsOnDisk D.Disk.seen D.Disk.may_leave D.Disk.is_clean journal.new
        _header opened.now.stores opened.now.last.0) }
    ensures usable { OnOk result (IsTrue (D.Disk.is_usable (disk_behind journal.new))) }
{
    compact(alloc, journal, &opened.stores, opened.last, note)
}
